//! Writes the octets that were signed of a signed triple, as a certificate (X.509) is one.
//!
//! Standard input is a document whose first block is a SEQUENCE of exactly three: any block, a SEQUENCE that begins
//! with an OBJECT IDENTIFIER, and a BIT STRING. It is read by its headers: values are not looked into. It comes as it
//! is, in PEM (its first object), in hex digits or in base64. The octets of the first of the three are written to
//! standard output, exactly as they are in the document, and nothing else is. The exit status is 0; it is 1 after a
//! fault of reading or writing, 2 where memory ran out or there are arguments, and 3 if the input is not such a
//! document, with a line on standard error that says why. `--help` and `--version` are answered.
#![tactic(auto)]

mod run;

use crate::run::{RunFault, fault_text, run, status};
use clap::Command;
use clap::error::ErrorKind;
use der_io::{StreamFault, arguments, escaped, fault_status};
use std::alloc::{AllocError, Global};
use std::io;
use std::process::ExitCode;

// The exit status after arguments that are not understood.
const WRONG_ARGUMENTS: u8 = 2;

// What `--version` prints after the name.
const VERSION: &str = "1.0.0";

const ABOUT: &str =
    "Writes the bytes that were signed of a certificate, request or revocation list.\n\n\
    It is read from standard input, as DER, PEM, hex digits or base64.";

fn main(rt: HostRuntime) -> ExitCode {
    let arguments = match arguments(&rt) {
        Ok(arguments) => arguments,
        Err(e) => {
            let _ = eprintln!(rt; "{}", arguments_fault(&e));
            return ExitCode::from(WRONG_ARGUMENTS);
        }
    };
    let command = Command::new(rt.alloc(), "der_signed")
        .version(VERSION)
        .about(ABOUT);
    match command.try_get_matches_from(&arguments) {
        Ok(_) => ExitCode::from(write_content(&rt)),
        Err(answer) => ExitCode::from(print_answer(&rt, &answer)),
    }
}

// Why there are no arguments in UTF-8.
fn arguments_fault(e: &io::Error) -> &'static str {
    match e.kind() {
        io::ErrorKind::OutOfMemory => memory_text(),
        _ => "error: arguments are not UTF-8",
    }
}

fn memory_text() -> &'static str {
    fault_text(&RunFault::Stream(StreamFault::Memory))
}

// Prints help and the version to standard output, and what is wrong with the arguments, on one line, to standard error.
fn print_answer(rt: &HostRuntime, answer: &clap::Error) -> u8 {
    if matches!(answer.kind(), ErrorKind::OutOfMemory) {
        let _ = eprintln!(rt; "{}", memory_text());
        return WRONG_ARGUMENTS;
    }
    let Ok(text) = format!(in rt.alloc(); "{answer}") else {
        let _ = eprintln!(rt; "{}", memory_text());
        return WRONG_ARGUMENTS;
    };
    if matches!(
        answer.kind(),
        ErrorKind::DisplayHelp | ErrorKind::DisplayVersion
    ) {
        return match print!(rt; "{text}") {
            Ok(()) => 0,
            Err(_) => fault_status(&StreamFault::Write),
        };
    }
    let line = text.lines().next().unwrap_or("");
    let _ = match escaped(rt.alloc(), line.as_bytes()) {
        Ok(shown) => eprintln!(rt; "{shown}"),
        Err(_) => eprintln!(rt; "{}", memory_text()),
    };
    WRONG_ARGUMENTS
}

// Writes what was signed of the document on standard input.
fn write_content(rt: &HostRuntime) -> u8 {
    let outcome = run(rt.alloc(), &mut rt.stdin(), &mut rt.stdout());
    if let Err(fault) = &outcome {
        let _ = match fault_message(rt.alloc(), fault) {
            Ok(message) => eprintln!(rt; "{message}"),
            Err(_) => eprintln!(rt; "{}", fault_text(fault)),
        };
    }
    status(&outcome)
}

// The message of a fault, with what is no printed character escaped.
fn fault_message(alloc: Global, fault: &RunFault) -> Result<String, AllocError> {
    let text = fault_text(fault);
    let message = match fault {
        RunFault::NoDocument(why) => format!(in alloc; "{text}: {why}")?,
        RunFault::Refused(why) => format!(in alloc; "{text}: {why}")?,
        _ => String::from_str(alloc, text)?,
    };
    escaped(alloc, message.as_bytes())
}
