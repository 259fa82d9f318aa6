//! Shows DER documents, which come as octets, in PEM or in hex digits.
#![tactic(auto)]

mod host;

use crate::host::{HostReader, HostWriter, color_here, print_error, print_reason, width_here};
use der_io::{StreamFault, arguments, fault_text, read_all};
use dump_inputs::{Outcome, Source, run, status};
use dump_names::{NamesFault, OwnNames};
use dump_options::{OptionsFault, options_of};
use dump_shapes::Shapes;
use jiff::Timestamp;
use jiff::civil::DateTime;
use jiff::tz::TimeZone;
use std::alloc::{AllocError, Global};
use std::io::{BufWriter, ErrorKind, Write};
use std::process::ExitCode;
use std::time::SystemTime;

// The exit status after arguments that are not understood.
const WRONG_ARGUMENTS: u8 = 2;

const NOT_UTF8: &str =
    "error: arguments must be UTF-8: give another file as standard input: der_dump < FILE";

// How many types are named at most whose names are like one that no type has.
const NAMES_SHOWN: usize = 5;

// How many octets of the output are kept until they are written.
const BUFFER: usize = 65_536;

// Why nothing is dumped.
#[derive(Drop)]
enum Refusal {
    // the arguments are no text
    NotUtf8,
    // this is wrong
    Text(String),
    // a stream failed, or memory ran out
    Stream(StreamFault),
}

impl From<AllocError> for Refusal {
    fn from(e: AllocError) -> Refusal {
        Refusal::Stream(e.into())
    }
}

impl From<StreamFault> for Refusal {
    fn from(fault: StreamFault) -> Refusal {
        Refusal::Stream(fault)
    }
}

fn main(rt: HostRuntime) -> ExitCode {
    match answer(&rt) {
        Ok(status) => return ExitCode::from(status),
        Err(Refusal::NotUtf8) => print_error(&rt, NOT_UTF8),
        Err(Refusal::Text(text)) => print_error(&rt, &text),
        Err(Refusal::Stream(fault)) => print_fault(&rt, &fault),
    }
    ExitCode::from(WRONG_ARGUMENTS)
}

// Prints a fault, for which no memory is needed. Those of reading were printed by the reader.
fn print_fault(rt: &HostRuntime, fault: &StreamFault) {
    if *fault != StreamFault::Read {
        let _ = eprintln!(rt; "error: {}", fault_text(fault));
    }
}

// Does what the arguments ask for, and returns the exit status.
fn answer(rt: &HostRuntime) -> Result<u8, Refusal> {
    let arguments = arguments(rt).map_err(|e| match e.kind() {
        ErrorKind::OutOfMemory => Refusal::Stream(StreamFault::Memory),
        _ => Refusal::NotUtf8,
    })?;
    let mut options = match options_of(rt.alloc(), &arguments) {
        Ok(options) => options,
        Err(fault) => return print_answer(rt, &fault),
    };
    options.color = color_here(rt, options.color);
    options.width = width_here(rt, &options);
    if let Some(name) = options.type_name {
        refuse_unknown(rt, name)?;
    }
    let own = options.oids.map(|file| own_names(rt, file)).transpose()?;
    let mut sources = sources(rt, &options.inputs)?;
    let writer = HostWriter {
        rt,
        is_closed: false,
    };
    let Ok(writer) = BufWriter::with_capacity(rt.alloc(), BUFFER, writer) else {
        return Err(Refusal::Stream(StreamFault::Memory));
    };
    let (outcome, mut writer) = run(rt.alloc(), &options, own, now(rt), &mut sources, writer);
    match &outcome {
        Ok(outcomes) => print_reasons(rt, &options.inputs, outcomes),
        Err(fault) => {
            // what was written before memory ran out
            let _ = writer.flush();
            if !writer.get_ref().is_closed {
                print_fault(rt, fault);
            }
        }
    }
    Ok(status(&outcome))
}

// Help and the version go to standard output.
fn print_answer(rt: &HostRuntime, fault: &OptionsFault<'_>) -> Result<u8, Refusal> {
    let text = fault.text(rt.alloc())?;
    if !fault.is_answer() {
        return Err(Refusal::Text(text));
    }
    match print!(rt; "{text}") {
        Ok(()) => Ok(0),
        Err(e) if e.kind() == ErrorKind::BrokenPipe => Ok(WRONG_ARGUMENTS),
        Err(_) => Err(Refusal::Stream(StreamFault::Write)),
    }
}

// Refuses a name that no type has.
fn refuse_unknown(rt: &HostRuntime, name: &str) -> Result<(), Refusal> {
    let shapes = Shapes::new(rt.alloc())?;
    match shapes.named(name) {
        Some(_) => Ok(()),
        None => Err(Refusal::Text(unknown_type(rt.alloc(), &shapes, name)?)),
    }
}

// What is said of a name that no type has.
fn unknown_type(alloc: Global, shapes: &Shapes, name: &str) -> Result<String, AllocError> {
    let mut similar = shapes.like(alloc, name)?;
    if similar.is_empty() {
        return format!(in alloc;
            "error: no type '{name}' is known; give one of an RFC, such as Certificate"
        );
    }
    similar.truncate(NAMES_SHOWN);
    let similar = similar.join(alloc, ", ")?;
    format!(in alloc; "error: no type '{name}' is known; similar: {similar}")
}

// The names of object identifiers in a file.
fn own_names(rt: &HostRuntime, file: &str) -> Result<OwnNames, Refusal> {
    let text = read_all(rt.alloc(), &mut HostReader::new(rt, file))?;
    match OwnNames::read(rt.alloc(), &text) {
        Ok(own) => Ok(own),
        Err(NamesFault::Line(number)) => Err(Refusal::Text(format!(in rt.alloc();
            "error: {file}: line {number}: not OID, Description or Comment"
        )?)),
        Err(NamesFault::Memory) => Err(Refusal::Stream(StreamFault::Memory)),
    }
}

// The inputs with these names, none of them open yet.
fn sources<'r, 'a>(
    rt: &'r HostRuntime,
    names: &[&'a str],
) -> Result<Vec<Source<'a, HostReader<'r, 'a>>>, AllocError> {
    let mut sources = Vec::new(rt.alloc());
    for name in names {
        let reader = HostReader::new(rt, name);
        sources.push(Source { name, reader })?;
    }
    Ok(sources)
}

// The time in UTC, if the clock has one.
fn now(rt: &HostRuntime) -> Option<DateTime> {
    let now = Timestamp::try_from(SystemTime::now(rt).ok()?).ok()?;
    Some(now.to_zoned(TimeZone::UTC).datetime())
}

// Prints on standard error of which inputs nothing was written, and why.
fn print_reasons(rt: &HostRuntime, names: &[&str], outcomes: &[Outcome]) {
    for (name, outcome) in names.iter().zip(outcomes) {
        if let Outcome::Lacking(why) = outcome {
            print_reason(rt, name, why);
        }
    }
}
