//! Answers calls of `simple_asn1`, one a line of its standard input, each with its octets in hex digits.
//!
//! The rows of `stdin`, and their answers in `stdout`, are tests: both are written by hand, from what the grammar says.
//! [`answers`](crate::lines::answers) says what a line is and how it is answered.
#![tactic(auto)]

mod arguments;
mod calls;
mod departures;
mod documents;
mod headers;
mod identifiers;
mod lines;
mod made;
mod refusal;
mod tried;

use crate::lines::answers;
use der_io::{StreamFault, fault_text, read_all, status, write_all};
use std::alloc::Global;
use std::io::{Read, Write};
use std::process::ExitCode;

fn main(rt: HostRuntime) -> ExitCode {
    let outcome = run(rt.alloc(), &mut rt.stdin(), &mut rt.stdout());
    if let Err(fault) = &outcome {
        let _ = eprintln!(rt; "{}", fault_text(fault));
    }
    ExitCode::from(status(&outcome))
}

// Reads all of `r`, and writes the answer to each line that is no comment to `w`. The whole input and the whole output
// are kept in memory: all input is read before anything is written.
fn run<R: Read, W: Write>(alloc: Global, r: &mut R, w: &mut W) -> Result<(), StreamFault> {
    let input = read_all(alloc, r)?;
    let Ok(output) = answers(alloc, &input) else {
        return Err(StreamFault::Memory);
    };
    write_all(w, &output)
}
