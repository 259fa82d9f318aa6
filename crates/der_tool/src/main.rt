//! Rewrites DER documents, one in hex digits a line, to their canonical octets.
#![tactic(auto)]

mod answers;
mod laws;
mod tool;

use crate::tool::{fault_text, run, status};
use std::process::ExitCode;

fn main(rt: HostRuntime) -> ExitCode {
    let outcome = run(rt.alloc(), &mut rt.stdin(), &mut rt.stdout());
    if let Err(fault) = &outcome {
        let _ = eprintln!(rt; "{}", fault_text(fault));
    }
    ExitCode::from(status(&outcome))
}
