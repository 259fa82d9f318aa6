//! The command line of `der_dump`: which arguments ask for what.
//!
//! [`options_of`] reads the arguments by the crate `clap`. What it refuses is an [`OptionsFault`], whose text is for
//! the user.
#![tactic(auto)]

mod command;
mod options;
mod options_fault;

pub use options::{Color, Options, Output, Part, Target, Task, Width, options_of};
pub use options_fault::OptionsFault;
