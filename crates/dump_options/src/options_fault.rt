// Why arguments are no command line.

use std::alloc::{AllocError, Global};
use thiserror::Error;

// What stands before the argument in a tip of `clap`.
const TIP: &str = "\n\n  tip: a similar argument exists: ";

/// Why there are no options.
#[derive(Debug, Drop, Error)]
pub enum OptionsFault<'a> {
    /// What `clap` says of the arguments: help, the version, a mistake in them, or that memory ran out.
    #[error("{0}")]
    Command(#[from] clap::Error),
    /// The value of the argument is not a 64-bit number.
    #[error("error: invalid value '{1}' for '--{0}': not a 64-bit number")]
    NoNumber(&'static str, &'a str),
    /// The value of `--color` is none of the three.
    #[error("error: invalid value '{0}' for '--color': not auto, always or never")]
    NoColor(&'a str),
    /// Two arguments that do not go together.
    #[error("error: the argument '--{0}' cannot be used with '--{1}'")]
    NotTogether(&'static str, &'static str),
}

impl From<AllocError> for OptionsFault<'_> {
    fn from(e: AllocError) -> Self {
        OptionsFault::Command(e.into())
    }
}

impl OptionsFault<'_> {
    /// Whether the arguments asked for help or the version: the text goes to standard output, and nothing is wrong.
    pub fn is_answer(&self) -> bool {
        matches!(self, OptionsFault::Command(e) if !e.use_stderr())
    }

    /// The text for the user: the whole of help and of the version, and one line of what is wrong, with an argument
    /// that is like an unknown one.
    pub fn text(&self, alloc: Global) -> Result<String, AllocError> {
        let whole = format!(in alloc; "{self}")?;
        if self.is_answer() {
            return Ok(whole);
        }
        let line = first_line(&whole);
        match whole.split_once(TIP) {
            Some((_, tip)) => format!(in alloc; "{line}; did you mean {}?", first_line(tip)),
            None => String::from_str(alloc, line),
        }
    }
}

// The text up to the end of its first line.
fn first_line(text: &str) -> &str {
    text.lines().next().unwrap_or("")
}
