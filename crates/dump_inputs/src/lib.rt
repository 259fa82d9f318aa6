//! What `der_dump` writes of its inputs.
//!
//! [`run`] reads inputs, each a [`Source`] with a name, and writes what the options of `dump_options` want of each: a
//! dump, a line of JSON, a section of a page, or octets as they stand. An input is a document in one of the forms of
//! `der_forms`, told apart by its octets; a dump has the lines of `dump_lines`, a line of JSON is that of `dump_json`,
//! and a page that of `dump_rows`. An [`Outcome`] says what was done with an input, and [`status`] is the exit status
//! after a run.
//!
//! `sources` reads the inputs, `show` writes their documents, each object of PEM before it decodes the next, and
//! `blocks` finds the block that is meant, to show it or to write a part of it: one at an offset, or one to which a
//! path leads (`by_path`). `value_text` has the value of a block as text. `other_forms` knows how forms begin that are
//! not read.
//!
//! In a text in no form of `der_forms`, `found` finds documents among other words, by `spelled` and `document`.
//! `quoted` reads PEM whose lines have marks around them, and `utf16` text without a byte order mark.
//!
//! It opens nothing by itself: `der_dump` gives it files and standard input, and tests give it octets.
#![tactic(auto)]

mod appended;
mod blocks;
mod by_path;
mod document;
mod found;
mod other_forms;
mod outcome;
mod quoted;
mod show;
mod sources;
mod spelled;
mod utf16;
mod value_text;

pub use outcome::Outcome;
pub use sources::{Source, run, status};
