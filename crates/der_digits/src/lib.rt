//! Text of hex digits, and the octets that they spell.
//!
//! Digits come plain, with separators and prefixes between them, or in columns, as `xxd`, `hexdump` and `od` print them
//! ([`hex_text`]); and in columns with lines left out, or in sources of C ([`layouts`]). Digits are decoded while they
//! are read, so that a text is not copied. [`lines`] takes any text apart, and [`search`] looks for a part of it.
#![tactic(auto)]

mod hex_decoder;
pub mod hex_text;
pub mod layouts;
pub mod lines;
pub mod search;

pub use hex_decoder::Spelling;
