//! A document gone over by its headers, once for lines, pages, JSON and accounts.
//!
//! `walk::Walk` goes over the octets of a document by their headers. Each `piece::Piece` that it returns is an
//! encoding, end-of-contents octets, or octets that begin with no header: with its value, what is wrong with it,
//! which rules of DER it breaks, and the encodings inside the octets of a string. `dump_lines`, `dump_json` and
//! `dump_text` show the same pieces. `path::Paths` says which fields lead to each.
//!
//! An element is an encoding, or what has a length of the indefinite form of BER (X.690 8.1.3.6), with its
//! end-of-contents octets. [`block_at`] finds the one whose row stands at an offset, by the same walk, and
//! [`string_octets`] the octets that a string holds.
//!
//! The only error is that memory ran out.
#![tactic(auto)]

mod block;
pub mod cursor;
pub mod element_header;
pub mod fields;
mod fit;
pub mod marks;
pub mod nested;
pub mod path;
pub mod piece;
pub mod place;
pub mod segments;
pub mod string_value;
pub mod strings;
pub mod style;
pub mod sum;
pub mod walk;

pub use block::{Block, NoBlock, block_at};
pub use fit::fitting;
pub use string_value::{NoString, string_octets};
