//! The rows of DER documents, for people: one for each block, in tree order.
//!
//! A [`Dumper`] prints the rows of a document by a `Printer` of `dump_rows`, in a [`Style`]. As lines they are:
//!
//! ```text
//!       0  2       6  SEQUENCE
//!       2  2       4    OCTET STRING, containing
//! >     4  2       2      SEQUENCE
//! >     6  2       0        NULL
//! ```
//!
//! A line has the offset of its encoding, in octets from the first of the document, how many octets its header has, how
//! many contents octets it announces, the name of its field, if it is known, its type, and its value. In the place of
//! their number `inf` stands where the length is indefinite (X.690 8.1.3.6); then end-of-contents octets end what
//! stands inside, and have a line, too. A string that is constructed has the value of its segments joined, if these are
//! well-formed, and each of them a line. Encodings inside the bytes of a string have lines that begin with `>`. What is
//! wrong with an encoding is said on its line, and the first fault again on the last line, which begins with `!`; what
//! came of it is the [`Verdict`]. Where the library reads otherwise than X.690, on purpose, lines show what X.690 has.
//! What breaks a rule of DER has a mark at the end of its line, with the rules that `asn1_der` finds; where
//! documents have to be DER, it is listed behind the lines. [`push_refusal`] prints why there is no document.
//!
//! The errors are that memory ran out, and that a write failed. What was written before stays.
#![tactic(auto)]

mod document;
mod encodings;
mod values;

pub use document::{Dumper, Verdict, push_refusal};
pub use dump_walk::style::Style;
