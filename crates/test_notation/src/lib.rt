//! The notation of blocks and of octets, in which the rows of tests and the answers of `test_calls` are written.
//!
//! It says each field of a block whole, offsets too: two lists of blocks that can be written as octets are the same
//! text exactly if they are the same blocks at the same offsets. Of blocks made by hand that have no octets two may be:
//! the object identifiers of 3 and 2^128, and of 4 and 2^128, are both `[]`.
//!
//! **Octets** are pairs of hex digits in capitals, with a space between two pairs: `02 01 FF`. Of none nothing is
//! written: an answer of `test_calls` that ends with none of them, as that of `signed` may, ends in a blank, which some
//! editors strip. In a block they stand in brackets: `[02 01 FF]`, `[]`.
//!
//! **Characters** are `U+` and their number in hex, in capitals and with at least four digits, with a space between two
//! of them, and in brackets: `[U+00E9 U+1F600]`, `[]`.
//!
//! **Numbers.** Offsets and counts of bits are decimal. So is an integer that an `i64` holds, with `-` where it is
//! below 0; any other is its shortest two's complement octets (X.690 8.3), in brackets: 2^64 is
//! `[01 00 00 00 00 00 00 00 00]`. A tag number that a `u64` holds is decimal; any other is the octets of its shortest
//! base-128 form (X.690 8.1.2.4.2), in brackets: 2^64 is `[82 80 80 80 80 80 80 80 80 00]`.
//!
//! **Components** of an object identifier are decimal, with a point between two of them: `1.2.840`. Where one is 2^128
//! or more, the contents octets that are written of the identifier stand in their place, in brackets.
//!
//! **Moments** are `YYYY-MM-DD hh:mm:ss`, and a point and nine digits of nanoseconds where they are not 0:
//! `1992-05-21 00:00:00.300000000`. A year below 0, which no octets have, is `-` and three digits or more: `-005`.
//!
//! **Blocks** are the name of their variant and its fields, with `, ` between two fields, in parentheses:
//!
//! | Block | Written |
//! |---|---|
//! | BOOLEAN | `Boolean(OFFSET, true)`, `Boolean(OFFSET, false)` |
//! | INTEGER | `Integer(OFFSET, NUMBER)` |
//! | BIT STRING | `BitString(OFFSET, BITS, [OCTETS])` |
//! | OCTET STRING | `OctetString(OFFSET, [OCTETS])` |
//! | NULL | `Null(OFFSET)` |
//! | OBJECT IDENTIFIER | `ObjectIdentifier(OFFSET, COMPONENTS)` |
//! | UTCTime, GeneralizedTime | `UTCTime(OFFSET, MOMENT)`, `GeneralizedTime(OFFSET, MOMENT)` |
//! | UTF8String | `UTF8String(OFFSET, [CHARACTERS])` |
//! | any other string of characters | so too, with its own name |
//! | SEQUENCE, SET | `Sequence(OFFSET, [BLOCKS])`, `Set(OFFSET, [BLOCKS])` |
//! | explicit tagging | `Explicit(CLASS, OFFSET, TAG, BLOCK)` |
//! | any other encoding | `Unknown(CLASS, CONSTRUCTED, OFFSET, TAG, [OCTETS])`, `CONSTRUCTED` being `true` or `false` |
//!
//! A class is `Universal`, `Application`, `CS` (for `ContextSpecific`) or `Private`. Between two blocks of a list
//! stands `, `: `Sequence(0, [Integer(2, 5), Null(5)])`. A document is written as the list of its blocks, without
//! brackets.
#![tactic(auto)]

mod blocks;
mod octets;
mod scalars;

pub use crate::blocks::{blocks_text, class_name};
pub use crate::octets::{octets_of, octets_text};
pub use crate::scalars::{characters_text, components_text, integer_text};
