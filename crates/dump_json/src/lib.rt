//! Documents as JSON, a line each, for programs.
//!
//! [`Dumper::push_document`] writes an object whose `blocks` are what has a line in a dump of `dump_lines`, in the same
//! order. The members of these objects, and what their values are, stand in `docs/DUMP.md` under "JSON".
//!
//! End-of-contents octets of the indefinite form (X.690 8.1.5) have an object; where they are missing it has no octets,
//! and a fault.
//!
//! A `fault` is an object with `text`, and `code`, the name of the error, and `offset`, where it has these. The first
//! fault is a line of its own behind that of the blocks; if octets are not read, it is the only one. An [`Origin`] adds
//! the members `file` and `label` to each line, of each that is known. Faults inside octets of strings count for
//! nothing.
//!
//! Where documents have to be DER, a line of what is not follows, if anything is, also inside octets of strings:
//! `not_der` is an array of such rules, each with the `offset` of its encoding in front.
//!
//! A character that is not shown in a dump, as a control or format character, is an escape: `\u200b`, which means the
//! same.
//!
//! Numbers beyond 2^53 - 1 are texts since `jq` and JavaScript round them, as RFC 7493 (section 2.2) lets readers do.
#![tactic(auto)]

mod json;
mod labels;
mod leaf;
mod line;
mod members;
mod number;
mod piece;
mod rows;
mod string;
mod value;

pub use line::{Dumper, Origin};
