//! Blocks written as their canonical octets, and documents that are looked at for whether they are canonical: a layer
//! of `simple_asn1`, which is the crate for users.
//!
//! - [`write`]: blocks are written, and documents rewritten; [`measure`] and [`push`] are its two walks;
//! - [`faithful`]: only blocks that are read back as they are;
//! - [`check`]: whether octets are a document; [`size`]: how many octets are written of it; [`strict`]: only canonical
//!   documents are read;
//! - [`in_place`], [`frequent`]: quick looks at octets, which find nearly all canonical octets to be so.
//!
//! `simple_asn1` hands on `to_der` and its like, `check_document`, `canonical_size` and `from_der_strict`. All else is
//! public for the crates above alone, and may change with them.
#![tactic(auto)]

pub mod check;
pub mod faithful;
pub mod frequent;
pub mod in_place;
mod leaf_size;
mod measure;
mod push;
pub mod size;
pub mod strict;
pub mod write;
