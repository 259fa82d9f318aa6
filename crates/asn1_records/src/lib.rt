//! Documents, their values and what is written of them as flat records, which C, Rust and Python read: a [`Block`] for
//! each block, a status in place of an error, and octets in the caller's room. `simple_asn1_c` has each call under its
//! name of C.
//!
//! [`Block`]: record::Block
#![tactic(auto)]

mod alone;
pub mod bits;
mod canonical;
pub mod certificate;
pub mod components;
pub mod departures;
pub mod document_entries;
mod dotted;
pub mod encoding;
mod fields;
pub mod first_fault;
mod header_record;
pub mod identifier;
pub mod integer;
mod items;
pub mod moment;
mod number;
pub mod paths;
mod prepender;
pub mod put_encodings;
pub mod putting;
pub mod raw;
pub mod record;
pub mod request;
pub mod revocation_list;
pub mod rewriting;
pub mod signed;
pub mod spelling;
mod status;
pub mod text;
