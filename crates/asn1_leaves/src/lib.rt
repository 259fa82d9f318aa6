//! The contents octets of blocks that hold no blocks (X.690 8.2 to 8.8, 8.19, 8.23, 8.25): a layer of `simple_asn1`,
//! which is the crate for users.
//!
//! - [`contents`]: a module for each kind of contents octets: how they are read, how many are written, how they are
//!   pushed, and which values are read back as they are;
//! - [`from_big_uint`]: the types that a component of an object identifier is asked for as;
//! - [`oid`]: the type of object identifiers.
//!
//! `simple_asn1` hands on `OID` and `FromBigUint`. All else is public for the crates above alone, and may change with
//! them.
#![tactic(auto)]

pub mod contents;
pub mod from_big_uint;
pub mod oid;
