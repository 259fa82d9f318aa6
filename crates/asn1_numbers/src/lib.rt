//! Octets and numbers: the lowest layer of `simple_asn1`, which is the crate for users.
//!
//! - [`number::big_int`]: whole numbers of any size, by their two's complement octets;
//! - [`number::big_uint`]: natural numbers of any size, by their base-128 octets;
//! - [`number::decimal`]: decimal numerals, written and read;
//! - [`sink`]: where octets are pushed, a vector or a comparison with octets that are there.
//!
//! `simple_asn1` hands on `BigInt` and `BigUint`. All else is public for the crates above alone, and may change with
//! them: `sink`, `decimal`, and of the numbers `octets`, `signed_value`, `from_low_bits`, `base128_size` and
//! `push_base128`.
#![tactic(auto)]

pub mod number;
pub mod sink;
