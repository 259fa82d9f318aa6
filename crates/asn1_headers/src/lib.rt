//! What precedes the contents octets of an encoding (X.690 8.1.2, 8.1.3), and the errors of reading and writing: a
//! layer of `simple_asn1`, which is the crate for users.
//!
//! - [`header`]: identifier octets and length octets, read, sized and pushed; the classes; the count of headers;
//! - [`whole_header`]: the whole header at the front of octets, in one value;
//! - [`indefinite`]: the indefinite form of BER: its length octet and its end-of-contents octets;
//! - [`tags`]: the numbers of the tags of class Universal;
//! - [`types`]: the names of types;
//! - [`error`]: why octets were not read, why a block was not written.
//!
//! `simple_asn1` hands on the errors, `ASN1Class`, `HeaderCount`, and the calls whose names begin with `decode_` and
//! `encode_`. All else is public for the crates above alone, and may change with them: what looks at octets
//! (`read_header`, `length_at`, `identifier_at`), what is pushed (`push_length`, `push_identifier`), and sizes
//! (`length_size`, `identifier_size`).
#![tactic(auto)]

pub mod error;
pub mod header;
pub mod indefinite;
pub mod tags;
pub mod types;
pub mod whole_header;
