//! The names of the fields of certificates, keys, requests, lists and messages, by their shapes.
//!
//! A shape says which fields a type of ASN.1 has: their names, types and tags, which of them are optional, and what
//! the octets of a string hold. The shapes are text, in [`Shapes::new`] those of RFCs. A [`FieldWalk`] is told the
//! elements of a document one behind another, and says of each which field of its shape it is, a [`Spot`], with its
//! names and the type of its contents octets. [`Shapes::value_name`] has the name of a number, and
//! [`Shapes::bits_text`] those of bits.
//!
//! ```rust
//! use dump_shapes::{Around, FieldWalk, Shapes};
//! use std::alloc::{AllocError, Global};
//!
//! // The octet that begins a SEQUENCE.
//! const SEQUENCE: Option<u8> = Some(0x30);
//!
//! // Whether the first field of a Certificate is its `tbsCertificate`: it is.
//! fn begins_with_tbs(alloc: Global) -> Result<bool, AllocError> {
//!     let shapes = Shapes::new(alloc)?;
//!     let certificate = shapes.named("Certificate").map_or(Around::Unknown, Around::Shape);
//!     let mut walk = FieldWalk::inside(alloc, &shapes, certificate);
//!     walk.next(0, SEQUENCE)?;
//!     match walk.next(1, SEQUENCE)? {
//!         Some(spot) => Ok(spot.named.field == Some("tbsCertificate")),
//!         None => Ok(false),
//!     }
//! }
//! ```
#![tactic(auto)]

mod bits;
mod choosing;
mod field_walk;
mod like;
mod named;
mod shapes;
mod shapes_text;
mod spot;
mod tables;

pub use field_walk::{Around, FieldWalk};
pub use named::{Held, LeafType, Named};
pub use shapes::{Candidate, Shapes, ValueRule};
pub use spot::{Lead, Spot};
