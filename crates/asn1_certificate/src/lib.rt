//! Certificates and lists of revoked ones (RFC 5280), certification requests (RFC 2986) and private keys (RFC 5958) by
//! their types, in place: which blocks of an [`Outline`] are the fields. Nothing is copied, and no memory is taken.
//! Each struct has the fields of a type under their names, each as the index of its block; `at` gives them for the
//! block at an index, and `None` for a block of another type. Where a field is a SEQUENCE or SET of items, their
//! indices are those of [`Outline::items`].
//!
//! It says what stands in a document, and no more: it checks no signature, no chain of certificates, no moment and no
//! purpose.
//!
//! ```rust
//! use asn1_certificate::certificate::{Certificate, TBSCertificate};
//! use simple_asn1::{BigInt, Outline};
//! use std::alloc::{AllocError, Global};
//!
//! // The serial number of a certificate.
//! fn serial_number(alloc: Global, outline: &Outline<'_>) -> Result<Option<BigInt>, AllocError> {
//!     let Some(certificate) = Certificate::at(outline, 0) else {
//!         return Ok(None);
//!     };
//!     let Some(signed) = TBSCertificate::at(outline, certificate.tbs_certificate) else {
//!         return Ok(None);
//!     };
//!     match outline.block(signed.serial_number) {
//!         Some(block) => block.integer(alloc),
//!         None => Ok(None),
//!     }
//! }
//! ```
//!
//! [`Outline`]: asn1_outline::outline::Outline
//! [`Outline::items`]: asn1_outline::outline::Outline::items
#![tactic(auto)]

pub mod algorithm;
pub mod attribute;
pub mod certificate;
pub mod extension;
mod fields;
mod kinds;
pub mod names;
pub mod private_key;
pub mod request;
pub mod revocation;
mod signed;
pub mod validity;
