//! Types of ASN.1 (X.680) made of parts. A type is put together in one line from the types here. That its values are
//! read and written, and that each comes back, is proved here once, for all types.
//!
//! ```rust
//! use asn1_types::{End, Field, OctetString, Sequence, Whole, WholeErr};
//! use simple_asn1::{BigInt, der_decode};
//! use std::alloc::Global;
//!
//! /// SEQUENCE { salt OCTET STRING, count INTEGER }
//! type Token = Sequence<Field<OctetString, Field<BigInt, End<0>>>>;
//!
//! // Of `30 07 04 02 CA FE 02 01 05` the octets `CA FE`, and 5.
//! fn token(alloc: Global, octets: &[u8]) -> Result<Whole<Token>, WholeErr> {
//!     der_decode(alloc, octets)
//! }
//! ```
#![tactic(auto)]

ghost use Rattle.std.specs.Prelude.{◌≡◌, ◌≢◌, ℕ, IfOk, IfErr, MatchResult};
ghost use Rattle.asn1_blocks.specs.Tree.{Tree, shape};
ghost use Rattle.asn1_blocks.specs.View.{view};
ghost use Rattle.asn1_headers.specs.declared.error.ASN1EncodeErr.TheVariants.{OutOfMemory as no_memory};
ghost use Rattle.asn1_types.specs.declared.TypeErr.TheVariants.{Shape};

mod any;
mod apart;
mod choice;
mod defaulted;
mod encoded;
mod enumerated;
mod fields;
mod groups;
mod last_fields;
mod leaves;
mod lists;
mod named;
mod set_order;
mod strings;
mod tagged;
mod times;
mod whole;
mod wide;

pub use crate::any::Any;
pub use crate::apart::{Before, BeforeOptional, Last};
pub use crate::choice::{Or, Unlike};
pub use crate::defaulted::{DefaultOf, Defaulted, False, Natural};
pub use crate::enumerated::Enumerated;
pub use crate::fields::{Apart, End, Field, Fields, Optional, WriteFields};
pub use crate::groups::{Sequence, Set};
pub use crate::last_fields::LastFields;
pub use crate::leaves::{BitString, Null, OctetString};
pub use crate::lists::{SequenceOf, SetOf};
pub use crate::named::Named;
pub use crate::strings::{
    Bmp, BmpString, Ia5, Ia5String, Printable, PrintableString, Teletex, TeletexString, Text,
    TextKind, Universal, UniversalString, Utf8, Utf8String,
};
pub use crate::tagged::{Explicit, ImplicitOctets};
pub use crate::times::{GeneralizedTime, UtcTime};
pub use crate::whole::{Whole, WholeErr};
pub use crate::wide::Fields4;
use asn1_blocks::block::ASN1Block;
use asn1_headers::error::ASN1EncodeErr;
use std::alloc::{AllocError, Global};
use thiserror::Error;

/// Why a block is not a value of a type.
#[derive(Clone, Copy, Debug, Error, PartialEq)]
pub enum TypeErr {
    /// The block at this offset is not of the type that has to stand there. Where a field is missing, it is the block
    /// that lacks it.
    #[error("The block at offset {0} is not of the type that has to stand there")]
    Shape(usize),
    /// Memory ran out.
    #[error("Out of memory")]
    OutOfMemory,
}

impl From<AllocError> for TypeErr {
    ghost use Rattle.asn1_types.specs.declared.TypeErr.TheVariants.{OutOfMemory};

    ghost from_gives = { λ _ e. e ≡ OutOfMemory };

    fn from(_: AllocError) -> TypeErr {
        TypeErr::OutOfMemory
    }
}

/// A type each of whose values is one block.
pub trait Asn1Type: Sized {
    /// The tree of a value.
    ghost tree: { Self → Tree (Unit {0}) };

    /// Reads the value that a block is.
    ///
    /// # Errors
    /// `Shape` exactly where the block is no value of the type; `OutOfMemory`.
    fn read(alloc: Global, block: &ASN1Block) -> Result<Self, TypeErr>
        ensures { MatchResult result
            (λ x. shape (view block.now) ≡ tree x)
            (λ e. (at : ℕ) → e ≡ Shape at → (x : Self) → shape (view block.now) ≢ tree x) };

    /// No two values have the same tree.
    ghost distinct: { (x y : Self) → tree x ≡ tree y → x ≡ y };
}

/// A type whose values are written.
pub trait Asn1Write: Asn1Type {
    /// Makes the block of a value, at offset 0. The only error is `OutOfMemory`.
    fn write(&self, alloc: Global) -> Result<ASN1Block, ASN1EncodeErr>
        ensures made { IfOk result (λ block. shape (view block) ≡ Self.tree self.now) }
        ensures refused { IfErr result (λ e. e ≡ no_memory) };
}
