// Structs and enums of one's own.
ghost use Rattle.std.specs.Prelude.{◌≡◌, ◌≢◌, ℕ, IfOk, IfErr, MatchResult};
ghost use Rattle.asn1_blocks.specs.Tree.{shape};
ghost use Rattle.asn1_blocks.specs.View.{view};
ghost use Rattle.asn1_headers.specs.declared.error.ASN1EncodeErr.TheVariants.{OutOfMemory as no_memory};
ghost use Rattle.asn1_types.specs.declared.TypeErr.TheVariants.{Shape};

use crate::{Asn1Type, Asn1Write, TypeErr};
use asn1_blocks::block::ASN1Block;
use asn1_headers::error::ASN1EncodeErr;
use std::alloc::Global;

/// A struct or an enum with the values of a type that is made of parts, and names for them.
///
/// ```rust
/// use asn1_types::{End, Field, LastFields, Named, OctetString, Sequence};
/// use simple_asn1::{ASN1Block, ASN1EncodeErr, BigInt};
/// use std::alloc::Global;
///
/// /// SEQUENCE { salt OCTET STRING, count INTEGER }
/// #[derive(Drop)]
/// pub struct Token {
///     pub salt: OctetString,
///     pub count: BigInt,
/// }
///
/// type TokenParts = Sequence<Field<OctetString, Field<BigInt, End<0>>>>;
///
/// impl Named for Token {
///     ghost use Rattle.std.proofs.Common.{ap};
///
///     type Parts = TokenParts;
///
///     ghost parts = { λ x. record { fields = record { first = x.salt;
///         rest = record { first = x.count; rest = record {} } } } };
///
///     fn from_parts(all: TokenParts) -> Token {
///         let Sequence { fields: Field { first: salt, rest } } = all;
///         let Field { first: count, .. } = rest;
///         Token { salt, count }
///     }
///
///     fn write_named(&self, alloc: Global) -> Result<ASN1Block, ASN1EncodeErr> {
///         let fields = LastFields::none(alloc).preceded_by(alloc, &self.count)?;
///         Ok(fields.preceded_by(alloc, &self.salt)?.sequence())
///     }
///
///     ghost same = { λ x y e. ap (λ p. record { salt = p.fields.first; count = p.fields.rest.first }) e };
/// }
/// ```
pub trait Named: Sized {
    /// The type that is made of parts.
    type Parts: Asn1Type;

    /// The parts of a value.
    ghost parts: { Self → Self.Parts };

    /// The value of these parts.
    fn from_parts(all: Self::Parts) -> Self
        ensures { parts result ≡ all };

    /// Makes the block of a value, at offset 0. The only error is `OutOfMemory`.
    fn write_named(&self, alloc: Global) -> Result<ASN1Block, ASN1EncodeErr>
        ensures made { IfOk result (λ block. shape (view block) ≡ Self.Parts.tree (parts self.now)) }
        ensures refused { IfErr result (λ e. e ≡ no_memory) };

    /// No two values have the same parts.
    ghost same: { (x y : Self) → parts x ≡ parts y → x ≡ y };
}

impl<S: Named> Asn1Type for S {
    ghost tree = { λ x. S.Parts.tree (S.parts x) };

    fn read(alloc: Global, block: &ASN1Block) -> Result<S, TypeErr> {
        match <S as Named>::Parts::read(alloc, block) {
            Ok(parts) => Ok(S::from_parts(parts)),
            Err(e) => Err(e),
        }
    }

    ghost distinct = { λ x y e. S.same x y (S.Parts.distinct (S.parts x) (S.parts y) e) };
}

impl<S: Named> Asn1Write for S {
    fn write(&self, alloc: Global) -> Result<ASN1Block, ASN1EncodeErr> {
        self.write_named(alloc)
    }
}
