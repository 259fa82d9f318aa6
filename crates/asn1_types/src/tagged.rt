// Tags of class ContextSpecific.
ghost use Rattle.std.specs.Prelude.{◌≡◌, ◌≢◌, ◌↔◌, ℕ, IfOk, IfErr, IsTrue, MatchOption, MatchResult, false};
ghost use Rattle.asn1_blocks.specs.Tree.{Tree, shape, explicit, unknown};
ghost use Rattle.asn1_blocks.specs.View.{view};
ghost use Rattle.asn1_headers.specs.declared.error.ASN1EncodeErr.TheVariants.{OutOfMemory as no_memory};
ghost use Rattle.asn1_headers.specs.declared.header.ASN1Class.TheVariants.{ContextSpecific};
ghost use Rattle.asn1_types.specs.declared.TypeErr.TheVariants.{Shape};
ghost use Rattle.asn1_types.specs.Laws.{implicit-distinct};

use crate::{Asn1Type, Asn1Write, TypeErr};
use asn1_blocks::block::ASN1Block;
use asn1_headers::error::ASN1EncodeErr;
use asn1_headers::header::ASN1Class;
use asn1_numbers::number::big_uint::BigUint;
use simple_asn1::build;
use std::alloc::Global;
use std::marker::Model;

/// A value under the explicit tag `[N]` (X.690 8.14).
///
/// ```rust
/// use asn1_types::{Explicit, Whole, WholeErr};
/// use simple_asn1::{BigInt, der_decode};
/// use std::alloc::Global;
///
/// // The version of a certificate, `[0] EXPLICIT INTEGER`: of `A0 03 02 01 02` 2.
/// fn version(alloc: Global, document: &[u8]) -> Result<BigInt, WholeErr> {
///     let read: Whole<Explicit<BigInt, 0>> = der_decode(alloc, document)?;
///     Ok(read.value.value)
/// }
/// ```
#[derive(Debug, Drop)]
pub struct Explicit<T, const N: u64> {
    /// The value.
    pub value: T,
}

// Whether a tag number is this one.
pub fn is_number(tag: &BigUint, number: u64) -> bool
    ensures { IsTrue result ↔ (tag.now ≡ number) }
{
    match tag.to_u64() {
        Some(tag) => tag == number,
        None => false,
    }
}

// The block under the explicit tag of this number.
fn tagged_item(block: &ASN1Block, number: u64) -> Option<&ASN1Block>
    ensures { MatchOption result
        ((t : Tree (Unit {0})) → shape (view block.now) ≢ explicit ContextSpecific tt number t)
        (λ item. shape (view block.now) ≡ explicit ContextSpecific tt number (shape (view item.now))) }
{
    match block {
        ASN1Block::Explicit(ASN1Class::ContextSpecific, _, tag, item) => {
            if is_number(tag, number) {
                Some(item)
            } else {
                None
            }
        }
        _ => None,
    }
}

impl<T: Asn1Type, const N: u64> Asn1Type for Explicit<T, N> {
    ghost use Rattle.asn1_types.specs.TagLaws.{explicit-distinct};

    ghost tree = { λ x. explicit ContextSpecific tt N (T.tree x.value) };

    fn read(alloc: Global, block: &ASN1Block) -> Result<Explicit<T, N>, TypeErr> {
        let Some(item) = tagged_item(block, N) else {
            return Err(TypeErr::Shape(block.offset()));
        };
        match T::read(alloc, item) {
            Ok(value) => Ok(Explicit { value }),
            Err(e) => Err(e),
        }
    }

    ghost distinct = { explicit-distinct N T.tree T.distinct };
}

impl<T: Asn1Write, const N: u64> Asn1Write for Explicit<T, N> {
    fn write(&self, alloc: Global) -> Result<ASN1Block, ASN1EncodeErr> {
        let item = self.value.write(alloc)?;
        Ok(build::explicit(alloc, ASN1Class::ContextSpecific, N, item)?)
    }
}

/// A primitive type under the implicit tag `[N]` (X.690 8.14), as its contents octets. Those of an OCTET STRING are its
/// octets; those of any other type are not looked at.
///
/// ```rust
/// use asn1_types::{ImplicitOctets, Whole, WholeErr};
/// use simple_asn1::der_decode;
/// use std::alloc::Global;
///
/// // The host of a subjectAltName, `[2] IMPLICIT IA5String`: of `82 03 61 2E 62` the bytes `a.b`.
/// fn host(alloc: Global, document: &[u8]) -> Result<Vec<u8>, WholeErr> {
///     let read: Whole<ImplicitOctets<2>> = der_decode(alloc, document)?;
///     Ok(read.value.octets)
/// }
/// ```
#[derive(Debug, Drop)]
pub struct ImplicitOctets<const N: u64> {
    /// The contents octets.
    pub octets: Vec<u8>,
}

impl<const N: u64> Model for ImplicitOctets<N> {
    ghost use Rattle.std.specs.Prelude.{List, ℕ};

    ghost Value = { List ℕ };

    ghost view = { λ x. x.octets.items };
}

impl<const N: u64> Asn1Type for ImplicitOctets<N> {
    ghost tree = { λ x. unknown ContextSpecific false tt N x };

    fn read(alloc: Global, block: &ASN1Block) -> Result<ImplicitOctets<N>, TypeErr> {
        match block {
            ASN1Block::Unknown(ASN1Class::ContextSpecific, false, place, tag, contents) => {
                if !is_number(tag, N) {
                    return Err(TypeErr::Shape(*place));
                }
                let octets = Vec::from_slice(alloc, contents)?;
                Ok(ImplicitOctets { octets })
            }
            _ => Err(TypeErr::Shape(block.offset())),
        }
    }

    ghost distinct = { implicit-distinct N };
}

impl<const N: u64> Asn1Write for ImplicitOctets<N> {
    fn write(&self, alloc: Global) -> Result<ASN1Block, ASN1EncodeErr> {
        Ok(build::implicit_primitive(alloc, ASN1Class::ContextSpecific, N, &self.octets)?)
    }
}
