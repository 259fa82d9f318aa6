// A value as a document.
ghost use Rattle.std.specs.Prelude.{◌≡◌, ◌≢◌, ◌⊎◌, ℕ, IfOk, IfErr, MatchResult};
ghost use Rattle.asn1_blocks.specs.Tree.{Trees, shapes, no_trees, more_trees};
ghost use Rattle.asn1_blocks.specs.View.{views};
ghost use Rattle.asn1_headers.specs.declared.error.ASN1DecodeErr.TheVariants.{OutOfMemory as no_memory_to_read};
ghost use Rattle.asn1_headers.specs.declared.error.ASN1EncodeErr.TheVariants.{OutOfMemory as no_memory};

use crate::{Asn1Type, Asn1Write, TypeErr};
use asn1_blocks::block::ASN1Block;
use asn1_headers::error::{ASN1DecodeErr, ASN1EncodeErr};
use asn1_headers::header::ASN1Class;
use simple_asn1::{FromASN1, RoundTrip, ToASN1};
use std::alloc::Global;
use thiserror::Error;

/// A value as a document, for [`der_decode`](simple_asn1::der_decode), [`der_encode`](simple_asn1::der_encode) and
/// [`round_trip`](simple_asn1::round_trip). Blocks behind the value's are ignored.
///
/// ```rust
/// use asn1_types::{OctetString, Whole, WholeErr};
/// use simple_asn1::der_encode;
/// use std::alloc::Global;
///
/// // `04 01 05`.
/// fn octets(alloc: Global) -> Result<Vec<u8>, WholeErr> {
///     let Ok(octets) = vec![in alloc; 5] else {
///         return Err(WholeErr::Shape(0));
///     };
///     der_encode(alloc, &Whole { value: OctetString { octets } })
/// }
/// ```
#[derive(Debug, Drop)]
pub struct Whole<T> {
    /// The value.
    pub value: T,
}

/// Why a document is not a value of a type, or a value was not written.
#[derive(Debug, Drop, Error, PartialEq)]
pub enum WholeErr {
    /// The input is not a document, or memory ran out while reading.
    #[error("{0}")]
    Decode(ASN1DecodeErr),
    /// The value cannot be written, or memory ran out while writing.
    #[error("{0}")]
    Encode(ASN1EncodeErr),
    /// The block at this offset is not of the type that has to stand there, as in [`TypeErr::Shape`]. It is 0 where
    /// there is no block at all.
    #[error("The block at offset {0} is not of the type that has to stand there")]
    Shape(usize),
}

impl From<ASN1DecodeErr> for WholeErr {
    ghost use Rattle.asn1_types.specs.declared.whole.WholeErr.TheVariants.{Decode};

    ghost from_gives = { λ f e. e ≡ Decode f };

    fn from(e: ASN1DecodeErr) -> WholeErr {
        WholeErr::Decode(e)
    }
}

impl From<ASN1EncodeErr> for WholeErr {
    ghost use Rattle.asn1_types.specs.declared.whole.WholeErr.TheVariants.{Encode};

    ghost from_gives = { λ f e. e ≡ Encode f };

    fn from(e: ASN1EncodeErr) -> WholeErr {
        WholeErr::Encode(e)
    }
}

impl<T: Asn1Type + Drop> FromASN1 for Whole<T> {
    type Error = WholeErr;

    ghost use Rattle.asn1_types.specs.declared.whole.WholeErr.TheVariants.{Decode, Shape};

    ghost reads = { λ bs r. MatchResult r
        (λ x. shapes bs ≡ more_trees (T.tree x.0.value) (shapes x.1))
        (λ e. (e ≡ Decode no_memory_to_read)
        ⊎ ((at : ℕ) × (e ≡ Shape at)
        × ((x : T) (rest : Trees (Unit {0})) → shapes bs ≢ more_trees (T.tree x) rest))) };

    fn from_asn1<'a>(
        alloc: Global,
        v: &'a [ASN1Block],
    ) -> Result<(Whole<T>, &'a [ASN1Block]), WholeErr> {
        let Some((first, rest)) = v.split_first() else {
            return Err(WholeErr::Shape(0));
        };
        match T::read(alloc, first) {
            Ok(value) => Ok((Whole { value }, rest)),
            Err(TypeErr::Shape(at)) => Err(WholeErr::Shape(at)),
            Err(TypeErr::OutOfMemory) => Err(WholeErr::Decode(ASN1DecodeErr::OutOfMemory)),
        }
    }
}

// The one block of a value.
fn one_block<T: Asn1Write>(alloc: Global, value: &T) -> Result<Vec<ASN1Block>, ASN1EncodeErr>
    ensures made { IfOk result (λ bs. shapes (views bs.items) ≡ more_trees (T.Asn1Type.tree value.now) no_trees) }
    ensures refused { IfErr result (λ e. e ≡ no_memory) }
{
    let mut blocks = Vec::with_capacity(alloc, 1)?;
    blocks.push(value.write(alloc)?)?;
    Ok(blocks)
}

impl<T: Asn1Write> ToASN1 for Whole<T> {
    type Error = WholeErr;

    ghost use Rattle.asn1_types.specs.declared.whole.WholeErr.TheVariants.{Encode};

    ghost writes = { λ x c r. MatchResult r
        (λ bs. shapes bs ≡ more_trees (T.Asn1Type.tree x.value) no_trees)
        (λ e. e ≡ Encode no_memory) };

    fn to_asn1_class(&self, alloc: Global, _c: ASN1Class) -> Result<Vec<ASN1Block>, WholeErr> {
        match one_block(alloc, &self.value) {
            Ok(blocks) => Ok(blocks),
            Err(e) => Err(WholeErr::Encode(e)),
        }
    }
}

impl<T: Asn1Write + Drop> RoundTrip for Whole<T> {
    ghost use Rattle.asn1_types.specs.WholeLaws.{whole-read_back};

    ghost trees_of = { λ x. more_trees (T.Asn1Type.tree x.value) no_trees };

    ghost written = { λ x bs h. h };

    ghost read_back = { whole-read_back T.Asn1Type.tree T.Asn1Type.distinct };
}
