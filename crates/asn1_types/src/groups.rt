// SEQUENCE and SET of fields.
ghost use Rattle.std.specs.Prelude.{◌≡◌, ◌≢◌, ℕ, IfOk, IfErr, MatchResult};
ghost use Rattle.asn1_blocks.specs.Tree.{shape, group};
ghost use Rattle.asn1_blocks.specs.View.{view};
ghost use Rattle.asn1_blocks.specs.declared.block.GroupKind.TheVariants.{Sequence as a_sequence, Set as a_set};
ghost use Rattle.asn1_headers.specs.declared.error.ASN1EncodeErr.TheVariants.{OutOfMemory as no_memory};
ghost use Rattle.asn1_types.specs.declared.TypeErr.TheVariants.{Shape};

use crate::{Asn1Type, Asn1Write, Fields, TypeErr, WriteFields};
use asn1_blocks::block::ASN1Block;
use asn1_headers::error::ASN1EncodeErr;
use std::alloc::Global;

/// A SEQUENCE of these fields (X.690 8.9).
///
/// ```rust
/// use asn1_types::{End, Field, Sequence, Whole, WholeErr};
/// use simple_asn1::{BigInt, der_encode};
/// use std::alloc::Global;
///
/// // 5 is written as `30 03 02 01 05`.
/// fn number(alloc: Global, number: BigInt) -> Result<Vec<u8>, WholeErr> {
///     let fields = Field { first: number, rest: End::<0> {} };
///     der_encode(alloc, &Whole { value: Sequence { fields } })
/// }
/// ```
#[derive(Debug, Drop)]
pub struct Sequence<F> {
    /// The fields.
    pub fields: F,
}

impl<F: Fields> Asn1Type for Sequence<F> {
    ghost use Rattle.asn1_types.specs.GroupLaws.{sequence-distinct};

    ghost tree = { λ x. group tt a_sequence (F.trees x.fields) };

    fn read(alloc: Global, block: &ASN1Block) -> Result<Sequence<F>, TypeErr> {
        match block {
            ASN1Block::Sequence(place, items) => match F::read_fields(alloc, *place, items) {
                Ok(fields) => Ok(Sequence { fields }),
                Err(e) => Err(e),
            },
            _ => Err(TypeErr::Shape(block.offset())),
        }
    }

    ghost distinct = { sequence-distinct F.trees F.distinct_fields };
}

impl<F: WriteFields> Asn1Write for Sequence<F> {
    fn write(&self, alloc: Global) -> Result<ASN1Block, ASN1EncodeErr> {
        let fields = self.fields.write_fields(alloc)?;
        Ok(fields.sequence())
    }
}

/// A SET of these fields, in the order of their tags, as DER has them (X.690 8.11, 10.3). Blocks in another order are
/// not of the type.
///
/// ```rust
/// use asn1_types::{End, Field, OctetString, Set, Whole, WholeErr};
/// use simple_asn1::{BigInt, der_decode};
/// use std::alloc::Global;
///
/// /// SET { count INTEGER, salt OCTET STRING }
/// type Token = Set<Field<BigInt, Field<OctetString, End<0>>>>;
///
/// // Of `31 07 02 01 05 04 02 CA FE` 5.
/// fn count(alloc: Global, octets: &[u8]) -> Result<BigInt, WholeErr> {
///     let token: Whole<Token> = der_decode(alloc, octets)?;
///     Ok(token.value.fields.first)
/// }
/// ```
#[derive(Debug, Drop)]
pub struct Set<F> {
    /// The fields.
    pub fields: F,
}

impl<F: Fields> Asn1Type for Set<F> {
    ghost use Rattle.asn1_types.specs.GroupLaws.{set-distinct};

    ghost tree = { λ x. group tt a_set (F.trees x.fields) };

    fn read(alloc: Global, block: &ASN1Block) -> Result<Set<F>, TypeErr> {
        match block {
            ASN1Block::Set(place, items) => match F::read_fields(alloc, *place, items) {
                Ok(fields) => Ok(Set { fields }),
                Err(e) => Err(e),
            },
            _ => Err(TypeErr::Shape(block.offset())),
        }
    }

    ghost distinct = { set-distinct F.trees F.distinct_fields };
}

impl<F: WriteFields> Asn1Write for Set<F> {
    fn write(&self, alloc: Global) -> Result<ASN1Block, ASN1EncodeErr> {
        let fields = self.fields.write_fields(alloc)?;
        Ok(fields.set())
    }
}
