// Four fields at once, for types of many.
ghost use Rattle.std.specs.Prelude.{◌≡◌, ◌≢◌, ℕ, IfOk, IfErr, MatchResult};
ghost use Rattle.asn1_blocks.specs.Tree.{shapes};
ghost use Rattle.asn1_blocks.specs.View.{views};
ghost use Rattle.asn1_headers.specs.declared.error.ASN1EncodeErr.TheVariants.{OutOfMemory as no_memory};
ghost use Rattle.asn1_types.specs.FieldTrees.{four_trees};
ghost use Rattle.asn1_types.specs.declared.TypeErr.TheVariants.{Shape};
ghost use Rattle.asn1_types.specs.LastFieldTrees.{written_trees};

use crate::{Asn1Type, Asn1Write, Field, Fields, LastFields, TypeErr, WriteFields};
use asn1_blocks::block::ASN1Block;
use asn1_headers::error::ASN1EncodeErr;
use std::alloc::Global;

/// Four fields, and those after them. A type of more than eight fields is made of these: the time that its proof takes
/// grows with how deep its parts nest.
///
/// ```rust
/// use asn1_types::{End, Field, Fields4, OctetString, Sequence, Whole, WholeErr};
/// use simple_asn1::{BigInt, der_decode};
/// use std::alloc::Global;
///
/// /// SEQUENCE { a INTEGER, b INTEGER, c INTEGER, d INTEGER, salt OCTET STRING }
/// type Token = Sequence<Fields4<BigInt, BigInt, BigInt, BigInt, Field<OctetString, End<0>>>>;
///
/// // Of `30 0F 02 01 01 02 01 02 02 01 03 02 01 04 04 01 CA` 3.
/// fn third(alloc: Global, octets: &[u8]) -> Result<BigInt, WholeErr> {
///     let token: Whole<Token> = der_decode(alloc, octets)?;
///     Ok(token.value.fields.third)
/// }
/// ```
#[derive(Debug, Drop)]
pub struct Fields4<A, B, C, D, R> {
    /// The first field.
    pub first: A,
    /// The second.
    pub second: B,
    /// The third.
    pub third: C,
    /// The fourth.
    pub fourth: D,
    /// Those after them.
    pub rest: R,
}

impl<
    A: Asn1Type + Drop,
    B: Asn1Type + Drop,
    C: Asn1Type + Drop,
    D: Asn1Type + Drop,
    R: Fields + Drop,
> Fields for Fields4<A, B, C, D, R> {
    ghost use Rattle.asn1_types.specs.FieldLaws.{four-distinct};

    ghost trees = { four_trees A.tree B.tree C.tree D.tree R.trees };

    fn read_fields(
        alloc: Global,
        place: usize,
        blocks: &[ASN1Block],
    ) -> Result<Fields4<A, B, C, D, R>, TypeErr> {
        let all = match <Field<A, Field<B, Field<C, Field<D, R>>>> as Fields>::read_fields(
            alloc, place, blocks,
        ) {
            Ok(all) => all,
            Err(e) => return Err(e),
        };
        let Field {
            first,
            rest: Field {
                first: second,
                rest: Field {
                    first: third,
                    rest: Field {
                        first: fourth,
                        rest,
                    },
                },
            },
        } = all;
        Ok(Fields4 {
            first,
            second,
            third,
            fourth,
            rest,
        })
    }

    ghost distinct_fields = { four-distinct A.tree B.tree C.tree D.tree R.trees A.distinct B.distinct C.distinct
        D.distinct R.distinct_fields };
}

impl<
    A: Asn1Write + Drop,
    B: Asn1Write + Drop,
    C: Asn1Write + Drop,
    D: Asn1Write + Drop,
    R: WriteFields + Drop,
> WriteFields for Fields4<A, B, C, D, R> {
    fn write_fields(&self, alloc: Global) -> Result<LastFields, ASN1EncodeErr> {
        let rest = self.rest.write_fields(alloc)?;
        let rest = rest.preceded_by(alloc, &self.fourth)?;
        let rest = rest.preceded_by(alloc, &self.third)?;
        let rest = rest.preceded_by(alloc, &self.second)?;
        rest.preceded_by(alloc, &self.first)
    }
}
