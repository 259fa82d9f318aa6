// SEQUENCE OF and SET OF.
ghost use Rattle.std.specs.Prelude.{◌≡◌, ◌≢◌, ℕ, List, IfOk, IfErr, MatchResult, map};
ghost use Rattle.asn1_blocks.specs.Tree.{shape, shapes, group, trees_of};
ghost use Rattle.asn1_blocks.specs.View.{view, views};
ghost use Rattle.asn1_blocks.specs.declared.block.GroupKind.TheVariants.{Sequence as a_sequence, Set as a_set};
ghost use Rattle.asn1_headers.specs.declared.error.ASN1EncodeErr.TheVariants.{OutOfMemory as no_memory};
ghost use Rattle.asn1_types.specs.declared.TypeErr.TheVariants.{Shape};
ghost use Rattle.asn1_types.specs.Laws.{group-inner, list-distinct};

use crate::{Asn1Type, Asn1Write, TypeErr};
use asn1_blocks::block::ASN1Block;
use asn1_headers::error::ASN1EncodeErr;
use std::alloc::Global;
use std::marker::Model;

// The values that all these blocks are.
fn read_all<T: Asn1Type + Drop>(alloc: Global, blocks: &[ASN1Block]) -> Result<Vec<T>, TypeErr>
    ensures { MatchResult result
        (λ xs. shapes (views blocks.now) ≡ trees_of (map T.tree xs.items))
        (λ e. (at : ℕ) → e ≡ Shape at
        → (xs : List T) → shapes (views blocks.now) ≢ trees_of (map T.tree xs)) }
{
    let mut values = Vec::with_capacity(alloc, blocks.len())?;
    for block in blocks {
        let value = match T::read(alloc, block) {
            Ok(value) => value,
            Err(e) => return Err(e),
        };
        if values.push(value).is_err() {
            return Err(TypeErr::OutOfMemory);
        }
    }
    Ok(values)
}

// The blocks of all these values.
fn write_all<T: Asn1Write>(alloc: Global, values: &[T]) -> Result<Vec<ASN1Block>, ASN1EncodeErr>
    ensures made { IfOk result (λ blocks. shapes (views blocks.items) ≡ trees_of (map T.Asn1Type.tree values.now)) }
    ensures refused { IfErr result (λ e. e ≡ no_memory) }
{
    let mut blocks = Vec::with_capacity(alloc, values.len())?;
    for value in values {
        let block = value.write(alloc)?;
        blocks.push(block)?;
    }
    Ok(blocks)
}

/// A SEQUENCE OF (X.690 8.10).
///
/// ```rust
/// use asn1_types::{SequenceOf, Whole, WholeErr};
/// use simple_asn1::{OID, der_decode};
/// use std::alloc::Global;
///
/// // The purposes of an extKeyUsage, `30 0A` and `06 08 2B 06 01 05 05 07 03 01` for each.
/// fn purposes(alloc: Global, octets: &[u8]) -> Result<Vec<OID>, WholeErr> {
///     let read: Whole<SequenceOf<OID>> = der_decode(alloc, octets)?;
///     Ok(read.value.values)
/// }
/// ```
#[derive(Debug, Drop)]
pub struct SequenceOf<T> {
    /// The values, in order.
    pub values: Vec<T>,
}

impl<T> Model for SequenceOf<T> {
    ghost use Rattle.std.specs.Prelude.{List};

    ghost Value = { List T };

    ghost view = { λ x. x.values.items };
}

impl<T: Asn1Type + Drop> Asn1Type for SequenceOf<T> {
    ghost tree = { λ xs. group tt a_sequence (trees_of (map T.tree xs)) };

    fn read(alloc: Global, block: &ASN1Block) -> Result<SequenceOf<T>, TypeErr> {
        match block {
            ASN1Block::Sequence(_, items) => match read_all::<T>(alloc, items) {
                Ok(values) => Ok(SequenceOf { values }),
                Err(e) => Err(e),
            },
            _ => Err(TypeErr::Shape(block.offset())),
        }
    }

    ghost distinct = { λ x y e. list-distinct T.tree T.distinct x y (group-inner a_sequence _ _ e) };
}

impl<T: Asn1Write + Drop> Asn1Write for SequenceOf<T> {
    fn write(&self, alloc: Global) -> Result<ASN1Block, ASN1EncodeErr> {
        Ok(ASN1Block::Sequence(0, write_all(alloc, &self.values)?))
    }
}

/// A SET OF (X.690 8.12), in the order of its blocks, in which it is written. DER wants the order of their encodings
/// (11.6): [`SetOf::in_order`] puts values in it.
///
/// ```rust
/// use asn1_types::{SetOf, Utf8String, Whole, WholeErr};
/// use simple_asn1::der_decode;
/// use std::alloc::Global;
///
/// // How many values there are: in `31 03 0C 01 41` one.
/// fn value_count(alloc: Global, octets: &[u8]) -> Result<usize, WholeErr> {
///     let read: Whole<SetOf<Utf8String>> = der_decode(alloc, octets)?;
///     Ok(read.value.values.len())
/// }
/// ```
#[derive(Debug, Drop)]
pub struct SetOf<T> {
    /// The values, in the order of their blocks.
    pub values: Vec<T>,
}

impl<T> Model for SetOf<T> {
    ghost use Rattle.std.specs.Prelude.{List};

    ghost Value = { List T };

    ghost view = { λ x. x.values.items };
}

impl<T: Asn1Type + Drop> Asn1Type for SetOf<T> {
    ghost tree = { λ xs. group tt a_set (trees_of (map T.tree xs)) };

    fn read(alloc: Global, block: &ASN1Block) -> Result<SetOf<T>, TypeErr> {
        match block {
            ASN1Block::Set(_, items) => match read_all::<T>(alloc, items) {
                Ok(values) => Ok(SetOf { values }),
                Err(e) => Err(e),
            },
            _ => Err(TypeErr::Shape(block.offset())),
        }
    }

    ghost distinct = { λ x y e. list-distinct T.tree T.distinct x y (group-inner a_set _ _ e) };
}

impl<T: Asn1Write + Drop> Asn1Write for SetOf<T> {
    fn write(&self, alloc: Global) -> Result<ASN1Block, ASN1EncodeErr> {
        Ok(ASN1Block::Set(0, write_all(alloc, &self.values)?))
    }
}
