// Any block.
ghost use Rattle.std.specs.Prelude.{◌≡◌, ◌≢◌, ℕ, IfOk, IfErr, MatchResult};
ghost use Rattle.asn1_blocks.specs.Tree.{shape};
ghost use Rattle.asn1_blocks.specs.View.{view};
ghost use Rattle.asn1_headers.specs.declared.error.ASN1EncodeErr.TheVariants.{OutOfMemory as no_memory};
ghost use Rattle.asn1_types.specs.declared.TypeErr.TheVariants.{Shape};

use crate::{Asn1Type, Asn1Write, TypeErr};
use asn1_blocks::block::ASN1Block;
use asn1_headers::error::ASN1EncodeErr;
use std::alloc::Global;
use std::marker::Model;

/// Any one block, whatever it is, as ANY says, and an open type. It is kept as it came, with its offsets. Dropping it
/// recurses, as dropping a block does.
///
/// ```rust
/// use asn1_types::{Any, Whole, WholeErr};
/// use simple_asn1::{ASN1Block, der_decode};
/// use std::alloc::Global;
///
/// // Whether the document is a SEQUENCE, whatever is in it: `30 03 02 01 05` is one.
/// fn is_sequence(alloc: Global, document: &[u8]) -> Result<bool, WholeErr> {
///     let read: Whole<Any> = der_decode(alloc, document)?;
///     Ok(matches!(read.value.block, ASN1Block::Sequence(_, _)))
/// }
/// ```
#[derive(Debug, Drop)]
pub struct Any {
    /// The block.
    pub block: ASN1Block,
}

// Blocks of one tree may differ in their offsets and in memory: the value counts as the tree.
impl Model for Any {
    ghost use Rattle.asn1_blocks.specs.Tree.{Tree, shape};
    ghost use Rattle.asn1_blocks.specs.View.{view as block_tree};
    ghost use Rattle.asn1_types.specs.TreeCode.{tree_code};

    ghost Value = { Tree (Unit {0}) };

    ghost coded = { tree_code };

    ghost view = { λ x. shape (block_tree x.block) };
}

impl Asn1Type for Any {
    ghost tree = { λ x. x };

    fn read(alloc: Global, block: &ASN1Block) -> Result<Any, TypeErr> {
        let block = block.clone(alloc)?;
        Ok(Any { block })
    }

    ghost distinct = { λ x y e. e };
}

impl Asn1Write for Any {
    fn write(&self, alloc: Global) -> Result<ASN1Block, ASN1EncodeErr> {
        Ok(self.block.clone(alloc)?)
    }
}
