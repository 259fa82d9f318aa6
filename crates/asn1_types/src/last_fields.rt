// The blocks of fields as they are made.
ghost use Rattle.std.specs.Prelude.{◌≡◌, IfOk, IfErr};
ghost use Rattle.asn1_blocks.specs.Tree.{shape, shapes, group, no_trees, more_trees};
ghost use Rattle.asn1_blocks.specs.View.{view, views};
ghost use Rattle.asn1_blocks.specs.declared.block.GroupKind.TheVariants.{Sequence as a_sequence, Set as a_set};
ghost use Rattle.asn1_headers.specs.declared.error.ASN1EncodeErr.TheVariants.{OutOfMemory as no_memory};
ghost use Rattle.asn1_types.specs.FieldTrees.{optional_trees, unless_default};

use crate::{Asn1Write, DefaultOf};
use asn1_blocks::block::ASN1Block;
use asn1_headers::error::ASN1EncodeErr;
use std::alloc::Global;

/// The blocks of the last fields of a value, to which those before them are added: from the last field to the first.
///
/// ```rust
/// use asn1_types::LastFields;
/// use simple_asn1::{ASN1Block, ASN1EncodeErr, BigInt};
/// use std::alloc::Global;
///
/// // The SEQUENCE of two numbers: of 1 and 2 `30 06 02 01 01 02 01 02`.
/// fn pair(alloc: Global, left: &BigInt, right: &BigInt) -> Result<ASN1Block, ASN1EncodeErr> {
///     let fields = LastFields::none(alloc).preceded_by(alloc, right)?;
///     Ok(fields.preceded_by(alloc, left)?.sequence())
/// }
/// ```
#[derive(Debug, Drop)]
pub struct LastFields {
    // The last first.
    blocks: Vec<ASN1Block>,
}

impl LastFields {
    ghost use Rattle.asn1_types.specs.LastFieldTrees.{written_trees};

    /// No field. It takes no memory.
    pub fn none(alloc: Global) -> LastFields
        ensures { written_trees result ≡ no_trees }
    {
        LastFields {
            blocks: Vec::new(alloc),
        }
    }

    /// These fields after this one.
    pub fn preceded_by<T: Asn1Write>(
        self,
        alloc: Global,
        field: &T,
    ) -> Result<LastFields, ASN1EncodeErr>
        ensures made { IfOk result (λ fields. written_trees fields
            ≡ more_trees (T.Asn1Type.tree field.now) (written_trees self)) }
        ensures refused { IfErr result (λ e. e ≡ no_memory) }
    {
        let mut blocks = self.blocks;
        blocks.push(field.write(alloc)?)?;
        Ok(LastFields { blocks })
    }

    /// These fields after this one, if it is there.
    pub fn preceded_by_optional<T: Asn1Write>(
        self,
        alloc: Global,
        field: &Option<T>,
    ) -> Result<LastFields, ASN1EncodeErr>
        ensures made { IfOk result (λ fields. written_trees fields
            ≡ optional_trees T.Asn1Type.tree (λ trees. trees) field.now (written_trees self)) }
        ensures refused { IfErr result (λ e. e ≡ no_memory) }
    {
        match field {
            None => Ok(self),
            Some(field) => self.preceded_by(alloc, field),
        }
    }

    /// These fields after this one, unless it is the default that `D` says.
    pub fn preceded_by_defaulted<T: Asn1Write, D: DefaultOf<T>>(
        self,
        alloc: Global,
        field: &T,
    ) -> Result<LastFields, ASN1EncodeErr>
        ensures made { IfOk result (λ fields. written_trees fields ≡ optional_trees T.Asn1Type.tree (λ trees. trees)
            (unless_default D.is_default field.now) (written_trees self)) }
        ensures refused { IfErr result (λ e. e ≡ no_memory) }
    {
        if D::is_default(field) {
            Ok(self)
        } else {
            self.preceded_by(alloc, field)
        }
    }

    /// The SEQUENCE of these fields.
    pub fn sequence(self) -> ASN1Block
        ensures { shape (view result) ≡ group tt a_sequence (written_trees self) }
    {
        ASN1Block::Sequence(0, self.into_blocks())
    }

    /// The SET of these fields, in this order. DER wants the order of their tags (X.690 10.3).
    pub fn set(self) -> ASN1Block
        ensures { shape (view result) ≡ group tt a_set (written_trees self) }
    {
        ASN1Block::Set(0, self.into_blocks())
    }

    // The blocks in order.
    fn into_blocks(self) -> Vec<ASN1Block>
        ensures { shapes (views result.items) ≡ written_trees self }
    {
        let mut blocks = self.blocks;
        blocks.reverse();
        blocks
    }
}
