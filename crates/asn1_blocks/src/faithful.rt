// Which blocks survive being written and read: one loop over the blocks of a tree.
ghost use Rattle.std.specs.Prelude.{◌≡◌, ◌↔◌, IfOk, IsTrue};
ghost use Rattle.asn1_headers.specs.declared.header.ASN1Class.TheVariants.{Universal};
ghost use Rattle.asn1_blocks.specs.Contents.{IsUnknownTag};
ghost use Rattle.asn1_blocks.specs.Faithful.{AreFaithful, IsFaithful};
ghost use Rattle.asn1_blocks.specs.Grammar.{IsBlock, StaysAsItCame};
ghost use Rattle.asn1_blocks.specs.Inner.FaithfulWalk.{IsFaithfulAlone};
ghost use Rattle.asn1_blocks.specs.View.{view, views};

use crate::block::ASN1Block;
use crate::contents::{is_faithful_leaf, is_known};
use crate::document::Document;
use crate::tree_walk::TreeWalk;
use asn1_headers::error::ASN1DecodeErr;
use asn1_headers::header::ASN1Class;
use asn1_numbers::number::big_uint::BigUint;
use std::alloc::{AllocError, Global};
use std::slice;

impl ASN1Block {
    /// Whether the block can be written and reads back as it is, but for its offsets. A block that was read does,
    /// unless it holds a bit string of no bits that has octets. Made by hand, a constructed `Unknown` of class
    /// `ContextSpecific` whose octets are `02 01 05` does not: it reads back as `Explicit`.
    ///
    /// It takes memory for lists of blocks, and to look into the octets of a constructed `Unknown`. The only error is
    /// that it ran out.
    ///
    /// ```rust
    /// use simple_asn1::ASN1Block;
    /// use std::alloc::{AllocError, Global};
    ///
    /// // A bit string of no bits is read back without octets.
    /// fn no_bits(alloc: Global, octets: Vec<u8>) -> Result<bool, AllocError> {
    ///     ASN1Block::BitString(0, 0, octets).is_faithful(alloc)
    /// }
    /// ```
    pub fn is_faithful(&self, alloc: Global) -> Result<bool, AllocError>
        ensures { IfOk result (λ b. IsTrue b ↔ IsFaithful (view self.now)) }
    {
        are_faithful(alloc, slice::from_ref(self))
    }
}

fn are_faithful(alloc: Global, blocks: &[ASN1Block]) -> Result<bool, AllocError>
    ensures { IfOk result (λ b. IsTrue b ↔ AreFaithful (views blocks.now)) }
{
    let mut walk = TreeWalk::over(alloc, blocks);
    while let Some(block) = walk.next()? {
        if !is_faithful_alone(alloc, block)? {
            return Ok(false);
        }
    }
    Ok(true)
}

// Whether the block is faithful as far as those inside it are.
pub fn is_faithful_alone(alloc: Global, b: &ASN1Block) -> Result<bool, AllocError>
    ensures { IfOk result (λ r. IsTrue r ↔ IsFaithfulAlone (view b.now)) }
{
    match b {
        ASN1Block::Explicit(class, _, _, _) => Ok(!is_universal(*class)),
        ASN1Block::Unknown(class, constructed, _, tag, contents) => {
            stays_as_it_came(alloc, *class, *constructed, tag, contents)
        }
        _ => Ok(is_faithful_leaf(b)),
    }
}

fn is_universal(class: ASN1Class) -> bool
    ensures { IsTrue result ↔ (class ≡ Universal) }
{
    matches!(class, ASN1Class::Universal)
}

// Whether contents octets with these fields are not read as more.
fn stays_as_it_came(
    alloc: Global,
    class: ASN1Class,
    constructed: bool,
    tag: &BigUint,
    contents: &[u8],
) -> Result<bool, AllocError>
    ensures { IfOk result (λ b. IsTrue b ↔ StaysAsItCame class constructed tag.now contents.now) }
{
    if is_universal(class) {
        return Ok(is_unknown_tag(tag));
    }
    if !constructed {
        return Ok(true);
    }
    Ok(!is_block(alloc, contents)?)
}

// Whether contents octets of class Universal with this tag number have no rule.
fn is_unknown_tag(tag: &BigUint) -> bool
    ensures { IsTrue result ↔ IsUnknownTag tag.now }
{
    match tag.to_u64() {
        Some(tag) => !is_known(tag),
        None => true,
    }
}

// Whether the octets are one block.
fn is_block(alloc: Global, octets: &[u8]) -> Result<bool, AllocError>
    ensures { IfOk result (λ b. IsTrue b ↔ IsBlock octets.now) }
{
    match Document::from_der(alloc, octets) {
        Ok(document) => Ok(document.blocks().len() == 1),
        Err(e) => match e {
            ASN1DecodeErr::OutOfMemory => Err(AllocError),
            _ => Ok(false),
        },
    }
}
