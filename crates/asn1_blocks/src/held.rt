// Blocks that are held until they are given away. Where they are dropped, that takes neither memory nor stack, however
// deep they nest.
ghost use Rattle.std.specs.Prelude.{◌≡◌, ◌<◌, ◌≤◌, ◌++◌, ◌∷◌, [], length, take, drop, IfOk, OnOk, MatchOption};

use crate::block::ASN1Block;
use crate::block::discard::{discard, discard_one};
use std::alloc::{AllocError, Global};
use std::marker::Model;
use std::{fmt, mem};

pub struct HeldBlocks {
    blocks: Vec<ASN1Block>,
}

impl Model for HeldBlocks {
    ghost use Rattle.std.specs.Prelude.{List};
    ghost use Rattle.std.specs.Coded.{codes};
    ghost use Rattle.asn1_blocks.specs.contracts.block.ASN1Block as block;
    ghost use Rattle.asn1_blocks.specs.declared.block.ASN1Block.{ASN1Block};

    ghost Value = { List ASN1Block };

    ghost coded = { Prim.hlevel (codes, block.the_row.coded) };

    ghost view = { λ held. held.blocks.items };
}

impl fmt::Debug for HeldBlocks {
    fn fmt<W: fmt::Write>(&self, f: &mut fmt::Formatter<W>) -> fmt::Result {
        self.blocks.fmt(f)
    }
}

impl Drop for HeldBlocks {
    #[inline(always)]
    fn drop(self) {
        discard(self.into_vec());
    }
}

impl HeldBlocks {
    // A list of no blocks.
    #[inline(always)]
    pub fn new(alloc: Global) -> HeldBlocks
        ensures { result ≡ [] }
    {
        HeldBlocks {
            blocks: Vec::new(alloc),
        }
    }

    // A list of no blocks, with room for so many.
    #[inline(always)]
    pub fn with_capacity(alloc: Global, count: usize) -> Result<HeldBlocks, AllocError>
        ensures { IfOk result (λ held. held ≡ []) }
    {
        let blocks = Vec::with_capacity(alloc, count)?;
        Ok(HeldBlocks { blocks })
    }

    // The list of these blocks.
    #[inline(always)]
    pub fn of(blocks: Vec<ASN1Block>) -> HeldBlocks
        ensures { result ≡ blocks.items }
    {
        HeldBlocks { blocks }
    }

    #[inline(always)]
    pub fn as_slice(&self) -> &[ASN1Block]
        ensures { result.now ≡ self.now }
    {
        self.blocks.as_slice()
    }

    #[inline(always)]
    pub fn len(&self) -> usize
        ensures { result ≡ length self.now }
    {
        self.blocks.len()
    }

    #[inline(always)]
    pub fn push(&mut self, block: ASN1Block) -> Result<(), AllocError>
        ensures { OnOk result (self.new ≡ self.old ++ block ∷ []) }
    {
        if self.blocks.reserve(1).is_err() {
            discard_one(block);
            return Err(AllocError);
        }
        self.blocks.push_reserved(block);
        Ok(())
    }

    #[inline(always)]
    pub fn pop(&mut self) -> Option<ASN1Block>
        ensures { MatchOption result ((self.old ≡ []) × (self.new ≡ []))
            (λ block. self.old ≡ self.new ++ block ∷ []) }
    {
        self.blocks.pop()
    }

    // Gives away the last one.
    #[inline(always)]
    pub fn take_last(&mut self) -> ASN1Block
        requires { 0 < length self.old }
        ensures { self.old ≡ self.new ++ result ∷ [] }
    {
        self.blocks.take_last()
    }

    // Gives away the only one.
    #[inline(always)]
    pub fn into_only(mut self) -> ASN1Block
        requires { length self ≡ 1 }
        ensures { self ≡ result ∷ [] }
    {
        self.take_last()
    }

    // Parts with the blocks from a place on.
    pub fn split_off(&mut self, at: usize) -> Result<HeldBlocks, AllocError>
        requires { at ≤ length self.old }
        ensures kept { OnOk result (self.new ≡ take at self.old) }
        ensures parted { IfOk result (λ held. held ≡ drop at self.old) }
    {
        let blocks = self.blocks.split_off(at)?;
        Ok(HeldBlocks { blocks })
    }

    // Takes others to its end.
    pub fn append(&mut self, mut others: HeldBlocks) -> Result<(), AllocError>
        ensures { OnOk result (self.new ≡ self.old ++ others) }
    {
        self.blocks.append(&mut others.blocks)
    }

    // Gives all away, and has none left.
    #[inline(always)]
    pub fn take_all(&mut self, alloc: Global) -> Vec<ASN1Block>
        ensures all { result.items ≡ self.old }
        ensures none_left { self.new ≡ [] }
    {
        mem::replace(&mut self.blocks, Vec::new(alloc))
    }

    // Gives them away.
    #[inline(always)]
    pub fn into_vec(self) -> Vec<ASN1Block>
        ensures { result.items ≡ self }
    {
        let HeldBlocks { blocks } = self;
        blocks
    }
}

// A box of the block.
#[inline(always)]
pub fn boxed(alloc: Global, block: ASN1Block) -> Result<Box<ASN1Block>, AllocError>
    ensures { IfOk result (λ item. item.value ≡ block) }
{
    match Box::new(alloc, block) {
        Ok(item) => Ok(item),
        Err(failed) => {
            discard_one(failed.value);
            Err(AllocError)
        }
    }
}
