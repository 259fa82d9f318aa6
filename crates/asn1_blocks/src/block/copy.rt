// Copies of blocks by a loop, from the last block in tree order to the first: the copies of what a block holds are made
// before its own.
ghost use Rattle.std.specs.Prelude.{◌≡◌, ◌++◌, ◌≤◌, IfOk, length, reverse};
ghost use Rattle.asn1_blocks.specs.View.{view};

use crate::block::ASN1Block;
use crate::contents::copy_over;
use crate::held::HeldBlocks;
use crate::tree_walk::{blocks_inside, in_tree_order};
use std::alloc::{AllocError, Global};
use std::slice;

// Takes the last n copies, the last one first.
fn take_back(alloc: Global, copies: &mut HeldBlocks, n: usize) -> Result<HeldBlocks, AllocError>
    requires { n ≤ length copies.old }
    ensures count { IfOk result (λ taken. length taken ≡ n) }
    ensures taken { IfOk result (λ taken. copies.old ≡ copies.new ++ reverse taken) }
{
    let mut taken = HeldBlocks::with_capacity(alloc, n)?;
    for _i in 0..n {
        taken.push(copies.take_last())?;
    }
    Ok(taken)
}

fn copy(alloc: Global, b: &ASN1Block) -> Result<ASN1Block, AllocError>
    ensures { IfOk result (λ r. view r ≡ view b.now) }
{
    let order = in_tree_order(alloc, slice::from_ref(b))?;
    let mut copies = HeldBlocks::new(alloc);
    let mut i = order.len();
    while i > 0 {
        i -= 1;
        let block = order[i];
        let mut held = take_back(alloc, &mut copies, blocks_inside(block).len())?;
        let copy = copy_over(alloc, block, &mut held)?;
        copies.push(copy)?;
    }
    Ok(copies.take_last())
}

impl ASN1Block {
    /// Copies the block with its offsets. The only error is that memory ran out.
    ///
    /// It takes memory for each box of the tree, each vector and text that is not empty, each integer of more than 24
    /// octets, and each tag number from 2^64 on: one allocation each. While the copy is made, it also holds a list of
    /// references to all blocks, 8 bytes for each, and the copies that wait for the block around them. Stack use does
    /// not grow with nesting, also when memory runs out and what was copied is dropped.
    ///
    /// ```rust
    /// use simple_asn1::ASN1Block;
    /// use std::alloc::{AllocError, Global};
    ///
    /// // The block twice, one after the other.
    /// fn twice(alloc: Global, block: &ASN1Block) -> Result<[ASN1Block; 2], AllocError> {
    ///     Ok([block.clone(alloc)?, block.clone(alloc)?])
    /// }
    /// ```
    pub fn clone(&self, alloc: Global) -> Result<ASN1Block, AllocError>
        ensures { IfOk result (λ b. view b ≡ view self.now) }
    {
        copy(alloc, self)
    }
}
