// Trees as lists of their blocks, each before those that it holds, so that what goes over them is a loop.
ghost use Rattle.std.specs.Prelude.{◌≡◌, ◌++◌, [], IfOk, MatchOption, OnOk, map};
ghost use Rattle.asn1_blocks.specs.Inner.TreeOrder.{IsInTreeOrder, IsNextTree, ahead, inside, stacked};
ghost use Rattle.asn1_blocks.specs.View.{view, views};

use crate::block::ASN1Block;
use std::alloc::{AllocError, Global};
use std::slice;

// The blocks that a block holds.
pub fn blocks_inside(b: &ASN1Block) -> &[ASN1Block]
    ensures { views result.now ≡ inside (view b.now) }
{
    match b {
        ASN1Block::Sequence(_, items) | ASN1Block::Set(_, items) => items,
        ASN1Block::Explicit(_, _, _, item) => slice::from_ref(item),
        _ => &[],
    }
}

// A walk over the blocks at all depths.
#[derive(Drop)]
pub struct TreeWalk<'a> {
    front: &'a [ASN1Block],
    // what comes after the front, the next of it last
    outer: Vec<&'a [ASN1Block]>,
}

impl<'a> TreeWalk<'a> {
    pub fn over(alloc: Global, blocks: &'a [ASN1Block]) -> TreeWalk<'a>
        ensures { ahead result ≡ blocks.now }
    {
        TreeWalk {
            front: blocks,
            outer: Vec::new(alloc),
        }
    }

    // The next block.
    pub fn next(&mut self) -> Result<Option<&'a ASN1Block>, AllocError>
        ensures { IfOk result (λ found. MatchOption found
            (ahead self.old ≡ [])
            (λ b. IsNextTree b.now (ahead self.old) (ahead self.new))) }
    {
        loop {
            match self.front.split_first() {
                Some((block, rest)) => {
                    self.enter(blocks_inside(block), rest)?;
                    return Ok(Some(block));
                }
                None => match self.outer.pop() {
                    Some(rest) => self.front = rest,
                    None => return Ok(None),
                },
            }
        }
    }

    // Goes on with what a block holds, and then with the rest. Where either is empty, that takes no memory.
    fn enter(&mut self, held: &'a [ASN1Block], rest: &'a [ASN1Block]) -> Result<(), AllocError>
        ensures { OnOk result (ahead self.new
            ≡ held.now ++ (rest.now ++ stacked (map (λ x. x.now) self.old.outer.items))) }
    {
        if held.is_empty() {
            self.front = rest;
            return Ok(());
        }
        if rest.is_empty() {
            self.front = held;
            return Ok(());
        }
        self.outer.push(rest)?;
        self.front = held;
        Ok(())
    }
}

// The blocks at all depths, each before those that it holds.
pub fn in_tree_order<'a>(
    alloc: Global,
    blocks: &'a [ASN1Block],
) -> Result<Vec<&'a ASN1Block>, AllocError>
    ensures { IfOk result (λ order. IsInTreeOrder (map (λ b. b.now) order.items) blocks.now) }
{
    let mut order = Vec::new(alloc);
    let mut walk = TreeWalk::over(alloc, blocks);
    while let Some(block) = walk.next()? {
        order.push(block)?;
    }
    Ok(order)
}
