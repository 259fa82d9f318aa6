// Postponed blocks, whose octets are not copied yet, since a fault may still refuse what stands around them.
ghost use Rattle.std.specs.Prelude.{◌≡◌, true, [], map, slice_range, IfOk, OnOk};
ghost use Rattle.asn1_blocks.specs.Tree.{group, unknown};
ghost use Rattle.asn1_blocks.specs.View.{view, views};
ghost use Rattle.asn1_blocks.specs.Inner.OpenFrames.{around};
ghost use Rattle.asn1_blocks.specs.Inner.Postponed.{trees_after, trees_after_all};

use crate::block::discard::discard_one;
use crate::block::{ASN1Block, GroupKind};
use crate::held::{HeldBlocks, boxed};
use crate::read_loop::Attempt;
use std::alloc::{AllocError, Global};

// A postponed block: how it is built of those before it, once the encoding has ended.
pub enum Postponed {
    // A block as it is.
    Ready(ASN1Block),
    // A SEQUENCE or SET at the offset: its first items, and how many of the last blocks are its others.
    Group(GroupKind, usize, HeldBlocks, usize),
    // An encoding of another class around the last block.
    Explicit(Attempt),
    // An encoding that stays as it came: where its contents octets begin and end in the document.
    AsItCame(Attempt, usize, usize),
}

impl Drop for Postponed {
    fn drop(self) {
        match self {
            Postponed::Ready(block) => discard_one(block),
            Postponed::Group(_, _, first, _) => drop(first),
            Postponed::Explicit(_) | Postponed::AsItCame(_, _, _) => {}
        }
    }
}

#[inline(always)]
pub fn group_block(kind: GroupKind, offset: usize, blocks: HeldBlocks) -> ASN1Block
    ensures { view result ≡ group offset kind (views blocks) }
{
    let items = blocks.into_vec();
    match kind {
        GroupKind::Sequence => ASN1Block::Sequence(offset, items),
        GroupKind::Set => ASN1Block::Set(offset, items),
    }
}

// An encoding of another class around one block.
#[inline(always)]
pub fn explicit_block(
    alloc: Global,
    attempt: Attempt,
    item: ASN1Block,
) -> Result<ASN1Block, AllocError>
    ensures { IfOk result (λ b. view b ≡ around attempt (view item)) }
{
    let item = boxed(alloc, item)?;
    let Attempt { class, offset, tag } = attempt;
    Ok(ASN1Block::Explicit(class, offset, tag, item))
}

// A constructed encoding that stays as it came.
pub fn unknown_block(
    alloc: Global,
    attempt: Attempt,
    contents: &[u8],
) -> Result<ASN1Block, AllocError>
    ensures { IfOk result (λ b.
        view b ≡ unknown attempt.class true attempt.offset attempt.tag contents.now) }
{
    let octets = Vec::from_slice(alloc, contents)?;
    let Attempt { class, offset, tag } = attempt;
    Ok(ASN1Block::Unknown(class, true, offset, tag, octets))
}

// The octets from `start` to `end`, as far as there are any.
fn octets_between(octets: &[u8], start: usize, end: usize) -> &[u8]
    ensures { result.now ≡ slice_range octets.now start end }
{
    let (_, rest) = octets.split_at(start.min(octets.len()));
    let (between, _) = rest.split_at(end.saturating_sub(start).min(rest.len()));
    between
}

impl Postponed {
    // Builds the block, of those so far.
    fn build(self, alloc: Global, octets: &[u8], blocks: &mut HeldBlocks) -> Result<(), AllocError>
        ensures { OnOk result (map view blocks.new ≡ trees_after octets.now self (map view blocks.old)) }
    {
        let block = match self {
            Postponed::Ready(block) => block,
            Postponed::Group(kind, offset, first, behind) => {
                let others = blocks.split_off(blocks.len().saturating_sub(behind))?;
                let mut items = first;
                items.append(others)?;
                group_block(kind, offset, items)
            }
            Postponed::Explicit(attempt) => {
                let Some(item) = blocks.pop() else {
                    return Ok(());
                };
                explicit_block(alloc, attempt, item)?
            }
            Postponed::AsItCame(attempt, start, end) => {
                unknown_block(alloc, attempt, octets_between(octets, start, end))?
            }
        };
        blocks.push(block)?;
        Ok(())
    }
}

// Builds the postponed blocks, one after another.
pub fn build(
    alloc: Global,
    octets: &[u8],
    postponed: Vec<Postponed>,
) -> Result<HeldBlocks, AllocError>
    ensures { IfOk result (λ v. map view v ≡ trees_after_all octets.now postponed.items []) }
{
    let mut blocks = HeldBlocks::new(alloc);
    for one in postponed {
        one.build(alloc, octets, &mut blocks)?;
    }
    Ok(blocks)
}
