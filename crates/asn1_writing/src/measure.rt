// The first walk: all blocks in tree order, each with the size of its contents octets, or the first fault.
ghost use Rattle.std.specs.Prelude.{◌≡◌, ◌+◌, ◌-◌, ◌≤◌, ◌⊎◌, List, None, Some, length, map, take, drop, IfErr, IfOk, OnOk, vec_len};
ghost use Rattle.std.specs.List.{sum};
ghost use Rattle.asn1_writing.specs.Canonical.{all_canonical, first_write_fault};
ghost use Rattle.asn1_headers.specs.Header.{shortest_length};
ghost use Rattle.asn1_blocks.specs.Inner.TreeOrder.{IsInTreeOrder};
ghost use Rattle.asn1_blocks.specs.View.{view, views};
ghost use Rattle.asn1_writing.specs.Inner.WriteWalk.{contents_size_of, identifier_of, measured_blocks, measured_sizes, own_size_of};
ghost use Rattle.asn1_blocks.specs.declared.block.ASN1Block.{ASN1Block};
ghost use Rattle.asn1_headers.specs.declared.error.ASN1EncodeErr.TheVariants.{OutOfMemory as no_memory};

use asn1_blocks::block::ASN1Block;
use asn1_blocks::contents::own_size;
use asn1_blocks::tree_walk::{TreeWalk, blocks_inside};
use asn1_headers::error::ASN1EncodeErr;
use asn1_headers::header::{identifier_size, length_size};
use std::alloc::Global;

// For how many blocks the lists have room at first: growing from less takes longer than it saves.
const FIRST_ROOM: usize = 64;

// A block, and how many contents octets it has.
#[derive(Drop)]
pub(crate) struct Measured<'a> {
    pub(crate) block: &'a ASN1Block,
    pub(crate) contents: usize,
}

// The sum. Octets of a size that passes a usize fit no memory.
fn checked_sum(a: usize, b: usize) -> Result<usize, ASN1EncodeErr>
    ensures sum { IfOk result (λ n. n ≡ a + b) }
    ensures refused { IfErr result (λ e. e ≡ no_memory) }
{
    a.checked_add(b).ok_or(ASN1EncodeErr::OutOfMemory)
}

// The size of a block whose identifier octets and contents octets have these sizes.
pub(crate) fn block_size(identifier: usize, contents: usize) -> Result<usize, ASN1EncodeErr>
    ensures size { IfOk result
        (λ n. n ≡ identifier + (length (shortest_length contents) + contents)) }
    ensures refused { IfErr result (λ e. e ≡ no_memory) }
{
    let after_identifier = checked_sum(length_size(contents), contents)?;
    checked_sum(identifier, after_identifier)
}

// The size of the identifier octets.
pub(crate) fn identifier_size_of(b: &ASN1Block) -> usize
    ensures { result ≡ length (identifier_of (view b.now)) }
{
    match b {
        ASN1Block::Explicit(class, _, tag, _) => identifier_size(*class, true, tag),
        ASN1Block::Unknown(class, constructed, _, tag, _) => {
            identifier_size(*class, *constructed, tag)
        }
        _ => 1,
    }
}

// All blocks in tree order, each with the size of its own contents octets.
fn list_blocks<'a>(
    alloc: Global,
    blocks: &'a [ASN1Block],
) -> Result<Vec<Measured<'a>>, ASN1EncodeErr>
    ensures ordered { IfOk result (λ list. IsInTreeOrder (measured_blocks list.items) blocks.now) }
    ensures own { IfOk result (λ list. measured_sizes list.items
        ≡ map own_size_of (measured_blocks list.items)) }
    ensures writable { OnOk result (first_write_fault (views blocks.now) ≡ None) }
    ensures refused { IfErr result
        (λ e. (e ≡ no_memory) ⊎ (first_write_fault (views blocks.now) ≡ Some e)) }
{
    let mut list = Vec::with_capacity(alloc, FIRST_ROOM)?;
    let mut walk = TreeWalk::over(alloc, blocks);
    while let Some(block) = walk.next()? {
        let contents = own_size(block)?;
        list.push(Measured { block, contents })?;
    }
    Ok(list)
}

// Takes n numbers from the end, and gives their sum.
fn take_sum(sizes: &mut Vec<usize>, n: usize) -> Result<usize, ASN1EncodeErr>
    requires { n ≤ vec_len sizes.old }
    ensures sum { IfOk result (λ s. s ≡ sum (drop (vec_len sizes.old - n) sizes.old.items)) }
    ensures rest { OnOk result (sizes.new.items ≡ take (vec_len sizes.old - n) sizes.old.items) }
    ensures refused { IfErr result (λ e. e ≡ no_memory) }
{
    let mut total = 0;
    for _i in 0..n {
        total = checked_sum(total, sizes.take_last())?;
    }
    Ok(total)
}

// Adds to the size of each block's own contents octets those of the blocks inside, from the last block to the first,
// and gives the size of all octets.
fn add_sizes(alloc: Global, list: &mut [Measured]) -> Result<usize, ASN1EncodeErr>
    requires ordered { (blocks : List ASN1Block) × IsInTreeOrder (measured_blocks list.old) blocks }
    requires own { measured_sizes list.old ≡ map own_size_of (measured_blocks list.old) }
    ensures size { IfOk result (λ n. (blocks : List ASN1Block)
        → IsInTreeOrder (measured_blocks list.old) blocks
        → n ≡ length (all_canonical (views blocks))) }
    ensures blocks { measured_blocks list.new ≡ measured_blocks list.old }
    ensures sizes { OnOk result
        (measured_sizes list.new ≡ map contents_size_of (measured_blocks list.old)) }
    ensures refused { IfErr result (λ e. e ≡ no_memory) }
{
    // the sizes of the blocks that are not yet inside another, the first last
    let mut sizes = Vec::with_capacity(alloc, FIRST_ROOM)?;
    let mut i = list.len();
    while i > 0 {
        i -= 1;
        let block = list[i].block;
        let inside = take_sum(&mut sizes, blocks_inside(block).len())?;
        let contents = checked_sum(list[i].contents, inside)?;
        list[i].contents = contents;
        let size = block_size(identifier_size_of(block), contents)?;
        sizes.push(size)?;
    }
    let n = sizes.len();
    take_sum(&mut sizes, n)
}

// All blocks in tree order, each with the size of its contents octets, and the size of all octets.
pub(crate) fn measure<'a>(
    alloc: Global,
    blocks: &'a [ASN1Block],
) -> Result<(Vec<Measured<'a>>, usize), ASN1EncodeErr>
    ensures ordered { IfOk result (λ m. IsInTreeOrder (measured_blocks m.0.items) blocks.now) }
    ensures sizes { IfOk result (λ m. measured_sizes m.0.items
        ≡ map contents_size_of (measured_blocks m.0.items)) }
    ensures size { IfOk result (λ m. m.1 ≡ length (all_canonical (views blocks.now))) }
    ensures writable { OnOk result (first_write_fault (views blocks.now) ≡ None) }
    ensures refused { IfErr result
        (λ e. (e ≡ no_memory) ⊎ (first_write_fault (views blocks.now) ≡ Some e)) }
{
    let mut list = list_blocks(alloc, blocks)?;
    let size = add_sizes(alloc, &mut list)?;
    Ok((list, size))
}
