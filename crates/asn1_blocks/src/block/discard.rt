// Dropping blocks at all depths by a loop, without memory.
ghost use Rattle.std.specs.Prelude.{◌+◌, ◌<◌};
ghost use Rattle.asn1_blocks.specs.HeadersBegun.{all_blocks_in, blocks_in};
ghost use Rattle.asn1_blocks.specs.View.{view, views};

use crate::block::ASN1Block;
use std::mem;

/// Drops blocks by a loop, however deeply they nest: in linear time, and without memory. Dropping an [`ASN1Block`] in
/// any other way uses stack for each level of nesting.
///
/// ```rust
/// use simple_asn1::{ASN1DecodeErr, discard, from_der};
/// use std::alloc::Global;
///
/// // How many blocks the document has at its top.
/// fn count(alloc: Global, octets: &[u8]) -> Result<usize, ASN1DecodeErr> {
///     let blocks = from_der(alloc, octets)?;
///     let n = blocks.len();
///     discard(blocks);
///     Ok(n)
/// }
/// ```
pub fn discard(mut blocks: Vec<ASN1Block>) {
    while !blocks.is_empty() {
        let block = blocks.take_last();
        blocks = unnest(block, blocks);
    }
    blocks.destroy_empty();
}

// Drops a part of a block, and gives what is left beside the others. Where the block holds blocks, they become the
// list, and the others wait in a SEQUENCE in the place of the first of them.
fn unnest(mut block: ASN1Block, mut rest: Vec<ASN1Block>) -> Vec<ASN1Block>
    ensures { all_blocks_in (views result.items)
        < blocks_in (view block) + all_blocks_in (views rest.items) }
{
    loop {
        match block {
            ASN1Block::Explicit(_, _, _, item) => block = Box::into_inner(item),
            ASN1Block::Sequence(_, mut items) | ASN1Block::Set(_, mut items) => {
                if items.is_empty() {
                    items.destroy_empty();
                    return rest;
                }
                if rest.is_empty() {
                    rest.destroy_empty();
                    return items;
                }
                block = mem::replace(&mut items[0], ASN1Block::Sequence(0, rest));
                rest = items;
            }
            _ => return rest,
        }
    }
}

// Drops one block.
#[cold]
#[inline(never)]
pub fn discard_one(mut block: ASN1Block) {
    loop {
        match block {
            ASN1Block::Explicit(_, _, _, item) => block = Box::into_inner(item),
            ASN1Block::Sequence(_, items) | ASN1Block::Set(_, items) => {
                discard(items);
                return;
            }
            _ => return,
        }
    }
}
