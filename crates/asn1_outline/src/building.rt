// Blocks out of entries, from the last entry to the first: those inside a block are built before it.
ghost use Rattle.std.specs.Prelude.{◌≡◌, ◌≢◌, ◌∷◌, ◌<◌, ◌≤◌, [], true, None, IfOk, IsSomeAnd, OnOk, drop, length, map};
ghost use Rattle.asn1_blocks.specs.declared.block.ASN1Block.{ASN1Block};
ghost use Rattle.asn1_blocks.specs.Places.{HeaderFound};
ghost use Rattle.asn1_blocks.specs.Tree.{explicit, unknown};
ghost use Rattle.asn1_blocks.specs.View.{view};
ghost use Rattle.asn1_outline.specs.Building.{IsBuiltNext, IsNodeAt, IsTaken, built_trees, items_of};
ghost use Rattle.asn1_outline.specs.Outlines.{entries_in, octets_in};
ghost use Rattle.asn1_outline.specs.Structure.{IsStructure, Node, Nodes, node_count, node_items, node_tree, tree_at};

use crate::entry::Entry;
use crate::outline::Outline;
use asn1_blocks::block::{ASN1Block, GroupKind};
use asn1_blocks::contents::leaf_block;
use asn1_blocks::held::HeldBlocks;
use asn1_blocks::parsed::{PlacedHeader, header_between};
use asn1_blocks::postponed::{explicit_block, group_block, unknown_block};
use asn1_blocks::read_loop::Attempt;
use asn1_headers::error::ASN1DecodeErr;
use asn1_headers::header::ASN1Class;
use asn1_headers::tags::{SEQUENCE, SET};
use std::alloc::{AllocError, Global};

impl<'a> Outline<'a> {
    /// The block at the index as `from_der` reads it from the document, with the same offsets; `None` past the end.
    ///
    /// It takes memory for this block and those inside it; while it is built, also for the blocks inside one that stays
    /// `Unknown`. Stack use does not grow with nesting. A block that may nest deeply is dropped by [`discard`], in a
    /// `Vec`.
    ///
    /// [`discard`]: asn1_blocks::block::discard::discard
    pub fn to_block(&self, alloc: Global, index: usize) -> Result<Option<ASN1Block>, AllocError>
        ensures found { (ns : Nodes) → IsStructure (octets_in self.now) ns
            → index < length (entries_in self.now)
            → IfOk result (λ found. IsSomeAnd found (λ block. view block ≡ tree_at ns index)) }
        ensures none { length (entries_in self.now) ≤ index → IfOk result (λ found. found ≡ None) }
    {
        let Some(entry) = self.entries.get(index) else {
            return Ok(None);
        };
        let mut built = HeldBlocks::new(alloc);
        let mut i = entry.next;
        while i > index {
            i -= 1;
            let block = block_of(alloc, self.octets, &self.entries[i], &mut built)?;
            built.push(block)?;
        }
        Ok(built.pop())
    }
}

// The block of the entry. It takes those inside it, which were built last.
fn block_of(
    alloc: Global,
    octets: &[u8],
    entry: &Entry,
    built: &mut HeldBlocks,
) -> Result<ASN1Block, AllocError>
    ensures block { (n : Node) → IsBuiltNext octets.now n entry.now (built_trees built.old)
        → IfOk result (λ block. view block ≡ node_tree n) }
    ensures rest { (n : Node) → IsBuiltNext octets.now n entry.now (built_trees built.old)
        → OnOk result (built_trees built.new
        ≡ drop (node_count (node_items n)) (built_trees built.old)) }
{
    let inside = take_built(built, entry.items)?;
    if entry.offset > octets.len() {
        return Err(AllocError);
    }
    let Some(header) = header_between(alloc, octets, entry.offset, octets.len())? else {
        return Err(AllocError);
    };
    match block_around(alloc, octets, header, entry.offset, inside) {
        Ok(block) => Ok(block),
        Err(_) => Err(AllocError),
    }
}

// Takes so many blocks that were built last, in order: the last of them first.
fn take_built(built: &mut HeldBlocks, count: usize) -> Result<HeldBlocks, AllocError>
    ensures { IfOk result (λ taken. IsTaken built.old count taken built.new) }
{
    let at = built.len().saturating_sub(count);
    let mut taken = built.split_off(at)?.into_vec();
    taken.reverse();
    Ok(HeldBlocks::of(taken))
}

// The block with the header at the offset, where these are inside it.
fn block_around(
    alloc: Global,
    octets: &[u8],
    header: PlacedHeader,
    offset: usize,
    inside: HeldBlocks,
) -> Result<ASN1Block, ASN1DecodeErr>
    requires { HeaderFound octets.now offset (length octets.now) header }
    ensures { (n : Node) → IsNodeAt octets.now offset n → map view inside ≡ items_of n
        → IfOk result (λ block. view block ≡ node_tree n) }
{
    let contents = &octets[header.start..header.end];
    match header.class {
        ASN1Class::Universal => match header.tag.to_u64() {
            Some(SEQUENCE) => Ok(group_block(GroupKind::Sequence, offset, inside)),
            Some(SET) => Ok(group_block(GroupKind::Set, offset, inside)),
            _ => leaf_block(alloc, header, contents, offset),
        },
        _ => {
            if !header.constructed {
                return leaf_block(alloc, header, contents, offset);
            }
            Ok(tagged_block(alloc, header, contents, offset, inside)?)
        }
    }
}

// A constructed encoding of another class: around one block, or as it came.
fn tagged_block(
    alloc: Global,
    header: PlacedHeader,
    contents: &[u8],
    offset: usize,
    inside: HeldBlocks,
) -> Result<ASN1Block, AllocError>
    ensures one { (item : ASN1Block) → inside ≡ item ∷ []
        → IfOk result (λ block. view block ≡ explicit header.class offset header.tag (view item)) }
    ensures other { length inside ≢ 1
        → IfOk result (λ block. view block ≡ unknown header.class true offset header.tag contents.now) }
{
    let PlacedHeader { class, tag, .. } = header;
    let attempt = Attempt { class, offset, tag };
    if inside.len() == 1 {
        return explicit_block(alloc, attempt, inside.into_only());
    }
    unknown_block(alloc, attempt, contents)
}
