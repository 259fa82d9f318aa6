// What a block is: a leaf, a SEQUENCE or SET, a block in explicit tagging, or bits in implicit tagging.
ghost use Rattle.std.specs.Prelude.{◌≡◌, ◌==◌, ◌↔◌, ◌<◌, ℕ, Bool, false, true, None, Option, IfSome, MatchOption, IsTrue};
ghost use Rattle.asn1_blocks.specs.Contents.{group_tag, is_leaf_tag};
ghost use Rattle.asn1_blocks.specs.Tree.{Tree, Trees};
ghost use Rattle.asn1_headers.specs.declared.tags.TheConstants.{NULL};
ghost use Rattle.asn1_headers.specs.declared.header.ASN1Class.TheVariants.{ContextSpecific, Universal};
ghost use Rattle.asn1_outline.specs.Outlines.{IsBlockOf, entry_in, octets_in};
ghost use Rattle.asn1_outline.specs.Structure.{IsStructure, Nodes, node_at, node_items, nodes_trees, tree_at};
ghost use Rattle.asn1_certificate.specs.Held.{AreHeld};
ghost use Rattle.asn1_certificate.specs.Sequences.{Found, are_bits as means_bits, each, is_bits as is_bits_tree, is_leaf as is_leaf_tree, sequence as sequence_tree, tagged as tagged_tree, tagged_set_of};
ghost use Rattle.asn1_certificate.specs.Reading.{IsGroupOf, IsTagged, Tells, left, trees_at};

use crate::fields::Fields;
use asn1_blocks::block::GroupKind;
use asn1_headers::header::ASN1Class;
use asn1_headers::tags::{SEQUENCE, SET};
use asn1_outline::block_ref::BlockRef;
use asn1_outline::outline::Outline;

// Whether the block at the index is a leaf with the tag number.
pub(crate) fn is_leaf(outline: &Outline<'_>, index: usize, tag: u64) -> bool
    requires small { tag < 64 }
    requires leaf { is_leaf_tag tag ≡ true }
    requires not_null { (NULL == tag) ≡ false }
    ensures { (ns : Nodes) → IsStructure (octets_in outline.now) ns
        → result ≡ is_leaf_tree tag (tree_at ns index) }
{
    match outline.block(index) {
        Some(block) => is_universal(&block, tag),
        None => false,
    }
}

// Whether the next field is a leaf with the tag number.
pub(crate) fn begins_with_leaf(outline: &Outline<'_>, fields: &Fields<'_>, tag: u64) -> bool
    requires small { tag < 64 }
    requires leaf { is_leaf_tag tag ≡ true }
    requires not_null { (NULL == tag) ≡ false }
    ensures { (ns : Nodes) → IsStructure (octets_in outline.now) ns
        → Tells ns (is_leaf_tree tag) result (left fields.now) }
{
    match fields.first() {
        Some(index) => is_leaf(outline, index, tag),
        None => false,
    }
}

// The items of the SEQUENCE or SET at the index.
pub(crate) fn group<'o>(
    outline: &'o Outline<'_>,
    index: usize,
    kind: GroupKind,
) -> Option<Fields<'o>>
    ensures { (ns : Nodes) → IsStructure (octets_in outline.now) ns → MatchOption result
        ((items : Trees ℕ) → IsGroupOf kind items (tree_at ns index) → ⊥)
        (λ items. IsGroupOf kind (trees_at ns (left items)) (tree_at ns index)) }
{
    let block = outline.block(index)?;
    if !is_universal(&block, tag_of(kind)) {
        return None;
    }
    Some(Fields::new(outline.items(index)))
}

// The tag number of a SEQUENCE or SET.
fn tag_of(kind: GroupKind) -> u64
    ensures { result ≡ group_tag kind }
{
    match kind {
        GroupKind::Sequence => SEQUENCE,
        GroupKind::Set => SET,
    }
}

// Whether the block is of class Universal, with the tag number.
fn is_universal(block: &BlockRef<'_>, tag: u64) -> bool
    ensures { IsTrue result ↔ (((entry_in block.now).class ≡ Universal) × ((entry_in block.now).tag ≡ tag)) }
{
    let entry = block.entry();
    match entry.class {
        ASN1Class::Universal => entry.tag == tag,
        _ => false,
    }
}

// The fields of the SEQUENCE at the index.
pub(crate) fn sequence<'o>(outline: &'o Outline<'_>, index: usize) -> Option<Fields<'o>>
    ensures { (ns : Nodes) → IsStructure (octets_in outline.now) ns → MatchOption result
        ((fields : Trees ℕ → Option Found) → sequence_tree fields (tree_at ns index) ≡ None)
        (λ items. (fields : Trees ℕ → Option Found) → sequence_tree fields (tree_at ns index)
        ≡ fields (trees_at ns (left items))) }
{
    group(outline, index, GroupKind::Sequence)
}

// The index of the block inside the one at the index, if that is in explicit tagging with the tag number.
pub(crate) fn tagged(outline: &Outline<'_>, index: usize, tag: u64) -> Option<usize>
    requires { tag < 64 }
    ensures { (ns : Nodes) → IsStructure (octets_in outline.now) ns → MatchOption result
        ((is : Tree ℕ → Bool) → tagged_tree tag is (tree_at ns index) ≡ false)
        (λ k. IsTagged tag (tree_at ns k) (tree_at ns index)) }
{
    let block = outline.block(index)?;
    if !is_context_specific(&block, tag) {
        return None;
    }
    if !block.is_explicit() {
        return None;
    }
    let mut inside = Fields::new(outline.items(index));
    inside.take()
}

// The items of the SET in implicit tagging at the index, if its contents octets are blocks.
pub(crate) fn tagged_set<'o>(outline: &'o Outline<'_>, index: usize, tag: u64) -> Option<Fields<'o>>
    requires { tag < 64 }
    ensures items { (ns : Nodes) → IsStructure (octets_in outline.now) ns → IfSome result (λ items.
        trees_at ns (left items) ≡ nodes_trees (node_items (node_at ns index))) }
    ensures set { (ns : Nodes) (held : Tree ℕ → Trees ℕ) → IsStructure (octets_in outline.now) ns
        → AreHeld ns held → MatchOption result
        ((is : Tree ℕ → Bool) → tagged_set_of held tag is (tree_at ns index) ≡ false)
        (λ items. (is : Tree ℕ → Bool) → tagged_set_of held tag is (tree_at ns index)
        ≡ each is (trees_at ns (left items))) }
{
    let block = outline.block(index)?;
    if !is_context_specific(&block, tag) {
        return None;
    }
    let entry = block.entry();
    if !entry.constructed {
        return None;
    }
    let contents = block.contents();
    let items = Fields::new(outline.items(index));
    if items.is_some() {
        return Some(items);
    }
    if !contents.is_empty() {
        return None;
    }
    Some(items)
}

// Whether the block is of class context-specific, with the tag number.
fn is_context_specific(block: &BlockRef<'_>, tag: u64) -> bool
    ensures { IsTrue result ↔ (((entry_in block.now).class ≡ ContextSpecific)
        × ((entry_in block.now).tag ≡ tag)) }
{
    let entry = block.entry();
    match entry.class {
        ASN1Class::ContextSpecific => entry.tag == tag,
        _ => false,
    }
}

// Whether the next field is a primitive BIT STRING in implicit tagging with the tag number.
pub(crate) fn begins_with_bits(outline: &Outline<'_>, fields: &Fields<'_>, tag: u64) -> bool
    requires { tag < 64 }
    ensures { (ns : Nodes) → IsStructure (octets_in outline.now) ns
        → Tells ns (is_bits_tree tag) result (left fields.now) }
{
    match fields.first() {
        Some(index) => is_bits(outline, index, tag),
        None => false,
    }
}

// Whether the block at the index is a primitive BIT STRING in implicit tagging with the tag number.
fn is_bits(outline: &Outline<'_>, index: usize, tag: u64) -> bool
    requires { tag < 64 }
    ensures { (ns : Nodes) → IsStructure (octets_in outline.now) ns
        → result ≡ is_bits_tree tag (tree_at ns index) }
{
    match outline.block(index) {
        Some(block) => is_bits_block(&block, tag),
        None => false,
    }
}

// Whether the block is a primitive BIT STRING in implicit tagging with the tag number.
fn is_bits_block(block: &BlockRef<'_>, tag: u64) -> bool
    requires { tag < 64 }
    ensures { (b : Tree ℕ) → IsBlockOf b block.now → result ≡ is_bits_tree tag b }
{
    if !is_context_specific(block, tag) {
        return false;
    }
    let entry = block.entry();
    if entry.constructed {
        return false;
    }
    are_bits(block.contents())
}

// Whether the contents octets mean bits.
fn are_bits(contents: &[u8]) -> bool
    ensures { result ≡ means_bits contents.now }
{
    let Some((unused, octets)) = contents.split_first() else {
        return true;
    };
    match octets.len().checked_mul(8) {
        Some(room) => *unused as usize <= room,
        None => false,
    }
}
