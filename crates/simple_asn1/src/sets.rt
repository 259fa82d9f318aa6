// The order in which DER has the items of a SET (X.690 10.3, 11.6).
ghost use Rattle.std.specs.Prelude.{◌≡◌, ◌⊎◌, ◌<◌, ◌≤◌, ◌^◌, IfErr, IfOk, OnOk, MatchOption, None, Some, map};
ghost use Rattle.std.specs.Cmp.Lexicographic.{slice_cmp};
ghost use Rattle.std.specs.Ordering.{nat_cmp};
ghost use Rattle.asn1_blocks.specs.BlockParts.{tree_tag};
ghost use Rattle.asn1_blocks.specs.View.{view, views};
ghost use Rattle.asn1_headers.specs.Header.{class_number};
ghost use Rattle.asn1_headers.specs.declared.error.ASN1EncodeErr.TheVariants.{OutOfMemory as no_memory};
ghost use Rattle.asn1_writing.specs.Canonical.{canonical, first_write_fault, write_fault};
ghost use Rattle.simple_asn1.specs.Inner.Encodings.{block_of, octets_of};
ghost use Rattle.simple_asn1.specs.Sets.{IsSortedFrom, tag_key};

use crate::encoded::Encoded;
use asn1_blocks::block::ASN1Block;
use asn1_blocks::block::discard::{discard, discard_one};
use asn1_blocks::held::HeldBlocks;
use asn1_headers::error::ASN1EncodeErr;
use asn1_headers::header::{ASN1Class, encode_class};
use asn1_numbers::number::big_uint::BigUint;
use asn1_writing::write::to_der;
use std::alloc::{AllocError, Global};
use std::cmp::Ordering;

// The blocks in the order of their tags.
pub fn by_tags(mut blocks: Vec<ASN1Block>) -> Result<Vec<ASN1Block>, AllocError>
    ensures { IfOk result (λ sorted. IsSortedFrom tag_key blocks.items sorted.items) }
{
    match blocks.sort_by(|a: &ASN1Block, b: &ASN1Block| tag_order(a, b)) {
        Ok(()) => Ok(blocks),
        Err(AllocError) => {
            discard(blocks);
            Err(AllocError)
        }
    }
}

// Which tag stands before the other: by class, and in a class by number (X.680 8.6).
fn tag_order(a: &ASN1Block, b: &ASN1Block) -> Ordering
    ensures { result ≡ slice_cmp nat_cmp (tag_key (view a.now)) (tag_key (view b.now)) }
{
    let classes = class_place(a.class()).cmp(&class_place(b.class()));
    classes.then(number_order(a, b))
}

fn class_place(class: ASN1Class) -> u8
    ensures { result ≡ class_number class }
{
    encode_class(class) / 64
}

fn number_order(a: &ASN1Block, b: &ASN1Block) -> Ordering
    ensures { result ≡ nat_cmp (tree_tag (view a.now)) (tree_tag (view b.now)) }
{
    match (a.tag(), b.tag()) {
        (Some(m), Some(n)) => m.cmp(&n),
        (Some(_), None) => Ordering::Less,
        (None, Some(_)) => Ordering::Greater,
        (None, None) => large_number_order(a, b),
    }
}

// The order of tag numbers of 2^64 or more.
fn large_number_order(a: &ASN1Block, b: &ASN1Block) -> Ordering
    requires { (2 ^ 64 ≤ tree_tag (view a.now)) × (2 ^ 64 ≤ tree_tag (view b.now)) }
    ensures { result ≡ nat_cmp (tree_tag (view a.now)) (tree_tag (view b.now)) }
{
    match (tag_field(a), tag_field(b)) {
        (Some(m), Some(n)) => m.cmp(n),
        _ => unreachable!(),
    }
}

// The tag number of a block that keeps its own.
fn tag_field(block: &ASN1Block) -> Option<&BigUint>
    ensures { MatchOption result (tree_tag (view block.now) < 2 ^ 64) (λ n. tree_tag (view block.now) ≡ n.now) }
{
    match block {
        ASN1Block::Explicit(_, _, tag, _) | ASN1Block::Unknown(_, _, _, tag, _) => Some(tag),
        _ => None,
    }
}

// The blocks in the order of their encodings, of which each is written once.
pub fn by_encodings(alloc: Global, blocks: Vec<ASN1Block>) -> Result<Vec<ASN1Block>, ASN1EncodeErr>
    ensures sorted { IfOk result (λ sorted. IsSortedFrom canonical blocks.items sorted.items) }
    ensures writable { OnOk result (first_write_fault (views blocks.items) ≡ None) }
    ensures refused { IfErr result
        (λ e. (e ≡ no_memory) ⊎ (first_write_fault (views blocks.items) ≡ Some e)) }
{
    let mut items = encode_all(alloc, blocks)?;
    items.sort_by(|a: &Encoded, b: &Encoded| encoding_order(a, b))?;
    Ok(blocks_of(alloc, items)?)
}

fn encoding_order(a: &Encoded, b: &Encoded) -> Ordering
    ensures { result ≡ slice_cmp nat_cmp (octets_of a.now) (octets_of b.now) }
{
    a.octets.cmp(&b.octets)
}

// Each block with what is written of it.
fn encode_all(alloc: Global, mut blocks: Vec<ASN1Block>) -> Result<Vec<Encoded>, ASN1EncodeErr>
    ensures blocks { IfOk result (λ items. map block_of items.items ≡ blocks.items) }
    ensures writable { OnOk result (first_write_fault (views blocks.items) ≡ None) }
    ensures refused { IfErr result
        (λ e. (e ≡ no_memory) ⊎ (first_write_fault (views blocks.items) ≡ Some e)) }
{
    blocks.reverse();
    let mut left = HeldBlocks::of(blocks);
    let mut items = Vec::with_capacity(alloc, left.len())?;
    while let Some(block) = left.pop() {
        items.push(encode(alloc, block)?)?;
    }
    Ok(items)
}

fn encode(alloc: Global, block: ASN1Block) -> Result<Encoded, ASN1EncodeErr>
    ensures block { IfOk result (λ item. item.block ≡ block) }
    ensures writable { OnOk result (write_fault (view block) ≡ None) }
    ensures refused { IfErr result (λ e. (e ≡ no_memory) ⊎ (write_fault (view block) ≡ Some e)) }
{
    match to_der(alloc, &block) {
        Ok(octets) => Ok(Encoded { octets, block }),
        Err(e) => {
            discard_one(block);
            Err(e)
        }
    }
}

// The blocks alone.
fn blocks_of(alloc: Global, items: Vec<Encoded>) -> Result<Vec<ASN1Block>, AllocError>
    ensures { IfOk result (λ blocks. blocks.items ≡ map block_of items.items) }
{
    let mut blocks = HeldBlocks::with_capacity(alloc, items.len())?;
    for item in items {
        blocks.push(item.into_block())?;
    }
    Ok(blocks.into_vec())
}
