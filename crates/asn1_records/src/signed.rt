// The parts of a signed triple. Of the entries of a document the first two are kept: the others are found by headers.
ghost use Rattle.std.specs.Prelude.{◌≡◌, ◌↔◌, ◌<◌, ◌^◌, IfOk, IsTrue, List, MatchOption, length};
ghost use Rattle.asn1_outline.specs.Entries.{IsOutline};
ghost use Rattle.asn1_outline.specs.Triple.{IsUniversal, entry_at};
ghost use Rattle.asn1_outline.specs.declared.entry.Entry.{Entry};
ghost use Rattle.asn1_records.specs.Answers.{AnswersSigned, HasNoParts};
ghost use Rattle.asn1_records.specs.Inner.TripleRecords.{ArePartsBehind, IsOfEncoding, IsUniversalRecordAt, record_end, record_start};
ghost use Rattle.asn1_records.specs.Records.{block_of};

use crate::document_entries::{Fault, read_first};
use crate::encoding::header_at;
use crate::record::{Block, NO_BLOCK, SignedAnswer, block_of};
use crate::status::{DONE, NO_MEMORY, NOT_SIGNED};
use asn1_headers::tags::{BIT_STRING, OBJECT_IDENTIFIER, SEQUENCE};
use asn1_outline::entry::Entry;
use simple_asn1::ASN1Class;
use std::alloc::{AllocError, Global};

// How many entries are kept: that of the triple, and that of what was signed.
const KEPT: usize = 2;

fn no_parts(status: u32, offset: usize) -> SignedAnswer
    ensures { (result.status ≡ status) × (result.offset ≡ offset) × HasNoParts result }
{
    SignedAnswer {
        status,
        offset,
        content: NO_BLOCK,
        algorithm: NO_BLOCK,
        signature: NO_BLOCK,
    }
}

// The record of an entry by itself.
fn part_of(entry: &Entry) -> Block
    ensures { result ≡ record (block_of entry.now) { next = 0; depth = 0 } }
{
    Block {
        next: 0,
        depth: 0,
        ..block_of(entry)
    }
}

// Where the contents octets of the encoding that a block is of begin, and where they end.
fn bounds_of(block: &Block) -> (usize, usize)
    requires { record_end block.now < 2 ^ 64 }
    ensures start { result.0 ≡ record_start block.now }
    ensures end { result.1 ≡ record_end block.now }
{
    let start = block.offset + block.header;
    (start, start + block.contents)
}

// The record of the encoding at the offset, where it is of class Universal with the tag number.
fn universal_at(
    alloc: Global,
    octets: &[u8],
    offset: usize,
    tag: u64,
) -> Result<Option<Block>, AllocError>
    ensures { IfOk result (λ found. MatchOption found
        ((r : Block) → IsUniversalRecordAt octets.now offset tag r → ⊥)
        (IsUniversalRecordAt octets.now offset tag)) }
{
    let Some(record) = header_at(alloc, octets, offset)? else {
        return Ok(None);
    };
    if record.tag_class == 0 && record.tag == tag {
        return Ok(Some(record));
    }
    Ok(None)
}

// The records of the algorithm's identifier and of the signature, where these follow what was signed: a SEQUENCE that
// begins with an OBJECT IDENTIFIER, and a BIT STRING.
fn parts_behind(
    alloc: Global,
    octets: &[u8],
    content: &Block,
) -> Result<Option<(Block, Block)>, AllocError>
    requires { IsOfEncoding octets.now content.now }
    ensures { IfOk result (λ found. MatchOption found
        ((a i s : Block) → ArePartsBehind octets.now (record_end content.now) a i s → ⊥)
        (λ parts. (a : Block) × ArePartsBehind octets.now (record_end content.now) a parts.0 parts.1)) }
{
    let (_, end) = bounds_of(content);
    let Some(algorithm) = universal_at(alloc, octets, end, SEQUENCE)? else {
        return Ok(None);
    };
    if algorithm.contents == 0 {
        return Ok(None);
    }
    let (start, end) = bounds_of(&algorithm);
    let Some(identifier) = universal_at(alloc, octets, start, OBJECT_IDENTIFIER)? else {
        return Ok(None);
    };
    let Some(signature) = universal_at(alloc, octets, end, BIT_STRING)? else {
        return Ok(None);
    };
    Ok(Some((identifier, signature)))
}

// Whether an entry is that of a SEQUENCE of three items.
fn is_of_three(entry: &Entry) -> bool
    ensures { IsTrue result ↔ (IsUniversal SEQUENCE entry.now × (entry.now.items ≡ 3)) }
{
    match entry.class {
        ASN1Class::Universal => entry.tag == SEQUENCE && entry.items == 3,
        _ => false,
    }
}

// The records of the parts of the triple that a document begins with, of which these are the first two entries.
fn parts_in(alloc: Global, octets: &[u8], whole: &Entry, content: &Entry) -> SignedAnswer
    requires { (all : List Entry) × IsOutline octets.now all × (1 < length all)
        × (whole.now ≡ entry_at all 0) × (content.now ≡ entry_at all 1) }
    ensures { AnswersSigned octets.now result }
{
    if !is_of_three(whole) {
        return no_parts(NOT_SIGNED, 0);
    }
    let content = part_of(content);
    match parts_behind(alloc, octets, &content) {
        Ok(Some((algorithm, signature))) => SignedAnswer {
            status: DONE,
            offset: 0,
            content,
            algorithm,
            signature,
        },
        Ok(None) => no_parts(NOT_SIGNED, 0),
        Err(AllocError) => no_parts(NO_MEMORY, 0),
    }
}

pub fn signed_in(alloc: Global, octets: &[u8]) -> SignedAnswer
    ensures { AnswersSigned octets.now result }
{
    let first = match read_first(alloc, octets, KEPT) {
        Ok(first) => first,
        Err(Fault { status, offset }) => return no_parts(status, offset),
    };
    if first.kept.len() >= KEPT {
        return parts_in(alloc, octets, &first.kept[0], &first.kept[1]);
    }
    if first.beyond > 0 {
        // not reached: a builder with this room leaves no entry out that there is room for
        return no_parts(NO_MEMORY, 0);
    }
    no_parts(NOT_SIGNED, 0)
}
