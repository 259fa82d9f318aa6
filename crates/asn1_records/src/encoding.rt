// One encoding of a document by its header: its record, and its tag number of any size.
ghost use Rattle.std.specs.Prelude.{◌≡◌, ◌<◌, IfOk, MatchOption, Bool, List, ℕ, length, string_bytes};
ghost use Rattle.asn1_numbers.specs.Decimal.{natural_numeral};
ghost use Rattle.simple_asn1.specs.Places.{HasNoEncodingAt, IsEncoding};
ghost use Rattle.simple_asn1.specs.Header.{Encoding};
ghost use Rattle.asn1_headers.specs.declared.header.ASN1Class.{ASN1Class};
ghost use Rattle.asn1_records.specs.Contents.{AnswersHeader, AnswersTag, AnswersTagOctets, IsHeaderAt};

use crate::dotted::MOST_IN_DECIMAL;
use crate::header_record::header_record;
use crate::putting::{all_put, nothing_put, put_front};
use crate::record::{Block, Outcome};
use crate::status::{NO_MEMORY, NO_SUCH_VALUE, TOO_LONG};
use asn1_headers::header::identifier_at;
use asn1_headers::whole_header::read_header;
use simple_asn1::{ASN1DecodeErr, BigUint, HeaderCount, encoding_at};
use std::alloc::{AllocError, Global};

// The record of the encoding at the offset by its header alone, where one stands there.
pub fn header_at(alloc: Global, octets: &[u8], offset: usize) -> Result<Option<Block>, AllocError>
    ensures { IfOk result (λ found. MatchOption found
        (HasNoEncodingAt octets.now offset) (IsHeaderAt octets.now offset)) }
{
    let Some(encoding) = encoding_at(octets, offset) else {
        return Ok(None);
    };
    let header = header_record(alloc, encoding)?;
    Ok(Some(Block {
        offset,
        items: 0,
        next: 0,
        depth: 0,
        ..header
    }))
}

// Puts the record of the encoding at the offset.
pub fn put_header(alloc: Global, octets: &[u8], offset: usize, room: &mut [Block]) -> Outcome
    ensures { AnswersHeader octets.now offset room.old room.new result }
{
    match header_at(alloc, octets, offset) {
        Ok(Some(block)) => put_front(&[block], room),
        Ok(None) => nothing_put(NO_SUCH_VALUE, offset),
        Err(AllocError) => nothing_put(NO_MEMORY, offset),
    }
}

// How many identifier octets an encoding has.
fn identifier_size(encoding: &[u8]) -> usize
    requires { IsEncoding encoding.now }
    ensures some { 0 < result }
    ensures size { (e : IsEncoding encoding.now) → length e.encoding.identifier ≡ result }
{
    match identifier_at(encoding) {
        Some(size) => size,
        None => unreachable!(),
    }
}

// The tag number of an encoding.
fn tag_of(alloc: Global, encoding: &[u8]) -> Result<BigUint, AllocError>
    requires { IsEncoding encoding.now }
    ensures { IfOk result (λ tag. (class : ASN1Class) × (constructed : Bool) × (contents : List ℕ)
        × (header : ℕ) × Encoding encoding.now class constructed tag contents header) }
{
    match read_header(alloc, encoding, &mut HeaderCount::new()) {
        Ok(header) => Ok(header.tag),
        Err(e) => match e {
            ASN1DecodeErr::OutOfMemory => Err(AllocError),
            _ => unreachable!(),
        },
    }
}

// The number in decimal.
fn numeral_of(alloc: Global, number: &BigUint) -> Result<String, AllocError>
    ensures { IfOk result (λ text. string_bytes text ≡ natural_numeral number.now) }
{
    format!(in alloc; "{number}")
}

// Puts the tag number of the encoding at the offset, if its identifier octets are few enough.
pub fn put_tag(alloc: Global, octets: &[u8], offset: usize, room: &mut [u8]) -> Outcome
    ensures { AnswersTag octets.now offset room.old room.new result }
{
    let Some(encoding) = encoding_at(octets, offset) else {
        return nothing_put(NO_SUCH_VALUE, offset);
    };
    if identifier_size(encoding) > MOST_IN_DECIMAL {
        return nothing_put(TOO_LONG, offset);
    }
    let Ok(tag) = tag_of(alloc, encoding) else {
        return nothing_put(NO_MEMORY, offset);
    };
    match numeral_of(alloc, &tag) {
        Ok(text) => put_front(text.as_bytes(), room),
        Err(AllocError) => nothing_put(NO_MEMORY, offset),
    }
}

// How many identifier octets of the encoding at the offset follow the leading one.
pub fn tag_octets_at(octets: &[u8], offset: usize) -> Outcome
    ensures { AnswersTagOctets octets.now offset result }
{
    let Some(encoding) = encoding_at(octets, offset) else {
        return nothing_put(NO_SUCH_VALUE, offset);
    };
    all_put(identifier_size(encoding) - 1)
}
