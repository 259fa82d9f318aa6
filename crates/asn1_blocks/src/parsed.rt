// The header of an encoding that stands in the contents octets of another, or in the document.
ghost use Rattle.std.specs.Prelude.{◌≡◌, ◌↔◌, ◌+◌, ◌-◌, ◌<◌, ◌≤◌, ◌^◌, List, ℕ, length, slice_range, IfOk, IfErr, IsTrue, MatchOption};
ghost use Rattle.asn1_numbers.specs.Octets.{AreOctets};
ghost use Rattle.asn1_headers.specs.Fault.{OutOfMemoryOr, fault_of, incomplete, length_too_large};
ghost use Rattle.asn1_headers.specs.Header.{IsIdentifier, IsLength, shortest_identifier, shortest_length};
ghost use Rattle.asn1_headers.specs.HeaderFault.{HeaderFault};
ghost use Rattle.asn1_headers.specs.Indefinite.{is_indefinite};
ghost use Rattle.asn1_blocks.specs.Places.{HeaderFound};
ghost use Rattle.asn1_blocks.specs.declared.parsed.PlacedHeader.{PlacedHeader};

use crate::read_loop::is_out_of_memory;
use asn1_headers::error::ASN1DecodeErr;
use asn1_headers::header::{ASN1Class, HeaderCount, is_least_identifier, is_least_length};
use asn1_headers::whole_header::{Header, read_header};
use asn1_numbers::number::big_uint::BigUint;
use std::alloc::{AllocError, Global};

// What a `Header` tells, but that where the contents octets begin and end in the document stands for how many they are.
#[derive(Drop)]
pub struct PlacedHeader {
    pub class: ASN1Class,
    pub constructed: bool,
    pub tag: BigUint,
    pub identifier: usize,
    pub size: usize,
    pub has_length_80: bool,
    pub is_indefinite: bool,
    pub start: usize,
    pub end: usize,
}

impl PlacedHeader {
    // Whether the identifier octets are the shortest of their tag (X.690 8.1.2.2, 8.1.2.4.2).
    #[inline(always)]
    pub fn has_shortest_identifier(&self) -> bool
        ensures { (identifier : List ℕ) → AreOctets identifier
            → IsIdentifier identifier self.now.class self.now.constructed self.now.tag
            → self.now.identifier ≡ length identifier → IsTrue result
            ↔ (identifier ≡ shortest_identifier self.now.class self.now.constructed self.now.tag) }
    {
        is_least_identifier(self.identifier, self.class, self.constructed, &self.tag)
    }

    // Whether the length octets are the shortest of their length (X.690 10.1).
    #[inline(always)]
    pub fn has_shortest_length(&self) -> bool
        ensures { (len : List ℕ) → AreOctets len → IsLength len (self.now.end - self.now.start)
            → self.now.size ≡ self.now.identifier + length len → self.now.has_length_80 ≡ is_indefinite len
            → IsTrue result ↔ (len ≡ shortest_length (self.now.end - self.now.start)) }
    {
        let size = self.size.saturating_sub(self.identifier);
        let contents = self.end.saturating_sub(self.start);
        is_least_length(size, self.has_length_80, contents)
    }
}

// The header at an offset of the document, inside the contents octets from `start` to `end`. Where its own contents
// octets begin and end is counted from the start of the document.
#[inline(always)]
pub fn header_within(
    alloc: Global,
    octets: &[u8],
    start: usize,
    end: usize,
    offset: usize,
    count: &mut HeaderCount,
) -> Result<PlacedHeader, ASN1DecodeErr>
    requires room { count.old + 1 < 2 ^ 64 }
    requires from { start ≤ offset }
    requires more { offset < end }
    requires within { end ≤ length octets.now }
    ensures found { IfOk result (HeaderFound octets.now offset end) }
    ensures refused { IfErr result (OutOfMemoryOr
        (HeaderFault (offset - start) (slice_range octets.now offset end))) }
    ensures counted { count.new ≡ count.old + 1 }
{
    let rest = &octets[offset..end];
    let header = read_header(alloc, rest, count)?;
    let Header {
        class,
        constructed,
        tag,
        identifier,
        size,
        announced,
        has_length_80,
        is_indefinite,
    } = header;
    if announced > rest.len() - size {
        return Err(too_long(offset - start + size, announced));
    }
    let contents = offset + size;
    Ok(PlacedHeader {
        class,
        constructed,
        tag,
        identifier,
        size,
        has_length_80,
        is_indefinite,
        start: contents,
        end: contents + announced,
    })
}

// The header of the encoding that stands from the offset on and ends no later than the end, where one stands there.
#[inline(always)]
pub fn header_between(
    alloc: Global,
    octets: &[u8],
    offset: usize,
    end: usize,
) -> Result<Option<PlacedHeader>, AllocError>
    requires order { offset ≤ end }
    requires within { end ≤ length octets.now }
    ensures { IfOk result (λ found. MatchOption found
        ((h : PlacedHeader) → HeaderFound octets.now offset end h → ⊥)
        (HeaderFound octets.now offset end)) }
{
    if offset == end {
        return Ok(None);
    }
    let mut count = HeaderCount::new();
    match header_within(alloc, octets, offset, end, offset, &mut count) {
        Ok(header) => Ok(Some(header)),
        Err(error) if is_out_of_memory(&error) => Err(AllocError),
        Err(_) => Ok(None),
    }
}

// The fault of contents octets that do not fit, which begin behind so many octets of those around them.
#[cold]
fn too_long(before: usize, announced: usize) -> ASN1DecodeErr
    ensures far { 2 ^ 64 ≤ before + announced → fault_of result ≡ length_too_large announced }
    ensures near { before + announced < 2 ^ 64 → fault_of result ≡ incomplete }
{
    match before.checked_add(announced) {
        None => ASN1DecodeErr::LengthTooLarge(announced),
        Some(_) => ASN1DecodeErr::Incomplete,
    }
}
