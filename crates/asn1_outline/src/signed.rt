// What was signed of a signed triple, found by headers. No entries are kept.
ghost use Rattle.std.specs.Prelude.{◌≡◌, ◌↔◌, ◌≤◌, IfErr, IfOk, IsTrue, List, MatchOption, length};
ghost use Rattle.asn1_headers.specs.Reading.{OutOfMemoryOrAt};
ghost use Rattle.asn1_blocks.specs.declared.parsed.PlacedHeader.{PlacedHeader};
ghost use Rattle.asn1_outline.specs.Shapes.{AreEntriesOfShapes, FirstHeaderFaultAt, encoding_octets};
ghost use Rattle.asn1_outline.specs.Triple.{BeginWithTriple, entry_at};
ghost use Rattle.asn1_outline.specs.TripleHeaders.{HasNoTriple, IsSignedIn, IsUniversalAt, IsUniversalHeader};
ghost use Rattle.asn1_outline.specs.declared.entry.Entry.{Entry};

use crate::header_walk::check_headers;
use asn1_blocks::parsed::{PlacedHeader, header_between};
use asn1_blocks::read_loop::out_of_memory;
use asn1_headers::error::LocatedErr;
use asn1_headers::header::ASN1Class;
use asn1_headers::tags::{BIT_STRING, OBJECT_IDENTIFIER, SEQUENCE};
use std::alloc::{AllocError, Global};

/// The octets of what was signed in a document that is encodings by their headers, of which the first is a signed
/// triple: a SEQUENCE of exactly three, any block, a SEQUENCE that begins with an OBJECT IDENTIFIER, and a BIT STRING.
/// `None` if the first is another encoding. Memory is taken for the encodings that are open at a time alone.
///
/// # Errors
/// The errors of [`check_headers`].
pub fn signed_content<'a>(alloc: Global, octets: &'a [u8]) -> Result<Option<&'a [u8]>, LocatedErr>
    ensures content { IfOk result (λ found. (entries : List Entry) × AreEntriesOfShapes octets.now entries
        × MatchOption found (BeginWithTriple entries → ⊥) (λ content. BeginWithTriple entries
        × (content.now ≡ encoding_octets octets.now (entry_at entries 1)))) }
    ensures fault { IfErr result (OutOfMemoryOrAt (FirstHeaderFaultAt octets.now)) }
{
    check_headers(alloc, octets)?;
    match signed_in(alloc, octets) {
        Ok(found) => Ok(found),
        Err(AllocError) => Err(out_of_memory(0)),
    }
}

// The octets of what was signed, where the document begins with a triple.
fn signed_in<'a>(alloc: Global, octets: &'a [u8]) -> Result<Option<&'a [u8]>, AllocError>
    ensures { IfOk result (λ found. MatchOption found
        (HasNoTriple octets.now) (λ content. IsSignedIn octets.now content.now)) }
{
    let Some(whole) = universal_header(alloc, octets, 0, octets.len(), SEQUENCE)? else {
        return Ok(None);
    };
    let Some(content) = header_between(alloc, octets, whole.start, whole.end)? else {
        return Ok(None);
    };
    let Some(algorithm) = universal_header(alloc, octets, content.end, whole.end, SEQUENCE)? else {
        return Ok(None);
    };
    let Some(_) = universal_header(
        alloc,
        octets,
        algorithm.start,
        algorithm.end,
        OBJECT_IDENTIFIER,
    )?
    else {
        return Ok(None);
    };
    let Some(signature) = universal_header(alloc, octets, algorithm.end, whole.end, BIT_STRING)?
    else {
        return Ok(None);
    };
    if signature.end != whole.end {
        return Ok(None);
    }
    Ok(Some(&octets[whole.start..content.end]))
}

// The header of the encoding from the offset on, where it is of class Universal with the tag number.
fn universal_header(
    alloc: Global,
    octets: &[u8],
    offset: usize,
    end: usize,
    tag: u64,
) -> Result<Option<PlacedHeader>, AllocError>
    requires order { offset ≤ end }
    requires within { end ≤ length octets.now }
    ensures { IfOk result (λ found. MatchOption found
        ((h : PlacedHeader) → IsUniversalAt octets.now offset end tag h → ⊥)
        (IsUniversalAt octets.now offset end tag)) }
{
    let Some(header) = header_between(alloc, octets, offset, end)? else {
        return Ok(None);
    };
    if !is_universal(&header, tag) {
        return Ok(None);
    }
    Ok(Some(header))
}

// Whether the header is of class Universal, with the tag number.
fn is_universal(header: &PlacedHeader, tag: u64) -> bool
    ensures { IsTrue result ↔ IsUniversalHeader tag header.now }
{
    match header.class {
        ASN1Class::Universal => header.tag.to_u64() == Some(tag),
        _ => false,
    }
}
