// What of octets is a document: whether a text may have spelled them by chance, and whether zeros stand behind it.

use asn1_blocks::encoding::encoding_at;
use asn1_der::{Rule, departures};
use asn1_headers::error::ASN1DecodeErr;
use dump_walk::element_header::{size_of, whole_header};
use std::alloc::{AllocError, Global};

// How many octets a document has at least.
pub const LEAST_OCTETS: usize = 8;

// How many octets an encoding has at least whose length has the long form (X.690 8.1.3.5), which no chance fits: 128
// contents octets and three before them.
const MANY_OCTETS: usize = 131;

// Whether the octets are a document: one encoding of many octets, a SEQUENCE or of an application; or a SEQUENCE of
// fewer, or followed by others, where all are whole encodings, those inside them too.
pub fn is_document(alloc: Global, octets: &[u8]) -> Result<bool, AllocError> {
    match octets {
        [0x30 | 0x60..=0x7F, ..] if is_long(octets) => Ok(true),
        [0x30, ..] if octets.len() >= LEAST_OCTETS => are_encodings(alloc, octets),
        _ => Ok(false),
    }
}

// Whether the octets are one encoding, of many octets.
fn is_long(octets: &[u8]) -> bool {
    octets.len() >= MANY_OCTETS
        && encoding_at(octets, 0).is_some_and(|encoding| encoding.len() == octets.len())
}

// Whether the octets are whole encodings of types, and so is what stands inside those that are constructed: zeros are
// encodings too, of tag 0.
fn are_encodings(alloc: Global, octets: &[u8]) -> Result<bool, AllocError> {
    match departures(alloc, octets) {
        Ok(found) => Ok(
            found.iter().all(|departure| !matches!(
                departure.rule,
                Rule::NotEncodings | Rule::ReservedTag
            )),
        ),
        Err(e) if matches!(e.error, ASN1DecodeErr::OutOfMemory) => Err(AllocError),
        Err(_) => Ok(false),
    }
}

// How many zeros stand behind a document, as in a buffer that is longer than what is in it: behind whole encodings, of
// which none has the indefinite form of lengths, which ends with zeros itself.
pub fn zeros_behind(alloc: Global, octets: &[u8]) -> Result<usize, AllocError> {
    let zeros = octets.iter().rev().take_while(|b| **b == 0).count();
    let mut rest = octets;
    while rest.len() > zeros {
        match whole_header(alloc, rest)? {
            Some(header) if !header.is_indefinite => {
                let (_, behind) = rest.split_at(size_of(rest, &header));
                rest = behind;
            }
            _ => return Ok(0),
        }
    }
    Ok(if rest.len() < octets.len() {
        rest.len()
    } else {
        0
    })
}
