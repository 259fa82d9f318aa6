// The headers of encodings, by their octets.
ghost use Rattle.std.specs.Prelude.{◌≡◌, ◌+◌, ◌≤◌, IfOk, MatchOption, length};
ghost use Rattle.asn1_headers.specs.Front.{HasNoHeader};
ghost use Rattle.dump_walk.specs.Headers.{HasNoWhole, IsHeaderOf, IsHeaderOfWhole, is_stray as is_stray_is, size_in};
ghost use Rattle.dump_walk.specs.Steps.{IsTaken};

use crate::cursor::Step;
use asn1_headers::error::ASN1DecodeErr;
use asn1_headers::header::HeaderCount;
use asn1_headers::whole_header::{Header, read_header};
use dump_values::tag::holds_encodings;
use std::alloc::{AllocError, Global};

// How many of the octets an encoding takes at most that begins them.
pub fn size_of(octets: &[u8], header: &Header) -> usize
    requires { header.now.size + header.now.announced ≤ length octets.now }
    ensures { result ≡ size_in octets.now header.now }
{
    if header.is_indefinite {
        octets.len()
    } else {
        header.size + header.announced
    }
}

// How a cursor goes on behind an encoding that takes so many octets at most.
pub fn step_of(header: &Header, size: usize) -> Step
    ensures { IsTaken header.now size result }
{
    if holds_encodings(header) {
        Step::Into(header.size, size, header.is_indefinite)
    } else {
        Step::Past(size)
    }
}

// Whether the encoding is primitive, and its length has the indefinite form, which it may not have.
pub fn is_stray(header: &Header) -> bool
    ensures { result ≡ is_stray_is header.now }
{
    !header.constructed && header.has_length_80
}

// The header of an encoding that is whole, where one begins the octets. Of the indefinite form it may be cut short.
pub fn whole_header(alloc: Global, octets: &[u8]) -> Result<Option<Header>, AllocError>
    ensures { IfOk result (λ found. MatchOption found
        (HasNoWhole octets.now)
        (IsHeaderOfWhole octets.now)) }
{
    let Some(header) = find_header(alloc, octets)? else {
        return Ok(None);
    };
    if header.announced > octets.len() - header.size {
        return Ok(None);
    }
    if is_stray(&header) {
        return Ok(None);
    }
    Ok(Some(header))
}

// The header at the front, where one stands there.
pub fn find_header(alloc: Global, octets: &[u8]) -> Result<Option<Header>, AllocError>
    ensures { IfOk result (λ found. MatchOption found
        (HasNoHeader octets.now)
        (IsHeaderOf octets.now)) }
{
    match read_header(alloc, octets, &mut HeaderCount::new()) {
        Ok(header) => Ok(Some(header)),
        Err(ASN1DecodeErr::OutOfMemory) => Err(AllocError),
        Err(_) => Ok(None),
    }
}
