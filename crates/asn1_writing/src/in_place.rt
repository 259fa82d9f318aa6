// A quick look at whether octets that were read are canonical. It goes over the octets, header after header, and not
// over the blocks: in a SEQUENCE or SET without a look at where it ends, since what was read has each block end where
// the length before it says.
ghost use Rattle.std.specs.Prelude.{◌≡◌, ◌<◌, ◌≤◌, ◌⊎◌, ◌∷◌, [], List, ℕ, false, length, take, IfErr, IfOk, IfSome, IsTrue};
ghost use Rattle.asn1_headers.specs.Front.{IsAtFront, KnowsParts};
ghost use Rattle.asn1_writing.specs.Inner.InPlace.{AreCanonical, AreCanonicalContents, BeginsShortest, IsOfGroup, LeavesBoth};
ghost use Rattle.asn1_headers.specs.declared.header.ASN1Class.TheVariants.{Universal};
ghost use Rattle.asn1_headers.specs.declared.error.ASN1DecodeErr.TheVariants.{OutOfMemory};

use asn1_headers::error::ASN1DecodeErr;
use asn1_headers::header::{ASN1Class, HeaderCount};
use asn1_headers::tags::{
    BIT_STRING, BOOLEAN, GENERALIZED_TIME, INTEGER, NULL, OBJECT_IDENTIFIER, SEQUENCE, SET,
};
use asn1_headers::whole_header::{Header, read_header};
use asn1_leaves::contents::{bit_string, boolean, generalized_time, integer, object_identifier};
use asn1_numbers::number::big_uint::BigUint;
use smallvec::SmallVec;
use std::alloc::{AllocError, Global};
use std::simd::prelude::*;

// How many octets are looked at at once. Few object identifiers have more.
const LANES: usize = 16;

// Whether the header at the front of the octets has its shortest form.
#[inline(always)]
fn is_clearly_shortest(_octets: &[u8], header: &Header) -> bool
    requires front { IsAtFront _octets.now header.now }
    requires parts { KnowsParts _octets.now header.now }
    ensures { IsTrue result → BeginsShortest _octets.now header.now }
{
    header.has_shortest_identifier() && header.has_shortest_length()
}

// Whether the header is that of a constructed SEQUENCE or SET.
#[inline(always)]
fn is_of_group(header: &Header) -> bool
    ensures { IsTrue result → IsOfGroup header.now }
{
    match header.class {
        ASN1Class::Universal => {
            header.constructed && matches!(header.tag.to_u64(), Some(SEQUENCE | SET))
        }
        _ => false,
    }
}

// Whether contents octets behind identifier octets of class Universal with this tag are found to be canonical.
#[inline(always)]
fn are_contents_clearly_canonical(constructed: bool, tag: &BigUint, contents: &[u8]) -> bool
    ensures { IsTrue result → AreCanonicalContents Universal constructed tag.now contents.now }
{
    match tag.to_u64() {
        Some(low) if low < 31 => !constructed && are_leaf_contents_clearly_canonical(low, contents),
        _ => true,
    }
}

// Whether contents octets of a primitive encoding are canonical. Those of strings of characters, of an OCTET STRING and
// of a UTCTime have no other form, and those of other tags stay as they came.
#[inline(always)]
pub fn are_leaf_contents_clearly_canonical(tag: u64, contents: &[u8]) -> bool
    ensures { IsTrue result → AreCanonicalContents Universal false tag contents.now }
{
    match tag {
        BOOLEAN => boolean::are_clearly_canonical(contents),
        INTEGER => integer::are_clearly_canonical(contents),
        BIT_STRING => bit_string::are_clearly_canonical(contents),
        NULL => contents.is_empty(),
        OBJECT_IDENTIFIER => object_identifier::are_clearly_shortest(contents),
        SEQUENCE | SET => false,
        GENERALIZED_TIME => generalized_time::are_clearly_canonical(contents),
        _ => true,
    }
}

// Whether so many octets at the front are found to be canonical contents octets of an OBJECT IDENTIFIER: none of the
// first 16 octets is 80 (X.690 8.19.2), those behind the contents included.
#[inline(always)]
pub(crate) fn begin_with_identifier(octets: &[u8], size: usize) -> bool
    ensures short { IsTrue result → size ≤ 16 }
    ensures within { IsTrue result → size ≤ length octets.now }
    ensures canonical { IsTrue result
        → AreCanonicalContents Universal false OBJECT_IDENTIFIER (take size octets.now) }
{
    if size > LANES || octets.len() < LANES {
        return false;
    }
    let are_80 = u8x16::from_slice(octets).simd_eq(u8x16::splat(0x80));
    are_80.to_bitmask() == 0
}

// Whether so many contents octets of an INTEGER stand in front, less than 128, and are the fewest (X.690 8.3.2): of two
// or more, the first nine bits are not all the same.
#[inline(always)]
pub(crate) fn begin_with_integer(octets: &[u8], size: u8) -> bool
    ensures short { IsTrue result → size < 128 }
    ensures canonical { IsTrue result
        → AreCanonicalContents Universal false INTEGER (take size octets.now) }
{
    if size < 2 || size > 127 {
        return size == 1 && !octets.is_empty();
    }
    match octets {
        [first, second, ..] => {
            if *second < 128 {
                *first != 0
            } else {
                *first != 0xFF
            }
        }
        _ => false,
    }
}

// Where octets begin with a header in its shortest form: octets, maybe none, that stand inside, and those that come
// after. Those before are canonical if both are. Most headers are of class Universal, in two octets: these have code of
// their own, and identifiers and INTEGERs come first. A long tag number may take memory.
#[inline(always)]
fn past_header<'a>(
    alloc: Global,
    octets: &'a [u8],
) -> Result<Option<(&'a [u8], &'a [u8])>, AllocError>
    ensures { IfOk result (λ found. IfSome found (λ x. LeavesBoth octets.now x.0.now x.1.now)) }
{
    if let Some(after) = past_identifiers(octets) {
        return Ok(Some((&[], after)));
    }
    if let Some(after) = past_integers(octets) {
        return Ok(Some((&[], after)));
    }
    match octets {
        [leading, length, ..] if *length < 128 => past_short(alloc, octets, *leading, *length),
        _ => past_any(alloc, octets),
    }
}

// While more octets are left, an encoding of two and as many contents octets as a length octet says has an end.
const MOST_SHORT: usize = 257;

// The octets after OBJECT IDENTIFIERs in front, at least one, that are short and found to be canonical.
#[inline(always)]
fn past_identifiers<'a>(octets: &'a [u8]) -> Option<&'a [u8]>
    ensures { IfSome result (λ after. LeavesBoth octets.now [] after.now) }
{
    let Some(mut rest) = past_identifier(octets) else {
        return None;
    };
    'identifiers: while rest.len() > MOST_SHORT {
        let Some(after) = past_identifier(rest) else {
            return Some(rest);
        };
        rest = after;
    }
    Some(rest)
}

// The octets after an OBJECT IDENTIFIER in front that is short and found to be canonical.
#[inline(always)]
fn past_identifier<'a>(octets: &'a [u8]) -> Option<&'a [u8]>
    ensures { IfSome result (λ after. LeavesBoth octets.now [] after.now) }
{
    let [0x06, length, rest @ ..] = octets else {
        return None;
    };
    let size = *length as usize;
    if !begin_with_identifier(rest, size) {
        return None;
    }
    let (_, after) = rest.split_at(size);
    Some(after)
}

// The octets after INTEGERs in front, at least one, that are short and found to be canonical.
#[inline(always)]
fn past_integers<'a>(octets: &'a [u8]) -> Option<&'a [u8]>
    ensures { IfSome result (λ after. LeavesBoth octets.now [] after.now) }
{
    let Some(mut rest) = past_integer(octets) else {
        return None;
    };
    'integers: while rest.len() > MOST_SHORT {
        let Some(after) = past_integer(rest) else {
            return Some(rest);
        };
        rest = after;
    }
    Some(rest)
}

// The octets after an INTEGER in front that is short and found to be canonical.
#[inline(always)]
fn past_integer<'a>(octets: &'a [u8]) -> Option<&'a [u8]>
    ensures { IfSome result (λ after. LeavesBoth octets.now [] after.now) }
{
    let [0x02, length, rest @ ..] = octets else {
        return None;
    };
    let size = *length as usize;
    if size > rest.len() {
        return None;
    }
    if !begin_with_integer(rest, *length) {
        return None;
    }
    let (_, after) = rest.split_at(size);
    Some(after)
}

// The octets that are left to be compared where a leading octet and a length octet below 80 stand in front. Each
// frequent tag has code of its own.
#[inline(always)]
fn past_short<'a>(
    alloc: Global,
    octets: &'a [u8],
    leading: u8,
    length: u8,
) -> Result<Option<(&'a [u8], &'a [u8])>, AllocError>
    requires front { (rest : List ℕ) × (octets.now ≡ leading ∷ length ∷ rest) }
    requires short { length < 128 }
    ensures { IfOk result (λ found. IfSome found (λ x. LeavesBoth octets.now x.0.now x.1.now)) }
{
    match leading {
        1 => Ok(past_short_leaf(octets, 1, length)),
        2 => Ok(past_short_leaf(octets, 2, length)),
        3 => Ok(past_short_leaf(octets, 3, length)),
        4 => Ok(past_short_leaf(octets, 4, length)),
        5 => Ok(past_short_leaf(octets, 5, length)),
        12 => Ok(past_short_leaf(octets, 12, length)),
        19 => Ok(past_short_leaf(octets, 19, length)),
        22 => Ok(past_short_leaf(octets, 22, length)),
        23 => Ok(past_short_leaf(octets, 23, length)),
        24 => Ok(past_short_leaf(octets, 24, length)),
        0x30 => Ok(past_short_group(octets, 0x30, length)),
        0x31 => Ok(past_short_group(octets, 0x31, length)),
        0..=30 => Ok(past_short_leaf(octets, leading, length)),
        _ => past_any(alloc, octets),
    }
}

// The octets that are left to be compared where a SEQUENCE or SET with a header of two octets stands in front.
#[inline(always)]
fn past_short_group<'a>(octets: &'a [u8], leading: u8, length: u8) -> Option<(&'a [u8], &'a [u8])>
    requires front { (rest : List ℕ) × (octets.now ≡ leading ∷ length ∷ rest) }
    requires group { (leading ≡ 48) ⊎ (leading ≡ 49) }
    requires short { length < 128 }
    ensures { IfSome result (λ x. LeavesBoth octets.now x.0.now x.1.now) }
{
    let (_, rest) = octets.split_at(2);
    Some((&[], rest))
}

// The octets that are left to be compared where a primitive encoding with a header of two octets stands in front.
#[inline(always)]
fn past_short_leaf<'a>(octets: &'a [u8], leading: u8, length: u8) -> Option<(&'a [u8], &'a [u8])>
    requires front { (rest : List ℕ) × (octets.now ≡ leading ∷ length ∷ rest) }
    requires low { leading < 31 }
    requires short { length < 128 }
    ensures { IfSome result (λ x. LeavesBoth octets.now x.0.now x.1.now) }
{
    let (_, rest) = octets.split_at(2);
    let announced = length as usize;
    if announced > rest.len() {
        return None;
    }
    let (own, after) = rest.split_at(announced);
    if !are_leaf_contents_clearly_canonical(leading as u64, own) {
        return None;
    }
    Some((&[], after))
}

// The octets that are left to be compared where any header stands in front.
#[inline(always)]
fn past_any<'a>(alloc: Global, octets: &'a [u8]) -> Result<Option<(&'a [u8], &'a [u8])>, AllocError>
    ensures { IfOk result (λ found. IfSome found (λ x. LeavesBoth octets.now x.0.now x.1.now)) }
{
    let mut count = HeaderCount::new();
    let header = match read_header(alloc, octets, &mut count) {
        Ok(header) => header,
        Err(ASN1DecodeErr::OutOfMemory) => return Err(AllocError),
        Err(_) => return Ok(None),
    };
    if !is_clearly_shortest(octets, &header) {
        return Ok(None);
    }
    Ok(past_shortest(octets, &header))
}

// The octets that are left to be compared where the header in front has its shortest form.
#[inline(always)]
fn past_shortest<'a>(octets: &'a [u8], header: &Header) -> Option<(&'a [u8], &'a [u8])>
    requires { BeginsShortest octets.now header.now }
    ensures { IfSome result (λ x. LeavesBoth octets.now x.0.now x.1.now) }
{
    let announced = header.announced;
    let (_, rest) = octets.split_at(header.size);
    if is_of_group(header) {
        return Some((&[], rest));
    }
    if announced > rest.len() {
        return None;
    }
    let (own, after) = rest.split_at(announced);
    match header.class {
        ASN1Class::Universal => {
            if !are_contents_clearly_canonical(header.constructed, &header.tag, own) {
                return None;
            }
            Some((&[], after))
        }
        _ => {
            if header.constructed {
                return Some((own, after));
            }
            Some((&[], after))
        }
    }
}

// Whether the octets of a document are found to be canonical: `false` says nothing. What stands inside an encoding of
// another class may be no blocks, and so is gone over by itself.
pub fn are_clearly_canonical_in_place(alloc: Global, i: &[u8]) -> Result<bool, ASN1DecodeErr>
    ensures canonical { IfOk result (λ yes. IsTrue yes → AreCanonical i.now) }
    ensures refused { IfErr result (λ e. e ≡ OutOfMemory) }
{
    let mut rest = i;
    // what comes after the rest, the next of it last
    let mut outer: SmallVec<&[u8], 4> = SmallVec::new(alloc);
    'headers: loop {
        if rest.len() >= 2 {
            let Some((inside, after)) = past_header(alloc, rest)? else {
                return Ok(false);
            };
            if inside.is_empty() {
                rest = after;
            } else {
                outer.push(after)?;
                rest = inside;
            }
        } else if rest.is_empty() {
            match outer.pop() {
                Some(next) => rest = next,
                None => return Ok(true),
            }
        } else {
            return Ok(false);
        }
    }
}
