// Constructed strings, which hold their octets in segments.
ghost use Rattle.std.specs.Prelude.{◌≡◌, ◌↔◌, ℕ, List, IfOk, IsTrue, MatchOption, false, true};
ghost use Rattle.asn1_headers.specs.declared.header.ASN1Class.TheVariants.{Universal};
ghost use Rattle.dump_walk.specs.Segments.{AreSegmentsOf, HasNoSegment, HaveNoSegments, IsSegment, Joins, JoinsBits, segment_tag as segment_tag_is};

use crate::cursor::{Cursor, Left, Step};
use crate::element_header::{size_of, whole_header};
use asn1_headers::tags;
use asn1_headers::whole_header::Header;
use dump_values::tag::{has_tag, is_universal};
use std::alloc::{AllocError, Global};

const BIT_STRING: u8 = tags::BIT_STRING as u8;

const OCTET_STRING: u8 = tags::OCTET_STRING as u8;

// The contents octets of a string with the tag, if what it holds are well-formed segments.
pub fn joined_segments(
    alloc: Global,
    tag: u8,
    contents: &[u8],
    is_indefinite: bool,
) -> Result<Option<Vec<u8>>, AllocError>
    ensures { IfOk result (λ joined. MatchOption joined
        (HaveNoSegments tag contents.now is_indefinite)
        (λ octets. AreSegmentsOf tag contents.now is_indefinite octets.items)) }
{
    let mut joined = Vec::new(alloc);
    if tag == BIT_STRING {
        joined.push(0)?;
    }
    let mut cursor = Cursor::over(alloc, contents, is_indefinite)?;
    while let Some(left) = cursor.next() {
        let Some(step) = join_next(alloc, tag, left, &mut joined)? else {
            return Ok(None);
        };
        cursor.go(step)?;
    }
    Ok(Some(joined))
}

// Joins the segment that begins what is left to those before it, unless it is constructed, too: then its own are next.
// How a cursor goes on behind it, if a segment begins it, or the end of one.
fn join_next(
    alloc: Global,
    tag: u8,
    left: Left<'_>,
    joined: &mut Vec<u8>,
) -> Result<Option<Step>, AllocError>
    ensures { IfOk result (λ found. MatchOption found
        (HasNoSegment tag left.entry.octets.now left.entry.is_indefinite joined.old.items)
        (λ step. IsSegment tag left.entry.octets.now left.entry.is_indefinite step
        joined.old.items joined.new.items)) }
{
    if left.begins_with_end() {
        return Ok(Some(Step::Out(2)));
    }
    let Some(header) = whole_header(alloc, left.octets)? else {
        return Ok(None);
    };
    if !is_segment(&header, tag) {
        return Ok(None);
    }
    if header.constructed {
        let size = size_of(left.octets, &header);
        return Ok(Some(Step::Into(header.size, size, header.is_indefinite)));
    }
    let size = header.size + header.announced;
    if join(tag, &left.octets[header.size..size], joined)? {
        Ok(Some(Step::Past(size)))
    } else {
        Ok(None)
    }
}

// Whether it is the header of a segment of a string.
fn is_segment(header: &Header, tag: u8) -> bool
    ensures { IsTrue result ↔ ((header.now.class ≡ Universal) × (header.now.tag ≡ segment_tag_is tag)) }
{
    is_universal(header) && has_tag(&header.tag, u64::from(segment_tag(tag)))
}

// The tag of the segments of a string.
fn segment_tag(tag: u8) -> u8
    ensures { result ≡ segment_tag_is tag }
{
    if tag == BIT_STRING {
        BIT_STRING
    } else {
        OCTET_STRING
    }
}

// Joins the contents octets of a segment to those of others, if they may stand there.
fn join(tag: u8, segment: &[u8], joined: &mut Vec<u8>) -> Result<bool, AllocError>
    ensures joined { IfOk result (λ done. done ≡ true → Joins tag joined.old.items segment.now joined.new.items) }
    ensures refused { IfOk result (λ done. done ≡ false → (after : List ℕ)
        → Joins tag joined.old.items segment.now after → ⊥) }
{
    if tag == BIT_STRING {
        return join_bits(segment, joined);
    }
    joined.extend_from_slice(segment)?;
    Ok(true)
}

// Joins bits to others, if these fill their last octet: only the last segment may have unused bits.
fn join_bits(segment: &[u8], joined: &mut Vec<u8>) -> Result<bool, AllocError>
    ensures joined { IfOk result (λ done. done ≡ true → JoinsBits joined.old.items segment.now joined.new.items) }
    ensures refused { IfOk result (λ done. done ≡ false → (after : List ℕ)
        → JoinsBits joined.old.items segment.now after → ⊥) }
{
    let Some((unused, bits)) = segment.split_first() else {
        return Ok(false);
    };
    if joined.first() != Some(&0) || *unused > 7 || (bits.is_empty() && *unused > 0) {
        return Ok(false);
    }
    joined[0] = *unused;
    joined.extend_from_slice(bits)?;
    Ok(true)
}
