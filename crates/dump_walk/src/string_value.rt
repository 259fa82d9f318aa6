// The octets that strings hold.
ghost use Rattle.std.specs.Prelude.{◌≡◌, ℕ, List, IfOk, MatchOption, true};
ghost use Rattle.asn1_headers.specs.declared.header.ASN1Class.TheVariants.{Universal};
ghost use Rattle.dump_walk.specs.Headers.{IsHeaderOf};
ghost use Rattle.dump_walk.specs.StringOctets.{AreInNoPiece, AreInOnePiece, AreOctetsOf, IsHeldBy, IsNoneHeldBy, IsNoString, IsStringAnswer, IsStringHeader, is_string_tag as is_string_tag_is};

use crate::element_header::find_header;
use crate::segments::joined_segments;
use asn1_headers::tags::{
    BIT_STRING, BMP_STRING, NUMERIC_STRING, OBJECT_DESCRIPTOR, OCTET_STRING, UNIVERSAL_STRING,
    UTF8_STRING,
};
use asn1_headers::whole_header::Header;
use dump_values::tag::universal_tag;
use std::alloc::{AllocError, Global};

/// Why an element holds no octets of a string.
#[derive(Clone, Copy, Debug, Drop, PartialEq)]
pub enum NoString {
    /// It is of another type.
    OtherType,
    /// It is a malformed string.
    Malformed,
}

/// The octets that a string holds: contents octets of a primitive one, and those of the segments of a constructed one,
/// joined (X.690 8.7.3). Those of a BIT STRING stand behind the number of unused bits (8.6.2).
///
/// Times and ObjectDescriptors are strings, too. Characters are not looked at.
///
/// # Errors
/// Memory ran out.
pub fn string_octets(alloc: Global, element: &[u8]) -> Result<Result<Vec<u8>, NoString>, AllocError>
    ensures { IfOk result (IsStringAnswer element.now) }
{
    let Some((tag, header)) = string_header(alloc, element)? else {
        return Ok(Err(NoString::OtherType));
    };
    match octets_held(alloc, tag, &header, element)? {
        Some(octets) => Ok(Ok(octets)),
        None => Ok(Err(NoString::Malformed)),
    }
}

// The tag and the header of an element that is a string.
fn string_header(alloc: Global, element: &[u8]) -> Result<Option<(u8, Header)>, AllocError>
    ensures { IfOk result (λ found. MatchOption found
        (IsNoString element.now)
        (λ f. IsStringHeader element.now f.0 f.1)) }
{
    let Some(header) = find_header(alloc, element)? else {
        return Ok(None);
    };
    match string_type(&header) {
        Some(tag) => Ok(Some((tag, header))),
        None => Ok(None),
    }
}

// The tag of a string.
pub fn string_type(header: &Header) -> Option<u8>
    ensures { MatchOption result
        (header.now.class ≡ Universal → is_string_tag_is header.now.tag ≡ true → ⊥)
        (λ tag. (header.now.class ≡ Universal) × (header.now.tag ≡ tag) × (is_string_tag_is tag ≡ true)) }
{
    match universal_tag(header) {
        Some(tag) if is_string_tag(tag) => Some(tag),
        _ => None,
    }
}

// Whether types with the tag number, of class Universal, are strings: also an ObjectDescriptor and the two times.
pub fn is_string_tag(tag: u8) -> bool
    ensures { result ≡ is_string_tag_is tag }
{
    matches!(
        u64::from(tag),
        BIT_STRING
            | OCTET_STRING
            | OBJECT_DESCRIPTOR
            | UTF8_STRING
            | NUMERIC_STRING..=UNIVERSAL_STRING | BMP_STRING
    )
}

// The octets of a string with the header.
fn octets_held(
    alloc: Global,
    tag: u8,
    header: &Header,
    element: &[u8],
) -> Result<Option<Vec<u8>>, AllocError>
    requires { IsHeaderOf element.now header.now }
    ensures { IfOk result (λ found. MatchOption found
        (IsNoneHeldBy element.now tag header.now)
        (λ octets. IsHeldBy element.now tag header.now octets.items)) }
{
    let Some(contents) = contents_in_one_piece(alloc, tag, header, element)? else {
        return Ok(None);
    };
    if u64::from(tag) != BIT_STRING {
        return Ok(Some(contents));
    }
    match bits_behind_unused(&contents) {
        Some(bits) => Ok(Some(Vec::from_slice(alloc, bits)?)),
        None => Ok(None),
    }
}

// The contents octets of a string in one piece, if they are well-formed.
fn contents_in_one_piece(
    alloc: Global,
    tag: u8,
    header: &Header,
    element: &[u8],
) -> Result<Option<Vec<u8>>, AllocError>
    requires { IsHeaderOf element.now header.now }
    ensures { IfOk result (λ found. MatchOption found
        (AreInNoPiece element.now tag header.now header.now.constructed)
        (λ contents. AreInOnePiece element.now tag header.now header.now.constructed contents.items)) }
{
    let (_, contents) = element.split_at(header.size);
    if header.constructed {
        return joined_segments(alloc, tag, contents, header.is_indefinite);
    }
    if header.has_length_80 {
        return Ok(None);
    }
    Ok(Some(Vec::from_slice(alloc, contents)?))
}

// The octets of a BIT STRING behind the number of unused bits.
fn bits_behind_unused(contents: &[u8]) -> Option<&[u8]>
    ensures { MatchOption result
        ((octets : List ℕ) → AreOctetsOf BIT_STRING contents.now octets → ⊥)
        (λ octets. AreOctetsOf BIT_STRING contents.now octets.now) }
{
    let (unused, bits) = contents.split_first()?;
    if *unused > 7 {
        return None;
    }
    if bits.is_empty() && *unused > 0 {
        return None;
    }
    Some(bits)
}
