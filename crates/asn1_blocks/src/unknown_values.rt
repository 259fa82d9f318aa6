// Contents octets of class Universal whose types have no variant of a block: an ENUMERATED, and strings of ASCII.
ghost use Rattle.std.specs.Prelude.{◌≡◌, None, Some, IfOk, MatchOption};
ghost use Rattle.std.specs.List.{list_all};
ghost use Rattle.std.specs.Str.{IsAscii, chars};
ghost use Rattle.asn1_blocks.specs.UnknownValues.{is_ascii_character, is_ascii_tag, is_general, is_numeric, is_visible, primitive_ascii_text, primitive_enumerated};

use asn1_headers::tags::{ENUMERATED, GENERAL_STRING, NUMERIC_STRING, VISIBLE_STRING};
use asn1_leaves::contents::integer::is_shortest_integer;
use asn1_numbers::number::big_int::BigInt;
use std::alloc::{AllocError, Global};

// The number of an ENUMERATED, by the tag number and the contents octets of a primitive encoding.
pub fn enumerated(alloc: Global, tag: u64, contents: &[u8]) -> Result<Option<BigInt>, AllocError>
    ensures { IfOk result (λ found. MatchOption found
        (primitive_enumerated tag contents.now ≡ None)
        (λ n. primitive_enumerated tag contents.now ≡ Some n)) }
{
    if tag != ENUMERATED || !is_shortest_integer(contents) {
        return Ok(None);
    }
    let n = BigInt::from_signed_bytes_be(alloc, contents)?;
    Ok(Some(n))
}

// Whether strings with the tag number have an octet of ASCII for each character.
pub fn is_ascii_tag(tag: u64) -> bool
    ensures { result ≡ is_ascii_tag tag }
{
    tag == NUMERIC_STRING || tag == VISIBLE_STRING || tag == GENERAL_STRING
}

fn is_numeric(octet: u8) -> bool
    ensures { result ≡ is_numeric octet }
{
    matches!(octet, b' ' | b'0'..=b'9')
}

fn is_visible(octet: u8) -> bool
    ensures { result ≡ is_visible octet }
{
    matches!(octet, b' '..=b'~')
}

fn is_general(octet: u8) -> bool
    ensures { result ≡ is_general octet }
{
    octet < 128 && !matches!(octet, 0x0E | 0x0F | 0x1B)
}

// Whether the octet is a character of such a string.
fn is_ascii_character(tag: u64, octet: u8) -> bool
    ensures { result ≡ is_ascii_character tag octet }
{
    match tag {
        NUMERIC_STRING => is_numeric(octet),
        VISIBLE_STRING => is_visible(octet),
        _ => is_general(octet),
    }
}

fn are_ascii_characters(tag: u64, contents: &[u8]) -> bool
    ensures { result ≡ list_all (is_ascii_character tag) contents.now }
{
    let mut all = true;
    for octet in contents {
        all &= is_ascii_character(tag, *octet);
    }
    all
}

// The text of a string of ASCII, by the tag number and the contents octets of a primitive encoding.
pub fn ascii_text(tag: u64, contents: &[u8]) -> Option<&str>
    ensures { MatchOption result
        (primitive_ascii_text tag contents.now ≡ None)
        (λ text. primitive_ascii_text tag contents.now ≡ Some (chars text.now)) }
{
    if !is_ascii_tag(tag) || !are_ascii_characters(tag, contents) {
        return None;
    }
    Some(text_of_ascii(contents))
}

// The text that ASCII is. It is proved that the octets are UTF-8, and so not tested again.
fn text_of_ascii(contents: &[u8]) -> &str
    requires { IsAscii contents.now }
    ensures { chars result.now ≡ contents.now }
{
    unsafe { str::from_utf8_unchecked(contents) }
}
