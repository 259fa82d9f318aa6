// Documents that digits or symbols of a text spell: in hex digits, in decimal numbers, or in base64, also that of a
// text of PEM.

use crate::document::{LEAST_OCTETS, is_document};
use base64::DecodeAllocError;
use base64::engine::general_purpose::{
    GeneralPurpose, STANDARD_PAD_INDIFFERENT, URL_SAFE_PAD_INDIFFERENT,
};
use der_digits::Spelling;
use der_digits::hex_text::{Symbols, spelling_in};
use der_digits::search::contains;
use std::alloc::{AllocError, Global};
use std::str;

// How a text of PEM begins.
pub const BEGIN: &[u8] = b"-----BEGIN ";

// The front of this in base64.
const BEGIN_IN_BASE64: &[u8] = b"LS0tLS1CRUdJTi";

// How many symbols of base64 spell the fewest octets of a document.
const LEAST_SYMBOLS: usize = 11;

// Whether the octets are a text of PEM, in which an object ends.
pub fn is_pem(octets: &[u8]) -> bool {
    octets.starts_with(BEGIN) && contains(b"-----END ", octets)
}

// Whether the octet is a symbol of base64 or base64url.
pub fn is_symbol(b: u8) -> bool {
    b.is_ascii_alphanumeric() || matches!(b, b'+' | b'/' | b'-' | b'_')
}

// The symbol of base64 that an escape of JSON spells, behind its backslash, and what stands behind it.
pub fn escaped_symbol(word: &[u8]) -> Option<(u8, &[u8])> {
    match word {
        [b'/', rest @ ..] => Some((b'/', rest)),
        [b'u', b'0', b'0', b'2', b'F' | b'f', rest @ ..] => Some((b'/', rest)),
        [b'u', b'0', b'0', b'2', b'B' | b'b', rest @ ..] => Some((b'+', rest)),
        _ => None,
    }
}

// Whether what stands between `&#` and `;` is the number of a line end, as XML spells it.
pub fn is_line_end(word: &[u8]) -> bool {
    matches!(
        word,
        [b'1', b'0' | b'3'] | [b'x', b'A' | b'a' | b'D' | b'd']
    )
}

// Whether a word may be the first of those that spell a document, which most words of a text are not.
pub fn may_spell(word: &[u8]) -> bool {
    match word {
        [b'0', b'x', ..] => true,
        [a, b, ..] if a.is_ascii_hexdigit() && b.is_ascii_hexdigit() => true,
        _ => may_begin(word),
    }
}

// The digits of a word that spells octets by hex digits, which may be those of a number: `0x30`, `0x30_u8`.
pub fn digits_in(word: &[u8]) -> Option<&[u8]> {
    let digits = match word {
        [b'0', b'x', number @ .., b'_', b'u', b'8']
        | [b'0', b'x', number @ .., b'u', b'8']
        | [b'0', b'x', number @ ..] => number,
        digits => digits,
    };
    are_pairs(digits).then_some(digits)
}

// The octet that a word spells as a decimal number, which may be that of two's complement: `130`, `-126`.
pub fn octet_in(word: &[u8]) -> Option<u8> {
    match str::from_utf8(word).ok()?.parse::<i16>().ok()? {
        number @ -128..=255 => u8::try_from(number.rem_euclid(256)).ok(),
        _ => None,
    }
}

// Whether digits are there, two for each octet, with hyphens between them or without.
fn are_pairs(word: &[u8]) -> bool {
    let mut is_whole = true;
    for symbol in Symbols(word) {
        if !symbol.is_ascii_hexdigit() {
            return false;
        }
        is_whole = !is_whole;
    }
    is_whole && !word.is_empty()
}

// The document that hex digits spell, if they spell one.
pub fn document_in_digits(alloc: Global, digits: &[u8]) -> Result<Option<Vec<u8>>, AllocError> {
    if digits.len() < 2 * LEAST_OCTETS || !matches!(digits, [b'3', b'0', ..] | [b'6' | b'7', ..]) {
        return Ok(None);
    }
    match spelling_in(alloc, digits)? {
        Spelling::Octets(octets) if is_document(alloc, &octets)? => Ok(Some(octets)),
        _ => Ok(None),
    }
}

// Whether symbols of base64 may begin a document: a SEQUENCE, an encoding of an application whose length has the long
// form, or a text of PEM.
pub fn may_begin(symbols: &[u8]) -> bool {
    match symbols {
        [b'M', b'A'..=b'P', ..] => true,
        [
            b'Y' | b'Z' | b'a'..=b'f',
            b'I' | b'Y' | b'o' | b'4',
            b'A'..=b'T',
            ..
        ] => true,
        _ => symbols.starts_with(BEGIN_IN_BASE64),
    }
}

// The document or the text of PEM that symbols of base64 spell, if they spell one.
pub fn document_in_symbols(alloc: Global, symbols: &[u8]) -> Result<Option<Vec<u8>>, AllocError> {
    if symbols.len() < LEAST_SYMBOLS || !may_begin(symbols) {
        return Ok(None);
    }
    match document_in_form(alloc, &STANDARD_PAD_INDIFFERENT, symbols)? {
        Some(octets) => Ok(Some(octets)),
        None => document_in_form(alloc, &URL_SAFE_PAD_INDIFFERENT, symbols),
    }
}

// The same in one form of base64.
fn document_in_form(
    alloc: Global,
    form: &GeneralPurpose,
    symbols: &[u8],
) -> Result<Option<Vec<u8>>, AllocError> {
    match form.decode(alloc, symbols) {
        Ok(octets) if is_pem(&octets) || is_document(alloc, &octets)? => Ok(Some(octets)),
        Ok(_) | Err(DecodeAllocError::DecodeError(_)) => Ok(None),
        Err(DecodeAllocError::OutOfMemory) => Err(AllocError),
    }
}
