// Values of class Universal that the library does not read.
ghost use Rattle.std.specs.Prelude.{◌≡◌, false, IfOk};
ghost use Rattle.asn1_headers.specs.declared.header.ASN1Class.TheVariants.{Universal};
ghost use Rattle.asn1_blocks.specs.Contents.{is_leaf_tag};
ghost use Rattle.dump_values.specs.Values.{IsValue};

use crate::faults::if_right;
use crate::identifier::identifier_of;
use crate::scalars::{printed_str, printed_text};
use crate::value::{LEAST_TEXT, LeafValue};
use asn1_headers::tags::{
    DATE, DATE_TIME, DURATION, ENUMERATED, GENERAL_STRING, GRAPHIC_STRING, NUMERIC_STRING,
    OBJECT_DESCRIPTOR, OID_IRI, REAL, RELATIVE_OID, RELATIVE_OID_IRI, TIME, TIME_OF_DAY,
    VIDEOTEX_STRING,
};
use asn1_numbers::number::big_int::{BigInt, signed_value};
use std::alloc::{AllocError, Global};
use std::str;

// The value of contents octets with this tag of class Universal, which has no rule in the library: of strings their
// characters; of a REAL (X.690 8.5) `5 * 2^-5`, of a RELATIVE-OID (8.20) `.8571.3.2`, of a DATE, a TIME-OF-DAY, a
// DATE-TIME, a DURATION (8.26) and a TIME as X.680 writes them, unless a number is beyond 2^128.
pub fn unknown_value(alloc: Global, tag: u64, contents: &[u8]) -> Result<LeafValue, AllocError>
    requires { is_leaf_tag tag ≡ false }
    ensures { IfOk result (IsValue Universal tag contents.now) }
{
    let notation = match tag {
        ENUMERATED => {
            return Ok(LeafValue::Integer(BigInt::from_signed_bytes_be(alloc, contents)?));
        }
        REAL => real_text(alloc, contents)?,
        RELATIVE_OID => relative_text(alloc, contents)?,
        TIME | DATE..=DURATION => time_text(alloc, tag, contents)?,
        OBJECT_DESCRIPTOR
        | NUMERIC_STRING
        | VIDEOTEX_STRING
        | GRAPHIC_STRING..=GENERAL_STRING
        | OID_IRI
        | RELATIVE_OID_IRI => return string_value(alloc, tag, contents),
        0..=255 => return Ok(LeafValue::Other(printed_text(alloc, contents, 1)?)),
        _ => return Ok(LeafValue::Other(printed_text(alloc, contents, LEAST_TEXT)?)),
    };
    match notation {
        Some(text) => Ok(LeafValue::Notation(text)),
        None => Ok(LeafValue::NoText(printed_text(alloc, contents, 1)?)),
    }
}

// The characters of a string, if they are UTF-8 and its type has them.
fn string_value(alloc: Global, tag: u64, contents: &[u8]) -> Result<LeafValue, AllocError>
    requires { is_leaf_tag tag ≡ false }
    ensures { IfOk result (IsValue Universal tag contents.now) }
{
    match str::from_utf8(contents) {
        Ok(text) if has_characters(tag, text) => {
            Ok(LeafValue::OtherText(String::from_str(alloc, text)?))
        }
        _ => Ok(LeafValue::NoText(printed_text(alloc, contents, 1)?)),
    }
}

// Whether the type has the characters: a NumericString digits and the space (X.680 table 9).
fn has_characters(tag: u64, text: &str) -> bool {
    match tag {
        NUMERIC_STRING => text.bytes().all(|b| b == b' ' || b.is_ascii_digit()),
        OID_IRI | RELATIVE_OID_IRI => true,
        _ => printed_str(text.as_bytes()).is_some(),
    }
}

fn real_text(alloc: Global, contents: &[u8]) -> Result<Option<String>, AllocError> {
    let text = match contents {
        [] => Some("0"),
        [0x40] => Some("PLUS-INFINITY"),
        [0x41] => Some("MINUS-INFINITY"),
        [0x42] => Some("NOT-A-NUMBER"),
        [0x43] => Some("-0"),
        [0x00..=0x3F, digits @ ..] => printed_str(digits),
        [form @ 0x80..=0xFF, octets @ ..] => return binary_text(alloc, *form, octets),
        _ => None,
    };
    text.map(|text| String::from_str(alloc, text)).transpose()
}

fn binary_text(alloc: Global, form: u8, octets: &[u8]) -> Result<Option<String>, AllocError> {
    let Some((number, exponent)) = binary_number(form, octets) else {
        return Ok(None);
    };
    let sign = if form & 0x40 != 0 { "-" } else { "" };
    let mut text = format!(in alloc; "{sign}{number}")?;
    if exponent != 0 {
        write!(text, " * 2^{exponent}")?;
    }
    Ok(Some(text))
}

// The mantissa of a binary REAL behind its first octet without a sign, and the power of 2 (X.690 8.5.7).
fn binary_number(form: u8, octets: &[u8]) -> Option<(u128, i64)> {
    let bits = match form / 16 % 4 {
        0 => 1,
        1 => 3,
        2 => 4,
        _ => return None,
    };
    let (size, octets) = match (form % 4, octets) {
        (3, [size, octets @ ..]) => (usize::from(*size), octets),
        (less, octets) => (usize::from(less) + 1, octets),
    };
    let (exponent, mantissa) = octets.split_at_checked(size)?;
    let exponent = i64::try_from(signed_value(exponent)?).ok()?;
    let exponent = exponent
        .checked_mul(bits)?
        .checked_add(i64::from(form / 4 % 4))?;
    let mut number = 0u128;
    for octet in mantissa {
        number = number.checked_mul(256)?.checked_add(u128::from(*octet))?;
    }
    Some((number, exponent))
}

// The components, each behind a point, if each is below 2^128: what an object identifier has behind its first two.
fn relative_text(alloc: Global, contents: &[u8]) -> Result<Option<String>, AllocError> {
    let mut whole = Vec::from_slice(alloc, &[0])?;
    whole.extend_from_slice(contents)?;
    let read = if_right(identifier_of(alloc, &whole))?;
    let dotted = read.and_then(|identifier| identifier.dotted);
    let text = dotted
        .as_deref()
        .and_then(|dotted| dotted.strip_prefix("0.0"));
    text.map(|text| String::from_str(alloc, text)).transpose()
}

// The characters of a time with what its encoding leaves out.
fn time_text(alloc: Global, tag: u64, contents: &[u8]) -> Result<Option<String>, AllocError> {
    let Some(characters) = printed_str(contents) else {
        return Ok(None);
    };
    let mut text = String::new(alloc);
    for (i, character) in characters.char_indices() {
        text.push_str(left_out(tag, contents.len(), i))?;
        text.push(character)?;
    }
    Ok(Some(text))
}

// What stands before the character in the value, and not in its encoding of so many octets.
fn left_out(tag: u64, size: usize, i: usize) -> &'static str {
    match (tag, size, i) {
        (DURATION, _, 0) => "P",
        (DATE, 8, 4 | 6) | (DATE_TIME, 14, 4 | 6) => "-",
        (TIME_OF_DAY, 6, 2 | 4) | (DATE_TIME, 14, 10 | 12) => ":",
        (DATE_TIME, 14, 8) => "T",
        _ => "",
    }
}
