// Characters, numbers and moments.
use crate::octets::octets_text;
use jiff::civil::DateTime;
use simple_asn1::{ASN1DecodeErr, ASN1EncodeErr, BigInt, BigUint, OID, encode_base127};
use std::alloc::{AllocError, Global};

/// The characters of the text, in brackets, with a space between two of them, each as `U+` and its number in hex, in
/// capitals and with at least four digits: `[U+00E9 U+1F600]`.
///
/// # Errors
/// Memory ran out.
pub fn characters_text(alloc: Global, text: &str) -> Result<String, AllocError> {
    let mut characters = String::new(alloc);
    for c in text.chars() {
        let space = if characters.is_empty() { "" } else { " " };
        let number = c as u32;
        write!(characters, "{space}U+{number:04X}")?;
    }
    format!(in alloc; "[{characters}]")
}

/// The components of the object identifier: `1.2.840`. Where one is past a `u128`, the contents octets of the
/// identifier stand in brackets in their place.
///
/// # Errors
/// Memory ran out.
pub fn components_text(alloc: Global, oid: &OID) -> Result<String, AllocError> {
    match oid.as_vec::<u128>(alloc) {
        Ok(_) => format!(in alloc; "{oid}"),
        Err(ASN1DecodeErr::OutOfMemory) => Err(AllocError),
        Err(_) => match oid.as_raw(alloc) {
            Ok(octets) => bracketed(alloc, &octets),
            Err(ASN1EncodeErr::OutOfMemory) => Err(AllocError),
            Err(_) => String::from_str(alloc, "[]"),
        },
    }
}

// The octets in brackets.
pub(crate) fn bracketed(alloc: Global, octets: &[u8]) -> Result<String, AllocError> {
    let octets = octets_text(alloc, octets)?;
    format!(in alloc; "[{octets}]")
}

/// An integer: in decimal where it fits an `i64`, else its two's complement octets in brackets.
///
/// # Errors
/// Memory ran out.
pub fn integer_text(alloc: Global, number: &BigInt) -> Result<String, AllocError> {
    match number.to_i64() {
        Some(n) => format!(in alloc; "{n}"),
        None => bracketed(alloc, &number.to_signed_bytes_be(alloc)?),
    }
}

// A tag number: in decimal where it fits a `u64`, else the octets of its base-128 form in brackets.
pub(crate) fn tag_text(alloc: Global, number: &BigUint) -> Result<String, AllocError> {
    match number.to_u64() {
        Some(n) => format!(in alloc; "{n}"),
        None => bracketed(alloc, &encode_base127(alloc, number)?),
    }
}

// A date and a time of day, and the nanoseconds where there are any.
pub(crate) fn moment_text(alloc: Global, moment: &DateTime) -> Result<String, AllocError> {
    let (year, month, day) = (moment.year(), moment.month(), moment.day());
    let (hour, minute, second) = (moment.hour(), moment.minute(), moment.second());
    let mut text = format!(in alloc;
        "{year:04}-{month:02}-{day:02} {hour:02}:{minute:02}:{second:02}"
    )?;
    let nanosecond = moment.subsec_nanosecond();
    if nanosecond != 0 {
        write!(text, ".{nanosecond:09}")?;
    }
    Ok(text)
}
