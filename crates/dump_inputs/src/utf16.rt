// Text in UTF-16 without a byte order mark.

use der_forms::text_of;
use std::alloc::{AllocError, Global};

// How many units are looked at, and how many there are at least.
const FIRST_UNITS: usize = 8;

const LEAST_UNITS: usize = 4;

// The byte order marks, each with whether the octet of more weight comes first.
const MARKS: [(&[u8], bool); 2] = [(b"\xFF\xFE", false), (b"\xFE\xFF", true)];

// What `text_of` reads of an input, also where it is text in UTF-16 without a byte order mark.
pub fn text_in(alloc: Global, input: Vec<u8>) -> Result<Vec<u8>, AllocError> {
    let mut marks = MARKS.iter();
    let Some((mark, _)) = marks.find(|(_, is_first)| are_units(&input, *is_first)) else {
        return text_of(alloc, input);
    };
    let mut marked = Vec::from_slice(alloc, mark)?;
    marked.extend_from_slice(&input)?;
    let text = text_of(alloc, marked)?;
    if text.starts_with(mark) {
        return text_of(alloc, input);
    }
    Ok(text)
}

// Whether octets are units, of which the first or the second octet has more weight: the first of them are characters of
// ASCII, and not the digits 0 and 1 alone. `30 00` is a SEQUENCE of nothing, too, and `31 00` a SET.
fn are_units(octets: &[u8], is_first: bool) -> bool {
    let front = octets.len().min(2 * FIRST_UNITS);
    let (front, _) = octets.split_at(front);
    octets.len() % 2 == 0
        && front.len() >= 2 * LEAST_UNITS
        && front
            .chunks(2)
            .all(|unit| character(unit, is_first).is_some_and(is_printed))
        && front.chunks(2).any(|unit| !matches!(character(unit, is_first), Some(b'0' | b'1')))
}

// The octet of a unit of which the other one is 0, the first or the second.
fn character(unit: &[u8], is_first: bool) -> Option<u8> {
    match unit {
        [0, b] if is_first => Some(*b),
        [b, 0] if !is_first => Some(*b),
        _ => None,
    }
}

// Whether the octet is a printed character, a space, a tab or a line end.
fn is_printed(b: u8) -> bool {
    matches!(b, b' '..=b'~' | b'\t' | b'\r' | b'\n')
}
