// Strings that are constructed, among the pieces of octets.
use crate::place::Place;
use crate::segments::joined_segments;
use crate::string_value::string_type;
use asn1_headers::whole_header::Header;
use dump_values::leaf::value_of_type;
use dump_values::value::LeafValue;
use std::alloc::{AllocError, Global};

// How many encodings are around the outermost one of a kind that is open, such as a string that is constructed, if
// there is one, after an encoding inside so many that may be of the kind.
pub fn outermost_around(outermost: Option<usize>, depth: usize, is_one: bool) -> Option<usize> {
    outermost
        .filter(|outermost| *outermost < depth)
        .or(is_one.then_some(depth))
}

// Whether what stands inside so many encodings is in the outermost one of the kind.
pub fn is_inside(outermost: Option<usize>, depth: usize) -> bool {
    outermost.is_some_and(|outermost| outermost < depth)
}

// A constructed string in one piece: its contents octets, and their value.
#[derive(Drop)]
pub struct Joined {
    pub contents: Vec<u8>,
    pub value: LeafValue,
}

// The segments of an encoding with the header, which is gone into, joined, if it is a string and they have a value.
pub fn read_joined(
    alloc: Global,
    header: &Header,
    contents: &[u8],
    place: &Place,
) -> Result<Option<Joined>, AllocError> {
    let (false, Some(tag)) = (place.is_segment, string_type(header)) else {
        return Ok(None);
    };
    let Some(contents) = joined_segments(alloc, tag, contents, header.is_indefinite)? else {
        return Ok(None);
    };
    match value_of_type(alloc, tag, &contents)? {
        Some(value) => Ok(Some(Joined { contents, value })),
        None => Ok(None),
    }
}
