// Strings of characters in forms that the library does not read: it takes contents octets for UTF-8.
use std::alloc::{AllocError, Global};

/// A form of characters.
#[derive(Clone, Copy, Drop)]
pub enum Characters {
    /// two octets each, or four of two surrogates, as a BMPString has
    Utf16,
    /// four octets each, as a UniversalString has
    Utf32,
    /// an octet each, as a TeletexString mostly has
    Latin1,
}

impl Characters {
    /// Its name.
    pub fn name(self) -> &'static str {
        match self {
            Characters::Utf16 => "UTF-16",
            Characters::Utf32 => "UTF-32",
            Characters::Latin1 => "Latin-1",
        }
    }

    // The characters that the octets are in the form, if all of them are.
    pub(crate) fn text(self, alloc: Global, octets: &[u8]) -> Result<Option<String>, AllocError> {
        match self {
            Characters::Utf16 => utf16_text(alloc, octets),
            Characters::Utf32 => utf32_text(alloc, octets),
            Characters::Latin1 => latin1_text(alloc, octets),
        }
    }
}

// Each unit has the octet of more weight first.
fn utf16_text(alloc: Global, octets: &[u8]) -> Result<Option<String>, AllocError> {
    let (pairs, []) = octets.as_chunks::<2>() else {
        return Ok(None);
    };
    let mut units = Vec::with_capacity(alloc, pairs.len())?;
    for pair in pairs {
        units.push(u16::from_be_bytes(*pair))?;
    }
    Ok(String::from_utf16(alloc, &units)?.ok())
}

fn utf32_text(alloc: Global, octets: &[u8]) -> Result<Option<String>, AllocError> {
    let (numbers, []) = octets.as_chunks::<4>() else {
        return Ok(None);
    };
    let mut text = String::new(alloc);
    for number in numbers {
        let Some(c) = char::from_u32(u32::from_be_bytes(*number)) else {
            return Ok(None);
        };
        text.push(c)?;
    }
    Ok(Some(text))
}

fn latin1_text(alloc: Global, octets: &[u8]) -> Result<Option<String>, AllocError> {
    let mut text = String::with_capacity(alloc, octets.len())?;
    for octet in octets {
        text.push(char::from(*octet))?;
    }
    Ok(Some(text))
}
