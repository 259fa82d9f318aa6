// Octets as pairs of hex digits, and back.
use hex::FromHexError;
use std::alloc::{AllocError, Global};

/// The octets in pairs of hex digits, in capitals, with a space between two pairs: `02 01 FF`.
///
/// # Errors
/// Memory ran out.
pub fn octets_text(alloc: Global, octets: &[u8]) -> Result<String, AllocError> {
    let mut text = String::new(alloc);
    for octet in octets {
        let space = if text.is_empty() { "" } else { " " };
        write!(text, "{space}{octet:02X}")?;
    }
    Ok(text)
}

/// The octets that the text spells in hex digits of either case, two an octet. Spaces are left out first, wherever they
/// stand. `None` where the rest of the text is anything else than an even number of hex digits.
///
/// # Errors
/// Memory ran out.
pub fn octets_of(alloc: Global, text: &[u8]) -> Result<Option<Vec<u8>>, AllocError> {
    let mut digits = Vec::new(alloc);
    for octet in text {
        if *octet != b' ' {
            digits.push(*octet)?;
        }
    }
    match hex::decode(alloc, digits.as_slice()) {
        Ok(octets) => Ok(Some(octets)),
        Err(FromHexError::OutOfMemory) => Err(AllocError),
        Err(_) => Ok(None),
    }
}
