// Octets, characters and numbers.
use der_io::push_escaped;
use std::alloc::{AllocError, Global};
use std::str;

// How many octets are written at most where not all are; of longer ones the first of them, and how many there are.
const MOST_OCTETS: usize = 32;

// How many characters of a text are written at most where not all are: as many as an explicitText of a certificate may
// have (RFC 5280, section 4.2.1.4).
const MOST_CHARACTERS: usize = 200;

// How many components of an object identifier are written at most where not all are.
const MOST_COMPONENTS: usize = 20;

// From how many octets on an integer is also shown by them.
pub const LEAST_HEX: usize = 5;

// Puts the octets at the end in pairs of hex digits, all of them or as many as are written at most.
pub fn write_hex(out: &mut String, octets: &[u8], is_full: bool) -> Result<(), AllocError> {
    let size = octets.len();
    let most = if is_full { size } else { MOST_OCTETS };
    for octet in octets.iter().take(most) {
        write!(out, "{octet:02x}")?;
    }
    if most < size {
        write!(out, ".. ({size} bytes)")?;
    }
    Ok(())
}

// Puts the text at the end in quotation marks, with what is no printed character escaped: all of it, or as many
// characters as are written at most.
pub fn write_text(out: &mut String, text: &str, is_full: bool) -> Result<(), AllocError> {
    let front = front_of(text, is_full);
    out.push_str("\"")?;
    push_escaped(front, out)?;
    out.push_str("\"")?;
    write_rest(out, text, front)
}

// Puts a value that needs no quotation marks at the end, all of it or as many characters as are written at most.
pub fn write_notation(out: &mut String, text: &str, is_full: bool) -> Result<(), AllocError> {
    let front = front_of(text, is_full);
    out.push_str(front)?;
    write_rest(out, text, front)
}

// As many characters of a text as are written: all of them, or the first ones.
fn front_of(text: &str, is_full: bool) -> &str {
    match text.char_indices().nth(MOST_CHARACTERS) {
        Some((end, _)) if !is_full => text.get(..end).unwrap_or(text),
        _ => text,
    }
}

// Puts how many characters a text has, where its front alone was written.
fn write_rest(out: &mut String, text: &str, front: &str) -> Result<(), AllocError> {
    if front.len() == text.len() {
        return Ok(());
    }
    write!(out, ".. ({} characters)", text.chars().count())
}

// Puts the components of an object identifier at the end, all of them or as many as are written at most.
pub fn write_components(out: &mut String, dotted: &str, is_full: bool) -> Result<(), AllocError> {
    match dotted.match_indices('.').nth(MOST_COMPONENTS - 1) {
        Some((end, _)) if !is_full => {
            let front = dotted.get(..end).unwrap_or(dotted);
            let count = dotted.matches('.').count() + 1;
            write!(out, "{front}.. ({count} components)")
        }
        _ => out.push_str(dotted),
    }
}

// The octets as text, where they are printed characters of ASCII, or spaces.
pub fn printed_str(octets: &[u8]) -> Option<&str> {
    if octets.iter().all(|b| matches!(b, b' '..=b'~')) {
        str::from_utf8(octets).ok()
    } else {
        None
    }
}

// The octets as text, where they are printed characters, at least so many, and tabs and line ends.
pub fn printed_text(
    alloc: Global,
    octets: &[u8],
    least: usize,
) -> Result<Option<String>, AllocError> {
    let mut printed = 0_usize;
    for octet in octets {
        match octet {
            b' '..=b'~' => printed = printed.saturating_add(1),
            b'\t' | b'\n' | b'\r' => {}
            _ => return Ok(None),
        }
    }
    match str::from_utf8(octets) {
        Ok(text) if printed >= least => Ok(Some(String::from_str(alloc, text)?)),
        _ => Ok(None),
    }
}
