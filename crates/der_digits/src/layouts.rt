// Hex digits in layouts of which only rows of `der_dump` say how they are read: columns with lines left out, as
// `hexdump`, `od` and `xxd -a` print them, and sources of C.
ghost use Rattle.std.specs.Prelude.{◌≡◌};
ghost use Rattle.std.specs.Char.{is_ascii_whitespace};
ghost use Rattle.std.specs.List.{list_all};
ghost use Rattle.der_digits.specs.Layouts.{has_value, leaves_out, some_left_out};
ghost use Rattle.der_io.specs.Lines.{lines_of};

use crate::hex_decoder::HexDecoder;
use crate::hex_text::{OCTAL_OFFSET, digits_column, has_pairs, offset_of, read_symbols};
use crate::lines::Lines;
use crate::search::{contains, without_indent};
use std::alloc::{AllocError, Global};
use std::str;

// Lines that are left out are filled in up to this many octets.
const MOST_OCTETS: usize = 0x1000_0000;

/// Whether a line says that lines like the one before it are left out.
pub fn leaves_out(line: &[u8]) -> bool
    ensures { result ≡ leaves_out line.now }
{
    let text = without_indent(line);
    text.starts_with(b"*") && is_blank(&text[1..])
}

fn is_blank(text: &[u8]) -> bool
    ensures { result ≡ list_all is_ascii_whitespace text.now }
{
    text.iter().all(|b| b.is_ascii_whitespace())
}

/// Whether a line of the text says that lines like the one before it are left out.
pub fn are_some_left_out(text: &[u8]) -> bool
    ensures { result ≡ some_left_out (lines_of text.now) }
{
    for line in Lines::of(text) {
        if leaves_out(line) {
            return true;
        }
    }
    false
}

/// The octets of a text in columns, with those of lines that are left out, if they agree with their offsets.
pub fn columns_octets(alloc: Global, text: &[u8]) -> Result<Option<Vec<u8>>, AllocError> {
    let is_octal = has_pairs(OCTAL_OFFSET, text);
    let mut octets = Vec::new(alloc);
    let mut last = Vec::new(alloc);
    let mut is_left_out = false;
    for line in Lines::of(text) {
        if leaves_out(line) {
            is_left_out = true;
        } else if let Some(offset) = offset_in(is_octal, line) {
            if is_left_out {
                fill(&last, offset, &mut octets)?;
                is_left_out = false;
            }
            match octets_of(alloc, line)? {
                Some(own) if octets.len() == offset => last = own,
                _ => return Ok(None),
            }
            octets.extend_from_slice(&last)?;
        } else if !is_blank(line) {
            return Ok(None);
        }
    }
    Ok((!is_left_out).then_some(octets))
}

// Repeats the octets of the last line as often as they come before an offset.
fn fill(last: &[u8], offset: usize, octets: &mut Vec<u8>) -> Result<(), AllocError> {
    let missing = offset.saturating_sub(octets.len());
    for _ in 0..missing.checked_div(last.len()).unwrap_or(0) {
        octets.extend_from_slice(last)?;
    }
    Ok(())
}

// The octets that the column of a line spells, if it has digits alone, two for each.
fn octets_of(alloc: Global, line: &[u8]) -> Result<Option<Vec<u8>>, AllocError> {
    let mut decoder = HexDecoder::new(alloc);
    let are_read = read_symbols(digits_column(line), &mut decoder)?;
    Ok((are_read && decoder.high.is_none()).then_some(decoder.octets))
}

// The offset in a line, if it is not too great.
fn offset_in(is_octal: bool, line: &[u8]) -> Option<usize> {
    let digits = str::from_utf8(offset_of(line)).ok()?;
    let radix = if is_octal { 8 } else { 16 };
    let offset = usize::from_str_radix(digits, radix).ok()?;
    (offset < MOST_OCTETS).then_some(offset)
}

/// Whether an array or a string begins in the text, as in a source of C.
pub fn has_value(text: &[u8]) -> bool
    ensures { result ≡ has_value text.now }
{
    contains(b"{", text) || contains(b"\"", text)
}

/// The octets of the only array or string of a source of C, if each of them is two digits behind `0x` or `\x`, and
/// there is one.
pub fn source_octets(alloc: Global, text: &[u8]) -> Result<Option<Vec<u8>>, AllocError> {
    let (value, later) = first_value(text);
    if has_value(later) {
        return Ok(None);
    }
    let mut decoder = HexDecoder::new(alloc);
    for word in value.split(|b| b.is_ascii_whitespace() || b"=,\"{}".contains(b)) {
        if !read_word(word, &mut decoder)? {
            return Ok(None);
        }
    }
    Ok((!decoder.octets.is_empty()).then_some(decoder.octets))
}

// What stands between the first `=`, if there is one, and the next `;`, and what stands behind that.
fn first_value(text: &[u8]) -> (&[u8], &[u8]) {
    let begin = text.iter().position(|b| *b == b'=');
    let (_, behind) = text.split_at(begin.unwrap_or(0));
    let end = behind.iter().position(|b| *b == b';');
    behind.split_at(end.unwrap_or(behind.len()))
}

// Reads octets, each of them two digits behind `0x` or `\x`. Returns `false` where they are none.
fn read_word(word: &[u8], decoder: &mut HexDecoder) -> Result<bool, AllocError> {
    for octet in word.chunks(4) {
        let [b'0' | b'\\', b'x', high, low] = octet else {
            return Ok(false);
        };
        if !decoder.read(*high)? || !decoder.read(*low)? {
            return Ok(false);
        }
    }
    Ok(true)
}
