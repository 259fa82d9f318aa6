// An input as text.
ghost use Rattle.std.specs.Prelude.{◌≡◌, string_bytes, IfOk};
ghost use Rattle.der_forms.specs.Texts.{has_begin, if_text as if_text_is, in_utf8 as in_utf8_is, text_of as text_is, units_of};

use crate::breaks::{is_in_lines, unfolded, with_breaks};
use crate::lines::{BEGIN, is_text, without_mark};
use der_digits::hex_text::is_in_columns;
use der_digits::search::contains;
use std::alloc::{AllocError, Global};

/// What is read of an input: its octets, or where it is text in UTF-16 behind a byte order mark, this text in UTF-8. In
/// PEM each object and each END begins a line, and a carriage return alone or `\n` ends one.
///
/// # Errors
/// Memory ran out.
pub fn text_of(alloc: Global, input: Vec<u8>) -> Result<Vec<u8>, AllocError>
    ensures { IfOk result (λ text. text.items ≡ text_is input.items) }
{
    let text = in_utf8(alloc, input)?;
    if !has_begin(&text) || is_in_lines(&text) {
        return Ok(text);
    }
    let broken = with_breaks(alloc, without_mark(&text))?;
    unfolded(alloc, &broken)
}

// Whether an object of PEM begins somewhere in a text.
fn has_begin(text: &[u8]) -> bool
    ensures { result ≡ has_begin text.now }
{
    !text.is_empty() && is_text(text) && contains(BEGIN, text) && !is_in_columns(text)
}

fn in_utf8(alloc: Global, input: Vec<u8>) -> Result<Vec<u8>, AllocError>
    ensures { IfOk result (λ text. text.items ≡ in_utf8_is input.items) }
{
    if input.starts_with(&[0xFF, 0xFE]) {
        let units = units_of(alloc, false, &input[2..])?;
        if_text(String::from_utf16_lossy(alloc, &units)?, input)
    } else if input.starts_with(&[0xFE, 0xFF]) {
        let units = units_of(alloc, true, &input[2..])?;
        if_text(String::from_utf16_lossy(alloc, &units)?, input)
    } else {
        Ok(input)
    }
}

fn if_text(text: String, input: Vec<u8>) -> Result<Vec<u8>, AllocError>
    ensures { IfOk result (λ chosen. chosen.items ≡ if_text_is (string_bytes text) input.items) }
{
    if !text.is_empty() && is_text(text.as_bytes()) {
        Ok(text.into_bytes())
    } else {
        Ok(input)
    }
}

// The units of sixteen bits, of which the first octet has more weight, or the second.
fn units_of(alloc: Global, is_first: bool, octets: &[u8]) -> Result<Vec<u16>, AllocError>
    ensures { IfOk result (λ units. units.items ≡ units_of is_first octets.now) }
{
    let mut units = Vec::new(alloc);
    let mut rest = octets;
    while let [a, b, after @ ..] = rest {
        let (high, low) = if is_first { (*a, *b) } else { (*b, *a) };
        units.push(256 * u16::from(high) + u16::from(low))?;
        rest = after;
    }
    if let [a] = rest {
        units.push(u16::from(*a))?;
    }
    Ok(units)
}
