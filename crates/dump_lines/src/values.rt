// The values of encodings, in words.

use asn1_headers::tags::{CHARACTER_STRING, EMBEDDED_PDV, EXTERNAL, SEQUENCE, SET};
use asn1_numbers::number::big_int::BigInt;
use dump_values::scalars::{LEAST_HEX, write_components, write_hex, write_notation, write_text};
use dump_values::tag::{holds_encodings, universal_tag};
use dump_values::value::{Bits, LeafValue};
use dump_walk::piece::{Piece, PieceKind};
use std::alloc::{AllocError, Global};

// How many octets an integer has at most that is shown in decimal.
const MOST_DECIMAL: usize = 16;

// Whether it is shown that a piece is constructed: neither its tag tells it, nor what stands inside.
pub fn is_shown_constructed(piece: &Piece<'_>) -> bool {
    let PieceKind::Opened(header, _, _) = &piece.kind else {
        return false;
    };
    match universal_tag(header) {
        Some(tag) => !matches!(
            u64::from(tag),
            EXTERNAL | EMBEDDED_PDV | SEQUENCE | SET | CHARACTER_STRING
        ),
        None => header.announced == 0 && !header.is_indefinite,
    }
}

// What a piece holds in words: its value, or its octets, if it has none; nothing where encodings inside it are shown.
pub fn value_text(alloc: Global, piece: &Piece<'_>) -> Result<String, AllocError> {
    let mut text = String::new(alloc);
    let is_full = piece.place.style.is_full;
    match (piece.value(), &piece.kind) {
        (Some(value), _) => write_value(alloc, &mut text, piece, value)?,
        (None, PieceKind::Cut(header, _)) if holds_encodings(header) => {}
        (None, PieceKind::Cut(_, octets) | PieceKind::Unreadable(octets))
        | (None, PieceKind::Leaf(_, octets, _)) => write_hex(&mut text, octets, is_full)?,
        (None, PieceKind::EndOfContents(_) | PieceKind::Opened(_, _, _)) => {}
    }
    Ok(text)
}

fn write_value(
    alloc: Global,
    out: &mut String,
    piece: &Piece<'_>,
    value: &LeafValue,
) -> Result<(), AllocError> {
    let is_full = piece.place.style.is_full;
    let is_opened = piece.nested.is_some();
    match value {
        LeafValue::Boolean(is_true) => write!(out, "{is_true}"),
        LeafValue::Integer(number) => write_integer(out, number, is_full),
        LeafValue::Bits(bits) => write_bits(out, bits, is_opened, is_full),
        LeafValue::Octets(_) if is_opened => Ok(()),
        LeafValue::Octets(text)
        | LeafValue::Other(text)
        | LeafValue::NoText(text)
        | LeafValue::Tagged(text) => write_octets(out, piece.contents(), text, is_full),
        LeafValue::Null => Ok(()),
        LeafValue::Identifier(identifier) => match &identifier.dotted {
            Some(dotted) => write_components(out, dotted, is_full),
            None => out.push_str("with components beyond 2^128"),
        },
        LeafValue::OtherText(text) if text.is_empty() => Ok(()),
        LeafValue::Text(text) | LeafValue::OtherText(text) => write_text(out, text, is_full),
        LeafValue::WideText(form, text) => {
            write!(out, "(as {}) ", form.name())?;
            write_text(out, text, is_full)
        }
        LeafValue::Notation(text) => write_notation(out, text, is_full),
        LeafValue::Moment(time) | LeafValue::BerTime(time) => out.push_str(&time.text),
        LeafValue::Address(address) => out.push_str(&address.text(alloc)?),
    }
}

// An integer in decimal, if it has few octets; and its two's complement octets, unless it has very few.
fn write_integer(out: &mut String, number: &BigInt, is_full: bool) -> Result<(), AllocError> {
    let octets = number.octets();
    if octets.len() > MOST_DECIMAL {
        out.push_str("hex ")?;
        return write_hex(out, octets, is_full);
    }
    write!(out, "{number}")?;
    if octets.len() < LEAST_HEX {
        return Ok(());
    }
    out.push_str(" (hex ")?;
    write_hex(out, octets, is_full)?;
    out.push_str(")")
}

// How many bits there are, and these, unless encodings inside them are shown.
fn write_bits(
    out: &mut String,
    bits: &Bits,
    is_opened: bool,
    is_full: bool,
) -> Result<(), AllocError> {
    let count = bits.count;
    let ending = if count == 1 { "" } else { "s" };
    write!(out, "{count} bit{ending}")?;
    if is_opened {
        return Ok(());
    }
    if bits.unused > 0 {
        write!(out, ", {} unused", bits.unused)?;
    }
    if bits.octets.is_empty() {
        return Ok(());
    }
    out.push_str(": ")?;
    write_hex(out, &bits.octets, is_full)
}

// Octets, and what they are as text, if they may be some.
fn write_octets(
    out: &mut String,
    octets: &[u8],
    text: &Option<String>,
    is_full: bool,
) -> Result<(), AllocError> {
    write_hex(out, octets, is_full)?;
    match text {
        Some(text) => {
            out.push_str(" ")?;
            write_text(out, text, is_full)
        }
        None => Ok(()),
    }
}
