// What single pieces say, in a few words.
use crate::forms::Part;
use crate::open_line::AUTHORITY;
use asn1_headers::tags::PRINTABLE_STRING;
use asn1_numbers::number::big_int::BigInt;
use dump_names::Names;
use dump_values::Time;
use dump_values::tag::universal_tag;
use dump_values::text::decimal_of;
use dump_values::value::LeafValue;
use dump_walk::piece::{Piece, PieceKind};
use jiff::civil::DateTime;
use std::alloc::{AllocError, Global};

const SECONDS_OF_DAY: i64 = 86_400;

// The time that says that there is no end (RFC 5280, section 4.1.2.5).
const NO_END: &[u8] = b"99991231235959Z";

// The contents octets of rsaEncryption (RFC 8017).
const RSA_ENCRYPTION: &[u8] = &[0x2A, 0x86, 0x48, 0x86, 0xF7, 0x0D, 1, 1, 1];

// The components of an object identifier in decimal.
pub fn number_of<'p>(piece: &'p Piece<'_>) -> Option<&'p str> {
    piece.value()?.identifier()?.dotted.as_deref()
}

// The name of an object identifier, if it has one.
pub fn name_of<'p>(piece: &'p Piece<'_>, names: &'p Names) -> Option<&'p str> {
    Some(names.of(number_of(piece)?)?.0)
}

// The name of an object identifier, or its components in decimal; `?` of another piece.
pub fn identifier_of<'p>(piece: &'p Piece<'_>, names: &'p Names) -> &'p str {
    name_of(piece, names).or(number_of(piece)).unwrap_or("?")
}

// What is shown of a part that is a single value. `None` where that is nothing.
pub fn text_of(
    alloc: Global,
    names: &Names,
    now: Option<DateTime>,
    part: Part,
    piece: &Piece<'_>,
) -> Result<Option<String>, AllocError> {
    let contents = piece.contents();
    let text = match (part, piece.value()) {
        (Part::Text(text), _) => String::from_str(alloc, text)?,
        (Part::Number, Some(LeafValue::Integer(number))) => number_text(alloc, number.octets())?,
        (Part::Time, Some(LeafValue::Moment(time) | LeafValue::BerTime(time))) => {
            time.text.clone()?
        }
        (Part::End, Some(LeafValue::Moment(time) | LeafValue::BerTime(time))) => {
            end_text(time, contents, now)?
        }
        (Part::Number | Part::Time | Part::End, _) if contents.is_empty() => {
            String::from_str(alloc, "?")?
        }
        (Part::Number | Part::Time | Part::End, _) => hex::encode(alloc, contents)?,
        (Part::KeyKind, _) if contents == RSA_ENCRYPTION => String::from_str(alloc, "RSA")?,
        (Part::Identifier | Part::KeyKind, _) => {
            String::from_str(alloc, identifier_of(piece, names))?
        }
        (Part::Curve, Some(LeafValue::Identifier(_))) => {
            format!(in alloc; "EC, {}", identifier_of(piece, names))?
        }
        (Part::Authority, Some(LeafValue::Boolean(true))) => String::from_str(alloc, AUTHORITY)?,
        (Part::Bits, _) => return piece.bits_text(alloc, &names.shapes),
        _ => return Ok(None),
    };
    Ok(Some(text))
}

// The characters of a string: also those that a PrintableString may not have.
pub fn characters_of<'p>(piece: &'p Piece<'_>) -> Option<&'p str> {
    match (&piece.kind, piece.value()) {
        (
            _,
            Some(LeafValue::Text(text) | LeafValue::WideText(_, text) | LeafValue::OtherText(text)),
        ) => Some(text),
        (PieceKind::Leaf(header, _, None), _)
            if universal_tag(header).map(u64::from) == Some(PRINTABLE_STRING) => {
            piece.fault.as_ref()?.text.as_deref()
        }
        _ => None,
    }
}

// A number of these two's complement octets in hex digits, behind a minus sign where it is negative, without zeros in
// front, two digits an octet.
fn number_text(alloc: Global, octets: &[u8]) -> Result<String, AllocError> {
    let [0x80..=0xFF, ..] = octets else {
        return hex::encode_upper(alloc, without_zero(octets));
    };
    // The octets of its absolute value are inverted ones, and one more.
    let mut magnitude = Vec::new(alloc);
    let mut is_carried = true;
    for octet in octets.iter().rev() {
        let (inverted, is_next) = (!*octet).overflowing_add(u8::from(is_carried));
        magnitude.push(inverted)?;
        is_carried = is_next;
    }
    magnitude.reverse();
    format!(in alloc; "-{}", hex::encode_upper(alloc, without_zero(&magnitude))?)
}

// The octets of a number without the zero that says its sign.
fn without_zero(octets: &[u8]) -> &[u8] {
    match octets {
        [0, rest @ ..] if !rest.is_empty() => rest,
        _ => octets,
    }
}

// How many bits the absolute value of a number above zero has, of which these are two's complement octets.
pub fn bit_count(octets: &[u8]) -> usize {
    let octets = without_zero(octets);
    let zeros = octets.first().map_or(0, |first| first.leading_zeros());
    let bits = octets.len().saturating_mul(8);
    bits.saturating_sub(zeros as usize)
}

// A time of these contents octets at which something ends, and how many days are left until then, or how many it is
// past. A local time may be in any zone.
fn end_text(end: &Time, contents: &[u8], now: Option<DateTime>) -> Result<String, AllocError> {
    let mut text = end.text.clone()?;
    if contents == NO_END {
        text.push_str(" (no end)")?;
    } else if let (Some(ahead), Some(now)) = (end.ahead, now) {
        let left = now.duration_until(end.moment).as_secs();
        let left = left.saturating_sub(ahead);
        let days = (left / SECONDS_OF_DAY).unsigned_abs();
        if left < 0 {
            write!(text, " (ended {days} days ago)")?;
        } else {
            write!(text, " ({days} days left)")?;
        }
    }
    Ok(text)
}

// What is shown of a piece as an item, where something is.
pub fn item_of(
    alloc: Global,
    names: &Names,
    part: Part,
    piece: &Piece<'_>,
) -> Result<Option<String>, AllocError> {
    let text = match (part, piece.value()) {
        (Part::Serial, Some(LeafValue::Integer(number))) => {
            format!(in alloc; "serial {}", number_text(alloc, number.octets())?)?
        }
        // what is constructed is shown by what stands inside it, as an item
        (Part::Octets(_), _) if matches!(piece.kind, PieceKind::Opened(_, _, _)) => {
            String::new(alloc)
        }
        (Part::Octets(word), _) => {
            format!(in alloc; "{word}{}", hex::encode_upper(alloc, piece.contents())?)?
        }
        (Part::Moment(word), Some(LeafValue::Moment(time) | LeafValue::BerTime(time))) => {
            format!(in alloc; "{word}{}", time.text)?
        }
        (Part::Amount(before, behind), Some(LeafValue::Integer(number))) => {
            format!(in alloc; "{before}{}{behind}", decimal_text(alloc, number)?)?
        }
        (Part::Size, Some(LeafValue::Integer(number))) => {
            format!(in alloc; "{} bits", bit_count(number.octets()))?
        }
        (Part::NumberName, Some(LeafValue::Integer(number))) => {
            match piece.names(&names.shapes).and_then(|named| named.value) {
                Some(name) => String::from_str(alloc, name)?,
                None => decimal_text(alloc, number)?,
            }
        }
        (Part::Flags, _) => return piece.bits_text(alloc, &names.shapes),
        (Part::Characters, _) => match characters_of(piece) {
            Some(characters) => String::from_str(alloc, characters)?,
            None => return Ok(None),
        },
        (Part::Alternative, _) => {
            match piece
                .names(&names.shapes)
                .and_then(|named| named.alternative)
            {
                Some(name) => String::from_str(alloc, name)?,
                None => return Ok(None),
            }
        }
        _ => return Ok(None),
    };
    Ok(Some(text))
}

// A number in decimal; `?` of one that has too many octets for it.
fn decimal_text(alloc: Global, number: &BigInt) -> Result<String, AllocError> {
    match decimal_of(alloc, number)? {
        Some(text) => Ok(text),
        None => String::from_str(alloc, "?"),
    }
}
