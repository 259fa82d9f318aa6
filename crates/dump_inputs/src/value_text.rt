// The value of a block as text.

use dump_names::Names;
use dump_values::scalars::printed_str;
use dump_values::text::ValueText;
use dump_values::value::{Identifier, LeafValue};
use dump_walk::Block;
use dump_walk::piece::Piece;
use dump_walk::place::outermost;
use dump_walk::style::Style;
use dump_walk::walk::Walk;
use std::alloc::{AllocError, Global};

// What is said of a number, or of an object identifier, that has more octets than are written in decimal.
const TOO_LONG: &str = "is too long to be written in decimal";

// The value of a block as text, or what is wrong with it. `None` where it is octets that are no text, or encodings.
pub fn value_text(
    alloc: Global,
    names: &Names,
    style: Style,
    block: &Block<'_>,
) -> Result<Result<Option<String>, String>, AllocError> {
    let place = outermost(style, block.place.around);
    let mut walk = Walk::over(alloc, &names.shapes, block.octets, place)?;
    match walk.next(alloc)? {
        Some(piece) => piece_text(alloc, names, &piece),
        None => Ok(Ok(None)),
    }
}

// The value of a piece as text, or what is wrong with it.
fn piece_text(
    alloc: Global,
    names: &Names,
    piece: &Piece<'_>,
) -> Result<Result<Option<String>, String>, AllocError> {
    if let Some(fault) = &piece.fault {
        return Ok(Err(format!(in alloc; "is malformed: {}", fault.message)?));
    }
    let Some(value) = piece.value() else {
        return Ok(Ok(None));
    };
    if is_lines(value) {
        return Ok(Ok(None));
    }
    let text = match value {
        LeafValue::Bits(_) => return Ok(Ok(piece.bits_text(alloc, &names.shapes)?)),
        LeafValue::Identifier(identifier) => name_of(names, identifier).map(ValueText::Own),
        _ => None,
    };
    let text = match text {
        Some(name) => Some(name),
        None => value.text(alloc, piece.contents())?,
    };
    match (text, value) {
        (Some(text), _) => Ok(Ok(Some(text.into_string(alloc)?))),
        (None, LeafValue::Integer(_) | LeafValue::Identifier(_)) => {
            Ok(Err(String::from_str(alloc, TOO_LONG)?))
        }
        (None, _) => Ok(Ok(None)),
    }
}

// The name of an object identifier, if it has one.
fn name_of<'a>(names: &'a Names, identifier: &Identifier) -> Option<&'a str> {
    let (name, _) = names.of(identifier.dotted.as_deref()?)?;
    Some(name)
}

// Whether a value is octets that are lines of text, which are written as they stand.
fn is_lines(value: &LeafValue) -> bool {
    match value {
        LeafValue::Octets(Some(text))
        | LeafValue::Other(Some(text))
        | LeafValue::Tagged(Some(text))
        | LeafValue::NoText(Some(text)) => printed_str(text.as_bytes()).is_none(),
        _ => false,
    }
}
