// The members `name` and `shown`, for people who read the value.
use crate::value::Value;
use dump_names::Names;
use dump_shapes::Named;
use dump_values::scalars::LEAST_HEX;
use dump_values::tag::is_universal;
use dump_values::text::MOST_DECIMAL;
use dump_values::value::LeafValue;
use dump_walk::piece::{Piece, PieceKind};
use std::alloc::{AllocError, Global};

// The name of a piece: of an object identifier, of the bits that are set, of the alternative that its tag chooses, or
// of a number.
pub fn name_of<'a>(
    alloc: Global,
    names: &'a Names,
    piece: &Piece<'_>,
    named: Option<Named>,
) -> Result<Option<Value<'a>>, AllocError> {
    if let Some(text) = piece.bits_text(alloc, &names.shapes)? {
        return Ok(Some(Value::Made(text)));
    }
    let name = match piece.value() {
        Some(LeafValue::Identifier(identifier)) => {
            let dotted = identifier.dotted.as_deref();
            let found = dotted.and_then(|dotted| names.of(dotted));
            found.map(|(name, _)| name)
        }
        _ => named.and_then(|named| named.alternative.or(named.value)),
    };
    Ok(name.map(Value::Text))
}

// What else is shown of a piece: how much of it is there, or its contents octets as text or in hex digits.
pub fn shown_of<'a>(alloc: Global, piece: &'a Piece<'_>) -> Result<Option<Value<'a>>, AllocError> {
    match &piece.kind {
        PieceKind::Cut(header, contents) => {
            let (there, announced) = (contents.len(), header.announced);
            Ok(Some(Value::Made(format!(in alloc; "truncated: {there} of {announced} bytes")?)))
        }
        PieceKind::Leaf(header, contents, Some(value)) if is_universal(header) => {
            Ok(shown_value(contents, value))
        }
        PieceKind::Leaf(_, contents, Some(value)) => text_shown(alloc, contents, value),
        PieceKind::Leaf(_, _, None) => Ok(
            piece.fault.as_ref().and_then(|fault| text_in(&fault.text)),
        ),
        _ => Ok(None),
    }
}

fn text_in(text: &Option<String>) -> Option<Value<'_>> {
    text.as_deref().map(Value::Text)
}

// What else is shown of a value with these contents octets: hex digits of a long number, and of an object identifier
// that has no value for its size.
fn shown_value<'a>(contents: &'a [u8], value: &'a LeafValue) -> Option<Value<'a>> {
    match value {
        LeafValue::Integer(number) if number.octets().len() >= LEAST_HEX => {
            Some(Value::Octets(number.octets()))
        }
        LeafValue::Octets(text) | LeafValue::NoText(text) => text_in(text),
        LeafValue::Identifier(_) if contents.len() > MOST_DECIMAL => Some(Value::Octets(contents)),
        _ => None,
    }
}

// A value of these contents octets under a tag of another class than Universal as text, if it has some. Its octets are
// the member `value`.
fn text_shown<'a>(
    alloc: Global,
    contents: &[u8],
    value: &'a LeafValue,
) -> Result<Option<Value<'a>>, AllocError> {
    let Some(text) = value.text(alloc, contents)? else {
        return Ok(None);
    };
    if text.as_str().is_empty() {
        return Ok(None);
    }
    Ok(Some(Value::of_text(text)))
}
