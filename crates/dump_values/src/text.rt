// The text of values: the same wherever one is shown as text.

use crate::value::{Identifier, LeafValue};
use asn1_numbers::number::big_int::BigInt;
use std::alloc::{AllocError, Global};

// The most octets of a number, or of an object identifier, that are written in decimal: the time for it grows as the
// square of how many they are.
pub const MOST_DECIMAL: usize = 1024;

// A text: one that a value has, or one that was made of it.
#[derive(Drop)]
pub enum ValueText<'a> {
    Own(&'a str),
    Made(String),
}

impl ValueText<'_> {
    // The text.
    pub fn as_str(&self) -> &str {
        match self {
            ValueText::Own(text) => text,
            ValueText::Made(text) => text,
        }
    }

    // The text, copied where it is that of the value.
    pub fn into_string(self, alloc: Global) -> Result<String, AllocError> {
        match self {
            ValueText::Own(text) => String::from_str(alloc, text),
            ValueText::Made(text) => Ok(text),
        }
    }
}

impl LeafValue {
    // The text that it is by its type: characters, a time, or a value in a notation of its own.
    pub fn own_text(&self) -> Option<&str> {
        match self {
            LeafValue::Text(text)
            | LeafValue::WideText(_, text)
            | LeafValue::OtherText(text)
            | LeafValue::Notation(text) => Some(text),
            LeafValue::Moment(time) | LeafValue::BerTime(time) => Some(&time.text),
            _ => None,
        }
    }

    // It as text, of these contents octets. Bits, a NULL, octets that are no text, and a number or an object identifier
    // of too many octets have none.
    pub fn text(
        &self,
        alloc: Global,
        contents: &[u8],
    ) -> Result<Option<ValueText<'_>>, AllocError> {
        match self {
            LeafValue::Boolean(true) => Ok(Some(ValueText::Own("true"))),
            LeafValue::Boolean(false) => Ok(Some(ValueText::Own("false"))),
            LeafValue::Integer(number) => match decimal_of(alloc, number)? {
                Some(text) => Ok(Some(ValueText::Made(text))),
                None => Ok(None),
            },
            LeafValue::Identifier(identifier) => identifier.text(alloc, contents),
            LeafValue::Octets(text)
            | LeafValue::Other(text)
            | LeafValue::Tagged(text)
            | LeafValue::NoText(text) => Ok(text.as_deref().map(ValueText::Own)),
            LeafValue::Address(address) => Ok(Some(ValueText::Made(address.text(alloc)?))),
            _ => Ok(self.own_text().map(ValueText::Own)),
        }
    }
}

impl Identifier {
    // Its components in decimal, of these contents octets, if they are not too many.
    pub fn text(
        &self,
        alloc: Global,
        contents: &[u8],
    ) -> Result<Option<ValueText<'_>>, AllocError> {
        if contents.len() > MOST_DECIMAL {
            return Ok(None);
        }
        match &self.dotted {
            Some(dotted) => Ok(Some(ValueText::Own(dotted))),
            None => Ok(Some(ValueText::Made(format!(in alloc; "{}", self.components)?))),
        }
    }
}

// A number in decimal, if it has not too many octets.
pub fn decimal_of(alloc: Global, number: &BigInt) -> Result<Option<String>, AllocError> {
    if number.octets().len() > MOST_DECIMAL {
        return Ok(None);
    }
    Ok(Some(format!(in alloc; "{number}")?))
}
