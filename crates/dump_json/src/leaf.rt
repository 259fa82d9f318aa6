// The values of contents octets.
use crate::value::Value;
use asn1_numbers::number::big_int::BigInt;
use asn1_numbers::number::big_uint::BigUint;
use dump_values::text::{MOST_DECIMAL, decimal_of};
use dump_values::value::{Identifier, LeafValue};
use std::alloc::{AllocError, Global};

// The greatest number that every reader of JSON takes as it is (RFC 7493, section 2.2): 2^53 - 1.
const GREATEST_NUMBER: u64 = 9_007_199_254_740_991;

// A tag number; null if it has too many octets to be written in decimal.
pub fn tag_value(alloc: Global, number: &BigUint) -> Result<Value<'static>, AllocError> {
    match number.to_u64() {
        Some(n) if n <= GREATEST_NUMBER => Ok(Value::Natural(n)),
        _ if number.base128_size() > MOST_DECIMAL => Ok(Value::Null),
        _ => Ok(Value::Made(format!(in alloc; "{number}")?)),
    }
}

// A whole number; null if it has too many octets to be written in decimal.
fn integer_value<'a>(alloc: Global, number: &BigInt) -> Result<Value<'a>, AllocError> {
    match number.to_i64() {
        Some(n) if n.unsigned_abs() <= GREATEST_NUMBER => Ok(Value::Integer(n)),
        _ => match decimal_of(alloc, number)? {
            Some(text) => Ok(Value::Made(text)),
            None => Ok(Value::Null),
        },
    }
}

// Of these contents octets; null if they are too many to be written in decimal.
fn identifier_value<'a>(
    alloc: Global,
    contents: &[u8],
    identifier: &'a Identifier,
) -> Result<Value<'a>, AllocError> {
    match identifier.text(alloc, contents)? {
        Some(text) => Ok(Value::of_text(text)),
        None => Ok(Value::Null),
    }
}

// The value of these contents octets of class Universal; null where they are no text of their type.
pub fn value_in<'a>(
    alloc: Global,
    contents: &'a [u8],
    value: &'a LeafValue,
) -> Result<Value<'a>, AllocError> {
    if let Some(text) = value.own_text() {
        return Ok(Value::Text(text));
    }
    match value {
        LeafValue::Boolean(is_true) => Ok(Value::Boolean(*is_true)),
        LeafValue::Integer(number) => integer_value(alloc, number),
        LeafValue::Bits(bits) => Ok(Value::Bits(bits.count, &bits.octets)),
        LeafValue::Identifier(identifier) => identifier_value(alloc, contents, identifier),
        LeafValue::Octets(_) | LeafValue::Other(_) | LeafValue::Tagged(_) | LeafValue::Address(_) =>
            { Ok(Value::Octets(contents)) }
        _ => Ok(Value::Null),
    }
}
