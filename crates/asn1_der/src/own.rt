// What one encoding breaks by itself.
ghost use Rattle.std.specs.Prelude.{◌≡◌, ◌↔◌, ◌++◌, ◌-◌, ℕ, true, IfOk, IsTrue, List, length, nat_lt};
ghost use Rattle.asn1_headers.specs.declared.header.ASN1Class.TheVariants.{Universal};
ghost use Rattle.asn1_headers.specs.Header.{shortest_identifier};
ghost use Rattle.asn1_der.specs.Der.{IsRightAlone};
ghost use Rattle.asn1_der.specs.Departures.{Found, LengthFound, OwnRules, TypeFound, listed, own_departures};
ghost use Rattle.asn1_der.specs.Rules.{bits_rule as bits_rule_is, contents_rule as contents_rule_is, form_rule as form_rule_is, identifier_rule, items_rule as items_rule_is, is_string as is_string_is, real_rule as real_rule_is, type_rule as type_rule_is};
ghost use Rattle.asn1_der.specs.Steps.{HasParts};

use crate::der::is_der;
use crate::header_rules::{are_of_type, is_constructed_type, is_reserved, is_right_primitive};
use crate::rule::{Departure, Rule};
use asn1_blocks::parsed::PlacedHeader;
use asn1_headers::header::ASN1Class;
use asn1_headers::tags::{
    BIT_STRING, BMP_STRING, BOOLEAN, CHARACTER_STRING, DATE, DURATION, EMBEDDED_PDV, ENUMERATED,
    EXTERNAL, GENERALIZED_TIME, INTEGER, NULL, NUMERIC_STRING, OBJECT_DESCRIPTOR,
    OBJECT_IDENTIFIER, OCTET_STRING, OID_IRI, REAL, RELATIVE_OID, RELATIVE_OID_IRI, TIME,
    UNIVERSAL_STRING, UTC_TIME, UTF8_STRING,
};
use asn1_numbers::number::big_uint::BigUint;
use std::alloc::{AllocError, Global};

// The least tag number that the short form of identifier octets does not have.
const LEAST_HIGH_TAG: u64 = 31;

// Lists what an encoding at the offset breaks by itself.
pub fn push_own(
    alloc: Global,
    offset: usize,
    header: &PlacedHeader,
    contents: &[u8],
    found: &mut Vec<Departure>,
) -> Result<(), AllocError>
    requires { length contents.now ≡ header.now.end - header.now.start }
    ensures { IfOk result (λ _. (identifier len : List ℕ) → HasParts header.now identifier len
        → (rules : OwnRules identifier len header.now.class header.now.constructed header.now.tag contents.now)
        × (found.new.items ≡ found.old.items ++ own_departures offset rules)) }
{
    let of_type = type_found(alloc, header, contents)?;
    push_rule(offset, identifier_found(header), found)?;
    push_rule(offset, length_found(header), found)?;
    push_rule(offset, of_type, found)?;
    Ok(())
}

fn push_rule(
    offset: usize,
    broken: Option<Rule>,
    found: &mut Vec<Departure>,
) -> Result<(), AllocError>
    ensures { IfOk result (λ _. found.new.items ≡ found.old.items ++ listed offset broken) }
{
    if let Some(rule) = broken {
        found.push(Departure { offset, rule })?;
    }
    Ok(())
}

pub fn identifier_found(header: &PlacedHeader) -> Option<Rule>
    ensures { (identifier len : List ℕ) → HasParts header.now identifier len →
        Found (identifier ≡ shortest_identifier header.now.class header.now.constructed header.now.tag)
        (identifier_rule header.now.tag) result }
{
    if header.has_shortest_identifier() {
        return None;
    }
    if is_low(&header.tag) {
        Some(Rule::LongIdentifier)
    } else {
        Some(Rule::PaddedTag)
    }
}

fn is_low(tag: &BigUint) -> bool
    ensures { result ≡ nat_lt tag.now 31 }
{
    match tag.to_u64() {
        Some(n) => n < LEAST_HIGH_TAG,
        None => false,
    }
}

pub fn length_found(header: &PlacedHeader) -> Option<Rule>
    ensures { (identifier len : List ℕ) → HasParts header.now identifier len →
        LengthFound len (header.now.end - header.now.start) result }
{
    if header.has_length_80 {
        return Some(Rule::IndefiniteLength);
    }
    if header.has_shortest_length() {
        None
    } else {
        Some(Rule::LongLength)
    }
}

pub fn type_found(
    alloc: Global,
    header: &PlacedHeader,
    contents: &[u8],
) -> Result<Option<Rule>, AllocError>
    ensures { IfOk result (TypeFound header.now.has_length_80 header.now.class header.now.constructed header.now.tag
        contents.now) }
{
    match (header.class, header.tag.to_u64()) {
        (ASN1Class::Universal, Some(tag)) => universal_found(
            alloc,
            header.has_length_80,
            header.constructed,
            tag,
            contents,
        ),
        (ASN1Class::Universal, None) => Ok(Some(Rule::ReservedTag)),
        _ => Ok(None),
    }
}

fn universal_found(
    alloc: Global,
    indefinite: bool,
    constructed: bool,
    tag: u64,
    contents: &[u8],
) -> Result<Option<Rule>, AllocError>
    ensures { IfOk result (TypeFound indefinite Universal constructed tag contents.now) }
{
    if indefinite {
        return Ok(form_rule(constructed, tag));
    }
    let right = is_right(alloc, constructed, tag, contents)?;
    if right {
        return Ok(None);
    }
    Ok(Some(type_rule(constructed, tag, contents)))
}

// Whether contents octets are right for the form and the tag, if the items are.
fn is_right(alloc: Global, constructed: bool, tag: u64, contents: &[u8]) -> Result<bool, AllocError>
    ensures { IfOk result (λ found. IsTrue found ↔ IsRightAlone Universal constructed tag contents.now) }
{
    if !constructed {
        return Ok(is_right_primitive(tag, contents));
    }
    is_right_constructed(alloc, tag, contents)
}

// Whether the type with the tag number is constructed, and the items are those that it has, if they are DER.
fn is_right_constructed(alloc: Global, tag: u64, contents: &[u8]) -> Result<bool, AllocError>
    ensures { IfOk result (λ found. IsTrue found ↔ IsRightAlone Universal true tag contents.now) }
{
    if !is_constructed_type(tag) {
        return Ok(false);
    }
    if are_of_type(tag, contents) {
        return Ok(true);
    }
    if contents.is_empty() {
        return Ok(false);
    }
    Ok(!is_der(alloc, contents)?)
}

fn type_rule(constructed: bool, tag: u64, contents: &[u8]) -> Rule
    ensures { result ≡ type_rule_is constructed tag contents.now }
{
    match form_rule(constructed, tag) {
        Some(rule) => rule,
        None if constructed => items_rule(tag),
        None => contents_rule(tag, contents),
    }
}

fn items_rule(tag: u64) -> Rule
    ensures { result ≡ items_rule_is tag }
{
    match tag {
        EXTERNAL => Rule::External,
        EMBEDDED_PDV | CHARACTER_STRING => Rule::Identification,
        _ => Rule::Order,
    }
}

fn form_rule(constructed: bool, tag: u64) -> Option<Rule>
    ensures { result ≡ form_rule_is constructed tag }
{
    if is_reserved(tag) {
        return Some(Rule::ReservedTag);
    }
    match (constructed, is_constructed_type(tag)) {
        (true, false) if is_string(tag) => Some(Rule::ConstructedString),
        (true, false) => Some(Rule::NotPrimitive),
        (false, true) => Some(Rule::NotConstructed),
        _ => None,
    }
}

fn is_string(tag: u64) -> bool
    ensures { result ≡ is_string_is tag }
{
    matches!(
        tag,
        BIT_STRING
            | OCTET_STRING
            | OBJECT_DESCRIPTOR
            | UTF8_STRING
            | NUMERIC_STRING..=UNIVERSAL_STRING | BMP_STRING
    )
}

fn contents_rule(tag: u64, contents: &[u8]) -> Rule
    ensures { result ≡ contents_rule_is tag contents.now }
{
    match tag {
        BOOLEAN if contents.len() == 1 => Rule::BooleanValue,
        BOOLEAN => Rule::BooleanSize,
        INTEGER | ENUMERATED if contents.is_empty() => Rule::NoInteger,
        INTEGER | ENUMERATED => Rule::PaddedInteger,
        BIT_STRING => bits_rule(contents),
        NULL => Rule::NullContents,
        OBJECT_IDENTIFIER | RELATIVE_OID => Rule::Subidentifiers,
        REAL => real_rule(contents),
        UTC_TIME => Rule::UtcTime,
        GENERALIZED_TIME => Rule::GeneralizedTime,
        TIME | DATE..=DURATION => Rule::Time,
        OID_IRI | RELATIVE_OID_IRI => Rule::Iri,
        _ => Rule::Characters,
    }
}

fn bits_rule(contents: &[u8]) -> Rule
    ensures { result ≡ bits_rule_is contents.now }
{
    match contents {
        [0..=7] => Rule::UnusedOfNone,
        [0..=7, ..] => Rule::UnusedBits,
        _ => Rule::UnusedCount,
    }
}

fn real_rule(contents: &[u8]) -> Rule
    ensures { result ≡ real_rule_is contents.now }
{
    match contents {
        [0x80..=0xFF, ..] => Rule::BinaryReal,
        [0..=0x3F, ..] => Rule::DecimalReal,
        _ => Rule::SpecialReal,
    }
}
