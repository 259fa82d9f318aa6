// What the class and the tag of a header say, and the names of tags.
ghost use Rattle.std.specs.Prelude.{◌≡◌, ◌↔◌, ◌==◌, ◌≤◌, IfNone, IfOk, IfSome, IsTrue, false, option_map, string_bytes};
ghost use Rattle.asn1_headers.specs.Names.{type_name as type_name_is};
ghost use Rattle.asn1_headers.specs.declared.header.ASN1Class.TheVariants.{Universal};
ghost use Rattle.dump_values.specs.Tags.{is_gone_into, tag_name as tag_name_is, tag_number as tag_number_is};

use asn1_headers::header::ASN1Class;
use asn1_headers::tags;
use asn1_headers::types::type_name;
use asn1_headers::whole_header::Header;
use asn1_numbers::number::big_uint::BigUint;
use std::alloc::{AllocError, Global};

const SEQUENCE: u8 = tags::SEQUENCE as u8;

const SET: u8 = tags::SET as u8;

// Whether the contents octets are encodings: those of a constructed encoding, and of a SEQUENCE or SET.
pub fn holds_encodings(header: &Header) -> bool
    ensures { result ≡ is_gone_into header.now.class header.now.constructed header.now.tag }
{
    header.constructed || matches!(universal_tag(header), Some(SEQUENCE | SET))
}

// Whether its class is Universal.
pub fn is_universal(header: &Header) -> bool
    ensures { IsTrue result ↔ (header.now.class ≡ Universal) }
{
    matches!(header.class, ASN1Class::Universal)
}

// The tag number, of class Universal, if it is a small one.
pub fn universal_tag(header: &Header) -> Option<u8>
    ensures small { IfSome result (λ tag. (header.now.class ≡ Universal) × (header.now.tag ≡ tag)) }
    ensures other { IfNone result (header.now.class ≡ Universal → 256 ≤ header.now.tag) }
{
    match header.class {
        ASN1Class::Universal => header.tag.to_u8(),
        _ => None,
    }
}

// Whether the tag number is this one.
pub fn has_tag(tag: &BigUint, number: u64) -> bool
    ensures { result ≡ (tag.now == number) }
{
    match tag.to_u64() {
        Some(n) => n == number,
        None => false,
    }
}

// The name of the type with the tag, or the tag in brackets.
pub fn tag_name(alloc: Global, class: ASN1Class, tag: &BigUint) -> Result<String, AllocError>
    ensures { IfOk result (λ text. string_bytes text ≡ tag_name_is class tag.now) }
{
    if let Some(name) = name_of(class, tag) {
        return String::from_str(alloc, name);
    }
    let number = tag_number(alloc, tag)?;
    match class {
        ASN1Class::Universal => format!(in alloc; "[UNIVERSAL {number}]"),
        ASN1Class::Application => format!(in alloc; "[APPLICATION {number}]"),
        ASN1Class::ContextSpecific => format!(in alloc; "[{number}]"),
        ASN1Class::Private => format!(in alloc; "[PRIVATE {number}]"),
    }
}

fn tag_number(alloc: Global, tag: &BigUint) -> Result<String, AllocError>
    ensures { IfOk result (λ text. string_bytes text ≡ tag_number_is tag.now) }
{
    match tag.to_u128() {
        Some(n) => format!(in alloc; "{n}"),
        None => String::from_str(alloc, "beyond 2^128"),
    }
}

// The name of a type that has one.
pub fn name_of(class: ASN1Class, tag: &BigUint) -> Option<&'static str>
    ensures { option_map (λ name. name.now) result ≡ type_name_is class tag.now }
{
    match tag.to_u64() {
        Some(n) => type_name(class, n),
        None => None,
    }
}
