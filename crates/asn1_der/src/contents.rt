// Contents octets of primitive encodings of class Universal.
ghost use Rattle.std.specs.Prelude.{◌≡◌, ◌↔◌, IsTrue};
ghost use Rattle.std.specs.Char.{is_ascii};
ghost use Rattle.std.specs.List.{list_all};
ghost use Rattle.std.specs.Str.{is_utf8 as is_utf8_is};
ghost use Rattle.asn1_der.specs.Contents.{HasDerContents, are_bmp as are_bmp_is, are_subidentifiers as are_subidentifiers_is, are_universal as are_universal_is, has_der_octets as has_der_octets_is, is_bit_string as is_bit_string_is, is_boolean as is_boolean_is, is_graphic as is_graphic_is, is_numeric, is_visible, is_scalar_value as is_scalar_value_is};

use crate::iri::{are_labels, is_iri};
use crate::padding::{has_padded_component, is_padded_number, last_octet};
use crate::real::is_real;
use crate::times::{
    is_date, is_date_time, is_duration, is_generalized_time, is_time, is_time_of_day, is_utc_time,
};
use asn1_headers::tags::{
    BIT_STRING, BMP_STRING, BOOLEAN, DATE, DATE_TIME, DURATION, ENUMERATED, GENERALIZED_TIME,
    GRAPHIC_STRING, IA5_STRING, INTEGER, NULL, NUMERIC_STRING, OBJECT_DESCRIPTOR,
    OBJECT_IDENTIFIER, OID_IRI, PRINTABLE_STRING, REAL, RELATIVE_OID, RELATIVE_OID_IRI, TIME,
    TIME_OF_DAY, UNIVERSAL_STRING, UTC_TIME, UTF8_STRING, VISIBLE_STRING,
};
use asn1_leaves::contents::text::are_printable;

// The control functions by which ISO 2022 changes the sets of characters.
const SHIFT_OUT: u8 = 0x0E;

const SHIFT_IN: u8 = 0x0F;

const ESCAPE: u8 = 0x1B;

const SINGLE_SHIFT_2: u8 = 0x8E;

const SINGLE_SHIFT_3: u8 = 0x8F;

// Whether contents octets are those that DER has with the tag number.
pub fn has_der_contents(tag: u64, contents: &[u8]) -> bool
    ensures { IsTrue result ↔ HasDerContents tag contents.now }
{
    match tag {
        UTC_TIME => is_utc_time(contents),
        GENERALIZED_TIME => is_generalized_time(contents),
        DATE => is_date(contents),
        DATE_TIME => is_date_time(contents),
        _ => has_der_octets(tag, contents),
    }
}

fn has_der_octets(tag: u64, contents: &[u8]) -> bool
    ensures { result ≡ has_der_octets_is tag contents.now }
{
    match tag {
        BOOLEAN => is_boolean(contents),
        INTEGER | ENUMERATED => !is_padded_number(contents),
        BIT_STRING => is_bit_string(contents),
        NULL => contents.is_empty(),
        OBJECT_IDENTIFIER | RELATIVE_OID => are_subidentifiers(contents),
        REAL => is_real(contents),
        UTF8_STRING => is_utf8(contents),
        OBJECT_DESCRIPTOR | GRAPHIC_STRING => are_graphic(contents),
        TIME => is_time(contents),
        NUMERIC_STRING => are_numeric(contents),
        PRINTABLE_STRING => are_printable(contents),
        IA5_STRING => are_ascii(contents),
        VISIBLE_STRING => are_visible(contents),
        UNIVERSAL_STRING => are_universal(contents),
        BMP_STRING => are_bmp(contents),
        TIME_OF_DAY => is_time_of_day(contents),
        DURATION => is_duration(contents),
        OID_IRI => is_iri(contents),
        RELATIVE_OID_IRI => are_labels(contents),
        _ => true,
    }
}

fn are_numeric(contents: &[u8]) -> bool
    ensures { result ≡ list_all is_numeric contents.now }
{
    contents.iter().all(|c| c.is_ascii_digit() || *c == b' ')
}

fn are_ascii(contents: &[u8]) -> bool
    ensures { result ≡ list_all is_ascii contents.now }
{
    contents.iter().all(|c| c.is_ascii())
}

fn are_visible(contents: &[u8]) -> bool
    ensures { result ≡ list_all is_visible contents.now }
{
    contents.iter().all(|c| *c > 31 && *c < 127)
}

fn is_boolean(contents: &[u8]) -> bool
    ensures { result ≡ is_boolean_is contents.now }
{
    match contents {
        [octet] => *octet == 0 || *octet == 0xFF,
        _ => false,
    }
}

pub fn is_bit_string(contents: &[u8]) -> bool
    ensures { result ≡ is_bit_string_is contents.now }
{
    match contents {
        [] => false,
        [unused] => *unused == 0,
        [unused, octets @ ..] => *unused < 8 && last_octet(octets) % (1 << *unused) == 0,
    }
}

pub fn are_subidentifiers(contents: &[u8]) -> bool
    ensures { result ≡ are_subidentifiers_is contents.now }
{
    !contents.is_empty() && last_octet(contents) < 128 && !has_padded_component(contents)
}

#[inline(never)]
fn is_utf8(contents: &[u8]) -> bool
    ensures { result ≡ is_utf8_is contents.now }
{
    match str::from_utf8(contents) {
        Ok(_) => true,
        Err(_) => false,
    }
}

#[tactic(auto, unfolding(crate::specs::Contents::is_graphic))]
fn is_graphic(c: u8) -> bool
    ensures { result ≡ is_graphic_is c }
{
    matches!(
        c,
        0x20..=0x7F | 0xA0..=0xFF | SHIFT_OUT | SHIFT_IN | ESCAPE | SINGLE_SHIFT_2 | SINGLE_SHIFT_3
    )
}

#[inline(never)]
fn are_graphic(contents: &[u8]) -> bool
    ensures { result ≡ list_all is_graphic_is contents.now }
{
    contents.iter().all(|c| is_graphic(*c))
}

fn is_scalar_value(n: u32) -> bool
    ensures { result ≡ is_scalar_value_is n }
{
    n < 0xD800 || n > 0xDFFF && n < 0x11_0000
}

#[inline(never)]
fn are_universal(contents: &[u8]) -> bool
    ensures { result ≡ are_universal_is contents.now }
{
    let mut rest = contents;
    while let [a, b, c, d, more @ ..] = rest {
        let high = *a as u32 * 256 + *b as u32;
        if !is_scalar_value((high * 256 + *c as u32) * 256 + *d as u32) {
            return false;
        }
        rest = more;
    }
    rest.is_empty()
}

#[inline(never)]
fn are_bmp(contents: &[u8]) -> bool
    ensures { result ≡ are_bmp_is contents.now }
{
    let mut rest = contents;
    while let [a, b, more @ ..] = rest {
        if !is_scalar_value(*a as u32 * 256 + *b as u32) {
            return false;
        }
        rest = more;
    }
    rest.is_empty()
}
