// Contents octets of primitive encodings: their value, or what is wrong with them.
ghost use Rattle.std.specs.Prelude.{◌≡◌, None, Some, IfErr, IfOk, IfSome, true};
ghost use Rattle.asn1_headers.specs.Fault.{OutOfMemoryOr};
ghost use Rattle.asn1_headers.specs.declared.header.ASN1Class.TheVariants.{Universal};
ghost use Rattle.asn1_headers.specs.declared.tags.TheConstants.{GENERALIZED_TIME, OBJECT_IDENTIFIER, UTC_TIME};
ghost use Rattle.asn1_blocks.specs.Contents.{LeafFault, string_tag};
ghost use Rattle.asn1_leaves.specs.Contents.Text.{text_form};
ghost use Rattle.asn1_leaves.specs.StringKind.{StringKind};
ghost use Rattle.dump_values.specs.Values.{HasValue, IsMeaning, IsValue, has_wide_characters as has_wide_characters_is, is_wide};

use crate::faults::{Fault, if_right, leaf_fault};
use crate::identifier::identifier_of;
use crate::moment::{fraction_digits, time_at};
use crate::scalars::printed_text;
use crate::time::ber_time;
use crate::universal::unknown_value;
use crate::value::{LEAST_TEXT, LeafValue, bits_of};
use crate::{Address, Characters};
use asn1_headers::error::ASN1DecodeErr;
use asn1_headers::header::ASN1Class;
use asn1_headers::tags::{
    BIT_STRING, BMP_STRING, BOOLEAN, GENERALIZED_TIME, IA5_STRING, INTEGER, NULL,
    OBJECT_IDENTIFIER, OCTET_STRING, PRINTABLE_STRING, TELETEX_STRING, UNIVERSAL_STRING, UTC_TIME,
    UTF8_STRING,
};
use asn1_headers::whole_header::Header;
use asn1_leaves::contents::text::TextForm;
use asn1_leaves::contents::{boolean, generalized_time, integer, text, utc_time};
use std::alloc::{AllocError, Global};
use std::str;

// The value of contents octets, or what is wrong with them.
#[derive(Drop)]
pub struct Read {
    pub value: Option<LeafValue>,
    pub fault: Option<Fault>,
}

// Of which type contents octets are.
#[derive(Clone, Copy, Debug, Drop, PartialEq)]
pub enum ContentsType {
    // of the type that their tag says
    OfTag,
    // under a tag of another class, of the type with this tag of class Universal
    Known(u8),
    // under a tag of another class, octets that are an address
    Address,
}

// The value of the contents octets of a primitive encoding with the header, which stands at the offset, or what is
// wrong with them. Under a tag of another class than Universal, octets that are no value of their type are octets.
pub fn read_contents(
    alloc: Global,
    header: &Header,
    contents: &[u8],
    offset: usize,
    of: ContentsType,
) -> Result<Read, AllocError>
    ensures { IfOk result (λ read.
        IsMeaning header.now.class header.now.tag contents.now offset read.value read.fault) }
{
    let error = match value_of(alloc, header, contents, of) {
        Ok(value) => {
            return Ok(Read {
                value: Some(value),
                fault: None,
            });
        }
        Err(error) => error,
    };
    let fault = leaf_fault(alloc, offset, header.tag.to_u64(), contents, &error)?;
    Ok(Read {
        value: None,
        fault: Some(fault),
    })
}

// The value of the contents octets of a primitive encoding with the header.
fn value_of(
    alloc: Global,
    header: &Header,
    contents: &[u8],
    of: ContentsType,
) -> Result<LeafValue, ASN1DecodeErr>
    ensures found { IfOk result (HasValue header.now.class header.now.tag contents.now) }
    ensures refused { IfErr result (OutOfMemoryOr (λ e.
        (header.now.class ≡ Universal) × LeafFault header.now.tag contents.now e)) }
{
    match header.class {
        ASN1Class::Universal => match header.tag.to_u64() {
            Some(tag) => universal_value(alloc, tag, contents),
            None => Ok(LeafValue::Other(printed_text(alloc, contents, LEAST_TEXT)?)),
        },
        _ => Ok(tagged_value(alloc, contents, of)?),
    }
}

// The value of contents octets of another class than Universal: if it is known of which type they are, and they have
// one, that of this type.
fn tagged_value(alloc: Global, contents: &[u8], of: ContentsType) -> Result<LeafValue, AllocError> {
    let known = match of {
        ContentsType::OfTag => None,
        // An IA5String has characters of ASCII.
        ContentsType::Known(tag) if u64::from(tag) == IA5_STRING && !contents.is_ascii() => None,
        ContentsType::Known(tag) => value_of_type(alloc, tag, contents)?,
        ContentsType::Address => Address::of(contents).map(LeafValue::Address),
    };
    match known {
        Some(value) => Ok(value),
        None => Ok(LeafValue::Tagged(printed_text(alloc, contents, LEAST_TEXT)?)),
    }
}

// The value of contents octets of the type with this tag of class Universal, if they have one.
pub fn value_of_type(
    alloc: Global,
    tag: u8,
    contents: &[u8],
) -> Result<Option<LeafValue>, AllocError> {
    if_right(universal_value(alloc, u64::from(tag), contents))
}

// The value of contents octets of class Universal.
fn universal_value(alloc: Global, tag: u64, contents: &[u8]) -> Result<LeafValue, ASN1DecodeErr>
    ensures found { IfOk result (IsValue Universal tag contents.now) }
    ensures refused { IfErr result (OutOfMemoryOr (LeafFault tag contents.now)) }
{
    match tag {
        BOOLEAN => Ok(LeafValue::Boolean(boolean::read(contents)?)),
        INTEGER => Ok(LeafValue::Integer(integer::read(alloc, contents)?)),
        BIT_STRING => Ok(LeafValue::Bits(bits_of(alloc, contents)?)),
        OCTET_STRING => Ok(LeafValue::Octets(printed_text(alloc, contents, LEAST_TEXT)?)),
        NULL => Ok(LeafValue::Null),
        OBJECT_IDENTIFIER => Ok(LeafValue::Identifier(identifier_of(alloc, contents)?)),
        UTF8_STRING => string_value(alloc, tag, TextForm::Utf8, contents),
        PRINTABLE_STRING => string_value(alloc, tag, TextForm::Printable, contents),
        TELETEX_STRING => string_value(alloc, tag, TextForm::Utf8, contents),
        IA5_STRING => string_value(alloc, tag, TextForm::Octets, contents),
        UTC_TIME => utc_value(alloc, contents),
        GENERALIZED_TIME => generalized_value(alloc, contents),
        UNIVERSAL_STRING => string_value(alloc, tag, TextForm::Utf8, contents),
        BMP_STRING => string_value(alloc, tag, TextForm::Utf8, contents),
        _ => Ok(unknown_value(alloc, tag, contents)?),
    }
}

// The characters of a string: those that X.690 has where the library takes octets for UTF-8, if these are so. Other
// octets of a UniversalString or a BMPString are no characters of it, unless there are none.
fn string_value(
    alloc: Global,
    tag: u64,
    form: TextForm,
    contents: &[u8],
) -> Result<LeafValue, ASN1DecodeErr>
    requires { (kind : StringKind) × (tag ≡ string_tag kind) × (form ≡ text_form kind) }
    ensures found { IfOk result (IsValue Universal tag contents.now) }
    ensures refused { IfErr result (OutOfMemoryOr (LeafFault tag contents.now)) }
{
    if let Some(wide) = wide_form(tag, contents) {
        if let Some(characters) = wide.text(alloc, contents)? {
            return Ok(LeafValue::WideText(wide, characters));
        }
    }
    let text = text::read(alloc, form, contents)?;
    if has_wide_characters(tag, contents) {
        return Ok(LeafValue::NoText(printed_text(alloc, contents, 1)?));
    }
    Ok(LeafValue::Text(text))
}

// The value of a UTCTime, also in a form of BER that is none of DER.
fn utc_value(alloc: Global, contents: &[u8]) -> Result<LeafValue, ASN1DecodeErr>
    ensures found { IfOk result (IsValue Universal UTC_TIME contents.now) }
    ensures refused { IfErr result (OutOfMemoryOr (LeafFault UTC_TIME contents.now)) }
{
    match utc_time::read(alloc, contents) {
        Ok(moment) => Ok(LeafValue::Moment(time_at(alloc, moment, "")?)),
        Err(error) => match ber_time(alloc, false, contents)? {
            Some(time) => Ok(LeafValue::BerTime(time)),
            None => Err(error),
        },
    }
}

// The value of a GeneralizedTime, also in a form of BER that is none of DER. It has each digit of its fraction, where a
// moment has nine at most.
fn generalized_value(alloc: Global, contents: &[u8]) -> Result<LeafValue, ASN1DecodeErr>
    ensures found { IfOk result (IsValue Universal GENERALIZED_TIME contents.now) }
    ensures refused { IfErr result (OutOfMemoryOr (LeafFault GENERALIZED_TIME contents.now)) }
{
    match generalized_time::read(alloc, contents) {
        Ok(moment) => {
            let digits = fraction_digits(contents);
            Ok(LeafValue::Moment(time_at(alloc, moment, digits)?))
        }
        Err(error) => match ber_time(alloc, true, contents)? {
            Some(time) => Ok(LeafValue::BerTime(time)),
            None => Err(error),
        },
    }
}

// The form of the characters that X.690 has where the library takes octets for UTF-8. Those of a TeletexString are
// Latin-1 where they are no UTF-8.
fn wide_form(tag: u64, contents: &[u8]) -> Option<Characters>
    ensures { IfSome result (λ _. is_wide Universal tag ≡ true) }
{
    match tag {
        _ if contents.is_empty() => None,
        TELETEX_STRING if str::from_utf8(contents).is_err() => Some(Characters::Latin1),
        UNIVERSAL_STRING => Some(Characters::Utf32),
        BMP_STRING => Some(Characters::Utf16),
        _ => None,
    }
}

// Whether X.690 has characters of four or of two octets there, which the library takes for UTF-8: of class Universal.
fn has_wide_characters(tag: u64, contents: &[u8]) -> bool
    ensures { result ≡ has_wide_characters_is Universal tag contents.now }
{
    !contents.is_empty() && (tag == UNIVERSAL_STRING || tag == BMP_STRING)
}
