// Contents octets of values as they are, whether or not they would be read back.
ghost use Rattle.std.specs.Prelude.{◌≡◌, ◌⊎◌, None};
ghost use Rattle.std.specs.Str.{chars};
ghost use Rattle.asn1_leaves.specs.Contents.Moment.{IsValid, moment_of};
ghost use Rattle.asn1_leaves.specs.Contents.Text.{text_contents, text_write_fault};
ghost use Rattle.asn1_leaves.specs.Contents.UtcTime.{utc_time_contents};
ghost use Rattle.asn1_records.specs.Puts.{ArePutIf, IsNotPut, moment_in};
ghost use Rattle.asn1_records.specs.Raw.{AnswersRawBits, AnswersRawIdentifier, AnswersRawMoment, AnswersRawText, component_place, component_status};
ghost use Rattle.asn1_records.specs.Status.{no_memory, not_a_date, out_of_range};

use crate::moment::{date_time, put_generalized_time};
use crate::putting::{nothing_put, put_front};
use crate::record::{MomentAnswer, Outcome};
use crate::status::{DATE, NO_MEMORY, NO_SUCH_VALUE, NOT_OID, OUT_OF_RANGE, UTF8};
use arrayvec::ArrayVec;
use asn1_blocks::contents::form_of;
use asn1_headers::tags::{GENERALIZED_TIME, UTC_TIME};
use asn1_leaves::contents::text::TextForm;
use asn1_leaves::contents::{bit_string, generalized_time, text, utc_time};
use jiff::civil::DateTime;
use simple_asn1::{ASN1EncodeErr, OID};
use std::alloc::Global;

// Puts the contents octets of a BIT STRING of so many bits.
pub fn put_raw_bits(alloc: Global, octets: &[u8], bits: usize, room: &mut [u8]) -> Outcome
    ensures { AnswersRawBits octets.now bits room.old room.new result }
{
    let Ok(size) = bit_string::size(bits, octets) else {
        return nothing_put(OUT_OF_RANGE, 0);
    };
    let Ok(mut contents) = Vec::with_capacity(alloc, size) else {
        return nothing_put(NO_MEMORY, 0);
    };
    bit_string::push(bits, octets, &mut contents);
    put_front(&contents, room)
}

// What is answered of components that have no contents octets.
fn unwritten(e: &ASN1EncodeErr) -> Outcome
    ensures status { result.status ≡ component_status e.now }
    ensures place { result.offset ≡ component_place e.now }
    ensures count { result.count ≡ 0 }
{
    match e {
        ASN1EncodeErr::ObjectIdentHasTooFewFields => nothing_put(NOT_OID, 0),
        ASN1EncodeErr::ObjectIdentVal1TooLarge => nothing_put(OUT_OF_RANGE, 0),
        ASN1EncodeErr::ObjectIdentVal2TooLarge => nothing_put(OUT_OF_RANGE, 1),
        ASN1EncodeErr::BitStringLength => nothing_put(OUT_OF_RANGE, 0),
        ASN1EncodeErr::CharacterTooLarge => nothing_put(OUT_OF_RANGE, 0),
        ASN1EncodeErr::YearOutOfRange => nothing_put(OUT_OF_RANGE, 0),
        ASN1EncodeErr::OutOfMemory => nothing_put(NO_MEMORY, 0),
    }
}

// Puts those of the OBJECT IDENTIFIER with these components.
pub fn put_raw_identifier(alloc: Global, components: &[u64], room: &mut [u8]) -> Outcome
    ensures { AnswersRawIdentifier components.now room.old room.new result }
{
    let Ok(oid) = OID::from_u64s(alloc, components) else {
        return nothing_put(NO_MEMORY, 0);
    };
    match oid.as_raw(alloc) {
        Ok(contents) => put_front(&contents, room),
        Err(e) => unwritten(&e),
    }
}

// Puts those of a string with text in this form.
fn put_formed(alloc: Global, form: TextForm, text: &str, room: &mut [u8]) -> Outcome
    ensures { ArePutIf (text_write_fault form (chars text.now) ≡ None) (text_contents form (chars text.now))
        out_of_range room.old room.new result
        ⊎ IsNotPut no_memory room.old room.new result }
{
    let Ok(size) = text::size(form, text) else {
        return nothing_put(OUT_OF_RANGE, 0);
    };
    let Ok(mut contents) = Vec::with_capacity(alloc, size) else {
        return nothing_put(NO_MEMORY, 0);
    };
    text::push(form, text, &mut contents);
    put_front(&contents, room)
}

// Puts those of the string with the tag number that has this text.
pub fn put_raw_text(alloc: Global, tag: u64, text: &[u8], room: &mut [u8]) -> Outcome
    ensures { AnswersRawText tag text.now room.old room.new result }
{
    let Some(form) = form_of(tag) else {
        return nothing_put(NO_SUCH_VALUE, 0);
    };
    let Ok(text) = str::from_utf8(text) else {
        return nothing_put(UTF8, 0);
    };
    put_formed(alloc, form, text, room)
}

// Puts those of a UTCTime of any moment that can be written.
fn put_raw_utc_time(d: &DateTime, room: &mut [u8]) -> Outcome
    ensures { ArePutIf (IsValid (moment_of d.now)) (utc_time_contents (moment_of d.now)) not_a_date
        room.old room.new result }
{
    if !generalized_time::is_faithful(d) {
        return nothing_put(DATE, 0);
    }
    let mut contents: ArrayVec<u8, 13> = ArrayVec::new();
    utc_time::push(d, &mut contents);
    put_front(contents.as_slice(), room)
}

// Puts those of the time with the tag number that is the moment of the fields.
pub fn put_raw_moment(tag: u64, fields: &MomentAnswer, room: &mut [u8]) -> Outcome
    ensures { AnswersRawMoment tag (moment_in fields.now) room.old room.new result }
{
    if tag != UTC_TIME && tag != GENERALIZED_TIME {
        return nothing_put(NO_SUCH_VALUE, 0);
    }
    let Some(d) = date_time(fields) else {
        return nothing_put(DATE, 0);
    };
    if tag == UTC_TIME {
        put_raw_utc_time(&d, room)
    } else {
        put_generalized_time(&d, room)
    }
}
