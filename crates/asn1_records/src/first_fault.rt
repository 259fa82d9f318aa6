// The first fault of octets that are no document, with what it says.
ghost use Rattle.std.specs.Prelude.{◌≡◌, []};
ghost use Rattle.asn1_headers.specs.declared.error.ASN1DecodeErr.TheVariants.{OutOfMemory};
ghost use Rattle.simple_asn1.specs.Fault.{fault_of};
ghost use Rattle.asn1_records.specs.Contents.{AnswersFault, fault_number, fault_text};
ghost use Rattle.asn1_records.specs.Room.{ArePut};
ghost use Rattle.asn1_records.specs.Status.{status_of};

use crate::putting::put_front;
use crate::record::Outcome;
use crate::status::{DONE, NO_MEMORY, status_of_fault};
use simple_asn1::{ASN1DecodeErr, LocatedErr, check_document};
use std::alloc::Global;
use std::mem::size_of;

/// A fault with the number that it says, and what was put of its text.
#[repr(C)]
#[derive(Clone, Copy)]
pub struct FaultAnswer {
    pub status: u32,
    pub offset: usize,
    pub number: u64,
    pub text: Outcome,
}

// The size that the C header has for the record.
const _: () = prove!(size_of::<FaultAnswer>() == 48);

// The number that an error says.
fn number_of(e: &ASN1DecodeErr) -> u64
    ensures { result ≡ fault_number (fault_of e.now) }
{
    match e {
        ASN1DecodeErr::BadBooleanLength(n) => *n as u64,
        ASN1DecodeErr::LengthTooLarge(n) => *n as u64,
        ASN1DecodeErr::InvalidBitStringLength(n) => n.unsigned_abs() as u64,
        ASN1DecodeErr::EmptyBuffer => 0,
        ASN1DecodeErr::UTF8DecodeFailure(_) => 0,
        ASN1DecodeErr::PrintableStringDecodeFailure => 0,
        ASN1DecodeErr::InvalidDateValue(_) => 0,
        ASN1DecodeErr::InvalidClass(_) => 0,
        ASN1DecodeErr::Incomplete => 0,
        ASN1DecodeErr::Overflow => 0,
        ASN1DecodeErr::OutOfMemory => 0,
        ASN1DecodeErr::NotCanonical(_) => 0,
    }
}

// The text that it says.
fn text_of(e: &ASN1DecodeErr) -> &str
    ensures { result.now ≡ fault_text (fault_of e.now) }
{
    match e {
        ASN1DecodeErr::InvalidDateValue(text) => text.as_str(),
        ASN1DecodeErr::EmptyBuffer => "",
        ASN1DecodeErr::BadBooleanLength(_) => "",
        ASN1DecodeErr::LengthTooLarge(_) => "",
        ASN1DecodeErr::InvalidBitStringLength(_) => "",
        ASN1DecodeErr::UTF8DecodeFailure(_) => "",
        ASN1DecodeErr::PrintableStringDecodeFailure => "",
        ASN1DecodeErr::InvalidClass(_) => "",
        ASN1DecodeErr::Incomplete => "",
        ASN1DecodeErr::Overflow => "",
        ASN1DecodeErr::OutOfMemory => "",
        ASN1DecodeErr::NotCanonical(_) => "",
    }
}

// What is answered without a fault.
fn no_fault(status: u32, room: &mut [u8]) -> FaultAnswer
    ensures { (result.status ≡ status) × (result.offset ≡ 0) × (result.number ≡ 0)
        × ArePut [] room.old room.new result.text }
{
    FaultAnswer {
        status,
        offset: 0,
        number: 0,
        text: put_front(&[], room),
    }
}

// What an error says, with its place.
fn fault_answer(located: &LocatedErr, room: &mut [u8]) -> FaultAnswer
    ensures status { result.status ≡ status_of (fault_of located.now.error) }
    ensures offset { result.offset ≡ located.now.offset }
    ensures number { result.number ≡ fault_number (fault_of located.now.error) }
    ensures text { ArePut (fault_text (fault_of located.now.error)) room.old room.new result.text }
{
    FaultAnswer {
        status: status_of_fault(&located.error),
        offset: located.offset,
        number: number_of(&located.error),
        text: put_front(text_of(&located.error).as_bytes(), room),
    }
}

pub fn fault_in(alloc: Global, octets: &[u8], room: &mut [u8]) -> FaultAnswer
    ensures { AnswersFault octets.now room.old room.new result }
{
    let located = match check_document(alloc, octets) {
        Ok(()) => return no_fault(DONE, room),
        Err(located) => located,
    };
    match located.error {
        ASN1DecodeErr::OutOfMemory => no_fault(NO_MEMORY, room),
        _ => fault_answer(&located, room),
    }
}
