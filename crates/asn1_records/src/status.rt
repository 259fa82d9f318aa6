// The numbers of faults.
ghost use Rattle.std.specs.Prelude.{◌≡◌};
ghost use Rattle.simple_asn1.specs.Fault.{fault_of};
ghost use Rattle.asn1_records.specs.Status.{status_of};

use simple_asn1::ASN1DecodeErr;

pub const DONE: u32 = 0;

pub const UTF8: u32 = 4;

pub const PRINTABLE: u32 = 5;

pub const DATE: u32 = 6;

pub const INCOMPLETE: u32 = 8;

pub const NOT_CANONICAL: u32 = 9;

pub const NO_MEMORY: u32 = 10;

pub const NO_ROOM: u32 = 11;

pub const NO_SUCH_VALUE: u32 = 12;

pub const OUT_OF_RANGE: u32 = 13;

pub const NOT_SIGNED: u32 = 14;

pub const BAD_RECORD: u32 = 15;

pub const NOT_OID: u32 = 16;

pub const TOO_LONG: u32 = 17;

pub const NOT_CERTIFICATE: u32 = 18;

pub const NOT_REQUEST: u32 = 19;

pub const NOT_REVOCATION_LIST: u32 = 20;

pub fn status_of_fault(e: &ASN1DecodeErr) -> u32
    ensures { result ≡ status_of (fault_of e.now) }
{
    match e {
        ASN1DecodeErr::EmptyBuffer => 1,
        ASN1DecodeErr::BadBooleanLength(_) => 2,
        ASN1DecodeErr::LengthTooLarge(_) => 3,
        ASN1DecodeErr::UTF8DecodeFailure(_) => UTF8,
        ASN1DecodeErr::PrintableStringDecodeFailure => PRINTABLE,
        ASN1DecodeErr::InvalidDateValue(_) => DATE,
        ASN1DecodeErr::InvalidBitStringLength(_) => 7,
        ASN1DecodeErr::Incomplete => INCOMPLETE,
        ASN1DecodeErr::NotCanonical(_) => NOT_CANONICAL,
        ASN1DecodeErr::OutOfMemory => NO_MEMORY,
        ASN1DecodeErr::InvalidClass(_) => NO_SUCH_VALUE,
        ASN1DecodeErr::Overflow => NO_SUCH_VALUE,
    }
}
