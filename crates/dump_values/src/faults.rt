// What is wrong with octets, and how a dump says it.
ghost use Rattle.std.specs.Prelude.{◌≢◌, IfOk};
ghost use Rattle.asn1_headers.specs.Fault.{fault_of};
ghost use Rattle.asn1_headers.specs.declared.error.ASN1DecodeErr.TheVariants.{OutOfMemory};
ghost use Rattle.dump_values.specs.Faults.{IsNamed};

use crate::scalars::{printed_str, write_hex, write_text};
use asn1_headers::error::ASN1DecodeErr;
use asn1_headers::tags::{BIT_STRING, BOOLEAN, OBJECT_IDENTIFIER, PRINTABLE_STRING, UTC_TIME};
use std::alloc::{AllocError, Global};
use std::str;

// What is wrong, and at which offset: the name of an error, as ASN1DecodeErr::name has it, if it has one, and a
// message.
#[derive(Drop)]
pub struct Fault {
    pub offset: usize,
    pub code: Option<&'static str>,
    pub message: String,
    // the contents octets at fault as text, where they are those of a string or a time that they do not make
    pub text: Option<String>,
}

// What was read, if it is right. That memory ran out says nothing about octets.
pub fn if_right<T: Drop>(read: Result<T, ASN1DecodeErr>) -> Result<Option<T>, AllocError> {
    match read {
        Ok(value) => Ok(Some(value)),
        Err(ASN1DecodeErr::OutOfMemory) => Err(AllocError),
        Err(_) => Ok(None),
    }
}

// The fault at the offset.
pub fn fault_at(alloc: Global, offset: usize, error: &ASN1DecodeErr) -> Result<Fault, AllocError>
    ensures found { IfOk result (IsNamed offset (fault_of error.now)) }
    ensures other { IfOk result (λ _. error.now ≢ OutOfMemory) }
{
    leaf_fault(alloc, offset, None, &[], error)
}

// The fault of contents octets of a type of class Universal, whose encoding stands at the offset.
pub fn leaf_fault(
    alloc: Global,
    offset: usize,
    universal: Option<u64>,
    contents: &[u8],
    error: &ASN1DecodeErr,
) -> Result<Fault, AllocError>
    ensures found { IfOk result (IsNamed offset (fault_of error.now)) }
    ensures other { IfOk result (λ _. error.now ≢ OutOfMemory) }
{
    if matches!(error, ASN1DecodeErr::OutOfMemory) {
        return Err(AllocError);
    }
    let name = error.name();
    let mut message = String::new(alloc);
    write_message(&mut message, universal, contents, error)?;
    write!(message, " ({name})")?;
    let text = text_beside(universal, contents).map(|text| String::from_str(alloc, text));
    Ok(Fault {
        offset,
        code: Some(name),
        message,
        text: text.transpose()?,
    })
}

// Contents octets as text, where they are those of a string or a time that they do not make: those of a PrintableString
// if they are UTF-8, others if all are printed characters of ASCII.
fn text_beside(universal: Option<u64>, contents: &[u8]) -> Option<&str> {
    let text = match universal? {
        BOOLEAN | BIT_STRING | OBJECT_IDENTIFIER => None,
        PRINTABLE_STRING => str::from_utf8(contents).ok(),
        _ => printed_str(contents),
    };
    text.filter(|text| !text.is_empty())
}

// Puts what is wrong with contents octets of a type of class Universal, or with octets that begin with no header. The
// last errors are none of reading.
fn write_message(
    out: &mut String,
    universal: Option<u64>,
    contents: &[u8],
    error: &ASN1DecodeErr,
) -> Result<(), AllocError> {
    match error {
        ASN1DecodeErr::EmptyBuffer => out.push_str("there are no bytes"),
        ASN1DecodeErr::BadBooleanLength(n) => {
            write!(out, "BOOLEAN must have 1 content byte, has {n}")
        }
        ASN1DecodeErr::LengthTooLarge(n) => write!(out, "length too large: {n}"),
        ASN1DecodeErr::UTF8DecodeFailure(failure) => {
            let place = failure.valid_up_to();
            write!(out, "string is not UTF-8 from content byte {place} on")
        }
        ASN1DecodeErr::PrintableStringDecodeFailure => {
            out.push_str("character not allowed in PrintableString")?;
            match text_beside(universal, contents) {
                Some(text) => {
                    out.push_str(": ")?;
                    write_text(out, text, false)
                }
                None => Ok(()),
            }
        }
        ASN1DecodeErr::InvalidDateValue(_) => write_no_time(out, universal, contents),
        ASN1DecodeErr::InvalidBitStringLength(n) => {
            write!(out, "BIT STRING has more unused bits than bits: {n} left")
        }
        ASN1DecodeErr::Incomplete => out.push_str(match (universal, contents) {
            (Some(OBJECT_IDENTIFIER), []) => "OBJECT IDENTIFIER has no content bytes",
            (Some(OBJECT_IDENTIFIER), _) => "OBJECT IDENTIFIER ends inside a component",
            _ => "unexpected end of data",
        }),
        _ => write!(out, "{error}"),
    }
}

// Puts the text of a time, and of which form it should be.
fn write_no_time(
    out: &mut String,
    universal: Option<u64>,
    contents: &[u8],
) -> Result<(), AllocError> {
    let (name, form) = match universal {
        Some(UTC_TIME) => ("UTCTime", "YYMMDDhhmmssZ"),
        _ => (
            "GeneralizedTime",
            "YYYYMMDDhhmmssZ, with or without a fraction",
        ),
    };
    write!(out, "not a {name}: ")?;
    match str::from_utf8(contents) {
        Ok(text) => write_text(out, text, false)?,
        Err(_) => write_hex(out, contents, false)?,
    }
    write!(out, "; expected {form}, of an existing moment")
}
