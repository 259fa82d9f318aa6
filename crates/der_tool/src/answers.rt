// The answers to lines, each a document in hex digits.
ghost use Rattle.std.specs.Prelude.{◌≡◌, ◌++◌, ℕ, List, IfErr, IfOk, OnOk, string_bytes};
ghost use Rattle.der_tool.specs.Answers.{AreAnswers, IsAccepted, IsAnswer, IsRefused, IsVerdict, number_after, refusal};
ghost use Rattle.der_tool.specs.declared.answers.Reading.TheVariants.{Strict};
ghost use Rattle.simple_asn1.specs.Fault.{OutOfMemoryOr, fault_of};

use der_io::split_line;
use hex::FromHexError;
use simple_asn1::{ASN1DecodeErr, discard, from_der_strict, rewrite};
use std::alloc::{AllocError, Global};

// Which documents are accepted, and with which octets they are answered.
#[derive(Clone, Copy)]
pub enum Reading {
    // All, with their canonical octets.
    Lenient,
    // Documents that are their canonical octets, with these.
    Strict,
}

// The answers to the lines of the input.
pub fn answers(alloc: Global, reading: Reading, input: &[u8]) -> Result<Vec<u8>, AllocError>
    ensures { IfOk result (λ output. AreAnswers reading input.now output.items) }
{
    let mut output = Vec::new(alloc);
    let mut rest = input;
    while !rest.is_empty() {
        let (line, after) = split_line(rest);
        append_answer(alloc, reading, line, &mut output)?;
        output.push(b'\n')?;
        rest = after;
    }
    Ok(output)
}

// Appends the answer to a line.
fn append_answer(
    alloc: Global,
    reading: Reading,
    line: &[u8],
    output: &mut Vec<u8>,
) -> Result<(), AllocError>
    ensures { OnOk result ((answer : List ℕ) × IsAnswer reading line.now answer
        × (output.new.items ≡ output.old.items ++ answer)) }
{
    match hex::decode(alloc, line) {
        Ok(octets) => append_verdict(alloc, reading, &octets, output),
        Err(FromHexError::OutOfMemory) => Err(AllocError),
        Err(_) => output.extend_from_slice(b"badhex"),
    }
}

// Appends the verdict on octets: their canonical ones, or why they are refused.
fn append_verdict(
    alloc: Global,
    reading: Reading,
    octets: &[u8],
    output: &mut Vec<u8>,
) -> Result<(), AllocError>
    ensures { OnOk result ((answer : List ℕ) × IsVerdict reading octets.now answer
        × (output.new.items ≡ output.old.items ++ answer)) }
{
    match canonical_octets(alloc, reading, octets) {
        Ok(canonical) => {
            let text = hex::encode_upper(alloc, canonical.as_slice())?;
            output.extend_from_slice(b"ok ")?;
            output.extend_from_slice(text.as_bytes())
        }
        Err(ASN1DecodeErr::OutOfMemory) => Err(AllocError),
        Err(fault) => append_refusal(alloc, &fault, output),
    }
}

// Appends the name of a fault, and its number if it has one.
fn append_refusal(
    alloc: Global,
    fault: &ASN1DecodeErr,
    output: &mut Vec<u8>,
) -> Result<(), AllocError>
    ensures { OnOk result (output.new.items
        ≡ output.old.items ++ refusal (fault_of fault.now)) }
{
    let number = number_text(alloc, fault)?;
    output.extend_from_slice(b"refused ")?;
    output.extend_from_slice(fault.name().as_bytes())?;
    output.extend_from_slice(number.as_bytes())
}

// The canonical octets of a document that is accepted.
fn canonical_octets(
    alloc: Global,
    reading: Reading,
    octets: &[u8],
) -> Result<Vec<u8>, ASN1DecodeErr>
    ensures accepted { IfOk result (λ canonical. IsAccepted reading octets.now canonical.items) }
    ensures refused { IfErr result (OutOfMemoryOr (IsRefused reading octets.now)) }
{
    match reading {
        Reading::Lenient => rewrite(alloc, octets),
        Reading::Strict => strict_octets(alloc, octets),
    }
}

// The octets of a document in canonical form. No block of it is built: rewritten, it is the same.
fn strict_octets(alloc: Global, octets: &[u8]) -> Result<Vec<u8>, ASN1DecodeErr>
    ensures accepted { IfOk result (λ canonical. IsAccepted Strict octets.now canonical.items) }
    ensures refused { IfErr result (OutOfMemoryOr (IsRefused Strict octets.now)) }
{
    let canonical = rewrite(alloc, octets)?;
    if canonical.as_slice() == octets {
        return Ok(canonical);
    }
    discard(from_der_strict(alloc, octets)?);
    Ok(octets.to_vec(alloc)?)
}

// A space and the number of a fault, if it is one of the four with a number.
fn number_text(alloc: Global, fault: &ASN1DecodeErr) -> Result<String, AllocError>
    ensures { IfOk result (λ text. string_bytes text ≡ number_after (fault_of fault.now)) }
{
    match fault {
        ASN1DecodeErr::BadBooleanLength(n) => format!(in alloc; " {n}"),
        ASN1DecodeErr::LengthTooLarge(n) => format!(in alloc; " {n}"),
        ASN1DecodeErr::InvalidBitStringLength(n) => format!(in alloc; " {n}"),
        ASN1DecodeErr::NotCanonical(n) => format!(in alloc; " {n}"),
        ASN1DecodeErr::EmptyBuffer
        | ASN1DecodeErr::UTF8DecodeFailure(_)
        | ASN1DecodeErr::PrintableStringDecodeFailure
        | ASN1DecodeErr::InvalidDateValue(_)
        | ASN1DecodeErr::InvalidClass(_)
        | ASN1DecodeErr::Incomplete
        | ASN1DecodeErr::Overflow
        | ASN1DecodeErr::OutOfMemory => Ok(String::new(alloc)),
    }
}
