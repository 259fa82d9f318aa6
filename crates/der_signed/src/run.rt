// The run of the program: all input is read before anything is written.
ghost use Rattle.std.specs.Prelude.{◌≡◌, ◌⊎◌, ℕ, List, None, Err, IfErr, IfOk, IfSome, IsOk, OnOk, Some, codes};
ghost use Rattle.std.specs.Io.KnownBytes.{Appends, IsAtEnd, Keeps};
ghost use Rattle.der_forms.specs.Objects.{document_of as document_of_is};
ghost use Rattle.der_forms.specs.declared.fault.FormFault.{FormFault};
ghost use Rattle.der_signed.specs.Content.{HasDocument, IsContent, IsFaultOf, IsRefusalOf, TellsWhy};
ghost use Rattle.der_signed.specs.declared.run.RunFault.TheVariants.{Stream, NotSigned as not_signed, NoDocument as no_document, Refused as refused};
ghost use Rattle.der_io.specs.declared.StreamFault.TheVariants.{Read as read_fault, Write as write_fault, Memory as memory_fault};

use asn1_headers::error::ASN1DecodeErr;
use asn1_outline::signed::signed_content;
use der_forms::{FormFault, document_of};
use der_io::{StreamFault, fault_status, read_all, write_all};
use std::alloc::Global;
use std::io::{Read, Write};

/// Why a run wrote no content.
#[derive(Debug, Drop, PartialEq)]
pub enum RunFault {
    /// A stream failed, or memory ran out.
    Stream(StreamFault),
    /// The input has no document in a form that is read.
    NoDocument(FormFault),
    /// A header of the document is at fault.
    Refused(ASN1DecodeErr),
    /// The first block of the document is not a signed triple.
    NotSigned,
}

/// Wraps the fault.
impl From<StreamFault> for RunFault {
    ghost use Rattle.der_signed.specs.declared.run.RunFault.TheVariants.{Stream};

    ghost from_gives = { λ f e. e ≡ Stream f };

    fn from(e: StreamFault) -> RunFault {
        RunFault::Stream(e)
    }
}

/// Reads all of `r`, and writes the octets that were signed to `w`, where the input has a document that begins with a
/// signed triple, by its headers: as it is, in PEM (its first object), in hex digits or in base 64. The whole input is
/// kept in memory, with the encodings that are open at a time while it is read.
///
/// # Errors
/// `Read`, `Memory`, `NoDocument`, `Refused` and `NotSigned`, after which nothing was written; `Write`, after which
/// nothing is known of what was.
pub fn run<R: Read, W: Write>(alloc: Global, r: &mut R, w: &mut W) -> Result<(), RunFault>
    ensures written { OnOk result (IfSome (R.remaining r.old) (λ input. (content : List ℕ)
        × HasDocument input (λ octets. IsContent octets content)
        × Appends (W.contents w.old) (W.contents w.new) content)) }
    ensures read { OnOk result (IsAtEnd (R.remaining r.new)) }
    ensures kept { IfErr result (λ e. (e ≡ Stream write_fault) ⊎ Keeps (W.contents w.old) (W.contents w.new)) }
    ensures refused { IfErr result (λ e. IfSome (R.remaining r.old) (TellsWhy e)) }
{
    let input = read_all(alloc, r)?;
    let octets = octets_of(alloc, input)?;
    let content = signed_part(alloc, &octets)?;
    write_all(w, content)?;
    Ok(())
}

// The octets of the document that the input has.
fn octets_of(alloc: Global, input: Vec<u8>) -> Result<Vec<u8>, RunFault>
    ensures document { IfOk result (λ octets. document_of_is input.items ≡ Some octets.items) }
    ensures refused { IfErr result (λ e. TellsWhy e input.items) }
{
    match document_of(alloc, input) {
        Ok(octets) => Ok(octets),
        Err(FormFault::OutOfMemory) => Err(RunFault::Stream(StreamFault::Memory)),
        Err(fault) => Err(RunFault::NoDocument(fault)),
    }
}

// The octets that were signed of a document.
fn signed_part<'a>(alloc: Global, octets: &'a [u8]) -> Result<&'a [u8], RunFault>
    ensures content { IfOk result (λ content. IsContent octets.now content.now) }
    ensures refused { IfErr result (λ e. IsFaultOf e octets.now) }
{
    match signed_content(alloc, octets) {
        Ok(found) => content_in(found),
        Err(located) => Err(refusal_of(located.error)),
    }
}

// The octets that were found.
fn content_in(found: Option<&[u8]>) -> Result<&[u8], RunFault>
    ensures content { IfOk result (λ content. found.entry ≡ Some content) }
    ensures none { IfErr result (λ e. (e ≡ not_signed) × (found.entry ≡ None)) }
{
    match found {
        Some(content) => Ok(content),
        None => Err(RunFault::NotSigned),
    }
}

// Whether memory ran out, or the octets are at fault.
fn refusal_of(error: ASN1DecodeErr) -> RunFault
    ensures { IsRefusalOf error result }
{
    match error {
        ASN1DecodeErr::OutOfMemory => RunFault::Stream(StreamFault::Memory),
        error => RunFault::Refused(error),
    }
}

/// The exit status after a run: 0 where the content was written, 1 after a fault of reading or writing, 2 where memory
/// ran out, 3 where the input has no document that begins with a signed triple.
pub fn status(outcome: &Result<(), RunFault>) -> u8
    ensures written { IsOk outcome.now → result ≡ 0 }
    ensures stream { IfErr outcome.now
        (λ e. (e ≡ Stream read_fault) ⊎ (e ≡ Stream write_fault) → result ≡ 1) }
    ensures memory { IfErr outcome.now (λ e. e ≡ Stream memory_fault → result ≡ 2) }
    ensures form { (f : FormFault) → outcome.now ≡ Err (no_document f) → result ≡ 3 }
    ensures octets { (f : _) → outcome.now ≡ Err (refused f) → result ≡ 3 }
    ensures refused { IfErr outcome.now (λ e. e ≡ not_signed → result ≡ 3) }
{
    match outcome {
        Ok(()) => 0,
        Err(RunFault::Stream(fault)) => fault_status(fault),
        Err(RunFault::NoDocument(_) | RunFault::Refused(_)) => 3,
        Err(RunFault::NotSigned) => 3,
    }
}

/// The beginning of the message of a fault, before what is wrong with the document.
pub fn fault_text(fault: &RunFault) -> &'static str
    ensures reading { fault.now ≡ Stream read_fault → result.now ≡ codes "read fault" }
    ensures writing { fault.now ≡ Stream write_fault → result.now ≡ codes "write fault" }
    ensures memory { fault.now ≡ Stream memory_fault → result.now ≡ codes "out of memory" }
    ensures form { (f : FormFault) → fault.now ≡ no_document f → result.now ≡ codes "no document" }
    ensures octets { (f : _) → fault.now ≡ refused f → result.now ≡ codes "no document" }
    ensures refused { fault.now ≡ not_signed → result.now ≡ codes "no signed content" }
{
    match fault {
        RunFault::Stream(fault) => der_io::fault_text(fault),
        RunFault::NoDocument(_) | RunFault::Refused(_) => "no document",
        RunFault::NotSigned => "no signed content",
    }
}
