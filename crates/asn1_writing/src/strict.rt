// Reading documents that are in canonical form, and no others.
ghost use Rattle.std.specs.Prelude.{◌≡◌, ◌↔◌, ℕ, None, drop, IfOk, IfErr, IsErrAnd, IsTrue, MatchOption};
ghost use Rattle.asn1_writing.specs.Canonical.{all_canonical, first_write_fault};
ghost use Rattle.asn1_headers.specs.Fault.{OutOfMemoryOr, not_canonical};
ghost use Rattle.asn1_headers.specs.Reading.{OutOfMemoryOrAt, ReadsEach, RejectsWith};
ghost use Rattle.asn1_blocks.specs.Grammar.{IsDocument, FirstFault};
ghost use Rattle.asn1_blocks.specs.Places.{end_before};
ghost use Rattle.asn1_writing.specs.ReadBack.{CanonicalDocument};
ghost use Rattle.asn1_writing.specs.Strict.{EqualByOctets, FirstNotCanonical, IsNotCanonicalAt, StrictFault, StrictFaultAt};
ghost use Rattle.asn1_blocks.specs.View.{views};
ghost use Rattle.asn1_headers.specs.declared.error.ASN1DecodeErr.TheVariants.{OutOfMemory};

use crate::in_place::are_clearly_canonical_in_place;
use crate::measure::measure;
use crate::push::push_all;
use asn1_blocks::block::ASN1Block;
use asn1_blocks::document::Document;
use asn1_blocks::read_loop::out_of_memory;
use asn1_headers::error::{ASN1DecodeErr, ASN1EncodeErr, LocatedErr};
use asn1_numbers::sink::Comparison;
use std::alloc::Global;
use std::slice;

/// Reads a document in canonical form, such as [`to_der`](crate::to_der) writes, and rejects any other. Two documents
/// that it accepts have equal blocks exactly if their octets are the same.
///
/// It takes the memory that reading takes; more if more than four constructed encodings of classes other than
/// Universal are nested; and if the octets are not canonical, lists of blocks as [`to_der`](crate::to_der) takes them.
/// The octets are compared in place, and none are written. The blocks of a rejected document are dropped by a loop;
/// those that are returned are dropped as those of [`from_der`](crate::from_der) are, by a loop if
/// [`discard`](crate::discard) is called.
///
/// ```rust
/// use simple_asn1::{ASN1DecodeErr, discard, from_der_strict};
/// use std::alloc::Global;
///
/// // Whether each block is in canonical form: of `05 00 01 01 FF`; not of `05 00 01 01 2A`.
/// fn is_canonical(alloc: Global, octets: &[u8]) -> Result<bool, ASN1DecodeErr> {
///     match from_der_strict(alloc, octets) {
///         Ok(blocks) => {
///             discard(blocks);
///             Ok(true)
///         }
///         Err(ASN1DecodeErr::NotCanonical(_)) => Ok(false),
///         Err(fault) => Err(fault),
///     }
/// }
/// ```
///
/// # Errors
/// The errors of [`from_der`](crate::from_der). For a document, `NotCanonical` with the offset of the first top-level
/// block whose octets are not its canonical ones.
pub fn from_der_strict(alloc: Global, i: &[u8]) -> Result<Vec<ASN1Block>, ASN1DecodeErr>
    ensures document { IfOk result (λ blocks. CanonicalDocument i.now (views blocks.items)) }
    ensures fault { IfErr result (OutOfMemoryOr (StrictFault i.now)) }
    ensures accepts { ReadsEach result (CanonicalDocument i.now)
        (λ bs blocks. views blocks.items ≡ bs) }
    ensures refuses { RejectsWith result (FirstFault i.now) }
    ensures not_canonical { (offset : ℕ) → IsNotCanonicalAt i.now offset
        → IsErrAnd result (OutOfMemoryOr (λ e. e ≡ not_canonical offset)) }

    // Another document that is accepted has equal blocks exactly if its octets are the same.
    ensures equal { IfOk result (λ blocks. EqualByOctets i.now (views blocks.items)) }
{
    match strict_blocks(alloc, i) {
        Ok(blocks) => Ok(blocks),
        Err(LocatedErr { error, .. }) => Err(error),
    }
}

/// The blocks of a canonical document, as [`from_der_strict`] reads them; an error comes with its offset.
pub fn strict_blocks(alloc: Global, octets: &[u8]) -> Result<Vec<ASN1Block>, LocatedErr>
    ensures document { IfOk result (λ blocks. CanonicalDocument octets.now (views blocks.items)) }
    ensures fault { IfErr result (OutOfMemoryOrAt (StrictFaultAt octets.now)) }
{
    let document = Document::from_der_located(alloc, octets)?;
    match first_not_canonical(alloc, octets, document.blocks()) {
        Ok(None) => Ok(document.into_blocks()),
        Ok(Some(offset)) => Err(LocatedErr {
            error: ASN1DecodeErr::NotCanonical(offset),
            offset,
        }),
        Err(_) => Err(out_of_memory(0)),
    }
}

// The offset of the first of a document's blocks whose octets are not its canonical ones.
fn first_not_canonical(
    alloc: Global,
    octets: &[u8],
    blocks: &[ASN1Block],
) -> Result<Option<usize>, ASN1DecodeErr>
    requires { IsDocument octets.now (views blocks.now) }
    ensures found { IfOk result (λ found. MatchOption found
        (octets.now ≡ all_canonical (views blocks.now))
        (FirstNotCanonical octets.now (views blocks.now))) }
    ensures refused { IfErr result (λ e. e ≡ OutOfMemory) }
{
    // nearly always found so, and then no block is measured
    if are_clearly_canonical_in_place(alloc, octets)? {
        return Ok(None);
    }
    if are_canonical(alloc, blocks, octets)? {
        return Ok(None);
    }
    let mut start = 0;
    for k in 0..blocks.len() {
        let end = end_at(blocks, k + 1, octets.len());
        if !are_canonical(alloc, slice::from_ref(&blocks[k]), &octets[start..end])? {
            return Ok(Some(start));
        }
        start = end;
    }
    Ok(None)
}

// Where what stands before the block at the place ends, in octets of this size.
fn end_at(blocks: &[ASN1Block], place: usize, size: usize) -> usize
    ensures { result ≡ end_before (views (drop place blocks.now)) size }
{
    match blocks.get(place) {
        Some(next) => next.offset(),
        None => size,
    }
}

// Whether the octets are the canonical ones of the blocks, joined.
fn are_canonical(alloc: Global, blocks: &[ASN1Block], octets: &[u8]) -> Result<bool, ASN1DecodeErr>
    requires { first_write_fault (views blocks.now) ≡ None }
    ensures are { IfOk result
        (λ yes. IsTrue yes ↔ (octets.now ≡ all_canonical (views blocks.now))) }
    ensures refused { IfErr result (λ e. e ≡ OutOfMemory) }
{
    let (list, size) = match measure(alloc, blocks) {
        Ok(measured) => measured,
        Err(e) => match e {
            ASN1EncodeErr::OutOfMemory => return Err(ASN1DecodeErr::OutOfMemory),
            _ => unreachable!(),
        },
    };
    if size != octets.len() {
        return Ok(false);
    }
    let mut comparison = Comparison {
        rest: octets,
        same: true,
    };
    push_all(&list, &mut comparison);
    Ok(comparison.same)
}
