// Writing blocks, in two walks, each a loop: the first lists all blocks with the size of their contents octets, the
// second fills one allocation of the size of all octets.
ghost use Rattle.std.specs.Prelude.{◌≡◌, ◌⊎◌, ◌↔◌, ℕ, Some, None, IfOk, IfErr, IsTrue, OnOk, MatchOption};
ghost use Rattle.asn1_writing.specs.Canonical.{all_canonical, canonical, first_write_fault, write_fault};
ghost use Rattle.asn1_headers.specs.Fault.{OutOfMemoryOr};
ghost use Rattle.asn1_headers.specs.Reading.{OutOfMemoryOrAt, ReadsEach, ReadsEachLocated, RejectsAt, RejectsWith};
ghost use Rattle.asn1_blocks.specs.Grammar.{IsDocument, FirstFault, FirstFaultAt};
ghost use Rattle.asn1_blocks.specs.Faithful.{IsFaithful, all_normalized};
ghost use Rattle.asn1_writing.specs.Inner.InPlace.{AreCanonical};
ghost use Rattle.asn1_writing.specs.ReadBack.{AllReadBackAs, IsCanonicalDocument, ReadsBackAs, WrittenOfEqualsAlone};
ghost use Rattle.asn1_blocks.specs.Tree.{Tree, Trees, shape};
ghost use Rattle.asn1_blocks.specs.View.{view, views};
ghost use Rattle.asn1_headers.specs.declared.error.ASN1DecodeErr.TheVariants.{OutOfMemory};
ghost use Rattle.asn1_headers.specs.declared.error.ASN1EncodeErr.TheVariants.{OutOfMemory as no_memory};

use crate::check::check_document;
use crate::in_place::are_clearly_canonical_in_place;
use crate::measure::measure;
use crate::push::push_all;
use asn1_blocks::block::ASN1Block;
use asn1_blocks::document::Document;
use asn1_blocks::read_loop::out_of_memory;
use asn1_headers::error::{ASN1DecodeErr, ASN1EncodeErr, LocatedErr};
use asn1_headers::header::HeaderCount;
use asn1_headers::whole_header::read_header;
use std::alloc::Global;
use std::slice;

/// Writes a block as its canonical octets: each length (X.690 10.1), tag number (X.690 8.1.2.2, 8.1.2.4.2) and integer
/// (X.690 8.3.2) in its shortest form, and SETs in the order they have. The contents octets of an `Unknown` are
/// written as they are. Offsets play no part.
///
/// It takes memory for the result, in one allocation of its size. While it writes, it also has a list of all blocks, 16
/// bytes for each, and at most as many for those that wait while others are gone through. These lists have room for 64
/// blocks at first; they grow, and may reserve twice that. Stack use does not grow with nesting.
///
/// # Errors
/// The fault of the first block, in the order of the octets, that cannot be written: `BitStringLength`,
/// `CharacterTooLarge`, `YearOutOfRange`, `ObjectIdentHasTooFewFields`, `ObjectIdentVal1TooLarge` or
/// `ObjectIdentVal2TooLarge`; `OutOfMemory`, also if the octets would be more than memory can hold.
///
/// ```rust
/// use simple_asn1::{ASN1Block, ASN1EncodeErr, to_der};
/// use std::alloc::Global;
///
/// // `01 01 FF`
/// fn yes(alloc: Global) -> Result<Vec<u8>, ASN1EncodeErr> {
///     to_der(alloc, &ASN1Block::Boolean(0, true))
/// }
/// ```
pub fn to_der(alloc: Global, i: &ASN1Block) -> Result<Vec<u8>, ASN1EncodeErr>
    ensures encoded { IfOk result (λ v. v.items ≡ canonical (view i.now)) }
    ensures writable { OnOk result (write_fault (view i.now) ≡ None) }
    ensures refused { IfErr result (λ e. (e ≡ no_memory) ⊎ (write_fault (view i.now) ≡ Some e)) }

    // Of a tree that differs by offsets alone, the same is written.
    ensures offsets { (other : Tree ℕ) → shape other ≡ shape (view i.now)
        → (canonical other ≡ canonical (view i.now))
        × (write_fault other ≡ write_fault (view i.now)) }

    // A faithful block is refused for want of memory alone. What is written of a block is read back as that block
    // exactly if it is faithful.
    ensures faithful { IsFaithful (view i.now) → IfErr result (λ e. e ≡ no_memory) }
    ensures survives { IfOk result (λ v.
        IsFaithful (view i.now) ↔ ReadsBackAs v.items (view i.now)) }
{
    let octets = write_all(alloc, slice::from_ref(i))?;
    Ok(octets)
}

/// Rewrites a document to its canonical octets: reads it as [`from_der`](crate::from_der) does, and joins what
/// [`to_der`] writes of its blocks. Each length (X.690 10.1), tag number (X.690 8.1.2.2, 8.1.2.4.2) and integer (X.690
/// 8.3.2) has its shortest form.
///
/// Where a quick pass over the octets finds them canonical, they are checked and copied: no blocks are built, and only
/// the result and each open level of nesting take memory. Otherwise it takes the memory that reading and [`to_der`]
/// take. Stack use does not grow with nesting, in writing the blocks or dropping them.
///
/// # Errors
/// The errors of [`from_der`](crate::from_der). What was read can always be written, so otherwise only `OutOfMemory`.
///
/// ```rust
/// use simple_asn1::{ASN1DecodeErr, rewrite};
/// use std::alloc::Global;
///
/// // Whether two documents are the same but for their form: `02 02 00 05` and `02 01 05` are.
/// fn are_alike(alloc: Global, a: &[u8], b: &[u8]) -> Result<bool, ASN1DecodeErr> {
///     Ok(rewrite(alloc, a)? == rewrite(alloc, b)?)
/// }
/// ```
pub fn rewrite(alloc: Global, i: &[u8]) -> Result<Vec<u8>, ASN1DecodeErr>
    ensures document { IfOk result
        (λ v. (bs : Trees ℕ) × IsDocument i.now bs × (v.items ≡ all_canonical bs)) }
    ensures fault { IfErr result (OutOfMemoryOr (FirstFault i.now)) }
    ensures accepts { ReadsEach result (IsDocument i.now) (λ bs v. v.items ≡ all_canonical bs) }
    ensures refuses { RejectsWith result (FirstFault i.now) }

    // What is written is read back as the blocks of the document, normalized, and is its own canonical form. Another
    // document has the same exactly if its blocks are equal, normalized.
    ensures reads_back { (bs : Trees ℕ) → IsDocument i.now bs
        → IfOk result (λ v. AllReadBackAs v.items (all_normalized bs)) }
    ensures again { IfOk result (λ v. IsCanonicalDocument v.items) }
    ensures equal { IfOk result (λ v. WrittenOfEqualsAlone i.now v.items) }
{
    rewritten(alloc, i)
}

/// Rewrites a document as [`rewrite`] does, unless a quick pass over its octets finds them canonical: `None` says that
/// they are, and then nothing is built or copied. Errors say where they are.
///
/// # Errors
/// The errors of [`from_der_located`](crate::from_der_located).
///
/// ```rust
/// use simple_asn1::{LocatedErr, rewrite_unless_canonical};
/// use std::alloc::Global;
///
/// // Whether a quick look finds that a document is canonical: `02 01 05` is, `02 02 00 05` is not.
/// fn is_found_canonical(alloc: Global, octets: &[u8]) -> Result<bool, LocatedErr> {
///     Ok(rewrite_unless_canonical(alloc, octets)?.is_none())
/// }
/// ```
pub fn rewrite_unless_canonical(alloc: Global, octets: &[u8]) -> Result<Option<Vec<u8>>, LocatedErr>
    ensures document { IfOk result (λ written. (bs : Trees ℕ) × IsDocument octets.now bs
        × MatchOption written (octets.now ≡ all_canonical bs) (λ v. v.items ≡ all_canonical bs)) }
    ensures fault { IfErr result (OutOfMemoryOrAt (FirstFaultAt octets.now)) }
    ensures accepts { ReadsEachLocated result (IsDocument octets.now)
        (λ bs written. MatchOption written (octets.now ≡ all_canonical bs) (λ v. v.items ≡ all_canonical bs)) }
    ensures refuses { RejectsAt result (FirstFaultAt octets.now) }
{
    written_unless_canonical(alloc, octets)
}

fn written_unless_canonical(alloc: Global, octets: &[u8]) -> Result<Option<Vec<u8>>, LocatedErr>
    ensures document { IfOk result (λ written. (bs : Trees ℕ) × IsDocument octets.now bs
        × MatchOption written (octets.now ≡ all_canonical bs) (λ v. v.items ≡ all_canonical bs)) }
    ensures fault { IfErr result (OutOfMemoryOrAt (FirstFaultAt octets.now)) }
{
    match are_clearly_canonical(alloc, octets) {
        Ok(true) => {}
        Ok(false) => return Ok(Some(written_anew(alloc, octets)?)),
        Err(_) => return Err(out_of_memory(0)),
    }
    check_document(alloc, octets)?;
    Ok(None)
}

// Whether a quick pass finds the octets canonical, if they are a document: `false` says nothing. Octets that were cut
// off are not gone over, since reading refuses them at once.
fn are_clearly_canonical(alloc: Global, octets: &[u8]) -> Result<bool, ASN1DecodeErr>
    ensures canonical { IfOk result (λ yes. IsTrue yes → AreCanonical octets.now) }
    ensures refused { IfErr result (λ e. e ≡ OutOfMemory) }
{
    if is_cut_off(alloc, octets)? {
        return Ok(false);
    }
    are_clearly_canonical_in_place(alloc, octets)
}

// Whether the first header is at fault, or announces more contents octets than there are.
fn is_cut_off(alloc: Global, octets: &[u8]) -> Result<bool, ASN1DecodeErr>
    ensures { IfErr result (λ e. e ≡ OutOfMemory) }
{
    match read_header(alloc, octets, &mut HeaderCount::new()) {
        Ok(header) => Ok(header.announced > octets.len().saturating_sub(header.size)),
        Err(ASN1DecodeErr::OutOfMemory) => Err(ASN1DecodeErr::OutOfMemory),
        Err(_) => Ok(true),
    }
}

// The canonical octets of a document. Nearly always its own are found to be these, and then no block is built.
fn rewritten(alloc: Global, octets: &[u8]) -> Result<Vec<u8>, ASN1DecodeErr>
    ensures document { IfOk result
        (λ v. (bs : Trees ℕ) × IsDocument octets.now bs × (v.items ≡ all_canonical bs)) }
    ensures fault { IfErr result (OutOfMemoryOr (FirstFault octets.now)) }
{
    match written_unless_canonical(alloc, octets) {
        Ok(Some(written)) => Ok(written),
        Ok(None) => Ok(Vec::from_slice(alloc, octets)?),
        Err(located) => Err(located.error),
    }
}

// What is written of the blocks of a document.
fn written_anew(alloc: Global, octets: &[u8]) -> Result<Vec<u8>, LocatedErr>
    ensures document { IfOk result
        (λ v. (bs : Trees ℕ) × IsDocument octets.now bs × (v.items ≡ all_canonical bs)) }
    ensures fault { IfErr result (OutOfMemoryOrAt (FirstFaultAt octets.now)) }
{
    let document = Document::from_der_located(alloc, octets)?;
    match write_all(alloc, document.blocks()) {
        Ok(written) => Ok(written),
        Err(e) => match e {
            ASN1EncodeErr::OutOfMemory => Err(out_of_memory(0)),
            _ => unreachable!(),
        },
    }
}

// The canonical octets of blocks, joined.
pub fn write_all(alloc: Global, blocks: &[ASN1Block]) -> Result<Vec<u8>, ASN1EncodeErr>
    ensures encoded { IfOk result (λ v. v.items ≡ all_canonical (views blocks.now)) }
    ensures writable { OnOk result (first_write_fault (views blocks.now) ≡ None) }
    ensures refused { IfErr result
        (λ e. (e ≡ no_memory) ⊎ (first_write_fault (views blocks.now) ≡ Some e)) }
{
    let (list, size) = measure(alloc, blocks)?;
    let mut octets = Vec::with_capacity(alloc, size)?;
    push_all(&list, &mut octets);
    Ok(octets)
}
