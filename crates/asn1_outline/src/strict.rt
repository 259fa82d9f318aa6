// Outlines of documents that are in canonical form, and of no others.
ghost use Rattle.std.specs.Prelude.{◌≡◌, ℕ, IfErr, IfOk, OnOk};
ghost use Rattle.asn1_headers.specs.Reading.{OutOfMemoryOrAt, ReadsEachLocated, RejectsAt};
ghost use Rattle.asn1_blocks.specs.Grammar.{IsDocument};
ghost use Rattle.asn1_blocks.specs.Tree.{Trees};
ghost use Rattle.asn1_outline.specs.Entries.{AreEntriesOf, IsOutline};
ghost use Rattle.asn1_outline.specs.Outlines.{entries_in, octets_in};
ghost use Rattle.asn1_writing.specs.Canonical.{all_canonical};
ghost use Rattle.asn1_writing.specs.ReadBack.{CanonicalDocument};
ghost use Rattle.asn1_writing.specs.Strict.{StrictFaultAt};

use crate::canonical::are_clearly_canonical;
use crate::entry::Entry;
use crate::outline::Outline;
use asn1_blocks::block::discard::discard;
use asn1_blocks::read_loop::out_of_memory;
use asn1_headers::error::LocatedErr;
use asn1_writing::in_place::are_clearly_canonical_in_place;
use asn1_writing::strict::strict_blocks;
use std::alloc::Global;

impl<'a> Outline<'a> {
    /// Reads a document in canonical form into entries, as `from_der_strict` reads it into blocks. It builds no blocks,
    /// unless a quick pass over the octets cannot tell whether they are canonical.
    ///
    /// # Errors
    /// The errors of [`Outline::from_der`]. For a document, `NotCanonical` with the offset of the first top-level block
    /// whose octets are not its canonical ones.
    pub fn from_der_strict(alloc: Global, octets: &'a [u8]) -> Result<Outline<'a>, LocatedErr>
        ensures document { IfOk result (λ outline. (bs : Trees ℕ) × CanonicalDocument octets.now bs
            × AreEntriesOf octets.now bs (entries_in outline)) }
        ensures lent { IfOk result (λ outline. octets_in outline ≡ octets.now) }
        ensures fault { IfErr result (OutOfMemoryOrAt (StrictFaultAt octets.now)) }

        // Memory aside, each canonical document has its entries, and other octets are refused with their first fault,
        // or with the first block that is not canonical.
        ensures accepts { ReadsEachLocated result (CanonicalDocument octets.now)
            (λ bs outline. AreEntriesOf octets.now bs (entries_in outline)) }
        ensures refuses { RejectsAt result (StrictFaultAt octets.now) }
    {
        canonical_outline(alloc, octets)
    }
}

// The outline of a canonical document.
fn canonical_outline<'a>(alloc: Global, octets: &'a [u8]) -> Result<Outline<'a>, LocatedErr>
    ensures document { IfOk result (λ outline. (bs : Trees ℕ) × CanonicalDocument octets.now bs
        × AreEntriesOf octets.now bs (entries_in outline)) }
    ensures lent { IfOk result (λ outline. octets_in outline ≡ octets.now) }
    ensures fault { IfErr result (OutOfMemoryOrAt (StrictFaultAt octets.now)) }
{
    match Outline::from_der(alloc, octets) {
        Ok(outline) => {
            check_canonical(alloc, octets, outline.entries())?;
            Ok(outline)
        }
        Err(located) => Err(located),
    }
}

// The most entries that are looked at. More do not fit into the processor's cache, so that octets are looked at faster.
const MOST_ENTRIES: usize = 4096;

/// Whether a document is canonical, of which these are the entries: by them, unless they are many, and where these say
/// no, as `check_octets` tells it.
///
/// # Errors
/// `NotCanonical` with the offset of the first top-level block that is not; `OutOfMemory`.
pub fn check_canonical(alloc: Global, octets: &[u8], entries: &[Entry]) -> Result<(), LocatedErr>
    requires { IsOutline octets.now entries.now }
    ensures canonical { OnOk result
        ((bs : Trees ℕ) → IsDocument octets.now bs → octets.now ≡ all_canonical bs) }
    ensures fault { IfErr result (OutOfMemoryOrAt (StrictFaultAt octets.now)) }
{
    if entries.len() <= MOST_ENTRIES && are_clearly_canonical(octets, entries) {
        return Ok(());
    }
    check_octets(alloc, octets)
}

/// Whether a document is canonical, by its octets, and where these say no, by its blocks.
///
/// # Errors
/// `NotCanonical` with the offset of the first top-level block that is not, or the fault of what is no document;
/// `OutOfMemory`.
pub fn check_octets(alloc: Global, octets: &[u8]) -> Result<(), LocatedErr>
    ensures canonical { OnOk result
        ((bs : Trees ℕ) → IsDocument octets.now bs → octets.now ≡ all_canonical bs) }
    ensures fault { IfErr result (OutOfMemoryOrAt (StrictFaultAt octets.now)) }
{
    match are_clearly_canonical_in_place(alloc, octets) {
        Ok(true) => Ok(()),
        Ok(false) => check_blocks(alloc, octets),
        Err(_) => Err(out_of_memory(0)),
    }
}

// Whether a document is canonical, by its blocks.
fn check_blocks(alloc: Global, octets: &[u8]) -> Result<(), LocatedErr>
    ensures canonical { OnOk result
        ((bs : Trees ℕ) → IsDocument octets.now bs → octets.now ≡ all_canonical bs) }
    ensures fault { IfErr result (OutOfMemoryOrAt (StrictFaultAt octets.now)) }
{
    match strict_blocks(alloc, octets) {
        Ok(blocks) => {
            discard(blocks);
            Ok(())
        }
        Err(located) => Err(located),
    }
}
