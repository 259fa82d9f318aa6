// How an outline is read, and what it lends.
ghost use Rattle.std.specs.Prelude.{◌≡◌, ◌<◌, ℕ, length, option_map, slice_get, IfErr, IfOk, IfSome};
ghost use Rattle.asn1_headers.specs.Reading.{OutOfMemoryOrAt, ReadsEachLocated, RejectsAt};
ghost use Rattle.asn1_blocks.specs.Grammar.{FirstFaultAt, IsDocument};
ghost use Rattle.asn1_blocks.specs.Tree.{Trees};
ghost use Rattle.asn1_outline.specs.Entries.{AreEntriesOf};
ghost use Rattle.asn1_outline.specs.Outlines.{IsBlockOf, entries_in, entry_in, lent_to, octets_in};
ghost use Rattle.asn1_outline.specs.Structure.{IsStructure, Nodes, tree_at};

use crate::block_ref::BlockRef;
use crate::entry::Entry;
use crate::listing::list;
use crate::outline::Outline;
use asn1_headers::error::LocatedErr;
use asn1_headers::header::HeaderCount;
use std::alloc::Global;

impl<'a> Outline<'a> {
    /// Reads a document into entries, one for each block that `from_der` reads.
    ///
    /// # Errors
    /// The errors of `from_der`, each with the offset of the innermost block at fault, as `from_der_located` has them.
    pub fn from_der(alloc: Global, octets: &'a [u8]) -> Result<Outline<'a>, LocatedErr>
        ensures document { IfOk result (λ outline. (bs : Trees ℕ) × IsDocument octets.now bs
            × AreEntriesOf octets.now bs (entries_in outline)) }
        ensures lent { IfOk result (λ outline. octets_in outline ≡ octets.now) }
        ensures fault { IfErr result (OutOfMemoryOrAt (FirstFaultAt octets.now)) }

        // Memory aside, each document has its entries, and other octets are refused with their first fault.
        ensures accepts { ReadsEachLocated result (IsDocument octets.now)
            (λ bs outline. AreEntriesOf octets.now bs (entries_in outline)) }
        ensures refuses { RejectsAt result (FirstFaultAt octets.now) }
    {
        let mut count = HeaderCount::new();
        match list(alloc, octets, &mut count) {
            Ok(entries) => Ok(Outline { octets, entries }),
            Err(located) => Err(located),
        }
    }

    /// The entries, in order. There is at least one, and the first has index 0.
    pub fn entries(&self) -> &[Entry]
        ensures entries { result.now ≡ entries_in self.now }
        ensures not_empty { 0 < length result.now }
    {
        self.entries.as_slice()
    }

    /// The block at the index, in place; `None` past the end.
    #[inline(always)]
    pub fn block(&self, index: usize) -> Option<BlockRef<'a>>
        ensures entry { option_map entry_in result ≡ slice_get (entries_in self.now) index }
        ensures lent { IfSome result (λ block. lent_to block ≡ octets_in self.now) }
        ensures tree { (ns : Nodes) → IsStructure (octets_in self.now) ns
            → IfSome result (IsBlockOf (tree_at ns index)) }
    {
        let Some(entry) = self.entries.get(index) else {
            return None;
        };
        Some(BlockRef {
            entry: *entry,
            octets: self.octets,
        })
    }

    /// The octets of the document.
    pub fn document(&self) -> &'a [u8]
        ensures { result.now ≡ octets_in self.now }
    {
        self.octets
    }
}
