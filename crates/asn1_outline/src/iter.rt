// The iterators of an outline, and of one inside a string.
ghost use Rattle.std.specs.Prelude.{◌≡◌, ◌+◌, ◌^◌, ◌<◌, All, length, map};
ghost use Rattle.std.specs.Iterator.{YieldsFirst, YieldsFirstBy, item_count};
ghost use Rattle.std.specs.List.{enumerate_from};
ghost use Rattle.asn1_blocks.specs.Tree.{trees_of};
ghost use Rattle.asn1_outline.specs.InStrings.{later};
ghost use Rattle.asn1_outline.specs.Iterated.{HasEntryIn, still_to_come};
ghost use Rattle.asn1_outline.specs.Outlines.{entries_in, octets_in};
ghost use Rattle.asn1_outline.specs.Structure.{IsStructure, Nodes, node_at, node_items, nodes_trees, tree_at};

use crate::entry::Entry;
use crate::outline::Outline;
use std::iter::FusedIterator;
use std::marker::Model;

/// Entries in order, each with its index, as [`Outline::blocks`], [`Outline::items`] and [`Outline::all`] return them.
#[derive(Debug, Drop)]
pub struct Entries<'a> {
    // The next entry, and those after it.
    rest: &'a [Entry],
    // The index of the next entry.
    index: usize,
    // Whether the entries of the blocks inside each come too.
    all: bool,
}

impl<'a> Model for Entries<'a> {
    ghost use Rattle.std.specs.Prelude.{ℕ, ◌+◌, ◌^◌, ◌<◌, List, length};
    ghost use Rattle.asn1_outline.specs.declared.entry.Entry.{Entry};
    ghost use Rattle.asn1_outline.specs.Iterated.{still_to_come};

    ghost Value = { List (ℕ × Entry) };

    ghost view = { λ it. still_to_come it.all it.index it.rest.now };

    ghost invariant = { λ it. it.index + length it.rest.now < 2 ^ 64 };
}

impl<'a> Iterator for Entries<'a> {
    type Item = (usize, &'a Entry);

    ghost next_gives = { YieldsFirstBy (λ item. (item.0, item.1.now)) (λ rest. rest) };

    ghost remaining = { item_count (λ rest. rest) };

    fn next(&mut self) -> Option<(usize, &'a Entry)> {
        let (entry, rest) = self.rest.split_first()?;
        let index = self.index;
        if self.all {
            self.rest = rest;
            self.index = index + 1;
            return Some((index, entry));
        }
        let inside = entry.next.saturating_sub(index + 1).min(rest.len());
        self.rest = &rest[inside..];
        self.index = index + 1 + inside;
        Some((index, entry))
    }
}

impl<'a> FusedIterator for Entries<'a> {}

impl<'a> Entries<'a> {
    // An iterator over these entries, of which the first has the index: all, or those that no other is around.
    fn over(rest: &'a [Entry], index: usize, all: bool) -> Entries<'a>
        requires { index + length rest.now < 2 ^ 64 }
        ensures { result ≡ still_to_come all index rest.now }
    {
        Entries { rest, index, all }
    }
}

/// The entries of an [`Inside`] in order, each with its offset from the start of the document around, as
/// [`Inside::entries`] returns them.
///
/// [`Inside`]: crate::inside::Inside
/// [`Inside::entries`]: crate::inside::Inside::entries
#[derive(Debug, Drop)]
pub struct EntriesInside<'a> {
    // The next entry, and those after it.
    rest: &'a [Entry],
    // How much greater their offsets are.
    start: usize,
}

impl<'a> Model for EntriesInside<'a> {
    ghost use Rattle.std.specs.Prelude.{ℕ, ◌+◌, ◌^◌, ◌<◌, All, List, map};
    ghost use Rattle.asn1_outline.specs.InStrings.{later};
    ghost use Rattle.asn1_outline.specs.declared.entry.Entry.{Entry};

    ghost Value = { List Entry };

    ghost view = { λ it. map (later it.start) it.rest.now };

    ghost invariant = { λ it. All (λ r. it.start + r.offset < 2 ^ 64) it.rest.now };
}

impl<'a> Iterator for EntriesInside<'a> {
    type Item = Entry;

    ghost next_gives = { YieldsFirst (λ rest. rest) };

    ghost remaining = { item_count (λ rest. rest) };

    fn next(&mut self) -> Option<Entry> {
        let (entry, rest) = self.rest.split_first()?;
        self.rest = rest;
        Some(entry.later(self.start))
    }
}

impl<'a> FusedIterator for EntriesInside<'a> {}

impl<'a> EntriesInside<'a> {
    // An iterator over these entries, each with an offset that is greater by so much.
    pub(crate) fn over(rest: &'a [Entry], start: usize) -> EntriesInside<'a>
        requires { All (λ r. start + r.offset < 2 ^ 64) rest.now }
        ensures { result ≡ map (later start) rest.now }
    {
        EntriesInside { rest, start }
    }
}

impl<'a> Outline<'a> {
    /// The outermost blocks, in order: the index and the entry of each.
    pub fn blocks(&self) -> Entries<'_>
        ensures entries { All (HasEntryIn (entries_in self.now)) result }
        ensures trees { (ns : Nodes) → IsStructure (octets_in self.now) ns
            → trees_of (map (λ item. tree_at ns item.0) result) ≡ nodes_trees ns }
    {
        Entries::over(self.entries.as_slice(), 0, false)
    }

    /// The blocks directly inside the block at the index, in order: the index and the entry of each. None past the end.
    ///
    /// ```rust
    /// use simple_asn1::Outline;
    ///
    /// // The index of the first item with the tag number: of `30 05 05 00 02 01 05` and 2 the index 2.
    /// fn item_with(outline: &Outline<'_>, tag: u64) -> Option<usize> {
    ///     for (index, entry) in outline.items(0) {
    ///         if entry.tag == tag {
    ///             return Some(index);
    ///         }
    ///     }
    ///     None
    /// }
    /// ```
    pub fn items(&self, index: usize) -> Entries<'_>
        ensures entries { All (HasEntryIn (entries_in self.now)) result }
        ensures trees { (ns : Nodes) → IsStructure (octets_in self.now) ns
            → trees_of (map (λ item. tree_at ns item.0) result) ≡ nodes_trees (node_items (node_at ns index)) }
    {
        let Some(entry) = self.entries.get(index) else {
            return Entries::over(&[], 0, false);
        };
        let inside = &self.entries[index + 1..entry.next];
        Entries::over(inside, index + 1, false)
    }

    /// All blocks, each before those inside it: the index and the entry of each.
    pub fn all(&self) -> Entries<'_>
        ensures { result ≡ enumerate_from 0 (entries_in self.now) }
    {
        Entries::over(self.entries.as_slice(), 0, true)
    }
}
