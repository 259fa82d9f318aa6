// Documents into entries, straight from their octets: no block is made. No more entries are kept than there is room
// for, so that what is held is bounded by that room and by the frames that are open.
ghost use Rattle.std.specs.Prelude.{◌≡◌, ◌+◌, ◌⊎◌, ◌++◌, ◌^◌, ◌<◌, ◌≤◌, ◌∷◌, [], ℕ, List, IfErr, IfOk, IsTrue, MatchResult, OnOk, false, length, suc, take, vec_capacity, vec_len};
ghost use Rattle.asn1_headers.specs.Reading.{OutOfMemoryOrAt};
ghost use Rattle.asn1_headers.specs.declared.error.ASN1DecodeErr.TheVariants.{OutOfMemory};
ghost use Rattle.asn1_blocks.specs.Grammar.{FirstFaultAt, IsDocument};
ghost use Rattle.asn1_blocks.specs.HeadersBegun.{HeadersBegun};
ghost use Rattle.asn1_blocks.specs.Places.{HeaderFound};
ghost use Rattle.asn1_blocks.specs.Tree.{Trees};
ghost use Rattle.asn1_outline.specs.Entries.{AreEntriesOf, IsCapped};
ghost use Rattle.asn1_outline.specs.Listing.{IsBegun, AreFound, KeepsOf, entries_hold, with_items_at};
ghost use Rattle.asn1_outline.specs.Shapes.{shape_entry};
ghost use Rattle.asn1_outline.specs.declared.entry.Entry.{Entry};

use crate::entry::Entry;
use crate::entry_builder::{EntryBuilder, Found};
use asn1_blocks::contents::check_contents;
use asn1_blocks::parsed::PlacedHeader;
use asn1_blocks::read_loop::{Builder, Extent, out_of_memory, read_into};
use asn1_headers::error::{ASN1DecodeErr, LocatedErr};
use asn1_headers::header::HeaderCount;
use asn1_numbers::number::big_uint::BigUint;
use std::alloc::{AllocError, Global};

// Of so many octets at most it is guessed how many blocks they hold: one for 8, which few certificates have more than.
const RESERVED: usize = 4096;

// More blocks are not counted: no octets hold so many.
const MOST: usize = 1 << 62;

// The entries of a document.
pub fn list(alloc: Global, octets: &[u8], count: &mut HeaderCount) -> Result<Vec<Entry>, LocatedErr>
    requires room { count.old + length octets.now < 2 ^ 64 }
    ensures document { IfOk result (λ entries. (bs : Trees ℕ) × IsDocument octets.now bs
        × AreEntriesOf octets.now bs entries.items) }
    ensures refused { IfErr result (OutOfMemoryOrAt (FirstFaultAt octets.now)) }
    ensures counted { MatchResult result
        (λ _. (n : ℕ) × HeadersBegun octets.now n × (count.new ≡ count.old + n))
        (λ e. (e.error ≡ OutOfMemory)
        ⊎ ((n : ℕ) × HeadersBegun octets.now n × (count.new ≡ count.old + n))) }
    ensures grown { count.old ≤ count.new }
    ensures bounded { count.new ≤ count.old + length octets.now }
{
    match list_within(alloc, octets, usize::MAX, count) {
        Ok(Found::Entries(entries)) => Ok(entries),
        Ok(Found::Count(_)) => unreachable!(),
        Err(located) => Err(located),
    }
}

// The entries of a document, where there is room for them.
pub fn list_within(
    alloc: Global,
    octets: &[u8],
    room: usize,
    count: &mut HeaderCount,
) -> Result<Found, LocatedErr>
    requires room { count.old + length octets.now < 2 ^ 64 }
    ensures document { IfOk result (λ found. (bs : Trees ℕ) × (all : List Entry) × IsDocument octets.now bs
        × AreEntriesOf octets.now bs all × AreFound room all found) }
    ensures refused { IfErr result (OutOfMemoryOrAt (FirstFaultAt octets.now)) }
    ensures counted { MatchResult result
        (λ _. (n : ℕ) × HeadersBegun octets.now n × (count.new ≡ count.old + n))
        (λ e. (e.error ≡ OutOfMemory)
        ⊎ ((n : ℕ) × HeadersBegun octets.now n × (count.new ≡ count.old + n))) }
    ensures grown { count.old ≤ count.new }
    ensures bounded { count.new ≤ count.old + length octets.now }
{
    let Ok(builder) = EntryBuilder::with_room(alloc, octets.len(), room) else {
        return Err(out_of_memory(0));
    };
    let items = EntryItems { entry: 0, count: 0 };
    match read_into(alloc, octets, builder, items, count) {
        Ok((builder, _)) => found_of(builder, room),
        Err(located) => Err(located),
    }
}

// What was found by reading to the end: all entries, or how many there are.
pub fn found_of(builder: EntryBuilder, room: usize) -> Result<Found, LocatedErr>
    ensures found { IfOk result (λ found. (all : List Entry) → KeepsOf builder all → AreFound room all found) }
    ensures refused { IfErr result (λ e. e.error ≡ OutOfMemory) }
{
    let count = builder.count();
    let EntryBuilder { kept, beyond, .. } = builder;
    if beyond == 0 {
        return Ok(Found::Entries(kept));
    }
    if count > room {
        return Ok(Found::Count(count));
    }
    // not reached: a builder with this room leaves no entry out that there is room for
    Err(out_of_memory(0))
}

// The items of a frame: the index of the entry of its encoding, and how many blocks it has so far.
#[derive(Clone, Copy)]
pub struct EntryItems {
    pub entry: usize,
    pub count: usize,
}

impl EntryItems {
    // The frame has one block more.
    #[inline(always)]
    pub fn add(&mut self) -> Result<(), AllocError>
        ensures { OnOk result (self.new ≡ record self.old { count = self.old.count + 1 }) }
    {
        let Some(count) = self.count.checked_add(1) else {
            return Err(AllocError);
        };
        self.count = count;
        Ok(())
    }
}

impl Builder for EntryBuilder {
    type Items = EntryItems;

    ghost holds = { entries_hold };

    #[inline(always)]
    fn open(
        &mut self,
        _alloc: Global,
        octets: &[u8],
        header: &PlacedHeader,
        offset: usize,
        depth: usize,
    ) -> Result<EntryItems, AllocError> {
        let entry = self.count();
        let block = encoding_entry(octets, header, offset, entry, depth);
        self.add(block, octets.len())?;
        Ok(EntryItems { entry, count: 0 })
    }

    #[inline(always)]
    fn leaf(
        &mut self,
        alloc: Global,
        octets: &[u8],
        items: &mut EntryItems,
        header: PlacedHeader,
        offset: usize,
        depth: usize,
    ) -> Result<(), ASN1DecodeErr> {
        let entry = self.count();
        let block = encoding_entry(octets, &header, offset, entry, depth);
        check_contents(alloc, &header, &octets[header.start..header.end])?;
        self.add(block, octets.len())?;
        Ok(items.add()?)
    }

    #[inline(always)]
    fn close(
        &mut self,
        _alloc: Global,
        _octets: &[u8],
        _extent: Extent,
        items: EntryItems,
        parent: &mut EntryItems,
        _depth: usize,
    ) -> Result<(), AllocError> {
        self.set_items(items);
        parent.add()
    }

    #[cold]
    fn keep(
        &mut self,
        _alloc: Global,
        _octets: &[u8],
        _extent: Extent,
        items: EntryItems,
        parent: &mut EntryItems,
        _depth: usize,
    ) -> Result<(), AllocError> {
        self.cut(items.entry);
        parent.add()
    }
}

impl EntryBuilder {
    // No entries of a document of this size, of which so many may be kept.
    pub fn with_room(alloc: Global, size: usize, room: usize) -> Result<EntryBuilder, AllocError>
        ensures { IfOk result (λ builder. KeepsOf builder []) }
    {
        let guess = size.min(RESERVED) / 8;
        let kept = Vec::with_capacity(alloc, guess.min(room))?;
        Ok(EntryBuilder {
            kept,
            beyond: 0,
            room,
        })
    }

    // How many blocks there are.
    #[inline(always)]
    pub fn count(&self) -> usize
        ensures sum { result ≡ vec_len self.now.kept + self.now.beyond }
        ensures count { (all : List Entry) → KeepsOf self.now all → result ≡ length all }
        ensures small { result < 2 ^ 63 }
    {
        self.kept.len() + self.beyond
    }

    // Adds an entry of a document of this size.
    #[inline(always)]
    pub fn add(&mut self, block: Entry, size: usize) -> Result<(), AllocError>
        ensures { (all : List Entry) → KeepsOf self.old all → OnOk result (KeepsOf self.new (all ++ block ∷ [])) }
    {
        if !self.has_room(block.offset, size)? {
            return self.add_beyond();
        }
        self.kept.push_reserved(block);
        Ok(())
    }

    // Whether there is room for the entry of a block at the offset, in a document of this size.
    #[inline(always)]
    fn has_room(&mut self, offset: usize, size: usize) -> Result<bool, AllocError>
        ensures kept { self.new.kept.items ≡ self.old.kept.items }
        ensures beyond { self.new.beyond ≡ self.old.beyond }
        ensures room { IfOk result (λ yes. IsTrue yes → vec_len self.new.kept < vec_capacity self.new.kept) }
        ensures full { IfOk result (λ yes. yes ≡ false → self.new.room ≤ vec_len self.new.kept) }
    {
        if self.kept.len() < self.kept.capacity() {
            return Ok(true);
        }
        self.makes_room(offset, size)
    }

    // Makes room where there is none: for as many blocks in the rest of the document as in what was read, and an eighth
    // more, and for as many again as are kept at least, so that a long list is moved a few times. Where there is not
    // that much memory, an eighth more than are kept.
    #[cold]
    #[inline(never)]
    fn makes_room(&mut self, offset: usize, size: usize) -> Result<bool, AllocError>
        ensures kept { self.new.kept.items ≡ self.old.kept.items }
        ensures beyond { self.new.beyond ≡ self.old.beyond }
        ensures room { IfOk result (λ yes. IsTrue yes → vec_len self.new.kept < vec_capacity self.new.kept) }
        ensures full { IfOk result (λ yes. yes ≡ false → self.new.room ≤ vec_len self.new.kept) }
    {
        let kept = self.kept.len();
        if kept >= self.room {
            return Ok(false);
        }
        let rest = size.saturating_sub(offset);
        let blocks = rest.saturating_mul(kept) / offset.max(1);
        let guess = blocks.saturating_add(blocks / 8).max(kept).max(1);
        match self.kept.reserve_exact(guess.min(self.room - kept)) {
            Ok(()) => Ok(true),
            Err(_) => {
                let few = (kept / 8).max(1);
                self.kept.reserve_exact(few.min(self.room - kept))?;
                Ok(true)
            }
        }
    }

    // One block more, whose entry is not kept.
    #[cold]
    #[inline(never)]
    fn add_beyond(&mut self) -> Result<(), AllocError>
        requires { self.old.room ≤ vec_len self.old.kept }
        ensures kept { self.new.kept ≡ self.old.kept }
        ensures beyond { OnOk result (self.new.beyond ≡ suc self.old.beyond) }
    {
        if self.count() >= MOST {
            return Err(AllocError);
        }
        self.beyond += 1;
        Ok(())
    }

    // The entry of a frame, if it is kept, holds the frame's blocks, which are all those after it.
    #[inline(always)]
    pub fn set_items(&mut self, items: EntryItems)
        ensures { (all : List Entry) → KeepsOf self.old all
            → KeepsOf self.new (with_items_at all items.entry items.count) }
    {
        let next = self.count();
        if items.entry >= self.kept.len() {
            return;
        }
        let entry = &mut self.kept[items.entry];
        entry.items = items.count;
        entry.next = next;
    }

    // There are no blocks after the one with this entry.
    pub fn cut(&mut self, entry: usize)
        ensures { (all : List Entry) → KeepsOf self.old all → KeepsOf self.new (take (suc entry) all) }
    {
        let kept = self.kept.len();
        if entry < kept {
            self.kept.truncate(entry + 1);
            self.beyond = 0;
        } else if entry - kept < self.beyond {
            self.beyond = entry - kept + 1;
        }
    }
}

// The entry of an encoding, which holds no blocks so far.
#[inline(always)]
pub fn encoding_entry(
    _octets: &[u8],
    header: &PlacedHeader,
    offset: usize,
    entry: usize,
    depth: usize,
) -> Entry
    requires found { (limit : ℕ) × (HeaderFound _octets.now offset limit header.now)
        × (limit ≤ length _octets.now) }
    requires next { suc entry < 2 ^ 64 }
    ensures { IsBegun _octets.now offset entry depth result }
{
    header_entry(header, offset, entry, depth)
}

// The entry of a header that stands at the offset, whatever octets it was found in.
#[inline(always)]
pub fn header_entry(header: &PlacedHeader, offset: usize, entry: usize, depth: usize) -> Entry
    requires after { offset ≤ header.now.start }
    requires order { header.now.start ≤ header.now.end }
    requires next { suc entry < 2 ^ 64 }
    ensures { result ≡ shape_entry offset header.now 0 (suc entry) depth }
{
    Entry {
        class: header.class,
        constructed: header.constructed,
        tag: capped(&header.tag),
        offset,
        header: header.start - offset,
        contents: header.end - header.start,
        items: 0,
        next: entry + 1,
        depth,
    }
}

// The number, or the greatest u64.
pub fn capped(tag: &BigUint) -> u64
    ensures { IsCapped tag.now result }
{
    match tag.to_u64() {
        Some(n) => n,
        None => u64::MAX,
    }
}
