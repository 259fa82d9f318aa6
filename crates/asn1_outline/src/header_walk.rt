// Entries by headers alone: a loop over open frames as that of `read_into`, for another grammar.
ghost use Rattle.std.specs.Prelude.{◌≡◌, ◌∷◌, IfErr, IfOk, List, OnOk, length, reverse};
ghost use Rattle.asn1_headers.specs.Fault.{OutOfMemoryOr, fault_of};
ghost use Rattle.asn1_headers.specs.Reading.{OutOfMemoryOrAt};
ghost use Rattle.asn1_blocks.specs.Inner.ReaderSteps.{work_left};
ghost use Rattle.asn1_blocks.specs.Places.{HeaderFound};
ghost use Rattle.asn1_outline.specs.Listing.{AreFound, KeepsOf};
ghost use Rattle.asn1_outline.specs.Shapes.{AreEntriesOfShapes, FirstHeaderFaultAt, HasShapes, Shapes, entries_of};
ghost use Rattle.asn1_outline.specs.Walking.{AllOpen, HasWalkedOn, HasWalked, IsAtFault, IsWalking, Leads};
ghost use Rattle.asn1_outline.specs.declared.entry.Entry.{Entry};

use crate::entry::Entry;
use crate::entry_builder::{EntryBuilder, Found};
use crate::listing::{EntryItems, found_of, header_entry};
use asn1_blocks::parsed::{PlacedHeader, header_within};
use asn1_blocks::read_loop::{
    Extent, FrameKind, OpenFrame, Reader, Turn, enter, is_attempt, is_out_of_memory,
    is_read_inside, kind_of, out_of_memory,
};
use asn1_headers::error::{ASN1DecodeErr, LocatedErr};
use asn1_headers::header::HeaderCount;
use std::alloc::{AllocError, Global};

/// Checks whether octets are encodings by their headers (X.690 8.1.1), one or more, as [`Headers::from_der`] does, in
/// linear time. It takes memory for the encodings that are open at a time alone. Stack use does not grow with nesting.
///
/// # Errors
/// `OutOfMemory`; `EmptyBuffer` of no octets; else the first fault of a header, `Incomplete` or `LengthTooLarge`,
/// with the offset of its encoding.
///
/// [`Headers::from_der`]: crate::headers::Headers::from_der
pub fn check_headers(alloc: Global, octets: &[u8]) -> Result<(), LocatedErr>
    ensures document { OnOk result ((all : Shapes) × HasShapes octets.now all) }
    ensures fault { IfErr result (OutOfMemoryOrAt (FirstHeaderFaultAt octets.now)) }
{
    match list_headers_within(alloc, octets, 0) {
        Ok(_) => Ok(()),
        Err(located) => Err(located),
    }
}

// The entries of octets by their headers.
pub fn list_headers(alloc: Global, octets: &[u8]) -> Result<Vec<Entry>, LocatedErr>
    ensures walked { IfOk result (λ entries. AreEntriesOfShapes octets.now entries.items) }
    ensures refused { IfErr result (OutOfMemoryOrAt (FirstHeaderFaultAt octets.now)) }
{
    match list_headers_within(alloc, octets, usize::MAX) {
        Ok(Found::Entries(entries)) => Ok(entries),
        Ok(Found::Count(_)) => unreachable!(),
        Err(located) => Err(located),
    }
}

// The entries of octets by their headers, where there is room for them.
pub fn list_headers_within(alloc: Global, octets: &[u8], room: usize) -> Result<Found, LocatedErr>
    ensures walked { IfOk result (λ found. (all : Shapes) × HasShapes octets.now all
        × AreFound room (entries_of 0 0 all) found) }
    ensures refused { IfErr result (OutOfMemoryOrAt (FirstHeaderFaultAt octets.now)) }
{
    if octets.is_empty() {
        return Err(LocatedErr {
            error: ASN1DecodeErr::EmptyBuffer,
            offset: 0,
        });
    }
    let Ok(builder) = EntryBuilder::with_room(alloc, octets.len(), room) else {
        return Err(out_of_memory(0));
    };
    let mut reader = Reader {
        inner: OpenFrame {
            extent: Extent {
                kind: FrameKind::Whole,
                offset: 0,
                start: 0,
                end: octets.len(),
            },
            items: EntryItems { entry: 0, count: 0 },
        },
        outer: Vec::new(alloc),
        index: 0,
        builder,
        fault: ASN1DecodeErr::OutOfMemory,
    };
    'turns: loop {
        match take_turn(alloc, octets, &mut reader) {
            Turn::More => {}
            Turn::End => {
                let Reader { builder, .. } = reader;
                return found_of(builder, room);
            }
            Turn::Stop => {
                return Err(LocatedErr {
                    error: reader.fault,
                    offset: reader.index,
                });
            }
        }
    }
}

// Reads one header, or closes a frame at its end.
fn take_turn(alloc: Global, octets: &[u8], reader: &mut Reader<EntryBuilder, EntryItems>) -> Turn
    requires reading { IsWalking octets.now reader.old }
    ensures { HasWalked octets.now result reader.new
        (work_left (length octets.now) reader.old.index reader.old.outer.items) }
{
    if reader.index == reader.inner.extent.end {
        return match reader.outer.pop() {
            Some(parent) => {
                let step = close(octets, reader, parent);
                turn_of(reader, step)
            }
            None => Turn::End,
        };
    }
    let Extent { start, end, .. } = reader.inner.extent;
    let mut count = HeaderCount::new();
    match header_within(alloc, octets, start, end, reader.index, &mut count) {
        Ok(header) => {
            let step = take(octets, reader, header);
            turn_of(reader, step)
        }
        Err(error) => fail(octets, reader, error),
    }
}

// Takes the encoding with the header, at the offset reached.
fn take(
    octets: &[u8],
    reader: &mut Reader<EntryBuilder, EntryItems>,
    header: PlacedHeader,
) -> Result<(), AllocError>
    requires reading { IsWalking octets.now reader.old }
    requires found { HeaderFound octets.now reader.old.index reader.old.inner.extent.end header }
    ensures { OnOk result (HasWalkedOn octets.now reader.new
        (work_left (length octets.now) reader.old.index reader.old.outer.items)) }
{
    let offset = reader.index;
    let entry = reader.builder.count();
    let block = header_entry(&header, offset, entry, reader.outer.len());
    reader.builder.add(block, octets.len())?;
    let (start, end) = (header.start, header.end);
    if is_read_inside(&header) {
        let extent = Extent {
            kind: kind_of(&header),
            offset,
            start,
            end,
        };
        let items = EntryItems { entry, count: 0 };
        return enter(reader, OpenFrame { extent, items });
    }
    reader.inner.items.add()?;
    reader.index = end;
    Ok(())
}

// The innermost frame has ended: it is one more encoding of the frame around it.
fn close(
    _octets: &[u8],
    reader: &mut Reader<EntryBuilder, EntryItems>,
    parent: OpenFrame<EntryItems>,
) -> Result<(), AllocError>
    requires ended { reader.old.index ≡ reader.old.inner.extent.end }
    requires opened { (all : List Entry) × KeepsOf reader.old.builder all
        × AllOpen _octets.now reader.old.inner (parent ∷ reverse reader.old.outer.items) reader.old.index all }
    ensures { OnOk result (HasWalkedOn _octets.now reader.new
        (work_left (length _octets.now) reader.old.index (parent ∷ reader.old.outer.items))) }
{
    let items = reader.inner.items;
    reader.builder.set_items(items);
    reader.inner = parent;
    reader.inner.items.add()
}

// Memory that ran out ends reading; a fault goes to the innermost attempt.
#[cold]
#[inline(never)]
fn fail(octets: &[u8], reader: &mut Reader<EntryBuilder, EntryItems>, error: ASN1DecodeErr) -> Turn
    requires failed { OutOfMemoryOr (λ fault. IsAtFault octets.now reader.old fault reader.old.index
        (work_left (length octets.now) reader.old.index reader.old.outer.items)) error }
    ensures { HasWalked octets.now result reader.new
        (work_left (length octets.now) reader.old.index reader.old.outer.items) }
{
    if is_out_of_memory(&error) {
        reader.fault = error;
        return Turn::Stop;
    }
    refuse(octets, reader, error)
}

// A fault in the innermost frame drops the frames inside the innermost attempt, which stays as it came. Outside all
// attempts it is the result.
fn refuse(
    _octets: &[u8],
    reader: &mut Reader<EntryBuilder, EntryItems>,
    error: ASN1DecodeErr,
) -> Turn
    requires faulty { IsAtFault _octets.now reader.old (fault_of error) reader.old.index
        (work_left (length _octets.now) reader.old.index reader.old.outer.items) }
    ensures { HasWalked _octets.now result reader.new
        (work_left (length _octets.now) reader.old.index reader.old.outer.items) }
{
    while let Some(parent) = reader.outer.pop() {
        let attempt = is_attempt(&reader.inner.extent.kind);
        let (entry, end) = (reader.inner.items.entry, reader.inner.extent.end);
        reader.inner = parent;
        if attempt {
            reader.builder.cut(entry);
            reader.index = end;
            let step = reader.inner.items.add();
            return turn_of(reader, step);
        }
    }
    reader.fault = error;
    Turn::Stop
}

// Where a step leads that only memory can end.
fn turn_of(reader: &mut Reader<EntryBuilder, EntryItems>, step: Result<(), AllocError>) -> Turn
    ensures { Leads step reader.old result reader.new }
{
    match step {
        Ok(()) => Turn::More,
        Err(_) => {
            reader.fault = ASN1DecodeErr::OutOfMemory;
            Turn::Stop
        }
    }
}
