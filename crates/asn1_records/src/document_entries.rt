// Entries of documents, or the number of their fault with its place.
ghost use Rattle.std.specs.Prelude.{◌≡◌, ◌≢◌, ℕ, List, IfErr, IfOk, MatchOption, OnOk};
ghost use Rattle.simple_asn1.specs.Canonical.{all_canonical};
ghost use Rattle.simple_asn1.specs.Fault.{fault_of};
ghost use Rattle.simple_asn1.specs.Grammar.{IsDocument};
ghost use Rattle.simple_asn1.specs.ReadBack.{CanonicalDocument};
ghost use Rattle.simple_asn1.specs.Tree.{Trees};
ghost use Rattle.asn1_outline.specs.Entries.{AreEntriesOf, IsOutline};
ghost use Rattle.asn1_outline.specs.declared.entry.Entry.{Entry};
ghost use Rattle.asn1_outline.specs.Listing.{AreFound, KeepsOf};
ghost use Rattle.asn1_outline.specs.Outlines.{entries_in, octets_in};
ghost use Rattle.asn1_outline.specs.Shapes.{HasShapes, Shapes, entries_of};
ghost use Rattle.asn1_writing.specs.Strict.{StrictFaultAt};
ghost use Rattle.asn1_records.specs.Answers.{IsRefusal, IsRefusedByHeader, IsRefusedStrict};
ghost use Rattle.asn1_records.specs.Room.{IsNoMemory, OrNoMemory};
ghost use Rattle.asn1_records.specs.Status.{status_of};
ghost use Rattle.asn1_headers.specs.Reading.{OutOfMemoryOrAt};
ghost use Rattle.asn1_headers.specs.declared.error.ASN1DecodeErr.TheVariants.{OutOfMemory};

use crate::status::{NO_MEMORY, status_of_fault};
use asn1_blocks::read_loop::read_into;
use asn1_headers::header::HeaderCount;
use asn1_outline::entry::Entry;
use asn1_outline::entry_builder::{EntryBuilder, Found};
use asn1_outline::header_walk::{check_headers, list_headers_within};
use asn1_outline::listing::{EntryItems, list_within};
use asn1_outline::outline::Outline;
use asn1_outline::strict::{check_canonical, check_octets};
use simple_asn1::{
    ASN1DecodeErr, LocatedErr, check_document, law_one_reading, rewrite_unless_canonical,
};
use std::alloc::Global;

// The number of a fault, and its place.
#[derive(Clone, Copy, Drop)]
pub struct Fault {
    pub status: u32,
    pub offset: usize,
}

pub const OUT_OF_MEMORY: Fault = Fault {
    status: NO_MEMORY,
    offset: 0,
};

// Whether octets are a document.
pub fn check(alloc: Global, octets: &[u8]) -> Result<(), Fault>
    ensures document { OnOk result ((bs : Trees ℕ) × IsDocument octets.now bs) }
    ensures fault { IfErr result (λ f. OrNoMemory (IsRefusal octets.now) f.status f.offset) }
{
    match check_document(alloc, octets) {
        Ok(()) => Ok(()),
        Err(located) => Err(fault_at(&located)),
    }
}

// The canonical octets of a document, where they are not found to be its own. Blocks are built up to a fault.
pub fn written_unless_canonical(alloc: Global, octets: &[u8]) -> Result<Option<Vec<u8>>, Fault>
    ensures document { IfOk result (λ written. (bs : Trees ℕ) × IsDocument octets.now bs
        × MatchOption written (octets.now ≡ all_canonical bs) (λ v. v.items ≡ all_canonical bs)) }
    ensures fault { IfErr result (λ f. OrNoMemory (IsRefusal octets.now) f.status f.offset) }
{
    match rewrite_unless_canonical(alloc, octets) {
        Ok(written) => Ok(written),
        Err(located) => Err(fault_at(&located)),
    }
}

// The number of an error, with its place where it is a fault of octets.
pub fn fault_at(located: &LocatedErr) -> Fault
    ensures memory { located.now.error ≡ OutOfMemory → IsNoMemory result.status result.offset }
    ensures fault { located.now.error ≢ OutOfMemory →
        (result.status ≡ status_of (fault_of located.now.error)) × (result.offset ≡ located.now.offset) }
{
    match located.error {
        ASN1DecodeErr::OutOfMemory => OUT_OF_MEMORY,
        _ => Fault {
            status: status_of_fault(&located.error),
            offset: located.offset,
        },
    }
}

// The outline of a document.
pub fn outline_of<'a>(alloc: Global, octets: &'a [u8]) -> Result<Outline<'a>, Fault>
    ensures document { IfOk result (λ outline. (bs : Trees ℕ) × IsDocument octets.now bs
        × AreEntriesOf octets.now bs (entries_in outline)) }
    ensures lent { IfOk result (λ outline. octets_in outline ≡ octets.now) }
    ensures fault { IfErr result (λ f. OrNoMemory (IsRefusal octets.now) f.status f.offset) }
{
    match Outline::from_der(alloc, octets) {
        Ok(outline) => Ok(outline),
        Err(located) => Err(fault_at(&located)),
    }
}

// The entries of a document, where there is room for so many, or else their number.
pub fn find_records(alloc: Global, octets: &[u8], room: usize) -> Result<Found, Fault>
    ensures document { IfOk result (λ found. (bs : Trees ℕ) × (all : List Entry) × IsDocument octets.now bs
        × AreEntriesOf octets.now bs all × AreFound room all found) }
    ensures fault { IfErr result (λ f. OrNoMemory (IsRefusal octets.now) f.status f.offset) }
{
    let mut count = HeaderCount::new();
    match list_within(alloc, octets, room, &mut count) {
        Ok(found) => Ok(found),
        Err(located) => Err(fault_at(&located)),
    }
}

// The entries of a document in canonical form, or their number.
pub fn find_records_strict(alloc: Global, octets: &[u8], room: usize) -> Result<Found, Fault>
    ensures document { IfOk result (λ found. (bs : Trees ℕ) × (all : List Entry) × CanonicalDocument octets.now bs
        × AreEntriesOf octets.now bs all × AreFound room all found) }
    ensures fault { IfErr result (λ f. OrNoMemory (IsRefusedStrict octets.now) f.status f.offset) }
{
    law_one_reading();
    let found = match find_records(alloc, octets, room) {
        Ok(found) => found,
        Err(fault) => return Err(fault),
    };
    match check_strict(alloc, octets, &found) {
        Ok(()) => Ok(found),
        Err(fault) => Err(fault),
    }
}

// Whether a document is in canonical form, of which this was found. Without its entries its octets are gone over.
// Blocks are built only where a quick look does not find that it is canonical.
fn check_strict(alloc: Global, octets: &[u8], found: &Found) -> Result<(), Fault>
    requires { (bs : Trees ℕ) × (all : List Entry) × IsDocument octets.now bs
        × AreEntriesOf octets.now bs all × ((room : ℕ) × AreFound room all found.now) }
    ensures document { OnOk result ((bs : Trees ℕ) × CanonicalDocument octets.now bs) }
    ensures fault { IfErr result (λ f. OrNoMemory (IsRefusedStrict octets.now) f.status f.offset) }
{
    match check_found(alloc, octets, found) {
        Ok(()) => Ok(()),
        Err(located) => Err(fault_at(&located)),
    }
}

fn check_found(alloc: Global, octets: &[u8], found: &Found) -> Result<(), LocatedErr>
    requires { (bs : Trees ℕ) × (all : List Entry) × IsDocument octets.now bs
        × AreEntriesOf octets.now bs all × ((room : ℕ) × AreFound room all found.now) }
    ensures canonical { OnOk result
        ((bs : Trees ℕ) → IsDocument octets.now bs → octets.now ≡ all_canonical bs) }
    ensures fault { IfErr result (OutOfMemoryOrAt (StrictFaultAt octets.now)) }
{
    match found {
        Found::Entries(entries) => check_canonical(alloc, octets, entries),
        Found::Count(_) => check_octets(alloc, octets),
    }
}

// A builder of the first entries of a document, of which it keeps so many.
pub fn read_first(alloc: Global, octets: &[u8], room: usize) -> Result<EntryBuilder, Fault>
    ensures document { IfOk result (λ builder. (all : List Entry) × IsOutline octets.now all × KeepsOf builder all) }
    ensures fault { IfErr result (λ f. OrNoMemory (IsRefusal octets.now) f.status f.offset) }
{
    let Ok(builder) = EntryBuilder::with_room(alloc, octets.len(), room) else {
        return Err(OUT_OF_MEMORY);
    };
    let mut count = HeaderCount::new();
    let items = EntryItems { entry: 0, count: 0 };
    match read_into(alloc, octets, builder, items, &mut count) {
        Ok((builder, _)) => Ok(builder),
        Err(located) => Err(fault_at(&located)),
    }
}

// The entries of encodings by their headers alone, where there is room for so many, or else their number.
pub fn find_headers(alloc: Global, octets: &[u8], room: usize) -> Result<Found, Fault>
    ensures document { IfOk result (λ found. (all : Shapes) × HasShapes octets.now all
        × AreFound room (entries_of 0 0 all) found) }
    ensures fault { IfErr result (λ f. OrNoMemory (IsRefusedByHeader octets.now) f.status f.offset) }
{
    match list_headers_within(alloc, octets, room) {
        Ok(found) => Ok(found),
        Err(located) => Err(fault_at(&located)),
    }
}

// Whether octets are encodings by their headers.
pub fn check_by_headers(alloc: Global, octets: &[u8]) -> Result<(), Fault>
    ensures document { OnOk result ((all : Shapes) × HasShapes octets.now all) }
    ensures fault { IfErr result (λ f. OrNoMemory (IsRefusedByHeader octets.now) f.status f.offset) }
{
    match check_headers(alloc, octets) {
        Ok(()) => Ok(()),
        Err(located) => Err(fault_at(&located)),
    }
}
