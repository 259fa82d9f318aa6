// Octets and records into room that the caller has.
ghost use Rattle.std.specs.Prelude.{◌≡◌, ◌≤◌, ℕ, List, length, map};
ghost use Rattle.asn1_outline.specs.declared.entry.Entry.{Entry};
ghost use Rattle.asn1_outline.specs.Listing.{AreFound};
ghost use Rattle.asn1_records.specs.Records.{block_of};
ghost use Rattle.asn1_records.specs.Room.{ArePut};
ghost use Rattle.asn1_records.specs.Status.{done, no_room};

use crate::record::{Block, Outcome, block_of};
use crate::status::{DONE, NO_ROOM};
use asn1_outline::entry::Entry;
use asn1_outline::entry_builder::Found;

// Puts copies of these at the front.
pub fn put_front<T: Copy>(values: &[T], room: &mut [T]) -> Outcome
    ensures { ArePut values.now room.old room.new result }
{
    let count = values.len();
    if count > room.len() {
        return not_enough(count);
    }
    room[..count].copy_from_slice(values);
    all_put(count)
}

// What has a record in C.
pub trait Recorded {
    type Record: Copy;

    ghost recorded: { Self → Self.Record };

    fn record(&self) -> Self::Record
        ensures { result ≡ recorded self.now };
}

impl Recorded for Entry {
    ghost use Rattle.asn1_records.specs.Records.{block_of};

    type Record = Block;

    ghost recorded = { block_of };

    fn record(&self) -> Block {
        block_of(self)
    }
}

// Puts the records of these at the front.
pub fn put_records<T: Recorded>(values: &[T], room: &mut [T::Record]) -> Outcome
    ensures { ArePut (map T.recorded values.now) room.old room.new result }
{
    let count = values.len();
    if room.len() < count {
        return not_enough(count);
    }
    for k in 0..count {
        room[k] = values[k].record();
    }
    all_put(count)
}

// Puts the records of all entries that were found, where there was room for at least so many.
pub fn put_found(found: &Found, room: &mut [Block]) -> Outcome
    ensures { (limit : ℕ) (all : List Entry) → length room.old ≤ limit → AreFound limit all found.now
        → ArePut (map block_of all) room.old room.new result }
{
    match found {
        Found::Entries(entries) => put_records(entries.as_slice(), room),
        Found::Count(count) => not_enough(*count),
    }
}

pub fn all_put(count: usize) -> Outcome
    ensures { (result.status ≡ done) × (result.count ≡ count) × (result.offset ≡ 0) }
{
    Outcome {
        status: DONE,
        offset: 0,
        count,
    }
}

// What a call answers that needs more room.
pub fn not_enough(count: usize) -> Outcome
    ensures { (result.status ≡ no_room) × (result.count ≡ count) × (result.offset ≡ 0) }
{
    Outcome {
        status: NO_ROOM,
        offset: 0,
        count,
    }
}

// What a call answers that puts nothing.
pub fn nothing_put(status: u32, offset: usize) -> Outcome
    ensures status { result.status ≡ status }
    ensures offset { result.offset ≡ offset }
    ensures count { result.count ≡ 0 }
{
    Outcome {
        status,
        offset,
        count: 0,
    }
}
