// Octets that are written from the last to the first.
ghost use Rattle.std.specs.Prelude.{◌≡◌, ◌+◌, ◌≤◌, ◌<◌, ◌++◌, ◌∷◌, [], length, OnOk};

use std::alloc::{AllocError, Global};
use std::marker::Model;

// The octets stand at the end of the room, from `start` on.
#[derive(Drop)]
pub struct Prepender {
    room: Vec<u8>,
    start: usize,
    // How much room is made at first.
    first_room: usize,
}

impl Model for Prepender {
    ghost use Rattle.std.specs.Prelude.{◌≤◌, drop, length};
    ghost use Rattle.asn1_records.specs.Inner.Prepended.{Prepended};

    ghost Value = { Prepended };

    ghost view = { λ p. record { octets = drop p.start p.room.items; space = p.start } };

    ghost invariant = { λ p. p.start ≤ length p.room.items };
}

impl Prepender {
    // No octets yet, and no memory is taken: the first room that is made has this size.
    pub fn new(alloc: Global, first_room: usize) -> Prepender
        ensures { result.octets ≡ [] }
    {
        Prepender {
            room: Vec::new(alloc),
            start: 0,
            first_room,
        }
    }

    // How many there are.
    #[inline(always)]
    pub fn len(&self) -> usize
        ensures { result ≡ length self.now.octets }
    {
        self.room.len() - self.start
    }

    #[inline(always)]
    pub fn as_slice(&self) -> &[u8]
        ensures { result.now ≡ self.now.octets }
    {
        &self.room[self.start..]
    }

    // Makes space for so many more.
    #[inline(always)]
    pub fn reserve(&mut self, alloc: Global, count: usize) -> Result<(), AllocError>
        ensures space { OnOk result (count ≤ self.new.space) }
        ensures kept { self.new.octets ≡ self.old.octets }
    {
        if count <= self.start {
            return Ok(());
        }
        self.grow(alloc, count)
    }

    // The room is doubled at least, so that all the copying takes linear time.
    #[cold]
    #[inline(never)]
    fn grow(&mut self, alloc: Global, count: usize) -> Result<(), AllocError>
        ensures space { OnOk result (count ≤ self.new.space) }
        ensures kept { self.new.octets ≡ self.old.octets }
    {
        let used = self.room.len() - self.start;
        let Some(least) = used.checked_add(count) else {
            return Err(AllocError);
        };
        let size = least
            .max(self.room.len().saturating_mul(2))
            .max(self.first_room);
        let mut room = vec![in alloc; 0; size]?;
        let start = size - used;
        room[start..].copy_from_slice(&self.room[self.start..]);
        self.room = room;
        self.start = start;
        Ok(())
    }

    // Puts these before the others.
    #[inline(always)]
    pub fn prepend(&mut self, octets: &[u8])
        requires { length octets.now ≤ self.old.space }
        ensures octets { self.new.octets ≡ octets.now ++ self.old.octets }
        ensures space { self.new.space + length octets.now ≡ self.old.space }
    {
        let end = self.start;
        let start = end - octets.len();
        self.room[start..end].copy_from_slice(octets);
        self.start = start;
    }

    // Puts the octet before the others.
    #[inline(always)]
    pub fn prepend_octet(&mut self, octet: u8)
        requires { 0 < self.old.space }
        ensures octets { self.new.octets ≡ octet ∷ self.old.octets }
        ensures space { self.new.space + 1 ≡ self.old.space }
    {
        self.start -= 1;
        self.room[self.start] = octet;
    }
}
