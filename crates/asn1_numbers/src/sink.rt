// Where octets are pushed, one after another: a vector that takes them, or octets that they are
// compared with. So that writing and comparing are one code.
ghost use Rattle.std.specs.Prelude.{◌≡◌, ◌↔◌, ℕ, ◌+◌, ◌++◌, ◌∷◌, ◌≤◌, [], List, length, vec_len, vec_capacity, IsTrue};

use arrayvec::ArrayVec;

pub trait Sink {
    // How many octets there is room for.
    ghost room: { Self → ℕ };

    // The octets were pushed to the first, which has become the second.
    ghost pushes: { Self → List ℕ → Self → Type 0 };

    ghost none: { (a : Self) → pushes a [] a };

    ghost more: { (a b c : Self) (xs ys : List ℕ)
        → pushes a xs b → pushes b ys c → pushes a (xs ++ ys) c };

    ghost room_after: { (a b : Self) (xs : List ℕ) → pushes a xs b → room a ≤ room b + length xs };

    fn push_octets(&mut self, octets: &[u8])
        requires { length octets.now ≤ room self.old }
        ensures { pushes self.old octets.now self.new };

    fn push_octet(&mut self, octet: u8)
        requires { 1 ≤ room self.old }
        ensures { pushes self.old (octet ∷ []) self.new };
}

// Puts the octets at the end, where there is room for them.
fn append(octets: &[u8], out: &mut Vec<u8>)
    requires { vec_len out.old + length octets.now ≤ vec_capacity out.old }
    ensures appended { out.new.items ≡ out.old.items ++ octets.now }
    ensures capacity { vec_capacity out.old ≤ vec_capacity out.new }
{
    match out.extend_from_slice(octets) {
        Ok(()) => {}
        Err(_) => unreachable!(),
    }
}

// Pushes at the end of a vector, without growing it.
impl Sink for Vec<u8> {
    ghost use Rattle.asn1_numbers.specs.Inner.Sinks.{vec_pushes, vec_room, vec_pushes_none, vec_pushes_more, vec_room_after};

    ghost room = { vec_room };

    ghost pushes = { vec_pushes };

    ghost none = { vec_pushes_none };

    ghost more = { vec_pushes_more };

    ghost room_after = { vec_room_after };

    fn push_octets(&mut self, octets: &[u8]) {
        append(octets, self);
    }

    fn push_octet(&mut self, octet: u8) {
        self.push_reserved(octet);
    }
}

// Pushes at the end of an array vector, in the room that it has.
impl<const N: usize> Sink for ArrayVec<u8, N> {
    ghost use Rattle.asn1_numbers.specs.Inner.ArraySinks.{array_pushes, array_room, array_pushes_none, array_pushes_more, array_room_after};

    ghost room = { array_room N };

    ghost pushes = { array_pushes };

    ghost none = { array_pushes_none };

    ghost more = { array_pushes_more };

    ghost room_after = { array_room_after N };

    fn push_octets(&mut self, octets: &[u8]) {
        let _within_capacity = self.len();
        self.try_extend_from_slice(octets).unwrap();
    }

    fn push_octet(&mut self, octet: u8) {
        self.push(octet);
    }
}

// Octets that are compared with those that are pushed: what is left of them, and whether all so far
// were the same.
#[derive(Drop)]
pub struct Comparison<'a> {
    pub rest: &'a [u8],
    pub same: bool,
}

impl<'a> Sink for Comparison<'a> {
    ghost use Rattle.asn1_numbers.specs.Inner.Comparisons.{compared, left, compared_none, compared_more, left_after};

    ghost room = { left };

    ghost pushes = { compared };

    ghost none = { compared_none };

    ghost more = { compared_more };

    ghost room_after = { left_after };

    fn push_octets(&mut self, octets: &[u8]) {
        let (front, rest) = self.rest.split_at(octets.len());
        self.same = self.same && front == octets;
        self.rest = rest;
    }

    fn push_octet(&mut self, octet: u8) {
        let (front, rest) = self.rest.split_at(1);
        self.same = self.same && is_octet(front, octet);
        self.rest = rest;
    }
}

// Whether what is one octet is this one.
fn is_octet(one: &[u8], octet: u8) -> bool
    requires { length one.now ≡ 1 }
    ensures { IsTrue result ↔ (one.now ≡ octet ∷ []) }
{
    one[0] == octet
}
