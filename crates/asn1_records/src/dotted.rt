// The components of contents octets of an OBJECT IDENTIFIER in decimal with points.
ghost use Rattle.std.specs.Prelude.{◌≡◌, ◌⊎◌, ◌+◌, ◌++◌, ◌<◌, ◌≤◌, ◌∷◌, [], ℕ, List, IfErr, IfNone, IfOk, IfSome, IsTrue, string_bytes};
ghost use Rattle.std.specs.List.{flat_map};
ghost use Rattle.asn1_leaves.specs.Contents.ObjectIdentifier.{ObjectIdentifierContents, ObjectIdentifierFault};
ghost use Rattle.asn1_leaves.specs.DottedDecimal.{dotted_decimal};
ghost use Rattle.asn1_leaves.specs.Inner.IdentifierForms.{numbers_after, pointed};
ghost use Rattle.asn1_numbers.specs.Decimal.{natural_numeral};
ghost use Rattle.simple_asn1.specs.Fault.{DecodeFault};
ghost use Rattle.asn1_records.specs.Room.{ArePut};
ghost use Rattle.asn1_records.specs.Status.{no_memory, status_of};

use crate::putting::put_front;
use crate::record::Outcome;
use crate::status::{NO_MEMORY, status_of_fault};
use arrayvec::ArrayVec;
use asn1_leaves::contents::object_identifier::{are_clearly_meant, first_two};
use asn1_leaves::oid;
use itoa::Buffer;
use simple_asn1::OID;
use std::alloc::{AllocError, Global};

// How many octets are put in decimal at most: the digits of one number take time that grows as the square of its
// octets, and a document is not to make its reader wait.
pub const MOST_IN_DECIMAL: usize = 1024;

// How many characters are read as components, and how many as a tag number: what is put in decimal is never longer.
pub const MOST_DOTTED: usize = 4097;

pub const MOST_DIGITS: usize = 3072;

// Room for the text of all but long identifiers.
type Text = ArrayVec<u8, 128>;

// Pushes the decimal numeral, if there is room.
#[inline(always)]
fn push_numeral(n: u64, text: &mut Text) -> bool
    ensures { IsTrue result → text.new.items ≡ text.old.items ++ natural_numeral n }
{
    if n < 10 {
        return push_digit(n, text);
    }
    if n < 100 {
        return push_two(n, text);
    }
    push_digits(n, text)
}

// Pushes a digit, if there is room.
#[inline(always)]
fn push_digit(n: u64, text: &mut Text) -> bool
    requires { n < 10 }
    ensures { IsTrue result → text.new.items ≡ text.old.items ++ (48 + n) ∷ [] }
{
    text.try_push(b'0' + n as u8).is_ok()
}

// Pushes a numeral of two digits, if there is room.
fn push_two(n: u64, text: &mut Text) -> bool
    requires two { 10 ≤ n }
    requires low { n < 100 }
    ensures { IsTrue result → text.new.items ≡ text.old.items ++ natural_numeral n }
{
    if !push_digit(n / 10, text) {
        return false;
    }
    push_digit(n % 10, text)
}

// Pushes a numeral of any number of digits, if there is room.
#[inline(never)]
fn push_digits(n: u64, text: &mut Text) -> bool
    ensures { IsTrue result → text.new.items ≡ text.old.items ++ natural_numeral n }
{
    let mut buffer = Buffer::new();
    text.try_extend_from_slice(buffer.format(n).as_bytes())
        .is_ok()
}

// Pushes a point and the decimal numeral, if there is room.
fn push_pointed(n: u64, text: &mut Text) -> bool
    ensures { IsTrue result → text.new.items ≡ text.old.items ++ pointed n }
{
    text.try_push(b'.').is_ok() && push_numeral(n, text)
}

// Pushes the numbers of the subidentifiers, each after a point, if each is a u64 and there is room.
fn push_subidentifiers(octets: &[u8], text: &mut Text) -> bool
    ensures { IsTrue result
        → text.new.items ≡ text.old.items ++ flat_map pointed (numbers_after 0 octets.now) }
{
    let mut number: u64 = 0;
    for octet in octets {
        if number >= 1 << 57 {
            return false;
        }
        number = number * 128 + (*octet % 128) as u64;
        if *octet < 128 {
            if !push_pointed(number, text) {
                return false;
            }
            number = 0;
        }
    }
    true
}

// Pushes the components in decimal, if contents octets mean components, each of which is a u64, and there is room.
fn push_dotted(contents: &[u8], text: &mut Text) -> bool
    ensures { IsTrue result → (components : List ℕ) × ObjectIdentifierContents components contents.now
        × (text.new.items ≡ text.old.items ++ dotted_decimal components) }
{
    if !are_clearly_meant(contents) {
        return false;
    }
    let Some((octet, rest)) = contents.split_first() else {
        unreachable!()
    };
    let (first, second) = first_two(*octet);
    push_numeral(first as u64, text)
        && push_pointed(second as u64, text)
        && push_subidentifiers(rest, text)
}

// Puts the components in decimal, if that takes no memory: each is a u64, and they are few.
fn put_small(contents: &[u8], room: &mut [u8]) -> Option<Outcome>
    ensures put { IfSome result (λ o. (components : List ℕ) × ObjectIdentifierContents components contents.now
        × ArePut (dotted_decimal components) room.old room.new o) }
    ensures none { IfNone result (room.new ≡ room.old) }
{
    let mut text = ArrayVec::new();
    if !push_dotted(contents, &mut text) {
        return None;
    }
    Some(put_front(text.as_slice(), room))
}

// The text of an object identifier.
fn dotted_of(alloc: Global, oid: &OID) -> Result<String, AllocError>
    ensures { IfOk result (λ text. string_bytes text ≡ dotted_decimal oid.now) }
{
    format!(in alloc; "{oid}")
}

// Puts the components in decimal, of any size; or the number of why there are none.
pub fn put_decimal(alloc: Global, contents: &[u8], room: &mut [u8]) -> Result<Outcome, u32>
    ensures put { IfOk result (λ o. (components : List ℕ) × ObjectIdentifierContents components contents.now
        × ArePut (dotted_decimal components) room.old room.new o) }
    ensures refused { IfErr result (λ status. (room.new ≡ room.old) × ((status ≡ no_memory)
        ⊎ ((fault : DecodeFault) × ObjectIdentifierFault contents.now fault × (status ≡ status_of fault)))) }
{
    if let Some(outcome) = put_small(contents, room) {
        return Ok(outcome);
    }
    let oid = match oid::read(alloc, contents) {
        Ok(oid) => oid,
        Err(e) => return Err(status_of_fault(&e)),
    };
    match dotted_of(alloc, &oid) {
        Ok(text) => Ok(put_front(text.as_bytes(), room)),
        Err(AllocError) => Err(NO_MEMORY),
    }
}
