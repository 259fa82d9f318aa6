// The bits of a BIT STRING at an offset; BOOLEAN and BIT STRING that are put.
ghost use Rattle.std.specs.Prelude.{◌≡◌, ◌+◌, ◌≤◌, ℕ, List, length};
ghost use Rattle.simple_asn1.specs.Places.{EncodingAt};
ghost use Rattle.asn1_records.specs.Puts.{AnswersPutBits, AnswersPutBoolean};
ghost use Rattle.asn1_records.specs.Values.{AnswersBits};

use crate::alone::universal_at;
use crate::putting::{nothing_put, put_front};
use crate::raw::put_raw_bits;
use crate::record::{BitStringAnswer, Outcome};
use crate::status::{DONE, NO_SUCH_VALUE, OUT_OF_RANGE, status_of_fault};
use arrayvec::ArrayVec;
use asn1_headers::tags::BIT_STRING;
use asn1_leaves::contents::{bit_string, boolean};
use simple_asn1::encoding_at;
use std::alloc::Global;

fn no_bits(status: u32) -> BitStringAnswer
    ensures status { result.status ≡ status }
    ensures fields { (result.start ≡ 0) × (result.size ≡ 0) × (result.bits ≡ 0) }
{
    BitStringAnswer {
        status,
        start: 0,
        size: 0,
        bits: 0,
    }
}

// Where the encoding at an offset ends.
fn end_at(octets: &[u8], offset: usize) -> usize
    requires { (x : List ℕ) × EncodingAt octets.now offset x }
    ensures end { (x : List ℕ) → EncodingAt octets.now offset x → result ≡ offset + length x }
    ensures within { result ≤ length octets.now }
{
    match encoding_at(octets, offset) {
        Some(encoding) => offset + encoding.len(),
        None => unreachable!(),
    }
}

// The number of bits, and where the octets stand that hold them: they are the last of the encoding.
pub fn bits_at(alloc: Global, octets: &[u8], offset: usize) -> BitStringAnswer
    ensures { AnswersBits octets.now offset result }
{
    let (tag, contents) = match universal_at(alloc, octets, offset) {
        Ok(found) => found,
        Err(status) => return no_bits(status),
    };
    if tag != BIT_STRING {
        return no_bits(NO_SUCH_VALUE);
    }
    match bit_string::read(alloc, contents) {
        Ok((bits, held)) => BitStringAnswer {
            status: DONE,
            start: end_at(octets, offset) - held.len(),
            size: held.len(),
            bits,
        },
        Err(e) => no_bits(status_of_fault(&e)),
    }
}

// Puts the contents octet of a BOOLEAN.
pub fn put_boolean(value: u8, room: &mut [u8]) -> Outcome
    ensures { AnswersPutBoolean value room.old room.new result }
{
    let mut contents: ArrayVec<u8, 1> = ArrayVec::new();
    boolean::push(value != 0, &mut contents);
    put_front(contents.as_slice(), room)
}

// Puts the contents octets of a BIT STRING, whose bits these octets hold.
pub fn put_bits(alloc: Global, octets: &[u8], bits: usize, room: &mut [u8]) -> Outcome
    ensures { AnswersPutBits octets.now bits room.old room.new result }
{
    if bits.div_ceil(8) != octets.len() {
        return nothing_put(OUT_OF_RANGE, 0);
    }
    put_raw_bits(alloc, octets, bits, room)
}
