// The number of an INTEGER: that at an offset, and one that is put.
ghost use Rattle.std.specs.Prelude.{◌≡◌, pos};
ghost use Rattle.asn1_records.specs.Puts.{AnswersPutInteger};
ghost use Rattle.asn1_records.specs.Values.{AnswersInteger};

use crate::alone::universal_at;
use crate::number::int64_of;
use crate::putting::{nothing_put, put_front};
use crate::record::{IntegerAnswer, Outcome};
use crate::status::{DONE, NO_MEMORY, NO_SUCH_VALUE, OUT_OF_RANGE};
use asn1_headers::tags::INTEGER;
use simple_asn1::BigInt;
use std::alloc::Global;

fn no_integer(status: u32) -> IntegerAnswer
    ensures { (result.status ≡ status) × (result.value ≡ pos 0) }
{
    IntegerAnswer { status, value: 0 }
}

pub fn integer_at(alloc: Global, octets: &[u8], offset: usize) -> IntegerAnswer
    ensures { AnswersInteger octets.now offset result }
{
    let (tag, contents) = match universal_at(alloc, octets, offset) {
        Ok(found) => found,
        Err(status) => return no_integer(status),
    };
    if tag != INTEGER {
        return no_integer(NO_SUCH_VALUE);
    }
    match int64_of(contents) {
        Some(value) => IntegerAnswer {
            status: DONE,
            value,
        },
        None => no_integer(OUT_OF_RANGE),
    }
}

pub fn put_integer(alloc: Global, value: i64, room: &mut [u8]) -> Outcome
    ensures { AnswersPutInteger value room.old room.new result }
{
    match BigInt::from_i64(alloc, value) {
        Ok(n) => put_front(n.octets(), room),
        Err(_) => nothing_put(NO_MEMORY, 0),
    }
}
