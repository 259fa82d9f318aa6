// The components of an OBJECT IDENTIFIER in decimal with points: of that at an offset, and of one that is put.
ghost use Rattle.std.specs.Prelude.{◌≡◌, ◌≢◌, ◌⊎◌};
ghost use Rattle.asn1_headers.specs.declared.error.ASN1EncodeErr.TheVariants.{OutOfMemory};
ghost use Rattle.asn1_records.specs.Puts.{AnswersPutIdentifier};
ghost use Rattle.asn1_records.specs.Status.{no_memory, out_of_range};
ghost use Rattle.asn1_records.specs.Values.{AnswersIdentifier};

use crate::alone::universal_at;
use crate::dotted::{MOST_DOTTED, MOST_IN_DECIMAL, put_decimal};
use crate::putting::{nothing_put, put_front};
use crate::record::Outcome;
use crate::status::{NO_MEMORY, NO_SUCH_VALUE, NOT_OID, OUT_OF_RANGE, TOO_LONG};
use asn1_headers::tags::OBJECT_IDENTIFIER;
use simple_asn1::{ASN1EncodeErr, OID};
use std::alloc::Global;

pub fn identifier_at(alloc: Global, octets: &[u8], offset: usize, room: &mut [u8]) -> Outcome
    ensures { AnswersIdentifier octets.now offset room.old room.new result }
{
    let (tag, contents) = match universal_at(alloc, octets, offset) {
        Ok(found) => found,
        Err(status) => return nothing_put(status, offset),
    };
    if tag != OBJECT_IDENTIFIER {
        return nothing_put(NO_SUCH_VALUE, offset);
    }
    if contents.len() > MOST_IN_DECIMAL {
        return nothing_put(TOO_LONG, offset);
    }
    match put_decimal(alloc, contents, room) {
        Ok(outcome) => outcome,
        Err(status) => nothing_put(status, offset),
    }
}

// The number of why components have no contents octets.
fn status_of_unwritten(e: &ASN1EncodeErr) -> u32
    ensures { ((e.now ≡ OutOfMemory) × (result ≡ no_memory))
        ⊎ ((e.now ≢ OutOfMemory) × (result ≡ out_of_range)) }
{
    match e {
        ASN1EncodeErr::OutOfMemory => NO_MEMORY,
        _ => OUT_OF_RANGE,
    }
}

// Puts the contents octets of the OBJECT IDENTIFIER that the text is of, if it is short enough.
pub fn put_identifier(alloc: Global, text: &[u8], room: &mut [u8]) -> Outcome
    ensures { AnswersPutIdentifier text.now room.old room.new result }
{
    if text.len() > MOST_DOTTED {
        return nothing_put(TOO_LONG, 0);
    }
    let Ok(text) = str::from_utf8(text) else {
        return nothing_put(NOT_OID, 0);
    };
    let oid = match OID::from_text(alloc, text) {
        Ok(Some(oid)) => oid,
        Ok(None) => return nothing_put(NOT_OID, 0),
        Err(_) => return nothing_put(NO_MEMORY, 0),
    };
    match oid.as_raw(alloc) {
        Ok(contents) => put_front(&contents, room),
        Err(e) => nothing_put(status_of_unwritten(&e), 0),
    }
}
