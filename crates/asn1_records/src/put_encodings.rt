// Encodings as they are described: of records, and of one with a tag number of any size.
ghost use Rattle.std.specs.Prelude.{◌≡◌, IfOk};
ghost use Rattle.simple_asn1.specs.Canonical.{shortest_encoding};
ghost use Rattle.asn1_records.specs.Raw.{AnswersEncoding, AnswersSpell};

use crate::dotted::MOST_DIGITS;
use crate::putting::{nothing_put, put_front};
use crate::record::{Block, Outcome};
use crate::spelling::{class_of, spell};
use crate::status::{BAD_RECORD, NO_MEMORY, TOO_LONG};
use simple_asn1::{ASN1Class, BigUint, encode_len, encode_tag};
use std::alloc::{AllocError, Global};

// Puts the octets that the records spell.
pub fn put_spelled(alloc: Global, octets: &[u8], records: &[Block], room: &mut [u8]) -> Outcome
    ensures { AnswersSpell octets.now records.now room.old room.new result }
{
    match spell(alloc, octets, records, false) {
        Ok(spelled) => put_front(spelled.octets.as_slice(), room),
        Err(fault) => nothing_put(fault.status, fault.offset),
    }
}

// The shortest encoding of the contents octets.
fn encoding_of(
    alloc: Global,
    class: ASN1Class,
    constructed: bool,
    tag: &BigUint,
    contents: &[u8],
) -> Result<Vec<u8>, AllocError>
    ensures { IfOk result (λ v. v.items ≡ shortest_encoding class constructed tag.now contents.now) }
{
    let mut octets = encode_tag(alloc, class, constructed, tag)?;
    let len = encode_len(alloc, contents.len())?;
    octets.extend_from_slice(&len)?;
    octets.extend_from_slice(contents)?;
    Ok(octets)
}

// Puts the encoding of the contents octets with the tag number in decimal, if it is short enough.
pub fn put_encoding(
    alloc: Global,
    class: u8,
    constructed: u8,
    numeral: &[u8],
    contents: &[u8],
    room: &mut [u8],
) -> Outcome
    ensures { AnswersEncoding class constructed numeral.now contents.now room.old room.new result }
{
    let Some(class) = class_of(class) else {
        return nothing_put(BAD_RECORD, 0);
    };
    if numeral.len() > MOST_DIGITS {
        return nothing_put(TOO_LONG, 0);
    }
    let Ok(numeral) = str::from_utf8(numeral) else {
        return nothing_put(BAD_RECORD, 0);
    };
    let tag = match BigUint::from_text(alloc, numeral) {
        Ok(Some(tag)) => tag,
        Ok(None) => return nothing_put(BAD_RECORD, 0),
        Err(AllocError) => return nothing_put(NO_MEMORY, 0),
    };
    match encoding_of(alloc, class, constructed > 0, &tag, contents) {
        Ok(octets) => put_front(&octets, room),
        Err(AllocError) => nothing_put(NO_MEMORY, 0),
    }
}
