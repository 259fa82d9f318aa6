// Blocks made by hand, of which some come from no document: what is written of one, what that is read as, and whether
// the block is faithful.
//
// The octets are orders, one after another, each of which puts a block at the end of a list; the last block is the one
// that is asked about. An order is an octet that says what is made, the number of its fields, and these, each an octet:
//
//     01 01 FF            a Boolean, false where the field is 00
//     02 02 01 00         an Integer of two's complement octets
//     03 03 07 FF 80      a BitString of 7 bits, and its octets
//     04 01 05            an OctetString
//     05 00               a Null
//     06 04 02 05 86 48   an ObjectIdentifier of components in base-128 forms: 2.5.840
//     0C 02 C3 A9         a UTF8String of characters in UTF-8; so the other strings, by their tags
//     17 0B 07 C8 05 15 0D 15 00 00 00 00 00
//                         a UTCTime: two octets of the year, month, day, hour, minute, second, four of
//                         nanoseconds; so with 18 a GeneralizedTime
//     1F 03 A0 00 05      an Unknown: an identifier octet for class and constructed bit, the tag number, contents
//                         octets
//     30 01 02            a Sequence of the last 2 blocks, in their place; with 31 a Set
//     3F 02 80 00         an Explicit around the last block, in its place: an octet for the class, the tag number
//
// Each block has the offset 7, which no octets are to hang on.
use crate::arguments::Argument;
use crate::identifiers::made as identifier;
use crate::refusal::{Answer, Refusal, refusal_of};
use jiff::civil::DateTime;
use simple_asn1::{ASN1Block, BigInt, BigUint, Document, decode_class, to_der};
use std::alloc::{AllocError, Global};
use std::slice;
use test_notation::{blocks_text, octets_text};

const OFFSET: usize = 7;

// The last block that orders make, if there is one and each of them can be carried out.
impl Argument for ASN1Block {
    fn read(alloc: Global, orders: &[u8]) -> Result<ASN1Block, Refusal> {
        match block_of(alloc, orders)? {
            Some(block) => Ok(block),
            None => Err(refusal_of(alloc, "no block")),
        }
    }

    fn is_same(&self, other: &ASN1Block) -> bool {
        self == other
    }
}

// What is written of the block and read of that, whether it survives this, and whether it is faithful.
pub fn survival(alloc: Global, block: &ASN1Block) -> Answer {
    let is_faithful = block.is_faithful(alloc)?;
    let text = match to_der(alloc, block) {
        Ok(octets) => read_back(alloc, block, &octets)?,
        Err(fault) => Refusal::from(fault).text(alloc)?,
    };
    Ok(format!(in alloc; "{text}, faithful {is_faithful}")?)
}

fn read_back(alloc: Global, block: &ASN1Block, octets: &[u8]) -> Answer {
    let written = octets_text(alloc, octets)?;
    let read = match Document::from_der(alloc, octets) {
        Ok(read) => {
            let survives = read.blocks() == slice::from_ref(block);
            let text = blocks_text(alloc, read.blocks())?;
            format!(in alloc; "read {text}, survives {survives}")?
        }
        Err(fault) => Refusal::from(fault).text(alloc)?,
    };
    Ok(format!(in alloc; "{written} {read}")?)
}

fn block_of(alloc: Global, orders: &[u8]) -> Result<Option<ASN1Block>, AllocError> {
    let mut blocks = Vec::new(alloc);
    let mut rest = orders;
    for _ in orders {
        let [order, size, after @ ..] = rest else {
            return Ok(blocks.pop());
        };
        let (fields, left) = after.split_at((*size as usize).min(after.len()));
        let Some(block) = carry_out(alloc, *order, fields, &mut blocks)? else {
            return Ok(None);
        };
        blocks.push(block)?;
        rest = left;
    }
    Ok(blocks.pop())
}

fn carry_out(
    alloc: Global,
    order: u8,
    fields: &[u8],
    blocks: &mut Vec<ASN1Block>,
) -> Result<Option<ASN1Block>, AllocError> {
    match order {
        0x30 => Ok(Some(ASN1Block::Sequence(OFFSET, items_of(fields, blocks)?))),
        0x31 => Ok(Some(ASN1Block::Set(OFFSET, items_of(fields, blocks)?))),
        0x3F => around(alloc, fields, blocks),
        0x1F => unknown(alloc, fields),
        0x17 => Ok(moment_of(fields).map(|moment| ASN1Block::UTCTime(OFFSET, moment))),
        0x18 => Ok(moment_of(fields).map(|moment| ASN1Block::GeneralizedTime(OFFSET, moment))),
        0x0C | 0x13 | 0x14 | 0x16 | 0x1C | 0x1E => string(alloc, order, fields),
        _ => leaf_without_text(alloc, order, fields),
    }
}

// The last blocks of the list, as many as the field says.
fn items_of(fields: &[u8], blocks: &mut Vec<ASN1Block>) -> Result<Vec<ASN1Block>, AllocError> {
    let count = match fields.first() {
        Some(count) => *count as usize,
        None => 0,
    };
    blocks.split_off(blocks.len().saturating_sub(count))
}

fn around(
    alloc: Global,
    fields: &[u8],
    blocks: &mut Vec<ASN1Block>,
) -> Result<Option<ASN1Block>, AllocError> {
    let [leading, tag] = fields else {
        return Ok(None);
    };
    let (Ok(class), Some(item)) = (decode_class(*leading), blocks.pop()) else {
        return Ok(None);
    };
    let tag = BigUint::from_u64(alloc, *tag as u64)?;
    let item = Box::new(alloc, item)?;
    Ok(Some(ASN1Block::Explicit(class, OFFSET, tag, item)))
}

fn unknown(alloc: Global, fields: &[u8]) -> Result<Option<ASN1Block>, AllocError> {
    let [leading, tag, contents @ ..] = fields else {
        return Ok(None);
    };
    let Ok(class) = decode_class(*leading) else {
        return Ok(None);
    };
    let constructed = *leading & 0x20 != 0;
    let tag = BigUint::from_u64(alloc, *tag as u64)?;
    let contents = contents.to_vec(alloc)?;
    Ok(Some(ASN1Block::Unknown(class, constructed, OFFSET, tag, contents)))
}

pub fn moment_of(fields: &[u8]) -> Option<DateTime> {
    let [y, z, month, day, hour, minute, second, a, b, c, d] = fields else {
        return None;
    };
    let year = i16::from_be_bytes([*y, *z]);
    let nanoseconds = i32::from_be_bytes([*a, *b, *c, *d]);
    let month = i8::try_from(*month).ok()?;
    let day = i8::try_from(*day).ok()?;
    let hour = i8::try_from(*hour).ok()?;
    let minute = i8::try_from(*minute).ok()?;
    let second = i8::try_from(*second).ok()?;
    DateTime::new(year, month, day, hour, minute, second, nanoseconds).ok()
}

fn string(alloc: Global, order: u8, fields: &[u8]) -> Result<Option<ASN1Block>, AllocError> {
    let Ok(characters) = str::from_utf8(fields) else {
        return Ok(None);
    };
    let text = String::from_str(alloc, characters)?;
    Ok(Some(match order {
        0x0C => ASN1Block::UTF8String(OFFSET, text),
        0x13 => ASN1Block::PrintableString(OFFSET, text),
        0x14 => ASN1Block::TeletexString(OFFSET, text),
        0x16 => ASN1Block::IA5String(OFFSET, text),
        0x1C => ASN1Block::UniversalString(OFFSET, text),
        _ => ASN1Block::BMPString(OFFSET, text),
    }))
}

fn leaf_without_text(
    alloc: Global,
    order: u8,
    fields: &[u8],
) -> Result<Option<ASN1Block>, AllocError> {
    Ok(match (order, fields) {
        (0x01, [value]) => Some(ASN1Block::Boolean(OFFSET, *value != 0)),
        (0x02, _) => {
            let number = BigInt::from_signed_bytes_be(alloc, fields)?;
            Some(ASN1Block::Integer(OFFSET, number))
        }
        (0x03, [bits, octets @ ..]) => {
            Some(ASN1Block::BitString(OFFSET, *bits as usize, octets.to_vec(alloc)?))
        }
        (0x04, _) => Some(ASN1Block::OctetString(OFFSET, fields.to_vec(alloc)?)),
        (0x05, _) => Some(ASN1Block::Null(OFFSET)),
        (0x06, _) => {
            let oid = identifier(alloc, fields)?;
            Some(ASN1Block::ObjectIdentifier(OFFSET, oid))
        }
        _ => None,
    })
}
