// The values of contents octets, as data: each is worked out once, when its piece is read.
ghost use Rattle.std.specs.Prelude.{IfErr, IfOk};
ghost use Rattle.asn1_headers.specs.Fault.{OutOfMemoryOr};
ghost use Rattle.asn1_leaves.specs.Contents.BitString.{BitStringContents, BitStringFault};

use crate::{Address, Characters, Time};
use asn1_headers::error::ASN1DecodeErr;
use asn1_leaves::contents::bit_string;
use asn1_leaves::oid::OID;
use asn1_numbers::number::big_int::BigInt;
use std::alloc::Global;

// How many octets of a string, or of another class, are shown as text at least: fewer may well be a number.
pub const LEAST_TEXT: usize = 5;

// The value of the contents octets of a primitive encoding in which nothing is wrong. Under a tag of another class than
// Universal it is that of the type which a table says, if that is known.
#[derive(Drop)]
pub enum LeafValue {
    // of a BOOLEAN
    Boolean(bool),
    // of an INTEGER or an ENUMERATED
    Integer(BigInt),
    // of a BIT STRING
    Bits(Bits),
    // of an OCTET STRING: these octets, and their text where they may be some
    Octets(Option<String>),
    // of a NULL
    Null,
    // of an OBJECT IDENTIFIER
    Identifier(Identifier),
    // the characters of a string that the library reads
    Text(String),
    // the characters of a string that the library takes for UTF-8, where X.690 has this form
    WideText(Characters, String),
    // the characters of a string that the library does not read
    OtherText(String),
    // the value of a REAL and its like, as X.680 or ISO 8601 writes it
    Notation(String),
    // of a UTCTime or a GeneralizedTime
    Moment(Time),
    // of one in a form of BER that is none of DER
    BerTime(Time),
    // of another type of class Universal: these octets, and their text where they may be some
    Other(Option<String>),
    // of another class, of an unknown type, or none of its type: these octets, and their text where they may be some
    Tagged(Option<String>),
    // of another class, octets that are an address
    Address(Address),
    // none, in octets that are no characters of the type; and their text where they may be some
    NoText(Option<String>),
}

impl LeafValue {
    // The object identifier that it is, if it is one.
    pub fn identifier(&self) -> Option<&Identifier> {
        match self {
            LeafValue::Identifier(identifier) => Some(identifier),
            _ => None,
        }
    }
}

// The value of a BIT STRING.
#[derive(Drop)]
pub struct Bits {
    // how many bits there are
    pub count: usize,
    // how many more the octets have
    pub unused: usize,
    pub octets: Vec<u8>,
}

// The value of an OBJECT IDENTIFIER.
#[derive(Drop)]
pub struct Identifier {
    pub components: OID,
    // the components in decimal with points between them, if each is below 2^128
    pub dotted: Option<String>,
}

// The value of the contents octets of a BIT STRING.
pub fn bits_of(alloc: Global, contents: &[u8]) -> Result<Bits, ASN1DecodeErr>
    ensures found { IfOk result (λ bits. BitStringContents bits.count bits.octets.items contents.now) }
    ensures refused { IfErr result (OutOfMemoryOr (BitStringFault contents.now)) }
{
    let (count, octets) = bit_string::read(alloc, contents)?;
    Ok(Bits {
        count,
        unused: octets.len().saturating_mul(8).saturating_sub(count),
        octets,
    })
}
