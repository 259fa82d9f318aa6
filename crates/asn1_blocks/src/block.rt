// The tree of blocks.
ghost use Rattle.std.specs.Prelude.{◌≡◌, ◌<◌, ◌^◌, SomeIff};
ghost use Rattle.asn1_blocks.specs.BlockParts.{tree_tag};
ghost use Rattle.asn1_blocks.specs.Inner.OwnContents.{known_octet};
ghost use Rattle.asn1_blocks.specs.View.{tree_class, tree_offset, view};

mod copy;
pub mod discard;
pub mod parts;
mod same;

use asn1_headers::header::ASN1Class;
use asn1_headers::tags::{
    BIT_STRING, BMP_STRING, BOOLEAN, GENERALIZED_TIME, IA5_STRING, INTEGER, NULL,
    OBJECT_IDENTIFIER, OCTET_STRING, PRINTABLE_STRING, SEQUENCE, SET, TELETEX_STRING,
    UNIVERSAL_STRING, UTC_TIME, UTF8_STRING,
};
use asn1_leaves::oid::OID;
use asn1_numbers::number::big_int::BigInt;
use asn1_numbers::number::big_uint::BigUint;
use jiff::civil::DateTime;

// Which blocks hold blocks one after another.
#[derive(Clone, Copy)]
pub enum GroupKind {
    Sequence,
    Set,
}

/// A block. The first `usize` of each variant is its offset, in bytes from the start of the document to its first
/// byte. It plays no part in equality or in writing.
///
/// Dropping a block recurses, with stack for each level of nesting, and so does making its `Debug` text.
/// [`discard`](crate::discard) drops blocks by a loop, and so does a [`Document`](crate::Document).
#[derive(Debug, Drop)]
pub enum ASN1Block {
    /// BOOLEAN (X.690 8.2): its value.
    Boolean(usize, bool),
    /// INTEGER (X.690 8.3): the number, of any size.
    Integer(usize, BigInt),
    /// BIT STRING (X.690 8.6): the number of bits, and the octets that hold them, the first bit the most significant of
    /// the first octet. The other bits of these octets are unused.
    BitString(usize, usize, Vec<u8>),
    /// OCTET STRING (X.690 8.7): its octets.
    OctetString(usize, Vec<u8>),
    /// NULL (X.690 8.8), which has no value.
    Null(usize),
    /// OBJECT IDENTIFIER (X.690 8.19): its components.
    ObjectIdentifier(usize, OID),
    /// UTF8String (X.690 8.23), whose octets are UTF-8.
    UTF8String(usize, String),
    /// PrintableString (X.690 8.23), an octet for each character.
    PrintableString(usize, String),
    /// TeletexString (X.690 8.23), whose octets are taken as UTF-8.
    TeletexString(usize, String),
    /// IA5String (X.690 8.23), an octet for each character, up to 255.
    IA5String(usize, String),
    /// UniversalString (X.690 8.23), whose octets are taken as UTF-8.
    UniversalString(usize, String),
    /// BMPString (X.690 8.23), whose octets are taken as UTF-8.
    BMPString(usize, String),
    /// UTCTime (X.690 8.25, 11.8): its moment, of the years 1950 to 2049 and a whole second.
    UTCTime(usize, DateTime),
    /// GeneralizedTime (X.690 8.25, 11.7): its moment, to the nanosecond.
    GeneralizedTime(usize, DateTime),
    /// SEQUENCE or SEQUENCE OF (X.690 8.9, 8.10): its items in order.
    Sequence(usize, Vec<ASN1Block>),
    /// SET or SET OF (X.690 8.11, 8.12): its items in the order of their octets.
    Set(usize, Vec<ASN1Block>),
    /// A constructed encoding of another class around one block, as explicit tagging makes it (X.690 8.14): class,
    /// offset, tag number, the block.
    Explicit(ASN1Class, usize, BigUint, Box<ASN1Block>),
    /// Any other encoding (X.690 8.1.1): class, whether it is constructed, offset, tag number, and its contents octets
    /// as they came. These are the primitive ones of other classes than Universal, the constructed ones whose contents
    /// are not exactly one block, and those of class Universal with a tag number other than 1 to 6, 12, 16, 17, 19, 20,
    /// 22 to 24, 28 and 30: 10, ENUMERATED, is one, and so are 18, NumericString, and 26, VisibleString.
    Unknown(ASN1Class, bool, usize, BigUint, Vec<u8>),
}

const _: () = prove!(size_of::<ASN1Block>() == 56);

impl ASN1Block {
    /// The class: the field of an `Explicit` or `Unknown` block, and `Universal` for all others.
    ///
    /// ```rust
    /// use simple_asn1::{ASN1Block, ASN1Class};
    ///
    /// // Whether a standard of its own gives the block its meaning, and not X.680.
    /// fn is_tagged(block: &ASN1Block) -> bool {
    ///     block.class() != ASN1Class::Universal
    /// }
    /// ```
    pub fn class(&self) -> ASN1Class
        ensures { result ≡ tree_class (view self.now) }
    {
        match self {
            ASN1Block::Explicit(class, _, _, _) | ASN1Block::Unknown(class, _, _, _, _) => *class,
            _ => ASN1Class::Universal,
        }
    }

    /// The offset of the block's first byte from the start of the document that it was read from, in bytes.
    ///
    /// ```rust
    /// use simple_asn1::{ASN1Block, encoding_at};
    ///
    /// // The octets of the block in its document.
    /// fn octets_of<'a>(document: &'a [u8], block: &ASN1Block) -> Option<&'a [u8]> {
    ///     encoding_at(document, block.offset())
    /// }
    /// ```
    pub fn offset(&self) -> usize
        ensures { result ≡ tree_offset (view self.now) }
    {
        match self {
            ASN1Block::Boolean(offset, _) => *offset,
            ASN1Block::Integer(offset, _) => *offset,
            ASN1Block::BitString(offset, _, _) => *offset,
            ASN1Block::OctetString(offset, _) => *offset,
            ASN1Block::Null(offset) => *offset,
            ASN1Block::UTF8String(offset, _) => *offset,
            ASN1Block::PrintableString(offset, _) => *offset,
            ASN1Block::TeletexString(offset, _) => *offset,
            ASN1Block::IA5String(offset, _) => *offset,
            ASN1Block::UniversalString(offset, _) => *offset,
            ASN1Block::BMPString(offset, _) => *offset,
            ASN1Block::ObjectIdentifier(offset, _) => *offset,
            ASN1Block::UTCTime(offset, _) => *offset,
            ASN1Block::GeneralizedTime(offset, _) => *offset,
            ASN1Block::Sequence(offset, _) => *offset,
            ASN1Block::Set(offset, _) => *offset,
            ASN1Block::Explicit(_, offset, _, _) => *offset,
            ASN1Block::Unknown(_, _, offset, _, _) => *offset,
        }
    }

    /// The tag number (X.690 8.1.2.2): the one of X.680 table 1, or the field of an `Explicit` or `Unknown` block.
    /// `None` only for a field of 2^64 or more.
    ///
    /// ```rust
    /// use simple_asn1::{ASN1Block, ASN1Class};
    ///
    /// // Whether the block is tagged [0].
    /// fn is_tagged_0(block: &ASN1Block) -> bool {
    ///     block.class() == ASN1Class::ContextSpecific && block.tag() == Some(0)
    /// }
    /// ```
    pub fn tag(&self) -> Option<u64>
        ensures { SomeIff result (tree_tag (view self.now) < 2 ^ 64) (tree_tag (view self.now)) }
    {
        match self {
            ASN1Block::Boolean(_, _) => Some(BOOLEAN),
            ASN1Block::Integer(_, _) => Some(INTEGER),
            ASN1Block::BitString(_, _, _) => Some(BIT_STRING),
            ASN1Block::OctetString(_, _) => Some(OCTET_STRING),
            ASN1Block::Null(_) => Some(NULL),
            ASN1Block::ObjectIdentifier(_, _) => Some(OBJECT_IDENTIFIER),
            ASN1Block::UTF8String(_, _) => Some(UTF8_STRING),
            ASN1Block::Sequence(_, _) => Some(SEQUENCE),
            ASN1Block::Set(_, _) => Some(SET),
            ASN1Block::PrintableString(_, _) => Some(PRINTABLE_STRING),
            ASN1Block::TeletexString(_, _) => Some(TELETEX_STRING),
            ASN1Block::IA5String(_, _) => Some(IA5_STRING),
            ASN1Block::UTCTime(_, _) => Some(UTC_TIME),
            ASN1Block::GeneralizedTime(_, _) => Some(GENERALIZED_TIME),
            ASN1Block::UniversalString(_, _) => Some(UNIVERSAL_STRING),
            ASN1Block::BMPString(_, _) => Some(BMP_STRING),
            ASN1Block::Explicit(_, _, tag, _) | ASN1Block::Unknown(_, _, _, tag, _) => tag.to_u64(),
        }
    }
}

// The identifier octet of a block whose tag has a rule.
#[inline(always)]
pub fn known_octet(b: &ASN1Block) -> u8
    ensures { result ≡ known_octet (view b.now) }
{
    match b {
        ASN1Block::Boolean(_, _) => 0x01,
        ASN1Block::Integer(_, _) => 0x02,
        ASN1Block::BitString(_, _, _) => 0x03,
        ASN1Block::OctetString(_, _) => 0x04,
        ASN1Block::Null(_) => 0x05,
        ASN1Block::ObjectIdentifier(_, _) => 0x06,
        ASN1Block::UTF8String(_, _) => 0x0C,
        ASN1Block::PrintableString(_, _) => 0x13,
        ASN1Block::TeletexString(_, _) => 0x14,
        ASN1Block::IA5String(_, _) => 0x16,
        ASN1Block::UTCTime(_, _) => 0x17,
        ASN1Block::GeneralizedTime(_, _) => 0x18,
        ASN1Block::UniversalString(_, _) => 0x1C,
        ASN1Block::BMPString(_, _) => 0x1E,
        ASN1Block::Sequence(_, _) => 0x30,
        ASN1Block::Set(_, _) => 0x31,
        ASN1Block::Explicit(_, _, _, _) | ASN1Block::Unknown(_, _, _, _, _) => 0,
    }
}
