// The record of a block.
ghost use Rattle.std.specs.Prelude.{◌≡◌};
ghost use Rattle.asn1_records.specs.Records.{block_of};

use crate::header_record::class_number_of;
use asn1_outline::entry::Entry;
use std::mem::size_of;

/// A block as C sees it. `simple_asn1.h` describes the fields.
#[repr(C)]
#[derive(Clone, Copy)]
pub struct Block {
    pub tag: u64,
    pub offset: usize,
    pub header: usize,
    pub contents: usize,
    pub items: usize,
    pub next: usize,
    pub depth: usize,
    pub tag_class: u8,
    pub constructed: u8,
}

/// What a call returns: a status, the offset of the block at fault, and how many records or octets were written, or
/// are needed.
#[repr(C)]
#[derive(Clone, Copy)]
pub struct Outcome {
    pub status: u32,
    pub offset: usize,
    pub count: usize,
}

/// An integer, or why there is none.
#[repr(C)]
#[derive(Clone, Copy)]
pub struct IntegerAnswer {
    pub status: u32,
    pub value: i64,
}

/// A BIT STRING, or why there is none. `simple_asn1.h` describes the fields.
#[repr(C)]
#[derive(Clone, Copy)]
pub struct BitStringAnswer {
    pub status: u32,
    pub start: usize,
    pub size: usize,
    pub bits: usize,
}

/// A moment, or why there is none.
#[repr(C)]
#[derive(Clone, Copy)]
pub struct MomentAnswer {
    pub status: u32,
    pub year: i32,
    pub month: u32,
    pub day: u32,
    pub hour: u32,
    pub minute: u32,
    pub second: u32,
    pub nanosecond: u32,
}

/// What was signed, its algorithm and the signature.
#[repr(C)]
#[derive(Clone, Copy)]
pub struct SignedAnswer {
    pub status: u32,
    pub offset: usize,
    pub content: Block,
    pub algorithm: Block,
    pub signature: Block,
}

/// A certificate and its fields. `simple_asn1.h` describes them.
#[repr(C)]
#[derive(Clone, Copy)]
pub struct CertificateAnswer {
    pub status: u32,
    pub offset: usize,
    pub certificate: Block,
    pub tbs_certificate: Block,
    pub version: Block,
    pub serial_number: Block,
    pub tbs_signature: Block,
    pub issuer: Block,
    pub not_before: Block,
    pub not_after: Block,
    pub subject: Block,
    pub subject_public_key_info: Block,
    pub public_key_algorithm: Block,
    pub subject_public_key: Block,
    pub issuer_unique_id: Block,
    pub subject_unique_id: Block,
    pub extensions: Block,
    pub signature_algorithm: Block,
    pub signature: Block,
}

/// A certification request and its fields. `simple_asn1.h` describes them.
#[repr(C)]
#[derive(Clone, Copy)]
pub struct RequestAnswer {
    pub status: u32,
    pub offset: usize,
    pub certification_request: Block,
    pub certification_request_info: Block,
    pub version: Block,
    pub subject: Block,
    pub subject_public_key_info: Block,
    pub public_key_algorithm: Block,
    pub subject_public_key: Block,
    pub attributes: Block,
    pub signature_algorithm: Block,
    pub signature: Block,
}

/// A list of revoked certificates and its fields. `simple_asn1.h` describes them.
#[repr(C)]
#[derive(Clone, Copy)]
pub struct RevocationListAnswer {
    pub status: u32,
    pub offset: usize,
    pub certificate_list: Block,
    pub tbs_cert_list: Block,
    pub version: Block,
    pub tbs_signature: Block,
    pub issuer: Block,
    pub this_update: Block,
    pub next_update: Block,
    pub revoked_certificates: Block,
    pub crl_extensions: Block,
    pub signature_algorithm: Block,
    pub signature: Block,
}

/// Where the item numbers of a path begin, and how many they are.
#[repr(C)]
#[derive(Clone, Copy)]
pub struct Path {
    pub start: usize,
    pub length: usize,
}

/// What a path leads to. `simple_asn1.h` describes the fields.
#[repr(C)]
#[derive(Clone, Copy)]
pub struct Value {
    pub tag: u64,
    pub offset: usize,
    pub header: usize,
    pub contents: usize,
    pub number: i64,
    pub kind: u32,
    pub tag_class: u8,
    pub constructed: u8,
}

/// A rule of DER that an encoding breaks, by its number in `simple_asn1.h`, and where the encoding begins.
#[repr(C)]
#[derive(Clone, Copy)]
pub struct DepartureRecord {
    pub offset: usize,
    pub rule: u32,
}

// The sizes that the C header has for the records.
const _: () = prove!(size_of::<Block>() == 64);

const _: () = prove!(size_of::<Outcome>() == 24);

const _: () = prove!(size_of::<IntegerAnswer>() == 16);

const _: () = prove!(size_of::<BitStringAnswer>() == 32);

const _: () = prove!(size_of::<MomentAnswer>() == 32);

const _: () = prove!(size_of::<SignedAnswer>() == 208);

const _: () = prove!(size_of::<CertificateAnswer>() == 1104);

const _: () = prove!(size_of::<RequestAnswer>() == 656);

const _: () = prove!(size_of::<RevocationListAnswer>() == 720);

const _: () = prove!(size_of::<Path>() == 16);

const _: () = prove!(size_of::<Value>() == 48);

const _: () = prove!(size_of::<DepartureRecord>() == 16);

pub(crate) const NO_BLOCK: Block = Block {
    tag: 0,
    offset: 0,
    header: 0,
    contents: 0,
    items: 0,
    next: 0,
    depth: 0,
    tag_class: 0,
    constructed: 0,
};

// The record of an entry.
pub fn block_of(entry: &Entry) -> Block
    ensures { result ≡ block_of entry.now }
{
    Block {
        tag: entry.tag,
        offset: entry.offset,
        header: entry.header,
        contents: entry.contents,
        items: entry.items,
        next: entry.next,
        depth: entry.depth,
        tag_class: class_number_of(entry.class),
        constructed: if entry.constructed { 1 } else { 0 },
    }
}
