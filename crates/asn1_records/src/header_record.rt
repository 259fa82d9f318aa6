// The header of an encoding.
ghost use Rattle.std.specs.Prelude.{◌≡◌, IfOk};
ghost use Rattle.simple_asn1.specs.Header.{class_number};
ghost use Rattle.simple_asn1.specs.Places.{IsEncoding};
ghost use Rattle.asn1_records.specs.Records.{HasRecordHeader};

use crate::record::Block;
use asn1_headers::whole_header::read_header;
use asn1_outline::listing::capped;
use simple_asn1::{ASN1Class, ASN1DecodeErr, HeaderCount, encode_class};
use std::alloc::{AllocError, Global};

// The record of an encoding by its header alone: as if it stood by itself and held no blocks.
pub fn header_record(alloc: Global, encoding: &[u8]) -> Result<Block, AllocError>
    requires { IsEncoding encoding.now }
    ensures { IfOk result (HasRecordHeader encoding.now) }
{
    let header = match read_header(alloc, encoding, &mut HeaderCount::new()) {
        Ok(header) => header,
        Err(e) => match e {
            ASN1DecodeErr::OutOfMemory => return Err(AllocError),
            _ => unreachable!(),
        },
    };
    Ok(Block {
        tag: capped(&header.tag),
        offset: 0,
        header: header.size,
        contents: header.announced,
        items: 0,
        next: 1,
        depth: 0,
        tag_class: class_number_of(header.class),
        constructed: if header.constructed { 1 } else { 0 },
    })
}

pub fn class_number_of(class: ASN1Class) -> u8
    ensures { result ≡ class_number class }
{
    encode_class(class) / 64
}
