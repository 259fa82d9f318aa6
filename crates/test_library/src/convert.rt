// Types of one's own, read from blocks and written as blocks.
use crate::helpers::octets;
use crate::types::{Nothing, NothingErr, Pair};
use simple_asn1::{
    ASN1DecodeErr, FromASN1WithBody, Point, PointErr, SignedTriple, TripFault, TripleErr,
    der_decode, from_der, round_trip,
};
use std::test::Fail;

#[test]
fn a_value_without_blocks_does_not_come_back(rt: HostRuntime) {
    let fault = TripFault::Decode(NothingErr::Decode(ASN1DecodeErr::EmptyBuffer));
    assert_eq!(rt; round_trip(rt.alloc(), &Nothing {}), Err(fault));
}

#[test]
fn a_pair_is_read_by_its_type(rt: HostRuntime) -> Result<(), Fail> {
    let input = octets(
        rt.alloc(),
        "30 06 02 01 01 02 01 FF 30 06 02 01 02 02 01 03",
    )?;
    let pair: Result<Pair<Point>, PointErr> = der_decode(rt.alloc(), &input);
    let first = Point { x: 1, y: -1 };
    let second = Point { x: 2, y: 3 };
    assert_eq!(rt; pair, Ok(Pair { first, second }));
    Ok(())
}

#[test]
fn a_content_past_the_octets_is_refused(rt: HostRuntime) -> Result<(), Fail> {
    let document = octets(
        rt.alloc(),
        "30 15 30 03 02 01 2A 30 09 06 05 2B 0E 03 02 1A 05 00 03 03 00 AB CD",
    )?;
    let blocks = from_der(rt.alloc(), &document)?;
    match SignedTriple::from_asn1_with_body(rt.alloc(), &blocks, b"0\0") {
        Ok(_) => assert!(rt; false),
        Err(fault) => assert_eq!(rt; fault, TripleErr::Shape),
    }
    Ok(())
}
