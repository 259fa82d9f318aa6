// A large document, and a deep one that a type of one's own writes.
use crate::helpers::octets;
use crate::types::Encoded;
use simple_asn1::{ASN1Block, der_encode, encode_len, from_der, rewrite};
use std::alloc::Global;
use std::process::Abort;
use std::test::Fail;
use test_notation::blocks_text;

// The octets of the text, so many times.
fn repeated(alloc: Global, times: u32, text: &str) -> Result<Vec<u8>, Fail> {
    let once = octets(alloc, text)?;
    let mut all = Vec::new(alloc);
    for _ in 0..times {
        all.extend_from_slice(&once)?;
    }
    Ok(all)
}

// There are 70,000 blocks, and these are the offsets of the last.
fn check_last(rt: &impl Abort, alloc: Global, blocks: &[ASN1Block]) -> Result<(), Fail> {
    assert_eq!(rt; blocks.len(), 70_000);
    let Some((last, _)) = blocks.split_last() else {
        return Ok(());
    };
    let last = blocks_text(alloc, std::slice::from_ref(last))?;
    let expected =
        "Sequence(1049985, [Integer(1049988, 5), Explicit(CS, 1049994, 0, Boolean(1049997, true))])";
    assert_eq!(rt; last.as_str(), expected);
    Ok(())
}

// The clones equal the blocks, and have their offsets.
fn check_clones(rt: &impl Abort, alloc: Global, blocks: &[ASN1Block]) -> Result<(), Fail> {
    let mut clones = Vec::new(alloc);
    for block in blocks {
        clones.push(block.clone(alloc)?)?;
    }
    assert!(rt; clones.as_slice() == blocks);
    check_last(rt, alloc, &clones)
}

#[test]
fn a_large_document_is_read_and_rewritten(rt: HostRuntime) -> Result<(), Fail> {
    let alloc = rt.alloc();
    let document = repeated(
        alloc,
        70_000,
        "30 81 0C 02 82 00 02 00 05 A0 81 03 01 01 2A",
    )?;
    let canonical = repeated(alloc, 70_000, "30 08 02 01 05 A0 03 01 01 FF")?;
    assert!(rt; rewrite(alloc, &document)? == canonical);
    let blocks = from_der(alloc, &document)?;
    check_last(&rt, alloc, &blocks)?;
    check_clones(&rt, alloc, &blocks)
}

// A NULL inside so many SEQUENCEs. The octets are made from the last to the first, so that none is moved for each
// level.
fn nested(alloc: Global, levels: usize) -> Result<Vec<u8>, Fail> {
    let mut backwards = octets(alloc, "00 05")?;
    for _ in 0..levels {
        let mut length = encode_len(alloc, backwards.len())?;
        length.reverse();
        backwards.extend_from_slice(&length)?;
        backwards.push(0x30)?;
    }
    backwards.reverse();
    Ok(backwards)
}

// A call for each level would pass a stack of 8 MB.
const LEVELS: usize = 100_000;

#[test]
fn deep_blocks_that_are_encoded_are_dropped(rt: HostRuntime) -> Result<(), Fail> {
    let alloc = rt.alloc();
    let value = Encoded {
        octets: nested(alloc, LEVELS)?,
    };
    match der_encode(alloc, &value) {
        Ok(written) => assert!(rt; written == value.octets),
        Err(fault) => assert!(rt; false, "{fault:?}"),
    }
    Ok(())
}
