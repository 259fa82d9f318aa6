// Calls that read documents.
use crate::refusal::{Answer, Refusal, ran_out, refusal_of};
use simple_asn1::{
    ASN1DecodeErr, Document, HeaderCount, Outline, TripleErr, discard, from_der_counted,
    from_der_located, from_der_strict, is_der, read_signed, rewrite,
};
use std::alloc::Global;
use test_notation::{blocks_text, components_text, octets_text};

// The blocks of the document.
pub fn read(alloc: Global, document: &Document) -> Answer {
    Ok(blocks_text(alloc, document.blocks())?)
}

// The offsets of the first block of a tree and of an outline. Both have one, so neither index is tested.
pub fn first(alloc: Global, octets: &[u8]) -> Answer {
    let document = Document::from_der(alloc, octets)?;
    let outline = Outline::from_der(alloc, octets)?;
    let (block, entry) = (first_block(&document), first_entry(&outline));
    Ok(format!(in alloc; "{block} {entry}")?)
}

fn first_block(document: &Document) -> usize {
    document.blocks()[0].offset()
}

fn first_entry(outline: &Outline<'_>) -> usize {
    outline.entries()[0].offset
}

// Whether the document is read, or its first fault with its place.
pub fn place(alloc: Global, octets: &[u8]) -> Answer {
    discard(from_der_located(alloc, octets)?);
    Ok(String::from_str(alloc, "read")?)
}

// The number of headers begun, and whether the document was read.
pub fn count(alloc: Global, octets: &[u8]) -> Answer {
    let mut count = HeaderCount::new();
    let read = from_der_counted(alloc, octets, &mut count);
    let begun = count.count();
    let read = match read {
        Ok(blocks) => {
            discard(blocks);
            String::from_str(alloc, "read")?
        }
        Err(ASN1DecodeErr::OutOfMemory) => return Err(ran_out(alloc, begun <= octets.len() as u64)),
        Err(fault) => Refusal::from(fault).text(alloc)?,
    };
    Ok(format!(in alloc; "{begun} begun, {read}")?)
}

// The canonical octets of the document.
pub fn rewritten(alloc: Global, octets: &[u8]) -> Answer {
    let canonical = rewrite(alloc, octets)?;
    Ok(octets_text(alloc, &canonical)?)
}

// The blocks of a canonical document.
pub fn strict(alloc: Global, octets: &[u8]) -> Answer {
    let blocks = from_der_strict(alloc, octets)?;
    let text = blocks_text(alloc, &blocks);
    discard(blocks);
    Ok(text?)
}

// Whether the octets are DER.
pub fn der(alloc: Global, octets: &[u8]) -> Answer {
    let text = if is_der(alloc, octets)? {
        "true"
    } else {
        "false"
    };
    Ok(String::from_str(alloc, text)?)
}

// The parts of the signed triple that the document begins with.
pub fn signed(alloc: Global, octets: &[u8]) -> Answer {
    let triple = match read_signed(alloc, octets) {
        Ok(triple) => triple,
        Err(TripleErr::Codec(fault)) => return Err(Refusal::from(fault)),
        Err(TripleErr::Shape) => return Err(refusal_of(alloc, "refused Shape")),
    };
    let content = octets_text(alloc, &triple.content)?;
    let algorithm = components_text(alloc, &triple.algorithm)?;
    let bits = triple.bits;
    let signature = octets_text(alloc, &triple.signature)?;
    Ok(format!(in alloc; "content {content}, algorithm {algorithm}, {bits} bits, {signature}")?)
}
