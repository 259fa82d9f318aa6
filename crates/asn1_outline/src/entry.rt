// The entry of a block.
use asn1_headers::header::ASN1Class;

/// The header of a block, and its place among the blocks of its document.
#[derive(Clone, Copy, Debug, PartialEq)]
pub struct Entry {
    /// The class of the tag.
    pub class: ASN1Class,
    /// The constructed bit.
    pub constructed: bool,
    /// The tag number; `u64::MAX` also for greater ones.
    pub tag: u64,
    /// The offset of the first octet from the start of the document.
    pub offset: usize,
    /// The number of identifier and length octets.
    pub header: usize,
    /// The number of contents octets.
    pub contents: usize,
    /// The number of blocks directly inside it.
    pub items: usize,
    /// The index of the first entry after it and all blocks inside it.
    pub next: usize,
    /// The number of blocks around it.
    pub depth: usize,
}
