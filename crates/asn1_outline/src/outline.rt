// A document as a flat list of entries, with the octets that it was read from.
ghost use Rattle.asn1_outline.specs.Entries.{IsOutline};

use crate::entry::Entry;

/// The blocks of a document as a flat list of entries, each before those inside it. It borrows the document's octets
/// and builds no blocks: contents octets are checked and not copied, and dropping an `Outline` does not recurse.
///
/// It shows the blocks in each constructed encoding of another class (X.690 8.14), however many, where [`ASN1Block`]
/// has one as `Explicit` and keeps several as `Unknown`: the attributes of a certification request, for example.
/// Where contents octets of another class have a fault, they stay as they came, without items.
///
/// [`ASN1Block`]: asn1_blocks::block::ASN1Block
///
/// ```rust
/// use simple_asn1::Outline;
/// use std::alloc::Global;
///
/// // How deep the blocks of a document are nested: of `30 03 02 01 05` once.
/// fn depth(alloc: Global, octets: &[u8]) -> Option<usize> {
///     let Ok(outline) = Outline::from_der(alloc, octets) else {
///         return None;
///     };
///     outline.entries().iter().map(|entry| entry.depth).max()
/// }
/// ```
#[derive(Debug, Drop)]
pub struct Outline<'a> {
    pub(crate) octets: &'a [u8],
    pub(crate) entries: Vec<Entry>,
    ghost document: { ∥ IsOutline octets.now entries.items ∥₁ },
}
