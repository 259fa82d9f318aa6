// A document as a flat list of entries by its headers alone, with the octets that it was read from.
ghost use Rattle.asn1_outline.specs.Shapes.{AreEntriesOfShapes};

use crate::entry::Entry;

/// The encodings of a document, read by their headers alone, as a flat list of entries: each before those inside it.
/// Contents octets of leaves are not checked, so a document with faults in them can be walked too.
///
/// It goes into what [`Outline`] goes into: the contents octets of each SEQUENCE and SET (X.690 8.9 to 8.12), which
/// must be encodings, and those of a constructed encoding of another class (8.14) where they are encodings. Otherwise
/// these stay as they came, without items.
///
/// ```rust
/// use simple_asn1::Headers;
/// use std::alloc::Global;
///
/// // How many encodings a document has: three in `30 07 1E 02 00 E4 02 01 05`, of which one is not text.
/// fn count(alloc: Global, octets: &[u8]) -> Option<usize> {
///     let Ok(headers) = Headers::from_der(alloc, octets) else {
///         return None;
///     };
///     Some(headers.entries().len())
/// }
/// ```
///
/// [`Outline`]: crate::outline::Outline
#[derive(Debug, Drop)]
pub struct Headers<'a> {
    pub(crate) octets: &'a [u8],
    pub(crate) entries: Vec<Entry>,
    ghost walked: { ∥ AreEntriesOfShapes octets.now entries.items ∥₁ },
}
