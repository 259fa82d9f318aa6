// A block of an outline, with the octets of its document.
ghost use Rattle.asn1_outline.specs.Values.{IsOfSomeTree};

use crate::entry::Entry;

/// A block of an outline in place: its entry, with the octets of its document. [`Outline::block`] makes it.
///
/// The outline has checked contents octets as `from_der` checks them, so its calls have no error but memory. A value is
/// `None` where the block is of another type; `enumerated` and `ascii_text` say when else.
///
/// ```rust
/// use simple_asn1::{BlockRef, Outline};
///
/// // The second item of the first block: the INTEGER of `30 06 0C 01 61 02 01 05`.
/// fn second_item<'a>(outline: &Outline<'a>) -> Option<BlockRef<'a>> {
///     let (index, _) = outline.items(0).nth(1)?;
///     outline.block(index)
/// }
/// ```
///
/// [`Outline::block`]: crate::outline::Outline::block
#[derive(Clone, Copy, Debug)]
pub struct BlockRef<'a> {
    pub(crate) entry: Entry,
    pub(crate) octets: &'a [u8],
    ghost tree: { ∥ IsOfSomeTree octets.now entry ∥₁ },
}
