// The outline of a document in the octets of a string, with the document around it.
ghost use Rattle.asn1_outline.specs.InStrings.{StandsAt};

use crate::outline::Outline;

/// The blocks in the octets of a string, as an outline, and where these octets stand in the document around them.
/// [`Outline::inside`] makes it: of the value of an extension of a certificate, for example.
///
/// The [`outline`](Inside::outline) has the offsets of a document of its own: they count from the first octet of the
/// string. The calls of an `Inside` itself return offsets from the start of the document around.
///
/// ```rust
/// use simple_asn1::{LocatedErr, Outline};
/// use std::alloc::Global;
///
/// // Where the first block in the string at an index begins: of `04 03 02 01 05` and index 0 at 2.
/// fn first_inside(
///     alloc: Global,
///     outline: &Outline<'_>,
///     index: usize,
/// ) -> Result<Option<usize>, LocatedErr> {
///     match outline.inside(alloc, index)? {
///         Some(inside) => Ok(inside.entry(0).map(|entry| entry.offset)),
///         None => Ok(None),
///     }
/// }
/// ```
///
/// [`Outline::inside`]: crate::outline::Outline::inside
#[derive(Debug, Drop)]
pub struct Inside<'a> {
    pub(crate) outline: Outline<'a>,
    pub(crate) document: &'a [u8],
    pub(crate) start: usize,
    ghost stands: { StandsAt document.now start outline.octets.now },
}
