// The blocks that a block holds, whatever its tag says.
ghost use Rattle.std.specs.Prelude.{◌≡◌, ℕ, IfOk, IsSomeAnd, MatchOption, None, Some};
ghost use Rattle.asn1_blocks.specs.Grammar.{EncodesAll};
ghost use Rattle.asn1_blocks.specs.Tree.{Trees};
ghost use Rattle.asn1_blocks.specs.View.{view, views};
ghost use Rattle.simple_asn1.specs.HeldBlocks.{HoldsBlocksOf, HoldsNothing, items_trees};
ghost use Rattle.simple_asn1.specs.Inner.Constructed.{AreNoBlocks, constructed_contents};

use asn1_blocks::block::ASN1Block;
use asn1_blocks::document::Document;
use asn1_headers::error::ASN1DecodeErr;
use std::alloc::{AllocError, Global};

/// The items of a block, which [`items_of`] finds: lent by the block, or read from its contents bytes.
/// [`blocks`](Items::blocks) lends them in either case. Dropping `Items` takes no memory and does not recurse.
#[derive(Debug, Drop)]
pub enum Items<'a> {
    /// The items that the block has as blocks.
    Lent(&'a [ASN1Block]),
    /// Blocks that were read from the contents bytes of an `Unknown`. Their offsets count from the first of these
    /// bytes.
    Read(Document),
}

impl Items<'_> {
    /// The items, in order.
    ///
    /// ```rust
    /// use simple_asn1::{ASN1Block, items_of};
    /// use std::alloc::{AllocError, Global};
    ///
    /// // How many items a block has: of `A0 00` none, of `A0 02 05 00` one, of `A0 04 05 00 05 00` two.
    /// fn count(alloc: Global, block: &ASN1Block) -> Result<Option<usize>, AllocError> {
    ///     match items_of(alloc, block)? {
    ///         Some(items) => Ok(Some(items.blocks().len())),
    ///         None => Ok(None),
    ///     }
    /// }
    /// ```
    pub fn blocks(&self) -> &[ASN1Block]
        ensures { views result.now ≡ items_trees self.now }
    {
        match self {
            Items::Lent(blocks) => blocks,
            Items::Read(document) => document.blocks(),
        }
    }
}

/// The items of a block: the blocks that its contents bytes are, none, one or more. A schema that replaces the tag of a
/// SEQUENCE or SET (`[0] IMPLICIT SET OF`, X.690 8.14) makes a block that is `Explicit` around one item, and `Unknown`
/// around none or several; this call treats all of them alike.
///
/// Of a `Sequence`, a `Set` and an `Explicit` the items are those of [`ASN1Block::items`], with the offsets that they
/// have. Of a constructed `Unknown` the contents bytes are read as [`from_der`](crate::from_der) reads them; there the
/// offsets count from the first contents byte, because a block does not know how long its header was. `None` is
/// returned for every other block, and for an `Unknown` whose contents bytes are not blocks.
///
/// Only the items of an `Unknown` take memory: that of reading them. The only error is that memory ran out. Stack use
/// does not grow with nesting.
///
/// ```rust
/// use simple_asn1::{ASN1Block, items_of};
/// use std::alloc::{AllocError, Global};
///
/// // How many attributes a certification request has, `[0] IMPLICIT SET OF Attribute`: any number, also none.
/// fn attribute_count(alloc: Global, attributes: &ASN1Block) -> Result<usize, AllocError> {
///     let Some(items) = items_of(alloc, attributes)? else {
///         return Ok(0);
///     };
///     Ok(items.blocks().len())
/// }
/// ```
pub fn items_of(alloc: Global, block: &ASN1Block) -> Result<Option<Items<'_>>, AllocError>
    ensures items { IfOk result (λ found. MatchOption found
        (HoldsNothing (view block.now))
        (λ items. HoldsBlocksOf (view block.now) (items_trees items))) }

    // Memory aside, the items of each block that holds some are found.
    ensures found { (bs : Trees ℕ) → HoldsBlocksOf (view block.now) bs
        → IfOk result (λ found. IsSomeAnd found (λ items. items_trees items ≡ bs)) }
{
    held_items(alloc, block)
}

// The items of a block.
fn held_items(alloc: Global, block: &ASN1Block) -> Result<Option<Items<'_>>, AllocError>
    ensures { IfOk result (λ found. MatchOption found
        (HoldsNothing (view block.now))
        (λ items. HoldsBlocksOf (view block.now) (items_trees items))) }
{
    if let Some(items) = block.items() {
        return Ok(Some(Items::Lent(items)));
    }
    match constructed_contents(block) {
        Some(contents) => read_items(alloc, contents),
        None => Ok(None),
    }
}

// The contents octets of a constructed `Unknown`.
fn constructed_contents(block: &ASN1Block) -> Option<&[u8]>
    ensures { MatchOption result
        (constructed_contents (view block.now) ≡ None)
        (λ contents. constructed_contents (view block.now) ≡ Some contents.now) }
{
    match block {
        ASN1Block::Unknown(_, true, _, _, contents) => Some(contents),
        _ => None,
    }
}

// The blocks that octets are, none or more.
fn read_items<'a>(alloc: Global, octets: &[u8]) -> Result<Option<Items<'a>>, AllocError>
    ensures { IfOk result (λ found. MatchOption found
        (AreNoBlocks octets.now)
        (λ items. EncodesAll 0 octets.now (items_trees items))) }
{
    if octets.is_empty() {
        return Ok(Some(Items::Lent(&[])));
    }
    match Document::from_der(alloc, octets) {
        Ok(document) => Ok(Some(Items::Read(document))),
        Err(e) => match e {
            ASN1DecodeErr::OutOfMemory => Err(AllocError),
            _ => Ok(None),
        },
    }
}
