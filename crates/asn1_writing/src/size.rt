// How many octets are written of a document. It is read, and what is written of its blocks is added up: none is built.
ghost use Rattle.std.specs.Prelude.{◌≡◌, ◌≢◌, ◌-◌, ◌≤◌, ℕ, length, slice_range, IfErr, IfOk, OnOk};
ghost use Rattle.asn1_headers.specs.Fault.{OutOfMemoryOr};
ghost use Rattle.asn1_headers.specs.Reading.{OutOfMemoryOrAt, ReadsEachLocated, RejectsAt};
ghost use Rattle.asn1_headers.specs.declared.header.ASN1Class.TheVariants.{Universal};
ghost use Rattle.asn1_blocks.specs.Contents.{LeafFault};
ghost use Rattle.asn1_blocks.specs.Grammar.{FirstFaultAt, IsDocument};
ghost use Rattle.asn1_blocks.specs.HeadersBegun.{IsReadInside};
ghost use Rattle.asn1_blocks.specs.Places.{HeaderFound};
ghost use Rattle.asn1_blocks.specs.Tree.{Trees};
ghost use Rattle.asn1_blocks.specs.declared.read_loop.FrameKind.TheVariants.{Attempt};
ghost use Rattle.asn1_writing.specs.Canonical.{all_canonical};
ghost use Rattle.asn1_writing.specs.Inner.Sizes.{AreWrittenOf, HasBlockMore, sizes_hold};

use crate::leaf_size::size_in_place;
use crate::measure::block_size;
use asn1_blocks::contents::{leaf_block, own_size};
use asn1_blocks::parsed::PlacedHeader;
use asn1_blocks::read_loop::{Builder, Extent, FrameKind, read_into};
use asn1_headers::error::{ASN1DecodeErr, ASN1EncodeErr, LocatedErr};
use asn1_headers::header::{HeaderCount, identifier_size};
use std::alloc::{AllocError, Global};

/// How many octets a document has in canonical form, as [`rewrite`](crate::rewrite) writes it. It is read in linear
/// time; no block is built, and nothing is written.
///
/// It takes memory for each open level of nesting, and for tag numbers past 64 bits. Stack use does not grow with
/// nesting.
///
/// # Errors
/// The errors of [`from_der_located`](crate::from_der_located); `OutOfMemory` also if the octets would be more than
/// memory can hold.
///
/// ```rust
/// use simple_asn1::{LocatedErr, canonical_size};
/// use std::alloc::Global;
///
/// // Whether there is room for the canonical form of a document: that of `02 02 00 05` has three octets.
/// fn fits(alloc: Global, octets: &[u8], room: &[u8]) -> Result<bool, LocatedErr> {
///     Ok(canonical_size(alloc, octets)? <= room.len())
/// }
/// ```
pub fn canonical_size(alloc: Global, octets: &[u8]) -> Result<usize, LocatedErr>
    ensures document { IfOk result (λ n. (bs : Trees ℕ) × IsDocument octets.now bs
        × (n ≡ length (all_canonical bs))) }
    ensures fault { IfErr result (OutOfMemoryOrAt (FirstFaultAt octets.now)) }
    ensures accepts { ReadsEachLocated result (IsDocument octets.now) (λ bs n. n ≡ length (all_canonical bs)) }
    ensures refuses { RejectsAt result (FirstFaultAt octets.now) }
{
    sized(alloc, octets)
}

fn sized(alloc: Global, octets: &[u8]) -> Result<usize, LocatedErr>
    ensures document { IfOk result (λ n. (bs : Trees ℕ) × IsDocument octets.now bs
        × (n ≡ length (all_canonical bs))) }
    ensures fault { IfErr result (OutOfMemoryOrAt (FirstFaultAt octets.now)) }
{
    let mut count = HeaderCount::new();
    let items = WrittenItems {
        size: 0,
        blocks: 0,
        identifier: 0,
    };
    match read_into(alloc, octets, SizeBuilder, items, &mut count) {
        Ok((_, items)) => Ok(items.size),
        Err(located) => Err(located),
    }
}

// Keeps nothing beside the items of the frames.
#[derive(Clone, Copy)]
pub struct SizeBuilder;

// What is written of the blocks of a frame so far: how many octets, and of how many blocks. And how many identifier
// octets are written of the encoding around them.
#[derive(Clone, Copy)]
pub struct WrittenItems {
    pub size: usize,
    pub blocks: usize,
    pub identifier: usize,
}

impl WrittenItems {
    // The frame has one block more, of which so many identifier octets and contents octets are written.
    #[inline(always)]
    fn add(&mut self, identifier: usize, contents: usize) -> Result<(), AllocError>
        ensures { OnOk result (HasBlockMore self.old identifier contents self.new) }
    {
        let Ok(block) = block_size(identifier, contents) else {
            return Err(AllocError);
        };
        let Some(size) = self.size.checked_add(block) else {
            return Err(AllocError);
        };
        let Some(blocks) = self.blocks.checked_add(1) else {
            return Err(AllocError);
        };
        self.size = size;
        self.blocks = blocks;
        Ok(())
    }

    // How many contents octets are written of the frame, once it has ended. An attempt with any number of blocks but
    // one stays as it came.
    #[inline(always)]
    fn contents(&self, extent: &Extent) -> usize
        requires { extent.now.start ≤ extent.now.end }
        ensures as_it_came { extent.now.kind ≡ Attempt → self.now.blocks ≢ 1
            → result ≡ extent.now.end - extent.now.start }
        ensures of_blocks { (extent.now.kind ≡ Attempt → self.now.blocks ≡ 1) → result ≡ self.now.size }
    {
        match extent.kind {
            FrameKind::Attempt => {
                if self.blocks == 1 {
                    self.size
                } else {
                    extent.end - extent.start
                }
            }
            _ => self.size,
        }
    }
}

impl Builder for SizeBuilder {
    type Items = WrittenItems;

    ghost holds = { sizes_hold };

    #[inline(always)]
    fn open(
        &mut self,
        _alloc: Global,
        _octets: &[u8],
        header: &PlacedHeader,
        _offset: usize,
        _depth: usize,
    ) -> Result<WrittenItems, AllocError> {
        Ok(WrittenItems {
            size: 0,
            blocks: 0,
            identifier: identifier_size(header.class, true, &header.tag),
        })
    }

    #[inline(always)]
    fn leaf(
        &mut self,
        alloc: Global,
        octets: &[u8],
        items: &mut WrittenItems,
        header: PlacedHeader,
        offset: usize,
        _depth: usize,
    ) -> Result<(), ASN1DecodeErr> {
        let identifier = identifier_size(header.class, header.constructed, &header.tag);
        let contents = contents_size(alloc, octets, header, offset)?;
        Ok(items.add(identifier, contents)?)
    }

    #[inline(always)]
    fn close(
        &mut self,
        _alloc: Global,
        _octets: &[u8],
        extent: Extent,
        items: WrittenItems,
        parent: &mut WrittenItems,
        _depth: usize,
    ) -> Result<(), AllocError> {
        parent.add(items.identifier, items.contents(&extent))
    }

    #[cold]
    fn keep(
        &mut self,
        _alloc: Global,
        _octets: &[u8],
        extent: Extent,
        items: WrittenItems,
        parent: &mut WrittenItems,
        _depth: usize,
    ) -> Result<(), AllocError> {
        parent.add(items.identifier, extent.end - extent.start)
    }
}

// How many contents octets are written of the block with the header.
#[inline(always)]
fn contents_size(
    alloc: Global,
    octets: &[u8],
    header: PlacedHeader,
    offset: usize,
) -> Result<usize, ASN1DecodeErr>
    requires found { (limit : ℕ) × HeaderFound octets.now offset limit header × (limit ≤ length octets.now) }
    requires closed { IsReadInside header.class header.constructed header.tag → ⊥ }
    ensures sized { IfOk result (AreWrittenOf header.class header.tag
        (slice_range octets.now header.start header.end)) }
    ensures refused { IfErr result (OutOfMemoryOr (λ e. (header.class ≡ Universal)
        × LeafFault header.tag (slice_range octets.now header.start header.end) e)) }
{
    match size_in_place(&header, &octets[header.start..header.end]) {
        Some(size) => Ok(size),
        None => size_by_reading(alloc, octets, header, offset),
    }
}

// The same of a block that is read for this, to say why its contents octets mean none.
#[cold]
#[inline(never)]
fn size_by_reading(
    alloc: Global,
    octets: &[u8],
    header: PlacedHeader,
    offset: usize,
) -> Result<usize, ASN1DecodeErr>
    requires found { (limit : ℕ) × HeaderFound octets.now offset limit header × (limit ≤ length octets.now) }
    requires closed { IsReadInside header.class header.constructed header.tag → ⊥ }
    ensures sized { IfOk result (AreWrittenOf header.class header.tag
        (slice_range octets.now header.start header.end)) }
    ensures refused { IfErr result (OutOfMemoryOr (λ e. (header.class ≡ Universal)
        × LeafFault header.tag (slice_range octets.now header.start header.end) e)) }
{
    let contents = &octets[header.start..header.end];
    let block = leaf_block(alloc, header, contents, offset)?;
    match own_size(&block) {
        Ok(size) => Ok(size),
        Err(e) => match e {
            ASN1EncodeErr::OutOfMemory => Err(ASN1DecodeErr::OutOfMemory),
            _ => unreachable!(),
        },
    }
}
