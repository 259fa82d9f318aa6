// Documents into trees of blocks.
ghost use Rattle.std.specs.Prelude.{◌≡◌, ℕ, ◌+◌, ◌<◌, ◌≤◌, ◌^◌, ◌⊎◌, ◌++◌, ◌∷◌, [], length, map, IfOk, IfErr, MatchResult, OnOk};
ghost use Rattle.asn1_blocks.specs.declared.block.ASN1Block.{ASN1Block};
ghost use Rattle.asn1_headers.specs.declared.error.ASN1DecodeErr.TheVariants.{OutOfMemory};
ghost use Rattle.asn1_headers.specs.Fault.{OutOfMemoryOr, UnlessOutOfMemory};
ghost use Rattle.asn1_headers.specs.Reading.{OutOfMemoryOrAt, ReadsEach, ReadsEachLocated, RejectsAt, RejectsWith};
ghost use Rattle.asn1_blocks.specs.Grammar.{IsDocument, FirstFault, FirstFaultAt};
ghost use Rattle.asn1_blocks.specs.HeadersBegun.{HeadersBegun};
ghost use Rattle.asn1_blocks.specs.Inner.OpenFrames.{around};
ghost use Rattle.asn1_blocks.specs.Inner.Postponed.{trees_after_all};
ghost use Rattle.asn1_blocks.specs.Inner.TreeBuilding.{IsAddedAsItCame, IsPostponed, IsAdded, trees_hold};
ghost use Rattle.asn1_blocks.specs.View.{view, views};

use crate::block::ASN1Block;
use crate::contents::leaf_block;
use crate::encoding::encoding_count;
use crate::held::HeldBlocks;
use crate::parsed::PlacedHeader;
use crate::postponed::{Postponed, build, explicit_block, group_block, unknown_block};
use crate::read_loop::{Attempt, Builder, Extent, FrameKind, out_of_memory, read_into};
use asn1_headers::error::{ASN1DecodeErr, LocatedErr};
use asn1_headers::header::{ASN1Class, HeaderCount};
use asn1_numbers::number::big_uint::BigUint;
use std::alloc::{AllocError, Global};

// Contents octets up to this length are copied at once, also inside an open attempt, where longer ones are postponed:
// copies that may be dropped again cost at most so many octets for each header, and to postpone one costs more than so
// small a copy.
const COPIED_AT_ONCE: usize = 256;

/// Reads a document: blocks one after another to the end of `i`, at least one.
///
/// Each block has the offset of its first byte in `i`. Longer forms of tags and lengths than the shortest are read. A
/// constructed encoding of a class other than Universal is `Explicit` if its contents are exactly one block, and
/// `Unknown` otherwise (X.690 8.1.1, 8.14): an error inside it rejects nothing.
///
/// It takes memory for the blocks, for each open level of nesting, and for each block that is postponed until it is
/// known whether an encoding around it stays `Unknown`. Room for the blocks of a frame is reserved before they are
/// read: for as many as its headers announce, at most one for two bytes.
///
/// # Errors
/// The first fault from the left: `EmptyBuffer`, `LengthTooLarge`, `Incomplete`, `BadBooleanLength`,
/// `InvalidBitStringLength`, `UTF8DecodeFailure`, `PrintableStringDecodeFailure`, `InvalidDateValue`; or
/// `OutOfMemory`, which says nothing about the input.
///
/// ```rust
/// use simple_asn1::{ASN1DecodeErr, from_der};
/// use std::alloc::Global;
///
/// // How many blocks stand one after another: in `05 00 30 03 02 01 05` two.
/// fn block_count(alloc: Global, octets: &[u8]) -> Result<usize, ASN1DecodeErr> {
///     let blocks = from_der(alloc, octets)?;
///     Ok(blocks.len())
/// }
/// ```
pub fn from_der(alloc: Global, i: &[u8]) -> Result<Vec<ASN1Block>, ASN1DecodeErr>
    ensures document { IfOk result (λ blocks. IsDocument i.now (views blocks.items)) }
    ensures fault { IfErr result (OutOfMemoryOr (FirstFault i.now)) }

    // Memory aside, each document is read as its trees, and other octets are refused with their first fault.
    ensures accepts { ReadsEach result (IsDocument i.now) (λ bs blocks. views blocks.items ≡ bs) }
    ensures refuses { RejectsWith result (FirstFault i.now) }
{
    match read_uncounted(alloc, i) {
        Ok(document) => Ok(document),
        Err(refusal) => Err(refusal.error),
    }
}

/// Reads a document as [`from_der`] does, and adds one to the count for each header that is begun, those of failed
/// attempts too. The count never falls, and rises by at most the number of bytes, also if memory runs out. It asks
/// that the count has room for the number of bytes.
///
/// # Errors
/// The errors of [`from_der`].
///
/// ```rust
/// use simple_asn1::{HeaderCount, discard, from_der_counted};
/// use std::alloc::Global;
///
/// // How many headers are begun, whatever the answer: of `30 02 02 05` two.
/// fn begun(alloc: Global, octets: &[u8]) -> u64 {
///     let mut count = HeaderCount::new();
///     if let Ok(blocks) = from_der_counted(alloc, octets, &mut count) {
///         discard(blocks);
///     }
///     count.count()
/// }
/// ```
pub fn from_der_counted(
    alloc: Global,
    i: &[u8],
    count: &mut HeaderCount,
) -> Result<Vec<ASN1Block>, ASN1DecodeErr>
    requires room { count.old + length i.now < 2 ^ 64 }
    ensures document { IfOk result (λ blocks. IsDocument i.now (views blocks.items)) }
    ensures fault { IfErr result (OutOfMemoryOr (FirstFault i.now)) }
    ensures accepts { ReadsEach result (IsDocument i.now) (λ bs blocks. views blocks.items ≡ bs) }
    ensures refuses { RejectsWith result (FirstFault i.now) }

    ensures counted { UnlessOutOfMemory result ((n : ℕ) × HeadersBegun i.now n
        × (count.new ≡ count.old + n)) }
    ensures grown { count.old ≤ count.new }
    ensures bounded { count.new ≤ count.old + length i.now }
{
    match read_blocks(alloc, i, count) {
        Ok(blocks) => Ok(blocks),
        Err(located) => Err(located.error),
    }
}

/// Reads a document as [`from_der`] does, and says where an error is.
///
/// # Errors
/// The errors of [`from_der`], each with the offset of the innermost block that the fault belongs to: the block whose
/// header or contents octets are at fault, and not the SEQUENCE or SET around it. For an empty input it is 0.
///
/// ```rust
/// use simple_asn1::from_der_located;
/// use std::alloc::Global;
///
/// // Where the octets are at fault: `30 05 05 00 01 02 FF` at 4, since the BOOLEAN there is cut off.
/// fn fault_offset(alloc: Global, octets: &[u8]) -> Option<usize> {
///     match from_der_located(alloc, octets) {
///         Ok(_) => None,
///         Err(located) => Some(located.offset),
///     }
/// }
/// ```
pub fn from_der_located(alloc: Global, i: &[u8]) -> Result<Vec<ASN1Block>, LocatedErr>
    ensures document { IfOk result (λ blocks. IsDocument i.now (views blocks.items)) }
    ensures fault { IfErr result (OutOfMemoryOrAt (FirstFaultAt i.now)) }
    ensures accepts { ReadsEachLocated result (IsDocument i.now)
        (λ bs blocks. views blocks.items ≡ bs) }
    ensures refuses { RejectsAt result (FirstFaultAt i.now) }
{
    read_uncounted(alloc, i)
}

// Reads a document with a count that nobody asks for: the one place where the reader makes a count of its own.
fn read_uncounted(alloc: Global, i: &[u8]) -> Result<Vec<ASN1Block>, LocatedErr>
    ensures document { IfOk result (λ blocks. IsDocument i.now (views blocks.items)) }
    ensures refused { IfErr result (OutOfMemoryOrAt (FirstFaultAt i.now)) }
{
    let mut count = HeaderCount::new();
    read_blocks(alloc, i, &mut count)
}

fn read_blocks(
    alloc: Global,
    i: &[u8],
    count: &mut HeaderCount,
) -> Result<Vec<ASN1Block>, LocatedErr>
    requires room { count.old + length i.now < 2 ^ 64 }
    ensures document { IfOk result (λ blocks. IsDocument i.now (views blocks.items)) }
    ensures refused { IfErr result (OutOfMemoryOrAt (FirstFaultAt i.now)) }
    ensures counted { MatchResult result
        (λ _. (n : ℕ) × HeadersBegun i.now n × (count.new ≡ count.old + n))
        (λ e. (e.error ≡ OutOfMemory)
        ⊎ ((n : ℕ) × HeadersBegun i.now n × (count.new ≡ count.old + n))) }
    ensures grown { count.old ≤ count.new }
    ensures bounded { count.new ≤ count.old + length i.now }
{
    let Ok(items) = document_items(alloc, i) else {
        return Err(out_of_memory(0));
    };
    let builder = TreeBuilder {
        postponed: Vec::new(alloc),
        outermost: None,
    };
    match read_into(alloc, i, builder, items, count) {
        Ok((builder, items)) => match all_blocks(alloc, i, builder, items) {
            Ok(blocks) => Ok(blocks),
            Err(_) => Err(out_of_memory(i.len())),
        },
        Err(located) => Err(located),
    }
}

// The items of the document's frame, before which no header stands.
fn document_items(alloc: Global, i: &[u8]) -> Result<FrameBlocks, AllocError>
    ensures first { IfOk result (λ items. items.first ≡ []) }
    ensures before { IfOk result (λ items. items.postponed_before ≡ 0) }
    ensures count { IfOk result (λ items. items.postponed_count ≡ 0) }
{
    let first = HeldBlocks::with_capacity(alloc, encoding_count(i))?;
    let tag = BigUint::from_u64(alloc, 0)?;
    Ok(FrameBlocks {
        first,
        class: ASN1Class::Universal,
        tag,
        postponed_before: 0,
        postponed_count: 0,
    })
}

// The blocks of the document, which was read to its end.
fn all_blocks(
    alloc: Global,
    octets: &[u8],
    builder: TreeBuilder,
    items: FrameBlocks,
) -> Result<Vec<ASN1Block>, AllocError>
    ensures { IfOk result (λ blocks. map view blocks.items
        ≡ map view items.first ++ trees_after_all octets.now builder.postponed.items []) }
{
    let FrameBlocks { mut first, .. } = items;
    let others = build(alloc, octets, builder.postponed)?;
    first.append(others)?;
    Ok(first.into_vec())
}

// The blocks of a frame: the first of them, and how many more are postponed. These stand behind so many postponed
// blocks of the frames around it. The class and the tag number are those of its header, which is read once.
#[derive(Drop)]
struct FrameBlocks {
    first: HeldBlocks,
    class: ASN1Class,
    tag: BigUint,
    postponed_before: usize,
    postponed_count: usize,
}

// Builds trees: the postponed blocks of all frames.
#[derive(Drop)]
struct TreeBuilder {
    postponed: Vec<Postponed>,
    // How many frames stand around the outermost open attempt. No answer depends on it: it says which contents octets
    // are copied at once, and which are postponed.
    outermost: Option<usize>,
}

impl Builder for TreeBuilder {
    type Items = FrameBlocks;

    ghost holds = { trees_hold };

    #[inline(always)]
    fn open(
        &mut self,
        alloc: Global,
        octets: &[u8],
        header: &PlacedHeader,
        _offset: usize,
        depth: usize,
    ) -> Result<FrameBlocks, AllocError> {
        let contents = &octets[header.start..header.end];
        let first = HeldBlocks::with_capacity(alloc, encoding_count(contents))?;
        let tag = header.tag.clone(alloc)?;
        if !matches!(header.class, ASN1Class::Universal) && self.outermost.is_none() {
            self.outermost = Some(depth);
        }
        Ok(FrameBlocks {
            first,
            class: header.class,
            tag,
            postponed_before: self.postponed.len(),
            postponed_count: 0,
        })
    }

    #[inline(always)]
    fn leaf(
        &mut self,
        alloc: Global,
        octets: &[u8],
        items: &mut FrameBlocks,
        header: PlacedHeader,
        offset: usize,
        _depth: usize,
    ) -> Result<(), ASN1DecodeErr> {
        let contents = &octets[header.start..header.end];
        let block = leaf_block(alloc, header, contents, offset)?;
        Ok(self.push_block(items, block)?)
    }

    #[inline(always)]
    fn close(
        &mut self,
        alloc: Global,
        octets: &[u8],
        extent: Extent,
        items: FrameBlocks,
        parent: &mut FrameBlocks,
        depth: usize,
    ) -> Result<(), AllocError> {
        let Extent {
            kind,
            offset,
            start,
            end,
        } = extent;
        let FrameBlocks {
            first,
            class,
            tag,
            postponed_before,
            postponed_count,
        } = items;
        match kind {
            FrameKind::Whole => unreachable!(),
            FrameKind::Group(group) => {
                if postponed_count != 0 {
                    return self.postpone(
                        parent,
                        Postponed::Group(group, offset, first, postponed_count),
                    );
                }
                self.push_block(parent, group_block(group, offset, first))
            }
            FrameKind::Attempt => {
                let attempt = Attempt { class, offset, tag };
                let inside = leave(&mut self.outermost, depth);
                if postponed_count == 1 && first.len() == 0 {
                    return self.postpone(parent, Postponed::Explicit(attempt));
                }
                if postponed_count == 0 && first.len() == 1 {
                    let block = around_block(alloc, attempt, first)?;
                    return self.push_block(parent, block);
                }
                self.postponed.truncate(postponed_before);
                self.push_as_it_came(alloc, octets, parent, inside, attempt, start, end)
            }
        }
    }

    #[cold]
    fn keep(
        &mut self,
        alloc: Global,
        octets: &[u8],
        extent: Extent,
        items: FrameBlocks,
        parent: &mut FrameBlocks,
        depth: usize,
    ) -> Result<(), AllocError> {
        let Extent {
            offset,
            start,
            end,
            ..
        } = extent;
        let FrameBlocks {
            class,
            tag,
            postponed_before,
            ..
        } = items;
        let attempt = Attempt { class, offset, tag };
        let inside = leave(&mut self.outermost, depth);
        self.postponed.truncate(postponed_before);
        self.push_as_it_came(alloc, octets, parent, inside, attempt, start, end)
    }
}

impl TreeBuilder {
    // The frame has the block.
    #[inline(always)]
    fn push_block(&mut self, items: &mut FrameBlocks, block: ASN1Block) -> Result<(), AllocError>
        ensures { OnOk result (IsAdded self.old items.old block self.new items.new) }
    {
        if items.postponed_count != 0 {
            return self.postpone(items, Postponed::Ready(block));
        }
        items.first.push(block)
    }

    // Adds the block to the frame as a postponed one.
    #[cold]
    #[inline(never)]
    fn postpone(&mut self, items: &mut FrameBlocks, block: Postponed) -> Result<(), AllocError>
        ensures { OnOk result (IsPostponed self.old items.old block self.new items.new) }
    {
        let Some(count) = items.postponed_count.checked_add(1) else {
            return Err(AllocError);
        };
        self.postponed.reserve(1)?;
        self.postponed.push_reserved(block);
        items.postponed_count = count;
        Ok(())
    }

    // The frame has an encoding that stays as it came.
    #[cold]
    #[inline(never)]
    fn push_as_it_came(
        &mut self,
        alloc: Global,
        octets: &[u8],
        items: &mut FrameBlocks,
        inside: bool,
        attempt: Attempt,
        start: usize,
        end: usize,
    ) -> Result<(), AllocError>
        requires order { start ≤ end }
        requires within { end ≤ length octets.now }
        ensures { OnOk result (IsAddedAsItCame octets.now self.old items.old attempt start end self.new items.new) }
    {
        if inside && end - start > COPIED_AT_ONCE {
            return self.postpone(items, Postponed::AsItCame(attempt, start, end));
        }
        let block = unknown_block(alloc, attempt, &octets[start..end])?;
        self.push_block(items, block)
    }
}

// The block around the one that there is.
#[inline(always)]
fn around_block(
    alloc: Global,
    attempt: Attempt,
    blocks: HeldBlocks,
) -> Result<ASN1Block, AllocError>
    requires { length blocks ≡ 1 }
    ensures { IfOk result (λ b. (item : ASN1Block) × (blocks ≡ item ∷ [])
        × (view b ≡ around attempt (view item))) }
{
    explicit_block(alloc, attempt, blocks.into_only())
}

// An attempt ended, around which so many frames stand: whether one of these is an attempt.
#[inline(always)]
fn leave(outermost: &mut Option<usize>, depth: usize) -> bool {
    if let Some(first) = *outermost
        && first < depth
    {
        return true;
    }
    *outermost = None;
    false
}
