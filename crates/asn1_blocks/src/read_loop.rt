// Reading, whatever is built of the blocks: one loop over the frames that are open, so that no function calls itself.
ghost use Rattle.std.specs.Prelude.{◌≡◌, ◌≢◌, ◌↔◌, ℕ, ◌+◌, ◌-◌, ◌<◌, ◌≤◌, ◌^◌, ◌⊎◌, ◌∷◌, List, length, reverse, IfOk, IfErr, IsTrue, MatchResult, OnOk};
ghost use Rattle.asn1_headers.specs.declared.error.ASN1DecodeErr.TheVariants.{OutOfMemory};
ghost use Rattle.asn1_headers.specs.Fault.{OutOfMemoryOr, fault_of};
ghost use Rattle.asn1_headers.specs.Reading.{OutOfMemoryOrAt};
ghost use Rattle.asn1_blocks.specs.Grammar.{FirstFaultAt};
ghost use Rattle.asn1_blocks.specs.HeadersBegun.{HeadersBegun, IsReadInside};
ghost use Rattle.asn1_blocks.specs.Places.{HeaderFound};
ghost use Rattle.asn1_blocks.specs.Inner.OpenFrames.{IsKindOf, is_attempt};
ghost use Rattle.asn1_blocks.specs.Inner.ReaderSteps.{CanBeKept, CanEnd, HasDocument, HasEndedIn, HasKept, HasLeaf, HasOpened, HasRecovered, HasStepped, HasTakenStep, IsEntered, IsFaulty, IsLeafFault, IsReading, Reads, StartsEmpty, in_frame, work_left};
ghost use Rattle.asn1_blocks.specs.Tree.{Tree};
ghost use Rattle.asn1_blocks.specs.declared.read_loop.FrameKind.TheVariants.{Whole};
ghost use Rattle.asn1_blocks.specs.declared.read_loop.OpenFrame.{OpenFrame};

use crate::block::GroupKind;
use crate::parsed::{PlacedHeader, header_within};
use asn1_headers::error::{ASN1DecodeErr, LocatedErr};
use asn1_headers::header::{ASN1Class, HeaderCount};
use asn1_headers::tags::{SEQUENCE, SET};
use asn1_numbers::number::big_uint::BigUint;
use std::alloc::{AllocError, Global};
use std::mem;

// A constructed encoding of another class than Universal. Its contents octets are read as blocks; where that fails, or
// gives any other number than one, it stays as it came.
#[derive(Drop)]
pub struct Attempt {
    pub class: ASN1Class,
    pub offset: usize,
    pub tag: BigUint,
}

// What the contents octets of a frame are. The class and the tag of an attempt are kept by the builder that needs them:
// frames are moved whenever one opens or closes, so they are small.
#[derive(Drop)]
pub enum FrameKind {
    // The whole document.
    Whole,
    // The contents octets of a SEQUENCE or SET.
    Group(GroupKind),
    Attempt,
}

// Contents octets, where they begin and end in the document, and the offset of their header.
#[derive(Drop)]
pub struct Extent {
    pub kind: FrameKind,
    pub offset: usize,
    pub start: usize,
    pub end: usize,
}

// Contents octets that are being read, and what a builder keeps of the items so far.
#[derive(Drop)]
pub struct OpenFrame<I> {
    pub extent: Extent,
    pub items: I,
}

// What is built of the blocks, while they are read: each call adds one to the innermost frame, or opens one in it.
// `depth` is how many frames stand around that frame.
pub trait Builder: Drop {
    type Items: Drop;

    // The builder was given these trees in these frames of the document, the innermost first.
    ghost holds: { List ℕ → Self → List (OpenFrame Self.Items) → List (List (Tree ℕ)) → Type 0 };

    // The items of a new frame in the innermost one, of the encoding with the header.
    fn open(
        &mut self,
        alloc: Global,
        octets: &[u8],
        header: &PlacedHeader,
        offset: usize,
        depth: usize,
    ) -> Result<Self::Items, AllocError>
        requires found { (limit : ℕ) × HeaderFound octets.now offset limit header.now
            × (limit ≤ length octets.now) }
        requires inside { IsReadInside header.now.class header.now.constructed header.now.tag }
        ensures { IfOk result (λ items. HasOpened holds octets.now header.now offset depth self.old items self.new) };

    // The innermost frame has the block with the header, whose contents octets are not read as blocks.
    fn leaf(
        &mut self,
        alloc: Global,
        octets: &[u8],
        items: &mut Self::Items,
        header: PlacedHeader,
        offset: usize,
        depth: usize,
    ) -> Result<(), ASN1DecodeErr>
        requires found { (limit : ℕ) × HeaderFound octets.now offset limit header
            × (limit ≤ length octets.now) }
        requires leaf { IsReadInside header.class header.constructed header.tag → ⊥ }
        ensures built { OnOk result
            (HasLeaf holds octets.now offset header.end depth self.old items.old self.new items.new) }
        ensures refused { IfErr result
            (OutOfMemoryOr (IsLeafFault octets.now header self.old items.old self.new items.new)) };

    // The frame has ended, and the one around it, whose items are `parent`, has its block.
    fn close(
        &mut self,
        alloc: Global,
        octets: &[u8],
        extent: Extent,
        items: Self::Items,
        parent: &mut Self::Items,
        depth: usize,
    ) -> Result<(), AllocError>
        requires { CanEnd holds octets.now (in_frame extent items) depth self.old parent.old }
        ensures { OnOk result
            (HasEndedIn holds octets.now (in_frame extent items) depth self.old parent.old self.new parent.new) };

    // A fault inside ended the frame, an attempt: the frame around it has the encoding as it came.
    fn keep(
        &mut self,
        alloc: Global,
        octets: &[u8],
        extent: Extent,
        items: Self::Items,
        parent: &mut Self::Items,
        depth: usize,
    ) -> Result<(), AllocError>
        requires { CanBeKept octets.now extent }
        ensures { OnOk result
            (HasKept holds octets.now (in_frame extent items) depth self.old parent.old self.new parent.new) };
}

// The innermost frame, those around it, the offset reached, and what is built.
#[derive(Drop)]
pub struct Reader<B, I> {
    pub inner: OpenFrame<I>,
    pub outer: Vec<OpenFrame<I>>,
    pub index: usize,
    pub builder: B,
    // Why reading stopped.
    pub fault: ASN1DecodeErr,
}

// Where a turn of a loop over headers leads: there is more to do, the octets have ended, or the loop stops before that.
#[derive(Clone, Copy)]
pub enum Turn {
    More,
    End,
    Stop,
}

// Room for so many frames is made at once: few documents have more that stand in one another.
const RESERVED: usize = 8;

// Reads a document: gives the builder back, and the document's items.
pub fn read_into<B: Builder>(
    alloc: Global,
    octets: &[u8],
    builder: B,
    items: B::Items,
    count: &mut HeaderCount,
) -> Result<(B, B::Items), LocatedErr>
    requires room { count.old + length octets.now < 2 ^ 64 }
    requires empty { StartsEmpty B.holds octets.now builder items }
    ensures document { IfOk result (λ built. HasDocument B.holds octets.now built.0 built.1) }
    ensures refused { IfErr result (OutOfMemoryOrAt (FirstFaultAt octets.now)) }
    ensures counted { MatchResult result
        (λ _. (n : ℕ) × HeadersBegun octets.now n × (count.new ≡ count.old + n))
        (λ e. (e.error ≡ OutOfMemory)
        ⊎ ((n : ℕ) × HeadersBegun octets.now n × (count.new ≡ count.old + n))) }
    ensures grown { count.old ≤ count.new }
    ensures bounded { count.new ≤ count.old + length octets.now }
{
    if octets.is_empty() {
        return Err(LocatedErr {
            error: ASN1DecodeErr::EmptyBuffer,
            offset: 0,
        });
    }
    let Ok(outer) = Vec::with_capacity(alloc, RESERVED) else {
        return Err(out_of_memory(0));
    };
    let mut reader = Reader {
        inner: OpenFrame {
            extent: whole_extent(octets.len()),
            items,
        },
        outer,
        index: 0,
        builder,
        fault: ASN1DecodeErr::OutOfMemory,
    };
    'turns: loop {
        match take_step(alloc, octets, &mut reader, count) {
            None => {
                let Reader { inner, builder, .. } = reader;
                return Ok((builder, inner.items));
            }
            Some(Ok(())) => {}
            Some(Err(e)) => {
                if !recover(alloc, octets, &mut reader, e) {
                    return Err(LocatedErr {
                        error: reader.fault,
                        offset: reader.index,
                    });
                }
            }
        }
    }
}

// The extent of a document that has so many octets.
fn whole_extent(size: usize) -> Extent
    ensures { result ≡ record { kind = Whole; offset = 0; start = 0; end = size } }
{
    Extent {
        kind: FrameKind::Whole,
        offset: 0,
        start: 0,
        end: size,
    }
}

// Reads one header and what it leads, or closes a frame at its end; `None` at the end of the document.
#[inline(always)]
fn take_step<B: Builder>(
    alloc: Global,
    octets: &[u8],
    reader: &mut Reader<B, B::Items>,
    count: &mut HeaderCount,
) -> Option<Result<(), ASN1DecodeErr>>
    requires small { length octets.now < 2 ^ 64 }
    requires reading { (n : ℕ) × IsReading B.holds octets.now reader.old n
        × (count.old + (length octets.now - n) < 2 ^ 64) }
    ensures stepped { (n base : ℕ) → IsReading B.holds octets.now reader.old n → count.old ≡ base + n
        → HasTakenStep B.holds octets.now result reader.new count.new base
        (work_left (length octets.now) reader.old.index reader.old.outer.items) }
{
    if reader.index != reader.inner.extent.end {
        return Some(read_next(alloc, octets, reader, count));
    }
    match reader.outer.pop() {
        Some(parent) => Some(close(alloc, octets, reader, parent)),
        None => None,
    }
}

// Whether reading goes on behind a fault: it does behind the innermost attempt, if there is one. Memory that ran out
// ends it.
#[cold]
#[inline(never)]
fn recover<B: Builder>(
    alloc: Global,
    octets: &[u8],
    reader: &mut Reader<B, B::Items>,
    e: ASN1DecodeErr,
) -> bool
    requires small { length octets.now < 2 ^ 64 }
    requires failed { (n most : ℕ)
        × OutOfMemoryOr (λ fault. IsFaulty B.holds octets.now reader.old fault n most) e }
    ensures recovered { (n most : ℕ)
        → OutOfMemoryOr (λ fault. IsFaulty B.holds octets.now reader.old fault n most) e
        → HasRecovered B.holds octets.now result reader.new n most }
{
    if is_out_of_memory(&e) {
        reader.fault = e;
        return false;
    }
    refuse(alloc, octets, reader, e)
}

pub fn out_of_memory(offset: usize) -> LocatedErr
    ensures { result.error ≡ OutOfMemory }
{
    LocatedErr {
        error: ASN1DecodeErr::OutOfMemory,
        offset,
    }
}

pub fn is_out_of_memory(e: &ASN1DecodeErr) -> bool
    ensures { IsTrue result ↔ (e.now ≡ OutOfMemory) }
{
    matches!(e, ASN1DecodeErr::OutOfMemory)
}

// Reads one header of the innermost frame, and what it leads.
#[inline(always)]
fn read_next<B: Builder>(
    alloc: Global,
    octets: &[u8],
    reader: &mut Reader<B, B::Items>,
    count: &mut HeaderCount,
) -> Result<(), ASN1DecodeErr>
    requires room { count.old + 1 < 2 ^ 64 }
    requires small { length octets.now < 2 ^ 64 }
    requires more { reader.old.index ≢ reader.old.inner.extent.end }
    requires reading { (n : ℕ) × IsReading B.holds octets.now reader.old n }
    ensures counted { count.new ≡ count.old + 1 }
    ensures stepped { (n : ℕ) → IsReading B.holds octets.now reader.old n
        → HasStepped B.holds octets.now result reader.new (n + 1)
        (work_left (length octets.now) reader.old.index reader.old.outer.items) }
{
    let offset = reader.index;
    let depth = reader.outer.len();
    let Extent { start, end, .. } = reader.inner.extent;
    let header = header_within(alloc, octets, start, end, offset, count)?;
    let (start, end) = (header.start, header.end);
    if is_read_inside(&header) {
        let items = reader.builder.open(alloc, octets, &header, offset, depth)?;
        let extent = Extent {
            kind: kind_of(&header),
            offset,
            start,
            end,
        };
        return Ok(enter(reader, OpenFrame { extent, items })?);
    }
    let items = &mut reader.inner.items;
    reader
        .builder
        .leaf(alloc, octets, items, header, offset, depth)?;
    reader.index = end;
    Ok(())
}

// Whether the contents octets are read as blocks.
#[inline(always)]
pub fn is_read_inside(header: &PlacedHeader) -> bool
    ensures { IsTrue result ↔ IsReadInside header.now.class header.now.constructed header.now.tag }
{
    match header.class {
        ASN1Class::Universal => matches!(header.tag.to_u64(), Some(SEQUENCE | SET)),
        _ => header.constructed,
    }
}

// The frame of contents octets that are read as blocks, in an encoding with the header.
#[inline(always)]
pub fn kind_of(header: &PlacedHeader) -> FrameKind
    requires { IsReadInside header.now.class header.now.constructed header.now.tag }
    ensures { IsKindOf result header.now }
{
    match header.class {
        ASN1Class::Universal => match header.tag.to_u64() {
            Some(SEQUENCE) => FrameKind::Group(GroupKind::Sequence),
            _ => FrameKind::Group(GroupKind::Set),
        },
        _ => FrameKind::Attempt,
    }
}

// Goes on inside a new frame, the innermost from now on.
#[inline(always)]
pub fn enter<B, I: Drop>(reader: &mut Reader<B, I>, frame: OpenFrame<I>) -> Result<(), AllocError>
    ensures { OnOk result (IsEntered reader.old frame reader.new) }
{
    reader.outer.reserve(1)?;
    reader.index = frame.extent.start;
    let parent = mem::replace(&mut reader.inner, frame);
    reader.outer.push_reserved(parent);
    Ok(())
}

// The innermost frame has ended: it becomes a block of the frame around it.
#[inline(always)]
fn close<B: Builder>(
    alloc: Global,
    octets: &[u8],
    reader: &mut Reader<B, B::Items>,
    parent: OpenFrame<B::Items>,
) -> Result<(), ASN1DecodeErr>
    requires small { length octets.now < 2 ^ 64 }
    requires reading { (n : ℕ) × Reads B.holds octets.now reader.old.builder reader.old.inner
        (parent ∷ reverse reader.old.outer.items) reader.old.inner.extent.end n }
    ensures stepped { (n : ℕ) → Reads B.holds octets.now reader.old.builder reader.old.inner
        (parent ∷ reverse reader.old.outer.items) reader.old.inner.extent.end n
        → HasStepped B.holds octets.now result reader.new n
        (work_left (length octets.now) reader.old.inner.extent.end (parent ∷ reader.old.outer.items)) }
{
    let depth = reader.outer.len();
    let OpenFrame { extent, items } = mem::replace(&mut reader.inner, parent);
    let end = extent.end;
    let parent = &mut reader.inner.items;
    reader
        .builder
        .close(alloc, octets, extent, items, parent, depth)?;
    reader.index = end;
    Ok(())
}

// A fault in the innermost frame drops the frames inside the innermost attempt, and that one stays as it came. Outside
// all attempts it is the answer.
fn refuse<B: Builder>(
    alloc: Global,
    octets: &[u8],
    reader: &mut Reader<B, B::Items>,
    e: ASN1DecodeErr,
) -> bool
    requires small { length octets.now < 2 ^ 64 }
    requires faulty { (n most : ℕ) × IsFaulty B.holds octets.now reader.old (fault_of e) n most }
    ensures recovered { (n most : ℕ) → IsFaulty B.holds octets.now reader.old (fault_of e) n most
        → HasRecovered B.holds octets.now result reader.new n most }
{
    while let Some(parent) = reader.outer.pop() {
        let depth = reader.outer.len();
        let OpenFrame { extent, items } = mem::replace(&mut reader.inner, parent);
        if !is_attempt(&extent.kind) {
            continue;
        }
        let end = extent.end;
        let parent = &mut reader.inner.items;
        let Ok(()) = reader
            .builder
            .keep(alloc, octets, extent, items, parent, depth)
        else {
            reader.fault = ASN1DecodeErr::OutOfMemory;
            return false;
        };
        reader.index = end;
        return true;
    }
    reader.fault = e;
    false
}

// Whether a fault inside the frame ends there.
#[inline(always)]
pub fn is_attempt(kind: &FrameKind) -> bool
    ensures { result ≡ is_attempt kind.now }
{
    matches!(kind, FrameKind::Attempt)
}
