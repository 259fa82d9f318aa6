// The octets that records spell, put from the last to the first, and whether they are found to be canonical.
ghost use Rattle.std.specs.Prelude.{◌≡◌, ◌⊎◌, ◌-◌, ◌+◌, ◌<◌, ◌≤◌, ◌++◌, ◌∷◌, [], List, IfErr, IfNone, IfOk, IfSome, IsTrue, MatchOption, OnOk, get_or, length, take};
ghost use Rattle.std.specs.Int.Digits.{digits_of};
ghost use Rattle.simple_asn1.specs.Canonical.{shortest_encoding};
ghost use Rattle.simple_asn1.specs.ReadBack.{IsCanonicalDocument};
ghost use Rattle.simple_asn1.specs.Header.{class_number, shortest_identifier, shortest_length};
ghost use Rattle.asn1_records.specs.Spelled.{AreSpelled, IsState, IsUnspellable, spelled_contents, greatest_tag};
ghost use Rattle.asn1_records.specs.Answers.{IsRefusedRecord};
ghost use Rattle.asn1_records.specs.Room.{IsNoMemory, OrNoMemory};
ghost use Rattle.asn1_records.specs.Inner.InRecords.{HoldsBlocks, IsCanonicalBlock};
ghost use Rattle.asn1_records.specs.Status.{bad_record};
ghost use Rattle.asn1_records.specs.declared.spelling.SpellErr.TheVariants.{Memory, Record};

use crate::canonical::{holds_blocks, is_clearly_canonical_single};
use crate::document_entries::{Fault, OUT_OF_MEMORY};
use crate::prepender::Prepender;
use crate::record::Block;
use crate::status::BAD_RECORD;
use asn1_headers::header::length_size;
use simple_asn1::{ASN1Class, BigUint, encode_class, encode_tag};
use std::alloc::{AllocError, Global};

// Space for length octets, and an identifier octet before them.
const SHORT_HEADER: usize = 10;

// The greatest room that is made at first.
const FIRST_ROOM: usize = 4096;

// For how many encodings there is room at first.
const FIRST_STARTS: usize = 32;

// What records spell, and whether it is found to be the canonical octets of a document: `false` says nothing.
#[derive(Drop)]
pub struct Spelling {
    pub octets: Prepender,
    pub canonical: bool,
}

// Why a record was not put: memory ran out, or it can't stand there.
#[derive(Clone, Copy, Drop)]
enum SpellErr {
    Memory,
    Record,
}

impl From<AllocError> for SpellErr {
    ghost from_gives = { λ f e. e ≡ Memory };

    fn from(_: AllocError) -> SpellErr {
        SpellErr::Memory
    }
}

// The class of this number.
pub fn class_of(number: u8) -> Option<ASN1Class>
    ensures found { IfSome result (λ class. class_number class ≡ number) }
    ensures none { IfNone result (3 < number) }
{
    match number {
        0 => Some(ASN1Class::Universal),
        1 => Some(ASN1Class::Application),
        2 => Some(ASN1Class::ContextSpecific),
        3 => Some(ASN1Class::Private),
        _ => None,
    }
}

// The contents octets of a record, where they are within these.
fn contents_within<'a>(octets: &'a [u8], block: &Block) -> Option<&'a [u8]>
    ensures { MatchOption result
        (length octets.now < block.now.offset + block.now.header + block.now.contents)
        (λ contents. (contents.now ≡ spelled_contents octets.now block.now)
        × (block.now.offset + block.now.header + block.now.contents ≤ length octets.now)) }
{
    let Some(start) = block.offset.checked_add(block.header) else {
        return None;
    };
    let Some(end) = start.checked_add(block.contents) else {
        return None;
    };
    octets.get(start..end)
}

// Puts the octets of the number, the most significant first.
fn prepend_big_endian(out: &mut Prepender, n: usize)
    requires { length (digits_of 256 n) ≤ out.old.space }
    ensures octets { out.new.octets ≡ digits_of 256 n ++ out.old.octets }
    ensures space { out.new.space + length (digits_of 256 n) ≡ out.old.space }
{
    if n == 0 {
        return;
    }
    out.prepend_octet((n % 256) as u8);
    prepend_big_endian(out, n / 256);
}

// Puts the length octets.
#[inline(always)]
fn prepend_length(out: &mut Prepender, n: usize)
    requires { 9 ≤ out.old.space }
    ensures octets { out.new.octets ≡ shortest_length n ++ out.old.octets }
    ensures space { out.old.space ≤ out.new.space + 9 }
{
    if n < 128 {
        out.prepend_octet(n as u8);
        return;
    }
    let size = length_size(n);
    prepend_big_endian(out, n);
    out.prepend_octet(127 + size as u8);
}

// Puts the identifier octets, for whose first there is space.
#[inline(always)]
fn prepend_identifier(
    alloc: Global,
    out: &mut Prepender,
    class: ASN1Class,
    constructed: bool,
    tag: u64,
) -> Result<(), AllocError>
    requires { 0 < out.old.space }
    ensures { OnOk result (out.new.octets ≡ shortest_identifier class constructed tag ++ out.old.octets) }
{
    if tag < 31 {
        let form = if constructed { 0x20 } else { 0 };
        out.prepend_octet(encode_class(class) + form + tag as u8);
        return Ok(());
    }
    prepend_long_identifier(alloc, out, class, constructed, tag)
}

// Puts the identifier octets.
#[cold]
#[inline(never)]
fn prepend_long_identifier(
    alloc: Global,
    out: &mut Prepender,
    class: ASN1Class,
    constructed: bool,
    tag: u64,
) -> Result<(), AllocError>
    ensures { OnOk result (out.new.octets ≡ shortest_identifier class constructed tag ++ out.old.octets) }
{
    let tag = BigUint::from_u64(alloc, tag)?;
    let identifier = encode_tag(alloc, class, constructed, &tag)?;
    out.reserve(alloc, identifier.len())?;
    out.prepend(&identifier);
    Ok(())
}

// Puts the header of contents octets of this size.
#[inline(always)]
fn prepend_header(
    alloc: Global,
    out: &mut Prepender,
    class: ASN1Class,
    constructed: bool,
    tag: u64,
    size: usize,
) -> Result<(), AllocError>
    requires { 10 ≤ out.old.space }
    ensures { OnOk result (out.new.octets
        ≡ shortest_identifier class constructed tag ++ (shortest_length size ++ out.old.octets)) }
{
    prepend_length(out, size);
    prepend_identifier(alloc, out, class, constructed, tag)
}

#[inline(always)]
fn push_start(starts: &mut Vec<usize>, start: usize) -> Result<(), AllocError>
    ensures { OnOk result (starts.new.items ≡ starts.old.items ++ start ∷ []) }
{
    if starts.is_empty() {
        starts.reserve(FIRST_STARTS)?;
    }
    match starts.push(start) {
        Ok(()) => Ok(()),
        Err(_) => Err(AllocError),
    }
}

// Whether octets that were found to be canonical still are with a record of these contents octets.
#[inline(always)]
fn are_clearly_canonical_with(
    canonical: bool,
    class: ASN1Class,
    constructed: bool,
    tag: u64,
    contents: &[u8],
) -> bool
    ensures so_far { IsTrue result → IsTrue canonical }
    ensures this { IsTrue result → IsCanonicalBlock (shortest_encoding class constructed tag contents.now) }
{
    canonical && is_clearly_canonical_single(class, constructed, tag, contents)
}

// Whether octets that were canonical so far still are with a record around them that holds so many encodings.
#[inline(always)]
fn are_clearly_canonical_around(canonical: bool, class: ASN1Class, tag: u64, items: usize) -> bool
    ensures so_far { IsTrue result → IsTrue canonical }
    ensures this { IsTrue result → HoldsBlocks class tag items }
{
    canonical && holds_blocks(class, tag, items)
}

// Puts a record with contents octets of its own.
#[inline(always)]
fn prepend_contents(
    alloc: Global,
    octets: &[u8],
    block: &Block,
    class: ASN1Class,
    out: &mut Prepender,
    starts: &mut Vec<usize>,
    canonical: &mut bool,
) -> Result<(), SpellErr>
    requires class { class_number class ≡ block.now.tag_class }
    requires tag { block.now.tag < greatest_tag }
    requires items { block.now.items ≡ 0 }
    ensures put { OnOk result ((rs : List Block) → IsState octets.now rs out.old.octets starts.old.items canonical.old
        → IsState octets.now (block.now ∷ rs) out.new.octets starts.new.items canonical.new) }
    ensures refused { IfErr result (λ e. e ≡ Record
        → length octets.now < block.now.offset + block.now.header + block.now.contents) }
{
    let Some(contents) = contents_within(octets, block) else {
        return Err(SpellErr::Record);
    };
    *canonical = are_clearly_canonical_with(
        *canonical,
        class,
        block.constructed > 0,
        block.tag,
        contents,
    );
    push_start(starts, out.len())?;
    out.reserve(alloc, contents.len() + SHORT_HEADER)?;
    out.prepend(contents);
    prepend_header(
        alloc,
        out,
        class,
        block.constructed > 0,
        block.tag,
        contents.len(),
    )?;
    Ok(())
}

// Takes so many places off the end, and answers where the last of these encodings begins.
#[inline(always)]
fn take_starts(starts: &mut Vec<usize>, count: usize) -> Option<usize>
    requires { 0 < count }
    ensures { MatchOption result
        (length starts.old.items < count)
        (λ start. (count ≤ length starts.old.items)
        × (starts.new.items ≡ take (length starts.old.items - count) starts.old.items)
        × (start ≡ get_or starts.old.items (length starts.old.items - count) 0)) }
{
    let n = starts.len();
    if count > n {
        return None;
    }
    let start = starts[n - count];
    starts.truncate(n - count);
    Some(start)
}

// Puts a record that holds the encodings before it.
#[inline(always)]
fn prepend_items(
    alloc: Global,
    octets: &[u8],
    block: &Block,
    class: ASN1Class,
    out: &mut Prepender,
    starts: &mut Vec<usize>,
    canonical: &mut bool,
) -> Result<(), SpellErr>
    requires class { class_number class ≡ block.now.tag_class }
    requires tag { block.now.tag < greatest_tag }
    requires items { 0 < block.now.items }
    ensures put { OnOk result ((rs : List Block) → IsState octets.now rs out.old.octets starts.old.items canonical.old
        → IsState octets.now (block.now ∷ rs) out.new.octets starts.new.items canonical.new) }
    ensures refused { IfErr result (λ e. e ≡ Record → (rs : List Block)
        → IsState octets.now rs out.old.octets starts.old.items canonical.old
        → length starts.old.items < block.now.items) }
{
    let Some(start) = take_starts(starts, block.items) else {
        return Err(SpellErr::Record);
    };
    let Some(size) = out.len().checked_sub(start) else {
        return Err(SpellErr::Record);
    };
    *canonical = are_clearly_canonical_around(*canonical, class, block.tag, block.items);
    out.reserve(alloc, SHORT_HEADER)?;
    prepend_header(alloc, out, class, true, block.tag, size)?;
    push_start(starts, start)?;
    Ok(())
}

// Puts a record before what it holds.
#[inline(always)]
fn prepend_record(
    alloc: Global,
    octets: &[u8],
    block: &Block,
    out: &mut Prepender,
    starts: &mut Vec<usize>,
    canonical: &mut bool,
) -> Result<(), SpellErr>
    ensures put { OnOk result ((rs : List Block) → IsState octets.now rs out.old.octets starts.old.items canonical.old
        → IsState octets.now (block.now ∷ rs) out.new.octets starts.new.items canonical.new) }
    ensures refused { IfErr result (λ e. e ≡ Record → (rs : List Block)
        → (s : IsState octets.now rs out.old.octets starts.old.items canonical.old)
        → IsUnspellable octets.now s.xs block.now) }
{
    let Some(class) = class_of(block.tag_class) else {
        return Err(SpellErr::Record);
    };
    // the tag number of the block that was read may be greater
    if block.tag == u64::MAX {
        return Err(SpellErr::Record);
    }
    if block.items > 0 {
        prepend_items(alloc, octets, block, class, out, starts, canonical)
    } else {
        prepend_contents(alloc, octets, block, class, out, starts, canonical)
    }
}

fn spell_fault(e: SpellErr, place: usize) -> Fault
    ensures { IsNoMemory result.status result.offset
        ⊎ ((result.status ≡ bad_record) × (e ≡ Record) × (result.offset ≡ place)) }
{
    match e {
        SpellErr::Memory => OUT_OF_MEMORY,
        SpellErr::Record => Fault {
            status: BAD_RECORD,
            offset: place,
        },
    }
}

// Whether octets that were found to be canonical are those of a document, which has some.
#[inline(always)]
fn are_clearly_canonical_some(canonical: bool, count: usize) -> bool
    ensures so_far { IsTrue result → IsTrue canonical }
    ensures some { IsTrue result → 0 < count }
{
    canonical && count > 0
}

// What the records spell, or the fault and the place of the record that has it. They are looked at only where `look`
// says so. What was read takes no more than the first room, if it was short.
pub fn spell(alloc: Global, octets: &[u8], records: &[Block], look: bool) -> Result<Spelling, Fault>
    ensures spelled { IfOk result (λ s. AreSpelled octets.now records.now s.octets.octets) }
    ensures canonical { IfOk result (λ s. IsTrue s.canonical → IsCanonicalDocument s.octets.octets) }
    ensures fault { IfErr result
        (λ f. OrNoMemory (IsRefusedRecord octets.now records.now) f.status f.offset) }
{
    let first_room = FIRST_ROOM.min(octets.len() + SHORT_HEADER);
    let mut out = Prepender::new(alloc, first_room);
    let mut starts = Vec::new(alloc);
    let mut canonical = look;
    let mut i = records.len();
    while i > 0 {
        i -= 1;
        match prepend_record(
            alloc,
            octets,
            &records[i],
            &mut out,
            &mut starts,
            &mut canonical,
        ) {
            Ok(()) => {}
            Err(e) => return Err(spell_fault(e, i)),
        }
    }
    let canonical = are_clearly_canonical_some(canonical, out.len());
    Ok(Spelling {
        octets: out,
        canonical,
    })
}
