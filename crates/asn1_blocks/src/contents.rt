// What differs from kind to kind of block: which module reads and pushes the contents octets of a tag, one for each
// kind that has a rule; and how a block is copied and compared beside the blocks that it holds.
ghost use Rattle.std.specs.Prelude.{◌≡◌, ◌↔◌, ◌⊎◌, ◌≤◌, ℕ, List, length, false, None, Some, IfOk, IfErr, IsTrue, MatchOption, OnOk};
ghost use Rattle.std.specs.Str.{chars};
ghost use Rattle.asn1_headers.specs.declared.header.ASN1Class.TheVariants.{Universal};
ghost use Rattle.asn1_blocks.specs.Contents.{LeafFault, is_group_tag, is_known_tag, is_leaf_tag, string_tag};
ghost use Rattle.asn1_leaves.specs.Contents.Moment.{moment_of};
ghost use Rattle.asn1_leaves.specs.Contents.Text.{text_form};
ghost use Rattle.asn1_leaves.specs.StringKind.{StringKind};
ghost use Rattle.asn1_blocks.specs.Inner.LeafBlocks.{IsLeafOf, IsNoLeafOrMeant, IsSingleAt};
ghost use Rattle.asn1_blocks.specs.Inner.OwnContents.{own_contents, own_fault};
ghost use Rattle.asn1_blocks.specs.Inner.FaithfulWalk.{IsFaithfulIfLeaf};
ghost use Rattle.asn1_headers.specs.Fault.{OutOfMemoryOr};
ghost use Rattle.asn1_blocks.specs.Grammar.{Encodes};
ghost use Rattle.asn1_headers.specs.Header.{Encoding};
ghost use Rattle.asn1_blocks.specs.HeadersBegun.{IsReadInside};
ghost use Rattle.asn1_blocks.specs.Tree.{unknown};
ghost use Rattle.asn1_blocks.specs.Inner.TreeOrder.{inside, own_shape};
ghost use Rattle.asn1_blocks.specs.View.{view, views};
ghost use Rattle.asn1_headers.specs.declared.error.ASN1DecodeErr.TheVariants.{OutOfMemory};
ghost use Rattle.asn1_headers.specs.declared.error.ASN1EncodeErr.TheVariants.{OutOfMemory as no_memory};

use crate::block::ASN1Block;
use crate::held::{HeldBlocks, boxed};
use crate::parsed::PlacedHeader;
use asn1_headers::error::{ASN1DecodeErr, ASN1EncodeErr};
use asn1_headers::header::ASN1Class;
use asn1_headers::tags::{
    BIT_STRING, BMP_STRING, BOOLEAN, GENERALIZED_TIME, IA5_STRING, INTEGER, NULL,
    OBJECT_IDENTIFIER, OCTET_STRING, PRINTABLE_STRING, SEQUENCE, SET, TELETEX_STRING,
    UNIVERSAL_STRING, UTC_TIME, UTF8_STRING,
};
use asn1_leaves::contents::text::TextForm;
use asn1_leaves::contents::{
    bit_string, boolean, generalized_time, integer, object_identifier, text, utc_time,
};
use asn1_leaves::oid;
use asn1_numbers::number::big_uint::BigUint;
use asn1_numbers::sink::Sink;
use jiff::civil::DateTime;
use std::alloc::{AllocError, Global};

// The block of an encoding whose contents are not read as blocks.
#[inline(always)]
pub fn leaf_block(
    alloc: Global,
    header: PlacedHeader,
    contents: &[u8],
    offset: usize,
) -> Result<ASN1Block, ASN1DecodeErr>
    requires closed { IsReadInside header.class header.constructed header.tag → ⊥ }
    ensures encoded { IfOk result (λ b. (octets : List ℕ) (h : ℕ)
        → Encoding octets header.class header.constructed header.tag contents.now h
        → Encodes offset octets (view b)) }
    ensures refused { IfErr result (OutOfMemoryOr (λ e.
        (header.class ≡ Universal) × LeafFault header.tag contents.now e)) }
{
    match header.class {
        ASN1Class::Universal => match universal_leaf(alloc, &header.tag, contents, offset)? {
            Some(block) => Ok(block),
            None => unknown_block(alloc, header, contents, offset),
        },
        _ => unknown_block(alloc, header, contents, offset),
    }
}

// The leaf that contents octets of class Universal mean, where their tag is that of one.
#[inline(always)]
fn universal_leaf(
    alloc: Global,
    tag: &BigUint,
    contents: &[u8],
    offset: usize,
) -> Result<Option<ASN1Block>, ASN1DecodeErr>
    ensures found { IfOk result (λ found. MatchOption found (is_leaf_tag tag.now ≡ false)
        (λ b. IsLeafOf offset tag.now contents.now (view b))) }
    ensures refused { IfErr result (OutOfMemoryOr (LeafFault tag.now contents.now)) }
{
    let block = match tag.to_u64() {
        Some(BOOLEAN) => ASN1Block::Boolean(offset, boolean::read(contents)?),
        Some(INTEGER) => ASN1Block::Integer(offset, integer::read(alloc, contents)?),
        Some(BIT_STRING) => {
            let (bits, octets) = bit_string::read(alloc, contents)?;
            ASN1Block::BitString(offset, bits, octets)
        }
        Some(OCTET_STRING) => ASN1Block::OctetString(offset, Vec::from_slice(alloc, contents)?),
        Some(NULL) => ASN1Block::Null(offset),
        Some(OBJECT_IDENTIFIER) => ASN1Block::ObjectIdentifier(offset, oid::read(alloc, contents)?),
        Some(UTF8_STRING) => ASN1Block::UTF8String(
            offset,
            text::read(alloc, TextForm::Utf8, contents)?,
        ),
        Some(PRINTABLE_STRING) => {
            ASN1Block::PrintableString(offset, text::read(alloc, TextForm::Printable, contents)?)
        }
        Some(TELETEX_STRING) => ASN1Block::TeletexString(
            offset,
            text::read(alloc, TextForm::Utf8, contents)?,
        ),
        Some(IA5_STRING) => ASN1Block::IA5String(
            offset,
            text::read(alloc, TextForm::Octets, contents)?,
        ),
        Some(UTC_TIME) => ASN1Block::UTCTime(offset, utc_time::read(alloc, contents)?),
        Some(GENERALIZED_TIME) => ASN1Block::GeneralizedTime(
            offset,
            generalized_time::read(alloc, contents)?,
        ),
        Some(UNIVERSAL_STRING) => {
            ASN1Block::UniversalString(offset, text::read(alloc, TextForm::Utf8, contents)?)
        }
        Some(BMP_STRING) => ASN1Block::BMPString(
            offset,
            text::read(alloc, TextForm::Utf8, contents)?,
        ),
        _ => return Ok(None),
    };
    Ok(Some(block))
}

// Whether the contents octets of an encoding that are not read as blocks are those of a block, of which none is made.
#[inline(always)]
pub fn check_contents(
    alloc: Global,
    header: &PlacedHeader,
    contents: &[u8],
) -> Result<(), ASN1DecodeErr>
    requires closed { IsReadInside header.now.class header.now.constructed header.now.tag → ⊥ }
    ensures encoded { OnOk result ((offset : ℕ) (octets : List ℕ) (h : ℕ)
        → Encoding octets header.now.class header.now.constructed header.now.tag contents.now h
        → IsSingleAt offset octets) }
    ensures refused { IfErr result (OutOfMemoryOr (λ e.
        (header.now.class ≡ Universal) × LeafFault header.now.tag contents.now e)) }
{
    match header.class {
        ASN1Class::Universal => check_leaf(alloc, &header.tag, contents),
        _ => Ok(()),
    }
}

// Whether contents octets of class Universal mean a leaf, where their tag is that of one.
#[inline(always)]
fn check_leaf(alloc: Global, tag: &BigUint, contents: &[u8]) -> Result<(), ASN1DecodeErr>
    ensures found { OnOk result (IsNoLeafOrMeant tag.now contents.now) }
    ensures refused { IfErr result (OutOfMemoryOr (LeafFault tag.now contents.now)) }
{
    match tag.to_u64() {
        Some(tag) => {
            if are_clearly_meant(tag, contents) {
                Ok(())
            } else {
                check_by_reading(alloc, tag, contents)
            }
        }
        None => Ok(()),
    }
}

// Whether contents octets with a tag of this number mean a leaf, without the fault where they do not.
#[inline(always)]
fn are_clearly_meant(tag: u64, contents: &[u8]) -> bool
    ensures { IsTrue result → IsNoLeafOrMeant tag contents.now }
{
    match tag {
        BOOLEAN => boolean::are_clearly_meant(contents),
        INTEGER => true,
        BIT_STRING => bit_string::are_clearly_meant(contents),
        OCTET_STRING => true,
        NULL => true,
        OBJECT_IDENTIFIER => object_identifier::are_clearly_meant(contents),
        UTF8_STRING => text::are_clearly_meant(TextForm::Utf8, contents),
        PRINTABLE_STRING => text::are_clearly_meant(TextForm::Printable, contents),
        TELETEX_STRING => text::are_clearly_meant(TextForm::Utf8, contents),
        IA5_STRING => true,
        UTC_TIME => utc_time::are_clearly_meant(contents),
        GENERALIZED_TIME => generalized_time::are_clearly_meant(contents),
        UNIVERSAL_STRING => text::are_clearly_meant(TextForm::Utf8, contents),
        BMP_STRING => text::are_clearly_meant(TextForm::Utf8, contents),
        _ => true,
    }
}

// Reads contents octets, to say why they mean no leaf. It takes the number of the tag, so that no tag is put in memory
// only to be lent.
#[cold]
#[inline(never)]
fn check_by_reading(alloc: Global, tag: u64, contents: &[u8]) -> Result<(), ASN1DecodeErr>
    ensures found { OnOk result (IsNoLeafOrMeant tag contents.now) }
    ensures refused { IfErr result (OutOfMemoryOr (LeafFault tag contents.now)) }
{
    let tag = BigUint::from_u64(alloc, tag)?;
    let leaf = universal_leaf(alloc, &tag, contents, 0)?;
    drop(leaf);
    Ok(())
}

fn unknown_block(
    alloc: Global,
    header: PlacedHeader,
    contents: &[u8],
    offset: usize,
) -> Result<ASN1Block, ASN1DecodeErr>
    ensures kept { IfOk result (λ b.
        view b ≡ unknown header.class header.constructed offset header.tag contents.now) }
    ensures refused { IfErr result (λ e. e ≡ OutOfMemory) }
{
    let octets = Vec::from_slice(alloc, contents)?;
    let PlacedHeader {
        class,
        constructed,
        tag,
        ..
    } = header;
    Ok(ASN1Block::Unknown(class, constructed, offset, tag, octets))
}

// Whether a leaf is read back as it is, once it is written.
pub fn is_faithful_leaf(b: &ASN1Block) -> bool
    ensures { IsTrue result ↔ IsFaithfulIfLeaf (view b.now) }
{
    match b {
        ASN1Block::BitString(_, bits, v) => bit_string::is_faithful(*bits, v),
        ASN1Block::UTF8String(_, s)
        | ASN1Block::TeletexString(_, s)
        | ASN1Block::UniversalString(_, s)
        | ASN1Block::BMPString(_, s) => text::is_faithful(TextForm::Utf8, s),
        ASN1Block::PrintableString(_, s) => text::is_faithful(TextForm::Printable, s),
        ASN1Block::IA5String(_, s) => text::is_faithful(TextForm::Octets, s),
        ASN1Block::ObjectIdentifier(_, identifier) => oid::is_faithful(identifier),
        ASN1Block::UTCTime(_, d) => utc_time::is_faithful(d),
        ASN1Block::GeneralizedTime(_, d) => generalized_time::is_faithful(d),
        ASN1Block::Boolean(_, _)
        | ASN1Block::Integer(_, _)
        | ASN1Block::OctetString(_, _)
        | ASN1Block::Null(_) => true,
        ASN1Block::Sequence(_, _)
        | ASN1Block::Set(_, _)
        | ASN1Block::Explicit(_, _, _, _)
        | ASN1Block::Unknown(_, _, _, _, _) => true,
    }
}

// Whether contents octets of class Universal with this tag number have a rule.
#[inline(always)]
pub fn is_known(tag: u64) -> bool
    ensures { result ≡ is_known_tag tag }
{
    matches!(
        tag,
        BOOLEAN..=OBJECT_IDENTIFIER
            | UTF8_STRING
            | SEQUENCE
            | SET
            | PRINTABLE_STRING
            | TELETEX_STRING
            | IA5_STRING
            | UTC_TIME
            | GENERALIZED_TIME
            | UNIVERSAL_STRING
            | BMP_STRING
    )
}

// Whether the tag number is that of a SEQUENCE or SET.
#[inline(always)]
pub fn is_group_tag(tag: u64) -> bool
    ensures { result ≡ is_group_tag tag }
{
    matches!(tag, SEQUENCE | SET)
}

// The form of a string with the tag number.
pub fn form_of(tag: u64) -> Option<TextForm>
    ensures { MatchOption result
        ((kind : StringKind) → tag ≡ string_tag kind → ⊥)
        (λ form. (kind : StringKind) × (tag ≡ string_tag kind) × (form ≡ text_form kind)) }
{
    match tag {
        UTF8_STRING => Some(TextForm::Utf8),
        PRINTABLE_STRING => Some(TextForm::Printable),
        TELETEX_STRING => Some(TextForm::Utf8),
        IA5_STRING => Some(TextForm::Octets),
        UNIVERSAL_STRING => Some(TextForm::Utf8),
        BMP_STRING => Some(TextForm::Utf8),
        _ => None,
    }
}

// The number of contents octets that are written of the block itself, without those of the blocks that it holds.
#[inline(always)]
pub fn own_size(b: &ASN1Block) -> Result<usize, ASN1EncodeErr>
    ensures size { IfOk result (λ n. n ≡ length (own_contents (view b.now))) }
    ensures writable { OnOk result (own_fault (view b.now) ≡ None) }
    ensures refused { IfErr result (λ e. (e ≡ no_memory) ⊎ (own_fault (view b.now) ≡ Some e)) }
{
    match b {
        ASN1Block::Boolean(_, x) => Ok(boolean::size(*x)),
        ASN1Block::Integer(_, n) => Ok(integer::size(n)),
        ASN1Block::BitString(_, bits, v) => bit_string::size(*bits, v),
        ASN1Block::OctetString(_, v) | ASN1Block::Unknown(_, _, _, _, v) => Ok(v.len()),
        ASN1Block::UTF8String(_, s)
        | ASN1Block::TeletexString(_, s)
        | ASN1Block::UniversalString(_, s)
        | ASN1Block::BMPString(_, s) => text::size(TextForm::Utf8, s),
        ASN1Block::PrintableString(_, s) => text::size(TextForm::Printable, s),
        ASN1Block::IA5String(_, s) => text::size(TextForm::Octets, s),
        ASN1Block::Null(_) => Ok(0),
        ASN1Block::ObjectIdentifier(_, identifier) => oid::size(identifier),
        ASN1Block::UTCTime(_, d) => utc_time::size(d),
        ASN1Block::GeneralizedTime(_, d) => generalized_time::size(d),
        ASN1Block::Sequence(_, _) | ASN1Block::Set(_, _) | ASN1Block::Explicit(_, _, _, _) => Ok(0),
    }
}

// Puts these contents octets.
pub fn push_own<S: Sink>(b: &ASN1Block, out: &mut S)
    requires room { length (own_contents (view b.now)) ≤ S.room out.old }
    requires writable { own_fault (view b.now) ≡ None }
    ensures { S.pushes out.old (own_contents (view b.now)) out.new }
{
    match b {
        ASN1Block::Boolean(_, x) => boolean::push(*x, out),
        ASN1Block::Integer(_, n) => integer::push(n, out),
        ASN1Block::BitString(_, bits, v) => bit_string::push(*bits, v, out),
        ASN1Block::OctetString(_, v) | ASN1Block::Unknown(_, _, _, _, v) => out.push_octets(v),
        ASN1Block::UTF8String(_, s)
        | ASN1Block::TeletexString(_, s)
        | ASN1Block::UniversalString(_, s)
        | ASN1Block::BMPString(_, s) => text::push(TextForm::Utf8, s, out),
        ASN1Block::PrintableString(_, s) => text::push(TextForm::Printable, s, out),
        ASN1Block::IA5String(_, s) => text::push(TextForm::Octets, s, out),
        ASN1Block::Null(_) => {}
        ASN1Block::ObjectIdentifier(_, identifier) => oid::push(identifier, out),
        ASN1Block::UTCTime(_, d) => utc_time::push(d, out),
        ASN1Block::GeneralizedTime(_, d) => generalized_time::push(d, out),
        ASN1Block::Sequence(_, _) | ASN1Block::Set(_, _) | ASN1Block::Explicit(_, _, _, _) => {}
    }
}

// A copy of the block, which takes the copies of the blocks that it holds.
pub fn copy_over(
    alloc: Global,
    b: &ASN1Block,
    held: &mut HeldBlocks,
) -> Result<ASN1Block, AllocError>
    requires { views held.old ≡ inside (view b.now) }
    ensures { IfOk result (λ r. view r ≡ view b.now) }
{
    match b {
        ASN1Block::Boolean(o, x) => Ok(ASN1Block::Boolean(*o, *x)),
        ASN1Block::Integer(o, n) => Ok(ASN1Block::Integer(*o, n.clone(alloc)?)),
        ASN1Block::BitString(o, n, v) => Ok(ASN1Block::BitString(
            *o,
            *n,
            Vec::from_slice(alloc, v)?,
        )),
        ASN1Block::OctetString(o, v) => Ok(ASN1Block::OctetString(*o, Vec::from_slice(alloc, v)?)),
        ASN1Block::Null(o) => Ok(ASN1Block::Null(*o)),
        ASN1Block::ObjectIdentifier(o, oid) => {
            Ok(ASN1Block::ObjectIdentifier(*o, oid.clone(alloc)?))
        }
        ASN1Block::UTCTime(o, d) => Ok(ASN1Block::UTCTime(*o, *d)),
        ASN1Block::GeneralizedTime(o, d) => Ok(ASN1Block::GeneralizedTime(*o, *d)),
        ASN1Block::UTF8String(o, s) => Ok(ASN1Block::UTF8String(*o, s.clone()?)),
        ASN1Block::PrintableString(o, s) => Ok(ASN1Block::PrintableString(*o, s.clone()?)),
        ASN1Block::TeletexString(o, s) => Ok(ASN1Block::TeletexString(*o, s.clone()?)),
        ASN1Block::IA5String(o, s) => Ok(ASN1Block::IA5String(*o, s.clone()?)),
        ASN1Block::UniversalString(o, s) => Ok(ASN1Block::UniversalString(*o, s.clone()?)),
        ASN1Block::BMPString(o, s) => Ok(ASN1Block::BMPString(*o, s.clone()?)),
        ASN1Block::Sequence(o, _) => Ok(ASN1Block::Sequence(*o, held.take_all(alloc))),
        ASN1Block::Set(o, _) => Ok(ASN1Block::Set(*o, held.take_all(alloc))),
        ASN1Block::Explicit(c, o, t, _) => {
            let tag = t.clone(alloc)?;
            Ok(ASN1Block::Explicit(*c, *o, tag, boxed(alloc, held.take_last())?))
        }
        ASN1Block::Unknown(c, k, o, t, v) => {
            Ok(ASN1Block::Unknown(*c, *k, *o, t.clone(alloc)?, Vec::from_slice(alloc, v)?))
        }
    }
}

// Whether two texts have the same characters.
fn same_text(s: &str, t: &str) -> bool
    ensures { IsTrue result ↔ (chars s.now ≡ chars t.now) }
{
    s == t
}

// Whether two moments are the same.
fn same_moment(a: &DateTime, b: &DateTime) -> bool
    ensures { IsTrue result ↔ (moment_of a.now ≡ moment_of b.now) }
{
    a == b
}

// Whether two blocks are the same beside the blocks that they hold.
pub fn same_own(a: &ASN1Block, b: &ASN1Block) -> bool
    ensures { IsTrue result ↔ (own_shape (view a.now) ≡ own_shape (view b.now)) }
{
    match (a, b) {
        (ASN1Block::Boolean(_, x), ASN1Block::Boolean(_, y)) => x == y,
        (ASN1Block::Integer(_, m), ASN1Block::Integer(_, n)) => m == n,
        (ASN1Block::BitString(_, m, v), ASN1Block::BitString(_, n, w)) => m == n && v == w,
        (ASN1Block::OctetString(_, v), ASN1Block::OctetString(_, w)) => v == w,
        (ASN1Block::ObjectIdentifier(_, s), ASN1Block::ObjectIdentifier(_, t)) => s == t,
        (ASN1Block::UTCTime(_, d), ASN1Block::UTCTime(_, e))
        | (ASN1Block::GeneralizedTime(_, d), ASN1Block::GeneralizedTime(_, e)) => same_moment(d, e),
        (ASN1Block::UTF8String(_, s), ASN1Block::UTF8String(_, t))
        | (ASN1Block::PrintableString(_, s), ASN1Block::PrintableString(_, t))
        | (ASN1Block::TeletexString(_, s), ASN1Block::TeletexString(_, t))
        | (ASN1Block::IA5String(_, s), ASN1Block::IA5String(_, t))
        | (ASN1Block::UniversalString(_, s), ASN1Block::UniversalString(_, t))
        | (ASN1Block::BMPString(_, s), ASN1Block::BMPString(_, t)) => same_text(s, t),
        (ASN1Block::Null(_), ASN1Block::Null(_))
        | (ASN1Block::Sequence(_, _), ASN1Block::Sequence(_, _))
        | (ASN1Block::Set(_, _), ASN1Block::Set(_, _)) => true,
        (ASN1Block::Explicit(c, _, m, _), ASN1Block::Explicit(d, _, n, _)) => c == d && m == n,
        (ASN1Block::Unknown(c, j, _, m, v), ASN1Block::Unknown(d, k, _, n, w)) => {
            c == d && j == k && m == n && v == w
        }
        _ => false,
    }
}
