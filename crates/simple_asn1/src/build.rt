//! Makers of blocks for writing. A block that is written needs no offset, so a maker takes what the block holds and no
//! offset; what it makes has offset 0. Text and bytes are copied, and items are moved. A maker that returns a `Result`
//! takes memory, and its only error is that memory ran out; [`implicit`] has others too. A maker of a time returns
//! `None` for what is no time.
ghost use Rattle.std.specs.Prelude.{◌≡◌, ◌≢◌, ◌⊎◌, ◌<◌, ◌≤◌, ◌*◌, ◌∷◌, [], ℕ, false, true, IfErr, IfNone, IfOk, IfSome, None, OnOk, Some, length, pos};
ghost use Rattle.std.specs.Str.{chars};
ghost use Rattle.asn1_blocks.specs.Faithful.{AreFaithful, IsFaithful};
ghost use Rattle.asn1_blocks.specs.Tree.{Trees, bit_string, boolean, explicit, generalized_time, group, integer, leaf, null, object_identifier, octet_string, shapes, text, unknown, utc_time};
ghost use Rattle.asn1_blocks.specs.View.{view, views};
ghost use Rattle.asn1_blocks.specs.declared.block.ASN1Block.{ASN1Block};
ghost use Rattle.asn1_blocks.specs.declared.block.GroupKind.TheVariants.{Sequence, Set};
ghost use Rattle.asn1_headers.specs.declared.error.ASN1EncodeErr.TheVariants.{OutOfMemory as no_memory};
ghost use Rattle.asn1_headers.specs.declared.header.ASN1Class.TheVariants.{Universal};
ghost use Rattle.asn1_leaves.specs.Contents.Moment.{IsValid, moment_of};
ghost use Rattle.asn1_leaves.specs.Contents.UtcTime.{IsFaithfulUtcTime};
ghost use Rattle.asn1_leaves.specs.StringKind.{ia5, printable, utf8};
ghost use Rattle.asn1_numbers.specs.Octets.{FitInSlice};
ghost use Rattle.asn1_numbers.specs.TwosComplement.{shortest_octets};
ghost use Rattle.asn1_writing.specs.Canonical.{all_canonical, canonical, first_write_fault, shortest_encoding, write_fault};
ghost use Rattle.simple_asn1.specs.HeldBlocks.{HoldsBlocksOf};
ghost use Rattle.simple_asn1.specs.Moments.{moment_with};
ghost use Rattle.simple_asn1.specs.Sets.{IsSetBy, tag_key};

use crate::sets::{by_encodings, by_tags};
use asn1_blocks::block::ASN1Block;
use asn1_blocks::held::HeldBlocks;
use asn1_blocks::postponed::explicit_block;
use asn1_blocks::read_loop::Attempt;
use asn1_headers::error::ASN1EncodeErr;
use asn1_headers::header::ASN1Class;
use asn1_headers::tags::ENUMERATED;
use asn1_leaves::oid::OID;
use asn1_numbers::number::big_int::BigInt;
use asn1_numbers::number::big_uint::BigUint;
use asn1_writing::write::write_all;
use jiff::civil::DateTime;
use std::alloc::{AllocError, Global};

/// A BOOLEAN.
///
/// ```rust
/// use simple_asn1::{ASN1Block, build};
///
/// // Written as `01 01 FF`.
/// fn yes() -> ASN1Block {
///     build::boolean(true)
/// }
/// ```
pub fn boolean(value: bool) -> ASN1Block
    ensures { view result ≡ leaf 0 (boolean value) }
{
    ASN1Block::Boolean(0, value)
}

/// An INTEGER.
///
/// ```rust
/// use simple_asn1::{ASN1Block, build};
/// use std::alloc::{AllocError, Global};
///
/// // Written as `02 01 05`.
/// fn five(alloc: Global) -> Result<ASN1Block, AllocError> {
///     build::integer(alloc, 5)
/// }
/// ```
pub fn integer(alloc: Global, number: i64) -> Result<ASN1Block, AllocError>
    ensures { IfOk result (λ b. view b ≡ leaf 0 (integer number)) }
{
    Ok(ASN1Block::Integer(0, BigInt::from_i64(alloc, number)?))
}

/// An INTEGER of any size.
///
/// ```rust
/// use simple_asn1::{ASN1Block, BigInt, build};
/// use std::alloc::{AllocError, Global};
///
/// // A serial number, given in two's complement: `01 00` is written as `02 02 01 00`.
/// fn serial_number(alloc: Global, bytes: &[u8]) -> Result<ASN1Block, AllocError> {
///     Ok(build::big_integer(BigInt::from_signed_bytes_be(alloc, bytes)?))
/// }
/// ```
pub fn big_integer(number: BigInt) -> ASN1Block
    ensures { view result ≡ leaf 0 (integer number) }
{
    ASN1Block::Integer(0, number)
}

/// A BIT STRING of all bits of the bytes, as a key or a signature is one. For other numbers of bits make
/// [`ASN1Block::BitString`] itself. More bytes than a `usize` can count bits of are taken as memory that ran out.
///
/// ```rust
/// use simple_asn1::{ASN1Block, build};
/// use std::alloc::{AllocError, Global};
///
/// // A public key: `04 1F` is written as `03 03 00 04 1F`.
/// fn key(alloc: Global, bytes: &[u8]) -> Result<ASN1Block, AllocError> {
///     build::bit_string(alloc, bytes)
/// }
/// ```
pub fn bit_string(alloc: Global, octets: &[u8]) -> Result<ASN1Block, AllocError>
    ensures { IfOk result (λ b. view b ≡ leaf 0 (bit_string (8 * length octets.now) octets.now)) }
{
    let Some(bits) = octets.len().checked_mul(8) else {
        return Err(AllocError);
    };
    Ok(ASN1Block::BitString(0, bits, Vec::from_slice(alloc, octets)?))
}

/// An OCTET STRING.
///
/// ```rust
/// use simple_asn1::{ASN1Block, build};
/// use std::alloc::{AllocError, Global};
///
/// // Written as `04 02 CA FE`.
/// fn octets(alloc: Global) -> Result<ASN1Block, AllocError> {
///     build::octet_string(alloc, &[0xCA, 0xFE])
/// }
/// ```
pub fn octet_string(alloc: Global, octets: &[u8]) -> Result<ASN1Block, AllocError>
    ensures { IfOk result (λ b. view b ≡ leaf 0 (octet_string octets.now)) }
{
    Ok(ASN1Block::OctetString(0, Vec::from_slice(alloc, octets)?))
}

/// A NULL.
///
/// ```rust
/// use simple_asn1::{ASN1Block, build};
///
/// // Written as `05 00`.
/// fn nothing() -> ASN1Block {
///     build::null()
/// }
/// ```
pub fn null() -> ASN1Block
    ensures { view result ≡ leaf 0 null }
{
    ASN1Block::Null(0)
}

/// An OBJECT IDENTIFIER.
///
/// ```rust
/// use simple_asn1::{ASN1Block, build, oid};
/// use std::alloc::{AllocError, Global};
///
/// // commonName of X.520, written as `06 03 55 04 03`.
/// fn common_name(alloc: Global) -> Result<ASN1Block, AllocError> {
///     Ok(build::object_identifier(oid!(alloc; 2, 5, 4, 3)?))
/// }
/// ```
pub fn object_identifier(identifier: OID) -> ASN1Block
    ensures { view result ≡ leaf 0 (object_identifier identifier) }
{
    ASN1Block::ObjectIdentifier(0, identifier)
}

/// A UTF8String.
///
/// ```rust
/// use simple_asn1::{ASN1Block, build};
/// use std::alloc::{AllocError, Global};
///
/// // Written as `0C 05 4A C3 B6 72 67`.
/// fn name(alloc: Global) -> Result<ASN1Block, AllocError> {
///     build::utf8_string(alloc, "Jörg")
/// }
/// ```
pub fn utf8_string(alloc: Global, characters: &str) -> Result<ASN1Block, AllocError>
    ensures { IfOk result (λ b. view b ≡ leaf 0 (text utf8 (chars characters.now))) }
{
    Ok(ASN1Block::UTF8String(0, String::from_str(alloc, characters)?))
}

/// A PrintableString. It comes back only if its characters are among the 74 of X.680 table 10;
/// [`to_der_faithful`](crate::to_der_faithful) rejects any other, such as `*`, `@` and `&`.
///
/// ```rust
/// use simple_asn1::{ASN1Block, build};
/// use std::alloc::{AllocError, Global};
///
/// // Written as `13 02 44 45`.
/// fn name(alloc: Global) -> Result<ASN1Block, AllocError> {
///     build::printable_string(alloc, "DE")
/// }
/// ```
pub fn printable_string(alloc: Global, characters: &str) -> Result<ASN1Block, AllocError>
    ensures { IfOk result (λ b. view b ≡ leaf 0 (text printable (chars characters.now))) }
{
    Ok(ASN1Block::PrintableString(0, String::from_str(alloc, characters)?))
}

/// An IA5String. A character above 255 cannot be written.
///
/// ```rust
/// use simple_asn1::{ASN1Block, build};
/// use std::alloc::{AllocError, Global};
///
/// // Written as `16 03 61 40 62`.
/// fn name(alloc: Global) -> Result<ASN1Block, AllocError> {
///     build::ia5_string(alloc, "a@b")
/// }
/// ```
pub fn ia5_string(alloc: Global, characters: &str) -> Result<ASN1Block, AllocError>
    ensures { IfOk result (λ b. view b ≡ leaf 0 (text ia5 (chars characters.now))) }
{
    Ok(ASN1Block::IA5String(0, String::from_str(alloc, characters)?))
}

/// A UTCTime of a moment of UTC. `None` if there is no such moment, as on 30 February, at hour 24 or in second 60, or
/// if a UTCTime has no such year: it has those from 1950 to 2049. From 2050 on X.509 uses GeneralizedTime.
///
/// ```rust
/// use simple_asn1::{ASN1Block, build};
///
/// // Written as `17 0D` and `920521000000Z`.
/// fn not_before() -> Option<ASN1Block> {
///     build::utc_time(1992, 5, 21, 0, 0, 0)
/// }
/// ```
pub fn utc_time(
    year: u16,
    month: u8,
    day: u8,
    hour: u8,
    minute: u8,
    second: u8,
) -> Option<ASN1Block>
    ensures made { IfSome result (λ b.
        view b ≡ leaf 0 (utc_time (moment_with year month day hour minute second 0))) }
    ensures faithful { IfSome result (λ b. IsFaithful (view b)) }
    ensures none { IfNone result (IsFaithfulUtcTime (moment_with year month day hour minute second 0) → ⊥) }
{
    if !(1950..=2049).contains(&year) {
        return None;
    }
    let moment = moment(year, month, day, hour, minute, second, 0)?;
    Some(ASN1Block::UTCTime(0, moment))
}

/// A UTCTime of a moment of UTC that the crate `jiff` has. It comes back only if it is a whole second of the years 1950
/// to 2049.
///
/// ```rust
/// use jiff::civil::DateTime;
/// use simple_asn1::{ASN1Block, build};
///
/// // 1992-05-21 00:00:00 is written as `17 0D` and `920521000000Z`.
/// fn not_before(moment: DateTime) -> ASN1Block {
///     build::utc_time_from_jiff(moment)
/// }
/// ```
pub fn utc_time_from_jiff(moment: DateTime) -> ASN1Block
    ensures { view result ≡ leaf 0 (utc_time (moment_of moment)) }
{
    ASN1Block::UTCTime(0, moment)
}

/// A GeneralizedTime of a moment of UTC, with the nanoseconds of its second. `None` if there is no such moment, as on
/// 30 February, at hour 24 or in second 60, or if the year has more than four digits.
///
/// ```rust
/// use simple_asn1::{ASN1Block, build};
///
/// // Written as `18 0F` and `20500101000000Z`.
/// fn not_after() -> Option<ASN1Block> {
///     build::generalized_time(2050, 1, 1, 0, 0, 0, 0)
/// }
/// ```
pub fn generalized_time(
    year: u16,
    month: u8,
    day: u8,
    hour: u8,
    minute: u8,
    second: u8,
    nanosecond: u32,
) -> Option<ASN1Block>
    ensures made { IfSome result (λ b.
        view b ≡ leaf 0 (generalized_time (moment_with year month day hour minute second nanosecond))) }
    ensures faithful { IfSome result (λ b. IsFaithful (view b)) }
    ensures none { IfNone result (IsValid (moment_with year month day hour minute second nanosecond) → ⊥) }
{
    let moment = moment(year, month, day, hour, minute, second, nanosecond)?;
    Some(ASN1Block::GeneralizedTime(0, moment))
}

/// A GeneralizedTime of a moment of UTC that the crate `jiff` has. A year below 0 cannot be written.
///
/// ```rust
/// use jiff::civil::DateTime;
/// use simple_asn1::{ASN1Block, build};
///
/// // 2050-01-01 00:00:00 is written as `18 0F` and `20500101000000Z`.
/// fn not_after(moment: DateTime) -> ASN1Block {
///     build::generalized_time_from_jiff(moment)
/// }
/// ```
pub fn generalized_time_from_jiff(moment: DateTime) -> ASN1Block
    ensures { view result ≡ leaf 0 (generalized_time (moment_of moment)) }
{
    ASN1Block::GeneralizedTime(0, moment)
}

// The moment of these fields, if there is one. In the place of a number that its type has not stands the greatest that
// it has, which is in no moment either.
fn moment(
    year: u16,
    month: u8,
    day: u8,
    hour: u8,
    minute: u8,
    second: u8,
    nanosecond: u32,
) -> Option<DateTime>
    ensures made { IfSome result (λ d.
        moment_of d ≡ moment_with year month day hour minute second nanosecond) }
    ensures valid { IfSome result (λ d. IsValid (moment_of d)) }
    ensures none { IfNone result (IsValid (moment_with year month day hour minute second nanosecond) → ⊥) }
{
    let year = i16::try_from(year).unwrap_or(i16::MAX);
    let nanosecond = i32::try_from(nanosecond).unwrap_or(i32::MAX);
    let (month, day) = (saturated(month), saturated(day));
    let (hour, minute, second) = (saturated(hour), saturated(minute), saturated(second));
    match DateTime::new(year, month, day, hour, minute, second, nanosecond) {
        Ok(moment) => Some(moment),
        Err(_) => None,
    }
}

// The number, or the greatest of its type.
fn saturated(n: u8) -> i8
    ensures same { n < 128 → result ≡ pos n }
    ensures large { 128 ≤ n → result ≡ pos 127 }
{
    i8::try_from(n).unwrap_or(i8::MAX)
}

/// A SEQUENCE of these items, or a SEQUENCE OF them.
///
/// ```rust
/// use simple_asn1::{ASN1Block, build};
/// use std::alloc::{AllocError, Global};
///
/// // Written as `30 05 02 01 05 05 00`.
/// fn pair(alloc: Global) -> Result<ASN1Block, AllocError> {
///     Ok(build::sequence(vec![in alloc; build::integer(alloc, 5)?, build::null()]?))
/// }
/// ```
pub fn sequence(items: Vec<ASN1Block>) -> ASN1Block
    ensures { view result ≡ group 0 Sequence (views items.items) }
{
    ASN1Block::Sequence(0, items)
}

/// A SET of these components in the order of their tags, as DER has it (X.690 10.3, X.680 8.6): those of class
/// Universal, then those of Application, context-specific and private ones, and in each class by their numbers. A SET
/// has no two components with one tag. To make a SET OF, use [`set_of`].
///
/// ```rust
/// use simple_asn1::{ASN1Block, ASN1Class, build};
/// use std::alloc::{AllocError, Global};
///
/// // Written as `31 06 02 01 05 80 01 2A`.
/// fn pair(alloc: Global) -> Result<ASN1Block, AllocError> {
///     let tagged = build::implicit_primitive(alloc, ASN1Class::ContextSpecific, 0, &[0x2A])?;
///     build::set(vec![in alloc; tagged, build::integer(alloc, 5)?]?)
/// }
/// ```
pub fn set(items: Vec<ASN1Block>) -> Result<ASN1Block, AllocError>
    ensures { IfOk result (λ b. IsSetBy tag_key items.items (view b)) }
{
    Ok(ASN1Block::Set(0, by_tags(items)?))
}

/// A SET OF these items in the order of their encodings, as DER has it (X.690 11.6). Each item is written once, and its
/// octets are held while the items are sorted.
///
/// # Errors
/// The errors of [`to_der`](crate::to_der) for the first item that cannot be written; `OutOfMemory`.
///
/// ```rust
/// use simple_asn1::{ASN1Block, ASN1EncodeErr, build};
/// use std::alloc::Global;
///
/// // Written as `31 06 02 01 05 02 01 07`.
/// fn numbers(alloc: Global) -> Result<ASN1Block, ASN1EncodeErr> {
///     build::set_of(alloc, vec![in alloc; build::integer(alloc, 7)?, build::integer(alloc, 5)?]?)
/// }
/// ```
pub fn set_of(alloc: Global, items: Vec<ASN1Block>) -> Result<ASN1Block, ASN1EncodeErr>
    ensures sorted { IfOk result (λ b. IsSetBy canonical items.items (view b)) }
    ensures writable { OnOk result (first_write_fault (views items.items) ≡ None) }
    ensures refused { IfErr result
        (λ e. (e ≡ no_memory) ⊎ (first_write_fault (views items.items) ≡ Some e)) }
{
    Ok(ASN1Block::Set(0, by_encodings(alloc, items)?))
}

/// A SET of these items, or a SET OF them, in the order in which they are given, which DER may not allow.
///
/// ```rust
/// use simple_asn1::{ASN1Block, build};
/// use std::alloc::{AllocError, Global};
///
/// // Written as `31 05 05 00 02 01 05`, which is not DER.
/// fn pair(alloc: Global) -> Result<ASN1Block, AllocError> {
///     Ok(build::set_as_given(vec![in alloc; build::null(), build::integer(alloc, 5)?]?))
/// }
/// ```
pub fn set_as_given(items: Vec<ASN1Block>) -> ASN1Block
    ensures { view result ≡ group 0 Set (views items.items) }
{
    ASN1Block::Set(0, items)
}

/// An explicit tag around a block (X.690 8.14), such as `[0] EXPLICIT INTEGER`.
///
/// ```rust
/// use simple_asn1::{ASN1Block, ASN1Class, build};
/// use std::alloc::{AllocError, Global};
///
/// // The version of a certificate, written as `A0 03 02 01 02`.
/// fn version(alloc: Global) -> Result<ASN1Block, AllocError> {
///     let number = build::integer(alloc, 2)?;
///     build::explicit(alloc, ASN1Class::ContextSpecific, 0, number)
/// }
/// ```
pub fn explicit(
    alloc: Global,
    class: ASN1Class,
    tag: u64,
    item: ASN1Block,
) -> Result<ASN1Block, AllocError>
    ensures { IfOk result (λ b. view b ≡ explicit class 0 tag (view item)) }
{
    let tag = BigUint::from_u64(alloc, tag)?;
    let attempt = Attempt {
        class,
        offset: 0,
        tag,
    };
    explicit_block(alloc, attempt, item)
}

/// A SEQUENCE or SET of these items under an implicit tag (X.690 8.14), such as `[0] IMPLICIT SET OF Attribute`. There
/// may be any number of items, also none. [`items_of`](crate::items_of) returns the items of what is made.
///
/// As a reader without the schema has it, the block is `Explicit` around one item, and `Unknown` around none or
/// several. An `Explicit` takes memory for a box. An `Unknown` takes it for the encodings of the items, which are
/// written at once.
///
/// Use another class than `Universal`: a block of class `Universal` does not come back.
///
/// # Errors
/// The errors of [`to_der`](crate::to_der) for the first item that cannot be written, where there is not exactly one
/// item; `OutOfMemory`.
///
/// ```rust
/// use simple_asn1::{ASN1Block, ASN1Class, ASN1EncodeErr, build};
/// use std::alloc::Global;
///
/// // The attributes of a certification request that has none, written as `A0 00`.
/// fn no_attributes(alloc: Global) -> Result<ASN1Block, ASN1EncodeErr> {
///     build::implicit(alloc, ASN1Class::ContextSpecific, 0, Vec::new(alloc))
/// }
/// ```
pub fn implicit(
    alloc: Global,
    class: ASN1Class,
    tag: u64,
    items: Vec<ASN1Block>,
) -> Result<ASN1Block, ASN1EncodeErr>
    ensures encoded { IfOk result (λ b. canonical (view b)
        ≡ shortest_encoding class true tag (all_canonical (views items.items))) }
    ensures writable { IfOk result (λ b. write_fault (view b) ≡ first_write_fault (views items.items)) }
    ensures refused { IfErr result
        (λ e. (e ≡ no_memory) ⊎ (first_write_fault (views items.items) ≡ Some e)) }

    // Faithful items are given back by `items_of`, but for their offsets, and the block comes back.
    ensures items { AreFaithful (views items.items) → IfOk result (λ b.
        (bs : Trees ℕ) × HoldsBlocksOf (view b) bs × (shapes bs ≡ shapes (views items.items))) }
    ensures faithful { class ≢ Universal → AreFaithful (views items.items)
        → IfOk result (λ b. IsFaithful (view b)) }
{
    let tag = BigUint::from_u64(alloc, tag)?;
    let attempt = Attempt {
        class,
        offset: 0,
        tag,
    };
    tagged_items(alloc, attempt, HeldBlocks::of(items))
}

// A constructed encoding of these items, as it is read.
fn tagged_items(
    alloc: Global,
    attempt: Attempt,
    items: HeldBlocks,
) -> Result<ASN1Block, ASN1EncodeErr>
    ensures one { (item : ASN1Block) → items ≡ item ∷ []
        → IfOk result (λ b. view b ≡ explicit attempt.class attempt.offset attempt.tag (view item)) }
    ensures other { length items ≢ 1 → IfOk result (λ b.
        (view b ≡ unknown attempt.class true attempt.offset attempt.tag (all_canonical (views items)))
        × (first_write_fault (views items) ≡ None) × FitInSlice (all_canonical (views items))) }
    ensures refused { IfErr result (λ e. (e ≡ no_memory) ⊎ (first_write_fault (views items) ≡ Some e)) }
{
    if items.len() == 1 {
        return Ok(explicit_block(alloc, attempt, items.into_only())?);
    }
    let contents = write_all(alloc, items.as_slice())?;
    let Attempt { class, offset, tag } = attempt;
    Ok(ASN1Block::Unknown(class, true, offset, tag, contents))
}

/// A primitive type under an implicit tag (X.690 8.14), such as `[2] IMPLICIT IA5String`. The bytes are the contents
/// bytes that it has under its own tag.
///
/// ```rust
/// use simple_asn1::{ASN1Block, ASN1Class, build};
/// use std::alloc::{AllocError, Global};
///
/// // A dNSName of a subjectAltName: `a.b` is written as `82 03 61 2E 62`.
/// fn dns_name(alloc: Global, host: &str) -> Result<ASN1Block, AllocError> {
///     build::implicit_primitive(alloc, ASN1Class::ContextSpecific, 2, host.as_bytes())
/// }
/// ```
pub fn implicit_primitive(
    alloc: Global,
    class: ASN1Class,
    tag: u64,
    octets: &[u8],
) -> Result<ASN1Block, AllocError>
    ensures { IfOk result (λ b. view b ≡ unknown class false 0 tag octets.now) }
{
    let tag = BigUint::from_u64(alloc, tag)?;
    Ok(ASN1Block::Unknown(class, false, 0, tag, Vec::from_slice(alloc, octets)?))
}

/// An ENUMERATED (X.690 8.4).
///
/// ```rust
/// use simple_asn1::{ASN1Block, build};
/// use std::alloc::{AllocError, Global};
///
/// // Written as `0A 01 05`.
/// fn reason(alloc: Global) -> Result<ASN1Block, AllocError> {
///     build::enumerated(alloc, 5)
/// }
/// ```
pub fn enumerated(alloc: Global, number: i64) -> Result<ASN1Block, AllocError>
    ensures { IfOk result (λ b. view b ≡ unknown Universal false 0 ENUMERATED (shortest_octets number)) }
{
    let octets = BigInt::from_i64(alloc, number)?.to_signed_bytes_be(alloc)?;
    let tag = BigUint::from_u64(alloc, ENUMERATED)?;
    Ok(ASN1Block::Unknown(ASN1Class::Universal, false, 0, tag, octets))
}
