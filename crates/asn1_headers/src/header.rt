// Identifier and length octets, each way.
//
// Each decoder is a function from a slice to the value and how many octets it took, with a wrapper that moves an index.
ghost use Rattle.std.specs.Prelude.{◌≡◌, ◌↔◌, ℕ, ◌+◌, ◌*◌, ◌/◌, ◌<◌, ◌≤◌, ◌^◌, ◌++◌, List, length, drop, take, IfOk, OnOk, OnErr, slice_index, slice_range, IsOk, IfErr, IfSome, IfNone, IsTrue};
ghost use Rattle.std.specs.Int.Digits.{number_from_digits, digits_of};
ghost use Rattle.asn1_numbers.specs.Base128.{IsBase128, shortest_base128};
ghost use Rattle.asn1_numbers.specs.Octets.{AreOctets};
ghost use Rattle.asn1_headers.specs.Fault.{OutOfMemoryOr, fault_of};
ghost use Rattle.asn1_headers.specs.Names.{class_name};
ghost use Rattle.asn1_headers.specs.Header.{BeginsWithNo, IsIdentifier, IsIncomplete, IsLength, IsSomeIdentifier, class_number, leading_octet, length_fault, shortest_identifier, shortest_length};
ghost use Rattle.asn1_headers.specs.Indefinite.{is_indefinite};

use crate::error::ASN1DecodeErr;
use asn1_numbers::number::big_uint::BigUint;
use asn1_numbers::sink::Sink;
use std::alloc::{AllocError, Global};
use std::marker::Model;

/// The class of a tag (X.690 8.1.2.2).
#[derive(Clone, Copy, Debug, PartialEq)]
pub enum ASN1Class {
    /// Bits 8 and 7 of the leading octet are 00 (X.690 table 1).
    Universal,
    /// Bits 8 and 7 of the leading octet are 01 (X.690 table 1).
    Application,
    /// Bits 8 and 7 of the leading octet are 10 (X.690 table 1).
    ContextSpecific,
    /// Bits 8 and 7 of the leading octet are 11 (X.690 table 1).
    Private,
}

impl ASN1Class {
    /// Its name, as X.690 table 1 has it, in small letters.
    ///
    /// ```rust
    /// use simple_asn1::ASN1Block;
    ///
    /// // Of the block `[0] 05 00` "context-specific".
    /// fn class_of(block: &ASN1Block) -> &'static str {
    ///     block.class().name()
    /// }
    /// ```
    pub fn name(self) -> &'static str
        ensures { result.now ≡ class_name self }
    {
        match self {
            ASN1Class::Universal => "universal",
            ASN1Class::Application => "application",
            ASN1Class::ContextSpecific => "context-specific",
            ASN1Class::Private => "private",
        }
    }
}

/// The number of headers begun. [`decode_tag`] alone raises it: what reads a document with a count hands its count on.
#[derive(Debug, Drop)]
pub struct HeaderCount {
    begun: u64,
}

impl Model for HeaderCount {
    ghost use Rattle.std.specs.Prelude.{ℕ};

    ghost Value = { ℕ };

    ghost view = { λ c. c.begun };
}

impl HeaderCount {
    /// A count of no headers.
    ///
    /// ```rust
    /// use simple_asn1::{ASN1DecodeErr, HeaderCount, discard, from_der_counted};
    /// use std::alloc::Global;
    ///
    /// // How many headers are begun in reading: of `A0 06 A0 04 A0 02 02 01` four.
    /// fn begun(alloc: Global, octets: &[u8]) -> Result<u64, ASN1DecodeErr> {
    ///     let mut count = HeaderCount::new();
    ///     discard(from_der_counted(alloc, octets, &mut count)?);
    ///     Ok(count.count())
    /// }
    /// ```
    pub fn new() -> HeaderCount
        ensures { result ≡ 0 }
    {
        HeaderCount { begun: 0 }
    }

    /// The number so far.
    ///
    /// ```rust
    /// use simple_asn1::HeaderCount;
    ///
    /// // Whether another header may be begun.
    /// fn may_go_on(count: &HeaderCount, most: u64) -> bool {
    ///     count.count() < most
    /// }
    /// ```
    pub fn count(&self) -> u64
        ensures { result ≡ self.now }
    {
        self.begun
    }

    // One header more is begun.
    #[inline(always)]
    fn add_one(&mut self)
        requires { self.old + 1 < 2 ^ 64 }
        ensures { self.new ≡ self.old + 1 }
    {
        *self = HeaderCount {
            begun: self.begun + 1,
        };
    }
}

// The index of the first octet whose bit 8 is clear.
pub fn last_octet_at(octets: &[u8]) -> Option<usize>
    ensures found { IfSome result (λ i. (i < length octets.now) × (slice_index octets.now i < 128)) }
    ensures before { IfSome result (λ i. (j : ℕ) → j < i → 128 ≤ slice_index octets.now j) }
    ensures none { IfNone result ((j : ℕ) → j < length octets.now → 128 ≤ slice_index octets.now j) }
{
    octets.iter().position(|b| *b < 128)
}

// The base-128 number at the front, and how many octets it has.
#[inline(always)]
fn base128_at(alloc: Global, octets: &[u8]) -> Result<(BigUint, usize), ASN1DecodeErr>
    ensures found { IfOk result (λ x. (x.1 ≤ length octets.now) × IsBase128 (take x.1 octets.now) x.0) }
    ensures refused { IfErr result (OutOfMemoryOr (IsIncomplete IsBase128 octets.now)) }
{
    let Some(last) = last_octet_at(octets) else {
        return Err(ASN1DecodeErr::Incomplete);
    };
    let (number, _) = octets.split_at(last + 1);
    let n = BigUint::from_low_bits(alloc, number)?;
    Ok((n, last + 1))
}

// The identifier octets at the front, and how many they are.
#[inline(always)]
fn tag_at(
    alloc: Global,
    octets: &[u8],
) -> Result<((BigUint, bool, ASN1Class), usize), ASN1DecodeErr>
    ensures found { IfOk result (λ x. (0 < x.1) × (x.1 ≤ length octets.now)
        × IsIdentifier (take x.1 octets.now) x.0.2 x.0.1 x.0.0) }
    ensures refused { IfErr result (OutOfMemoryOr (IsIncomplete IsSomeIdentifier octets.now)) }
{
    let Some((first, rest)) = octets.split_first() else {
        return Err(ASN1DecodeErr::Incomplete);
    };
    let class = class_of(*first);
    let constructed = *first % 64 / 32 == 1;
    let low = *first % 32;
    if low != 31 {
        let n = BigUint::from_u64(alloc, low as u64)?;
        return Ok(((n, constructed, class), 1));
    }
    let (n, size) = base128_at(alloc, rest)?;
    Ok(((n, constructed, class), 1 + size))
}

/// Reads identifier octets (X.690 8.1.2) at `index`, and moves the index past them. Adds one to the count, also after
/// an error. It asks that the count is below `u64::MAX`.
///
/// Returns the tag number, whether the encoding is constructed, and the class. The long form is read for any number,
/// and with leading octets 80. After an error the index has not moved. A tag number below 2^64 takes no memory; a
/// greater one takes one allocation, which may grow.
///
/// # Errors
/// `Incomplete` if the octets run out, also for an index past the end; `OutOfMemory`.
///
/// ```rust
/// use simple_asn1::{ASN1Class, ASN1DecodeErr, HeaderCount, decode_tag};
/// use std::alloc::Global;
///
/// // The class of the first header: of `A0 02 05 00` ContextSpecific.
/// fn first_class(alloc: Global, octets: &[u8]) -> Result<ASN1Class, ASN1DecodeErr> {
///     let mut index = 0;
///     let mut count = HeaderCount::new();
///     let (_, _, class) = decode_tag(alloc, octets, &mut index, &mut count)?;
///     Ok(class)
/// }
/// ```
#[inline(always)]
pub fn decode_tag(
    alloc: Global,
    i: &[u8],
    index: &mut usize,
    count: &mut HeaderCount,
) -> Result<(BigUint, bool, ASN1Class), ASN1DecodeErr>
    requires { count.old + 1 < 2 ^ 64 }
    ensures moved { OnOk result ((index.old < index.new) × (index.new ≤ length i.now)) }
    ensures found { IfOk result (λ x. IsIdentifier (slice_range i.now index.old index.new) x.2 x.1 x.0) }
    ensures refused { IfErr result (OutOfMemoryOr (IsIncomplete IsSomeIdentifier (drop index.old i.now))) }
    ensures unmoved { OnErr result (index.new ≡ index.old) }
    ensures counted { count.new ≡ count.old + 1 }
{
    count.add_one();
    if *index > i.len() {
        return Err(ASN1DecodeErr::Incomplete);
    }
    let (_, rest) = i.split_at(*index);
    let (tag, size) = tag_at(alloc, rest)?;
    *index += size;
    Ok(tag)
}

/// Reads a base-128 number (X.690 8.1.2.4.2) at `index`, and moves the index past it. Leading octets 80 are read.
/// After an error the index has not moved. A number below 2^64 takes no memory; a greater one takes one allocation,
/// which may grow. The name is that of the Rust crate: the greatest digit is 127, and the base is 128.
///
/// # Errors
/// `Incomplete` if the octets run out, also for an index past the end; `OutOfMemory`.
///
/// ```rust
/// use simple_asn1::{ASN1DecodeErr, BigUint, decode_base127};
/// use std::alloc::Global;
///
/// // Of `86 48` 840.
/// fn number(alloc: Global, octets: &[u8]) -> Result<BigUint, ASN1DecodeErr> {
///     let mut index = 0;
///     decode_base127(alloc, octets, &mut index)
/// }
/// ```
pub fn decode_base127(alloc: Global, i: &[u8], index: &mut usize) -> Result<BigUint, ASN1DecodeErr>
    ensures moved { OnOk result ((index.old ≤ index.new) × (index.new ≤ length i.now)) }
    ensures found { IfOk result (λ n. IsBase128 (slice_range i.now index.old index.new) n) }
    ensures refused { IfErr result (OutOfMemoryOr (IsIncomplete IsBase128 (drop index.old i.now))) }
    ensures unmoved { OnErr result (index.new ≡ index.old) }
{
    if *index > i.len() {
        return Err(ASN1DecodeErr::Incomplete);
    }
    let (_, rest) = i.split_at(*index);
    let (n, size) = base128_at(alloc, rest)?;
    *index += size;
    Ok(n)
}

// The number of the octets, the first of them the most significant.
fn big_endian(octets: &[u8]) -> usize
    requires { length octets.now ≤ 8 }
    ensures { result ≡ number_from_digits 256 octets.now }
{
    let mut n: usize = 0;
    for b in octets {
        n = n * 256 + *b as usize;
    }
    n
}

// The length octets at the front: the length, and how many they are.
#[inline(always)]
pub fn length_at(octets: &[u8]) -> Result<(usize, usize), ASN1DecodeErr>
    ensures found { IfOk result (λ x. (x.1 ≤ length octets.now) × IsLength (take x.1 octets.now) x.0) }
    ensures refused { OnErr result (BeginsWithNo IsLength octets.now) }
    ensures fault { IfErr result (λ e. fault_of e ≡ length_fault octets.now) }
{
    let Some((first, rest)) = octets.split_first() else {
        return Err(ASN1DecodeErr::Incomplete);
    };
    if *first < 128 {
        return Ok((*first as usize, 1));
    }
    let count = (*first - 128) as usize;
    if count > 8 {
        return Err(ASN1DecodeErr::LengthTooLarge(count));
    }
    if rest.len() < count {
        return Err(ASN1DecodeErr::Incomplete);
    }
    let (digits, _) = rest.split_at(count);
    Ok((big_endian(digits), 1 + count))
}

/// Reads length octets of the definite form (X.690 8.1.3) at `index`, and moves the index past them. Longer forms than
/// the shortest are read, and 80 is the length 0. After an error the index has not moved.
///
/// # Errors
/// `LengthTooLarge` if more than 8 octets follow the first, with their number; otherwise `Incomplete` if the octets
/// run out, also for an index past the end.
///
/// ```rust
/// use simple_asn1::{ASN1DecodeErr, decode_length};
///
/// // The length after an identifier octet: of `04 82 01 00` 256.
/// fn contents_size(encoding: &[u8]) -> Result<usize, ASN1DecodeErr> {
///     let mut index = 1;
///     decode_length(encoding, &mut index)
/// }
/// ```
pub fn decode_length(i: &[u8], index: &mut usize) -> Result<usize, ASN1DecodeErr>
    ensures moved { OnOk result ((index.old ≤ index.new) × (index.new ≤ length i.now)) }
    ensures found { IfOk result (λ n. IsLength (slice_range i.now index.old index.new) n) }
    ensures refused { OnErr result (BeginsWithNo IsLength (drop index.old i.now)) }
    ensures fault { IfErr result (λ e. fault_of e ≡ length_fault (drop index.old i.now)) }
    ensures unmoved { OnErr result (index.new ≡ index.old) }
{
    if *index > i.len() {
        return Err(ASN1DecodeErr::Incomplete);
    }
    let (_, rest) = i.split_at(*index);
    let (n, size) = length_at(rest)?;
    *index += size;
    Ok(n)
}

// How many identifier octets stand at the front.
pub fn identifier_at(octets: &[u8]) -> Option<usize>
    ensures found { IfSome result (λ n.
        (0 < n) × (n ≤ length octets.now)
        × (tag : ℕ) × IsSomeIdentifier (take n octets.now) tag) }
    ensures none { IfNone result (BeginsWithNo IsSomeIdentifier octets.now) }
{
    let Some((first, rest)) = octets.split_first() else {
        return None;
    };
    if *first % 32 != 31 {
        return Some(1);
    }
    let Some(last) = last_octet_at(rest) else {
        return None;
    };
    Some(last + 2)
}

// Identifier octets at the front, and what stands behind them; nothing where there are none.
pub fn split_identifier(octets: &[u8]) -> (&[u8], &[u8])
    ensures { (identifier behind : List ℕ) (tag : ℕ) → IsSomeIdentifier identifier tag →
        octets.now ≡ identifier ++ behind → (result.0.now ≡ identifier) × (result.1.now ≡ behind) }
{
    match identifier_at(octets) {
        Some(size) => octets.split_at(size),
        None => (&[], &[]),
    }
}

// The class of a leading octet.
fn class_of(leading: u8) -> ASN1Class
    ensures { class_number result ≡ leading / 64 }
{
    match leading >> 6 {
        0 => ASN1Class::Universal,
        1 => ASN1Class::Application,
        2 => ASN1Class::ContextSpecific,
        _ => ASN1Class::Private,
    }
}

/// The class of a leading octet, by its two high bits (X.690 table 1). It is always `Ok`.
///
/// ```rust
/// use simple_asn1::{ASN1Class, decode_class};
///
/// // Whether an identifier octet is of the class Universal: 30 is, and A0 is not.
/// fn is_universal(octet: u8) -> bool {
///     matches!(decode_class(octet), Ok(ASN1Class::Universal))
/// }
/// ```
pub fn decode_class(i: u8) -> Result<ASN1Class, ASN1DecodeErr>
    ensures ok { IsOk result }
    ensures class { IfOk result (λ class. class_number class ≡ i / 64) }
{
    Ok(class_of(i))
}

/// The two high bits of a leading octet of this class, the others zero (X.690 table 1).
///
/// ```rust
/// use simple_asn1::{ASN1Class, encode_class};
///
/// // The identifier octet of [n], primitive, of a number below 31: 80 and n.
/// fn tagged(n: u8) -> u8 {
///     encode_class(ASN1Class::ContextSpecific) | (n & 0x1F)
/// }
/// ```
pub fn encode_class(c: ASN1Class) -> u8
    ensures { result ≡ class_number c * 64 }
{
    match c {
        ASN1Class::Universal => 0,
        ASN1Class::Application => 0x40,
        ASN1Class::ContextSpecific => 0x80,
        ASN1Class::Private => 0xC0,
    }
}

// How many octets the number has, of 0 none.
fn octet_count(n: usize) -> usize
    ensures { result ≡ length (digits_of 256 n) }
{
    if n == 0 {
        return 0;
    }
    octet_count(n / 256) + 1
}

// Puts the octets of the number, the most significant first. A usize has at most 8.
fn push_big_endian<S: Sink>(n: usize, out: &mut S)
    requires { length (digits_of 256 n) ≤ S.room out.old }
    ensures { S.pushes out.old (digits_of 256 n) out.new }
{
    if n == 0 {
        return;
    }
    push_big_endian(n / 256, out);
    out.push_octet((n % 256) as u8);
}

// How many length octets this length has.
pub fn length_size(n: usize) -> usize
    ensures size { result ≡ length (shortest_length n) }
    ensures most { result ≤ 9 }
{
    if n < 128 { 1 } else { octet_count(n) + 1 }
}

// Puts the length octets.
pub fn push_length<S: Sink>(n: usize, out: &mut S)
    requires { length (shortest_length n) ≤ S.room out.old }
    ensures { S.pushes out.old (shortest_length n) out.new }
{
    if n < 128 {
        out.push_octet(n as u8);
        return;
    }
    out.push_octet(128 + octet_count(n) as u8);
    push_big_endian(n, out);
}

// Whether identifier octets are the shortest of their tag (X.690 8.1.2.2, 8.1.2.4.2), by how many they are: no others
// are as few.
#[inline(always)]
pub fn is_least_identifier(size: usize, class: ASN1Class, constructed: bool, tag: &BigUint) -> bool
    ensures { (identifier : List ℕ) → AreOctets identifier → IsIdentifier identifier class constructed tag.now
        → size ≡ length identifier
        → IsTrue result ↔ (identifier ≡ shortest_identifier class constructed tag.now) }
{
    if size == 1 {
        return true;
    }
    size == identifier_size(class, constructed, tag)
}

// Whether length octets are the shortest of their length (X.690 10.1), by how many they are: no others are as few, but
// that the octet 80 is as short as 00.
#[inline(always)]
pub fn is_least_length(size: usize, is_80: bool, n: usize) -> bool
    ensures { (len : List ℕ) → AreOctets len → IsLength len n → size ≡ length len
        → is_80 ≡ is_indefinite len → IsTrue result ↔ (len ≡ shortest_length n) }
{
    if size == 1 {
        return !is_80;
    }
    size == length_size(n)
}

// How many identifier octets this tag has.
pub fn identifier_size(class: ASN1Class, constructed: bool, tag: &BigUint) -> usize
    ensures { result ≡ length (shortest_identifier class constructed tag.now) }
{
    match tag.to_u64() {
        Some(n) if n < 31 => 1,
        _ => tag.base128_size() + 1,
    }
}

// The leading octet of identifier octets, whose bits 5 to 1 are these.
fn leading(class: ASN1Class, constructed: bool, low: u8) -> u8
    requires { low < 32 }
    ensures { result ≡ leading_octet class constructed low }
{
    encode_class(class) + if constructed { 0x20 } else { 0 } + low
}

// Puts the identifier octets.
pub fn push_identifier<S: Sink>(class: ASN1Class, constructed: bool, tag: &BigUint, out: &mut S)
    requires { length (shortest_identifier class constructed tag.now) ≤ S.room out.old }
    ensures { S.pushes out.old (shortest_identifier class constructed tag.now) out.new }
{
    match tag.to_u64() {
        Some(n) if n < 31 => out.push_octet(leading(class, constructed, n as u8)),
        _ => {
            out.push_octet(leading(class, constructed, 31));
            tag.push_base128(out);
        }
    }
}

/// The shortest identifier octets of the tag (X.690 8.1.2.2, 8.1.2.4.2), in one allocation of their size. The only
/// error is that memory ran out.
///
/// ```rust
/// use simple_asn1::{ASN1Class, BigUint, encode_tag};
/// use std::alloc::{AllocError, Global};
///
/// // [31], constructed: `BF 1F`.
/// fn tagged_31(alloc: Global) -> Result<Vec<u8>, AllocError> {
///     let tag = BigUint::from_u64(alloc, 31)?;
///     encode_tag(alloc, ASN1Class::ContextSpecific, true, &tag)
/// }
/// ```
pub fn encode_tag(
    alloc: Global,
    class: ASN1Class,
    constructed: bool,
    tag: &BigUint,
) -> Result<Vec<u8>, AllocError>
    ensures { IfOk result (λ v. v.items ≡ shortest_identifier class constructed tag.now) }
{
    let mut octets = Vec::with_capacity(alloc, identifier_size(class, constructed, tag))?;
    push_identifier(class, constructed, tag, &mut octets);
    Ok(octets)
}

/// The shortest base-128 form of the number (X.690 8.1.2.4.2), in one allocation of its size. The only error is that
/// memory ran out.
///
/// ```rust
/// use simple_asn1::{BigUint, encode_base127};
/// use std::alloc::{AllocError, Global};
///
/// // Of 840 `86 48`.
/// fn digits(alloc: Global, n: u64) -> Result<Vec<u8>, AllocError> {
///     encode_base127(alloc, &BigUint::from_u64(alloc, n)?)
/// }
/// ```
pub fn encode_base127(alloc: Global, n: &BigUint) -> Result<Vec<u8>, AllocError>
    ensures { IfOk result (λ v. v.items ≡ shortest_base128 n.now) }
{
    let mut octets = Vec::with_capacity(alloc, n.base128_size())?;
    n.push_base128(&mut octets);
    Ok(octets)
}

/// The shortest length octets of the length (X.690 8.1.3, 10.1), in one allocation of their size. The only error is
/// that memory ran out.
///
/// ```rust
/// use simple_asn1::encode_len;
/// use std::alloc::{AllocError, Global};
///
/// // The length octets of a text: of 200 octets `81 C8`.
/// fn length_octets(alloc: Global, text: &str) -> Result<Vec<u8>, AllocError> {
///     encode_len(alloc, text.len())
/// }
/// ```
pub fn encode_len(alloc: Global, n: usize) -> Result<Vec<u8>, AllocError>
    ensures { IfOk result (λ v. v.items ≡ shortest_length n) }
{
    let mut octets = Vec::with_capacity(alloc, length_size(n))?;
    push_length(n, &mut octets);
    Ok(octets)
}
