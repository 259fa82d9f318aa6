// Contents octets of an OBJECT IDENTIFIER (X.690 8.19).
ghost use Rattle.std.specs.Prelude.{◌≡◌, ◌↔◌, ◌⊎◌, ◌++◌, ◌∷◌, ◌+◌, ◌<◌, ◌≤◌, ◌^◌, ℕ, List, drop, length, None, Some, IfOk, IfErr, IsFalse, IsTrue, OnOk, SomeIff};
ghost use Rattle.std.specs.List.{flat_map};
ghost use Rattle.asn1_numbers.specs.Base128.{shortest_base128};
ghost use Rattle.asn1_leaves.specs.Contents.ObjectIdentifier.{AreFirstTwo, IsFaithfulObjectIdentifier, ObjectIdentifierContents, ObjectIdentifierFault, Subidentifiers, object_identifier_contents, object_identifier_write_fault};
ghost use Rattle.asn1_headers.specs.Fault.{OutOfMemoryOr, incomplete};
ghost use Rattle.asn1_headers.specs.declared.error.ASN1EncodeErr.TheVariants.{OutOfMemory};

use asn1_headers::error::{ASN1DecodeErr, ASN1EncodeErr};
use asn1_headers::header::decode_base127;
use asn1_numbers::number::big_uint::BigUint;
use asn1_numbers::sink::Sink;
use std::alloc::Global;

// The first two components, of the first octet.
pub fn first_two(octet: u8) -> (u8, u8)
    ensures { AreFirstTwo result.0 result.1 octet }
{
    if octet < 40 {
        (0, octet)
    } else if octet < 80 {
        (1, octet - 40)
    } else {
        (2, octet - 80)
    }
}

// How many components there are, where these octets come after the first. Each subidentifier ends in an
// octet whose bit 8 is clear.
pub fn component_count(rest: &[u8]) -> usize {
    let count = rest.iter().filter(|b| **b < 128).count();
    count.saturating_add(2)
}

// Puts the numbers of the subidentifiers at the end.
fn push_subidentifiers(
    alloc: Global,
    octets: &[u8],
    components: &mut Vec<BigUint>,
) -> Result<(), ASN1DecodeErr>
    ensures found { OnOk result
        ((ns : List ℕ) × (components.new.items ≡ components.old.items ++ ns)
        × Subidentifiers ns octets.now) }
    ensures refused { IfErr result (OutOfMemoryOr
        (λ e. (e ≡ incomplete) × ((ns : List ℕ) → Subidentifiers ns octets.now → ⊥))) }
{
    let mut index: usize = 0;
    while index < octets.len() {
        let n = decode_base127(alloc, octets, &mut index)?;
        components.push(n)?;
    }
    Ok(())
}

// The components. Octets that mean none are refused before any room is reserved; then room for all is, before they are
// read.
pub fn read(alloc: Global, contents: &[u8]) -> Result<Vec<BigUint>, ASN1DecodeErr>
    ensures found { IfOk result (λ components. ObjectIdentifierContents components.items contents.now) }
    ensures refused { IfErr result (OutOfMemoryOr (ObjectIdentifierFault contents.now)) }
{
    if !are_clearly_meant(contents) {
        return Err(ASN1DecodeErr::Incomplete);
    }
    let Some((octet, rest)) = contents.split_first() else {
        return Err(ASN1DecodeErr::Incomplete);
    };
    let mut components = Vec::with_capacity(alloc, component_count(rest))?;
    let (first, second) = first_two(*octet);
    components.push(BigUint::from_u64(alloc, first as u64)?)?;
    components.push(BigUint::from_u64(alloc, second as u64)?)?;
    push_subidentifiers(alloc, rest, &mut components)?;
    Ok(components)
}

// Whether the octets mean components. One octet is of the first two; after it the last octet of all is one of which bit
// 8 is clear, so that it ends a subidentifier.
pub fn are_clearly_meant(contents: &[u8]) -> bool
    ensures meant { IsTrue result → (components : List ℕ) × ObjectIdentifierContents components contents.now }
    ensures others { IsFalse result → (components : List ℕ)
        → ObjectIdentifierContents components contents.now → ⊥ }
{
    let Some((_, rest)) = contents.split_first() else {
        return false;
    };
    match rest.last() {
        Some(octet) => *octet < 128,
        None => true,
    }
}

// Whether the octets mean components, and no subidentifier begins with 80 (hexadecimal), so that each
// has its shortest form (X.690 8.19.2). Where none is 80, it is seen at once.
#[inline(always)]
pub fn are_clearly_shortest(contents: &[u8]) -> bool
    ensures meant { IsTrue result → (components : List ℕ) × ObjectIdentifierContents components contents.now }
    ensures shortest { IsTrue result → (components : List ℕ)
        → ObjectIdentifierContents components contents.now
        → contents.now ≡ object_identifier_contents components }
{
    let Some((_, rest)) = contents.split_first() else {
        return false;
    };
    for octet in rest {
        if *octet == 0x80 {
            return begin_without_80(contents);
        }
    }
    if rest.is_empty() {
        return true;
    }
    rest[rest.len() - 1] < 0x80
}

// Whether the octets mean components, and no subidentifier begins with 80.
#[cold]
#[inline(never)]
fn begin_without_80(contents: &[u8]) -> bool
    ensures meant { IsTrue result → (components : List ℕ) × ObjectIdentifierContents components contents.now }
    ensures shortest { IsTrue result → (components : List ℕ)
        → ObjectIdentifierContents components contents.now
        → contents.now ≡ object_identifier_contents components }
{
    let Some((_, rest)) = contents.split_first() else {
        return false;
    };
    let mut begins = true;
    for octet in rest {
        match *octet {
            0..=127 => begins = true,
            128 if begins => return false,
            _ => begins = false,
        }
    }
    begins
}

// The first octet that is written, of the first two components.
fn first_octet(components: &[BigUint]) -> Result<u8, ASN1EncodeErr>
    ensures some { OnOk result (2 ≤ length components.now) }
    ensures octet { IfOk result (λ b. object_identifier_contents components.now
        ≡ b ∷ flat_map shortest_base128 (drop 2 components.now)) }
    ensures writable { OnOk result (object_identifier_write_fault components.now ≡ None) }
    ensures refused { IfErr result (λ e. object_identifier_write_fault components.now ≡ Some e) }
{
    if components.len() < 2 {
        return Err(ASN1EncodeErr::ObjectIdentHasTooFewFields);
    }
    let first = match components[0].to_u64() {
        Some(first) if first <= 2 => first as u8,
        _ => return Err(ASN1EncodeErr::ObjectIdentVal1TooLarge),
    };
    let greatest = if first == 2 { 175 } else { 39 };
    match components[1].to_u64() {
        Some(second) if second <= greatest => Ok(40 * first + second as u8),
        _ => Err(ASN1EncodeErr::ObjectIdentVal2TooLarge),
    }
}

// The number of octets of the subidentifiers, if a usize can count them and one more.
fn subidentifiers_size(components: &[BigUint]) -> Option<usize>
    ensures { SomeIff result (1 + length (flat_map shortest_base128 components.now) < 2 ^ 64)
        (1 + length (flat_map shortest_base128 components.now)) }
{
    let mut size: usize = 1;
    for component in components {
        size = size.checked_add(component.base128_size())?;
    }
    Some(size)
}

// The number of octets that are written.
pub fn size(components: &[BigUint]) -> Result<usize, ASN1EncodeErr>
    ensures size { IfOk result (λ n. n ≡ length (object_identifier_contents components.now)) }
    ensures writable { OnOk result (object_identifier_write_fault components.now ≡ None) }
    ensures refused { IfErr result (λ e.
        ((e ≡ OutOfMemory) × (2 ^ 64 ≤ length (object_identifier_contents components.now)))
        ⊎ (object_identifier_write_fault components.now ≡ Some e)) }
{
    first_octet(components)?;
    let (_, rest) = components.split_at(2);
    match subidentifiers_size(rest) {
        Some(size) => Ok(size),
        None => Err(ASN1EncodeErr::OutOfMemory),
    }
}

// Pushes the subidentifiers in their shortest form.
fn push_shortest<S: Sink>(components: &[BigUint], out: &mut S)
    requires { length (flat_map shortest_base128 components.now) ≤ S.room out.old }
    ensures { S.pushes out.old (flat_map shortest_base128 components.now) out.new }
{
    for component in components {
        component.push_base128(out);
    }
}

pub fn push<S: Sink>(components: &[BigUint], out: &mut S)
    requires room { length (object_identifier_contents components.now) ≤ S.room out.old }
    requires writable { object_identifier_write_fault components.now ≡ None }
    ensures { S.pushes out.old (object_identifier_contents components.now) out.new }
{
    let octet = match first_octet(components) {
        Ok(octet) => octet,
        Err(_) => unreachable!(),
    };
    out.push_octet(octet);
    let (_, rest) = components.split_at(2);
    push_shortest(rest, out);
}

// Whether the components are read back as they are, once they are written.
pub fn is_faithful(components: &[BigUint]) -> bool
    ensures { IsTrue result ↔ IsFaithfulObjectIdentifier components.now }
{
    first_octet(components).is_ok()
}
