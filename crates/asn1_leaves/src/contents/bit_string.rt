// Contents octets of a BIT STRING (X.690 8.6).
ghost use Rattle.std.specs.Prelude.{◌≡◌, ◌↔◌, ◌≤◌, ℕ, List, length, None, Some, IfOk, IfErr, IsTrue, OnOk};
ghost use Rattle.asn1_leaves.specs.Contents.BitString.{BitStringContents, BitStringFault, IsFaithfulBitString, bit_string_contents, bit_string_write_fault};
ghost use Rattle.asn1_headers.specs.Fault.{OutOfMemoryOr, fault_of};

use asn1_headers::error::{ASN1DecodeErr, ASN1EncodeErr};
use asn1_numbers::sink::Sink;
use std::alloc::Global;

// The number of bits, and the octets that hold them.
pub fn read(alloc: Global, contents: &[u8]) -> Result<(usize, Vec<u8>), ASN1DecodeErr>
    ensures found { IfOk result (λ x. BitStringContents x.0 x.1.items contents.now) }
    ensures refused { IfErr result (OutOfMemoryOr (BitStringFault contents.now)) }
{
    let (bits, octets) = bits_in(contents)?;
    Ok((bits, Vec::from_slice(alloc, octets)?))
}

// Whether the contents octets mean bits.
#[inline(always)]
pub fn are_clearly_meant(contents: &[u8]) -> bool
    ensures { IsTrue result → (n : ℕ) × (v : List ℕ) × BitStringContents n v contents.now }
{
    let Some((unused, octets)) = contents.split_first() else {
        return true;
    };
    match octets.len().checked_mul(8) {
        Some(room) => *unused as usize <= room,
        None => false,
    }
}

// The number of bits, and where the octets stand that hold them.
fn bits_in(contents: &[u8]) -> Result<(usize, &[u8]), ASN1DecodeErr>
    ensures found { IfOk result (λ x. BitStringContents x.0 x.1.now contents.now) }
    ensures refused { IfErr result (λ e. BitStringFault contents.now (fault_of e)) }
{
    let Some((unused, octets)) = contents.split_first() else {
        return Ok((0, contents));
    };
    let Some(room) = octets.len().checked_mul(8) else {
        return Err(ASN1DecodeErr::LengthTooLarge(contents.len()));
    };
    let unused = *unused as usize;
    if room < unused {
        return Err(ASN1DecodeErr::InvalidBitStringLength(room as isize - unused as isize));
    }
    Ok((room - unused, octets))
}

// The number of octets that are written.
pub fn size(bits: usize, octets: &[u8]) -> Result<usize, ASN1EncodeErr>
    ensures size { IfOk result (λ n. n ≡ length (bit_string_contents bits octets.now)) }
    ensures writable { OnOk result (bit_string_write_fault bits octets.now ≡ None) }
    ensures refused { IfErr result (λ e. bit_string_write_fault bits octets.now ≡ Some e) }
{
    if bits == 0 {
        return Ok(0);
    }
    let room = 8 * octets.len() as u128;
    let bits = bits as u128;
    if room < bits || bits + 255 < room {
        return Err(ASN1EncodeErr::BitStringLength);
    }
    Ok(1 + octets.len())
}

pub fn push<S: Sink>(bits: usize, octets: &[u8], out: &mut S)
    requires room { length (bit_string_contents bits octets.now) ≤ S.room out.old }
    requires writable { bit_string_write_fault bits octets.now ≡ None }
    ensures { S.pushes out.old (bit_string_contents bits octets.now) out.new }
{
    if bits == 0 {
        return;
    }
    let unused = 8 * octets.len() as u128 - bits as u128;
    out.push_octet(unused as u8);
    out.push_octets(octets);
}

// Whether the bits are read back as they are, once they are written.
pub fn is_faithful(bits: usize, octets: &[u8]) -> bool
    ensures { IsTrue result ↔ IsFaithfulBitString bits octets.now }
{
    if bits == 0 {
        return octets.is_empty();
    }
    let room = 8 * octets.len() as u128;
    let bits = bits as u128;
    bits <= room && room <= bits + 255 && room <= usize::MAX as u128
}

// Whether contents octets are found to be those that are written of what they mean: of no bits none are written.
pub fn are_clearly_canonical(contents: &[u8]) -> bool
    ensures { IsTrue result → (n : ℕ) (v : List ℕ) → BitStringContents n v contents.now
        → contents.now ≡ bit_string_contents n v }
{
    match contents.split_first() {
        Some((unused, octets)) => 8 * octets.len() as u128 != *unused as u128,
        None => true,
    }
}
