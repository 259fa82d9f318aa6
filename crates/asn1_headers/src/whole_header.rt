// The whole header at the front of octets, as one value.
ghost use Rattle.std.specs.Prelude.{◌≡◌, ◌↔◌, ◌+◌, ◌%◌, ◌<◌, ◌^◌, ◌⊎◌, ◌∷◌, List, ℕ, IfErr, IfOk, IsTrue, length};
ghost use Rattle.asn1_numbers.specs.Octets.{AreOctets};
ghost use Rattle.asn1_headers.specs.declared.error.ASN1DecodeErr.TheVariants.{OutOfMemory};
ghost use Rattle.asn1_headers.specs.Fault.{OutOfMemoryOr};
ghost use Rattle.asn1_headers.specs.Front.{HasIndefiniteForm, HasNoHeader, IsAtFront, KnowsParts};
ghost use Rattle.asn1_headers.specs.Header.{IsIdentifier, IsLength, shortest_identifier, shortest_length};
ghost use Rattle.asn1_headers.specs.Indefinite.{is_indefinite};
ghost use Rattle.asn1_headers.specs.HeaderFault.{HeaderFault};

use crate::error::ASN1DecodeErr;
use crate::header::{
    ASN1Class, HeaderCount, decode_tag, is_least_identifier, is_least_length, length_at,
};
use crate::indefinite::is_indefinite;
use asn1_numbers::number::big_uint::BigUint;
use std::alloc::Global;

// The header of an encoding: the fields of its identifier octets, how many these are, how many octets it has in all,
// and how many contents octets it announces.
#[derive(Drop)]
pub struct Header {
    pub class: ASN1Class,
    pub constructed: bool,
    pub tag: BigUint,
    pub identifier: usize,
    pub size: usize,
    pub announced: usize,
    // whether the length octets are the octet 80, which is read as a length of 0
    pub has_length_80: bool,
    // whether it has the indefinite form of BER: it is constructed, and its length octets are the octet 80
    pub is_indefinite: bool,
}

impl Header {
    // Whether the identifier octets are the shortest of their tag (X.690 8.1.2.2, 8.1.2.4.2).
    #[inline(always)]
    pub fn has_shortest_identifier(&self) -> bool
        ensures { (identifier : List ℕ) → AreOctets identifier
            → IsIdentifier identifier self.now.class self.now.constructed self.now.tag
            → self.now.identifier ≡ length identifier → IsTrue result
            ↔ (identifier ≡ shortest_identifier self.now.class self.now.constructed self.now.tag) }
    {
        is_least_identifier(self.identifier, self.class, self.constructed, &self.tag)
    }

    // Whether the length octets are the shortest of their length (X.690 10.1).
    #[inline(always)]
    pub fn has_shortest_length(&self) -> bool
        ensures { (len : List ℕ) → AreOctets len → IsLength len self.now.announced
            → self.now.size ≡ self.now.identifier + length len → self.now.has_length_80 ≡ is_indefinite len
            → IsTrue result ↔ (len ≡ shortest_length self.now.announced) }
    {
        let size = self.size.saturating_sub(self.identifier);
        is_least_length(size, self.has_length_80, self.announced)
    }
}

// The header at the front, whether or not the contents octets that it announces are there. Adds one to the count.
#[inline(always)]
pub fn read_header(
    alloc: Global,
    octets: &[u8],
    count: &mut HeaderCount,
) -> Result<Header, ASN1DecodeErr>
    requires room { count.old + 1 < 2 ^ 64 }
    ensures found { IfOk result (IsAtFront octets.now) }
    ensures parts { IfOk result (KnowsParts octets.now) }
    ensures form { IfOk result (λ header. IsTrue header.is_indefinite ↔ HasIndefiniteForm octets.now) }
    ensures none { IfErr result (λ e. (e ≡ OutOfMemory) ⊎ HasNoHeader octets.now) }
    ensures fault { (offset : ℕ) → IfErr result (OutOfMemoryOr (HeaderFault offset octets.now)) }
    ensures counted { count.new ≡ count.old + 1 }
{
    match octets {
        [leading, length, ..] if *leading % 32 != 31 && *length < 128 => {
            short_header(alloc, octets, *leading, *length, count)
        }
        _ => any_header(alloc, octets, count),
    }
}

// The header of one identifier octet and one length octet of the short form, as most are. It has code of its own so
// that it takes a few instructions.
#[inline(always)]
fn short_header(
    alloc: Global,
    octets: &[u8],
    _leading: u8,
    length: u8,
    count: &mut HeaderCount,
) -> Result<Header, ASN1DecodeErr>
    requires room { count.old + 1 < 2 ^ 64 }
    requires front { (rest : List ℕ) × (octets.now ≡ _leading ∷ length ∷ rest) }
    requires low { _leading % 32 < 31 }
    requires short { length < 128 }
    ensures found { IfOk result (IsAtFront octets.now) }
    ensures parts { IfOk result (KnowsParts octets.now) }
    ensures form { IfOk result (λ header. IsTrue header.is_indefinite ↔ HasIndefiniteForm octets.now) }
    ensures none { IfErr result (λ e. (e ≡ OutOfMemory) ⊎ HasNoHeader octets.now) }
    ensures fault { (offset : ℕ) → IfErr result (OutOfMemoryOr (HeaderFault offset octets.now)) }
    ensures counted { count.new ≡ count.old + 1 }
{
    let mut identifier = 0;
    let (tag, constructed, class) = decode_tag(alloc, octets, &mut identifier, count)?;
    Ok(Header {
        class,
        constructed,
        tag,
        identifier,
        size: 2,
        announced: length as usize,
        has_length_80: false,
        is_indefinite: false,
    })
}

// Any header.
#[inline(always)]
fn any_header(
    alloc: Global,
    octets: &[u8],
    count: &mut HeaderCount,
) -> Result<Header, ASN1DecodeErr>
    requires room { count.old + 1 < 2 ^ 64 }
    ensures found { IfOk result (IsAtFront octets.now) }
    ensures parts { IfOk result (KnowsParts octets.now) }
    ensures form { IfOk result (λ header. IsTrue header.is_indefinite ↔ HasIndefiniteForm octets.now) }
    ensures none { IfErr result (λ e. (e ≡ OutOfMemory) ⊎ HasNoHeader octets.now) }
    ensures fault { (offset : ℕ) → IfErr result (OutOfMemoryOr (HeaderFault offset octets.now)) }
    ensures counted { count.new ≡ count.old + 1 }
{
    let mut identifier = 0;
    let (tag, constructed, class) = decode_tag(alloc, octets, &mut identifier, count)?;
    let (_, behind) = octets.split_at(identifier);
    let (announced, length) = length_at(behind)?;
    let has_length_80 = is_indefinite(behind);
    Ok(Header {
        class,
        constructed,
        tag,
        identifier,
        size: identifier + length,
        announced,
        has_length_80,
        is_indefinite: constructed && has_length_80,
    })
}
