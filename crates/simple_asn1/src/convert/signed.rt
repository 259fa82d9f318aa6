// A type that keeps octets of its document: what was signed, with the algorithm and the signature.
ghost use Rattle.std.specs.Prelude.{◌≡◌, ◌≢◌, ◌⊎◌, ℕ, List, IfOk, IfErr, IsErrAnd, MatchOption, MatchResult};
ghost use Rattle.asn1_headers.specs.Fault.{OutOfMemoryOr};
ghost use Rattle.asn1_blocks.specs.Grammar.{IsDocument, FirstFault};
ghost use Rattle.asn1_blocks.specs.Places.{HasOctets, rebased};
ghost use Rattle.simple_asn1.specs.SignedTrees.{HasTriple, IsOfAnotherShape, IsSigned, ReadsSigned, SignedParts, algorithm_tree, signed_tree, signed_trees};
ghost use Rattle.simple_asn1.specs.Inner.Algorithm.{IsAlgorithm};
ghost use Rattle.asn1_blocks.specs.Tree.{Trees, bit_string, leaf, more_trees, no_trees, object_identifier};
ghost use Rattle.asn1_blocks.specs.View.{tree_offset, view};
ghost use Rattle.simple_asn1.specs.declared.convert.signed.TripleErr.TheVariants.{Codec, Shape};
ghost use Rattle.asn1_headers.specs.declared.error.ASN1DecodeErr.{ASN1DecodeErr};
ghost use Rattle.asn1_headers.specs.declared.error.ASN1DecodeErr.TheVariants.{OutOfMemory};

use crate::convert::{FromASN1WithBody, der_decode, sequence_items};
use crate::laws::{law_one_reading, law_slices};
use asn1_blocks::block::ASN1Block;
use asn1_headers::error::ASN1DecodeErr;
use asn1_leaves::oid::OID;
use std::alloc::{AllocError, Global};

/// What was signed, with the algorithm and the signature, as a certificate (X.509) has them.
///
/// It is read from a SEQUENCE of exactly three: any block; a SEQUENCE whose first item is an OBJECT IDENTIFIER; a BIT
/// STRING.
#[derive(Debug, Drop, PartialEq)]
pub struct SignedTriple {
    /// The octets of the first of the three as they are in the document, canonical or not: what was signed.
    pub content: Vec<u8>,
    /// The OBJECT IDENTIFIER of the algorithm. What follows it, its parameters, is not kept.
    pub algorithm: OID,
    /// The number of bits of the signature.
    pub bits: usize,
    /// The octets that hold these bits.
    pub signature: Vec<u8>,
}

/// Why a document is not a signed triple.
#[derive(Debug, Drop, PartialEq)]
pub enum TripleErr {
    /// The input is not a document, or memory ran out.
    Codec(ASN1DecodeErr),
    /// The first block has another shape.
    Shape,
}

/// Wraps the error.
impl From<ASN1DecodeErr> for TripleErr {
    ghost from_gives = { λ f e. e ≡ Codec f };

    fn from(e: ASN1DecodeErr) -> TripleErr {
        TripleErr::Codec(e)
    }
}

/// Wraps `OutOfMemory`.
impl From<AllocError> for TripleErr {
    ghost from_gives = { λ f e. e ≡ Codec OutOfMemory };

    fn from(_e: AllocError) -> TripleErr {
        TripleErr::Codec(ASN1DecodeErr::OutOfMemory)
    }
}

// The components of an OBJECT IDENTIFIER.
fn object_identifier_of(b: &ASN1Block) -> Option<&OID>
    ensures { MatchOption result
        ((o : ℕ) (i : List ℕ) → view b.now ≢ leaf o (object_identifier i))
        (λ i. view b.now ≡ leaf (tree_offset (view b.now)) (object_identifier i.now)) }
{
    b.oid()
}

// The number of bits of a BIT STRING, and the octets that hold them.
fn bit_string_of(b: &ASN1Block) -> Option<(usize, &[u8])>
    ensures { MatchOption result
        ((o n : ℕ) (v : List ℕ) → view b.now ≢ leaf o (bit_string n v))
        (λ x. view b.now ≡ leaf (tree_offset (view b.now)) (bit_string x.0 x.1.now)) }
{
    b.bits()
}

// The object identifier of an algorithm, the first item of its SEQUENCE.
fn algorithm_of(b: &ASN1Block) -> Option<&OID>
    ensures { MatchOption result
        ((p : SignedParts) → view b.now ≢ algorithm_tree p)
        (λ algorithm. IsAlgorithm (view b.now) algorithm.now) }
{
    let items = sequence_items(b)?;
    object_identifier_of(items.first()?)
}

// What is read of the block of a triple; its content ends at the offset `end`.
#[derive(Clone, Copy)]
struct Parts<'a> {
    content: &'a ASN1Block,
    end: usize,
    algorithm: &'a OID,
    bits: usize,
    signature: &'a [u8],
}

// What is read of a block, where it is that of a triple.
fn parts_of(b: &ASN1Block) -> Option<Parts<'_>>
    ensures { MatchOption result
        ((p : SignedParts) → view b.now ≢ signed_tree p)
        (λ parts. (p : SignedParts) × (view b.now ≡ signed_tree p) × (view parts.content.now ≡ p.content)
        × (parts.end ≡ p.algorithm_offset) × (parts.algorithm.now ≡ p.algorithm) × (parts.bits ≡ p.bits)
        × (parts.signature.now ≡ p.signature)) }
{
    let [content, algorithm, signature] = sequence_items(b)? else {
        return None;
    };
    let end = algorithm.offset();
    let algorithm = algorithm_of(algorithm)?;
    let (bits, signature) = bit_string_of(signature)?;
    Some(Parts {
        content,
        end,
        algorithm,
        bits,
        signature,
    })
}

// The triple of these parts, with copies of the content and the signature.
fn triple_of(alloc: Global, content: &[u8], parts: &Parts<'_>) -> Result<SignedTriple, AllocError>
    ensures { IfOk result (λ t. (t.content.items ≡ content.now) × (t.algorithm ≡ parts.now.algorithm.now)
        × (t.bits ≡ parts.now.bits) × (t.signature.items ≡ parts.now.signature.now)) }
{
    let content = Vec::from_slice(alloc, content)?;
    let algorithm = parts.algorithm.clone(alloc)?;
    let signature = Vec::from_slice(alloc, parts.signature)?;
    Ok(SignedTriple {
        content,
        algorithm,
        bits: parts.bits,
        signature,
    })
}

impl FromASN1WithBody for SignedTriple {
    type Error = TripleErr;

    ghost reads_with = { ReadsSigned };

    fn from_asn1_with_body<'a>(
        alloc: Global,
        v: &'a [ASN1Block],
        b: &[u8],
    ) -> Result<(SignedTriple, &'a [ASN1Block]), TripleErr> {
        let Some((first, rest)) = v.split_first() else {
            return Err(TripleErr::Shape);
        };
        let Some(parts) = parts_of(first) else {
            return Err(TripleErr::Shape);
        };
        let Some(content) = b.get(parts.content.offset()..parts.end) else {
            return Err(TripleErr::Shape);
        };
        Ok((triple_of(alloc, content, &parts)?, rest))
    }
}

/// Reads the signed triple at the front of a document: [`der_decode`] at this type. Blocks after it are ignored.
/// Content, object identifier and signature are copied while the blocks of the document are kept.
///
/// ```rust
/// use simple_asn1::{TripleErr, read_signed};
/// use std::alloc::Global;
///
/// // The octets that a certificate's signature is of.
/// fn signed_octets(alloc: Global, certificate: &[u8]) -> Result<Vec<u8>, TripleErr> {
///     let triple = read_signed(alloc, certificate)?;
///     Ok(triple.content)
/// }
/// ```
///
/// # Errors
/// `Codec` with the first fault of an input that is not a document, or with `OutOfMemory`; `Shape` if the first block
/// of a document is not a signed triple.
pub fn read_signed(alloc: Global, v: &[u8]) -> Result<SignedTriple, TripleErr>
    ensures fields { IfOk result (λ t. (p : SignedParts) × IsSigned v.now p × HasTriple v.now p t) }
    ensures content { IfOk result (λ t. (p : SignedParts) (rest : Trees ℕ) → IsDocument v.now (signed_trees p rest)
        → HasOctets v.now (signed_trees p rest) p.content t.content.items) }
    ensures content_alone { IfOk result (λ t. (p : SignedParts) → IsSigned v.now p
        → IsDocument t.content.items (more_trees (rebased p.content) no_trees)) }
    ensures codec { IfErr result (λ e. (f : ASN1DecodeErr) → e ≡ Codec f → OutOfMemoryOr (FirstFault v.now) f) }
    ensures shape { IfErr result (λ e. e ≡ Shape → IsOfAnotherShape v.now) }
    ensures accepts { (p : SignedParts) → IsSigned v.now p
        → MatchResult result (HasTriple v.now p) (λ e. e ≡ Codec OutOfMemory) }
    ensures refuses { IsOfAnotherShape v.now → IsErrAnd result (λ e. (e ≡ Shape) ⊎ (e ≡ Codec OutOfMemory)) }
{
    law_one_reading();
    law_slices();
    der_decode(alloc, v)
}
