// The blocks of a document under an owner that drops them by a loop.
ghost use Rattle.std.specs.Prelude.{◌<◌, length};
ghost use Rattle.asn1_headers.specs.Reading.{OutOfMemoryOrAt, ReadsEach, ReadsEachLocated, RejectsAt, RejectsWith};

use crate::block::ASN1Block;
use crate::held::HeldBlocks;
use crate::read::{from_der, from_der_located};
use asn1_headers::error::{ASN1DecodeErr, LocatedErr};
use std::alloc::Global;

/// Owns the blocks of a document of untrusted input: dropping a `Document` takes no memory and does not recurse,
/// however deeply the blocks nest. Dropping the blocks themselves uses stack for each level of nesting.
///
/// ```rust
/// use simple_asn1::{ASN1DecodeErr, Document};
/// use std::alloc::Global;
///
/// // How many blocks the document has at its top: of `05 00 05 00` 2.
/// fn count(alloc: Global, octets: &[u8]) -> Result<usize, ASN1DecodeErr> {
///     let document = Document::from_der(alloc, octets)?;
///     Ok(document.blocks().len())
/// }
/// ```
#[derive(Debug, Drop)]
pub struct Document {
    blocks: HeldBlocks,
    ghost not_empty: { 0 < length blocks },
}

impl Document {
    ghost use Rattle.std.specs.Prelude.{◌≡◌, ◌<◌, ℕ, length, IfErr, IfOk, IsErrAnd, MatchResult};
    ghost use Rattle.asn1_headers.specs.Fault.{DecodeFault, OutOfMemoryOr};
    ghost use Rattle.asn1_blocks.specs.Grammar.{IsDocument, FirstFault, FirstFaultAt};
    ghost use Rattle.asn1_blocks.specs.Tree.{Trees};
    ghost use Rattle.asn1_blocks.specs.View.{document_trees, views};
    ghost use Rattle.asn1_headers.specs.declared.error.ASN1DecodeErr.TheVariants.{OutOfMemory};

    /// Reads a document as the function [`from_der`] does.
    ///
    /// # Errors
    /// The errors of [`from_der`].
    ///
    /// ```rust
    /// use simple_asn1::{ASN1DecodeErr, Document};
    /// use std::alloc::Global;
    ///
    /// // The offset of the last block at the top: of `05 00 05 00` 2.
    /// fn last(alloc: Global, octets: &[u8]) -> Result<Option<usize>, ASN1DecodeErr> {
    ///     let document = Document::from_der(alloc, octets)?;
    ///     Ok(document.blocks().last().map(|block| block.offset()))
    /// }
    /// ```
    pub fn from_der(alloc: Global, i: &[u8]) -> Result<Document, ASN1DecodeErr>
        ensures document { IfOk result (λ document. IsDocument i.now (document_trees document)) }
        ensures fault { IfErr result (OutOfMemoryOr (FirstFault i.now)) }
        ensures accepts { ReadsEach result (IsDocument i.now)
            (λ bs document. document_trees document ≡ bs) }
        ensures refuses { RejectsWith result (FirstFault i.now) }
    {
        let blocks = from_der(alloc, i)?;
        Ok(Document {
            blocks: HeldBlocks::of(blocks),
        })
    }

    /// Reads a document as the function [`from_der_located`] does.
    ///
    /// # Errors
    /// The errors of [`from_der`], each with the offset of the innermost block at fault.
    ///
    /// ```rust
    /// use simple_asn1::Document;
    /// use std::alloc::Global;
    ///
    /// // Where the octets are at fault: `05 00 01 00` at 2.
    /// fn fault_offset(alloc: Global, octets: &[u8]) -> Option<usize> {
    ///     match Document::from_der_located(alloc, octets) {
    ///         Ok(_) => None,
    ///         Err(located) => Some(located.offset),
    ///     }
    /// }
    /// ```
    pub fn from_der_located(alloc: Global, i: &[u8]) -> Result<Document, LocatedErr>
        ensures document { IfOk result (λ document. IsDocument i.now (document_trees document)) }
        ensures fault { IfErr result (OutOfMemoryOrAt (FirstFaultAt i.now)) }
        ensures accepts { ReadsEachLocated result (IsDocument i.now)
            (λ bs document. document_trees document ≡ bs) }
        ensures refuses { RejectsAt result (FirstFaultAt i.now) }
    {
        match from_der_located(alloc, i) {
            Ok(blocks) => Ok(Document {
                blocks: HeldBlocks::of(blocks),
            }),
            Err(located) => Err(located),
        }
    }

    /// The blocks at the top level, in order. There is at least one.
    ///
    /// ```rust
    /// use simple_asn1::{ASN1Block, Document};
    ///
    /// // The items of a document that is one SEQUENCE.
    /// fn items(document: &Document) -> Option<&[ASN1Block]> {
    ///     match document.blocks() {
    ///         [ASN1Block::Sequence(_, items)] => Some(items),
    ///         _ => None,
    ///     }
    /// }
    /// ```
    pub fn blocks(&self) -> &[ASN1Block]
        ensures trees { views result.now ≡ document_trees self.now }
        ensures not_empty { 0 < length result.now }
    {
        self.blocks.as_slice()
    }

    /// Returns the blocks at the top level, in order. There is at least one. Dropping them then uses stack for each
    /// level of nesting, unless [`discard`](crate::discard) does it.
    ///
    /// ```rust
    /// use simple_asn1::{ASN1Block, ASN1DecodeErr, Document};
    /// use std::alloc::Global;
    ///
    /// // The blocks, to be kept by whoever calls.
    /// fn kept(alloc: Global, octets: &[u8]) -> Result<Vec<ASN1Block>, ASN1DecodeErr> {
    ///     let document = Document::from_der(alloc, octets)?;
    ///     Ok(document.into_blocks())
    /// }
    /// ```
    pub fn into_blocks(self) -> Vec<ASN1Block>
        ensures trees { views result.items ≡ document_trees self }
        ensures not_empty { 0 < length result.items }
    {
        let Document { blocks } = self;
        blocks.into_vec()
    }
}
