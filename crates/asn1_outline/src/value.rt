// What a block of an outline is: the readers of its contents octets.
ghost use Rattle.std.specs.Prelude.{◌≡◌, ◌⊎◌, ℕ, ◌<◌, None, Some, false, true, IfErr, IfOk, MatchOption, string_bytes};
ghost use Rattle.std.specs.Str.{chars};
ghost use Rattle.asn1_headers.specs.Fault.{OutOfMemoryOr};
ghost use Rattle.asn1_headers.specs.declared.error.ASN1DecodeErr.TheVariants.{OutOfMemory};
ghost use Rattle.asn1_leaves.specs.Contents.GeneralizedTime.{GeneralizedTimeContents, GeneralizedTimeFault};
ghost use Rattle.asn1_leaves.specs.Contents.Moment.{moment_of};
ghost use Rattle.asn1_leaves.specs.Contents.UtcTime.{UtcTimeContents, UtcTimeFault};
ghost use Rattle.asn1_blocks.specs.BlockParts.{tree_bits, tree_boolean, tree_integer, tree_moment, tree_octets, tree_oid, tree_tag, tree_text};
ghost use Rattle.asn1_blocks.specs.Contents.{is_known_tag, is_leaf_tag};
ghost use Rattle.asn1_blocks.specs.Inner.LeafBlocks.{IsLeafOf};
ghost use Rattle.asn1_blocks.specs.Tree.{Tree};
ghost use Rattle.asn1_blocks.specs.UnknownValues.{tree_ascii_text, tree_enumerated};
ghost use Rattle.asn1_blocks.specs.View.{tree_offset};
ghost use Rattle.asn1_outline.specs.Outlines.{IsBlockOf, entry_in, lent_to};
ghost use Rattle.asn1_outline.specs.Shapes.{contents_octets, encoding_octets};
ghost use Rattle.asn1_outline.specs.Structure.{HasContents, IsEncodedIn, is_explicit};
ghost use Rattle.asn1_outline.specs.Values.{EachIsOfItsTree, IsNoLeafWith, IsNoPrimitive, IsPrimitive};

use crate::block_ref::BlockRef;
use crate::entry::Entry;
use asn1_blocks::unknown_values::{ascii_text, enumerated, is_ascii_tag};
use asn1_headers::error::ASN1DecodeErr;
use asn1_headers::header::{ASN1Class, HeaderCount, decode_tag};
use asn1_headers::tags::{
    BIT_STRING, BOOLEAN, ENUMERATED, GENERALIZED_TIME, INTEGER, OBJECT_IDENTIFIER, OCTET_STRING,
    UTC_TIME,
};
use asn1_leaves::contents::{bit_string, boolean, generalized_time, integer, text, utc_time};
use asn1_leaves::oid::{self, OID};
use asn1_numbers::number::big_int::BigInt;
use asn1_numbers::number::big_uint::BigUint;
use jiff::civil::DateTime;
use std::alloc::{AllocError, Global};

impl<'a> BlockRef<'a> {
    /// The entry.
    #[inline(always)]
    pub fn entry(&self) -> &Entry
        ensures { result.now ≡ entry_in self.now }
    {
        &self.entry
    }

    /// The octets of the block.
    #[inline(always)]
    pub fn encoding(&self) -> &'a [u8]
        ensures octets { result.now ≡ encoding_octets (lent_to self.now) (entry_in self.now) }
        ensures tree { (b : Tree ℕ) → IsBlockOf b self.now → IsEncodedIn (lent_to self.now) b result.now }
    {
        self.entry.encoding_in(self.octets)
    }

    /// The contents octets.
    #[inline(always)]
    pub fn contents(&self) -> &'a [u8]
        ensures octets { result.now ≡ contents_octets (lent_to self.now) (entry_in self.now) }
        ensures tree { (b : Tree ℕ) → IsBlockOf b self.now → HasContents (lent_to self.now) b result.now }
    {
        self.entry.contents_in(self.octets)
    }

    /// Whether the block is `Explicit`: a constructed encoding of another class around exactly one block (X.690 8.14).
    #[inline(always)]
    pub fn is_explicit(&self) -> bool
        ensures { (b : Tree ℕ) → IsBlockOf b self.now → result ≡ is_explicit b }
    {
        self.entry.is_tagged_with_one_item()
    }

    /// The tag number, also one from 2^64 on, where the entry has `u64::MAX`.
    pub fn tag(&self, alloc: Global) -> Result<BigUint, AllocError>
        ensures { (b : Tree ℕ) → IsBlockOf b self.now → IfOk result (λ tag. tag ≡ tree_tag b) }
    {
        let mut index = self.entry.offset;
        let mut count = HeaderCount::new();
        match decode_tag(alloc, self.octets, &mut index, &mut count) {
            Ok((tag, _, _)) => Ok(tag),
            Err(fault) => Err(out_of_memory(fault)),
        }
    }

    // The contents octets of a leaf of class Universal with the tag number, if the block is one.
    #[inline(always)]
    fn leaf(&self, tag: u64) -> Option<&'a [u8]>
        requires small { tag < 64 }
        requires leaf { is_leaf_tag tag ≡ true }
        ensures { (b : Tree ℕ) → IsBlockOf b self.now → MatchOption result
            (IsNoLeafWith tag b)
            (λ contents. IsLeafOf (tree_offset b) tag contents.now b) }
    {
        if !self.entry.is_universal(tag) {
            return None;
        }
        Some(self.contents())
    }

    /// The value of a BOOLEAN; `None` for any other block.
    #[inline(always)]
    pub fn boolean(&self) -> Option<bool>
        ensures { (b : Tree ℕ) → IsBlockOf b self.now → MatchOption result
            (tree_boolean b ≡ None)
            (λ yes. tree_boolean b ≡ Some yes) }
    {
        let Some(contents) = self.leaf(BOOLEAN) else {
            return None;
        };
        let Ok(yes) = boolean::read(contents) else {
            return None;
        };
        Some(yes)
    }

    /// The number of an INTEGER; `None` for any other block.
    pub fn integer(&self, alloc: Global) -> Result<Option<BigInt>, AllocError>
        ensures { (b : Tree ℕ) → IsBlockOf b self.now → IfOk result
            (λ found. MatchOption found (tree_integer b ≡ None) (λ n. tree_integer b ≡ Some n)) }
    {
        let Some(contents) = self.leaf(INTEGER) else {
            return Ok(None);
        };
        match integer::read(alloc, contents) {
            Ok(n) => Ok(Some(n)),
            Err(fault) => Err(out_of_memory(fault)),
        }
    }

    /// The number of bits of a BIT STRING, and the octets that hold them; `None` for any other block.
    pub fn bits(&self, alloc: Global) -> Result<Option<(usize, Vec<u8>)>, AllocError>
        ensures { (b : Tree ℕ) → IsBlockOf b self.now → IfOk result
            (λ found. MatchOption found
            (tree_bits b ≡ None)
            (λ bits. tree_bits b ≡ Some (bits.0, bits.1.items))) }
    {
        let Some(contents) = self.leaf(BIT_STRING) else {
            return Ok(None);
        };
        match bit_string::read(alloc, contents) {
            Ok(bits) => Ok(Some(bits)),
            Err(fault) => Err(out_of_memory(fault)),
        }
    }

    /// The octets of an OCTET STRING; `None` for any other block.
    #[inline(always)]
    pub fn octets(&self) -> Option<&'a [u8]>
        ensures { (b : Tree ℕ) → IsBlockOf b self.now → MatchOption result
            (tree_octets b ≡ None)
            (λ octets. tree_octets b ≡ Some octets.now) }
    {
        self.leaf(OCTET_STRING)
    }

    /// The components of an OBJECT IDENTIFIER; `None` for any other block.
    pub fn oid(&self, alloc: Global) -> Result<Option<OID>, AllocError>
        ensures { (b : Tree ℕ) → IsBlockOf b self.now → IfOk result
            (λ found. MatchOption found (tree_oid b ≡ None) (λ oid. tree_oid b ≡ Some oid)) }
    {
        let Some(contents) = self.leaf(OBJECT_IDENTIFIER) else {
            return Ok(None);
        };
        match oid::read(alloc, contents) {
            Ok(oid) => Ok(Some(oid)),
            Err(fault) => Err(out_of_memory(fault)),
        }
    }

    /// The text of a string of characters, of any of the six kinds; `None` for any other block.
    pub fn text(&self, alloc: Global) -> Result<Option<String>, AllocError>
        ensures { (b : Tree ℕ) → IsBlockOf b self.now → IfOk result
            (λ found. MatchOption found
            (tree_text b ≡ None)
            (λ text. tree_text b ≡ Some (chars (string_bytes text)))) }
    {
        let Some(form) = self.entry.text_form() else {
            return Ok(None);
        };
        match text::read(alloc, form, self.contents()) {
            Ok(text) => Ok(Some(text)),
            Err(fault) => Err(out_of_memory(fault)),
        }
    }

    /// The moment of a UTCTime or GeneralizedTime; `None` for any other block.
    pub fn moment(&self, alloc: Global) -> Result<Option<DateTime>, AllocError>
        ensures { (b : Tree ℕ) → IsBlockOf b self.now → IfOk result
            (λ found. MatchOption found
            (tree_moment b ≡ None)
            (λ d. tree_moment b ≡ Some (moment_of d))) }
    {
        if !matches!(self.entry.class, ASN1Class::Universal) {
            return Ok(None);
        }
        match time_of(alloc, self.entry.tag, self.contents()) {
            Ok(found) => Ok(found),
            Err(fault) => Err(out_of_memory(fault)),
        }
    }

    // The contents octets of a primitive encoding of class Universal, if the block is one. Its tag number has no rule.
    fn primitive(&self) -> Option<&'a [u8]>
        requires small { (entry_in self.now).tag < 64 }
        requires unknown { is_known_tag (entry_in self.now).tag ≡ false }
        ensures { (b : Tree ℕ) → IsBlockOf b self.now → MatchOption result
            (IsNoPrimitive b)
            (λ contents. IsPrimitive (entry_in self.now).tag contents.now b) }
    {
        match self.entry.class {
            ASN1Class::Universal if !self.entry.constructed => Some(self.contents()),
            _ => None,
        }
    }

    /// The number of an ENUMERATED (X.690 8.4); `None` for any other block. As [`ASN1Block::enumerated`] has it, there
    /// is also none where the encoding is constructed, has no contents octets, or has not the shortest.
    ///
    /// [`ASN1Block::enumerated`]: asn1_blocks::block::ASN1Block::enumerated
    pub fn enumerated(&self, alloc: Global) -> Result<Option<BigInt>, AllocError>
        ensures { (b : Tree ℕ) → IsBlockOf b self.now → IfOk result
            (λ found. MatchOption found (tree_enumerated b ≡ None) (λ n. tree_enumerated b ≡ Some n)) }
    {
        if self.entry.tag != ENUMERATED {
            return Ok(None);
        }
        match self.primitive() {
            Some(contents) => enumerated(alloc, ENUMERATED, contents),
            None => Ok(None),
        }
    }

    /// The text of a NumericString, VisibleString or GeneralString (X.690 8.23); `None` for any other block.
    /// [`ASN1Block::ascii_text`] says which octets are text.
    ///
    /// [`ASN1Block::ascii_text`]: asn1_blocks::block::ASN1Block::ascii_text
    pub fn ascii_text(&self) -> Option<&'a str>
        ensures { (b : Tree ℕ) → IsBlockOf b self.now → MatchOption result
            (tree_ascii_text b ≡ None)
            (λ text. tree_ascii_text b ≡ Some (chars text.now)) }
    {
        if !is_ascii_tag(self.entry.tag) {
            return None;
        }
        match self.primitive() {
            Some(contents) => ascii_text(self.entry.tag, contents),
            None => None,
        }
    }
}

// The one error of what was checked before.
fn out_of_memory(fault: ASN1DecodeErr) -> AllocError
    requires { fault ≡ OutOfMemory }
{
    match fault {
        ASN1DecodeErr::OutOfMemory => AllocError,
        _ => unreachable!(),
    }
}

// The moment of contents octets behind the tag number of a UTCTime or a GeneralizedTime.
pub fn time_of(alloc: Global, tag: u64, contents: &[u8]) -> Result<Option<DateTime>, ASN1DecodeErr>
    ensures found { IfOk result (λ found. MatchOption found
        ((tag ≡ UTC_TIME) ⊎ (tag ≡ GENERALIZED_TIME) → ⊥)
        (λ d. ((tag ≡ UTC_TIME) × UtcTimeContents (moment_of d) contents.now)
        ⊎ ((tag ≡ GENERALIZED_TIME) × GeneralizedTimeContents (moment_of d) contents.now))) }
    ensures refused { IfErr result (OutOfMemoryOr (λ e.
        ((tag ≡ UTC_TIME) × UtcTimeFault contents.now e)
        ⊎ ((tag ≡ GENERALIZED_TIME) × GeneralizedTimeFault contents.now e))) }
{
    match tag {
        UTC_TIME => Ok(Some(utc_time::read(alloc, contents)?)),
        GENERALIZED_TIME => Ok(Some(generalized_time::read(alloc, contents)?)),
        _ => Ok(None),
    }
}

/// A law, with no code. Each entry of a document is that of the tree at its index.
pub fn law_entries()
    ensures { EachIsOfItsTree }
{}
