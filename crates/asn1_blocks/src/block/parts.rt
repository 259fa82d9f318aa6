// What a block is made of, for whoever wants one thing of it and has no use for a `match`.
ghost use Rattle.std.specs.Prelude.{◌≡◌, ◌<◌, IfOk, MatchOption, None, Some, map, option_map};
ghost use Rattle.std.specs.Str.{chars};
ghost use Rattle.asn1_blocks.specs.BlockParts.{all_in_order, tree_bits, tree_boolean, tree_integer, tree_items, tree_moment, tree_octets, tree_oid, tree_tag, tree_text};
ghost use Rattle.asn1_blocks.specs.UnknownValues.{tree_ascii_text, tree_enumerated};
ghost use Rattle.asn1_blocks.specs.View.{tree_class, view, views};
ghost use Rattle.asn1_headers.specs.Names.{type_name as name_of_type};
ghost use Rattle.asn1_leaves.specs.Contents.Moment.{moment_of};

use crate::block::ASN1Block;
use crate::tree_walk::in_tree_order;
use crate::unknown_values::{ascii_text, enumerated};
use asn1_headers::header::ASN1Class;
use asn1_headers::types::type_name;
use asn1_leaves::oid::OID;
use asn1_numbers::number::big_int::BigInt;
use jiff::civil::DateTime;
use std::alloc::{AllocError, Global};
use std::slice;

impl ASN1Block {
    /// The name of its type, if its tag is of class Universal and has one (X.680 8.4, table 1).
    ///
    /// ```rust
    /// use simple_asn1::ASN1Block;
    ///
    /// // What a block is called: "INTEGER" for `02 01 05`, "ENUMERATED" for `0A 01 05`, and "tagged" for `80 01 05`.
    /// fn called(block: &ASN1Block) -> &'static str {
    ///     block.type_name().unwrap_or("tagged")
    /// }
    /// ```
    pub fn type_name(&self) -> Option<&'static str>
        ensures { option_map (λ name. name.now) result
            ≡ name_of_type (tree_class (view self.now)) (tree_tag (view self.now)) }
    {
        match self.tag() {
            Some(tag) => type_name(self.class(), tag),
            None => None,
        }
    }

    /// The items of a `Sequence` or `Set`, and the one block in an `Explicit`; `None` for any other block.
    ///
    /// ```rust
    /// use simple_asn1::ASN1Block;
    ///
    /// // The second item: in `30 05 02 01 05 05 00` the NULL.
    /// fn second(block: &ASN1Block) -> Option<&ASN1Block> {
    ///     block.items()?.get(1)
    /// }
    /// ```
    pub fn items(&self) -> Option<&[ASN1Block]>
        ensures { MatchOption result
            (tree_items (view self.now) ≡ None)
            (λ items. tree_items (view self.now) ≡ Some (views items.now)) }
    {
        match self {
            ASN1Block::Sequence(_, items) | ASN1Block::Set(_, items) => Some(items),
            ASN1Block::Explicit(_, _, _, item) => Some(slice::from_ref(item)),
            _ => None,
        }
    }

    /// The characters of a string of any of the six kinds; `None` for any other block.
    ///
    /// ```rust
    /// use simple_asn1::ASN1Block;
    ///
    /// // Whether the block is the string `DE`, as of a country name, in whatever kind of string.
    /// fn is_de(block: &ASN1Block) -> bool {
    ///     block.text() == Some("DE")
    /// }
    /// ```
    pub fn text(&self) -> Option<&str>
        ensures { MatchOption result
            (tree_text (view self.now) ≡ None)
            (λ text. tree_text (view self.now) ≡ Some (chars text.now)) }
    {
        match self {
            ASN1Block::UTF8String(_, text)
            | ASN1Block::PrintableString(_, text)
            | ASN1Block::TeletexString(_, text)
            | ASN1Block::IA5String(_, text)
            | ASN1Block::UniversalString(_, text)
            | ASN1Block::BMPString(_, text) => Some(text),
            _ => None,
        }
    }

    /// The number of an `Integer`; `None` for any other block.
    ///
    /// ```rust
    /// use simple_asn1::ASN1Block;
    ///
    /// // The number, where it fits: of `02 01 FF` -1.
    /// fn small(block: &ASN1Block) -> Option<i64> {
    ///     block.integer()?.to_i64()
    /// }
    /// ```
    pub fn integer(&self) -> Option<&BigInt>
        ensures { MatchOption result
            (tree_integer (view self.now) ≡ None)
            (λ n. tree_integer (view self.now) ≡ Some n.now) }
    {
        match self {
            ASN1Block::Integer(_, n) => Some(n),
            _ => None,
        }
    }

    /// The number of an ENUMERATED (X.690 8.4), which is an `Unknown` of class Universal with tag number 10. `None` for
    /// any other block, and also where it is constructed or its contents octets are none or not the shortest (8.3.2):
    /// nothing else checks those of an `Unknown`. The only error is that memory ran out.
    ///
    /// ```rust
    /// use simple_asn1::ASN1Block;
    /// use std::alloc::{AllocError, Global};
    ///
    /// // Whether the block is the reason keyCompromise of a certificate that was revoked: `0A 01 01` is.
    /// fn is_key_compromise(alloc: Global, block: &ASN1Block) -> Result<bool, AllocError> {
    ///     match block.enumerated(alloc)? {
    ///         Some(reason) => Ok(reason.to_i64() == Some(1)),
    ///         None => Ok(false),
    ///     }
    /// }
    /// ```
    pub fn enumerated(&self, alloc: Global) -> Result<Option<BigInt>, AllocError>
        ensures { IfOk result (λ found. MatchOption found
            (tree_enumerated (view self.now) ≡ None)
            (λ n. tree_enumerated (view self.now) ≡ Some n)) }
    {
        match self {
            ASN1Block::Unknown(class, constructed, _, tag, contents) => {
                match (class, constructed, tag.to_u64()) {
                    (ASN1Class::Universal, false, Some(tag)) => enumerated(alloc, tag, contents),
                    _ => Ok(None),
                }
            }
            _ => Ok(None),
        }
    }

    /// The text of a NumericString, VisibleString or GeneralString (X.690 8.23), which is an `Unknown` of class
    /// Universal with tag number 18, 26 or 27. `None` for any other block, and also where it is constructed or has an
    /// octet that is no character of its type.
    ///
    /// Each octet is a character of ASCII: the digits and the space of a NumericString, `20` to `7E` of a
    /// VisibleString, and `00` to `7F` of a GeneralString. Of these a GeneralString with `0E`, `0F` or `1B` has no text
    /// here, since these begin other sets of characters than the one that a GeneralString starts with.
    ///
    /// ```rust
    /// use simple_asn1::ASN1Block;
    ///
    /// // Whether the block is the NumericString `42`: `12 02 34 32` is.
    /// fn is_42(block: &ASN1Block) -> bool {
    ///     block.tag() == Some(18) && block.ascii_text() == Some("42")
    /// }
    /// ```
    pub fn ascii_text(&self) -> Option<&str>
        ensures { MatchOption result
            (tree_ascii_text (view self.now) ≡ None)
            (λ text. tree_ascii_text (view self.now) ≡ Some (chars text.now)) }
    {
        match self {
            ASN1Block::Unknown(class, constructed, _, tag, contents) => {
                match (class, constructed, tag.to_u64()) {
                    (ASN1Class::Universal, false, Some(tag)) => ascii_text(tag, contents),
                    _ => None,
                }
            }
            _ => None,
        }
    }

    /// The octets of an `OctetString`; `None` for any other block, also of a `BitString` and an `Unknown`, whose octets
    /// mean nothing without their other fields.
    ///
    /// ```rust
    /// use simple_asn1::ASN1Block;
    ///
    /// // How many octets there are: in `04 02 00 FF` two.
    /// fn size(block: &ASN1Block) -> Option<usize> {
    ///     Some(block.octets()?.len())
    /// }
    /// ```
    pub fn octets(&self) -> Option<&[u8]>
        ensures { MatchOption result
            (tree_octets (view self.now) ≡ None)
            (λ octets. tree_octets (view self.now) ≡ Some octets.now) }
    {
        match self {
            ASN1Block::OctetString(_, octets) => Some(octets),
            _ => None,
        }
    }

    /// The value of a `Boolean`; `None` for any other block.
    ///
    /// ```rust
    /// use simple_asn1::ASN1Block;
    ///
    /// // Whether the block says true: of `01 01 FF` it does.
    /// fn is_true(block: &ASN1Block) -> bool {
    ///     block.boolean() == Some(true)
    /// }
    /// ```
    pub fn boolean(&self) -> Option<bool>
        ensures { result ≡ tree_boolean (view self.now) }
    {
        match self {
            ASN1Block::Boolean(_, value) => Some(*value),
            _ => None,
        }
    }

    /// The number of bits of a `BitString`, and the octets that hold them, the first bit the most
    /// significant of the first octet; `None` for any other block. The other bits of these octets
    /// are unused.
    ///
    /// ```rust
    /// use simple_asn1::ASN1Block;
    ///
    /// // The octets of a key or a signature, whose bits fill them: of `03 03 00 04 1F` these are `04 1F`.
    /// fn whole_octets(block: &ASN1Block) -> Option<&[u8]> {
    ///     let (bits, octets) = block.bits()?;
    ///     if bits % 8 == 0 { Some(octets) } else { None }
    /// }
    /// ```
    pub fn bits(&self) -> Option<(usize, &[u8])>
        ensures { MatchOption result
            (tree_bits (view self.now) ≡ None)
            (λ bits. tree_bits (view self.now) ≡ Some (bits.0, bits.1.now)) }
    {
        match self {
            ASN1Block::BitString(_, bits, octets) => Some((*bits, octets)),
            _ => None,
        }
    }

    /// The object identifier of an `ObjectIdentifier`; `None` for any other block.
    ///
    /// ```rust
    /// use simple_asn1::{ASN1Block, OID, oid};
    /// use std::alloc::{AllocError, Global};
    ///
    /// // Whether the block is 2.5.4.3, commonName of X.520: `06 03 55 04 03` is.
    /// fn is_common_name(alloc: Global, block: &ASN1Block) -> Result<bool, AllocError> {
    ///     let common_name = oid!(alloc; 2, 5, 4, 3)?;
    ///     Ok(block.oid() == Some(&common_name))
    /// }
    /// ```
    pub fn oid(&self) -> Option<&OID>
        ensures { MatchOption result
            (tree_oid (view self.now) ≡ None)
            (λ oid. tree_oid (view self.now) ≡ Some oid.now) }
    {
        match self {
            ASN1Block::ObjectIdentifier(_, oid) => Some(oid),
            _ => None,
        }
    }

    /// The moment of a `UTCTime` or a `GeneralizedTime`; `None` for any other block. It is one of
    /// UTC.
    ///
    /// ```rust
    /// use simple_asn1::ASN1Block;
    ///
    /// // The year: of `17 0D 39 32 30 35 32 31 30 30 30 30 30 30 5A`, 920521000000Z, 1992.
    /// fn year(block: &ASN1Block) -> Option<i16> {
    ///     Some(block.moment()?.year())
    /// }
    /// ```
    pub fn moment(&self) -> Option<&DateTime>
        ensures { MatchOption result
            (tree_moment (view self.now) ≡ None)
            (λ moment. tree_moment (view self.now) ≡ Some (moment_of moment.now)) }
    {
        match self {
            ASN1Block::UTCTime(_, moment) | ASN1Block::GeneralizedTime(_, moment) => Some(moment),
            _ => None,
        }
    }
}

/// The blocks at all depths, in the order of their first octets in a document: each before those inside it. The octets
/// of an `Unknown` are not looked into.
///
/// The list takes 8 bytes for each block, and while it is made 16 for each open level of nesting. Stack use does not
/// grow with nesting. The only error is that memory ran out.
///
/// ```rust
/// use simple_asn1::{ASN1Block, Document, all_blocks};
/// use std::alloc::{AllocError, Global};
///
/// // How many INTEGERs there are at any depth: in `30 03 02 01 05 02 01 06` two.
/// fn integer_count(alloc: Global, document: &Document) -> Result<usize, AllocError> {
///     let mut count = 0;
///     for block in all_blocks(alloc, document.blocks())? {
///         if block.integer().is_some() {
///             count += 1;
///         }
///     }
///     Ok(count)
/// }
/// ```
pub fn all_blocks<'a>(
    alloc: Global,
    blocks: &'a [ASN1Block],
) -> Result<Vec<&'a ASN1Block>, AllocError>
    ensures { IfOk result
        (λ order. map (λ b. view b.now) order.items ≡ all_in_order (views blocks.now)) }
{
    in_tree_order(alloc, blocks)
}
