// Attributes of a certification request or a private key.
ghost use Rattle.std.specs.Prelude.{◌≡◌, ◌<◌, ◌∷◌, [], ℕ, false, true, None, Some, IfSome, MatchOption};
ghost use Rattle.std.specs.Iterator.{item_count};
ghost use Rattle.asn1_blocks.specs.Tree.{Tree, Trees};
ghost use Rattle.asn1_outline.specs.Outlines.{octets_in};
ghost use Rattle.asn1_outline.specs.Structure.{IsStructure, Nodes, tree_at};
ghost use Rattle.asn1_certificate.specs.Held.{AreHeld};
ghost use Rattle.asn1_certificate.specs.Sequences.{each, set_of_some};
ghost use Rattle.asn1_certificate.specs.Items.{GivesFields};
ghost use Rattle.asn1_certificate.specs.Reading.{Tells, left, trees_at};
ghost use Rattle.asn1_certificate.specs.Types.{attribute as attribute_tree, is_any, is_attribute as is_attribute_tree, tagged_attributes};

use crate::fields::Fields;
use crate::kinds::{begins_with_leaf, group, sequence, tagged_set};
use asn1_blocks::block::GroupKind;
use asn1_headers::tags::OBJECT_IDENTIFIER;
use asn1_outline::outline::Outline;
use std::iter::FusedIterator;
use std::marker::Model;

/// The places of the fields of an Attribute.
#[derive(Clone, Copy, Debug)]
pub struct Attribute {
    /// An OBJECT IDENTIFIER.
    pub attribute_type: usize,
    /// A SET of one or more blocks of any type.
    pub values: usize,
}

impl Attribute {
    /// The fields of the Attribute at the index; `None` if the block is another.
    pub fn at(outline: &Outline<'_>, index: usize) -> Option<Attribute>
        ensures { (ns : Nodes) → IsStructure (octets_in outline.now) ns → MatchOption result
            (attribute_tree (tree_at ns index) ≡ None)
            (λ found. attribute_tree (tree_at ns index) ≡ Some
            (Some (tree_at ns found.attribute_type) ∷ Some (tree_at ns found.values) ∷ [])) }
    {
        let mut fields = sequence(outline, index)?;
        let has_type = begins_with_leaf(outline, &fields, OBJECT_IDENTIFIER);
        let attribute_type = fields.take_if(has_type)?;
        let has_values = begins_with_values(outline, &fields);
        let values = fields.take_if(has_values)?;
        if fields.is_some() {
            return None;
        }
        Some(Attribute {
            attribute_type,
            values,
        })
    }
}

/// The Attributes of a certification request or a private key in order, as the fields of each.
///
/// ```rust
/// use asn1_certificate::attribute::Attributes;
/// use asn1_certificate::request::{CertificationRequest, CertificationRequestInfo};
/// use simple_asn1::Outline;
///
/// // How many Attributes a certification request has.
/// fn attribute_count(outline: &Outline<'_>) -> Option<usize> {
///     let request = CertificationRequest::at(outline, 0)?;
///     let signed = CertificationRequestInfo::at(outline, request.certification_request_info)?;
///     Some(Attributes::tagged(outline, signed.attributes, 0)?.count())
/// }
/// ```
#[derive(Drop)]
pub struct Attributes<'o> {
    outline: &'o Outline<'o>,
    items: Fields<'o>,
}

impl<'o> Model for Attributes<'o> {
    ghost use Rattle.asn1_outline.specs.Outlines.{octets_in};
    ghost use Rattle.asn1_certificate.specs.Items.{AreOf, Items};
    ghost use Rattle.asn1_certificate.specs.Reading.{left};
    ghost use Rattle.asn1_certificate.specs.Types.{is_attribute as is_attribute_tree};

    ghost Value = { Items };

    ghost view = { λ it. record { octets = octets_in it.outline.now; indices = left it.items } };

    ghost invariant = { λ it. AreOf is_attribute_tree (octets_in it.outline.now) (left it.items) };
}

impl<'o> Iterator for Attributes<'o> {
    type Item = Attribute;

    ghost next_gives = { GivesFields attribute_tree (λ ns found. Some (tree_at ns found.attribute_type)
        ∷ Some (tree_at ns found.values) ∷ []) };

    ghost remaining = { item_count (λ items. items.indices) };

    fn next(&mut self) -> Option<Attribute> {
        let index = self.items.take()?;
        Attribute::at(self.outline, index)
    }
}

impl<'o> FusedIterator for Attributes<'o> {}

impl<'o> Attributes<'o> {
    /// The Attributes in implicit tagging at the index, with the tag number, which in a CertificationRequestInfo and in
    /// a OneAsymmetricKey is 0; `None` if the block is another.
    pub fn tagged(outline: &'o Outline<'o>, index: usize, tag: u64) -> Option<Attributes<'o>>
        requires { tag < 64 }
        ensures octets { IfSome result (λ items. items.octets ≡ octets_in outline.now) }
        ensures items { (ns : Nodes) (held : Tree ℕ → Trees ℕ) → IsStructure (octets_in outline.now) ns
            → AreHeld ns held → MatchOption result
            (tagged_attributes held tag (tree_at ns index) ≡ false)
            (λ items. (tagged_attributes held tag (tree_at ns index) ≡ true)
            × (trees_at ns items.indices ≡ held (tree_at ns index))) }
    {
        let tested = tagged_set(outline, index, tag)?;
        if !are_attributes(outline, tested) {
            return None;
        }
        let items = tagged_set(outline, index, tag)?;
        Some(Attributes { outline, items })
    }
}

// Whether the block at the index is a SET of one or more blocks.
fn are_values(outline: &Outline<'_>, index: usize) -> bool
    ensures { (ns : Nodes) → IsStructure (octets_in outline.now) ns
        → result ≡ set_of_some is_any (tree_at ns index) }
{
    match group(outline, index, GroupKind::Set) {
        Some(items) => items.is_some(),
        None => false,
    }
}

// Whether the next field is a SET of one or more blocks.
fn begins_with_values(outline: &Outline<'_>, fields: &Fields<'_>) -> bool
    ensures { (ns : Nodes) → IsStructure (octets_in outline.now) ns
        → Tells ns (set_of_some is_any) result (left fields.now) }
{
    match fields.first() {
        Some(index) => are_values(outline, index),
        None => false,
    }
}

// Whether the block at the index is an Attribute.
fn is_attribute(outline: &Outline<'_>, index: usize) -> bool
    ensures { (ns : Nodes) → IsStructure (octets_in outline.now) ns
        → result ≡ is_attribute_tree (tree_at ns index) }
{
    Attribute::at(outline, index).is_some()
}

// Whether each block is an Attribute.
fn are_attributes(outline: &Outline<'_>, mut items: Fields<'_>) -> bool
    ensures { (ns : Nodes) → IsStructure (octets_in outline.now) ns
        → result ≡ each is_attribute_tree (trees_at ns (left items.entry)) }
{
    while let Some(index) = items.take() {
        if !is_attribute(outline, index) {
            return false;
        }
    }
    true
}

// Whether the block at the index is Attributes in implicit tagging with the tag number.
fn is_tagged(outline: &Outline<'_>, index: usize, tag: u64) -> bool
    requires { tag < 64 }
    ensures { (ns : Nodes) (held : Tree ℕ → Trees ℕ) → IsStructure (octets_in outline.now) ns
        → AreHeld ns held → result ≡ tagged_attributes held tag (tree_at ns index) }
{
    match tagged_set(outline, index, tag) {
        Some(items) => are_attributes(outline, items),
        None => false,
    }
}

// Whether the next field is Attributes in implicit tagging with the tag number.
pub(crate) fn begins_with_attributes(outline: &Outline<'_>, fields: &Fields<'_>, tag: u64) -> bool
    requires { tag < 64 }
    ensures { (ns : Nodes) (held : Tree ℕ → Trees ℕ) → IsStructure (octets_in outline.now) ns
        → AreHeld ns held → Tells ns (tagged_attributes held tag) result (left fields.now) }
{
    match fields.first() {
        Some(index) => is_tagged(outline, index, tag),
        None => false,
    }
}
