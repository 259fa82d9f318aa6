// Names: a SEQUENCE of SETs of attributes.
ghost use Rattle.std.specs.Prelude.{◌≡◌, ◌∷◌, [], None, Some, MatchOption};
ghost use Rattle.asn1_outline.specs.Outlines.{octets_in};
ghost use Rattle.asn1_outline.specs.Structure.{IsStructure, Nodes, tree_at};
ghost use Rattle.asn1_certificate.specs.Sequences.{each};
ghost use Rattle.asn1_certificate.specs.Reading.{Tells, left, trees_at};
ghost use Rattle.asn1_certificate.specs.Types.{attribute_type_and_value as attribute_tree, is_attribute_type_and_value, is_name as is_name_tree, is_relative_distinguished_name as is_relative_tree};

use crate::fields::Fields;
use crate::kinds::{begins_with_leaf, group, sequence};
use asn1_blocks::block::GroupKind;
use asn1_headers::tags::OBJECT_IDENTIFIER;
use asn1_outline::outline::Outline;

/// The places of the fields of an AttributeTypeAndValue, of which a RelativeDistinguishedName is a SET.
#[derive(Clone, Copy, Debug)]
pub struct AttributeTypeAndValue {
    /// An OBJECT IDENTIFIER.
    pub attribute_type: usize,
    /// A block of any type.
    pub value: usize,
}

impl AttributeTypeAndValue {
    /// The fields of the AttributeTypeAndValue at the index; `None` if the block is another.
    pub fn at(outline: &Outline<'_>, index: usize) -> Option<AttributeTypeAndValue>
        ensures { (ns : Nodes) → IsStructure (octets_in outline.now) ns → MatchOption result
            (attribute_tree (tree_at ns index) ≡ None)
            (λ found. attribute_tree (tree_at ns index) ≡ Some
            (Some (tree_at ns found.attribute_type) ∷ Some (tree_at ns found.value) ∷ [])) }
    {
        let mut fields = sequence(outline, index)?;
        let has_type = begins_with_leaf(outline, &fields, OBJECT_IDENTIFIER);
        let attribute_type = fields.take_if(has_type)?;
        let value = fields.take_if(true)?;
        if fields.is_some() {
            return None;
        }
        Some(AttributeTypeAndValue {
            attribute_type,
            value,
        })
    }
}

// Whether the block at the index is an AttributeTypeAndValue.
fn is_attribute(outline: &Outline<'_>, index: usize) -> bool
    ensures { (ns : Nodes) → IsStructure (octets_in outline.now) ns
        → result ≡ is_attribute_type_and_value (tree_at ns index) }
{
    AttributeTypeAndValue::at(outline, index).is_some()
}

// Whether each block is an AttributeTypeAndValue.
fn are_attributes(outline: &Outline<'_>, mut items: Fields<'_>) -> bool
    ensures { (ns : Nodes) → IsStructure (octets_in outline.now) ns
        → result ≡ each is_attribute_type_and_value (trees_at ns (left items.entry)) }
{
    while let Some(index) = items.take() {
        if !is_attribute(outline, index) {
            return false;
        }
    }
    true
}

// Whether the block at the index is a RelativeDistinguishedName.
fn is_relative(outline: &Outline<'_>, index: usize) -> bool
    ensures { (ns : Nodes) → IsStructure (octets_in outline.now) ns
        → result ≡ is_relative_tree (tree_at ns index) }
{
    let Some(items) = group(outline, index, GroupKind::Set) else {
        return false;
    };
    if !items.is_some() {
        return false;
    }
    are_attributes(outline, items)
}

// Whether each block is a RelativeDistinguishedName.
fn are_relative(outline: &Outline<'_>, mut items: Fields<'_>) -> bool
    ensures { (ns : Nodes) → IsStructure (octets_in outline.now) ns
        → result ≡ each is_relative_tree (trees_at ns (left items.entry)) }
{
    while let Some(index) = items.take() {
        if !is_relative(outline, index) {
            return false;
        }
    }
    true
}

// Whether the block at the index is a Name.
fn is_name(outline: &Outline<'_>, index: usize) -> bool
    ensures { (ns : Nodes) → IsStructure (octets_in outline.now) ns → result ≡ is_name_tree (tree_at ns index) }
{
    match group(outline, index, GroupKind::Sequence) {
        Some(items) => are_relative(outline, items),
        None => false,
    }
}

// Whether the next field is a Name.
pub(crate) fn begins_with_name(outline: &Outline<'_>, fields: &Fields<'_>) -> bool
    ensures { (ns : Nodes) → IsStructure (octets_in outline.now) ns
        → Tells ns is_name_tree result (left fields.now) }
{
    match fields.first() {
        Some(index) => is_name(outline, index),
        None => false,
    }
}
