// Extensions of a certificate.
ghost use Rattle.std.specs.Prelude.{◌≡◌, ◌<◌, ◌∷◌, [], ℕ, false, true, None, Some, IfSome, MatchOption, option_map};
ghost use Rattle.std.specs.Iterator.{item_count};
ghost use Rattle.asn1_outline.specs.Outlines.{octets_in};
ghost use Rattle.asn1_outline.specs.Structure.{IsStructure, Nodes, tree_at};
ghost use Rattle.asn1_certificate.specs.Sequences.{each, tagged as tagged_tree};
ghost use Rattle.asn1_blocks.specs.Tree.{Tree};
ghost use Rattle.asn1_blocks.specs.declared.block.GroupKind.TheVariants.{Sequence};
ghost use Rattle.asn1_certificate.specs.Items.{GivesFields};
ghost use Rattle.asn1_certificate.specs.Reading.{IsGroupOf, IsTagged, Tells, left, trees_at};
ghost use Rattle.asn1_certificate.specs.Types.{extension as extension_tree, is_extension, is_extensions as is_extensions_tree};

use crate::fields::Fields;
use crate::kinds::{begins_with_leaf, group, sequence, tagged};
use asn1_blocks::block::GroupKind;
use asn1_headers::tags::{BOOLEAN, OBJECT_IDENTIFIER, OCTET_STRING};
use asn1_outline::outline::Outline;
use std::iter::FusedIterator;
use std::marker::Model;

/// The places of the fields of an Extension.
#[derive(Clone, Copy, Debug)]
pub struct Extension {
    /// An OBJECT IDENTIFIER.
    pub extn_id: usize,
    /// A BOOLEAN; where there is none, the extension is not critical.
    pub critical: Option<usize>,
    /// An OCTET STRING.
    pub extn_value: usize,
}

impl Extension {
    /// The fields of the Extension at the index; `None` if the block is another.
    pub fn at(outline: &Outline<'_>, index: usize) -> Option<Extension>
        ensures { (ns : Nodes) → IsStructure (octets_in outline.now) ns → MatchOption result
            (extension_tree (tree_at ns index) ≡ None)
            (λ found. extension_tree (tree_at ns index) ≡ Some
            (Some (tree_at ns found.extn_id) ∷ option_map (tree_at ns) found.critical
            ∷ Some (tree_at ns found.extn_value) ∷ [])) }
    {
        let mut fields = sequence(outline, index)?;
        let has_identifier = begins_with_leaf(outline, &fields, OBJECT_IDENTIFIER);
        let extn_id = fields.take_if(has_identifier)?;
        let has_critical = begins_with_leaf(outline, &fields, BOOLEAN);
        let critical = fields.take_if(has_critical);
        let has_value = begins_with_leaf(outline, &fields, OCTET_STRING);
        let extn_value = fields.take_if(has_value)?;
        if fields.is_some() {
            return None;
        }
        Some(Extension {
            extn_id,
            critical,
            extn_value,
        })
    }
}

/// The Extensions of a certificate, of a list of revoked ones or of one of these, in order, as the fields of each.
///
/// ```rust
/// use asn1_certificate::extension::Extensions;
/// use simple_asn1::Outline;
///
/// // How many of the Extensions in the SEQUENCE at the index say whether they are critical.
/// fn marked(outline: &Outline<'_>, index: usize) -> Option<usize> {
///     let mut count = 0;
///     for extension in Extensions::at(outline, index)? {
///         if extension.critical.is_some() {
///             count += 1;
///         }
///     }
///     Some(count)
/// }
/// ```
#[derive(Drop)]
pub struct Extensions<'o> {
    outline: &'o Outline<'o>,
    items: Fields<'o>,
}

impl<'o> Model for Extensions<'o> {
    ghost use Rattle.asn1_outline.specs.Outlines.{octets_in};
    ghost use Rattle.asn1_certificate.specs.Items.{AreOf, Items};
    ghost use Rattle.asn1_certificate.specs.Reading.{left};
    ghost use Rattle.asn1_certificate.specs.Types.{is_extension};

    ghost Value = { Items };

    ghost view = { λ it. record { octets = octets_in it.outline.now; indices = left it.items } };

    ghost invariant = { λ it. AreOf is_extension (octets_in it.outline.now) (left it.items) };
}

impl<'o> Iterator for Extensions<'o> {
    type Item = Extension;

    ghost next_gives = { GivesFields extension_tree (λ ns found. Some (tree_at ns found.extn_id)
        ∷ option_map (tree_at ns) found.critical ∷ Some (tree_at ns found.extn_value) ∷ []) };

    ghost remaining = { item_count (λ items. items.indices) };

    fn next(&mut self) -> Option<Extension> {
        let index = self.items.take()?;
        Extension::at(self.outline, index)
    }
}

impl<'o> FusedIterator for Extensions<'o> {}

impl<'o> Extensions<'o> {
    /// The Extensions in the SEQUENCE at the index; `None` if the block is another.
    pub fn at(outline: &'o Outline<'o>, index: usize) -> Option<Extensions<'o>>
        ensures octets { IfSome result (λ items. items.octets ≡ octets_in outline.now) }
        ensures items { (ns : Nodes) → IsStructure (octets_in outline.now) ns → MatchOption result
            (is_extensions_tree (tree_at ns index) ≡ false)
            (λ items. (is_extensions_tree (tree_at ns index) ≡ true)
            × IsGroupOf Sequence (trees_at ns items.indices) (tree_at ns index)) }
    {
        if !is_extensions(outline, index) {
            return None;
        }
        let items = group(outline, index, GroupKind::Sequence)?;
        Some(Extensions { outline, items })
    }

    /// The Extensions in explicit tagging at the index, with the tag number, which in a TBSCertificate is 3 and in a
    /// TBSCertList 0; `None` if the block is another.
    ///
    /// ```rust
    /// use asn1_certificate::certificate::{Certificate, TBSCertificate};
    /// use asn1_certificate::extension::Extensions;
    /// use simple_asn1::Outline;
    ///
    /// // How many Extensions a certificate has.
    /// fn extension_count(outline: &Outline<'_>) -> Option<usize> {
    ///     let certificate = Certificate::at(outline, 0)?;
    ///     let signed = TBSCertificate::at(outline, certificate.tbs_certificate)?;
    ///     Some(Extensions::tagged(outline, signed.extensions?, 3)?.count())
    /// }
    /// ```
    pub fn tagged(outline: &'o Outline<'o>, index: usize, tag: u64) -> Option<Extensions<'o>>
        requires { tag < 64 }
        ensures octets { IfSome result (λ items. items.octets ≡ octets_in outline.now) }
        ensures items { (ns : Nodes) → IsStructure (octets_in outline.now) ns → MatchOption result
            (tagged_tree tag is_extensions_tree (tree_at ns index) ≡ false)
            (λ items. (tagged_tree tag is_extensions_tree (tree_at ns index) ≡ true)
            × (b : Tree ℕ) × IsTagged tag b (tree_at ns index)
            × IsGroupOf Sequence (trees_at ns items.indices) b) }
    {
        let inside = tagged(outline, index, tag)?;
        Extensions::at(outline, inside)
    }
}

// Whether the block at the index is an Extension.
fn is_one(outline: &Outline<'_>, index: usize) -> bool
    ensures { (ns : Nodes) → IsStructure (octets_in outline.now) ns → result ≡ is_extension (tree_at ns index) }
{
    Extension::at(outline, index).is_some()
}

// Whether each block is an Extension.
fn are_extensions(outline: &Outline<'_>, mut items: Fields<'_>) -> bool
    ensures { (ns : Nodes) → IsStructure (octets_in outline.now) ns
        → result ≡ each is_extension (trees_at ns (left items.entry)) }
{
    while let Some(index) = items.take() {
        if !is_one(outline, index) {
            return false;
        }
    }
    true
}

// Whether the block at the index is Extensions.
fn is_extensions(outline: &Outline<'_>, index: usize) -> bool
    ensures { (ns : Nodes) → IsStructure (octets_in outline.now) ns
        → result ≡ is_extensions_tree (tree_at ns index) }
{
    let Some(items) = group(outline, index, GroupKind::Sequence) else {
        return false;
    };
    if !items.is_some() {
        return false;
    }
    are_extensions(outline, items)
}

// Whether the next field is Extensions.
pub(crate) fn begins_with_extensions(outline: &Outline<'_>, fields: &Fields<'_>) -> bool
    ensures { (ns : Nodes) → IsStructure (octets_in outline.now) ns
        → Tells ns is_extensions_tree result (left fields.now) }
{
    match fields.first() {
        Some(index) => is_extensions(outline, index),
        None => false,
    }
}

// Whether the block at the index is Extensions in explicit tagging with the tag number.
fn is_tagged(outline: &Outline<'_>, index: usize, tag: u64) -> bool
    requires { tag < 64 }
    ensures { (ns : Nodes) → IsStructure (octets_in outline.now) ns
        → result ≡ tagged_tree tag is_extensions_tree (tree_at ns index) }
{
    match tagged(outline, index, tag) {
        Some(inside) => is_extensions(outline, inside),
        None => false,
    }
}

// Whether the next field is Extensions in explicit tagging with the tag number.
pub(crate) fn begins_with_tagged(outline: &Outline<'_>, fields: &Fields<'_>, tag: u64) -> bool
    requires { tag < 64 }
    ensures { (ns : Nodes) → IsStructure (octets_in outline.now) ns
        → Tells ns (tagged_tree tag is_extensions_tree) result (left fields.now) }
{
    match fields.first() {
        Some(index) => is_tagged(outline, index, tag),
        None => false,
    }
}
