// From when to when a certificate is valid.
ghost use Rattle.std.specs.Prelude.{◌≡◌, ◌∷◌, [], None, Some, MatchOption};
ghost use Rattle.asn1_outline.specs.Outlines.{octets_in};
ghost use Rattle.asn1_outline.specs.Structure.{IsStructure, Nodes, tree_at};
ghost use Rattle.asn1_certificate.specs.Reading.{Tells, left};
ghost use Rattle.asn1_certificate.specs.Types.{is_time as is_time_tree, validity as validity_tree};

use crate::fields::Fields;
use crate::kinds::{is_leaf, sequence};
use asn1_headers::tags::{GENERALIZED_TIME, UTC_TIME};
use asn1_outline::outline::Outline;

/// The places of the fields of a Validity. Each is a UTCTime or a GeneralizedTime.
#[derive(Clone, Copy, Debug)]
pub struct Validity {
    /// The first moment.
    pub not_before: usize,
    /// The last moment.
    pub not_after: usize,
}

impl Validity {
    /// The fields of the Validity at the index; `None` if the block is another.
    pub fn at(outline: &Outline<'_>, index: usize) -> Option<Validity>
        ensures { (ns : Nodes) → IsStructure (octets_in outline.now) ns → MatchOption result
            (validity_tree (tree_at ns index) ≡ None)
            (λ found. validity_tree (tree_at ns index) ≡ Some
            (Some (tree_at ns found.not_before) ∷ Some (tree_at ns found.not_after) ∷ [])) }
    {
        let mut fields = sequence(outline, index)?;
        let has_start = begins_with_time(outline, &fields);
        let not_before = fields.take_if(has_start)?;
        let has_end = begins_with_time(outline, &fields);
        let not_after = fields.take_if(has_end)?;
        if fields.is_some() {
            return None;
        }
        Some(Validity {
            not_before,
            not_after,
        })
    }
}

// Whether the block at the index is a Time.
fn is_time(outline: &Outline<'_>, index: usize) -> bool
    ensures { (ns : Nodes) → IsStructure (octets_in outline.now) ns → result ≡ is_time_tree (tree_at ns index) }
{
    if is_leaf(outline, index, UTC_TIME) {
        return true;
    }
    is_leaf(outline, index, GENERALIZED_TIME)
}

// Whether the next field is a Time.
pub(crate) fn begins_with_time(outline: &Outline<'_>, fields: &Fields<'_>) -> bool
    ensures { (ns : Nodes) → IsStructure (octets_in outline.now) ns
        → Tells ns is_time_tree result (left fields.now) }
{
    match fields.first() {
        Some(index) => is_time(outline, index),
        None => false,
    }
}
