// Algorithms and public keys.
ghost use Rattle.std.specs.Prelude.{◌≡◌, ◌∷◌, [], None, Some, MatchOption, option_map};
ghost use Rattle.asn1_outline.specs.Outlines.{octets_in};
ghost use Rattle.asn1_outline.specs.Structure.{IsStructure, Nodes, tree_at};
ghost use Rattle.asn1_certificate.specs.Reading.{Tells, left};
ghost use Rattle.asn1_certificate.specs.Types.{algorithm_identifier as algorithm_identifier_tree, is_algorithm_identifier, subject_public_key_info as subject_public_key_info_tree};

use crate::fields::Fields;
use crate::kinds::{begins_with_leaf, sequence};
use asn1_headers::tags::{BIT_STRING, OBJECT_IDENTIFIER};
use asn1_outline::outline::Outline;

/// The places of the fields of an AlgorithmIdentifier.
#[derive(Clone, Copy, Debug)]
pub struct AlgorithmIdentifier {
    /// An OBJECT IDENTIFIER.
    pub algorithm: usize,
    /// A block of any type.
    pub parameters: Option<usize>,
}

impl AlgorithmIdentifier {
    /// The fields of the AlgorithmIdentifier at the index; `None` if the block is another.
    pub fn at(outline: &Outline<'_>, index: usize) -> Option<AlgorithmIdentifier>
        ensures { (ns : Nodes) → IsStructure (octets_in outline.now) ns → MatchOption result
            (algorithm_identifier_tree (tree_at ns index) ≡ None)
            (λ found. algorithm_identifier_tree (tree_at ns index) ≡ Some
            (Some (tree_at ns found.algorithm) ∷ option_map (tree_at ns) found.parameters ∷ [])) }
    {
        let mut fields = sequence(outline, index)?;
        let has_algorithm = begins_with_leaf(outline, &fields, OBJECT_IDENTIFIER);
        let algorithm = fields.take_if(has_algorithm)?;
        let parameters = fields.take_if(true);
        if fields.is_some() {
            return None;
        }
        Some(AlgorithmIdentifier {
            algorithm,
            parameters,
        })
    }
}

// Whether the block at the index is an AlgorithmIdentifier.
fn is_algorithm(outline: &Outline<'_>, index: usize) -> bool
    ensures { (ns : Nodes) → IsStructure (octets_in outline.now) ns
        → result ≡ is_algorithm_identifier (tree_at ns index) }
{
    AlgorithmIdentifier::at(outline, index).is_some()
}

// Whether the next field is an AlgorithmIdentifier.
pub(crate) fn begins_with_algorithm(outline: &Outline<'_>, fields: &Fields<'_>) -> bool
    ensures { (ns : Nodes) → IsStructure (octets_in outline.now) ns
        → Tells ns is_algorithm_identifier result (left fields.now) }
{
    match fields.first() {
        Some(index) => is_algorithm(outline, index),
        None => false,
    }
}

/// The places of the fields of a SubjectPublicKeyInfo.
#[derive(Clone, Copy, Debug)]
pub struct SubjectPublicKeyInfo {
    /// An AlgorithmIdentifier.
    pub algorithm: usize,
    /// A BIT STRING.
    pub subject_public_key: usize,
}

impl SubjectPublicKeyInfo {
    /// The fields of the SubjectPublicKeyInfo at the index; `None` if the block is another.
    pub fn at(outline: &Outline<'_>, index: usize) -> Option<SubjectPublicKeyInfo>
        ensures { (ns : Nodes) → IsStructure (octets_in outline.now) ns → MatchOption result
            (subject_public_key_info_tree (tree_at ns index) ≡ None)
            (λ found. subject_public_key_info_tree (tree_at ns index) ≡ Some
            (Some (tree_at ns found.algorithm) ∷ Some (tree_at ns found.subject_public_key) ∷ [])) }
    {
        let mut fields = sequence(outline, index)?;
        let has_algorithm = begins_with_algorithm(outline, &fields);
        let algorithm = fields.take_if(has_algorithm)?;
        let has_key = begins_with_leaf(outline, &fields, BIT_STRING);
        let subject_public_key = fields.take_if(has_key)?;
        if fields.is_some() {
            return None;
        }
        Some(SubjectPublicKeyInfo {
            algorithm,
            subject_public_key,
        })
    }
}
