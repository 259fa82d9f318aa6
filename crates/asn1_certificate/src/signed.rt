// What stands behind what is signed: the algorithm and the signature.
ghost use Rattle.std.specs.Prelude.{◌≡◌, ◌∷◌, [], None, Some, MatchOption};
ghost use Rattle.asn1_outline.specs.Outlines.{octets_in};
ghost use Rattle.asn1_outline.specs.Structure.{IsStructure, Nodes, tree_at};
ghost use Rattle.asn1_certificate.specs.Reading.{left, signature_fields as signature_trees, trees_at};

use crate::algorithm::begins_with_algorithm;
use crate::fields::Fields;
use crate::kinds::begins_with_leaf;
use asn1_headers::tags::BIT_STRING;
use asn1_outline::outline::Outline;

// The places of the last fields of a Certificate, a CertificateList and a CertificationRequest, which are alike.
#[derive(Clone, Copy)]
pub(crate) struct Signature {
    // An AlgorithmIdentifier.
    pub(crate) algorithm: usize,
    // A BIT STRING.
    pub(crate) signature: usize,
}

// These fields, if there are no others.
pub(crate) fn signature_fields(outline: &Outline<'_>, mut fields: Fields<'_>) -> Option<Signature>
    ensures { (ns : Nodes) → IsStructure (octets_in outline.now) ns → MatchOption result
        (signature_trees (trees_at ns (left fields.entry)) ≡ None)
        (λ found. signature_trees (trees_at ns (left fields.entry)) ≡ Some
        (Some (tree_at ns found.algorithm) ∷ Some (tree_at ns found.signature) ∷ [])) }
{
    let has_algorithm = begins_with_algorithm(outline, &fields);
    let algorithm = fields.take_if(has_algorithm)?;
    let has_signature = begins_with_leaf(outline, &fields, BIT_STRING);
    let signature = fields.take_if(has_signature)?;
    if fields.is_some() {
        return None;
    }
    Some(Signature {
        algorithm,
        signature,
    })
}
