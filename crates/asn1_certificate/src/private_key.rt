// Private keys.
ghost use Rattle.std.specs.Prelude.{◌≡◌, ◌∷◌, [], ℕ, None, Some, MatchOption, option_map};
ghost use Rattle.asn1_blocks.specs.Tree.{Tree, Trees};
ghost use Rattle.asn1_outline.specs.Outlines.{octets_in};
ghost use Rattle.asn1_outline.specs.Structure.{IsStructure, Nodes, tree_at};
ghost use Rattle.asn1_certificate.specs.Held.{AreHeld};
ghost use Rattle.asn1_certificate.specs.Types.{one_asymmetric_key};

use crate::algorithm::begins_with_algorithm;
use crate::attribute::begins_with_attributes;
use crate::kinds::{begins_with_bits, begins_with_leaf, sequence};
use asn1_headers::tags::{INTEGER, OCTET_STRING};
use asn1_outline::outline::Outline;

/// The places of the fields of a OneAsymmetricKey. Without a public key it is a PrivateKeyInfo of RFC 5208.
#[derive(Clone, Copy, Debug)]
pub struct OneAsymmetricKey {
    /// An INTEGER.
    pub version: usize,
    /// An AlgorithmIdentifier.
    pub private_key_algorithm: usize,
    /// An OCTET STRING.
    pub private_key: usize,
    /// The `[0]` that holds the Attributes, of which each is an [`Attribute`].
    ///
    /// [`Attribute`]: crate::attribute::Attribute
    pub attributes: Option<usize>,
    /// A BIT STRING in implicit tagging.
    pub public_key: Option<usize>,
}

impl OneAsymmetricKey {
    /// The fields of the OneAsymmetricKey at the index; `None` if the block is another.
    pub fn at(outline: &Outline<'_>, index: usize) -> Option<OneAsymmetricKey>
        ensures { (ns : Nodes) (held : Tree ℕ → Trees ℕ) → IsStructure (octets_in outline.now) ns
            → AreHeld ns held → MatchOption result
            (one_asymmetric_key held (tree_at ns index) ≡ None)
            (λ found. one_asymmetric_key held (tree_at ns index) ≡ Some
            (Some (tree_at ns found.version)
            ∷ Some (tree_at ns found.private_key_algorithm)
            ∷ Some (tree_at ns found.private_key)
            ∷ option_map (tree_at ns) found.attributes
            ∷ option_map (tree_at ns) found.public_key ∷ [])) }
    {
        let mut fields = sequence(outline, index)?;
        let has_version = begins_with_leaf(outline, &fields, INTEGER);
        let version = fields.take_if(has_version)?;
        let has_algorithm = begins_with_algorithm(outline, &fields);
        let private_key_algorithm = fields.take_if(has_algorithm)?;
        let has_key = begins_with_leaf(outline, &fields, OCTET_STRING);
        let private_key = fields.take_if(has_key)?;
        let has_attributes = begins_with_attributes(outline, &fields, 0);
        let attributes = fields.take_if(has_attributes);
        let has_public = begins_with_bits(outline, &fields, 1);
        let public_key = fields.take_if(has_public);
        if fields.is_some() {
            return None;
        }
        Some(OneAsymmetricKey {
            version,
            private_key_algorithm,
            private_key,
            attributes,
            public_key,
        })
    }
}
