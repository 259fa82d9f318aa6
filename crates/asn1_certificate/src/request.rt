// Certification requests.
ghost use Rattle.std.specs.Prelude.{◌≡◌, ◌∷◌, [], ℕ, None, Some, MatchOption};
ghost use Rattle.asn1_blocks.specs.Tree.{Tree, Trees};
ghost use Rattle.asn1_outline.specs.Outlines.{octets_in};
ghost use Rattle.asn1_outline.specs.Structure.{IsStructure, Nodes, tree_at};
ghost use Rattle.asn1_certificate.specs.Held.{AreHeld};
ghost use Rattle.asn1_certificate.specs.Parts.{AreInfoFields, AreRequestFields};
ghost use Rattle.asn1_certificate.specs.Types.{certification_request, certification_request_info as certification_request_info_tree};

use crate::algorithm::SubjectPublicKeyInfo;
use crate::attribute::begins_with_attributes;
use crate::kinds::{begins_with_leaf, sequence};
use crate::names::begins_with_name;
use crate::signed::signature_fields;
use asn1_headers::tags::INTEGER;
use asn1_outline::outline::Outline;

/// The places of the fields of a CertificationRequestInfo, which is what is signed of a certification request.
#[derive(Clone, Copy, Debug)]
pub struct CertificationRequestInfo {
    /// An INTEGER.
    pub version: usize,
    /// A Name.
    pub subject: usize,
    /// A SubjectPublicKeyInfo.
    pub subject_public_key_info: usize,
    /// The `[0]` that holds the Attributes, of which each is an [`Attribute`].
    ///
    /// [`Attribute`]: crate::attribute::Attribute
    pub attributes: usize,
}

impl CertificationRequestInfo {
    /// The fields of the CertificationRequestInfo at the index; `None` if the block is another.
    pub fn at(outline: &Outline<'_>, index: usize) -> Option<CertificationRequestInfo>
        ensures { (ns : Nodes) (held : Tree ℕ → Trees ℕ) → IsStructure (octets_in outline.now) ns
            → AreHeld ns held → MatchOption result
            (certification_request_info_tree held (tree_at ns index) ≡ None)
            (λ found. certification_request_info_tree held (tree_at ns index) ≡ Some
            (Some (tree_at ns found.version)
            ∷ Some (tree_at ns found.subject)
            ∷ Some (tree_at ns found.subject_public_key_info)
            ∷ Some (tree_at ns found.attributes) ∷ [])) }
    {
        let parts = info_parts(outline, index)?;
        Some(parts.info)
    }
}

// The places of the fields of a CertificationRequestInfo, and of the public key in it.
#[derive(Clone, Copy)]
struct InfoParts {
    info: CertificationRequestInfo,
    key: SubjectPublicKeyInfo,
}

// These fields of the CertificationRequestInfo at the index, each of which is looked at once.
fn info_parts(outline: &Outline<'_>, index: usize) -> Option<InfoParts>
    ensures { (ns : Nodes) (held : Tree ℕ → Trees ℕ) → IsStructure (octets_in outline.now) ns
        → AreHeld ns held → MatchOption result
        (certification_request_info_tree held (tree_at ns index) ≡ None)
        (λ found. AreInfoFields ns held index found.info found.key) }
{
    let mut fields = sequence(outline, index)?;
    let has_version = begins_with_leaf(outline, &fields, INTEGER);
    let version = fields.take_if(has_version)?;
    let has_subject = begins_with_name(outline, &fields);
    let subject = fields.take_if(has_subject)?;
    let subject_public_key_info = fields.take()?;
    let key = SubjectPublicKeyInfo::at(outline, subject_public_key_info)?;
    let has_attributes = begins_with_attributes(outline, &fields, 0);
    let attributes = fields.take_if(has_attributes)?;
    if fields.is_some() {
        return None;
    }
    let info = CertificationRequestInfo {
        version,
        subject,
        subject_public_key_info,
        attributes,
    };
    Some(InfoParts { info, key })
}

/// The places of the fields of a CertificationRequest.
#[derive(Clone, Copy, Debug)]
pub struct CertificationRequest {
    /// A CertificationRequestInfo.
    pub certification_request_info: usize,
    /// An AlgorithmIdentifier.
    pub signature_algorithm: usize,
    /// A BIT STRING.
    pub signature: usize,
}

impl CertificationRequest {
    /// The fields of the CertificationRequest at the index; `None` if the block is another.
    pub fn at(outline: &Outline<'_>, index: usize) -> Option<CertificationRequest>
        ensures { (ns : Nodes) (held : Tree ℕ → Trees ℕ) → IsStructure (octets_in outline.now) ns
            → AreHeld ns held → MatchOption result
            (certification_request held (tree_at ns index) ≡ None)
            (λ found. certification_request held (tree_at ns index) ≡ Some
            (Some (tree_at ns found.certification_request_info)
            ∷ Some (tree_at ns found.signature_algorithm)
            ∷ Some (tree_at ns found.signature) ∷ [])) }
    {
        let parts = CertificationRequestParts::at(outline, index)?;
        Some(parts.certification_request)
    }
}

/// The places of the fields of a CertificationRequest, and of those in it that have fields themselves: what
/// [`CertificationRequest::at`], [`CertificationRequestInfo::at`] and [`SubjectPublicKeyInfo::at`] give, in the time of
/// the first of these.
#[derive(Clone, Copy, Debug)]
pub struct CertificationRequestParts {
    /// The fields of the CertificationRequest.
    pub certification_request: CertificationRequest,
    /// The fields of what is signed.
    pub certification_request_info: CertificationRequestInfo,
    /// The fields of the public key.
    pub subject_public_key_info: SubjectPublicKeyInfo,
}

impl CertificationRequestParts {
    /// The fields of the CertificationRequest at the index; `None` if the block is another.
    ///
    /// ```rust
    /// use asn1_certificate::request::CertificationRequestParts;
    /// use simple_asn1::Outline;
    ///
    /// // The DER of the name for which a certificate is requested.
    /// fn subject<'a>(outline: &Outline<'a>) -> Option<&'a [u8]> {
    ///     let parts = CertificationRequestParts::at(outline, 0)?;
    ///     Some(outline.block(parts.certification_request_info.subject)?.encoding())
    /// }
    /// ```
    pub fn at(outline: &Outline<'_>, index: usize) -> Option<CertificationRequestParts>
        ensures { (ns : Nodes) (held : Tree ℕ → Trees ℕ) → IsStructure (octets_in outline.now) ns
            → AreHeld ns held → MatchOption result
            (certification_request held (tree_at ns index) ≡ None)
            (λ found. AreRequestFields ns held index found.certification_request found.certification_request_info
            found.subject_public_key_info) }
    {
        let mut fields = sequence(outline, index)?;
        let content = fields.take()?;
        let signed = info_parts(outline, content)?;
        let signature = signature_fields(outline, fields)?;
        let certification_request = CertificationRequest {
            certification_request_info: content,
            signature_algorithm: signature.algorithm,
            signature: signature.signature,
        };
        Some(CertificationRequestParts {
            certification_request,
            certification_request_info: signed.info,
            subject_public_key_info: signed.key,
        })
    }
}
