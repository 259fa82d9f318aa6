// A certificate.
ghost use Rattle.std.specs.Prelude.{◌≡◌, ◌∷◌, [], None, Some, MatchOption, option_map};
ghost use Rattle.asn1_headers.specs.declared.tags.TheConstants.{INTEGER};
ghost use Rattle.asn1_outline.specs.Outlines.{octets_in};
ghost use Rattle.asn1_outline.specs.Structure.{IsStructure, Nodes, tree_at};
ghost use Rattle.asn1_certificate.specs.Sequences.{is_leaf as is_leaf_tree, tagged as tagged_tree};
ghost use Rattle.asn1_certificate.specs.Parts.{AreFields, AreSignedFields};
ghost use Rattle.asn1_certificate.specs.Reading.{Tells, left};
ghost use Rattle.asn1_certificate.specs.Types.{certificate as certificate_tree, tbs_certificate as tbs_certificate_tree};

use crate::algorithm::{SubjectPublicKeyInfo, begins_with_algorithm};
use crate::extension::begins_with_tagged;
use crate::fields::Fields;
use crate::kinds::{begins_with_bits, begins_with_leaf, is_leaf, sequence, tagged};
use crate::names::begins_with_name;
use crate::signed::signature_fields;
use crate::validity::Validity;
use asn1_headers::tags::INTEGER;
use asn1_outline::outline::Outline;

/// The places of the fields of a TBSCertificate, which is what is signed of a certificate.
#[derive(Clone, Copy, Debug)]
pub struct TBSCertificate {
    /// The `[0]` around an INTEGER; where there is none, the version is v1.
    pub version: Option<usize>,
    /// An INTEGER.
    pub serial_number: usize,
    /// An AlgorithmIdentifier.
    pub signature: usize,
    /// A Name.
    pub issuer: usize,
    /// A Validity.
    pub validity: usize,
    /// A Name.
    pub subject: usize,
    /// A SubjectPublicKeyInfo.
    pub subject_public_key_info: usize,
    /// A BIT STRING in implicit tagging.
    pub issuer_unique_id: Option<usize>,
    /// A BIT STRING in implicit tagging.
    pub subject_unique_id: Option<usize>,
    /// The `[3]` around a SEQUENCE of Extensions.
    pub extensions: Option<usize>,
}

impl TBSCertificate {
    /// The fields of the TBSCertificate at the index; `None` if the block is another.
    pub fn at(outline: &Outline<'_>, index: usize) -> Option<TBSCertificate>
        ensures { (ns : Nodes) → IsStructure (octets_in outline.now) ns → MatchOption result
            (tbs_certificate_tree (tree_at ns index) ≡ None)
            (λ found. tbs_certificate_tree (tree_at ns index) ≡ Some
            (option_map (tree_at ns) found.version
            ∷ Some (tree_at ns found.serial_number)
            ∷ Some (tree_at ns found.signature)
            ∷ Some (tree_at ns found.issuer)
            ∷ Some (tree_at ns found.validity)
            ∷ Some (tree_at ns found.subject)
            ∷ Some (tree_at ns found.subject_public_key_info)
            ∷ option_map (tree_at ns) found.issuer_unique_id
            ∷ option_map (tree_at ns) found.subject_unique_id
            ∷ option_map (tree_at ns) found.extensions ∷ [])) }
    {
        let parts = signed_parts(outline, index)?;
        Some(parts.tbs_certificate)
    }
}

// Whether the block at the index is the number of a version in explicit tagging.
fn is_version(outline: &Outline<'_>, index: usize) -> bool
    ensures { (ns : Nodes) → IsStructure (octets_in outline.now) ns
        → result ≡ tagged_tree 0 (is_leaf_tree INTEGER) (tree_at ns index) }
{
    match tagged(outline, index, 0) {
        Some(inside) => is_leaf(outline, inside, INTEGER),
        None => false,
    }
}

// Whether the next field is the number of a version.
fn begins_with_version(outline: &Outline<'_>, fields: &Fields<'_>) -> bool
    ensures { (ns : Nodes) → IsStructure (octets_in outline.now) ns
        → Tells ns (tagged_tree 0 (is_leaf_tree INTEGER)) result (left fields.now) }
{
    match fields.first() {
        Some(index) => is_version(outline, index),
        None => false,
    }
}

// The places of the fields of a TBSCertificate, and of those in it that have fields themselves.
#[derive(Clone, Copy)]
struct SignedParts {
    tbs_certificate: TBSCertificate,
    validity: Validity,
    key: SubjectPublicKeyInfo,
}

// These fields of the TBSCertificate at the index, each of which is looked at once.
fn signed_parts(outline: &Outline<'_>, index: usize) -> Option<SignedParts>
    ensures { (ns : Nodes) → IsStructure (octets_in outline.now) ns → MatchOption result
        (tbs_certificate_tree (tree_at ns index) ≡ None)
        (λ found. AreSignedFields ns index found.tbs_certificate found.validity found.key) }
{
    let mut fields = sequence(outline, index)?;
    let has_version = begins_with_version(outline, &fields);
    let version = fields.take_if(has_version);
    let has_number = begins_with_leaf(outline, &fields, INTEGER);
    let serial_number = fields.take_if(has_number)?;
    let has_signature = begins_with_algorithm(outline, &fields);
    let signature = fields.take_if(has_signature)?;
    let has_issuer = begins_with_name(outline, &fields);
    let issuer = fields.take_if(has_issuer)?;
    let validity = fields.take()?;
    let moments = Validity::at(outline, validity)?;
    let has_subject = begins_with_name(outline, &fields);
    let subject = fields.take_if(has_subject)?;
    let subject_public_key_info = fields.take()?;
    let key = SubjectPublicKeyInfo::at(outline, subject_public_key_info)?;
    let has_issuer_id = begins_with_bits(outline, &fields, 1);
    let issuer_unique_id = fields.take_if(has_issuer_id);
    let has_subject_id = begins_with_bits(outline, &fields, 2);
    let subject_unique_id = fields.take_if(has_subject_id);
    let has_extensions = begins_with_tagged(outline, &fields, 3);
    let extensions = fields.take_if(has_extensions);
    if fields.is_some() {
        return None;
    }
    let tbs_certificate = TBSCertificate {
        version,
        serial_number,
        signature,
        issuer,
        validity,
        subject,
        subject_public_key_info,
        issuer_unique_id,
        subject_unique_id,
        extensions,
    };
    Some(SignedParts {
        tbs_certificate,
        validity: moments,
        key,
    })
}

/// The places of the fields of a Certificate.
#[derive(Clone, Copy, Debug)]
pub struct Certificate {
    /// A TBSCertificate.
    pub tbs_certificate: usize,
    /// An AlgorithmIdentifier.
    pub signature_algorithm: usize,
    /// A BIT STRING.
    pub signature: usize,
}

impl Certificate {
    /// The fields of the Certificate at the index; `None` if the block is another.
    pub fn at(outline: &Outline<'_>, index: usize) -> Option<Certificate>
        ensures { (ns : Nodes) → IsStructure (octets_in outline.now) ns → MatchOption result
            (certificate_tree (tree_at ns index) ≡ None)
            (λ found. certificate_tree (tree_at ns index) ≡ Some
            (Some (tree_at ns found.tbs_certificate) ∷ Some (tree_at ns found.signature_algorithm)
            ∷ Some (tree_at ns found.signature) ∷ [])) }
    {
        let parts = CertificateParts::at(outline, index)?;
        Some(parts.certificate)
    }
}

/// The places of the fields of a Certificate, and of those in it that have fields themselves: what [`Certificate::at`],
/// [`TBSCertificate::at`], [`Validity::at`] and [`SubjectPublicKeyInfo::at`] give, in the time of the first of these.
#[derive(Clone, Copy, Debug)]
pub struct CertificateParts {
    /// The fields of the Certificate.
    pub certificate: Certificate,
    /// The fields of what is signed.
    pub tbs_certificate: TBSCertificate,
    /// The first moment and the last.
    pub validity: Validity,
    /// The fields of the public key.
    pub subject_public_key_info: SubjectPublicKeyInfo,
}

impl CertificateParts {
    /// The fields of the Certificate at the index; `None` if the block is another.
    ///
    /// ```rust
    /// use asn1_certificate::certificate::CertificateParts;
    /// use jiff::civil::DateTime;
    /// use simple_asn1::Outline;
    /// use std::alloc::{AllocError, Global};
    ///
    /// // The last moment at which a certificate is valid.
    /// fn not_after(alloc: Global, outline: &Outline<'_>) -> Result<Option<DateTime>, AllocError> {
    ///     let Some(parts) = CertificateParts::at(outline, 0) else {
    ///         return Ok(None);
    ///     };
    ///     match outline.block(parts.validity.not_after) {
    ///         Some(block) => block.moment(alloc),
    ///         None => Ok(None),
    ///     }
    /// }
    /// ```
    pub fn at(outline: &Outline<'_>, index: usize) -> Option<CertificateParts>
        ensures { (ns : Nodes) → IsStructure (octets_in outline.now) ns → MatchOption result
            (certificate_tree (tree_at ns index) ≡ None)
            (λ found. AreFields ns index found.certificate found.tbs_certificate found.validity
            found.subject_public_key_info) }
    {
        let mut fields = sequence(outline, index)?;
        let content = fields.take()?;
        let signed = signed_parts(outline, content)?;
        let signature = signature_fields(outline, fields)?;
        let certificate = Certificate {
            tbs_certificate: content,
            signature_algorithm: signature.algorithm,
            signature: signature.signature,
        };
        Some(CertificateParts {
            certificate,
            tbs_certificate: signed.tbs_certificate,
            validity: signed.validity,
            subject_public_key_info: signed.key,
        })
    }
}
