// Lists of revoked certificates.
ghost use Rattle.std.specs.Prelude.{◌≡◌, ◌∷◌, [], false, true, None, Some, IfSome, MatchOption, option_map};
ghost use Rattle.std.specs.Iterator.{item_count};
ghost use Rattle.asn1_blocks.specs.declared.block.GroupKind.TheVariants.{Sequence};
ghost use Rattle.asn1_outline.specs.Outlines.{octets_in};
ghost use Rattle.asn1_outline.specs.Structure.{IsStructure, Nodes, tree_at};
ghost use Rattle.asn1_certificate.specs.Sequences.{each, sequence_of};
ghost use Rattle.asn1_certificate.specs.Items.{GivesFields};
ghost use Rattle.asn1_certificate.specs.Parts.{AreListFields};
ghost use Rattle.asn1_certificate.specs.Reading.{IsGroupOf, Tells, left, trees_at};
ghost use Rattle.asn1_certificate.specs.Types.{certificate_list as certificate_list_tree, is_revoked_certificate, revoked_certificate as revoked_certificate_tree, tbs_cert_list as tbs_cert_list_tree};

use crate::algorithm::begins_with_algorithm;
use crate::extension::{begins_with_extensions, begins_with_tagged};
use crate::fields::Fields;
use crate::kinds::{begins_with_leaf, group, sequence};
use crate::names::begins_with_name;
use crate::signed::signature_fields;
use crate::validity::begins_with_time;
use asn1_blocks::block::GroupKind;
use asn1_headers::tags::INTEGER;
use asn1_outline::outline::Outline;
use std::iter::FusedIterator;
use std::marker::Model;

/// The places of the fields of a revoked certificate in a list.
#[derive(Clone, Copy, Debug)]
pub struct RevokedCertificate {
    /// An INTEGER, the serial number.
    pub user_certificate: usize,
    /// A UTCTime or a GeneralizedTime.
    pub revocation_date: usize,
    /// A SEQUENCE of Extensions.
    pub crl_entry_extensions: Option<usize>,
}

impl RevokedCertificate {
    /// The fields of the revoked certificate at the index; `None` if the block is another.
    pub fn at(outline: &Outline<'_>, index: usize) -> Option<RevokedCertificate>
        ensures { (ns : Nodes) → IsStructure (octets_in outline.now) ns → MatchOption result
            (revoked_certificate_tree (tree_at ns index) ≡ None)
            (λ found. revoked_certificate_tree (tree_at ns index) ≡ Some
            (Some (tree_at ns found.user_certificate) ∷ Some (tree_at ns found.revocation_date)
            ∷ option_map (tree_at ns) found.crl_entry_extensions ∷ [])) }
    {
        let mut fields = sequence(outline, index)?;
        let has_number = begins_with_leaf(outline, &fields, INTEGER);
        let user_certificate = fields.take_if(has_number)?;
        let has_date = begins_with_time(outline, &fields);
        let revocation_date = fields.take_if(has_date)?;
        let has_extensions = begins_with_extensions(outline, &fields);
        let crl_entry_extensions = fields.take_if(has_extensions);
        if fields.is_some() {
            return None;
        }
        Some(RevokedCertificate {
            user_certificate,
            revocation_date,
            crl_entry_extensions,
        })
    }
}

/// The revoked certificates of a list in order, as the fields of each.
///
/// ```rust
/// use asn1_certificate::revocation::{CertificateList, RevokedCertificates, TBSCertList};
/// use simple_asn1::{BigInt, Outline};
/// use std::alloc::{AllocError, Global};
///
/// // Whether a list of revoked certificates has the serial number.
/// fn is_listed(alloc: Global, outline: &Outline<'_>, number: &BigInt) -> Result<bool, AllocError> {
///     let Some(list) = CertificateList::at(outline, 0) else {
///         return Ok(false);
///     };
///     let Some(signed) = TBSCertList::at(outline, list.tbs_cert_list) else {
///         return Ok(false);
///     };
///     let Some(index) = signed.revoked_certificates else {
///         return Ok(false);
///     };
///     let Some(all) = RevokedCertificates::at(outline, index) else {
///         return Ok(false);
///     };
///     for revoked in all {
///         if let Some(block) = outline.block(revoked.user_certificate) {
///             if block.integer(alloc)?.as_ref() == Some(number) {
///                 return Ok(true);
///             }
///         }
///     }
///     Ok(false)
/// }
/// ```
#[derive(Drop)]
pub struct RevokedCertificates<'o> {
    outline: &'o Outline<'o>,
    items: Fields<'o>,
}

impl<'o> Model for RevokedCertificates<'o> {
    ghost use Rattle.asn1_outline.specs.Outlines.{octets_in};
    ghost use Rattle.asn1_certificate.specs.Items.{AreOf, Items};
    ghost use Rattle.asn1_certificate.specs.Reading.{left};
    ghost use Rattle.asn1_certificate.specs.Types.{is_revoked_certificate};

    ghost Value = { Items };

    ghost view = { λ it. record { octets = octets_in it.outline.now; indices = left it.items } };

    ghost invariant = { λ it. AreOf is_revoked_certificate (octets_in it.outline.now) (left it.items) };
}

impl<'o> Iterator for RevokedCertificates<'o> {
    type Item = RevokedCertificate;

    ghost next_gives = { GivesFields revoked_certificate_tree (λ ns found. Some (tree_at ns found.user_certificate)
        ∷ Some (tree_at ns found.revocation_date) ∷ option_map (tree_at ns) found.crl_entry_extensions ∷ []) };

    ghost remaining = { item_count (λ items. items.indices) };

    fn next(&mut self) -> Option<RevokedCertificate> {
        let index = self.items.take()?;
        RevokedCertificate::at(self.outline, index)
    }
}

impl<'o> FusedIterator for RevokedCertificates<'o> {}

impl<'o> RevokedCertificates<'o> {
    /// The revoked certificates in the SEQUENCE at the index; `None` if the block is another.
    pub fn at(outline: &'o Outline<'o>, index: usize) -> Option<RevokedCertificates<'o>>
        ensures octets { IfSome result (λ items. items.octets ≡ octets_in outline.now) }
        ensures items { (ns : Nodes) → IsStructure (octets_in outline.now) ns → MatchOption result
            (sequence_of is_revoked_certificate (tree_at ns index) ≡ false)
            (λ items. (sequence_of is_revoked_certificate (tree_at ns index) ≡ true)
            × IsGroupOf Sequence (trees_at ns items.indices) (tree_at ns index)) }
    {
        if !is_revoked_list(outline, index) {
            return None;
        }
        let items = group(outline, index, GroupKind::Sequence)?;
        Some(RevokedCertificates { outline, items })
    }
}

// Whether the block at the index is a revoked certificate.
fn is_revoked(outline: &Outline<'_>, index: usize) -> bool
    ensures { (ns : Nodes) → IsStructure (octets_in outline.now) ns
        → result ≡ is_revoked_certificate (tree_at ns index) }
{
    RevokedCertificate::at(outline, index).is_some()
}

// Whether each block is a revoked certificate.
fn are_revoked(outline: &Outline<'_>, mut items: Fields<'_>) -> bool
    ensures { (ns : Nodes) → IsStructure (octets_in outline.now) ns
        → result ≡ each is_revoked_certificate (trees_at ns (left items.entry)) }
{
    while let Some(index) = items.take() {
        if !is_revoked(outline, index) {
            return false;
        }
    }
    true
}

// Whether the block at the index is a SEQUENCE of revoked certificates.
fn is_revoked_list(outline: &Outline<'_>, index: usize) -> bool
    ensures { (ns : Nodes) → IsStructure (octets_in outline.now) ns
        → result ≡ sequence_of is_revoked_certificate (tree_at ns index) }
{
    match group(outline, index, GroupKind::Sequence) {
        Some(items) => are_revoked(outline, items),
        None => false,
    }
}

// Whether the next field is a SEQUENCE of revoked certificates.
fn begins_with_revoked(outline: &Outline<'_>, fields: &Fields<'_>) -> bool
    ensures { (ns : Nodes) → IsStructure (octets_in outline.now) ns
        → Tells ns (sequence_of is_revoked_certificate) result (left fields.now) }
{
    match fields.first() {
        Some(index) => is_revoked_list(outline, index),
        None => false,
    }
}

/// The places of the fields of a TBSCertList, which is what is signed of a list of revoked certificates.
#[derive(Clone, Copy, Debug)]
pub struct TBSCertList {
    /// An INTEGER; where there is none, the version is v1.
    pub version: Option<usize>,
    /// An AlgorithmIdentifier.
    pub signature: usize,
    /// A Name.
    pub issuer: usize,
    /// A UTCTime or a GeneralizedTime.
    pub this_update: usize,
    /// A UTCTime or a GeneralizedTime.
    pub next_update: Option<usize>,
    /// A SEQUENCE, of which each item is a [`RevokedCertificate`].
    pub revoked_certificates: Option<usize>,
    /// The `[0]` around a SEQUENCE of Extensions.
    pub crl_extensions: Option<usize>,
}

impl TBSCertList {
    /// The fields of the TBSCertList at the index; `None` if the block is another.
    pub fn at(outline: &Outline<'_>, index: usize) -> Option<TBSCertList>
        ensures { (ns : Nodes) → IsStructure (octets_in outline.now) ns → MatchOption result
            (tbs_cert_list_tree (tree_at ns index) ≡ None)
            (λ found. tbs_cert_list_tree (tree_at ns index) ≡ Some
            (option_map (tree_at ns) found.version
            ∷ Some (tree_at ns found.signature)
            ∷ Some (tree_at ns found.issuer)
            ∷ Some (tree_at ns found.this_update)
            ∷ option_map (tree_at ns) found.next_update
            ∷ option_map (tree_at ns) found.revoked_certificates
            ∷ option_map (tree_at ns) found.crl_extensions ∷ [])) }
    {
        let mut fields = sequence(outline, index)?;
        let has_version = begins_with_leaf(outline, &fields, INTEGER);
        let version = fields.take_if(has_version);
        let has_signature = begins_with_algorithm(outline, &fields);
        let signature = fields.take_if(has_signature)?;
        let has_issuer = begins_with_name(outline, &fields);
        let issuer = fields.take_if(has_issuer)?;
        let has_update = begins_with_time(outline, &fields);
        let this_update = fields.take_if(has_update)?;
        let has_next = begins_with_time(outline, &fields);
        let next_update = fields.take_if(has_next);
        let has_revoked = begins_with_revoked(outline, &fields);
        let revoked_certificates = fields.take_if(has_revoked);
        let has_extensions = begins_with_tagged(outline, &fields, 0);
        let crl_extensions = fields.take_if(has_extensions);
        if fields.is_some() {
            return None;
        }
        Some(TBSCertList {
            version,
            signature,
            issuer,
            this_update,
            next_update,
            revoked_certificates,
            crl_extensions,
        })
    }
}

/// The places of the fields of a CertificateList.
#[derive(Clone, Copy, Debug)]
pub struct CertificateList {
    /// A TBSCertList.
    pub tbs_cert_list: usize,
    /// An AlgorithmIdentifier.
    pub signature_algorithm: usize,
    /// A BIT STRING.
    pub signature: usize,
}

impl CertificateList {
    /// The fields of the CertificateList at the index; `None` if the block is another.
    pub fn at(outline: &Outline<'_>, index: usize) -> Option<CertificateList>
        ensures { (ns : Nodes) → IsStructure (octets_in outline.now) ns → MatchOption result
            (certificate_list_tree (tree_at ns index) ≡ None)
            (λ found. certificate_list_tree (tree_at ns index) ≡ Some
            (Some (tree_at ns found.tbs_cert_list) ∷ Some (tree_at ns found.signature_algorithm)
            ∷ Some (tree_at ns found.signature) ∷ [])) }
    {
        let parts = CertificateListParts::at(outline, index)?;
        Some(parts.certificate_list)
    }
}

/// The places of the fields of a CertificateList, and of what is signed in it: what [`CertificateList::at`] and
/// [`TBSCertList::at`] give, in the time of the first of these.
#[derive(Clone, Copy, Debug)]
pub struct CertificateListParts {
    /// The fields of the CertificateList.
    pub certificate_list: CertificateList,
    /// The fields of what is signed.
    pub tbs_cert_list: TBSCertList,
}

impl CertificateListParts {
    /// The fields of the CertificateList at the index; `None` if the block is another.
    ///
    /// ```rust
    /// use asn1_certificate::revocation::CertificateListParts;
    /// use jiff::civil::DateTime;
    /// use simple_asn1::Outline;
    /// use std::alloc::{AllocError, Global};
    ///
    /// // When a list of revoked certificates was made.
    /// fn this_update(alloc: Global, outline: &Outline<'_>) -> Result<Option<DateTime>, AllocError> {
    ///     let Some(parts) = CertificateListParts::at(outline, 0) else {
    ///         return Ok(None);
    ///     };
    ///     match outline.block(parts.tbs_cert_list.this_update) {
    ///         Some(block) => block.moment(alloc),
    ///         None => Ok(None),
    ///     }
    /// }
    /// ```
    pub fn at(outline: &Outline<'_>, index: usize) -> Option<CertificateListParts>
        ensures { (ns : Nodes) → IsStructure (octets_in outline.now) ns → MatchOption result
            (certificate_list_tree (tree_at ns index) ≡ None)
            (λ found. AreListFields ns index found.certificate_list found.tbs_cert_list) }
    {
        let mut fields = sequence(outline, index)?;
        let content = fields.take()?;
        let tbs_cert_list = TBSCertList::at(outline, content)?;
        let signature = signature_fields(outline, fields)?;
        let certificate_list = CertificateList {
            tbs_cert_list: content,
            signature_algorithm: signature.algorithm,
            signature: signature.signature,
        };
        Some(CertificateListParts {
            certificate_list,
            tbs_cert_list,
        })
    }
}
