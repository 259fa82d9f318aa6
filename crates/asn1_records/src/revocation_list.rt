// The fields of a list of revoked certificates.
ghost use Rattle.std.specs.Prelude.{◌≡◌};
ghost use Rattle.asn1_outline.specs.Outlines.{entries_in};
ghost use Rattle.asn1_records.specs.RevocationLists.{AnswersRevocationList, HasNoListFields};
ghost use Rattle.asn1_records.specs.Inner.ListRecords.{records_in};

use crate::document_entries::{Fault, outline_of};
use crate::fields::{record_at, record_if_any};
use crate::record::{NO_BLOCK, RevocationListAnswer};
use crate::status::{DONE, NOT_REVOCATION_LIST};
use asn1_certificate::revocation::CertificateListParts;
use asn1_outline::outline::Outline;
use std::alloc::Global;

// The records of the fields.
fn records_of(outline: &Outline<'_>, parts: &CertificateListParts) -> RevocationListAnswer
    ensures { result ≡ records_in (entries_in outline.now) parts.now }
{
    let list = &parts.certificate_list;
    let tbs = &parts.tbs_cert_list;
    RevocationListAnswer {
        status: DONE,
        offset: 0,
        certificate_list: record_at(outline, 0),
        tbs_cert_list: record_at(outline, list.tbs_cert_list),
        version: record_if_any(outline, tbs.version),
        tbs_signature: record_at(outline, tbs.signature),
        issuer: record_at(outline, tbs.issuer),
        this_update: record_at(outline, tbs.this_update),
        next_update: record_if_any(outline, tbs.next_update),
        revoked_certificates: record_if_any(outline, tbs.revoked_certificates),
        crl_extensions: record_if_any(outline, tbs.crl_extensions),
        signature_algorithm: record_at(outline, list.signature_algorithm),
        signature: record_at(outline, list.signature),
    }
}

fn no_fields(status: u32, offset: usize) -> RevocationListAnswer
    ensures { (result.status ≡ status) × (result.offset ≡ offset) × HasNoListFields result }
{
    RevocationListAnswer {
        status,
        offset,
        certificate_list: NO_BLOCK,
        tbs_cert_list: NO_BLOCK,
        version: NO_BLOCK,
        tbs_signature: NO_BLOCK,
        issuer: NO_BLOCK,
        this_update: NO_BLOCK,
        next_update: NO_BLOCK,
        revoked_certificates: NO_BLOCK,
        crl_extensions: NO_BLOCK,
        signature_algorithm: NO_BLOCK,
        signature: NO_BLOCK,
    }
}

pub fn revocation_list_in(alloc: Global, octets: &[u8]) -> RevocationListAnswer
    ensures { AnswersRevocationList octets.now result }
{
    let outline = match outline_of(alloc, octets) {
        Ok(outline) => outline,
        Err(Fault { status, offset }) => return no_fields(status, offset),
    };
    match CertificateListParts::at(&outline, 0) {
        Some(parts) => records_of(&outline, &parts),
        None => no_fields(NOT_REVOCATION_LIST, 0),
    }
}
