// The fields of a certificate.
ghost use Rattle.std.specs.Prelude.{◌≡◌};
ghost use Rattle.asn1_outline.specs.Outlines.{entries_in};
ghost use Rattle.asn1_records.specs.Certificates.{AnswersCertificate, HasNoFields};
ghost use Rattle.asn1_records.specs.Inner.CertificateRecords.{records_in};

use crate::document_entries::{Fault, outline_of};
use crate::fields::{record_at, record_if_any};
use crate::record::{CertificateAnswer, NO_BLOCK};
use crate::status::{DONE, NOT_CERTIFICATE};
use asn1_certificate::certificate::CertificateParts;
use asn1_outline::outline::Outline;
use std::alloc::Global;

// The records of the fields.
fn records_of(outline: &Outline<'_>, parts: &CertificateParts) -> CertificateAnswer
    ensures { result ≡ records_in (entries_in outline.now) parts.now }
{
    let certificate = &parts.certificate;
    let tbs = &parts.tbs_certificate;
    let validity = &parts.validity;
    let key = &parts.subject_public_key_info;
    CertificateAnswer {
        status: DONE,
        offset: 0,
        certificate: record_at(outline, 0),
        tbs_certificate: record_at(outline, certificate.tbs_certificate),
        version: record_if_any(outline, tbs.version),
        serial_number: record_at(outline, tbs.serial_number),
        tbs_signature: record_at(outline, tbs.signature),
        issuer: record_at(outline, tbs.issuer),
        not_before: record_at(outline, validity.not_before),
        not_after: record_at(outline, validity.not_after),
        subject: record_at(outline, tbs.subject),
        subject_public_key_info: record_at(outline, tbs.subject_public_key_info),
        public_key_algorithm: record_at(outline, key.algorithm),
        subject_public_key: record_at(outline, key.subject_public_key),
        issuer_unique_id: record_if_any(outline, tbs.issuer_unique_id),
        subject_unique_id: record_if_any(outline, tbs.subject_unique_id),
        extensions: record_if_any(outline, tbs.extensions),
        signature_algorithm: record_at(outline, certificate.signature_algorithm),
        signature: record_at(outline, certificate.signature),
    }
}

fn no_fields(status: u32, offset: usize) -> CertificateAnswer
    ensures { (result.status ≡ status) × (result.offset ≡ offset) × HasNoFields result }
{
    CertificateAnswer {
        status,
        offset,
        certificate: NO_BLOCK,
        tbs_certificate: NO_BLOCK,
        version: NO_BLOCK,
        serial_number: NO_BLOCK,
        tbs_signature: NO_BLOCK,
        issuer: NO_BLOCK,
        not_before: NO_BLOCK,
        not_after: NO_BLOCK,
        subject: NO_BLOCK,
        subject_public_key_info: NO_BLOCK,
        public_key_algorithm: NO_BLOCK,
        subject_public_key: NO_BLOCK,
        issuer_unique_id: NO_BLOCK,
        subject_unique_id: NO_BLOCK,
        extensions: NO_BLOCK,
        signature_algorithm: NO_BLOCK,
        signature: NO_BLOCK,
    }
}

pub fn certificate_in(alloc: Global, octets: &[u8]) -> CertificateAnswer
    ensures { AnswersCertificate octets.now result }
{
    let outline = match outline_of(alloc, octets) {
        Ok(outline) => outline,
        Err(Fault { status, offset }) => return no_fields(status, offset),
    };
    match CertificateParts::at(&outline, 0) {
        Some(parts) => records_of(&outline, &parts),
        None => no_fields(NOT_CERTIFICATE, 0),
    }
}
