// The fields of a certification request.
ghost use Rattle.std.specs.Prelude.{◌≡◌};
ghost use Rattle.asn1_outline.specs.Outlines.{entries_in};
ghost use Rattle.asn1_records.specs.Requests.{AnswersRequest, HasNoRequestFields};
ghost use Rattle.asn1_records.specs.Inner.RequestRecords.{records_in};

use crate::document_entries::{Fault, outline_of};
use crate::fields::record_at;
use crate::record::{NO_BLOCK, RequestAnswer};
use crate::status::{DONE, NOT_REQUEST};
use asn1_certificate::request::CertificationRequestParts;
use asn1_outline::outline::Outline;
use std::alloc::Global;

// The records of the fields.
fn records_of(outline: &Outline<'_>, parts: &CertificationRequestParts) -> RequestAnswer
    ensures { result ≡ records_in (entries_in outline.now) parts.now }
{
    let request = &parts.certification_request;
    let info = &parts.certification_request_info;
    let key = &parts.subject_public_key_info;
    RequestAnswer {
        status: DONE,
        offset: 0,
        certification_request: record_at(outline, 0),
        certification_request_info: record_at(outline, request.certification_request_info),
        version: record_at(outline, info.version),
        subject: record_at(outline, info.subject),
        subject_public_key_info: record_at(outline, info.subject_public_key_info),
        public_key_algorithm: record_at(outline, key.algorithm),
        subject_public_key: record_at(outline, key.subject_public_key),
        attributes: record_at(outline, info.attributes),
        signature_algorithm: record_at(outline, request.signature_algorithm),
        signature: record_at(outline, request.signature),
    }
}

fn no_fields(status: u32, offset: usize) -> RequestAnswer
    ensures { (result.status ≡ status) × (result.offset ≡ offset) × HasNoRequestFields result }
{
    RequestAnswer {
        status,
        offset,
        certification_request: NO_BLOCK,
        certification_request_info: NO_BLOCK,
        version: NO_BLOCK,
        subject: NO_BLOCK,
        subject_public_key_info: NO_BLOCK,
        public_key_algorithm: NO_BLOCK,
        subject_public_key: NO_BLOCK,
        attributes: NO_BLOCK,
        signature_algorithm: NO_BLOCK,
        signature: NO_BLOCK,
    }
}

pub fn request_in(alloc: Global, octets: &[u8]) -> RequestAnswer
    ensures { AnswersRequest octets.now result }
{
    let outline = match outline_of(alloc, octets) {
        Ok(outline) => outline,
        Err(Fault { status, offset }) => return no_fields(status, offset),
    };
    match CertificationRequestParts::at(&outline, 0) {
        Some(parts) => records_of(&outline, &parts),
        None => no_fields(NOT_REQUEST, 0),
    }
}
