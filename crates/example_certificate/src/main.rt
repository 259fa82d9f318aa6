//! Prints what a certificate says: who issued it to whom, for how long, its algorithms, and how many octets were
//! signed. An example of the library's use: `rt run < FILE.pem`.
#![tactic(auto)]

mod names;

use crate::names::name_of;
use clap::error::ErrorKind;
use clap::{Command, Error as Answer};
use der_forms::{FormFault, document_of};
use der_io::{arguments, escaped};
use jiff::civil::DateTime;
use simple_asn1::{ASN1Block, ASN1Class, ASN1DecodeErr, BigInt, Document, OID, encoding_at};
use std::alloc::{AllocError, Global};
use std::io;
use std::io::{Read, Write};
use std::process::ExitCode;
use thiserror::Error;

// Why nothing was printed.
#[derive(Debug, Drop, Error)]
enum CertificateErr {
    #[error("{0}")]
    Stream(#[from] io::Error),
    // The input has no document in a form that is read.
    #[error("{0}")]
    Form(#[from] FormFault),
    #[error("{0}")]
    Refused(#[from] ASN1DecodeErr),
    #[error("out of memory")]
    Memory(#[from] AllocError),
    // The octets are a document, and no certificate.
    #[error("not a certificate")]
    Shape,
}

// The parts of a certificate (RFC 5280, section 4.1) that are printed.
#[derive(Drop)]
struct Certificate<'a> {
    serial: &'a BigInt,
    signature_algorithm: &'a OID,
    issuer: &'a [ASN1Block],
    not_before: &'a DateTime,
    not_after: &'a DateTime,
    subject: &'a [ASN1Block],
    key_algorithm: &'a OID,
    signed: &'a [u8],
}

impl<'a> Certificate<'a> {
    // The parts in the document of these octets; `None` where it is of another shape.
    fn find(octets: &'a [u8], document: &'a Document) -> Option<Certificate<'a>> {
        let content = document.blocks().first()?.items()?.first()?;
        let signed = encoding_at(octets, content.offset())?;
        let fields = without_version(content.items()?);
        let serial = fields.first()?.integer()?;
        let signature_algorithm = algorithm(fields.get(1)?)?;
        let issuer = fields.get(2)?.items()?;
        let validity = fields.get(3)?.items()?;
        let subject = fields.get(4)?.items()?;
        let key_algorithm = algorithm(fields.get(5)?.items()?.first()?)?;
        Some(Certificate {
            serial,
            signature_algorithm,
            issuer,
            not_before: validity.first()?.moment()?,
            not_after: validity.get(1)?.moment()?,
            subject,
            key_algorithm,
            signed,
        })
    }
}

// The version is [0], and left out where it is 1.
fn without_version(fields: &[ASN1Block]) -> &[ASN1Block] {
    match fields.split_first() {
        Some((first, rest)) if first.class() == ASN1Class::ContextSpecific => rest,
        _ => fields,
    }
}

// An AlgorithmIdentifier is a SEQUENCE that begins with the algorithm's identifier.
fn algorithm(identifier: &ASN1Block) -> Option<&OID> {
    identifier.items()?.first()?.oid()
}

// A name is a list of sets of pairs, each an identifier and a string (X.501 9.2).
fn write_name<W: Write>(
    alloc: Global,
    out: &mut W,
    name: &[ASN1Block],
) -> Result<(), CertificateErr> {
    for set in name {
        for pair in set.items().unwrap_or(&[]) {
            if let Some([ASN1Block::ObjectIdentifier(_, kind), value]) = pair.items() {
                let kind = name_of(alloc, kind)?;
                let value = escaped(alloc, value.text().unwrap_or("?").as_bytes())?;
                writeln!(out, "  {kind} = {value}")?;
            }
        }
    }
    Ok(())
}

fn write_certificate<W: Write>(
    alloc: Global,
    out: &mut W,
    certificate: &Certificate<'_>,
) -> Result<(), CertificateErr> {
    let serial = certificate.serial.to_signed_bytes_be(alloc)?;
    let serial = hex::encode_upper(alloc, serial.as_slice())?;
    let signature_algorithm = name_of(alloc, certificate.signature_algorithm)?;
    let key_algorithm = name_of(alloc, certificate.key_algorithm)?;
    writeln!(out, "serial number {serial}")?;
    writeln!(out, "issuer")?;
    write_name(alloc, out, certificate.issuer)?;
    writeln!(out, "not before {}Z", certificate.not_before)?;
    writeln!(out, "not after {}Z", certificate.not_after)?;
    writeln!(out, "subject")?;
    write_name(alloc, out, certificate.subject)?;
    writeln!(out, "key {key_algorithm}")?;
    let size = certificate.signed.len();
    writeln!(out, "{size} bytes signed with {signature_algorithm}")?;
    Ok(())
}

fn print<R: Read, W: Write>(
    alloc: Global,
    input: &mut R,
    out: &mut W,
) -> Result<(), CertificateErr> {
    let mut bytes = Vec::new(alloc);
    input.read_to_end(&mut bytes)?;
    let octets = document_of(alloc, bytes)?;
    let document = Document::from_der(alloc, &octets)?;
    let Some(certificate) = Certificate::find(&octets, &document) else {
        return Err(CertificateErr::Shape);
    };
    write_certificate(alloc, out, &certificate)
}

// What help, the version or a mistake in the arguments give: there are no others.
fn answer_to(rt: &HostRuntime) -> Result<Option<Answer>, io::Error> {
    let arguments = arguments(rt)?;
    let command = Command::new(rt.alloc(), "example_certificate")
        .version("1.0.0")
        .about("Prints what the certificate on standard input says.");
    Ok(command.try_get_matches_from(&arguments).err())
}

fn tell(rt: &HostRuntime, answer: &Answer) -> io::Result<ExitCode> {
    match answer.kind() {
        ErrorKind::DisplayHelp | ErrorKind::DisplayVersion => {
            print!(rt; "{answer}")?;
            Ok(ExitCode::SUCCESS)
        }
        _ => {
            let text = format!(in rt.alloc(); "{answer}")?;
            eprintln!(rt;
                "{}",
                escaped(rt.alloc(), text.lines().next().unwrap_or("").as_bytes())?
            )?;
            Ok(ExitCode::from(2))
        }
    }
}

fn main(rt: HostRuntime) -> io::Result<ExitCode> {
    if let Some(answer) = answer_to(&rt)? {
        return tell(&rt, &answer);
    }
    match print(rt.alloc(), &mut rt.stdin(), &mut rt.stdout()) {
        Ok(()) => Ok(ExitCode::SUCCESS),
        Err(e) => {
            eprintln!(rt; "error: {e}")?;
            Ok(ExitCode::FAILURE)
        }
    }
}
