// What a value says, a line for each part.
use crate::ExampleErr;
use crate::extensions::{CrlReason, Extension, reason_name};
use crate::keys::{AlgorithmIdentifier, OneAsymmetricKey, SubjectPublicKeyInfo};
use crate::names::{AttributeValue, Name, Time, Validity};
use crate::rsa::{OtherPrimeInfo, RsaPrivateKey};
use asn1_types::Or;
use simple_asn1::{ASN1Block, BigInt};
use std::alloc::Global;
use std::io;
use std::io::Write;

pub fn show_algorithm(algorithm: &AlgorithmIdentifier, out: &mut impl Write) -> io::Result<()> {
    write!(out, "algorithm {}", algorithm.algorithm)?;
    match &algorithm.parameters {
        None => writeln!(out),
        Some(parameters) => show_parameters(&parameters.block, out),
    }
}

fn show_parameters(parameters: &ASN1Block, out: &mut impl Write) -> io::Result<()> {
    match parameters {
        ASN1Block::Null(_) => writeln!(out, ", NULL"),
        ASN1Block::ObjectIdentifier(_, oid) => writeln!(out, ", {oid}"),
        ASN1Block::Sequence(_, items) => writeln!(out, ", a SEQUENCE of {}", items.len()),
        _ => writeln!(out, ", other parameters"),
    }
}

pub fn show_public_key(key: &SubjectPublicKeyInfo, out: &mut impl Write) -> io::Result<()> {
    show_algorithm(&key.algorithm, out)?;
    writeln!(out, "public key of {} bits", key.subject_public_key.bits)
}

pub fn show_private_key(key: &OneAsymmetricKey, out: &mut impl Write) -> io::Result<()> {
    show_algorithm(&key.private_key_algorithm, out)?;
    writeln!(out, "private key of {} bytes", key.private_key.octets.len())
}

// The contents octets of an INTEGER.
fn show_number(
    alloc: Global,
    label: &str,
    number: &BigInt,
    out: &mut impl Write,
) -> Result<(), ExampleErr> {
    let octets = hex::encode(alloc, number.octets())?;
    writeln!(out, "{label} {octets}")?;
    Ok(())
}

pub fn show_rsa_key(
    alloc: Global,
    key: &RsaPrivateKey,
    out: &mut impl Write,
) -> Result<(), ExampleErr> {
    writeln!(out, "version {}", key.version)?;
    show_number(alloc, "modulus", &key.modulus, out)?;
    writeln!(out, "public exponent {}", key.public_exponent)?;
    show_number(alloc, "private exponent", &key.private_exponent, out)?;
    show_number(alloc, "prime 1", &key.prime1, out)?;
    show_number(alloc, "prime 2", &key.prime2, out)?;
    show_number(alloc, "exponent 1", &key.exponent1, out)?;
    show_number(alloc, "exponent 2", &key.exponent2, out)?;
    show_number(alloc, "coefficient", &key.coefficient, out)?;
    if let Some(others) = &key.other_prime_infos {
        for other in &others.values {
            show_other_prime(alloc, other, out)?;
        }
    }
    Ok(())
}

fn show_other_prime(
    alloc: Global,
    other: &OtherPrimeInfo,
    out: &mut impl Write,
) -> Result<(), ExampleErr> {
    show_number(alloc, "other prime", &other.prime, out)?;
    show_number(alloc, "its exponent", &other.exponent, out)?;
    show_number(alloc, "its coefficient", &other.coefficient, out)
}

fn show_time(label: &str, time: &Time, out: &mut impl Write) -> io::Result<()> {
    match time {
        Or::First(time) => writeln!(out, "{label} {}", time.moment),
        Or::Second(time, _) => writeln!(out, "{label} {}", time.moment),
    }
}

pub fn show_validity(validity: &Validity, out: &mut impl Write) -> io::Result<()> {
    show_time("from", &validity.not_before, out)?;
    show_time("to", &validity.not_after, out)
}

// Each attribute on a line.
pub fn show_name(name: &Name, out: &mut impl Write) -> io::Result<()> {
    for relative in &name.values {
        for attribute in &relative.values {
            let text = text_of(&attribute.value);
            writeln!(out, "{} {text}", attribute.attribute_type)?;
        }
    }
    Ok(())
}

fn text_of(value: &AttributeValue) -> &str {
    match value {
        Or::First(text) => &text.characters,
        Or::Second(Or::First(text), _) => &text.characters,
        Or::Second(Or::Second(text, _), _) => &text.characters,
    }
}

pub fn show_extension(extension: &Extension, out: &mut impl Write) -> io::Result<()> {
    let critical = if extension.critical { ", critical" } else { "" };
    let size = extension.extn_value.octets.len();
    writeln!(
        out,
        "extension {}{critical}, {size} bytes",
        extension.extn_id
    )
}

pub fn show_reason(reason: &CrlReason, out: &mut impl Write) -> io::Result<()> {
    match reason_name(reason) {
        Some(name) => writeln!(out, "reason {}, {name}", reason.number),
        None => writeln!(out, "reason {}", reason.number),
    }
}
