//! Reads a value of the type that is named, of RFC 5280, 5958 or 8017, says what it is, and writes it: an example of
//! types that are made of parts. `rt run -- Name < FILE.der`
#![tactic(auto)]

mod extensions;
mod keys;
mod names;
mod rsa;
mod show;

use crate::extensions::{CrlReason, Extension};
use crate::keys::{AlgorithmIdentifier, OneAsymmetricKey, SubjectPublicKeyInfo};
use crate::names::{Name, Validity};
use crate::rsa::RsaPrivateKey;
use crate::show::{
    show_algorithm, show_extension, show_name, show_private_key, show_public_key, show_reason,
    show_rsa_key, show_validity,
};
use asn1_types::{Asn1Type, Asn1Write, Whole, WholeErr};
use simple_asn1::{der_decode, der_encode};
use std::alloc::{AllocError, Global};
use std::io::{Read, Write};
use std::process::ExitCode;
use std::{env, io};
use thiserror::Error;

// Why nothing was printed.
#[derive(Debug, Drop, Error)]
pub enum ExampleErr {
    #[error("{0}")]
    Stream(#[from] io::Error),
    #[error("{0}")]
    Value(#[from] WholeErr),
    #[error("out of memory")]
    Memory(#[from] AllocError),
    #[error("no type has this name")]
    Name,
}

// The value of the type that the octets are.
fn read<T: Asn1Type + Drop>(alloc: Global, octets: &[u8]) -> Result<T, WholeErr> {
    let whole: Whole<T> = der_decode(alloc, octets)?;
    Ok(whole.value)
}

// Writes the value, and says whether its octets are these.
fn print_written<T: Asn1Write + Drop>(
    alloc: Global,
    value: T,
    octets: &[u8],
    out: &mut impl Write,
) -> Result<(), ExampleErr> {
    let written = der_encode(alloc, &Whole { value })?;
    let same = written.as_slice() == octets;
    writeln!(out, "written in {} bytes, the same: {same}", written.len())?;
    Ok(())
}

// Says what the octets are, as a value of the type of this name.
fn print(alloc: Global, name: &str, octets: &[u8], out: &mut impl Write) -> Result<(), ExampleErr> {
    match name {
        "AlgorithmIdentifier" => {
            let algorithm: AlgorithmIdentifier = read(alloc, octets)?;
            show_algorithm(&algorithm, out)?;
            print_written(alloc, algorithm, octets, out)
        }
        "SubjectPublicKeyInfo" => {
            let key: SubjectPublicKeyInfo = read(alloc, octets)?;
            show_public_key(&key, out)?;
            print_written(alloc, key, octets, out)
        }
        "OneAsymmetricKey" => {
            let key: OneAsymmetricKey = read(alloc, octets)?;
            show_private_key(&key, out)?;
            print_written(alloc, key, octets, out)
        }
        "RSAPrivateKey" => {
            let key: RsaPrivateKey = read(alloc, octets)?;
            show_rsa_key(alloc, &key, out)?;
            print_written(alloc, key, octets, out)
        }
        _ => print_of_certificate(alloc, name, octets, out),
    }
}

// The same for certificates and what is in them.
fn print_of_certificate(
    alloc: Global,
    name: &str,
    octets: &[u8],
    out: &mut impl Write,
) -> Result<(), ExampleErr> {
    match name {
        "CRLReason" => {
            let reason: CrlReason = read(alloc, octets)?;
            show_reason(&reason, out)?;
            print_written(alloc, reason, octets, out)
        }
        "Extension" => {
            let extension: Extension = read(alloc, octets)?;
            show_extension(&extension, out)?;
            print_written(alloc, extension, octets, out)
        }
        "Name" => {
            let name: Name = read(alloc, octets)?;
            show_name(&name, out)?;
            print_written(alloc, name, octets, out)
        }
        "Validity" => {
            let validity: Validity = read(alloc, octets)?;
            show_validity(&validity, out)?;
            print_written(alloc, validity, octets, out)
        }
        _ => Err(ExampleErr::Name),
    }
}

fn main(rt: HostRuntime) -> io::Result<ExitCode> {
    let alloc = rt.alloc();
    let Some(name) = env::args(&rt)?.nth(1) else {
        eprintln!(rt; "usage: example_types TYPE < FILE.der")?;
        return Ok(ExitCode::from(2));
    };
    let mut octets = Vec::new(alloc);
    rt.stdin().read_to_end(&mut octets)?;
    match print(alloc, &name, &octets, &mut rt.stdout()) {
        Ok(()) => Ok(ExitCode::SUCCESS),
        Err(e) => {
            eprintln!(rt; "error: {e}")?;
            Ok(ExitCode::FAILURE)
        }
    }
}
