// Names of the object identifiers that most certificates have.
use simple_asn1::OID;
use std::alloc::{AllocError, Global};

// Attributes of names (X.520) and algorithms (RFC 3279, 4055, 5758, 8410).
const NAMES: [(&str, &str); 19] = [
    ("2.5.4.3", "commonName"),
    ("2.5.4.5", "serialNumber"),
    ("2.5.4.6", "countryName"),
    ("2.5.4.7", "localityName"),
    ("2.5.4.8", "stateOrProvinceName"),
    ("2.5.4.10", "organizationName"),
    ("2.5.4.11", "organizationalUnitName"),
    ("2.5.4.97", "organizationIdentifier"),
    ("1.2.840.113549.1.9.1", "emailAddress"),
    ("1.2.840.113549.1.1.1", "rsaEncryption"),
    ("1.2.840.113549.1.1.5", "sha1WithRSAEncryption"),
    ("1.2.840.113549.1.1.10", "rsassaPss"),
    ("1.2.840.113549.1.1.11", "sha256WithRSAEncryption"),
    ("1.2.840.113549.1.1.12", "sha384WithRSAEncryption"),
    ("1.2.840.113549.1.1.13", "sha512WithRSAEncryption"),
    ("1.2.840.10045.2.1", "ecPublicKey"),
    ("1.2.840.10045.4.3.2", "ecdsa-with-SHA256"),
    ("1.2.840.10045.4.3.3", "ecdsa-with-SHA384"),
    ("1.3.101.112", "Ed25519"),
];

// The name of an object identifier, or its components where it has none here.
pub fn name_of(alloc: Global, oid: &OID) -> Result<String, AllocError> {
    let number = format!(in alloc; "{oid}")?;
    match NAMES.iter().find(|row| row.0 == number.as_str()) {
        Some((_, name)) => String::from_str(alloc, name),
        None => Ok(number),
    }
}
