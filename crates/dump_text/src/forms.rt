// What accounts show: of each type of documents the lines, by the paths of the fields that they show.
//
// A path has the names of fields from the outside to the inside, without that of the document. What has no name as a
// field has that of its type there.

use crate::messages::{ENCRYPTION, file_form, message_form, parameter_form, service_form};

// How an account shows documents of some types.
pub struct Form {
    // the names of the types
    pub types: &'static [&'static str],
    pub title: &'static str,
    pub rows: &'static [Row],
    // the labels of rows that a document may have nothing for
    pub optional: &'static [&'static str],
    // of what is signed, where the values of its extensions stand; a digest of it is shown
    pub signed: Option<&'static str>,
}

// A line: the path of the field that it shows, its label, and how what is inside the field is shown, by the paths
// there.
pub type Row = (&'static str, &'static str, Parts);

pub type Parts = &'static [(&'static str, Part)];

// How a piece inside a field is shown.
#[derive(Clone, Copy)]
pub enum Part {
    // as this text, until there is more to say
    Text(&'static str),
    // a number in hex digits
    Number,
    Time,
    // a time, and how many days are left until then
    End,
    // an object identifier by its name; of the algorithm of a key, the kind of the key; and one of several
    Identifier,
    KeyKind,
    Item,
    // the curve of a key, and how many bits the modulus of one has
    Curve,
    Modulus,
    // how many lines have this label
    Count(&'static str),
    // the names of bits, and those as an item
    Bits,
    Flags,
    // whether the subject is an authority, and how many others may stand below it
    Authority,
    PathLength,
    // where a relative name begins, and the type and the value of an attribute of it
    RelativeName,
    AttributeType,
    AttributeValue,
    // a GeneralName behind the word for its kind, by its value, or by its contents octets; of an otherName the type and
    // the value; and a GeneralName that is a field with another name, behind a word
    GeneralName(&'static str),
    GeneralOctets(&'static str),
    TypeId,
    OtherValue,
    FieldName(&'static str),
    // an item: a serial number; contents octets or a time behind a word; a number between words, and how many bits one
    // has; characters; the name of a number; and the alternative that a tag chooses
    Serial,
    Octets(&'static str),
    Moment(&'static str),
    Amount(&'static str, &'static str),
    Size,
    Characters,
    NumberName,
    Alternative,
    // nothing, but what is inside it may be a document
    Inside,
    // a list of signed certificate timestamps, with a line for each
    Timestamps,
}

impl Form {
    // The row of the field with this path, and the place of its line. Lines of extensions stand before the last row.
    pub fn row_at(&self, names: &[&str]) -> Option<(usize, Row)> {
        for (place, row) in self.rows.iter().enumerate() {
            if is_path(row.0, names) {
                return Some((place, *row));
            }
        }
        let inside = self.extension_in(names)?;
        let row = EXTENSIONS
            .iter()
            .find(|(path, _, _)| is_path(path, inside))?;
        Some((self.rows.len().saturating_sub(1), *row))
    }

    // The end of a path that leads into the value of an extension: the names in it.
    pub fn extension_in<'n>(&self, names: &'n [&'n str]) -> Option<&'n [&'n str]> {
        let signed = self.signed?;
        let (around, inside) = names.split_at_checked(signed.split('.').count())?;
        is_path(signed, around).then_some(inside)
    }

    // Whether rows have something inside the path.
    pub fn has_rows_inside(&self, names: &[&str]) -> bool {
        self.rows
            .iter()
            .any(|(path, _, _)| begins_with(path, names))
    }

    // Whether the values of extensions stand at the path.
    pub fn has_extensions_at(&self, names: &[&str]) -> bool {
        self.signed.is_some_and(|path| is_path(path, names))
    }
}

// Whether the path of a table has these names.
pub fn is_path(path: &str, names: &[&str]) -> bool {
    path.split_terminator('.').eq(names.iter().copied())
}

// Whether the path of a table begins with these names.
pub fn begins_with(path: &str, names: &[&str]) -> bool {
    let front = path.split_terminator('.').take(names.len());
    front.eq(names.iter().copied())
}

// How a GeneralName of this alternative is shown.
pub fn general_part(alternative: &str) -> Option<Part> {
    let (_, part) = GENERAL_NAMES.iter().find(|(path, _)| *path == alternative)?;
    Some(*part)
}

// How accounts show documents of the type with this name. Each table is looked into by a function of its own, since the
// prover has all of a table before it where one is named.
pub fn form_of(type_name: &str) -> Option<&'static Form> {
    if let Some(form) = form_in(FORMS, type_name) {
        return Some(form);
    }
    if let Some(form) = message_form(type_name) {
        return Some(form);
    }
    if let Some(form) = file_form(type_name) {
        return Some(form);
    }
    service_form(type_name).or(parameter_form(type_name))
}

// How a table shows documents of the type with this name.
pub fn form_in(forms: &'static [Form], type_name: &str) -> Option<&'static Form> {
    forms.iter().find(|form| form.types.contains(&type_name))
}

const FORMS: &[Form] = &[
    // RFC 5280, 4.1
    Form {
        types: &["Certificate"],
        title: "certificate",
        rows: &[
            ("tbsCertificate.subject", "subject", NAME),
            ("tbsCertificate.issuer", "issuer", NAME),
            ("tbsCertificate.serialNumber", "serial number", NUMBER),
            ("tbsCertificate.validity.notBefore", "not before", TIME),
            ("tbsCertificate.validity.notAfter", "not after", END),
            ("tbsCertificate.subjectPublicKeyInfo", "public key", KEY),
            SIGNATURE,
        ],
        optional: &[],
        signed: Some("tbsCertificate.extensions.Extensions.Extension.extnValue"),
    },
    // RFC 2986, 4
    Form {
        types: &["CertificationRequest"],
        title: "certification request",
        rows: &[
            ("certificationRequestInfo.subject", "subject", NAME),
            ("certificationRequestInfo.subjectPKInfo", "public key", KEY),
            (
                "certificationRequestInfo.attributes.Attribute",
                "attribute",
                ATTRIBUTE,
            ),
            SIGNATURE,
        ],
        optional: &["attribute"],
        signed: Some(
            "certificationRequestInfo.attributes.Attribute.values.Extensions.Extension.extnValue",
        ),
    },
    // RFC 5280, 5.1
    Form {
        types: &["CertificateList"],
        title: "list of revoked certificates",
        rows: &[
            ("tbsCertList.issuer", "issuer", NAME),
            ("tbsCertList.thisUpdate", "this update", TIME),
            ("tbsCertList.nextUpdate", "next update", END),
            (NOWHERE, "revoked", &[("", Part::Count(REVOKED_LABEL))]),
            (
                "tbsCertList.revokedCertificates.RevokedCertificate",
                REVOKED_LABEL,
                REVOKED,
            ),
            SIGNATURE,
        ],
        optional: &["next update", REVOKED_LABEL],
        signed: Some("tbsCertList.crlExtensions.Extensions.Extension.extnValue"),
    },
    // RFC 5280, 4.1
    Form {
        types: &["SubjectPublicKeyInfo"],
        title: "public key",
        rows: &[("", "key", KEY)],
        optional: &[],
        signed: None,
    },
    // RFC 5208, 5, and RFC 5958, 2
    Form {
        types: &["PrivateKeyInfo", "OneAsymmetricKey"],
        title: "private key",
        rows: &[("", "key", PRIVATE_KEY)],
        optional: &[],
        signed: None,
    },
    // RFC 5958, 3
    Form {
        types: &["EncryptedPrivateKeyInfo"],
        title: "encrypted private key",
        rows: &[("encryptionAlgorithm", "encryption", ENCRYPTION)],
        optional: &[],
        signed: None,
    },
    // RFC 5915, 3, and RFC 8017, appendix A.1.2
    Form {
        types: &["ECPrivateKey", "RSAPrivateKey"],
        title: "private key",
        rows: &[("", "key", TRADITIONAL_KEY)],
        optional: &[],
        signed: None,
    },
];

// RFC 5280, 4.1.1.2
pub const SIGNATURE: Row = ("signatureAlgorithm", "signature", ALGORITHM);

// RFC 5280, 4.2 and 5.2, and RFC 6962, 3.3, by the paths from the types of their values on
const EXTENSIONS: &[Row] = &[
    ("KeyUsage", "key usage", &[("", Part::Bits)]),
    ("SubjectAltName", "alternative names", GENERAL_NAMES),
    ("IssuerAltName", "issuer's names", GENERAL_NAMES),
    ("BasicConstraints", "authority", CONSTRAINTS),
    ("CRLNumber", "number", NUMBER),
    ("ExtKeyUsageSyntax", "extended key usage", PURPOSES),
    ("CertificatePolicies.PolicyInformation", "policy", POLICY),
    (
        "NameConstraints.permittedSubtrees.GeneralSubtree",
        "name constraint",
        PERMITTED,
    ),
    (
        "NameConstraints.excludedSubtrees.GeneralSubtree",
        "name constraint",
        EXCLUDED,
    ),
    (
        "CRLDistributionPoints.DistributionPoint",
        "revocation list",
        POINT,
    ),
    (
        "AuthorityInfoAccessSyntax.AccessDescription",
        "issuer's service",
        SERVICE,
    ),
    (
        "SubjectInfoAccessSyntax.AccessDescription",
        "subject's service",
        SERVICE,
    ),
    (
        "SubjectKeyIdentifier",
        "key identifier",
        &[("", Part::Octets(""))],
    ),
    (
        "AuthorityKeyIdentifier",
        "issuer's key",
        &[("keyIdentifier", Part::Octets(""))],
    ),
    (
        "SignedCertificateTimestampList",
        "timestamp",
        &[("", Part::Timestamps)],
    ),
];

// The path of no field: of a line that is made of others.
const NOWHERE: &str = ".";

const REVOKED_LABEL: &str = "revoked certificate";

pub const NUMBER: Parts = &[("", Part::Number)];

pub const TIME: Parts = &[("", Part::Time)];

pub const END: Parts = &[("", Part::End)];

// RFC 5280, 4.1.1.2, and RFC 4055, 3.1
pub const ALGORITHM: Parts = &[
    ("", Part::Text("?")),
    ("algorithm", Part::Identifier),
    (
        "parameters.hashAlgorithm.AlgorithmIdentifier.algorithm",
        Part::Item,
    ),
    (
        "parameters.saltLength.INTEGER",
        Part::Amount("salt of ", " bytes"),
    ),
];

// RFC 5280, 4.1.2.4
const NAME: Parts = &[
    ("", Part::Text("")),
    ("RelativeDistinguishedName", Part::RelativeName),
    (
        "RelativeDistinguishedName.AttributeTypeAndValue.type",
        Part::AttributeType,
    ),
    (
        "RelativeDistinguishedName.AttributeTypeAndValue.value",
        Part::AttributeValue,
    ),
];

// RFC 5280, 4.1.2.7, RFC 8017, appendix A.1.1, and RFC 3279, 2.3.2 and 2.3.3
pub const KEY: Parts = &[
    ("algorithm", Part::Text("?")),
    ("algorithm.algorithm", Part::KeyKind),
    ("algorithm.parameters", Part::Curve),
    ("algorithm.parameters.p", Part::Size),
    ("subjectPublicKey.RSAPublicKey.modulus", Part::Modulus),
];

// RFC 5958, 2, RFC 8017, appendix A.1.2, and RFC 3279, 2.3.2 and 2.3.3
const PRIVATE_KEY: Parts = &[
    ("privateKeyAlgorithm", Part::Text("?")),
    ("privateKeyAlgorithm.algorithm", Part::KeyKind),
    ("privateKeyAlgorithm.parameters", Part::Curve),
    ("privateKeyAlgorithm.parameters.p", Part::Size),
    ("privateKey.RSAPrivateKey.modulus", Part::Modulus),
];

// RFC 5915, 3, and RFC 8017, appendix A.1.2
const TRADITIONAL_KEY: Parts = &[
    ("privateKey", Part::Text("EC")),
    ("parameters.namedCurve", Part::Curve),
    ("modulus", Part::Modulus),
];

// RFC 5280, 5.1
const REVOKED: Parts = &[
    ("", Part::Text("")),
    ("userCertificate", Part::Serial),
    ("revocationDate", Part::Moment("")),
    (
        "crlEntryExtensions.Extension.extnValue.CRLReason",
        Part::NumberName,
    ),
];

// RFC 2985, 5.4
pub const ATTRIBUTE: Parts = &[
    ("type", Part::Item),
    ("values.AttributeValue", Part::Characters),
    ("values.utf8String", Part::Characters),
    ("values.printableString", Part::Characters),
    ("values.bmpString", Part::Characters),
    ("values.teletexString", Part::Characters),
];

// RFC 5280, 4.2.1.4
const POLICY: Parts = &[
    ("policyIdentifier", Part::Item),
    (
        "policyQualifiers.PolicyQualifierInfo.qualifier",
        Part::Characters,
    ),
    (
        "policyQualifiers.PolicyQualifierInfo.qualifier.noticeRef.organization",
        Part::Characters,
    ),
    (
        "policyQualifiers.PolicyQualifierInfo.qualifier.explicitText",
        Part::Characters,
    ),
];

// RFC 5280, 4.2.1.10
const PERMITTED: Parts = &[
    ("base", Part::FieldName("permitted")),
    ("base.Name.RelativeDistinguishedName", Part::RelativeName),
    (
        "base.Name.RelativeDistinguishedName.AttributeTypeAndValue.type",
        Part::AttributeType,
    ),
    (
        "base.Name.RelativeDistinguishedName.AttributeTypeAndValue.value",
        Part::AttributeValue,
    ),
];

const EXCLUDED: Parts = &[
    ("base", Part::FieldName("excluded")),
    ("base.Name.RelativeDistinguishedName", Part::RelativeName),
    (
        "base.Name.RelativeDistinguishedName.AttributeTypeAndValue.type",
        Part::AttributeType,
    ),
    (
        "base.Name.RelativeDistinguishedName.AttributeTypeAndValue.value",
        Part::AttributeValue,
    ),
];

// RFC 5280, 4.2.1.13
const POINT: Parts = &[
    (
        "distributionPoint.fullName.uniformResourceIdentifier",
        Part::GeneralName("URI:"),
    ),
    (
        "distributionPoint.fullName.directoryName",
        Part::GeneralName("DirName:"),
    ),
    (
        "distributionPoint.fullName.directoryName.Name.RelativeDistinguishedName",
        Part::RelativeName,
    ),
    (
        concat!(
            "distributionPoint.fullName.directoryName.Name.",
            "RelativeDistinguishedName.AttributeTypeAndValue.type"
        ),
        Part::AttributeType,
    ),
    (
        concat!(
            "distributionPoint.fullName.directoryName.Name.",
            "RelativeDistinguishedName.AttributeTypeAndValue.value"
        ),
        Part::AttributeValue,
    ),
    ("reasons", Part::Flags),
    ("cRLIssuer.directoryName", Part::GeneralName("by DirName:")),
    (
        "cRLIssuer.directoryName.Name.RelativeDistinguishedName",
        Part::RelativeName,
    ),
    (
        "cRLIssuer.directoryName.Name.RelativeDistinguishedName.AttributeTypeAndValue.type",
        Part::AttributeType,
    ),
    (
        "cRLIssuer.directoryName.Name.RelativeDistinguishedName.AttributeTypeAndValue.value",
        Part::AttributeValue,
    ),
];

// RFC 5280, 4.2.2
const SERVICE: Parts = &[
    ("accessMethod", Part::Item),
    ("accessLocation", Part::FieldName("")),
    (
        "accessLocation.Name.RelativeDistinguishedName",
        Part::RelativeName,
    ),
    (
        "accessLocation.Name.RelativeDistinguishedName.AttributeTypeAndValue.type",
        Part::AttributeType,
    ),
    (
        "accessLocation.Name.RelativeDistinguishedName.AttributeTypeAndValue.value",
        Part::AttributeValue,
    ),
];

// RFC 5280, 4.2.1.6
pub const GENERAL_NAMES: Parts = &[
    ("", Part::Text("")),
    ("otherName", Part::GeneralName("othername:")),
    ("otherName.type-id", Part::TypeId),
    ("otherName.value.UTF8String", Part::OtherValue),
    ("rfc822Name", Part::GeneralName("email:")),
    ("dNSName", Part::GeneralName("DNS:")),
    ("x400Address", Part::GeneralOctets("other:")),
    ("directoryName", Part::GeneralName("DirName:")),
    (
        "directoryName.Name.RelativeDistinguishedName",
        Part::RelativeName,
    ),
    (
        "directoryName.Name.RelativeDistinguishedName.AttributeTypeAndValue.type",
        Part::AttributeType,
    ),
    (
        "directoryName.Name.RelativeDistinguishedName.AttributeTypeAndValue.value",
        Part::AttributeValue,
    ),
    ("ediPartyName", Part::GeneralOctets("other:")),
    ("uniformResourceIdentifier", Part::GeneralName("URI:")),
    ("iPAddress", Part::GeneralName("IP Address:")),
    ("registeredID", Part::GeneralName("Registered ID:")),
];

// RFC 5280, 4.2.1.9
const CONSTRAINTS: Parts = &[
    ("", Part::Text("no")),
    ("cA", Part::Authority),
    ("pathLenConstraint", Part::PathLength),
];

// RFC 5280, 4.2.1.12
const PURPOSES: Parts = &[("", Part::Text("")), ("KeyPurposeId", Part::Item)];
