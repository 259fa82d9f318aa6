// What accounts show of messages, of files that hold keys and certificates, and of parameters.

use crate::forms::{
    ALGORITHM, ATTRIBUTE, END, Form, GENERAL_NAMES, KEY, NUMBER, Part, Parts, SIGNATURE, TIME,
    form_in,
};

// How accounts show messages of the type with this name.
pub fn message_form(type_name: &str) -> Option<&'static Form> {
    form_in(MESSAGES, type_name)
}

// How accounts show files of keys and certificates of the type with this name.
pub fn file_form(type_name: &str) -> Option<&'static Form> {
    form_in(FILES, type_name)
}

// How accounts show requests and responses of the type with this name.
pub fn service_form(type_name: &str) -> Option<&'static Form> {
    form_in(SERVICES, type_name)
}

// How accounts show public keys and parameters of the type with this name.
pub fn parameter_form(type_name: &str) -> Option<&'static Form> {
    form_in(PARAMETERS, type_name)
}

const MESSAGES: &[Form] = &[
    // RFC 5652, 3, and RFC 5083, 2
    Form {
        types: &["ContentInfo"],
        title: "CMS",
        rows: &[
            ("contentType", "type", IDENTIFIER),
            (
                "content.SignedData.encapContentInfo.eContentType",
                "content",
                IDENTIFIER,
            ),
            (
                "content.SignedData.encapContentInfo.eContent.OCTET STRING CONTAINING TSTInfo.TSTInfo.genTime",
                "time",
                TIME,
            ),
            (
                "content.SignedData.signerInfos.SignerInfo",
                "signer",
                SIGNER,
            ),
            (
                "content.EnvelopedData.recipientInfos.ktri",
                "recipient",
                RECIPIENT,
            ),
            (
                "content.EnvelopedData.recipientInfos.kari",
                "recipient",
                AGREED,
            ),
            (
                "content.EnvelopedData.recipientInfos.pwri",
                "recipient",
                PASSWORD,
            ),
            (
                "content.EnvelopedData.recipientInfos.kekri",
                "recipient",
                KEY_HOLDER,
            ),
            (
                "content.AuthEnvelopedData.recipientInfos.ktri",
                "recipient",
                RECIPIENT,
            ),
            (
                "content.AuthEnvelopedData.recipientInfos.kari",
                "recipient",
                AGREED,
            ),
            (
                "content.AuthEnvelopedData.recipientInfos.pwri",
                "recipient",
                PASSWORD,
            ),
            (
                "content.AuthEnvelopedData.recipientInfos.kekri",
                "recipient",
                KEY_HOLDER,
            ),
            (
                "content.EnvelopedData.encryptedContentInfo.contentEncryptionAlgorithm",
                "encryption",
                ENCRYPTION,
            ),
            (
                "content.AuthEnvelopedData.authEncryptedContentInfo.contentEncryptionAlgorithm",
                "encryption",
                ENCRYPTION,
            ),
            (
                "content.EncryptedData.encryptedContentInfo.contentEncryptionAlgorithm",
                "encryption",
                ENCRYPTION,
            ),
            ("content.DigestedData.digestAlgorithm", "digest", ALGORITHM),
            ("content.DigestedData.digest", "digest value", OCTETS),
        ],
        optional: &[
            "content",
            "time",
            "signer",
            "recipient",
            "encryption",
            "digest",
            "digest value",
        ],
        signed: None,
    },
];

const FILES: &[Form] = &[
    // RFC 5755, 4.1
    Form {
        types: &["AttributeCertificate"],
        title: "attribute certificate",
        rows: &[
            ("acinfo.holder.baseCertificateID", "holder", ISSUER_SERIAL),
            ("acinfo.holder.entityName", "holder", GENERAL_NAMES),
            ("acinfo.issuer.issuerName", "issuer", GENERAL_NAMES),
            ("acinfo.serialNumber", "serial number", NUMBER),
            (
                "acinfo.attrCertValidityPeriod.notBeforeTime",
                "not before",
                TIME,
            ),
            (
                "acinfo.attrCertValidityPeriod.notAfterTime",
                "not after",
                END,
            ),
            ("acinfo.attributes.Attribute", "attribute", ATTRIBUTE),
            SIGNATURE,
        ],
        optional: &["holder", "issuer", "attribute"],
        signed: Some("acinfo.extensions.Extension.extnValue"),
    },
    // RFC 7292, 4
    Form {
        types: &["PFX"],
        title: "PKCS #12",
        rows: &[
            (
                concat!(
                    "authSafe.content.OCTET STRING CONTAINING AuthenticatedSafe.AuthenticatedSafe.",
                    "ContentInfo.content.EncryptedData.encryptedContentInfo.",
                    "contentEncryptionAlgorithm"
                ),
                "encrypted",
                ENCRYPTION,
            ),
            (
                concat!(
                    "authSafe.content.OCTET STRING CONTAINING AuthenticatedSafe.AuthenticatedSafe.",
                    "ContentInfo.content.OCTET STRING CONTAINING SafeContents.SafeContents.SafeBag"
                ),
                "bag",
                BAG,
            ),
            ("macData", "integrity", MAC),
        ],
        optional: &["encrypted", "bag", "integrity"],
        signed: None,
    },
];

const SERVICES: &[Form] = &[
    // RFC 6960, 4.1.1
    Form {
        types: &["OCSPRequest"],
        title: "OCSP request",
        rows: &[(
            "tbsRequest.requestList.Request.reqCert",
            "certificate",
            CERT_ID,
        )],
        optional: &[],
        signed: None,
    },
    // RFC 6960, 4.2.1
    Form {
        types: &["OCSPResponse"],
        title: "OCSP response",
        rows: &[
            ("responseStatus", "status", &[("", Part::NumberName)]),
            (
                "responseBytes.ResponseBytes.response.BasicOCSPResponse.tbsResponseData.responderID",
                "responder",
                RESPONDER,
            ),
            (
                "responseBytes.ResponseBytes.response.BasicOCSPResponse.tbsResponseData.producedAt",
                "produced",
                TIME,
            ),
            (
                "responseBytes.ResponseBytes.response.BasicOCSPResponse.tbsResponseData.responses.SingleResponse",
                "certificate",
                SINGLE_RESPONSE,
            ),
            (
                "responseBytes.ResponseBytes.response.BasicOCSPResponse.signatureAlgorithm",
                "signature",
                ALGORITHM,
            ),
        ],
        optional: &["responder", "produced", "certificate", "signature"],
        signed: None,
    },
    // RFC 3161, 2.4.1
    Form {
        types: &["TimeStampReq"],
        title: "time stamp request",
        rows: &[
            ("messageImprint", "imprint", IMPRINT),
            ("reqPolicy", "policy", IDENTIFIER),
            ("nonce", "nonce", NUMBER),
        ],
        optional: &["policy", "nonce"],
        signed: None,
    },
    // RFC 3161, 2.4.2
    Form {
        types: &["TimeStampResp"],
        title: "time stamp response",
        rows: &[
            ("status.status", "status", &[("", Part::NumberName)]),
            (
                "status.statusString.UTF8String",
                "reason",
                &[("", Part::Characters)],
            ),
            ("status.failInfo", "failure", &[("", Part::Bits)]),
            (
                concat!(
                    "timeStampToken.content.SignedData.encapContentInfo.eContent.",
                    "OCTET STRING CONTAINING TSTInfo.TSTInfo.genTime"
                ),
                "time",
                TIME,
            ),
            (
                concat!(
                    "timeStampToken.content.SignedData.encapContentInfo.eContent.",
                    "OCTET STRING CONTAINING TSTInfo.TSTInfo.messageImprint"
                ),
                "imprint",
                IMPRINT,
            ),
            (
                concat!(
                    "timeStampToken.content.SignedData.encapContentInfo.eContent.",
                    "OCTET STRING CONTAINING TSTInfo.TSTInfo.policy"
                ),
                "policy",
                IDENTIFIER,
            ),
            (
                concat!(
                    "timeStampToken.content.SignedData.encapContentInfo.eContent.",
                    "OCTET STRING CONTAINING TSTInfo.TSTInfo.serialNumber"
                ),
                "serial number",
                NUMBER,
            ),
            (
                concat!(
                    "timeStampToken.content.SignedData.encapContentInfo.eContent.",
                    "OCTET STRING CONTAINING TSTInfo.TSTInfo.nonce"
                ),
                "nonce",
                NUMBER,
            ),
            (
                "timeStampToken.content.SignedData.signerInfos.SignerInfo",
                "signer",
                SIGNER,
            ),
        ],
        optional: &[
            "reason",
            "failure",
            "time",
            "imprint",
            "policy",
            "serial number",
            "nonce",
            "signer",
        ],
        signed: None,
    },
];

const PARAMETERS: &[Form] = &[
    // the `keygen` of HTML 4 and of browsers
    Form {
        types: &["SignedPublicKeyAndChallenge"],
        title: "signed public key and challenge",
        rows: &[
            ("publicKeyAndChallenge.spki", "public key", KEY),
            (
                "publicKeyAndChallenge.challenge",
                "challenge",
                &[("", Part::Characters)],
            ),
            SIGNATURE,
        ],
        optional: &["challenge"],
        signed: None,
    },
    // RFC 8017, appendix A.1.1
    Form {
        types: &["RSAPublicKey"],
        title: "public key",
        rows: &[("", "key", &[("modulus", Part::Modulus)])],
        optional: &[],
        signed: None,
    },
    // as OpenSSL writes it, in no RFC
    Form {
        types: &["DSAPrivateKey"],
        title: "private key",
        rows: &[("", "key", &[("", Part::Text("DSA")), ("p", Part::Size)])],
        optional: &[],
        signed: None,
    },
    // PKCS #3, 9; RFC 3279, 2.3.2 and 2.3.3
    Form {
        types: &["DHParameter"],
        title: "parameters",
        rows: &[("", "kind", &[("", Part::Text("DH")), ("prime", Part::Size)])],
        optional: &[],
        signed: None,
    },
    Form {
        types: &["DomainParameters"],
        title: "parameters",
        rows: &[("", "kind", &[("", Part::Text("DH")), ("p", Part::Size)])],
        optional: &[],
        signed: None,
    },
    Form {
        types: &["Dss-Parms"],
        title: "parameters",
        rows: &[("", "kind", &[("", Part::Text("DSA")), ("p", Part::Size)])],
        optional: &[],
        signed: None,
    },
    // RFC 5480, 2.1.1
    Form {
        types: &["ECParameters"],
        title: "parameters",
        rows: &[("", "kind", EC_PARAMETERS)],
        optional: &[],
        signed: None,
    },
];

const IDENTIFIER: Parts = &[("", Part::Identifier)];

const OCTETS: Parts = &[("", Part::Octets(""))];

// RFC 5652, 5.3
const SIGNER: Parts = &[
    ("", Part::Text("")),
    ("sid", Part::Octets("key ")),
    ("sid.issuer.RelativeDistinguishedName", Part::RelativeName),
    (
        "sid.issuer.RelativeDistinguishedName.AttributeTypeAndValue.type",
        Part::AttributeType,
    ),
    (
        "sid.issuer.RelativeDistinguishedName.AttributeTypeAndValue.value",
        Part::AttributeValue,
    ),
    ("sid.serialNumber", Part::Serial),
    ("digestAlgorithm.algorithm", Part::Item),
    (
        "signedAttrs.Attribute.attrValues.utcTime",
        Part::Moment("signed "),
    ),
    (
        "signedAttrs.Attribute.attrValues.generalTime",
        Part::Moment("signed "),
    ),
    ("signatureAlgorithm.algorithm", Part::Item),
];

// RFC 5652, 6.2.1
const RECIPIENT: Parts = &[
    ("", Part::Text("")),
    ("rid", Part::Octets("key ")),
    ("rid.issuer.RelativeDistinguishedName", Part::RelativeName),
    (
        "rid.issuer.RelativeDistinguishedName.AttributeTypeAndValue.type",
        Part::AttributeType,
    ),
    (
        "rid.issuer.RelativeDistinguishedName.AttributeTypeAndValue.value",
        Part::AttributeValue,
    ),
    ("rid.serialNumber", Part::Serial),
    ("keyEncryptionAlgorithm.algorithm", Part::Item),
];

// RFC 5652, 6.2.2
const AGREED: Parts = &[
    ("", Part::Text("")),
    ("keyEncryptionAlgorithm.algorithm", Part::Item),
    (
        "recipientEncryptedKeys.RecipientEncryptedKey.rid",
        Part::Octets("key "),
    ),
    (
        "recipientEncryptedKeys.RecipientEncryptedKey.rid.issuer.RelativeDistinguishedName",
        Part::RelativeName,
    ),
    (
        concat!(
            "recipientEncryptedKeys.RecipientEncryptedKey.rid.issuer.",
            "RelativeDistinguishedName.AttributeTypeAndValue.type"
        ),
        Part::AttributeType,
    ),
    (
        concat!(
            "recipientEncryptedKeys.RecipientEncryptedKey.rid.issuer.",
            "RelativeDistinguishedName.AttributeTypeAndValue.value"
        ),
        Part::AttributeValue,
    ),
    (
        "recipientEncryptedKeys.RecipientEncryptedKey.rid.serialNumber",
        Part::Serial,
    ),
];

// RFC 5652, 6.2.3
const KEY_HOLDER: Parts = &[
    ("", Part::Text("")),
    ("kekid.keyIdentifier", Part::Octets("key ")),
    ("keyEncryptionAlgorithm.algorithm", Part::Item),
];

// RFC 5652, 6.2.4
const PASSWORD: Parts = &[
    ("", Part::Text("password")),
    ("keyDerivationAlgorithm.algorithm", Part::Item),
    (
        "keyDerivationAlgorithm.parameters.iterationCount",
        Part::Amount("", " iterations"),
    ),
    ("keyEncryptionAlgorithm.algorithm", Part::Item),
];

// RFC 8018, appendices A.3 and A.4; RFC 7914, 7
pub const ENCRYPTION: Parts = &[
    ("", Part::Text("")),
    ("algorithm", Part::Item),
    ("parameters.iterations", Part::Amount("", " iterations")),
    ("parameters.iterationCount", Part::Amount("", " iterations")),
    ("parameters.keyDerivationFunc.algorithm", Part::Item),
    (
        "parameters.keyDerivationFunc.parameters.iterationCount",
        Part::Amount("", " iterations"),
    ),
    (
        "parameters.keyDerivationFunc.parameters.prf.algorithm",
        Part::Item,
    ),
    (
        "parameters.keyDerivationFunc.parameters.costParameter",
        Part::Amount("N ", ""),
    ),
    (
        "parameters.keyDerivationFunc.parameters.blockSize",
        Part::Amount("r ", ""),
    ),
    (
        "parameters.keyDerivationFunc.parameters.parallelizationParameter",
        Part::Amount("p ", ""),
    ),
    ("parameters.encryptionScheme.algorithm", Part::Item),
];

// RFC 5755, 4.1
const ISSUER_SERIAL: Parts = &[
    ("", Part::Text("")),
    ("issuer.directoryName", Part::GeneralName("DirName:")),
    (
        "issuer.directoryName.Name.RelativeDistinguishedName",
        Part::RelativeName,
    ),
    (
        "issuer.directoryName.Name.RelativeDistinguishedName.AttributeTypeAndValue.type",
        Part::AttributeType,
    ),
    (
        "issuer.directoryName.Name.RelativeDistinguishedName.AttributeTypeAndValue.value",
        Part::AttributeValue,
    ),
    ("serial", Part::Serial),
];

// RFC 7292, 4.2
const BAG: Parts = &[
    ("", Part::Text("")),
    ("bagId", Part::Item),
    (
        "bagValue.PKCS8ShroudedKeyBag.encryptionAlgorithm.algorithm",
        Part::Item,
    ),
    (
        "bagValue.PKCS8ShroudedKeyBag.encryptionAlgorithm.parameters.iterations",
        Part::Amount("", " iterations"),
    ),
    (
        "bagValue.PKCS8ShroudedKeyBag.encryptionAlgorithm.parameters.keyDerivationFunc.algorithm",
        Part::Item,
    ),
    (
        "bagValue.PKCS8ShroudedKeyBag.encryptionAlgorithm.parameters.keyDerivationFunc.parameters.iterationCount",
        Part::Amount("", " iterations"),
    ),
    (
        "bagValue.PKCS8ShroudedKeyBag.encryptionAlgorithm.parameters.encryptionScheme.algorithm",
        Part::Item,
    ),
    (
        "bagValue.CertBag.certValue.OCTET STRING CONTAINING Certificate.Certificate",
        Part::Inside,
    ),
    (
        "bagValue.CRLBag.crlValue.OCTET STRING CONTAINING CertificateList.CertificateList",
        Part::Inside,
    ),
    (
        "bagAttributes.PKCS12Attribute.attrValues.BMPString",
        Part::Characters,
    ),
];

// RFC 7292, 4
const MAC: Parts = &[
    ("", Part::Text("")),
    ("mac.digestAlgorithm.algorithm", Part::Item),
    ("iterations", Part::Amount("", " iterations")),
];

// RFC 6960, 4.1.1
const CERT_ID: Parts = &[
    ("", Part::Text("")),
    ("serialNumber", Part::Serial),
    ("issuerKeyHash", Part::Octets("key of its issuer ")),
];

// RFC 6960, 4.2.1
const RESPONDER: Parts = &[
    ("", Part::Text("")),
    ("KeyHash", Part::Octets("key ")),
    ("Name.RelativeDistinguishedName", Part::RelativeName),
    (
        "Name.RelativeDistinguishedName.AttributeTypeAndValue.type",
        Part::AttributeType,
    ),
    (
        "Name.RelativeDistinguishedName.AttributeTypeAndValue.value",
        Part::AttributeValue,
    ),
];

// RFC 6960, 4.2.1
const SINGLE_RESPONSE: Parts = &[
    ("", Part::Text("")),
    ("certID.serialNumber", Part::Serial),
    ("certStatus", Part::Alternative),
    ("certStatus.revocationTime", Part::Moment("")),
    ("certStatus.revocationReason.CRLReason", Part::NumberName),
    ("thisUpdate", Part::Moment("this update ")),
    ("nextUpdate.GeneralizedTime", Part::Moment("next update ")),
];

// RFC 3161, 2.4.1
const IMPRINT: Parts = &[
    ("", Part::Text("")),
    ("hashAlgorithm.algorithm", Part::Item),
    ("hashedMessage", Part::Octets("")),
];

// RFC 3279, 2.3.5
const EC_PARAMETERS: Parts = &[
    ("", Part::Curve),
    ("version", Part::Text("EC")),
    ("fieldID.fieldType", Part::Item),
    ("order", Part::Size),
];
