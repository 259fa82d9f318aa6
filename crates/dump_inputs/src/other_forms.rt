// What an input that is not read may be, by the octets with which it begins.

// How forms that people take for DER begin, and what is said of them.
const OTHER_FORMS: [(&[u8], &str); 12] = [
    // the magic numbers of java.security.KeyStore
    (
        b"\xFE\xED\xFE\xED",
        "a Java keystore (JKS): keytool -exportcert -rfc writes a certificate of it",
    ),
    (
        b"\xCE\xCE\xCE\xCE",
        "a Java keystore (JCEKS): keytool -exportcert -rfc writes a certificate of it",
    ),
    // RFC 1952, section 2.3.1
    (
        b"\x1F\x8B\x08",
        "compressed by gzip: gunzip writes what it has",
    ),
    // the local file header of APPNOTE.TXT, 4.3.7
    (b"PK\x03\x04", "a zip archive: unzip -p writes what it has"),
    // RFC 4253, section 6.6, and RFC 5656, section 3.1, as files of OpenSSH have them
    (
        b"ssh-rsa ",
        "a public key of OpenSSH: ssh-keygen -e -m PKCS8 writes it as PEM",
    ),
    (
        b"ssh-dss ",
        "a public key of OpenSSH: ssh-keygen -e -m PKCS8 writes it as PEM",
    ),
    (
        b"ecdsa-sha2-",
        "a public key of OpenSSH: ssh-keygen -e -m PKCS8 writes it as PEM",
    ),
    (b"ssh-ed25519 ", "a public key of OpenSSH"),
    // RFC 9580, section 6.2
    (
        b"-----BEGIN PGP ",
        "a text of OpenPGP: gpg --list-packets shows what it has",
    ),
    // `{\"` in base64url, as RFC 7515 (section 7.1) has a header
    (
        b"eyJ",
        "a JSON Web Token, or another text of JOSE: each part is base64url",
    ),
    // the tags of COSE_Sign1 and COSE_Sign, and an array of four (RFC 9052, sections 2 and 4)
    (b"\xD2\x84", "a message of COSE, in CBOR"),
    (b"\xD8\x62\x84", "a message of COSE, in CBOR"),
];

// What octets may be, if they begin as another form does.
pub fn other_form(octets: &[u8]) -> Option<&'static str> {
    let mut forms = OTHER_FORMS.iter();
    let (_, form) = forms.find(|(front, _)| octets.starts_with(front))?;
    Some(*form)
}
