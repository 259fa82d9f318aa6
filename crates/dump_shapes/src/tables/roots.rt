// Which shape a document has.

// The shape of what stands behind a label: first the shape, then the label (RFC 7468; those of OpenSSL and of gpgsm).
pub const LABELS: &str = "\
Certificate CERTIFICATE
Certificate X509 CERTIFICATE
Certificate TRUSTED CERTIFICATE
CertificateList X509 CRL
CertificationRequest CERTIFICATE REQUEST
CertificationRequest NEW CERTIFICATE REQUEST
AttributeCertificate ATTRIBUTE CERTIFICATE
ContentInfo CMS
ContentInfo PKCS7
ContentInfo PKCS #7 SIGNED DATA
ContentInfo SIGNED MESSAGE
ContentInfo ENCRYPTED MESSAGE
OneAsymmetricKey PRIVATE KEY
EncryptedPrivateKeyInfo ENCRYPTED PRIVATE KEY
SubjectPublicKeyInfo PUBLIC KEY
RSAPrivateKey RSA PRIVATE KEY
RSAPublicKey RSA PUBLIC KEY
ECPrivateKey EC PRIVATE KEY
ECParameters EC PARAMETERS
DSAPrivateKey DSA PRIVATE KEY
Dss-Parms DSA PARAMETERS
DHParameter DH PARAMETERS
DomainParameters X9.42 DH PARAMETERS";

// The shapes that may fit a document, in the order in which they are tried: the shape, down to which depth each field
// that has to be there is looked for, and how many elements there are at least down to that depth. Shapes of a few
// numbers, such as RSAPublicKey, are not tried: too much else looks like them.
pub const FITS: [(&str, usize, usize); 23] = [
    ("Certificate", 2, 11),
    ("CertificateList", 2, 8),
    ("CertificationRequest", 2, 9),
    ("AttributeCertificate", 2, 12),
    ("PrivateKeyInfo", 2, 5),
    ("OneAsymmetricKey", 2, 6),
    ("EncryptedPrivateKeyInfo", 3, 7),
    ("SubjectPublicKeyInfo", 2, 4),
    ("SignedPublicKeyAndChallenge", 3, 9),
    ("RSAPrivateKey", 1, 10),
    ("ECPrivateKey", 2, 4),
    ("PFX", 3, 6),
    ("ContentInfo", 3, 4),
    ("OCSPRequest", 5, 9),
    ("OCSPResponse", 3, 2),
    ("TimeStampReq", 3, 6),
    ("TimeStampResp", 3, 4),
    ("LDAPMessage", 2, 3),
    ("SNMP.Message", 2, 8),
    ("SNMPv3Message", 2, 9),
    ("KerberosMessage", 3, 6),
    ("PKIMessage", 3, 6),
    ("GSSAPI-Token", 3, 4),
];
