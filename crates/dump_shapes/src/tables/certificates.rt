// Certificates, revocation lists and certification requests.
pub const TABLE: &str = "\
-- RFC 5280, 4.1
Certificate ::= SEQUENCE
  tbsCertificate TBSCertificate
  signatureAlgorithm AlgorithmIdentifier
  signatureValue BIT STRING CONTAINING SignatureValue
BIT STRING CONTAINING SignatureValue
TBSCertificate ::= SEQUENCE
  version [0] EXPLICIT Version OPTIONAL
  serialNumber CertificateSerialNumber
  signature AlgorithmIdentifier
  issuer Name
  validity Validity
  subject Name
  subjectPublicKeyInfo SubjectPublicKeyInfo
  issuerUniqueID [1] UniqueIdentifier OPTIONAL
  subjectUniqueID [2] UniqueIdentifier OPTIONAL
  extensions [3] EXPLICIT Extensions OPTIONAL
Version ::= INTEGER CLOSED
  0 v1
  1 v2
  2 v3
CertificateSerialNumber ::= INTEGER
Validity ::= SEQUENCE
  notBefore Time
  notAfter Time
UniqueIdentifier ::= BIT STRING
Extensions ::= SEQUENCE OF Extension
Extension ::= SEQUENCE
  extnID OBJECT IDENTIFIER
  critical BOOLEAN OPTIONAL
  extnValue OCTET STRING CONTAINING ExtensionValue
OCTET STRING CONTAINING ExtensionValue

-- RFC 5280, 4.1.1.2 and 4.1.2.7
AlgorithmIdentifier ::= SEQUENCE
  algorithm OBJECT IDENTIFIER
  parameters AlgorithmParameters OPTIONAL
SubjectPublicKeyInfo ::= SEQUENCE
  algorithm AlgorithmIdentifier
  subjectPublicKey BIT STRING CONTAINING PublicKey
BIT STRING CONTAINING PublicKey

-- RFC 5280, 4.1.2.4 and appendix A.1
Name ::= SEQUENCE OF RelativeDistinguishedName
RelativeDistinguishedName ::= SET OF AttributeTypeAndValue
AttributeTypeAndValue ::= SEQUENCE
  type AttributeType
  value AttributeValue
AttributeType ::= OBJECT IDENTIFIER
Attribute ::= SEQUENCE
  type AttributeType
  values SET OF AttributeValue
SET OF AttributeValue
SEQUENCE OF Attribute

-- RFC 2985, 5.4 and 5.5; RFC 5652, 11; RFC 5035, 3 and 4; RFC 3161, appendix A; RFC 6211; Microsoft
AttributeValue ::= OPEN
  1.2.840.113549.1.9.3 ContentType
  1.2.840.113549.1.9.4 MessageDigest
  1.2.840.113549.1.9.5 SigningTime
  1.2.840.113549.1.9.6 SignerInfo
  1.2.840.113549.1.9.7 DirectoryString
  1.2.840.113549.1.9.14 Extensions
  1.2.840.113549.1.9.15 SMIMECapabilities
  1.2.840.113549.1.9.16.2.12 SigningCertificate
  1.2.840.113549.1.9.16.2.14 ContentInfo
  1.2.840.113549.1.9.16.2.47 SigningCertificateV2
  1.2.840.113549.1.9.20 BMPString
  1.2.840.113549.1.9.21 OCTET STRING
  1.2.840.113549.1.9.52 CMSAlgorithmProtection
  1.3.6.1.4.1.311.2.1.11 SpcStatementType
  1.3.6.1.4.1.311.2.1.12 SpcSpOpusInfo
  1.3.6.1.4.1.311.2.1.14 Extensions
  1.3.6.1.4.1.311.2.4.1 ContentInfo
  1.3.6.1.4.1.311.3.3.1 ContentInfo
  1.3.6.1.4.1.311.17.1 BMPString

-- RFC 5280, 5.1
CertificateList ::= SEQUENCE
  tbsCertList TBSCertList
  signatureAlgorithm AlgorithmIdentifier
  signatureValue BIT STRING CONTAINING SignatureValue
TBSCertList ::= SEQUENCE
  version Version OPTIONAL
  signature AlgorithmIdentifier
  issuer Name
  thisUpdate Time
  nextUpdate Time OPTIONAL
  revokedCertificates SEQUENCE OF RevokedCertificate OPTIONAL
  crlExtensions [0] EXPLICIT Extensions OPTIONAL
SEQUENCE OF RevokedCertificate
RevokedCertificate ::= SEQUENCE
  userCertificate CertificateSerialNumber
  revocationDate Time
  crlEntryExtensions Extensions OPTIONAL

-- RFC 2986, 4
CertificationRequest ::= SEQUENCE
  certificationRequestInfo CertificationRequestInfo
  signatureAlgorithm AlgorithmIdentifier
  signature Held.BIT STRING
CertificationRequestInfo ::= SEQUENCE
  version PKCS10.Version
  subject Name
  subjectPKInfo SubjectPublicKeyInfo
  attributes [0] Attributes
PKCS10.Version ::= INTEGER CLOSED
  0 v1
Attributes ::= SET OF Attribute

-- RFC 5755, 4.1
AttributeCertificate ::= SEQUENCE
  acinfo AttributeCertificateInfo
  signatureAlgorithm AlgorithmIdentifier
  signatureValue Held.BIT STRING
AttributeCertificateInfo ::= SEQUENCE
  version AttCertVersion
  holder Holder
  issuer AttCertIssuer
  signature AlgorithmIdentifier
  serialNumber CertificateSerialNumber
  attrCertValidityPeriod AttCertValidityPeriod
  attributes SEQUENCE OF Attribute
  issuerUniqueID UniqueIdentifier OPTIONAL
  extensions Extensions OPTIONAL
AttCertVersion ::= INTEGER CLOSED
  1 v2
Holder ::= SEQUENCE
  baseCertificateID [0] IssuerSerial OPTIONAL
  entityName [1] GeneralNames OPTIONAL
  objectDigestInfo [2] ObjectDigestInfo OPTIONAL
ObjectDigestInfo ::= SEQUENCE
  digestedObjectType DigestedObjectType
  otherObjectTypeID OBJECT IDENTIFIER OPTIONAL
  digestAlgorithm AlgorithmIdentifier
  objectDigest BIT STRING
DigestedObjectType ::= ENUMERATED
  0 publicKey
  1 publicKeyCert
  2 otherObjectTypes
AttCertIssuer ::= CHOICE
  v1Form GeneralNames
  v2Form [0] V2Form
V2Form ::= SEQUENCE
  issuerName GeneralNames OPTIONAL
  baseCertificateID [0] IssuerSerial OPTIONAL
  objectDigestInfo [1] ObjectDigestInfo OPTIONAL
IssuerSerial ::= SEQUENCE
  issuer GeneralNames
  serial CertificateSerialNumber
  issuerUID UniqueIdentifier OPTIONAL
AttCertValidityPeriod ::= SEQUENCE
  notBeforeTime GeneralizedTime
  notAfterTime GeneralizedTime
";
