// The Cryptographic Message Syntax.
pub const TABLE: &str = "\
-- RFC 5652, 3 and 4; RFC 5083, 2; RFC 3274, 1.1
ContentInfo ::= SEQUENCE
  contentType ContentType
  content [0] EXPLICIT Content OPTIONAL
ContentType ::= OBJECT IDENTIFIER
Content ::= KNOWN
  1.2.840.113549.1.7.1 Held.OCTET STRING
  1.2.840.113549.1.7.2 SignedData
  1.2.840.113549.1.7.3 EnvelopedData
  1.2.840.113549.1.7.5 DigestedData
  1.2.840.113549.1.7.6 EncryptedData
  1.2.840.113549.1.9.16.1.2 AuthenticatedData
  1.2.840.113549.1.9.16.1.9 CompressedData
  1.2.840.113549.1.9.16.1.23 AuthEnvelopedData
CMSVersion ::= INTEGER CLOSED
  0 v0
  1 v1
  2 v2
  3 v3
  4 v4
  5 v5
DigestAlgorithmIdentifiers ::= SET OF AlgorithmIdentifier

-- RFC 5652, 5.1 and 5.2
SignedData ::= SEQUENCE
  version CMSVersion
  digestAlgorithms DigestAlgorithmIdentifiers
  encapContentInfo EncapsulatedContentInfo
  certificates [0] CertificateSet OPTIONAL
  crls [1] RevocationInfoChoices OPTIONAL
  signerInfos SignerInfos
EncapsulatedContentInfo ::= SEQUENCE
  eContentType ContentType
  eContent [0] EXPLICIT EncapsulatedContent OPTIONAL
-- RFC 3161, 2.4.2; ICAO Doc 9303, part 10; RFC 2315, 7, by which Authenticode has no OCTET STRING here
EncapsulatedContent ::= KNOWN
  1.2.840.113549.1.7.1 Held.OCTET STRING
  1.2.840.113549.1.9.16.1.4 OCTET STRING CONTAINING TSTInfo
  1.3.6.1.4.1.311.2.1.4 SpcIndirectDataContent
  2.23.136.1.1.1 OCTET STRING CONTAINING LDSSecurityObject
OCTET STRING CONTAINING TSTInfo
OCTET STRING CONTAINING LDSSecurityObject

-- RFC 5652, 5.3
SignerInfos ::= SET OF SignerInfo
SignerInfo ::= SEQUENCE
  version CMSVersion
  sid SignerIdentifier
  digestAlgorithm AlgorithmIdentifier
  signedAttrs [0] SignedAttributes OPTIONAL
  signatureAlgorithm AlgorithmIdentifier
  signature CMS.SignatureValue
  unsignedAttrs [1] UnsignedAttributes OPTIONAL
SignerIdentifier ::= CHOICE
  issuerAndSerialNumber IssuerAndSerialNumber
  subjectKeyIdentifier [0] SubjectKeyIdentifier
SignedAttributes ::= SET OF CMS.Attribute
UnsignedAttributes ::= SET OF CMS.Attribute
CMS.SignatureValue ::= OCTET STRING HOLDING
CMS.Attribute ::= SEQUENCE
  attrType OBJECT IDENTIFIER
  attrValues SET OF AttributeValue
IssuerAndSerialNumber ::= SEQUENCE
  issuer Name
  serialNumber CertificateSerialNumber

-- RFC 5652, 6.1
EnvelopedData ::= SEQUENCE
  version CMSVersion
  originatorInfo [0] OriginatorInfo OPTIONAL
  recipientInfos RecipientInfos
  encryptedContentInfo EncryptedContentInfo
  unprotectedAttrs [1] UnprotectedAttributes OPTIONAL
OriginatorInfo ::= SEQUENCE
  certs [0] CertificateSet OPTIONAL
  crls [1] RevocationInfoChoices OPTIONAL
EncryptedContentInfo ::= SEQUENCE
  contentType ContentType
  contentEncryptionAlgorithm AlgorithmIdentifier
  encryptedContent [0] EncryptedContent OPTIONAL
EncryptedContent ::= OCTET STRING
UnprotectedAttributes ::= SET OF CMS.Attribute

-- RFC 5652, 6.2
RecipientInfos ::= SET OF RecipientInfo
RecipientInfo ::= CHOICE
  ktri KeyTransRecipientInfo
  kari [1] KeyAgreeRecipientInfo
  kekri [2] KEKRecipientInfo
  pwri [3] PasswordRecipientInfo
  ori [4] OtherRecipientInfo
EncryptedKey ::= OCTET STRING
KeyTransRecipientInfo ::= SEQUENCE
  version CMSVersion
  rid RecipientIdentifier
  keyEncryptionAlgorithm AlgorithmIdentifier
  encryptedKey EncryptedKey
RecipientIdentifier ::= CHOICE
  issuerAndSerialNumber IssuerAndSerialNumber
  subjectKeyIdentifier [0] SubjectKeyIdentifier
KeyAgreeRecipientInfo ::= SEQUENCE
  version CMSVersion
  originator [0] EXPLICIT OriginatorIdentifierOrKey
  ukm [1] EXPLICIT UserKeyingMaterial OPTIONAL
  keyEncryptionAlgorithm AlgorithmIdentifier
  recipientEncryptedKeys RecipientEncryptedKeys
OriginatorIdentifierOrKey ::= CHOICE
  issuerAndSerialNumber IssuerAndSerialNumber
  subjectKeyIdentifier [0] SubjectKeyIdentifier
  originatorKey [1] OriginatorPublicKey
OriginatorPublicKey ::= SEQUENCE
  algorithm AlgorithmIdentifier
  publicKey Held.BIT STRING
UserKeyingMaterial ::= OCTET STRING
RecipientEncryptedKeys ::= SEQUENCE OF RecipientEncryptedKey
RecipientEncryptedKey ::= SEQUENCE
  rid KeyAgreeRecipientIdentifier
  encryptedKey EncryptedKey
KeyAgreeRecipientIdentifier ::= CHOICE
  issuerAndSerialNumber IssuerAndSerialNumber
  rKeyId [0] RecipientKeyIdentifier
RecipientKeyIdentifier ::= SEQUENCE
  subjectKeyIdentifier SubjectKeyIdentifier
  date GeneralizedTime OPTIONAL
  other OtherKeyAttribute OPTIONAL
OtherKeyAttribute ::= SEQUENCE
  keyAttrId OBJECT IDENTIFIER
  keyAttr ANY OPTIONAL
KEKRecipientInfo ::= SEQUENCE
  version CMSVersion
  kekid KEKIdentifier
  keyEncryptionAlgorithm AlgorithmIdentifier
  encryptedKey EncryptedKey
KEKIdentifier ::= SEQUENCE
  keyIdentifier OCTET STRING
  date GeneralizedTime OPTIONAL
  other OtherKeyAttribute OPTIONAL
PasswordRecipientInfo ::= SEQUENCE
  version CMSVersion
  keyDerivationAlgorithm [0] AlgorithmIdentifier OPTIONAL
  keyEncryptionAlgorithm AlgorithmIdentifier
  encryptedKey EncryptedKey
OtherRecipientInfo ::= SEQUENCE
  oriType OBJECT IDENTIFIER
  oriValue ANY

-- RFC 5652, 7 to 9; RFC 5083, 2.1; RFC 3274, 1.1
DigestedData ::= SEQUENCE
  version CMSVersion
  digestAlgorithm AlgorithmIdentifier
  encapContentInfo EncapsulatedContentInfo
  digest OCTET STRING
EncryptedData ::= SEQUENCE
  version CMSVersion
  encryptedContentInfo EncryptedContentInfo
  unprotectedAttrs [1] UnprotectedAttributes OPTIONAL
AuthenticatedData ::= SEQUENCE
  version CMSVersion
  originatorInfo [0] OriginatorInfo OPTIONAL
  recipientInfos RecipientInfos
  macAlgorithm AlgorithmIdentifier
  digestAlgorithm [1] AlgorithmIdentifier OPTIONAL
  encapContentInfo EncapsulatedContentInfo
  authAttrs [2] AuthAttributes OPTIONAL
  mac MessageAuthenticationCode
  unauthAttrs [3] UnauthAttributes OPTIONAL
AuthAttributes ::= SET OF CMS.Attribute
UnauthAttributes ::= SET OF CMS.Attribute
MessageAuthenticationCode ::= OCTET STRING
AuthEnvelopedData ::= SEQUENCE
  version CMSVersion
  originatorInfo [0] OriginatorInfo OPTIONAL
  recipientInfos RecipientInfos
  authEncryptedContentInfo EncryptedContentInfo
  authAttrs [1] AuthAttributes OPTIONAL
  mac MessageAuthenticationCode
  unauthAttrs [2] UnauthAttributes OPTIONAL
CompressedData ::= SEQUENCE
  version CMSVersion
  compressionAlgorithm AlgorithmIdentifier
  encapContentInfo EncapsulatedContentInfo

-- RFC 5652, 10.2
CertificateSet ::= SET OF CertificateChoices
CertificateChoices ::= CHOICE
  certificate Certificate
  extendedCertificate [0] ANY
  v1AttrCert [1] ANY
  v2AttrCert [2] AttributeCertificate
  other [3] OtherCertificateFormat
OtherCertificateFormat ::= SEQUENCE
  otherCertFormat OBJECT IDENTIFIER
  otherCert ANY
RevocationInfoChoices ::= SET OF RevocationInfoChoice
RevocationInfoChoice ::= CHOICE
  crl CertificateList
  other [1] OtherRevocationInfoFormat
OtherRevocationInfoFormat ::= SEQUENCE
  otherRevInfoFormat OBJECT IDENTIFIER
  otherRevInfo OtherRevocationInfo
-- RFC 5940, 2.1
OtherRevocationInfo ::= OPEN
  1.3.6.1.5.5.7.16.2 OCSPResponse

-- RFC 5652, 11; RFC 6211, 2; RFC 2634, 5.4; RFC 5035, 3
MessageDigest ::= OCTET STRING
SigningTime ::= CHOICE
  utcTime UTCTime
  generalTime GeneralizedTime
CMSAlgorithmProtection ::= SEQUENCE
  digestAlgorithm AlgorithmIdentifier
  signatureAlgorithm [1] AlgorithmIdentifier OPTIONAL
  macAlgorithm [2] AlgorithmIdentifier OPTIONAL
SigningCertificate ::= SEQUENCE
  certs SEQUENCE OF ESSCertID
  policies SEQUENCE OF PolicyInformation OPTIONAL
SEQUENCE OF ESSCertID
SEQUENCE OF PolicyInformation
ESSCertID ::= SEQUENCE
  certHash OCTET STRING
  issuerSerial ESS.IssuerSerial OPTIONAL
ESS.IssuerSerial ::= SEQUENCE
  issuer GeneralNames
  serialNumber CertificateSerialNumber
SigningCertificateV2 ::= SEQUENCE
  certs SEQUENCE OF ESSCertIDv2
  policies SEQUENCE OF PolicyInformation OPTIONAL
SEQUENCE OF ESSCertIDv2
ESSCertIDv2 ::= SEQUENCE
  hashAlgorithm AlgorithmIdentifier OPTIONAL
  certHash OCTET STRING
  issuerSerial ESS.IssuerSerial OPTIONAL
";
