// Files of keys and certificates.
pub const TABLE: &str = "\
-- RFC 7292, 4 and 4.1
PFX ::= SEQUENCE
  version PFX.Version
  authSafe PFX.ContentInfo
  macData MacData OPTIONAL
PFX.Version ::= INTEGER CLOSED
  3 v3
PFX.ContentInfo ::= SEQUENCE
  contentType ContentType
  content [0] EXPLICIT PFX.Content OPTIONAL
PFX.Content ::= KNOWN
  1.2.840.113549.1.7.1 OCTET STRING CONTAINING AuthenticatedSafe
  1.2.840.113549.1.7.2 SignedData
OCTET STRING CONTAINING AuthenticatedSafe
MacData ::= SEQUENCE
  mac DigestInfo
  macSalt OCTET STRING
  iterations INTEGER OPTIONAL
AuthenticatedSafe ::= SEQUENCE OF Safe.ContentInfo
Safe.ContentInfo ::= SEQUENCE
  contentType ContentType
  content [0] EXPLICIT Safe.Content OPTIONAL
Safe.Content ::= OPEN
  1.2.840.113549.1.7.1 OCTET STRING CONTAINING SafeContents
  1.2.840.113549.1.7.3 EnvelopedData
  1.2.840.113549.1.7.6 EncryptedData
OCTET STRING CONTAINING SafeContents

-- RFC 7292, 4.2
SafeContents ::= SEQUENCE OF SafeBag
SafeBag ::= SEQUENCE
  bagId OBJECT IDENTIFIER
  bagValue [0] EXPLICIT BagValue
  bagAttributes SET OF PKCS12Attribute OPTIONAL
SET OF PKCS12Attribute
PKCS12Attribute ::= SEQUENCE
  attrId OBJECT IDENTIFIER
  attrValues SET OF AttributeValue
BagValue ::= OPEN
  1.2.840.113549.1.12.10.1.1 KeyBag
  1.2.840.113549.1.12.10.1.2 PKCS8ShroudedKeyBag
  1.2.840.113549.1.12.10.1.3 CertBag
  1.2.840.113549.1.12.10.1.4 CRLBag
  1.2.840.113549.1.12.10.1.5 SecretBag
  1.2.840.113549.1.12.10.1.6 SafeContents
KeyBag ::= SEQUENCE
  version PKCS8.Version
  privateKeyAlgorithm AlgorithmIdentifier
  privateKey OCTET STRING CONTAINING PrivateKey
  attributes [0] Attributes OPTIONAL
PKCS8ShroudedKeyBag ::= SEQUENCE
  encryptionAlgorithm AlgorithmIdentifier
  encryptedData OCTET STRING
CertBag ::= SEQUENCE
  certId OBJECT IDENTIFIER
  certValue [0] EXPLICIT CertValue
CertValue ::= OPEN
  1.2.840.113549.1.9.22.1 OCTET STRING CONTAINING Certificate
  1.2.840.113549.1.9.22.2 IA5String
OCTET STRING CONTAINING Certificate
CRLBag ::= SEQUENCE
  crlId OBJECT IDENTIFIER
  crlValue [0] EXPLICIT CRLValue
CRLValue ::= OPEN
  1.2.840.113549.1.9.23.1 OCTET STRING CONTAINING CertificateList
OCTET STRING CONTAINING CertificateList
SecretBag ::= SEQUENCE
  secretTypeId OBJECT IDENTIFIER
  secretValue [0] EXPLICIT ANY
";
