// Keys and the parameters of algorithms.
pub const TABLE: &str = "\
-- RFC 8017, appendix A; RFC 3279, 2.3; RFC 5480, 2.1; RFC 8018, appendix A; RFC 7914, 7; RFC 5084, 3; RFC 3565, 4;
-- RFC 4210, 5.1.3
AlgorithmParameters ::= OPEN
  1.2.840.113549.1.1.7 RSAES-OAEP-params
  1.2.840.113549.1.1.8 AlgorithmIdentifier
  1.2.840.113549.1.1.9 OCTET STRING
  1.2.840.113549.1.1.10 RSASSA-PSS-params
  1.2.840.10045.2.1 ECParameters
  1.3.132.1.12 ECParameters
  1.2.840.10040.4.1 Dss-Parms
  1.2.840.10046.2.1 DomainParameters
  1.2.840.113549.1.3.1 DHParameter
  1.2.840.113549.1.5.1 PBEParameter
  1.2.840.113549.1.5.3 PBEParameter
  1.2.840.113549.1.5.4 PBEParameter
  1.2.840.113549.1.5.6 PBEParameter
  1.2.840.113549.1.5.10 PBEParameter
  1.2.840.113549.1.5.11 PBEParameter
  1.2.840.113549.1.5.12 PBKDF2-params
  1.2.840.113549.1.5.13 PBES2-params
  1.2.840.113549.1.5.14 PBMAC1-params
  1.2.840.113549.1.12.1.1 Pkcs-12PbeParams
  1.2.840.113549.1.12.1.2 Pkcs-12PbeParams
  1.2.840.113549.1.12.1.3 Pkcs-12PbeParams
  1.2.840.113549.1.12.1.4 Pkcs-12PbeParams
  1.2.840.113549.1.12.1.5 Pkcs-12PbeParams
  1.2.840.113549.1.12.1.6 Pkcs-12PbeParams
  1.3.6.1.4.1.11591.4.11 Scrypt-params
  1.2.840.113533.7.66.13 PBMParameter
  1.2.840.113533.7.66.30 DHBMParameter
  1.2.840.113549.3.2 RC2-CBC-Parameter
  1.2.840.113549.3.7 DES-IV
  2.16.840.1.101.3.4.1.2 AES-IV
  2.16.840.1.101.3.4.1.22 AES-IV
  2.16.840.1.101.3.4.1.42 AES-IV
  2.16.840.1.101.3.4.1.6 GCMParameters
  2.16.840.1.101.3.4.1.26 GCMParameters
  2.16.840.1.101.3.4.1.46 GCMParameters
  2.16.840.1.101.3.4.1.7 CCMParameters
  2.16.840.1.101.3.4.1.27 CCMParameters
  2.16.840.1.101.3.4.1.47 CCMParameters

-- RFC 8017, appendix A.2
RSASSA-PSS-params ::= SEQUENCE
  hashAlgorithm [0] EXPLICIT AlgorithmIdentifier OPTIONAL
  maskGenAlgorithm [1] EXPLICIT AlgorithmIdentifier OPTIONAL
  saltLength [2] EXPLICIT INTEGER OPTIONAL
  trailerField [3] EXPLICIT INTEGER OPTIONAL
RSAES-OAEP-params ::= SEQUENCE
  hashAlgorithm [0] EXPLICIT AlgorithmIdentifier OPTIONAL
  maskGenAlgorithm [1] EXPLICIT AlgorithmIdentifier OPTIONAL
  pSourceAlgorithm [2] EXPLICIT AlgorithmIdentifier OPTIONAL

-- RFC 8018, appendix A; RFC 7292, appendix C; RFC 7914, 7
PBES2-params ::= SEQUENCE
  keyDerivationFunc AlgorithmIdentifier
  encryptionScheme AlgorithmIdentifier
PBKDF2-params ::= SEQUENCE
  salt PBKDF2-salt
  iterationCount INTEGER
  keyLength INTEGER OPTIONAL
  prf AlgorithmIdentifier OPTIONAL
PBKDF2-salt ::= CHOICE
  specified OCTET STRING
  otherSource AlgorithmIdentifier
PBMAC1-params ::= SEQUENCE
  keyDerivationFunc AlgorithmIdentifier
  messageAuthScheme AlgorithmIdentifier
PBEParameter ::= SEQUENCE
  salt OCTET STRING
  iterationCount INTEGER
Pkcs-12PbeParams ::= SEQUENCE
  salt OCTET STRING
  iterations INTEGER
Scrypt-params ::= SEQUENCE
  salt OCTET STRING
  costParameter INTEGER
  blockSize INTEGER
  parallelizationParameter INTEGER
  keyLength INTEGER OPTIONAL

-- RFC 8018, appendix B.2; RFC 3565, 4.1; RFC 5084, 3.1 and 3.2
DES-IV ::= OCTET STRING
AES-IV ::= OCTET STRING
RC2-CBC-Parameter ::= SEQUENCE
  rc2ParameterVersion INTEGER OPTIONAL
  iv OCTET STRING
GCMParameters ::= SEQUENCE
  aes-nonce OCTET STRING
  aes-ICVlen INTEGER OPTIONAL
CCMParameters ::= SEQUENCE
  aes-nonce OCTET STRING
  aes-ICVlen INTEGER OPTIONAL

-- RFC 5480, 2.1.1; SEC 1, appendix C.2
ECParameters ::= CHOICE
  namedCurve OBJECT IDENTIFIER
  implicitCurve NULL
  specifiedCurve SpecifiedECDomain
SpecifiedECDomain ::= SEQUENCE
  version SpecifiedECDomainVersion
  fieldID FieldID
  curve Curve
  base ECPoint
  order INTEGER
  cofactor INTEGER OPTIONAL
  hash AlgorithmIdentifier OPTIONAL
SpecifiedECDomainVersion ::= INTEGER CLOSED
  1 ecdpVer1
  2 ecdpVer2
  3 ecdpVer3
ECPoint ::= OCTET STRING
FieldID ::= SEQUENCE
  fieldType OBJECT IDENTIFIER
  parameters FieldParameters
FieldParameters ::= OPEN
  1.2.840.10045.1.1 Prime-p
  1.2.840.10045.1.2 Characteristic-two
Prime-p ::= INTEGER
Characteristic-two ::= SEQUENCE
  m INTEGER
  basis OBJECT IDENTIFIER
  parameters BasisParameters
BasisParameters ::= OPEN
  1.2.840.10045.1.2.3.1 NULL
  1.2.840.10045.1.2.3.2 Trinomial
  1.2.840.10045.1.2.3.3 Pentanomial
Trinomial ::= INTEGER
Pentanomial ::= SEQUENCE
  k1 INTEGER
  k2 INTEGER
  k3 INTEGER
Curve ::= SEQUENCE
  a FieldElement
  b FieldElement
  seed BIT STRING OPTIONAL
FieldElement ::= OCTET STRING

-- RFC 3279, 2.3.2 and 2.3.3; PKCS #3, 9
Dss-Parms ::= SEQUENCE
  p INTEGER
  q INTEGER
  g INTEGER
DomainParameters ::= SEQUENCE
  p INTEGER
  g INTEGER
  q INTEGER
  j INTEGER OPTIONAL
  validationParms ValidationParms OPTIONAL
ValidationParms ::= SEQUENCE
  seed BIT STRING
  pgenCounter INTEGER
DHParameter ::= SEQUENCE
  prime INTEGER
  base INTEGER
  privateValueLength INTEGER OPTIONAL

-- RFC 3279, 2.3; RFC 8017, appendix A.1.1
PublicKey ::= KNOWN
  1.2.840.113549.1.1.1 RSAPublicKey
  1.2.840.113549.1.1.7 RSAPublicKey
  1.2.840.113549.1.1.10 RSAPublicKey
  1.2.840.10040.4.1 DSAPublicKey
  1.2.840.10046.2.1 DHPublicKey
  1.2.840.113549.1.3.1 DHPublicKey
-- RFC 5480, 2.2 and RFC 8410, 4: points of curves
  1.2.840.10045.2.1 NOTHING
  1.3.132.1.12 NOTHING
  1.3.132.1.13 NOTHING
  1.3.101.110 NOTHING
  1.3.101.111 NOTHING
  1.3.101.112 NOTHING
  1.3.101.113 NOTHING
RSAPublicKey ::= SEQUENCE
  modulus INTEGER
  publicExponent INTEGER
DSAPublicKey ::= INTEGER
DHPublicKey ::= INTEGER

-- RFC 5208, 5; RFC 5958, 2
PrivateKeyInfo ::= SEQUENCE
  version PKCS8.Version
  privateKeyAlgorithm AlgorithmIdentifier
  privateKey OCTET STRING CONTAINING PrivateKey
  attributes [0] Attributes OPTIONAL
OneAsymmetricKey ::= SEQUENCE
  version PKCS8.Version
  privateKeyAlgorithm AlgorithmIdentifier
  privateKey OCTET STRING CONTAINING PrivateKey
  attributes [0] Attributes OPTIONAL
  publicKey [1] BIT STRING OPTIONAL
PKCS8.Version ::= INTEGER CLOSED
  0 v1
  1 v2
OCTET STRING CONTAINING PrivateKey
-- RFC 8017, appendix A.1.2; RFC 5915, 3; RFC 8410, 7
PrivateKey ::= KNOWN
  1.2.840.113549.1.1.1 RSAPrivateKey
  1.2.840.113549.1.1.7 RSAPrivateKey
  1.2.840.113549.1.1.10 RSAPrivateKey
  1.2.840.10045.2.1 ECPrivateKey
  1.3.132.1.12 ECPrivateKey
  1.2.840.10040.4.1 INTEGER
  1.2.840.10046.2.1 INTEGER
  1.2.840.113549.1.3.1 INTEGER
  1.3.101.110 CurvePrivateKey
  1.3.101.111 CurvePrivateKey
  1.3.101.112 CurvePrivateKey
  1.3.101.113 CurvePrivateKey
CurvePrivateKey ::= OCTET STRING
RSAPrivateKey ::= SEQUENCE
  version RSA.Version
  modulus INTEGER
  publicExponent INTEGER
  privateExponent INTEGER
  prime1 INTEGER
  prime2 INTEGER
  exponent1 INTEGER
  exponent2 INTEGER
  coefficient INTEGER
  otherPrimeInfos OtherPrimeInfos OPTIONAL
RSA.Version ::= INTEGER CLOSED
  0 two-prime
  1 multi
OtherPrimeInfos ::= SEQUENCE OF OtherPrimeInfo
OtherPrimeInfo ::= SEQUENCE
  prime INTEGER
  exponent INTEGER
  coefficient INTEGER
ECPrivateKey ::= SEQUENCE
  version EC.Version
  privateKey OCTET STRING
  parameters [0] EXPLICIT ECParameters OPTIONAL
  publicKey [1] EXPLICIT BIT STRING OPTIONAL
EC.Version ::= INTEGER CLOSED
  1 ecPrivkeyVer1
-- the traditional form of OpenSSL
DSAPrivateKey ::= SEQUENCE
  version INTEGER
  p INTEGER
  q INTEGER
  g INTEGER
  pub_key INTEGER
  priv_key INTEGER

-- RFC 5958, 3; the algorithms are those of RFC 8018, appendix A, and of RFC 7292, appendix C
EncryptedPrivateKeyInfo ::= SEQUENCE
  encryptionAlgorithm PKCS8.AlgorithmIdentifier
  encryptedData OCTET STRING
PKCS8.AlgorithmIdentifier ::= SEQUENCE
  algorithm OBJECT IDENTIFIER
  parameters PKCS8.AlgorithmParameters
PKCS8.AlgorithmParameters ::= KNOWN
  1.2.840.113549.1.5.1 PBEParameter
  1.2.840.113549.1.5.3 PBEParameter
  1.2.840.113549.1.5.4 PBEParameter
  1.2.840.113549.1.5.6 PBEParameter
  1.2.840.113549.1.5.10 PBEParameter
  1.2.840.113549.1.5.11 PBEParameter
  1.2.840.113549.1.5.13 PBES2-params
  1.2.840.113549.1.12.1.1 Pkcs-12PbeParams
  1.2.840.113549.1.12.1.2 Pkcs-12PbeParams
  1.2.840.113549.1.12.1.3 Pkcs-12PbeParams
  1.2.840.113549.1.12.1.4 Pkcs-12PbeParams
  1.2.840.113549.1.12.1.5 Pkcs-12PbeParams
  1.2.840.113549.1.12.1.6 Pkcs-12PbeParams

-- the SPKAC of Netscape
SignedPublicKeyAndChallenge ::= SEQUENCE
  publicKeyAndChallenge PublicKeyAndChallenge
  signatureAlgorithm AlgorithmIdentifier
  signature Held.BIT STRING
PublicKeyAndChallenge ::= SEQUENCE
  spki SubjectPublicKeyInfo
  challenge IA5String

-- RFC 8017, appendix A.2.4; RFC 3279, 2.2.2 and 2.2.3
DigestInfo ::= SEQUENCE
  digestAlgorithm AlgorithmIdentifier
  digest OCTET STRING
SignatureValue ::= KNOWN
  1.2.840.10040.4.3 Dss-Sig-Value
  2.16.840.1.101.3.4.3.1 Dss-Sig-Value
  2.16.840.1.101.3.4.3.2 Dss-Sig-Value
  1.2.840.10045.4.1 ECDSA-Sig-Value
  1.2.840.10045.4.3.1 ECDSA-Sig-Value
  1.2.840.10045.4.3.2 ECDSA-Sig-Value
  1.2.840.10045.4.3.3 ECDSA-Sig-Value
  1.2.840.10045.4.3.4 ECDSA-Sig-Value
-- RFC 8017, 8.1.1 and 8.2.1; RFC 8410, 6: octets
  1.2.840.113549.1.1.4 NOTHING
  1.2.840.113549.1.1.5 NOTHING
  1.2.840.113549.1.1.10 NOTHING
  1.2.840.113549.1.1.11 NOTHING
  1.2.840.113549.1.1.12 NOTHING
  1.2.840.113549.1.1.13 NOTHING
  1.2.840.113549.1.1.14 NOTHING
  1.3.101.112 NOTHING
  1.3.101.113 NOTHING
Dss-Sig-Value ::= SEQUENCE
  r INTEGER
  s INTEGER
ECDSA-Sig-Value ::= SEQUENCE
  r INTEGER
  s INTEGER
";
