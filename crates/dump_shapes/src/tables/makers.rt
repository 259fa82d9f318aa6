// What no RFC defines: Authenticode, travel documents, and keys of Android.
pub const TABLE: &str = "\
-- Microsoft, Windows Authenticode Portable Executable Signature Format, 1.0
SpcIndirectDataContent ::= SEQUENCE
  data SpcAttributeTypeAndOptionalValue
  messageDigest DigestInfo
SpcAttributeTypeAndOptionalValue ::= SEQUENCE
  type OBJECT IDENTIFIER
  value SpcValue OPTIONAL
SpcValue ::= OPEN
  1.3.6.1.4.1.311.2.1.15 SpcPeImageData
  1.3.6.1.4.1.311.2.1.25 SpcLink
SpcPeImageData ::= SEQUENCE
  flags SpcPeImageFlags OPTIONAL
  file [0] EXPLICIT SpcLink OPTIONAL
SpcPeImageFlags ::= BIT STRING NAMED
  0 includeResources
  1 includeDebugInfo
  2 includeImportAddressTable
SpcLink ::= CHOICE
  url [0] IA5String
  moniker [1] SpcSerializedObject
  file [2] EXPLICIT SpcString
SpcString ::= CHOICE
  unicode [0] BMPString
  ascii [1] IA5String
SpcSerializedObject ::= SEQUENCE
  classId SpcUuid
  serializedData Held.OCTET STRING
SpcUuid ::= OCTET STRING
SpcSpOpusInfo ::= SEQUENCE
  programName [0] EXPLICIT SpcString OPTIONAL
  moreInfo [1] EXPLICIT SpcLink OPTIONAL
SpcStatementType ::= SEQUENCE OF OBJECT IDENTIFIER

-- ICAO Doc 9303, part 10, appendix D
LDSSecurityObject ::= SEQUENCE
  version LDSSecurityObjectVersion
  hashAlgorithm DigestAlgorithmIdentifier
  dataGroupHashValues SEQUENCE OF DataGroupHash
  ldsVersionInfo LDSVersionInfo OPTIONAL
LDSSecurityObjectVersion ::= INTEGER CLOSED
  0 v0
  1 v1
DigestAlgorithmIdentifier ::= SEQUENCE
  algorithm OBJECT IDENTIFIER
  parameters AlgorithmParameters OPTIONAL
SEQUENCE OF DataGroupHash
DataGroupHash ::= SEQUENCE
  dataGroupNumber DataGroupNumber
  dataGroupHashValue OCTET STRING
DataGroupNumber ::= INTEGER
  1 dataGroup1
  2 dataGroup2
  3 dataGroup3
  4 dataGroup4
  5 dataGroup5
  6 dataGroup6
  7 dataGroup7
  8 dataGroup8
  9 dataGroup9
  10 dataGroup10
  11 dataGroup11
  12 dataGroup12
  13 dataGroup13
  14 dataGroup14
  15 dataGroup15
  16 dataGroup16
LDSVersionInfo ::= SEQUENCE
  ldsVersion PrintableString
  unicodeVersion PrintableString

-- Android, key and ID attestation. Fields of an AuthorizationList with a tag above 30 have no names here
KeyDescription ::= SEQUENCE
  attestationVersion INTEGER
  attestationSecurityLevel SecurityLevel
  keyMintVersion INTEGER
  keyMintSecurityLevel SecurityLevel
  attestationChallenge OCTET STRING
  uniqueId OCTET STRING
  softwareEnforced AuthorizationList
  hardwareEnforced AuthorizationList
SecurityLevel ::= ENUMERATED
  0 Software
  1 TrustedEnvironment
  2 StrongBox
AuthorizationList ::= SEQUENCE
  purpose [1] EXPLICIT SET OF INTEGER OPTIONAL
  algorithm [2] EXPLICIT INTEGER OPTIONAL
  keySize [3] EXPLICIT INTEGER OPTIONAL
  digest [5] EXPLICIT SET OF INTEGER OPTIONAL
  padding [6] EXPLICIT SET OF INTEGER OPTIONAL
  ecCurve [10] EXPLICIT INTEGER OPTIONAL
SET OF INTEGER
";
