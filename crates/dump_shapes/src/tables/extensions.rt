// What stands in extensions.
pub const TABLE: &str = "\
-- RFC 5280, 4.2 and 5.2; RFC 3779; RFC 8360; RFC 6962, 3.3; RFC 7633; RFC 3739; RFC 6960, 4.2.2.2.1; SET; Netscape;
-- Microsoft; Entrust; Android
ExtensionValue ::= KNOWN
  2.5.29.9 SubjectDirectoryAttributes
  2.5.29.14 SubjectKeyIdentifier
  2.5.29.15 KeyUsage
  2.5.29.16 PrivateKeyUsagePeriod
  2.5.29.17 SubjectAltName
  2.5.29.18 IssuerAltName
  2.5.29.19 BasicConstraints
  2.5.29.20 CRLNumber
  2.5.29.21 CRLReason
  2.5.29.23 HoldInstructionCode
  2.5.29.24 InvalidityDate
  2.5.29.27 BaseCRLNumber
  2.5.29.28 IssuingDistributionPoint
  2.5.29.29 CertificateIssuer
  2.5.29.30 NameConstraints
  2.5.29.31 CRLDistributionPoints
  2.5.29.32 CertificatePolicies
  2.5.29.33 PolicyMappings
  2.5.29.35 AuthorityKeyIdentifier
  2.5.29.36 PolicyConstraints
  2.5.29.37 ExtKeyUsageSyntax
  2.5.29.46 FreshestCRL
  2.5.29.54 InhibitAnyPolicy
  1.3.6.1.5.5.7.1.1 AuthorityInfoAccessSyntax
  1.3.6.1.5.5.7.1.3 QCStatements
  1.3.6.1.5.5.7.1.7 IPAddrBlocks
  1.3.6.1.5.5.7.1.8 ASIdentifiers
  1.3.6.1.5.5.7.1.11 SubjectInfoAccessSyntax
  1.3.6.1.5.5.7.1.14 ProxyCertInfo
  1.3.6.1.5.5.7.1.24 Features
  1.3.6.1.5.5.7.1.28 IPAddrBlocks
  1.3.6.1.5.5.7.1.29 ASIdentifiers
  1.3.6.1.5.5.7.48.1.2 OCTET STRING
  1.3.6.1.5.5.7.48.1.5 NULL
  1.3.6.1.4.1.11129.2.1.17 KeyDescription
  1.3.6.1.4.1.11129.2.4.2 SignedCertificateTimestampList
  1.3.6.1.4.1.11129.2.4.3 NULL
  1.3.6.1.4.1.11129.2.4.5 SignedCertificateTimestampList
  1.3.6.1.4.1.311.20.2 BMPString
  1.3.6.1.4.1.311.21.1 INTEGER
  1.3.6.1.4.1.311.21.2 OCTET STRING
  1.3.6.1.4.1.311.21.4 Time
  1.3.6.1.4.1.311.21.7 CertificateTemplate
  1.3.6.1.4.1.311.21.10 CertificatePolicies
  1.3.6.1.4.1.311.21.11 PolicyMappings
  1.3.6.1.4.1.311.21.12 PolicyConstraints
  1.3.6.1.4.1.311.21.14 CRLDistributionPoints
  1.3.6.1.4.1.311.25.2 GeneralNames
-- Sigstore: those of version 1 are texts without a header
  1.3.6.1.4.1.57264.1.1 NOTHING
  1.3.6.1.4.1.57264.1.2 NOTHING
  1.3.6.1.4.1.57264.1.3 NOTHING
  1.3.6.1.4.1.57264.1.4 NOTHING
  1.3.6.1.4.1.57264.1.5 NOTHING
  1.3.6.1.4.1.57264.1.6 NOTHING
  1.3.6.1.4.1.57264.1.8 UTF8String
  1.3.6.1.4.1.57264.1.9 UTF8String
  1.3.6.1.4.1.57264.1.10 UTF8String
  1.3.6.1.4.1.57264.1.11 UTF8String
  1.3.6.1.4.1.57264.1.12 UTF8String
  1.3.6.1.4.1.57264.1.13 UTF8String
  1.3.6.1.4.1.57264.1.14 UTF8String
  1.3.6.1.4.1.57264.1.15 UTF8String
  1.3.6.1.4.1.57264.1.16 UTF8String
  1.3.6.1.4.1.57264.1.17 UTF8String
  1.3.6.1.4.1.57264.1.18 UTF8String
  1.3.6.1.4.1.57264.1.19 UTF8String
  1.3.6.1.4.1.57264.1.20 UTF8String
  1.3.6.1.4.1.57264.1.21 UTF8String
  1.3.6.1.4.1.57264.1.22 UTF8String
  1.2.840.113533.7.65.0 EntrustVersInfo
  1.2.840.113549.1.9.15 SMIMECapabilities
  2.23.42.7.0 RootKeyThumb
  2.16.840.1.113730.1.1 NetscapeCertType
  2.16.840.1.113730.1.2 IA5String
  2.16.840.1.113730.1.3 IA5String
  2.16.840.1.113730.1.4 IA5String
  2.16.840.1.113730.1.7 IA5String
  2.16.840.1.113730.1.8 IA5String
  2.16.840.1.113730.1.12 IA5String
  2.16.840.1.113730.1.13 IA5String

-- RFC 5280, 4.2.1.1 to 4.2.1.3
AuthorityKeyIdentifier ::= SEQUENCE
  keyIdentifier [0] KeyIdentifier OPTIONAL
  authorityCertIssuer [1] GeneralNames OPTIONAL
  authorityCertSerialNumber [2] CertificateSerialNumber OPTIONAL
KeyIdentifier ::= OCTET STRING
SubjectKeyIdentifier ::= OCTET STRING
KeyUsage ::= BIT STRING NAMED
  0 digitalSignature
  1 nonRepudiation
  2 keyEncipherment
  3 dataEncipherment
  4 keyAgreement
  5 keyCertSign
  6 cRLSign
  7 encipherOnly
  8 decipherOnly
-- RFC 3280, 4.2.1.4
PrivateKeyUsagePeriod ::= SEQUENCE
  notBefore [0] GeneralizedTime OPTIONAL
  notAfter [1] GeneralizedTime OPTIONAL

-- RFC 5280, 4.2.1.4 and 4.2.1.5
CertificatePolicies ::= SEQUENCE OF PolicyInformation
PolicyInformation ::= SEQUENCE
  policyIdentifier CertPolicyId
  policyQualifiers SEQUENCE OF PolicyQualifierInfo OPTIONAL
CertPolicyId ::= OBJECT IDENTIFIER
SEQUENCE OF PolicyQualifierInfo
PolicyQualifierInfo ::= SEQUENCE
  policyQualifierId PolicyQualifierId
  qualifier Qualifier
PolicyQualifierId ::= OBJECT IDENTIFIER
Qualifier ::= OPEN
  1.3.6.1.5.5.7.2.1 CPSuri
  1.3.6.1.5.5.7.2.2 UserNotice
CPSuri ::= IA5String
UserNotice ::= SEQUENCE
  noticeRef NoticeReference OPTIONAL
  explicitText DisplayText OPTIONAL
NoticeReference ::= SEQUENCE
  organization DisplayText
  noticeNumbers SEQUENCE OF INTEGER
DisplayText ::= CHOICE
  ia5String IA5String
  visibleString VisibleString
  bmpString BMPString
  utf8String UTF8String
PolicyMappings ::= SEQUENCE OF PolicyMapping
PolicyMapping ::= SEQUENCE
  issuerDomainPolicy CertPolicyId
  subjectDomainPolicy CertPolicyId

-- RFC 5280, 4.2.1.6 to 4.2.1.8
SubjectAltName ::= SEQUENCE OF GeneralName
IssuerAltName ::= SEQUENCE OF GeneralName
GeneralNames ::= SEQUENCE OF GeneralName
GeneralName ::= CHOICE
  otherName [0] AnotherName
  rfc822Name [1] IA5String
  dNSName [2] IA5String
  x400Address [3] ORAddress
  directoryName [4] EXPLICIT Name
  ediPartyName [5] EDIPartyName
  uniformResourceIdentifier [6] IA5String
  iPAddress [7] Address.OCTET STRING
  registeredID [8] OBJECT IDENTIFIER
AnotherName ::= SEQUENCE
  type-id OBJECT IDENTIFIER
  value [0] EXPLICIT OtherNameValue
ORAddress ::= SEQUENCE
EDIPartyName ::= SEQUENCE
  nameAssigner [0] EXPLICIT DirectoryString OPTIONAL
  partyName [1] EXPLICIT DirectoryString
SubjectDirectoryAttributes ::= SEQUENCE OF Attribute
-- RFC 4556, 3.2.2; RFC 6120, 13.7.1.4; RFC 9598, 3; RFC 4985, 2; RFC 4108, 5; Microsoft; Sigstore
OtherNameValue ::= OPEN
  1.3.6.1.5.2.2 KRB5PrincipalName
  1.3.6.1.5.5.7.8.4 HardwareModuleName
  1.3.6.1.5.5.7.8.5 UTF8String
  1.3.6.1.5.5.7.8.7 IA5String
  1.3.6.1.5.5.7.8.9 UTF8String
  1.3.6.1.4.1.311.20.2.3 UTF8String
  1.3.6.1.4.1.311.25.1 OCTET STRING
  1.3.6.1.4.1.311.25.2.1 OCTET STRING
  1.3.6.1.4.1.57264.1.7 UTF8String
HardwareModuleName ::= SEQUENCE
  hwType OBJECT IDENTIFIER
  hwSerialNum OCTET STRING
KRB5PrincipalName ::= SEQUENCE
  realm [0] EXPLICIT GeneralString
  principalName [1] EXPLICIT PrincipalName

-- RFC 5280, 4.2.1.9 to 4.2.1.14
BasicConstraints ::= SEQUENCE
  cA BOOLEAN OPTIONAL
  pathLenConstraint INTEGER OPTIONAL
NameConstraints ::= SEQUENCE
  permittedSubtrees [0] GeneralSubtrees OPTIONAL
  excludedSubtrees [1] GeneralSubtrees OPTIONAL
GeneralSubtrees ::= SEQUENCE OF GeneralSubtree
GeneralSubtree ::= SEQUENCE
  base GeneralName
  minimum [0] BaseDistance OPTIONAL
  maximum [1] BaseDistance OPTIONAL
BaseDistance ::= INTEGER
PolicyConstraints ::= SEQUENCE
  requireExplicitPolicy [0] SkipCerts OPTIONAL
  inhibitPolicyMapping [1] SkipCerts OPTIONAL
SkipCerts ::= INTEGER
ExtKeyUsageSyntax ::= SEQUENCE OF KeyPurposeId
KeyPurposeId ::= OBJECT IDENTIFIER
CRLDistributionPoints ::= SEQUENCE OF DistributionPoint
FreshestCRL ::= SEQUENCE OF DistributionPoint
DistributionPoint ::= SEQUENCE
  distributionPoint [0] EXPLICIT DistributionPointName OPTIONAL
  reasons [1] ReasonFlags OPTIONAL
  cRLIssuer [2] GeneralNames OPTIONAL
DistributionPointName ::= CHOICE
  fullName [0] GeneralNames
  nameRelativeToCRLIssuer [1] RelativeDistinguishedName
ReasonFlags ::= BIT STRING NAMED
  0 unused
  1 keyCompromise
  2 cACompromise
  3 affiliationChanged
  4 superseded
  5 cessationOfOperation
  6 certificateHold
  7 privilegeWithdrawn
  8 aACompromise
InhibitAnyPolicy ::= INTEGER

-- RFC 5280, 4.2.2
AuthorityInfoAccessSyntax ::= SEQUENCE OF AccessDescription
SubjectInfoAccessSyntax ::= SEQUENCE OF AccessDescription
AccessDescription ::= SEQUENCE
  accessMethod OBJECT IDENTIFIER
  accessLocation GeneralName

-- RFC 5280, 5.2 and 5.3
CRLNumber ::= INTEGER
BaseCRLNumber ::= INTEGER
IssuingDistributionPoint ::= SEQUENCE
  distributionPoint [0] EXPLICIT DistributionPointName OPTIONAL
  onlyContainsUserCerts [1] BOOLEAN OPTIONAL
  onlyContainsCACerts [2] BOOLEAN OPTIONAL
  onlySomeReasons [3] ReasonFlags OPTIONAL
  indirectCRL [4] BOOLEAN OPTIONAL
  onlyContainsAttributeCerts [5] BOOLEAN OPTIONAL
CRLReason ::= ENUMERATED
  0 unspecified
  1 keyCompromise
  2 cACompromise
  3 affiliationChanged
  4 superseded
  5 cessationOfOperation
  6 certificateHold
  8 removeFromCRL
  9 privilegeWithdrawn
  10 aACompromise
InvalidityDate ::= GeneralizedTime
CertificateIssuer ::= SEQUENCE OF GeneralName
-- RFC 3280, 5.3.2
HoldInstructionCode ::= OBJECT IDENTIFIER

-- RFC 3779, 2.2.3 and 3.2.3
IPAddrBlocks ::= SEQUENCE OF IPAddressFamily
IPAddressFamily ::= SEQUENCE
  addressFamily OCTET STRING
  ipAddressChoice IPAddressChoice
IPAddressChoice ::= CHOICE
  inherit NULL
  addressesOrRanges SEQUENCE OF IPAddressOrRange
SEQUENCE OF IPAddressOrRange
IPAddressOrRange ::= CHOICE
  addressPrefix IPAddress
  addressRange IPAddressRange
IPAddressRange ::= SEQUENCE
  min IPAddress
  max IPAddress
IPAddress ::= BIT STRING
ASIdentifiers ::= SEQUENCE
  asnum [0] EXPLICIT ASIdentifierChoice OPTIONAL
  rdi [1] EXPLICIT ASIdentifierChoice OPTIONAL
ASIdentifierChoice ::= CHOICE
  inherit NULL
  asIdsOrRanges SEQUENCE OF ASIdOrRange
SEQUENCE OF ASIdOrRange
ASIdOrRange ::= CHOICE
  id ASId
  range ASRange
ASRange ::= SEQUENCE
  min ASId
  max ASId
ASId ::= INTEGER

-- RFC 6962, 3.3, whose octets are structures of TLS; RFC 7633, 4; RFC 3739, 3.2.6; RFC 3820, 3.8; RFC 8551, 2.5.2
SignedCertificateTimestampList ::= OCTET STRING
Features ::= SEQUENCE OF INTEGER
QCStatements ::= SEQUENCE OF QCStatement
QCStatement ::= SEQUENCE
  statementId OBJECT IDENTIFIER
  statementInfo ANY OPTIONAL
ProxyCertInfo ::= SEQUENCE
  pCPathLenConstraint INTEGER OPTIONAL
  proxyPolicy ProxyPolicy
ProxyPolicy ::= SEQUENCE
  policyLanguage OBJECT IDENTIFIER
  policy Held.OCTET STRING OPTIONAL
SMIMECapabilities ::= SEQUENCE OF SMIMECapability
SMIMECapability ::= SEQUENCE
  capabilityID OBJECT IDENTIFIER
  parameters ANY OPTIONAL

-- SET 1.0, book 3; the fields of DigestedData are those of RFC 5652, 7
RootKeyThumb ::= SEQUENCE
  rootKeyThumbprint DigestedData

-- Netscape; MS-WCCE, 2.2.2.7.7; Entrust
NetscapeCertType ::= BIT STRING
  0 sslClient
  1 sslServer
  2 smime
  3 objectSigning
  5 sslCA
  6 smimeCA
  7 objectSigningCA
CertificateTemplate ::= SEQUENCE
  templateID OBJECT IDENTIFIER
  templateMajorVersion INTEGER OPTIONAL
  templateMinorVersion INTEGER OPTIONAL
EntrustVersInfo ::= SEQUENCE
  entrustVers GeneralString
  entrustInfoFlags BIT STRING
";
