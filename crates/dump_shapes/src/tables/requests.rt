// Requests for certificates, and the protocol that carries them.
pub const TABLE: &str = "\
-- RFC 4211, 3 and 5, whose tags are implicit
CertReqMessages ::= SEQUENCE OF CertReqMsg
CertReqMsg ::= SEQUENCE
  certReq CertRequest
  popo ProofOfPossession OPTIONAL
  regInfo RegInfo.SEQUENCE OF AttributeTypeAndValue OPTIONAL
CertRequest ::= SEQUENCE
  certReqId INTEGER
  certTemplate CertTemplate
  controls CRMF.Controls OPTIONAL
CertTemplate ::= SEQUENCE
  version [0] Version OPTIONAL
  serialNumber [1] INTEGER OPTIONAL
  signingAlg [2] AlgorithmIdentifier OPTIONAL
  issuer [3] EXPLICIT Name OPTIONAL
  validity [4] OptionalValidity OPTIONAL
  subject [5] EXPLICIT Name OPTIONAL
  publicKey [6] SubjectPublicKeyInfo OPTIONAL
  issuerUID [7] UniqueIdentifier OPTIONAL
  subjectUID [8] UniqueIdentifier OPTIONAL
  extensions [9] Extensions OPTIONAL
OptionalValidity ::= SEQUENCE
  notBefore [0] EXPLICIT Time OPTIONAL
  notAfter [1] EXPLICIT Time OPTIONAL

-- RFC 4211, 4
ProofOfPossession ::= CHOICE
  raVerified [0] NULL
  signature [1] POPOSigningKey
  keyEncipherment [2] EXPLICIT POPOPrivKey
  keyAgreement [3] EXPLICIT POPOPrivKey
POPOSigningKey ::= SEQUENCE
  poposkInput [0] POPOSigningKeyInput OPTIONAL
  algorithmIdentifier AlgorithmIdentifier
  signature Held.BIT STRING
POPOSigningKeyInput ::= SEQUENCE
  authInfo AuthInfo
  publicKey SubjectPublicKeyInfo
AuthInfo ::= CHOICE
  sender [0] EXPLICIT GeneralName
  publicKeyMAC PKMACValue
PKMACValue ::= SEQUENCE
  algId AlgorithmIdentifier
  value BIT STRING
POPOPrivKey ::= CHOICE
  thisMessage [0] BIT STRING
  subsequentMessage [1] SubsequentMessage
  dhMAC [2] BIT STRING
  agreeMAC [3] PKMACValue
  encryptedKey [4] EnvelopedData
SubsequentMessage ::= INTEGER
  0 encrCert
  1 challengeResp

-- RFC 4211, 6 and 7
CRMF.Controls ::= SEQUENCE OF CRMF.AttributeTypeAndValue
CRMF.AttributeTypeAndValue ::= SEQUENCE
  type OBJECT IDENTIFIER
  value ControlValue
ControlValue ::= OPEN
  1.3.6.1.5.5.7.5.1.1 UTF8String
  1.3.6.1.5.5.7.5.1.2 UTF8String
  1.3.6.1.5.5.7.5.1.3 PKIPublicationInfo
  1.3.6.1.5.5.7.5.1.4 PKIArchiveOptions
  1.3.6.1.5.5.7.5.1.5 CertId
  1.3.6.1.5.5.7.5.1.6 SubjectPublicKeyInfo
RegInfo.SEQUENCE OF AttributeTypeAndValue ::= SEQUENCE OF RegInfo.AttributeTypeAndValue
RegInfo.AttributeTypeAndValue ::= SEQUENCE
  type OBJECT IDENTIFIER
  value RegInfoValue
RegInfoValue ::= OPEN
  1.3.6.1.5.5.7.5.2.1 UTF8String
  1.3.6.1.5.5.7.5.2.2 CertRequest
PKIPublicationInfo ::= SEQUENCE
  action Action
  pubInfos SEQUENCE OF SinglePubInfo OPTIONAL
Action ::= INTEGER
  0 dontPublish
  1 pleasePublish
SEQUENCE OF SinglePubInfo
SinglePubInfo ::= SEQUENCE
  pubMethod PubMethod
  pubLocation GeneralName OPTIONAL
PubMethod ::= INTEGER
  0 dontCare
  1 x500
  2 web
  3 ldap
PKIArchiveOptions ::= CHOICE
  encryptedPrivKey [0] EXPLICIT CRMF.EncryptedKey
  keyGenParameters [1] OCTET STRING
  archiveRemGenPrivKey [2] BOOLEAN
CRMF.EncryptedKey ::= CHOICE
  encryptedValue EncryptedValue
  envelopedData [0] EnvelopedData
EncryptedValue ::= SEQUENCE
  intendedAlg [0] AlgorithmIdentifier OPTIONAL
  symmAlg [1] AlgorithmIdentifier OPTIONAL
  encSymmKey [2] BIT STRING OPTIONAL
  keyAlg [3] AlgorithmIdentifier OPTIONAL
  valueHint [4] OCTET STRING OPTIONAL
  encValue BIT STRING
CertId ::= SEQUENCE
  issuer GeneralName
  serialNumber INTEGER

-- RFC 4210, 5.1 and appendix F, whose tags are explicit; RFC 9480
PKIMessage ::= SEQUENCE
  header PKIHeader
  body PKIBody
  protection [0] EXPLICIT PKIProtection OPTIONAL
  extraCerts [1] EXPLICIT SEQUENCE OF CMPCertificate OPTIONAL
PKIHeader ::= SEQUENCE
  pvno PVNO.INTEGER
  sender GeneralName
  recipient GeneralName
  messageTime [0] EXPLICIT GeneralizedTime OPTIONAL
  protectionAlg [1] EXPLICIT AlgorithmIdentifier OPTIONAL
  senderKID [2] EXPLICIT KeyIdentifier OPTIONAL
  recipKID [3] EXPLICIT KeyIdentifier OPTIONAL
  transactionID [4] EXPLICIT OCTET STRING OPTIONAL
  senderNonce [5] EXPLICIT OCTET STRING OPTIONAL
  recipNonce [6] EXPLICIT OCTET STRING OPTIONAL
  freeText [7] EXPLICIT PKIFreeText OPTIONAL
  generalInfo [8] EXPLICIT SEQUENCE OF InfoTypeAndValue OPTIONAL
PVNO.INTEGER ::= INTEGER CLOSED
  1 cmp1999
  2 cmp2000
  3 cmp2021
PKIProtection ::= BIT STRING
CMPCertificate ::= CHOICE
  x509v3PKCert Certificate
SEQUENCE OF CMPCertificate
PKIMessages ::= SEQUENCE OF PKIMessage
SEQUENCE OF InfoTypeAndValue
InfoTypeAndValue ::= SEQUENCE
  infoType OBJECT IDENTIFIER
  infoValue InfoValue OPTIONAL
-- RFC 4210, 5.3.19
InfoValue ::= OPEN
  1.3.6.1.5.5.7.4.1 CMPCertificate
  1.3.6.1.5.5.7.4.2 SEQUENCE OF AlgorithmIdentifier
  1.3.6.1.5.5.7.4.3 SEQUENCE OF AlgorithmIdentifier
  1.3.6.1.5.5.7.4.4 AlgorithmIdentifier
  1.3.6.1.5.5.7.4.5 CAKeyUpdAnnContent
  1.3.6.1.5.5.7.4.6 CertificateList
  1.3.6.1.5.5.7.4.7 SEQUENCE OF OBJECT IDENTIFIER
  1.3.6.1.5.5.7.4.10 OBJECT IDENTIFIER
  1.3.6.1.5.5.7.4.11 AlgorithmIdentifier
  1.3.6.1.5.5.7.4.12 EncryptedValue
  1.3.6.1.5.5.7.4.13 NULL
  1.3.6.1.5.5.7.4.14 GeneralizedTime
  1.3.6.1.5.5.7.4.15 PKIMessages
  1.3.6.1.5.5.7.4.16 SEQUENCE OF UTF8String
SEQUENCE OF AlgorithmIdentifier

-- RFC 4210, 5.1.2
PKIBody ::= CHOICE
  ir [0] EXPLICIT CertReqMessages
  ip [1] EXPLICIT CertRepMessage
  cr [2] EXPLICIT CertReqMessages
  cp [3] EXPLICIT CertRepMessage
  p10cr [4] EXPLICIT CertificationRequest
  popdecc [5] EXPLICIT POPODecKeyChallContent
  popdecr [6] EXPLICIT POPODecKeyRespContent
  kur [7] EXPLICIT CertReqMessages
  kup [8] EXPLICIT CertRepMessage
  krr [9] EXPLICIT CertReqMessages
  krp [10] EXPLICIT KeyRecRepContent
  rr [11] EXPLICIT RevReqContent
  rp [12] EXPLICIT RevRepContent
  ccr [13] EXPLICIT CertReqMessages
  ccp [14] EXPLICIT CertRepMessage
  ckuann [15] EXPLICIT CAKeyUpdAnnContent
  cann [16] EXPLICIT CMPCertificate
  rann [17] EXPLICIT RevAnnContent
  crlann [18] EXPLICIT CRLAnnContent
  pkiconf [19] EXPLICIT PKIConfirmContent
  nested [20] EXPLICIT PKIMessages
  genm [21] EXPLICIT GenMsgContent
  genp [22] EXPLICIT GenRepContent
  error [23] EXPLICIT ErrorMsgContent
  certConf [24] EXPLICIT CertConfirmContent
  pollReq [25] EXPLICIT PollReqContent
  pollRep [26] EXPLICIT PollRepContent

-- RFC 4210, 5.1.3
PBMParameter ::= SEQUENCE
  salt OCTET STRING
  owf AlgorithmIdentifier
  iterationCount INTEGER
  mac AlgorithmIdentifier
DHBMParameter ::= SEQUENCE
  owf AlgorithmIdentifier
  mac AlgorithmIdentifier

-- RFC 4210, 5.2.3
CMP.PKIStatusInfo ::= SEQUENCE
  status CMP.PKIStatus
  statusString PKIFreeText OPTIONAL
  failInfo PKIFailureInfo OPTIONAL
CMP.PKIStatus ::= INTEGER
  0 accepted
  1 grantedWithMods
  2 rejection
  3 waiting
  4 revocationWarning
  5 revocationNotification
  6 keyUpdateWarning

-- RFC 4210, 5.2.8 and 5.3; RFC 9480
POPODecKeyChallContent ::= SEQUENCE OF Challenge
Challenge ::= SEQUENCE
  owf AlgorithmIdentifier OPTIONAL
  witness OCTET STRING
  challenge OCTET STRING
POPODecKeyRespContent ::= SEQUENCE OF INTEGER
CertRepMessage ::= SEQUENCE
  caPubs [1] EXPLICIT SEQUENCE OF CMPCertificate OPTIONAL
  response SEQUENCE OF CertResponse
SEQUENCE OF CertResponse
CertResponse ::= SEQUENCE
  certReqId INTEGER
  status CMP.PKIStatusInfo
  certifiedKeyPair CertifiedKeyPair OPTIONAL
  rspInfo OCTET STRING OPTIONAL
CertifiedKeyPair ::= SEQUENCE
  certOrEncCert CertOrEncCert
  privateKey [0] EXPLICIT CRMF.EncryptedKey OPTIONAL
  publicationInfo [1] EXPLICIT PKIPublicationInfo OPTIONAL
CertOrEncCert ::= CHOICE
  certificate [0] EXPLICIT CMPCertificate
  encryptedCert [1] EXPLICIT CRMF.EncryptedKey
KeyRecRepContent ::= SEQUENCE
  status CMP.PKIStatusInfo
  newSigCert [0] EXPLICIT CMPCertificate OPTIONAL
  caCerts [1] EXPLICIT SEQUENCE OF CMPCertificate OPTIONAL
  keyPairHist [2] EXPLICIT SEQUENCE OF CertifiedKeyPair OPTIONAL
SEQUENCE OF CertifiedKeyPair
RevReqContent ::= SEQUENCE OF RevDetails
RevDetails ::= SEQUENCE
  certDetails CertTemplate
  crlEntryDetails Extensions OPTIONAL
RevRepContent ::= SEQUENCE
  status CMP.SEQUENCE OF PKIStatusInfo
  revCerts [0] EXPLICIT SEQUENCE OF CertId OPTIONAL
  crls [1] EXPLICIT SEQUENCE OF CertificateList OPTIONAL
CMP.SEQUENCE OF PKIStatusInfo ::= SEQUENCE OF CMP.PKIStatusInfo
SEQUENCE OF CertId
SEQUENCE OF CertificateList
CAKeyUpdAnnContent ::= SEQUENCE
  oldWithNew CMPCertificate
  newWithOld CMPCertificate
  newWithNew CMPCertificate
RevAnnContent ::= SEQUENCE
  status CMP.PKIStatus
  certId CertId
  willBeRevokedAt GeneralizedTime
  badSinceDate GeneralizedTime
  crlDetails Extensions OPTIONAL
CRLAnnContent ::= SEQUENCE OF CertificateList
PKIConfirmContent ::= NULL
GenMsgContent ::= SEQUENCE OF InfoTypeAndValue
GenRepContent ::= SEQUENCE OF InfoTypeAndValue
ErrorMsgContent ::= SEQUENCE
  pKIStatusInfo CMP.PKIStatusInfo
  errorCode INTEGER OPTIONAL
  errorDetails PKIFreeText OPTIONAL
CertConfirmContent ::= SEQUENCE OF CMP.CertStatus
CMP.CertStatus ::= SEQUENCE
  certHash OCTET STRING
  certReqId INTEGER
  statusInfo CMP.PKIStatusInfo OPTIONAL
  hashAlg [0] EXPLICIT AlgorithmIdentifier OPTIONAL
PollReqContent ::= SEQUENCE OF PollReq.SEQUENCE
PollReq.SEQUENCE ::= SEQUENCE
  certReqId INTEGER
PollRepContent ::= SEQUENCE OF PollRep.SEQUENCE
PollRep.SEQUENCE ::= SEQUENCE
  certReqId INTEGER
  checkAfter INTEGER
  reason PKIFreeText OPTIONAL
";
