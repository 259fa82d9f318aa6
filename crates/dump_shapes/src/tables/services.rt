// Requests and responses: the status of certificates, and time stamps.
pub const TABLE: &str = "\
-- RFC 6960, 4.1.1
OCSPRequest ::= SEQUENCE
  tbsRequest TBSRequest
  optionalSignature [0] EXPLICIT Signature OPTIONAL
TBSRequest ::= SEQUENCE
  version [0] EXPLICIT OCSP.Version OPTIONAL
  requestorName [1] EXPLICIT GeneralName OPTIONAL
  requestList SEQUENCE OF Request
  requestExtensions [2] EXPLICIT Extensions OPTIONAL
OCSP.Version ::= INTEGER CLOSED
  0 v1
SEQUENCE OF Request
Signature ::= SEQUENCE
  signatureAlgorithm AlgorithmIdentifier
  signature Held.BIT STRING
  certs [0] EXPLICIT SEQUENCE OF Certificate OPTIONAL
SEQUENCE OF Certificate
Request ::= SEQUENCE
  reqCert CertID
  singleRequestExtensions [0] EXPLICIT Extensions OPTIONAL
CertID ::= SEQUENCE
  hashAlgorithm AlgorithmIdentifier
  issuerNameHash OCTET STRING
  issuerKeyHash OCTET STRING
  serialNumber CertificateSerialNumber

-- RFC 6960, 4.2.1
OCSPResponse ::= SEQUENCE
  responseStatus OCSPResponseStatus
  responseBytes [0] EXPLICIT ResponseBytes OPTIONAL
OCSPResponseStatus ::= ENUMERATED CLOSED
  0 successful
  1 malformedRequest
  2 internalError
  3 tryLater
  5 sigRequired
  6 unauthorized
ResponseBytes ::= SEQUENCE
  responseType OBJECT IDENTIFIER
  response OCTET STRING CONTAINING Response
OCTET STRING CONTAINING Response
Response ::= KNOWN
  1.3.6.1.5.5.7.48.1.1 BasicOCSPResponse
BasicOCSPResponse ::= SEQUENCE
  tbsResponseData ResponseData
  signatureAlgorithm AlgorithmIdentifier
  signature Held.BIT STRING
  certs [0] EXPLICIT SEQUENCE OF Certificate OPTIONAL
ResponseData ::= SEQUENCE
  version [0] EXPLICIT OCSP.Version OPTIONAL
  responderID ResponderID
  producedAt GeneralizedTime
  responses SEQUENCE OF SingleResponse
  responseExtensions [1] EXPLICIT Extensions OPTIONAL
ResponderID ::= CHOICE
  byName [1] EXPLICIT Name
  byKey [2] EXPLICIT KeyHash
KeyHash ::= OCTET STRING
SEQUENCE OF SingleResponse
SingleResponse ::= SEQUENCE
  certID CertID
  certStatus CertStatus
  thisUpdate GeneralizedTime
  nextUpdate [0] EXPLICIT GeneralizedTime OPTIONAL
  singleExtensions [1] EXPLICIT Extensions OPTIONAL
CertStatus ::= CHOICE
  good [0] NULL
  revoked [1] RevokedInfo
  unknown [2] NULL
RevokedInfo ::= SEQUENCE
  revocationTime GeneralizedTime
  revocationReason [0] EXPLICIT CRLReason OPTIONAL

-- RFC 3161, 2.4
TimeStampReq ::= SEQUENCE
  version TSP.Version
  messageImprint MessageImprint
  reqPolicy TSAPolicyId OPTIONAL
  nonce INTEGER OPTIONAL
  certReq BOOLEAN OPTIONAL
  extensions [0] Extensions OPTIONAL
TSP.Version ::= INTEGER CLOSED
  1 v1
MessageImprint ::= SEQUENCE
  hashAlgorithm AlgorithmIdentifier
  hashedMessage OCTET STRING
TSAPolicyId ::= OBJECT IDENTIFIER
TimeStampResp ::= SEQUENCE
  status PKIStatusInfo
  timeStampToken TimeStampToken OPTIONAL
TimeStampToken ::= SEQUENCE
  contentType ContentType
  content [0] EXPLICIT Content OPTIONAL
PKIStatusInfo ::= SEQUENCE
  status PKIStatus
  statusString PKIFreeText OPTIONAL
  failInfo PKIFailureInfo OPTIONAL
PKIStatus ::= INTEGER CLOSED
  0 granted
  1 grantedWithMods
  2 rejection
  3 waiting
  4 revocationWarning
  5 revocationNotification
PKIFreeText ::= SEQUENCE OF UTF8String
-- RFC 4210, 5.2.3, which has all of them
PKIFailureInfo ::= BIT STRING NAMED
  0 badAlg
  1 badMessageCheck
  2 badRequest
  3 badTime
  4 badCertId
  5 badDataFormat
  6 wrongAuthority
  7 incorrectData
  8 missingTimeStamp
  9 badPOP
  10 certRevoked
  11 certConfirmed
  12 wrongIntegrity
  13 badRecipientNonce
  14 timeNotAvailable
  15 unacceptedPolicy
  16 unacceptedExtension
  17 addInfoNotAvailable
  18 badSenderNonce
  19 badCertTemplate
  20 signerNotTrusted
  21 transactionIdInUse
  22 unsupportedVersion
  23 notAuthorized
  24 systemUnavail
  25 systemFailure
  26 duplicateCertReq
TSTInfo ::= SEQUENCE
  version TSP.Version
  policy TSAPolicyId
  messageImprint MessageImprint
  serialNumber INTEGER
  genTime GeneralizedTime
  accuracy Accuracy OPTIONAL
  ordering BOOLEAN OPTIONAL
  nonce INTEGER OPTIONAL
  tsa [0] EXPLICIT GeneralName OPTIONAL
  extensions [1] Extensions OPTIONAL
Accuracy ::= SEQUENCE
  seconds INTEGER OPTIONAL
  millis [0] INTEGER OPTIONAL
  micros [1] INTEGER OPTIONAL
";
