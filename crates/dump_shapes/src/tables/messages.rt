// Messages of LDAP and of SNMP.
pub const TABLE: &str = "\
-- RFC 4511, 4.1.1
LDAPMessage ::= SEQUENCE
  messageID MessageID
  protocolOp ProtocolOp
  controls [0] Controls OPTIONAL
MessageID ::= INTEGER
ProtocolOp ::= CHOICE
  bindRequest [APPLICATION 0] BindRequest
  bindResponse [APPLICATION 1] BindResponse
  unbindRequest [APPLICATION 2] NULL
  searchRequest [APPLICATION 3] SearchRequest
  searchResEntry [APPLICATION 4] SearchResultEntry
  searchResDone [APPLICATION 5] LDAPResult
  modifyRequest [APPLICATION 6] ModifyRequest
  modifyResponse [APPLICATION 7] LDAPResult
  addRequest [APPLICATION 8] AddRequest
  addResponse [APPLICATION 9] LDAPResult
  delRequest [APPLICATION 10] LDAPDN
  delResponse [APPLICATION 11] LDAPResult
  modDNRequest [APPLICATION 12] ModifyDNRequest
  modDNResponse [APPLICATION 13] LDAPResult
  compareRequest [APPLICATION 14] CompareRequest
  compareResponse [APPLICATION 15] LDAPResult
  abandonRequest [APPLICATION 16] MessageID
  searchResRef [APPLICATION 19] SearchResultReference
  extendedReq [APPLICATION 23] ExtendedRequest
  extendedResp [APPLICATION 24] ExtendedResponse
  intermediateResponse [APPLICATION 25] IntermediateResponse
LDAPString ::= OCTET STRING
LDAPOID ::= OCTET STRING
LDAPDN ::= OCTET STRING
RelativeLDAPDN ::= OCTET STRING
AttributeDescription ::= OCTET STRING
AssertionValue ::= OCTET STRING HOLDING
LDAP.AttributeValue ::= OCTET STRING HOLDING
URI ::= OCTET STRING
Controls ::= SEQUENCE OF Control
Control ::= SEQUENCE
  controlType LDAPOID
  criticality BOOLEAN OPTIONAL
  controlValue Held.OCTET STRING OPTIONAL

-- RFC 4511, 4.1.7 and 4.1.9
PartialAttributeList ::= SEQUENCE OF PartialAttribute
PartialAttribute ::= SEQUENCE
  type AttributeDescription
  vals LDAP.AttributeValues
LDAP.AttributeValues ::= SET OF LDAP.AttributeValue
LDAPResult ::= SEQUENCE
  resultCode ResultCode
  matchedDN LDAPDN
  diagnosticMessage LDAPString
  referral [3] Referral OPTIONAL
Referral ::= SEQUENCE OF URI
ResultCode ::= ENUMERATED
  0 success
  1 operationsError
  2 protocolError
  3 timeLimitExceeded
  4 sizeLimitExceeded
  5 compareFalse
  6 compareTrue
  7 authMethodNotSupported
  8 strongerAuthRequired
  10 referral
  11 adminLimitExceeded
  12 unavailableCriticalExtension
  13 confidentialityRequired
  14 saslBindInProgress
  16 noSuchAttribute
  17 undefinedAttributeType
  18 inappropriateMatching
  19 constraintViolation
  20 attributeOrValueExists
  21 invalidAttributeSyntax
  32 noSuchObject
  33 aliasProblem
  34 invalidDNSyntax
  36 aliasDereferencingProblem
  48 inappropriateAuthentication
  49 invalidCredentials
  50 insufficientAccessRights
  51 busy
  52 unavailable
  53 unwillingToPerform
  54 loopDetect
  64 namingViolation
  65 objectClassViolation
  66 notAllowedOnNonLeaf
  67 notAllowedOnRDN
  68 entryAlreadyExists
  69 objectClassModsProhibited
  71 affectsMultipleDSAs
  80 other
-- RFC 3928, RFC 3909, RFC 4528, RFC 4370 and RFC 4533
  113 lcupResourcesExhausted
  114 lcupSecurityViolation
  115 lcupInvalidData
  116 lcupUnsupportedScheme
  117 lcupReloadRequired
  118 canceled
  119 noSuchOperation
  120 tooLate
  121 cannotCancel
  122 assertionFailed
  123 authorizationDenied
  4096 e-syncRefreshRequired

-- RFC 4511, 4.2
BindRequest ::= SEQUENCE
  version INTEGER
  name LDAPDN
  authentication AuthenticationChoice
AuthenticationChoice ::= CHOICE
  simple [0] OCTET STRING
  sasl [3] SaslCredentials
SaslCredentials ::= SEQUENCE
  mechanism LDAPString
  credentials Held.OCTET STRING OPTIONAL
BindResponse ::= SEQUENCE
  resultCode ResultCode
  matchedDN LDAPDN
  diagnosticMessage LDAPString
  referral [3] Referral OPTIONAL
  serverSaslCreds [7] OCTET STRING OPTIONAL

-- RFC 4511, 4.5
SearchRequest ::= SEQUENCE
  baseObject LDAPDN
  scope Scope
  derefAliases DerefAliases
  sizeLimit INTEGER
  timeLimit INTEGER
  typesOnly BOOLEAN
  filter Filter
  attributes AttributeSelection
Scope ::= ENUMERATED
  0 baseObject
  1 singleLevel
  2 wholeSubtree
DerefAliases ::= ENUMERATED
  0 neverDerefAliases
  1 derefInSearching
  2 derefFindingBaseObj
  3 derefAlways
AttributeSelection ::= SEQUENCE OF LDAPString
Filter ::= CHOICE
  and [0] SET OF Filter
  or [1] SET OF Filter
  not [2] EXPLICIT Filter
  equalityMatch [3] AttributeValueAssertion
  substrings [4] SubstringFilter
  greaterOrEqual [5] AttributeValueAssertion
  lessOrEqual [6] AttributeValueAssertion
  present [7] AttributeDescription
  approxMatch [8] AttributeValueAssertion
  extensibleMatch [9] MatchingRuleAssertion
SET OF Filter
AttributeValueAssertion ::= SEQUENCE
  attributeDesc AttributeDescription
  assertionValue AssertionValue
SubstringFilter ::= SEQUENCE
  type AttributeDescription
  substrings SEQUENCE OF Substring
SEQUENCE OF Substring
Substring ::= CHOICE
  initial [0] AssertionValue
  any [1] AssertionValue
  final [2] AssertionValue
MatchingRuleAssertion ::= SEQUENCE
  matchingRule [1] LDAPString OPTIONAL
  type [2] AttributeDescription OPTIONAL
  matchValue [3] AssertionValue
  dnAttributes [4] BOOLEAN OPTIONAL
SearchResultEntry ::= SEQUENCE
  objectName LDAPDN
  attributes PartialAttributeList
SearchResultReference ::= SEQUENCE OF URI

-- RFC 4511, 4.6 to 4.13
ModifyRequest ::= SEQUENCE
  object LDAPDN
  changes SEQUENCE OF Change
SEQUENCE OF Change
Change ::= SEQUENCE
  operation Operation
  modification PartialAttribute
Operation ::= ENUMERATED
  0 add
  1 delete
  2 replace
AddRequest ::= SEQUENCE
  entry LDAPDN
  attributes AttributeList
AttributeList ::= SEQUENCE OF PartialAttribute
ModifyDNRequest ::= SEQUENCE
  entry LDAPDN
  newrdn RelativeLDAPDN
  deleteoldrdn BOOLEAN
  newSuperior [0] LDAPDN OPTIONAL
CompareRequest ::= SEQUENCE
  entry LDAPDN
  ava AttributeValueAssertion
ExtendedRequest ::= SEQUENCE
  requestName [0] LDAPOID
  requestValue [1] OCTET STRING OPTIONAL
ExtendedResponse ::= SEQUENCE
  resultCode ResultCode
  matchedDN LDAPDN
  diagnosticMessage LDAPString
  referral [3] Referral OPTIONAL
  responseName [10] LDAPOID OPTIONAL
  responseValue [11] OCTET STRING OPTIONAL
IntermediateResponse ::= SEQUENCE
  responseName [0] LDAPOID OPTIONAL
  responseValue [1] OCTET STRING OPTIONAL

-- RFC 1157, 4 and RFC 3416, 3
SNMP.Message ::= SEQUENCE
  version SNMP.Version
  community OCTET STRING
  data PDUs
SNMP.Version ::= INTEGER CLOSED
  0 version-1
  1 version-2c
PDUs ::= CHOICE
  get-request [0] PDU
  get-next-request [1] PDU
  response [2] PDU
  set-request [3] PDU
  trap [4] Trap-PDU
  get-bulk-request [5] BulkPDU
  inform-request [6] PDU
  snmpV2-trap [7] PDU
  report [8] PDU
PDU ::= SEQUENCE
  request-id INTEGER
  error-status ErrorStatus
  error-index INTEGER
  variable-bindings VarBindList
ErrorStatus ::= INTEGER
  0 noError
  1 tooBig
  2 noSuchName
  3 badValue
  4 readOnly
  5 genErr
  6 noAccess
  7 wrongType
  8 wrongLength
  9 wrongEncoding
  10 wrongValue
  11 noCreation
  12 inconsistentValue
  13 resourceUnavailable
  14 commitFailed
  15 undoFailed
  16 authorizationError
  17 notWritable
  18 inconsistentName
BulkPDU ::= SEQUENCE
  request-id INTEGER
  non-repeaters INTEGER
  max-repetitions INTEGER
  variable-bindings VarBindList
Trap-PDU ::= SEQUENCE
  enterprise OBJECT IDENTIFIER
  agent-addr [APPLICATION 0] IpAddress
  generic-trap GenericTrap
  specific-trap INTEGER
  time-stamp [APPLICATION 3] INTEGER
  variable-bindings VarBindList
GenericTrap ::= INTEGER
  0 coldStart
  1 warmStart
  2 linkDown
  3 linkUp
  4 authenticationFailure
  5 egpNeighborLoss
  6 enterpriseSpecific
-- RFC 2578, 2
IpAddress ::= OCTET STRING ADDRESS
VarBindList ::= SEQUENCE OF VarBind
VarBind ::= SEQUENCE
  name OBJECT IDENTIFIER
  value VarBindValue
VarBindValue ::= CHOICE
  integer-value INTEGER
  string-value OCTET STRING
  objectID-value OBJECT IDENTIFIER
  unSpecified NULL
  ipAddress-value [APPLICATION 0] IpAddress
  counter-value [APPLICATION 1] INTEGER
  unsigned-integer-value [APPLICATION 2] INTEGER
  timeticks-value [APPLICATION 3] INTEGER
  arbitrary-value [APPLICATION 4] OCTET STRING
  big-counter-value [APPLICATION 6] INTEGER
  noSuchObject [0] NULL
  noSuchInstance [1] NULL
  endOfMibView [2] NULL

-- RFC 3412, 6 and RFC 3414, 2.4
SNMPv3Message ::= SEQUENCE
  msgVersion INTEGER
  msgGlobalData HeaderData
  msgSecurityParameters OCTET STRING CONTAINING UsmSecurityParameters
  msgData ScopedPduData
HeaderData ::= SEQUENCE
  msgID INTEGER
  msgMaxSize INTEGER
  msgFlags OCTET STRING
  msgSecurityModel INTEGER
OCTET STRING CONTAINING UsmSecurityParameters
UsmSecurityParameters ::= SEQUENCE
  msgAuthoritativeEngineID OCTET STRING
  msgAuthoritativeEngineBoots INTEGER
  msgAuthoritativeEngineTime INTEGER
  msgUserName OCTET STRING
  msgAuthenticationParameters OCTET STRING
  msgPrivacyParameters OCTET STRING
ScopedPduData ::= CHOICE
  plaintext ScopedPDU
  encryptedPDU OCTET STRING
ScopedPDU ::= SEQUENCE
  contextEngineID OCTET STRING
  contextName OCTET STRING
  data PDUs
";
