// Tickets and messages of Kerberos, and the negotiation of SPNEGO.
pub const TABLE: &str = "\
-- RFC 4120, 5.2
Realm ::= GeneralString
PrincipalName ::= SEQUENCE
  name-type [0] EXPLICIT NameType.Int32
  name-string [1] EXPLICIT SEQUENCE OF KerberosString
NameType.Int32 ::= INTEGER
  0 NT-UNKNOWN
  1 NT-PRINCIPAL
  2 NT-SRV-INST
  3 NT-SRV-HST
  4 NT-SRV-XHST
  5 NT-UID
  6 NT-X500-PRINCIPAL
  7 NT-SMTP-NAME
  10 NT-ENTERPRISE
KerberosString ::= GeneralString
SEQUENCE OF KerberosString
KerberosTime ::= GeneralizedTime
Microseconds ::= INTEGER
UInt32 ::= INTEGER
Int32 ::= INTEGER
Kerberos.EncryptedData ::= SEQUENCE
  etype [0] EXPLICIT EType.Int32
  kvno [1] EXPLICIT UInt32 OPTIONAL
  cipher [2] EXPLICIT OCTET STRING
-- what stands in a request to a KDC, and what a KDC answers: the value of one type is not the same in both
SEQUENCE OF PA-DATA
PA-DATA ::= SEQUENCE
  padata-type [1] EXPLICIT PaDataType.Int32
  padata-value [2] EXPLICIT Asked.OCTET STRING
Reply.SEQUENCE OF PA-DATA ::= SEQUENCE OF Reply.PA-DATA
Reply.PA-DATA ::= SEQUENCE
  padata-type [1] EXPLICIT PaDataType.Int32
  padata-value [2] EXPLICIT Answered.OCTET STRING
HostAddresses ::= SEQUENCE OF HostAddress
HostAddress ::= SEQUENCE
  addr-type [0] EXPLICIT AddrType.Int32
  address [1] EXPLICIT OCTET STRING
-- RFC 4120, 7.5.3
AddrType.Int32 ::= INTEGER
  2 IPv4
  3 Directional
  5 ChaosNet
  6 XNS
  7 ISO
  12 DECNET Phase IV
  16 AppleTalk DDP
  20 NetBios
  24 IPv6
EncryptionKey ::= SEQUENCE
  keytype [0] EXPLICIT EType.Int32
  keyvalue [1] EXPLICIT OCTET STRING
Checksum ::= SEQUENCE
  cksumtype [0] EXPLICIT CksumType.Int32
  checksum [1] EXPLICIT OCTET STRING
AuthorizationData ::= SEQUENCE OF AuthorizationData.SEQUENCE
AuthorizationData.SEQUENCE ::= SEQUENCE
  ad-type [0] EXPLICIT AdType.Int32
  ad-data [1] EXPLICIT Held.OCTET STRING
-- RFC 4120, 7.5.4; RFC 6113
AdType.Int32 ::= INTEGER
  1 AD-IF-RELEVANT
  2 AD-INTENDED-FOR-SERVER
  3 AD-INTENDED-FOR-APPLICATION-CLASS
  4 AD-KDC-ISSUED
  5 AD-AND-OR
  6 AD-MANDATORY-TICKET-EXTENSIONS
  7 AD-IN-TICKET-EXTENSIONS
  8 AD-MANDATORY-FOR-KDC
  64 OSF-DCE
  65 SESAME
  66 AD-OSF-DCE-PKI-CERTID
  71 AD-fx-fast-armor
  72 AD-fx-fast-used
  128 AD-WIN2K-PAC
  129 AD-ETYPE-NEGOTIATION

-- RFC 3961, 8; RFC 3962, 7; RFC 4757; RFC 6803; RFC 8009
EType.Int32 ::= INTEGER
  1 des-cbc-crc
  2 des-cbc-md4
  3 des-cbc-md5
  5 des3-cbc-md5
  7 des3-cbc-sha1
  9 dsaWithSHA1-CmsOID
  10 md5WithRSAEncryption-CmsOID
  11 sha1WithRSAEncryption-CmsOID
  12 rc2CBC-EnvOID
  13 rsaEncryption-EnvOID
  14 rsaES-OAEP-ENV-OID
  15 des-ede3-cbc-Env-OID
  16 des3-cbc-sha1-kd
  17 aes128-cts-hmac-sha1-96
  18 aes256-cts-hmac-sha1-96
  19 aes128-cts-hmac-sha256-128
  20 aes256-cts-hmac-sha384-192
  23 rc4-hmac
  24 rc4-hmac-exp
  25 camellia128-cts-cmac
  26 camellia256-cts-cmac
  65 subkey-keymaterial
EType.SEQUENCE OF Int32 ::= SEQUENCE OF EType.Int32
CksumType.Int32 ::= INTEGER
  1 CRC32
  2 rsa-md4
  3 rsa-md4-des
  4 des-mac
  5 des-mac-k
  6 rsa-md4-des-k
  7 rsa-md5
  8 rsa-md5-des
  9 rsa-md5-des3
  10 sha1
  12 hmac-sha1-des3-kd
  13 hmac-sha1-des3
  14 sha1
  15 hmac-sha1-96-aes128
  16 hmac-sha1-96-aes256
  17 cmac-camellia128
  18 cmac-camellia256
  19 hmac-sha256-128-aes128
  20 hmac-sha384-192-aes256

-- RFC 4120, 7.5.2; RFC 4556; RFC 4557; RFC 6112; RFC 6113; RFC 6560; RFC 6806; RFC 8070; RFC 8636; RFC 9588;
-- MS-SFU; MS-KILE
PaDataType.Int32 ::= INTEGER CHOOSING
  1 PA-TGS-REQ
  2 PA-ENC-TIMESTAMP
  3 PA-PW-SALT
  5 PA-ENC-UNIX-TIME
  6 PA-SANDIA-SECUREID
  7 PA-SESAME
  8 PA-OSF-DCE
  9 PA-CYBERSAFE-SECUREID
  10 PA-AFS3-SALT
  11 PA-ETYPE-INFO
  12 PA-SAM-CHALLENGE
  13 PA-SAM-RESPONSE
  14 PA-PK-AS-REQ_OLD
  15 PA-PK-AS-REP_OLD
  16 PA-PK-AS-REQ
  17 PA-PK-AS-REP
  18 PA-PK-OCSP-RESPONSE
  19 PA-ETYPE-INFO2
  20 PA-USE-SPECIFIED-KVNO
  21 PA-SAM-REDIRECT
  22 PA-GET-FROM-TYPED-DATA
  23 PA-SAM-ETYPE-INFO
  24 PA-ALT-PRINC
  25 PA-SERVER-REFERRAL
  30 PA-SAM-CHALLENGE2
  31 PA-SAM-RESPONSE2
  41 PA-EXTRA-TGT
  101 TD-PKINIT-CMS-CERTIFICATES
  102 TD-KRB-PRINCIPAL
  103 TD-KRB-REALM
  104 TD-TRUSTED-CERTIFIERS
  105 TD-CERTIFICATE-INDEX
  106 TD-APP-DEFINED-ERROR
  107 TD-REQ-NONCE
  108 TD-REQ-SEQ
  109 TD-DH-PARAMETERS
  111 TD-CMS-DIGEST-ALGORITHMS
  128 PA-PAC-REQUEST
  129 PA-FOR-USER
  130 PA-S4U-X509-USER
  133 PA-FX-COOKIE
  134 PA-AUTHENTICATION-SET
  135 PA-AUTH-SET-SELECTED
  136 PA-FX-FAST
  137 PA-FX-ERROR
  138 PA-ENCRYPTED-CHALLENGE
  141 PA-OTP-CHALLENGE
  142 PA-OTP-REQUEST
  144 PA-OTP-PIN-CHANGE
  147 PA-PKINIT-KX
  149 PA-REQ-ENC-PA-REP
  150 PA-AS-FRESHNESS
  151 PA-SPAKE
  165 PA-SUPPORTED-ENCTYPES
  167 PA-PAC-OPTIONS
-- what padata-value holds, by its type: RFC 4120, 5.2.7; RFC 4556, 3.2.1 and 3.2.3; RFC 6112, 4; RFC 6113, 5.4; MS-SFU,
-- 2.2.1; MS-KILE, 2.2.3 and 2.2.10. A salt, a cookie and a token for freshness (RFC 8070, 2) are octets alone
Asked.OCTET STRING ::= OCTET STRING CONTAINING AskedPaData
AskedPaData ::= KNOWN
  1 KerberosMessage
  2 PA-ENC-TIMESTAMP
  16 PA-PK-AS-REQ
  128 KERB-PA-PAC-REQUEST
  129 PA-FOR-USER
  133 NOTHING
  136 PA-FX-FAST-REQUEST
  138 Kerberos.EncryptedData
  150 NOTHING
  167 PA-PAC-OPTIONS
Answered.OCTET STRING ::= OCTET STRING CONTAINING AnsweredPaData
AnsweredPaData ::= KNOWN
  3 NOTHING
  11 ETYPE-INFO
  17 PA-PK-AS-REP
  19 ETYPE-INFO2
  133 NOTHING
  136 PA-FX-FAST-REPLY
  137 KerberosMessage
  138 Kerberos.EncryptedData
  147 Kerberos.EncryptedData
  150 NOTHING
METHOD-DATA ::= SEQUENCE OF Reply.PA-DATA
PA-ENC-TIMESTAMP ::= SEQUENCE
  etype [0] EXPLICIT EType.Int32
  kvno [1] EXPLICIT UInt32 OPTIONAL
  cipher [2] EXPLICIT OCTET STRING
PA-ENC-TS-ENC ::= SEQUENCE
  patimestamp [0] EXPLICIT KerberosTime
  pausec [1] EXPLICIT Microseconds OPTIONAL
ETYPE-INFO ::= SEQUENCE OF ETYPE-INFO-ENTRY
ETYPE-INFO-ENTRY ::= SEQUENCE
  etype [0] EXPLICIT EType.Int32
  salt [1] EXPLICIT OCTET STRING OPTIONAL
ETYPE-INFO2 ::= SEQUENCE OF ETYPE-INFO2-ENTRY
ETYPE-INFO2-ENTRY ::= SEQUENCE
  etype [0] EXPLICIT EType.Int32
  salt [1] EXPLICIT KerberosString OPTIONAL
  s2kparams [2] EXPLICIT OCTET STRING OPTIONAL
TYPED-DATA ::= SEQUENCE OF TYPED-DATA.SEQUENCE
TYPED-DATA.SEQUENCE ::= SEQUENCE
  data-type [0] EXPLICIT PaDataType.Int32
  data-value [1] EXPLICIT Held.OCTET STRING OPTIONAL
PA-PK-AS-REQ ::= SEQUENCE
  signedAuthPack [0] OCTET STRING CONTAINING ContentInfo
  trustedCertifiers [1] EXPLICIT SEQUENCE OF ExternalPrincipalIdentifier OPTIONAL
  kdcPkId [2] OCTET STRING OPTIONAL
OCTET STRING CONTAINING ContentInfo
SEQUENCE OF ExternalPrincipalIdentifier
ExternalPrincipalIdentifier ::= SEQUENCE
  subjectName [0] OCTET STRING CONTAINING Name OPTIONAL
  issuerAndSerialNumber [1] OCTET STRING CONTAINING IssuerAndSerialNumber OPTIONAL
  subjectKeyIdentifier [2] OCTET STRING OPTIONAL
OCTET STRING CONTAINING Name
OCTET STRING CONTAINING IssuerAndSerialNumber
PA-PK-AS-REP ::= CHOICE
  dhInfo [0] EXPLICIT DHRepInfo
  encKeyPack [1] OCTET STRING CONTAINING ContentInfo
DHRepInfo ::= SEQUENCE
  dhSignedData [0] OCTET STRING CONTAINING ContentInfo
  serverDHNonce [1] EXPLICIT OCTET STRING OPTIONAL
KERB-PA-PAC-REQUEST ::= SEQUENCE
  include-pac [0] EXPLICIT BOOLEAN
PA-FOR-USER ::= SEQUENCE
  userName [0] EXPLICIT PrincipalName
  userRealm [1] EXPLICIT Realm
  cksum [2] EXPLICIT Checksum
  auth-package [3] EXPLICIT KerberosString
PA-PAC-OPTIONS ::= SEQUENCE
  KerberosFlags [0] EXPLICIT PacOptions.KerberosFlags
PacOptions.KerberosFlags ::= BIT STRING
  0 claims
  1 branch-aware
  2 forward-to-full-dc
  3 resource-based-constrained-delegation
PA-FX-FAST-REQUEST ::= CHOICE
  armored-data [0] EXPLICIT KrbFastArmoredReq
KrbFastArmoredReq ::= SEQUENCE
  armor [0] EXPLICIT KrbFastArmor OPTIONAL
  req-checksum [1] EXPLICIT Checksum
  enc-fast-req [2] EXPLICIT Kerberos.EncryptedData
KrbFastArmor ::= SEQUENCE
  armor-type [0] EXPLICIT ArmorType.Int32
  armor-value [1] EXPLICIT Armor.OCTET STRING
Armor.OCTET STRING ::= OCTET STRING CONTAINING ArmorValue
ArmorValue ::= KNOWN
  1 KerberosMessage
ArmorType.Int32 ::= INTEGER CHOOSING
  1 FX_FAST_ARMOR_AP_REQUEST
PA-FX-FAST-REPLY ::= CHOICE
  armored-data [0] EXPLICIT KrbFastArmoredRep
KrbFastArmoredRep ::= SEQUENCE
  enc-fast-rep [0] EXPLICIT Kerberos.EncryptedData

-- RFC 4120, 5.3 and 5.4
Ticket ::= CHOICE
  ticket [APPLICATION 1] EXPLICIT Kerberos.Ticket
Kerberos.Ticket ::= SEQUENCE
  tkt-vno [0] EXPLICIT INTEGER
  realm [1] EXPLICIT Realm
  sname [2] EXPLICIT PrincipalName
  enc-part [3] EXPLICIT Kerberos.EncryptedData
SEQUENCE OF Ticket
KerberosMessage ::= CHOICE
  ticket [APPLICATION 1] EXPLICIT Kerberos.Ticket
  AS-REQ [APPLICATION 10] EXPLICIT KDC-REQ
  AS-REP [APPLICATION 11] EXPLICIT KDC-REP
  TGS-REQ [APPLICATION 12] EXPLICIT KDC-REQ
  TGS-REP [APPLICATION 13] EXPLICIT KDC-REP
  AP-REQ [APPLICATION 14] EXPLICIT AP-REQ
  AP-REP [APPLICATION 15] EXPLICIT AP-REP
  KRB-SAFE [APPLICATION 20] EXPLICIT KRB-SAFE
  KRB-PRIV [APPLICATION 21] EXPLICIT KRB-PRIV
  KRB-CRED [APPLICATION 22] EXPLICIT KRB-CRED
  KRB-ERROR [APPLICATION 30] EXPLICIT KRB-ERROR
MessageType.INTEGER ::= INTEGER
  10 AS-REQ
  11 AS-REP
  12 TGS-REQ
  13 TGS-REP
  14 AP-REQ
  15 AP-REP
  20 KRB-SAFE
  21 KRB-PRIV
  22 KRB-CRED
  30 KRB-ERROR
KDC-REQ ::= SEQUENCE
  pvno [1] EXPLICIT INTEGER
  msg-type [2] EXPLICIT MessageType.INTEGER
  padata [3] EXPLICIT SEQUENCE OF PA-DATA OPTIONAL
  req-body [4] EXPLICIT KDC-REQ-BODY
KDC-REQ-BODY ::= SEQUENCE
  kdc-options [0] EXPLICIT KDCOptions
  cname [1] EXPLICIT PrincipalName OPTIONAL
  realm [2] EXPLICIT Realm
  sname [3] EXPLICIT PrincipalName OPTIONAL
  from [4] EXPLICIT KerberosTime OPTIONAL
  till [5] EXPLICIT KerberosTime
  rtime [6] EXPLICIT KerberosTime OPTIONAL
  nonce [7] EXPLICIT UInt32
  etype [8] EXPLICIT EType.SEQUENCE OF Int32
  addresses [9] EXPLICIT HostAddresses OPTIONAL
  enc-authorization-data [10] EXPLICIT Kerberos.EncryptedData OPTIONAL
  additional-tickets [11] EXPLICIT SEQUENCE OF Ticket OPTIONAL
-- no list of named bits: the RFC has these names in comments, since there are 32 bits at least (5.2.8); bit 16 is of
-- RFC 8062, bit 15 of RFC 6806
KDCOptions ::= BIT STRING
  1 forwardable
  2 forwarded
  3 proxiable
  4 proxy
  5 allow-postdate
  6 postdated
  8 renewable
  11 opt-hardware-auth
  15 canonicalize
  16 request-anonymous
  26 disable-transited-check
  27 renewable-ok
  28 enc-tkt-in-skey
  30 renew
  31 validate
KDC-REP ::= SEQUENCE
  pvno [0] EXPLICIT INTEGER
  msg-type [1] EXPLICIT MessageType.INTEGER
  padata [2] EXPLICIT Reply.SEQUENCE OF PA-DATA OPTIONAL
  crealm [3] EXPLICIT Realm
  cname [4] EXPLICIT PrincipalName
  ticket [5] EXPLICIT Ticket
  enc-part [6] EXPLICIT Kerberos.EncryptedData

-- RFC 4120, 5.5 and 5.9
AP-REQ ::= SEQUENCE
  pvno [0] EXPLICIT INTEGER
  msg-type [1] EXPLICIT MessageType.INTEGER
  ap-options [2] EXPLICIT APOptions
  ticket [3] EXPLICIT Ticket
  authenticator [4] EXPLICIT Kerberos.EncryptedData
APOptions ::= BIT STRING
  1 use-session-key
  2 mutual-required
AP-REP ::= SEQUENCE
  pvno [0] EXPLICIT INTEGER
  msg-type [1] EXPLICIT MessageType.INTEGER
  enc-part [2] EXPLICIT Kerberos.EncryptedData
KRB-ERROR ::= SEQUENCE
  pvno [0] EXPLICIT INTEGER
  msg-type [1] EXPLICIT MessageType.INTEGER
  ctime [2] EXPLICIT KerberosTime OPTIONAL
  cusec [3] EXPLICIT Microseconds OPTIONAL
  stime [4] EXPLICIT KerberosTime
  susec [5] EXPLICIT Microseconds
  error-code [6] EXPLICIT ErrorCode.Int32
  crealm [7] EXPLICIT Realm OPTIONAL
  cname [8] EXPLICIT PrincipalName OPTIONAL
  realm [9] EXPLICIT Realm
  sname [10] EXPLICIT PrincipalName
  e-text [11] EXPLICIT KerberosString OPTIONAL
  e-data [12] EXPLICIT ErrorData.OCTET STRING OPTIONAL
-- RFC 4120, 5.9.1; RFC 4556, 3.2.2 and 3.2.3; RFC 6113, 5.2
ErrorData.OCTET STRING ::= OCTET STRING CONTAINING ErrorData
ErrorData ::= KNOWN
  25 METHOD-DATA
  65 TYPED-DATA
  70 TYPED-DATA
  71 TYPED-DATA
  91 METHOD-DATA
-- RFC 4120, 7.5.9; RFC 4556; RFC 6113; RFC 8636
ErrorCode.Int32 ::= INTEGER CHOOSING
  0 KDC_ERR_NONE
  1 KDC_ERR_NAME_EXP
  2 KDC_ERR_SERVICE_EXP
  3 KDC_ERR_BAD_PVNO
  4 KDC_ERR_C_OLD_MAST_KVNO
  5 KDC_ERR_S_OLD_MAST_KVNO
  6 KDC_ERR_C_PRINCIPAL_UNKNOWN
  7 KDC_ERR_S_PRINCIPAL_UNKNOWN
  8 KDC_ERR_PRINCIPAL_NOT_UNIQUE
  9 KDC_ERR_NULL_KEY
  10 KDC_ERR_CANNOT_POSTDATE
  11 KDC_ERR_NEVER_VALID
  12 KDC_ERR_POLICY
  13 KDC_ERR_BADOPTION
  14 KDC_ERR_ETYPE_NOSUPP
  15 KDC_ERR_SUMTYPE_NOSUPP
  16 KDC_ERR_PADATA_TYPE_NOSUPP
  17 KDC_ERR_TRTYPE_NOSUPP
  18 KDC_ERR_CLIENT_REVOKED
  19 KDC_ERR_SERVICE_REVOKED
  20 KDC_ERR_TGT_REVOKED
  21 KDC_ERR_CLIENT_NOTYET
  22 KDC_ERR_SERVICE_NOTYET
  23 KDC_ERR_KEY_EXPIRED
  24 KDC_ERR_PREAUTH_FAILED
  25 KDC_ERR_PREAUTH_REQUIRED
  26 KDC_ERR_SERVER_NOMATCH
  27 KDC_ERR_MUST_USE_USER2USER
  28 KDC_ERR_PATH_NOT_ACCEPTED
  29 KDC_ERR_SVC_UNAVAILABLE
  31 KRB_AP_ERR_BAD_INTEGRITY
  32 KRB_AP_ERR_TKT_EXPIRED
  33 KRB_AP_ERR_TKT_NYV
  34 KRB_AP_ERR_REPEAT
  35 KRB_AP_ERR_NOT_US
  36 KRB_AP_ERR_BADMATCH
  37 KRB_AP_ERR_SKEW
  38 KRB_AP_ERR_BADADDR
  39 KRB_AP_ERR_BADVERSION
  40 KRB_AP_ERR_MSG_TYPE
  41 KRB_AP_ERR_MODIFIED
  42 KRB_AP_ERR_BADORDER
  44 KRB_AP_ERR_BADKEYVER
  45 KRB_AP_ERR_NOKEY
  46 KRB_AP_ERR_MUT_FAIL
  47 KRB_AP_ERR_BADDIRECTION
  48 KRB_AP_ERR_METHOD
  49 KRB_AP_ERR_BADSEQ
  50 KRB_AP_ERR_INAPP_CKSUM
  51 KRB_AP_PATH_NOT_ACCEPTED
  52 KRB_ERR_RESPONSE_TOO_BIG
  60 KRB_ERR_GENERIC
  61 KRB_ERR_FIELD_TOOLONG
  62 KDC_ERR_CLIENT_NOT_TRUSTED
  63 KDC_ERROR_KDC_NOT_TRUSTED
  64 KDC_ERR_INVALID_SIG
  65 KDC_ERR_DH_KEY_PARAMETERS_NOT_ACCEPTED
  66 KDC_ERR_CERTIFICATE_MISMATCH
  67 KRB_AP_ERR_NO_TGT
  68 KDC_ERR_WRONG_REALM
  69 KRB_AP_ERR_USER_TO_USER_REQUIRED
  70 KDC_ERR_CANT_VERIFY_CERTIFICATE
  71 KDC_ERR_INVALID_CERTIFICATE
  72 KDC_ERR_REVOKED_CERTIFICATE
  73 KDC_ERR_REVOCATION_STATUS_UNKNOWN
  74 KDC_ERR_REVOCATION_STATUS_UNAVAILABLE
  75 KDC_ERR_CLIENT_NAME_MISMATCH
  76 KDC_ERR_KDC_NAME_MISMATCH
  77 KDC_ERR_INCONSISTENT_KEY_PURPOSE
  78 KDC_ERR_DIGEST_IN_CERT_NOT_ACCEPTED
  79 KDC_ERR_PA_CHECKSUM_MUST_BE_INCLUDED
  80 KDC_ERR_DIGEST_IN_SIGNED_DATA_NOT_ACCEPTED
  81 KDC_ERR_PUBLIC_KEY_ENCRYPTION_NOT_SUPPORTED
  90 KDC_ERR_PREAUTH_EXPIRED
  91 KDC_ERR_MORE_PREAUTH_DATA_REQUIRED
  92 KDC_ERR_PREAUTH_BAD_AUTHENTICATION_SET
  93 KDC_ERR_UNKNOWN_CRITICAL_FAST_OPTIONS
  100 KDC_ERR_NO_ACCEPTABLE_KDF

-- RFC 4120, 5.6 to 5.8
KRB-SAFE ::= SEQUENCE
  pvno [0] EXPLICIT INTEGER
  msg-type [1] EXPLICIT MessageType.INTEGER
  safe-body [2] EXPLICIT KRB-SAFE-BODY
  cksum [3] EXPLICIT Checksum
KRB-SAFE-BODY ::= SEQUENCE
  user-data [0] EXPLICIT Held.OCTET STRING
  timestamp [1] EXPLICIT KerberosTime OPTIONAL
  usec [2] EXPLICIT Microseconds OPTIONAL
  seq-number [3] EXPLICIT UInt32 OPTIONAL
  s-address [4] EXPLICIT HostAddress
  r-address [5] EXPLICIT HostAddress OPTIONAL
KRB-PRIV ::= SEQUENCE
  pvno [0] EXPLICIT INTEGER
  msg-type [1] EXPLICIT MessageType.INTEGER
  enc-part [3] EXPLICIT Kerberos.EncryptedData
KRB-CRED ::= SEQUENCE
  pvno [0] EXPLICIT INTEGER
  msg-type [1] EXPLICIT MessageType.INTEGER
  tickets [2] EXPLICIT SEQUENCE OF Ticket
  enc-part [3] EXPLICIT Kerberos.EncryptedData

-- what is decrypted: RFC 4120, 5.3, 5.4.2, 5.5 and 5.8.1
EncTicketPart ::= CHOICE
  encTicketPart [APPLICATION 3] EXPLICIT Kerberos.EncTicketPart
Kerberos.EncTicketPart ::= SEQUENCE
  flags [0] EXPLICIT TicketFlags
  key [1] EXPLICIT EncryptionKey
  crealm [2] EXPLICIT Realm
  cname [3] EXPLICIT PrincipalName
  transited [4] EXPLICIT TransitedEncoding
  authtime [5] EXPLICIT KerberosTime
  starttime [6] EXPLICIT KerberosTime OPTIONAL
  endtime [7] EXPLICIT KerberosTime
  renew-till [8] EXPLICIT KerberosTime OPTIONAL
  caddr [9] EXPLICIT HostAddresses OPTIONAL
  authorization-data [10] EXPLICIT AuthorizationData OPTIONAL
TransitedEncoding ::= SEQUENCE
  tr-type [0] EXPLICIT TrType.Int32
  contents [1] EXPLICIT OCTET STRING
TrType.Int32 ::= INTEGER
  1 DOMAIN-X500-COMPRESS
-- as those of KDCOptions no list of named bits; bit 15 is of RFC 6806, bit 16 of RFC 8062
TicketFlags ::= BIT STRING
  1 forwardable
  2 forwarded
  3 proxiable
  4 proxy
  5 may-postdate
  6 postdated
  7 invalid
  8 renewable
  9 initial
  10 pre-authent
  11 hw-authent
  12 transited-policy-checked
  13 ok-as-delegate
  15 enc-pa-rep
  16 anonymous
EncKrbCredPart ::= CHOICE
  encKrbCredPart [APPLICATION 29] EXPLICIT Kerberos.EncKrbCredPart
Kerberos.EncKrbCredPart ::= SEQUENCE
  ticket-info [0] EXPLICIT SEQUENCE OF KrbCredInfo
  nonce [1] EXPLICIT UInt32 OPTIONAL
  timestamp [2] EXPLICIT KerberosTime OPTIONAL
  usec [3] EXPLICIT Microseconds OPTIONAL
  s-address [4] EXPLICIT HostAddress OPTIONAL
  r-address [5] EXPLICIT HostAddress OPTIONAL
SEQUENCE OF KrbCredInfo
KrbCredInfo ::= SEQUENCE
  key [0] EXPLICIT EncryptionKey
  prealm [1] EXPLICIT Realm OPTIONAL
  pname [2] EXPLICIT PrincipalName OPTIONAL
  flags [3] EXPLICIT TicketFlags OPTIONAL
  authtime [4] EXPLICIT KerberosTime OPTIONAL
  starttime [5] EXPLICIT KerberosTime OPTIONAL
  endtime [6] EXPLICIT KerberosTime OPTIONAL
  renew-till [7] EXPLICIT KerberosTime OPTIONAL
  srealm [8] EXPLICIT Realm OPTIONAL
  sname [9] EXPLICIT PrincipalName OPTIONAL
  caddr [10] EXPLICIT HostAddresses OPTIONAL

-- RFC 2743, 3.1 and RFC 4178, 4.2
GSSAPI-Token ::= CHOICE
  initialContextToken [APPLICATION 0] InitialContextToken
  negTokenInit [0] EXPLICIT NegTokenInit
  negTokenResp [1] EXPLICIT NegTokenResp
InitialContextToken ::= SEQUENCE
  thisMech OBJECT IDENTIFIER
  innerContextToken InnerContextToken
InnerContextToken ::= OPEN
  1.3.6.1.5.5.2 NegotiationToken
NegotiationToken ::= CHOICE
  negTokenInit [0] EXPLICIT NegTokenInit
  negTokenResp [1] EXPLICIT NegTokenResp
NegTokenInit ::= SEQUENCE
  mechTypes [0] EXPLICIT MechTypeList
  reqFlags [1] EXPLICIT ContextFlags OPTIONAL
  mechToken [2] EXPLICIT Held.OCTET STRING OPTIONAL
  mechListMIC [3] EXPLICIT OCTET STRING OPTIONAL
ContextFlags ::= BIT STRING NAMED
  0 delegFlag
  1 mutualFlag
  2 replayFlag
  3 sequenceFlag
  4 anonFlag
  5 confFlag
  6 integFlag
MechTypeList ::= SEQUENCE OF MechType
MechType ::= OBJECT IDENTIFIER
NegTokenResp ::= SEQUENCE
  negState [0] EXPLICIT NegState OPTIONAL
  supportedMech [1] EXPLICIT MechType OPTIONAL
  responseToken [2] EXPLICIT Held.OCTET STRING OPTIONAL
  mechListMIC [3] EXPLICIT OCTET STRING OPTIONAL
NegState ::= ENUMERATED
  0 accept-completed
  1 accept-incomplete
  2 reject
  3 request-mic
";
