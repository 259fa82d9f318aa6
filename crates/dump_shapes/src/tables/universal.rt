// Types of class Universal (X.680 8.4, table 1), and those that are made of them alone.
pub const TABLE: &str = "\
-- X.680 8.4, table 1
BOOLEAN ::= 1
INTEGER ::= 2
BIT STRING ::= 3
OCTET STRING ::= 4
NULL ::= 5
OBJECT IDENTIFIER ::= 6
ObjectDescriptor ::= 7
REAL ::= 9
ENUMERATED ::= 10
UTF8String ::= 12
RELATIVE-OID ::= 13
SEQUENCE ::= 16
SET ::= 17
NumericString ::= 18
PrintableString ::= 19
TeletexString ::= 20
IA5String ::= 22
UTCTime ::= 23
GeneralizedTime ::= 24
VisibleString ::= 26
GeneralString ::= 27
UniversalString ::= 28
BMPString ::= 30
-- what is said to be no encoding
NOTHING ::= KNOWN
-- strings that may hold encodings, of which the type is not known
Held.BIT STRING ::= BIT STRING HOLDING
Held.OCTET STRING ::= OCTET STRING HOLDING
-- octets that are an address of IP
Address.OCTET STRING ::= OCTET STRING ADDRESS
ANY ::= OPEN
SEQUENCE OF INTEGER
SEQUENCE OF OCTET STRING
SEQUENCE OF UTF8String
SEQUENCE OF OBJECT IDENTIFIER

-- RFC 5280, appendix A.1
DirectoryString ::= CHOICE
  teletexString TeletexString
  printableString PrintableString
  universalString UniversalString
  utf8String UTF8String
  bmpString BMPString

-- X.690 8.18.1
EXTERNAL ::= [UNIVERSAL 8] SEQUENCE
  direct-reference OBJECT IDENTIFIER OPTIONAL
  indirect-reference INTEGER OPTIONAL
  data-value-descriptor ObjectDescriptor OPTIONAL
  encoding ExternalEncoding
ExternalEncoding ::= CHOICE
  single-ASN1-type [0] EXPLICIT ANY
  octet-aligned [1] Held.OCTET STRING
  arbitrary [2] BIT STRING

-- X.680 36.5 and 44.5, with automatic tags
EMBEDDED PDV ::= [UNIVERSAL 11] SEQUENCE
  identification [0] EXPLICIT Identification
  data-value-descriptor [1] ObjectDescriptor OPTIONAL
  data-value [2] Held.OCTET STRING
CHARACTER STRING ::= [UNIVERSAL 29] SEQUENCE
  identification [0] EXPLICIT Identification
  data-value-descriptor [1] ObjectDescriptor OPTIONAL
  string-value [2] OCTET STRING
Identification ::= CHOICE
  syntaxes [0] Syntaxes
  syntax [1] OBJECT IDENTIFIER
  presentation-context-id [2] INTEGER
  context-negotiation [3] ContextNegotiation
  transfer-syntax [4] OBJECT IDENTIFIER
  fixed [5] NULL
Syntaxes ::= SEQUENCE
  abstract [0] OBJECT IDENTIFIER
  transfer [1] OBJECT IDENTIFIER
ContextNegotiation ::= SEQUENCE
  presentation-context-id [0] INTEGER
  transfer-syntax [1] OBJECT IDENTIFIER

-- RFC 5280, 4.1
Time ::= CHOICE
  utcTime UTCTime
  generalTime GeneralizedTime
";
