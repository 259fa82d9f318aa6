// Types by their tags.
ghost use Rattle.std.specs.Prelude.{◌≡◌, None, get_or, option_map};
ghost use Rattle.asn1_headers.specs.Names.{type_name as name_of, universal_names};

use crate::header::ASN1Class;
use crate::tags::{
    BIT_STRING, BMP_STRING, BOOLEAN, CHARACTER_STRING, DATE, DATE_TIME, DURATION, EMBEDDED_PDV,
    END_OF_CONTENTS, ENUMERATED, EXTERNAL, GENERAL_STRING, GENERALIZED_TIME, GRAPHIC_STRING,
    IA5_STRING, INTEGER, NULL, NUMERIC_STRING, OBJECT_DESCRIPTOR, OBJECT_IDENTIFIER, OCTET_STRING,
    OID_IRI, PRINTABLE_STRING, REAL, RELATIVE_OID, RELATIVE_OID_IRI, RESERVED, SEQUENCE, SET,
    TELETEX_STRING, TIME, TIME_OF_DAY, UNIVERSAL_STRING, UTC_TIME, UTF8_STRING, VIDEOTEX_STRING,
    VISIBLE_STRING,
};

// The name of the type with the class and the tag number (X.680 8.4, table 1), if there is one.
pub fn type_name(class: ASN1Class, tag: u64) -> Option<&'static str>
    ensures { option_map (λ name. name.now) result ≡ name_of class tag }
{
    match class {
        ASN1Class::Universal => universal_name(tag),
        ASN1Class::Application | ASN1Class::ContextSpecific | ASN1Class::Private => None,
    }
}

// The name of the type of class Universal with the tag number.
fn universal_name(tag: u64) -> Option<&'static str>
    ensures { option_map (λ name. name.now) result ≡ get_or universal_names tag None }
{
    match tag {
        END_OF_CONTENTS => Some("end-of-contents"),
        BOOLEAN => Some("BOOLEAN"),
        INTEGER => Some("INTEGER"),
        BIT_STRING => Some("BIT STRING"),
        OCTET_STRING => Some("OCTET STRING"),
        NULL => Some("NULL"),
        OBJECT_IDENTIFIER => Some("OBJECT IDENTIFIER"),
        OBJECT_DESCRIPTOR => Some("ObjectDescriptor"),
        EXTERNAL => Some("EXTERNAL"),
        REAL => Some("REAL"),
        ENUMERATED => Some("ENUMERATED"),
        EMBEDDED_PDV => Some("EMBEDDED PDV"),
        UTF8_STRING => Some("UTF8String"),
        RELATIVE_OID => Some("RELATIVE-OID"),
        TIME => Some("TIME"),
        RESERVED => None,
        SEQUENCE => Some("SEQUENCE"),
        SET => Some("SET"),
        NUMERIC_STRING => Some("NumericString"),
        PRINTABLE_STRING => Some("PrintableString"),
        TELETEX_STRING => Some("TeletexString"),
        VIDEOTEX_STRING => Some("VideotexString"),
        IA5_STRING => Some("IA5String"),
        UTC_TIME => Some("UTCTime"),
        GENERALIZED_TIME => Some("GeneralizedTime"),
        GRAPHIC_STRING => Some("GraphicString"),
        VISIBLE_STRING => Some("VisibleString"),
        GENERAL_STRING => Some("GeneralString"),
        UNIVERSAL_STRING => Some("UniversalString"),
        CHARACTER_STRING => Some("CHARACTER STRING"),
        BMP_STRING => Some("BMPString"),
        DATE => Some("DATE"),
        TIME_OF_DAY => Some("TIME-OF-DAY"),
        DATE_TIME => Some("DATE-TIME"),
        DURATION => Some("DURATION"),
        OID_IRI => Some("OID-IRI"),
        RELATIVE_OID_IRI => Some("RELATIVE-OID-IRI"),
        37.. => None,
    }
}
