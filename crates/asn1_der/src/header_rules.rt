// What DER asks of an encoding by its header, beside what it holds.
ghost use Rattle.std.specs.Prelude.{◌≡◌, ◌↔◌, ◌-◌, ◌≤◌, ℕ, List, IsTrue, length, slice_range, false, true};
ghost use Rattle.asn1_headers.specs.declared.header.ASN1Class.TheVariants.{Universal};
ghost use Rattle.asn1_blocks.specs.Places.{HeaderFound};
ghost use Rattle.asn1_der.specs.Der.{AreDerEncodings, AreOfType, IsRightAlone, is_constructed_type as is_constructed_type_is, is_reserved as is_reserved_is};
ghost use Rattle.asn1_der.specs.Steps.{AreDer, HasParts, HasShortest, IsDerAlone, IsWhole};

use crate::contents::has_der_contents;
use crate::external::{is_external, is_identified};
use crate::order::is_in_order;
use asn1_blocks::parsed::PlacedHeader;
use asn1_headers::header::ASN1Class;
use asn1_headers::tags::{
    BMP_STRING, BOOLEAN, CHARACTER_STRING, EMBEDDED_PDV, END_OF_CONTENTS, ENUMERATED, EXTERNAL,
    NUMERIC_STRING, OBJECT_DESCRIPTOR, REAL, RELATIVE_OID_IRI, RESERVED, SEQUENCE, SET, TIME,
    UNIVERSAL_STRING, UTF8_STRING,
};

// Whether an encoding with the header is one of DER, if its items are.
pub fn is_der_alone(octets: &[u8], _offset: usize, _limit: usize, header: &PlacedHeader) -> bool
    requires found { HeaderFound octets.now _offset _limit header.now }
    requires within { _limit ≤ length octets.now }
    ensures right { IsTrue result → IsDerAlone (slice_range octets.now _offset header.now.end) header.now.class
        header.now.constructed header.now.tag (slice_range octets.now header.now.start header.now.end) }
    ensures needed { IsWhole (slice_range octets.now _offset header.now.end) header.now.class
        header.now.constructed header.now.tag (slice_range octets.now header.now.start header.now.end) →
        IsTrue result }
{
    is_shortest(header) && is_right(header, &octets[header.start..header.end])
}

// Whether the header is the shortest of its tag and its length.
fn is_shortest(header: &PlacedHeader) -> bool
    ensures { (identifier len : List ℕ) → HasParts header.now identifier len
        → IsTrue result
        ↔ HasShortest identifier len header.now.class header.now.constructed header.now.tag
        (header.now.end - header.now.start) }
{
    header.has_shortest_identifier() && header.has_shortest_length()
}

// Whether contents octets are right for the class, the form and the tag, if the items are.
fn is_right(header: &PlacedHeader, contents: &[u8]) -> bool
    ensures right { IsTrue result → IsRightAlone header.now.class header.now.constructed header.now.tag contents.now }
    ensures needed { IsRightAlone header.now.class header.now.constructed header.now.tag contents.now →
        (header.now.constructed ≡ true → AreDer contents.now) → IsTrue result }
{
    match (header.class, header.tag.to_u64()) {
        (ASN1Class::Universal, Some(tag)) => is_right_type(header.constructed, tag, contents),
        (ASN1Class::Universal, None) => false,
        _ => true,
    }
}

fn is_right_type(constructed: bool, tag: u64, contents: &[u8]) -> bool
    ensures right { IsTrue result → IsRightAlone Universal constructed tag contents.now }
    ensures needed { IsRightAlone Universal constructed tag contents.now
        → (constructed ≡ true → AreDer contents.now) → IsTrue result }
{
    if constructed {
        tag == SEQUENCE || is_constructed_type(tag) && are_of_type(tag, contents)
    } else {
        is_right_primitive(tag, contents)
    }
}

// Whether contents octets are right for a primitive encoding of class Universal with the tag number.
pub fn is_right_primitive(tag: u64, contents: &[u8]) -> bool
    ensures { IsTrue result ↔ IsRightAlone Universal false tag contents.now }
{
    is_primitive_type(tag) && has_der_contents(tag, contents)
}

// Whether encodings are those that the constructed type with the tag number has, if they are DER.
pub fn are_of_type(tag: u64, contents: &[u8]) -> bool
    ensures { (items : List (List ℕ)) → AreDerEncodings contents.now items →
        IsTrue result ↔ AreOfType tag contents.now items }
{
    match tag {
        SET => is_in_order(contents),
        EXTERNAL => is_external(contents),
        EMBEDDED_PDV | CHARACTER_STRING => is_identified(contents),
        _ => true,
    }
}

// Whether no type has the tag number.
pub fn is_reserved(tag: u64) -> bool
    ensures { result ≡ is_reserved_is tag }
{
    tag == END_OF_CONTENTS || tag == RESERVED || tag > RELATIVE_OID_IRI
}

// Whether a type with the tag number is primitive.
fn is_primitive_type(tag: u64) -> bool
    ensures { IsTrue result ↔ (is_reserved_is tag ≡ false) × (is_constructed_type_is tag ≡ false) }
{
    matches!(
        tag,
        BOOLEAN..=OBJECT_DESCRIPTOR
            | REAL
            | ENUMERATED
            | UTF8_STRING..=TIME
            | NUMERIC_STRING..=UNIVERSAL_STRING
            | BMP_STRING..=RELATIVE_OID_IRI
    )
}

// Whether the type with the tag number is always constructed.
pub fn is_constructed_type(tag: u64) -> bool
    ensures { result ≡ is_constructed_type_is tag }
{
    matches!(
        tag,
        EXTERNAL | EMBEDDED_PDV | SEQUENCE | SET | CHARACTER_STRING
    )
}
