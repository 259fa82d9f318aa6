// How many contents octets are written of a block that holds no others, told by the octets that came: no value is made
// of them, which might take as much memory as they.
ghost use Rattle.std.specs.Prelude.{◌≡◌, ◌⊎◌, ◌≤◌, ℕ, List, length, IfSome};
ghost use Rattle.std.specs.List.{flat_map};
ghost use Rattle.asn1_blocks.specs.Contents.{string_tag};
ghost use Rattle.asn1_leaves.specs.Contents.BitString.{BitStringContents, bit_string_contents};
ghost use Rattle.asn1_leaves.specs.Contents.GeneralizedTime.{GeneralizedTimeContents, generalized_time_contents};
ghost use Rattle.asn1_leaves.specs.Contents.Integer.{integer_contents};
ghost use Rattle.asn1_leaves.specs.Contents.Moment.{Moment};
ghost use Rattle.asn1_leaves.specs.Contents.ObjectIdentifier.{ObjectIdentifierContents, Subidentifiers, object_identifier_contents};
ghost use Rattle.asn1_leaves.specs.Contents.Text.{TextContents, text_form};
ghost use Rattle.asn1_leaves.specs.StringKind.{StringKind};
ghost use Rattle.asn1_numbers.specs.Base128.{shortest_base128};
ghost use Rattle.asn1_numbers.specs.TwosComplement.{signed_number};
ghost use Rattle.asn1_writing.specs.Inner.Sizes.{AreWrittenOf, AreWrittenOfLeaf};

use asn1_blocks::contents::form_of;
use asn1_blocks::parsed::PlacedHeader;
use asn1_headers::header::ASN1Class;
use asn1_headers::tags::{
    BIT_STRING, BOOLEAN, GENERALIZED_TIME, INTEGER, NULL, OBJECT_IDENTIFIER, OCTET_STRING, UTC_TIME,
};
use asn1_leaves::contents::{
    bit_string, boolean, generalized_time, integer, object_identifier, text, utc_time,
};

// How many are written of the contents octets behind the header, where they are found to be those of a block.
#[inline(always)]
pub(crate) fn size_in_place(header: &PlacedHeader, contents: &[u8]) -> Option<usize>
    ensures { IfSome result (AreWrittenOf header.now.class header.now.tag contents.now) }
{
    match header.class {
        ASN1Class::Universal => match header.tag.to_u64() {
            Some(tag) => leaf_size(tag, contents),
            None => Some(contents.len()),
        },
        _ => Some(contents.len()),
    }
}

// How many are written of contents octets of class Universal with this tag number.
#[inline(always)]
fn leaf_size(tag: u64, contents: &[u8]) -> Option<usize>
    ensures { IfSome result (AreWrittenOfLeaf tag contents.now) }
{
    match tag {
        BOOLEAN => boolean::are_clearly_meant(contents).then_some(contents.len()),
        INTEGER => Some(integer_size(contents)),
        BIT_STRING => bit_string_size(contents),
        OCTET_STRING => Some(contents.len()),
        NULL => Some(0),
        OBJECT_IDENTIFIER => object_identifier_size(contents),
        UTC_TIME => utc_time::are_clearly_meant(contents).then_some(contents.len()),
        GENERALIZED_TIME => generalized_time_size(contents),
        _ => text_size(tag, contents),
    }
}

// How many octets the shortest form of an INTEGER has (X.690 8.3.2).
#[inline(always)]
fn integer_size(contents: &[u8]) -> usize
    ensures { result ≡ length (integer_contents (signed_number contents.now)) }
{
    if contents.is_empty() {
        return 1;
    }
    let mut needless = 0;
    while !integer::is_shortest_integer(&contents[needless..]) {
        needless += 1;
    }
    contents.len() - needless
}

// How many octets are written of a BIT STRING: of no bits none.
#[inline(always)]
fn bit_string_size(contents: &[u8]) -> Option<usize>
    ensures { IfSome result (λ size. (n : ℕ) × (v : List ℕ) × BitStringContents n v contents.now
        × (size ≡ length (bit_string_contents n v))) }
{
    let Some((unused, octets)) = contents.split_first() else {
        return Some(0);
    };
    let bits = octets.len().checked_mul(8)?.checked_sub(*unused as usize)?;
    if bits == 0 {
        return Some(0);
    }
    Some(contents.len())
}

// How many octets an OBJECT IDENTIFIER has without the octets 80 (hexadecimal) that subidentifiers begin with (X.690
// 8.19.2).
#[inline(always)]
fn object_identifier_size(contents: &[u8]) -> Option<usize>
    ensures { IfSome result (λ size. (components : List ℕ) × ObjectIdentifierContents components contents.now
        × (size ≡ length (object_identifier_contents components))) }
{
    if !object_identifier::are_clearly_meant(contents) {
        return None;
    }
    let (_, rest) = contents.split_first()?;
    Some(1 + subidentifiers_size(rest))
}

// How many octets subidentifiers have in their shortest form.
#[inline(always)]
fn subidentifiers_size(octets: &[u8]) -> usize
    ensures shortest { (ns : List ℕ) → Subidentifiers ns octets.now
        → result ≡ length (flat_map shortest_base128 ns) }
    ensures within { result ≤ length octets.now }
{
    let mut size = 0;
    let mut begins = true;
    for octet in octets {
        if !begins || *octet != 0x80 {
            begins = *octet < 0x80;
            size += 1;
        }
    }
    size
}

#[inline(never)]
fn generalized_time_size(contents: &[u8]) -> Option<usize>
    ensures { IfSome result (λ size. (m : Moment) × GeneralizedTimeContents m contents.now
        × (size ≡ length (generalized_time_contents m))) }
{
    let moment = generalized_time::moment(contents)?;
    generalized_time::size(&moment).ok()
}

// How many octets are written of a string of characters, or of contents octets with the tag of none: as many as came.
#[inline(always)]
fn text_size(tag: u64, contents: &[u8]) -> Option<usize>
    ensures same { IfSome result (λ size. size ≡ length contents.now) }
    ensures meant { IfSome result (λ _. ((kind : StringKind) → tag ≡ string_tag kind → ⊥)
        ⊎ ((kind : StringKind) × (cs : List ℕ) × (tag ≡ string_tag kind)
        × TextContents (text_form kind) cs contents.now)) }
{
    match form_of(tag) {
        Some(form) => text::are_clearly_meant(form, contents).then_some(contents.len()),
        None => Some(contents.len()),
    }
}
