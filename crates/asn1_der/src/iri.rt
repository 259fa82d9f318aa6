// Contents octets of an OID-IRI and a RELATIVE-OID-IRI (X.690 8.21, 8.22).
ghost use Rattle.std.specs.Prelude.{◌≡◌};
ghost use Rattle.std.specs.List.{list_all};
ghost use Rattle.std.specs.Str.{chars};
ghost use Rattle.asn1_der.specs.Iri.{are_label_characters as are_label_characters_are, are_labels as are_labels_is, is_iri as is_iri_is, is_label as is_label_is, is_label_character as is_label_character_is, is_padded_decimal as is_padded_decimal_is};

use crate::real::are_digits;

// Whether contents octets are those of an OID-IRI.
#[inline(never)]
pub fn is_iri(contents: &[u8]) -> bool
    ensures { result ≡ is_iri_is contents.now }
{
    match contents {
        [b'/', labels @ ..] => are_labels(labels),
        _ => false,
    }
}

// Whether octets are labels with a solidus between each two, as those of a RELATIVE-OID-IRI are.
#[tactic(auto, unfolding(crate::specs::Iri::are_labels))]
#[inline(never)]
pub fn are_labels(octets: &[u8]) -> bool
    ensures { result ≡ are_labels_is octets.now }
{
    octets
        .split(|octet| *octet == b'/')
        .all(|label| is_label(label))
}

#[tactic(auto, unfolding(crate::specs::Iri::is_label))]
fn is_label(label: &[u8]) -> bool
    ensures { result ≡ is_label_is label.now }
{
    !label.is_empty() && !is_padded_decimal(label) && are_label_characters(label)
}

fn are_label_characters(octets: &[u8]) -> bool
    ensures { result ≡ are_label_characters_are octets.now }
{
    match str::from_utf8(octets) {
        Ok(text) => is_label_text(text),
        Err(_) => false,
    }
}

fn is_label_text(text: &str) -> bool
    ensures { result ≡ list_all is_label_character_is (chars text.now) }
{
    text.chars().all(|c| is_label_character(c as u32))
}

// Whether it is a number with a 0 in front.
fn is_padded_decimal(label: &[u8]) -> bool
    ensures { result ≡ is_padded_decimal_is label.now }
{
    match label {
        [b'0', digits @ ..] => !digits.is_empty() && are_digits(digits),
        _ => false,
    }
}

#[tactic(auto, unfolding(crate::specs::Iri::is_label_character))]
fn is_label_character(c: u32) -> bool
    ensures { result ≡ is_label_character_is c }
{
    match c {
        0x30..=0x39 | 0x41..=0x5A | 0x61..=0x7A | 0x2D | 0x2E | 0x5F | 0x7E => true,
        0xA0..=0xD7FF | 0xF900..=0xFDCF | 0xFDF0..=0xFFEF => true,
        0xE_0000..=0xE_0FFF => false,
        0x1_0000..=0xE_FFFD => c % 0x1_0000 < 0xFFFE,
        _ => false,
    }
}
