// Contents octets with octets that they do not take.
ghost use Rattle.std.specs.Prelude.{◌≡◌};
ghost use Rattle.asn1_der.specs.Padding.{has_padded_component as has_padded_component_is, has_padded_fraction as has_padded_fraction_is, is_padded_number as is_padded_number_is, last_octet as last_octet_is};

use asn1_leaves::contents::integer::is_shortest_integer;

// Where the point of a GeneralizedTime stands that has a fraction of a second.
const POINT: usize = 14;

pub fn is_padded_number(contents: &[u8]) -> bool
    ensures { result ≡ is_padded_number_is contents.now }
{
    !is_shortest_integer(contents)
}

pub fn has_padded_component(contents: &[u8]) -> bool
    ensures { result ≡ has_padded_component_is contents.now }
{
    let mut begins = true;
    for octet in contents {
        if begins && *octet == 128 {
            return true;
        }
        begins = *octet < 128;
    }
    false
}

pub fn has_padded_fraction(contents: &[u8]) -> bool
    ensures { result ≡ has_padded_fraction_is contents.now }
{
    if contents.len() <= POINT + 1 {
        return false;
    }
    let last = contents[contents.len() - 2];
    contents[POINT] != b'.' || last == b'0' || last == b'.'
}

// The last octet, 0 of none.
pub fn last_octet(octets: &[u8]) -> u8
    ensures { result ≡ last_octet_is octets.now }
{
    match octets.last() {
        Some(octet) => *octet,
        None => 0,
    }
}
