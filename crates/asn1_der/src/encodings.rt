// Encodings one after another by their headers.
ghost use Rattle.std.specs.Prelude.{◌≡◌, ◌↔◌, ◌<◌, ◌≤◌, ◌+◌, ◌++◌, ◌^◌, Bool, List, ℕ, IsTrue};
ghost use Rattle.asn1_headers.specs.Header.{IsIdentifier};
ghost use Rattle.asn1_headers.specs.declared.header.ASN1Class.{ASN1Class};
ghost use Rattle.asn1_blocks.specs.Places.{IsEncoding};
ghost use Rattle.asn1_der.specs.Departures.{AreEncodings, is_open as is_open_is};
ghost use Rattle.asn1_der.specs.Listing.{is_at_end as is_at_end_is};

use asn1_blocks::encoding::Encodings;
use asn1_headers::header::split_identifier;
use asn1_headers::indefinite::{begins_with_end, is_indefinite};

// Whether end-of-contents octets of an encoding that is open stand at the front.
pub fn is_at_end(unended: usize, octets: &[u8]) -> bool
    ensures { result ≡ is_at_end_is unended octets.now }
{
    unended > 0 && begins_with_end(octets)
}

// Whether an encoding is open behind its header.
fn is_open(constructed: bool, len: &[u8]) -> bool
    ensures { result ≡ is_open_is constructed len.now }
{
    constructed && is_indefinite(len)
}

// Whether the encoding, or the header, is that of an encoding that is open.
fn is_open_encoding(encoding: &[u8]) -> bool
    ensures { (e : IsEncoding encoding.now) → result ≡ is_open_is e.constructed e.encoding.len }
{
    let (identifier, behind) = split_identifier(encoding);
    is_open(is_constructed(identifier), behind)
}

// Whether identifier octets are those of a constructed encoding.
fn is_constructed(identifier: &[u8]) -> bool
    ensures { (class : ASN1Class) (constructed : Bool) (tag : ℕ)
        → IsIdentifier identifier.now class constructed tag → result ≡ constructed }
{
    match identifier {
        [leading, ..] => *leading / 32 % 2 == 1,
        [] => false,
    }
}

// Whether the octets are encodings one after another.
pub fn are_encodings(octets: &[u8]) -> bool
    ensures { IsTrue result ↔ AreEncodings 0 octets.now }
{
    let mut unended = 0;
    let mut encodings = Encodings::of(octets);
    while let Some(encoding) = encodings.next() {
        unended = unended_behind(unended, encoding);
    }
    encodings.rest.is_empty() && unended == 0
}

// How many encodings are open behind one, or behind end-of-contents octets, which are an encoding by their header.
fn unended_behind(unended: usize, encoding: &[u8]) -> usize
    requires { unended + 1 < 2 ^ 64 }
    ensures same { (rest : List ℕ) → IsEncoding encoding.now →
        AreEncodings unended (encoding.now ++ rest) ↔ AreEncodings result rest }
    ensures more { result ≤ unended + 1 }
{
    if is_at_end(unended, encoding) {
        unended - 1
    } else if is_open_encoding(encoding) {
        unended + 1
    } else {
        unended
    }
}
