// A quick look at the encoding at the front of octets: whether its tag is frequent, its header has two octets, and it
// is canonical.
ghost use Rattle.std.specs.Prelude.{◌<◌, ◌∷◌, IsTrue};
ghost use Rattle.asn1_writing.specs.Inner.CanonicalEncoding.{BeginsCanonical, IsOfOneForm};

use crate::in_place::{
    are_leaf_contents_clearly_canonical, begin_with_identifier, begin_with_integer,
};
use asn1_headers::tags::NULL;

// How many octets have to stand in front: then no pattern below has to look at how many there are.
const ENOUGH: usize = 18;

// Whether such an encoding stands in front: `false` says nothing.
#[inline(always)]
pub fn begin_with_frequent(octets: &[u8]) -> bool
    ensures { IsTrue result → BeginsCanonical octets.now }
{
    if octets.len() < ENOUGH {
        return false;
    }
    match octets {
        [0x02, length, rest @ ..] => begin_with_integer(rest, *length),
        [leading, length, rest @ ..] if *length < 128 => is_frequent(*leading, *length, rest),
        _ => false,
    }
}

// Whether a leading octet, a length octet below 80 and what follows are such an encoding.
#[inline(always)]
fn is_frequent(leading: u8, length: u8, rest: &[u8]) -> bool
    requires { length < 128 }
    ensures { IsTrue result → BeginsCanonical (leading ∷ length ∷ rest.now) }
{
    if has_one_form(leading) {
        return true;
    }
    if leading == 5 && length == 0 {
        return are_leaf_contents_clearly_canonical(NULL, &[]);
    }
    leading == 6 && begin_with_identifier(rest, length as usize)
}

// Whether the leading octet is that of a SEQUENCE, a SET, an OCTET STRING, a UTF8String, a PrintableString, an
// IA5String or a UTCTime. None of these has contents octets of another form, its blocks aside.
#[inline(always)]
fn has_one_form(leading: u8) -> bool
    ensures { IsTrue result → IsOfOneForm leading }
{
    matches!(leading, 0x30 | 0x31 | 4 | 12 | 19 | 22 | 23)
}
