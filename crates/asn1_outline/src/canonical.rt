// A quick look at whether a document is canonical, over its entries: at each header, and at the contents octets of each
// leaf.
ghost use Rattle.std.specs.Prelude.{◌≡◌, ℕ, IsTrue};
ghost use Rattle.asn1_blocks.specs.Grammar.{IsDocument};
ghost use Rattle.asn1_blocks.specs.Tree.{Trees};
ghost use Rattle.asn1_outline.specs.Entries.{HasHeaderAt, IsOutline};
ghost use Rattle.asn1_writing.specs.Canonical.{all_canonical};
ghost use Rattle.asn1_outline.specs.Inner.InEntries.{HasCanonicalAt, HasShortestAt};

use crate::entry::Entry;
use asn1_blocks::contents::is_group_tag;
use asn1_headers::header::{ASN1Class, length_size};
use asn1_writing::frequent::begin_with_frequent;
use asn1_writing::in_place::are_leaf_contents_clearly_canonical;

// Whether the entries of a document are found to be those of a canonical one: `false` says nothing.
pub(crate) fn are_clearly_canonical(octets: &[u8], entries: &[Entry]) -> bool
    requires { IsOutline octets.now entries.now }
    ensures { IsTrue result → (bs : Trees ℕ) → IsDocument octets.now bs → octets.now ≡ all_canonical bs }
{
    for entry in entries {
        if !is_clearly_canonical(octets, entry) {
            return false;
        }
    }
    true
}

// Whether the encoding of the entry has the shortest header, and the contents octets that are written for a leaf. Of a
// header of two octets, the octets say in a few comparisons what the fields of the entry say in many.
#[inline(always)]
fn is_clearly_canonical(octets: &[u8], entry: &Entry) -> bool
    requires { HasHeaderAt octets.now entry.now }
    ensures { IsTrue result → HasCanonicalAt octets.now entry.now.offset }
{
    if entry.header == 2 {
        let (_, from) = octets.split_at(entry.offset);
        if begin_with_frequent(from) {
            return true;
        }
    }
    is_clearly_canonical_by_fields(octets, entry)
}

// Whether the encoding of the entry has the shortest header, and the contents octets that are written for a leaf, by
// the fields of the entry.
#[inline(always)]
fn is_clearly_canonical_by_fields(octets: &[u8], entry: &Entry) -> bool
    requires { HasHeaderAt octets.now entry.now }
    ensures { IsTrue result → HasCanonicalAt octets.now entry.now.offset }
{
    if !is_clearly_shortest(octets, entry) {
        return false;
    }
    match entry.class {
        ASN1Class::Universal => is_clearly_canonical_universal(octets, entry),
        _ => true,
    }
}

// Whether an encoding of class Universal with the shortest header is canonical, its blocks aside.
#[inline(always)]
fn is_clearly_canonical_universal(octets: &[u8], entry: &Entry) -> bool
    requires there { HasHeaderAt octets.now entry.now }
    requires shortest { HasShortestAt octets.now entry.now }
    ensures { IsTrue result → HasCanonicalAt octets.now entry.now.offset }
{
    if is_group_tag(entry.tag) {
        return entry.constructed;
    }
    if entry.constructed {
        return false;
    }
    are_leaf_contents_clearly_canonical(entry.tag, entry.contents_in(octets))
}

// Whether the header of the entry has its shortest form, and a tag number below 31. 80 is as short as 00.
#[inline(always)]
fn is_clearly_shortest(octets: &[u8], entry: &Entry) -> bool
    requires { HasHeaderAt octets.now entry.now }
    ensures { IsTrue result → HasShortestAt octets.now entry.now }
{
    if entry.tag > 30 {
        return false;
    }
    if entry.contents == 0 && octets[entry.offset + entry.header - 1] == 0x80 {
        return false;
    }
    if entry.contents < 128 {
        entry.header == 2
    } else {
        entry.header == 1 + length_size(entry.contents)
    }
}
