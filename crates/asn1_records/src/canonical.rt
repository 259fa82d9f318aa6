// Whether the encodings that records spell are found to be canonical, by a quick look at each record.
ghost use Rattle.std.specs.Prelude.{IsTrue};
ghost use Rattle.simple_asn1.specs.Canonical.{shortest_encoding};
ghost use Rattle.asn1_records.specs.Inner.InRecords.{AreWrittenOfLeaf, HoldsBlocks, IsCanonicalBlock};

use asn1_blocks::contents::{is_group_tag, is_known};
use asn1_headers::tags::{
    BIT_STRING, BMP_STRING, BOOLEAN, GENERALIZED_TIME, IA5_STRING, INTEGER, NULL,
    OBJECT_IDENTIFIER, OCTET_STRING, PRINTABLE_STRING, TELETEX_STRING, UNIVERSAL_STRING, UTC_TIME,
    UTF8_STRING,
};
use asn1_leaves::contents::text::TextForm;
use asn1_leaves::contents::{
    bit_string, boolean, generalized_time, integer, object_identifier, text, utc_time,
};
use simple_asn1::ASN1Class;

// Whether contents octets with this tag number are found to be those that are written of a leaf.
#[inline(always)]
fn are_clearly_written_of_leaf(tag: u64, contents: &[u8]) -> bool
    ensures { IsTrue result → AreWrittenOfLeaf tag contents.now }
{
    match tag {
        BOOLEAN => boolean::are_clearly_meant(contents) && boolean::are_clearly_canonical(contents),
        INTEGER => integer::are_clearly_canonical(contents),
        BIT_STRING => bit_string::are_clearly_meant(contents)
            && bit_string::are_clearly_canonical(contents),
        OCTET_STRING => true,
        NULL => contents.is_empty(),
        OBJECT_IDENTIFIER => object_identifier::are_clearly_shortest(contents),
        UTF8_STRING => text::are_clearly_meant(TextForm::Utf8, contents),
        PRINTABLE_STRING => text::are_clearly_meant(TextForm::Printable, contents),
        TELETEX_STRING => text::are_clearly_meant(TextForm::Utf8, contents),
        IA5_STRING => true,
        UTC_TIME => utc_time::are_clearly_meant(contents),
        GENERALIZED_TIME => generalized_time::are_clearly_meant(contents)
            && generalized_time::are_clearly_canonical(contents),
        UNIVERSAL_STRING => text::are_clearly_meant(TextForm::Utf8, contents),
        BMP_STRING => text::are_clearly_meant(TextForm::Utf8, contents),
        _ => false,
    }
}

// Whether the encoding of these contents octets is found to be canonical: `false` says nothing.
#[inline(always)]
pub fn is_clearly_canonical_single(
    class: ASN1Class,
    constructed: bool,
    tag: u64,
    contents: &[u8],
) -> bool
    ensures { IsTrue result → IsCanonicalBlock (shortest_encoding class constructed tag contents.now) }
{
    match class {
        ASN1Class::Universal => {
            if !is_known(tag) {
                return true;
            }
            if constructed {
                return is_group_tag(tag) && contents.is_empty();
            }
            are_clearly_written_of_leaf(tag, contents)
        }
        _ => !constructed,
    }
}

// Whether an encoding of this class and tag number that holds so many blocks is a block.
#[inline(always)]
pub fn holds_blocks(class: ASN1Class, tag: u64, items: usize) -> bool
    ensures { IsTrue result → HoldsBlocks class tag items }
{
    match class {
        ASN1Class::Universal => is_group_tag(tag),
        _ => items == 1,
    }
}
