// What an entry says of its block, and where its octets lie in the document.
ghost use Rattle.std.specs.Prelude.{◌≡◌, ◌≢◌, ◌↔◌, ◌+◌, ◌<◌, ◌^◌, IsTrue, MatchOption, option_map};
ghost use Rattle.asn1_headers.specs.Names.{type_name as name_of_type};
ghost use Rattle.asn1_headers.specs.declared.header.ASN1Class.TheVariants.{Universal};
ghost use Rattle.asn1_leaves.specs.Contents.Text.{text_form};
ghost use Rattle.asn1_leaves.specs.StringKind.{StringKind};
ghost use Rattle.asn1_blocks.specs.Contents.{string_tag};
ghost use Rattle.asn1_outline.specs.InStrings.{later};
ghost use Rattle.asn1_outline.specs.Shapes.{IsWithin, contents_octets, encoding_octets};

use crate::entry::Entry;
use asn1_blocks::contents::form_of;
use asn1_headers::header::ASN1Class;
use asn1_headers::types::type_name;
use asn1_leaves::contents::text::TextForm;

impl Entry {
    /// The name of its type, if its tag is of class Universal and has one (X.680 8.4, table 1).
    pub fn type_name(&self) -> Option<&'static str>
        ensures { option_map (λ name. name.now) result ≡ name_of_type self.now.class self.now.tag }
    {
        type_name(self.class, self.tag)
    }

    // Whether it is of class Universal with the tag number.
    pub(crate) fn is_universal(&self, tag: u64) -> bool
        ensures { IsTrue result ↔ ((self.now.class ≡ Universal) × (self.now.tag ≡ tag)) }
    {
        match self.class {
            ASN1Class::Universal => self.tag == tag,
            _ => false,
        }
    }

    // Whether it is of another class than Universal and has exactly one item.
    pub(crate) fn is_tagged_with_one_item(&self) -> bool
        ensures { IsTrue result ↔ ((self.now.class ≢ Universal) × (self.now.items ≡ 1)) }
    {
        match self.class {
            ASN1Class::Universal => false,
            _ => self.items == 1,
        }
    }

    // The form of a string.
    pub(crate) fn text_form(&self) -> Option<TextForm>
        ensures { MatchOption result
            ((kind : StringKind) → (self.now.class ≡ Universal) × (self.now.tag ≡ string_tag kind) → ⊥)
            (λ form. (self.now.class ≡ Universal) × (kind : StringKind)
            × (self.now.tag ≡ string_tag kind) × (form ≡ text_form kind)) }
    {
        match self.class {
            ASN1Class::Universal => form_of(self.tag),
            _ => None,
        }
    }

    // The octets of its encoding in the document.
    #[inline(always)]
    pub(crate) fn encoding_in<'a>(&self, document: &'a [u8]) -> &'a [u8]
        requires { IsWithin document.now self.now }
        ensures { result.now ≡ encoding_octets document.now self.now }
    {
        &document[self.offset..self.offset + self.header + self.contents]
    }

    // Its contents octets in the document.
    #[inline(always)]
    pub(crate) fn contents_in<'a>(&self, document: &'a [u8]) -> &'a [u8]
        requires { IsWithin document.now self.now }
        ensures { result.now ≡ contents_octets document.now self.now }
    {
        let start = self.offset + self.header;
        &document[start..start + self.contents]
    }

    // The entry with an offset that is greater by so much.
    pub(crate) fn later(&self, start: usize) -> Entry
        requires { start + self.now.offset < 2 ^ 64 }
        ensures { result ≡ later start self.now }
    {
        Entry {
            offset: start + self.offset,
            ..*self
        }
    }
}
