// The names of an element, by which field it is, and what its type says of its contents octets.
use crate::shapes::{Shapes, ValueRule};
use crate::spot::Spot;
use asn1_headers::tags::{ENUMERATED, INTEGER};

/// The names of an element.
#[derive(Clone, Copy, Debug, Drop, PartialEq)]
pub struct Named {
    /// The field that it is, or the alternative of a choice. Items of a SEQUENCE OF have none.
    pub field: Option<&'static str>,
    /// The name of its type.
    pub of: &'static str,
    /// Whether that begins with the name of its tag.
    pub is_of_tag: bool,
    /// Whether what is named, the field, the alternative or else the type, has no other tag.
    pub is_tag_told: bool,
    /// The alternative of a choice that its tag chooses, where it is a field with another name.
    pub alternative: Option<&'static str>,
    /// The name of its value, where the type has names for numbers.
    pub value: Option<&'static str>,
}

/// The type of an element that has no parts, by which its contents octets are read.
#[derive(Clone, Copy, Debug, Drop, PartialEq)]
pub struct LeafType {
    pub(crate) shape: usize,
    /// The tag of class Universal that it has, or has under an implicit tag (X.680 31.2.7).
    pub tag: u8,
    /// What else it says of its values.
    pub rule: ValueRule,
}

/// What the octets of a string are.
#[derive(Clone, Copy, Debug, Drop, PartialEq)]
pub enum Held {
    /// No encodings, as a digest, a point of a curve, and what is encrypted.
    Nothing,
    /// Encodings of a type that is known.
    Type,
    /// They may be encodings: nothing says it.
    Anything,
}

impl Shapes {
    /// Whether a primitive element that is the field may have these contents octets: of a version a number that has a
    /// name.
    pub fn may_have(&self, spot: Spot, contents: &[u8]) -> bool {
        let closed = spot
            .leaf
            .filter(|leaf| matches!(leaf.rule, ValueRule::Closed));
        closed.is_none_or(|leaf| self.value_name(leaf, contents).is_some())
    }

    /// The name of the number that contents octets of a type are.
    pub fn value_name(&self, leaf: LeafType, contents: &[u8]) -> Option<&'static str> {
        match u64::from(leaf.tag) {
            INTEGER | ENUMERATED => { self.numbered(leaf.shape, small_number(contents)?)?.name }
            _ => None,
        }
    }
}

// The number of contents octets of an INTEGER or an ENUMERATED (X.690 8.3), if it is at least 0 and below 2^15.
fn small_number(contents: &[u8]) -> Option<u128> {
    match contents {
        [low] if *low < 128 => Some(*low as u128),
        [high, low] if *high < 128 => Some(*high as u128 * 256 + *low as u128),
        _ => None,
    }
}
