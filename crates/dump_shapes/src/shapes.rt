// Shapes: which fields a type of ASN.1 has, and what the octets of a string hold.
use crate::named::LeafType;
use crate::tables::LABELS;
use asn1_headers::tags::{CHARACTER_STRING, EMBEDDED_PDV, EXTERNAL};

// The bit of a leading octet that says that an encoding is constructed (X.690 8.1.2.5). What is left of the octet
// without it is a tag here: its class, and its number. With 31 as its number it stands for all tags of more octets,
// which no field has.
pub const CONSTRUCTED: u8 = 0x20;

/// The shapes of types of ASN.1, by which elements have names. They are read once, and take memory for each field.
#[derive(Drop)]
pub struct Shapes {
    pub(crate) shapes: Vec<Shape>,
    // the parts of shapes, those of each one behind another
    pub(crate) parts: Vec<Part>,
    /// The shapes that may fit a document, in the order in which they are tried.
    pub candidates: Vec<Candidate>,
}

/// A shape that may fit a document.
#[derive(Clone, Copy, Drop)]
pub struct Candidate {
    /// the shape
    pub shape: usize,
    /// down to which depth it has to fit
    pub levels: usize,
    /// how many elements at least are there
    pub least: usize,
}

// A shape, with all that is known of an element of it.
#[derive(Clone, Copy, Drop)]
pub(crate) struct Shape {
    // its name in full, and as it is shown
    pub full_name: &'static str,
    pub name: &'static str,
    // whether that begins with the name of the type that has its tag
    pub is_named_by_tag: bool,
    pub kind: ShapeKind,
    // its tag, if all of its elements have the same
    pub tag: Option<u8>,
    // the type that it is, if that has no parts
    pub leaf: Option<LeafType>,
    // the part that an element of it is as a whole; behind it its other parts
    pub whole: usize,
    pub first: usize,
    pub end: usize,
}

/// What a type without parts says of its values, besides their tag and the names of numbers and bits.
#[derive(Clone, Copy, Debug, Drop, PartialEq)]
pub enum ValueRule {
    /// Nothing.
    Any,
    /// Numbers that have no name are none of the type.
    Closed,
    /// Octets may be encodings, of which the type is not known.
    Holding,
    /// Bits are a list of named bits (X.680 22.2), which has no 0 at its end in DER (X.690 11.2.2).
    Named,
    /// Octets are an address of IP.
    Address,
    /// The number says of which type an open field behind it is.
    Choosing,
}

// What elements of a shape are, and what its parts are.
#[derive(Clone, Copy, Drop)]
pub(crate) enum ShapeKind {
    // contents octets; numbers or bits that have names
    Leaf,
    // a SEQUENCE or a SET of fields; the fields
    Record,
    // a SEQUENCE OF, a SET OF, or a string that holds elements; the field that each of them is
    Items,
    // one of several; the alternatives, which are fields
    Choice,
    // what an object identifier or a number says, or anything; what is said by which
    Open,
    // what an object identifier or a number says, and nothing where it says nothing; what is said by which
    Known,
}

// What stands inside an element: what is of these parts.
#[derive(Clone, Copy, Debug, Drop, PartialEq)]
pub(crate) struct Inside {
    pub first: usize,
    pub end: usize,
    pub order: Order,
}

// In which order elements of parts stand.
#[derive(Clone, Copy, Debug, Drop, PartialEq)]
pub(crate) enum Order {
    // an element of each part, in the order of the parts, which are the fields of one SEQUENCE or SET
    Fields,
    // an element of the part, which is the only one
    Whole,
    // elements of the part each, which is the only one
    Each,
}

// Nothing that has a name.
pub(crate) const NOTHING: Inside = Inside {
    first: 0,
    end: 0,
    order: Order::Whole,
};

// A part of a shape: a field; a number, that of a value or of a bit, and its name; or what chooses a type, as a number,
// and the shape that it says. What is known of elements of its shape is known of it, too.
#[derive(Clone, Copy, Drop)]
pub(crate) struct Part {
    pub name: Option<&'static str>,
    pub number: u128,
    pub shape: usize,
    pub kind: ShapeKind,
    // the tag that an element has which is this field: its own, or else that of its shape
    pub tag: Option<u8>,
    pub has_own_tag: bool,
    pub is_optional: bool,
    pub inside: Inside,
    pub leaf: Option<LeafType>,
}

// Of what no table says anything.
pub(crate) const UNKNOWN: Part = Part {
    name: None,
    number: 0,
    shape: 0,
    kind: ShapeKind::Known,
    tag: None,
    has_own_tag: false,
    is_optional: false,
    inside: NOTHING,
    leaf: None,
};

impl Shapes {
    /// The shape with this name, if there is one.
    pub fn named(&self, name: &str) -> Option<usize> {
        self.shapes.iter().position(|shape| shape.full_name == name)
    }

    /// The shape of what stands behind the label of a PEM text (RFC 7468), if that is known.
    pub fn labelled(&self, label: &str) -> Option<usize> {
        let mut lines = LABELS.lines().filter_map(|line| line.split_once(' '));
        let (name, _) = lines.find(|(_, known)| *known == label)?;
        self.named(name)
    }

    /// The name of a shape, as an RFC has it.
    pub fn name_of(&self, shape: usize) -> Option<&'static str> {
        Some(self.shapes.get(shape)?.name)
    }

    // What stands inside an element by its tag alone: an EXTERNAL, an EMBEDDED PDV or a CHARACTER STRING (X.680 36, 37
    // and 44). `None` for any other tag.
    pub(crate) fn own_inside(&self, tag: u8) -> Option<Inside> {
        let name = match u64::from(tag) {
            EXTERNAL => "EXTERNAL",
            EMBEDDED_PDV => "EMBEDDED PDV",
            CHARACTER_STRING => "CHARACTER STRING",
            _ => return None,
        };
        let shape = self.shapes.get(self.named(name)?)?;
        Some(self.parts.get(shape.whole)?.inside)
    }

    // The parts of a shape.
    pub(crate) fn parts_of(&self, shape: usize) -> &[Part] {
        match self.shapes.get(shape) {
            Some(shape) => self.parts.get(shape.first..shape.end).unwrap_or(&[]),
            None => &[],
        }
    }

    // The part of a shape with this number.
    pub(crate) fn numbered(&self, shape: usize, number: u128) -> Option<Part> {
        let mut parts = self.parts_of(shape).iter();
        parts.find(|part| part.number == number).copied()
    }
}
