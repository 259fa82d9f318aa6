// The tables of shapes, which are text: a line for each shape and each of its parts.
use crate::choosing::written_number;
use crate::named::LeafType;
use crate::shapes::{Candidate, Inside, Order, Part, Shape, ShapeKind, Shapes, UNKNOWN, ValueRule};
use crate::tables::{FITS, TABLES};
use asn1_headers::header::ASN1Class;
use asn1_headers::types::type_name;
use std::alloc::{AllocError, Global};
use std::collections::HashMap;

// Shapes as far as their lines were read. Their parts are texts until all shapes are known.
#[derive(Drop)]
struct Reading {
    shapes: Vec<Shape>,
    // the places of shapes by their names
    places: HashMap<&'static str, usize>,
    // the texts of parts, and what the shape is that has them
    parts: Vec<(ShapeKind, &'static str)>,
}

impl Shapes {
    /// The shapes of this crate, as `docs/MAINTAINING.md` says how they are written. A line in another form, or with a
    /// name that no shape has, names nothing; `checks/run links` says that no line is so.
    ///
    /// # Errors
    /// Memory ran out.
    pub fn new(alloc: Global) -> Result<Shapes, AllocError> {
        let mut reading = Reading {
            shapes: Vec::new(alloc),
            places: HashMap::new(alloc),
            parts: Vec::new(alloc),
        };
        for text in TABLES {
            for line in text.lines() {
                reading.read_line(line)?;
            }
        }
        let mut parts = Vec::new(alloc);
        for (kind, text) in &reading.parts {
            parts.push(reading.part_of(*kind, text).unwrap_or(UNKNOWN))?;
        }
        let mut candidates = Vec::new(alloc);
        for (name, levels, least) in FITS {
            if let Some(shape) = reading.places.get(&name) {
                candidates.push(Candidate {
                    shape: *shape,
                    levels,
                    least,
                })?;
            }
        }
        Ok(Shapes {
            shapes: reading.shapes,
            parts,
            candidates,
        })
    }

    /// No shapes: no element has a name.
    pub fn none(alloc: Global) -> Shapes {
        Shapes {
            shapes: Vec::new(alloc),
            parts: Vec::new(alloc),
            candidates: Vec::new(alloc),
        }
    }
}

impl Reading {
    // Reads a line: of a part of the last shape, or of a shape, which is its own name where it has no other.
    fn read_line(&mut self, line: &'static str) -> Result<(), AllocError> {
        if let Some(text) = line.strip_prefix("  ") {
            if let Some(shape) = self.shapes.last_mut() {
                self.parts.push((shape.kind, text))?;
                shape.end = self.parts.len();
            }
            return Ok(());
        }
        if line.is_empty() || line.starts_with("--") {
            return Ok(());
        }
        let (name, text) = line.split_once(" ::= ").unwrap_or((line, line));
        self.read_shape(name, text)
    }

    // Reads a shape with this name and text. Its first part is an element of it as a whole; a list has one more, which
    // is its item. Neither has a name.
    fn read_shape(&mut self, name: &'static str, text: &'static str) -> Result<(), AllocError> {
        let list = text.split_once(" OF ").or(text.split_once(" CONTAINING "));
        let (words, rule) = rule_behind(list.map_or(text, |(words, _)| words));
        let (kind, tag) = self
            .kind_of(words, list.is_some())
            .unwrap_or((ShapeKind::Known, None));
        let shape = self.shapes.len();
        let whole = self.parts.len();
        self.parts.push((ShapeKind::Items, name))?;
        let first = self.parts.len();
        if let Some((_, item)) = list {
            self.parts.push((ShapeKind::Items, item))?;
        }
        // what stands before a point is not shown, by which types of one name differ
        let shown = name.split_once('.').unwrap_or(("", name)).1;
        let tag_name = tag.and_then(|tag| type_name(ASN1Class::Universal, u64::from(tag)));
        self.places.insert(name, shape)?;
        self.shapes.push(Shape {
            full_name: name,
            name: shown,
            is_named_by_tag: tag_name.is_some_and(|tag_name| shown.starts_with(tag_name)),
            kind,
            tag,
            leaf: match (kind, tag) {
                (ShapeKind::Leaf, Some(tag)) => Some(LeafType { shape, tag, rule }),
                _ => None,
            },
            whole,
            first,
            end: self.parts.len(),
        })?;
        Ok(())
    }

    // What elements of a shape are by words, which are those before an item if it is a list, and their tag.
    fn kind_of(&self, words: &'static str, is_list: bool) -> Option<(ShapeKind, Option<u8>)> {
        match (words, tag_before(words)?) {
            _ if is_list => Some((ShapeKind::Items, Some(self.tag_of(words)?))),
            ("CHOICE", _) => Some((ShapeKind::Choice, None)),
            ("OPEN", _) => Some((ShapeKind::Open, None)),
            ("KNOWN", _) => Some((ShapeKind::Known, None)),
            ("SEQUENCE" | "SET", _) => Some((ShapeKind::Record, self.tag_of(words))),
            // the tag that a SEQUENCE has in place of its own (X.680 8.4)
            (_, (Some(tag), "SEQUENCE")) => Some((ShapeKind::Record, Some(tag))),
            _ => Some((ShapeKind::Leaf, Some(self.tag_of(words)?))),
        }
    }

    // The tag of class Universal that words are the number of, or that a shape with this name has, which was read
    // before.
    fn tag_of(&self, words: &'static str) -> Option<u8> {
        match words.parse::<u8>() {
            Ok(number) => Some(number),
            Err(_) => self.shapes.get(*self.places.get(&words)?)?.tag,
        }
    }

    // A part of a shape of the kind: a number, of a value or of a bit, and its name; an object identifier or a number,
    // and what it says; or a field.
    fn part_of(&self, kind: ShapeKind, text: &'static str) -> Option<Part> {
        if matches!(kind, ShapeKind::Items) {
            return self.field_of(None, text);
        }
        let (first, text) = text.split_once(' ')?;
        match kind {
            ShapeKind::Leaf => Some(Part {
                name: Some(text),
                number: first.parse::<u64>().ok()? as u128,
                ..UNKNOWN
            }),
            ShapeKind::Open | ShapeKind::Known => Some(Part {
                number: written_number(first)?,
                ..self.field_of(None, text)?
            }),
            ShapeKind::Record | ShapeKind::Items | ShapeKind::Choice => {
                self.field_of(Some(first), text)
            }
        }
    }

    // A field by its name and the words that say what it is: its tag, its shape, and whether it is optional.
    fn field_of(&self, name: Option<&'static str>, text: &'static str) -> Option<Part> {
        let optional = text.strip_suffix(" OPTIONAL");
        let (own_tag, text) = tag_before(optional.unwrap_or(text))?;
        let explicit = text.strip_prefix("EXPLICIT ");
        let place = *self.places.get(&explicit.unwrap_or(text))?;
        let shape = self.shapes.get(place)?;
        let (first, end, order) = match (explicit, shape.kind) {
            // its tag stands around an element of its shape, and not in the place of that one's (X.680 31.2.7)
            (Some(_), _) => (shape.whole, shape.first, Order::Whole),
            (None, ShapeKind::Record) => (shape.first, shape.end, Order::Fields),
            (None, ShapeKind::Items) => (shape.first, shape.end, Order::Each),
            (None, _) => (0, 0, Order::Whole),
        };
        Some(Part {
            name,
            number: 0,
            shape: place,
            kind: shape.kind,
            tag: own_tag.or(shape.tag),
            has_own_tag: own_tag.is_some(),
            is_optional: optional.is_some(),
            inside: Inside { first, end, order },
            leaf: shape.leaf.filter(|_| explicit.is_none()),
        })
    }
}

// What a word behind the type of a leaf says of its values, if there is one, and the words before it.
fn rule_behind(text: &'static str) -> (&'static str, ValueRule) {
    match text.rsplit_once(' ') {
        Some((text, "CLOSED")) => (text, ValueRule::Closed),
        Some((text, "HOLDING")) => (text, ValueRule::Holding),
        Some((text, "NAMED")) => (text, ValueRule::Named),
        Some((text, "ADDRESS")) => (text, ValueRule::Address),
        Some((text, "CHOOSING")) => (text, ValueRule::Choosing),
        _ => (text, ValueRule::Any),
    }
}

// The tag that words begin with, if they do, and the words behind it: a number, which is context-specific, or a class
// and a number. `None` where it has another form.
fn tag_before(text: &'static str) -> Option<(Option<u8>, &'static str)> {
    let Some(rest) = text.strip_prefix("[") else {
        return Some((None, text));
    };
    let (tag, text) = rest.split_once("] ")?;
    let (class, digits) = match tag.split_once(' ') {
        Some(("APPLICATION", digits)) => (0x40, digits),
        Some(("UNIVERSAL", digits)) => (0, digits),
        Some(_) => return None,
        None => (0x80, tag),
    };
    let number = digits.parse::<u8>().ok()?;
    Some((Some(class | number), text))
}
