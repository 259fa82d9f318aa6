// Which part of which shape an element is, by its tag.
use crate::named::{Held, LeafType, Named};
use crate::shapes::{Inside, Order, Part, ShapeKind, Shapes, UNKNOWN, ValueRule};

/// Which field of which shape an element is.
#[derive(Clone, Copy, Debug, Drop, PartialEq)]
pub struct Spot {
    /// Its names, but for that of its value.
    pub named: Named,
    /// Its type, by which its contents octets are read. `None` where a type of parts, or none, is known of it.
    pub leaf: Option<LeafType>,
    /// What its octets are, if it is a string.
    pub held: Held,
    /// Whether it may be anything, so that its tag alone says its type.
    pub is_anything: bool,
    // the field that it is; of what has no other name the part that a shape is as a whole
    pub(crate) field: usize,
    pub(crate) inside: Inside,
    // what chose the type of what is open around it
    pub(crate) choice: Option<u128>,
}

/// What tells an element from others that stand in the same one.
#[derive(Clone, Copy, Debug, Drop, PartialEq)]
pub enum Lead {
    /// The name of the field that it is.
    Name,
    /// Its number, as an item of a SEQUENCE OF or SET OF.
    Number,
    /// Nothing: it is the only one.
    Nothing,
}

impl Spot {
    /// What tells an element inside it from others there.
    pub fn lead(&self) -> Lead {
        match self.inside.order {
            Order::Fields => Lead::Name,
            Order::Each => Lead::Number,
            Order::Whole => Lead::Nothing,
        }
    }
}

impl Shapes {
    // What an element with the tag is as a field, where this was chosen. `None` where the field takes none with
    // this tag.
    pub(crate) fn spot(&self, place: usize, tag: u8, choice: Option<u128>) -> Option<Spot> {
        let field = *self.parts.get(place)?;
        let said = self.said(field, choice);
        let (of, part) = match said.and_then(|said| self.taken(said, tag)) {
            Some(part) => (said?, part),
            // an element of any tag is one of an open type of which nothing is said
            None if field.tag.is_none() && matches!(field.kind, ShapeKind::Open) => (
                field, UNKNOWN,
            ),
            None => return None,
        };
        let shape = self.shapes.get(of.shape)?;
        let alternative = part.name.filter(|_| of.tag.is_none());
        let is_tag_told = match field.name {
            Some(_) => field.tag.is_some() || (alternative.is_some() && part.has_own_tag),
            None => alternative.is_some() || of.tag.is_some(),
        };
        Some(Spot {
            named: Named {
                field: field.name.or(alternative),
                of: shape.name,
                is_of_tag: shape.is_named_by_tag && shape.tag == Some(tag),
                is_tag_told,
                alternative: alternative.filter(|_| field.name.is_some() && part.has_own_tag),
                value: None,
            },
            leaf: part.leaf,
            held: self.held(part, choice),
            is_anything: part.tag.is_none(),
            field: place,
            inside: part.inside,
            choice,
        })
    }

    // The part that a part is: of an open type the one that was chosen, if one was.
    fn said(&self, part: Part, choice: Option<u128>) -> Option<Part> {
        if part.tag.is_some() || matches!(part.kind, ShapeKind::Choice) {
            return Some(part);
        }
        self.numbered(part.shape, choice?)
    }

    // The part that an element with the tag is as one of a part: this one, or an alternative.
    fn taken(&self, part: Part, tag: u8) -> Option<Part> {
        match part.tag {
            None if matches!(part.kind, ShapeKind::Choice) => {
                let mut alternatives = self.parts_of(part.shape).iter();
                alternatives.find(|other| other.tag == Some(tag)).copied()
            }
            own => (own == Some(tag)).then_some(part),
        }
    }

    // What the octets of a string are that is the part, where this was chosen.
    fn held(&self, part: Part, choice: Option<u128>) -> Held {
        let item = match (part.leaf, part.inside.order) {
            (Some(leaf), _) if matches!(leaf.rule, ValueRule::Holding) => None,
            (Some(_), _) => return Held::Nothing,
            (None, Order::Each) => self.parts.get(part.inside.first),
            (None, _) => None,
        };
        match item.and_then(|item| self.said(*item, choice)) {
            Some(said) if matches!(said.kind, ShapeKind::Known) => Held::Nothing,
            Some(_) => Held::Type,
            None => Held::Anything,
        }
    }
}
