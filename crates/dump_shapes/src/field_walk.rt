// Going over the elements of a document, one behind another, with the fields that they are.
use crate::choosing::number_of;
use crate::shapes::{CONSTRUCTED, Inside, NOTHING, Order, Shapes, ValueRule};
use crate::spot::Spot;
use asn1_headers::tags::OBJECT_IDENTIFIER;
use std::alloc::{AllocError, Global};

/// What says which fields elements are.
#[derive(Clone, Copy, Debug, Default, Drop, PartialEq)]
pub enum Around {
    /// Nothing: they have no names.
    Nothing,
    /// A document of a shape that is not known.
    #[default]
    Unknown,
    /// A document of this shape.
    Shape(usize),
    /// A string that is this field.
    String(Spot),
    /// Nothing: there is one element, which is this field.
    Alone(Spot),
}

// An element that is open, or what stands around all, and how far what stands inside it was gone over.
#[derive(Clone, Copy, Drop)]
struct Level {
    inside: Inside,
    // whether its tag alone says what stands inside: what chooses a type there chooses none around it
    is_own: bool,
    // whether it chooses a type: an OBJECT IDENTIFIER that is a field, or a number that chooses
    is_choosing: bool,
    // the first field that may stand next
    next: usize,
    // no field that has to be there was passed over, and nothing that is no field
    is_sure: bool,
    // what chooses the types inside, as a number: the first that does in it; if it has no fields, that of the one
    // around it
    choice: Option<u128>,
}

/// How far the elements of a document were gone over: those that are open, and which fields they are. It takes memory
/// for each element that is open.
#[derive(Drop)]
pub struct FieldWalk<'a> {
    /// The shapes by which elements are fields.
    pub shapes: &'a Shapes,
    // the innermost element that is open, and what is around it
    inner: Level,
    around: Vec<Level>,
    /// Elements inside fewer others than these have to have all of their fields: at first none.
    pub levels: usize,
    /// Whether such an element that has ended lacks a field that has to be in it.
    pub lacks: bool,
}

impl<'a> FieldWalk<'a> {
    /// Before the first of elements of which this says which fields they are.
    pub fn inside(alloc: Global, shapes: &'a Shapes, around: Around) -> FieldWalk<'a> {
        let (inside, choice) = match around {
            Around::Nothing | Around::Unknown => (NOTHING, None),
            Around::Shape(shape) => {
                let shape = shapes.shapes.get(shape);
                let whole = shape.map(|shape| Inside {
                    first: shape.whole,
                    end: shape.first,
                    order: Order::Whole,
                });
                (whole.unwrap_or(NOTHING), None)
            }
            Around::String(string) => (string.inside, string.choice),
            Around::Alone(spot) => {
                let alone = Inside {
                    first: spot.field,
                    end: spot.field.saturating_add(1),
                    order: Order::Each,
                };
                (alone, spot.choice)
            }
        };
        FieldWalk {
            shapes,
            inner: Level {
                inside,
                is_own: false,
                is_choosing: false,
                next: 0,
                is_sure: true,
                choice,
            },
            around: Vec::new(alloc),
            levels: 0,
            lacks: false,
        }
    }

    /// Goes on to the next element, in the order of the octets: how many elements are around it, and its leading octet;
    /// none where the octets are no element, such as end-of-contents octets. Which field it is; `None` where it is none
    /// of what stands around it, or that is no field.
    ///
    /// # Errors
    /// Memory ran out.
    pub fn next(&mut self, depth: usize, leading: Option<u8>) -> Result<Option<Spot>, AllocError> {
        self.leave(depth);
        let Some(leading) = leading else {
            return Ok(None);
        };
        let tag = leading & !CONSTRUCTED;
        let spot = self.take(tag);
        let own = match spot {
            Some(spot) if !spot.is_anything => None,
            _ => self.shapes.own_inside(tag),
        };
        let inside = own.unwrap_or(spot.map_or(NOTHING, |spot| spot.inside));
        let choice = self.inner.choice;
        self.around.push(self.inner)?;
        self.inner = Level {
            inside,
            is_own: own.is_some(),
            is_choosing: spot.is_some_and(|spot| is_choosing(&spot, tag)),
            next: 0,
            is_sure: true,
            // in a record of fields nothing was chosen yet
            choice: choice.filter(|_| !matches!(inside.order, Order::Fields)),
        };
        Ok(spot)
    }

    // Which part the next element is inside the innermost one that is open. Behind an element that is no field, and
    // where a field is missing that has to be there, only a tag of its own shows which field of a record one is.
    fn take(&mut self, tag: u8) -> Option<Spot> {
        let shapes = self.shapes;
        let Inside { first, end, order } = self.inner.inside;
        for place in self.inner.next.max(first)..end {
            let part = *shapes.parts.get(place)?;
            let is_shown = part.has_own_tag || !matches!(order, Order::Fields);
            if (self.inner.is_sure || is_shown)
                && let Some(spot) = shapes.spot(place, tag, self.inner.choice)
            {
                self.inner.next = match order {
                    Order::Each => place,
                    Order::Fields | Order::Whole => place.saturating_add(1),
                };
                return Some(spot);
            }
            self.inner.is_sure = self.inner.is_sure && part.is_optional;
        }
        self.inner.is_sure = false;
        None
    }

    /// Sees the contents octets of the element that was gone on to: those of an OBJECT IDENTIFIER, and of some numbers,
    /// may say what stands behind it.
    pub fn see(&mut self, contents: &[u8]) {
        if self.inner.is_choosing {
            self.inner.choice = Some(number_of(contents));
        }
    }

    /// Leaves the elements that are not around one of the depth, and hands the first of each that chooses a type to the
    /// one around it.
    pub fn leave(&mut self, depth: usize) {
        while self.around.len() > depth {
            self.lacks = self.lacks || (self.around.len() <= self.levels && self.lacks_field());
            let Some(around) = self.around.pop() else {
                return;
            };
            let inner = self.inner;
            let seen = inner.choice.filter(|_| !inner.is_own);
            self.inner = Level {
                choice: around.choice.or(seen),
                ..around
            };
        }
    }

    // Whether the innermost element that is open lacks a field that has to be in it.
    fn lacks_field(&self) -> bool {
        let Inside { first, end, order } = self.inner.inside;
        let left = self.shapes.parts.get(self.inner.next.max(first)..end);
        let is_left = left.unwrap_or(&[]).iter().any(|field| !field.is_optional);
        !matches!(order, Order::Each) && (!self.inner.is_sure || is_left)
    }
}

// Whether an element with the tag, which is this field, chooses a type.
fn is_choosing(spot: &Spot, tag: u8) -> bool {
    u64::from(tag) == OBJECT_IDENTIFIER
        || spot
            .leaf
            .is_some_and(|leaf| matches!(leaf.rule, ValueRule::Choosing))
}
