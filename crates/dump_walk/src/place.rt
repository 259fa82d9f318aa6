// Where the pieces of octets stand in a document.
ghost use Rattle.std.specs.Prelude.{◌≡◌, ◌+◌, ◌<◌, suc, IfOk, false, true, if◌then◌else◌};
ghost use Rattle.dump_walk.specs.Fronts.{is_too_deep};

use crate::style::Style;
use crate::sum::checked_sum;
use dump_shapes::{Around, LeafType, Spot, ValueRule};
use dump_values::leaf::ContentsType;
use std::alloc::AllocError;

// How many documents are shown inside one another.
const MOST_DOCUMENTS: usize = 8;

// Where blocks are shown that were read from octets.
#[derive(Clone, Copy, Drop)]
pub struct Place {
    // whether they stand inside octets of a block
    pub is_inside: bool,
    // how many octets stand before theirs
    pub base: usize,
    // how many levels are around them
    pub depth: usize,
    // how many documents are shown inside one another in them
    pub documents: usize,
    // whether they stand in a string that is constructed
    pub is_segment: bool,
    pub style: Style,
    // what says which fields they are
    pub around: Around,
}

// The place of the document itself, of which this says which fields it is and has.
pub fn outermost(style: Style, around: Around) -> Place
    ensures outside { result.is_inside ≡ false }
    ensures base { result.base ≡ 0 }
    ensures depth { result.depth ≡ 0 }
    ensures style { result.style ≡ style }
    ensures documents { result.documents ≡ (if style.is_flat then 0 else 8) }
{
    Place {
        is_inside: false,
        base: 0,
        depth: 0,
        documents: if style.is_flat { 0 } else { MOST_DOCUMENTS },
        is_segment: false,
        style,
        around,
    }
}

impl Place {
    // Which field the one block is that stands here, if it is one.
    pub fn field(&self) -> Option<&Spot> {
        match &self.around {
            Around::Alone(spot) => Some(spot),
            _ => None,
        }
    }

    // The type of its contents octets, if that is known.
    pub fn leaf(&self) -> Option<LeafType> {
        self.field()?.leaf
    }

    // Whether what octets of strings hold that stand here may be shown.
    pub fn shows_inside(&self) -> bool
        ensures { result ≡ true → 0 < self.now.documents }
    {
        self.documents > 0 && !is_too_deep(self.style.most_depth, self.depth.saturating_add(1))
    }

    // The place of an encoding that stands so many levels further in, maybe in a string, and is this field.
    pub fn deeper(
        &self,
        levels: usize,
        is_segment: bool,
        field: Option<Spot>,
    ) -> Result<Place, AllocError>
        ensures same { IfOk result (λ p. p.is_inside ≡ self.now.is_inside) }
        ensures base { IfOk result (λ p. p.base ≡ self.now.base) }
        ensures depth { IfOk result (λ p. p.depth ≡ self.now.depth + levels) }
        ensures documents { IfOk result (λ p. p.documents ≡ self.now.documents) }
        ensures style { IfOk result (λ p. p.style ≡ self.now.style) }
    {
        Ok(Place {
            is_inside: self.is_inside,
            base: self.base,
            depth: checked_sum(self.depth, levels)?,
            documents: self.documents,
            is_segment,
            style: self.style,
            around: field.map_or(Around::Nothing, Around::Alone),
        })
    }

    // The place of octets inside a string which stands here; these stand at the offset of the document. One document
    // fewer is shown in them.
    pub fn inside(&self, offset: usize) -> Result<Place, AllocError>
        requires { 0 < self.now.documents }
        ensures inside { IfOk result (λ p. p.is_inside ≡ true) }
        ensures base { IfOk result (λ p. p.base ≡ offset) }
        ensures depth { IfOk result (λ p. p.depth ≡ suc self.now.depth) }
        ensures style { IfOk result (λ p. p.style ≡ self.now.style) }
        ensures fewer { IfOk result (λ p. self.now.documents ≡ suc p.documents) }
    {
        Ok(Place {
            is_inside: true,
            base: offset,
            depth: checked_sum(self.depth, 1)?,
            documents: self.documents - 1,
            is_segment: false,
            style: self.style,
            around: self
                .field()
                .map_or(Around::Nothing, |spot| Around::String(*spot)),
        })
    }

    // Of which type the contents octets of a primitive encoding here are.
    pub fn contents_type(&self) -> ContentsType {
        match self.leaf() {
            Some(leaf) if matches!(leaf.rule, ValueRule::Address) => ContentsType::Address,
            Some(leaf) => ContentsType::Known(leaf.tag),
            None => ContentsType::OfTag,
        }
    }
}

// Whether so many levels around a block are more than the most, where there is a most.
pub fn is_too_deep(most_depth: Option<usize>, depth: usize) -> bool
    ensures { result ≡ is_too_deep most_depth depth }
{
    match most_depth {
        Some(most) => most < depth,
        None => false,
    }
}
