// The paths of the pieces of a document: which fields lead to each.
use crate::piece::Piece;
use dump_shapes::{Lead, Named};
use std::alloc::{AllocError, Global};
use std::fmt::Write;

// A piece that others may stand in.
#[derive(Clone, Copy, Drop)]
struct Level {
    // how long its path is; `None` where it has none
    size: Option<usize>,
    // what tells one in it from others
    lead: Lead,
    // how many stood in it before
    items: usize,
}

// The path of a piece, and how much of it leads to each piece around it.
#[derive(Drop)]
pub struct Paths {
    text: String,
    around: Vec<Level>,
}

impl Paths {
    // Before the first piece of a document.
    pub fn none(alloc: Global) -> Paths {
        Paths {
            text: String::new(alloc),
            around: Vec::new(alloc),
        }
    }

    // The path of the next piece, in the order of the octets, which has these names: the names of the fields around it
    // and its own, with points between them. Of an item of a list that is its number in brackets, from 0 on. What
    // stands in an explicit tag, or in the octets of a string, has the path of that. `None` where no other piece is
    // around it, and where it has no names or one around it has none.
    pub fn next(
        &mut self,
        piece: &Piece<'_>,
        named: Option<Named>,
    ) -> Result<Option<&str>, AllocError> {
        let around = self.enter(piece.place.depth);
        let size = match (around, named) {
            (Some(around), Some(named)) => self.lead(around, named)?,
            (None, Some(_)) => Some(0),
            (_, None) => None,
        };
        self.around.push(Level {
            size,
            lead: match (piece.nested, piece.place.field()) {
                (None, Some(spot)) => spot.lead(),
                _ => Lead::Nothing,
            },
            items: 0,
        })?;
        Ok(size.filter(|size| *size > 0).map(|_| self.text.as_str()))
    }

    // The piece around one that stands in so many, before that one is counted in it.
    fn enter(&mut self, depth: usize) -> Option<Level> {
        self.around.truncate(depth);
        let around = self.around.last_mut()?;
        let before = *around;
        around.items = before.items.saturating_add(1);
        Some(before)
    }

    // Makes the path that of a piece with these names inside the one around it, if that has a path. How long it is.
    fn lead(&mut self, around: Level, named: Named) -> Result<Option<usize>, AllocError> {
        let Some(size) = around.size else {
            return Ok(None);
        };
        self.text.truncate(self.text.floor_char_boundary(size));
        match (around.lead, named.field) {
            (Lead::Name, Some(field)) => {
                if size > 0 {
                    self.text.push('.')?;
                }
                self.text.push_str(field)?;
            }
            (Lead::Name, None) => return Ok(None),
            (Lead::Number, _) => {
                let item = around.items;
                write!(self.text, "[{item}]")?;
            }
            (Lead::Nothing, _) => {}
        }
        Ok(Some(self.text.len()))
    }
}
