// Which fields the pieces of octets are.
use crate::cursor::Left;
use crate::fit::fitting;
use crate::piece::{Piece, PieceKind};
use dump_shapes::{Around, FieldWalk, Spot};
use std::alloc::{AllocError, Global};

// How far the pieces of octets were gone over, as fields.
#[derive(Drop)]
pub struct Fields<'a> {
    pub walk: FieldWalk<'a>,
    // what says which fields they are that come next
    pub around: Around,
}

impl<'a> Fields<'a> {
    // Which field the piece is that begins what is left, inside so many encodings.
    pub fn next(
        &mut self,
        alloc: Global,
        depth: usize,
        left: Left<'_>,
    ) -> Result<Option<Spot>, AllocError> {
        if matches!(self.around, Around::Nothing) {
            return Ok(None);
        }
        if depth == 0 {
            self.begin(alloc, left.octets)?;
        }
        let leading = if left.begins_with_end() {
            None
        } else {
            left.octets.first().copied()
        };
        self.walk.next(depth, leading)
    }

    // Begins an encoding that no other is around. In a document it is one of its own, which may have any shape: the
    // first has the shape that is known, and any other one that fits.
    fn begin(&mut self, alloc: Global, octets: &[u8]) -> Result<(), AllocError> {
        let shapes = self.walk.shapes;
        let around = match self.around {
            Around::Unknown => fitting(alloc, shapes, octets)?.map_or(
                Around::Nothing,
                |shape| Around::Shape(shape),
            ),
            Around::Shape(_) => self.around,
            Around::Nothing | Around::String(_) | Around::Alone(_) => return Ok(()),
        };
        self.around = Around::Unknown;
        self.walk = FieldWalk::inside(alloc, shapes, around);
        Ok(())
    }

    // Sees the piece that was gone on to.
    pub fn see(&mut self, piece: &Piece<'_>) {
        if let PieceKind::Leaf(_, contents, _) = &piece.kind {
            self.walk.see(contents);
        }
    }
}
