// Going over the pieces of octets, in the order of their lines.
ghost use Rattle.std.specs.Prelude.{◌≡◌, [], IfOk, MatchOption};
ghost use Rattle.dump_walk.specs.Pieces.{HasEnded, IsAt, Passes};

use crate::cursor::Cursor;
use crate::fields::Fields;
use crate::piece::{Here, Piece};
use crate::place::Place;
use crate::strings::{is_inside, outermost_around};
use dump_shapes::{FieldWalk, Shapes};
use std::alloc::{AllocError, Global};

// How far the pieces of octets were gone over, which stand at the place.
#[derive(Drop)]
pub struct Walk<'a> {
    pub cursor: Cursor<'a>,
    pub place: Place,
    // inside how many encodings the outermost string is that is open and constructed, if there is one
    pub string: Option<usize>,
    // which fields the pieces are
    pub fields: Fields<'a>,
}

impl<'a> Walk<'a> {
    // Over the pieces of octets.
    pub fn over(
        alloc: Global,
        shapes: &'a Shapes,
        octets: &'a [u8],
        place: Place,
    ) -> Result<Walk<'a>, AllocError>
        ensures begun { IfOk result (λ walk. IsAt octets.now [] [] walk.cursor) }
        ensures place { IfOk result (λ walk. walk.place ≡ place) }
    {
        Ok(Walk {
            cursor: Cursor::over(alloc, octets, false)?,
            place,
            string: None,
            fields: Fields {
                walk: FieldWalk::inside(alloc, shapes, place.around),
                around: place.around,
            },
        })
    }

    // The next piece. `None` behind the last.
    pub fn next(&mut self, alloc: Global) -> Result<Option<Piece<'a>>, AllocError>
        ensures passes { IfOk result (λ found. MatchOption found
            (HasEnded self.old)
            (Passes self.old self.new)) }
    {
        let Some(left) = self.cursor.next() else {
            return Ok(None);
        };
        let depth = self.cursor.depth();
        let is_segment = is_inside(self.string, depth);
        let field = self.fields.next(alloc, depth, left)?;
        let place = self.place.deeper(depth, is_segment, field)?;
        let here = Here {
            left,
            offset: self.cursor.offset,
            place: &place,
        };
        let piece = here.read(alloc)?;
        self.cursor.go(piece.step)?;
        self.fields.see(&piece);
        self.string = outermost_around(self.string, depth, piece.is_string());
        Ok(Some(piece))
    }
}
