// Where the block stands to which a path leads.
ghost use Rattle.std.specs.Prelude.{◌<◌, IfSome};

use dump_shapes::Shapes;
use dump_walk::path::Paths;
use dump_walk::piece::Piece;
use dump_walk::place::Place;
use dump_walk::sum::checked_sum;
use dump_walk::walk::Walk;
use std::alloc::{AllocError, Global};

// Which block is meant of those with one path: what stands in an explicit tag, or in the octets of a string, has the
// path of that.
#[derive(Clone, Copy, Drop, PartialEq)]
pub enum Which {
    Outermost,
    Innermost,
}

// The search for a block by its path.
#[derive(Drop)]
struct Search<'a> {
    alloc: Global,
    shapes: &'a Shapes,
    path: &'a str,
    which: Which,
    // the path of the last piece
    paths: Paths,
    // the offset in the document of the last block with the path
    found: Option<usize>,
    // no other block is meant
    is_done: bool,
}

// The offset in a document, whose octets stand at the place, of the block with the path.
pub fn offset_of(
    alloc: Global,
    shapes: &Shapes,
    octets: &[u8],
    place: Place,
    path: &str,
    which: Which,
) -> Result<Option<usize>, AllocError> {
    let mut search = Search {
        alloc,
        shapes,
        path,
        which,
        paths: Paths::none(alloc),
        found: None,
        is_done: false,
    };
    go_over(&mut search, octets, place)?;
    Ok(search.found)
}

// Goes over the pieces of octets at the place, and those inside strings, until the search is done.
#[cycle(pieces)]
fn go_over(search: &mut Search<'_>, octets: &[u8], place: Place) -> Result<(), AllocError> {
    let shapes = search.shapes;
    let mut walk = Walk::over(search.alloc, shapes, octets, place)?;
    while let Some(piece) = walk.next(search.alloc)? {
        search.see(&piece)?;
        if search.is_done {
            return Ok(());
        }
        go_inside(search, &piece)?;
    }
    Ok(())
}

// Goes over the pieces inside a string.
#[cycle(pieces)]
fn go_inside(search: &mut Search<'_>, piece: &Piece<'_>) -> Result<(), AllocError>
    requires { IfSome piece.now.nested (λ _. 0 < piece.now.place.documents) }
{
    let Some(nested) = piece.nested else {
        return Ok(());
    };
    let contents = checked_sum(piece.document_offset()?, piece.sizes().header)?;
    let inside = piece.place.inside(checked_sum(contents, nested.before)?)?;
    go_over(search, nested.octets, inside)
}

impl Search<'_> {
    // Sees the next piece of the document.
    fn see(&mut self, piece: &Piece<'_>) -> Result<(), AllocError> {
        let named = piece.names(self.shapes);
        let meant = self.path;
        let path = self.paths.next(piece, named)?;
        if path.is_some_and(|path| path == meant) {
            self.found = Some(piece.document_offset()?);
            self.is_done = self.which == Which::Outermost;
        } else {
            self.is_done = self.found.is_some();
        }
        Ok(())
    }
}
