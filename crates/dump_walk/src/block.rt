// Whole elements by the offsets of their rows.
ghost use Rattle.std.specs.Prelude.{◌≡◌, ◌+◌, ◌<◌, ℕ, List, true, false, IfOk, IfSome, MatchOption, slice_range};
ghost use Rattle.dump_walk.specs.ByOffset.{Finds, IsElsewhere, IsFoundAt};
ghost use Rattle.dump_walk.specs.ByOffsetSteps.{EndsAt, HasCome, HasNoEnd, IsFound, IsNext, IsWholeKind};
ghost use Rattle.dump_walk.specs.Fronts.{Front};
ghost use Rattle.dump_walk.specs.Pieces.{front_of, kind_contents, kind_header, kind_indefinite};

use crate::cursor::octets_between;
use crate::piece::{Piece, PieceKind};
use crate::place::Place;
use crate::sum::checked_sum;
use crate::walk::Walk;
use dump_shapes::Shapes;
use std::alloc::{AllocError, Global};

/// Why no whole element has a row at an offset.
#[derive(Clone, Copy, Debug, Drop, PartialEq)]
pub enum NoBlock {
    /// The row is that of end-of-contents octets (X.690 8.1.5).
    EndOfContents,
    /// The row is that of octets which begin with no header.
    Unreadable,
    /// The element there is cut short, or its end-of-contents octets are missing.
    CutShort,
    /// No row stands there.
    Nothing,
}

/// A whole element: an encoding, or what has a length of the indefinite form of BER (X.690 8.1.3.6), with its
/// end-of-contents octets.
#[derive(Clone, Copy)]
pub struct Block<'a> {
    pub octets: &'a [u8],
    /// Its contents octets, without the end-of-contents octets.
    pub contents: &'a [u8],
    /// Where its row stands, and which field it is.
    pub place: Place,
}

/// The element whose row stands at the offset of the octets, or why there is none. Rows are those of the pieces that
/// `Walk` comes to, also in octets of strings into which it goes at the place.
///
/// It goes over the rows up to the end of the element, or to the first behind the offset, and takes their memory.
///
/// # Errors
/// Memory ran out.
pub fn block_at<'a>(
    alloc: Global,
    shapes: &'a Shapes,
    octets: &'a [u8],
    place: Place,
    offset: usize,
) -> Result<Result<Block<'a>, NoBlock>, AllocError>
    ensures { IfOk result (Finds octets.now offset) }
{
    let mut walk = Walk::over(alloc, shapes, octets, place)?;
    while let Some(piece) = walk.next(alloc)? {
        if has_row_at(&piece, offset) {
            return block_of(alloc, &mut walk, octets, &piece);
        }
        match found_behind(piece, offset)? {
            Found::Within(inside) => {
                return block_at(alloc, shapes, inside.octets, inside.place, inside.offset);
            }
            Found::Passed => return Ok(Err(NoBlock::Nothing)),
            Found::Elsewhere => {}
        }
    }
    Ok(Err(NoBlock::Nothing))
}

// Whether the row of a piece stands at the offset. Where end-of-contents octets are missing there is nothing.
fn has_row_at(piece: &Piece<'_>, offset: usize) -> bool
    ensures there { result ≡ true → piece.now.offset ≡ offset }
    ensures elsewhere { result ≡ false → (levels : ℕ) → IsElsewhere offset (front_of levels piece.now) }
{
    match piece.kind {
        PieceKind::EndOfContents(0) => false,
        _ => piece.offset == offset,
    }
}

// Where an offset stands at which no row of a piece does.
#[derive(Clone, Copy, Drop)]
enum Found<'a> {
    // in octets of the string that the piece is
    Within(Inside<'a>),
    // before the piece
    Passed,
    // maybe behind the piece
    Elsewhere,
}

// Octets of a string, the place of what they hold, and an offset in them.
#[derive(Clone, Copy, Drop)]
struct Inside<'a> {
    octets: &'a [u8],
    place: Place,
    offset: usize,
}

// Where the offset stands, seen from the piece, which ends here: no loop has to end it.
fn found_behind<'a>(piece: Piece<'a>, offset: usize) -> Result<Found<'a>, AllocError>
    requires { IfSome piece.nested (λ _. 0 < piece.place.documents) }
    ensures { IfOk result (IsFound offset piece.entry) }
{
    found_by(&piece, offset)
}

// Where the offset stands, seen from the piece.
fn found_by<'a>(piece: &Piece<'a>, offset: usize) -> Result<Found<'a>, AllocError>
    requires { IfSome piece.now.nested (λ _. 0 < piece.now.place.documents) }
    ensures { IfOk result (IsFound offset piece.now) }
{
    if offset < piece.offset {
        return Ok(Found::Passed);
    }
    let Some(nested) = piece.nested else {
        return Ok(Found::Elsewhere);
    };
    let before = checked_sum(piece.sizes().header, nested.before)?;
    let first = checked_sum(piece.offset, before)?;
    if offset < first || offset - first >= nested.octets.len() {
        return Ok(Found::Elsewhere);
    }
    Ok(Found::Within(Inside {
        octets: nested.octets,
        place: piece.place.inside(checked_sum(piece.place.base, first)?)?,
        offset: offset - first,
    }))
}

// The whole element that the walk came to, or why it is none.
fn block_of<'a>(
    alloc: Global,
    walk: &mut Walk<'a>,
    octets: &'a [u8],
    piece: &Piece<'a>,
) -> Result<Result<Block<'a>, NoBlock>, AllocError>
    ensures { IfOk result (λ found. (before : List Front)
        → HasCome octets.now before walk.old piece.now → IsFoundAt octets.now piece.now.offset found) }
{
    match &piece.kind {
        PieceKind::EndOfContents(_) => Ok(Err(NoBlock::EndOfContents)),
        PieceKind::Unreadable(_) => Ok(Err(NoBlock::Unreadable)),
        PieceKind::Cut(_, _) => Ok(Err(NoBlock::CutShort)),
        PieceKind::Opened(_, _, _) | PieceKind::Leaf(_, _, _) => {
            whole_block(alloc, walk, octets, piece)
        }
    }
}

// The element whose row is that of a whole encoding, or of the header of one of the indefinite form.
fn whole_block<'a>(
    alloc: Global,
    walk: &mut Walk<'a>,
    octets: &'a [u8],
    piece: &Piece<'_>,
) -> Result<Result<Block<'a>, NoBlock>, AllocError>
    requires { IsWholeKind piece.now.kind }
    ensures { IfOk result (λ found. (before : List Front)
        → HasCome octets.now before walk.old piece.now → IsFoundAt octets.now piece.now.offset found) }
{
    if piece.sizes().is_indefinite {
        return ended_block(alloc, walk, octets, piece);
    }
    Ok(Ok(sized_block(octets, piece)?))
}

// A whole element of definite length.
fn sized_block<'a>(octets: &'a [u8], piece: &Piece<'_>) -> Result<Block<'a>, AllocError>
    ensures octets { IfOk result (λ block. block.octets.now ≡ slice_range octets.now piece.now.offset
        (piece.now.offset + (kind_header piece.now.kind + kind_contents piece.now.kind))) }
    ensures contents { IfOk result (λ block. block.contents.now
        ≡ slice_range octets.now (piece.now.offset + kind_header piece.now.kind)
        (piece.now.offset + (kind_header piece.now.kind + kind_contents piece.now.kind))) }
{
    let sizes = piece.sizes();
    let contents = checked_sum(piece.offset, sizes.header)?;
    let end = checked_sum(contents, sizes.contents)?;
    Ok(Block {
        octets: octets_between(octets, piece.offset, end),
        contents: octets_between(octets, contents, end),
        place: piece.place,
    })
}

// An element of the indefinite form, whose end the walk has yet to come to.
fn ended_block<'a>(
    alloc: Global,
    walk: &mut Walk<'a>,
    octets: &'a [u8],
    piece: &Piece<'_>,
) -> Result<Result<Block<'a>, NoBlock>, AllocError>
    requires form { kind_indefinite piece.now.kind ≡ true }
    requires whole { IsWholeKind piece.now.kind }
    ensures { IfOk result (λ found. (before : List Front)
        → HasCome octets.now before walk.old piece.now → IsFoundAt octets.now piece.now.offset found) }
{
    let contents = checked_sum(piece.offset, piece.sizes().header)?;
    let Some(end) = end_of(alloc, walk, piece.place.depth)? else {
        return Ok(Err(NoBlock::CutShort));
    };
    Ok(Ok(Block {
        octets: octets_between(octets, piece.offset, checked_sum(end, 2)?),
        contents: octets_between(octets, contents, end),
        place: piece.place,
    }))
}

// Where the end-of-contents octets stand of the element that the walk came to last, which stands so deep. `None` where
// they are missing.
fn end_of(alloc: Global, walk: &mut Walk<'_>, depth: usize) -> Result<Option<usize>, AllocError>
    ensures { IfOk result (λ found. MatchOption found
        (HasNoEnd walk.old depth)
        (EndsAt walk.old depth)) }
{
    while let Some(piece) = walk.next(alloc)? {
        match next_of(piece, depth) {
            Next::Ended(offset) => return Ok(Some(offset)),
            Next::Behind => return Ok(None),
            Next::Deeper => {}
        }
    }
    Ok(None)
}

// What comes next in or behind an element.
#[derive(Clone, Copy, Drop)]
enum Next {
    // something inside it
    Deeper,
    // its end-of-contents octets, at the offset
    Ended(usize),
    // something behind it
    Behind,
}

// What a piece is to an element that stands so deep, and inside which the pieces between are. The piece ends here.
fn next_of(piece: Piece<'_>, depth: usize) -> Next
    ensures { IsNext depth piece.entry result }
{
    next_by(&piece, depth)
}

// What a piece is to an element that stands so deep.
fn next_by(piece: &Piece<'_>, depth: usize) -> Next
    ensures { IsNext depth piece.now result }
{
    if piece.place.depth <= depth {
        Next::Behind
    } else if piece.place.depth - depth == 1 && piece.is_end() {
        Next::Ended(piece.offset)
    } else {
        Next::Deeper
    }
}
