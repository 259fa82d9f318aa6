// The width of lines: how many columns of a terminal their texts take, and what is left of them where that is too much.
ghost use Rattle.std.specs.Prelude.{◌≤◌, ◌↔◌, IfOk, IsTrue, Some};
ghost use Rattle.dump_rows.specs.Parts.{text_of};
ghost use Rattle.dump_rows.specs.Printing.{IsShownIn, columns_of};

use crate::part::{Look, Part, push_parts};
use der_io::is_shown;
use std::alloc::{AllocError, Global};
use unicode_width::{UnicodeWidthChar, UnicodeWidthStr};

// What stands at the end of a text that is cut.
pub const ELLIPSIS: &str = "..";

// The most columns of what stands for a character that is not shown: `\u{10ffff}`.
const ESCAPE_COLUMNS: usize = 10;

// Whether the texts of a line take so many columns at most.
pub fn fits(alloc: Global, texts: &[Part<'_>], most: usize) -> Result<bool, AllocError>
    ensures { IfOk result (λ fits. IsTrue fits ↔ (columns_of (text_of texts.now) ≤ most)) }
{
    let mut line = String::new(alloc);
    push_parts(alloc, Look::Plain, texts, &mut line)?;
    Ok(line.width() <= most)
}

// The texts of a line, where they take so many columns at most; or else those at its front, and an ellipsis. Nothing,
// where that has no room.
pub fn cut<'a>(alloc: Global, texts: &[Part<'a>], most: usize) -> Result<Vec<Part<'a>>, AllocError>
    ensures { IfOk result (λ shown. IsShownIn (Some most) (text_of texts.now) (text_of shown.items)) }
{
    if fits(alloc, texts, most)? {
        return Vec::from_slice(alloc, texts);
    }
    let front = front_of_line(alloc, texts, most)?;
    if fits(alloc, &front, most)? {
        return Ok(front);
    }
    Ok(Vec::new(alloc))
}

// As much of the texts of a line as has room in so many columns beside an ellipsis, and this.
fn front_of_line<'a>(
    alloc: Global,
    texts: &[Part<'a>],
    most: usize,
) -> Result<Vec<Part<'a>>, AllocError> {
    let mut room = most.saturating_sub(ELLIPSIS.len());
    let mut line = Vec::new(alloc);
    for part in texts {
        let Part::Text(paint, text) = part else {
            continue;
        };
        let (front, columns) = front_of(text, room);
        line.push(Part::Text(*paint, front))?;
        if front.len() < text.len() {
            line.push(Part::Text(*paint, ELLIPSIS))?;
            return Ok(line);
        }
        room = room.saturating_sub(columns);
    }
    Ok(line)
}

// The front of a text that takes so many columns at most, and how many it takes.
pub fn front_of(text: &str, most: usize) -> (&str, usize) {
    let mut columns = 0_usize;
    for (start, c) in text.char_indices() {
        let more = columns.saturating_add(columns_of(c));
        if more > most {
            return (text.get(..start).unwrap_or(text), columns);
        }
        columns = more;
    }
    (text, columns)
}

// How many columns what is shown of a character takes by itself, or more.
fn columns_of(c: char) -> usize {
    if is_shown(c) {
        c.width().unwrap_or(0)
    } else {
        ESCAPE_COLUMNS
    }
}
