// The texts of the line of a row.
ghost use Rattle.std.specs.Prelude.{◌≡◌, ◌≤◌, ◌∷◌, ◌++◌, [], List, ℕ, IfOk};
ghost use Rattle.der_io.specs.Characters.{line_feed};
ghost use Rattle.dump_rows.specs.Parts.{text_of};
ghost use Rattle.dump_rows.specs.Printing.{columns_of};
ghost use Rattle.dump_rows.specs.Rows.{IsRowLine};
ghost use Rattle.dump_rows.specs.Texts.{line_of};

use crate::part::{Paint, Part};
use crate::row::Row;
use crate::width::{ELLIPSIS, fits, front_of};
use std::alloc::{AllocError, Global};

// Room for the columns of most rows: offset, sizes, and two octets for each level.
const COLUMNS_ROOM: usize = 100;

// The fewest columns of a value that is cut, where what stands behind it is shown whole.
const LEAST_VALUE: usize = 10;

// The texts of a line, one behind another.
#[derive(Drop)]
pub struct RowTexts {
    columns: String,
    field: String,
    type_name: String,
    value: String,
    fault: String,
    mark: String,
}

impl RowTexts {
    // Those of a row.
    pub fn of(alloc: Global, row: &Row<'_>) -> Result<RowTexts, AllocError>
        ensures { IfOk result (λ texts. IsRowLine row.now (line_of texts ++ line_feed ∷ [])) }
    {
        let mut columns = String::with_capacity(alloc, COLUMNS_ROOM)?;
        row.push_columns(&mut columns)?;
        Ok(RowTexts {
            columns,
            field: row.field_text(alloc)?,
            type_name: String::from_str(alloc, row.type_name)?,
            value: row.value_text(alloc)?,
            fault: row.fault_text(alloc)?,
            mark: row.mark_text(alloc)?,
        })
    }

    // Those of a row in a width: all, where they have room; or else without what is the first to go.
    pub fn in_width(alloc: Global, row: &Row<'_>, most: usize) -> Result<RowTexts, AllocError>
        ensures { IfOk result (λ texts. (line : List ℕ) × IsRowLine row.now (line ++ line_feed ∷ [])
            × (columns_of line ≤ most → line_of texts ≡ line)) }
    {
        let whole = RowTexts::of(alloc, row)?;
        if fits(alloc, &whole.parts(), most)? {
            return Ok(whole);
        }
        RowTexts::shorter(alloc, row, most)
    }

    // Those of a row without its type, if its field tells that; where this is still too much, without the standard
    // behind the name of an object identifier; and then without the end of its value.
    fn shorter(alloc: Global, row: &Row<'_>, most: usize) -> Result<RowTexts, AllocError> {
        let untyped = RowTexts::of(alloc, &row.without_type())?;
        if fits(alloc, &untyped.parts(), most)? {
            return Ok(untyped);
        }
        let mut texts = RowTexts::of(alloc, &row.without_type().without_standard())?;
        let room = texts.value_room(most);
        if room >= LEAST_VALUE {
            texts.cut_value(alloc, room)?;
        }
        Ok(texts)
    }

    // How many columns are left for the value beside the other texts.
    fn value_room(&self, most: usize) -> usize {
        let others = [
            &self.columns,
            &self.field,
            &self.type_name,
            &self.fault,
            &self.mark,
        ];
        others.iter().fold(most, |room, text| {
            let (_, columns) = front_of(text, usize::MAX);
            room.saturating_sub(columns)
        })
    }

    // Cuts the value to so many columns, if it takes more.
    fn cut_value(&mut self, alloc: Global, room: usize) -> Result<(), AllocError> {
        let (front, _) = front_of(&self.value, room);
        if front.len() < self.value.len() {
            let (front, _) = front_of(&self.value, room.saturating_sub(ELLIPSIS.len()));
            self.value = format!(in alloc; "{front}{ELLIPSIS}")?;
        }
        Ok(())
    }

    // What is printed of them.
    pub fn parts(&self) -> [Part<'_>; 6]
        ensures { text_of result ≡ line_of self.now }
    {
        [
            Part::Text(Paint::Dim, &self.columns),
            Part::Text(Paint::Bold, &self.field),
            Part::Text(Paint::Cyan, &self.type_name),
            Part::Text(Paint::Default, &self.value),
            Part::Text(Paint::Red, &self.fault),
            Part::Text(Paint::Red, &self.mark),
        ]
    }
}
