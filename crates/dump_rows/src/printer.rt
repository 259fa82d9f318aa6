// A printer, which writes rows and notes one behind another.
ghost use Rattle.std.specs.Prelude.{◌≡◌, ◌≤◌, ◌∷◌, ◌++◌, [], None, OnOk};
ghost use Rattle.der_io.specs.Characters.{equals_sign, exclamation_mark, line_feed};
ghost use Rattle.der_io.specs.Escaped.{escaped as escaped_is};
ghost use Rattle.dump_rows.specs.Parts.{text_of};
ghost use Rattle.dump_rows.specs.Printing.{IsPrinted, PrintsText, WritesParts};
ghost use Rattle.dump_rows.specs.Rows.{IsRowLine, note_line, shown_text};

use crate::part::{Look, Paint, Part, Place, push_parts};
use crate::row::Row;
use crate::texts::RowTexts;
use crate::width::cut;
use der_io::{StreamFault, escaped, write_part};
use std::alloc::Global;
use std::io::Write;

// How many octets beside the rows of a page are written at a time.
const OCTETS_AT_ONCE: usize = 4096;

// Room for most lines.
const LINE_ROOM: usize = 200;

// The levels that have an open fold, a bit each.
#[derive(Drop)]
struct Folds(u64);

impl Folds {
    // Closes those of the level and of deeper ones, and returns how many these were; opens one there, if it is one.
    fn turn(&mut self, level: usize, is_fold: bool) -> usize
        requires { level ≤ 40 }
    {
        let closed = (self.0 >> level).count_ones();
        let opened = u64::from(is_fold) << level;
        self.0 = self.0 % (1 << level) | opened;
        closed as usize
    }
}

// What stands around the texts of a line: at which level, and what a page has of it.
#[derive(Clone, Copy)]
struct Frame {
    level: usize,
    is_fold: bool,
    is_fault: bool,
    place: Option<Place>,
}

/// Prints rows and notes one behind another, in a look: each goes to the writer before the next is made.
#[derive(Drop)]
pub struct Printer<W> {
    alloc: Global,
    /// How they are shown.
    pub look: Look,
    /// How many columns of a terminal a line takes at most. Of a wider one the front is shown, and an ellipsis; of a
    /// row the type goes first, if its field tells it, then the standard of a name, and then the end of the value.
    pub width: Option<usize>,
    /// What they are written to.
    pub out: W,
    folds: Folds,
}

impl<W: Write> Printer<W> {
    /// A printer that writes to `out`, behind what was written to it before.
    pub fn new(alloc: Global, look: Look, out: W) -> Printer<W>
        ensures look { result.look ≡ look }
        ensures width { result.width ≡ None }
        ensures out { result.out ≡ out }
    {
        Printer {
            alloc,
            look,
            width: None,
            out,
            folds: Folds(0),
        }
    }

    /// The writer, behind all that was printed.
    pub fn into_writer(self) -> W
        ensures { result ≡ self.out }
    {
        let Printer { out, .. } = self;
        out
    }

    /// Prints a row. On a page its element has the class `fault` exactly if something is wrong with it.
    ///
    /// # Errors
    /// `Memory`, after which nothing of it was written; `Write`, after which nothing is known of what was.
    pub fn push(&mut self, row: &Row<'_>) -> Result<(), StreamFault>
        ensures { OnOk result (IsPrinted W.contents (IsRowLine row.now) self.old self.new) }
    {
        let frame = Frame {
            level: row.level(),
            is_fold: row.is_fold(),
            is_fault: row.fault.is_some(),
            place: Some(row.place()),
        };
        match self.width {
            None => {
                let texts = RowTexts::of(self.alloc, row)?;
                self.write_line(frame, &texts.parts())
            }
            Some(most) => {
                let texts = RowTexts::in_width(self.alloc, row, most)?;
                let shown = cut(self.alloc, &texts.parts(), most)?;
                self.write_line(frame, &shown)
            }
        }
    }

    /// Prints a title, as a label or a name: `=`, a space, and the octets as text, escaped.
    ///
    /// # Errors
    /// Those of [`Printer::push`].
    pub fn push_title(&mut self, title: &[u8]) -> Result<(), StreamFault>
        ensures { OnOk result (IsPrinted W.contents (λ text. text ≡ note_line equals_sign (escaped_is title.now))
            self.old self.new) }
    {
        let title = escaped(self.alloc, title)?;
        let line = format!(in self.alloc; "= {title}")?;
        self.push_note(false, &line)
    }

    /// Prints why there are no rows: `!`, a space, and the text. On a page its element has the class `fault`.
    ///
    /// # Errors
    /// Those of [`Printer::push`].
    pub fn push_refusal(&mut self, why: &str) -> Result<(), StreamFault>
        ensures { OnOk result (IsPrinted W.contents (λ text. text ≡ note_line exclamation_mark why.now)
            self.old self.new) }
    {
        let line = format!(in self.alloc; "! {why}")?;
        self.push_note(true, &line)
    }

    /// Prints a fault like a refusal: its offset, and the message.
    ///
    /// # Errors
    /// Those of [`Printer::push`].
    pub fn push_fault(&mut self, offset: usize, message: &str) -> Result<(), StreamFault>
        ensures { OnOk result (PrintsText W.contents self.old self.new) }
    {
        let why = format!(in self.alloc; "error at offset {offset}: {message}")?;
        self.push_refusal(&why)
    }

    /// Prints like a fault which rules of DER the encoding at the offset breaks.
    ///
    /// # Errors
    /// Those of [`Printer::push`].
    pub fn push_broken(&mut self, offset: usize, rules: &[&str]) -> Result<(), StreamFault>
        ensures { OnOk result (PrintsText W.contents self.old self.new) }
    {
        let words = rules.join(self.alloc, ", ")?;
        let message = format!(in self.alloc; "not DER: {words}")?;
        self.push_fault(offset, &message)
    }

    // Prints a line of no row, which says that something is wrong or names what follows.
    fn push_note(&mut self, is_fault: bool, line: &str) -> Result<(), StreamFault>
        ensures { OnOk result (IsPrinted W.contents (λ text. text ≡ shown_text line.now ++ line_feed ∷ [])
            self.old self.new) }
    {
        let paint = if is_fault { Paint::Red } else { Paint::Bold };
        let texts = [Part::Text(paint, line)];
        let frame = Frame {
            level: 0,
            is_fold: false,
            is_fault,
            place: None,
        };
        match self.width {
            None => self.write_line(frame, &texts),
            Some(most) => {
                let shown = cut(self.alloc, &texts, most)?;
                self.write_line(frame, &shown)
            }
        }
    }

    /// Ends the folds that are open.
    ///
    /// # Errors
    /// Those of [`Printer::push`].
    pub fn end_folds(&mut self) -> Result<(), StreamFault>
        ensures { OnOk result (IsPrinted W.contents (λ text. text ≡ []) self.old self.new) }
    {
        let closed = self.folds.turn(0, false);
        self.write(&[Part::FoldEnds(closed)])
    }

    /// Begins a section of a page.
    ///
    /// # Errors
    /// Those of [`Printer::push`].
    pub fn begin_section(&mut self) -> Result<(), StreamFault>
        ensures { OnOk result (PrintsText W.contents self.old self.new) }
    {
        self.write(&[Part::SectionStart])
    }

    /// Prints the octets that the rows of a section are of, and its end.
    ///
    /// # Errors
    /// Those of [`Printer::push`].
    pub fn end_section(&mut self, octets: &[u8]) -> Result<(), StreamFault>
        ensures { OnOk result (PrintsText W.contents self.old self.new) }
    {
        self.write(&[Part::OctetsStart])?;
        for part in octets.chunks(OCTETS_AT_ONCE) {
            self.write(&[Part::Octets(part)])?;
        }
        self.write(&[Part::SectionEnd])
    }

    // Writes a line of these texts, at once.
    fn write_line(&mut self, frame: Frame, texts: &[Part<'_>]) -> Result<(), StreamFault>
        requires { frame.level ≤ 40 }
        ensures { OnOk result (WritesParts W.contents (λ text. text ≡ text_of texts.now ++ line_feed ∷ [])
            self.old self.new) }
    {
        let Frame {
            level,
            is_fold,
            is_fault,
            place,
        } = frame;
        let closed = self.folds.turn(level, is_fold);
        let start = Part::Start {
            is_fold,
            is_fault,
            place,
        };
        let mut line = String::with_capacity(self.alloc, LINE_ROOM)?;
        push_parts(
            self.alloc,
            self.look,
            &[Part::FoldEnds(closed), start],
            &mut line,
        )?;
        push_parts(self.alloc, self.look, texts, &mut line)?;
        Part::End { is_fold }.push(self.alloc, self.look, &mut line)?;
        write_part(&mut self.out, line.as_bytes())
    }

    // Writes parts, at once.
    fn write(&mut self, parts: &[Part<'_>]) -> Result<(), StreamFault>
        ensures { OnOk result (WritesParts W.contents (λ text. text ≡ text_of parts.now) self.old self.new) }
    {
        let mut text = String::new(self.alloc);
        push_parts(self.alloc, self.look, parts, &mut text)?;
        write_part(&mut self.out, text.as_bytes())
    }
}
