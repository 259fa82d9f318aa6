// The rows of octets, one for each piece, and of what stands inside octets of strings.
ghost use Rattle.std.specs.Prelude.{◌≡◌, ◌+◌, ◌++◌, ◌<◌, IfOk, IfSome, OnOk, map, string_bytes};
ghost use Rattle.dump_lines.specs.Dump.{IsRowOf, IsTextOf, marks_of, rules_of};
ghost use Rattle.dump_lines.specs.Steps.{IsInner, IsOwn, IsWhole, PrintsHeld, mark_offsets, shown_piece};
ghost use Rattle.dump_rows.specs.Printing.{IsPrinted};
ghost use Rattle.dump_walk.specs.Marks.{breaches_of};
ghost use Rattle.dump_walk.specs.Pieces.{fault_offset, kind_type_name};

use crate::document::Dumper;
use crate::values::{is_shown_constructed, value_text};
use der_io::StreamFault;
use dump_rows::{Inside, Printer, Row, RowFault, RowValue};
use dump_shapes::Named;
use dump_values::faults::Fault;
use dump_values::tag::holds_encodings;
use dump_walk::marks::Breaches;
use dump_walk::piece::{Piece, PieceKind};
use dump_walk::place::{Place, is_too_deep};
use dump_walk::sum::checked_sum;
use dump_walk::walk::Walk;
use std::alloc::{AllocError, Global};
use std::io::Write;

// Where an encoding stands that has a mark, in the document, and which rules it breaks.
#[derive(Drop)]
pub struct Marked {
    pub offset: usize,
    pub rules: Vec<&'static str>,
}

impl Dumper<'_> {
    // Prints the rows of octets, and adds the marks of these, strictly. Returns the first fault.
    #[cycle(encodings)]
    pub fn push_encodings<W: Write>(
        &self,
        octets: &[u8],
        place: Place,
        marks: &mut Vec<Marked>,
        printer: &mut Printer<W>,
    ) -> Result<Option<Fault>, StreamFault>
        ensures { IfOk result (λ first. IsPrinted W.contents (IsWhole self.now.is_strict place octets.now
            (fault_offset first) (mark_offsets marks.old.items) (mark_offsets marks.new.items))
            printer.old printer.new) }
    {
        let mut first = None;
        let mut walk = Walk::over(self.alloc, &self.names.shapes, octets, place)?;
        while let Some(piece) = walk.next(self.alloc)? {
            self.push_piece(&piece, marks, printer)?;
            first = first.or(piece.fault);
        }
        Ok(first)
    }

    // Prints the row of a piece, and those of encodings inside its contents octets.
    #[cycle(encodings)]
    fn push_piece<W: Write>(
        &self,
        piece: &Piece<'_>,
        marks: &mut Vec<Marked>,
        printer: &mut Printer<W>,
    ) -> Result<(), StreamFault>
        requires { IfSome piece.now.nested (λ _. 0 < piece.now.place.documents) }
        ensures { OnOk result (PrintsHeld W.contents (λ left. IsOwn self.now.is_strict piece.now left
            (mark_offsets marks.old.items) (mark_offsets marks.new.items)) piece.now printer.old printer.new) }
    {
        let rules = texts_of(self.alloc, &piece.breaches)?;
        self.push_row(piece, &rules, printer)?;
        self.keep_mark(piece, rules, marks)?;
        self.push_nested(piece, marks, printer)
    }

    // Prints the rows of encodings inside contents octets, if there are any.
    #[cycle(encodings)]
    fn push_nested<W: Write>(
        &self,
        piece: &Piece<'_>,
        marks: &mut Vec<Marked>,
        printer: &mut Printer<W>,
    ) -> Result<(), StreamFault>
        requires { IfSome piece.now.nested (λ _. 0 < piece.now.place.documents) }
        ensures { OnOk result (PrintsHeld W.contents (λ left. IsInner self.now.is_strict piece.now left
            (mark_offsets marks.old.items) (mark_offsets marks.new.items)) piece.now printer.old printer.new) }
    {
        let Some(nested) = piece.nested else {
            return Ok(());
        };
        let offset = checked_sum(piece.document_offset()?, piece.sizes().header)?;
        let inside = piece.place.inside(checked_sum(offset, nested.before)?)?;
        self.push_encodings(nested.octets, inside, marks, printer)?;
        Ok(())
    }

    // Keeps the rules that a piece breaks, strictly, since else they are not listed.
    fn keep_mark(
        &self,
        piece: &Piece<'_>,
        rules: Vec<&'static str>,
        marks: &mut Vec<Marked>,
    ) -> Result<(), AllocError>
        requires { map (λ r. r.now) rules.items ≡ rules_of (shown_piece piece.now) }
        ensures { OnOk result (mark_offsets marks.new.items
            ≡ mark_offsets marks.old.items ++ marks_of self.now.is_strict (shown_piece piece.now)) }
    {
        if !self.is_strict || rules.is_empty() {
            return Ok(());
        }
        let offset = piece.document_offset()?;
        marks.push(Marked { offset, rules })?;
        Ok(())
    }

    // Prints the row of a piece that breaks these rules, unless it stands too deep.
    fn push_row<W: Write>(
        &self,
        piece: &Piece<'_>,
        rules: &[&str],
        printer: &mut Printer<W>,
    ) -> Result<(), StreamFault>
        requires { map (λ r. r.now) rules.now ≡ rules_of (shown_piece piece.now) }
        ensures { OnOk result (IsPrinted W.contents (IsTextOf piece.now.place.style.most_depth (shown_piece piece.now))
            printer.old printer.new) }
    {
        let place = piece.place;
        if is_too_deep(place.style.most_depth, place.depth) {
            return Ok(());
        }
        let offset = piece.document_offset()?;
        let texts = Texts {
            type_name: piece.type_name(self.alloc)?,
            value: value_text(self.alloc, piece)?,
            bits: piece.bits_text(self.alloc, &self.names.shapes)?,
        };
        printer.push(&self.row_of(piece, offset, rules, &texts))?;
        Ok(())
    }

    // The row of a piece that stands at the offset of the document, and breaks these rules.
    fn row_of<'a>(
        &'a self,
        piece: &'a Piece<'_>,
        offset: usize,
        rules: &'a [&'a str],
        texts: &'a Texts,
    ) -> Row<'a>
        requires offset { offset ≡ piece.now.place.base + piece.now.offset }
        requires named { string_bytes texts.now.type_name ≡ kind_type_name piece.now.kind }
        requires rules { map (λ r. r.now) rules.now ≡ rules_of (shown_piece piece.now) }
        ensures { IsRowOf (shown_piece piece.now) result }
    {
        let named = piece.names(&self.names.shapes);
        let sizes = piece.sizes();
        Row {
            offset,
            header: sizes.header,
            contents: sizes.contents,
            is_indefinite: sizes.is_indefinite,
            depth: piece.place.depth,
            is_inside: piece.place.is_inside,
            has_rows_inside: has_rows_inside(piece),
            // where it has no name, that of its type, if that of its tag does not say as much
            field: named.and_then(|named| named.field.or((!named.is_of_tag).then_some(named.of))),
            type_name: &texts.type_name,
            is_type_told: named.is_some_and(|named| named.is_tag_told),
            value: self.row_value(piece, named, texts),
            fault: fault_of(piece),
            rules,
        }
    }

    // What a piece with these names holds.
    fn row_value<'a>(
        &'a self,
        piece: &'a Piece<'_>,
        named: Option<Named>,
        texts: &'a Texts,
    ) -> RowValue<'a> {
        // what its tag and its number mean is shown where it is gone into or has a value
        let named = match &piece.kind {
            PieceKind::Opened(_, _, _) | PieceKind::Leaf(_, _, Some(_)) => named,
            _ => None,
        };
        RowValue {
            alternative: named.and_then(|named| named.alternative),
            is_constructed: is_shown_constructed(piece),
            text: &texts.value,
            inside: match &piece.nested {
                None => Inside::Octets,
                Some(nested) if nested.is_guess => Inside::Guess,
                Some(_) => Inside::Encodings,
            },
            identifier: piece
                .value()
                .and_then(|value| value.identifier())
                .and_then(|identifier| self.names.of(identifier.dotted.as_deref()?)),
            meaning: texts
                .bits
                .as_deref()
                .or(named.and_then(|named| named.value)),
        }
    }
}

// The rules of DER that are broken, in words.
fn texts_of(alloc: Global, breaches: &Breaches) -> Result<Vec<&'static str>, AllocError>
    ensures { IfOk result (λ texts. map (λ r. r.now) texts.items
        ≡ breaches_of breaches.now.rules.items breaches.now.has_spare_bits) }
{
    let mut texts = Vec::new(alloc);
    let rules = breaches.describe(alloc)?;
    for rule in &rules {
        texts.push(rule.text)?;
    }
    Ok(texts)
}

// The texts that the row of a piece lends: its type, its value, and the names of the bits that are set.
#[derive(Drop)]
struct Texts {
    type_name: String,
    value: String,
    bits: Option<String>,
}

// What is wrong with a piece, if anything is.
fn fault_of<'a>(piece: &'a Piece<'_>) -> Option<RowFault<'a>> {
    let fault = piece.fault.as_ref()?;
    Some(match &piece.kind {
        PieceKind::EndOfContents(_) => RowFault::Missing,
        PieceKind::Cut(header, contents) => RowFault::CutShort {
            there: contents.len(),
            announced: header.announced,
        },
        PieceKind::Unreadable(_) | PieceKind::Opened(_, _, _) | PieceKind::Leaf(_, _, _) => {
            RowFault::Other(&fault.message)
        }
    })
}

// Whether rows of what stands inside a piece follow its own.
fn has_rows_inside(piece: &Piece<'_>) -> bool {
    let place = piece.place;
    if is_too_deep(place.style.most_depth, place.depth.saturating_add(1)) {
        return false;
    }
    match &piece.kind {
        PieceKind::EndOfContents(_) | PieceKind::Unreadable(_) => false,
        PieceKind::Cut(header, contents) | PieceKind::Opened(header, contents, _) => {
            holds_encodings(header) && (header.is_indefinite || !contents.is_empty())
        }
        PieceKind::Leaf(_, _, _) => piece.nested.is_some(),
    }
}
