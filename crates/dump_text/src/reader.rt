// Going over the pieces of a document for its account.
ghost use Rattle.std.specs.Prelude.{◌<◌, IfSome, OnOk, string_bytes};
ghost use Rattle.dump_text.specs.Shown.{AreLines};

use crate::forms::{Form, Part, Parts, Row, begins_with, is_path};
use crate::lines::{Line, push_lines};
use crate::open_line::OpenLine;
use crate::timestamps::timestamps_in;
use dump_names::Names;
use dump_shapes::Named;
use dump_values::faults::Fault;
use dump_walk::piece::{Piece, PieceKind};
use dump_walk::place::Place;
use dump_walk::sum::checked_sum;
use dump_walk::walk::Walk;
use jiff::civil::DateTime;
use sha2::{Digest, Sha256};
use std::alloc::{AllocError, Global};

// The places of lines that are of no row, behind those that are.
const FINGERPRINT: usize = usize::MAX - 1;

const NOT_DER: usize = usize::MAX;

// Where a document stands that is inside another: its shape, and which octets of the other one it has.
#[derive(Clone, Copy, Drop)]
pub struct Inside {
    pub shape: usize,
    pub start: usize,
    pub end: usize,
}

// What was seen of a document, beside its lines.
#[derive(Drop)]
pub struct Seen {
    // where documents stand inside it
    pub inside: Vec<Inside>,
    // why the octets are no whole encodings
    pub fault: Option<Fault>,
}

// How many lines one behind another have one label at most: a list may have many more revoked certificates.
const MOST_ALIKE: usize = 50_000;

// Lines with this label that are left out, which would stand at the place.
#[derive(Clone, Copy, Drop)]
struct LeftOut {
    place: usize,
    label: &'static str,
    count: usize,
}

// What an account has so far. It is of the first outermost encoding.
#[derive(Drop)]
pub struct Reader<'a> {
    alloc: Global,
    names: &'a Names,
    form: &'static Form,
    now: Option<DateTime>,
    // the names of the piece and of those around it: of what is no field the name of its type, or else `?`
    path: Vec<&'static str>,
    // the line of a field that has not ended
    open: Option<OpenLine>,
    lines: Vec<Line>,
    // how many lines with the label of the last one stand one behind another, with those that are left out
    alike: usize,
    left_out: Vec<LeftOut>,
    // where certificates and lists of revoked ones stand in the document
    inside: Vec<Inside>,
    // how many octets the encoding has, once it has ended
    size: Option<usize>,
    // why the octets are no whole encodings, and whether the encoding itself is none
    fault: Option<Fault>,
    is_cut: bool,
}

// Goes over the pieces of octets at the place, and those inside strings of which something is shown.
#[cycle(pieces)]
pub fn read_pieces(reader: &mut Reader<'_>, octets: &[u8], place: Place) -> Result<(), AllocError> {
    let names = reader.names;
    let mut walk = Walk::over(reader.alloc, &names.shapes, octets, place)?;
    while let Some(piece) = walk.next(reader.alloc)? {
        reader.see(octets, &piece)?;
        if reader.shows_inside() {
            read_nested(reader, &piece)?;
        }
        reader.keep_fault(piece);
    }
    reader.leave(place.depth)
}

// Goes over the pieces inside a string.
#[cycle(pieces)]
fn read_nested(reader: &mut Reader<'_>, piece: &Piece<'_>) -> Result<(), AllocError>
    requires { IfSome piece.now.nested (λ _. 0 < piece.now.place.documents) }
{
    let Some(nested) = piece.nested else {
        return Ok(());
    };
    let offset = checked_sum(piece.document_offset()?, piece.sizes().header)?;
    let inside = piece.place.inside(checked_sum(offset, nested.before)?)?;
    read_pieces(reader, nested.octets, inside)
}

impl<'a> Reader<'a> {
    // Before the first piece of a document of the form.
    pub fn new(
        alloc: Global,
        names: &'a Names,
        form: &'static Form,
        now: Option<DateTime>,
    ) -> Reader<'a> {
        Reader {
            alloc,
            names,
            form,
            now,
            path: Vec::new(alloc),
            open: None,
            lines: Vec::new(alloc),
            alike: 0,
            left_out: Vec::new(alloc),
            inside: Vec::new(alloc),
            size: None,
            fault: None,
            is_cut: false,
        }
    }

    // Sees a piece of the octets.
    fn see(&mut self, octets: &[u8], piece: &Piece<'_>) -> Result<(), AllocError> {
        let depth = piece.place.depth;
        self.leave(depth)?;
        self.see_broken(piece)?;
        if depth == 0 && piece.offset > 0 && self.size.is_none() {
            self.size = Some(piece.offset);
        }
        if self.size.is_some() {
            return Ok(());
        }
        let named = piece.names(&self.names.shapes);
        self.path.truncate(depth);
        self.path
            .push(named.map_or("?", |named| named.field.unwrap_or(named.of)))?;
        if ends_early(piece) {
            self.open = None;
            return Ok(());
        }
        let encoding = encoding_of(octets, piece);
        self.keep_inside(piece, named, encoding)?;
        self.show(piece, encoding)
    }

    // Keeps in mind where a document of its own stands inside the document: an encoding with these names.
    fn keep_inside(
        &mut self,
        piece: &Piece<'_>,
        named: Option<Named>,
        encoding: &[u8],
    ) -> Result<(), AllocError> {
        let Some(type_name) = named.and_then(type_inside) else {
            return Ok(());
        };
        let start = piece.document_offset()?;
        let end = checked_sum(start, encoding.len())?;
        match self.names.shapes.named(type_name) {
            Some(shape) if start > 0 && start < end => {
                self.inside.push(Inside { shape, start, end })?;
                Ok(())
            }
            _ => Ok(()),
        }
    }

    // Ends the line of a field that is not around what comes next, at the depth.
    fn leave(&mut self, depth: usize) -> Result<(), AllocError> {
        if let Some(open) = self.open.take_if(|open| depth <= open.depth) {
            let (place, (_, label, _)) = (open.place, open.row);
            if let Some(text) = open.into_text()? {
                self.push(place, label, text)?;
            }
        }
        Ok(())
    }

    fn push(&mut self, place: usize, label: &'static str, value: String) -> Result<(), AllocError> {
        let is_alike = self
            .lines
            .last()
            .is_some_and(|line: &Line| line.label == label);
        self.alike = if is_alike {
            self.alike.saturating_add(1)
        } else {
            1
        };
        if self.alike > MOST_ALIKE {
            return self.leave_out(place, label);
        }
        self.lines.push(Line {
            place,
            label,
            value,
        })?;
        Ok(())
    }

    // Counts a line that is left out.
    fn leave_out(&mut self, place: usize, label: &'static str) -> Result<(), AllocError> {
        let mut all = self.left_out.iter_mut();
        if let Some(left) = all.find(|left: &&mut LeftOut| left.label == label) {
            left.count = left.count.saturating_add(1);
            return Ok(());
        }
        self.left_out.push(LeftOut {
            place,
            label,
            count: 1,
        })?;
        Ok(())
    }

    // Adds how many lines are left out.
    fn add_left_out(&mut self) -> Result<(), AllocError> {
        for left in &self.left_out {
            let value = format!(in self.alloc; "and {} more", left.count)?;
            self.lines.push(Line {
                place: left.place,
                label: left.label,
                value,
            })?;
        }
        Ok(())
    }

    // Adds a line for each rule of DER that the piece breaks, unless it stands inside a string.
    fn see_broken(&mut self, piece: &Piece<'_>) -> Result<(), AllocError> {
        if piece.place.is_inside {
            return Ok(());
        }
        for rule in &piece.breaches.rules {
            let (rule, offset) = (rule.text(), piece.offset);
            let text = format!(in self.alloc; "{rule}, at offset {offset}")?;
            self.push(NOT_DER, "not DER", text)?;
        }
        Ok(())
    }

    // Shows the piece, which is this encoding, on the line that has it. A line that is open ends where an extension has
    // one inside it.
    fn show(&mut self, piece: &Piece<'_>, encoding: &[u8]) -> Result<(), AllocError> {
        let depth = piece.place.depth;
        if let Some((place, row)) = self.row_here() {
            self.open = Some(OpenLine::new(self.alloc, row, place, depth));
        }
        let Some(open) = &mut self.open else {
            return Ok(());
        };
        match part_at(open.row, inside_of(&self.path, open.depth)) {
            Some(Part::Timestamps) => self.push_timestamps(piece.contents()),
            Some(part) => open.see(self.names, self.now, part, piece, encoding),
            None => Ok(()),
        }
    }

    // The row of the piece that was seen last, and its place.
    fn row_here(&self) -> Option<(usize, Row)> {
        let path = inside_of(&self.path, 0);
        let found = self.form.row_at(path);
        let is_extension = self.form.extension_in(path).is_some();
        found.filter(|_| is_extension || self.open.is_none())
    }

    // Pushes a line for each timestamp of a list.
    fn push_timestamps(&mut self, list: &[u8]) -> Result<(), AllocError> {
        let Some((place, (_, label, _))) = self.open.as_ref().map(|open| (open.place, open.row))
        else {
            return Ok(());
        };
        for timestamp in timestamps_in(self.alloc, list)? {
            if let Some(text) = timestamp.text(self.alloc)? {
                self.push(place, label, text)?;
            }
        }
        Ok(())
    }

    // Whether something may be shown of what is inside the piece that was seen last.
    fn shows_inside(&self) -> bool {
        let path = inside_of(&self.path, 0);
        if self.form.has_extensions_at(path) {
            return true;
        }
        match &self.open {
            Some(open) => {
                let inside = inside_of(&self.path, open.depth);
                open.row.2.iter().any(|(path, _)| begins_with(path, inside))
            }
            None => self.form.has_rows_inside(path),
        }
    }

    // Keeps the fault of a piece for which the octets are no whole encodings, if it is the first.
    fn keep_fault(&mut self, piece: Piece<'_>) {
        if self.fault.is_none() && !piece.place.is_inside && ends_early(&piece) {
            self.is_cut = self.size.is_none();
            self.fault = piece.fault;
        }
    }

    // Pushes the lines of the octets, all of whose pieces were seen, and returns what else was seen of them. `None`
    // where a field is missing that an account needs: it has no lines.
    pub fn finish(mut self, octets: &[u8], text: &mut String) -> Result<Option<Seen>, AllocError>
        ensures { OnOk result (AreLines (string_bytes text.old) → AreLines (string_bytes text.new)) }
    {
        if !self.is_cut && !self.add_counts()? {
            return Ok(None);
        }
        if self.form.signed.is_some() && !self.is_cut {
            let encoding = octets
                .get(..self.size.unwrap_or(octets.len()))
                .unwrap_or(octets);
            let digest = hex::encode_upper(self.alloc, &Sha256::digest(encoding))?;
            self.push(FINGERPRINT, "SHA-256", digest)?;
        }
        self.add_left_out()?;
        self.lines.sort_by_key(|line: &Line| line.place)?;
        push_lines(self.alloc, self.form.title, &self.lines, text)?;
        Ok(Some(Seen {
            inside: self.inside,
            fault: self.fault,
        }))
    }

    // Adds the lines that count others, and returns whether all others are there that the account needs.
    fn add_counts(&mut self) -> Result<bool, AllocError> {
        for (place, (_, label, parts)) in self.form.rows.iter().enumerate() {
            if let Some(counted) = counted_in(parts) {
                let count = self.count_of(counted);
                self.push(place, label, format!(in self.alloc; "{count}")?)?;
            } else if self.count_of(label) == 0 && !self.form.optional.contains(label) {
                return Ok(false);
            }
        }
        Ok(true)
    }

    // How many lines have the label, with those that are left out.
    fn count_of(&self, label: &str) -> usize {
        let shown = self.lines.iter().filter(|line: &&Line| line.label == label);
        let left_out = self
            .left_out
            .iter()
            .filter(|left: &&LeftOut| left.label == label);
        left_out.fold(
            shown.count(),
            |count: usize, left: &LeftOut| count.saturating_add(left.count),
        )
    }
}

// The name of the type of a piece with these names, if accounts of it are shown inside others: those of a certificate
// and of a list, also as one of a set of CMS (RFC 5652, 10.2.1 and 10.2.2).
fn type_inside(named: Named) -> Option<&'static str> {
    match (named.of, named.field) {
        ("Certificate", _) | ("CertificateChoices", Some("certificate")) => Some("Certificate"),
        ("CertificateList", _) | ("RevocationInfoChoice", Some("crl")) => Some("CertificateList"),
        _ => None,
    }
}

// The label of the lines that are counted, if a line does that.
fn counted_in(parts: Parts) -> Option<&'static str> {
    let (_, part) = *parts.first()?;
    match part {
        Part::Count(label) => Some(label),
        _ => None,
    }
}

// How a piece with this path inside the field of a row is shown.
fn part_at((_, _, parts): Row, inside: &[&str]) -> Option<Part> {
    let (_, part) = parts.iter().find(|(path, _)| is_path(path, inside))?;
    Some(*part)
}

// The path inside the piece that stands inside so many others.
fn inside_of<'p>(path: &'p [&'static str], depth: usize) -> &'p [&'static str] {
    path.get(depth.saturating_add(1)..).unwrap_or(&[])
}

// The octets of a piece whose length is definite.
fn encoding_of<'o>(octets: &'o [u8], piece: &Piece<'_>) -> &'o [u8] {
    let sizes = piece.sizes();
    if sizes.is_indefinite {
        return &[];
    }
    let size = sizes.header.saturating_add(sizes.contents);
    let end = piece.offset.saturating_add(size);
    octets.get(piece.offset..end).unwrap_or(&[])
}

// Whether the octets end before the piece does, or are no encoding, so that more of it is not known.
fn ends_early(piece: &Piece<'_>) -> bool {
    matches!(
        &piece.kind,
        PieceKind::Unreadable(_) | PieceKind::Cut(_, _) | PieceKind::EndOfContents(0)
    )
}
