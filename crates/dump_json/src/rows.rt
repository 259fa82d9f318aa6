// The objects of a document, in the order of its lines.
ghost use Rattle.std.specs.Prelude.{◌<◌, IfOk, IfSome, OnOk};
ghost use Rattle.der_io.specs.Output.{IsWritten};
ghost use Rattle.dump_json.specs.Grammar.{IsOpenObject, IsValue};
ghost use Rattle.dump_json.specs.Lines.{Turns};

use crate::json::Json;
use crate::line::Dumper;
use crate::members::{Name, comma};
use crate::piece::{rule_object, write_piece};
use der_io::{StreamFault, write_part};
use dump_values::faults::Fault;
use dump_walk::path::Paths;
use dump_walk::piece::Piece;
use dump_walk::place::Place;
use dump_walk::sum::checked_sum;
use dump_walk::walk::Walk;
use std::alloc::AllocError;
use std::io::Write;

// What was seen of a document.
#[derive(Drop)]
pub struct Seen {
    // the rules that are broken, also inside octets of strings, where octets have to be DER
    pub departures: Vec<Json>,
    // the path of the last piece
    pub paths: Paths,
}

// How many octets a path has at most that is told. Of types that hold themselves, it grows with each level.
const MOST_PATH: usize = 1024;

impl Dumper<'_> {
    // Writes the objects of octets, as an array, and adds them to what was seen of the document. Returns the first
    // fault.
    #[cycle(rows)]
    pub fn write_rows<W: Write>(
        &self,
        octets: &[u8],
        place: Place,
        seen: &mut Seen,
        out: &mut W,
    ) -> Result<Option<Fault>, StreamFault>
        ensures { OnOk result (IsWritten IsValue (W.contents out.old) (W.contents out.new)) }
    {
        write_part(out, b"[")?;
        let mut first = None;
        let mut is_later = false;
        let mut walk = Walk::over(self.alloc, &self.names.shapes, octets, place)?;
        'pieces: while let Some(piece) = walk.next(self.alloc)? {
            write_part(out, comma(is_later))?;
            first = first.or(self.write_row(piece, seen, out)?);
            is_later = true;
        }
        write_part(out, b"]")?;
        Ok(first)
    }

    // Writes the object of a piece, and returns its fault.
    #[cycle(rows)]
    fn write_row<W: Write>(
        &self,
        piece: Piece<'_>,
        seen: &mut Seen,
        out: &mut W,
    ) -> Result<Option<Fault>, StreamFault>
        requires { IfSome piece.nested (λ _. 0 < piece.place.documents) }
        ensures { OnOk result (IsWritten IsValue (W.contents out.old) (W.contents out.new)) }
    {
        let is_later = self.write_begin(&piece, seen, out)?;
        self.write_end(&piece, is_later, seen, out)?;
        Ok(piece.fault)
    }

    // Writes the object of a piece up to its member of blocks. Returns whether a member stands in it.
    fn write_begin<W: Write>(
        &self,
        piece: &Piece<'_>,
        seen: &mut Seen,
        out: &mut W,
    ) -> Result<bool, StreamFault>
        ensures { IfOk result (λ later. IsWritten (IsOpenObject later) (W.contents out.old) (W.contents out.new)) }
    {
        let offset = piece.document_offset()?;
        let rules = self.rules_of(piece, offset, &mut seen.departures)?;
        write_part(out, b"{")?;
        let named = piece.names(&self.names.shapes);
        let path = seen.paths.next(piece, named)?;
        let path = path.filter(|path| path.len() <= MOST_PATH);
        write_piece(self.alloc, self.names, piece, named, path, rules, out)
    }

    // The rules that a piece at the offset breaks. They are added where octets have to be DER.
    fn rules_of(
        &self,
        piece: &Piece<'_>,
        offset: usize,
        departures: &mut Vec<Json>,
    ) -> Result<Option<Json>, AllocError> {
        let mut rules = Vec::new(self.alloc);
        for rule in &piece.breaches.describe(self.alloc)? {
            rules.push(rule_object(self.alloc, None, rule)?)?;
            if self.is_strict {
                departures.push(rule_object(self.alloc, Some(offset), rule)?)?;
            }
        }
        Json::array(self.alloc, &rules)
    }

    // Writes the member of the blocks inside contents octets, if there are any, and the end of the object.
    #[cycle(rows)]
    fn write_end<W: Write>(
        &self,
        piece: &Piece<'_>,
        is_later: bool,
        seen: &mut Seen,
        out: &mut W,
    ) -> Result<(), StreamFault>
        requires { IfSome piece.now.nested (λ _. 0 < piece.now.place.documents) }
        ensures { OnOk result (IsWritten (Turns (IsOpenObject is_later) IsValue)
            (W.contents out.old) (W.contents out.new)) }
    {
        let Some(nested) = piece.nested else {
            write_part(out, b"}")?;
            return Ok(());
        };
        let before = checked_sum(piece.document_offset()?, piece.sizes().header)?;
        let inside = piece.place.inside(checked_sum(before, nested.before)?)?;
        write_part(out, Name::Blocks.begin(is_later))?;
        self.write_rows(nested.octets, inside, seen, out)?;
        write_part(out, b"}")?;
        Ok(())
    }
}
