// A document as lines of JSON.
ghost use Rattle.std.specs.Prelude.{OnOk};
ghost use Rattle.der_io.specs.Output.{IsWritten};
ghost use Rattle.dump_json.specs.Grammar.{IsOpenObject};
ghost use Rattle.dump_json.specs.Lines.{AreLines, IsLine, Turns};

use crate::json::Json;
use crate::members::{Member, Name, write_members};
use crate::piece::fault_object;
use crate::rows::Seen;
use crate::value::Value;
use asn1_headers::error::ASN1DecodeErr;
use der_io::{StreamFault, write_part};
use dump_names::Names;
use dump_shapes::Around;
use dump_values::faults::{Fault, fault_at};
use dump_walk::path::Paths;
use dump_walk::place::outermost;
use dump_walk::style::Style;
use std::alloc::Global;
use std::io::Write;

/// Where octets are from, as far as a line tells it. Each text that is there is the member of its name, behind the
/// blocks or the fault.
#[derive(Clone, Copy, Debug, Default, Drop, PartialEq)]
pub struct Origin<'a> {
    /// The name of the file.
    pub file: Option<&'a str>,
    /// The label of the object of PEM.
    pub label: Option<&'a str>,
}

impl<'a> Origin<'a> {
    fn members(self) -> [Member<'a>; 2] {
        [
            (Name::File, self.file.map(Value::Text)),
            (Name::Label, self.label.map(Value::Text)),
        ]
    }
}

/// Writes a document as lines of JSON.
#[derive(Clone, Copy)]
pub struct Dumper<'a> {
    pub alloc: Global,
    pub names: &'a Names,
    /// What says which fields the document is and has, as far as it is known.
    pub around: Around,
    /// Where the document is from.
    pub origin: Origin<'a>,
    /// It has to be DER.
    pub is_strict: bool,
}

impl Dumper<'_> {
    /// Writes octets as a line of JSON, as the page of this crate describes it: `{"blocks":[..]}` with an object for
    /// each line of a dump. Where they have to be DER, and something is not, also inside strings, a second line says
    /// it, with the offset of each: `{"not_der":[{"offset":..,"rule":"..","section":"..","text":".."},..]}`. Where some
    /// are at fault, the last line is the first fault: `{"fault":{"code":..,"offset":..,"text":".."}}`; of no octets it
    /// is the only one. Where the octets are from follows, as the members `file` and `label`. Of the style only the
    /// names of fields count. Whether nothing is at fault, and all is DER that has to be.
    ///
    /// Each object is written before the next is made, and each value without a copy of its text. It takes the memory
    /// of one value, and some words for each encoding that is open, with the names of the fields that lead to it;
    /// strictly, also some for each rule of DER that is broken.
    ///
    /// # Errors
    /// `Memory`, after which what was written before stays, which may be a part of a line; `Write`, after which nothing
    /// is known of what was written.
    pub fn push_document<W: Write>(
        &self,
        style: Style,
        octets: &[u8],
        out: &mut W,
    ) -> Result<bool, StreamFault>
        ensures { OnOk result (IsWritten AreLines (W.contents out.old) (W.contents out.new)) }
    {
        if octets.is_empty() {
            let fault = fault_at(self.alloc, 0, &ASN1DecodeErr::EmptyBuffer)?;
            self.write_line(Name::Fault, fault_object(self.alloc, &fault, 0)?, out)?;
            return Ok(false);
        }
        let mut seen = Seen {
            departures: Vec::new(self.alloc),
            paths: Paths::none(self.alloc),
        };
        let first = self.write_blocks(style, octets, &mut seen, out)?;
        let not_der = Json::array(self.alloc, &seen.departures)?;
        let is_right = first.is_none() && not_der.is_none();
        let fault = match &first {
            Some(fault) => Some(fault_object(self.alloc, fault, fault.offset)?),
            None => None,
        };
        self.write_some(Name::NotDer, not_der, out)?;
        self.write_some(Name::Fault, fault, out)?;
        Ok(is_right)
    }

    // Writes the line of the objects of octets, and returns the first fault.
    fn write_blocks<W: Write>(
        &self,
        style: Style,
        octets: &[u8],
        seen: &mut Seen,
        out: &mut W,
    ) -> Result<Option<Fault>, StreamFault>
        ensures { OnOk result (IsWritten IsLine (W.contents out.old) (W.contents out.new)) }
    {
        write_part(out, b"{\"blocks\":")?;
        // all of the document
        let style = Style {
            is_full: true,
            is_flat: false,
            most_depth: None,
            ..style
        };
        let place = outermost(style, self.around);
        let first = self.write_rows(octets, place, seen, out)?;
        self.write_line_end(true, out)?;
        Ok(first)
    }

    /// Writes a line of JSON that says why octets are not read: `{"fault":{"text":".."}}`. Where the octets are from
    /// follows, as the members `file` and `label`.
    ///
    /// # Errors
    /// Those of [`Dumper::push_document`].
    pub fn push_refusal<W: Write>(&self, why: &str, out: &mut W) -> Result<(), StreamFault>
        ensures { OnOk result (IsWritten IsLine (W.contents out.old) (W.contents out.new)) }
    {
        let fault = Json::object(self.alloc, &[(Name::Text, Some(Value::Text(why)))])?;
        self.write_line(Name::Fault, fault, out)
    }

    // Writes the line of an object with this member, if it is there.
    fn write_some<W: Write>(
        &self,
        name: Name,
        value: Option<Json>,
        out: &mut W,
    ) -> Result<(), StreamFault>
        ensures { OnOk result (IsWritten (Turns AreLines AreLines) (W.contents out.old) (W.contents out.new)) }
    {
        let Some(value) = value else {
            return Ok(());
        };
        self.write_line(name, value, out)?;
        Ok(())
    }

    // Writes the line of an object with this member, and with where octets are from.
    fn write_line<W: Write>(&self, name: Name, value: Json, out: &mut W) -> Result<(), StreamFault>
        ensures { OnOk result (IsWritten IsLine (W.contents out.old) (W.contents out.new)) }
    {
        write_part(out, b"{")?;
        let is_later = write_members(&[(name, Some(Value::Written(value)))], false, out)?;
        self.write_line_end(is_later, out)?;
        Ok(())
    }

    // Writes the end of a line: the members of where octets are from, and the end of its object.
    fn write_line_end<W: Write>(&self, is_later: bool, out: &mut W) -> Result<(), StreamFault>
        ensures { OnOk result (IsWritten (Turns (IsOpenObject is_later) IsLine)
            (W.contents out.old) (W.contents out.new)) }
    {
        write_members(&self.origin.members(), is_later, out)?;
        write_part(out, b"}\n")?;
        Ok(())
    }
}
