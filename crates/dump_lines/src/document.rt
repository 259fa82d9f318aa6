// Documents, and what is wrong with these.
ghost use Rattle.std.specs.Prelude.{◌≡◌, ◌++◌, IfOk, OnOk};
ghost use Rattle.dump_lines.specs.Dump.{IsDumpOf, verdict_of};
ghost use Rattle.dump_lines.specs.Steps.{mark_offsets};
ghost use Rattle.dump_lines.specs.declared.document.Verdict.TheVariants.{Refused};
ghost use Rattle.dump_rows.specs.Printing.{IsPrinted, PrintsText};
ghost use Rattle.dump_walk.specs.Pieces.{fault_offset};

use crate::encodings::Marked;
use asn1_headers::error::ASN1DecodeErr;
use der_io::StreamFault;
use dump_names::Names;
use dump_rows::Printer;
use dump_shapes::Around;
use dump_values::faults::{Fault, fault_at};
use dump_walk::place::outermost;
use dump_walk::style::Style;
use std::alloc::Global;
use std::io::Write;

/// Whether all of an input was read.
#[derive(Clone, Copy, Debug, Drop, PartialEq)]
pub enum Verdict {
    /// It is encodings with nothing wrong in them.
    AllRead,
    /// Something is wrong with it.
    Refused,
}

/// Prints the rows of documents.
#[derive(Clone, Copy)]
pub struct Dumper<'a> {
    pub alloc: Global,
    pub names: &'a Names,
    /// What says which fields documents are and have, as far as it is known.
    pub around: Around,
    /// Documents have to be DER.
    pub is_strict: bool,
}

impl Dumper<'_> {
    /// Prints the rows of octets: one for each encoding in order, by their headers. It goes into the contents octets of
    /// constructed encodings, and of each SEQUENCE and SET; of others it shows the value, or what is wrong with it.
    /// Octets that begin with no header have one line, up to the end of the contents octets around them, and it goes on
    /// there. Contents octets of the indefinite form of BER (X.690 8.1.3.6) end with end-of-contents octets, which have
    /// a line.
    ///
    /// Where documents have to be DER, what is wrong with them follows: a line with the offset of each encoding that
    /// breaks a rule, also inside strings where lines go into them, and which rules these are. The last line is that of
    /// the first fault, if there is one: no header, contents octets that are cut short, those of no value,
    /// end-of-contents octets that are missing, or the indefinite form of a primitive encoding, which is read as a
    /// length of 0. Octets inside strings count for nothing there. Where there is no such line the verdict is
    /// `AllRead`.
    ///
    /// It takes the memory of one row, whose value may be that of a string in segments, and two words for each encoding
    /// that is open; strictly, also some for each encoding that breaks a rule.
    ///
    /// # Errors
    /// `Memory`, after which what was printed before stays written; `Write`, after which nothing is known of what was.
    pub fn push_document<W: Write>(
        &self,
        style: Style,
        octets: &[u8],
        printer: &mut Printer<W>,
    ) -> Result<Verdict, StreamFault>
        ensures { IfOk result (λ verdict. IsPrinted W.contents
            (IsDumpOf self.now.is_strict style.most_depth octets.now verdict) printer.old printer.new) }
    {
        if octets.is_empty() {
            let fault = fault_at(self.alloc, 0, &ASN1DecodeErr::EmptyBuffer)?;
            printer.push_fault(0, &fault.message)?;
            return Ok(Verdict::Refused);
        }
        let mut marks = Vec::new(self.alloc);
        let place = outermost(style, self.around);
        let first = self.push_encodings(octets, place, &mut marks, printer)?;
        push_problems(&marks, &first, printer)?;
        Ok(verdict_on(&marks, &first))
    }
}

// Prints a line for each mark, and one for the first fault, if there is one.
fn push_problems<W: Write>(
    marks: &[Marked],
    first: &Option<Fault>,
    printer: &mut Printer<W>,
) -> Result<(), StreamFault>
    ensures { OnOk result (PrintsText W.contents printer.old printer.new) }
{
    for mark in marks {
        printer.push_broken(mark.offset, &mark.rules)?;
    }
    match first {
        Some(fault) => printer.push_fault(fault.offset, &fault.message),
        None => Ok(()),
    }
}

fn verdict_on(marks: &[Marked], first: &Option<Fault>) -> Verdict
    ensures { result ≡ verdict_of (mark_offsets marks.now ++ fault_offset first.now) }
{
    match (marks, first) {
        ([], None) => Verdict::AllRead,
        _ => Verdict::Refused,
    }
}

/// Prints a line that says why something is not read: `!`, a space, and the words. The verdict is `Refused`.
///
/// # Errors
/// `Memory`, after which what was printed before stays written; `Write`, after which nothing is known of what was.
pub fn push_refusal<W: Write>(why: &str, printer: &mut Printer<W>) -> Result<Verdict, StreamFault>
    ensures refused { IfOk result (λ verdict. verdict ≡ Refused) }
    ensures printed { OnOk result (PrintsText W.contents printer.old printer.new) }
{
    printer.push_refusal(why)?;
    Ok(Verdict::Refused)
}
