// The block of an input that an offset or a path means: shown alone, or a part of it.
ghost use Rattle.std.specs.Prelude.{◌≡◌, IfErr, IfOk, List, None, Option, Some, ℕ, string_bytes};
ghost use Rattle.der_forms.specs.Objects.{IsReadAs, document_of};
ghost use Rattle.der_io.specs.Output.{IsWritten};
ghost use Rattle.dump_inputs.specs.Blocks.{IsFoundIn, IsLine, IsMeantBy, IsPartBy, IsPartIn, IsPartOf, IsPath};
ghost use Rattle.dump_inputs.specs.Inputs.{IsPart, IsShownBy, IsShownIn, IsTaskText};
ghost use Rattle.dump_inputs.specs.declared.outcome.Outcome.TheVariants.{Written};
ghost use Rattle.dump_lines.specs.declared.document.Verdict.TheVariants.{Refused};
ghost use Rattle.dump_options.specs.declared.options.Part.TheVariants.{Text};
ghost use Rattle.dump_options.specs.declared.options.Task.TheVariants.{At, Extract};

use crate::by_path::{Which, offset_of};
use crate::outcome::Outcome;
use crate::show::{Document, Show};
use crate::value_text::value_text;
use der_forms::{FormFault, LabelledDocument, labelled_document_of};
use der_io::{StreamFault, push_shown, write_part};
use dump_lines::{Style, Verdict};
use dump_options::{Part, Target};
use dump_rows::Printer;
use dump_walk::place::{Place, outermost};
use dump_walk::{Block, NoBlock, NoString, block_at, string_octets};
use std::alloc::{AllocError, Global};
use std::io::Write;

impl Show<'_> {
    // Shows the block of the document of an input that is meant, or says why there is none.
    pub fn push_at<W: Write>(
        &self,
        name: &str,
        input: Vec<u8>,
        target: Target<'_>,
        printer: &mut Printer<W>,
    ) -> Result<Outcome, StreamFault>
        ensures { IfOk result (λ outcome. (text : List ℕ)
            → IsTaskText (At target.entry) input.items outcome text) }
    {
        let document = match first_document(self.alloc, input)? {
            Ok(document) => document,
            Err(why) => return self.push_lack(name, &why, printer),
        };
        self.push_meant(name, &document, target, printer)
    }

    // Shows the block of a document that is meant, or says why there is none.
    fn push_meant<W: Write>(
        &self,
        name: &str,
        document: &LabelledDocument,
        target: Target<'_>,
        printer: &mut Printer<W>,
    ) -> Result<Outcome, StreamFault>
        ensures { IfOk result (IsShownBy target.entry document.now.octets.items) }
    {
        match self.offset_in(document, target, Which::Outermost)? {
            Ok(offset) => self.push_block(name, document, offset, printer),
            Err(why) => self.push_lack(name, &why, printer),
        }
    }

    // Shows the block that begins at the offset in a document, or says why there is none.
    fn push_block<'a, W: Write>(
        &'a self,
        name: &str,
        document: &'a LabelledDocument,
        offset: usize,
        printer: &mut Printer<W>,
    ) -> Result<Outcome, StreamFault>
        ensures { IfOk result (IsShownIn offset document.now.octets.items) }
    {
        let block = match self.block_in(document, offset)? {
            Ok(block) => block,
            Err(why) => return self.push_lack(name, &why, printer),
        };
        let shown = Document {
            label: None,
            octets: Ok(block.octets),
            field: block.place.field().copied(),
        };
        let verdict = self.push_named(name, shown, printer)?;
        Ok(Outcome::Written(verdict))
    }

    // Says why an input has no such block.
    fn push_lack<W: Write>(
        &self,
        name: &str,
        why: &str,
        printer: &mut Printer<W>,
    ) -> Result<Outcome, StreamFault>
        ensures { IfOk result (λ outcome. outcome ≡ Written Refused) }
    {
        self.push_named(name, Document::of(None, Err(why)), printer)?;
        Ok(Outcome::Written(Verdict::Refused))
    }

    // Writes a part of the block of the document of an input that is meant.
    pub fn push_part<W: Write>(
        &self,
        part: Part,
        input: Vec<u8>,
        target: Target<'_>,
        out: &mut W,
    ) -> Result<Outcome, StreamFault>
        ensures { IfOk result (λ outcome. IsWritten (IsTaskText (Extract part target.entry) input.items outcome)
            (W.contents out.old) (W.contents out.new)) }
    {
        match first_document(self.alloc, input)? {
            Ok(document) => self.push_part_meant(part, &document, target, out),
            Err(why) => Ok(Outcome::Lacking(why)),
        }
    }

    // Writes a part of the block of a document that is meant.
    fn push_part_meant<W: Write>(
        &self,
        part: Part,
        document: &LabelledDocument,
        target: Target<'_>,
        out: &mut W,
    ) -> Result<Outcome, StreamFault>
        ensures { IfOk result (λ outcome. (octets : Option (List ℕ))
            × IsPartBy target.entry part document.now.octets.items octets
            × IsWritten (IsPart octets outcome) (W.contents out.old) (W.contents out.new)) }
    {
        let which = match part {
            Part::Text => Which::Innermost,
            Part::Whole | Part::Contents | Part::Value => Which::Outermost,
        };
        match self.offset_in(document, target, which)? {
            Ok(offset) => self.push_part_at(part, document, offset, out),
            Err(why) => Ok(Outcome::Lacking(why)),
        }
    }

    // Writes a part of the block that begins at the offset in a document.
    fn push_part_at<W: Write>(
        &self,
        part: Part,
        document: &LabelledDocument,
        offset: usize,
        out: &mut W,
    ) -> Result<Outcome, StreamFault>
        ensures { IfOk result (λ outcome. (octets : Option (List ℕ))
            × IsPartIn part offset document.now.octets.items octets
            × IsWritten (IsPart octets outcome) (W.contents out.old) (W.contents out.new)) }
    {
        match self.block_in(document, offset)? {
            Ok(block) => self.push_part_of(part, &block, offset, out),
            Err(why) => Ok(Outcome::Lacking(why)),
        }
    }

    // The offset in a document of the block that is meant, or why there is none.
    fn offset_in(
        &self,
        document: &LabelledDocument,
        target: Target<'_>,
        which: Which,
    ) -> Result<Result<usize, String>, AllocError>
        ensures found { IfOk result (λ found. IfOk found (IsMeantBy target.entry)) }
        ensures none { IfOk result (λ found. IfErr found (λ _. IsPath target.entry)) }
    {
        let path = match target {
            Target::Offset(offset) => return Ok(Ok(offset)),
            Target::Path(path) => path,
        };
        let style = Style {
            is_plain: false,
            ..self.style
        };
        let place = self.place_of(document, style);
        let shapes = &self.names.shapes;
        match offset_of(self.alloc, shapes, &document.octets, place, path, which)? {
            Some(offset) => Ok(Ok(offset)),
            None => Ok(Err(format!(in self.alloc; "no block has the path {path}")?)),
        }
    }

    // The block that begins at the offset in a document, or why there is none. It is one that has a row in a dump of
    // all that stands inside.
    fn block_in<'a>(
        &'a self,
        document: &'a LabelledDocument,
        offset: usize,
    ) -> Result<Result<Block<'a>, String>, AllocError>
        ensures { IfOk result (IsFoundIn offset document.now.octets.items) }
    {
        let place = self.place_of(document, self.style);
        match block_at(
            self.alloc,
            &self.names.shapes,
            &document.octets,
            place,
            offset,
        )? {
            Ok(block) => Ok(Ok(block)),
            Err(why) => Ok(Err(no_block_text(self.alloc, why, offset)?)),
        }
    }

    // The place of a document, of which all that stands inside has rows.
    fn place_of(&self, document: &LabelledDocument, style: Style) -> Place {
        let style = Style {
            is_flat: false,
            most_depth: None,
            ..style
        };
        outermost(style, self.around_labelled(document.label.as_deref()))
    }

    // Writes a part of the block at the offset.
    fn push_part_of<W: Write>(
        &self,
        part: Part,
        block: &Block<'_>,
        offset: usize,
        out: &mut W,
    ) -> Result<Outcome, StreamFault>
        ensures { IfOk result (λ outcome. (octets : Option (List ℕ))
            × IsPartOf part block.now.octets.now block.now.contents.now octets
            × IsWritten (IsPart octets outcome) (W.contents out.old) (W.contents out.new)) }
    {
        match part {
            Part::Whole => push_octets(block.octets, out),
            Part::Contents => push_octets(block.contents, out),
            Part::Value => match string_octets(self.alloc, block.octets)? {
                Ok(octets) => push_octets(&octets, out),
                Err(why) => Ok(Outcome::Lacking(no_string_text(self.alloc, why, offset)?)),
            },
            Part::Text => self.push_text_of(block, offset, out),
        }
    }

    // Writes the value of the block at the offset as a line of text; its contents octets, if it has no text.
    fn push_text_of<W: Write>(
        &self,
        block: &Block<'_>,
        offset: usize,
        out: &mut W,
    ) -> Result<Outcome, StreamFault>
        ensures { IfOk result (λ outcome. (octets : Option (List ℕ))
            × IsPartOf Text block.now.octets.now block.now.contents.now octets
            × IsWritten (IsPart octets outcome) (W.contents out.old) (W.contents out.new)) }
    {
        match value_text(self.alloc, &self.names, self.style, block)? {
            Ok(Some(text)) => {
                let line = line_of(self.alloc, &text)?;
                push_octets(line.as_bytes(), out)
            }
            Ok(None) => push_octets(block.contents, out),
            Err(why) => Ok(Outcome::Lacking(format!(in self.alloc;
                "the value at offset {offset} {why}"
            )?)),
        }
    }
}

// The line of a text, in which `\u{..}` stands in the place of each character that is not shown.
fn line_of(alloc: Global, text: &str) -> Result<String, AllocError>
    ensures { IfOk result (λ line. IsLine (string_bytes line)) }
{
    let mut line = String::new(alloc);
    push_shown(text, &mut line)?;
    line.push_str("\n")?;
    Ok(line)
}

// The document of an input, the first one of PEM, or why there is none.
fn first_document(
    alloc: Global,
    input: Vec<u8>,
) -> Result<Result<LabelledDocument, String>, AllocError>
    ensures found { IfOk result (λ found. IfOk found (λ document.
        IsReadAs input.items document.octets.items)) }
    ensures none { IfOk result (λ found. IfErr found (λ _. document_of input.items ≡ None)) }
{
    match labelled_document_of(alloc, input) {
        Ok(document) => Ok(Ok(document)),
        Err(FormFault::OutOfMemory) => Err(AllocError),
        Err(fault) => Ok(Err(format!(in alloc; "{fault}")?)),
    }
}

// Why no block begins at the offset.
fn no_block_text(alloc: Global, why: NoBlock, offset: usize) -> Result<String, AllocError> {
    let because = match why {
        NoBlock::EndOfContents => ": it is the end of an indefinite length",
        NoBlock::Unreadable => ": the bytes there are no header",
        NoBlock::CutShort => {
            return format!(in alloc; "the block at offset {offset} is cut short");
        }
        NoBlock::Nothing => "",
    };
    format!(in alloc; "no block begins at offset {offset}{because}")
}

// Why the block at the offset holds no octets of a string.
fn no_string_text(alloc: Global, why: NoString, offset: usize) -> Result<String, AllocError> {
    match why {
        NoString::OtherType => format!(in alloc; "the block at offset {offset} is no string"),
        NoString::Malformed => format!(in alloc; "the string at offset {offset} is malformed"),
    }
}

// Writes octets as they stand.
fn push_octets<W: Write>(octets: &[u8], out: &mut W) -> Result<Outcome, StreamFault>
    ensures { IfOk result (λ outcome. IsWritten (IsPart (Some octets.now) outcome)
        (W.contents out.old) (W.contents out.new)) }
{
    write_part(out, octets)?;
    Ok(Outcome::Written(Verdict::AllRead))
}
