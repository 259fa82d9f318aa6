// How documents are shown.
ghost use Rattle.std.specs.Prelude.{◌≡◌, false, OnOk};

use crate::document::zeros_behind;
use crate::found::{Found, documents_in};
use crate::other_forms::other_form;
use crate::quoted::without_marks;
use crate::spelled::is_pem;
use crate::utf16::text_in;
use asn1_der::is_der;
use der_forms::{FormFault, InputForm, Objects, PemObject, form_of, text_of};
use der_io::{StreamFault, write_part};
use dump_json::Origin;
use dump_lines::{Dumper, Style, Verdict, push_refusal};
use dump_names::{Names, OwnNames};
use dump_options::{Color, Options, Output, Width};
use dump_rows::{Look, Printer, foot, head};
use dump_shapes::{Around, Shapes, Spot};
use dump_text::account_of;
use jiff::civil::DateTime;
use std::alloc::{AllocError, Global};
use std::io::Write;
use std::{mem, str};

// What comes of showing documents.
type Shown = Result<Verdict, StreamFault>;

// What is said of octets that have no account.
const NO_ACCOUNT: &str =
    "no account: none of a type that --text knows, such as a certificate, a list, a key or a message";

// A document that is shown.
#[derive(Clone, Copy)]
pub struct Document<'l, 'a> {
    pub label: Option<&'l [u8]>,
    // its octets, or why they are not read
    pub octets: Result<&'a [u8], &'a str>,
    // the field that it is, if it is a block of another document, in which it has a name
    pub field: Option<Spot>,
}

impl<'l, 'a> Document<'l, 'a> {
    // A document of its own.
    pub fn of(label: Option<&'l [u8]>, octets: Result<&'a [u8], &'a str>) -> Document<'l, 'a> {
        Document {
            label,
            octets,
            field: None,
        }
    }
}

// How documents are shown.
#[derive(Drop)]
pub struct Show<'o> {
    pub alloc: Global,
    pub names: Names,
    pub style: Style,
    options: &'o Options<'o>,
    // the name of each input is shown
    is_named: bool,
    // the shape of the type that all documents are of, where one is named
    named_type: Option<usize>,
    // the time at which they are shown, in UTC
    time: Option<DateTime>,
}

impl<'o> Show<'o> {
    // What the options want of so many inputs.
    pub fn new(
        alloc: Global,
        options: &'o Options<'o>,
        own: Option<OwnNames>,
        count: usize,
        time: Option<DateTime>,
    ) -> Result<Show<'o>, AllocError> {
        let shapes = Shapes::new(alloc)?;
        let named_type = options.type_name.and_then(|name| shapes.named(name));
        let mut names = match own {
            Some(own) => Names::with(alloc, own)?,
            None => Names::new(alloc)?,
        };
        // by a call, since the borrow checker of the prover has no rule yet for an assignment here
        let _ = mem::replace(&mut names.shapes, shapes);
        Ok(Show {
            alloc,
            names,
            style: Style {
                is_full: options.is_full,
                is_flat: options.is_flat,
                most_depth: options.most_depth,
                is_plain: options.is_plain,
            },
            options,
            is_named: matches!(options.output, Output::Json) || count > 1,
            named_type,
            time,
        })
    }

    // Writes each document of an input, one after another, behind its name where names are shown. Where something is
    // not read, a line behind them says which other form it may be of.
    pub fn push_input<W: Write>(
        &self,
        name: &str,
        input: Vec<u8>,
        printer: &mut Printer<W>,
    ) -> Shown {
        let shown = self.push_file(name, printer)?;
        let text = text_in(self.alloc, input)?;
        let verdict = match form_of(self.alloc, &text)? {
            InputForm::Pem => shown.push_pem(&text, printer)?,
            InputForm::Unread(FormFault::Text(line)) => shown.push_words(line, &text, printer)?,
            InputForm::Unread(fault) => shown.push_fault(None, &fault, printer)?,
            InputForm::Spelled(octets) | InputForm::LaidOut(octets) => {
                shown.push(Document::of(None, Ok(&octets)), printer)?
            }
            InputForm::Der => shown.push(Document::of(None, Ok(&text)), printer)?,
        };
        if let (Verdict::Refused, Some(form)) = (verdict, other_form(&text)) {
            let why = format!(in self.alloc; "this may be {form}")?;
            self.push_note(true, &why, printer)?;
        }
        Ok(verdict)
    }

    // Writes a document, or why it is not read, behind the name of its input where names are shown.
    pub fn push_named<W: Write>(
        &self,
        name: &str,
        document: Document<'_, '_>,
        printer: &mut Printer<W>,
    ) -> Shown {
        let shown = self.push_file(name, printer)?;
        shown.push(document, printer)
    }

    // Writes the name of an input, where names are shown. What is printed of the input looks as the options want.
    fn push_file<'a, W: Write>(
        &'a self,
        name: &'a str,
        printer: &mut Printer<W>,
    ) -> Result<ShownInput<'a>, StreamFault> {
        printer.look = match (self.options.output, self.options.color) {
            (Output::Page, _) => Look::Page,
            (_, Color::Always) => Look::Colored,
            (_, Color::Auto | Color::Never) => Look::Plain,
        };
        printer.width = match (self.options.output, self.options.width) {
            (Output::Lines, Width::Columns(most)) => Some(most),
            _ => None,
        };
        if self.is_named {
            self.push_note(false, name, printer)?;
        }
        Ok(ShownInput {
            show: self,
            file: self.is_named.then_some(name),
        })
    }

    // Writes a title of documents, or what is wrong, on a page in a section of its own. JSON has neither.
    fn push_note<W: Write>(
        &self,
        is_fault: bool,
        text: &str,
        printer: &mut Printer<W>,
    ) -> Result<(), StreamFault> {
        if matches!(self.options.output, Output::Json) {
            return Ok(());
        }
        printer.begin_section()?;
        match is_fault {
            true => printer.push_refusal(text)?,
            false => printer.push_title(text.as_bytes())?,
        }
        printer.end_section(&[])
    }

    // Writes a dump under the line of its label, if it has one.
    fn push_dump<W: Write>(&self, document: Document<'_, '_>, printer: &mut Printer<W>) -> Shown {
        if let Some(label) = document.label {
            printer.push_title(label)?;
        }
        let dumper = Dumper {
            alloc: self.alloc,
            names: &self.names,
            around: self.around_of(document),
            is_strict: self.options.is_strict,
        };
        let verdict = match document.octets {
            Ok(octets) => self.push_rows(&dumper, octets, printer)?,
            Err(why) => push_refusal(why, printer)?,
        };
        printer.end_folds()?;
        Ok(verdict)
    }

    // Writes the rows of a document, and how many zeros are behind it.
    fn push_rows<W: Write>(
        &self,
        dumper: &Dumper<'_>,
        octets: &[u8],
        printer: &mut Printer<W>,
    ) -> Shown {
        let zeros = zeros_behind(self.alloc, octets)?;
        let (document, _) = octets.split_at(octets.len().saturating_sub(zeros));
        let verdict = dumper.push_document(self.style, document, printer)?;
        if zeros == 0 {
            return Ok(verdict);
        }
        let bytes = if zeros == 1 { "byte" } else { "bytes" };
        let why = format!(in self.alloc; "{zeros} {bytes} behind the document, all 00")?;
        push_refusal(&why, printer)
    }

    // Writes the account of a document, or that it has none. It is rejected if it is no whole encodings, and strictly
    // if it is not DER.
    fn push_account<W: Write>(
        &self,
        document: Document<'_, '_>,
        printer: &mut Printer<W>,
    ) -> Shown {
        let octets = match document.octets {
            Ok(octets) => octets,
            Err(why) => return push_refusal(why, printer),
        };
        let known = self.type_labelled(document.label);
        let Some(account) = account_of(self.alloc, &self.names, known, octets, self.time)? else {
            return push_refusal(NO_ACCOUNT, printer);
        };
        write_part(&mut printer.out, account.text.as_bytes())?;
        if let Some(fault) = &account.fault {
            printer.push_fault(fault.offset, &fault.message)?;
            return Ok(Verdict::Refused);
        }
        Ok(verdict_of(!self.options.is_strict || is_der(self.alloc, octets)?))
    }

    // What says which fields a document is and has.
    fn around_of(&self, document: Document<'_, '_>) -> Around {
        match document.field {
            Some(spot) => Around::Alone(spot),
            None => self.around_labelled(document.label),
        }
    }

    // What says which fields a document with the label has.
    pub fn around_labelled(&self, label: Option<&[u8]>) -> Around {
        self.type_labelled(label)
            .map_or(Around::Unknown, Around::Shape)
    }

    // The shape of the type that a document is known to be of: the one that is named, or else the one that its label
    // says.
    fn type_labelled(&self, label: Option<&[u8]>) -> Option<usize> {
        let shapes = &self.names.shapes;
        self.named_type
            .or_else(|| shapes.labelled(str::from_utf8(label?).ok()?))
    }

    // Writes what stands before all documents, if it is not there yet: the head of a page.
    pub fn begin<W: Write>(&self, is_begun: &mut bool, out: &mut W) -> Result<(), StreamFault> {
        if !*is_begun && matches!(self.options.output, Output::Page) {
            write_part(out, head())?;
        }
        *is_begun = true;
        Ok(())
    }

    // Writes what stands behind all documents, where they are begun: the foot of a page.
    pub fn end<W: Write>(&self, is_begun: bool, out: &mut W) -> Result<(), StreamFault>
        ensures { OnOk result (is_begun ≡ false → W.contents out.new ≡ W.contents out.old) }
    {
        if is_begun && matches!(self.options.output, Output::Page) {
            write_part(out, foot())?;
        }
        Ok(())
    }
}

// An input that is shown.
#[derive(Clone, Copy)]
struct ShownInput<'a> {
    show: &'a Show<'a>,
    // its name, where names are shown: JSON has it in each line
    file: Option<&'a str>,
}

impl ShownInput<'_> {
    // Writes each document that stands among the words of a text; or where none does, that this line of it is in no
    // form.
    fn push_words<W: Write>(self, line: usize, text: &[u8], printer: &mut Printer<W>) -> Shown {
        let documents = documents_in(self.show.alloc, text)?;
        if documents.is_empty() {
            return self.push_fault(None, &FormFault::Text(line), printer);
        }
        let mut is_right = true;
        for found in documents {
            is_right &= self.push_found(found, printer)? == Verdict::AllRead;
        }
        Ok(verdict_of(is_right))
    }

    // Writes a document that stands among words, with the line in which it begins.
    fn push_found<W: Write>(self, found: Found, printer: &mut Printer<W>) -> Shown {
        let alloc = self.show.alloc;
        let place = format!(in alloc; "line {}", found.line)?;
        if is_pem(&found.octets) {
            self.show.push_note(false, &place, printer)?;
            let text = text_of(alloc, found.octets)?;
            return self.push_pem(&text, printer);
        }
        let document = Document::of(Some(place.as_bytes()), Ok(&found.octets));
        self.push(document, printer)
    }

    // Writes each object of PEM, whose lines may have marks around them, before the next is decoded.
    fn push_pem<W: Write>(self, text: &[u8], printer: &mut Printer<W>) -> Shown {
        let alloc = self.show.alloc;
        let plain = without_marks(alloc, text)?;
        let mut is_right = true;
        for object in Objects::of(alloc, plain.as_deref().unwrap_or(text)) {
            is_right &= self.push_object(&object?, printer)? == Verdict::AllRead;
        }
        Ok(verdict_of(is_right))
    }

    // Writes an object, and how it ends, if not as it should.
    fn push_object<W: Write>(self, object: &PemObject<'_>, printer: &mut Printer<W>) -> Shown {
        let label = Some(object.label);
        let verdict = match &object.octets {
            Ok(octets) => self.push(Document::of(label, Ok(octets)), printer)?,
            Err(fault) => self.push_fault(label, fault, printer)?,
        };
        match object.bad_end {
            Some((line, how)) => self.push_fault(None, &FormFault::BadEnd(line, how), printer),
            None => Ok(verdict),
        }
    }

    // Writes why a document is not read.
    fn push_fault<W: Write>(
        self,
        label: Option<&[u8]>,
        fault: &FormFault,
        printer: &mut Printer<W>,
    ) -> Shown {
        let why = format!(in self.show.alloc; "{fault}")?;
        self.push(Document::of(label, Err(&why)), printer)
    }

    // Writes a document, or why it is not read.
    fn push<W: Write>(self, document: Document<'_, '_>, printer: &mut Printer<W>) -> Shown {
        match self.show.options.output {
            Output::Lines => self.show.push_dump(document, printer),
            Output::Json => self.push_json(document, &mut printer.out),
            Output::Page => {
                printer.begin_section()?;
                let verdict = self.show.push_dump(document, printer)?;
                printer.end_section(document.octets.unwrap_or(&[]))?;
                Ok(verdict)
            }
            Output::Accounts => {
                printer.look = Look::Plain;
                self.show.push_account(document, printer)
            }
        }
    }

    // Writes the lines of JSON of a document.
    fn push_json<W: Write>(self, document: Document<'_, '_>, out: &mut W) -> Shown {
        let show = self.show;
        let label = match document.label {
            Some(label) => Some(String::from_utf8_lossy(show.alloc, label)?),
            None => None,
        };
        let dumper = dump_json::Dumper {
            alloc: show.alloc,
            names: &show.names,
            around: show.around_of(document),
            origin: Origin {
                file: self.file,
                label: label.as_deref(),
            },
            is_strict: show.options.is_strict,
        };
        match document.octets {
            Ok(octets) => Ok(verdict_of(dumper.push_document(show.style, octets, out)?)),
            Err(why) => {
                dumper.push_refusal(why, out)?;
                Ok(Verdict::Refused)
            }
        }
    }
}

// The verdict on octets: all were read, if nothing is wrong with them.
fn verdict_of(is_right: bool) -> Verdict {
    if is_right {
        Verdict::AllRead
    } else {
        Verdict::Refused
    }
}
