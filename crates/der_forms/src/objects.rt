// The objects of PEM, one after another.
ghost use Rattle.std.specs.Prelude.{◌≡◌, ◌<◌, ◌≤◌, ◌∷◌, [], codes, true, false, length, IfOk, MatchOption};
ghost use Rattle.std.specs.Iterator.{at_most};
ghost use Rattle.std.specs.Option.{option_map};
ghost use Rattle.std.specs.Result.{result_ok};
ghost use Rattle.der_digits.specs.Lines.{lines_left};
ghost use Rattle.der_digits.specs.Search.{begins, without_indent};
ghost use Rattle.der_forms.specs.Decoded.{symbols_read};
ghost use Rattle.der_forms.specs.Forms.{without_spaces};
ghost use Rattle.der_forms.specs.Objects.{bad_end_by, bad_end_in, is_encrypted, object_in, objects_in, objects_of, octets_in, symbols_in, symbols_of, unless_openssh};
ghost use Rattle.der_forms.specs.Shown.{Gives, at_most_behind, at_most_left, objects_behind, objects_left, shown_object};

use crate::decoder::Decoder;
use crate::fault::{BadEnd, FormFault};
use crate::lines::{BEGIN, begun_in, end_label_of, is_end, label_of, without_mark};
use der_digits::lines::Lines;
use der_digits::search::{contains, without_indent};
use std::alloc::{AllocError, Global};

/// An object of PEM.
#[derive(Debug, Drop)]
pub struct PemObject<'a> {
    /// The text between `-----BEGIN ` and `-----` in its first line: ASCII by RFC 7468, or any octets.
    pub label: &'a [u8],
    /// The number of the line that begins it, the first being 1.
    pub line: usize,
    /// What the symbols of the object spell.
    pub octets: Result<Vec<u8>, FormFault>,
    /// The number of the line in which it ends otherwise than by its own label, and how; without an end, that of its
    /// first line.
    pub bad_end: Option<(usize, BadEnd)>,
}

/// The objects of a text, one after another. An `Err` says that memory ran out; what comes behind it may be no object.
#[derive(Drop)]
pub struct Objects<'a> {
    alloc: Global,
    lines: Lines<'a>,
    // the label of an object that begins in the line which ended the last one
    joined: Option<&'a [u8]>,
}

impl<'a> Objects<'a> {
    /// Those of a text, which may have a byte order mark.
    pub fn of(alloc: Global, text: &'a [u8]) -> Objects<'a>
        ensures { objects_left result ≡ objects_of text.now }
    {
        Objects {
            alloc,
            lines: Lines::of(without_mark(text)),
            joined: None,
        }
    }

    // The object with the label, in whose lines these begin.
    fn read(&mut self, label: &'a [u8]) -> Result<PemObject<'a>, AllocError>
        ensures object { IfOk result (λ object.
            shown_object object ≡ object_in label.now (lines_left self.old.lines)) }
        ensures left { IfOk result (λ _. objects_in true (lines_left self.old.lines) ≡ objects_left self.new) }
        ensures shorter { at_most_left self.new ≤ length (lines_left self.old.lines) }
    {
        self.joined = None;
        let lines = self.lines;
        let body = read_body(self.alloc, label, &mut self.lines)?;
        self.joined = body.joined;
        let bad_end = body.bad_end;
        let octets = octets_of(self.alloc, body, lines)?;
        Ok(PemObject {
            label,
            line: lines.count,
            octets,
            bad_end,
        })
    }
}

impl<'a> Iterator for Objects<'a> {
    type Item = Result<PemObject<'a>, AllocError>;

    ghost next_gives = { Gives };

    ghost remaining = { λ objects. at_most (at_most_left objects) };

    fn next(&mut self) -> Option<Result<PemObject<'a>, AllocError>> {
        let label = match self.joined {
            Some(label) => label,
            None => next_label(&mut self.lines)?,
        };
        Some(self.read(label))
    }
}

// The label in the next line that begins an object.
fn next_label<'a>(lines: &mut Lines<'a>) -> Option<&'a [u8]>
    ensures { MatchOption result
        (objects_in false (lines_left lines.old) ≡ [])
        (λ label. (objects_in false (lines_left lines.old)
        ≡ object_in label.now (lines_left lines.new) ∷ objects_in true (lines_left lines.new))
        × (length (lines_left lines.new) < length (lines_left lines.old))) }
{
    while let Some(line) = lines.next() {
        if let Some(label) = label_of(line) {
            return Some(label);
        }
    }
    None
}

// The lines of an object, up to the one that ends it.
#[derive(Drop)]
struct Body<'a> {
    decoder: Decoder,
    is_encrypted: bool,
    bad_end: Option<(usize, BadEnd)>,
    // the label of an object that begins in the line which ends this one
    joined: Option<&'a [u8]>,
}

// Reads the lines of an object with the label.
fn read_body<'a>(alloc: Global, label: &[u8], lines: &mut Lines<'a>) -> Result<Body<'a>, AllocError>
    ensures symbols { IfOk result (λ body. symbols_read body.decoder ≡ symbols_in (lines_left lines.old)) }
    ensures encrypted { IfOk result (λ body. body.is_encrypted ≡ is_encrypted (lines_left lines.old)) }
    ensures after { IfOk result (λ body. objects_in true (lines_left lines.old)
        ≡ objects_behind body.joined (lines_left lines.new)) }
    ensures shorter { IfOk result (λ body.
        at_most_behind body.joined (lines_left lines.new) ≤ length (lines_left lines.old)) }
    ensures fewer { length (lines_left lines.new) ≤ length (lines_left lines.old) }
    ensures ending { IfOk result (λ body. option_map (λ end. end.1) body.bad_end
        ≡ bad_end_in label.now (lines_left lines.old)) }
{
    let begin = lines.count;
    let mut decoder = Decoder::new(alloc);
    let mut is_encrypted = false;
    while let Some(line) = lines.next() {
        if is_end(line) {
            return Ok(Body {
                decoder,
                is_encrypted,
                bad_end: bad_end_of(label, line, lines.count),
                joined: label_of(begun_in(line)),
            });
        }
        is_encrypted = is_encrypted || tells_encryption(line);
        decoder.read(alloc, base64_in(line))?;
    }
    Ok(Body {
        decoder,
        is_encrypted,
        bad_end: Some((begin, BadEnd::Missing)),
        joined: None,
    })
}

// Whether a line says that its object is encrypted (RFC 1421).
fn tells_encryption(line: &[u8]) -> bool
    ensures { result ≡ begins (codes "Proc-Type: 4,ENCRYPTED") (without_indent line.now) }
{
    without_indent(line).starts_with(b"Proc-Type: 4,ENCRYPTED")
}

// How a line of this number ends an object with the label, if not as it should.
fn bad_end_of(label: &[u8], line: &[u8], number: usize) -> Option<(usize, BadEnd)>
    ensures { option_map (λ end. end.1) result ≡ bad_end_by label.now line.now }
{
    if contains(BEGIN, line) {
        Some((number, BadEnd::Joined))
    } else if end_label_of(line) == label {
        None
    } else {
        Some((number, BadEnd::OtherLabel))
    }
}

// The octets of the object that begins before the lines and has the body.
fn octets_of(
    alloc: Global,
    body: Body<'_>,
    lines: Lines<'_>,
) -> Result<Result<Vec<u8>, FormFault>, AllocError>
    requires symbols { symbols_read body.decoder ≡ symbols_in (lines_left lines) }
    requires encrypted { body.is_encrypted ≡ is_encrypted (lines_left lines) }
    ensures { IfOk result (λ octets.
        option_map (λ v. v.items) (result_ok octets) ≡ octets_in (lines_left lines.entry)) }
{
    if body.is_encrypted {
        return Ok(Err(FormFault::Encrypted));
    }
    match body.decoder.finish(alloc)? {
        Ok(octets) => Ok(unless_openssh(octets)),
        Err(e) => Ok(Err(FormFault::NoBase64(line_of(lines, e.place())))),
    }
}

fn unless_openssh(octets: Vec<u8>) -> Result<Vec<u8>, FormFault>
    ensures { option_map (λ v. v.items) (result_ok result) ≡ unless_openssh octets.items }
{
    if octets.starts_with(b"openssh-key-v1\0") {
        Err(FormFault::OpenSsh)
    } else {
        Ok(octets)
    }
}

// The part of a line that has symbols of base 64. One with a colon is a header of the object (RFC 1421).
fn base64_in(line: &[u8]) -> &[u8]
    ensures { without_spaces result.now ≡ symbols_of line.now }
{
    if line.contains(&b':') { &[] } else { line }
}

// The number of the line in which so many symbols stand before another.
fn line_of(mut lines: Lines<'_>, place: usize) -> usize {
    let mut left = place;
    while let Some(line) = lines.next() {
        let symbols = base64_in(line).iter().filter(|b| !b.is_ascii_whitespace());
        match left.checked_sub(symbols.count()) {
            Some(fewer) => left = fewer,
            None => break,
        }
    }
    lines.count
}
