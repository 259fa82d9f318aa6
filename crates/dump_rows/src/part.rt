// The parts of what is printed, in each look.
ghost use Rattle.std.specs.Prelude.{◌≡◌, ◌<◌, ◌++◌, OnOk, false, string_bytes};
ghost use Rattle.std.specs.Fmt.{digit_glyph};
ghost use Rattle.std.specs.List.{flat_map, list_all};
ghost use Rattle.std.specs.Str.{chars};
ghost use Rattle.der_io.specs.Escaped.{all_escaped};
ghost use Rattle.dump_rows.specs.Parts.{entity, in_look, octet_text, octets_text, place_text, stands_raw, start_tag, start_text, written};
ghost use Rattle.dump_rows.specs.Rows.{is_plain, shown_text, size_text};

use der_io::push_shown;
use std::alloc::{AllocError, Global};

/// How rows are shown.
#[derive(Clone, Copy, Drop)]
pub enum Look {
    /// As lines.
    Plain,
    /// As lines, with escape sequences for the colors of a terminal.
    Colored,
    /// As elements of a page of HTML, in folds.
    Page,
}

// How a text is shown where there are colors: the number in its escape sequence (SGR, ECMA-48 8.3.117).
#[derive(Clone, Copy)]
pub enum Paint {
    Default = 0,
    Bold = 1,
    // less bright
    Dim = 2,
    Red = 31,
    Cyan = 36,
}

// Where the octets of a row stand: how many are before them, and the sizes of header and contents. The second is known
// unless the length is of the indefinite form.
#[derive(Clone, Copy)]
pub struct Place {
    pub offset: usize,
    pub header: usize,
    pub contents: Option<usize>,
}

// A part of what is printed. A line has the texts alone, and its end.
#[derive(Clone, Copy)]
pub enum Part<'a> {
    // text, with each character escaped that is not shown
    Text(Paint, &'a str),
    // the beginning of what shows a line: of a fold, if rows inside it follow; and where the octets of a row stand
    Start {
        is_fold: bool,
        is_fault: bool,
        place: Option<Place>,
    },
    // the end of a line, behind which a fold goes on
    End {
        is_fold: bool,
    },
    // the ends of so many folds
    FoldEnds(usize),
    // of a section of a page: its beginning, the octets behind its rows, and its end
    SectionStart,
    OctetsStart,
    Octets(&'a [u8]),
    SectionEnd,
}

impl Part<'_> {
    // Pushes what a look has of the part.
    pub fn push(&self, alloc: Global, look: Look, out: &mut String) -> Result<(), AllocError>
        ensures { OnOk result (string_bytes out.new ≡ string_bytes out.old ++ written look self.now) }
    {
        match (look, self) {
            (_, Part::Text(paint, text)) => push_text(alloc, look, *paint, text, out),
            (Look::Plain | Look::Colored, Part::End { .. }) => out.push_str("\n"),
            (Look::Plain | Look::Colored, _) => Ok(()),
            (
                Look::Page,
                Part::Start {
                    is_fold,
                    is_fault,
                    place,
                },
            ) => push_start(*is_fold, *is_fault, *place, out),
            (Look::Page, Part::End { is_fold: false }) => out.push_str("</p>\n"),
            (Look::Page, Part::End { is_fold: true }) => out.push_str("</summary>\n"),
            (Look::Page, Part::FoldEnds(n)) => out.push_str(&"</details>\n".repeat(alloc, *n)?),
            (Look::Page, Part::SectionStart) => out.push_str("<section><div class=\"tree\">\n"),
            (Look::Page, Part::OctetsStart) => out.push_str("</div><pre class=\"octets\">"),
            (Look::Page, Part::Octets(octets)) => push_octets(octets, out),
            (Look::Page, Part::SectionEnd) => out.push_str("</pre></section>\n"),
        }
    }
}

// Pushes what a look has of parts.
pub fn push_parts(
    alloc: Global,
    look: Look,
    parts: &[Part<'_>],
    out: &mut String,
) -> Result<(), AllocError>
    ensures { OnOk result (string_bytes out.new ≡ string_bytes out.old ++ flat_map (written look) parts.now) }
{
    for part in parts {
        part.push(alloc, look, out)?;
    }
    Ok(())
}

// Pushes a text with each character escaped that is not shown.
fn push_text(
    alloc: Global,
    look: Look,
    paint: Paint,
    text: &str,
    out: &mut String,
) -> Result<(), AllocError>
    ensures { OnOk result (string_bytes out.new
        ≡ string_bytes out.old ++ in_look look paint (shown_text text.now)) }
{
    if is_plain_text(text.as_bytes()) {
        return push_shown_text(look, paint, text, out);
    }
    let mut shown = String::new(alloc);
    push_shown(text, &mut shown)?;
    push_shown_text(look, paint, &shown, out)
}

// Whether the text is of characters of ASCII that are shown.
fn is_plain_text(text: &[u8]) -> bool
    ensures { result ≡ list_all is_plain text.now }
{
    text.iter().all(|b| *b >= b' ' && *b < 127)
}

// Pushes a text that is shown in a look.
fn push_shown_text(look: Look, paint: Paint, text: &str, out: &mut String) -> Result<(), AllocError>
    ensures { OnOk result (string_bytes out.new ≡ string_bytes out.old ++ in_look look paint text.now) }
{
    match (look, paint, text) {
        (Look::Page, _, _) => push_entities(text, out),
        (Look::Plain, _, _) | (_, Paint::Default, _) | (_, _, "") => out.push_str(text),
        (Look::Colored, _, _) => {
            let number = paint as u8;
            write!(out, "\u{1b}[{number}m{text}\u{1b}[0m")
        }
    }
}

// Pushes a text of a page, in which the five characters that have a meaning there have names (HTML, 13.1.4).
fn push_entities(text: &str, out: &mut String) -> Result<(), AllocError>
    ensures { OnOk result (string_bytes out.new ≡ string_bytes out.old ++ all_escaped entity (chars text.now)) }
{
    if is_raw(text.as_bytes()) {
        out.push_str(text)?;
        return Ok(());
    }
    for c in text.chars() {
        push_entity(c, out)?;
    }
    Ok(())
}

// Whether the text is of characters of ASCII that stand for themselves on a page.
fn is_raw(text: &[u8]) -> bool
    ensures { result ≡ list_all stands_raw text.now }
{
    text.iter().all(|b| *b < 128
        && *b != b'&'
        && *b != b'<'
        && *b != b'>'
        && *b != b'"'
        && *b != b'\'')
}

fn push_entity(c: char, out: &mut String) -> Result<(), AllocError>
    ensures { OnOk result (string_bytes out.new ≡ string_bytes out.old ++ entity c) }
{
    match c {
        '&' => out.push_str("&amp;"),
        '<' => out.push_str("&lt;"),
        '>' => out.push_str("&gt;"),
        '"' => out.push_str("&quot;"),
        '\'' => out.push_str("&#39;"),
        _ => out.push(c),
    }
}

// Pushes the beginning of an element, with the class `fault` exactly if it says that something is wrong.
fn push_start(
    is_fold: bool,
    is_fault: bool,
    place: Option<Place>,
    out: &mut String,
) -> Result<(), AllocError>
    ensures { OnOk result (string_bytes out.new
        ≡ string_bytes out.old ++ start_text is_fold is_fault (place_text place)) }
{
    out.push_str(start_tag(is_fold, is_fault))?;
    push_place(place, out)?;
    out.push_str(">")
}

// The beginning of an element up to where the octets stand.
fn start_tag(is_fold: bool, is_fault: bool) -> &'static str
    ensures { result.now ≡ start_tag is_fold is_fault }
{
    match (is_fold, is_fault) {
        (true, true) => "<details open><summary class=\"fault\"",
        (true, false) => "<details open><summary",
        (false, true) => "<p tabindex=\"0\" class=\"fault\"",
        (false, false) => "<p tabindex=\"0\"",
    }
}

// Pushes where octets stand, for the script of a page.
fn push_place(place: Option<Place>, out: &mut String) -> Result<(), AllocError>
    ensures { OnOk result (string_bytes out.new ≡ string_bytes out.old ++ place_text place) }
{
    let Some(place) = place else {
        return Ok(());
    };
    let (offset, header) = (place.offset, place.header);
    write!(
        out,
        " data-offset=\"{offset}\" data-header=\"{header}\" data-contents=\""
    )?;
    push_size(place.contents, out)?;
    out.push_str("\"")?;
    Ok(())
}

// Pushes the size of contents, or that the length is indefinite.
fn push_size(size: Option<usize>, out: &mut String) -> Result<(), AllocError>
    ensures { OnOk result (string_bytes out.new ≡ string_bytes out.old ++ size_text size) }
{
    match size {
        Some(size) => write!(out, "{size}"),
        None => out.push_str("inf"),
    }
}

// Pushes octets in hex digits, with a space after each.
fn push_octets(octets: &[u8], out: &mut String) -> Result<(), AllocError>
    ensures { OnOk result (string_bytes out.new ≡ string_bytes out.old ++ octets_text octets.now) }
{
    for b in octets {
        push_octet(*b, out)?;
    }
    Ok(())
}

fn push_octet(b: u8, out: &mut String) -> Result<(), AllocError>
    ensures { OnOk result (string_bytes out.new ≡ string_bytes out.old ++ octet_text b) }
{
    out.push(hex_digit(b / 16))?;
    out.push(hex_digit(b % 16))?;
    out.push(' ')?;
    Ok(())
}

fn hex_digit(digit: u8) -> char
    requires { digit < 16 }
    ensures { result ≡ digit_glyph false digit }
{
    char::from(if digit < 10 {
        b'0' + digit
    } else {
        b'a' + (digit - 10)
    })
}
