// The line breaks of PEM that came on one line, or with its line breaks spelled.
ghost use Rattle.std.specs.Prelude.{◌≡◌, ◌||◌, codes, true, IfOk};
ghost use Rattle.std.specs.Char.{is_ascii_whitespace};
ghost use Rattle.der_digits.specs.Search.{begins, begins_by};
ghost use Rattle.der_forms.specs.Forms.{without_mark};
ghost use Rattle.der_forms.specs.Texts.{behind_label as behind_label_is, behind_words as behind_words_is, lacks_break as lacks_break_is, octet_or_break, place_behind as place_behind_is, unfolded as unfolded_is, with_breaks as with_breaks_are};
ghost use Rattle.der_forms.specs.declared.breaks.Place.TheVariants.{Blank as blank};

use crate::lines::{BEGIN, END};
use std::alloc::{AllocError, Global};

// How many hyphens end a label.
const HYPHENS: u8 = 5;

// Where a place in a text is.
#[derive(Clone, Copy, Drop)]
pub enum Place {
    // Behind nothing but white space in its line.
    Blank,
    // Behind words.
    Words,
    // In the words that begin an object and in its label, behind so many hyphens.
    Label(u8),
    // Behind what ends an object.
    Ended,
}

// Whether the text has no byte order mark, no line break but line feeds, and none is wanting.
pub fn is_in_lines(text: &[u8]) -> bool
    ensures { result ≡ true → unfolded_is blank (with_breaks_are (without_mark text.now)) ≡ text.now }
{
    if text.starts_with(&[0xEF, 0xBB, 0xBF]) {
        return false;
    }
    let mut place = Place::Blank;
    let mut rest = text;
    while !rest.is_empty() {
        if is_break_spelled(rest)
            || octet_or_break(rest[0], &rest[1..]) != rest[0]
            || lacks_break(place, rest)
        {
            return false;
        }
        place = place_behind(place, rest);
        rest = &rest[1..];
    }
    true
}

// Whether the text begins with a line break, or with `/`, as strings of JSON spell them.
fn is_break_spelled(text: &[u8]) -> bool
    ensures { result ≡ (begins (codes "\\n") text.now || begins (codes "\\r") text.now
        || begins (codes "\\/") text.now) }
{
    text.starts_with(b"\\n") || text.starts_with(b"\\r") || text.starts_with(b"\\/")
}

// The text with a line feed for each line break that is spelled, and for each carriage return alone.
pub fn with_breaks(alloc: Global, text: &[u8]) -> Result<Vec<u8>, AllocError>
    ensures { IfOk result (λ broken. broken.items ≡ with_breaks_are text.now) }
{
    let mut broken = Vec::new(alloc);
    let mut rest = text;
    while !rest.is_empty() {
        if rest.starts_with(b"\\n") {
            broken.push(b'\n')?;
            rest = &rest[2..];
        } else if rest.starts_with(b"\\r") {
            rest = &rest[2..];
        } else if rest.starts_with(b"\\/") {
            rest = &rest[1..];
        } else {
            broken.push(octet_or_break(rest[0], &rest[1..]))?;
            rest = &rest[1..];
        }
    }
    Ok(broken)
}

// The octet before the text, or a line feed for a carriage return alone.
fn octet_or_break(b: u8, text: &[u8]) -> u8
    ensures { result ≡ octet_or_break b text.now }
{
    if b == b'\r' && !text.starts_with(b"\n") {
        b'\n'
    } else {
        b
    }
}

// The text with each line break that PEM wants.
pub fn unfolded(alloc: Global, text: &[u8]) -> Result<Vec<u8>, AllocError>
    ensures { IfOk result (λ whole. whole.items ≡ unfolded_is blank text.now) }
{
    let mut whole = Vec::new(alloc);
    let mut place = Place::Blank;
    let mut rest = text;
    while !rest.is_empty() {
        if lacks_break(place, rest) {
            whole.push(b'\n')?;
        }
        whole.push(rest[0])?;
        place = place_behind(place, rest);
        rest = &rest[1..];
    }
    Ok(whole)
}

fn begins_space(text: &[u8]) -> bool
    ensures { result ≡ begins_by is_ascii_whitespace text.now }
{
    text.first().is_some_and(|b| b.is_ascii_whitespace())
}

// Whether a line break is wanting before the text.
fn lacks_break(place: Place, text: &[u8]) -> bool
    ensures { result ≡ lacks_break_is place text.now }
{
    match place {
        Place::Blank | Place::Ended => false,
        Place::Words => text.starts_with(BEGIN) || text.starts_with(END),
        Place::Label(hyphens) => {
            hyphens == HYPHENS
                && (text.starts_with(END) || !(begins_space(text) || text.starts_with(b"-")))
        }
    }
}

// The place behind the first octet of the text.
fn place_behind(place: Place, text: &[u8]) -> Place
    ensures { result ≡ place_behind_is place text.now }
{
    match place {
        Place::Blank if begins_space(text) => behind_words(Place::Blank, text),
        Place::Blank | Place::Words => behind_words(Place::Words, text),
        Place::Ended => behind_words(Place::Ended, text),
        Place::Label(hyphens) => behind_label(hyphens, text),
    }
}

// The place behind the first octet of a text that is in no label.
fn behind_words(place: Place, text: &[u8]) -> Place
    ensures { result ≡ behind_words_is place text.now }
{
    if text.starts_with(b"\n") {
        Place::Blank
    } else if text.starts_with(BEGIN) {
        Place::Label(0)
    } else if text.starts_with(END) {
        Place::Ended
    } else {
        place
    }
}

// The place behind the first octet in the words that begin an object, or in its label.
fn behind_label(hyphens: u8, text: &[u8]) -> Place
    ensures { result ≡ behind_label_is hyphens text.now }
{
    if text.starts_with(b"\n") {
        Place::Blank
    } else if hyphens < HYPHENS {
        Place::Label(if text.starts_with(b"-") {
            hyphens + 1
        } else {
            0
        })
    } else if text.starts_with(END) {
        Place::Ended
    } else if begins_space(text) || text.starts_with(b"-") {
        Place::Label(hyphens)
    } else {
        Place::Words
    }
}
