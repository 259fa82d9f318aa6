// Encodings inside octets of strings.
ghost use Rattle.std.specs.Prelude.{◌+◌, ◌<◌, ◌≤◌, IfOk, IfSome, length};
ghost use Rattle.dump_values.specs.Tags.{tag_name};
ghost use Rattle.dump_walk.specs.Fronts.{HoldsBehind};
ghost use Rattle.dump_walk.specs.Steps.{Takes};

use crate::cursor::{Cursor, Left, Step};
use crate::element_header::{size_of, step_of, whole_header};
use crate::place::Place;
use crate::string_value::is_string_tag;
use asn1_der::is_der;
use asn1_headers::tags;
use asn1_headers::whole_header::Header;
use dump_shapes::Held;
use dump_values::leaf::{ContentsType, read_contents};
use dump_values::tag::{holds_encodings, universal_tag};
use std::alloc::{AllocError, Global};

const BIT_STRING: u8 = tags::BIT_STRING as u8;

const OCTET_STRING: u8 = tags::OCTET_STRING as u8;

const OBJECT_IDENTIFIER: u8 = tags::OBJECT_IDENTIFIER as u8;

const RELATIVE_OID: u8 = tags::RELATIVE_OID as u8;

// Octets of a string which are encodings, how many contents octets stand before them, and whether that they are
// encodings is a guess, since nothing says it.
#[derive(Clone, Copy)]
pub struct Nested<'a> {
    pub octets: &'a [u8],
    pub before: usize,
    pub is_guess: bool,
}

// The encodings inside contents octets of a string that stands at the place, if they are to be shown.
pub fn nested_in<'a>(
    alloc: Global,
    header: &Header,
    contents: &'a [u8],
    place: &Place,
) -> Result<Option<Nested<'a>>, AllocError>
    ensures { IfOk result (λ nested. IfSome nested (λ n.
        (0 < place.now.documents)
        × HoldsBehind (tag_name header.now.class header.now.tag) contents.now n.before n.octets.now)) }
{
    if !place.shows_inside() {
        return Ok(None);
    }
    let held = place.field().map_or(Held::Anything, |field| field.held);
    let Some(nested) = octets_inside(header, contents, held) else {
        return Ok(None);
    };
    let are_encodings = match held {
        Held::Nothing => false,
        Held::Type => hold_encodings(alloc, nested.octets)?,
        Held::Anything => are_likely(alloc, nested.octets)?,
    };
    Ok(if are_encodings { Some(nested) } else { None })
}

// Whether octets of which nothing says what they are look like DER: they are one encoding of it, which is constructed,
// or of a string or an object identifier. A number or a NULL is too short to be more than chance.
fn are_likely(alloc: Global, octets: &[u8]) -> Result<bool, AllocError> {
    let Some(header) = whole_header(alloc, octets)? else {
        return Ok(false);
    };
    if header.size + header.announced != octets.len() || !has_likely_type(&header) {
        return Ok(false);
    }
    is_der(alloc, octets)
}

// Whether an encoding is constructed, or of a string or an object identifier.
fn has_likely_type(header: &Header) -> bool {
    header.constructed
        || match universal_tag(header) {
            Some(OBJECT_IDENTIFIER | RELATIVE_OID) => true,
            Some(tag) => is_string_tag(tag),
            None => false,
        }
}

// The octets of a string which holds this, in which encodings may stand: those of an OCTET STRING, and of a BIT STRING
// without unused bits.
fn octets_inside<'a>(header: &Header, contents: &'a [u8], held: Held) -> Option<Nested<'a>>
    ensures { IfSome result (λ h.
        HoldsBehind (tag_name header.now.class header.now.tag) contents.now h.before h.octets.now) }
{
    let is_guess = matches!(held, Held::Anything);
    match (universal_tag(header), contents) {
        (Some(OCTET_STRING), octets) => Some(Nested {
            octets,
            before: 0,
            is_guess,
        }),
        (Some(BIT_STRING), [0, octets @ ..]) => Some(Nested {
            octets,
            before: 1,
            is_guess,
        }),
        _ => None,
    }
}

// Whether octets are encodings to their end, by their headers, each of which may be of a known type; and one of them is
// gone into, or all have a value: octets that are no encodings may look like some by chance.
fn hold_encodings(alloc: Global, octets: &[u8]) -> Result<bool, AllocError> {
    if octets.is_empty() {
        return Ok(false);
    }
    let mut guess = Guess::Values;
    let mut cursor = Cursor::over(alloc, octets, false)?;
    while let Some(left) = cursor.next() {
        let is_outermost = cursor.depth() == 0;
        let Some(step) = look_at(alloc, left, is_outermost, &mut guess)? else {
            return Ok(false);
        };
        cursor.go(step)?;
    }
    Ok(!matches!(guess, Guess::Chance))
}

// What octets are taken for, by the encodings that they have so far.
#[derive(Clone, Copy, Drop)]
enum Guess {
    // encodings: all have a value, and none is gone into
    Values,
    // encodings: one is gone into
    Tree,
    // none, which look like encodings by chance: one has no value, and none is gone into
    Chance,
}

// How a cursor goes on behind the encoding that begins what is left, which changes what the octets are taken for.
// `None` where none begins it, or an outermost one that may be of no known type.
fn look_at(
    alloc: Global,
    left: Left<'_>,
    is_outermost: bool,
    guess: &mut Guess,
) -> Result<Option<Step>, AllocError>
    ensures { IfOk result (λ found. IfSome found (λ step. Takes step left.entry)) }
{
    if left.begins_with_end() {
        return Ok(Some(Step::Out(2)));
    }
    let Some(header) = whole_header(alloc, left.octets)? else {
        return Ok(None);
    };
    if is_outermost && !may_begin_known(left.octets, &header) {
        return Ok(None);
    }
    let step = step_of(&header, size_of(left.octets, &header));
    *guess = guess_with(alloc, left.octets, header, *guess)?;
    Ok(Some(step))
}

// What octets are taken for with one encoding more, which begins these.
fn guess_with(
    alloc: Global,
    octets: &[u8],
    header: Header,
    guess: Guess,
) -> Result<Guess, AllocError>
    requires { header.size + header.announced ≤ length octets.now }
{
    if holds_encodings(&header) {
        return Ok(Guess::Tree);
    }
    if !matches!(guess, Guess::Values) {
        return Ok(guess);
    }
    let contents = &octets[header.size..header.size + header.announced];
    match read_contents(alloc, &header, contents, 0, ContentsType::OfTag)?.value {
        Some(_) => Ok(Guess::Values),
        None => Ok(Guess::Chance),
    }
}

// Whether a leading octet is of class Universal and of a type that has a name (X.680 8.4, table 1), or of a constructed
// encoding of another class that holds octets.
fn may_begin_known(octets: &[u8], header: &Header) -> bool {
    match octets.first() {
        Some(0x00 | 0x0F | 0x1F | 0x20 | 0x2F | 0x3F) => false,
        Some(b) if *b < 0x40 => true,
        Some(b) => *b & 0x20 != 0 && (header.announced > 0 || header.is_indefinite),
        None => false,
    }
}
