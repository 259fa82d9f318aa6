// The members of a piece of octets.
ghost use Rattle.std.specs.Prelude.{IfOk, false};
ghost use Rattle.der_io.specs.Output.{IsWritten};
ghost use Rattle.dump_json.specs.Grammar.{IsOpenObject};
ghost use Rattle.dump_json.specs.Lines.{Turns};

use crate::json::Json;
use crate::labels::{name_of, shown_of};
use crate::leaf::{tag_value, value_in};
use crate::members::{Name, write_members};
use crate::value::Value;
use der_io::StreamFault;
use dump_names::Names;
use dump_shapes::Named;
use dump_values::faults::Fault;
use dump_values::tag::{self, holds_encodings, is_universal};
use dump_values::value::LeafValue;
use dump_walk::marks::BrokenRule;
use dump_walk::piece::{Piece, PieceKind};
use dump_walk::sum::checked_sum;
use std::alloc::{AllocError, Global};
use std::io::Write;

// Writes the members of the object of a piece but for `blocks`: it has these names and this path, and breaks these
// rules. Returns whether one stands in it then.
pub fn write_piece<'a, W: Write>(
    alloc: Global,
    names: &'a Names,
    piece: &'a Piece<'_>,
    named: Option<Named>,
    path: Option<&'a str>,
    rules: Option<Json>,
    out: &mut W,
) -> Result<bool, StreamFault>
    ensures { IfOk result (λ later. IsWritten (Turns (IsOpenObject false) (IsOpenObject later))
        (W.contents out.old) (W.contents out.new)) }
{
    let (class, constructed, number, type_name) = tag_of(alloc, &piece.kind)?;
    let offset = piece.document_offset()?;
    let fault = match &piece.fault {
        Some(fault) => Some(Value::Written(fault_object(alloc, fault, offset)?)),
        None => None,
    };
    let rules = match rules {
        Some(rules) => Some(Value::Written(rules)),
        None => None,
    };
    let size = size_of(&piece.kind)?;
    let value = json_value(alloc, piece)?;
    let name = name_of(alloc, names, piece, named)?;
    let shown = shown_of(alloc, piece)?;
    let members = [
        (Name::Offset, Some(Value::count(offset))),
        (Name::Header, Some(Value::count(piece.sizes().header))),
        (Name::Size, Some(size)),
        (Name::Depth, Some(Value::count(piece.place.depth))),
        (Name::Class, Some(class)),
        (Name::Constructed, Some(constructed)),
        (Name::Tag, Some(number)),
        (Name::Type, Some(type_name)),
        (Name::Value, Some(value)),
        (
            Name::Field,
            named.and_then(|named| named.field).map(Value::Text),
        ),
        (Name::Path, path.map(Value::Text)),
        (Name::Of, named.map(|named| Value::Text(named.of))),
        (Name::Name, name),
        (Name::Shown, shown),
        (Name::Octets, octets_of(piece)),
        (Name::NotDer, rules),
        (Name::Fault, fault),
        (
            Name::Guessed,
            piece.is_guess().then_some(Value::Boolean(true)),
        ),
    ];
    write_members(&members, false, out)
}

// How many octets a piece has, as far as they are there; null where its length is of the indefinite form.
fn size_of<'a>(kind: &PieceKind<'_>) -> Result<Value<'a>, AllocError> {
    match kind {
        PieceKind::EndOfContents(size) => Ok(Value::count(*size)),
        PieceKind::Unreadable(octets) => Ok(Value::count(octets.len())),
        PieceKind::Cut(header, contents)
        | PieceKind::Opened(header, contents, _)
        | PieceKind::Leaf(header, contents, _) => {
            if header.is_indefinite {
                return Ok(Value::Null);
            }
            Ok(Value::count(checked_sum(header.size, contents.len())?))
        }
    }
}

// The class of a piece, whether it is constructed, its tag number and the name of its type. End-of-contents octets have
// 0, of class Universal (X.690 8.1.5).
fn tag_of<'a>(
    alloc: Global,
    kind: &PieceKind<'_>,
) -> Result<(Value<'a>, Value<'a>, Value<'a>, Value<'a>), AllocError> {
    match kind {
        PieceKind::EndOfContents(_) => Ok((
            Value::Text("universal"),
            Value::Boolean(false),
            Value::Natural(0),
            Value::Text("end-of-contents"),
        )),
        PieceKind::Unreadable(_) => Ok((Value::Null, Value::Null, Value::Null, Value::Null)),
        PieceKind::Cut(header, _)
        | PieceKind::Opened(header, _, _)
        | PieceKind::Leaf(header, _, _) => Ok((
            Value::Text(header.class.name()),
            Value::Boolean(header.constructed),
            tag_value(alloc, &header.tag)?,
            tag::name_of(header.class, &header.tag).map_or(Value::Null, Value::Text),
        )),
    }
}

// The value of a piece.
fn json_value<'a>(alloc: Global, piece: &'a Piece<'_>) -> Result<Value<'a>, AllocError> {
    match &piece.kind {
        PieceKind::Unreadable(octets) => Ok(Value::Octets(octets)),
        PieceKind::Cut(header, contents) if !holds_encodings(header) => Ok(Value::Octets(contents)),
        PieceKind::Opened(_, _, Some(joined)) if piece.fault.is_none() => {
            value_in(alloc, &joined.contents, &joined.value)
        }
        PieceKind::Leaf(header, contents, Some(_)) if !is_universal(header) => {
            Ok(Value::Octets(contents))
        }
        PieceKind::Leaf(_, contents, Some(value)) => value_in(alloc, contents, value),
        _ => Ok(Value::Null),
    }
}

// The contents octets of a piece, where they were read and have no value of their type: they are no text of it, or a
// fault that has a name says so.
fn octets_of<'a>(piece: &'a Piece<'_>) -> Option<Value<'a>> {
    match (&piece.kind, &piece.fault) {
        (PieceKind::Leaf(header, contents, Some(LeafValue::NoText(_))), _)
            if is_universal(header) => { Some(Value::Octets(contents)) }
        (PieceKind::Leaf(_, contents, None), Some(fault)) if fault.code.is_some() => {
            Some(Value::Octets(contents))
        }
        _ => None,
    }
}

// The object of a fault at the offset of the document.
pub fn fault_object(alloc: Global, fault: &Fault, offset: usize) -> Result<Json, AllocError> {
    let members = [
        (Name::Code, fault.code.map(Value::Text)),
        (Name::Offset, Some(Value::count(offset))),
        (Name::Text, Some(Value::Text(&fault.message))),
    ];
    Json::object(alloc, &members)
}

// The object of a rule that is broken, by an encoding at the offset, if that is told.
pub fn rule_object(
    alloc: Global,
    offset: Option<usize>,
    rule: &BrokenRule,
) -> Result<Json, AllocError> {
    let offset = match offset {
        Some(offset) => Some(Value::count(offset)),
        None => None,
    };
    let members = [
        (Name::Offset, offset),
        (Name::Rule, Some(Value::Text(rule.name))),
        (Name::Section, Some(Value::Text(rule.section))),
        (Name::Text, Some(Value::Text(rule.text))),
    ];
    Json::object(alloc, &members)
}
