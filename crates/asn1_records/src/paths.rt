// The encodings that paths name, found by headers, and their values.
ghost use Rattle.std.specs.Prelude.{◌≡◌, ◌<◌, IfErr, IfOk, IfSome, MatchOption, length, map};
ghost use Rattle.asn1_outline.specs.Shapes.{HasShapes, Shapes, contents_octets, entries_of};
ghost use Rattle.asn1_records.specs.Answers.{IsRefusedByHeader};
ghost use Rattle.asn1_records.specs.Inner.Named.{IsNamedEncoding, IsPlacedIn, shapes_at};
ghost use Rattle.asn1_records.specs.Paths.{integer_in, no_value, path_in, value_of, value_with};
ghost use Rattle.asn1_records.specs.Room.{OrNoMemory};

use crate::document_entries::{Fault, OUT_OF_MEMORY, check_by_headers};
use crate::header_record::class_number_of;
use crate::items::{PlacedEncoding, item_from, items_of};
use crate::number::int64_of;
use crate::record::{Path, Value};
use asn1_headers::tags::INTEGER;
use asn1_outline::entry::Entry;
use asn1_outline::listing::header_entry;
use simple_asn1::ASN1Class;
use std::alloc::{AllocError, Global};

// What a path leads to: nothing; an encoding; or an INTEGER whose number is there.
const NOTHING: u32 = 0;

const ENCODING: u32 = 1;

const NUMBER: u32 = 2;

// The numbers of the path, if it lies in the steps; otherwise none, which lead nowhere.
fn path_in<'a>(steps: &'a [usize], path: &Path) -> &'a [usize]
    ensures { result.now ≡ path_in steps.now path.now }
{
    match path.start.checked_add(path.length) {
        Some(end) if end <= steps.len() => &steps[path.start..end],
        _ => &[],
    }
}

// The contents octets of the encoding with the entry.
fn contents_in<'a>(octets: &'a [u8], entry: &Entry) -> &'a [u8]
    ensures { result.now ≡ contents_octets octets.now entry.now }
{
    let start = entry.offset.saturating_add(entry.header);
    let (_, rest) = octets.split_at(start.min(octets.len()));
    let (contents, _) = rest.split_at(entry.contents.min(rest.len()));
    contents
}

// The number of an INTEGER, if it is an i64.
fn integer_in(octets: &[u8], entry: &Entry) -> Option<i64>
    ensures { result ≡ integer_in octets.now entry.now }
{
    match entry.class {
        ASN1Class::Universal if entry.tag == INTEGER => int64_of(contents_in(octets, entry)),
        _ => None,
    }
}

// What is answered of an encoding.
fn value_with(entry: &Entry, number: Option<i64>) -> Value
    ensures { result ≡ value_with entry.now number }
{
    Value {
        tag: entry.tag,
        offset: entry.offset,
        header: entry.header,
        contents: entry.contents,
        number: number.unwrap_or(0),
        kind: if number.is_some() { NUMBER } else { ENCODING },
        tag_class: class_number_of(entry.class),
        constructed: if entry.constructed { 1 } else { 0 },
    }
}

// What is answered of a path that leads nowhere.
fn no_value() -> Value
    ensures { result ≡ no_value }
{
    Value {
        tag: 0,
        offset: 0,
        header: 0,
        contents: 0,
        number: 0,
        kind: NOTHING,
        tag_class: 0,
        constructed: 0,
    }
}

// The encoding that the path leads to.
fn encoding_of(
    alloc: Global,
    octets: &[u8],
    path: &[usize],
) -> Result<Option<PlacedEncoding>, AllocError>
    ensures placed { IfOk result (λ found. IfSome found (IsPlacedIn octets.now)) }
    ensures named { (all : Shapes) → HasShapes octets.now all
        → IfOk result (IsNamedEncoding octets.now (shapes_at all path.now)) }
{
    let Some((first, rest)) = path.split_first() else {
        return Ok(None);
    };
    let Some(mut found) = item_from(alloc, octets, 0, octets.len(), *first)? else {
        return Ok(None);
    };
    for step in rest {
        let (start, end) = items_of(alloc, octets, &found)?;
        let Some(inside) = item_from(alloc, octets, start, end, *step)? else {
            return Ok(None);
        };
        found = inside;
    }
    Ok(Some(found))
}

// What is answered of a path.
fn value_of(alloc: Global, octets: &[u8], steps: &[usize], path: &Path) -> Result<Value, AllocError>
    ensures { (all : Shapes) → HasShapes octets.now all
        → IfOk result (λ v. v ≡ value_of octets.now (entries_of 0 0 all) steps.now path.now) }
{
    let Some(found) = encoding_of(alloc, octets, path_in(steps, path))? else {
        return Ok(no_value());
    };
    let entry = header_entry(&found.header, found.offset, 0, 0);
    Ok(value_with(&entry, integer_in(octets, &entry)))
}

// The values of all paths.
fn values_of(
    alloc: Global,
    octets: &[u8],
    steps: &[usize],
    paths: &[Path],
) -> Result<Vec<Value>, AllocError>
    ensures { (all : Shapes) → HasShapes octets.now all → IfOk result (λ values.
        values.items ≡ map (λ p. value_of octets.now (entries_of 0 0 all) steps.now p) paths.now) }
{
    let mut values = Vec::with_capacity(alloc, paths.len())?;
    for path in paths {
        let value = value_of(alloc, octets, steps, path)?;
        values.push(value)?;
    }
    Ok(values)
}

// The values of all paths in octets that are encodings by their headers, where there is room for so many.
pub fn find_values(
    alloc: Global,
    octets: &[u8],
    steps: &[usize],
    paths: &[Path],
    room: usize,
) -> Result<Option<Vec<Value>>, Fault>
    ensures document { IfOk result (λ found. (all : Shapes) × HasShapes octets.now all
        × MatchOption found (room < length paths.now) (λ values. values.items
        ≡ map (λ p. value_of octets.now (entries_of 0 0 all) steps.now p) paths.now)) }
    ensures fault { IfErr result (λ f. OrNoMemory (IsRefusedByHeader octets.now) f.status f.offset) }
{
    if let Err(fault) = check_by_headers(alloc, octets) {
        return Err(fault);
    }
    if room < paths.len() {
        return Ok(None);
    }
    match values_of(alloc, octets, steps, paths) {
        Ok(values) => Ok(Some(values)),
        Err(AllocError) => Err(OUT_OF_MEMORY),
    }
}
