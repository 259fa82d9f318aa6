// PEM whose lines have marks around them: those of quoted mail, of comments, and of strings in sources.

use crate::spelled::BEGIN;
use der_digits::lines::Lines;
use der_forms::Objects;
use std::alloc::{AllocError, Global};

// The text without the marks around its lines, where the first line inside an object begins with one, and the object is
// base64 without them.
pub fn without_marks(alloc: Global, text: &[u8]) -> Result<Option<Vec<u8>>, AllocError> {
    if !is_marked(text) {
        return Ok(None);
    }
    let mut plain = Vec::new(alloc);
    for line in Lines::of(text) {
        plain.extend_from_slice(inside_marks(line))?;
        plain.push(b'\n')?;
    }
    let is_read = match Objects::of(alloc, &plain).next() {
        Some(object) => object?.octets.is_ok(),
        None => false,
    };
    Ok(is_read.then_some(plain))
}

// Whether the first line inside an object begins with a mark.
fn is_marked(text: &[u8]) -> bool {
    let mut lines = Lines::of(text);
    let _ = lines.find(|line| line.trim_ascii_start().starts_with(BEGIN));
    lines.next().is_some_and(|line| line.trim_ascii_start().first().is_some_and(|b| is_mark(*b)))
}

// Whether the octet may stand before or behind a line of PEM, as a mark.
fn is_mark(b: u8) -> bool {
    matches!(b, b'>' | b'#' | b'*' | b'"' | b'\'' | b'\\' | b',' | b';')
}

// The line without marks and white space around it, and without what stands behind the quotation mark that ends it.
fn inside_marks(line: &[u8]) -> &[u8] {
    let is_around = |b: &u8| is_mark(*b) || b.is_ascii_whitespace();
    let begin = line
        .iter()
        .position(|b| !is_around(b))
        .unwrap_or(line.len());
    let (_, rest) = line.split_at(begin);
    let mut parts = rest.split(|b| matches!(*b, b'"' | b'\''));
    let inside = parts.next().unwrap_or(rest);
    let size = inside
        .iter()
        .rposition(|b| !is_around(b))
        .map_or(0, |last| last + 1);
    match inside.split_at(size).0 {
        // between the strings of a sum
        b"+" => &[],
        inside => inside,
    }
}
