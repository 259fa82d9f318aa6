// Names of object identifiers that a user gives, in the form of the configuration file of `dumpasn1`.
use asn1_headers::tags::OBJECT_IDENTIFIER;
use der_io::escaped;
use dump_values::leaf::value_of_type;
use dump_values::value::LeafValue;
use std::alloc::{AllocError, Global};
use std::str;

/// Names of object identifiers by their numbers, which come before those of the crate.
#[derive(Debug, Drop)]
pub struct OwnNames {
    // in the order of the numbers' texts
    rows: Vec<OwnName>,
}

// A name, and a comment on it, which may be empty.
#[derive(Debug, Drop)]
struct OwnName {
    number: String,
    name: String,
    comment: String,
}

/// Why a text gives no names.
#[derive(Debug, Drop, PartialEq)]
pub enum NamesFault {
    /// Memory ran out.
    Memory,
    /// The line with this number, the first being 1, has another form.
    Line(usize),
}

impl From<AllocError> for NamesFault {
    fn from(_e: AllocError) -> NamesFault {
        NamesFault::Memory
    }
}

impl OwnNames {
    /// The names in a text of lines `OID = 2 5 4 3`, each with `Description = commonName` and maybe `Comment = X.520`
    /// after it. Numbers have spaces or points between them, or are DER in hex digits, as `06 03 55 04 03`. Lines
    /// `Warning`, empty lines and those that begin with `#` say nothing. Names are escaped.
    ///
    /// It takes memory for the names.
    ///
    /// # Errors
    /// `Line` for the first line of another form, and `Memory`.
    pub fn read(alloc: Global, text: &[u8]) -> Result<OwnNames, NamesFault> {
        let mut rows = Vec::new(alloc);
        let mut number = 0usize;
        for line in text.split(|b| *b == b'\n') {
            number = number.saturating_add(1);
            if !take_line(alloc, line.trim_ascii(), &mut rows)? {
                return Err(NamesFault::Line(number));
            }
        }
        rows.sort_by(|a: &OwnName, b: &OwnName| a.number.cmp(&b.number))?;
        Ok(OwnNames { rows })
    }

    // The name of an object identifier, by its components in decimal with points between them, and the comment on it.
    pub(crate) fn of(&self, number: &str) -> Option<(&str, &str)> {
        match self
            .rows
            .binary_search_by(|row| row.number.as_str().cmp(number))
        {
            Ok(i) if !self.rows[i].name.is_empty() => {
                Some((self.rows[i].name.as_str(), self.rows[i].comment.as_str()))
            }
            _ => None,
        }
    }
}

// Takes a line. Whether it has a form that is known.
fn take_line(alloc: Global, line: &[u8], rows: &mut Vec<OwnName>) -> Result<bool, AllocError> {
    if line.is_empty() || line.starts_with(b"#") || line == "Warning".as_bytes() {
        return Ok(true);
    }
    let Some(place) = line.iter().position(|b| *b == b'=') else {
        return Ok(false);
    };
    let word = line[..place].trim_ascii();
    let value = line[place + 1..].trim_ascii();
    if word == "OID".as_bytes() {
        return push_number(alloc, value, rows);
    }
    let Some(row) = rows.last_mut() else {
        return Ok(false);
    };
    if word == "Description".as_bytes() {
        row.name = escaped(alloc, without_numbers(value))?;
        Ok(true)
    } else if word == "Comment".as_bytes() {
        row.comment = escaped(alloc, value)?;
        Ok(true)
    } else {
        Ok(false)
    }
}

// A description without the numbers in parentheses at its end, as older files have them: `commonName (2 5 4 3)`.
fn without_numbers(value: &[u8]) -> &[u8] {
    let Some(place) = value.iter().rposition(|b| *b == b'(') else {
        return value;
    };
    let are_numbers = value[place + 1..]
        .iter()
        .all(|b| b.is_ascii_digit() || *b == b' ' || *b == b')');
    if are_numbers && place > 0 {
        value[..place].trim_ascii()
    } else {
        value
    }
}

// Pushes a row with the number that a value is. Whether it is one.
fn push_number(alloc: Global, value: &[u8], rows: &mut Vec<OwnName>) -> Result<bool, AllocError> {
    let number = if value.starts_with(b"06 ") {
        encoded_number(alloc, value)?
    } else {
        spelled_number(alloc, value)?
    };
    let Some(number) = number else {
        return Ok(false);
    };
    rows.push(OwnName {
        number,
        name: String::new(alloc),
        comment: String::new(alloc),
    })?;
    Ok(true)
}

// Components in decimal, with points in place of what parts them, if there are some.
fn spelled_number(alloc: Global, value: &[u8]) -> Result<Option<String>, AllocError> {
    let mut number = String::new(alloc);
    for part in value.split(|b| *b == b' ' || *b == b'.') {
        if part.is_empty() {
            continue;
        }
        let Some(component) = component_in(part) else {
            return Ok(None);
        };
        let point = if number.is_empty() { "" } else { "." };
        write!(number, "{point}{component}")?;
    }
    Ok(if number.is_empty() {
        None
    } else {
        Some(number)
    })
}

fn component_in(part: &[u8]) -> Option<u128> {
    str::from_utf8(part).ok()?.parse::<u128>().ok()
}

// The components of an encoding in hex digits, if it is one of an object identifier and each is below 2^128.
fn encoded_number(alloc: Global, value: &[u8]) -> Result<Option<String>, AllocError> {
    let Some(octets) = octets_in(alloc, value)? else {
        return Ok(None);
    };
    match octets.as_slice() {
        [0x06, size, contents @ ..] if usize::from(*size) == contents.len() => {
            match value_of_type(alloc, OBJECT_IDENTIFIER as u8, contents)? {
                Some(LeafValue::Identifier(identifier)) => Ok(identifier.dotted),
                _ => Ok(None),
            }
        }
        _ => Ok(None),
    }
}

// The octets that pairs of hex digits spell, with a space between two.
fn octets_in(alloc: Global, value: &[u8]) -> Result<Option<Vec<u8>>, AllocError> {
    let mut octets = Vec::new(alloc);
    for part in value.split(|b| *b == b' ') {
        if part.is_empty() {
            continue;
        }
        match octet_in(part) {
            Some(octet) => octets.push(octet)?,
            None => return Ok(None),
        }
    }
    Ok(Some(octets))
}

fn octet_in(part: &[u8]) -> Option<u8> {
    u8::from_str_radix(str::from_utf8(part).ok()?, 16).ok()
}
