// Which line of a text is in no form that is read.

use crate::fault::FormFault;
use der_digits::hex_text::{Symbols, digits_part, is_in_columns};
use der_digits::layouts::leaves_out;
use der_digits::lines::Lines;
use der_digits::search::contains;

// Why a text is in no form: the first line that is in none, or that stands for others.
pub fn fault_in_text(text: &[u8]) -> FormFault {
    let in_columns = is_in_columns(text);
    let is_source = contains(b"= {", text) || contains(b"= \"", text);
    let is_read = |line: &[u8]| {
        Symbols(digits_part(in_columns, line)).all(|symbol| symbol.is_ascii_hexdigit())
            || has_symbols_alone(line)
            || (is_source && may_be_in_source(line))
    };
    let mut lines = Lines::of(text);
    match lines.find(|line| leaves_out(line) || !is_read(line)) {
        Some(line) if leaves_out(line) => FormFault::LeftOut(lines.count),
        _ => FormFault::Text(lines.count),
    }
}

// Whether symbols of base64 or base64url, and white space, are all of the line.
fn has_symbols_alone(line: &[u8]) -> bool {
    line.iter().all(|b| b.is_ascii_alphanumeric()
        || b.is_ascii_whitespace()
        || b"+/-_=".contains(b))
}

// Whether the line may be one of a source: a declaration, or octets with their prefixes.
fn may_be_in_source(line: &[u8]) -> bool {
    line.contains(&b'=')
        || line.iter().all(|b| {
            b.is_ascii_hexdigit() || b.is_ascii_whitespace() || b"x\\,\"{};".contains(b)
        })
}
