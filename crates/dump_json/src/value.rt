// Values.
ghost use Rattle.std.specs.Prelude.{OnOk};
ghost use Rattle.der_io.specs.Output.{IsWritten};
ghost use Rattle.dump_json.specs.Grammar.{IsValue};

use crate::json::Json;
use crate::number::{write_integer, write_natural};
use crate::string::{write_hex, write_string};
use der_io::{StreamFault, write_part};
use dump_values::text::ValueText;
use std::io::Write;

#[derive(Drop)]
pub enum Value<'a> {
    Null,
    Boolean(bool),
    Natural(u64),
    Integer(i64),
    Text(&'a str),
    // a text that was made for it
    Made(String),
    // octets, as a text of hex digits
    Octets(&'a [u8]),
    // how many bits there are, and the octets of these
    Bits(usize, &'a [u8]),
    // an object or an array
    Written(Json),
}

impl<'a> Value<'a> {
    // The text of a value.
    pub fn of_text(text: ValueText<'a>) -> Value<'a> {
        match text {
            ValueText::Own(text) => Value::Text(text),
            ValueText::Made(text) => Value::Made(text),
        }
    }

    // How many octets.
    pub fn count(octets: usize) -> Value<'a> {
        Value::Natural(octets as u64)
    }
}

pub fn write_value<W: Write>(value: &Value<'_>, out: &mut W) -> Result<(), StreamFault>
    ensures { OnOk result (IsWritten IsValue (W.contents out.old) (W.contents out.new)) }
{
    match value {
        Value::Null => write_part(out, b"null"),
        Value::Boolean(true) => write_part(out, b"true"),
        Value::Boolean(false) => write_part(out, b"false"),
        Value::Natural(number) => write_natural(*number, out),
        Value::Integer(number) => write_integer(*number, out),
        Value::Text(text) => write_string(text, out),
        Value::Made(text) => write_string(text, out),
        Value::Octets(octets) => write_hex(octets, out),
        Value::Bits(count, octets) => write_bits(*count, octets, out),
        Value::Written(json) => write_part(out, json.as_bytes()),
    }
}

// Writes the object of bits.
fn write_bits<W: Write>(count: usize, octets: &[u8], out: &mut W) -> Result<(), StreamFault>
    ensures { OnOk result (IsWritten IsValue (W.contents out.old) (W.contents out.new)) }
{
    write_part(out, b"{\"bits\":")?;
    write_natural(count as u64, out)?;
    write_part(out, b",\"octets\":")?;
    write_hex(octets, out)?;
    write_part(out, b"}")?;
    Ok(())
}
