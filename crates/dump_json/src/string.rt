// Strings, with an escape in the place of each character that a dump does not show.
ghost use Rattle.std.specs.Prelude.{◌≡◌, ◌≢◌, ◌↔◌, ◌<◌, EachIndex, IsTrue, OnOk, slice_index, true};
ghost use Rattle.der_io.specs.Escaped.{is_shown};
ghost use Rattle.der_io.specs.Output.{IsWritten};
ghost use Rattle.dump_json.specs.Grammar.{AreChars, IsHexDigit, IsString, is_escape, is_plain};

use der_io::{StreamFault, is_shown, write_part};
use std::io::Write;

// Writes a text as a string.
pub fn write_string<W: Write>(text: &str, out: &mut W) -> Result<(), StreamFault>
    ensures { OnOk result (IsWritten IsString (W.contents out.old) (W.contents out.new)) }
{
    write_part(out, b"\"")?;
    write_chars(text, out)?;
    write_part(out, b"\"")?;
    Ok(())
}

fn write_chars<W: Write>(text: &str, out: &mut W) -> Result<(), StreamFault>
    ensures { OnOk result (IsWritten AreChars (W.contents out.old) (W.contents out.new)) }
{
    let octets = text.as_bytes();
    if are_plain(octets) {
        write_part(out, octets)?;
        return Ok(());
    }
    for c in text.chars() {
        write_char(c, out)?;
    }
    Ok(())
}

fn are_plain(text: &[u8]) -> bool
    ensures { IsTrue result ↔ EachIndex text.now (λ k. is_plain (slice_index text.now k) ≡ true) }
{
    text.iter().all(|b| is_plain(*b))
}

// Whether the octet is a character of ASCII that stands for itself.
fn is_plain(b: u8) -> bool
    ensures { result ≡ is_plain b }
{
    matches!(b, b' '..=b'~') && b != b'"' && b != b'\\'
}

// Writes octets as a string of hex digits.
pub fn write_hex<W: Write>(octets: &[u8], out: &mut W) -> Result<(), StreamFault>
    ensures { OnOk result (IsWritten IsString (W.contents out.old) (W.contents out.new)) }
{
    write_part(out, b"\"")?;
    write_digits(octets, out)?;
    write_part(out, b"\"")?;
    Ok(())
}

fn write_digits<W: Write>(octets: &[u8], out: &mut W) -> Result<(), StreamFault>
    ensures { OnOk result (IsWritten AreChars (W.contents out.old) (W.contents out.new)) }
{
    let mut rest = octets;
    while let [a, b, c, d, e, f, g, h, more @ ..] = rest {
        let digits = [
            high_digit(*a),
            low_digit(*a),
            high_digit(*b),
            low_digit(*b),
            high_digit(*c),
            low_digit(*c),
            high_digit(*d),
            low_digit(*d),
            high_digit(*e),
            low_digit(*e),
            high_digit(*f),
            low_digit(*f),
            high_digit(*g),
            low_digit(*g),
            high_digit(*h),
            low_digit(*h),
        ];
        write_part(out, &digits)?;
        rest = more;
    }
    for b in rest {
        write_part(out, &[high_digit(*b), low_digit(*b)])?;
    }
    Ok(())
}

fn write_char<W: Write>(c: char, out: &mut W) -> Result<(), StreamFault>
    ensures { OnOk result (IsWritten AreChars (W.contents out.old) (W.contents out.new)) }
{
    match c {
        '"' => write_escape(b'"', out),
        '\\' => write_escape(b'\\', out),
        '\u{8}' => write_escape(b'b', out),
        '\u{C}' => write_escape(b'f', out),
        '\n' => write_escape(b'n', out),
        '\r' => write_escape(b'r', out),
        '\t' => write_escape(b't', out),
        _ if is_shown(c) => write_shown(c, out),
        _ => write_hidden(c, out),
    }
}

fn write_escape<W: Write>(letter: u8, out: &mut W) -> Result<(), StreamFault>
    requires { is_escape letter ≡ true }
    ensures { OnOk result (IsWritten AreChars (W.contents out.old) (W.contents out.new)) }
{
    write_part(out, &[b'\\', letter])?;
    Ok(())
}

fn write_shown<W: Write>(c: char, out: &mut W) -> Result<(), StreamFault>
    requires { (is_shown c ≡ true) × (c ≢ 0x22) × (c ≢ 0x5C) }
    ensures { OnOk result (IsWritten AreChars (W.contents out.old) (W.contents out.new)) }
{
    let mut room = [0; 4];
    write_part(out, c.encode_utf8(&mut room).as_bytes())?;
    Ok(())
}

// Writes a character by its units in UTF-16.
fn write_hidden<W: Write>(c: char, out: &mut W) -> Result<(), StreamFault>
    ensures { OnOk result (IsWritten AreChars (W.contents out.old) (W.contents out.new)) }
{
    let number = c as u32;
    if number < 0x1_0000 {
        return write_unit(number, out);
    }
    write_unit(0xD800 + (number - 0x1_0000) / 1024, out)?;
    write_unit(0xDC00 + number % 1024, out)?;
    Ok(())
}

fn write_unit<W: Write>(unit: u32, out: &mut W) -> Result<(), StreamFault>
    requires { unit < 0x10000 }
    ensures { OnOk result (IsWritten AreChars (W.contents out.old) (W.contents out.new)) }
{
    write_part(
        out,
        &[
            b'\\',
            b'u',
            hex_digit(unit / 4096),
            hex_digit(unit / 256 % 16),
            hex_digit(unit / 16 % 16),
            hex_digit(unit % 16),
        ],
    )?;
    Ok(())
}

// The hex digit of the four high bits of an octet.
fn high_digit(octet: u8) -> u8
    ensures { IsHexDigit result }
{
    hex_digit(u32::from(octet / 16))
}

// The hex digit of the four low bits of an octet.
fn low_digit(octet: u8) -> u8
    ensures { IsHexDigit result }
{
    hex_digit(u32::from(octet % 16))
}

fn hex_digit(n: u32) -> u8
    requires { n < 16 }
    ensures { IsHexDigit result }
{
    if n < 10 {
        b'0' + n as u8
    } else {
        b'a' + (n - 10) as u8
    }
}
