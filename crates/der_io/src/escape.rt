// Text for a terminal, in which what is no printed character is escaped.
ghost use Rattle.std.specs.Prelude.{◌≡◌, ◌++◌, IfOk, OnOk, string_bytes};
ghost use Rattle.std.specs.Str.{chars};
ghost use Rattle.der_io.specs.Escaped.{
  all_escaped,
  escape_of,
  escape_of_octet,
  escape_of_other,
  escaped as escaped_is,
  is_control as is_control_by,
  is_invisible as is_invisible_by,
  is_shown as is_shown_by,
};

use std::alloc::{AllocError, Global};
use std::str;
use ucd_category::{GeneralCategory, GeneralCategoryGroup};
use ucd_derived::is_default_ignorable_code_point;

/// The text of the octets, with control and other unprintable characters escaped; of octets that are not UTF-8, each
/// above 7F. A terminal that shows it obeys none of its characters.
///
/// # Errors
/// Memory ran out.
pub fn escaped(alloc: Global, octets: &[u8]) -> Result<String, AllocError>
    ensures { IfOk result (λ text. string_bytes text ≡ escaped_is octets.now) }
{
    match str::from_utf8(octets) {
        Ok(text) => escaped_text(alloc, text),
        Err(_) => escaped_octets(alloc, octets),
    }
}

fn escaped_text(alloc: Global, text: &str) -> Result<String, AllocError>
    ensures { IfOk result (λ out. string_bytes out ≡ all_escaped escape_of (chars text.now)) }
{
    let mut out = String::new(alloc);
    push_escaped(text, &mut out)?;
    Ok(out)
}

fn escaped_octets(alloc: Global, octets: &[u8]) -> Result<String, AllocError>
    ensures { IfOk result (λ out. string_bytes out ≡ all_escaped escape_of_octet octets.now) }
{
    let mut out = String::new(alloc);
    push_octets(octets, &mut out)?;
    Ok(out)
}

/// Puts the text at the end, with what is no printed character escaped.
///
/// # Errors
/// Memory ran out.
pub fn push_escaped(text: &str, out: &mut String) -> Result<(), AllocError>
    ensures { OnOk result (string_bytes out.new ≡ string_bytes out.old ++ all_escaped escape_of (chars text.now)) }
{
    for c in text.chars() {
        push_character(c, out)?;
    }
    Ok(())
}

/// Puts the text at the end, with `\u{..}` in the place of each character that is not shown. Backslashes and quotation
/// marks stay as they are.
///
/// # Errors
/// Memory ran out.
pub fn push_shown(text: &str, out: &mut String) -> Result<(), AllocError>
    ensures { OnOk result (string_bytes out.new
        ≡ string_bytes out.old ++ all_escaped escape_of_other (chars text.now)) }
{
    for c in text.chars() {
        push_plain(c, out)?;
    }
    Ok(())
}

fn push_octets(octets: &[u8], out: &mut String) -> Result<(), AllocError>
    ensures { OnOk result (string_bytes out.new ≡ string_bytes out.old ++ all_escaped escape_of_octet octets.now) }
{
    for b in octets {
        push_octet(*b, out)?;
    }
    Ok(())
}

fn push_octet(b: u8, out: &mut String) -> Result<(), AllocError>
    ensures { OnOk result (string_bytes out.new ≡ string_bytes out.old ++ escape_of_octet b) }
{
    if b < 128 {
        return push_character(char::from(b), out);
    }
    let high = b / 16;
    let low = b % 16;
    write!(out, "\\x{high:x}{low:x}")
}

fn push_character(c: char, out: &mut String) -> Result<(), AllocError>
    ensures { OnOk result (string_bytes out.new ≡ string_bytes out.old ++ escape_of c) }
{
    match c {
        '\n' => out.push_str("\\n"),
        '\r' => out.push_str("\\r"),
        '\t' => out.push_str("\\t"),
        '"' => out.push_str("\\\""),
        '\\' => out.push_str("\\\\"),
        _ => push_plain(c, out),
    }
}

// A character that has no letter of its own behind a backslash.
fn push_plain(c: char, out: &mut String) -> Result<(), AllocError>
    ensures { OnOk result (string_bytes out.new ≡ string_bytes out.old ++ escape_of_other c) }
{
    if is_shown(c) {
        out.push(c)
    } else {
        write!(out, "\\u{{{:x}}}", c as u32)
    }
}

/// Whether the character is shown as it is: it is no control character, and none that Unicode has as format, private
/// use, unassigned, line end or invisible.
pub fn is_shown(c: char) -> bool
    ensures { result ≡ is_shown_by c }
{
    !is_control(c) && (c.is_ascii() || !is_invisible(c))
}

fn is_control(c: char) -> bool
    ensures { result ≡ is_control_by c }
{
    let number = c as u32;
    number < 0x20 || (0x7F <= number && number <= 0x9F)
}

// Whether a terminal may obey it, show nothing for it, or not know it.
fn is_invisible(c: char) -> bool
    ensures { result ≡ is_invisible_by c }
{
    let category = GeneralCategory::for_char(c);
    GeneralCategoryGroup::Other.contains(category)
        || category == GeneralCategory::LineSeparator
        || category == GeneralCategory::ParagraphSeparator
        || is_default_ignorable_code_point(c)
}
