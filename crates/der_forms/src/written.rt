// PEM that is written.
ghost use Rattle.std.specs.Prelude.{◌≡◌, ◌⊎◌, ◌∷◌, [], ◌++◌, codes, string_bytes, false, true, IfErr, IfOk, OnOk};
ghost use Rattle.der_forms.specs.Objects.{objects_of};
ghost use Rattle.der_forms.specs.Written.{base64_lines, is_label as is_label_by, is_label_character, line_count, written_object, written_pem};
ghost use Rattle.der_forms.specs.declared.fault.LabelFault.TheVariants.{OutOfMemory};

use crate::fault::LabelFault;
use base64::engine::general_purpose::STANDARD;
use std::alloc::{AllocError, Global};

// How many octets the 64 symbols of a line spell.
const OCTETS_IN_LINE: usize = 48;

/// PEM of one object, as RFC 7468 has it: a line `-----BEGIN label-----`, the octets in base64 with 64 symbols in each
/// line but the last, and a line `-----END label-----`. Each line ends with a line feed. [`Objects`](crate::Objects)
/// reads the label and the octets again, unless these are a private key in the form of OpenSSH. No octets have no line.
///
/// # Errors
/// `BadLabel` if the label is none by RFC 7468, section 3; `OutOfMemory`.
///
/// ```rust
/// use der_forms::{LabelFault, to_pem};
/// use std::alloc::Global;
///
/// // Three lines, of which the second is `BQA=` for the octets `05 00` of a NULL.
/// fn pem(alloc: Global, octets: &[u8]) -> Result<String, LabelFault> {
///     to_pem(alloc, "PRIVATE KEY", octets)
/// }
/// ```
pub fn to_pem(alloc: Global, label: &str, octets: &[u8]) -> Result<String, LabelFault>
    ensures text { IfOk result (λ text. string_bytes text ≡ written_pem label.now octets.now) }
    ensures label { IfOk result (λ _. is_label_by label.now ≡ true) }
    ensures fault { IfErr result (λ e. (e ≡ OutOfMemory) ⊎ (is_label_by label.now ≡ false)) }
    ensures read_back { IfOk result (λ text. objects_of (string_bytes text)
        ≡ written_object label.now octets.now ∷ []) }
{
    if !is_label(label.as_bytes()) {
        return Err(LabelFault::BadLabel);
    }
    let mut text = String::new(alloc);
    push_boundary("-----BEGIN ", label, &mut text)?;
    push_lines(octets, &mut text)?;
    push_boundary("-----END ", label, &mut text)?;
    Ok(text)
}

// Whether the text is a label.
fn is_label(text: &[u8]) -> bool
    ensures { result ≡ is_label_by text.now }
{
    let mut is_behind_character = text.is_empty();
    let mut rest = text;
    while let [b, behind @ ..] = rest {
        let is_character = is_label_character(*b);
        if !is_character && !(is_behind_character && (*b == b' ' || *b == b'-')) {
            return false;
        }
        is_behind_character = is_character;
        rest = behind;
    }
    is_behind_character
}

// Whether the octet is a printed character of ASCII, and neither a space nor a hyphen.
fn is_label_character(b: u8) -> bool
    ensures { result ≡ is_label_character b }
{
    b.is_ascii_graphic() && b != b'-'
}

// Appends the line that begins or ends an object.
fn push_boundary(words: &str, label: &str, text: &mut String) -> Result<(), AllocError>
    ensures { OnOk result (string_bytes text.new
        ≡ string_bytes text.old ++ (words.now ++ (label.now ++ codes "-----\n"))) }
{
    text.push_str(words)?;
    text.push_str(label)?;
    text.push_str("-----\n")
}

// Appends the lines of base 64 of the octets.
fn push_lines(octets: &[u8], text: &mut String) -> Result<(), AllocError>
    ensures { OnOk result (string_bytes text.new
        ≡ string_bytes text.old ++ base64_lines (line_count octets.now) octets.now) }
{
    for part in octets.chunks(OCTETS_IN_LINE) {
        STANDARD.encode_string(part, text)?;
        text.push('\n')?;
    }
    Ok(())
}
