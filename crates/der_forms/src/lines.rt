// Lines of an input, and which of them begin and end objects.
ghost use Rattle.std.specs.Prelude.{◌≡◌, MatchOption, false, true};
ghost use Rattle.std.specs.List.{list_all};
ghost use Rattle.der_forms.specs.Forms.{begins_object, has_object, is_text_octet, without_mark};
ghost use Rattle.der_forms.specs.Objects.{begun_in, end_label_in, ends_object, label_in};
ghost use Rattle.der_io.specs.Lines.{lines_of};

use der_digits::lines::Lines;
use der_digits::search::{behind, part_before, without_indent};

// How a line begins that begins an object.
pub const BEGIN: &[u8] = b"-----BEGIN ";

// How a line begins that ends an object.
pub const END: &[u8] = b"-----END ";

// How the rest of such a line begins, behind the label.
const HYPHENS: &[u8] = b"-----";

// The input without the byte order mark of UTF-8 at its front.
pub fn without_mark(input: &[u8]) -> &[u8]
    ensures { result.now ≡ without_mark input.now }
{
    if input.starts_with(&[0xEF, 0xBB, 0xBF]) {
        &input[3..]
    } else {
        input
    }
}

// PEM has a line that begins an object, and above it nothing but lines of text.
pub fn is_pem(text: &[u8]) -> bool
    ensures { result ≡ has_object (lines_of text.now) }
{
    for line in Lines::of(text) {
        if label_of(line).is_some() {
            return true;
        }
        if !is_text(line) {
            return false;
        }
    }
    false
}

// The label in a line, if it begins an object.
pub fn label_of(line: &[u8]) -> Option<&[u8]>
    ensures { MatchOption result (begins_object line.now ≡ false)
        (λ label. (begins_object line.now ≡ true) × (label.now ≡ label_in line.now)) }
{
    let label = without_indent(line).strip_prefix(BEGIN)?;
    Some(part_before(HYPHENS, label))
}

// What a line has from the words on that begin an object.
pub fn begun_in(line: &[u8]) -> &[u8]
    ensures { result.now ≡ begun_in line.now }
{
    behind(part_before(BEGIN, line).len(), line)
}

// Whether a line ends an object.
pub fn is_end(line: &[u8]) -> bool
    ensures { result ≡ ends_object line.now }
{
    without_indent(line).starts_with(END)
}

// The label in a line that ends an object.
pub fn end_label_of(line: &[u8]) -> &[u8]
    ensures { result.now ≡ end_label_in line.now }
{
    part_before(HYPHENS, behind(END.len(), without_indent(line)))
}

pub fn is_text(line: &[u8]) -> bool
    ensures { result ≡ list_all is_text_octet line.now }
{
    line.iter().all(|b| *b >= b' ' || b.is_ascii_whitespace())
}
