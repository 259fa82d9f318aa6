// Parts of a text: how it begins, and what stands before them.
ghost use Rattle.std.specs.Prelude.{◌≡◌, drop};
ghost use Rattle.der_digits.specs.Search.{contains, up_to, without_indent};

/// The line without the white space at its front.
pub fn without_indent(line: &[u8]) -> &[u8]
    ensures { result.now ≡ without_indent line.now }
{
    line.trim_ascii_start()
}

/// Whether the part stands in the text.
pub fn contains(part: &[u8], text: &[u8]) -> bool
    ensures { result ≡ contains part.now text.now }
{
    part_before(part, text).len() < text.len()
}

/// What stands before the part, or the whole text where it does not stand in it.
pub fn part_before<'a>(part: &[u8], text: &'a [u8]) -> &'a [u8]
    ensures { result.now ≡ up_to part.now text.now }
{
    let mut rest = text;
    while !rest.is_empty() {
        if rest.starts_with(part) {
            return &text[..text.len() - rest.len()];
        }
        (_, rest) = rest.split_at(1);
    }
    text
}

/// What stands behind so many octets.
pub fn behind(count: usize, text: &[u8]) -> &[u8]
    ensures { result.now ≡ drop count text.now }
{
    let (_, after) = text.split_at(text.len().min(count));
    after
}
