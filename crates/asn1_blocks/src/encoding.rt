// Encodings by their headers.
ghost use Rattle.std.specs.Prelude.{◌≡◌, ℕ, ◌*◌, ◌/◌, ◌++◌, ◌<◌, ◌≤◌, List, length, take, IfSome, IfNone, IsSomeAnd};
ghost use Rattle.std.specs.Iterator.{at_most};
ghost use Rattle.asn1_blocks.specs.Places.{EncodingAt, GivesEncoding, HasNoEncodingAt, IsEncoding, TreeAt};

use asn1_headers::header::{identifier_at, length_at};

// The size of the encoding at the front, as its header tells it. Most headers have two octets: these have code of their
// own, which takes a few instructions.
#[inline(always)]
fn encoding_size(octets: &[u8]) -> Option<usize>
    ensures found { IfSome result (λ n.
        (2 ≤ n) × (n ≤ length octets.now) × IsEncoding (take n octets.now)) }
    ensures none { IfNone result ((x rest : List ℕ) → octets.now ≡ x ++ rest → IsEncoding x → ⊥) }
{
    match octets {
        [identifier, length, rest @ ..] if *identifier % 32 != 31 && *length < 128 => {
            let contents = *length as usize;
            if contents <= rest.len() {
                Some(2 + contents)
            } else {
                None
            }
        }
        _ => any_encoding_size(octets),
    }
}

// The size of the encoding at the front, whatever header it has.
fn any_encoding_size(octets: &[u8]) -> Option<usize>
    ensures found { IfSome result (λ n.
        (2 ≤ n) × (n ≤ length octets.now) × IsEncoding (take n octets.now)) }
    ensures none { IfNone result ((x rest : List ℕ) → octets.now ≡ x ++ rest → IsEncoding x → ⊥) }
{
    let Some(identifier) = identifier_at(octets) else {
        return None;
    };
    let (_, rest) = octets.split_at(identifier);
    let (contents, length) = match length_at(rest) {
        Ok(found) => found,
        Err(_) => return None,
    };
    let Some(size) = (identifier + length).checked_add(contents) else {
        return None;
    };
    if size <= octets.len() {
        Some(size)
    } else {
        None
    }
}

/// The octets of the encoding at the offset (X.690 8.1.1), by its header: the contents octets are not looked into. At
/// the offset of a block that was read from the document, at any depth, they are the octets of that block.
///
/// `None` if there is no encoding at the offset, also past the end. It takes no memory.
///
/// ```rust
/// use simple_asn1::{ASN1Block, encoding_at};
///
/// // The octets of a block: of the first item of `30 07 02 01 05 A0 02 05 00` they are `02 01 05`.
/// fn octets_of<'a>(document: &'a [u8], block: &ASN1Block) -> Option<&'a [u8]> {
///     encoding_at(document, block.offset())
/// }
/// ```
pub fn encoding_at(document: &[u8], offset: usize) -> Option<&[u8]>
    ensures found { IfSome result (λ octets. EncodingAt document.now offset octets.now) }
    ensures none { IfNone result (HasNoEncodingAt document.now offset) }
    ensures block { (octets : List ℕ) → TreeAt document.now offset octets →
        IsSomeAnd result (λ found. found.now ≡ octets) }
{
    if offset > document.len() {
        return None;
    }
    let (_, rest) = document.split_at(offset);
    let Some(size) = encoding_size(rest) else {
        return None;
    };
    let (octets, _) = rest.split_at(size);
    Some(octets)
}

// Encodings one after another at the front of octets, by their headers (X.690 8.1.1): what stands inside one is not
// looked at. They end where no further encoding begins. It takes no memory.
#[derive(Drop)]
pub struct Encodings<'a> {
    // What is left behind those that were given.
    pub rest: &'a [u8],
}

impl<'a> Encodings<'a> {
    pub fn of(octets: &'a [u8]) -> Encodings<'a>
        ensures { result.rest.now ≡ octets.now }
    {
        Encodings { rest: octets }
    }
}

impl<'a> Iterator for Encodings<'a> {
    type Item = &'a [u8];

    ghost next_gives = { λ s encoding t. GivesEncoding s.rest.now encoding t.rest.now };

    // An encoding has two octets or more.
    ghost remaining = { λ s. at_most (length s.rest.now / 2) };

    #[inline(always)]
    fn next(&mut self) -> Option<&'a [u8]> {
        let size = encoding_size(self.rest)?;
        let (encoding, rest) = self.rest.split_at(size);
        self.rest = rest;
        Some(encoding)
    }
}

// How many encodings stand one after another, as their headers tell it. It is a hint for the room that their blocks
// take, and no more than that.
#[inline(always)]
pub fn encoding_count(octets: &[u8]) -> usize
    ensures { 2 * result ≤ length octets.now }
{
    Encodings::of(octets).count()
}
