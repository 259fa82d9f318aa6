// Text in hex digits.
ghost use Rattle.std.specs.Prelude.{◌≡◌, ◌++◌, ℕ, List, if◌then◌else◌, IfOk};
ghost use Rattle.std.specs.Iterator.{YieldsFirst, item_count};
ghost use Rattle.std.specs.List.{list_all};
ghost use Rattle.der_digits.specs.Decoded.{HasRead, IsRead};
ghost use Rattle.der_digits.specs.Digits.{begins_prefix, begins_space, column_behind, column_of, digits_of, has_bare_offset, has_bits, has_columns, has_other_columns, has_pairs, is_bit, is_separator, is_zero, offset_of, without_separators};
ghost use Rattle.der_digits.specs.Spelled.{IsSpelling};
ghost use Rattle.der_digits.specs.Symbols.{symbols_left};
ghost use Rattle.der_io.specs.Lines.{lines_of};

use crate::hex_decoder::{HexDecoder, Spelling};
use crate::lines::Lines;
use crate::search::{behind, part_before, without_indent};
use std::alloc::{AllocError, Global};

// The first offset in columns of octets: of `xxd`, of `od` by itself, and of `od -A x`.
const XXD_OFFSET: &[u8] = b"00000000: ";

pub(crate) const OCTAL_OFFSET: &[u8] = b"0000000 ";

const HEX_OFFSET: &[u8] = b"000000 ";

// How that of Wireshark and of `certutil` begins, whose lines may have an indent. Wireshark prints up to eight digits.
const BARE_OFFSET: &[u8] = b"0000";

// Where the first eight bits stand in what `xxd -b` prints.
const BITS_START: usize = 10;

const BITS_END: usize = 18;

// How many digits an offset has at least.
const LEAST_OFFSET: usize = 4;

/// What the digits of a text spell.
pub fn spelling_in(alloc: Global, text: &[u8]) -> Result<Spelling, AllocError>
    ensures { IfOk result (λ spelling.
        IsSpelling spelling (digits_of (has_columns text.now) (lines_of text.now))) }
{
    let in_columns = is_in_columns(text);
    let mut decoder = HexDecoder::new(alloc);
    for line in Lines::of(text) {
        if !read_symbols(digits_part(in_columns, line), &mut decoder)? {
            return Ok(Spelling::Nothing);
        }
    }
    Ok(decoder.finish())
}

// Reads the symbols of a text. Returns `false` where one is no digit.
pub(crate) fn read_symbols(text: &[u8], decoder: &mut HexDecoder) -> Result<bool, AllocError>
    ensures { (digits : List ℕ) → HasRead decoder.old digits
        → IfOk result (λ are_read. IsRead are_read decoder.new (digits ++ without_separators text.now)) }
{
    for symbol in Symbols(text) {
        if !decoder.read(symbol)? {
            return Ok(false);
        }
    }
    Ok(true)
}

/// Whether the text comes in columns, with an offset before the digits.
#[tactic(auto, unfolding(crate::specs::Digits::has_columns))]
pub fn is_in_columns(text: &[u8]) -> bool
    ensures { result ≡ has_columns text.now }
{
    text.starts_with(XXD_OFFSET)
        || (text.starts_with(b"00000000  ") && text.contains(&b'|'))
        || has_pairs(OCTAL_OFFSET, text)
        || has_pairs(HEX_OFFSET, text)
        || has_bare_offset(text)
}

/// Whether the text comes in columns of another kind, as `hexdump` and `od` print them by default, and `xxd -b`.
pub fn has_other_columns(text: &[u8]) -> bool
    ensures { result ≡ has_other_columns text.now }
{
    ((text.starts_with(OCTAL_OFFSET) || text.starts_with(HEX_OFFSET)) && !is_in_columns(text))
        || has_bits(text)
}

// Whether a pair of digits stands behind this offset, as `od -t x1` prints it.
pub(crate) fn has_pairs(offset: &[u8], text: &[u8]) -> bool
    ensures { result ≡ has_pairs offset.now text.now }
{
    text.starts_with(offset) && begins_space(behind(2, behind(offset.len(), text)))
}

// Whether a pair of digits stands behind an offset of four zeros or more, and two spaces or more or a tab.
fn has_bare_offset(text: &[u8]) -> bool
    ensures { result ≡ has_bare_offset text.now }
{
    let line = without_indent(text);
    if !line.starts_with(BARE_OFFSET) {
        return false;
    }
    let offset = offset_of(line);
    let rest = behind(offset.len(), line);
    are_zeros(offset)
        && (rest.starts_with(b"  ") || rest.starts_with(b"\t"))
        && begins_space(behind(2, without_indent(rest)))
}

fn are_zeros(text: &[u8]) -> bool
    ensures { result ≡ list_all is_zero text.now }
{
    text.iter().all(|b| *b == b'0')
}

// Whether the text comes in columns of bits, as `xxd -b` prints them.
fn has_bits(text: &[u8]) -> bool
    ensures { result ≡ has_bits text.now }
{
    text.starts_with(XXD_OFFSET)
        && text.len() >= BITS_END
        && are_bits(&text[BITS_START..BITS_END])
        && begins_space(&text[BITS_END..])
}

fn are_bits(text: &[u8]) -> bool
    ensures { result ≡ list_all is_bit text.now }
{
    text.iter().all(|b| (b'0'..=b'1').contains(b))
}

fn begins_space(text: &[u8]) -> bool
    ensures { result ≡ begins_space text.now }
{
    text.first().is_none_or(|b| b.is_ascii_whitespace())
}

// The offset in a line: the hex digits at its front.
pub(crate) fn offset_of(line: &[u8]) -> &[u8]
    ensures { result.now ≡ offset_of line.now }
{
    let mut rest = line;
    while !rest.is_empty() {
        if !rest[0].is_ascii_hexdigit() {
            return &line[..line.len() - rest.len()];
        }
        rest = &rest[1..];
    }
    line
}

/// The part of a line that has digits: in a text in columns, the column of these.
pub fn digits_part(in_columns: bool, line: &[u8]) -> &[u8]
    ensures { result.now ≡ (if in_columns then column_of line.now else line.now) }
{
    if in_columns {
        digits_column(line)
    } else {
        line
    }
}

/// The column of digits in a line.
pub fn digits_column(line: &[u8]) -> &[u8]
    ensures { result.now ≡ column_of line.now }
{
    let text = without_indent(line);
    let size = offset_of(text).len();
    if size >= LEAST_OFFSET {
        column_behind(behind(size, text))
    } else {
        line
    }
}

// The column of digits behind an offset.
fn column_behind(text: &[u8]) -> &[u8]
    ensures { result.now ≡ column_behind text.now }
{
    if text.starts_with(b":") {
        part_before(b"  ", &text[1..])
    } else {
        part_before(
            b"   ",
            without_indent(part_before(b"|", part_before(b">", text))),
        )
    }
}

/// The symbols of a text without its separators, and without what may stand before two digits.
#[derive(Drop)]
pub struct Symbols<'a>(pub &'a [u8]);

impl Iterator for Symbols<'_> {
    type Item = u8;

    ghost next_gives = { YieldsFirst symbols_left };

    ghost remaining = { item_count symbols_left };

    fn next(&mut self) -> Option<u8> {
        while !self.0.is_empty() {
            if begins_prefix(self.0) {
                self.0 = &self.0[2..];
            } else {
                let symbol = self.0[0];
                self.0 = &self.0[1..];
                if !may_separate(symbol) {
                    return Some(symbol);
                }
            }
        }
        None
    }
}

// Whether the text begins with what may stand before two digits.
fn begins_prefix(text: &[u8]) -> bool
    ensures { result ≡ begins_prefix text.now }
{
    text.starts_with(b"0x") || text.starts_with(b"\\x")
}

// Whether the octet may stand between digits.
fn may_separate(b: u8) -> bool
    ensures { result ≡ is_separator b }
{
    b.is_ascii_whitespace() || matches!(b, b':' | b',' | b'-' | b'{' | b'}')
}
