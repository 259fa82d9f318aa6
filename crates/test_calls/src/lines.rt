// The answers to the lines of the input.
//
// A line is ended by octet 0A, and the last one perhaps by the end of the input. A line that begins with `#` is a
// comment, and is not answered. Any other line has one line as its answer. What stands on it from a `#` on is a comment
// too, and white space at either end is left out. If nothing is left, the answer is an empty line, so that groups of
// rows stand apart in the answers too. Else the line is the name of a call, and after a space its octets in hex digits
// of either case, with spaces or without; for no octets the name stands alone.
//
//     read 30 03 02 01 05     Sequence(0, [Integer(2, 5)])
//     count A0 02 02 05       2 begun, read
//     count 04 89             1 begun, refused LengthTooLarge 9
//     place 05 00 04 89       refused LengthTooLarge 9 at 2
//     rewrite 02 80           02 01 00
//     strict 01 01 2A         refused NotCanonical 0
//     read 04 89              refused LengthTooLarge 9
//     is_der 05 00            true
//     signed 05 00            refused Shape
//     departures 01 01 01     0 BooleanValue
//
// `read` is answered by the blocks in the notation of `test_notation`, `count` by the number of headers that were
// begun, and whether the octets were read, `place` by whether they were read, and at which offset they are at fault,
// `rewrite` by the canonical octets, `strict` as `read`, of canonical documents alone, `is_der` by `true` or `false`,
// `departures` by the offset and the name of each rule of DER that is broken, or by `none`, and `signed` by the
// content, the algorithm, the number of bits and the octets of the signature: `content 30 00, algorithm 1.2, 8 bits,
// AB`. `first` is answered by the offsets of the first block of a tree and of an outline, `decode_tag` by the tag, the
// index after it and the number of headers, and `made` by what becomes of a block made by hand (`made.rt`). A call that
// refuses its octets is answered by `refused`, the name of the fault, and after a space what the fault holds: its
// number in decimal, or its characters as in the notation. A line that is anything else is answered by `badline`.
use crate::calls::answer;
use crate::refusal::{Refusal, ran_out};
use der_io::split_line;
use std::alloc::{AllocError, Global};
use std::str;
use test_notation::octets_of;

// The answers to the lines of the input.
pub fn answers(alloc: Global, input: &[u8]) -> Result<Vec<u8>, AllocError> {
    let mut output = Vec::new(alloc);
    let mut rest = input;
    while !rest.is_empty() {
        let (line, after) = split_line(rest);
        if !line.starts_with(b"#") {
            output.extend_from_slice(line_answer(alloc, line)?.as_bytes())?;
            output.push(b'\n')?;
        }
        rest = after;
    }
    Ok(output)
}

// The answer to a line that is no comment.
fn line_answer(alloc: Global, line: &[u8]) -> Result<String, AllocError> {
    let text = without_comment(line);
    if text.is_empty() {
        return Ok(String::new(alloc));
    }
    let (name, digits) = split_name(text);
    let (Ok(name), Some(octets)) = (str::from_utf8(name), octets_of(alloc, digits)?) else {
        return String::from_str(alloc, "badline");
    };
    let before = octets.as_slice().to_vec(alloc)?;
    match answer(alloc, name, &octets) {
        Ok(text) => Ok(text),
        Err(Refusal::Memory) => ran_out(alloc, octets == before).text(alloc),
        Err(refusal) => refusal.text(alloc),
    }
}

// What stands before the first `#`, without the spaces at either end.
fn without_comment(line: &[u8]) -> &[u8] {
    let text = match line.iter().position(|b| *b == b'#') {
        Some(end) => &line[..end],
        None => line,
    };
    text.trim_ascii()
}

// The name of a call, which ends at the first space, and what stands after it.
fn split_name(text: &[u8]) -> (&[u8], &[u8]) {
    match text.iter().position(|b| *b == b' ') {
        Some(end) => (&text[..end], &text[end..]),
        None => (text, &[]),
    }
}
