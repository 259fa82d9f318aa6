// The text of a string: of that at an offset, and of one that is put.
ghost use Rattle.std.specs.Prelude.{◌≡◌, IsTrue, IsUtf8, MatchOption};
ghost use Rattle.std.specs.Str.{chars};
ghost use Rattle.asn1_leaves.specs.Contents.Text.{TextContents};
ghost use Rattle.asn1_records.specs.Puts.{AnswersPutText, AreAllowed, others_status};
ghost use Rattle.asn1_records.specs.Values.{AnswersText};

use crate::alone::universal_at;
use crate::putting::{nothing_put, put_front};
use crate::record::Outcome;
use crate::status::{NO_SUCH_VALUE, OUT_OF_RANGE, PRINTABLE, UTF8, status_of_fault};
use asn1_blocks::contents::form_of;
use asn1_leaves::contents::text;
use asn1_leaves::contents::text::TextForm;
use std::alloc::Global;

// Whether contents octets are found to be the text that they mean, in UTF-8.
fn are_own_text(form: TextForm, contents: &[u8]) -> bool
    ensures utf8 { IsTrue result → IsUtf8 contents.now }
    ensures meant { IsTrue result → TextContents form (chars contents.now) contents.now }
{
    match form {
        TextForm::Utf8 => str::from_utf8(contents).is_ok(),
        TextForm::Printable => text::are_printable(contents),
        TextForm::Octets => contents.is_ascii(),
    }
}

// Of most strings the contents octets are the text. Others are made into a text in memory.
pub fn text_at(alloc: Global, octets: &[u8], offset: usize, room: &mut [u8]) -> Outcome
    ensures { AnswersText octets.now offset room.old room.new result }
{
    let (tag, contents) = match universal_at(alloc, octets, offset) {
        Ok(found) => found,
        Err(status) => return nothing_put(status, offset),
    };
    let Some(form) = form_of(tag) else {
        return nothing_put(NO_SUCH_VALUE, offset);
    };
    if are_own_text(form, contents) {
        return put_front(contents, room);
    }
    match text::read(alloc, form, contents) {
        Ok(text) => put_front(text.as_str().as_bytes(), room),
        Err(e) => nothing_put(status_of_fault(&e), offset),
    }
}

// The number of why the text is not put into a string of the form, if it is not.
fn status_of_others(form: TextForm, text: &str) -> Option<u32>
    ensures { MatchOption result
        (AreAllowed form (chars text.now))
        (λ status. (status ≡ others_status form) × (AreAllowed form (chars text.now) → ⊥)) }
{
    match form {
        TextForm::Utf8 => None,
        TextForm::Printable => {
            if text::is_faithful(TextForm::Printable, text) {
                None
            } else {
                Some(PRINTABLE)
            }
        }
        TextForm::Octets => {
            if text.is_ascii() {
                None
            } else {
                Some(OUT_OF_RANGE)
            }
        }
    }
}

// Puts the contents octets of the string with the tag number that has this text: the text's in UTF-8.
pub fn put_text(tag: u64, text: &[u8], room: &mut [u8]) -> Outcome
    ensures { AnswersPutText tag text.now room.old room.new result }
{
    let Some(form) = form_of(tag) else {
        return nothing_put(NO_SUCH_VALUE, 0);
    };
    let Ok(text) = str::from_utf8(text) else {
        return nothing_put(UTF8, 0);
    };
    match status_of_others(form, text) {
        None => put_front(text.as_bytes(), room),
        Some(status) => nothing_put(status, 0),
    }
}
