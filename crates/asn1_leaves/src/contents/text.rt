// Contents octets of the strings of characters (X.690 8.23).
ghost use Rattle.std.specs.Prelude.{◌≡◌, ◌↔◌, ◌≤◌, ℕ, List, length, None, Some, IfOk, IfErr, IsTrue, OnOk, IsUtf8, string_bytes};
ghost use Rattle.std.specs.List.{list_all};
ghost use Rattle.std.specs.Str.{IsAscii, chars};
ghost use Rattle.asn1_leaves.specs.Contents.Text.{HasCharacters, TextContents, TextFault, is_printable, octet_write_fault, text_contents, text_write_fault};
ghost use Rattle.asn1_headers.specs.Fault.{OutOfMemoryOr, fault_of};
ghost use Rattle.asn1_leaves.specs.declared.contents.text.TextForm.TheVariants.{Printable, Utf8};

use asn1_headers::error::{ASN1DecodeErr, ASN1EncodeErr};
use asn1_numbers::sink::Sink;
use std::alloc::{AllocError, Global};

// What contents octets hold for a character: its UTF-8, an octet of a PrintableString, any octet.
#[derive(Clone, Copy)]
pub enum TextForm {
    Utf8,
    Printable,
    Octets,
}

#[inline(always)]
pub fn read(alloc: Global, form: TextForm, contents: &[u8]) -> Result<String, ASN1DecodeErr>
    ensures found { IfOk result (λ s. TextContents form (chars (string_bytes s)) contents.now) }
    ensures refused { IfErr result (OutOfMemoryOr (TextFault form contents.now)) }
{
    match form {
        TextForm::Utf8 => read_utf8(alloc, contents),
        TextForm::Printable => read_printable(alloc, contents),
        TextForm::Octets => Ok(read_octets(alloc, contents)?),
    }
}

// Whether the contents octets are characters.
#[inline(always)]
pub fn are_clearly_meant(form: TextForm, contents: &[u8]) -> bool
    ensures { IsTrue result → (cs : List ℕ) × TextContents form cs contents.now }
{
    match form {
        TextForm::Utf8 => str::from_utf8(contents).is_ok(),
        TextForm::Printable => are_printable(contents),
        TextForm::Octets => true,
    }
}

// The text, where it stands.
fn utf8_text(contents: &[u8]) -> Result<&str, ASN1DecodeErr>
    ensures found { IfOk result (λ text. (text.now ≡ contents.now) × IsUtf8 contents.now) }
    ensures refused { IfErr result (λ e. TextFault Utf8 contents.now (fault_of e)) }
{
    match str::from_utf8(contents) {
        Ok(text) => Ok(text),
        Err(e) => Err(ASN1DecodeErr::UTF8DecodeFailure(e)),
    }
}

fn check_printable(contents: &[u8]) -> Result<(), ASN1DecodeErr>
    ensures found { OnOk result (TextContents Printable contents.now contents.now) }
    ensures refused { IfErr result (λ e. TextFault Printable contents.now (fault_of e)) }
{
    if are_printable(contents) {
        Ok(())
    } else {
        Err(ASN1DecodeErr::PrintableStringDecodeFailure)
    }
}

fn read_utf8(alloc: Global, contents: &[u8]) -> Result<String, ASN1DecodeErr>
    ensures found { IfOk result (λ s. TextContents Utf8 (chars (string_bytes s)) contents.now) }
    ensures refused { IfErr result (OutOfMemoryOr (TextFault Utf8 contents.now)) }
{
    let text = utf8_text(contents)?;
    Ok(String::from_str(alloc, text)?)
}

// Whether the octet is a character of a PrintableString.
fn is_printable_octet(b: u8) -> bool
    ensures { result ≡ is_printable b }
{
    matches!(
        b,
        b'A'..=b'Z'
            | b'a'..=b'z'
            | b'0'..=b'9'
            | b' '
            | b'\''
            | b'('
            | b')'
            | b'+'
            | b','
            | b'-'
            | b'.'
            | b'/'
            | b':'
            | b'='
            | b'?'
    )
}

// Tests all octets, also after one that fails: with no branch on each, many are tested at once.
pub fn are_printable(contents: &[u8]) -> bool
    ensures { result ≡ list_all is_printable contents.now }
{
    let mut printable = true;
    for b in contents {
        printable &= is_printable_octet(*b);
    }
    printable
}

fn read_printable(alloc: Global, contents: &[u8]) -> Result<String, ASN1DecodeErr>
    ensures found { IfOk result (λ s.
        TextContents Printable (chars (string_bytes s)) contents.now) }
    ensures refused { IfErr result (OutOfMemoryOr (TextFault Printable contents.now)) }
{
    check_printable(contents)?;
    Ok(read_ascii(alloc, contents)?)
}

// The text whose characters have the numbers of the octets.
fn read_octets(alloc: Global, contents: &[u8]) -> Result<String, AllocError>
    ensures { IfOk result (λ s. chars (string_bytes s) ≡ contents.now) }
{
    if contents.is_ascii() {
        return read_ascii(alloc, contents);
    }
    let mut text = String::with_capacity(alloc, contents.len())?;
    for b in contents {
        text.push(char::from(*b))?;
    }
    Ok(text)
}

// Reads ASCII, whose octets are the text. It is proved that they are UTF-8, and so not tested again.
fn read_ascii(alloc: Global, contents: &[u8]) -> Result<String, AllocError>
    requires { IsAscii contents.now }
    ensures { IfOk result (λ s. chars (string_bytes s) ≡ contents.now) }
{
    let text = unsafe { str::from_utf8_unchecked(contents) };
    String::from_str(alloc, text)
}

// The number of octets that are written.
pub fn size(form: TextForm, text: &str) -> Result<usize, ASN1EncodeErr>
    ensures size { IfOk result (λ n. n ≡ length (text_contents form (chars text.now))) }
    ensures writable { OnOk result (text_write_fault form (chars text.now) ≡ None) }
    ensures refused { IfErr result (λ e. text_write_fault form (chars text.now) ≡ Some e) }
{
    match form {
        TextForm::Utf8 => Ok(text.len()),
        TextForm::Printable | TextForm::Octets => character_count(text),
    }
}

// How many characters the text has, each of which fits an octet.
fn character_count(text: &str) -> Result<usize, ASN1EncodeErr>
    ensures size { IfOk result (λ n. n ≡ length (chars text.now)) }
    ensures writable { OnOk result (octet_write_fault (chars text.now) ≡ None) }
    ensures refused { IfErr result (λ e. octet_write_fault (chars text.now) ≡ Some e) }
{
    if text.is_ascii() {
        return Ok(text.len());
    }
    let mut count = 0;
    for c in text.chars() {
        if c as u32 > 255 {
            return Err(ASN1EncodeErr::CharacterTooLarge);
        }
        count += 1;
    }
    Ok(count)
}

pub fn push<S: Sink>(form: TextForm, text: &str, out: &mut S)
    requires room { length (text_contents form (chars text.now)) ≤ S.room out.old }
    requires writable { text_write_fault form (chars text.now) ≡ None }
    ensures { S.pushes out.old (text_contents form (chars text.now)) out.new }
{
    match form {
        TextForm::Utf8 => out.push_octets(text.as_bytes()),
        TextForm::Printable | TextForm::Octets => push_characters(text, out),
    }
}

// Puts the numbers of the characters, each as an octet.
fn push_characters<S: Sink>(text: &str, out: &mut S)
    requires room { length (chars text.now) ≤ S.room out.old }
    requires writable { octet_write_fault (chars text.now) ≡ None }
    ensures { S.pushes out.old (chars text.now) out.new }
{
    if text.is_ascii() {
        out.push_octets(text.as_bytes());
        return;
    }
    for c in text.chars() {
        out.push_octet(c as u8);
    }
}

// Whether the text is read back as it is, once it is written.
pub fn is_faithful(form: TextForm, text: &str) -> bool
    ensures { IsTrue result ↔ HasCharacters form (chars text.now) }
{
    match form {
        TextForm::Utf8 => true,
        TextForm::Printable => are_printable(text.as_bytes()),
        TextForm::Octets => character_count(text).is_ok(),
    }
}
