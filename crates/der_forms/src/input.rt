// What an input is, and the document that it has.
ghost use Rattle.std.specs.Prelude.{◌≡◌, ◌⊎◌, IfOk, IfErr, None, Some};
ghost use Rattle.base64.specs.GeneralPurpose.{decode_of as decode_base64};
ghost use Rattle.base64.specs.Engines.{standard};
ghost use Rattle.std.specs.Result.{result_ok};
ghost use Rattle.std.specs.List.{list_all};
ghost use Rattle.der_digits.specs.Search.{all_of_some};
ghost use Rattle.der_forms.specs.Forms.{is_printed, unknown_text, without_spaces};
ghost use Rattle.der_forms.specs.Known.{are_words, form_is, form_of_text, is_in_words, is_sequence, length_fits, number_fits, of_base64, of_loose_base64, of_symbols};
ghost use Rattle.der_forms.specs.Objects.{IsReadAs, document_in as document_in_form, document_of as document_is, first_of, objects_of};
ghost use Rattle.der_forms.specs.Shown.{shown};
ghost use Rattle.der_forms.specs.declared.fault.FormFault.TheVariants.{OutOfMemory};

use crate::decoder::{decode, octets_in};
use crate::fault::FormFault;
use crate::lines::{is_pem, without_mark};
use crate::objects::Objects;
use crate::text::text_of;
use crate::unknown::fault_in_text;
use base64::engine::general_purpose::{STANDARD_PAD_INDIFFERENT, URL_SAFE_PAD_INDIFFERENT};
use der_digits::{Spelling, hex_text, layouts};
use std::alloc::{AllocError, Global};
use std::str;

/// What an input is.
#[derive(Debug, Drop, PartialEq)]
pub enum InputForm {
    /// Objects of PEM, which are [`Objects`].
    Pem,
    /// Text that spells these octets, in hex digits or in base64.
    Spelled(Vec<u8>),
    /// Text that has these octets in another layout: a source of C, or columns with lines left out.
    LaidOut(Vec<u8>),
    /// Text with no document in it: why.
    Unread(FormFault),
    /// The octets of a document, as they are.
    Der,
}

/// What an input is, by its octets alone. Text in UTF-16, and PEM on one line, are first made text by [`text_of`]. The
/// only error is that memory ran out.
pub fn form_of(alloc: Global, input: &[u8]) -> Result<InputForm, AllocError>
    ensures { IfOk result (λ form. shown form ≡ form_is input.now) }
{
    let text = without_mark(input);
    if is_pem(text) {
        Ok(InputForm::Pem)
    } else if is_printed_text(text) {
        text_form(alloc, text)
    } else if are_words(text) {
        Ok(InputForm::Unread(fault_in_text(text)))
    } else {
        Ok(InputForm::Der)
    }
}

fn text_form(alloc: Global, text: &[u8]) -> Result<InputForm, AllocError>
    ensures { IfOk result (λ form. shown form ≡ form_of_text text.now) }
{
    if hex_text::has_other_columns(text) {
        Ok(InputForm::Unread(FormFault::OtherColumns))
    } else if hex_text::is_in_columns(text) && layouts::are_some_left_out(text) {
        Ok(laid_out(layouts::columns_octets(alloc, text)?, text))
    } else {
        symbols_form(alloc, text)
    }
}

// The form of text that has these octets in another layout, if it has any.
fn laid_out(octets: Option<Vec<u8>>, text: &[u8]) -> InputForm
    ensures { shown result ≡ unknown_text }
{
    match octets {
        Some(octets) => InputForm::LaidOut(octets),
        None => InputForm::Unread(fault_in_text(text)),
    }
}

// The form of text without lines left out.
fn symbols_form(alloc: Global, text: &[u8]) -> Result<InputForm, AllocError>
    ensures { IfOk result (λ form. shown form ≡ of_symbols text.now) }
{
    match hex_text::spelling_in(alloc, text)? {
        Spelling::Octets(octets) => Ok(InputForm::Spelled(octets)),
        Spelling::Odd => Ok(InputForm::Unread(FormFault::OddDigits)),
        Spelling::Nothing if layouts::has_value(text) => {
            Ok(laid_out(layouts::source_octets(alloc, text)?, text))
        }
        Spelling::Nothing => base64_form(alloc, text),
    }
}

fn base64_form(alloc: Global, text: &[u8]) -> Result<InputForm, AllocError>
    ensures { IfOk result (λ form. shown form
        ≡ of_base64 (result_ok (decode_base64 standard (without_spaces text.now))) (without_spaces text.now)) }
{
    match octets_in(alloc, text)? {
        Ok(octets) if octets.starts_with(&[0x30]) => Ok(InputForm::Spelled(octets)),
        Ok(_) => Ok(InputForm::Unread(fault_in_text(text))),
        Err(symbols) => loose_base64_form(alloc, &symbols, text),
    }
}

// The form of text with these symbols: base64 without its padding, or base64url.
fn loose_base64_form(alloc: Global, symbols: &[u8], text: &[u8]) -> Result<InputForm, AllocError>
    ensures { IfOk result (λ form. shown form ≡ of_loose_base64 symbols.now) }
{
    if let Ok(octets) = decode(alloc, &STANDARD_PAD_INDIFFERENT, symbols)?
        && is_sequence(&octets)
    {
        return Ok(InputForm::Spelled(octets));
    }
    if let Ok(octets) = decode(alloc, &URL_SAFE_PAD_INDIFFERENT, symbols)?
        && is_sequence(&octets)
    {
        return Ok(InputForm::Spelled(octets));
    }
    Ok(InputForm::Unread(fault_in_text(text)))
}

// Whether the octets are one SEQUENCE, to their end.
fn is_sequence(octets: &[u8]) -> bool
    ensures { result ≡ is_sequence octets.now }
{
    match octets {
        [0x30, length @ ..] => length_fits(length),
        _ => false,
    }
}

fn length_fits(octets: &[u8]) -> bool
    ensures { result ≡ length_fits octets.now }
{
    let [n, rest @ ..] = octets else {
        return false;
    };
    match *n {
        0x81..=0xFE => number_fits(usize::from(*n - 0x80), rest),
        n => n < 0x80 && usize::from(n) == rest.len(),
    }
}

// Whether so many octets are a number, which may be padded, and as many octets follow as it says.
fn number_fits(count: usize, octets: &[u8]) -> bool
    ensures { result ≡ number_fits count octets.now }
{
    let Some((digits, rest)) = octets.split_at_checked(count) else {
        return false;
    };
    let mut number = 0u128;
    for digit in digits {
        number = 256 * number + u128::from(*digit);
        if number > rest.len() as u128 {
            return false;
        }
    }
    number == rest.len() as u128
}

fn is_printed_text(text: &[u8]) -> bool
    ensures { result ≡ all_of_some is_printed text.now }
{
    !text.is_empty() && are_printed(text)
}

fn are_printed(text: &[u8]) -> bool
    ensures { result ≡ list_all is_printed text.now }
{
    text.iter()
        .all(|b| (b' '..=b'~').contains(b) || b.is_ascii_whitespace())
}

// Whether the octets are words in UTF-8.
fn are_words(octets: &[u8]) -> bool
    ensures { result ≡ are_words octets.now }
{
    are_all_in_words(octets) && str::from_utf8(octets).is_ok()
}

fn are_all_in_words(octets: &[u8]) -> bool
    ensures { result ≡ all_of_some is_in_words octets.now }
{
    !octets.is_empty() && are_in_words(octets)
}

fn are_in_words(octets: &[u8]) -> bool
    ensures { result ≡ list_all is_in_words octets.now }
{
    octets.iter().all(|b| may_be_in_words(*b))
}

// Whether the octet may be in words: a form feed is the identifier octet of a UTF8String.
fn may_be_in_words(b: u8) -> bool
    ensures { result ≡ is_in_words b }
{
    (b >= b' ' && b != 0x7F) || (b.is_ascii_whitespace() && b != 0x0C)
}

/// The octets of an input's document: its own, those it spells, or those of its first PEM object if that has its own
/// END line. A source of C, and columns with lines left out, have none here.
///
/// # Errors
/// `OutOfMemory`, and why there is no document.
pub fn document_of(alloc: Global, input: Vec<u8>) -> Result<Vec<u8>, FormFault>
    ensures octets { IfOk result (λ octets. document_is input.items ≡ Some octets.items) }
    ensures fault { IfErr result (λ e. (e ≡ OutOfMemory) ⊎ (document_is input.items ≡ None)) }
{
    let text = text_of(alloc, input)?;
    let form = form_of(alloc, &text)?;
    Ok(document_in(alloc, form, text)?.octets)
}

/// A document of an input.
#[derive(Debug, Drop)]
pub struct LabelledDocument {
    /// The label of its PEM object, if it is one.
    pub label: Option<Vec<u8>>,
    pub octets: Vec<u8>,
}

/// The document whose octets [`document_of`] returns, with its label; or that of a source of C, or of columns with
/// lines left out.
///
/// # Errors
/// Those of `document_of`.
pub fn labelled_document_of(alloc: Global, input: Vec<u8>) -> Result<LabelledDocument, FormFault>
    ensures octets { IfOk result (λ document. IsReadAs input.items document.octets.items) }
    ensures fault { IfErr result (λ e. (e ≡ OutOfMemory) ⊎ (document_is input.items ≡ None)) }
{
    let text = text_of(alloc, input)?;
    match form_of(alloc, &text)? {
        InputForm::LaidOut(octets) => Ok(LabelledDocument {
            label: None,
            octets,
        }),
        form => document_in(alloc, form, text),
    }
}

// The document of a text in the form.
fn document_in(alloc: Global, form: InputForm, text: Vec<u8>) -> Result<LabelledDocument, FormFault>
    ensures octets { IfOk result (λ document.
        document_in_form (shown form) text.items ≡ Some document.octets.items) }
    ensures fault { IfErr result (λ e. (e ≡ OutOfMemory) ⊎ (document_in_form (shown form) text.items ≡ None)) }
{
    let octets = match form {
        InputForm::Pem => return first_object(alloc, &text),
        InputForm::Spelled(octets) => octets,
        InputForm::LaidOut(_) => return Err(FormFault::LaidOut),
        InputForm::Unread(fault) => return Err(fault),
        InputForm::Der => text,
    };
    Ok(LabelledDocument {
        label: None,
        octets,
    })
}

fn first_object(alloc: Global, input: &[u8]) -> Result<LabelledDocument, FormFault>
    ensures octets { IfOk result (λ document. first_of (objects_of input.now) ≡ Some document.octets.items) }
    ensures fault { IfErr result (λ e. (e ≡ OutOfMemory) ⊎ (first_of (objects_of input.now) ≡ None)) }
{
    let Some(object) = Objects::of(alloc, input).next() else {
        return Err(FormFault::Text(1));
    };
    let object = object?;
    let octets = object.octets?;
    if let Some((line, how)) = object.bad_end {
        return Err(FormFault::BadEnd(line, how));
    }
    Ok(LabelledDocument {
        label: Some(Vec::from_slice(alloc, object.label)?),
        octets,
    })
}
