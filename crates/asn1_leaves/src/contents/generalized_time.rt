// Contents octets of a GeneralizedTime: YYYYMMDDhhmmss, perhaps a fraction of a second, and Z (X.690 8.25, 11.7).
ghost use Rattle.std.specs.Prelude.{◌≡◌, ◌==◌, ◌↔◌, ℕ, ◌+◌, ◌<◌, ◌≤◌, true, false, List, length, take, string_bytes, None, Some, IfErr, IfNone, IfOk, IfSome, IsTrue, OnOk};
ghost use Rattle.std.specs.Char.{is_ascii, is_ascii_digit};
ghost use Rattle.std.specs.List.{list_all, list_any};
ghost use Rattle.asn1_leaves.specs.Contents.GeneralizedTime.{GeneralizedTimeContents, GeneralizedTimeFault, IsEnd, IsFaithfulGeneralizedTime, fraction_digits, fraction_number, generalized_time_contents, generalized_time_fault, tenth, to_second, with_point, with_zeros, written_fraction};
ghost use Rattle.asn1_leaves.specs.Inner.DigitFields.{FollowsPoint, IsFractionOf};
ghost use Rattle.asn1_leaves.specs.Contents.Moment.{Moment, moment_of, moment_write_fault};
ghost use Rattle.asn1_headers.specs.Fault.{OutOfMemoryOr, fault_of};

use crate::contents::moment::{check_year, moment_from, nanosecond, pair};
use asn1_headers::error::{ASN1DecodeErr, ASN1EncodeErr};
use asn1_numbers::sink::Sink;
use jiff::civil::DateTime;
use std::alloc::{AllocError, Global};

// What the first digit of a fraction of a second counts in nanoseconds.
const TENTH: u32 = 100_000_000;

// The moment that the contents octets mean.
#[inline(always)]
pub fn read(alloc: Global, contents: &[u8]) -> Result<DateTime, ASN1DecodeErr>
    ensures found { IfOk result (λ d. GeneralizedTimeContents (moment_of d) contents.now) }
    ensures refused { IfErr result (OutOfMemoryOr (GeneralizedTimeFault contents.now)) }
{
    match moment(contents) {
        Some(d) => Ok(d),
        None => Err(fault(alloc, contents)?),
    }
}

// Whether the contents octets mean a moment.
#[inline(always)]
pub fn are_clearly_meant(contents: &[u8]) -> bool
    ensures { IsTrue result → (m : Moment) × GeneralizedTimeContents m contents.now }
{
    moment(contents).is_some()
}

#[inline(never)]
pub fn moment(contents: &[u8]) -> Option<DateTime>
    ensures found { IfSome result (λ d. GeneralizedTimeContents (moment_of d) contents.now) }
    ensures none { IfNone result ((m : Moment) → GeneralizedTimeContents m contents.now → ⊥) }
{
    if contents.len() < 15 {
        return None;
    }
    let (second, end) = contents.split_at(14);
    let nanosecond = fraction(end)?;
    let high = pair(second[0], second[1])? as u16;
    let low = pair(second[2], second[3])? as u16;
    moment_from(high * 100 + low, &second[4..14], nanosecond)
}

// The nanoseconds of a fraction, which Z ends.
fn fraction(end: &[u8]) -> Option<u32>
    ensures found { IfSome result (λ n. IsFractionOf end.now n) }
    ensures small { IfSome result (λ n. n < 1000000000) }
    ensures none { IfNone result ((digits : List ℕ) → IsEnd digits end.now → ⊥) }
{
    let (last, front) = end.split_last()?;
    if *last != b'Z' {
        return None;
    }
    nanoseconds(after_point(front))
}

// What follows the point, if the text begins with one.
fn after_point(text: &[u8]) -> &[u8]
    ensures { FollowsPoint text.now result.now }
{
    if let Some((first, rest)) = text.split_first() {
        if *first == b'.' {
            return rest;
        }
    }
    text
}

// The nanoseconds of the digits of a fraction.
fn nanoseconds(digits: &[u8]) -> Option<u32>
    ensures digits { IfSome result (λ n. list_all is_ascii_digit digits.now ≡ true) }
    ensures found { IfSome result (λ n. n ≡ fraction_number tenth digits.now) }
    ensures small { IfSome result (λ n. n < 1000000000) }
    ensures none { IfNone result (list_all is_ascii_digit digits.now ≡ false) }
{
    let mut nanoseconds = 0;
    let mut unit = TENTH;
    for digit in digits {
        if !digit.is_ascii_digit() {
            return None;
        }
        nanoseconds += (*digit - b'0') as u32 * unit;
        unit /= 10;
    }
    Some(nanoseconds)
}

// Why the contents octets mean no moment.
#[cold]
#[inline(never)]
fn fault(alloc: Global, contents: &[u8]) -> Result<ASN1DecodeErr, AllocError>
    ensures { IfOk result (λ e. fault_of e ≡ generalized_time_fault contents.now) }
{
    if contents.len() < 15 {
        let size = format!(in alloc; "{}", contents.len())?;
        return Ok(ASN1DecodeErr::InvalidDateValue(size));
    }
    let text = match str::from_utf8(contents) {
        Ok(text) => text,
        Err(e) => return Ok(ASN1DecodeErr::UTF8DecodeFailure(e)),
    };
    if !are_ascii(contents) {
        return Ok(ASN1DecodeErr::InvalidDateValue(String::from_str(alloc, text)?));
    }
    Ok(ASN1DecodeErr::InvalidDateValue(longer_form(alloc, contents)?))
}

fn are_ascii(octets: &[u8]) -> bool
    ensures { result ≡ list_all is_ascii octets.now }
{
    octets.iter().all(|b| b.is_ascii())
}

// The text that a fault shows: with a point, and in 25 characters.
fn longer_form(alloc: Global, text: &[u8]) -> Result<String, AllocError>
    requires long { 15 ≤ length text.now }
    requires ascii { list_all is_ascii text.now ≡ true }
    ensures { IfOk result (λ s. string_bytes s ≡ with_zeros (with_point text.now)) }
{
    let pointed = pointed(alloc, text)?;
    let padded = padded(alloc, &pointed)?;
    match String::from_utf8(padded) {
        Ok(text) => Ok(text),
        Err(_) => unreachable!(),
    }
}

// The text with a point after its fourteenth character, unless it has one.
fn pointed(alloc: Global, text: &[u8]) -> Result<Vec<u8>, AllocError>
    requires { 15 ≤ length text.now }
    ensures { IfOk result (λ v. v.items ≡ with_point text.now) }
{
    let mut pointed = Vec::with_capacity(alloc, text.len())?;
    if has_point(text) {
        pointed.extend_from_slice(text)?;
        return Ok(pointed);
    }
    let (front, rest) = text.split_at(14);
    pointed.extend_from_slice(front)?;
    pointed.push(b'.')?;
    pointed.extend_from_slice(rest)?;
    Ok(pointed)
}

fn has_point(text: &[u8]) -> bool
    ensures { result ≡ list_any (λ c. c == 46) text.now }
{
    text.iter().any(|c| *c == b'.')
}

// The text with zeros before its last character, until it has 25.
fn padded(alloc: Global, text: &[u8]) -> Result<Vec<u8>, AllocError>
    requires { 15 ≤ length text.now }
    ensures { IfOk result (λ v. v.items ≡ with_zeros text.now) }
{
    let (front, last) = text.split_at(text.len() - 1);
    let zeros = 25 - text.len().min(25);
    let mut padded = Vec::new(alloc);
    padded.extend_from_slice(front)?;
    padded.resize(front.len() + zeros, b'0')?;
    padded.extend_from_slice(last)?;
    Ok(padded)
}

// The digits of a fraction, and how many of them there are up to the last that is not 0.
fn fraction_octets(nanosecond: u32) -> ([u8; 9], usize)
    requires { nanosecond < 1000000000 }
    ensures count { result.1 ≡ length (fraction_digits 9 tenth nanosecond) }
    ensures digits { take result.1 result.0 ≡ fraction_digits 9 tenth nanosecond }
{
    let mut digits = [b'0'; 9];
    let mut left = nanosecond;
    let mut unit = TENTH;
    for count in 0..9 {
        if left == 0 {
            return (digits, count);
        }
        digits[count] = b'0' + (left / unit) as u8;
        left %= unit;
        unit /= 10;
    }
    (digits, 9)
}

// The size of the contents octets that are written.
pub fn size(d: &DateTime) -> Result<usize, ASN1EncodeErr>
    ensures size { IfOk result (λ n. n ≡ length (generalized_time_contents (moment_of d.now))) }
    ensures writable { OnOk result (moment_write_fault (moment_of d.now) ≡ None) }
    ensures refused { IfErr result (λ e. moment_write_fault (moment_of d.now) ≡ Some e) }
{
    check_year(d)?;
    Ok(15 + fraction_size(nanosecond(d)))
}

fn fraction_size(nanosecond: u32) -> usize
    requires { nanosecond < 1000000000 }
    ensures size { result ≡ length (written_fraction nanosecond) }
    ensures small { result ≤ 10 }
{
    if nanosecond == 0 {
        return 0;
    }
    1 + fraction_octets(nanosecond).1
}

// Puts the contents octets.
pub fn push<S: Sink>(d: &DateTime, out: &mut S)
    requires room { length (generalized_time_contents (moment_of d.now)) ≤ S.room out.old }
    requires writable { moment_write_fault (moment_of d.now) ≡ None }
    ensures { S.pushes out.old (generalized_time_contents (moment_of d.now)) out.new }
{
    out.push_octets(&second_octets(d));
    push_fraction(nanosecond(d), out);
    out.push_octet(b'Z');
}

// Puts the fraction, if there is one.
fn push_fraction<S: Sink>(nanosecond: u32, out: &mut S)
    requires small { nanosecond < 1000000000 }
    requires room { length (written_fraction nanosecond) ≤ S.room out.old }
    ensures { S.pushes out.old (written_fraction nanosecond) out.new }
{
    if nanosecond == 0 {
        return;
    }
    let (digits, count) = fraction_octets(nanosecond);
    out.push_octet(b'.');
    out.push_octets(&digits[..count]);
}

fn second_octets(d: &DateTime) -> [u8; 14]
    requires { moment_write_fault (moment_of d.now) ≡ None }
    ensures { result ≡ to_second (moment_of d.now) }
{
    let year = d.year().unsigned_abs();
    let high = (year / 100) as u8;
    let low = (year % 100) as u8;
    let month = d.month() as u8;
    let day = d.day() as u8;
    let hour = d.hour() as u8;
    let minute = d.minute() as u8;
    let second = d.second() as u8;
    [
        b'0' + high / 10,
        b'0' + high % 10,
        b'0' + low / 10,
        b'0' + low % 10,
        b'0' + month / 10,
        b'0' + month % 10,
        b'0' + day / 10,
        b'0' + day % 10,
        b'0' + hour / 10,
        b'0' + hour % 10,
        b'0' + minute / 10,
        b'0' + minute % 10,
        b'0' + second / 10,
        b'0' + second % 10,
    ]
}

// Whether the moment survives being written and read.
pub fn is_faithful(d: &DateTime) -> bool
    ensures { IsTrue result ↔ IsFaithfulGeneralizedTime (moment_of d.now) }
{
    d.year() >= 0
}

// Whether contents octets that mean a moment are those that are written of it: 15 without a fraction, or up to 25 with
// one of nine digits at most, which a point begins and no 0 ends (X.690 11.7). No digit is read for this.
#[inline(always)]
pub fn are_clearly_canonical(contents: &[u8]) -> bool
    ensures { IsTrue result → (m : Moment) → GeneralizedTimeContents m contents.now
        → contents.now ≡ generalized_time_contents m }
{
    let size = contents.len();
    if size == 15 {
        return true;
    }
    if size < 17 || size > 25 {
        return false;
    }
    contents[14] == b'.' && contents[size - 2] != b'0'
}
