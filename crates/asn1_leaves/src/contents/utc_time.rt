// Contents octets of a UTCTime: YYMMDDhhmmssZ, of the years 1950 to 2049 (X.690 8.25, 11.8).
ghost use Rattle.std.specs.Prelude.{◌≡◌, ◌↔◌, ◌+◌, ◌%◌, ◌++◌, ◌<◌, ◌≤◌, length, string_bytes, None, Some, IfErr, IfNone, IfOk, IfSome, IsTrue, OnOk, encode_utf8_all};
ghost use Rattle.asn1_leaves.specs.Contents.Moment.{Moment, moment_of, moment_write_fault};
ghost use Rattle.asn1_leaves.specs.Contents.UtcTime.{IsFaithfulUtcTime, UtcTimeContents, UtcTimeFault, century_shown, utc_time_contents, utc_time_fault};
ghost use Rattle.asn1_headers.specs.Fault.{OutOfMemoryOr, fault_of};

use crate::contents::moment::{are_fields_of_each_year, check_year, moment_from, nanosecond, pair};
use asn1_headers::error::{ASN1DecodeErr, ASN1EncodeErr};
use asn1_numbers::sink::Sink;
use jiff::civil::DateTime;
use std::alloc::{AllocError, Global};

// The moment that the contents octets mean.
#[inline(always)]
pub fn read(alloc: Global, contents: &[u8]) -> Result<DateTime, ASN1DecodeErr>
    ensures found { IfOk result (λ d. UtcTimeContents (moment_of d) contents.now) }
    ensures refused { IfErr result (OutOfMemoryOr (UtcTimeFault contents.now)) }
{
    match moment(contents) {
        Some(d) => Ok(d),
        None => Err(fault(alloc, contents)?),
    }
}

// Whether the contents octets mean a moment. A day that each month has is seen by its digits.
#[inline(never)]
pub fn are_clearly_meant(contents: &[u8]) -> bool
    ensures { IsTrue result → (m : Moment) × UtcTimeContents m contents.now }
{
    are_common(contents) || moment(contents).is_some()
}

// Whether the contents octets mean a moment of a day that each month has.
#[inline(always)]
fn are_common(contents: &[u8]) -> bool
    ensures { IsTrue result → (m : Moment) × UtcTimeContents m contents.now }
{
    if contents.len() != 13 || contents[12] != b'Z' {
        return false;
    }
    if !contents[0].is_ascii_digit() || !contents[1].is_ascii_digit() {
        return false;
    }
    are_fields_of_each_year(&contents[2..12])
}

// The moment that the contents octets mean, if they mean one.
#[inline(never)]
pub fn moment(contents: &[u8]) -> Option<DateTime>
    ensures found { IfSome result (λ d. UtcTimeContents (moment_of d) contents.now) }
    ensures none { IfNone result ((m : Moment) → UtcTimeContents m contents.now → ⊥) }
{
    if contents.len() != 13 || contents[12] != b'Z' {
        return None;
    }
    let year = full_year(pair(contents[0], contents[1])?);
    moment_from(year, &contents[2..12], 0)
}

// The year of 1950 to 2049 that ends in these two digits.
fn full_year(short: u8) -> u16
    requires { short < 100 }
    ensures range { (1950 ≤ result) × (result ≤ 2049) }
    ensures ends { result % 100 ≡ short }
{
    if short < 50 {
        2000 + short as u16
    } else {
        1900 + short as u16
    }
}

// Why the contents octets mean no moment.
#[cold]
#[inline(never)]
fn fault(alloc: Global, contents: &[u8]) -> Result<ASN1DecodeErr, AllocError>
    ensures { IfOk result (λ e. fault_of e ≡ utc_time_fault contents.now) }
{
    if contents.len() != 13 {
        let size = format!(in alloc; "{}", contents.len())?;
        return Ok(ASN1DecodeErr::InvalidDateValue(size));
    }
    let text = shown(alloc, century(contents[0], contents[1]), contents)?;
    Ok(ASN1DecodeErr::InvalidDateValue(text))
}

// The century that a text which begins with these octets is shown with.
fn century(a: u8, b: u8) -> &'static str
    ensures { result.now ≡ century_shown a b }
{
    let begins = a.is_ascii_digit() || a == b'+';
    if !begins || !b.is_ascii_digit() {
        return "";
    }
    if a < b'5' { "20" } else { "19" }
}

// A text, and after it the characters with the numbers of the octets.
fn shown(alloc: Global, front: &str, octets: &[u8]) -> Result<String, AllocError>
    ensures { IfOk result (λ s. string_bytes s ≡ front.now ++ encode_utf8_all octets.now) }
{
    let mut text = String::from_str(alloc, front)?;
    for b in octets {
        text.push(char::from(*b))?;
    }
    Ok(text)
}

// The size of the contents octets that are written.
pub fn size(d: &DateTime) -> Result<usize, ASN1EncodeErr>
    ensures size { IfOk result (λ n. n ≡ length (utc_time_contents (moment_of d.now))) }
    ensures writable { OnOk result (moment_write_fault (moment_of d.now) ≡ None) }
    ensures refused { IfErr result (λ e. moment_write_fault (moment_of d.now) ≡ Some e) }
{
    check_year(d)?;
    Ok(13)
}

// Puts the contents octets.
pub fn push<S: Sink>(d: &DateTime, out: &mut S)
    requires room { length (utc_time_contents (moment_of d.now)) ≤ S.room out.old }
    requires writable { moment_write_fault (moment_of d.now) ≡ None }
    ensures { S.pushes out.old (utc_time_contents (moment_of d.now)) out.new }
{
    out.push_octets(&octets(d));
}

fn octets(d: &DateTime) -> [u8; 13]
    ensures { result ≡ utc_time_contents (moment_of d.now) }
{
    let year = (d.year().unsigned_abs() % 100) as u8;
    let month = d.month() as u8;
    let day = d.day() as u8;
    let hour = d.hour() as u8;
    let minute = d.minute() as u8;
    let second = d.second() as u8;
    [
        b'0' + year / 10,
        b'0' + year % 10,
        b'0' + month / 10,
        b'0' + month % 10,
        b'0' + day / 10,
        b'0' + day % 10,
        b'0' + hour / 10,
        b'0' + hour % 10,
        b'0' + minute / 10,
        b'0' + minute % 10,
        b'0' + second / 10,
        b'0' + second % 10,
        b'Z',
    ]
}

// Whether the moment survives being written and read.
pub fn is_faithful(d: &DateTime) -> bool
    ensures { IsTrue result ↔ IsFaithfulUtcTime (moment_of d.now) }
{
    d.year() >= 1950 && d.year() <= 2049 && nanosecond(d) == 0
}
