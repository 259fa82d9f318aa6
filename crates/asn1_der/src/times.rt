// Contents octets of the types of X.680 38, and of a GeneralizedTime.
ghost use Rattle.std.specs.Prelude.{◌≡◌, ◌↔◌, [], IsTrue, codes, drop, take};
ghost use Rattle.asn1_der.specs.Times.{IsDate, IsDateTime, IsGeneralizedTime, IsLeapSecond, IsMoment, IsUtcTime, IsWithinMoment, are_neighbours as are_neighbours_is, are_times as are_times_is, behind_days as behind_days_is, behind_designator as behind_designator_is, behind_seconds as behind_seconds_is, behind_unit as behind_unit_is, is_clock_time as is_clock_time_is, is_duration as is_duration_is, is_end_of_day as is_end_of_day_is, is_end_of_time as is_end_of_time_is, is_hour as is_hour_is, is_last_fraction as is_last_fraction_is, is_minute as is_minute_is, is_one_of, is_only as is_only_is, is_recurring as is_recurring_is, is_second as is_second_is, is_second_60 as is_second_60_is, is_time as is_time_is, is_time_of_day as is_time_of_day_is, may_end as may_end_is, may_follow as may_follow_is};

use crate::order::is_not_greater;
use crate::padding::has_padded_fraction;
use crate::real::{are_digits, behind_digits, digit_count};
use asn1_leaves::contents::{generalized_time, utc_time};

// The first year of the setting Year=Basic.
const FIRST_YEAR: &[u8] = b"1582";

#[inline(never)]
pub fn is_utc_time(contents: &[u8]) -> bool
    ensures { IsTrue result ↔ IsUtcTime contents.now }
{
    utc_time::moment(contents).is_some()
}

fn is_moment(contents: &[u8]) -> bool
    ensures { IsTrue result ↔ IsMoment contents.now }
{
    match generalized_time::moment(contents) {
        Some(_) => true,
        None => false,
    }
}

#[inline(never)]
pub fn is_generalized_time(contents: &[u8]) -> bool
    ensures { IsTrue result ↔ IsGeneralizedTime contents.now }
{
    (is_moment(contents) || is_leap_second(contents)) && !has_padded_fraction(contents)
}

// Whether YYYYMMDDhhmm60 are the end of a minute that exists, perhaps with a fraction, and Z.
#[tactic(auto, unfolding(crate::specs::Times::IsLeapSecond))]
fn is_leap_second(contents: &[u8]) -> bool
    ensures { IsTrue result ↔ IsLeapSecond contents.now }
{
    let (minute, second) = parted_at(12, contents);
    is_second_60(second) && is_whole_minute(minute)
}

// Whether YYYYMMDDhhmm are a minute.
fn is_whole_minute(octets: &[u8]) -> bool
    ensures { IsTrue result ↔ IsWithinMoment 12 [] octets.now (codes "59Z") }
{
    match octets {
        [a, b, c, d, e, f, g, h, i, j, k, l] => is_moment(&[
            *a, *b, *c, *d, *e, *f, *g, *h, *i, *j, *k, *l, b'5', b'9', b'Z',
        ]),
        _ => false,
    }
}

fn is_second_60(octets: &[u8]) -> bool
    ensures { result ≡ is_second_60_is octets.now }
{
    match octets {
        [b'6', b'0', end @ ..] => is_end_of_time(end),
        _ => false,
    }
}

// So many octets, or all, and those behind them.
fn parted_at(count: usize, octets: &[u8]) -> (&[u8], &[u8])
    ensures front { result.0.now ≡ take count octets.now }
    ensures behind { result.1.now ≡ drop count octets.now }
{
    octets.split_at(count.min(octets.len()))
}

fn is_end_of_time(octets: &[u8]) -> bool
    ensures { result ≡ is_end_of_time_is octets.now }
{
    match octets {
        [b'.', digits @ ..] => is_only(b'Z', behind_digits(digits)),
        _ => is_only(b'Z', octets),
    }
}

fn is_only(c: u8, octets: &[u8]) -> bool
    ensures { result ≡ is_only_is c octets.now }
{
    match octets {
        [octet] => *octet == c,
        _ => false,
    }
}

// Whether YYYYMMDD are a date.
#[inline(never)]
pub fn is_date(contents: &[u8]) -> bool
    ensures { IsTrue result ↔ IsDate contents.now }
{
    is_day(contents) && is_not_greater(FIRST_YEAR, contents)
}

fn is_day(contents: &[u8]) -> bool
    ensures { IsTrue result ↔ IsWithinMoment 8 [] contents.now (codes "000000Z") }
{
    match contents {
        [a, b, c, d, e, f, g, h] => is_moment(&[
            *a, *b, *c, *d, *e, *f, *g, *h, b'0', b'0', b'0', b'0', b'0', b'0', b'Z',
        ]),
        _ => false,
    }
}

// Whether hhmmss are a time of day.
#[inline(never)]
pub fn is_time_of_day(contents: &[u8]) -> bool
    ensures { result ≡ is_time_of_day_is contents.now }
{
    is_end_of_day(contents) || is_clock_time(contents)
}

#[tactic(auto, unfolding(crate::specs::Times::is_end_of_day))]
fn is_end_of_day(contents: &[u8]) -> bool
    ensures { result ≡ is_end_of_day_is contents.now }
{
    matches!(contents, [b'2', b'4', b'0', b'0', b'0', b'0'])
}

#[tactic(auto, unfolding(crate::specs::Times::is_clock_time))]
fn is_clock_time(contents: &[u8]) -> bool
    ensures { result ≡ is_clock_time_is contents.now }
{
    match contents {
        [a, b, c, _, e, f] => {
            are_digits(contents) && is_hour(*a, *b) && is_minute(*c) && is_second(*e, *f)
        }
        _ => false,
    }
}

fn is_hour(tens: u8, ones: u8) -> bool
    ensures { result ≡ is_hour_is tens ones }
{
    tens < b'2' || tens == b'2' && ones < b'4'
}

fn is_minute(tens: u8) -> bool
    ensures { result ≡ is_minute_is tens }
{
    tens < b'6'
}

fn is_second(tens: u8, ones: u8) -> bool
    ensures { result ≡ is_second_is tens ones }
{
    tens < b'6' || tens == b'6' && ones == b'0'
}

// Whether YYYYMMDDhhmmss are a date and a time of day.
#[inline(never)]
pub fn is_date_time(contents: &[u8]) -> bool
    ensures { IsTrue result ↔ IsDateTime contents.now }
{
    let (date, time) = parted_at(8, contents);
    is_date(date) && is_time_of_day(time)
}

// Whether contents octets are those of a DURATION.
#[tactic(auto, unfolding(crate::specs::Times::is_duration))]
#[inline(never)]
pub fn is_duration(contents: &[u8]) -> bool
    ensures { result ≡ is_duration_is contents.now }
{
    !contents.is_empty() && are_times(behind_days(contents))
}

fn are_times(text: &[u8]) -> bool
    ensures { result ≡ are_times_is text.now }
{
    match text {
        [] => true,
        [b'T', times @ ..] => !times.is_empty() && behind_seconds(times).is_empty(),
        _ => false,
    }
}

fn behind_days(text: &[u8]) -> &[u8]
    ensures { result.now ≡ behind_days_is text.now }
{
    let days = behind_unit(b'M', behind_unit(b'Y', text));
    behind_unit(b'D', behind_unit(b'W', days))
}

fn behind_seconds(text: &[u8]) -> &[u8]
    ensures { result.now ≡ behind_seconds_is text.now }
{
    behind_unit(b'S', behind_unit(b'M', behind_unit(b'H', text)))
}

// What follows a number with the designator, which may be left out.
#[tactic(auto, unfolding(crate::specs::Times::behind_unit))]
fn behind_unit(designator: u8, text: &[u8]) -> &[u8]
    ensures { result.now ≡ behind_unit_is designator text.now }
{
    let count = digit_count(text);
    if count == 0 {
        return text;
    }
    let (_, behind) = text.split_at(count);
    if is_last_fraction(designator, behind) {
        return &[];
    }
    behind_designator(designator, behind, text)
}

// What follows the designator in front of a text, else the other text.
fn behind_designator<'a>(designator: u8, text: &'a [u8], other: &'a [u8]) -> &'a [u8]
    ensures { result.now ≡ behind_designator_is designator text.now other.now }
{
    match text {
        [first, rest @ ..] if *first == designator => rest,
        _ => other,
    }
}

// Whether a point, digits and the designator end a text.
fn is_last_fraction(designator: u8, text: &[u8]) -> bool
    ensures { result ≡ is_last_fraction_is designator text.now }
{
    match text {
        [b'.' | b',', digits @ ..] => {
            digit_count(digits) > 0 && is_only(designator, behind_digits(digits))
        }
        _ => false,
    }
}

// Whether contents octets may be those of a TIME.
#[tactic(auto, unfolding(crate::specs::Times::is_time))]
#[inline(never)]
pub fn is_time(contents: &[u8]) -> bool
    ensures { result ≡ is_time_is contents.now }
{
    match contents {
        [] => false,
        [b'R', more @ ..] => is_recurring(behind_digits(more)),
        _ => are_neighbours(b'/', contents),
    }
}

// Whether a solidus and then an interval stand behind the R and the number of a recurring interval.
fn is_recurring(text: &[u8]) -> bool
    ensures { result ≡ is_recurring_is text.now }
{
    match text {
        [b'/', interval @ ..] => are_neighbours(b'/', interval),
        _ => false,
    }
}

// Whether each octet may stand behind the one before it.
fn are_neighbours(before: u8, text: &[u8]) -> bool
    ensures { result ≡ are_neighbours_is before text.now }
{
    let mut last = before;
    for next in text {
        if !may_follow(last, *next) {
            return false;
        }
        last = *next;
    }
    may_end(last)
}

#[tactic(auto, unfolding(crate::specs::Times::may_follow))]
fn may_follow(before: u8, next: u8) -> bool
    ensures { result ≡ may_follow_is before next }
{
    match before {
        b'0'..=b'9' => next.is_ascii_digit() || is_behind_digit(next),
        b'/' => next.is_ascii_digit() || matches!(next, b'+' | b'-' | b'P' | b'T'),
        b'-' => next.is_ascii_digit() || next == b'W',
        b'P' => next.is_ascii_digit() || next == b'T',
        b'C' | b'Z' => next == b'/',
        b'W' | b'Y' | b'M' | b'D' | b'H' | b'S' => {
            next.is_ascii_digit() || matches!(next, b'T' | b'/')
        }
        b'+' | b':' | b'.' | b',' | b'T' => next.is_ascii_digit(),
        _ => false,
    }
}

// The characters of a TIME that stand behind a digit, beside digits.
fn is_behind_digit(next: u8) -> bool
    ensures { result ≡ is_one_of (codes "+-:.,/TWYMDHSCZ") next }
{
    matches!(
        next,
        b'+' | b'-'
            | b':'
            | b'.'
            | b','
            | b'/'
            | b'T'
            | b'W'
            | b'Y'
            | b'M'
            | b'D'
            | b'H'
            | b'S'
            | b'C'
            | b'Z'
    )
}

fn may_end(last: u8) -> bool
    ensures { result ≡ may_end_is last }
{
    last.is_ascii_digit() || matches!(last, b'C' | b'Z' | b'W' | b'Y' | b'M' | b'D' | b'H' | b'S')
}
