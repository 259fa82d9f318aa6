// Times as data, and the text of moments, with each digit of their fraction.
ghost use Rattle.std.specs.Prelude.{◌≡◌, ◌++◌, IfOk, OnOk, string_bytes};
ghost use Rattle.asn1_leaves.specs.Contents.Moment.{moment_of};
ghost use Rattle.dump_values.specs.Times.{AreFractionOf, IsMomentText, fraction_text, whole_second as whole_second_is};

use jiff::civil::DateTime;
use std::alloc::{AllocError, Global};
use std::str;

// How many octets of a GeneralizedTime are before its fraction: YYYYMMDDhhmmss.
const TO_SECOND: usize = 14;

/// The value of a UTCTime or a GeneralizedTime.
#[derive(Debug, Drop)]
pub struct Time {
    /// Its text as ISO 8601 writes it, with each digit of its fraction: `2026-11-23T00:43:05.5Z`.
    pub text: String,
    /// The date and the time of day, to the second. What is left out is 0.
    pub moment: DateTime,
    /// How many seconds the time of day is ahead of Coordinated Universal Time. `None` of local time.
    pub ahead: Option<i64>,
}

// The time at a moment of Coordinated Universal Time, with these digits of a fraction of its second: a `DateTime` has
// nine digits at most.
pub fn time_at(alloc: Global, moment: DateTime, digits: &str) -> Result<Time, AllocError>
    ensures { IfOk result (λ time. IsMomentText (moment_of moment) digits.now (string_bytes time.text)) }
{
    let whole = whole_second(&moment);
    let mut text = format!(in alloc; "{whole}")?;
    push_fraction(&mut text, digits)?;
    text.push('Z')?;
    Ok(Time {
        text,
        moment,
        ahead: Some(0),
    })
}

fn whole_second(moment: &DateTime) -> DateTime
    ensures { moment_of result ≡ whole_second_is (moment_of moment.now) }
{
    let mut whole = moment.to_plain();
    whole.time.subsec_nanosecond = 0;
    DateTime::from_plain(whole)
}

// Puts the digits of a fraction at the end, behind their point, if there are any.
pub fn push_fraction(text: &mut String, digits: &str) -> Result<(), AllocError>
    ensures { OnOk result (string_bytes text.new ≡ string_bytes text.old ++ fraction_text digits.now) }
{
    if digits.is_empty() {
        return Ok(());
    }
    text.push_str(".")?;
    text.push_str(digits)
}

// The digits of the fraction of a GeneralizedTime, of its contents octets: nothing, if it has none.
pub fn fraction_digits(contents: &[u8]) -> &str
    ensures { AreFractionOf contents.now result.now }
{
    match str::from_utf8(fraction_octets(contents)) {
        Ok(digits) => digits,
        Err(_) => "",
    }
}

fn fraction_octets(contents: &[u8]) -> &[u8]
    ensures { AreFractionOf contents.now result.now }
{
    match contents.get(TO_SECOND..) {
        Some([b'.', digits @ .., _] | [digits @ .., _]) => digits,
        _ => &[],
    }
}
