// What the two kinds of times share: digits, the fields from the month on, and texts of faults.
ghost use Rattle.std.specs.Prelude.{◌≡◌, ℕ, ◌≤◌, ◌<◌, length, IfErr, IfSome, IfNone, IsTrue, OnOk, None, Some};
ghost use Rattle.std.specs.Int.{IsInRange};
ghost use Rattle.asn1_leaves.specs.Inner.DigitFields.{HasFields, IsPair, IsSpelled, pair_number};
ghost use Rattle.asn1_leaves.specs.Contents.Moment.{IsValid, Moment, moment_of, moment_write_fault};

use asn1_headers::error::ASN1EncodeErr;
use jiff::civil::DateTime;

// The number of two digits.
#[inline(always)]
pub fn pair(a: u8, b: u8) -> Option<u8>
    ensures found { IfSome result (IsPair a b) }
    ensures none { IfNone result ((n : ℕ) → IsPair a b n → ⊥) }
{
    if !a.is_ascii_digit() || !b.is_ascii_digit() {
        return None;
    }
    Some((a - b'0') * 10 + (b - b'0'))
}

// The moment of these fields, if it is valid.
#[inline(always)]
fn valid_moment(
    year: u16,
    month: u8,
    day: u8,
    hour: u8,
    minute: u8,
    second: u8,
    nanosecond: u32,
) -> Option<DateTime>
    requires year { year ≤ 9999 }
    requires pairs { (month < 100) × (day < 100) × (hour < 100) × (minute < 100) × (second < 100) }
    requires nanosecond { nanosecond < 1000000000 }
    ensures found { IfSome result (λ d.
        HasFields year month day hour minute second nanosecond (moment_of d)) }
    ensures valid { IfSome result (λ d. IsValid (moment_of d)) }
    ensures none { IfNone result ((m : Moment) →
        HasFields year month day hour minute second nanosecond m → IsValid m → ⊥) }
{
    DateTime::new(
        year as i16,
        month as i8,
        day as i8,
        hour as i8,
        minute as i8,
        second as i8,
        nanosecond as i32,
    )
    .ok()
}

// The moment of this year and fraction with the fields that ten octets spell, MMDDhhmmss.
#[inline(always)]
pub fn moment_from(year: u16, octets: &[u8], nanosecond: u32) -> Option<DateTime>
    requires year { year ≤ 9999 }
    requires octets { length octets.now ≡ 10 }
    requires nanosecond { nanosecond < 1000000000 }
    ensures found { IfSome result (λ d. IsSpelled year octets.now nanosecond (moment_of d)) }
    ensures none { IfNone result ((m : Moment) → IsSpelled year octets.now nanosecond m → ⊥) }
{
    let month = pair(octets[0], octets[1])?;
    let day = pair(octets[2], octets[3])?;
    let hour = pair(octets[4], octets[5])?;
    let minute = pair(octets[6], octets[7])?;
    let second = pair(octets[8], octets[9])?;
    valid_moment(year, month, day, hour, minute, second, nanosecond)
}

// Whether two octets are the digits of a month.
#[inline(always)]
fn are_month(a: u8, b: u8) -> bool
    ensures { IsTrue result → IsPair a b (pair_number a b) × IsInRange 1 12 (pair_number a b) }
{
    if a == b'0' {
        return b'1' <= b && b <= b'9';
    }
    a == b'1' && b'0' <= b && b <= b'2'
}

// Whether two octets are the digits of a day that each month has.
#[inline(always)]
fn are_day_of_each_month(a: u8, b: u8) -> bool
    ensures { IsTrue result → IsPair a b (pair_number a b) × IsInRange 1 28 (pair_number a b) }
{
    if a == b'2' {
        return b'0' <= b && b <= b'8';
    }
    if a == b'0' {
        return b'1' <= b && b <= b'9';
    }
    a == b'1' && b.is_ascii_digit()
}

// Whether two octets are the digits of an hour.
#[inline(always)]
fn are_hour(a: u8, b: u8) -> bool
    ensures { IsTrue result → IsPair a b (pair_number a b) × (pair_number a b < 24) }
{
    if a == b'2' {
        return b'0' <= b && b <= b'3';
    }
    b'0' <= a && a <= b'1' && b.is_ascii_digit()
}

// Whether two octets are the digits of a minute or a second.
#[inline(always)]
fn are_below_sixty(a: u8, b: u8) -> bool
    ensures { IsTrue result → IsPair a b (pair_number a b) × (pair_number a b < 60) }
{
    b'0' <= a && a <= b'5' && b.is_ascii_digit()
}

// Whether ten octets spell fields that each year has, MMDDhhmmss. No number is made for this.
#[inline(always)]
pub fn are_fields_of_each_year(octets: &[u8]) -> bool
    requires { length octets.now ≡ 10 }
    ensures { IsTrue result → (year : ℕ) → year ≤ 9999 → (m : Moment) × IsSpelled year octets.now 0 m }
{
    if !are_month(octets[0], octets[1]) {
        return false;
    }
    if !are_day_of_each_month(octets[2], octets[3]) {
        return false;
    }
    if !are_hour(octets[4], octets[5]) {
        return false;
    }
    if !are_below_sixty(octets[6], octets[7]) {
        return false;
    }
    are_below_sixty(octets[8], octets[9])
}

// Whether a moment can be written.
pub fn check_year(d: &DateTime) -> Result<(), ASN1EncodeErr>
    ensures writable { OnOk result (moment_write_fault (moment_of d.now) ≡ None) }
    ensures refused { IfErr result (λ e. moment_write_fault (moment_of d.now) ≡ Some e) }
{
    if d.year() < 0 {
        return Err(ASN1EncodeErr::YearOutOfRange);
    }
    Ok(())
}

// The nanoseconds of the second.
pub fn nanosecond(d: &DateTime) -> u32
    ensures { result ≡ d.now.time.subsec_nanosecond }
{
    d.subsec_nanosecond().unsigned_abs()
}
