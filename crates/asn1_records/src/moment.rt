// The moment of a UTCTime or GeneralizedTime: of that at an offset, and of one that is put.
ghost use Rattle.std.specs.Prelude.{◌≡◌, IfNone, IfSome};
ghost use Rattle.asn1_leaves.specs.Contents.GeneralizedTime.{IsFaithfulGeneralizedTime, generalized_time_contents};
ghost use Rattle.asn1_leaves.specs.Contents.Moment.{IsValid, moment_of};
ghost use Rattle.asn1_leaves.specs.Contents.UtcTime.{IsFaithfulUtcTime, utc_time_contents};
ghost use Rattle.asn1_records.specs.Puts.{AnswersPutMoment, ArePutIf, moment_in};
ghost use Rattle.asn1_records.specs.Status.{not_a_date};
ghost use Rattle.asn1_records.specs.Values.{AnswersMoment, HasMoment, no_moment};

use crate::alone::universal_at;
use crate::putting::{nothing_put, put_front};
use crate::record::{MomentAnswer, Outcome};
use crate::status::{DATE, DONE, NO_SUCH_VALUE, status_of_fault};
use arrayvec::ArrayVec;
use asn1_headers::tags::{GENERALIZED_TIME, UTC_TIME};
use asn1_leaves::contents::{generalized_time, utc_time};
use asn1_outline::value::time_of;
use jiff::civil::DateTime;
use std::alloc::Global;

fn no_moment(status: u32) -> MomentAnswer
    ensures status { result.status ≡ status }
    ensures fields { HasMoment no_moment result }
{
    MomentAnswer {
        status,
        year: 0,
        month: 0,
        day: 0,
        hour: 0,
        minute: 0,
        second: 0,
        nanosecond: 0,
    }
}

fn moment_answer(d: &DateTime) -> MomentAnswer
    ensures status { result.status ≡ 0 }
    ensures moment { HasMoment (moment_of d.now) result }
{
    MomentAnswer {
        status: DONE,
        year: d.year() as i32,
        month: d.month().unsigned_abs() as u32,
        day: d.day().unsigned_abs() as u32,
        hour: d.hour().unsigned_abs() as u32,
        minute: d.minute().unsigned_abs() as u32,
        second: d.second().unsigned_abs() as u32,
        nanosecond: d.subsec_nanosecond().unsigned_abs(),
    }
}

pub fn moment_at(alloc: Global, octets: &[u8], offset: usize) -> MomentAnswer
    ensures { AnswersMoment octets.now offset result }
{
    let (tag, contents) = match universal_at(alloc, octets, offset) {
        Ok(found) => found,
        Err(status) => return no_moment(status),
    };
    match time_of(alloc, tag, contents) {
        Ok(Some(d)) => moment_answer(&d),
        Ok(None) => no_moment(NO_SUCH_VALUE),
        Err(e) => no_moment(status_of_fault(&e)),
    }
}

// The moment of the fields, if there is such a day and time.
pub fn date_time(fields: &MomentAnswer) -> Option<DateTime>
    ensures found { IfSome result (λ d. moment_of d ≡ moment_in fields.now) }
    ensures none { IfNone result (IsValid (moment_in fields.now) → ⊥) }
{
    if fields.year < 0
        || fields.year > 9999
        || fields.month > 12
        || fields.day > 31
        || fields.hour > 23
        || fields.minute > 59
        || fields.second > 59
        || fields.nanosecond > 999_999_999
    {
        return None;
    }
    DateTime::new(
        fields.year as i16,
        fields.month as i8,
        fields.day as i8,
        fields.hour as i8,
        fields.minute as i8,
        fields.second as i8,
        fields.nanosecond as i32,
    )
    .ok()
}

// Puts the contents octets of a UTCTime.
fn put_utc_time(d: &DateTime, room: &mut [u8]) -> Outcome
    ensures { ArePutIf (IsFaithfulUtcTime (moment_of d.now)) (utc_time_contents (moment_of d.now)) not_a_date
        room.old room.new result }
{
    if !utc_time::is_faithful(d) {
        return nothing_put(DATE, 0);
    }
    let mut contents: ArrayVec<u8, 13> = ArrayVec::new();
    utc_time::push(d, &mut contents);
    put_front(contents.as_slice(), room)
}

// Puts those of a GeneralizedTime: at most 15 without a fraction, and 10 of one.
pub fn put_generalized_time(d: &DateTime, room: &mut [u8]) -> Outcome
    ensures { ArePutIf (IsFaithfulGeneralizedTime (moment_of d.now)) (generalized_time_contents (moment_of d.now))
        not_a_date room.old room.new result }
{
    if !generalized_time::is_faithful(d) {
        return nothing_put(DATE, 0);
    }
    let mut contents: ArrayVec<u8, 25> = ArrayVec::new();
    generalized_time::push(d, &mut contents);
    put_front(contents.as_slice(), room)
}

// Puts the contents octets of the time with the tag number that is the moment of the fields.
pub fn put_moment(tag: u64, fields: &MomentAnswer, room: &mut [u8]) -> Outcome
    ensures { AnswersPutMoment tag (moment_in fields.now) room.old room.new result }
{
    if tag != UTC_TIME && tag != GENERALIZED_TIME {
        return nothing_put(NO_SUCH_VALUE, 0);
    }
    let Some(d) = date_time(fields) else {
        return nothing_put(DATE, 0);
    };
    if tag == UTC_TIME {
        put_utc_time(&d, room)
    } else {
        put_generalized_time(&d, room)
    }
}
