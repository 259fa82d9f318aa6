// UTCTime and GeneralizedTime as X.680 has them (46.3, 47.3), in the forms that BER has beside that of DER.
use crate::moment::{Time, push_fraction};
use asn1_leaves::contents::generalized_time;
use asn1_leaves::contents::moment::pair;
use std::alloc::{AllocError, Global};
use std::str;

// The value of contents octets of a UTCTime, or if it is general of a GeneralizedTime, in one of these forms:
// `2024-02-29T12:00:30.5+01:00`, `2024-02-29T12:00Z`, in local time `2024-02-29T12`. `None` of others. Each has the
// digits of a date and a time of day to the second or the minute, in a GeneralizedTime also to the hour; a fraction
// with its mark; and the difference to Coordinated Universal Time. What is left out is 0.
pub fn ber_time(
    alloc: Global,
    is_general: bool,
    contents: &[u8],
) -> Result<Option<Time>, AllocError> {
    let digits = contents.iter().position(|b| !b.is_ascii_digit());
    let (digits, rest) = split_before(contents, digits);
    let zone = rest.iter().position(|b| matches!(*b, b'Z' | b'+' | b'-'));
    let (fraction, zone) = split_before(rest, zone);
    let mut whole = Vec::from_slice(alloc, century(is_general, digits))?;
    whole.extend_from_slice(digits)?;
    let shown = match whole.len() {
        14 => "YYYY-MM-DDThh:mm:ss".len(),
        12 => "YYYY-MM-DDThh:mm".len(),
        10 if is_general => "YYYY-MM-DDThh".len(),
        _ => return Ok(None),
    };
    whole.resize(14, b'0')?;
    whole.push(b'Z')?;
    let (Some(moment), Some(digits), Some(ahead)) = (
        generalized_time::moment(&whole),
        digits_of(is_general, fraction),
        seconds_ahead(is_general, zone),
    ) else {
        return Ok(None);
    };
    let mut text = format!(in alloc; "{moment}")?;
    text.truncate(text.floor_char_boundary(shown));
    push_fraction(&mut text, digits)?;
    for (i, octet) in zone.iter().enumerate() {
        text.push_str(if i == 3 { ":" } else { "" })?;
        text.push(char::from(*octet))?;
    }
    Ok(Some(Time {
        text,
        moment,
        ahead,
    }))
}

// The octets before the place, and those from it on; no place stands for the end.
fn split_before(octets: &[u8], place: Option<usize>) -> (&[u8], &[u8]) {
    octets
        .split_at_checked(place.unwrap_or(octets.len()))
        .unwrap_or((octets, &[]))
}

// The century that a UTCTime leaves out: 19 for years from 50 on, else 20 (RFC 5280, 4.1.2.5.1).
fn century(is_general: bool, digits: &[u8]) -> &'static [u8] {
    match digits {
        _ if is_general => b"",
        [b'5'..=b'9', ..] => b"19",
        _ => b"20",
    }
}

// The digits behind the point or the comma of a fraction, which a GeneralizedTime alone may have.
fn digits_of(is_general: bool, fraction: &[u8]) -> Option<&str> {
    match fraction {
        [] => Some(""),
        [b'.' | b',', digits @ ..]
            if is_general && !digits.is_empty() && digits.iter().all(|b| b.is_ascii_digit()) => {
            str::from_utf8(digits).ok()
        }
        _ => None,
    }
}

// How many seconds the time of day is ahead of Coordinated Universal Time in a zone, which has hours and minutes, or in
// a GeneralizedTime hours alone. Inside, `None` of local time, which a GeneralizedTime alone may have.
fn seconds_ahead(is_general: bool, zone: &[u8]) -> Option<Option<i64>> {
    let (hours, minutes) = match zone {
        [] if is_general => return Some(None),
        [b'Z'] => (0, 0),
        [b'+' | b'-', a, b, c, d] => (pair(*a, *b)?, pair(*c, *d)?),
        [b'+' | b'-', a, b] if is_general => (pair(*a, *b)?, 0),
        _ => return None,
    };
    if hours > 23 || minutes > 59 {
        return None;
    }
    let seconds = 3600 * i64::from(hours) + 60 * i64::from(minutes);
    let is_behind = zone.starts_with(b"-");
    Some(Some(if is_behind { -seconds } else { seconds }))
}
