// Signed certificate timestamps, as certificates and OCSP responses have them: structures of TLS in an OCTET STRING.
ghost use Rattle.std.specs.Prelude.{◌<◌, IfSome, length};

use jiff::Timestamp;
use jiff::tz::TimeZone;
use std::alloc::{AllocError, Global};

// A timestamp of the first version (RFC 6962, section 3.2), as far as it is shown.
#[derive(Clone, Copy, Drop)]
pub struct SignedTimestamp<'a> {
    // the identifier of the log
    log: &'a [u8; 32],
    // milliseconds since 1970
    time: i64,
}

impl<'a> SignedTimestamp<'a> {
    // The timestamp of these octets.
    fn of(octets: &'a [u8]) -> Option<SignedTimestamp<'a>> {
        let (version, octets) = octets.split_first()?;
        let (log, octets) = octets.split_first_chunk::<32>()?;
        let time = i64::from_be_bytes(*octets.first_chunk::<8>()?);
        (*version == 0).then_some(SignedTimestamp { log, time })
    }

    // Its time in UTC, and its log. `None` where the time is none.
    pub fn text(&self, alloc: Global) -> Result<Option<String>, AllocError> {
        let Ok(time) = Timestamp::from_millisecond(self.time) else {
            return Ok(None);
        };
        let time = time.to_zoned(TimeZone::UTC).datetime();
        let log = hex::encode_upper(alloc, self.log)?;
        Ok(Some(format!(in alloc; "{time}Z, log {log}")?))
    }
}

// The timestamps of a list, each behind its size, and all behind theirs (RFC 6962, section 3.3). Where octets are none,
// those before are there.
pub fn timestamps_in(alloc: Global, list: &[u8]) -> Result<Vec<SignedTimestamp<'_>>, AllocError> {
    let mut timestamps = Vec::new(alloc);
    let Some((mut left, _)) = next_vector(list) else {
        return Ok(timestamps);
    };
    while let Some((octets, rest)) = next_vector(left) {
        if let Some(timestamp) = SignedTimestamp::of(octets) {
            timestamps.push(timestamp)?;
        }
        left = rest;
    }
    Ok(timestamps)
}

// The octets of a vector behind its size of two octets (RFC 5246, section 4.3), and what stands behind it.
fn next_vector(octets: &[u8]) -> Option<(&[u8], &[u8])>
    ensures { IfSome result (λ found. length found.1.now < length octets.now) }
{
    let (size, behind) = octets.split_first_chunk::<2>()?;
    let size = usize::from(u16::from_be_bytes(*size));
    behind.split_at_checked(size)
}
