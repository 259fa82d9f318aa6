// The encoding at an offset, by its header alone.
ghost use Rattle.std.specs.Prelude.{◌≡◌, ◌⊎◌, ℕ, List, IfErr, IfOk, IfSome};
ghost use Rattle.asn1_outline.specs.Entries.{IsCapped};
ghost use Rattle.asn1_records.specs.Status.{no_memory, no_such_value};
ghost use Rattle.asn1_records.specs.Values.{UniversalAt};

use crate::header_record::header_record;
use crate::status::{NO_MEMORY, NO_SUCH_VALUE};
use simple_asn1::encoding_at;
use std::alloc::Global;

// The tag number, the greatest u64 for greater ones, and the contents octets of an encoding of class Universal; or the
// number of why there is none.
#[inline(always)]
pub fn universal_at<'a>(
    alloc: Global,
    octets: &'a [u8],
    offset: usize,
) -> Result<(u64, &'a [u8]), u32>
    ensures found { IfOk result
        (λ x. (tag : ℕ) × UniversalAt octets.now offset tag x.1.now × IsCapped tag x.0) }
    ensures missing { IfErr result (λ status. (status ≡ no_memory) ⊎ ((status ≡ no_such_value)
        × ((tag : ℕ) (contents : List ℕ) → UniversalAt octets.now offset tag contents → ⊥))) }
{
    match short_universal_at(octets, offset) {
        Some(found) => Ok(found),
        None => any_universal_at(alloc, octets, offset),
    }
}

// The tag number and the contents octets, where the header is one identifier octet and one length octet of the short
// form, as most are. It has code of its own so that it takes a few instructions.
#[inline(always)]
fn short_universal_at<'a>(octets: &'a [u8], offset: usize) -> Option<(u64, &'a [u8])>
    ensures { IfSome result
        (λ x. (tag : ℕ) × UniversalAt octets.now offset tag x.1.now × IsCapped tag x.0) }
{
    if offset > octets.len() {
        return None;
    }
    let (_, rest) = octets.split_at(offset);
    match rest {
        [leading, length, behind @ ..]
            if *leading < 64
                && *leading % 32 != 31
                && *length < 128
                && *length as usize <= behind.len() => {
            let (contents, _) = behind.split_at(*length as usize);
            Some(((*leading % 32) as u64, contents))
        }
        _ => None,
    }
}

// The tag number and the contents octets, whatever the header, or the number of why there are none.
#[inline(never)]
fn any_universal_at<'a>(
    alloc: Global,
    octets: &'a [u8],
    offset: usize,
) -> Result<(u64, &'a [u8]), u32>
    ensures found { IfOk result
        (λ x. (tag : ℕ) × UniversalAt octets.now offset tag x.1.now × IsCapped tag x.0) }
    ensures missing { IfErr result (λ status. (status ≡ no_memory) ⊎ ((status ≡ no_such_value)
        × ((tag : ℕ) (contents : List ℕ) → UniversalAt octets.now offset tag contents → ⊥))) }
{
    let Some(encoding) = encoding_at(octets, offset) else {
        return Err(NO_SUCH_VALUE);
    };
    let Ok(record) = header_record(alloc, encoding) else {
        return Err(NO_MEMORY);
    };
    if record.tag_class != 0 {
        return Err(NO_SUCH_VALUE);
    }
    let (_, contents) = encoding.split_at(record.header);
    Ok((record.tag, contents))
}
