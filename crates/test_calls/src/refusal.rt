// Why a call has no result, and the text of that.
use simple_asn1::{ASN1DecodeErr, ASN1EncodeErr, LocatedErr};
use std::alloc::{AllocError, AllocFailed, Global};
use test_notation::characters_text;

// What a call answers.
pub type Answer = Result<String, Refusal>;

// Why a call has no result. Its text is the answer, but where memory ran out.
#[derive(Drop)]
pub enum Refusal {
    Memory,
    Reading(ASN1DecodeErr),
    ReadingAt(LocatedErr),
    Writing(ASN1EncodeErr),
    Text(String),
}

impl Refusal {
    // The text of the refusal.
    pub fn text(self, alloc: Global) -> Result<String, AllocError> {
        match self {
            Refusal::Memory => Err(AllocError),
            Refusal::Reading(fault) => fault_text(alloc, &fault),
            Refusal::ReadingAt(located) => located_text(alloc, &located),
            Refusal::Writing(fault) => format!(in alloc; "refused {fault:?}"),
            Refusal::Text(text) => Ok(text),
        }
    }
}

// The fault and its place.
pub fn located_text(alloc: Global, located: &LocatedErr) -> Result<String, AllocError> {
    let text = fault_text(alloc, &located.error)?;
    format!(in alloc; "{text} at {}", located.offset)
}

// The name of the fault, and what it holds.
fn fault_text(alloc: Global, fault: &ASN1DecodeErr) -> Result<String, AllocError> {
    let name = fault.name();
    match fault {
        ASN1DecodeErr::BadBooleanLength(n)
        | ASN1DecodeErr::LengthTooLarge(n)
        | ASN1DecodeErr::NotCanonical(n) => format!(in alloc; "refused {name} {n}"),
        ASN1DecodeErr::InvalidBitStringLength(n) => format!(in alloc; "refused {name} {n}"),
        ASN1DecodeErr::InvalidClass(n) => format!(in alloc; "refused {name} {n}"),
        ASN1DecodeErr::InvalidDateValue(text) => {
            let characters = characters_text(alloc, text)?;
            format!(in alloc; "refused {name} {characters}")
        }
        _ => format!(in alloc; "refused {name}"),
    }
}

// The refusal where memory ran out: that alone, if all that the call was given is as it was.
pub fn ran_out(alloc: Global, is_kept: bool) -> Refusal {
    if is_kept {
        return Refusal::Memory;
    }
    refusal_of(alloc, "changed by a call for which memory ran out")
}

// A refusal with the text.
pub fn refusal_of(alloc: Global, text: &str) -> Refusal {
    match String::from_str(alloc, text) {
        Ok(text) => Refusal::Text(text),
        Err(AllocError) => Refusal::Memory,
    }
}

impl From<AllocError> for Refusal {
    fn from(_error: AllocError) -> Refusal {
        Refusal::Memory
    }
}

impl<T: Drop> From<AllocFailed<T>> for Refusal {
    fn from(_error: AllocFailed<T>) -> Refusal {
        Refusal::Memory
    }
}

impl From<ASN1DecodeErr> for Refusal {
    fn from(fault: ASN1DecodeErr) -> Refusal {
        match fault {
            ASN1DecodeErr::OutOfMemory => Refusal::Memory,
            fault => Refusal::Reading(fault),
        }
    }
}

impl From<LocatedErr> for Refusal {
    fn from(located: LocatedErr) -> Refusal {
        match located.error {
            ASN1DecodeErr::OutOfMemory => Refusal::Memory,
            _ => Refusal::ReadingAt(located),
        }
    }
}

impl From<ASN1EncodeErr> for Refusal {
    fn from(fault: ASN1EncodeErr) -> Refusal {
        match fault {
            ASN1EncodeErr::OutOfMemory => Refusal::Memory,
            fault => Refusal::Writing(fault),
        }
    }
}
