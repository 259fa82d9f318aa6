// The call that lists which rules of DER octets break.
use crate::refusal::{Answer, Refusal};
use simple_asn1::{ASN1DecodeErr, LocatedErr, departures};
use std::alloc::{AllocError, Global};

// The offset and the rule of each departure, or that there is none; or why the octets are no encodings, and where.
pub fn listed(alloc: Global, octets: &[u8]) -> Answer {
    let found = match departures(alloc, octets) {
        Ok(found) => found,
        Err(located) => return Err(no_encodings(alloc, &located)),
    };
    let mut text = String::new(alloc);
    for departure in &found {
        let comma = if text.is_empty() { "" } else { ", " };
        write!(
            text,
            "{comma}{} {}",
            departure.offset,
            departure.rule.name()
        )?;
    }
    if text.is_empty() {
        text.push_str("none")?;
    }
    Ok(text)
}

fn no_encodings(alloc: Global, located: &LocatedErr) -> Refusal {
    match located.error {
        ASN1DecodeErr::OutOfMemory => Refusal::Memory,
        _ => fault_of(alloc, located).unwrap_or(Refusal::Memory),
    }
}

fn fault_of(alloc: Global, located: &LocatedErr) -> Result<Refusal, AllocError> {
    let (name, offset) = (located.error.name(), located.offset);
    let text = format!(in alloc; "refused {name} at {offset}")?;
    Ok(Refusal::Text(text))
}
