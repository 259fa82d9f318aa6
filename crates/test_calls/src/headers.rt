// The call of identifier octets. It is given octets with these at their front.
use crate::refusal::{Answer, Refusal, ran_out};
use simple_asn1::{ASN1DecodeErr, BigUint, HeaderCount, decode_tag, encode_base127};
use std::alloc::{AllocError, Global};
use test_notation::{class_name, octets_text};

// Class, constructed bit and number of the tag, or why it is refused, the index after it and the headers counted.
pub fn tag(alloc: Global, octets: &[u8]) -> Answer {
    let (mut index, mut count) = (0, HeaderCount::new());
    let decoded = decode_tag(alloc, octets, &mut index, &mut count);
    let counted = count.count();
    let text = match decoded {
        Ok((tag, constructed, class)) => {
            let (class, tag) = (class_name(class), number_text(alloc, &tag)?);
            format!(in alloc; "{class} {constructed} {tag}")?
        }
        Err(ASN1DecodeErr::OutOfMemory) => return Err(ran_out(alloc, index == 0 && counted == 1)),
        Err(fault) => Refusal::from(fault).text(alloc)?,
    };
    Ok(format!(in alloc; "{text}, index {index}, count {counted}")?)
}

// The number in decimal, or, where no `u64` holds it, the octets of its base-128 form.
pub fn number_text(alloc: Global, number: &BigUint) -> Result<String, AllocError> {
    match number.to_u64() {
        Some(n) => format!(in alloc; "{n}"),
        None => octets_text(alloc, &encode_base127(alloc, number)?),
    }
}
