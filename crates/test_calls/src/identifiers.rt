// Object identifiers that are made of base-128 forms.
use simple_asn1::{ASN1DecodeErr, BigUint, OID, decode_base127};
use std::alloc::{AllocError, Global};

// The numbers of base-128 forms that stand one after another.
pub fn numbers_of(alloc: Global, octets: &[u8]) -> Result<Vec<BigUint>, AllocError> {
    let mut numbers = Vec::new(alloc);
    let mut index = 0;
    for _ in octets {
        if index >= octets.len() {
            return Ok(numbers);
        }
        match decode_base127(alloc, octets, &mut index) {
            Ok(number) => numbers.push(number)?,
            Err(ASN1DecodeErr::OutOfMemory) => return Err(AllocError),
            Err(_) => return Ok(numbers),
        }
    }
    Ok(numbers)
}

// The object identifier of these components, made by `OID::new`.
pub fn made(alloc: Global, octets: &[u8]) -> Result<OID, AllocError> {
    Ok(OID::new(numbers_of(alloc, octets)?))
}
