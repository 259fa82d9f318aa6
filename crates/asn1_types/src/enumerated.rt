// ENUMERATED.
ghost use Rattle.std.specs.Prelude.{◌≡◌, ◌≢◌, ℕ, ℤ, false, IfOk, IfErr, MatchOption, MatchResult};
ghost use Rattle.asn1_numbers.specs.TwosComplement.{shortest_octets};
ghost use Rattle.asn1_blocks.specs.Tree.{shape, unknown};
ghost use Rattle.asn1_blocks.specs.View.{view};
ghost use Rattle.asn1_headers.specs.declared.error.ASN1EncodeErr.TheVariants.{OutOfMemory as no_memory};
ghost use Rattle.asn1_headers.specs.declared.header.ASN1Class.TheVariants.{Universal as universal_class};
ghost use Rattle.asn1_headers.specs.declared.tags.TheConstants.{ENUMERATED};
ghost use Rattle.asn1_types.specs.declared.TypeErr.TheVariants.{Shape};
ghost use Rattle.asn1_types.specs.EnumeratedLaws.{enumerated-distinct};

use crate::tagged::is_number;
use crate::{Asn1Type, Asn1Write, TypeErr};
use asn1_blocks::block::ASN1Block;
use asn1_headers::error::ASN1EncodeErr;
use asn1_headers::header::ASN1Class;
use asn1_headers::tags::ENUMERATED;
use asn1_numbers::number::big_int::BigInt;
use simple_asn1::build;
use std::alloc::{AllocError, Global};

/// An ENUMERATED (X.690 8.4), by the number of its value. Contents octets that are longer than the number needs are not
/// of the type, since a block of them does not come back.
///
/// ```rust
/// use asn1_types::{Enumerated, Whole, WholeErr};
/// use simple_asn1::der_decode;
/// use std::alloc::Global;
///
/// // The status of an OCSPResponse: of `0A 01 06` 6, which is `unauthorized`.
/// fn status(alloc: Global, document: &[u8]) -> Result<Option<i64>, WholeErr> {
///     let read: Whole<Enumerated> = der_decode(alloc, document)?;
///     Ok(read.value.number.to_i64())
/// }
/// ```
#[derive(Debug, Drop)]
pub struct Enumerated {
    /// The number.
    pub number: BigInt,
}

// The number that has these as its shortest octets.
fn number_of(alloc: Global, contents: &[u8]) -> Result<Option<BigInt>, AllocError>
    ensures { IfOk result (λ found. MatchOption found
        ((x : ℤ) → contents.now ≢ shortest_octets x)
        (λ x. contents.now ≡ shortest_octets x)) }
{
    let number = BigInt::from_signed_bytes_be(alloc, contents)?;
    if number.octets() == contents {
        Ok(Some(number))
    } else {
        Ok(None)
    }
}

impl Asn1Type for Enumerated {
    ghost tree = { λ x. unknown universal_class false tt ENUMERATED (shortest_octets x.number) };

    fn read(alloc: Global, block: &ASN1Block) -> Result<Enumerated, TypeErr> {
        match block {
            ASN1Block::Unknown(ASN1Class::Universal, false, place, tag, contents) => {
                if !is_number(tag, ENUMERATED) {
                    return Err(TypeErr::Shape(*place));
                }
                match number_of(alloc, contents)? {
                    Some(number) => Ok(Enumerated { number }),
                    None => Err(TypeErr::Shape(*place)),
                }
            }
            _ => Err(TypeErr::Shape(block.offset())),
        }
    }

    ghost distinct = { enumerated-distinct };
}

impl Asn1Write for Enumerated {
    fn write(&self, alloc: Global) -> Result<ASN1Block, ASN1EncodeErr> {
        let octets = self.number.octets();
        Ok(build::implicit_primitive(alloc, ASN1Class::Universal, ENUMERATED, octets)?)
    }
}
