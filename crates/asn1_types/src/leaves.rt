// Types without blocks inside: BOOLEAN, INTEGER, OBJECT IDENTIFIER, OCTET STRING, BIT STRING and NULL.
ghost use Rattle.std.specs.Prelude.{◌≡◌, ◌≢◌, ℕ, List, IfOk, IfErr, MatchResult};
ghost use Rattle.asn1_blocks.specs.Tree.{shape, leaf, boolean, integer, octet_string, object_identifier, bit_string, null};
ghost use Rattle.asn1_blocks.specs.View.{view};
ghost use Rattle.asn1_headers.specs.declared.error.ASN1EncodeErr.TheVariants.{OutOfMemory as no_memory};
ghost use Rattle.asn1_types.specs.declared.TypeErr.TheVariants.{Shape};
ghost use Rattle.asn1_types.specs.Laws.{boolean-distinct, integer-distinct, object_identifier-distinct, octet_string-distinct, bit_string-distinct};

use crate::{Asn1Type, Asn1Write, TypeErr};
use asn1_blocks::block::ASN1Block;
use asn1_headers::error::ASN1EncodeErr;
use asn1_leaves::oid::OID;
use asn1_numbers::number::big_int::BigInt;
use std::alloc::Global;
use std::marker::Model;

impl Asn1Type for bool {
    ghost tree = { λ x. leaf tt (boolean x) };

    fn read(_alloc: Global, block: &ASN1Block) -> Result<bool, TypeErr> {
        match block {
            ASN1Block::Boolean(_, value) => Ok(*value),
            _ => Err(TypeErr::Shape(block.offset())),
        }
    }

    ghost distinct = { boolean-distinct };
}

impl Asn1Write for bool {
    fn write(&self, _alloc: Global) -> Result<ASN1Block, ASN1EncodeErr> {
        Ok(ASN1Block::Boolean(0, *self))
    }
}

impl Asn1Type for BigInt {
    ghost tree = { λ x. leaf tt (integer x) };

    fn read(alloc: Global, block: &ASN1Block) -> Result<BigInt, TypeErr> {
        match block {
            ASN1Block::Integer(_, number) => Ok(number.clone(alloc)?),
            _ => Err(TypeErr::Shape(block.offset())),
        }
    }

    ghost distinct = { integer-distinct };
}

impl Asn1Write for BigInt {
    fn write(&self, alloc: Global) -> Result<ASN1Block, ASN1EncodeErr> {
        Ok(ASN1Block::Integer(0, self.clone(alloc)?))
    }
}

impl Asn1Type for OID {
    ghost tree = { λ x. leaf tt (object_identifier x) };

    fn read(alloc: Global, block: &ASN1Block) -> Result<OID, TypeErr> {
        match block {
            ASN1Block::ObjectIdentifier(_, oid) => Ok(oid.clone(alloc)?),
            _ => Err(TypeErr::Shape(block.offset())),
        }
    }

    ghost distinct = { object_identifier-distinct };
}

impl Asn1Write for OID {
    fn write(&self, alloc: Global) -> Result<ASN1Block, ASN1EncodeErr> {
        Ok(ASN1Block::ObjectIdentifier(0, self.clone(alloc)?))
    }
}

/// An OCTET STRING (X.690 8.7).
///
/// ```rust
/// use asn1_types::{OctetString, Whole, WholeErr};
/// use simple_asn1::der_decode;
/// use std::alloc::Global;
///
/// // Of `04 02 CA FE` the octets `CA FE`.
/// fn octets(alloc: Global, document: &[u8]) -> Result<Vec<u8>, WholeErr> {
///     let read: Whole<OctetString> = der_decode(alloc, document)?;
///     Ok(read.value.octets)
/// }
/// ```
#[derive(Debug, Drop)]
pub struct OctetString {
    /// Its octets.
    pub octets: Vec<u8>,
}

// Two vectors of the same octets may differ in memory: the string counts as the list of its octets.
impl Model for OctetString {
    ghost use Rattle.std.specs.Prelude.{List, ℕ};

    ghost Value = { List ℕ };

    ghost view = { λ x. x.octets.items };
}

impl Asn1Type for OctetString {
    ghost tree = { λ x. leaf tt (octet_string x) };

    fn read(alloc: Global, block: &ASN1Block) -> Result<OctetString, TypeErr> {
        match block {
            ASN1Block::OctetString(_, octets) => {
                let octets = Vec::from_slice(alloc, octets)?;
                Ok(OctetString { octets })
            }
            _ => Err(TypeErr::Shape(block.offset())),
        }
    }

    ghost distinct = { octet_string-distinct };
}

impl Asn1Write for OctetString {
    fn write(&self, alloc: Global) -> Result<ASN1Block, ASN1EncodeErr> {
        let octets = Vec::from_slice(alloc, &self.octets)?;
        Ok(ASN1Block::OctetString(0, octets))
    }
}

/// A BIT STRING (X.690 8.6). A value comes back where its octets are as many as its bits need, and the bits beyond them
/// are 0.
///
/// ```rust
/// use asn1_types::{BitString, Whole, WholeErr};
/// use simple_asn1::der_decode;
/// use std::alloc::Global;
///
/// // Of the KeyUsage `03 02 05 A0` 3.
/// fn bit_count(alloc: Global, document: &[u8]) -> Result<usize, WholeErr> {
///     let read: Whole<BitString> = der_decode(alloc, document)?;
///     Ok(read.value.bits)
/// }
/// ```
#[derive(Debug, Drop)]
pub struct BitString {
    /// How many bits there are.
    pub bits: usize,
    /// The octets that hold them, the first bit the most significant of the first octet.
    pub octets: Vec<u8>,
}

impl Model for BitString {
    ghost use Rattle.std.specs.Prelude.{List, ℕ};

    ghost Value = { ℕ × List ℕ };

    ghost view = { λ x. (x.bits, x.octets.items) };
}

impl Asn1Type for BitString {
    ghost tree = { λ x. leaf tt (bit_string x.0 x.1) };

    fn read(alloc: Global, block: &ASN1Block) -> Result<BitString, TypeErr> {
        match block {
            ASN1Block::BitString(_, bits, octets) => {
                let octets = Vec::from_slice(alloc, octets)?;
                Ok(BitString {
                    bits: *bits,
                    octets,
                })
            }
            _ => Err(TypeErr::Shape(block.offset())),
        }
    }

    ghost distinct = { bit_string-distinct };
}

impl Asn1Write for BitString {
    fn write(&self, alloc: Global) -> Result<ASN1Block, ASN1EncodeErr> {
        let octets = Vec::from_slice(alloc, &self.octets)?;
        Ok(ASN1Block::BitString(0, self.bits, octets))
    }
}

/// A NULL (X.690 8.8).
///
/// ```rust
/// use asn1_types::{Null, Whole, WholeErr};
/// use simple_asn1::der_encode;
/// use std::alloc::Global;
///
/// // `05 00`.
/// fn null(alloc: Global) -> Result<Vec<u8>, WholeErr> {
///     der_encode(alloc, &Whole { value: Null {} })
/// }
/// ```
#[derive(Debug, Drop)]
pub struct Null {}

impl Asn1Type for Null {
    ghost use Rattle.std.proofs.Common.{refl};

    ghost tree = { λ x. leaf tt null };

    fn read(_alloc: Global, block: &ASN1Block) -> Result<Null, TypeErr> {
        match block {
            ASN1Block::Null(_) => Ok(Null {}),
            _ => Err(TypeErr::Shape(block.offset())),
        }
    }

    ghost distinct = { λ x y e. refl };
}

impl Asn1Write for Null {
    fn write(&self, _alloc: Global) -> Result<ASN1Block, ASN1EncodeErr> {
        Ok(ASN1Block::Null(0))
    }
}
