// Why octets are no document, and why a block can't be written.
ghost use Rattle.std.specs.Prelude.{◌≡◌, IfOk};
ghost use Rattle.asn1_headers.specs.Fault.{fault_of};
ghost use Rattle.asn1_headers.specs.Names.{fault_name};

use std::alloc::{AllocError, AllocFailed, Global};
use std::str::Utf8Error;
use thiserror::Error;

/// Why input was not read.
#[derive(Debug, Drop, Error, PartialEq)]
pub enum ASN1DecodeErr {
    /// The document is empty.
    #[error("Encountered an empty buffer decoding ASN1 block.")]
    EmptyBuffer,
    /// A BOOLEAN does not have one contents octet; how many it has.
    #[error("Bad length field in boolean block: {0}")]
    BadBooleanLength(usize),
    /// A length exceeds a `usize`: the number of octets after the initial length octet, if that is above 8; the
    /// length, if the contents octets would end past a `usize`; for a BIT STRING the number of contents octets whose
    /// bits a `usize` cannot count.
    #[error("Length field too large for object type: {0}")]
    LengthTooLarge(usize),
    /// Contents octets of a UTF8String, TeletexString, UniversalString, BMPString or GeneralizedTime are not UTF-8.
    #[error("UTF8 string failed to properly decode: {0}")]
    UTF8DecodeFailure(Utf8Error),
    /// A contents octet of a PrintableString is not one of its 74 characters (X.680 table 10).
    #[error("Printable string failed to properly decode.")]
    PrintableStringDecodeFailure,
    /// Contents octets of a UTCTime or GeneralizedTime are not a valid moment; their text, or their number in decimal.
    #[error("Invalid date value: {0}")]
    InvalidDateValue(String),
    /// The initial contents octet of a BIT STRING counts more unused bits than the octets after it have; the number of
    /// those bits less the count, which is below 0.
    #[error("Invalid length of bit string: {0}")]
    InvalidBitStringLength(isize),
    /// A class that does not exist. Never returned.
    #[error("Invalid class value: {0}")]
    InvalidClass(u8),
    /// The input is truncated. Other malformed input can look truncated too.
    #[error("Incomplete data or invalid ASN1")]
    Incomplete,
    /// A component of an object identifier does not fit the type that was asked for.
    #[error("Value overflow")]
    Overflow,
    /// Memory ran out, which says nothing about the input.
    #[error("Out of memory")]
    OutOfMemory,
    /// The octets of a top-level block are not its canonical ones, which `to_der` writes; the offset of the first such
    /// block. Returned by strict reading only.
    #[error("Block is not in canonical form: {0}")]
    NotCanonical(usize),
}

/// Makes `OutOfMemory` of the error of a copy, a text or a reserved size.
impl From<AllocError> for ASN1DecodeErr {
    ghost use Rattle.asn1_headers.specs.declared.error.ASN1DecodeErr.TheVariants.{OutOfMemory};

    ghost from_gives = { λ _ e. e ≡ OutOfMemory };

    fn from(_: AllocError) -> ASN1DecodeErr {
        ASN1DecodeErr::OutOfMemory
    }
}

/// Makes `OutOfMemory` of the error of a `push` or a `Box`, which hand back what they could not keep.
impl<T: Drop> From<AllocFailed<T>> for ASN1DecodeErr {
    ghost use Rattle.asn1_headers.specs.declared.error.ASN1DecodeErr.TheVariants.{OutOfMemory};

    ghost from_gives = { λ _ e. e ≡ OutOfMemory };

    fn from(_: AllocFailed<T>) -> ASN1DecodeErr {
        ASN1DecodeErr::OutOfMemory
    }
}

impl ASN1DecodeErr {
    /// The name of its variant, for messages that programs read.
    ///
    /// ```rust
    /// use simple_asn1::from_der;
    /// use std::alloc::Global;
    ///
    /// // Why octets are no document, in a word: of `30 05 02 01` `Incomplete`.
    /// fn refusal(alloc: Global, octets: &[u8]) -> &'static str {
    ///     match from_der(alloc, octets) {
    ///         Ok(_) => "",
    ///         Err(error) => error.name(),
    ///     }
    /// }
    /// ```
    pub fn name(&self) -> &'static str
        ensures { result.now ≡ fault_name (fault_of self.now) }
    {
        match self {
            ASN1DecodeErr::EmptyBuffer => "EmptyBuffer",
            ASN1DecodeErr::BadBooleanLength(_) => "BadBooleanLength",
            ASN1DecodeErr::LengthTooLarge(_) => "LengthTooLarge",
            ASN1DecodeErr::UTF8DecodeFailure(_) => "UTF8DecodeFailure",
            ASN1DecodeErr::PrintableStringDecodeFailure => "PrintableStringDecodeFailure",
            ASN1DecodeErr::InvalidDateValue(_) => "InvalidDateValue",
            ASN1DecodeErr::InvalidBitStringLength(_) => "InvalidBitStringLength",
            ASN1DecodeErr::InvalidClass(_) => "InvalidClass",
            ASN1DecodeErr::Incomplete => "Incomplete",
            ASN1DecodeErr::Overflow => "Overflow",
            ASN1DecodeErr::OutOfMemory => "OutOfMemory",
            ASN1DecodeErr::NotCanonical(_) => "NotCanonical",
        }
    }

    /// The same error. The only error of the call is that memory ran out.
    ///
    /// ```rust
    /// use simple_asn1::ASN1DecodeErr;
    /// use std::alloc::{AllocError, Global};
    ///
    /// // The error, for one who keeps it.
    /// fn kept(alloc: Global, e: &ASN1DecodeErr) -> Result<ASN1DecodeErr, AllocError> {
    ///     e.clone(alloc)
    /// }
    /// ```
    pub fn clone(&self, _alloc: Global) -> Result<ASN1DecodeErr, AllocError>
        ensures { IfOk result (λ e. fault_of e ≡ fault_of self.now) }
    {
        match self {
            ASN1DecodeErr::EmptyBuffer => Ok(ASN1DecodeErr::EmptyBuffer),
            ASN1DecodeErr::BadBooleanLength(n) => Ok(ASN1DecodeErr::BadBooleanLength(*n)),
            ASN1DecodeErr::LengthTooLarge(n) => Ok(ASN1DecodeErr::LengthTooLarge(*n)),
            ASN1DecodeErr::UTF8DecodeFailure(e) => Ok(ASN1DecodeErr::UTF8DecodeFailure(*e)),
            ASN1DecodeErr::PrintableStringDecodeFailure => {
                Ok(ASN1DecodeErr::PrintableStringDecodeFailure)
            }
            ASN1DecodeErr::InvalidDateValue(text) => {
                Ok(ASN1DecodeErr::InvalidDateValue(text.clone()?))
            }
            ASN1DecodeErr::InvalidBitStringLength(n) => {
                Ok(ASN1DecodeErr::InvalidBitStringLength(*n))
            }
            ASN1DecodeErr::InvalidClass(n) => Ok(ASN1DecodeErr::InvalidClass(*n)),
            ASN1DecodeErr::Incomplete => Ok(ASN1DecodeErr::Incomplete),
            ASN1DecodeErr::Overflow => Ok(ASN1DecodeErr::Overflow),
            ASN1DecodeErr::OutOfMemory => Ok(ASN1DecodeErr::OutOfMemory),
            ASN1DecodeErr::NotCanonical(n) => Ok(ASN1DecodeErr::NotCanonical(*n)),
        }
    }
}

/// Why input was not read, and where.
#[derive(Debug, Drop, Error, PartialEq)]
#[error("{error} at offset {offset}")]
pub struct LocatedErr {
    /// The first fault, or that memory ran out.
    pub error: ASN1DecodeErr,
    /// The offset of the innermost block at fault, in bytes from the start of the document; 0 for an empty input. If
    /// memory ran out, how far reading had come, which says nothing about the input.
    pub offset: usize,
}

/// The error without its offset.
impl From<LocatedErr> for ASN1DecodeErr {
    ghost from_gives = { λ located e. e ≡ located.error };

    fn from(located: LocatedErr) -> ASN1DecodeErr {
        located.error
    }
}

impl LocatedErr {
    /// The same error at the same offset. The only error of the call is that memory ran out.
    ///
    /// ```rust
    /// use simple_asn1::LocatedErr;
    /// use std::alloc::{AllocError, Global};
    ///
    /// // The error, for one who keeps it.
    /// fn kept(alloc: Global, e: &LocatedErr) -> Result<LocatedErr, AllocError> {
    ///     e.clone(alloc)
    /// }
    /// ```
    pub fn clone(&self, alloc: Global) -> Result<LocatedErr, AllocError>
        ensures error { IfOk result (λ e. fault_of e.error ≡ fault_of self.now.error) }
        ensures offset { IfOk result (λ e. e.offset ≡ self.now.offset) }
    {
        let error = self.error.clone(alloc)?;
        Ok(LocatedErr {
            error,
            offset: self.offset,
        })
    }
}

/// Why a block was not written.
#[derive(Debug, Drop, Error, PartialEq)]
pub enum ASN1EncodeErr {
    /// An object identifier has fewer than two components.
    #[error("ASN1 object identifier has too few fields.")]
    ObjectIdentHasTooFewFields,
    /// The first component of an object identifier is above 2.
    #[error("First value in ASN1 OID is too big.")]
    ObjectIdentVal1TooLarge,
    /// The second component of an object identifier is too large for the first octet.
    #[error("Second value in ASN1 OID is too big.")]
    ObjectIdentVal2TooLarge,
    /// A bit string has more bits than 8 for each of its octets, or some bits and more than 255 unused ones.
    #[error("Bit count does not fit the bytes of the bit string")]
    BitStringLength,
    /// A PrintableString or IA5String, of one octet a character, has a character above 255.
    #[error("Character does not fit one byte")]
    CharacterTooLarge,
    /// The year of a time is below 0.
    #[error("Year is below 0")]
    YearOutOfRange,
    /// Memory ran out, which says nothing about the block.
    #[error("Out of memory")]
    OutOfMemory,
}

/// Makes `OutOfMemory` of the error of a copy, a text or a reserved size.
impl From<AllocError> for ASN1EncodeErr {
    ghost use Rattle.asn1_headers.specs.declared.error.ASN1EncodeErr.TheVariants.{OutOfMemory as no_memory};

    ghost from_gives = { λ _ e. e ≡ no_memory };

    fn from(_: AllocError) -> ASN1EncodeErr {
        ASN1EncodeErr::OutOfMemory
    }
}

/// Makes `OutOfMemory` of the error of a `push` or a `Box`, which hand back what they could not keep.
impl<T: Drop> From<AllocFailed<T>> for ASN1EncodeErr {
    ghost use Rattle.asn1_headers.specs.declared.error.ASN1EncodeErr.TheVariants.{OutOfMemory as no_memory};

    ghost from_gives = { λ _ e. e ≡ no_memory };

    fn from(_: AllocFailed<T>) -> ASN1EncodeErr {
        ASN1EncodeErr::OutOfMemory
    }
}

impl ASN1EncodeErr {
    /// The same error. It takes no memory today; the allocator is there for errors to come.
    ///
    /// ```rust
    /// use simple_asn1::ASN1EncodeErr;
    /// use std::alloc::{AllocError, Global};
    ///
    /// // The error, for one who keeps it.
    /// fn kept(alloc: Global, e: &ASN1EncodeErr) -> Result<ASN1EncodeErr, AllocError> {
    ///     e.clone(alloc)
    /// }
    /// ```
    pub fn clone(&self, _alloc: Global) -> Result<ASN1EncodeErr, AllocError>
        ensures { IfOk result (λ e. e ≡ self.now) }
    {
        match self {
            ASN1EncodeErr::ObjectIdentHasTooFewFields => {
                Ok(ASN1EncodeErr::ObjectIdentHasTooFewFields)
            }
            ASN1EncodeErr::ObjectIdentVal1TooLarge => Ok(ASN1EncodeErr::ObjectIdentVal1TooLarge),
            ASN1EncodeErr::ObjectIdentVal2TooLarge => Ok(ASN1EncodeErr::ObjectIdentVal2TooLarge),
            ASN1EncodeErr::BitStringLength => Ok(ASN1EncodeErr::BitStringLength),
            ASN1EncodeErr::CharacterTooLarge => Ok(ASN1EncodeErr::CharacterTooLarge),
            ASN1EncodeErr::YearOutOfRange => Ok(ASN1EncodeErr::YearOutOfRange),
            ASN1EncodeErr::OutOfMemory => Ok(ASN1EncodeErr::OutOfMemory),
        }
    }
}
