// Writing blocks that are read back as they are, and no others.
ghost use Rattle.std.specs.Prelude.{◌≡◌, ◌⊎◌, ℕ, IfErr, IfOk, IsErrAnd, MatchOption, OnOk};
ghost use Rattle.asn1_blocks.specs.Faithful.{IsFaithful};
ghost use Rattle.asn1_blocks.specs.Inner.FaithfulWalk.{IsFaithfulAlone};
ghost use Rattle.asn1_blocks.specs.View.{view};
ghost use Rattle.asn1_writing.specs.Canonical.{canonical};
ghost use Rattle.asn1_writing.specs.ReadBack.{ReadsBackAs};
ghost use Rattle.asn1_writing.specs.Inner.Failing.{tree_failure};
ghost use Rattle.asn1_writing.specs.Unfaithful.{FailsBy, FailsFirst, unknown_failure};
ghost use Rattle.asn1_writing.specs.declared.faithful.FaithfulErr.TheVariants.{NotFaithful, OutOfMemory};
ghost use Rattle.asn1_writing.specs.declared.faithful.UnfaithfulErr.{UnfaithfulErr};

use crate::write::to_der;
use asn1_blocks::block::ASN1Block;
use asn1_blocks::block::parts::all_blocks;
use asn1_blocks::faithful::is_faithful_alone;
use asn1_headers::header::ASN1Class;
use std::alloc::{AllocError, AllocFailed, Global};
use std::slice;
use thiserror::Error;

/// Why a block does not come back: it cannot be written, or what is written of it is rejected or read as another block.
#[derive(Clone, Copy, Debug, Error, PartialEq)]
pub enum UnfaithfulErr {
    /// A bit string of no bits has octets, or the number of bits does not fit the octets: more than 8 for each, or more
    /// than 255 unused.
    #[error("the number of bits does not fit the bytes")]
    BitString,
    /// An object identifier has fewer than two components, a first one above 2, or a second one that is too large.
    #[error("the first two components are too few or too large")]
    ObjectIdentifier,
    /// A string has a character that its kind does not have: a PrintableString one beside its 74 (X.680 table 10), an
    /// IA5String one above 255.
    #[error("the kind of string does not have such a character")]
    Characters,
    /// A UTCTime is not a whole second of the years 1950 to 2049.
    #[error("a UTCTime is not a whole second of the years 1950 to 2049")]
    UtcTime,
    /// The year of a GeneralizedTime is below 0.
    #[error("the year of a GeneralizedTime is below 0")]
    GeneralizedTime,
    /// An `Explicit` is of class `Universal`.
    #[error("an explicit tag is of class Universal")]
    ExplicitUniversal,
    /// An `Unknown` of class `Universal` has the tag number of a type that is read as more than `Unknown`.
    #[error("an unknown block of class Universal has the tag of a known type")]
    KnownTag,
    /// The contents bytes of a constructed `Unknown` of another class are exactly one block, so that it is read as
    /// `Explicit`.
    #[error("the contents of an unknown block are one block")]
    OneBlock,
}

/// Why [`to_der_faithful`] wrote nothing.
#[derive(Debug, Drop, Error, PartialEq)]
pub enum FaithfulErr {
    /// Memory ran out, which says nothing about the block.
    #[error("Out of memory")]
    OutOfMemory,
    /// A block would not come back: its index in tree order, which is that of [`all_blocks`](crate::all_blocks), and
    /// the reason. It is the first such block.
    #[error("Block {0} would not be read back as it is: {1}")]
    NotFaithful(usize, UnfaithfulErr),
}

/// Makes `OutOfMemory` of the error of a copy, a text or a reserved size.
impl From<AllocError> for FaithfulErr {
    ghost use Rattle.asn1_writing.specs.declared.faithful.FaithfulErr.TheVariants.{OutOfMemory};

    ghost from_gives = { λ _ e. e ≡ OutOfMemory };

    fn from(_: AllocError) -> FaithfulErr {
        FaithfulErr::OutOfMemory
    }
}

/// Makes `OutOfMemory` of the error of a `push` or a `Box`, which hand back what they could not keep.
impl<T: Drop> From<AllocFailed<T>> for FaithfulErr {
    ghost use Rattle.asn1_writing.specs.declared.faithful.FaithfulErr.TheVariants.{OutOfMemory};

    ghost from_gives = { λ _ e. e ≡ OutOfMemory };

    fn from(_: AllocFailed<T>) -> FaithfulErr {
        FaithfulErr::OutOfMemory
    }
}

/// Writes a block as [`to_der`] does if it comes back: if its octets are read as the same block, but for offsets.
/// [`to_der`] also writes a UTCTime of the year 2050, which is read as 1950, and a PrintableString with `&`, which is
/// rejected when it is read. This call rejects both.
///
/// It takes memory as [`to_der`] does, and before that a list of references to all blocks, 8 bytes for each. To look
/// into a constructed `Unknown` it reads its contents bytes. Stack use does not grow with nesting.
///
/// # Errors
/// `NotFaithful` with the index and the reason of the first block, in tree order, that does not come back;
/// `OutOfMemory`.
///
/// ```rust
/// use simple_asn1::{FaithfulErr, build, to_der_faithful};
/// use std::alloc::Global;
///
/// // A company's name as a PrintableString in a SEQUENCE: `NotFaithful(1, Characters)` for "AT&T", since block 1, the
/// // string, has a character that is not one of the 74.
/// fn organization(alloc: Global, name: &str) -> Result<Vec<u8>, FaithfulErr> {
///     let names = vec![in alloc; build::printable_string(alloc, name)?]?;
///     to_der_faithful(alloc, &build::sequence(names))
/// }
/// ```
pub fn to_der_faithful(alloc: Global, block: &ASN1Block) -> Result<Vec<u8>, FaithfulErr>
    ensures encoded { IfOk result (λ v. v.items ≡ canonical (view block.now)) }
    ensures faithful { OnOk result (IsFaithful (view block.now)) }
    ensures survives { IfOk result (λ v. ReadsBackAs v.items (view block.now)) }
    ensures refused { IfErr result (λ e. (e ≡ OutOfMemory)
        ⊎ ((index : ℕ) × (reason : UnfaithfulErr) × (e ≡ NotFaithful index reason)
        × FailsFirst (view block.now) index reason)) }

    // Memory aside, each faithful block is written, and the others are refused with the first that fails.
    ensures accepts { IsFaithful (view block.now) → IfErr result (λ e. e ≡ OutOfMemory) }
    ensures refuses { (index : ℕ) (reason : UnfaithfulErr) → FailsFirst (view block.now) index reason
        → IsErrAnd result (λ e. (e ≡ OutOfMemory) ⊎ (e ≡ NotFaithful index reason)) }
{
    match first_failure(alloc, block)? {
        Some((index, reason)) => Err(FaithfulErr::NotFaithful(index, reason)),
        None => match to_der(alloc, block) {
            Ok(octets) => Ok(octets),
            Err(_) => Err(FaithfulErr::OutOfMemory),
        },
    }
}

// The first block in tree order that does not come back, and why.
fn first_failure(
    alloc: Global,
    whole: &ASN1Block,
) -> Result<Option<(usize, UnfaithfulErr)>, AllocError>
    ensures { IfOk result (λ found. MatchOption found
        (IsFaithful (view whole.now))
        (λ failure. FailsFirst (view whole.now) failure.0 failure.1)) }
{
    let order = all_blocks(alloc, slice::from_ref(whole))?;
    for (index, block) in order.iter().enumerate() {
        if let Some(reason) = failure_of(alloc, block)? {
            return Ok(Some((index, reason)));
        }
    }
    Ok(None)
}

// Why the block itself does not come back, whatever it holds.
fn failure_of(alloc: Global, b: &ASN1Block) -> Result<Option<UnfaithfulErr>, AllocError>
    ensures { IfOk result (λ found. MatchOption found
        (IsFaithfulAlone (view b.now))
        (FailsBy (view b.now))) }
{
    if is_faithful_alone(alloc, b)? {
        return Ok(None);
    }
    Ok(failure_by_kind(b))
}

// What a block of its kind can fail in.
fn failure_by_kind(b: &ASN1Block) -> Option<UnfaithfulErr>
    ensures { result ≡ tree_failure (view b.now) }
{
    match b {
        ASN1Block::BitString(_, _, _) => Some(UnfaithfulErr::BitString),
        ASN1Block::ObjectIdentifier(_, _) => Some(UnfaithfulErr::ObjectIdentifier),
        ASN1Block::UTF8String(_, _)
        | ASN1Block::PrintableString(_, _)
        | ASN1Block::TeletexString(_, _)
        | ASN1Block::IA5String(_, _)
        | ASN1Block::UniversalString(_, _)
        | ASN1Block::BMPString(_, _) => Some(UnfaithfulErr::Characters),
        ASN1Block::UTCTime(_, _) => Some(UnfaithfulErr::UtcTime),
        ASN1Block::GeneralizedTime(_, _) => Some(UnfaithfulErr::GeneralizedTime),
        ASN1Block::Explicit(_, _, _, _) => Some(UnfaithfulErr::ExplicitUniversal),
        ASN1Block::Unknown(class, _, _, _, _) => Some(unknown_failure(*class)),
        ASN1Block::Boolean(_, _)
        | ASN1Block::Integer(_, _)
        | ASN1Block::OctetString(_, _)
        | ASN1Block::Null(_)
        | ASN1Block::Sequence(_, _)
        | ASN1Block::Set(_, _) => None,
    }
}

// What an `Unknown` can fail in.
fn unknown_failure(class: ASN1Class) -> UnfaithfulErr
    ensures { result ≡ unknown_failure class }
{
    match class {
        ASN1Class::Universal => UnfaithfulErr::KnownTag,
        _ => UnfaithfulErr::OneBlock,
    }
}
