// Whether octets are a document: they are read, and nothing is built of the blocks.
ghost use Rattle.std.specs.Prelude.{◌≡◌, ℕ, IfErr, OnOk};
ghost use Rattle.asn1_headers.specs.Reading.{OutOfMemoryOrAt, RejectsAt};
ghost use Rattle.asn1_headers.specs.declared.error.ASN1DecodeErr.TheVariants.{OutOfMemory};
ghost use Rattle.asn1_blocks.specs.Grammar.{FirstFaultAt, IsDocument};
ghost use Rattle.asn1_blocks.specs.Tree.{Trees};
ghost use Rattle.asn1_writing.specs.Inner.Checking.{nothing_held};

use asn1_blocks::contents::check_contents;
use asn1_blocks::parsed::PlacedHeader;
use asn1_blocks::read_loop::{Builder, Extent, read_into};
use asn1_headers::error::{ASN1DecodeErr, LocatedErr};
use asn1_headers::header::HeaderCount;
use std::alloc::{AllocError, Global};

/// Whether octets are a document, such as [`from_der_located`](crate::from_der_located) reads; if they are not, with
/// which first fault, and where. Every header and all contents octets that have a rule are looked at, in linear time,
/// and no block is built.
///
/// It takes memory for each open level of nesting, and for tag numbers past 64 bits. Stack use does not grow with
/// nesting.
///
/// # Errors
/// The errors of [`from_der`](crate::from_der), each with the offset of the innermost block that the fault belongs to:
/// the block whose header or contents octets are at fault, and not the SEQUENCE or SET around it. For an empty input it
/// is 0.
///
/// ```rust
/// use simple_asn1::check_document;
/// use std::alloc::Global;
///
/// // Where octets stop being a document: `30 05 05 00 01 02 FF` at 4, and `30 05 05 00 01 01 FF` nowhere.
/// fn fault_offset(alloc: Global, octets: &[u8]) -> Option<usize> {
///     match check_document(alloc, octets) {
///         Ok(()) => None,
///         Err(located) => Some(located.offset),
///     }
/// }
/// ```
pub fn check_document(alloc: Global, octets: &[u8]) -> Result<(), LocatedErr>
    ensures document { OnOk result ((bs : Trees ℕ) × IsDocument octets.now bs) }
    ensures fault { IfErr result (OutOfMemoryOrAt (FirstFaultAt octets.now)) }
    ensures accepts { (bs : Trees ℕ) → IsDocument octets.now bs → IfErr result (λ e. e.error ≡ OutOfMemory) }
    ensures refuses { RejectsAt result (FirstFaultAt octets.now) }
{
    checked(alloc, octets)
}

fn checked(alloc: Global, octets: &[u8]) -> Result<(), LocatedErr>
    ensures document { OnOk result ((bs : Trees ℕ) × IsDocument octets.now bs) }
    ensures fault { IfErr result (OutOfMemoryOrAt (FirstFaultAt octets.now)) }
{
    let mut count = HeaderCount::new();
    match read_into(alloc, octets, NoBlocks, NoBlocks, &mut count) {
        Ok(_) => Ok(()),
        Err(located) => Err(located),
    }
}

// Builds nothing, and keeps nothing of the items of a frame.
#[derive(Clone, Copy)]
pub struct NoBlocks;

impl Builder for NoBlocks {
    type Items = NoBlocks;

    ghost holds = { nothing_held };

    #[inline(always)]
    fn open(
        &mut self,
        _alloc: Global,
        _octets: &[u8],
        _header: &PlacedHeader,
        _offset: usize,
        _depth: usize,
    ) -> Result<NoBlocks, AllocError> {
        Ok(NoBlocks)
    }

    #[inline(always)]
    fn leaf(
        &mut self,
        alloc: Global,
        octets: &[u8],
        _items: &mut NoBlocks,
        header: PlacedHeader,
        _offset: usize,
        _depth: usize,
    ) -> Result<(), ASN1DecodeErr> {
        check_contents(alloc, &header, &octets[header.start..header.end])
    }

    #[inline(always)]
    fn close(
        &mut self,
        _alloc: Global,
        _octets: &[u8],
        _extent: Extent,
        _items: NoBlocks,
        _parent: &mut NoBlocks,
        _depth: usize,
    ) -> Result<(), AllocError> {
        Ok(())
    }

    #[cold]
    fn keep(
        &mut self,
        _alloc: Global,
        _octets: &[u8],
        _extent: Extent,
        _items: NoBlocks,
        _parent: &mut NoBlocks,
        _depth: usize,
    ) -> Result<(), AllocError> {
        Ok(())
    }
}
