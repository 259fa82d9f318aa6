// The records of the fields of a type.
ghost use Rattle.std.specs.Prelude.{◌≡◌};
ghost use Rattle.asn1_outline.specs.Outlines.{entries_in};
ghost use Rattle.asn1_records.specs.Inner.FieldRecords.{record_if_any, record_in};

use crate::record::{Block, NO_BLOCK, block_of};
use asn1_outline::outline::Outline;

// The record of the block at the index.
pub(crate) fn record_at(outline: &Outline<'_>, index: usize) -> Block
    ensures { result ≡ record_in (entries_in outline.now) index }
{
    match outline.block(index) {
        Some(block) => block_of(block.entry()),
        None => NO_BLOCK,
    }
}

// The record of the block at the index, if there is one.
pub(crate) fn record_if_any(outline: &Outline<'_>, index: Option<usize>) -> Block
    ensures { result ≡ record_if_any (entries_in outline.now) index }
{
    match index {
        Some(index) => record_at(outline, index),
        None => NO_BLOCK,
    }
}
