//! Documents as flat lists of entries, one for each block, without building a block: a layer of `simple_asn1`, which is
//! the crate for users.
//!
//! `simple_asn1` hands on `Outline`, `BlockRef`, `Inside`, `Headers`, `Entry`, `Entries`, `EntriesInside` and
//! `law_entries`. All else is public for the crates above alone, and may change with them.
#![tactic(auto)]

pub mod block_ref;
mod building;
mod canonical;
pub mod entry;
pub mod entry_builder;
mod entry_reading;
mod header_reading;
pub mod header_walk;
pub mod headers;
pub mod inside;
mod inside_reading;
pub mod iter;
pub mod listing;
pub mod outline;
mod outline_reading;
pub mod signed;
pub mod strict;
pub mod value;
