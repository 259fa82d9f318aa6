// The builder of entries, which keeps no more of them than there is room for.
ghost use Rattle.std.specs.Prelude.{◌+◌, ◌<◌, ◌≤◌, ◌^◌, vec_capacity, vec_len};

use crate::entry::Entry;

// Builds the first entries of a document: of blocks beyond those that there is room for, the number alone is kept.
#[derive(Drop)]
pub struct EntryBuilder {
    pub kept: Vec<Entry>,
    // How many blocks there are after those whose entries are kept.
    pub beyond: usize,
    // The most entries that are kept.
    pub room: usize,
    // Memory is taken for no more than these.
    ghost bounded: { vec_capacity kept ≤ room },
    ghost full: { 0 < beyond → room ≤ vec_len kept },
    ghost small: { vec_len kept + beyond < 2 ^ 63 },
}

// The entries of a document, where there is room for all, or else their number.
#[derive(Drop)]
pub enum Found {
    Entries(Vec<Entry>),
    Count(usize),
}
