//! The tree of blocks, and how octets are read into it: a layer of `simple_asn1`, which is the crate for users.
//!
//! - [`block`]: the tree; its equality, copies, dropping, and what is taken out of a block;
//! - [`read_loop`]: documents are read, in one loop over the frames that are open, whatever is built of the blocks;
//!   [`parsed`] is part of it; [`encoding`] finds an encoding by its header;
//! - [`read`]: trees are built; [`postponed`] and [`held`] are parts of it;
//! - [`document`]: the owner of a document's blocks; [`tree_walk`]: blocks in tree order;
//! - [`contents`]: which contents octets a tag has; [`faithful`]: which blocks are read back as they are;
//! - [`unknown_values`]: contents octets of types that have no variant of a block.
//!
//! `simple_asn1` hands on `ASN1Block`, `Document`, `from_der` and its like, `encoding_at`, `all_blocks` and `discard`.
//! All else is public for the crates above alone, and may change with them.
#![tactic(auto)]

pub mod block;
pub mod contents;
pub mod document;
pub mod encoding;
pub mod faithful;
pub mod held;
pub mod parsed;
pub mod postponed;
pub mod read;
pub mod read_loop;
pub mod tree_walk;
pub mod unknown_values;
