//! The values of contents octets, each worked out once, as data that lines and JSON show.
//!
//! `leaf::read_contents` reads the contents octets of a primitive encoding, of the type that its tag says or of one
//! that is known, to a `value::LeafValue`, or to the `faults::Fault` that says why they have none. An [`Address`] is
//! one of IP. `text` has values as text, `scalars` writes octets and characters, and `tag` compares tags.
//!
//! Where X.690 has values that the library reads otherwise or not at all, they are read here: in `identifier` object
//! identifiers whose first subidentifier has more than one octet; in `characters` UTF-16 of a BMPString, UTF-32 of a
//! UniversalString, and Latin-1, which a TeletexString mostly has; in `time` the forms of times that BER has beside
//! those of DER; and in `universal` the types that the library does not read.
//!
//! The only error is that memory ran out.
#![tactic(auto)]

mod address;
mod characters;
pub mod faults;
mod identifier;
pub mod leaf;
mod moment;
pub mod scalars;
pub mod tag;
pub mod text;
mod time;
mod universal;
pub mod value;

pub use address::Address;
pub use characters::Characters;
pub use moment::Time;
