// Octets from the notation of `test_notation`.
use std::alloc::Global;
use std::test::Fail;
use test_notation::octets_of;

// The octets of a text of hex digits.
pub fn octets(alloc: Global, text: &str) -> Result<Vec<u8>, Fail> {
    Ok(octets_of(alloc, text.as_bytes())?.ok_or("no hex digits")?)
}
