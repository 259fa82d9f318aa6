// No more calls. The program that the check `calls` builds without a proof has those of `checks/tried` in the place of
// this file.
use crate::refusal::{Answer, refusal_of};
use std::alloc::Global;

// The answer to a name that no call has.
pub fn answer(alloc: Global, _name: &str, _octets: &[u8]) -> Answer {
    Err(refusal_of(alloc, "badline"))
}
