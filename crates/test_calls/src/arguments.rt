// What a call is given, read from the octets of its line.
use crate::refusal::{Answer, Refusal, ran_out};
use simple_asn1::Document;
use std::alloc::Global;

// What is read from octets, and given to a call.
pub trait Argument: Drop + Sized {
    // Reads it, or refuses the octets.
    fn read(alloc: Global, octets: &[u8]) -> Result<Self, Refusal>;

    // Whether the two are the same.
    fn is_same(&self, other: &Self) -> bool;
}

// The answer of the call to what is read from the octets. Where memory ran out, that has to be as it was.
pub fn of<A: Argument, F: FnOnce(Global, &A) -> Answer>(
    alloc: Global,
    octets: &[u8],
    call: F,
) -> Answer
    requires { F.IsAlwaysCallable call }
{
    let argument = A::read(alloc, octets)?;
    let before = A::read(alloc, octets)?;
    match call(alloc, &argument) {
        Err(Refusal::Memory) => Err(ran_out(alloc, argument.is_same(&before))),
        answer => answer,
    }
}

impl Argument for Document {
    fn read(alloc: Global, octets: &[u8]) -> Result<Document, Refusal> {
        Ok(Document::from_der(alloc, octets)?)
    }

    fn is_same(&self, other: &Document) -> bool {
        self.blocks() == other.blocks()
    }
}
