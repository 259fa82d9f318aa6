// The components of contents octets of an OBJECT IDENTIFIER, as numbers, in decimal and in the fewest octets.
ghost use Rattle.asn1_records.specs.Contents.{AnswersComponent, AnswersComponents, AnswersDotted, AnswersShortest};

use crate::dotted::{MOST_IN_DECIMAL, put_decimal};
use crate::putting::{all_put, nothing_put, put_front};
use crate::record::Outcome;
use crate::status::{
    INCOMPLETE, NO_MEMORY, NO_SUCH_VALUE, OUT_OF_RANGE, TOO_LONG, status_of_fault,
};
use asn1_headers::header::last_octet_at;
use asn1_leaves::contents::object_identifier::are_clearly_shortest;
use asn1_leaves::oid;
use simple_asn1::ASN1DecodeErr;
use std::alloc::Global;

// Puts the components, each of which has to be a u64.
pub fn put_components(alloc: Global, contents: &[u8], room: &mut [u64]) -> Outcome
    ensures { AnswersComponents contents.now room.old room.new result }
{
    let oid = match oid::read(alloc, contents) {
        Ok(oid) => oid,
        Err(e) => return nothing_put(status_of_fault(&e), 0),
    };
    match oid.as_vec::<u64>(alloc) {
        Ok(numbers) => put_front(&numbers, room),
        Err(ASN1DecodeErr::Overflow) => nothing_put(OUT_OF_RANGE, 0),
        Err(_) => nothing_put(NO_MEMORY, 0),
    }
}

// Puts them in decimal, if their contents octets are few enough.
pub fn put_dotted(alloc: Global, contents: &[u8], room: &mut [u8]) -> Outcome
    ensures { AnswersDotted contents.now room.old room.new result }
{
    if contents.len() > MOST_IN_DECIMAL {
        return nothing_put(TOO_LONG, 0);
    }
    match put_decimal(alloc, contents, room) {
        Ok(outcome) => outcome,
        Err(status) => nothing_put(status, 0),
    }
}

// How many octets the component has that begins at the index.
pub fn component_at(contents: &[u8], index: usize) -> Outcome
    ensures { AnswersComponent contents.now index result }
{
    if index == 0 {
        return nothing_put(NO_SUCH_VALUE, index);
    }
    if index >= contents.len() {
        return nothing_put(NO_SUCH_VALUE, index);
    }
    let (_, rest) = contents.split_at(index);
    match last_octet_at(rest) {
        Some(last) => all_put(last + 1),
        None => nothing_put(INCOMPLETE, index),
    }
}

// Puts the contents octets of those that are read.
fn put_shortened(alloc: Global, contents: &[u8], room: &mut [u8]) -> Outcome
    ensures { AnswersShortest contents.now room.old room.new result }
{
    let oid = match oid::read(alloc, contents) {
        Ok(oid) => oid,
        Err(e) => return nothing_put(status_of_fault(&e), 0),
    };
    match oid.as_raw(alloc) {
        Ok(octets) => put_front(&octets, room),
        Err(_) => nothing_put(NO_MEMORY, 0),
    }
}

// Puts their contents octets, each subidentifier in its shortest form. Those that are it take no memory.
pub fn put_shortest(alloc: Global, contents: &[u8], room: &mut [u8]) -> Outcome
    ensures { AnswersShortest contents.now room.old room.new result }
{
    if are_clearly_shortest(contents) {
        return put_front(contents, room);
    }
    put_shortened(alloc, contents, room)
}
