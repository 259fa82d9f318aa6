// The calls by their names.
use crate::arguments::of;
use crate::refusal::Answer;
use crate::{departures, documents, headers, made, tried};
use std::alloc::Global;

// The answer of the call of this name to the octets.
pub fn answer(alloc: Global, name: &str, octets: &[u8]) -> Answer {
    match name {
        "read" => of(alloc, octets, documents::read),
        "count" => documents::count(alloc, octets),
        "first" => documents::first(alloc, octets),
        "place" => documents::place(alloc, octets),
        "rewrite" => documents::rewritten(alloc, octets),
        "strict" => documents::strict(alloc, octets),
        "is_der" => documents::der(alloc, octets),
        "departures" => departures::listed(alloc, octets),
        "signed" => documents::signed(alloc, octets),
        "made" => of(alloc, octets, made::survival),
        "decode_tag" => headers::tag(alloc, octets),
        _ => tried::answer(alloc, name, octets),
    }
}
