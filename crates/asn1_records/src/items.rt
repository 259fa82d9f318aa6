// Encodings one after another, found by their headers: no entries are kept. A constructed encoding of another class
// than Universal holds encodings if its contents octets are such.
ghost use Rattle.std.specs.Prelude.{◌≡◌, ◌≤◌, ℕ, IfOk, IfSome, IsTrue, false, length};
ghost use Rattle.asn1_headers.specs.Fault.{DecodeFault};
ghost use Rattle.asn1_outline.specs.Shapes.{AreShapes, HasItems, HeadersFaultAt, Shapes};
ghost use Rattle.asn1_records.specs.Inner.Named.{IsNamedEncoding, IsPlacedIn, shapes_from};

use asn1_blocks::encoding::Encodings;
use asn1_blocks::parsed::{PlacedHeader, header_between};
use asn1_blocks::read_loop::{is_out_of_memory, is_read_inside};
use asn1_outline::header_walk::check_headers;
use simple_asn1::ASN1Class;
use std::alloc::{AllocError, Global};

// An encoding of a document: where it begins, and its header.
#[derive(Drop)]
pub struct PlacedEncoding {
    pub offset: usize,
    pub header: PlacedHeader,
}

// The encoding so many behind the first of those that stand side by side from the start to the end.
pub fn item_from(
    alloc: Global,
    octets: &[u8],
    start: usize,
    end: usize,
    step: usize,
) -> Result<Option<PlacedEncoding>, AllocError>
    requires order { start ≤ end }
    requires within { end ≤ length octets.now }
    ensures placed { IfOk result (λ found. IfSome found (IsPlacedIn octets.now)) }
    ensures item { (all : Shapes) → AreShapes octets.now start end all
        → IfOk result (IsNamedEncoding octets.now (shapes_from step all)) }
{
    let mut encodings = Encodings::of(&octets[start..end]);
    for _ in 0..step {
        let Some(_) = encodings.next() else {
            return Ok(None);
        };
    }
    let offset = end - encodings.rest.len();
    match header_between(alloc, octets, offset, end)? {
        Some(header) => Ok(Some(PlacedEncoding { offset, header })),
        None => Ok(None),
    }
}

// Where the items of an encoding begin, and where they end: at once, where it holds none.
pub fn items_of(
    alloc: Global,
    octets: &[u8],
    encoding: &PlacedEncoding,
) -> Result<(usize, usize), AllocError>
    requires { IsPlacedIn octets.now encoding.now }
    ensures order { IfOk result (λ bounds. bounds.0 ≤ bounds.1) }
    ensures within { IfOk result (λ bounds. bounds.1 ≤ length octets.now) }
    ensures items { (items : Shapes) → HasItems octets.now encoding.now.header items
        → IfOk result (λ bounds. AreShapes octets.now bounds.0 bounds.1 items) }
{
    let PlacedHeader { start, end, .. } = encoding.header;
    if holds_items(alloc, octets, encoding)? {
        return Ok((start, end));
    }
    Ok((end, end))
}

// Whether the contents octets of an encoding are encodings, one after another.
fn holds_items(alloc: Global, octets: &[u8], encoding: &PlacedEncoding) -> Result<bool, AllocError>
    requires { IsPlacedIn octets.now encoding.now }
    ensures yes { (items : Shapes) → HasItems octets.now encoding.now.header items
        → IfOk result (λ yes. IsTrue yes
        → AreShapes octets.now encoding.now.header.start encoding.now.header.end items) }
    ensures no { (items : Shapes) → HasItems octets.now encoding.now.header items
        → IfOk result (λ yes. yes ≡ false
        → AreShapes octets.now encoding.now.header.end encoding.now.header.end items) }
{
    let header = &encoding.header;
    if !is_read_inside(header) {
        return Ok(false);
    }
    match header.class {
        ASN1Class::Universal => Ok(true),
        _ => are_encodings(alloc, octets, header.start, header.end),
    }
}

// Whether octets from the start to the end are encodings, one after another, as far as headers tell, or none.
fn are_encodings(alloc: Global, octets: &[u8], start: usize, end: usize) -> Result<bool, AllocError>
    requires order { start ≤ end }
    requires within { end ≤ length octets.now }
    ensures yes { IfOk result (λ yes. IsTrue yes
        → (fault : DecodeFault) (offset : ℕ) → HeadersFaultAt octets.now start start end fault offset → ⊥) }
    ensures no { IfOk result (λ yes. yes ≡ false → (all : Shapes) → AreShapes octets.now start end all → ⊥) }
{
    if start == end {
        return Ok(true);
    }
    match check_headers(alloc, &octets[start..end]) {
        Ok(()) => Ok(true),
        Err(located) => {
            if is_out_of_memory(&located.error) {
                return Err(AllocError);
            }
            Ok(false)
        }
    }
}
