// Whether octets are DER, by a loop that keeps where the open encodings end.
ghost use Rattle.std.specs.Prelude.{◌≡◌, ◌↔◌, IfOk, IsTrue};
ghost use Rattle.asn1_blocks.specs.Places.{HeaderFound};
ghost use Rattle.asn1_der.specs.Der.{IsDer};
ghost use Rattle.asn1_der.specs.Turns.{HasChecked, HasEnds};

use crate::header_rules::is_der_alone;
use asn1_blocks::parsed::{PlacedHeader, header_within};
use asn1_blocks::read_loop::{Turn, is_out_of_memory};
use asn1_headers::header::HeaderCount;
use std::alloc::{AllocError, Global};

/// Whether the input is DER (X.690): one or more encodings by its rules, which hold inside them too, at every depth.
///
/// X.690 decides, and not what this library reads or writes. `03 01 00` is DER and `03 00` is not. Types that the
/// library does not read, such as REAL, are judged as well. Bytes inside an OCTET STRING or a BIT STRING are not looked
/// into.
///
/// Some rules need a schema, and are not checked: values that are those of DEFAULT (11.5), named bits with zeros at the
/// end (11.2.2), and sizes. A SET may be ordered by tags (10.3) or by octets (11.6), since only a schema says which. Of
/// those that need none, a few are not checked, such as which escape sequences strings have and which of its notations
/// a TIME has: GRAMMAR.md lists all of them in section 6, each with an input and the answer.
///
/// It takes memory for each encoding that is open at a time, and no stack. Its time grows in proportion to the input,
/// or as n log n where SETs inside SETs are ordered by octets.
///
/// # Errors
/// Memory ran out.
///
/// ```rust
/// use simple_asn1::is_der;
/// use std::alloc::{AllocError, Global};
///
/// // Whether a document may be compared by its octets: of `30 03 01 01 FF`; not of `30 03 01 01 2A`.
/// fn may_be_compared(alloc: Global, document: &[u8]) -> Result<bool, AllocError> {
///     is_der(alloc, document)
/// }
/// ```
pub fn is_der(alloc: Global, octets: &[u8]) -> Result<bool, AllocError>
    ensures { IfOk result (λ found. IsTrue found ↔ IsDer octets.now) }
{
    if octets.is_empty() {
        return Ok(false);
    }
    let mut place = Place {
        index: 0,
        end: octets.len(),
        outer: Vec::new(alloc),
    };
    'turns: loop {
        match take_turn(alloc, octets, &mut place)? {
            Turn::More => {}
            Turn::End => return Ok(true),
            Turn::Stop => return Ok(false),
        }
    }
}

// The offset that was reached, where the innermost open encoding ends, and where those around it end.
#[derive(Drop)]
struct Place {
    index: usize,
    end: usize,
    outer: Vec<usize>,
}

// Looks at one encoding beside its items, or closes one at its end.
fn take_turn(alloc: Global, octets: &[u8], place: &mut Place) -> Result<Turn, AllocError>
    requires { HasEnds octets.now place.old }
    ensures { IfOk result (λ turn. HasChecked octets.now place.old turn place.new) }
{
    if place.index == place.end {
        return Ok(close(octets, place));
    }
    let mut count = HeaderCount::new();
    match header_within(
        alloc,
        octets,
        place.index,
        place.end,
        place.index,
        &mut count,
    ) {
        Ok(header) => advance(octets, place, &header),
        Err(error) => {
            if is_out_of_memory(&error) {
                return Err(AllocError);
            }
            Ok(Turn::Stop)
        }
    }
}

// Goes on behind the innermost open encoding, which has ended.
fn close(_octets: &[u8], place: &mut Place) -> Turn
    requires placed { HasEnds _octets.now place.old }
    requires ended { place.old.index ≡ place.old.end }
    ensures { HasChecked _octets.now place.old result place.new }
{
    match place.outer.pop() {
        Some(end) => {
            place.end = end;
            Turn::More
        }
        None => Turn::End,
    }
}

// Goes on inside the encoding with the header, or behind it.
fn advance(octets: &[u8], place: &mut Place, header: &PlacedHeader) -> Result<Turn, AllocError>
    requires placed { HasEnds octets.now place.old }
    requires found { HeaderFound octets.now place.old.index place.old.end header.now }
    ensures { IfOk result (λ turn. HasChecked octets.now place.old turn place.new) }
{
    if !is_der_alone(octets, place.index, place.end, header) {
        return Ok(Turn::Stop);
    }
    if header.constructed {
        place.outer.push(place.end)?;
        place.end = header.end;
        place.index = header.start;
    } else {
        place.index = header.end;
    }
    Ok(Turn::More)
}
