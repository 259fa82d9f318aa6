// The departures of octets from DER, by a loop that keeps where the open encodings end.
ghost use Rattle.std.specs.Prelude.{◌≡◌, ◌↔◌, ◌<◌, ◌≤◌, [], IfErr, IfOk, IsTrue, length, slice_range, false};
ghost use Rattle.asn1_headers.specs.Fault.{OutOfMemoryOr};
ghost use Rattle.asn1_blocks.specs.Places.{HeaderFound};
ghost use Rattle.asn1_der.specs.Der.{IsDer};
ghost use Rattle.asn1_der.specs.Departures.{AreDepartures, HeaderFaultBehind, NoEncodingsFault};
ghost use Rattle.asn1_der.specs.Listing.{GoesOnListing, HasListed, HasExtents, is_at_end as is_at_end_is};
ghost use Rattle.asn1_der.specs.declared.rule.Departure.{Departure};

use crate::der::is_der;
use crate::encodings::is_at_end;
use crate::own::push_own;
use crate::rule::{Departure, Rule};
use asn1_blocks::parsed::{PlacedHeader, header_within};
use asn1_blocks::read_loop::{is_out_of_memory, out_of_memory};
use asn1_headers::error::{ASN1DecodeErr, LocatedErr};
use asn1_headers::header::HeaderCount;
use std::alloc::{AllocError, Global};

/// Each rule of DER (X.690) that an encoding in the input breaks, with the offset of the encoding, in the order of the
/// offsets. The list is empty exactly if the input is DER.
///
/// It looks inside constructed encodings, at every depth, and not inside an OCTET STRING or a BIT STRING. A length of
/// the indefinite form is one departure, and what it encloses is followed to its end-of-contents bytes. A constructed
/// encoding whose contents are not encodings is one departure, `NotEncodings`: nothing is listed inside it, and the
/// list goes on behind it. A SET is out of order, and an EXTERNAL, EMBEDDED PDV or CHARACTER STRING holds others than
/// its own components, only if all that it holds is DER.
///
/// Rules that need a schema are not checked: values that are those of DEFAULT (11.5), named bits with zeros at the end
/// (11.2.2), and sizes. A SET may be ordered by tags (10.3) or by bytes (11.6), since only a schema says which. What
/// `is_der` does not check, it does not check either.
///
/// It takes memory for the list, for what it finds inside contents that turn out to be no encodings, and for each
/// encoding that is open at a time, and no stack. Its time grows in proportion to the input, or as n log n where SETs
/// inside SETs are ordered by bytes.
///
/// # Errors
/// The input is not encodings one after another by their headers: the first header at fault outside of definite
/// encodings, with its offset. It is empty. Memory ran out.
///
/// A header is at fault, too, if more than eight length octets follow the initial one, even where the first of them are
/// 0, as X.690 allows (8.1.3.5): `04 89 00 00 00 00 00 00 00 00 01 41` is the error `LengthTooLarge` at offset 0, and
/// no departure. A constructed encoding with such a header directly inside is `NotEncodings`.
///
/// ```rust
/// use simple_asn1::{Departure, LocatedErr, departures};
/// use std::alloc::Global;
///
/// // What keeps a document from being DER: of `30 06 01 01 2A 02 01 05` the BOOLEAN at offset 2.
/// fn faults(alloc: Global, document: &[u8]) -> Result<Vec<Departure>, LocatedErr> {
///     departures(alloc, document)
/// }
/// ```
pub fn departures(alloc: Global, octets: &[u8]) -> Result<Vec<Departure>, LocatedErr>
    ensures listed { IfOk result (λ found. AreDepartures octets.now found.items) }
    ensures none { IfOk result (λ found. (found.items ≡ []) ↔ IsDer octets.now) }
    ensures refused { IfErr result (λ e. OutOfMemoryOr (NoEncodingsFault octets.now e.offset) e.error) }
{
    match is_der(alloc, octets) {
        Ok(true) => Ok(Vec::new(alloc)),
        Ok(false) => list(alloc, octets),
        Err(_) => Err(out_of_memory(0)),
    }
}

// An open definite encoding: where it begins and ends, how many encodings of the indefinite form are open in it, and
// how many departures were listed before those inside it.
#[derive(Clone, Copy, Drop)]
struct Extent {
    offset: usize,
    end: usize,
    unended: usize,
    listed: usize,
}

// The offset that was reached, the innermost open definite encoding, and those around it. All octets are the outermost.
#[derive(Drop)]
struct Place {
    index: usize,
    inner: Extent,
    outer: Vec<Extent>,
}

fn list(alloc: Global, octets: &[u8]) -> Result<Vec<Departure>, LocatedErr>
    ensures listed { IfOk result (λ found. AreDepartures octets.now found.items) }
    ensures none { IfOk result (λ found. (found.items ≡ []) ↔ IsDer octets.now) }
    ensures refused { IfErr result (λ e. OutOfMemoryOr (NoEncodingsFault octets.now e.offset) e.error) }
{
    if octets.is_empty() {
        return Err(LocatedErr {
            error: ASN1DecodeErr::EmptyBuffer,
            offset: 0,
        });
    }
    let mut found = Vec::new(alloc);
    let mut place = Place {
        index: 0,
        inner: Extent {
            offset: 0,
            end: octets.len(),
            unended: 0,
            listed: 0,
        },
        outer: Vec::new(alloc),
    };
    'turns: loop {
        if !take_turn(alloc, octets, &mut place, &mut found)? {
            return Ok(found);
        }
    }
}

// Looks at one encoding beside its items, or closes one at its end. Whether something is left.
fn take_turn(
    alloc: Global,
    octets: &[u8],
    place: &mut Place,
    found: &mut Vec<Departure>,
) -> Result<bool, LocatedErr>
    requires placed { HasExtents octets.now place.old found.old.items }
    requires within { place.old.inner.end ≤ length octets.now }
    ensures turned { IfOk result (λ more.
        HasListed octets.now more place.old place.new found.old.items found.new.items) }
    ensures refused { IfErr result (λ e. OutOfMemoryOr (HeaderFaultBehind 0 0 octets.now e.offset) e.error) }
{
    if place.index == place.inner.end && place.inner.unended == 0 {
        return Ok(close(octets, place, found));
    }
    if is_at_end(place.inner.unended, &octets[place.index..place.inner.end]) {
        pass_end(octets, place, found);
        return Ok(true);
    }
    match header_at(alloc, octets, place) {
        Ok(header) => match advance(alloc, octets, place, &header, found) {
            Ok(()) => Ok(true),
            Err(_) => Err(out_of_memory(place.index)),
        },
        Err(error) => refuse(octets, place, found, error),
    }
}

// Goes on behind the innermost open encoding, which has ended.
fn close(_octets: &[u8], place: &mut Place, _found: &[Departure]) -> bool
    requires placed { HasExtents _octets.now place.old _found.now }
    requires ended { place.old.index ≡ place.old.inner.end }
    requires no_more { place.old.inner.unended ≡ 0 }
    ensures { HasListed _octets.now result place.old place.new _found.now _found.now }
{
    match place.outer.pop() {
        Some(extent) => {
            place.inner = extent;
            true
        }
        None => false,
    }
}

// Goes on behind end-of-contents octets.
fn pass_end(_octets: &[u8], place: &mut Place, _found: &[Departure])
    requires placed { HasExtents _octets.now place.old _found.now }
    requires end { IsTrue (is_at_end_is place.old.inner.unended
        (slice_range _octets.now place.old.index place.old.inner.end)) }
    ensures { GoesOnListing _octets.now place.old place.new _found.now _found.now }
{
    place.index += 2;
    place.inner.unended -= 1;
}

// The header at the place, or what is at fault there.
fn header_at(alloc: Global, octets: &[u8], place: &Place) -> Result<PlacedHeader, ASN1DecodeErr>
    requires order { place.now.index ≤ place.now.inner.end }
    requires within { place.now.inner.end ≤ length octets.now }
    requires more { place.now.index ≡ place.now.inner.end → 0 < place.now.inner.unended }
    ensures found { IfOk result (HeaderFound octets.now place.now.index place.now.inner.end) }
    ensures refused { IfErr result (OutOfMemoryOr (HeaderFaultBehind place.now.inner.unended place.now.index
        (slice_range octets.now place.now.index place.now.inner.end) place.now.index)) }
{
    let (index, end) = (place.index, place.inner.end);
    if index == end {
        return Err(ASN1DecodeErr::Incomplete);
    }
    let mut count = HeaderCount::new();
    header_within(alloc, octets, 0, end, index, &mut count)
}

// Goes on behind the innermost open encoding, whose contents octets are no encodings: that is listed in the place of
// what was found inside it. Around the outermost one there is none to go on in.
fn refuse(
    octets: &[u8],
    place: &mut Place,
    found: &mut Vec<Departure>,
    error: ASN1DecodeErr,
) -> Result<bool, LocatedErr>
    requires placed { HasExtents octets.now place.old found.old.items }
    requires within { place.old.inner.end ≤ length octets.now }
    requires at_fault { OutOfMemoryOr (HeaderFaultBehind place.old.inner.unended place.old.index
        (slice_range octets.now place.old.index place.old.inner.end) place.old.index) error }
    ensures turned { IfOk result (λ more.
        HasListed octets.now more place.old place.new found.old.items found.new.items) }
    ensures refused { IfErr result (λ e. OutOfMemoryOr (HeaderFaultBehind 0 0 octets.now e.offset) e.error) }
{
    if is_out_of_memory(&error) {
        return Err(out_of_memory(place.index));
    }
    let Some(extent) = place.outer.pop() else {
        return Err(LocatedErr {
            error,
            offset: place.index,
        });
    };
    found.truncate(place.inner.listed);
    let departure = Departure {
        offset: place.inner.offset,
        rule: Rule::NotEncodings,
    };
    match found.push(departure) {
        Ok(()) => {
            place.index = place.inner.end;
            place.inner = extent;
            Ok(true)
        }
        Err(_) => Err(out_of_memory(place.index)),
    }
}

// Lists what the encoding with the header breaks, and goes on inside it or behind it.
fn advance(
    alloc: Global,
    octets: &[u8],
    place: &mut Place,
    header: &PlacedHeader,
    found: &mut Vec<Departure>,
) -> Result<(), AllocError>
    requires placed { HasExtents octets.now place.old found.old.items }
    requires within { place.old.inner.end ≤ length octets.now }
    requires header { HeaderFound octets.now place.old.index place.old.inner.end header.now }
    requires no_end { is_at_end_is place.old.inner.unended
        (slice_range octets.now place.old.index place.old.inner.end) ≡ false }
    ensures { IfOk result (λ _. GoesOnListing octets.now place.old place.new found.old.items found.new.items) }
{
    let contents = &octets[header.start..header.end];
    push_own(alloc, place.index, header, contents, found)?;
    if header.is_indefinite {
        place.inner.unended += 1;
        place.index = header.end;
        return Ok(());
    }
    if !header.constructed {
        place.index = header.end;
        return Ok(());
    }
    place.outer.push(place.inner)?;
    place.inner = Extent {
        offset: place.index,
        end: header.end,
        unended: 0,
        listed: found.len(),
    };
    place.index = header.start;
    Ok(())
}
