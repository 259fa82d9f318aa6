// Which type a document is of, by its elements.
ghost use Rattle.std.specs.Prelude.{IfOk, IfSome};
ghost use Rattle.dump_walk.specs.Steps.{Takes};

use crate::cursor::{Cursor, Left, Step};
use crate::element_header::{find_header, size_of};
use crate::string_value::string_type;
use crate::strings::{is_inside, outermost_around};
use asn1_headers::whole_header::Header;
use dump_shapes::{Around, Candidate, FieldWalk, Shapes};
use std::alloc::{AllocError, Global};

/// The first shape that fits the encoding which begins octets: down to a depth, which each shape has of its own,
/// each element has a name, a version is a number that has one, and each field that has to be there is there. Where
/// the octets end before the encoding does, what is there has to fit, half of the elements that such an encoding
/// has at least have to be there, and no other shape may fit. `None` where none fits. It reads the headers down to
/// that depth, and takes memory for those that are open.
///
/// # Errors
/// Memory ran out.
pub fn fitting(alloc: Global, shapes: &Shapes, octets: &[u8]) -> Result<Option<usize>, AllocError> {
    // all shapes that may fit are a SEQUENCE, or constructed and of class Application or context-specific
    if !matches!(octets, [0x30 | 0x60..=0x7F | 0xA0..=0xBF, ..]) {
        return Ok(None);
    }
    let mut fronts: usize = 0;
    let mut front = None;
    for candidate in &shapes.candidates {
        let Some(trial) = tried(alloc, shapes, candidate, octets)? else {
            continue;
        };
        if !trial.is_front && trial.count >= candidate.least {
            return Ok(Some(candidate.shape));
        }
        if trial.is_front {
            fronts = fronts.saturating_add(1);
        }
        if trial.is_front && trial.count >= candidate.least.div_ceil(2) {
            front = Some(candidate.shape);
        }
    }
    Ok(if fronts == 1 { front } else { None })
}

// How far the encoding that begins octets is there, if it fits the candidate so far.
fn tried<'a>(
    alloc: Global,
    shapes: &'a Shapes,
    candidate: &Candidate,
    octets: &[u8],
) -> Result<Option<Trial<'a>>, AllocError> {
    let mut walk = FieldWalk::inside(alloc, shapes, Around::Shape(candidate.shape));
    walk.levels = candidate.levels;
    let mut trial = Trial {
        walk,
        count: 0,
        passed: None,
        least_depth: 0,
        is_front: false,
        is_other: false,
    };
    let mut cursor = Cursor::over(alloc, octets, false)?;
    while let Some(left) = cursor.next() {
        let Some(step) = trial.look_at(alloc, left, cursor.depth())? else {
            break;
        };
        cursor.go(step)?;
    }
    // those that are open where octets end too early may still come to have their fields
    let open = if trial.is_front { trial.least_depth } else { 0 };
    trial.walk.leave(open);
    if trial.is_other || trial.walk.lacks {
        return Ok(None);
    }
    Ok(Some(trial))
}

// How far an encoding was gone over, to see whether it is of a shape.
#[derive(Drop)]
struct Trial<'a> {
    // elements inside more others than its levels do not have to fit
    walk: FieldWalk<'a>,
    // how many elements fit
    count: usize,
    // inside how many elements the outermost one is that is open and passed over, if there is one
    passed: Option<usize>,
    // the least depth of an element that belongs to the encoding, or to what is there of it
    least_depth: usize,
    // whether the octets end before the encoding does, or no header stands where one has to
    is_front: bool,
    // whether an element does not fit
    is_other: bool,
}

impl Trial<'_> {
    // How a cursor goes on behind the element that begins what is left, inside so many others. `None` where none does
    // that belongs to the encoding, or the encoding does not fit.
    fn look_at(
        &mut self,
        alloc: Global,
        left: Left<'_>,
        depth: usize,
    ) -> Result<Option<Step>, AllocError>
        ensures { IfOk result (λ found. IfSome found (λ step. Takes step left.entry)) }
    {
        if left.begins_with_end() {
            return Ok(Some(Step::Out(2)));
        }
        if depth < self.least_depth {
            return Ok(None);
        }
        let Some(header) = find_header(alloc, left.octets)? else {
            self.is_front = true;
            self.least_depth = depth;
            return Ok(None);
        };
        let is_cut = header.announced > left.octets.len() - header.size;
        let size = if is_cut {
            left.octets.len()
        } else {
            size_of(left.octets, &header)
        };
        let element = left.octets.get(..size).unwrap_or(&[]);
        if !is_inside(self.passed, depth) && !self.fits(element, &header, depth)? {
            self.is_other = true;
            return Ok(None);
        }
        if is_cut || depth == 0 {
            self.is_front = is_cut;
            self.least_depth = depth.saturating_add(1);
        }
        let is_passed = depth >= self.walk.levels
            || !header.constructed
            || string_type(&header).is_some();
        self.passed = outermost_around(self.passed, depth, is_passed);
        if header.is_indefinite || !is_inside(self.passed, depth.saturating_add(1)) {
            return Ok(Some(Step::Into(header.size, size, header.is_indefinite)));
        }
        Ok(Some(Step::Past(size)))
    }

    // Whether an element with the header, as far as its octets are there, fits inside so many others.
    fn fits(&mut self, element: &[u8], header: &Header, depth: usize) -> Result<bool, AllocError> {
        self.count = self.count.saturating_add(1);
        let Some(spot) = self.walk.next(depth, element.first().copied())? else {
            return Ok(false);
        };
        if header.constructed {
            return Ok(true);
        }
        let contents = element.get(header.size..).unwrap_or(&[]);
        self.walk.see(contents);
        Ok(self.walk.shapes.may_have(spot, contents))
    }
}
