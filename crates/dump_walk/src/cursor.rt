// Going over the headers of octets: which encoding comes next, and inside which contents octets.
ghost use Rattle.std.specs.Prelude.{◌≡◌, ◌&&◌, ◌-◌, ◌∷◌, [], List, IfNone, IfOk, IfSome, OnOk, drop, length, slice_range};
ghost use Rattle.asn1_headers.specs.Indefinite.{begins_with_end as begins_with_end_is};
ghost use Rattle.dump_walk.specs.Steps.{Goes, HasLeft, IsLeftOf, end_at, ends_of};
ghost use Rattle.dump_walk.specs.declared.cursor.End.{End};

use crate::sum::checked_sum;
use asn1_headers::indefinite::begins_with_end;
use std::alloc::{AllocError, Global};

// Where contents octets end: at the offset, if end-of-contents octets do not end them before.
#[derive(Clone, Copy, Drop)]
pub struct End {
    pub offset: usize,
    // whether end-of-contents octets end them (X.690 8.1.5)
    pub is_indefinite: bool,
}

// What is left of contents octets that have not ended.
#[derive(Clone, Copy)]
pub struct Left<'a> {
    pub octets: &'a [u8],
    // whether end-of-contents octets end them
    pub is_indefinite: bool,
}

impl<'a> Left<'a> {
    // Whether it begins with the end-of-contents octets that end it.
    pub fn begins_with_end(self) -> bool
        ensures { result ≡ (self.entry.is_indefinite && begins_with_end_is self.entry.octets.now) }
    {
        self.is_indefinite && begins_with_end(self.octets)
    }
}

// How a cursor goes on behind what stands at the front of what is left.
#[derive(Clone, Copy, Drop)]
pub enum Step {
    // into the contents octets of an encoding: how many octets its header has, how many it takes at most, and whether
    // end-of-contents octets end it
    Into(usize, usize, bool),
    // to what stands behind it: how many octets it has
    Past(usize),
    // out of the contents octets around: how many end-of-contents octets there are
    Out(usize),
}

// How far octets were gone over.
#[derive(Drop)]
pub struct Cursor<'a> {
    octets: &'a [u8],
    pub offset: usize,
    // where the contents octets end that are open, the innermost last
    ends: Vec<End>,
}

impl<'a> Cursor<'a> {
    // At the first of octets.
    pub fn over(
        alloc: Global,
        octets: &'a [u8],
        is_indefinite: bool,
    ) -> Result<Cursor<'a>, AllocError>
        ensures octets { IfOk result (λ cursor. cursor.octets.now ≡ octets.now) }
        ensures offset { IfOk result (λ cursor. cursor.offset ≡ 0) }
        ensures ends { IfOk result (λ cursor. cursor.ends.items ≡ end_at (length octets.now) is_indefinite ∷ []) }
    {
        let mut ends = Vec::new(alloc);
        ends.push(End {
            offset: octets.len(),
            is_indefinite,
        })?;
        Ok(Cursor {
            octets,
            offset: 0,
            ends,
        })
    }

    // Inside how many encodings it is.
    pub fn depth(&self) -> usize
        ensures { result ≡ length self.now.ends.items - 1 }
    {
        self.ends.len().saturating_sub(1)
    }

    // What is left of the innermost contents octets that have not ended. It leaves those of definite length that have.
    pub fn next(&mut self) -> Option<Left<'a>>
        ensures left { IfSome result (IsLeftOf self.new) }
        ensures none { IfNone result (ends_of self.new ≡ []) }
        ensures offset { self.new.offset ≡ self.old.offset }
        ensures octets { self.new.octets.now ≡ self.old.octets.now }
        ensures ended { HasLeft self.new.octets.now self.new.offset (ends_of self.old) (ends_of self.new) }
    {
        while let Some(end) = self.innermost() {
            let octets = octets_between(self.octets, self.offset, end.offset);
            if end.is_indefinite || !octets.is_empty() {
                return Some(Left {
                    octets,
                    is_indefinite: end.is_indefinite,
                });
            }
            self.leave();
        }
        None
    }

    // Where the innermost contents octets end that are open.
    fn innermost(&self) -> Option<End>
        ensures some { IfSome result (λ end. (around : List End) × (ends_of self.now ≡ end ∷ around)) }
        ensures none { IfNone result (ends_of self.now ≡ []) }
    {
        match self.ends.as_slice() {
            [.., end] => Some(*end),
            [] => None,
        }
    }

    // Goes on.
    pub fn go(&mut self, step: Step) -> Result<(), AllocError>
        ensures { OnOk result (Goes step self.old self.new) }
    {
        match step {
            Step::Into(header, size, is_indefinite) => {
                let offset = checked_sum(self.offset, size)?;
                self.ends.push(End {
                    offset,
                    is_indefinite,
                })?;
                self.offset = checked_sum(self.offset, header)?;
            }
            Step::Past(size) => self.offset = checked_sum(self.offset, size)?,
            Step::Out(size) => {
                self.leave();
                self.offset = checked_sum(self.offset, size)?;
            }
        }
        Ok(())
    }

    // Leaves the innermost contents octets that are open.
    fn leave(&mut self)
        ensures ends { ends_of self.new ≡ drop 1 (ends_of self.old) }
        ensures octets { self.new.octets.now ≡ self.old.octets.now }
        ensures offset { self.new.offset ≡ self.old.offset }
    {
        self.ends.pop();
    }
}

// The octets from an offset to before another, as far as they are there.
pub fn octets_between(octets: &[u8], from: usize, to: usize) -> &[u8]
    ensures { result.now ≡ slice_range octets.now from to }
{
    let (_, rest) = octets.split_at(from.min(octets.len()));
    let size = to.saturating_sub(from);
    let (between, _) = rest.split_at(size.min(rest.len()));
    between
}
