// The pieces of octets, read once for lines and for JSON.
ghost use Rattle.std.specs.Prelude.{◌≡◌, ◌&&◌, ◌↔◌, ◌+◌, ◌<◌, ◌≤◌, ℕ, [], None, false, length, string_bytes, true, IfOk, IsTrue};
ghost use Rattle.asn1_headers.specs.Front.{HasNoHeader};
ghost use Rattle.asn1_headers.specs.Indefinite.{begins_with_end};
ghost use Rattle.dump_walk.specs.Fronts.{IsJudged, IsNextLine};
ghost use Rattle.dump_walk.specs.Headers.{IsHeaderOf, is_opened};
ghost use Rattle.dump_walk.specs.Pieces.{IsPiece, IsSized, fault_offset, kind_contents, kind_front, kind_header, kind_indefinite, kind_type_name};
ghost use Rattle.dump_walk.specs.declared.piece.PieceKind.TheVariants.{EndOfContents};

use crate::cursor::{Left, Step};
use crate::element_header::{is_stray, size_of, step_of};
use crate::marks::{Breaches, find_breaches};
use crate::nested::{Nested, nested_in};
use crate::place::Place;
use crate::string_value::string_type;
use crate::strings::{Joined, read_joined};
use crate::sum::checked_sum;
use asn1_headers::error::ASN1DecodeErr;
use asn1_headers::header::HeaderCount;
use asn1_headers::whole_header::{Header, read_header};
use dump_shapes::{Named, Shapes};
use dump_values::faults::{Fault, fault_at};
use dump_values::leaf::{ContentsType, Read, read_contents};
use dump_values::tag::{holds_encodings, tag_name};
use dump_values::value::LeafValue;
use std::alloc::{AllocError, Global};

// What is wrong where end-of-contents octets are missing.
const MISSING_END: &str = "end-of-contents is missing (Incomplete)";

// What is wrong with a primitive encoding whose length has the indefinite form; the length is read as 0.
const STRAY: &str = "indefinite length of a primitive element";

// What stands at the front of octets.
#[derive(Drop)]
pub enum PieceKind<'a> {
    // end-of-contents octets: how many there are, 2, or 0 where they are missing
    EndOfContents(usize),
    // octets that begin with no header
    Unreadable(&'a [u8]),
    // an encoding that is cut short, with its contents octets as far as they are there
    Cut(Header, &'a [u8]),
    // a whole encoding that is gone into, with its contents octets, in the indefinite form with all that is left; and
    // of a string its segments joined
    Opened(Header, &'a [u8], Option<Joined>),
    // another whole encoding, with its contents octets and their value, unless something is wrong with them
    Leaf(Header, &'a [u8], Option<LeafValue>),
}

// A piece of octets.
#[derive(Drop)]
pub struct Piece<'a> {
    // where the octets stand that it is a piece of, and inside how many encodings it stands
    pub place: Place,
    // how many octets stand before it among these
    pub offset: usize,
    pub kind: PieceKind<'a>,
    // what of DER it breaks
    pub breaches: Breaches,
    pub fault: Option<Fault>,
    // how a cursor goes on behind it
    pub step: Step,
    // the encodings inside its contents octets
    pub nested: Option<Nested<'a>>,
}

// How many octets a piece has.
#[derive(Clone, Copy, Drop)]
pub struct Sizes {
    // those of its header
    pub header: usize,
    // the contents octets that it announces, or has
    pub contents: usize,
    // whether its length is of the indefinite form
    pub is_indefinite: bool,
}

impl<'a> Piece<'a> {
    // How many octets stand before it in the document.
    pub fn document_offset(&self) -> Result<usize, AllocError>
        ensures { IfOk result (λ n. n ≡ self.now.place.base + self.now.offset) }
    {
        checked_sum(self.place.base, self.offset)
    }

    // How many octets it has.
    pub fn sizes(&self) -> Sizes
        ensures header { result.header ≡ kind_header self.now.kind }
        ensures contents { result.contents ≡ kind_contents self.now.kind }
        ensures indefinite { result.is_indefinite ≡ kind_indefinite self.now.kind }
    {
        let (header, contents, is_indefinite) = match &self.kind {
            PieceKind::EndOfContents(size) => (*size, 0, false),
            PieceKind::Unreadable(octets) => (0, octets.len(), false),
            PieceKind::Cut(header, _)
            | PieceKind::Opened(header, _, _)
            | PieceKind::Leaf(header, _, _) => {
                (header.size, header.announced, header.is_indefinite)
            }
        };
        Sizes {
            header,
            contents,
            is_indefinite,
        }
    }

    // The name of its type, or its tag.
    pub fn type_name(&self, alloc: Global) -> Result<String, AllocError>
        ensures { IfOk result (λ name. string_bytes name ≡ kind_type_name self.now.kind) }
    {
        match &self.kind {
            PieceKind::EndOfContents(_) => String::from_str(alloc, "end-of-contents"),
            PieceKind::Unreadable(_) => String::from_str(alloc, "unreadable"),
            PieceKind::Cut(header, _)
            | PieceKind::Opened(header, _, _)
            | PieceKind::Leaf(header, _, _) => { tag_name(alloc, header.class, &header.tag) }
        }
    }

    // The names of the field that it is, if it is one and they are shown.
    pub fn names(&self, shapes: &Shapes) -> Option<Named> {
        if self.place.style.is_plain {
            return None;
        }
        let spot = self.place.field()?;
        match &self.kind {
            PieceKind::EndOfContents(_) | PieceKind::Unreadable(_) => None,
            _ => Some(Named {
                value: spot
                    .leaf
                    .and_then(|leaf| shapes.value_name(leaf, self.contents())),
                ..spot.named
            }),
        }
    }

    // Whether it is end-of-contents octets that are there.
    pub fn is_end(&self) -> bool
        ensures { IsTrue result ↔ (self.now.kind ≡ EndOfContents 2) }
    {
        matches!(self.kind, PieceKind::EndOfContents(2))
    }

    // Whether it is a whole string that is constructed.
    pub fn is_string(&self) -> bool {
        match &self.kind {
            PieceKind::Opened(header, _, _) => string_type(header).is_some(),
            _ => false,
        }
    }

    // Whether that its octets hold encodings is a guess.
    pub fn is_guess(&self) -> bool {
        self.nested.is_some_and(|nested| nested.is_guess)
    }

    // The names of the bits of it that are set, if its type has names for bits, and some are set.
    pub fn bits_text(&self, alloc: Global, shapes: &Shapes) -> Result<Option<String>, AllocError> {
        match (self.place.leaf(), self.value()) {
            (Some(leaf), Some(LeafValue::Bits(bits))) => shapes.bits_text(
                alloc,
                leaf,
                bits.count,
                &bits.octets,
            ),
            _ => Ok(None),
        }
    }

    // Its value, if it has one: of a string in segments that of these joined.
    pub fn value(&self) -> Option<&LeafValue> {
        match &self.kind {
            PieceKind::Leaf(_, _, value) => value.as_ref(),
            PieceKind::Opened(_, _, Some(joined)) => Some(&joined.value),
            _ => None,
        }
    }

    // The contents octets that are read for its value; nothing of what holds encodings or is not whole.
    pub fn contents(&self) -> &[u8] {
        match &self.kind {
            PieceKind::Leaf(_, contents, _) => contents,
            PieceKind::Opened(_, _, Some(joined)) => &joined.contents,
            _ => &[],
        }
    }
}

// Octets that are left: where they stand among those around, and at which place.
#[derive(Clone, Copy)]
pub struct Here<'a, 'p> {
    pub left: Left<'a>,
    pub offset: usize,
    pub place: &'p Place,
}

impl<'a> Here<'a, '_> {
    // The piece that begins them.
    pub fn read(self, alloc: Global) -> Result<Piece<'a>, AllocError>
        requires { self.left.is_indefinite ≡ false → 0 < length self.left.octets.now }
        ensures { IfOk result (IsPiece self.entry) }
    {
        if self.left.octets.is_empty() {
            let fault = self.fault(alloc, Some("Incomplete"), MISSING_END)?;
            return Ok(self.plain(
                alloc,
                PieceKind::EndOfContents(0),
                Some(fault),
                Step::Out(0),
            ));
        }
        if self.left.begins_with_end() {
            return Ok(self.plain(alloc, PieceKind::EndOfContents(2), None, Step::Out(2)));
        }
        match read_header(alloc, self.left.octets, &mut HeaderCount::new()) {
            Ok(header) => self.encoding(alloc, header),
            Err(ASN1DecodeErr::OutOfMemory) => Err(AllocError),
            Err(error) => self.unreadable(alloc, &error),
        }
    }

    // What is wrong here.
    fn fault(
        self,
        alloc: Global,
        code: Option<&'static str>,
        message: &str,
    ) -> Result<Fault, AllocError>
        ensures { IfOk result (λ fault. fault.offset ≡ self.entry.offset) }
    {
        Ok(Fault {
            offset: self.offset,
            code,
            message: String::from_str(alloc, message)?,
            text: None,
        })
    }

    // A piece that breaks no rule by itself, and holds no encodings.
    fn plain(
        self,
        alloc: Global,
        kind: PieceKind<'a>,
        fault: Option<Fault>,
        step: Step,
    ) -> Piece<'a>
        requires line { (depth : ℕ) → IsNextLine self.left.is_indefinite self.offset depth self.left.octets.now step
            (kind_front self.offset depth [] false kind) (fault_offset fault) }
        requires sized { IsSized self.left.octets.now kind }
        ensures { IsPiece self.entry result }
    {
        Piece {
            place: *self.place,
            offset: self.offset,
            kind,
            breaches: Breaches::none(alloc),
            fault,
            step,
            nested: None,
        }
    }

    // Octets that begin with no header.
    fn unreadable(self, alloc: Global, error: &ASN1DecodeErr) -> Result<Piece<'a>, AllocError>
        requires other { (self.left.is_indefinite && begins_with_end self.left.octets.now) ≡ false }
        requires some { 0 < length self.left.octets.now }
        requires none { HasNoHeader self.left.octets.now }
        ensures { IfOk result (IsPiece self.entry) }
    {
        let octets = self.left.octets;
        let fault = fault_at(alloc, self.offset, error)?;
        let step = Step::Past(octets.len());
        Ok(self.plain(alloc, PieceKind::Unreadable(octets), Some(fault), step))
    }

    // An encoding.
    fn encoding(self, alloc: Global, header: Header) -> Result<Piece<'a>, AllocError>
        requires other { (self.left.is_indefinite && begins_with_end self.left.octets.now) ≡ false }
        requires is { IsHeaderOf self.left.octets.now header }
        ensures { IfOk result (IsPiece self.entry) }
    {
        if header.announced > self.left.octets.len() - header.size {
            return self.cut(alloc, header);
        }
        if holds_encodings(&header) {
            return self.opened(alloc, header);
        }
        self.leaf(alloc, header)
    }

    // An encoding that is cut short.
    fn cut(self, alloc: Global, header: Header) -> Result<Piece<'a>, AllocError>
        requires other { (self.left.is_indefinite && begins_with_end self.left.octets.now) ≡ false }
        requires is { IsHeaderOf self.left.octets.now header }
        requires cut { length self.left.octets.now < header.size + header.announced }
        ensures { IfOk result (IsPiece self.entry) }
    {
        let (_, contents) = self.left.octets.split_at(header.size);
        let fault = fault_at(alloc, self.offset, &ASN1DecodeErr::Incomplete)?;
        let step = step_of(&header, self.left.octets.len());
        Ok(self.plain(alloc, PieceKind::Cut(header, contents), Some(fault), step))
    }

    // A whole encoding that is gone into.
    fn opened(self, alloc: Global, header: Header) -> Result<Piece<'a>, AllocError>
        requires other { (self.left.is_indefinite && begins_with_end self.left.octets.now) ≡ false }
        requires is { IsHeaderOf self.left.octets.now header }
        requires whole { header.size + header.announced ≤ length self.left.octets.now }
        requires opened { is_opened header ≡ true }
        ensures { IfOk result (IsPiece self.entry) }
    {
        let octets = self.left.octets;
        let size = size_of(octets, &header);
        let contents = &octets[header.size..size];
        let breaches = find_breaches(alloc, octets, &header, self.place)?;
        let fault = self.opened_fault(alloc, octets, &header)?;
        let joined = read_joined(alloc, &header, contents, self.place)?;
        let step = step_of(&header, size);
        Ok(Piece {
            place: *self.place,
            offset: self.offset,
            kind: PieceKind::Opened(header, contents, joined),
            breaches,
            fault,
            step,
            nested: None,
        })
    }

    // What is wrong with an encoding that is gone into: it is primitive, and its length has the indefinite form.
    fn opened_fault(
        self,
        alloc: Global,
        _octets: &[u8],
        header: &Header,
    ) -> Result<Option<Fault>, AllocError>
        requires { is_opened header.now ≡ true }
        ensures { IfOk result (λ fault. IsJudged _octets.now header.now self.entry.offset None (fault_offset fault)) }
    {
        if is_stray(header) {
            return Ok(Some(self.fault(alloc, None, STRAY)?));
        }
        Ok(None)
    }

    // Another whole encoding.
    fn leaf(self, alloc: Global, header: Header) -> Result<Piece<'a>, AllocError>
        requires other { (self.left.is_indefinite && begins_with_end self.left.octets.now) ≡ false }
        requires is { IsHeaderOf self.left.octets.now header }
        requires whole { header.size + header.announced ≤ length self.left.octets.now }
        requires closed { is_opened header ≡ false }
        ensures { IfOk result (IsPiece self.entry) }
    {
        let octets = self.left.octets;
        let contents = &octets[header.size..header.size + header.announced];
        let breaches = find_breaches(alloc, octets, &header, self.place)?;
        let nested = nested_in(alloc, &header, contents, self.place)?;
        let Read { value, fault } = self.read_leaf(alloc, octets, &header)?;
        let step = step_of(&header, size_of(octets, &header));
        Ok(Piece {
            place: *self.place,
            offset: self.offset,
            kind: PieceKind::Leaf(header, contents, value),
            breaches,
            fault,
            step,
            nested,
        })
    }

    // The value of the contents octets of a leaf, or what is wrong with it.
    fn read_leaf(self, alloc: Global, octets: &[u8], header: &Header) -> Result<Read, AllocError>
        requires whole { header.now.size + header.now.announced ≤ length octets.now }
        requires closed { is_opened header.now ≡ false }
        ensures { IfOk result (λ read. IsJudged octets.now header.now self.entry.offset read.value
            (fault_offset read.fault)) }
    {
        if is_stray(header) {
            return Ok(Read {
                value: None,
                fault: Some(self.fault(alloc, None, STRAY)?),
            });
        }
        let contents = &octets[header.size..header.size + header.announced];
        let of = self.place.contents_type();
        read_contents(alloc, header, contents, self.offset, of)
    }
}
