// Types of one's own, read from blocks and written as blocks.
//
// A type names what it reads and writes by ghost members, relations over the trees of blocks. The calls here are proved
// once, for all types, by these relations alone.
ghost use Rattle.std.specs.Prelude.{◌≡◌, ◌≢◌, ℕ, List, Result, Ok, Err, IfOk, IfErr, MatchOption, MatchResult};
ghost use Rattle.simple_asn1.specs.Conversions.{AreReadAgain, Decodes, DecodeFails, EncodesValue, EncodeFails, OwnDecodeFault, OwnEncodeFault, TripFails};
ghost use Rattle.asn1_writing.specs.Canonical.{all_canonical};
ghost use Rattle.asn1_blocks.specs.Faithful.{AreFaithful};
ghost use Rattle.asn1_blocks.specs.Tree.{Trees, group, no_trees, shape, shapes};
ghost use Rattle.asn1_blocks.specs.View.{tree_offset, view, views};
ghost use Rattle.asn1_blocks.specs.declared.block.GroupKind.TheVariants.{Sequence};
ghost use Rattle.asn1_headers.specs.declared.header.ASN1Class.{ASN1Class};
ghost use Rattle.asn1_headers.specs.declared.header.ASN1Class.TheVariants.{Universal};

pub mod point;
pub mod signed;

use asn1_blocks::block::ASN1Block;
use asn1_blocks::block::discard::discard;
use asn1_blocks::document::Document;
use asn1_headers::error::{ASN1DecodeErr, ASN1EncodeErr};
use asn1_headers::header::ASN1Class;
use asn1_writing::write::write_all;
use std::alloc::Global;

/// A type that is read from the blocks of a document and from the document's own octets, as the content of a signature
/// needs. A type that does not need the octets implements [`FromASN1`] instead.
pub trait FromASN1WithBody: Sized {
    /// Why blocks are not a value of the type, or the input is not a document.
    type Error: From<ASN1DecodeErr>;

    /// What is read of trees and octets: a value with the trees after it, or an error.
    ghost reads_with: { Trees ℕ → List ℕ → Result (Self × Trees ℕ) Self.Error → Type 0 };

    /// Reads a value from the front of the blocks `v` of the document `b`, and returns it with the blocks that it
    /// left.
    fn from_asn1_with_body<'a>(
        alloc: Global,
        v: &'a [ASN1Block],
        b: &[u8],
    ) -> Result<(Self, &'a [ASN1Block]), Self::Error>
        ensures { MatchResult result
            (λ x. reads_with (views v.now) b.now (Ok (x.0, views x.1.now)))
            (λ e. reads_with (views v.now) b.now (Err e)) };
}

/// A type that is read from blocks.
pub trait FromASN1: Sized {
    /// Why blocks are not a value of the type, or the input is not a document.
    type Error: From<ASN1DecodeErr>;

    /// What is read of trees: a value with the trees after it, or an error.
    ghost reads: { Trees ℕ → Result (Self × Trees ℕ) Self.Error → Type 0 };

    /// Reads a value from the front of the blocks, and returns it with the blocks that it left.
    fn from_asn1<'a>(
        alloc: Global,
        v: &'a [ASN1Block],
    ) -> Result<(Self, &'a [ASN1Block]), Self::Error>
        ensures { MatchResult result
            (λ x. reads (views v.now) (Ok (x.0, views x.1.now)))
            (λ e. reads (views v.now) (Err e)) };
}

/// What is read from blocks is read from blocks and octets, whatever these are.
impl<T: FromASN1> FromASN1WithBody for T {
    type Error = <T as FromASN1>::Error;

    ghost reads_with = { λ bs octets r. T.reads bs r };

    fn from_asn1_with_body<'a>(
        alloc: Global,
        v: &'a [ASN1Block],
        _b: &[u8],
    ) -> Result<(T, &'a [ASN1Block]), <T as FromASN1>::Error> {
        T::from_asn1(alloc, v)
    }
}

/// A type that is written as blocks.
pub trait ToASN1 {
    /// Why a value has no blocks, or blocks cannot be written.
    type Error: From<ASN1EncodeErr>;

    /// What is written of a value where this class is asked for: trees, or an error.
    ghost writes: { Self → ASN1Class → Result (Trees ℕ) Self.Error → Type 0 };

    /// The blocks of the value. The class asked for is Universal.
    fn to_asn1(&self, alloc: Global) -> Result<Vec<ASN1Block>, Self::Error>
        ensures { MatchResult result
            (λ v. writes self.now Universal (Ok (views v.items)))
            (λ e. writes self.now Universal (Err e)) }
    {
        self.to_asn1_class(alloc, ASN1Class::Universal)
    }

    /// The blocks of the value; `c` is the class of those for which the value does not decide it.
    fn to_asn1_class(&self, alloc: Global, c: ASN1Class) -> Result<Vec<ASN1Block>, Self::Error>
        ensures { MatchResult result
            (λ v. writes self.now c (Ok (views v.items)))
            (λ e. writes self.now c (Err e)) };
}

/// A type that is written as blocks from which the same value is read.
pub trait RoundTrip: FromASN1 + ToASN1 {
    /// The trees of a value, without offsets.
    ghost trees_of: { Self → Trees (Unit {0}) };

    /// What is written are these trees.
    ghost written: { (x : Self) (bs : Trees ℕ) → Self.writes x Universal (Ok bs) → shapes bs ≡ trees_of x };

    /// What is read of these trees is the value, and no tree is left.
    ghost read_back: { (x y : Self) (bs rest : Trees ℕ) →
        shapes bs ≡ trees_of x → Self.reads bs (Ok (y, rest)) → (y ≡ x) × (rest ≡ no_trees) };
}

/// Reads a document as [`from_der`](crate::from_der) does, and a value from its blocks. Blocks that the type leaves
/// over are ignored.
///
/// # Errors
/// The errors of [`from_der`](crate::from_der), by `From`, and the errors of the type.
///
/// ```rust
/// use simple_asn1::{Point, PointErr, der_decode};
/// use std::alloc::Global;
///
/// // Of `30 06 02 01 01 02 01 FF` the point 1, -1.
/// fn point(alloc: Global, octets: &[u8]) -> Result<Point, PointErr> {
///     der_decode(alloc, octets)
/// }
/// ```
pub fn der_decode<T: FromASN1WithBody>(alloc: Global, v: &[u8]) -> Result<T, T::Error>
    ensures decoded { IfOk result (Decodes (λ bs r. T.reads_with bs v.now r) v.now) }
    ensures refused { IfErr result (DecodeFails (λ bs r. T.reads_with bs v.now r) T.Error.from_gives v.now) }
{
    let document = match Document::from_der(alloc, v) {
        Ok(document) => document,
        Err(e) => return Err(T::Error::from(e)),
    };
    match T::from_asn1_with_body(alloc, document.blocks(), v) {
        Ok((x, _)) => Ok(x),
        Err(e) => Err(e),
    }
}

/// The canonical octets of the value's blocks, joined.
///
/// # Errors
/// The errors of the type; the first fault of writing its blocks, or `OutOfMemory`, by `From`.
///
/// ```rust
/// use simple_asn1::{Point, PointErr, der_encode};
/// use std::alloc::Global;
///
/// // `30 06 02 01 01 02 01 FF`
/// fn octets(alloc: Global) -> Result<Vec<u8>, PointErr> {
///     der_encode(alloc, &Point { x: 1, y: -1 })
/// }
/// ```
pub fn der_encode<T: ToASN1>(alloc: Global, v: &T) -> Result<Vec<u8>, T::Error>
    ensures encoded { IfOk result (λ octets. EncodesValue (T.writes v.now Universal) octets.items) }
    ensures refused { IfErr result (EncodeFails (T.writes v.now Universal) T.Error.from_gives) }
{
    let blocks = match v.to_asn1(alloc) {
        Ok(blocks) => blocks,
        Err(e) => return Err(e),
    };
    let written = write_all(alloc, &blocks);
    discard(blocks);
    match written {
        Ok(octets) => Ok(octets),
        Err(e) => Err(T::Error::from(e)),
    }
}

/// Which half of [`round_trip`] failed, and why.
#[derive(Debug, Drop, PartialEq)]
pub enum TripFault<E, D> {
    /// The value was not written.
    Encode(E),
    /// What was written was not read again.
    Decode(D),
}

/// Writes the value as [`der_encode`] does, and reads the octets as [`der_decode`] does. If the value has trees and
/// each is faithful, the value comes back.
///
/// # Errors
/// `Encode` with an error of [`der_encode`], `Decode` with one of [`der_decode`]. If the value has trees and each is
/// faithful, an error is one of the type, or memory ran out.
///
/// ```rust
/// use simple_asn1::{Point, round_trip};
/// use std::alloc::Global;
///
/// // Memory aside always so: the trees of a point are faithful.
/// fn comes_back(alloc: Global, point: &Point) -> bool {
///     match round_trip(alloc, point) {
///         Ok(read) => read == *point,
///         Err(_) => false,
///     }
/// }
/// ```
pub fn round_trip<T: RoundTrip>(
    alloc: Global,
    x: &T,
) -> Result<T, TripFault<<T as ToASN1>::Error, <T as FromASN1>::Error>>
    ensures decoded { IfOk result (Decodes T.reads (all_canonical (T.trees_of x.now))) }
    ensures same { AreFaithful (T.trees_of x.now) → IfOk result (λ y. y ≡ x.now) }
    ensures refused { IfErr result (TripFails
        (EncodeFails (T.writes x.now Universal) ⟦<<T as ToASN1>::Error as From<ASN1EncodeErr>>⟧.from_gives)
        (DecodeFails T.reads ⟦<<T as FromASN1>::Error as From<ASN1DecodeErr>>⟧.from_gives
        (all_canonical (T.trees_of x.now)))) }
    ensures own { AreReadAgain (T.trees_of x.now) → IfErr result (TripFails
        (OwnEncodeFault (T.writes x.now Universal) ⟦<<T as ToASN1>::Error as From<ASN1EncodeErr>>⟧.from_gives)
        (OwnDecodeFault T.reads ⟦<<T as FromASN1>::Error as From<ASN1DecodeErr>>⟧.from_gives (T.trees_of x.now))) }
{
    let octets = match der_encode(alloc, x) {
        Ok(octets) => octets,
        Err(e) => return Err(TripFault::Encode(e)),
    };
    match der_decode::<T>(alloc, &octets) {
        Ok(y) => Ok(y),
        Err(e) => Err(TripFault::Decode(e)),
    }
}

/// The items of a `Sequence`; `None` for any other block. Unlike [`ASN1Block::items`] it returns none of a `Set` or an
/// `Explicit`, and its contract says what the tree of the block is.
///
/// ```rust
/// use simple_asn1::{ASN1Block, sequence_items};
///
/// // The two items of a pair: of `30 05 02 01 05 05 00` the INTEGER and the NULL.
/// fn pair(block: &ASN1Block) -> Option<(&ASN1Block, &ASN1Block)> {
///     match sequence_items(block)? {
///         [first, second] => Some((first, second)),
///         _ => None,
///     }
/// }
/// ```
pub fn sequence_items(b: &ASN1Block) -> Option<&[ASN1Block]>
    ensures items { MatchOption result
        ((o : ℕ) (bs : Trees ℕ) → view b.now ≢ group o Sequence bs)
        (λ items. view b.now ≡ group (tree_offset (view b.now)) Sequence (views items.now)) }
    ensures shape { MatchOption result
        ((ss : Trees (Unit {0})) → shape (view b.now) ≢ group tt Sequence ss)
        (λ items. shape (view b.now) ≡ group tt Sequence (shapes (views items.now))) }
{
    match b {
        ASN1Block::Sequence(_, items) => Some(items),
        _ => None,
    }
}
