// The example of a type of one's own.
ghost use Rattle.std.specs.Prelude.{◌≡◌, ◌≢◌, ℕ, ℤ, MatchOption, MatchResult, IfOk, IfErr, FitsSigned};
ghost use Rattle.std.specs.Int.{w64};
ghost use Rattle.simple_asn1.specs.PointTrees.{point_tree, point_trees, BeginsWithPoint};
ghost use Rattle.asn1_blocks.specs.Tree.{Trees, integer, leaf, shape, shapes};
ghost use Rattle.asn1_blocks.specs.View.{view, views};
ghost use Rattle.asn1_headers.specs.declared.error.ASN1EncodeErr.TheVariants.{OutOfMemory as no_memory};
ghost use Rattle.simple_asn1.specs.declared.convert.point.Point.{Point};

use crate::convert::{FromASN1, RoundTrip, ToASN1, sequence_items};
use asn1_blocks::block::ASN1Block;
use asn1_headers::error::{ASN1DecodeErr, ASN1EncodeErr};
use asn1_headers::header::ASN1Class;
use asn1_numbers::number::big_int::BigInt;
use std::alloc::Global;

/// A point, written as one SEQUENCE of two INTEGERs.
#[derive(Clone, Copy, Debug, PartialEq)]
pub struct Point {
    /// The first coordinate.
    pub x: i64,
    /// The second coordinate.
    pub y: i64,
}

/// Why a document is not a point, or a point cannot be written.
#[derive(Debug, Drop, PartialEq)]
pub enum PointErr {
    /// The input is not a document, or memory ran out while reading.
    Decode(ASN1DecodeErr),
    /// Memory ran out while writing.
    Encode(ASN1EncodeErr),
    /// The first block is not a SEQUENCE of exactly two INTEGERs that fit an `i64`.
    Shape,
}

/// Wraps the error.
impl From<ASN1DecodeErr> for PointErr {
    ghost use Rattle.simple_asn1.specs.declared.convert.point.PointErr.TheVariants.{Decode};

    ghost from_gives = { λ f e. e ≡ Decode f };

    fn from(e: ASN1DecodeErr) -> PointErr {
        PointErr::Decode(e)
    }
}

/// Wraps the error.
impl From<ASN1EncodeErr> for PointErr {
    ghost use Rattle.simple_asn1.specs.declared.convert.point.PointErr.TheVariants.{Encode};

    ghost from_gives = { λ f e. e ≡ Encode f };

    fn from(e: ASN1EncodeErr) -> PointErr {
        PointErr::Encode(e)
    }
}

// The number of an INTEGER that fits an `i64`.
fn coordinate(b: &ASN1Block) -> Option<i64>
    ensures { MatchOption result
        ((n : ℤ) → FitsSigned w64 n → shape (view b.now) ≢ leaf tt (integer n))
        (λ n. (shape (view b.now) ≡ leaf tt (integer n)) × FitsSigned w64 n) }
{
    match b {
        ASN1Block::Integer(_, n) => n.to_i64(),
        _ => None,
    }
}

// The point that a block is.
fn point_of(b: &ASN1Block) -> Option<Point>
    ensures { MatchOption result
        ((p : Point) → FitsSigned w64 p.x → FitsSigned w64 p.y → shape (view b.now) ≢ point_tree p)
        (λ p. (shape (view b.now) ≡ point_tree p) × FitsSigned w64 p.x × FitsSigned w64 p.y) }
{
    let items = sequence_items(b)?;
    if items.len() != 2 {
        return None;
    }
    let x = coordinate(&items[0])?;
    let y = coordinate(&items[1])?;
    Some(Point { x, y })
}

impl FromASN1 for Point {
    type Error = PointErr;

    ghost use Rattle.simple_asn1.specs.declared.convert.point.PointErr.TheVariants.{Shape};

    ghost reads = { λ bs r. MatchResult r
        (λ x. BeginsWithPoint bs x.0 x.1)
        (λ e. (e ≡ Shape) × ((p : Point) (rest : Trees ℕ) → BeginsWithPoint bs p rest → ⊥)) };

    fn from_asn1<'a>(
        _alloc: Global,
        v: &'a [ASN1Block],
    ) -> Result<(Point, &'a [ASN1Block]), PointErr> {
        let Some((first, rest)) = v.split_first() else {
            return Err(PointErr::Shape);
        };
        let Some(point) = point_of(first) else {
            return Err(PointErr::Shape);
        };
        Ok((point, rest))
    }
}

// The block of a point, at offset 0.
fn point_block(alloc: Global, p: &Point) -> Result<ASN1Block, ASN1EncodeErr>
    ensures made { IfOk result (λ b. shape (view b) ≡ point_tree p.now) }
    ensures refused { IfErr result (λ e. e ≡ no_memory) }
{
    let mut items = Vec::with_capacity(alloc, 2)?;
    items.push(ASN1Block::Integer(0, BigInt::from_i64(alloc, p.x)?))?;
    items.push(ASN1Block::Integer(0, BigInt::from_i64(alloc, p.y)?))?;
    Ok(ASN1Block::Sequence(0, items))
}

// The blocks of a point: one.
fn point_blocks(alloc: Global, p: &Point) -> Result<Vec<ASN1Block>, ASN1EncodeErr>
    ensures made { IfOk result (λ bs. shapes (views bs.items) ≡ point_trees p.now) }
    ensures refused { IfErr result (λ e. e ≡ no_memory) }
{
    let mut blocks = Vec::with_capacity(alloc, 1)?;
    blocks.push(point_block(alloc, p)?)?;
    Ok(blocks)
}

impl ToASN1 for Point {
    type Error = PointErr;

    ghost use Rattle.simple_asn1.specs.declared.convert.point.PointErr.TheVariants.{Encode};
    ghost use Rattle.asn1_headers.specs.declared.error.ASN1EncodeErr.TheVariants.{OutOfMemory as no_memory};

    ghost writes = { λ p c r. MatchResult r
        (λ bs. shapes bs ≡ point_trees p)
        (λ e. e ≡ Encode no_memory) };

    fn to_asn1_class(&self, alloc: Global, _c: ASN1Class) -> Result<Vec<ASN1Block>, PointErr> {
        match point_blocks(alloc, self) {
            Ok(blocks) => Ok(blocks),
            Err(e) => Err(PointErr::Encode(e)),
        }
    }
}

impl RoundTrip for Point {
    ghost use Rattle.simple_asn1.specs.Inner.PointLaws.{point_read_back};

    ghost trees_of = { point_trees };

    ghost written = { λ x bs h. h };

    ghost read_back = { point_read_back };
}
