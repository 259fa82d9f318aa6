// Whether blocks are the same but for their offsets. It takes no memory, and a call for each level of nesting in a
// block that others of its list follow: the last block of a list, and the one of an explicit tagging, are gone into by
// a loop.
ghost use Rattle.std.specs.Prelude.{◌≡◌, ◌↔◌, IsTrue};
ghost use Rattle.asn1_blocks.specs.Tree.{shape, shapes};
ghost use Rattle.asn1_blocks.specs.View.{view, views};

use crate::block::ASN1Block;
use crate::contents::same_own;
use crate::tree_walk::blocks_inside;
use std::slice;

#[cycle(same)]
fn same_all(a: &[ASN1Block], b: &[ASN1Block]) -> bool
    ensures { IsTrue result ↔ (shapes (views a.now) ≡ shapes (views b.now)) }
{
    let mut v = a;
    let mut w = b;
    loop {
        let Some((x, v_front)) = v.split_last() else {
            return w.is_empty();
        };
        let Some((y, w_front)) = w.split_last() else {
            return false;
        };
        if !same_own(x, y) {
            return false;
        }
        if !same_each(v_front, w_front) {
            return false;
        }
        v = blocks_inside(x);
        w = blocks_inside(y);
    }
}

#[cycle(same)]
fn same_each(a: &[ASN1Block], b: &[ASN1Block]) -> bool
    ensures { IsTrue result ↔ (shapes (views a.now) ≡ shapes (views b.now)) }
{
    if a.len() != b.len() {
        return false;
    }
    for i in 0..a.len() {
        if !same_all(slice::from_ref(&a[i]), slice::from_ref(&b[i])) {
            return false;
        }
    }
    true
}

fn same(a: &ASN1Block, b: &ASN1Block) -> bool
    ensures { IsTrue result ↔ (shape (view a.now) ≡ shape (view b.now)) }
{
    same_all(slice::from_ref(a), slice::from_ref(b))
}

/// Two blocks are equal if their variants and fields are; offsets are ignored at every depth.
///
/// It takes no memory. It uses stack for each level of nesting, except for blocks that are the last of their list or
/// in an `Explicit`: chains of these use none.
impl PartialEq for ASN1Block {
    ghost use Rattle.asn1_blocks.specs.Inner.Equality.{same_block};
    ghost use Rattle.asn1_blocks.specs.Inner.EqualityLaws.{same_block_laws};

    ghost eq = { same_block };

    ghost laws = { same_block_laws };

    fn eq(&self, other: &Self) -> bool
        ensures same_shape { IsTrue result ↔ (shape (view self.now) ≡ shape (view other.now)) }
        ensures decided { result ≡ same_block self.now other.now }
    {
        same(self, other)
    }
}
