// The second walk: it pushes the octets of measured blocks, takes no memory and refuses nothing.
ghost use Rattle.std.specs.Prelude.{◌≡◌, ◌≤◌, None, length, map};
ghost use Rattle.asn1_blocks.specs.View.{view};
ghost use Rattle.asn1_blocks.specs.Inner.OwnContents.{own_fault};
ghost use Rattle.asn1_writing.specs.Inner.WriteWalk.{all_own_octets, contents_size_of, first_own_fault, identifier_of, measured_blocks, measured_sizes, own_octets};

use crate::measure::Measured;
use asn1_blocks::block::{ASN1Block, known_octet};
use asn1_blocks::contents::push_own;
use asn1_headers::header::{push_identifier, push_length};
use asn1_numbers::sink::Sink;

// Puts the identifier octets of a block.
pub(crate) fn push_identifier_of<S: Sink>(b: &ASN1Block, out: &mut S)
    requires { length (identifier_of (view b.now)) ≤ S.room out.old }
    ensures { S.pushes out.old (identifier_of (view b.now)) out.new }
{
    match b {
        ASN1Block::Explicit(class, _, tag, _) => push_identifier(*class, true, tag, out),
        ASN1Block::Unknown(class, constructed, _, tag, _) => {
            push_identifier(*class, *constructed, tag, out)
        }
        _ => out.push_octet(known_octet(b)),
    }
}

// Puts the octets of a block that stand before those of the blocks inside.
fn push_block<S: Sink>(b: &ASN1Block, contents: usize, out: &mut S)
    requires size { contents ≡ contents_size_of b.now }
    requires room { length (own_octets (view b.now)) ≤ S.room out.old }
    requires writable { own_fault (view b.now) ≡ None }
    ensures { S.pushes out.old (own_octets (view b.now)) out.new }
{
    push_identifier_of(b, out);
    push_length(contents, out);
    push_own(b, out);
}

// Puts the octets of the blocks, each block's own after those of the block before.
pub(crate) fn push_all<S: Sink>(list: &[Measured], out: &mut S)
    requires sizes { measured_sizes list.now ≡ map contents_size_of (measured_blocks list.now) }
    requires room { length (all_own_octets (measured_blocks list.now)) ≤ S.room out.old }
    requires writable { first_own_fault (measured_blocks list.now) ≡ None }
    ensures { S.pushes out.old (all_own_octets (measured_blocks list.now)) out.new }
{
    for m in list {
        push_block(m.block, m.contents, out);
    }
}
