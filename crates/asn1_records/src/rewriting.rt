// The canonical octets of documents, put into room that the caller has.
ghost use Rattle.std.specs.Prelude.{◌≡◌, ℕ, IfErr, IfOk, length};
ghost use Rattle.simple_asn1.specs.Canonical.{all_canonical};
ghost use Rattle.simple_asn1.specs.Grammar.{IsDocument};
ghost use Rattle.simple_asn1.specs.Tree.{Trees};
ghost use Rattle.asn1_records.specs.Answers.{AnswersRewrite, IsRefusal};
ghost use Rattle.asn1_records.specs.Room.{OrNoMemory};

use crate::document_entries::{Fault, fault_at, written_unless_canonical};
use crate::putting::{not_enough, nothing_put, put_front};
use crate::record::Outcome;
use simple_asn1::canonical_size;
use std::alloc::Global;

// Of no more octets the blocks take little memory.
const FEW_OCTETS: usize = 1 << 16;

// Puts the canonical octets of a document. Where its blocks would take much memory, none is built before it is known
// that the octets are a document, and that there is room.
pub fn put_canonical(alloc: Global, octets: &[u8], room: &mut [u8]) -> Outcome
    ensures { AnswersRewrite octets.now room.old room.new result }
{
    if octets.len() > FEW_OCTETS {
        match size_of_canonical(alloc, octets) {
            Ok(size) => {
                if size > room.len() {
                    return not_enough(size);
                }
            }
            Err(fault) => return nothing_put(fault.status, fault.offset),
        }
    }
    put_written(alloc, octets, room)
}

// How many octets the canonical form of a document has.
fn size_of_canonical(alloc: Global, octets: &[u8]) -> Result<usize, Fault>
    ensures document { IfOk result (λ n. (bs : Trees ℕ) × IsDocument octets.now bs
        × (n ≡ length (all_canonical bs))) }
    ensures fault { IfErr result (λ f. OrNoMemory (IsRefusal octets.now) f.status f.offset) }
{
    match canonical_size(alloc, octets) {
        Ok(size) => Ok(size),
        Err(located) => Err(fault_at(&located)),
    }
}

// The same, where blocks are built up to a fault, and also without room.
fn put_written(alloc: Global, octets: &[u8], room: &mut [u8]) -> Outcome
    ensures { AnswersRewrite octets.now room.old room.new result }
{
    match written_unless_canonical(alloc, octets) {
        Ok(Some(canonical)) => put_front(&canonical, room),
        Ok(None) => put_front(octets, room),
        Err(fault) => nothing_put(fault.status, fault.offset),
    }
}
