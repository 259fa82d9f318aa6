//! What the programs do alike: all of an input is read before anything of it is written, and each fault has one text
//! and one exit status.
//!
//! A program reads its input by [`read_all`], takes it apart by [`split_line`] where it comes in lines, and writes its
//! answer by [`write_all`]; or part by part, by [`write_part`] and at last [`flush`]. What ends a run early is a
//! [`StreamFault`]: its [`fault_text`] goes to standard error, and [`status`] is the exit status of the program. Words
//! from an input are shown by [`escaped`]. [`arguments`] are those of the command line.
#![tactic(auto)]

ghost use Rattle.std.specs.Prelude.{◌≡◌, ◌⊎◌, ◌<◌, ◌∷◌, ◌++◌, length, IfOk, IfErr, IfSome, OnOk, IsOk, codes};
ghost use Rattle.std.specs.Io.KnownBytes.{Appends, IsAtEnd, Keeps};
ghost use Rattle.der_io.specs.Lines.{lines_of};
ghost use Rattle.der_io.specs.declared.StreamFault.TheVariants.{Read as read_fault, Write as write_fault, Memory as memory_fault};

mod command_line;
mod escape;
pub mod failing;

pub use command_line::arguments;
pub use escape::{escaped, is_shown, push_escaped, push_shown};
use memchr::memchr;
use std::alloc::{AllocError, Global};
use std::io::{Read, Write};

/// Why a run ended early.
#[derive(Debug, Drop, PartialEq)]
pub enum StreamFault {
    /// A read failed, or the input had no end.
    Read,
    /// A write failed, or the flush after it.
    Write,
    /// Memory ran out.
    Memory,
}

impl From<AllocError> for StreamFault {
    ghost from_gives = { λ _ e. e ≡ memory_fault };

    fn from(_: AllocError) -> StreamFault {
        StreamFault::Memory
    }
}

// How many octets are read at a time.
const CHUNK: usize = 8192;

/// All that the reader has left, which is kept in memory.
///
/// # Errors
/// `Read` if a read fails (an interrupted one is not tried again), or after `u64::MAX` reads. `Memory` if memory runs
/// out.
pub fn read_all<R: Read>(alloc: Global, r: &mut R) -> Result<Vec<u8>, StreamFault>
    ensures bytes { IfOk result (λ input. IfSome (R.remaining r.old) (λ bytes. input.items ≡ bytes)) }
    ensures read { OnOk result (IsAtEnd (R.remaining r.new)) }
    ensures fault { IfErr result (λ e. (e ≡ read_fault) ⊎ (e ≡ memory_fault)) }
{
    let mut input = Vec::new(alloc);
    let mut chunk = [0u8; CHUNK];
    for _ in 0..u64::MAX {
        match r.read(&mut chunk) {
            Ok(0) => return Ok(input),
            Ok(count) => append(&mut input, &chunk[..count])?,
            Err(_) => return Err(StreamFault::Read),
        }
    }
    Err(StreamFault::Read)
}

// Appends what was read.
fn append(input: &mut Vec<u8>, chunk: &[u8]) -> Result<(), StreamFault>
    ensures appended { OnOk result (input.new.items ≡ input.old.items ++ chunk.now) }
    ensures fault { IfErr result (λ e. e ≡ memory_fault) }
{
    match input.extend_from_slice(chunk) {
        Ok(()) => Ok(()),
        Err(_) => Err(StreamFault::Memory),
    }
}

/// Writes all of the octets, and flushes.
///
/// # Errors
/// `Write`, after which nothing is known of what was written.
pub fn write_all<W: Write>(w: &mut W, octets: &[u8]) -> Result<(), StreamFault>
    ensures written { OnOk result (Appends (W.contents w.old) (W.contents w.new) octets.now) }
    ensures fault { IfErr result (λ e. e ≡ write_fault) }
{
    write_part(w, octets)?;
    flush(w)
}

/// Writes all of the octets, which are a part of the output.
///
/// # Errors
/// `Write`, after which nothing is known of what was written.
pub fn write_part<W: Write>(w: &mut W, octets: &[u8]) -> Result<(), StreamFault>
    ensures written { OnOk result (Appends (W.contents w.old) (W.contents w.new) octets.now) }
    ensures fault { IfErr result (λ e. e ≡ write_fault) }
{
    match w.write_all(octets) {
        Ok(()) => Ok(()),
        Err(_) => Err(StreamFault::Write),
    }
}

/// Has the writer pass on what it may have kept.
///
/// # Errors
/// `Write`.
pub fn flush<W: Write>(w: &mut W) -> Result<(), StreamFault>
    ensures kept { Keeps (W.contents w.old) (W.contents w.new) }
    ensures fault { IfErr result (λ e. e ≡ write_fault) }
{
    match w.flush() {
        Ok(()) => Ok(()),
        Err(_) => Err(StreamFault::Write),
    }
}

/// The exit status after a run: 0 where it answered its input, and else that of its fault.
pub fn status(outcome: &Result<(), StreamFault>) -> u8
    ensures answered { IsOk outcome.now → result ≡ 0 }
    ensures stream { IfErr outcome.now (λ e. (e ≡ read_fault) ⊎ (e ≡ write_fault) → result ≡ 1) }
    ensures memory { IfErr outcome.now (λ e. e ≡ memory_fault → result ≡ 2) }
{
    match outcome {
        Ok(()) => 0,
        Err(fault) => fault_status(fault),
    }
}

/// The exit status after a fault: 1 after one of reading or writing, 2 where memory ran out.
pub fn fault_status(fault: &StreamFault) -> u8
    ensures stream { (fault.now ≡ read_fault) ⊎ (fault.now ≡ write_fault) → result ≡ 1 }
    ensures memory { fault.now ≡ memory_fault → result ≡ 2 }
{
    match fault {
        StreamFault::Read => 1,
        StreamFault::Write => 1,
        StreamFault::Memory => 2,
    }
}

/// The message of a fault, for standard error.
pub fn fault_text(fault: &StreamFault) -> &'static str
    ensures reading { fault.now ≡ read_fault → result.now ≡ codes "read fault" }
    ensures writing { fault.now ≡ write_fault → result.now ≡ codes "write fault" }
    ensures memory { fault.now ≡ memory_fault → result.now ≡ codes "out of memory" }
{
    match fault {
        StreamFault::Read => "read fault",
        StreamFault::Write => "write fault",
        StreamFault::Memory => "out of memory",
    }
}

/// The first line and the rest. Octet 0A ends a line; the last line may lack it.
pub fn split_line(input: &[u8]) -> (&[u8], &[u8])
    requires { 0 < length input.now }
    ensures first { lines_of input.now ≡ result.0.now ∷ lines_of result.1.now }
    ensures shorter { length result.1.now < length input.now }
{
    match memchr(b'\n', input) {
        Some(end) => (&input[..end], &input[end + 1..]),
        None => (input, &[]),
    }
}
