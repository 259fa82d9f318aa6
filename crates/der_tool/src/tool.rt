// The run of the program: all input is read before anything is written.
ghost use Rattle.std.specs.Prelude.{◌≡◌, ◌⊎◌, List, ℕ, IfErr, IfSome, OnOk};
ghost use Rattle.std.specs.Io.KnownBytes.{Appends, IsAtEnd, Keeps};
ghost use Rattle.der_tool.specs.Answers.{AreAnswers};
ghost use Rattle.der_tool.specs.declared.answers.Reading.TheVariants.{Lenient, Strict};
ghost use Rattle.der_io.specs.declared.StreamFault.TheVariants.{Write as write_fault};

use crate::answers::{Reading, answers};
use der_io::{StreamFault, read_all, write_all};
pub use der_io::{fault_text, status};
use std::alloc::Global;
use std::io::{Read, Write};

/// Why a run did not answer its input: `Read`, `Write` or `Memory`. Every fault of a read is `Read`, whatever its kind,
/// and every fault of a write or a flush is `Write`; `Memory` is memory of our own that was refused.
pub type ToolFault = StreamFault;

/// Reads all of `r`, and writes the answer to each line to `w`.
///
/// Octet 0A ends a line; the last line may lack it. A line is a document in hex digits of either case. Its answer is a
/// line: `ok` and the canonical octets in upper-case hex; `refused`, the fault's name, and its number if it has one; or
/// `badhex`, where it isn't an even number of hex digits. The whole input and the whole output are kept in memory.
///
/// # Errors
/// `Read` and `Memory`, after which nothing was written; `Write`, after which nothing is known of what was.
pub fn run<R: Read, W: Write>(alloc: Global, r: &mut R, w: &mut W) -> Result<(), ToolFault>
    ensures answered { OnOk result (IfSome (R.remaining r.old) (λ input. (output : List ℕ)
        × AreAnswers Lenient input output × Appends (W.contents w.old) (W.contents w.new) output)) }
    ensures read { OnOk result (IsAtEnd (R.remaining r.new)) }
    ensures kept { IfErr result (λ e. (e ≡ write_fault) ⊎ Keeps (W.contents w.old) (W.contents w.new)) }
{
    run_with(alloc, Reading::Lenient, r, w)
}

/// As [`run`], but a document is answered with `ok` only where it is its own canonical octets, and with `refused` and
/// `NotCanonical` where it is not: its number is the offset of the first block at the top level whose octets are not
/// its canonical ones.
///
/// # Errors
/// Those of [`run`].
pub fn run_strict<R: Read, W: Write>(alloc: Global, r: &mut R, w: &mut W) -> Result<(), ToolFault>
    ensures answered { OnOk result (IfSome (R.remaining r.old) (λ input. (output : List ℕ)
        × AreAnswers Strict input output × Appends (W.contents w.old) (W.contents w.new) output)) }
    ensures read { OnOk result (IsAtEnd (R.remaining r.new)) }
    ensures kept { IfErr result (λ e. (e ≡ write_fault) ⊎ Keeps (W.contents w.old) (W.contents w.new)) }
{
    run_with(alloc, Reading::Strict, r, w)
}

// Reads all of `r`, and writes the answer to each line to `w`.
fn run_with<R: Read, W: Write>(
    alloc: Global,
    reading: Reading,
    r: &mut R,
    w: &mut W,
) -> Result<(), ToolFault>
    ensures answered { OnOk result (IfSome (R.remaining r.old) (λ input. (output : List ℕ)
        × AreAnswers reading input output × Appends (W.contents w.old) (W.contents w.new) output)) }
    ensures read { OnOk result (IsAtEnd (R.remaining r.new)) }
    ensures kept { IfErr result (λ e. (e ≡ write_fault) ⊎ Keeps (W.contents w.old) (W.contents w.new)) }
{
    let input = read_all(alloc, r)?;
    let Ok(output) = answers(alloc, reading, &input) else {
        return Err(ToolFault::Memory);
    };
    write_all(w, &output)
}
