// A run over inputs: each is read to its end before anything of it is written.
ghost use Rattle.std.specs.Prelude.{◌≡◌, IfOk, IsErr, map, true};
ghost use Rattle.dump_inputs.specs.Growing.{Grows};
ghost use Rattle.dump_inputs.specs.Inputs.{AreReadToEnds, IsDone, IsInputText, IsReadToEnd, is_extract};
ghost use Rattle.dump_inputs.specs.Outcomes.{greatest_status};
ghost use Rattle.dump_inputs.specs.Texts.{AreTexts};

use crate::appended::{Appended, Before};
use crate::outcome::Outcome;
use crate::show::Show;
use der_io::{StreamFault, flush, read_all};
use dump_names::OwnNames;
use dump_options::{Options, Task};
use dump_rows::{Look, Printer};
use jiff::civil::DateTime;
use std::alloc::Global;
use std::io::{Read, Write};
use std::marker::{Brand, PhantomData};

/// An input: its name, and what it is read from.
#[derive(Drop)]
pub struct Source<'a, R> {
    pub name: &'a str,
    pub reader: R,
}

/// Reads each input to its end, in order, and writes to `w` what the options want of it before the next is read.
/// Returns the outcome of each, and the writer. The readers of those that could be read are at their ends.
///
/// An input is DER, PEM, hex digits or base64, told apart by its bytes, or a text with documents among other words. A
/// document is put as a dump, as a line of JSON, on a page of HTML, or as a short account, which tells how many days
/// are left if it is given the time; names of object identifiers are first those of `own`. Lines are colored if the
/// options say `Always`. One input at a time is kept in memory, with what is open in it, and no output.
///
/// # Errors
/// `Memory` and `Write`, after which what was written before stays: a front of the output, behind what the writer held.
/// Where no write failed, it is in whole lines, unless it ends in a document as JSON or in the bytes beside a page.
pub fn run<R: Read + Drop, W: Write>(
    alloc: Global,
    options: &Options<'_>,
    own: Option<OwnNames>,
    time: Option<DateTime>,
    sources: &mut [Source<'_, R>],
    w: W,
) -> (Result<Vec<Outcome>, StreamFault>, W)
    ensures answered { IfOk result.0 (λ outcomes. IsDone options.now.task
        (AreTexts (IsInputText options.now.task)
        (map (λ source. R.remaining source.reader) sources.old) outcomes.items)
        (W.contents w) (W.contents result.1)) }
    ensures read { IfOk result.0 (λ outcomes. AreReadToEnds outcomes.items
        (map (λ source. R.remaining source.reader) sources.new)) }
    ensures kept { ∥ Grows (W.contents w) (W.contents result.1) ∥₁ }
{
    run_on::<Brand, R, W>(alloc, options, own, time, sources, w)
}

// The run, over what the writer holds before it.
fn run_on<B: Before, R: Read + Drop, W: Write>(
    alloc: Global,
    options: &Options<'_>,
    own: Option<OwnNames>,
    time: Option<DateTime>,
    sources: &mut [Source<'_, R>],
    w: W,
) -> (Result<Vec<Outcome>, StreamFault>, W)
    requires { W.contents w ≡ B.before }
    ensures answered { IfOk result.0 (λ outcomes. IsDone options.now.task
        (AreTexts (IsInputText options.now.task)
        (map (λ source. R.remaining source.reader) sources.old) outcomes.items)
        (W.contents w) (W.contents result.1)) }
    ensures read { IfOk result.0 (λ outcomes. AreReadToEnds outcomes.items
        (map (λ source. R.remaining source.reader) sources.new)) }
    ensures kept { ∥ Grows (W.contents w) (W.contents result.1) ∥₁ }
{
    let Ok(show) = Show::new(alloc, options, own, sources.len(), time) else {
        return (Err(StreamFault::Memory), w);
    };
    let out: Appended<W, B> = Appended {
        writer: w,
        since: PhantomData,
    };
    let mut printer = Printer::new(alloc, Look::Plain, out);
    let outcomes = answer_all(&show, options.task, sources, &mut printer);
    let Appended { writer, since: _ } = printer.into_writer();
    (outcomes, writer)
}

// Writes what is wanted of each input, one after another. Of inputs none of which can be read nothing is written.
fn answer_all<R: Read + Drop, W: Write>(
    show: &Show<'_>,
    task: Task<'_>,
    sources: &mut [Source<'_, R>],
    printer: &mut Printer<W>,
) -> Result<Vec<Outcome>, StreamFault>
    ensures answered { IfOk result (λ outcomes. IsDone task.entry
        (AreTexts (IsInputText task.entry) (map (λ source. R.remaining source.reader) sources.old) outcomes.items)
        (W.contents printer.old.out) (W.contents printer.new.out)) }
    ensures read { IfOk result (λ outcomes. AreReadToEnds outcomes.items
        (map (λ source. R.remaining source.reader) sources.new)) }
{
    let mut outcomes = Vec::new(show.alloc);
    let mut is_begun = false;
    for source in sources.iter_mut() {
        let outcome = answer(show, task, source, &mut is_begun, printer)?;
        if outcomes.push(outcome).is_err() {
            return Err(StreamFault::Memory);
        }
    }
    show.end(is_begun, &mut printer.out)?;
    flush(&mut printer.out)?;
    Ok(outcomes)
}

// Writes what is wanted of an input, where it can be read; documents, behind what stands before them all.
fn answer<R: Read + Drop, W: Write>(
    show: &Show<'_>,
    task: Task<'_>,
    source: &mut Source<'_, R>,
    is_begun: &mut bool,
    printer: &mut Printer<W>,
) -> Result<Outcome, StreamFault>
    ensures answered { IfOk result (λ outcome. IsDone task.entry
        (IsInputText task.entry (R.remaining source.old.reader) outcome)
        (W.contents printer.old.out) (W.contents printer.new.out)) }
    ensures begun { is_extract task.entry ≡ true → is_begun.new ≡ is_begun.old }
    ensures read { IfOk result (λ outcome. IsReadToEnd outcome (R.remaining source.new.reader)) }
{
    let input = match read_all(show.alloc, &mut source.reader) {
        Ok(input) => input,
        Err(StreamFault::Memory) => return Err(StreamFault::Memory),
        Err(_) => return Ok(Outcome::Unread),
    };
    match task {
        Task::Dump => {
            show.begin(is_begun, &mut printer.out)?;
            let verdict = show.push_input(source.name, input, printer)?;
            Ok(Outcome::Written(verdict))
        }
        Task::At(target) => {
            show.begin(is_begun, &mut printer.out)?;
            show.push_at(source.name, input, target, printer)
        }
        Task::Extract(part, target) => show.push_part(part, input, target, &mut printer.out),
    }
}

/// The exit status after a run: 0 where all that is wanted was written, 1 where some of the input is rejected or has no
/// such block, 2 where some cannot be read, after a fault of writing and where memory ran out.
pub fn status(outcome: &Result<Vec<Outcome>, StreamFault>) -> u8
    ensures greatest { IfOk outcome.now (λ outcomes. result ≡ greatest_status outcomes.items) }
    ensures fault { IsErr outcome.now → result ≡ 2 }
{
    match outcome {
        Ok(outcomes) => outcomes
            .iter()
            .fold(0, |most, outcome| most.max(outcome.status())),
        Err(_) => 2,
    }
}
