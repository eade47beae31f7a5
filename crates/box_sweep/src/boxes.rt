//! A specification, swept: its boxes by volume, up to the first that is found.
ghost use Rattle.std.specs.Prelude.{◌≡◌, ◌≤◌, ◌<◌, None, IfOk, IsErrOf, OnErr, OnOk, length};
ghost use Rattle.las_base.specs.declared.Size.{Size};
ghost use Rattle.las_spec.specs.Boxes.{sweep_order};
ghost use Rattle.las_spec.specs.Briefs.{IsBrief, job_of};
ghost use Rattle.box_sweep.specs.Lines.{box_line, ending_line};
ghost use Rattle.box_sweep.specs.Partial.{IsBrokenBox, IsBrokenOff};
ghost use Rattle.box_sweep.specs.Refusals.{HasSweepCause, HasWritten};
ghost use Rattle.box_sweep.specs.Solutions.{SolvesInSheets};
ghost use Rattle.box_sweep.specs.Sweeps.{HasSwept, HasTried, HasTriedAll, box_at, document_of};
ghost use Rattle.box_sweep.specs.Words.{IsFitting, word_of};

use crate::report::{box_text, ending_by, ending_text};
use crate::run::sweep_box;
use crate::{Ending, SweepRefused, Verdict};
use las_base::Size;
use las_io::{Shelf, Sink, write_all};
use las_spec::{Job, Spec, job, sweep_order};
use lasre_codec::lasre_text;
use std::alloc::{AllocError, Global};

// The job of a box, by its number.
fn job_at(alloc: Global, spec: &Spec, number: usize) -> Result<Job, AllocError>
    requires { number < length spec.now.boxes }
    ensures { IfOk result (λ j. j ≡ job_of spec.now (box_at spec.now number)) }
{
    job(alloc, spec, number)
}

// Writes the document of a diagram, where one is found.
fn print_found<K: Sink>(
    alloc: Global,
    job: &Job,
    verdict: &Verdict,
    out: &mut K,
) -> Result<(), SweepRefused>
    requires { IsFitting job.now verdict.now }
    ensures { HasWritten (K.faults out.old) (K.faults out.new) (K.held out.old) (K.held out.new) (document_of (word_of job.now verdict.now)) result }
{
    match verdict {
        Verdict::Found(diagram, sheets) => {
            let text = lasre_text(alloc, job, diagram, sheets)?;
            write_all(out, &text)?;
            Ok(())
        }
        Verdict::Refuted(_) => Ok(()),
        Verdict::Undecided(_) => Ok(()),
    }
}

// Says what a box came to.
fn say_box<E: Sink>(
    alloc: Global,
    job: &Job,
    verdict: &Verdict,
    err: &mut E,
) -> Result<(), SweepRefused>
    ensures { HasWritten (E.faults err.old) (E.faults err.new) (E.held err.old) (E.held err.new) (box_line job.now.size (word_of job.now verdict.now)) result }
{
    let line = box_text(alloc, job, verdict)?;
    write_all(err, line.as_bytes())?;
    Ok(())
}

// Says how a sweep ends.
fn say_ending<E: Sink>(
    alloc: Global,
    ending: Ending,
    last: Size,
    err: &mut E,
) -> Result<(), SweepRefused>
    ensures { HasWritten (E.faults err.old) (E.faults err.new) (E.held err.old) (E.held err.new) (ending_line ending last) result }
{
    let line = ending_text(alloc, ending, last)?;
    write_all(err, line.as_bytes())?;
    Ok(())
}

// Tries one box: its log is finished, then a diagram that is found goes out, then the box's line is said.
fn try_box<K: Sink, E: Sink, H: Shelf>(
    alloc: Global,
    job: &Job,
    budget: u64,
    out: &mut K,
    err: &mut E,
    shelf: &mut H,
) -> Result<Verdict, SweepRefused>
    requires low { 1 ≤ budget }
    requires high { budget ≤ 10000000 }
    requires none_begun { H.begun_name shelf.old ≡ None }
    ensures tried { IfOk result (λ verdict. HasTried job.now budget (word_of job.now verdict) (H.files shelf.old) (H.files shelf.new) (K.held out.old) (K.held out.new) (E.held err.old) (E.held err.new)) }
    ensures broken_off { OnErr result (IsBrokenBox job.now budget (H.files shelf.old) (H.files shelf.new) (K.held out.old) (K.held out.new) (E.held err.old) (E.held err.new)) }
    ensures ended { OnOk result (H.begun_name shelf.new ≡ None) }
    ensures ended_at_write { IsErrOf result SweepRefused.WriteFault → H.begun_name shelf.new ≡ None }
    ensures cause { HasSweepCause (K.faults out.old) (K.faults out.new) (E.faults err.old) (E.faults err.new) (H.faults shelf.old) (H.faults shelf.new) result }
{
    let verdict = sweep_box(alloc, job, budget, shelf)?;
    print_found(alloc, job, &verdict, out)?;
    say_box(alloc, job, &verdict, err)?;
    Ok(verdict)
}

// Tries the boxes in their order, up to the first that is found. Answers how the sweep ends, and with which box.
fn try_boxes<K: Sink, E: Sink, H: Shelf>(
    alloc: Global,
    spec: &Spec,
    order: &[usize],
    budget: u64,
    out: &mut K,
    err: &mut E,
    shelf: &mut H,
) -> Result<(Ending, Size), SweepRefused>
    requires order { order.now ≡ sweep_order spec.now.boxes }
    requires low { 1 ≤ budget }
    requires high { budget ≤ 10000000 }
    requires none_begun { H.begun_name shelf.old ≡ None }
    ensures tried { IfOk result (λ end. HasTriedAll spec.now budget (H.files shelf.old) (H.files shelf.new) (K.held out.old) (K.held out.new) (E.held err.old) (E.held err.new) end.0 end.1) }
    ensures broken_off { OnErr result (IsBrokenOff SolvesInSheets spec.now budget (H.files shelf.old) (H.files shelf.new) (K.held out.old) (K.held out.new) (E.held err.old) (E.held err.new)) }
    ensures ended { OnOk result (H.begun_name shelf.new ≡ None) }
    ensures ended_at_write { IsErrOf result SweepRefused.WriteFault → H.begun_name shelf.new ≡ None }
    ensures cause { HasSweepCause (K.faults out.old) (K.faults out.new) (E.faults err.old) (E.faults err.new) (H.faults shelf.old) (H.faults shelf.new) result }
{
    let own = spec.size();
    let mut undecided = false;
    for number in order {
        let job = job_at(alloc, spec, *number)?;
        let verdict = try_box(alloc, &job, budget, out, err, shelf)?;
        if verdict.is_found() {
            return Ok((ending_by(true, undecided), job.size()));
        }
        undecided |= verdict.is_undecided();
    }
    Ok((ending_by(false, undecided), own))
}

/// Sweeps a specification: tries its boxes by volume, up to the first that is found. For each in turn its log
/// is finished on the shelf, then a diagram that is found goes to `out`, then the box's line to `err`. The last
/// line on `err` says how the sweep ends.
pub fn sweep<K: Sink, E: Sink, H: Shelf>(
    alloc: Global,
    spec: &Spec,
    budget: u64,
    out: &mut K,
    err: &mut E,
    shelf: &mut H,
) -> Result<Ending, SweepRefused>
    requires low { 1 ≤ budget }
    requires high { budget ≤ 10000000 }
    requires none_begun { H.begun_name shelf.old ≡ None }
    ensures swept { IfOk result (λ ending. HasSwept SolvesInSheets spec.now budget (H.files shelf.old) (H.files shelf.new) (K.held out.old) (K.held out.new) (E.held err.old) (E.held err.new) ending) }

    // After a fault, or without memory, what was said is a front of a report whose lines are true, and what was printed
    // a front of a diagram's document that solves.
    ensures broken_off { OnErr result (IsBrokenOff SolvesInSheets spec.now budget (H.files shelf.old) (H.files shelf.new) (K.held out.old) (K.held out.new) (E.held err.old) (E.held err.new)) }
    ensures ended { OnOk result (H.begun_name shelf.new ≡ None) }
    ensures ended_at_write { IsErrOf result SweepRefused.WriteFault → H.begun_name shelf.new ≡ None }
    ensures cause { HasSweepCause (K.faults out.old) (K.faults out.new) (E.faults err.old) (E.faults err.new) (H.faults shelf.old) (H.faults shelf.new) result }
{
    let order = sweep_order(alloc, spec)?;
    let (ending, last) = try_boxes(alloc, spec, &order, budget, out, err, shelf)?;
    say_ending(alloc, ending, last, err)?;
    Ok(ending)
}
