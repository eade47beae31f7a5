//! One box: its clauses, their search, and the log of it.
ghost use Rattle.std.specs.Prelude.{◌≡◌, ◌≤◌, [], ℕ, List, Option, None, IfOk, IsSome, OnOk, IsTrue, unwrap_or};
ghost use Rattle.las_io.specs.Names.{is_lawful_name};
ghost use Rattle.las_io.specs.Shelves.{File, OthersStay, Told};
ghost use Rattle.clause_log.specs.LogFiles.{OthersAreLeft};
ghost use Rattle.box_sweep.specs.Lines.{log_name};
ghost use Rattle.box_sweep.specs.Logged.{IsEmpty, IsLogged, IsTrueBox};
ghost use Rattle.box_sweep.specs.Partial.{EndsInPart, LeavesLog};
ghost use Rattle.box_sweep.specs.Refusals.{HasShelfCause};
ghost use Rattle.box_sweep.specs.Solutions.{SolvesInSheets};
ghost use Rattle.box_sweep.specs.Words.{IsFitting, word_of};

use crate::clauses::clauses_of;
use crate::names::log_name;
use crate::{SweepRefused, Verdict};
use clause_log::{LogWriter, begin_log};
use cnf_base::Formula;
use cnf_decode::decode;
use las_io::Shelf;
use las_spec::Job;
use sat_core::{Outcome, solve};
use std::alloc::Global;

// Searches, and writes each step to the file that is begun on the shelf.
fn solve_logged<H: Shelf>(
    alloc: Global,
    formula: &Formula,
    budget: u64,
    shelf: &mut H,
) -> Result<Outcome, SweepRefused>
    requires low { 1 ≤ budget }
    requires high { budget ≤ 10000000 }
    requires begun { IsSome (H.begun_name shelf.old) }
    ensures outcome { (start : Option (List File)) → IsEmpty (H.begun_name shelf.old) start (H.files shelf.old)
        → IfOk result (λ outcome. IsLogged formula.now budget outcome (unwrap_or (H.begun_name shelf.old) []) start (H.files shelf.new)) }
    ensures ended { OnOk result (H.begun_name shelf.new ≡ None) }
    ensures others { OthersAreLeft (H.begun_name shelf.old) (H.files shelf.old) (H.files shelf.new) }
    ensures log { EndsInPart (H.begun_name shelf.old) (H.files shelf.old) (H.files shelf.new) }
    ensures cause { HasShelfCause (H.faults shelf.old) (H.faults shelf.new) result }
{
    let mut log = LogWriter::new(alloc, shelf);
    let outcome = solve(alloc, formula, budget, &mut log)?;
    log.finish()?;
    Ok(outcome)
}

// Searches, and writes the log of the search to the file of this name.
fn solve_named<H: Shelf>(
    alloc: Global,
    formula: &Formula,
    budget: u64,
    name: &str,
    shelf: &mut H,
) -> Result<Outcome, SweepRefused>
    requires low { 1 ≤ budget }
    requires high { budget ≤ 10000000 }
    requires lawful { IsTrue (is_lawful_name name.now) }
    requires none_begun { H.begun_name shelf.old ≡ None }
    ensures outcome { IfOk result (λ outcome. IsLogged formula.now budget outcome name.now (H.files shelf.old) (H.files shelf.new)) }
    ensures ended { OnOk result (H.begun_name shelf.new ≡ None) }
    ensures others { Told (OthersStay name.now) (H.files shelf.old) (H.files shelf.new) }
    ensures log { Told (LeavesLog name.now) (H.files shelf.old) (H.files shelf.new) }
    ensures cause { HasShelfCause (H.faults shelf.old) (H.faults shelf.new) result }
{
    begin_log(shelf, name)?;
    solve_logged(alloc, formula, budget, shelf)
}

/// Finds out whether a diagram solves the job. The log of the search stands on the shelf, in the file of the
/// job's box, which is begun and finished here.
pub fn sweep_box<H: Shelf>(
    alloc: Global,
    job: &Job,
    budget: u64,
    shelf: &mut H,
) -> Result<Verdict, SweepRefused>
    requires low { 1 ≤ budget }
    requires high { budget ≤ 10000000 }
    requires none_begun { H.begun_name shelf.old ≡ None }

    // The verdict is true beside the log, and a diagram that is found solves the job.
    ensures verdict { IfOk result (λ verdict. IsTrueBox SolvesInSheets job.now budget (word_of job.now verdict) (H.files shelf.old) (H.files shelf.new)) }
    ensures fits { IfOk result (λ verdict. IsFitting job.now verdict) }
    ensures ended { OnOk result (H.begun_name shelf.new ≡ None) }

    // At every answer the log is as before, or absent, or whole lines and a front of one, the files of other names are as
    // before, and a fault is answered only where it was counted.
    ensures log { Told (LeavesLog (log_name job.now.size)) (H.files shelf.old) (H.files shelf.new) }
    ensures others { Told (OthersStay (log_name job.now.size)) (H.files shelf.old) (H.files shelf.new) }
    ensures cause { HasShelfCause (H.faults shelf.old) (H.faults shelf.new) result }
{
    let name = log_name(alloc, job.size())?;
    let (formula, layout) = clauses_of(alloc, job)?;
    match solve_named(alloc, &formula, budget, &name, shelf)? {
        Outcome::Model(values) => {
            let (diagram, sheets) = decode(alloc, job, &layout, values.values())?;
            Ok(Verdict::Found(diagram, sheets))
        }
        Outcome::Refuted(lessons) => Ok(Verdict::Refuted(lessons)),
        Outcome::Spent(lessons) => Ok(Verdict::Undecided(lessons)),
    }
}
