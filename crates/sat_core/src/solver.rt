//! The whole search, from the formula to what it comes to.

ghost use Rattle.std.specs.Prelude.{◌≡◌, ◌+◌, ◌^◌, ◌<◌, ◌≤◌, [], IfOk, IfSome, OnOk, IsErrOf, false, length};
ghost use Rattle.sat_core.specs.Outcomes.{HasSolveCause, IsTrueOutcome, StopsAtUnits};

use crate::search::Search;
use crate::{Outcome, SolveRefused};
use cnf_base::{ClauseTake, Formula, LogTake};
use std::alloc::Global;

/// Searches for values that satisfy the formula, and spends at most the budget of lessons. Each lesson, and
/// the empty clause of a refutation, is a step of the log.
#[tactic(auto, using(crate::proofs::StopLemmas::stops_where_ok))]
pub fn solve<L: LogTake>(
    alloc: Global,
    f: &Formula,
    budget: u64,
    log: &mut L,
) -> Result<Outcome, SolveRefused>
    requires some { 1 ≤ budget }
    requires bounded { budget ≤ 10000000 }
    requires no_steps { IfSome (L.steps log.old) (λ steps. steps ≡ []) }
    requires unbroken { L.broken log.old ≡ false }
    ensures outcome { IfOk result (λ outcome. IsTrueOutcome f.now budget (L.steps log.old) (L.steps log.new) outcome) }
    ensures by_units { IfOk result (StopsAtUnits f.now) }
    ensures unbroken { OnOk result (L.broken log.new ≡ false) }
    ensures intact { IsErrOf result SolveRefused.Memory → L.broken log.new ≡ false }
    ensures cause { HasSolveCause (L.faults log.old) (L.faults log.new) result }
    ensures goes_on { L.goes_on_from log.new log.old }
{
    let mut search = Search::new(alloc, f.vars())?;
    match search.take_in(alloc, f)? {
        Some(broken) => {
            search.refute(alloc, f, broken, log)?;
            Ok(Outcome::Refuted(0))
        }
        None => search.run(alloc, f, budget, log),
    }
}
