//! The search's turns. Each propagates. Where a clause is false the search learns from it, or ends refuted at
//! level 0; else it decides, or ends with a model where each variable has a value. Behind a lesson it may let go
//! of others, and start anew. Behind the last lesson of the budget it goes on only at level 0, where no decision
//! stands.

ghost use Rattle.std.specs.Prelude.{◌≡◌, ◌+◌, ◌^◌, ◌<◌, ◌≤◌, List, None, Option, OnOk, IsErrOf, IfOk, IfNone, MatchOption, false, length};
ghost use Rattle.cnf_base.specs.Literals.{IsCnf};
ghost use Rattle.cnf_base.specs.Logs.{LogStep};
ghost use Rattle.clause_arena.specs.Words.{clauses_in};
ghost use Rattle.sat_core.specs.Outcomes.{HasSolveCause, IsTrueOutcome};
ghost use Rattle.sat_core.specs.Standing.{HoldsReduced};
ghost use Rattle.sat_core.specs.Ready.{IsReady, IsUnderWay, turns_left};

use crate::restart::Restarts;
use crate::search::Search;
use crate::{Outcome, SolveRefused};
use cnf_base::{ClauseTake, Formula, LogTake};
use std::alloc::Global;

impl Search {
    /// One turn. The answer is an outcome where the search ends.
    fn turn<L: LogTake>(
        &mut self,
        alloc: Global,
        f: &Formula,
        budget: u64,
        restarts: &mut Restarts,
        log: &mut L,
    ) -> Result<Option<Outcome>, SolveRefused>
        requires lawful { IsCnf f.now }
        requires under_way { IsUnderWay f.now budget self.old restarts.old }
        requires holds { HoldsReduced f.now None (L.steps log.old) (clauses_in self.old.arena) self.old.lessons }
        requires unbroken { L.broken log.old ≡ false }
        requires bounded { budget ≤ 10000000 }
        requires small { length f.now.clauses + budget + 1 < 2 ^ 64 }
        ensures under_way { IfOk result (λ end. IfNone end (IsUnderWay f.now budget self.new restarts.new)) }
        ensures falls { IfOk result (λ end. IfNone end (turns_left budget self.new < turns_left budget self.old)) }
        ensures holds { (first : Option (List LogStep)) → HoldsReduced f.now first (L.steps log.old) (clauses_in self.old.arena) self.old.lessons → IfOk result (λ end. MatchOption end (HoldsReduced f.now first (L.steps log.new) (clauses_in self.new.arena) self.new.lessons) (λ outcome. IsTrueOutcome f.now budget first (L.steps log.new) outcome)) }
        ensures unbroken { OnOk result (L.broken log.new ≡ false) }
        ensures intact { IsErrOf result SolveRefused.Memory → L.broken log.new ≡ false }
        ensures cause { HasSolveCause (L.faults log.old) (L.faults log.new) result }
        ensures goes_on { L.goes_on_from log.new log.old }
    {
        if self.lessons == budget && self.trail.depth() > 0 {
            return Ok(Some(Outcome::Spent(budget)));
        }
        match self.propagate() {
            Some(conflict) => {
                if self.trail.depth() == 0 {
                    self.refute(alloc, f, conflict, log)?;
                    return Ok(Some(Outcome::Refuted(self.lessons)));
                }
                self.learn_from(alloc, f, conflict, log)?;
                self.reduce(alloc, f, log)?;
                self.restart(restarts);
                Ok(None)
            }
            None => {
                if self.decide() {
                    return Ok(None);
                }
                let values = self.values(alloc, f.vars())?;
                Ok(Some(Outcome::Model(values)))
            }
        }
    }

    /// Turns until the search ends.
    pub(crate) fn run<L: LogTake>(
        &mut self,
        alloc: Global,
        f: &Formula,
        budget: u64,
        log: &mut L,
    ) -> Result<Outcome, SolveRefused>
        requires ready { IsReady self.old }
        requires lawful { IsCnf f.now }
        requires vars { self.old.trail.vars ≡ f.now.vars }
        requires holds { HoldsReduced f.now (L.steps log.old) (L.steps log.old) (clauses_in self.old.arena) self.old.lessons }
        requires unbroken { L.broken log.old ≡ false }
        requires few { self.old.lessons ≤ budget }
        requires bounded { budget ≤ 10000000 }
        requires small { length f.now.clauses + budget + 1 < 2 ^ 64 }
        ensures outcome { IfOk result (λ outcome. IsTrueOutcome f.now budget (L.steps log.old) (L.steps log.new) outcome) }
        ensures unbroken { OnOk result (L.broken log.new ≡ false) }
        ensures intact { IsErrOf result SolveRefused.Memory → L.broken log.new ≡ false }
        ensures cause { HasSolveCause (L.faults log.old) (L.faults log.new) result }
        ensures goes_on { L.goes_on_from log.new log.old }
    {
        let mut restarts = Restarts::new();
        'turns: loop {
            match self.turn(alloc, f, budget, &mut restarts, log)? {
                Some(outcome) => return Ok(outcome),
                None => {}
            }
        }
    }
}
