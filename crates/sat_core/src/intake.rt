//! The formula's clauses come in. Those of two or more literals are attached while nothing has a value yet;
//! then those of one literal are made true. A literal that a clause repeats is taken once.

ghost use Rattle.std.specs.Prelude.{◌≡◌, ◌+◌, ◌*◌, ◌/◌, ◌^◌, ◌<◌, ◌≤◌, ℕ, IsTrue, OnOk, IfOk, IfNone, IfSome, [], true, length, vec_len, slice_index};
ghost use Rattle.cnf_base.specs.Literals.{are_below};
ghost use Rattle.cnf_base.specs.Lessons.{are_distinct};
ghost use Rattle.clause_arena.specs.Words.{clauses_in};
ghost use Rattle.std.specs.List.{enumerate_from};
ghost use Rattle.watch_lists.specs.Entries.{depth_of};
ghost use Rattle.conflict_learn.specs.Resolvents.{Mirrors};
ghost use Rattle.sat_core.specs.Ready.{Gains, IsFreshSearch, IsReady};
ghost use Rattle.sat_core.specs.Intake.{AreTaken, AwaitsUnits, IsBroken, IsOnce, numbers_of};

use crate::search::Search;
use clause_arena::ClauseRef;
use cnf_base::{ClauseTake, Formula, Lit};
use std::alloc::{AllocError, Global};

// Puts each literal of a clause into the list once. `last` has the turn in which each literal was last put;
// this turn is beyond them.
fn put_once(
    lits: &[Lit],
    turn: u64,
    last: &mut [u64],
    once: &mut Vec<Lit>,
) -> Result<(), AllocError>
    requires below { IsTrue (are_below (length last.old / 2) lits.now) }
    requires fresh { (n : ℕ) → slice_index last.old n < turn }
    ensures once { OnOk result (IsOnce lits.now once.new.items) }
    ensures until { OnOk result ((n : ℕ) → slice_index last.new n ≤ turn) }
{
    once.clear();
    for lit in lits {
        let place = lit.0 as usize;
        if last[place] != turn {
            last[place] = turn;
            once.push(*lit)?;
        }
    }
    Ok(())
}

impl Search {
    // Holds a clause of the formula, while nothing has a value. A clause of one literal waits among the units.
    // The answer is the clause where it has no literal.
    fn hold_given(
        &mut self,
        id: u64,
        lits: &[Lit],
        units: &mut Vec<ClauseRef>,
    ) -> Result<Option<ClauseRef>, AllocError>
        requires bare { self.old.trail.entries ≡ [] }
        requires awaits { AwaitsUnits self.old units.old.items }
        requires below { IsTrue (are_below self.old.trail.vars lits.now) }
        requires apart { are_distinct (numbers_of lits.now) ≡ true }
        ensures awaits { IfOk result (λ end. IfNone end (AwaitsUnits self.new units.new.items)) }
        ensures empty { IfOk result (λ end. IfSome end (λ r. IsBroken self.new r.0)) }
        ensures gains { OnOk result (Gains (clauses_in self.old.arena) id lits.now (clauses_in self.new.arena)) }
        ensures bare { OnOk result (self.new.trail.entries ≡ []) }
        ensures vars { self.new.trail.vars ≡ self.old.trail.vars }
        ensures lessons { self.new.lessons ≡ self.old.lessons }
    {
        let r = self.arena.add(id, lits)?;
        if lits.len() > 1 {
            self.trail.attach(&mut self.arena, r);
            return Ok(None);
        }
        if lits.len() == 1 {
            units.push(r)?;
            return Ok(None);
        }
        Ok(Some(r))
    }

    // Makes the clauses of one literal true. The answer is one that is false.
    fn assert_units(&mut self, units: &[ClauseRef]) -> Option<ClauseRef>
        requires awaits { AwaitsUnits self.old units.now }
        requires low { depth_of self.old.trail.entries ≡ 0 }
        ensures ready { IfNone result (IsReady self.new) }
        ensures broken { IfSome result (λ r. IsBroken self.new r.0) }
        ensures arena { self.new.arena ≡ self.old.arena }
        ensures vars { self.new.trail.vars ≡ self.old.trail.vars }
        ensures lessons { self.new.lessons ≡ self.old.lessons }
    {
        for r in units {
            let lit = self.arena.lits(*r)[0];
            match self.trail.value(lit) {
                None => self.trail.imply(&self.arena, lit, *r),
                Some(value) => {
                    if !value {
                        return Some(*r);
                    }
                }
            }
        }
        None
    }

    // Holds the clauses of the formula. The answer is one without literals.
    fn hold_formula(
        &mut self,
        alloc: Global,
        f: &Formula,
        units: &mut Vec<ClauseRef>,
    ) -> Result<Option<ClauseRef>, AllocError>
        requires bare { self.old.trail.entries ≡ [] }
        requires awaits { AwaitsUnits self.old units.old.items }
        requires vars { self.old.trail.vars ≡ f.now.vars }
        requires none_yet { clauses_in self.old.arena ≡ [] }
        ensures awaits { IfOk result (λ end. IfNone end (AwaitsUnits self.new units.new.items)) }
        ensures broken { IfOk result (λ end. IfSome end (λ r. IsBroken self.new r.0)) }
        ensures few { OnOk result (length f.now.clauses < 2 ^ 63) }
        ensures taken { IfOk result (λ end. IfNone end (AreTaken f.now (length f.now.clauses) (clauses_in self.new.arena))) }
        ensures mirrors { OnOk result (Mirrors (enumerate_from 1 f.now.clauses) (clauses_in self.new.arena)) }
        ensures bare { OnOk result (self.new.trail.entries ≡ []) }
        ensures vars { OnOk result (self.new.trail.vars ≡ self.old.trail.vars) }
        ensures lessons { OnOk result (self.new.lessons ≡ self.old.lessons) }
    {
        let mut last = vec![in alloc; 0u64; 2 * f.vars() as usize]?;
        let mut once = Vec::new(alloc);
        for n in 0..f.len() {
            let id = n as u64 + 1;
            put_once(f.clause(n), id, &mut last, &mut once)?;
            match self.hold_given(id, &once, units)? {
                Some(r) => return Ok(Some(r)),
                None => {}
            }
        }
        Ok(None)
    }

    /// Takes the formula in. The answer is a clause that is false at level 0.
    pub(crate) fn take_in(
        &mut self,
        alloc: Global,
        f: &Formula,
    ) -> Result<Option<ClauseRef>, AllocError>
        requires fresh { IsFreshSearch f.now.vars self.old }
        ensures ready { IfOk result (λ end. IfNone end (IsReady self.new)) }
        ensures few { OnOk result (length f.now.clauses < 2 ^ 63) }
        ensures taken { IfOk result (λ end. IfNone end (AreTaken f.now (length f.now.clauses) (clauses_in self.new.arena))) }
        ensures broken { IfOk result (λ end. IfSome end (λ r. IsBroken self.new r.0)) }
        ensures mirrors { OnOk result (Mirrors (enumerate_from 1 f.now.clauses) (clauses_in self.new.arena)) }
        ensures vars { OnOk result (self.new.trail.vars ≡ f.now.vars) }
        ensures lessons { OnOk result (self.new.lessons ≡ 0) }
    {
        let mut units = Vec::new(alloc);
        match self.hold_formula(alloc, f, &mut units)? {
            Some(empty) => Ok(Some(empty)),
            None => Ok(self.assert_units(&units)),
        }
    }
}
