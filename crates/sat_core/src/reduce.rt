//! Reductions. Lessons pile up, each makes propagation slower, and few of them are used again. So behind the
//! lesson of number 1000·m·(m + 1), for each m from 1 on, the search lets go of half of its lessons: of those
//! that are worth least, and never of a clause of the formula, of the reason of a literal that is true, or of
//! a lesson of two or fewer literals. One line of the log removes them. Then they are taken out of the lists of
//! watches, and the arena is packed.

ghost use Rattle.std.specs.Prelude.{◌≡◌, ◌+◌, ◌^◌, ◌<◌, ◌≤◌, ℕ, List, None, Option, OnOk, IsErrOf, IfOk, false, true, length, map};
ghost use Rattle.cnf_base.specs.Logs.{LogStep};
ghost use Rattle.clause_arena.specs.Clauses.{is_live};
ghost use Rattle.clause_arena.specs.Packing.{moves_of, packed_by};
ghost use Rattle.clause_arena.specs.Words.{clauses_in};
ghost use Rattle.watch_lists.specs.Rows.{times};
ghost use Rattle.sat_core.specs.Outcomes.{HasSolveCause};
ghost use Rattle.sat_core.specs.Standing.{HoldsLesson, HoldsReduced};
ghost use Rattle.sat_core.specs.Ready.{IsReady};
ghost use Rattle.sat_core.specs.Reducing.{AreMarked, Loses, MayAllGo, ids_in, places_of};

use crate::SolveRefused;
use crate::search::Search;
use clause_arena::{ClauseRef, Moves};
use cnf_base::{ClauseTake, Formula, LogTake};
use decide_order::reduce_at;
use std::alloc::{AllocError, Global};

impl Search {
    /// Lets go of lessons behind the last one, where the schedule says so.
    pub(crate) fn reduce<L: LogTake>(
        &mut self,
        alloc: Global,
        f: &Formula,
        log: &mut L,
    ) -> Result<(), SolveRefused>
        requires ready { IsReady self.old }
        requires vars { self.old.trail.vars ≡ f.now.vars }
        requires holds { HoldsLesson f.now None (L.steps log.old) (clauses_in self.old.arena) self.old.lessons }
        requires unbroken { L.broken log.old ≡ false }
        requires small { length f.now.clauses + self.old.lessons < 2 ^ 64 }
        ensures ready { OnOk result (IsReady self.new) }
        ensures holds { (first : Option (List LogStep)) → HoldsLesson f.now first (L.steps log.old) (clauses_in self.old.arena) self.old.lessons → OnOk result (HoldsReduced f.now first (L.steps log.new) (clauses_in self.new.arena) self.new.lessons) }
        ensures lessons { OnOk result (self.new.lessons ≡ self.old.lessons) }
        ensures vars { OnOk result (self.new.trail.vars ≡ self.old.trail.vars) }
        ensures unbroken { OnOk result (L.broken log.new ≡ false) }
        ensures intact { IsErrOf result SolveRefused.Memory → L.broken log.new ≡ false }
        ensures cause { HasSolveCause (L.faults log.old) (L.faults log.new) result }
        ensures goes_on { L.goes_on_from log.new log.old }
    {
        if !reduce_at(self.lessons) {
            return Ok(());
        }
        let gone = self.worth_least(alloc, f.len() as u64)?;
        if gone.is_empty() {
            return Ok(());
        }
        let ids = self.ids_of(alloc, &gone)?;
        let marks = self.marks_of(alloc, &gone)?;
        log.remove(f.len() as u64 + self.lessons, &ids)?;
        self.let_all_go(&gone, &marks);
        self.pack(alloc)?;
        Ok(())
    }

    // The ids of live clauses.
    fn ids_of(&self, alloc: Global, clauses: &[ClauseRef]) -> Result<Vec<u64>, AllocError>
        requires { (r : ℕ) → 1 ≤ times r (places_of clauses.now) → is_live (clauses_in self.now.arena) r ≡ true }
        ensures { IfOk result (λ ids. ids.items ≡ ids_in (clauses_in self.now.arena) (places_of clauses.now)) }
    {
        let mut ids = Vec::with_capacity(alloc, clauses.len())?;
        for r in clauses {
            ids.push(self.arena.id(*r))?;
        }
        Ok(ids)
    }

    // A mark for each of these clauses.
    fn marks_of(&self, alloc: Global, clauses: &[ClauseRef]) -> Result<Vec<bool>, AllocError>
        requires { (r : ℕ) → 1 ≤ times r (places_of clauses.now) → is_live (clauses_in self.now.arena) r ≡ true }
        ensures { IfOk result (λ marks. AreMarked marks.items (places_of clauses.now)) }
    {
        let mut marks = vec![in alloc; false; self.arena.bound() as usize]?;
        for r in clauses {
            marks[r.0 as usize] = true;
        }
        Ok(marks)
    }

    // Takes the clauses, which are marked, out of the lists of watches and out of the arena.
    fn let_all_go(&mut self, gone: &[ClauseRef], marks: &[bool])
        requires ready { IsReady self.old }
        requires may_go { MayAllGo self.old.trail (clauses_in self.old.arena) (places_of gone.now) }
        requires marked { AreMarked marks.now (places_of gone.now) }
        ensures ready { IsReady self.new }
        ensures loses { Loses (clauses_in self.old.arena) (places_of gone.now) (clauses_in self.new.arena) }
        ensures lessons { self.new.lessons ≡ self.old.lessons }
        ensures vars { self.new.trail.vars ≡ self.old.trail.vars }
    {
        self.trail.detach_all(&mut self.arena, marks);
        for r in gone {
            self.arena.retire(*r);
        }
    }

    // Puts the clauses together without gaps.
    fn pack(&mut self, alloc: Global) -> Result<(), AllocError>
        requires { IsReady self.old }
        ensures ready { OnOk result (IsReady self.new) }
        ensures packed { OnOk result (clauses_in self.new.arena ≡ packed_by (moves_of (clauses_in self.old.arena)) (clauses_in self.old.arena)) }
        ensures lessons { self.new.lessons ≡ self.old.lessons }
        ensures vars { self.new.trail.vars ≡ self.old.trail.vars }
    {
        let mut moves = Moves::new(alloc);
        self.arena.pack(alloc, &mut moves)?;
        self.trail.moved(&self.arena, &moves);
        Ok(())
    }
}
