//! Which lessons a reduction takes. Long lessons are worth least, since they rarely imply anything, and among
//! those of one length the newest. Lessons whose literals stood at two levels, or at one, when they were learned tie
//! those levels together, and are worth most whatever their length (Audemard and Simon 2009): they go only where the
//! others are fewer than are due.

ghost use Rattle.std.specs.Prelude.{◌≡◌, ◌<◌, IfOk, IsTrue, map, true};
ghost use Rattle.cnf_base.specs.Literals.{are_below};
ghost use Rattle.clause_arena.specs.Clauses.{is_live, places};
ghost use Rattle.clause_arena.specs.Words.{clauses_in};
ghost use Rattle.watch_lists.specs.Entries.{reason_of};
ghost use Rattle.watch_lists.specs.Fits.{Fits, attached_in};
ghost use Rattle.watch_lists.specs.Trails.{IsTrail};
ghost use Rattle.sat_core.specs.Ready.{IsReady};
ghost use Rattle.sat_core.specs.Reducing.{AreChosen, AreIdle, clauses_of, is_idle, is_reason, leads_to, places_of};

use crate::search::Search;
use clause_arena::ClauseRef;
use cnf_base::{Lit, Var};
use std::alloc::{AllocError, Global};
use std::cmp::Reverse;
use watch_lists::Trail;

// A lesson that may go: whether its literals stood at two levels or at one, and how many they are.
#[derive(Clone, Copy)]
pub struct Idle {
    pub is_close: bool,
    pub size: usize,
    pub clause: ClauseRef,
}

impl Search {
    /// The lessons that are worth least, of those that may go: half of all lessons, or fewer where fewer may go.
    pub(crate) fn worth_least(
        &self,
        alloc: Global,
        formula: u64,
    ) -> Result<Vec<ClauseRef>, AllocError>
        requires { IsReady self.now }
        ensures { IfOk result (λ gone. AreChosen formula self.now.trail (clauses_in self.now.arena) gone.items) }
    {
        let refs = self.arena.refs(alloc)?;
        let found = self.idle_lessons(alloc, formula, &refs)?;
        let mut idle = found.0;
        idle.sort_by_key(|lesson| Reverse(lesson.size))?;
        idle.sort_by_key(|lesson| lesson.is_close)?;
        idle.truncate(found.1 / 2);
        clauses_of(alloc, &idle)
    }

    // The lessons that may go among all clauses, in their order, and how many lessons there are in all.
    fn idle_lessons(
        &self,
        alloc: Global,
        formula: u64,
        refs: &[ClauseRef],
    ) -> Result<(Vec<Idle>, usize), AllocError>
        requires ready { IsReady self.now }
        requires all { places_of refs.now ≡ places (clauses_in self.now.arena) }
        ensures { IfOk result (λ r. AreIdle formula self.now.trail (clauses_in self.now.arena) (clauses_of r.0.items) r.1) }
    {
        let mut idle = Vec::new(alloc);
        let mut lessons = 0;
        for r in refs {
            let id = self.arena.id(*r);
            if id > formula {
                lessons += 1;
                if self.is_idle(*r) {
                    idle.push(Idle {
                        is_close: self.is_close(id - formula),
                        size: self.arena.lits(*r).len(),
                        clause: *r,
                    })?;
                }
            }
        }
        Ok((idle, lessons))
    }

    // Whether the literals of the lesson of a number, from 1 on, stood at two levels or at one.
    fn is_close(&self, number: u64) -> bool {
        let place = number.saturating_sub(1) as usize;
        self.close.get(place).copied().unwrap_or(false)
    }

    // Whether a clause has three literals or more, and is no reason.
    fn is_idle(&self, r: ClauseRef) -> bool
        requires ready { IsReady self.now }
        requires live { is_live (clauses_in self.now.arena) r.0 ≡ true }
        ensures { result ≡ is_idle self.now.trail (clauses_in self.now.arena) r.0 }
    {
        self.arena.lits(r).len() > 2 && !self.is_reason(r)
    }

    // Whether an attached clause is the reason of a literal that is true.
    fn is_reason(&self, r: ClauseRef) -> bool
        requires fits { Fits self.now.trail (clauses_in self.now.arena) }
        requires attached { attached_in self.now.trail (clauses_in self.now.arena) r.0 ≡ true }
        ensures { result ≡ is_reason self.now.trail.entries r.0 }
    {
        for lit in self.arena.lits(r) {
            if self.is_reason_of(r, lit.var()) {
                return true;
            }
        }
        false
    }

    // Whether the clause is the reason of a variable's literal.
    fn is_reason_of(&self, r: ClauseRef, var: Var) -> bool
        requires trail { IsTrail self.now.trail }
        requires below { var.0 < self.now.trail.vars }
        ensures { result ≡ leads_to r.0 (reason_of self.now.trail.entries var.0) }
    {
        if self.trail.value(var.plain()).is_none() {
            return false;
        }
        match self.trail.reason(var) {
            Some(s) => s.0 == r.0,
            None => false,
        }
    }
}

/// Notes, behind the lessons before, whether the literals of a lesson stand at two levels or at one. The levels stand in
/// `levels` then.
pub(crate) fn note_close(
    trail: &Trail,
    lits: &[Lit],
    levels: &mut Vec<u32>,
    close: &mut Vec<bool>,
) -> Result<(), AllocError>
    requires trail { IsTrail trail.now }
    requires below { IsTrue (are_below trail.now.vars lits.now) }
{
    levels.clear();
    for lit in lits {
        levels.push(level_of(trail, lit.var()))?;
    }
    levels.sort_unstable();
    levels.dedup();
    close.push(levels.len() <= 2)?;
    Ok(())
}

// The level of a variable, or 0 where it has no value.
fn level_of(trail: &Trail, var: Var) -> u32
    requires trail { IsTrail trail.now }
    requires below { var.0 < trail.now.vars }
{
    if trail.value(var.plain()).is_none() {
        return 0;
    }
    trail.level(var)
}

// The clauses of idle lessons.
fn clauses_of(alloc: Global, idle: &[Idle]) -> Result<Vec<ClauseRef>, AllocError>
    ensures { IfOk result (λ clauses. clauses.items ≡ clauses_of idle.now) }
{
    let mut clauses = Vec::with_capacity(alloc, idle.len())?;
    for lesson in idle {
        clauses.push(lesson.clause)?;
    }
    Ok(clauses)
}
