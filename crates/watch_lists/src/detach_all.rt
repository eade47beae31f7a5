//! Many clauses leave the lists at once. Each list is walked once, whatever the number of clauses that go: to
//! take one clause out costs a walk through two lists.

ghost use Rattle.std.specs.Prelude.{◌≡◌, ◌<◌, ℕ, false, if◌then◌else◌, length};
ghost use Rattle.cnf_base.specs.Literals.{variable};
ghost use Rattle.clause_arena.specs.Clauses.{lits_of};
ghost use Rattle.clause_arena.specs.Words.{clauses_in};
ghost use Rattle.watch_lists.specs.Fits.{Fits, attached_in, KeepsClauses};
ghost use Rattle.watch_lists.specs.Detaching.{count_in, IsListing};
ghost use Rattle.watch_lists.specs.Leaving.{is_marked, HasLeft};

use crate::Trail;
use crate::turn::slot_of;
use clause_arena::{Arena, ClauseRef};
use cnf_base::Lit;

impl Trail {
    /// Takes all attached clauses out of the lists of their watches whose places are marked: `marks` has a mark
    /// for each place, and none beyond its end.
    pub fn detach_all(&mut self, arena: &mut Arena, marks: &[bool])
        requires { Fits self.old (clauses_in arena.old) }
        ensures fits { Fits self.new (clauses_in arena.new) }
        ensures attached { (x : ℕ) → attached_in self.new (clauses_in arena.new) x ≡ (if is_marked marks.now x then false else attached_in self.old (clauses_in arena.old) x) }
        ensures clauses { KeepsClauses (clauses_in arena.old) (clauses_in arena.new) }
        ensures lits { (x : ℕ) → lits_of (clauses_in arena.new) x ≡ lits_of (clauses_in arena.old) x }
        ensures trail { self.new ≡ record self.old { heads = self.new.heads } }
    {
        let count = self.lits();
        for n in 0..count {
            self.leave(arena, Lit(n), marks);
        }
    }

    // Takes the marked clauses out of the list of a literal.
    fn leave(&mut self, arena: &mut Arena, f: Lit, marks: &[bool])
        requires listing { IsListing (count_in self.old (clauses_in arena.old)) self.old (clauses_in arena.old) }
        requires in_vars { variable f < self.old.vars }
        ensures { HasLeft (count_in self.old (clauses_in arena.old)) self.old (clauses_in arena.old) f.0 marks.now self.new (clauses_in arena.new) }
    {
        let mut before = None;
        let mut hand = self.head(f);
        while let Some(r) = hand {
            let slot = slot_of(arena, r, f);
            let next = arena.link(r, slot);
            if is_marked(marks, r) {
                self.unlink(arena, f, before, next);
            } else {
                before = hand;
            }
            hand = next;
        }
    }
}

// Whether a clause is marked.
fn is_marked(marks: &[bool], r: ClauseRef) -> bool
    ensures { result ≡ is_marked marks.now r.0 }
{
    marks.get(r.0 as usize).copied().unwrap_or(false)
}
