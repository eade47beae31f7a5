//! Literals come on the trail, as decisions or with a reason, and go with their levels.

ghost use Rattle.std.specs.Prelude.{◌≡◌, ◌≤◌, ◌<◌, ℕ, List, [], ◌∷◌, ◌++◌, Some, None, true, length};
ghost use Rattle.cnf_base.specs.Literals.{variable, negation, has_lit};
ghost use Rattle.clause_arena.specs.Clauses.{Live, is_live, lits_of};
ghost use Rattle.clause_arena.specs.Words.{clauses_in};
ghost use Rattle.watch_lists.specs.Entries.{value_in, is_true, entry_for, depth_of};
ghost use Rattle.watch_lists.specs.Trails.{IsTrail, backed};
ghost use Rattle.watch_lists.specs.Fits.{Fits, attached_in, AreOthersFalse};

use crate::Trail;
use clause_arena::{Arena, ClauseRef};
use cnf_base::Lit;

impl Trail {
    /// The next level begins with this literal. The trail fits each arena that it fitted, with the same
    /// clauses attached.
    pub fn decide(&mut self, lit: Lit)
        requires in_vars { variable lit < self.old.vars }
        requires open { value_in self.old.entries lit ≡ None }
        requires walked { self.old.walked ≡ length self.old.entries }
        ensures decided { self.new ≡ record self.old { entries = self.old.entries ++ entry_for self.old.entries lit None ∷ [] } }
        ensures fits { (cs : List Live) → Fits self.old cs → Fits self.new cs }
        ensures attached { (cs : List Live) (x : ℕ) → attached_in self.new cs x ≡ attached_in self.old cs x }
    {
        self.push(lit, None);
    }

    /// Puts a literal on the trail at the present level, with the clause of which it is the one literal
    /// that is not false.
    pub fn imply(&mut self, arena: &Arena, lit: Lit, r: ClauseRef)
        requires fits { Fits self.old (clauses_in arena.now) }
        requires in_vars { variable lit < self.old.vars }
        requires open { value_in self.old.entries lit ≡ None }
        requires live { is_live (clauses_in arena.now) r.0 ≡ true }
        requires has { has_lit (lits_of (clauses_in arena.now) r.0) lit ≡ true }
        requires others { AreOthersFalse self.old.entries (lits_of (clauses_in arena.now) r.0) lit }
        ensures implied { self.new ≡ record self.old { entries = self.old.entries ++ entry_for self.old.entries lit (Some r) ∷ [] } }
        ensures fits { Fits self.new (clauses_in arena.now) }
        ensures attached { (x : ℕ) → attached_in self.new (clauses_in arena.now) x ≡ attached_in self.old (clauses_in arena.now) x }
    {
        let _ = arena;
        self.push(lit, Some(r));
    }

    /// The literals of higher levels go. Those that stay and were walked are still walked, and the trail
    /// fits each arena that it fitted, with the same clauses attached.
    pub fn back_to(&mut self, level: u32)
        requires { level ≤ depth_of self.old.entries }
        ensures gone { self.new ≡ backed self.old level }
        ensures depth { depth_of self.new.entries ≡ level }
        ensures fits { (cs : List Live) → Fits self.old cs → Fits self.new cs }
        ensures attached { (cs : List Live) (x : ℕ) → attached_in self.new cs x ≡ attached_in self.old cs x }
    {
        self.lawful();
        while self.depth() > level {
            self.pop();
        }
    }
}
