//! The way back. The decisions beyond a level go, with all that followed from them. Each variable that so
//! loses its value may be decided again, and its value is kept as its phase.

ghost use Rattle.std.specs.Prelude.{◌≡◌, ◌<◌, ◌≤◌, ℕ, List, length, true};
ghost use Rattle.clause_arena.specs.Clauses.{Live};
ghost use Rattle.watch_lists.specs.Entries.{depth_of, entries_up_to};
ghost use Rattle.watch_lists.specs.Fits.{SameAttached};
ghost use Rattle.watch_lists.specs.Trails.{IsTrail};
ghost use Rattle.decide_order.specs.Rankings.{is_held};
ghost use Rattle.sat_core.specs.Ready.{AreReleased, IsOrdered, IsReady};

use crate::search::Search;

impl Search {
    // Lets the variables of higher levels be decided again, and keeps their values as phases.
    fn release(&mut self, level: u32)
        requires ordered { IsOrdered self.old }
        requires trail { IsTrail self.old.trail }
        ensures same { self.new ≡ record self.old { heap = self.new.heap; phases = self.new.phases } }
        ensures phases { length self.new.phases.items ≡ length self.old.phases.items }
        ensures scores { length self.new.heap.scores ≡ length self.old.heap.scores }
        ensures kept { (v : ℕ) → is_held self.old.heap v ≡ true → is_held self.new.heap v ≡ true }
        ensures released { AreReleased self.new.heap self.old.trail.entries level 0 }
    {
        let mut place = self.trail.len();
        while place > 0 {
            let lit = self.trail.at(place - 1);
            let var = lit.var();
            if self.trail.level(var) <= level {
                break;
            }
            self.phases[var.0 as usize] = !lit.is_negated();
            self.heap.give_back(var);
            place -= 1;
        }
    }

    /// Takes back all decisions beyond a level, and what followed from them.
    pub(crate) fn back_to(&mut self, level: u32)
        requires ready { IsReady self.old }
        requires within { level ≤ depth_of self.old.trail.entries }
        ensures ready { IsReady self.new }
        ensures arena { self.new.arena ≡ self.old.arena }
        ensures lessons { self.new.lessons ≡ self.old.lessons }
        ensures vars { self.new.trail.vars ≡ self.old.trail.vars }
        ensures entries { self.new.trail.entries ≡ entries_up_to level self.old.trail.entries }
        ensures depth { depth_of self.new.trail.entries ≡ level }
        ensures attached { (cs : List Live) → SameAttached self.old.trail cs self.new.trail cs }
    {
        self.release(level);
        self.trail.back_to(level);
    }
}
