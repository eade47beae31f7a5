//! Clauses come into the lists of their first two literals.

ghost use Rattle.std.specs.Prelude.{◌≡◌, ◌≤◌, ◌<◌, ℕ, List, [], ◌∷◌, ◌++◌, Some, None, true, false, length, nat_eq, if◌then◌else◌, slice_set};
ghost use Rattle.cnf_base.specs.Literals.{variable, negation};
ghost use Rattle.clause_arena.specs.Clauses.{Live, is_live, lits_of, with_link, place_of};
ghost use Rattle.clause_arena.specs.Words.{clauses_in};
ghost use Rattle.watch_lists.specs.Entries.{is_true, entry_for};
ghost use Rattle.watch_lists.specs.Rows.{lit_in};
ghost use Rattle.watch_lists.specs.Fits.{Fits, attached_in, IsClause, KeepsClauses, heads_in};
ghost use Rattle.watch_lists.specs.Attaching.{CanBeAttached, attached_entries};
ghost use Rattle.watch_lists.specs.Detaching.{count_in, IsListing, AreNeighbours, IsTakenOut};

use crate::Trail;
use crate::turn::slot_of;
use clause_arena::{Arena, ClauseRef};
use cnf_base::Lit;

impl Trail {
    /// Lets the first two literals of a live clause watch it. Where its second literal is false, the first
    /// is put on the trail at the present level, with the clause as its reason.
    pub fn attach(&mut self, arena: &mut Arena, r: ClauseRef)
        requires fits { Fits self.old (clauses_in arena.old) }
        requires live { is_live (clauses_in arena.old) r.0 ≡ true }
        requires fresh { attached_in self.old (clauses_in arena.old) r.0 ≡ false }
        requires clause { IsClause self.old.vars (lits_of (clauses_in arena.old) r.0) }
        requires ready { CanBeAttached self.old.entries (lits_of (clauses_in arena.old) r.0) }
        ensures fits { Fits self.new (clauses_in arena.new) }
        ensures attached { (x : ℕ) → attached_in self.new (clauses_in arena.new) x ≡ (if nat_eq x r.0 then true else attached_in self.old (clauses_in arena.old) x) }
        ensures clauses { KeepsClauses (clauses_in arena.old) (clauses_in arena.new) }
        ensures lits { (x : ℕ) → lits_of (clauses_in arena.new) x ≡ lits_of (clauses_in arena.old) x }
        ensures vars { self.new.vars ≡ self.old.vars }
        ensures entries { self.new.entries ≡ attached_entries self.old.entries (lits_of (clauses_in arena.old) r.0) r }
        ensures walked { self.new.walked ≡ self.old.walked }
    {
        self.lawful();
        let lits = arena.lits(r);
        let first = lits[0];
        let second = lits[1];
        let is_unit = self.is_false(second);
        self.link_in(arena, r, 0, first);
        self.link_in(arena, r, 1, second);
        if is_unit {
            self.push(first, Some(r));
        }
    }

    /// Takes an attached clause out of the lists of its watches.
    pub fn detach(&mut self, arena: &mut Arena, r: ClauseRef)
        requires fits { Fits self.old (clauses_in arena.old) }
        requires attached { attached_in self.old (clauses_in arena.old) r.0 ≡ true }
        ensures fits { Fits self.new (clauses_in arena.new) }
        ensures attached { (x : ℕ) → attached_in self.new (clauses_in arena.new) x ≡ (if nat_eq x r.0 then false else attached_in self.old (clauses_in arena.old) x) }
        ensures clauses { KeepsClauses (clauses_in arena.old) (clauses_in arena.new) }
        ensures lits { (x : ℕ) → lits_of (clauses_in arena.new) x ≡ lits_of (clauses_in arena.old) x }
        ensures trail { self.new ≡ record self.old { heads = self.new.heads } }
    {
        let lits = arena.lits(r);
        let first = lits[0];
        let second = lits[1];
        self.take_out(arena, r, first);
        self.take_out(arena, r, second);
    }

    // Takes a clause out of the list of a literal.
    fn take_out(&mut self, arena: &mut Arena, r: ClauseRef, f: Lit)
        requires listing { IsListing (count_in self.old (clauses_in arena.old)) self.old (clauses_in arena.old) }
        requires in_vars { variable f < self.old.vars }
        requires stands { count_in self.old (clauses_in arena.old) f.0 r.0 ≡ 1 }
        ensures { IsTakenOut (count_in self.old (clauses_in arena.old)) self.old (clauses_in arena.old) f.0 r.0 self.new (clauses_in arena.new) }
    {
        let (before, next) = self.neighbours(arena, r, f);
        self.unlink(arena, f, before, next);
    }

    // The clauses before and behind a clause in the list of a literal.
    fn neighbours(
        &self,
        arena: &Arena,
        r: ClauseRef,
        f: Lit,
    ) -> (Option<ClauseRef>, Option<ClauseRef>)
        requires listing { IsListing (count_in self.now (clauses_in arena.now)) self.now (clauses_in arena.now) }
        requires in_vars { variable f < self.now.vars }
        requires stands { count_in self.now (clauses_in arena.now) f.0 r.0 ≡ 1 }
        ensures { AreNeighbours (count_in self.now (clauses_in arena.now)) self.now (clauses_in arena.now) f.0 r.0 (place_of result.0) (place_of result.1) }
    {
        let mut before = None;
        let mut hand = self.head(f);
        while let Some(clause) = hand {
            let slot = slot_of(arena, clause, f);
            let next = arena.link(clause, slot);
            if clause.0 == r.0 {
                return (before, next);
            }
            before = hand;
            hand = next;
        }
        unreachable!()
    }

    // Puts a clause in front of the list of a literal, by its link in a slot.
    fn link_in(&mut self, arena: &mut Arena, r: ClauseRef, slot: u8, lit: Lit)
        requires live { is_live (clauses_in arena.old) r.0 ≡ true }
        requires slot_in { slot < 2 }
        requires in_vars { variable lit < self.old.vars }
        ensures heads { self.new ≡ record self.old { heads = slice_set self.old.heads lit.0 (Some r) } }
        ensures clauses { clauses_in arena.new ≡ with_link (clauses_in arena.old) r.0 slot (heads_in self.old.heads lit.0) }
    {
        let head = self.head(lit);
        arena.set_link(r, slot, head);
        self.set_head(lit, Some(r));
    }
}
