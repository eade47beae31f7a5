//! The data of a trail, and the calls that read it. The value of a literal is one look into a dense table,
//! since propagation lives on it; levels and reasons are found through the place of a variable.

ghost use Rattle.std.specs.Prelude.{◌≡◌, ◌<◌, ◌≤◌, ◌+◌, ◌*◌, ◌^◌, ◌++◌, ◌∷◌, [], Some, None, IfOk, length, slice_index_or, slice_set, min, is_some, IsSome, IfSome, true, false, ℕ, List};
ghost use Rattle.cnf_base.specs.Literals.{variable};
ghost use Rattle.watch_lists.specs.Entries.{value_in, level_of, reason_of, depth_of, entry, entry_for, level_after, is_assigned};
ghost use Rattle.clause_arena.specs.Clauses.{Live};
ghost use Rattle.watch_lists.specs.Trails.{Seen, IsTrail, popped};
ghost use Rattle.watch_lists.specs.Keeping.{told};
ghost use Rattle.watch_lists.specs.Fits.{Fits, attached_in};
ghost use Rattle.watch_lists.specs.Moving.{AreNamed, moved_trail};

use crate::moved::{move_heads, move_reasons};
use clause_arena::{ClauseRef, Moves};
use cnf_base::{Lit, Var};
use std::alloc::{AllocError, Global};
use std::marker::Model;

// A literal that is true, its level, and the clause that made it true. A decision has none.
#[derive(Clone, Copy)]
pub struct Entry {
    pub lit: Lit,
    pub level: u32,
    pub reason: Option<ClauseRef>,
}

// What is known of a literal: a byte, since propagation lives on it.
#[derive(Clone, Copy)]
pub enum Known {
    Open,
    True,
    False,
}

/// A trail: the literals that are true, in the order in which they became so, with their levels and
/// reasons; and the lists of the clauses that watch each literal.
#[derive(Drop)]
pub struct Trail {
    entries: Vec<Entry>,
    // The value of each literal, by its number.
    values: Vec<Known>,
    // The place among the entries of each variable that has one.
    places: Vec<u32>,
    // The first clause in the list of each literal.
    heads: Vec<Option<ClauseRef>>,
    walked: usize,
}

impl Model for Trail {
    ghost use Rattle.std.specs.Prelude.{length, map};
    ghost use Rattle.std.specs.Vec.{vec_capacity};
    ghost use Rattle.watch_lists.specs.Trails.{Seen};
    ghost use Rattle.watch_lists.specs.Keeping.{IsKept, told};

    ghost Value = { Seen };

    ghost view = { λ t. record { vars = length t.places.items; entries = t.entries.items; heads = t.heads.items; walked = t.walked } };

    ghost invariant = { λ t. IsKept (record { vars = length t.places.items; entries = t.entries.items; heads = t.heads.items; walked = t.walked }) (map told t.values.items) t.places.items (vec_capacity t.entries) };
}

impl Trail {
    /// A trail with nothing assigned and nothing attached.
    pub fn new(alloc: Global, vars: u32) -> Result<Trail, AllocError>
        requires { vars < 2 ^ 30 }
        ensures vars { IfOk result (λ t. t.vars ≡ vars) }
        ensures empty { IfOk result (λ t. (t.entries ≡ []) × (t.walked ≡ 0)) }
        ensures fits { IfOk result (λ t. (cs : List Live) → Fits t cs) }
        ensures attached { IfOk result (λ t. (cs : List Live) (x : ℕ) → attached_in t cs x ≡ false) }
    {
        let lits = 2 * vars as usize;
        Ok(Trail {
            entries: Vec::with_capacity(alloc, vars as usize)?,
            values: vec![in alloc; Known::Open; lits]?,
            places: vec![in alloc; 0; vars as usize]?,
            heads: vec![in alloc; None; lits]?,
            walked: 0,
        })
    }

    /// What every trail keeps, for those who prove something of one.
    pub fn lawful(&self)
        ensures { IsTrail self.now }
    {
        let _ = &self.entries;
    }

    /// The value of a literal. None where its variable is not assigned.
    pub fn value(&self, lit: Lit) -> Option<bool>
        requires { variable lit < self.now.vars }
        ensures { result ≡ value_in self.now.entries lit }
    {
        match self.known(lit) {
            Known::Open => None,
            Known::True => Some(true),
            Known::False => Some(false),
        }
    }

    // What is known of a literal.
    pub(crate) fn known(&self, lit: Lit) -> Known
        requires { variable lit < self.now.vars }
        ensures { told result ≡ value_in self.now.entries lit }
    {
        self.values[lit.0 as usize]
    }

    /// The level at which a variable was assigned.
    pub fn level(&self, var: Var) -> u32
        requires { is_assigned self.now.entries var.0 ≡ true }
        ensures { result ≡ level_of self.now.entries var.0 }
    {
        self.entries[self.places[var.0 as usize] as usize].level
    }

    /// The clause that made a variable's literal true. None at a decision.
    pub fn reason(&self, var: Var) -> Option<ClauseRef>
        requires { is_assigned self.now.entries var.0 ≡ true }
        ensures { result ≡ reason_of self.now.entries var.0 }
    {
        self.entries[self.places[var.0 as usize] as usize].reason
    }

    /// The present level: how many decisions stand on the trail.
    pub fn depth(&self) -> u32
        ensures { result ≡ depth_of self.now.entries }
    {
        match self.entries.last() {
            Some(last) => last.level,
            None => 0,
        }
    }

    /// How many literals are assigned.
    pub fn len(&self) -> usize
        ensures { result ≡ length self.now.entries }
    {
        self.entries.len()
    }

    /// The literal at a place of the trail.
    pub fn at(&self, place: usize) -> Lit
        requires { place < length self.now.entries }
        ensures { result ≡ (entry self.now.entries place).lit }
    {
        self.entries[place].lit
    }

    // How many entries have been walked.
    pub(crate) fn walked(&self) -> usize
        ensures { result ≡ self.now.walked }
    {
        self.walked
    }

    // One more entry has been walked.
    pub(crate) fn walk_on(&mut self)
        requires { self.old.walked < length self.old.entries }
        ensures { self.new ≡ record self.old { walked = self.old.walked + 1 } }
    {
        self.walked += 1;
    }

    // How many literals there are: each variable has two.
    pub(crate) fn lits(&self) -> u32
        ensures { result ≡ 2 * self.now.vars }
    {
        2 * self.places.len() as u32
    }

    // The first clause in the list of a literal.
    pub(crate) fn head(&self, lit: Lit) -> Option<ClauseRef>
        requires { variable lit < self.now.vars }
        ensures { result ≡ slice_index_or self.now.heads lit.0 None }
    {
        self.heads[lit.0 as usize]
    }

    // Lets the list of a literal begin with another clause, or be empty.
    pub(crate) fn set_head(&mut self, lit: Lit, to: Option<ClauseRef>)
        requires { variable lit < self.old.vars }
        ensures { self.new ≡ record self.old { heads = slice_set self.old.heads lit.0 to } }
    {
        self.heads[lit.0 as usize] = to;
    }

    // The level of a literal that is put on the trail now.
    fn level_for(&self, reason: Option<ClauseRef>) -> u32
        requires { depth_of self.now.entries < 2 ^ 31 }
        ensures { result ≡ level_after (depth_of self.now.entries) reason }
    {
        let depth = self.depth();
        match reason {
            Some(_) => depth,
            None => depth + 1,
        }
    }

    // Puts a literal on the trail, at the present level or as the decision of the next.
    pub(crate) fn push(&mut self, lit: Lit, reason: Option<ClauseRef>)
        requires in_vars { variable lit < self.old.vars }
        requires open { value_in self.old.entries lit ≡ None }
        ensures sound { IsTrail self.new }
        ensures pushed { self.new ≡ record self.old { entries = self.old.entries ++ entry_for self.old.entries lit reason ∷ [] } }
    {
        let place = self.entries.len() as u32;
        let level = self.level_for(reason);
        self.places[lit.0 as usize / 2] = place;
        self.values[lit.0 as usize] = Known::True;
        self.values[lit.negated().0 as usize] = Known::False;
        if self.entries.push(Entry { lit, level, reason }).is_err() {
            unreachable!()
        }
    }

    // Takes the last literal off.
    pub(crate) fn pop(&mut self)
        requires { 0 < length self.old.entries }
        ensures sound { IsTrail self.new }
        ensures popped { self.new ≡ popped self.old }
    {
        let place = self.entries.len() - 1;
        let lit = self.entries[place].lit;
        self.values[lit.0 as usize] = Known::Open;
        self.values[lit.negated().0 as usize] = Known::Open;
        self.entries.truncate(place);
        self.walked = self.walked.min(place);
    }

    // Lets heads and reasons lead to where clauses were moved.
    pub(crate) fn move_refs(&mut self, moves: &Moves)
        requires { AreNamed moves.now self.old.entries }
        ensures { self.new ≡ moved_trail moves.now self.old }
    {
        move_heads(&mut self.heads, moves);
        move_reasons(&mut self.entries, moves);
    }
}
