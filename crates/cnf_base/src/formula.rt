// A formula: its clauses stand in one block of literals, so that a million clauses are two allocations.
ghost use Rattle.std.specs.Prelude.{◌≡◌, ◌^◌, ◌<◌, ◌≤◌, ◌∷◌, ◌++◌, [], IsTrue, OnErr, OnOk, Some, length, slice_get, slice_index};
ghost use Rattle.cnf_base.specs.Blocks.{AreEnds, start_at};
ghost use Rattle.cnf_base.specs.Literals.{IsCnf, all_true, are_below, clause_true, lit_true, values_of, variable};

use crate::{ClauseTake, Lit};
use std::alloc::{AllocError, Global};
use std::marker::Model;

/// Clauses over variables that count from 0, fewer than 2^30. Clause n, from 0, has the id n + 1 in a log.
#[derive(Drop)]
pub struct Formula {
    vars: u32,
    lits: Vec<Lit>,
    ends: Vec<usize>,
}

impl Model for Formula {
    ghost use Rattle.cnf_base.specs.Literals.{Cnf};

    ghost Value = { Cnf };

    ghost use Rattle.cnf_base.specs.Blocks.{IsBlock, cut_at};

    ghost view = { λ f. record { vars = f.vars; clauses = cut_at 0 f.ends.items f.lits.items } };

    ghost invariant = { λ f. IsBlock f.vars f.ends.items f.lits.items };
}

impl Formula {
    /// No clauses yet.
    pub fn new(alloc: Global, vars: u32) -> Formula
        requires { vars < 2 ^ 30 }
        ensures empty { result ≡ record { vars = vars; clauses = [] } }
        ensures lawful { IsCnf result }
    {
        Formula {
            vars,
            lits: Vec::new(alloc),
            ends: Vec::new(alloc),
        }
    }

    /// How many clauses there are.
    #[tactic(auto, using(crate::proofs::Blocks::length_of_cut, crate::proofs::Blocks::block_is_cnf))]
    pub fn len(&self) -> usize
        ensures count { result ≡ length self.now.clauses }
        ensures few { length self.now.clauses < 2 ^ 63 }
        ensures lawful { IsCnf self.now }
    {
        self.ends.len()
    }

    /// The literals of clause n.
    #[tactic(auto, using(crate::proofs::Blocks::block_is_cnf, crate::proofs::Blocks::length_of_cut))]
    pub fn clause(&self, n: usize) -> &[Lit]
        requires { n < length self.now.clauses }
        ensures there { slice_get self.now.clauses n ≡ Some result.now }
        ensures below { IsTrue (are_below self.now.vars result.now) }
        ensures lawful { IsCnf self.now }
    {
        let (start, end) = bounds_of(&self.ends, self.lits.len(), n);
        &self.lits[start..end]
    }
}

impl ClauseTake for Formula {
    ghost var_count = { λ f. f.vars };

    ghost taken = { λ f. f.clauses };

    #[tactic(auto, using(crate::proofs::Blocks::block_is_cnf))]
    fn vars(&self) -> u32
        ensures count { result ≡ self.now.vars }
        ensures lawful { IsCnf self.now }
    {
        self.vars
    }

    #[tactic(auto, using(crate::proofs::Blocks::block_is_cnf))]
    fn take(&mut self, lits: &[Lit]) -> Result<(), AllocError>
        requires { IsTrue (are_below self.old.vars lits.now) }
        ensures vars { self.new.vars ≡ self.old.vars }
        ensures took { OnOk result (self.new.clauses ≡ self.old.clauses ++ lits.now ∷ []) }
        ensures kept { OnErr result (self.new.clauses ≡ self.old.clauses) }
        ensures lawful { IsCnf self.new }
    {
        self.lits.extend_from_slice(lits)?;
        let end = self.lits.len();
        if let Err(refused) = self.ends.push(end) {
            self.lits.truncate(end - lits.len());
            return Err(AllocError::from(refused));
        }
        Ok(())
    }
}

// Where clause n starts in a block of so many literals, and where it ends.
fn bounds_of(ends: &[usize], lits: usize, n: usize) -> (usize, usize)
    requires rising { AreEnds 0 ends.now lits }
    requires there { n < length ends.now }
    ensures start { result.0 ≡ start_at 0 ends.now n }
    ensures end { result.1 ≡ slice_index ends.now n }
    ensures rising { result.0 ≤ result.1 }
    ensures within { result.1 ≤ lits }
{
    let start = if n == 0 { 0 } else { ends[n - 1] };
    (start, ends[n])
}

/// Whether the values, one for each variable, make every clause true.
pub fn satisfies(f: &Formula, values: &[bool]) -> bool
    requires { length values.now ≡ f.now.vars }
    ensures { result ≡ all_true (values_of values.now) f.now.clauses }
{
    for n in 0..f.len() {
        if !is_clause_true(f.clause(n), values) {
            return false;
        }
    }
    true
}

// Whether some literal is true.
fn is_clause_true(clause: &[Lit], values: &[bool]) -> bool
    requires { IsTrue (are_below (length values.now) clause.now) }
    ensures { result ≡ clause_true (values_of values.now) clause.now }
{
    for lit in clause {
        if is_lit_true(*lit, values) {
            return true;
        }
    }
    false
}

fn is_lit_true(lit: Lit, values: &[bool]) -> bool
    requires { variable lit < length values.now }
    ensures { result ≡ lit_true (values_of values.now) lit }
{
    values[lit.var().0 as usize] != lit.is_negated()
}
