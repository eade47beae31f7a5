// Who takes clauses, and who takes the steps of a log.
ghost use Rattle.std.specs.Prelude.{◌≡◌, ◌^◌, ◌<◌, ◌∷◌, ◌++◌, [], ℕ, List, Bool, IsTrue, Option, OnErr, OnOk, false};
ghost use Rattle.cnf_base.specs.Literals.{Clause, are_below};
ghost use Rattle.cnf_base.specs.Logs.{Add, LogStep, Remove};
ghost use Rattle.cnf_base.specs.Takes.{HasLogCause, Takes, are_ids, is_fault};

use crate::Lit;
use std::alloc::AllocError;

/// Takes clauses, one after the other.
pub trait ClauseTake {
    /// How many variables its clauses are over. It never changes.
    ghost var_count: { Self → ℕ };

    /// The clauses taken, in order.
    ghost taken: { Self → List Clause };

    /// How many variables its clauses are over.
    fn vars(&self) -> u32
        ensures { result ≡ var_count self.now };

    /// Takes a clause. Where memory is refused, the clauses taken are as before.
    fn take(&mut self, lits: &[Lit]) -> Result<(), AllocError>
        requires { IsTrue (are_below (var_count self.old) lits.now) }
        ensures vars { var_count self.new ≡ var_count self.old }
        ensures took { OnOk result (taken self.new ≡ taken self.old ++ lits.now ∷ []) }
        ensures kept { OnErr result (taken self.new ≡ taken self.old) };
}

/// Why a step was not taken.
#[derive(Clone, Copy, PartialEq, Eq, Debug)]
pub enum LogBad {
    /// The log failed. It is broken from then on.
    Fault,
    Memory,
}

impl From<AllocError> for LogBad {
    ghost use Rattle.std.specs.Prelude.{◌≡◌};
    ghost use Rattle.cnf_base.specs.declared.traits.LogBad.TheVariants.{Memory};

    ghost from_gives = { λ _ e. e ≡ Memory };

    fn from(_: AllocError) -> Self {
        LogBad::Memory
    }
}

/// Takes the steps of a log, one after the other.
pub trait LogTake {
    /// The steps taken, where the log tells them.
    ghost steps: { Self → Option (List LogStep) };

    /// How often it has failed.
    ghost faults: { Self → ℕ };

    /// It takes nothing more: a call failed.
    ghost broken: { Self → Bool };

    /// The first is the log that the second was, some calls later.
    ghost goes_on_from: { Self → Self → Type 0 };

    /// Takes a step that adds a clause, with the hints that close it.
    fn add(&mut self, id: u64, lits: &[Lit], hints: &[u64]) -> Result<(), LogBad>
        requires unbroken { broken self.old ≡ false }
        requires id { 0 < id }
        requires lits { IsTrue (are_below (2 ^ 30) lits.now) }
        requires hints { IsTrue (are_ids hints.now) }
        ensures steps { Takes (Add id lits.now hints.now) result (steps self.old) (steps self.new) }
        ensures broken { broken self.new ≡ is_fault result }
        ensures cause { HasLogCause (faults self.old) (faults self.new) result }
        ensures goes_on { goes_on_from self.new self.old };

    /// Takes a step that removes clauses. `after` is the last id that was added, or the number of clauses
    /// of the formula where none was; it tells a reader where the step stands, and no more.
    fn remove(&mut self, after: u64, ids: &[u64]) -> Result<(), LogBad>
        requires unbroken { broken self.old ≡ false }
        requires ids { IsTrue (are_ids ids.now) }
        ensures steps { Takes (Remove ids.now) result (steps self.old) (steps self.new) }
        ensures broken { broken self.new ≡ is_fault result }
        ensures cause { HasLogCause (faults self.old) (faults self.new) result }
        ensures goes_on { goes_on_from self.new self.old };

    /// A log goes on from itself.
    ghost goes_on_from_itself: { (log : Self) → goes_on_from log log };

    /// What goes on from a log goes on from all that this log goes on from.
    ghost goes_on_through: { (last mid first : Self) → goes_on_from last mid → goes_on_from mid first → goes_on_from last first };
}
