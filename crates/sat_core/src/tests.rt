// Two formulas that are searched, with a log that counts. The program `sat_cases` has the worked formulas, with their logs.
use crate::{Outcome, solve};
use cnf_base::{ClauseTake, Formula, Lit, LogBad, LogTake};
use std::alloc::{AllocError, Global};
use std::test::Fail;

// A log that counts its additions and tells no steps.
#[derive(Drop)]
struct Counted {
    additions: u64,
}

impl LogTake for Counted {
    ghost use Rattle.std.specs.Prelude.{None, false};

    ghost steps = { λ _. None };

    ghost faults = { λ _. 0 };

    ghost broken = { λ _. false };

    ghost goes_on_from = { λ _ _. Unit {0} };

    ghost goes_on_from_itself = { λ _. tt };

    ghost goes_on_through = { λ _ _ _ _ _. tt };

    fn add(&mut self, _id: u64, _lits: &[Lit], _hints: &[u64]) -> Result<(), LogBad> {
        self.additions = self.additions.saturating_add(1);
        Ok(())
    }

    fn remove(&mut self, _after: u64, _ids: &[u64]) -> Result<(), LogBad> {
        Ok(())
    }
}

// The clauses (1 2) and (-1 2).
fn two_clauses(alloc: Global) -> Result<Formula, AllocError> {
    let mut f = Formula::new(alloc, 2);
    f.take(&[Lit(0), Lit(2)])?;
    f.take(&[Lit(1), Lit(2)])?;
    Ok(f)
}

// All four clauses of two variables.
fn four_clauses(alloc: Global) -> Result<Formula, AllocError> {
    let mut f = Formula::new(alloc, 2);
    f.take(&[Lit(0), Lit(2)])?;
    f.take(&[Lit(1), Lit(2)])?;
    f.take(&[Lit(0), Lit(3)])?;
    f.take(&[Lit(1), Lit(3)])?;
    Ok(f)
}

#[test]
fn two_clauses_have_a_model(rt: HostRuntime) -> Result<(), Fail> {
    let f = two_clauses(rt.alloc())?;
    let mut log = Counted { additions: 0 };
    match solve(rt.alloc(), &f, 10, &mut log)? {
        Outcome::Model(values) => assert_eq!(rt; values.values().get(1), Some(&true)),
        Outcome::Refuted(n) => panic!(rt; "refuted {n}"),
        Outcome::Spent(n) => panic!(rt; "spent {n}"),
    }
    Ok(())
}

#[test]
fn four_clauses_are_refuted(rt: HostRuntime) -> Result<(), Fail> {
    let f = four_clauses(rt.alloc())?;
    let mut log = Counted { additions: 0 };
    match solve(rt.alloc(), &f, 10, &mut log)? {
        Outcome::Model(_) => panic!(rt; "a model"),
        Outcome::Refuted(n) => assert!(rt; n >= 1),
        Outcome::Spent(n) => panic!(rt; "spent {n}"),
    }
    assert!(rt; log.additions >= 2);
    Ok(())
}
