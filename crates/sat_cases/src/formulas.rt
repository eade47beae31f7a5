// Formulas made from lines of a script.
ghost use Rattle.std.specs.Prelude.{◌≡◌};
ghost use Rattle.cnf_base.specs.Literals.{are_below};

use anyhow::{Context, Result, ensure};
use cnf_base::{ClauseTake, Formula, Lit, Var};
use std::alloc::Global;

/// A formula over so many variables, without clauses.
pub(crate) fn over(alloc: Global, vars: u32) -> Result<Formula> {
    let is_lawful = vars <= 1_000_000;
    ensure!(is_lawful, "too many variables");
    Ok(Formula::new(alloc, vars))
}

fn are_below(vars: u32, lits: &[Lit]) -> bool
    ensures { result ≡ are_below vars lits.now }
{
    lits.iter().all(|lit| lit.var().0 < vars)
}

// Puts a clause to the end.
fn put(f: &mut Formula, lits: &[Lit]) -> Result<()> {
    let is_lawful = are_below(f.vars(), lits);
    ensure!(is_lawful, "a variable that the formula lacks");
    f.take(lits)?;
    Ok(())
}

// The literal of a number, which is negative where the literal is negated.
fn literal(number: i32) -> Result<Lit> {
    let magnitude = number.unsigned_abs();
    let is_lawful = 1 <= magnitude && magnitude <= 1_000_000;
    ensure!(is_lawful, "no variable has the number {magnitude}");
    let var = Var(magnitude - 1);
    Ok(if number < 0 {
        var.negated()
    } else {
        var.plain()
    })
}

/// Puts the clause of these numbers to the end.
pub(crate) fn put_clause(alloc: Global, f: &mut Formula, numbers: &str) -> Result<()> {
    let mut lits = Vec::new(alloc);
    for word in numbers.split_whitespace() {
        lits.push(literal(word.parse::<i32>().context("a literal")?)?)?;
    }
    put(f, &lits)
}

// This pigeon sits in this hole.
fn sits(holes: u32, pigeon: u32, hole: u32) -> Lit {
    Lit(pigeon.wrapping_mul(holes).wrapping_add(hole) % 1_000_000 * 2)
}

/// So many pigeons sit in so many holes, each in one of them, and no two in one. Variables count first the holes of
/// the first pigeon.
pub(crate) fn pigeons(alloc: Global, pigeons: u32, holes: u32) -> Result<Formula> {
    let mut f = over(alloc, pigeons.saturating_mul(holes))?;
    let mut lits = Vec::new(alloc);
    for pigeon in 0..pigeons {
        lits.clear();
        for hole in 0..holes {
            lits.push(sits(holes, pigeon, hole))?;
        }
        put(&mut f, &lits)?;
    }
    for hole in 0..holes {
        for first in 0..pigeons {
            for second in 0..first {
                let (one, other) = (sits(holes, second, hole), sits(holes, first, hole));
                put(&mut f, &[one.negated(), other.negated()])?;
            }
        }
    }
    Ok(f)
}
