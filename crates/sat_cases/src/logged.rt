// A search whose log stands on a shelf, and what the checker says of it.
ghost use Rattle.std.specs.Prelude.{◌≡◌, ◌≤◌, IsSome};

use anyhow::{Context, Result, ensure};
use clause_log::{LogWriter, StepReader, begin_log, find_log};
use cnf_base::Formula;
use las_io::{MemShelf, Shelf};
use log_check::{Check, check};
use sat_core::{Outcome, SolveRefused, solve};
use std::alloc::Global;

// Searches, and writes each step to the file that is begun on the shelf.
fn solve_logged(
    alloc: Global,
    f: &Formula,
    budget: u64,
    shelf: &mut MemShelf,
) -> Result<Outcome, SolveRefused>
    requires low { 1 ≤ budget }
    requires high { budget ≤ 10000000 }
    requires begun { IsSome shelf.old.begun }
{
    let mut log = LogWriter::new(alloc, shelf);
    let outcome = solve(alloc, f, budget, &mut log)?;
    match log.finish() {
        Ok(()) => Ok(outcome),
        Err(_) => Err(SolveRefused::LogFault),
    }
}

/// Searches, and writes the log to a file of a shelf on which nothing is begun.
pub(crate) fn search(
    alloc: Global,
    f: &Formula,
    budget: u64,
    shelf: &mut MemShelf,
) -> Result<Result<Outcome, SolveRefused>> {
    let is_lawful = 1 <= budget && budget <= 10_000_000;
    ensure!(is_lawful, "no search has this budget");
    let is_free = !shelf.begun();
    ensure!(is_free, "a file is begun");
    let is_begun = begin_log(shelf, "a.log").is_ok() && shelf.begun();
    ensure!(is_begun, "the log is not begun");
    Ok(solve_logged(alloc, f, budget, shelf))
}

/// What the checker says of the log for the formula.
pub(crate) fn judge(alloc: Global, f: &Formula, shelf: &mut MemShelf) -> Result<Check> {
    let is_free = !shelf.begun();
    ensure!(is_free, "a file is begun");
    let found = find_log(alloc, shelf, "a.log").ok().flatten();
    let log = found.context("the log is gone")?;
    let mut steps = StepReader::new(shelf, log);
    let judged = check(alloc, f, &mut steps).ok();
    judged.context("the log is not read")
}
