// The lines of a script, and what each does.
use crate::formulas::{over, pigeons, put_clause};
use crate::logged::{judge, search};
use anyhow::{Context, Result, bail};
use cnf_base::Formula;
use las_io::{MemShelf, NamedFile};
use log_check::Check;
use sat_core::{Outcome, SolveRefused};
use std::alloc::Global;
use std::fmt::Write;

/// A script, as far as it has been read.
#[derive(Drop)]
pub(crate) struct Script {
    alloc: Global,
    formula: Formula,
    /// The additions to the log that fail in the next search, by their numbers from 1.
    fails: Vec<u64>,
}

impl Script {
    pub(crate) fn new(alloc: Global) -> Script {
        Script {
            alloc,
            formula: Formula::new(alloc, 0),
            fails: Vec::new(alloc),
        }
    }

    /// Does what the next line says, and puts what is to be printed to the end of `said`.
    pub(crate) fn read_line(&mut self, line: &str, said: &mut String) -> Result<()> {
        let (word, rest) = line.split_once(' ').unwrap_or((line, ""));
        match word {
            "" | "#" => {}
            "case" => writeln!(said, "\n{line}")?,
            "vars" => self.formula = over(self.alloc, number(rest)?)?,
            "clause" => put_clause(self.alloc, &mut self.formula, rest)?,
            "pigeons" => {
                let (count, holes) = rest.split_once(' ').context("two numbers")?;
                self.formula = pigeons(self.alloc, number(count)?, number(holes)?)?;
            }
            "fails" => self.fails.push(rest.parse::<u64>().context("a number")?)?,
            "solve" => self.solve(rest, said)?,
            _ => bail!("not understood: {line}"),
        }
        Ok(())
    }

    // One search with this budget, and the checker over its log.
    fn solve(&mut self, budget: &str, said: &mut String) -> Result<()> {
        let fails = std::mem::replace(&mut self.fails, Vec::new(self.alloc));
        let files: Vec<NamedFile> = Vec::new(self.alloc);
        let mut shelf = MemShelf::new(self.alloc, files, fails);
        let lessons = budget.parse::<u64>().context("a number")?;
        write!(said, "{} clauses, budget {budget}: ", self.formula.len())?;
        match search(self.alloc, &self.formula, lessons, &mut shelf)? {
            Ok(outcome) => {
                tell_outcome(said, &outcome)?;
                tell_check(said, judge(self.alloc, &self.formula, &mut shelf)?)?;
            }
            Err(SolveRefused::LogFault) => write!(said, "its log failed")?,
            Err(_) => bail!("the search was refused"),
        }
        let log = shelf.file("a.log").context("the log is gone")?;
        tell_steps(said, str::from_utf8(log)?)
    }
}

fn number(word: &str) -> Result<u32> {
    word.parse::<u32>().context("a number")
}

fn tell_outcome(said: &mut String, outcome: &Outcome) -> Result<()> {
    match outcome {
        Outcome::Model(_) => write!(said, "model")?,
        Outcome::Refuted(0) => write!(said, "refuted without a lesson")?,
        Outcome::Refuted(_) => write!(said, "refuted by lessons")?,
        Outcome::Spent(n) => write!(said, "spent {n}")?,
    }
    Ok(())
}

fn tell_check(said: &mut String, check: Check) -> Result<()> {
    match check {
        Check::Accepted => write!(said, ", its log is accepted")?,
        Check::Rejected { why: 9, .. } => write!(said, ", each step of its log passes")?,
        Check::Rejected { line, why } => {
            write!(said, ", line {line} of its log fails by reason {why}")?;
        }
    }
    Ok(())
}

// Behind which addition each removal stands, and for a log that failed how many additions stand there.
fn tell_steps(said: &mut String, log: &str) -> Result<()> {
    let mut additions = 0u64;
    for line in log.lines() {
        if line.split(' ').nth(1) == Some("d") {
            write!(said, ", a removal behind addition {additions}")?;
        } else {
            additions = additions.saturating_add(1);
        }
    }
    if said.ends_with("failed") {
        write!(said, " behind addition {additions}")?;
    }
    writeln!(said)?;
    Ok(())
}
