//! The search. Its calls decide, propagate and learn until the formula is satisfied or refuted, or until the
//! budget of lessons is spent, and write each lesson to a log. It is conflict-driven clause learning with two
//! watched literals, first unique implication points, scores that decay, saved phases, restarts by Luby's
//! sequence and reductions of the lessons. One step stands in one file: `intake`, `propagate`, `decide`,
//! `analyse`, `backjump`, `hold`, `reduce` (`worth`), `restart`, `refute`, and `run` takes them in turn.
#![tactic(auto)]

mod analyse;
mod backjump;
mod decide;
mod hold;
mod intake;
mod outcome;
mod propagate;
mod reduce;
mod refute;
mod restart;
mod run;
mod search;
mod solver;
#[cfg(test)]
mod tests;
mod worth;

pub use outcome::{Outcome, SolveRefused};
pub use solver::solve;
