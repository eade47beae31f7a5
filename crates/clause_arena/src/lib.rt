//! Clauses. Callers see an arena as the list of its live clauses, the newest first (`clauses_in`): each has a
//! place, an id, its literals, and two links to other clauses, which whoever threads clauses into lists may
//! set. Literals are lent without a copy, to read and to write. A retired clause is no longer seen, and what it
//! takes up stays until the arena is packed.
#![tactic(auto)]

mod arena;
mod laws;
mod moves;
#[cfg(test)]
mod tests;

pub use arena::Arena;
pub use laws::lits_changed;
pub use moves::Moves;

/// A clause of an arena, by its place there.
#[derive(Clone, Copy, PartialEq, Eq, Debug)]
pub struct ClauseRef(pub u64);
