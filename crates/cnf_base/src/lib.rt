//! Clauses. A literal is a number, a formula a number of variables with a list of clauses, and a log a list
//! of steps that add clauses and remove them. What encoders, searches and checkers share stands here in
//! `specs/`: when values satisfy a formula, what unit steps reach, when a step passes, when a log refutes,
//! and what a lesson is. Two traits name those who take: `ClauseTake` takes clauses, `LogTake` takes steps.
#![tactic(auto)]

mod examples;
mod formula;
mod laws;
mod lists;
mod literal;
#[cfg(test)]
mod tests;
mod traits;

pub use examples::{
    each_fault_has_its_reason, empty_clause_is_missing_at_line_2, hint_is_loose_at_line_1,
    hint_is_removed_at_line_3, hint_may_repeat, log_is_accepted,
};
pub use formula::{Formula, satisfies};
pub use laws::{
    accepted_is_exact, chains_grow, closed_hides_nothing, codes_are_few, codes_tell, lessons_join,
    logs_refute, twin_is_absorbed,
};
pub use lists::{IdList, LitList, ValueList};
pub use literal::{Lit, Var};
pub use traits::{ClauseTake, LogBad, LogTake};
