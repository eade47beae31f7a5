//! The table of a job's clauses, and what it says: values of the variables make every clause true exactly
//! where they show a diagram that is valid, with sheets that serve each flow; that law is `table_is_exact`.
//! Callers see the table as a list, and have from here which variable says what and each literal by its meaning.
#![tactic(auto)]

pub mod examples;
pub mod laws;
mod layout;
mod literals;
#[cfg(test)]
mod tests;

pub use layout::{Layout, cnf_vars};
pub use literals::{Position, colour_member, exist_member, low_of};
