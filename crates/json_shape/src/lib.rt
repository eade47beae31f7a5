//! The shapes of JSON values that readers of documents share: a whole number up to a bound, three
//! of them, an array of objects, a grid. Each shape is a definition over the value that
//! `serde_json` read, and a call answers exactly it; what is refused, and why, is the caller's.
#![tactic(auto)]

mod array;
mod document;
pub mod examples;
mod grid;
pub mod laws;
mod number;

pub use array::{array_items, objects};
pub use document::read_json;
pub use grid::{Entry, has_lengths, read_entry, read_grid};
pub use number::{triple, whole_member, whole_u32, whole_up_to};

#[cfg(test)]
mod tests;
