//! The document of a diagram, both ways: a job, a diagram for it and the sheets of each flow are written as
//! one JSON object, and read back by exact refusals. What is written determines what is read: text and
//! diagram determine each other.
#![tactic(auto)]

mod bits;
mod build;
mod entries;
pub mod laws;
mod member;
mod read;
mod refusal;
mod sheets;
mod write;

pub use member::Member;
pub use read::{Lasre, read_lasre};
pub use refusal::LasreRefused;
pub use write::lasre_text;

#[cfg(test)]
mod read_tests;
