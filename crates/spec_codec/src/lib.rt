//! The document of a specification, both ways: it is read from JSON as a specification or as a job alone,
//! refused by its first refusal, and printed in a normal form. What is printed is read back.
#![tactic(auto)]

mod document;
pub mod laws;
mod letters;
mod read;
mod text;

pub use letters::{axis_text, direction_text};
pub use read::{read_job, read_spec};
pub use text::{options_value, port_values, spec_text, word_values};

#[cfg(test)]
mod read_tests;
