//! The diagram and the sheets that values of a job's variables show. Callers see them as a drawing with its
//! surfaces, valid and serving each flow where the values make every clause of the table true.
#![tactic(auto)]

mod decoding;
#[cfg(test)]
mod tests;

pub use decoding::decode;
