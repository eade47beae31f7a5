//! Logs as texts: a line for each step. `begin_log` begins the file of a log on a shelf, and `LogWriter` puts
//! the steps that it takes to its end. `find_log` finds a log on a shelf, and `StepReader` gives its steps one after
//! the other, as `Steps`, from pieces of 64 KiB. The definitions in `specs/` say what a line's bytes mean and what
//! a writer puts, and the law here that the one reads what the other puts.
#![tactic(auto)]

mod examples;
mod laws;
mod line_reader;
mod lines;
mod step_reader;
mod steps;
#[cfg(test)]
mod tests;
mod writer;

pub use examples::{
    lines_are_malformed, lines_are_read, malformed_line_behind_the_end, steps_of_lines_fail,
};
pub use laws::logs_are_read_back;
pub use step_reader::{FoundLog, StepReader, find_log};
pub use steps::{Step, StepRefused, Steps};
pub use writer::{LogWriter, begin_log};
