//! The commands. Callers see one call, `run_las`: it reads the words and the source, asks a shelf of files, writes
//! to two sinks, and answers a status. Its contract says what each answer means, over any of these. The worked
//! cases try it.
#![tactic(auto)]

mod audit;
mod check;
mod finding;
mod run;
mod spec;
mod sweep;
mod verify;
mod zx;

pub use run::{Status, run_las};
