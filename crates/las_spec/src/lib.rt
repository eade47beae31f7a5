//! Specifications: a job (a size, ports, flows, forbidden cells) with the boxes in which it is asked. What is
//! written is refused by the first refusal of one ordered table, or gives a specification, which is cut to the
//! job of a box. Callers see a `Spec` as a record of plain lists, a `Job` likewise.
#![tactic(auto)]

mod boxes;
mod draft;
mod flow_word;
mod judge;
pub mod laws;
mod make;
mod refusal;
mod sameness;
mod spec;

pub use boxes::{job, sweep_order};
pub use draft::{Draft, WrittenPort};
pub use flow_word::FlowWord;
pub use las_base::Port;
pub use make::{job_from, make_job, make_spec, spec_from};
pub use refusal::{Field, SpecRefused, refusal_text};
pub use sameness::same_job;
pub use spec::{Job, Rules, Spec};

#[cfg(test)]
mod box_tests;
