//! The clauses of a job: they are true exactly where a diagram is valid with sheets that serve.
ghost use Rattle.std.specs.Prelude.{◌≡◌, ◌<◌, ◌^◌, IfOk};
ghost use Rattle.las_base.specs.Jobs.{IsTask};
ghost use Rattle.cnf_table.specs.Clauses.{clause_table};
ghost use Rattle.cnf_table.specs.Layouts.{plan_of};
ghost use Rattle.cnf_table.specs.Variables.{var_count};

use cnf_base::Formula;
use cnf_encode::encode;
use cnf_table::{Layout, cnf_vars};
use las_spec::Job;
use std::alloc::{AllocError, Global};

// How many variables the clauses of a job are over: few enough for a formula.
fn vars_of(job: &Job) -> u32
    ensures count { result ≡ var_count job.now }
    ensures few { result < 2 ^ 30 }
    ensures lawful { IsTask job.now }
{
    let _ = job.size();
    cnf_vars(job)
}

/// The clauses of a job, and which variable says what.
#[tactic(auto, unfolding(cnf_table::specs::Clauses::clause_table))]
pub fn clauses_of(alloc: Global, job: &Job) -> Result<(Formula, Layout), AllocError>
    ensures formula { IfOk result (λ made. made.0 ≡ clause_table job.now) }
    ensures layout { IfOk result (λ made. made.1 ≡ plan_of job.now) }
{
    let mut formula = Formula::new(alloc, vars_of(job));
    let layout = encode(job, &mut formula)?;
    Ok((formula, layout))
}
