// The whole table of clauses, given to a taker one by one.
ghost use Rattle.std.specs.Prelude.{◌≡◌, ◌≤◌, ◌<◌, ◌++◌, length, OnErr, OnOk, IfOk};
ghost use Rattle.std.specs.List.{enumerate_from, flat_map};
ghost use Rattle.las_base.specs.Jobs.{IsTask};
ghost use Rattle.cnf_table.specs.Clauses.{clause_table, diagram_clauses, flow_clauses};
ghost use Rattle.cnf_encode.specs.Emits.{Emits, TookFirstPart};
ghost use Rattle.cnf_table.specs.Layouts.{plan_of, plan_vars};
ghost use Rattle.cnf_table.specs.Variables.{var_count};

use crate::inner::{InnerGroup, put_inner};
use crate::pipes::{PipeGroup, put_pipes};
use crate::ports::{each_forbidden, each_letter, each_port, each_port_colour};
use cnf_base::ClauseTake;
use cnf_table::Layout;
use las_base::Pauli;
use las_spec::Job;
use std::alloc::AllocError;

// The clauses of the diagram.
fn put_diagram<C: ClauseTake>(to: &mut C, job: &Job, layout: &Layout) -> Result<(), AllocError>
    requires room { plan_vars layout.now ≤ C.var_count to.old }
    requires plan { layout.now ≡ plan_of job.now }
    requires task { IsTask job.now }
    ensures { Emits C.var_count C.taken to.old to.new result (diagram_clauses job.now) }
{
    put_pipes(to, job, layout, PipeGroup::Leaving)?;
    each_port(to, layout, job.ports())?;
    each_forbidden(to, layout, job.forbidden())?;
    put_inner(to, job, layout, InnerGroup::YCubes)?;
    put_inner(to, job, layout, InnerGroup::DeadEnds)?;
    put_inner(to, job, layout, InnerGroup::ThreeAxes)?;
    put_inner(to, job, layout, InnerGroup::Colours)?;
    each_port_colour(to, layout, job.ports())?;
    put_pipes(to, job, layout, PipeGroup::AbsentColours)
}

// The clauses of a flow.
fn put_flow<C: ClauseTake>(
    to: &mut C,
    job: &Job,
    layout: &Layout,
    flow: usize,
    word: &[Pauli],
) -> Result<(), AllocError>
    requires room { plan_vars layout.now ≤ C.var_count to.old }
    requires plan { layout.now ≡ plan_of job.now }
    requires task { IsTask job.now }
    requires flow { flow < layout.now.flow_count }
    requires word { length word.now ≡ length job.now.ports }
    ensures { Emits C.var_count C.taken to.old to.new result (flow_clauses job.now (flow, word.now)) }
{
    put_pipes(to, job, layout, PipeGroup::AbsentSheets(flow))?;
    each_letter(to, layout, flow, job.ports(), word)?;
    put_inner(to, job, layout, InnerGroup::YSheets(flow))?;
    put_inner(to, job, layout, InnerGroup::Joints(flow))
}

// The clauses of each flow.
fn put_flows<C: ClauseTake>(to: &mut C, job: &Job, layout: &Layout) -> Result<(), AllocError>
    requires room { plan_vars layout.now ≤ C.var_count to.old }
    requires plan { layout.now ≡ plan_of job.now }
    requires task { IsTask job.now }
    ensures { Emits C.var_count C.taken to.old to.new result (flat_map (flow_clauses job.now) (enumerate_from 0 job.now.flows)) }
{
    for (flow, word) in job.flows().iter().enumerate() {
        put_flow(to, job, layout, flow, word.letters())?;
    }
    Ok(())
}

// All clauses.
fn put_table<C: ClauseTake>(to: &mut C, job: &Job, layout: &Layout) -> Result<(), AllocError>
    requires room { plan_vars layout.now ≤ C.var_count to.old }
    requires plan { layout.now ≡ plan_of job.now }
    requires task { IsTask job.now }
    ensures { Emits C.var_count C.taken to.old to.new result (clause_table job.now).clauses }
{
    put_diagram(to, job, layout)?;
    put_flows(to, job, layout)
}

/// Gives the taker the clauses of a job, in the order of the table, and answers which variable says what. Where memory is refused, a first part of them was taken.
pub fn encode<C: ClauseTake>(job: &Job, to: &mut C) -> Result<Layout, AllocError>
    requires { var_count job.now ≤ C.var_count to.old }
    ensures vars { C.var_count to.new ≡ C.var_count to.old }
    ensures took { OnOk result (C.taken to.new ≡ C.taken to.old ++ (clause_table job.now).clauses) }
    ensures layout { IfOk result (λ l. l ≡ plan_of job.now) }
    ensures begun { OnErr result (TookFirstPart (C.taken to.old) (C.taken to.new) (clause_table job.now).clauses) }
{
    let layout = Layout::of(job);
    put_table(to, job, &layout)?;
    Ok(layout)
}
