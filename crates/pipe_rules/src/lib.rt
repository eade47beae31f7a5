//! The rules of pipes, V1 to V6: whether a diagram keeps them for a job, or the first breach. Each rule is
//! a small test of one cell that answers exactly its definition; one scan of the cells finds where it first
//! fails. Nothing takes memory.
#![tactic(auto)]

ghost use Rattle.std.specs.Prelude.{◌≡◌};
ghost use Rattle.las_base.specs.Cells.{IsOnGrid};
ghost use Rattle.grid_box.specs.Breaches.{pipe_breach};
ghost use Rattle.pipe_rules.specs.Rules.{keeps};

mod legs;
mod rules;

use grid_box::{Broken, Diagram, first_breach};
use las_base::Cell;
use las_spec::Job;
use rules::{
    has_no_three_axes, has_port_pipe, is_no_dead_end, leaves_forbidden_empty, stays_in_box,
    y_cube_has_one_k_leg,
};

/// A rule of pipes.
#[derive(Clone, Copy, PartialEq, Eq, Debug)]
enum Rule {
    StaysInBox,
    PortPipe,
    ForbiddenEmpty,
    YCube,
    NoDeadEnd,
    NoThreeAxes,
}

// The rules by their numbers.
const RULES: [(u8, Rule); 6] = [
    (1, Rule::StaysInBox),
    (2, Rule::PortPipe),
    (3, Rule::ForbiddenEmpty),
    (4, Rule::YCube),
    (5, Rule::NoDeadEnd),
    (6, Rule::NoThreeAxes),
];

// Whether a rule holds at a cell.
fn keeps(rule: Rule, job: &Job, diagram: &Diagram, cell: Cell) -> bool
    requires { IsOnGrid cell }
    ensures { result ≡ keeps rule job.now diagram.now cell }
{
    match rule {
        Rule::StaysInBox => stays_in_box(job, diagram, cell),
        Rule::PortPipe => has_port_pipe(job, diagram, cell),
        Rule::ForbiddenEmpty => leaves_forbidden_empty(job, diagram, cell),
        Rule::YCube => y_cube_has_one_k_leg(job, diagram, cell),
        Rule::NoDeadEnd => is_no_dead_end(job, diagram, cell),
        Rule::NoThreeAxes => has_no_three_axes(job, diagram, cell),
    }
}

/// The first breach of the rules of pipes: of the least rule, and among these at the least cell.
pub fn first_broken(job: &Job, diagram: &Diagram) -> Option<Broken>
    requires { diagram.now.size ≡ job.now.size }
    ensures { result ≡ pipe_breach job.now diagram.now }
{
    first_breach(&RULES, diagram.size(), |rule, cell| {
        keeps(rule, job, diagram, cell)
    })
}

#[cfg(test)]
mod tests;
