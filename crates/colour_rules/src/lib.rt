//! The rules of colours, V7 and V8: whether a diagram keeps them for a job, or the first breach. Each rule
//! is a small test of one cell that answers exactly its definition; one scan of the cells finds where it
//! first fails. Nothing takes memory.
#![tactic(auto)]

ghost use Rattle.std.specs.Prelude.{◌≡◌};
ghost use Rattle.las_base.specs.Cells.{IsOnGrid};
ghost use Rattle.grid_box.specs.Breaches.{colour_breach};
ghost use Rattle.grid_box.specs.PipeRules.{colours_match, port_shows_z};
ghost use Rattle.colour_rules.specs.Rules.{keeps};

mod kinds;

use grid_box::{Broken, Diagram, first_breach};
use kinds::{are_of_one_kind, ports_show_z_at};
use las_base::{Axis, Cell};
use las_spec::Job;

/// A rule of colours.
#[derive(Clone, Copy, PartialEq, Eq, Debug)]
enum Rule {
    ColoursMatch,
    PortShowsZ,
}

// The rules by their numbers.
const RULES: [(u8, Rule); 2] = [(7, Rule::ColoursMatch), (8, Rule::PortShowsZ)];

fn colours_match(job: &Job, diagram: &Diagram, cell: Cell) -> bool
    requires { IsOnGrid cell }
    ensures { result ≡ colours_match job.now diagram.now cell }
{
    let legs = diagram.legs(cell);
    are_of_one_kind(&legs, Axis::I)
        && are_of_one_kind(&legs, Axis::J)
        && are_of_one_kind(&legs, Axis::K)
}

fn port_shows_z(job: &Job, diagram: &Diagram, cell: Cell) -> bool
    requires { IsOnGrid cell }
    ensures { result ≡ port_shows_z job.now diagram.now cell }
{
    ports_show_z_at(job.ports(), cell, &diagram.legs(cell))
}

// Whether a rule holds at a cell.
fn keeps(rule: Rule, job: &Job, diagram: &Diagram, cell: Cell) -> bool
    requires { IsOnGrid cell }
    ensures { result ≡ keeps rule job.now diagram.now cell }
{
    match rule {
        Rule::ColoursMatch => colours_match(job, diagram, cell),
        Rule::PortShowsZ => port_shows_z(job, diagram, cell),
    }
}

/// The first breach of the rules of colours: of the least rule, and among these at the least cell.
pub fn first_bad_colour(job: &Job, diagram: &Diagram) -> Option<Broken>
    requires { diagram.now.size ≡ job.now.size }
    ensures { result ≡ colour_breach job.now diagram.now }
{
    first_breach(&RULES, diagram.size(), |rule, cell| {
        keeps(rule, job, diagram, cell)
    })
}

#[cfg(test)]
mod tests;
