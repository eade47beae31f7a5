// The rules, each as a test of the cell that it names.
ghost use Rattle.std.specs.Prelude.{◌≡◌};
ghost use Rattle.las_base.specs.Cells.{IsOnGrid};
ghost use Rattle.las_base.specs.Jobs.{is_forbidden};
ghost use Rattle.grid_box.specs.PipeRules.{stays_along, stays_in_box, has_port_pipe, leaves_forbidden_empty, y_cube_has_one_k_leg, is_no_dead_end, has_no_three_axes};

use crate::legs::{is_k_leg_alone, is_port_leg_alone};
use grid_box::{Diagram, has_leg_along};
use las_base::{Axis, Cell, Way};
use las_spec::Job;

fn is_forbidden(job: &Job, cell: Cell) -> bool
    ensures { result ≡ is_forbidden job.now cell }
{
    job.forbidden().iter().any(|other| cell == *other)
}

// Whether the high cell of the pipe along an axis, if there is one, is in the box or is a port's place.
fn stays_along(job: &Job, diagram: &Diagram, axis: Axis, cell: Cell) -> bool
    requires { IsOnGrid cell }
    ensures { result ≡ stays_along job.now diagram.now axis cell }
{
    match (diagram.pipe(axis, cell), cell.step(axis, Way::Plus)) {
        (Some(_), Some(high)) => job.size().holds(high) || job.has_port_at(high),
        _ => true,
    }
}

#[tactic(auto, using(grid_box::proofs::StayLemmas::stays_by_axes))]
pub(crate) fn stays_in_box(job: &Job, diagram: &Diagram, cell: Cell) -> bool
    requires { IsOnGrid cell }
    ensures { result ≡ stays_in_box job.now diagram.now cell }
{
    stays_along(job, diagram, Axis::I, cell)
        && stays_along(job, diagram, Axis::J, cell)
        && stays_along(job, diagram, Axis::K, cell)
}

pub(crate) fn has_port_pipe(job: &Job, diagram: &Diagram, cell: Cell) -> bool
    requires { IsOnGrid cell }
    ensures { result ≡ has_port_pipe job.now diagram.now cell }
{
    for port in job.ports() {
        if port.place == cell
            && !(is_port_leg_alone(*port, &diagram.legs(cell)) && !diagram.is_y(cell))
        {
            return false;
        }
    }
    true
}

pub(crate) fn leaves_forbidden_empty(job: &Job, diagram: &Diagram, cell: Cell) -> bool
    requires { IsOnGrid cell }
    ensures { result ≡ leaves_forbidden_empty job.now diagram.now cell }
{
    !is_forbidden(job, cell) || (diagram.legs(cell).is_empty() && !diagram.is_y(cell))
}

pub(crate) fn y_cube_has_one_k_leg(job: &Job, diagram: &Diagram, cell: Cell) -> bool
    requires { IsOnGrid cell }
    ensures { result ≡ y_cube_has_one_k_leg job.now diagram.now cell }
{
    !diagram.is_y(cell) || is_k_leg_alone(&diagram.legs(cell))
}

pub(crate) fn is_no_dead_end(job: &Job, diagram: &Diagram, cell: Cell) -> bool
    requires { IsOnGrid cell }
    ensures { result ≡ is_no_dead_end job.now diagram.now cell }
{
    diagram.legs(cell).len() != 1 || diagram.is_y(cell) || job.has_port_at(cell)
}

pub(crate) fn has_no_three_axes(job: &Job, diagram: &Diagram, cell: Cell) -> bool
    requires { IsOnGrid cell }
    ensures { result ≡ has_no_three_axes job.now diagram.now cell }
{
    let legs = diagram.legs(cell);
    !(has_leg_along(&legs, Axis::I)
        && has_leg_along(&legs, Axis::J)
        && has_leg_along(&legs, Axis::K))
}
