// The numbers of a wire's variables: eight for its one cell, and six for each flow.
ghost use Rattle.std.specs.Prelude.{◌≡◌, IfOk};
ghost use Rattle.las_base.specs.declared.Axis.TheVariants.{J};
ghost use Rattle.grid_box.specs.Examples.{wire};

use crate::{Layout, cnf_vars, colour_member, exist_member, low_of};
use cnf_base::Var;
use grid_box::sheet_number;
use las_base::{Axis, Cell, Pauli, Port, Size, Way};
use las_spec::{FlowWord, Job, make_job};
use std::alloc::Global;
use std::test::Fail;

const ORIGIN: Cell = Cell { i: 0, j: 0, k: 0 };

const ABOVE: Cell = Cell { i: 0, j: 0, k: 1 };

const LOWER: Port = Port {
    place: ORIGIN,
    axis: Axis::K,
    way: Way::Plus,
    z_axis: Axis::J,
};

const UPPER: Port = Port {
    place: ABOVE,
    axis: Axis::K,
    way: Way::Minus,
    z_axis: Axis::J,
};

const ONE: Size = Size { i: 1, j: 1, k: 1 };

// A wire with the flows XX and ZZ.
fn wire(alloc: Global) -> Result<Job, Fail>
    ensures { IfOk result (λ j. j ≡ wire J J) }
{
    let xx = FlowWord::new(vec![in alloc; Pauli::X, Pauli::X]?);
    let zz = FlowWord::new(vec![in alloc; Pauli::Z, Pauli::Z]?);
    let job = make_job(alloc, ONE, &[LOWER, UPPER], &[xx, zz], &[])?;
    Ok(job)
}

#[test]
fn wire_has_20_variables(rt: HostRuntime) -> Result<(), Fail> {
    let job = wire(rt.alloc())?;
    let layout = Layout::of(&job);
    assert_eq!(rt; cnf_vars(&job), 20);
    assert_eq!(rt; layout.vars(), 20);
    assert_eq!(rt; layout.size(), ONE);
    let pipe = layout.diagram_var(exist_member(Axis::K), ORIGIN);
    assert_eq!(rt; pipe, Var(3));
    let colour = layout.diagram_var(colour_member((Axis::K, Way::Minus)), ORIGIN);
    assert_eq!(rt; colour, Var(7));
    let sheet = layout.sheet_var(1, sheet_number(Axis::K, Axis::J), ORIGIN);
    assert_eq!(rt; sheet, Var(19));
    Ok(())
}

#[test]
fn upper_port_has_its_literals(rt: HostRuntime) -> Result<(), Fail> {
    let job = wire(rt.alloc())?;
    let layout = Layout::of(&job);
    let down = (Axis::K, Way::Minus);
    assert_eq!(rt; low_of(ABOVE, down), ORIGIN);
    assert_eq!(rt; layout.y_literal(ORIGIN, false), Var(0).negated());
    assert_eq!(rt; layout.pipe_literal(ABOVE, down, true), Var(3).plain());
    assert_eq!(rt; layout.colour_literal(ORIGIN, down, true), Var(7).plain());
    let shows_z = layout.kind_literal(ABOVE, down, Axis::J, true);
    assert_eq!(rt; shows_z, Var(7).negated());
    let spans_i = layout.sheet_literal(0, ABOVE, down, Axis::I, true);
    assert_eq!(rt; spans_i, Var(12).plain());
    Ok(())
}
