// The values of a wire, decoded.
ghost use Rattle.std.specs.Prelude.{◌≡◌, IfOk};
ghost use Rattle.las_base.specs.declared.Axis.TheVariants.{J};
ghost use Rattle.grid_box.specs.Examples.{wire};

use crate::decode;
use cnf_table::Layout;
use cnf_table::examples::{wire_satisfies, wire_values_are_3_12_and_19};
use las_base::{Axis, Cell, Kind, Pauli, Port, Size, Way};
use las_spec::{FlowWord, Job, make_job};
use std::alloc::Global;
use std::test::Fail;

const ORIGIN: Cell = Cell { i: 0, j: 0, k: 0 };

const LOWER: Port = Port {
    place: ORIGIN,
    axis: Axis::K,
    way: Way::Plus,
    z_axis: Axis::J,
};

const UPPER: Port = Port {
    place: Cell { i: 0, j: 0, k: 1 },
    axis: Axis::K,
    way: Way::Minus,
    z_axis: Axis::J,
};

const ONE: Size = Size { i: 1, j: 1, k: 1 };

// A wire with the flows XX and ZZ.
fn wire(alloc: Global) -> Result<Job, Fail>
    ensures { IfOk result (λ j. j ≡ wire J J) }
{
    let xx = FlowWord::new(vec![in alloc; Pauli::X, Pauli::X]?);
    let zz = FlowWord::new(vec![in alloc; Pauli::Z, Pauli::Z]?);
    let job = make_job(alloc, ONE, &[LOWER, UPPER], &[xx, zz], &[])?;
    Ok(job)
}

// The values of a wire: of its variables the numbers 3, 12 and 19 alone are true.
const VALUES: [bool; 20] = [
    false, false, false, true, false, false, false, false, false, false, false, false, true, false,
    false, false, false, false, false, true,
];

#[test]
fn wire_is_decoded(rt: HostRuntime) -> Result<(), Fail> {
    let job = wire(rt.alloc())?;
    let layout = Layout::of(&job);
    wire_satisfies();
    wire_values_are_3_12_and_19();
    let (diagram, sheets) = decode(rt.alloc(), &job, &layout, &VALUES)?;
    assert_eq!(rt; diagram.pipe(Axis::K, ORIGIN), Some((Kind::X, Kind::X)));
    assert!(rt;
        sheets.has(0, Axis::K, ORIGIN, Axis::I) && !sheets.has(0, Axis::K, ORIGIN, Axis::J)
    );
    assert!(rt; sheets.has(1, Axis::K, ORIGIN, Axis::J));
    Ok(())
}
