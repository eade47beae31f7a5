// The graph of a comb, with its text.
ghost use Rattle.std.specs.Prelude.{◌≡◌};

use super::*;
use grid_box::Diagram;
use las_base::{Axis, Cell, Kind, Pauli, Port, Size, Way};
use las_spec::{FlowWord, Job, make_job};
use std::process::Abort;
use std::test::Fail;

const ROW: Size = Size { i: 3, j: 1, k: 1 };

fn at(i: u32, k: u32) -> Cell
    ensures { (result.i ≡ i) × (result.j ≡ 0) × (result.k ≡ k) }
{
    Cell { i, j: 0, k }
}

// Three ports above a row of cells, where Z is on J, and one flow.
fn three_ports(rt: &(impl Abort + AllocGlobal)) -> Result<Job, Fail> {
    let alloc = rt.alloc();
    let mut ports = Vec::new(alloc);
    for i in 0..3 {
        ports.push(Port {
            place: at(i, 1),
            axis: Axis::K,
            way: Way::Minus,
            z_axis: Axis::J,
        })?;
    }
    let mut flows = Vec::new(alloc);
    flows.push(FlowWord::new([Pauli::X, Pauli::X, Pauli::X].to_vec(alloc)?))?;
    let job = make_job(alloc, ROW, &ports, &flows, &[]);
    Ok(job.ok().expect(rt, "ports above the row make a job"))
}

#[test]
fn a_comb_is_a_row_of_spiders_with_a_port_at_each(rt: HostRuntime) -> Result<(), Fail> {
    let alloc = rt.alloc();
    let job = three_ports(&rt)?;
    let mut diagram = Diagram::new(alloc, ROW)?;
    diagram.put_pipe(Axis::K, at(0, 0), Kind::X, Kind::X);
    diagram.put_pipe(Axis::K, at(1, 0), Kind::X, Kind::X);
    diagram.put_pipe(Axis::K, at(2, 0), Kind::X, Kind::X);
    diagram.put_pipe(Axis::I, at(0, 0), Kind::Z, Kind::Z);
    diagram.put_pipe(Axis::I, at(1, 0), Kind::Z, Kind::Z);
    assert!(rt; diagram.size() == job.size());
    let graph = graph_of(alloc, &job, &diagram)?;
    assert_eq!(rt;
        graph_text(alloc, &graph)?.as_slice(),
        "zx 6 5\nnode 0 Z at 0 0 0\nnode 1 port 0 at 0 0 1\nnode 2 Z at 1 0 0\nnode 3 port 1 at 1 0 1\nnode 4 Z at 2 0 0\nnode 5 port 2 at 2 0 1\nedge 0 0 2 plain\nedge 1 2 4 plain\nedge 2 0 1 plain\nedge 3 2 3 plain\nedge 4 4 5 plain\n".as_bytes()
    );
    Ok(())
}
