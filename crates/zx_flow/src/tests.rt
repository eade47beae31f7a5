// Labels of a comb: those that obey, and four labellings that do not.
ghost use Rattle.std.specs.Prelude.{◌≡◌};

use super::*;
use grid_box::Diagram;
use las_base::{Axis, Cell, Pauli, Port, Size, Way};
use las_spec::make_job;
use std::process::Abort;
use std::test::Fail;
use zx_graph::graph_of;

type Label = (Pauli, Pauli);

const NONE: Label = (Pauli::One, Pauli::One);

const X: Label = (Pauli::X, Pauli::X);

const Z: Label = (Pauli::Z, Pauli::Z);

// Z at the first two of three ports.
const ZZ: [Pauli; 3] = [Pauli::Z, Pauli::Z, Pauli::One];

fn at(i: u32, k: u32) -> Cell
    ensures { (result.i ≡ i) × (result.j ≡ 0) × (result.k ≡ k) }
{
    Cell { i, j: 0, k }
}

// Three ports above a row of cells, and pipes that join them: three Z spiders in a row, with a port at each.
fn comb(rt: &(impl Abort + AllocGlobal)) -> Result<ZxGraph, Fail> {
    let alloc = rt.alloc();
    let size = Size { i: 3, j: 1, k: 1 };
    let mut ports = Vec::new(alloc);
    for i in 0..3 {
        ports.push(Port {
            place: at(i, 1),
            axis: Axis::K,
            way: Way::Minus,
            z_axis: Axis::J,
        })?;
    }
    let mut flows = Vec::new(alloc);
    flows.push(FlowWord::new(ZZ.to_vec(alloc)?))?;
    let job = make_job(alloc, size, &ports, &flows, &[]);
    let job = job.ok().expect(rt, "ports above the row make a job");
    let mut diagram = Diagram::new(alloc, size)?;
    diagram.put_pipe(Axis::K, at(0, 0), Kind::X, Kind::X);
    diagram.put_pipe(Axis::K, at(1, 0), Kind::X, Kind::X);
    diagram.put_pipe(Axis::K, at(2, 0), Kind::X, Kind::X);
    diagram.put_pipe(Axis::I, at(0, 0), Kind::Z, Kind::Z);
    diagram.put_pipe(Axis::I, at(1, 0), Kind::Z, Kind::Z);
    assert!(rt; diagram.size() == job.size());
    Ok(graph_of(alloc, &job, &diagram)?)
}

fn breach_is(
    rt: &(impl Abort + AllocGlobal),
    graph: &ZxGraph,
    labels: &[Label],
    word: &[Pauli],
    want: Option<BadLabel>,
) -> Result<(), Fail> {
    let alloc = rt.alloc();
    let labels = Labels::new(labels.to_vec(alloc)?);
    let word = FlowWord::new(word.to_vec(alloc)?);
    assert!(rt; labels.pairs().len() == graph.edges().len() && word.letters().len() < 9);
    assert_eq!(rt; first_bad_label(graph, &labels, &word), want);
    Ok(())
}

#[test]
fn the_first_bad_label_of_a_comb_is_found(rt: HostRuntime) -> Result<(), Fail> {
    let graph = comb(&rt)?;
    let edge_3 = Some(BadLabel { rule: 1, place: 3 });
    let port_1 = Some(BadLabel { rule: 2, place: 1 });
    let node_0 = Some(BadLabel { rule: 4, place: 0 });
    let half = (Pauli::One, Pauli::Z);
    let x_alone = [Pauli::X, Pauli::One, Pauli::One];
    breach_is(&rt, &graph, &[Z, NONE, Z, Z, NONE], &ZZ, None)?;
    breach_is(&rt, &graph, &[Z, NONE, Z, half, NONE], &ZZ, edge_3)?;
    breach_is(&rt, &graph, &[Z, NONE, Z, NONE, NONE], &ZZ, port_1)?;
    breach_is(&rt, &graph, &[NONE, NONE, Z, Z, NONE], &ZZ, node_0)?;
    breach_is(&rt, &graph, &[NONE, NONE, X, NONE, NONE], &x_alone, node_0)
}
