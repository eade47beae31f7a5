// Known jobs, and how many clauses are given.
use crate::encode;
use cnf_base::Formula;
use cnf_table::cnf_vars;
use las_base::{Axis, Cell, Pauli, Port, Size, Way};
use las_spec::{FlowWord, make_job};
use std::alloc::{AllocError, Global};
use std::test::Fail;

const ORIGIN: Cell = Cell { i: 0, j: 0, k: 0 };

const ABOVE: Cell = Cell { i: 0, j: 0, k: 1 };

const LOWER: Port = Port {
    place: ORIGIN,
    axis: Axis::K,
    way: Way::Plus,
    z_axis: Axis::J,
};

const UPPER: Port = Port {
    place: ABOVE,
    axis: Axis::K,
    way: Way::Minus,
    z_axis: Axis::J,
};

const ONE: Size = Size { i: 1, j: 1, k: 1 };

#[test]
fn wire_has_33_clauses(rt: HostRuntime) -> Result<(), Fail> {
    let xx = FlowWord::new(vec![in rt.alloc(); Pauli::X, Pauli::X]?);
    let zz = FlowWord::new(vec![in rt.alloc(); Pauli::Z, Pauli::Z]?);
    let job = make_job(rt.alloc(), ONE, &[LOWER, UPPER], &[xx, zz], &[])?;
    assert_eq!(rt; cnf_vars(&job), 20);
    let mut formula = Formula::new(rt.alloc(), 20);
    let layout = encode(&job, &mut formula)?;
    assert_eq!(rt; formula.len(), 33);
    assert_eq!(rt; layout.vars(), 20);
    Ok(())
}

#[test]
fn y_port_has_43_clauses(rt: HostRuntime) -> Result<(), Fail> {
    let y = FlowWord::new(vec![in rt.alloc(); Pauli::Y]?);
    let job = make_job(rt.alloc(), ONE, &[UPPER], &[y], &[])?;
    let mut formula = Formula::new(rt.alloc(), cnf_vars(&job));
    let _ = encode(&job, &mut formula)?;
    assert_eq!(rt; formula.len(), 43);
    Ok(())
}
// A port on the far K face of a box of 8 x 8 x 8 cells, by its number.
fn port(number: u32) -> Port {
    Port {
        place: Cell {
            i: number / 8,
            j: number % 8,
            k: 8,
        },
        axis: Axis::K,
        way: Way::Minus,
        z_axis: Axis::J,
    }
}

fn ports(alloc: Global) -> Result<Vec<Port>, AllocError> {
    let mut ports = Vec::new(alloc);
    for number in 0..32 {
        ports.push(port(number))?;
    }
    Ok(ports)
}

fn flows(alloc: Global) -> Result<Vec<FlowWord>, AllocError> {
    let mut flows = Vec::new(alloc);
    for _ in 0..32 {
        flows.push(FlowWord::new(vec![in alloc; Pauli::Y; 32]?))?;
    }
    Ok(flows)
}

// The most ports and flows in a box of the most cells. The nine groups of diagrams have 24,895 clauses there, and the
// four of surfaces 32,032 for each flow.
#[test]
fn greatest_job_has_1049919_clauses(rt: HostRuntime) -> Result<(), Fail> {
    let (ports, flows) = (ports(rt.alloc())?, flows(rt.alloc())?);
    let job = make_job(rt.alloc(), Size { i: 8, j: 8, k: 8 }, &ports, &flows, &[])?;
    assert_eq!(rt; cnf_vars(&job), 102_400);
    let mut formula = Formula::new(rt.alloc(), cnf_vars(&job));
    let _ = encode(&job, &mut formula)?;
    println!(rt; "{} clauses", formula.len())?;
    assert_eq!(rt; formula.len(), 24_895 + 32 * 32_032);
    Ok(())
}
