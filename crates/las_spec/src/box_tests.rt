// A specification of its parts, and its boxes.
use super::*;
use las_base::{Axis, Cell, Pauli, Size, Way};
use std::alloc::Global;
use std::process::Abort;
use std::test::Fail;

fn size(i: u32, j: u32, k: u32) -> Size {
    Size { i, j, k }
}

fn cell(i: u32, j: u32, k: u32) -> Cell {
    Cell { i, j, k }
}

fn port(place: Cell, way: Way) -> Port {
    Port {
        place,
        axis: Axis::K,
        way,
        z_axis: Axis::J,
    }
}

// The ports of a CNOT of this height.
fn ports(height: u32) -> [Port; 4] {
    [
        port(cell(1, 0, 0), Way::Plus),
        port(cell(0, 1, 0), Way::Plus),
        port(cell(1, 0, height), Way::Minus),
        port(cell(0, 1, height), Way::Minus),
    ]
}

// Flows of these lengths, of Z alone.
fn words(alloc: Global, lengths: &[usize]) -> Result<Vec<FlowWord>, Fail> {
    let mut words = Vec::new(alloc);
    for length in lengths {
        words.push(FlowWord::new(vec![in alloc; Pauli::Z; *length]?))?;
    }
    Ok(words)
}

fn cnot(alloc: Global) -> Result<Spec, Fail> {
    let flows = words(alloc, &[4, 4])?;
    let forbidden = [cell(1, 1, 2), cell(0, 0, 0), cell(1, 1, 2)];
    let boxes = [size(2, 2, 3), size(2, 2, 1), size(2, 2, 3), size(2, 3, 2)];
    let spec = make_spec(alloc, size(2, 2, 3), &ports(3), &flows, &forbidden, &boxes)?;
    Ok(spec)
}

#[test]
fn boxes_of_a_cnot(rt: HostRuntime) -> Result<(), Fail> {
    let spec = cnot(rt.alloc())?;
    assert_has_boxes(&rt, &spec)?;
    assert_has_a_flat_job(&rt, &spec)
}

// What follows borrows what it looks at: a long function is dear to prove where it owns a specification or a job.
fn assert_has_boxes(rt: &(impl Abort + AllocGlobal), spec: &Spec) -> Result<(), Fail> {
    assert_eq!(rt; spec.box_count(), 3);
    assert_eq!(rt; spec.box_at(2), size(2, 3, 2));
    assert_eq!(rt; spec.forbidden(), [cell(1, 1, 2), cell(0, 0, 0)].as_slice());
    assert_eq!(rt; spec.rules(), Rules::One);
    // Two boxes of one volume stay in their order.
    assert_eq!(rt;
        sweep_order(rt.alloc(), spec)?.as_slice(),
        [1, 0, 2].as_slice()
    );
    Ok(())
}

fn assert_has_a_flat_job(rt: &(impl Abort + AllocGlobal), spec: &Spec) -> Result<(), Fail> {
    assert!(rt; spec.box_count() > 1);
    assert_is_flat(rt, &job(rt.alloc(), spec, 1)?);
    Ok(())
}

fn assert_is_flat(rt: &impl Abort, job: &Job) {
    assert_eq!(rt; job.size(), size(2, 2, 1));
    assert_eq!(rt; job.ports(), ports(1).as_slice());
    assert!(rt; job.has_port_at(cell(1, 0, 0)));
    assert!(rt; !job.has_port_at(cell(9, 0, 0)));
    assert_eq!(rt; job.flows().len(), 2);
    assert_eq!(rt; job.flows()[1].letters(), [Pauli::Z; 4].as_slice());
    assert_eq!(rt; job.forbidden(), [cell(0, 0, 0)].as_slice());
    assert_eq!(rt; job.rules(), Rules::One);
}
