// Pipes at the origin of a box of two cells each way.
use super::*;
use las_base::{Axis, Kind, Pauli, Port, Size, Way};
use las_spec::{FlowWord, make_job};
use std::alloc::Global;
use std::process::Abort;
use std::test::Fail;

const ORIGIN: Cell = Cell { i: 0, j: 0, k: 0 };

const ABOVE: Cell = Cell { i: 0, j: 0, k: 1 };

const FAR: Cell = Cell { i: 1, j: 1, k: 1 };

const SIZE: Size = Size { i: 2, j: 2, k: 2 };

fn port(place: Cell, axis: Axis, z_axis: Axis) -> Port {
    Port {
        place,
        axis,
        way: Way::Plus,
        z_axis,
    }
}

fn job_with(rt: &(impl Abort + AllocGlobal), port: Port) -> Result<Job, Fail> {
    let alloc = rt.alloc();
    let mut flows = Vec::new(alloc);
    flows.push(FlowWord::new(vec![in alloc; Pauli::X; 1]?))?;
    let job = make_job(alloc, SIZE, &[port], &flows, &[]);
    Ok(job.ok().expect(rt, "one port in the box makes a job"))
}

fn breach(rt: &impl Abort, job: &Job, diagram: &Diagram) -> Option<Broken> {
    assert_eq!(rt; job.size(), diagram.size());
    first_bad_colour(job, diagram)
}

#[test]
fn a_port_shows_z_on_its_z_axis(rt: HostRuntime) -> Result<(), Fail> {
    for (axis, z_axis, kind) in [
        (Axis::I, Axis::J, Kind::Z),
        (Axis::I, Axis::K, Kind::X),
        (Axis::J, Axis::K, Kind::Z),
        (Axis::J, Axis::I, Kind::X),
        (Axis::K, Axis::I, Kind::Z),
        (Axis::K, Axis::J, Kind::X),
    ] {
        let job = job_with(&rt, port(ORIGIN, axis, z_axis))?;
        let mut diagram = Diagram::new(rt.alloc(), SIZE)?;
        assert_eq!(rt; breach(&rt, &job, &diagram), None);
        diagram.put_pipe(axis, ORIGIN, kind, kind);
        assert_eq!(rt; breach(&rt, &job, &diagram), None);
        diagram.put_pipe(axis, ORIGIN, kind.other(), kind.other());
        let broken = Broken {
            rule: 8,
            cell: ORIGIN,
        };
        assert_eq!(rt; breach(&rt, &job, &diagram), Some(broken));
    }
    Ok(())
}

#[test]
fn legs_of_a_turn_match_on_the_third_axis(rt: HostRuntime) -> Result<(), Fail> {
    let job = job_with(&rt, port(FAR, Axis::K, Axis::I))?;
    for axis in [Axis::I, Axis::J, Axis::K] {
        for (kind, other, match_there) in [
            (Kind::X, Kind::X, false),
            (Kind::X, Kind::Z, true),
            (Kind::Z, Kind::X, true),
            (Kind::Z, Kind::Z, false),
        ] {
            let mut diagram = Diagram::new(rt.alloc(), SIZE)?;
            diagram.put_pipe(axis, ORIGIN, kind, kind);
            diagram.put_pipe(axis.next(), ORIGIN, other, other);
            let broken = Broken {
                rule: 7,
                cell: ORIGIN,
            };
            let want = if match_there { None } else { Some(broken) };
            assert_eq!(rt; breach(&rt, &job, &diagram), want);
        }
    }
    Ok(())
}

#[test]
fn the_lesser_rule_comes_first_at_a_later_cell(rt: HostRuntime) -> Result<(), Fail> {
    let job = job_with(&rt, port(ORIGIN, Axis::K, Axis::J))?;
    let mut diagram = Diagram::new(rt.alloc(), SIZE)?;
    diagram.put_pipe(Axis::K, ORIGIN, Kind::Z, Kind::X);
    diagram.put_pipe(Axis::K, ABOVE, Kind::Z, Kind::Z);
    let seventh = Broken {
        rule: 7,
        cell: ABOVE,
    };
    assert_eq!(rt; breach(&rt, &job, &diagram), Some(seventh));
    diagram.put_pipe(Axis::K, ABOVE, Kind::X, Kind::Z);
    let eighth = Broken {
        rule: 8,
        cell: ORIGIN,
    };
    assert_eq!(rt; breach(&rt, &job, &diagram), Some(eighth));
    Ok(())
}
