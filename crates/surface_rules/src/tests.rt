// Sheets in a wire, and where three pipes meet.
use super::*;
use grid_box::Sheets;
use las_base::{Axis, Kind, Pauli, Port, Size, Way};
use las_spec::{FlowWord, make_job};
use std::alloc::Global;
use std::process::Abort;
use std::test::Fail;

const ORIGIN: Cell = Cell { i: 0, j: 0, k: 0 };

const ABOVE: Cell = Cell { i: 0, j: 0, k: 1 };

// Where three pipes meet, and the ends of two of them.
const MIDDLE: Cell = Cell { i: 1, j: 0, k: 0 };

const MIDDLE_ABOVE: Cell = Cell { i: 1, j: 0, k: 1 };

const BEYOND: Cell = Cell { i: 2, j: 0, k: 0 };

const SIZE: Size = Size { i: 2, j: 1, k: 1 };

// A port whose Z axis is J.
fn port(place: Cell, axis: Axis, way: Way) -> Port {
    Port {
        place,
        axis,
        way,
        z_axis: Axis::J,
    }
}

fn job_with(
    rt: &(impl Abort + AllocGlobal),
    ports: &[Port],
    words: &[&[Pauli]],
) -> Result<Job, Fail> {
    let alloc = rt.alloc();
    let mut flows = Vec::new(alloc);
    for word in words {
        flows.push(FlowWord::new(word.to_vec(alloc)?))?;
    }
    let job = make_job(alloc, SIZE, ports, &flows, &[]);
    Ok(job.ok().expect(rt, "ports in the box make a job"))
}

// Puts the sheets of a pipe that spell a letter where Z is on J.
fn put_letter(
    rt: &impl Abort,
    sheets: &mut Sheets,
    flow: usize,
    axis: Axis,
    cell: Cell,
    letter: Pauli,
) {
    let other = if axis == Axis::K { Axis::I } else { Axis::K };
    for (span, part) in [(Axis::J, Pauli::Z), (other, Pauli::X)] {
        assert!(rt; flow < sheets.flow_count() && sheets.size().holds(cell) && span != axis);
        sheets.put(flow, axis, cell, span, letter == part || letter == Pauli::Y);
    }
}

fn answer(
    rt: &impl Abort,
    job: &Job,
    diagram: &Diagram,
    sheets: &Sheets,
    flow: usize,
) -> Option<Broken> {
    assert!(rt; diagram.size() == job.size() && flow < job.flows().len());
    first_bad_sheet(job, diagram, sheets, flow)
}

#[test]
fn the_sheets_of_a_wire_spell_the_letters_of_its_ports(rt: HostRuntime) -> Result<(), Fail> {
    let ports = [
        port(ORIGIN, Axis::K, Way::Plus),
        port(ABOVE, Axis::K, Way::Minus),
    ];
    let words: [&[Pauli]; 4] = [
        &[Pauli::X, Pauli::X],
        &[Pauli::Z, Pauli::Z],
        &[Pauli::Y, Pauli::Y],
        &[Pauli::X, Pauli::Z],
    ];
    let job = job_with(&rt, &ports, &words)?;
    let mut diagram = Diagram::new(rt.alloc(), SIZE)?;
    diagram.put_pipe(Axis::K, ORIGIN, Kind::X, Kind::X);
    let at_origin = Some(Broken {
        rule: 1,
        cell: ORIGIN,
    });
    let above = Some(Broken {
        rule: 1,
        cell: ABOVE,
    });
    for (flow, letter, want) in [
        (0, Pauli::One, at_origin),
        (0, Pauli::X, None),
        (0, Pauli::Z, at_origin),
        (0, Pauli::Y, at_origin),
        (1, Pauli::One, at_origin),
        (1, Pauli::X, at_origin),
        (1, Pauli::Z, None),
        (1, Pauli::Y, at_origin),
        (2, Pauli::One, at_origin),
        (2, Pauli::X, at_origin),
        (2, Pauli::Z, at_origin),
        (2, Pauli::Y, None),
        (3, Pauli::X, above),
        (3, Pauli::Z, at_origin),
    ] {
        let mut sheets = Sheets::new(rt.alloc(), SIZE, 4)?;
        put_letter(&rt, &mut sheets, flow, Axis::K, ORIGIN, letter);
        assert_eq!(rt; answer(&rt, &job, &diagram, &sheets, flow), want);
    }
    Ok(())
}

#[test]
fn a_y_cube_takes_both_sheets_or_none(rt: HostRuntime) -> Result<(), Fail> {
    let words: [&[Pauli]; 4] = [&[Pauli::One], &[Pauli::X], &[Pauli::Y], &[Pauli::Z]];
    let job = job_with(&rt, &[port(ABOVE, Axis::K, Way::Minus)], &words)?;
    let mut diagram = Diagram::new(rt.alloc(), SIZE)?;
    diagram.put_pipe(Axis::K, ORIGIN, Kind::X, Kind::X);
    diagram.put_y(ORIGIN);
    let mut sheets = Sheets::new(rt.alloc(), SIZE, 4)?;
    put_letter(&rt, &mut sheets, 1, Axis::K, ORIGIN, Pauli::X);
    put_letter(&rt, &mut sheets, 2, Axis::K, ORIGIN, Pauli::Y);
    put_letter(&rt, &mut sheets, 3, Axis::K, ORIGIN, Pauli::Z);
    let second = Some(Broken {
        rule: 2,
        cell: ORIGIN,
    });
    for (flow, want) in [(0, None), (1, second), (2, None), (3, second)] {
        assert_eq!(rt; answer(&rt, &job, &diagram, &sheets, flow), want);
    }
    Ok(())
}

// Three pipes meet on I and K. On J all three show Z: of the Z sheets an even number meets, and an X sheet
// goes through all three.
#[test]
fn sheets_join_where_three_pipes_meet(rt: HostRuntime) -> Result<(), Fail> {
    let ports = [
        port(ORIGIN, Axis::I, Way::Plus),
        port(BEYOND, Axis::I, Way::Minus),
        port(MIDDLE_ABOVE, Axis::K, Way::Minus),
    ];
    let mut diagram = Diagram::new(rt.alloc(), SIZE)?;
    diagram.put_pipe(Axis::I, ORIGIN, Kind::Z, Kind::Z);
    diagram.put_pipe(Axis::I, MIDDLE, Kind::Z, Kind::Z);
    diagram.put_pipe(Axis::K, MIDDLE, Kind::X, Kind::X);
    let third = Some(Broken {
        rule: 3,
        cell: MIDDLE,
    });
    for (word, want) in [
        ([Pauli::One, Pauli::One, Pauli::One], None),
        ([Pauli::X, Pauli::X, Pauli::X], None),
        ([Pauli::X, Pauli::X, Pauli::One], third),
        ([Pauli::One, Pauli::One, Pauli::X], third),
        ([Pauli::Z, Pauli::Z, Pauli::One], None),
        ([Pauli::Z, Pauli::One, Pauli::Z], None),
        ([Pauli::One, Pauli::Z, Pauli::One], third),
        ([Pauli::Z, Pauli::Z, Pauli::Z], third),
        ([Pauli::Y, Pauli::Y, Pauli::X], None),
        ([Pauli::Y, Pauli::X, Pauli::X], third),
        ([Pauli::Y, Pauli::Y, Pauli::One], third),
    ] {
        let job = job_with(&rt, &ports, &[&word])?;
        let mut sheets = Sheets::new(rt.alloc(), SIZE, 1)?;
        put_letter(&rt, &mut sheets, 0, Axis::I, ORIGIN, word[0]);
        put_letter(&rt, &mut sheets, 0, Axis::I, MIDDLE, word[1]);
        put_letter(&rt, &mut sheets, 0, Axis::K, MIDDLE, word[2]);
        assert_eq!(rt; answer(&rt, &job, &diagram, &sheets, 0), want);
    }
    // A port's letter is looked at before the joint, though its cell comes later.
    let job = job_with(&rt, &ports, &[&[Pauli::Z, Pauli::One, Pauli::Z]])?;
    let mut sheets = Sheets::new(rt.alloc(), SIZE, 1)?;
    put_letter(&rt, &mut sheets, 0, Axis::I, ORIGIN, Pauli::Z);
    let first = Some(Broken {
        rule: 1,
        cell: MIDDLE_ABOVE,
    });
    assert_eq!(rt; answer(&rt, &job, &diagram, &sheets, 0), first);
    Ok(())
}
