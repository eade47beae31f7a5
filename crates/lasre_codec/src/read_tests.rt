// What is read is written again. All that is refused is tried by the worked cases of `las_cases`.
use super::*;
use grid_box::{Diagram, Sheets};
use las_base::{Axis, Cell, Kind, Pauli, Port, Size, Way};
use las_spec::{FlowWord, Job, make_job};
use std::alloc::Global;
use std::process::Abort;
use std::test::Fail;

// A wire of two K pipes with two flows, with these values at pipes along I, which do not exist.
fn wire(alloc: Global, colour_i: &str, corr_ij: &str) -> Result<String, Fail> {
    let none = "[[[0,0]]]";
    let no_sheets = "[[[[0,0]]],[[[0,0]]]]";
    Ok(format!(in alloc;
        "{{\"ColorI\":{colour_i},\"ColorJ\":{none},\"ColorKM\":{none},\"ColorKP\":{none},\"CorrIJ\":{corr_ij},\"CorrIK\":{no_sheets},\"CorrJI\":{no_sheets},\"CorrJK\":{no_sheets},\"CorrKI\":[[[[1,1]]],[[[0,0]]]],\"CorrKJ\":[[[[0,0]]],[[[1,1]]]],\"ExistI\":{none},\"ExistJ\":{none},\"ExistK\":[[[1,1]]],\"NodeY\":{none},\"max_i\":1,\"max_j\":1,\"max_k\":2,\"optional\":{{\"forbidden_cubes\":[]}},\"ports\":[{{\"direction\":\"+K\",\"location\":[0,0,0],\"z_basis_direction\":\"J\"}},{{\"direction\":\"-K\",\"location\":[0,0,2],\"z_basis_direction\":\"J\"}}],\"stabilizers\":[\"XX\",\"ZZ\"]}}\n"
    )?)
}

#[test]
fn what_is_read_is_written_again(rt: HostRuntime) -> Result<(), Fail> {
    let alloc = rt.alloc();
    let plain = wire(alloc, "[[[0,0]]]", "[[[[0,0]]],[[[0,0]]]]")?;
    // Nothing is kept of what stands at pipes that do not exist.
    let other = wire(alloc, "[[[1,1]]]", "[[[[1,9]]],[[[1,1]]]]")?;
    for text in [plain.as_str(), other.as_str()] {
        let read = read_lasre(alloc, text.as_bytes());
        let lasre = read.ok().expect(&rt, "the wire is read");
        let written = lasre_text(alloc, &lasre.job, &lasre.diagram, &lasre.sheets)?;
        assert_eq!(rt; written.as_slice(), plain.as_bytes());
    }
    Ok(())
}

const GREAT: Size = Size { i: 8, j: 8, k: 8 };

const FLOWS: usize = 32;

fn great_job(rt: &(impl Abort + AllocGlobal)) -> Result<Job, Fail> {
    let alloc = rt.alloc();
    let port = Port {
        place: Cell { i: 0, j: 0, k: 8 },
        axis: Axis::K,
        way: Way::Minus,
        z_axis: Axis::J,
    };
    let mut flows = Vec::new(alloc);
    for _ in 0..FLOWS {
        flows.push(FlowWord::new(Vec::from_slice(alloc, &[Pauli::Y])?))?;
    }
    let job = make_job(alloc, GREAT, &[port], &flows, &[]);
    Ok(job.ok().expect(rt, "one port and 32 flows make a job"))
}

// Puts a pipe of one of two axes at a cell, with a sheet of one of the flows.
fn put(diagram: &mut Diagram, sheets: &mut Sheets, number: usize, cell: Cell) {
    let axis = if number % 2 == 0 { Axis::I } else { Axis::K };
    let kind = if number % 3 == 0 { Kind::X } else { Kind::Z };
    let flow = number % FLOWS;
    if diagram.size().holds(cell) {
        diagram.put_pipe(axis, cell, kind, kind);
    }
    if sheets.size().holds(cell) && flow < sheets.flow_count() {
        sheets.put(flow, axis, cell, Axis::J, true);
    }
}

fn text_of(
    rt: &(impl Abort + AllocGlobal),
    job: &Job,
    diagram: &Diagram,
    sheets: &Sheets,
) -> Result<Vec<u8>, Fail> {
    assert_eq!(rt; diagram.size(), job.size());
    assert_eq!(rt; sheets.size(), job.size());
    assert_eq!(rt; sheets.flow_count(), job.flows().len());
    Ok(lasre_text(rt.alloc(), job, diagram, sheets)?)
}

#[test]
fn the_greatest_box_with_all_flows_is_written_and_read(rt: HostRuntime) -> Result<(), Fail> {
    let alloc = rt.alloc();
    let job = great_job(&rt)?;
    let mut diagram = Diagram::new(alloc, GREAT)?;
    let mut sheets = Sheets::new(alloc, GREAT, FLOWS)?;
    for number in 0..GREAT.volume() as usize {
        put(&mut diagram, &mut sheets, number, GREAT.cell(number));
    }
    let text = text_of(&rt, &job, &diagram, &sheets)?;
    let lasre = read_lasre(alloc, &text).ok().expect(&rt, "it is read");
    let again = text_of(&rt, &lasre.job, &lasre.diagram, &lasre.sheets)?;
    assert_eq!(rt; again.as_slice(), text.as_slice());
    Ok(())
}
