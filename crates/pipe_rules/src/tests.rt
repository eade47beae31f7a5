// Columns of a box, each of which breaks one rule of pipes and no lesser one.
ghost use Rattle.std.specs.Prelude.{◌≡◌, ◌<◌};

use super::*;
use las_base::{Axis, Kind, Pauli, Port, Size, Way};
use las_spec::{FlowWord, make_job};
use std::alloc::Global;
use std::process::Abort;
use std::test::Fail;

const SIZE: Size = Size { i: 6, j: 2, k: 3 };

fn at(i: u32, j: u32, k: u32) -> Cell
    ensures { (result.i ≡ i) × (result.j ≡ j) × (result.k ≡ k) }
{
    Cell { i, j, k }
}

fn port(place: Cell, way: Way) -> Port {
    Port {
        place,
        axis: Axis::K,
        way,
        z_axis: Axis::J,
    }
}

// A job and a diagram as they are put together.
#[derive(Drop)]
struct Sketch {
    ports: Vec<Port>,
    forbidden: Vec<Cell>,
    diagram: Diagram,
}

impl Sketch {
    // A wire from a Y cube at the bottom of the first column up to a port.
    fn new(rt: &(impl Abort + AllocGlobal)) -> Result<Sketch, Fail> {
        let alloc = rt.alloc();
        let mut ports = Vec::new(alloc);
        ports.push(port(at(0, 0, 3), Way::Minus))?;
        let mut sketch = Sketch {
            ports,
            forbidden: Vec::new(alloc),
            diagram: Diagram::new(alloc, SIZE)?,
        };
        sketch.y_cubes(&[at(0, 0, 0)]);
        sketch.pipes(Axis::K, &[at(0, 0, 0), at(0, 0, 1), at(0, 0, 2)]);
        Ok(sketch)
    }

    fn pipes(&mut self, axis: Axis, cells: &[Cell]) {
        for cell in cells {
            if self.diagram.size().holds(*cell) {
                self.diagram.put_pipe(axis, *cell, Kind::X, Kind::X);
            }
        }
    }

    fn y_cubes(&mut self, cells: &[Cell]) {
        for cell in cells {
            if self.diagram.size().holds(*cell) {
                self.diagram.put_y(*cell);
            }
        }
    }

    // Breaks a rule in the columns from i on, and answers the cell that it names.
    fn breaks(&mut self, rule: u8, i: u32) -> Result<Cell, Fail>
        requires { i < 6 }
    {
        match rule {
            // A pipe leaves the box through a face where there is no port.
            1 => {
                self.pipes(Axis::J, &[at(i, 1, 0)]);
                return Ok(at(i, 1, 0));
            }
            // A port has no pipe.
            2 => self.ports.push(port(at(i, 0, 0), Way::Plus))?,
            // A wire between two Y cubes goes through a forbidden cell.
            3 => {
                self.y_cubes(&[at(i, 0, 0), at(i, 0, 2)]);
                self.pipes(Axis::K, &[at(i, 0, 0), at(i, 0, 1)]);
                self.forbidden.push(at(i, 0, 1))?;
                return Ok(at(i, 0, 1));
            }
            // A Y cube has no leg.
            4 => self.y_cubes(&[at(i, 0, 0)]),
            // A wire from a Y cube ends in nothing.
            5 => {
                self.y_cubes(&[at(i, 0, 1)]);
                self.pipes(Axis::K, &[at(i, 0, 0)]);
            }
            // Three wires, each from a Y cube, meet along three axes.
            _ => {
                self.y_cubes(&[at(i, 0, 1), at(i + 1, 0, 1), at(i, 1, 1)]);
                self.pipes(Axis::K, &[at(i, 0, 0), at(i + 1, 0, 0), at(i, 1, 0)]);
                self.pipes(Axis::I, &[at(i, 0, 0)]);
                self.pipes(Axis::J, &[at(i, 0, 0)]);
            }
        }
        Ok(at(i, 0, 0))
    }

    fn first_broken(&self, rt: &(impl Abort + AllocGlobal)) -> Result<Option<Broken>, Fail> {
        let alloc = rt.alloc();
        let mut flows = Vec::new(alloc);
        flows.push(FlowWord::new(vec![in alloc; Pauli::One; self.ports.len()]?))?;
        let job = make_job(alloc, SIZE, &self.ports, &flows, &self.forbidden);
        let job = job
            .ok()
            .expect(rt, "the ports and cells are those of a job");
        assert_eq!(rt; job.size(), self.diagram.size());
        Ok(first_broken(&job, &self.diagram))
    }
}

#[test]
fn each_rule_is_broken_alone(rt: HostRuntime) -> Result<(), Fail> {
    assert_eq!(rt; Sketch::new(&rt)?.first_broken(&rt)?, None);
    for rule in 1..=6 {
        let mut sketch = Sketch::new(&rt)?;
        let cell = sketch.breaks(rule, 1)?;
        assert_eq!(rt; sketch.first_broken(&rt)?, Some(Broken { rule, cell }));
    }
    Ok(())
}

#[test]
fn the_lesser_rule_comes_first_at_a_later_cell(rt: HostRuntime) -> Result<(), Fail> {
    for lesser in 1..=5 {
        for greater in lesser + 1..=6 {
            let mut sketch = Sketch::new(&rt)?;
            sketch.breaks(greater, 1)?;
            let cell = sketch.breaks(lesser, 3)?;
            let want = Broken { rule: lesser, cell };
            assert_eq!(rt; sketch.first_broken(&rt)?, Some(want));
        }
    }
    Ok(())
}

#[test]
fn of_one_rule_the_least_cell_is_named(rt: HostRuntime) -> Result<(), Fail> {
    for rule in 1..=6 {
        let mut sketch = Sketch::new(&rt)?;
        sketch.breaks(rule, 3)?;
        let cell = sketch.breaks(rule, 1)?;
        assert_eq!(rt; sketch.first_broken(&rt)?, Some(Broken { rule, cell }));
    }
    Ok(())
}
