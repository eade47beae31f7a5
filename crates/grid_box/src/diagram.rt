// A diagram as it is built: a slot for the pipe of each axis and low cell, and a bit for each Y cell.
ghost use Rattle.std.specs.Prelude.{◌≡◌, ◌≢◌, ◌+◌, ◌*◌, ◌<◌, ◌≤◌, ◌++◌, [], IfOk, IsTrue};
ghost use Rattle.std.specs.Option.{option_map, option_to_list};
ghost use Rattle.las_base.specs.Cells.{holds, volume, FitsOnGrid, IsOnGrid};
ghost use Rattle.las_base.specs.Jobs.{within_limits};
ghost use Rattle.grid_box.specs.Drawings.{IsDrawing, drawing_of, kinds_at, is_y};
ghost use Rattle.grid_box.specs.Legs.{legs, leg_of, pipe_end_at};
ghost use Rattle.grid_box.specs.LookUps.{PutsPipe, DropsPipe, PutsY, DropsY};
ghost use Rattle.grid_box.specs.Slots.{slot_number};

use crate::Leg;
use arrayvec::ArrayVec;
use las_base::{Axis, Cell, End, Kind, Size, Way};
use std::alloc::{AllocError, Global};
use std::marker::Model;

/// Pipes and Y cells in a box.
#[derive(Drop)]
pub struct Diagram {
    size: Size,
    slots: Vec<Option<(Kind, Kind)>>,
    y_bits: Vec<bool>,
}

impl Model for Diagram {
    ghost use Rattle.grid_box.specs.Drawings.{Drawing};
    ghost use Rattle.grid_box.specs.LookUps.{drawing_by};
    ghost use Rattle.grid_box.specs.Slots.{slot_at, bit_at, IsKept};

    ghost Value = { Drawing };

    ghost view = { λ d. drawing_by d.size (slot_at d.size d.slots.items) (bit_at d.size d.y_bits.items) };

    ghost invariant = { λ d. IsKept d.size d.slots.items d.y_bits.items };
}

// Where a leg may stand at a cell, in order.
const POSITIONS: [(Axis, Way); 6] = [
    (Axis::I, Way::Minus),
    (Axis::I, Way::Plus),
    (Axis::J, Way::Minus),
    (Axis::J, Way::Plus),
    (Axis::K, Way::Minus),
    (Axis::K, Way::Plus),
];

impl Diagram {
    /// A diagram with no pipe and no Y cell.
    pub fn new(alloc: Global, size: Size) -> Result<Diagram, AllocError>
        requires { IsTrue (within_limits size) }
        ensures empty { IfOk result (λ d. d ≡ drawing_of size [] []) }
        ensures drawn { IfOk result (λ d. IsDrawing d) }
    {
        let volume = size.volume() as usize;
        Ok(Diagram {
            size,
            slots: vec![in alloc; None; 3 * volume]?,
            y_bits: vec![in alloc; false; volume]?,
        })
    }

    /// The sides of the box.
    pub fn size(&self) -> Size
        ensures size { result ≡ self.now.size }
        ensures drawn { IsDrawing self.now }
    {
        self.size
    }

    /// The kinds of a pipe at its low and at its high end. None where there is no pipe, also outside the box.
    pub fn pipe(&self, axis: Axis, cell: Cell) -> Option<(Kind, Kind)>
        ensures { result ≡ kinds_at self.now axis cell }
    {
        if self.size.holds(cell) {
            self.slots[slot_number(self.size, axis, cell)]
        } else {
            None
        }
    }

    /// Whether there is a Y cube at the cell. False outside the box.
    pub fn is_y(&self, cell: Cell) -> bool
        ensures { result ≡ is_y self.now cell }
    {
        self.size.holds(cell) && self.y_bits[self.size.index(cell)]
    }

    /// Puts a pipe, in place of one that is there. Each kind is that of the faces normal to the axis after
    /// the pipe's own, at that end.
    pub fn put_pipe(&mut self, axis: Axis, cell: Cell, low: Kind, high: Kind)
        requires held { IsTrue (holds self.old.size cell) }
        requires wall { axis ≢ Axis.K → low ≡ high }
        ensures pipes { PutsPipe self.old self.new (record { axis = axis; cell = cell; low = low; high = high }) }
        ensures y_cells { self.new.y_cells ≡ self.old.y_cells }
        ensures size { self.new.size ≡ self.old.size }
        ensures drawn { IsDrawing self.new }
    {
        let number = slot_number(self.size, axis, cell);
        self.slots[number] = Some((low, high));
    }

    /// Takes the pipe away, where there is one.
    pub fn drop_pipe(&mut self, axis: Axis, cell: Cell)
        requires { IsTrue (holds self.old.size cell) }
        ensures pipes { DropsPipe self.old self.new axis cell }
        ensures y_cells { self.new.y_cells ≡ self.old.y_cells }
        ensures size { self.new.size ≡ self.old.size }
        ensures drawn { IsDrawing self.new }
    {
        let number = slot_number(self.size, axis, cell);
        self.slots[number] = None;
    }

    /// Puts a Y cube.
    pub fn put_y(&mut self, cell: Cell)
        requires { IsTrue (holds self.old.size cell) }
        ensures y_cells { PutsY self.old self.new cell }
        ensures pipes { self.new.pipes ≡ self.old.pipes }
        ensures size { self.new.size ≡ self.old.size }
        ensures drawn { IsDrawing self.new }
    {
        let number = self.size.index(cell);
        self.y_bits[number] = true;
    }

    /// Takes the Y cube away, where there is one.
    pub fn drop_y(&mut self, cell: Cell)
        requires { IsTrue (holds self.old.size cell) }
        ensures y_cells { DropsY self.old self.new cell }
        ensures pipes { self.new.pipes ≡ self.old.pipes }
        ensures size { self.new.size ≡ self.old.size }
        ensures drawn { IsDrawing self.new }
    {
        let number = self.size.index(cell);
        self.y_bits[number] = false;
    }

    /// The legs of a cell in the order of positions: on I, J and K, each time the pipe from below first.
    /// The cell may be one of the box or one step beyond a far face: each coordinate is 32 at most.
    pub fn legs(&self, cell: Cell) -> ArrayVec<Leg, 6>
        requires { IsOnGrid cell }
        ensures { result.items ≡ legs self.now cell }
    {
        let mut legs = ArrayVec::new();
        for (axis, way) in POSITIONS {
            if let Some(leg) = self.leg_at(cell, axis, way) {
                legs.push(leg);
            }
        }
        legs
    }

    // The leg at one position of a cell.
    fn leg_at(&self, cell: Cell, axis: Axis, way: Way) -> Option<Leg>
        requires { IsOnGrid cell }
        ensures { result ≡ option_map leg_of (pipe_end_at self.now cell (axis, way)) }
    {
        match way {
            Way::Minus => {
                let (_, high) = self.pipe(axis, cell.step(axis, Way::Minus)?)?;
                Some(Leg {
                    axis,
                    which: End::High,
                    kind_next: high,
                })
            }
            Way::Plus => {
                let (low, _) = self.pipe(axis, cell)?;
                Some(Leg {
                    axis,
                    which: End::Low,
                    kind_next: low,
                })
            }
        }
    }
}

// Slots stand by axis, and then by cell.
fn slot_number(size: Size, axis: Axis, cell: Cell) -> usize
    requires limits { IsTrue (within_limits size) }
    requires held { IsTrue (holds size cell) }
    ensures value { result ≡ slot_number size axis cell }
    ensures within { result < 3 * volume size }
{
    let volume = size.volume() as usize;
    let first = match axis {
        Axis::I => 0,
        Axis::J => volume,
        Axis::K => 2 * volume,
    };
    first + size.index(cell)
}

#[cfg(test)]
mod tests {
    use super::*;
    use crate::has_leg_along;
    use std::test::Fail;

    fn at(i: u32, j: u32, k: u32) -> Cell
        ensures { (result.i ≡ i) × (result.j ≡ j) × (result.k ≡ k) }
    {
        Cell { i, j, k }
    }

    #[test]
    fn legs_stand_in_the_order_of_positions(rt: HostRuntime) -> Result<(), Fail> {
        let size = Size { i: 1, j: 1, k: 2 };
        let mut diagram = Diagram::new(rt.alloc(), size)?;
        diagram.put_pipe(Axis::K, at(0, 0, 0), Kind::X, Kind::Z);
        diagram.put_pipe(Axis::K, at(0, 0, 1), Kind::Z, Kind::Z);
        diagram.put_pipe(Axis::I, at(0, 0, 1), Kind::X, Kind::X);
        diagram.put_y(at(0, 0, 0));
        assert_eq!(rt; diagram.size(), size);
        assert_eq!(rt;
            diagram.pipe(Axis::K, at(0, 0, 0)),
            Some((Kind::X, Kind::Z))
        );
        assert_eq!(rt; diagram.pipe(Axis::J, at(0, 0, 0)), None);
        assert!(rt; diagram.is_y(at(0, 0, 0)) && !diagram.is_y(at(0, 0, 1)));
        let from_below = Leg {
            axis: Axis::K,
            which: End::High,
            kind_next: Kind::Z,
        };
        let up = Leg {
            which: End::Low,
            ..from_below
        };
        let along_i = Leg {
            axis: Axis::I,
            which: End::Low,
            kind_next: Kind::X,
        };
        let from_i = Leg {
            which: End::High,
            ..along_i
        };
        assert_eq!(rt;
            diagram.legs(at(0, 0, 1)).as_slice(),
            [along_i, from_below, up].as_slice()
        );
        let legs = [from_below, up];
        assert!(rt; has_leg_along(&legs, Axis::K) && !has_leg_along(&legs, Axis::I));
        assert_eq!(rt; diagram.legs(at(1, 0, 1)).as_slice(), [from_i].as_slice());
        assert_eq!(rt; diagram.legs(at(0, 1, 1)).len(), 0);
        Ok(())
    }
}
