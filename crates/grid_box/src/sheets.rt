// Correlation surfaces as they are kept: a bit for each flow, each pair of axes of a sheet, and each low cell.
ghost use Rattle.std.specs.Prelude.{◌≡◌, ◌≢◌, ◌*◌, ◌<◌, ◌≤◌, [], length, replicate, IfOk, IsTrue};
ghost use Rattle.las_base.specs.Cells.{holds, volume};
ghost use Rattle.las_base.specs.Jobs.{most_flows, within_limits};
ghost use Rattle.grid_box.specs.SheetBits.{bit_number};
ghost use Rattle.grid_box.specs.Surfaces.{IsSurfaces, PutsSheet, has_sheet, sheet_number, sheets_of, surfaces_of};

use las_base::{Axis, Cell, Size};
use std::alloc::{AllocError, Global};
use std::marker::Model;

/// Correlation surfaces: for each flow, which pipes have a sheet that spans which axis.
#[derive(Drop)]
pub struct Sheets {
    size: Size,
    flow_count: usize,
    bits: Vec<bool>,
}

impl Model for Sheets {
    ghost use Rattle.grid_box.specs.SheetBits.{surfaces_by, AreKept};
    ghost use Rattle.grid_box.specs.Surfaces.{Surfaces};

    ghost Value = { Surfaces };

    ghost view = { λ s. surfaces_by s.size s.flow_count s.bits.items };

    ghost invariant = { λ s. AreKept s.size s.flow_count s.bits.items };
}

impl Sheets {
    /// No flow has a sheet.
    pub fn new(alloc: Global, size: Size, flows: usize) -> Result<Sheets, AllocError>
        requires limits { IsTrue (within_limits size) }
        requires count { flows ≤ most_flows }
        ensures empty { IfOk result (λ s. s ≡ surfaces_of size (replicate flows [])) }
        ensures kept { IfOk result (λ s. IsSurfaces s) }
    {
        let bits_of_flow = 6 * size.volume() as usize;
        Ok(Sheets {
            size,
            flow_count: flows,
            bits: vec![in alloc; false; flows * bits_of_flow]?,
        })
    }

    /// The sides of the box.
    pub fn size(&self) -> Size
        ensures size { result ≡ self.now.size }
        ensures kept { IsSurfaces self.now }
    {
        self.size
    }

    /// How many flows there are.
    pub fn flow_count(&self) -> usize
        ensures { result ≡ length self.now.flows }
    {
        self.flow_count
    }

    /// Whether the sheet is there. False outside the box, beyond the flows, and where the span is the pipe's
    /// own axis.
    pub fn has(&self, flow: usize, axis: Axis, cell: Cell, span: Axis) -> bool
        ensures { result ≡ has_sheet (sheets_of self.now flow) (record { axis = axis; cell = cell; span = span }) }
    {
        if flow < self.flow_count && span != axis && self.size.holds(cell) {
            self.bits[bit_number(self.size, flow, axis, cell, span)]
        } else {
            false
        }
    }

    /// Puts the sheet on or off.
    pub fn put(&mut self, flow: usize, axis: Axis, cell: Cell, span: Axis, on: bool)
        requires flow { flow < length self.old.flows }
        requires held { IsTrue (holds self.old.size cell) }
        requires span { span ≢ axis }
        ensures sheet { PutsSheet self.old self.new flow (record { axis = axis; cell = cell; span = span }) on }
        ensures size { self.new.size ≡ self.old.size }
        ensures count { length self.new.flows ≡ length self.old.flows }
        ensures kept { IsSurfaces self.new }
    {
        let number = bit_number(self.size, flow, axis, cell, span);
        self.bits[number] = on;
    }
}

// Bits stand by flow, then by pair of axes, and then by cell.
fn bit_number(size: Size, flow: usize, axis: Axis, cell: Cell, span: Axis) -> usize
    requires limits { IsTrue (within_limits size) }
    requires flow { flow < most_flows }
    requires held { IsTrue (holds size cell) }
    ensures { result ≡ bit_number size flow (record { axis = axis; cell = cell; span = span }) }
{
    (flow * 6 + sheet_number(axis, span)) * size.volume() as usize + size.index(cell)
}

/// The number, from 0 to 5, of a sheet among those that can pass at one low cell: by the axis of its pipe,
/// and then by the axis that it spans. A pipe's own axis, which no
/// sheet spans, counts as the later of the other two.
pub fn sheet_number(axis: Axis, span: Axis) -> usize
    ensures value { result ≡ sheet_number axis span }
    ensures below { result < 6 }
{
    match (axis, span) {
        (Axis::I, Axis::J) => 0,
        (Axis::I, _) => 1,
        (Axis::J, Axis::I) => 2,
        (Axis::J, _) => 3,
        (Axis::K, Axis::I) => 4,
        (Axis::K, _) => 5,
    }
}

#[cfg(test)]
mod tests {
    use super::*;
    use std::test::Fail;

    const ORIGIN: Cell = Cell { i: 0, j: 0, k: 0 };

    const ABOVE: Cell = Cell { i: 0, j: 0, k: 1 };

    const BEYOND: Cell = Cell { i: 0, j: 0, k: 2 };

    #[test]
    fn each_sheet_of_each_flow_stands_by_itself(rt: HostRuntime) -> Result<(), Fail> {
        let size = Size { i: 1, j: 1, k: 2 };
        let mut sheets = Sheets::new(rt.alloc(), size, 2)?;
        assert_eq!(rt; sheets.size(), size);
        assert_eq!(rt; sheets.flow_count(), 2);
        sheets.put(0, Axis::K, ORIGIN, Axis::I, true);
        sheets.put(1, Axis::K, ORIGIN, Axis::J, true);
        sheets.put(1, Axis::I, ABOVE, Axis::K, true);
        sheets.put(1, Axis::J, ABOVE, Axis::K, true);
        sheets.put(1, Axis::J, ABOVE, Axis::K, false);
        for (flow, axis, cell, span, there) in [
            (0, Axis::K, ORIGIN, Axis::I, true),
            (0, Axis::K, ORIGIN, Axis::J, false),
            (0, Axis::K, ORIGIN, Axis::K, false),
            (0, Axis::K, ABOVE, Axis::I, false),
            (0, Axis::I, ABOVE, Axis::K, false),
            (1, Axis::K, ORIGIN, Axis::I, false),
            (1, Axis::K, ORIGIN, Axis::J, true),
            (1, Axis::I, ABOVE, Axis::K, true),
            (1, Axis::I, BEYOND, Axis::K, false),
            (1, Axis::J, ABOVE, Axis::K, false),
            (2, Axis::K, ORIGIN, Axis::I, false),
        ] {
            assert_eq!(rt; sheets.has(flow, axis, cell, span), there);
        }
        Ok(())
    }
}
