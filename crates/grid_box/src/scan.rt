// Scans of the cells that a rule can name.
ghost use Rattle.std.specs.Prelude.{IsTrue};
ghost use Rattle.las_base.specs.Cells.{IsOnGrid};
ghost use Rattle.las_base.specs.Jobs.{within_limits};
ghost use Rattle.grid_box.specs.CellTests.{FindsBreach, FindsFailing};

use crate::Broken;
use las_base::{Cell, Size};

// The first cell that breaks a rule, among those of a box and those one step beyond its far faces.
fn first_breaking<R: Copy, F: Fn(R, Cell) -> bool>(rule: R, size: Size, keeps: &F) -> Option<Cell>
    requires limits { IsTrue (within_limits size) }
    requires callable { (cell : Cell) → IsOnGrid cell → F.pre keeps.now rule cell }
    ensures { FindsFailing (F.post keeps.now rule) size result }
{
    let wide = size.widened();
    for number in 0..wide.volume() as usize {
        let cell = wide.cell(number);
        if !keeps(rule, cell) {
            return Some(cell);
        }
    }
    None
}

/// The first breach of rules with their numbers, in the order of the table: of the first rule that some cell
/// breaks, at the first such cell. The cells are those of a box and those one step beyond its far faces.
pub fn first_breach<R: Copy, F: Fn(R, Cell) -> bool>(
    rules: &[(u8, R)],
    size: Size,
    keeps: F,
) -> Option<Broken>
    requires limits { IsTrue (within_limits size) }
    requires callable { (rule : R) (cell : Cell) → IsOnGrid cell → F.pre keeps rule cell }
    ensures { FindsBreach (F.post keeps) size rules.now result }
{
    for (number, rule) in rules {
        if let Some(cell) = first_breaking(*rule, size, &keeps) {
            return Some(Broken {
                rule: *number,
                cell,
            });
        }
    }
    None
}
