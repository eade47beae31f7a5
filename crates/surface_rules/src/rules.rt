// The rules, each as a test of the cell that it names.
ghost use Rattle.std.specs.Prelude.{◌≡◌, ◌<◌, [], length, slice_index_or};
ghost use Rattle.las_base.specs.Cells.{IsOnGrid};
ghost use Rattle.grid_box.specs.Sheets.{ports_spell, y_sheets_match, sheets_join_at};
ghost use Rattle.grid_box.specs.Surfaces.{sheets_of};

use crate::leg_sheets::LegSheets;
use grid_box::{Diagram, Sheets};
use las_base::Cell;
use las_spec::Job;

#[tactic(auto, using(crate::proofs::EndLemmas::ports_by_legs))]
pub(crate) fn ports_spell(
    job: &Job,
    diagram: &Diagram,
    sheets: &Sheets,
    flow: usize,
    cell: Cell,
) -> bool
    requires flow { flow < length job.now.flows }
    requires near { IsOnGrid cell }
    ensures { result ≡ ports_spell job.now diagram.now (sheets_of sheets.now flow) (slice_index_or job.now.flows flow []) cell }
{
    let at = LegSheets { sheets, flow, cell };
    at.spell_word(
        &diagram.legs(cell),
        job.ports(),
        job.flows()[flow].letters(),
    )
}

pub(crate) fn y_sheets_match(
    job: &Job,
    diagram: &Diagram,
    sheets: &Sheets,
    flow: usize,
    cell: Cell,
) -> bool
    requires { IsOnGrid cell }
    ensures { result ≡ y_sheets_match job.now diagram.now (sheets_of sheets.now flow) cell }
{
    !diagram.is_y(cell) || LegSheets { sheets, flow, cell }.match_on_y(&diagram.legs(cell))
}

#[tactic(auto, using(crate::proofs::EndLemmas::joints_by_legs))]
pub(crate) fn sheets_join(
    job: &Job,
    diagram: &Diagram,
    sheets: &Sheets,
    flow: usize,
    cell: Cell,
) -> bool
    requires { IsOnGrid cell }
    ensures { result ≡ sheets_join_at job.now diagram.now (sheets_of sheets.now flow) cell }
{
    job.has_port_at(cell)
        || diagram.is_y(cell)
        || LegSheets { sheets, flow, cell }.join(&diagram.legs(cell))
}
