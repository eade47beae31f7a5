// The sheets that entries show.
ghost use Rattle.std.specs.Prelude.{◌≡◌, ◌≢◌, ◌&&◌, ◌+◌, ◌<◌, ◌≤◌, length, IfOk, IsTrue};
ghost use Rattle.las_base.specs.Jobs.{most_flows, within_limits};
ghost use Rattle.grid_box.specs.Surfaces.{IsSurfaces, PutsSheets, sheet_axes};
ghost use Rattle.lasre_codec.specs.Entries.{is_one_at, surfaces_in, flow_part};
ghost use Rattle.lasre_codec.specs.Kept.{entries_kept};
ghost use Rattle.lasre_codec.specs.Puts.{PutsAxes, is_one_in_both};

use crate::entries::{entries_of, is_one_at};
use crate::member::Member;
use grid_box::Sheets;
use json_shape::Entry;
use las_base::{Axis, Size};
use std::alloc::{AllocError, Global};

// The axes along which a pipe may lie, each with the axes that its sheets may span.
const SHEET_AXES: [(Axis, Axis); 6] = [
    (Axis::I, Axis::J),
    (Axis::I, Axis::K),
    (Axis::J, Axis::I),
    (Axis::J, Axis::K),
    (Axis::K, Axis::I),
    (Axis::K, Axis::J),
];

// Whether the pipe with a number exists and its sheet is there, where a flow's entries begin at this place.
fn shows_at(exist: &[Entry], corr: &[Entry], first: usize, number: usize) -> bool
    requires { first + number < 100000 }
    ensures { result ≡ (is_one_at exist.now number && is_one_at corr.now (first + number)) }
{
    is_one_at(exist, number) && is_one_at(corr, first + number)
}

// Puts a sheet of a flow, of the pipe along the first axis, that spans the second, at each cell where the pipe
// exists and the sheet is there. The entries of the sheets are those of all flows.
fn put_sheets(sheets: &mut Sheets, flow: usize, axes: (Axis, Axis), exist: &[Entry], corr: &[Entry])
    requires kept { IsSurfaces sheets.old }
    requires flow { flow < length sheets.old.flows }
    requires span { axes.1 ≢ axes.0 }
    ensures sheets { PutsSheets sheets.old.size flow axes.0 axes.1 (is_one_in_both sheets.old.size exist.now (flow_part sheets.old.size flow corr.now)) sheets.old sheets.new }
    ensures size { sheets.new.size ≡ sheets.old.size }
    ensures count { length sheets.new.flows ≡ length sheets.old.flows }
    ensures kept { IsSurfaces sheets.new }
{
    let size = sheets.size();
    let volume = size.volume() as usize;
    let (axis, span) = axes;
    for number in 0..volume {
        if shows_at(exist, corr, flow * volume, number) {
            sheets.put(flow, axis, size.cell(number), span, true);
        }
    }
}

// Puts the sheets of a flow.
fn put_flow(sheets: &mut Sheets, flow: usize, grids: &[Vec<Entry>])
    requires kept { IsSurfaces sheets.old }
    requires flow { flow < length sheets.old.flows }
    ensures sheets { PutsAxes (entries_kept grids.now) sheets.old.size flow sheet_axes sheets.old sheets.new }
    ensures size { sheets.new.size ≡ sheets.old.size }
    ensures count { length sheets.new.flows ≡ length sheets.old.flows }
    ensures kept { IsSurfaces sheets.new }
{
    for (axis, span) in SHEET_AXES {
        let exist = entries_of(grids, Member::pipes_along(axis));
        let corr = entries_of(grids, Member::sheets_along(axis, span));
        put_sheets(sheets, flow, (axis, span), exist, corr);
    }
}

/// The sheets that the entries show, for so many flows.
pub(crate) fn build_sheets(
    alloc: Global,
    size: Size,
    flows: usize,
    grids: &[Vec<Entry>],
) -> Result<Sheets, AllocError>
    requires limits { IsTrue (within_limits size) }
    requires count { flows ≤ most_flows }
    ensures shown { IfOk result (λ s. s ≡ surfaces_in (entries_kept grids.now) size flows) }
    ensures kept { IfOk result (λ s. IsSurfaces s) }
{
    let mut sheets = Sheets::new(alloc, size, flows)?;
    for flow in 0..flows {
        put_flow(&mut sheets, flow, grids);
    }
    Ok(sheets)
}
