// The diagram that entries show.
ghost use Rattle.std.specs.Prelude.{◌≡◌, ◌≢◌, ◌<◌, ◌≤◌, length, IfOk, IsTrue};
ghost use Rattle.las_base.specs.Axes.{kind_by};
ghost use Rattle.las_base.specs.Cells.{volume};
ghost use Rattle.las_base.specs.Jobs.{within_limits};
ghost use Rattle.grid_box.specs.Drawings.{IsDrawing};
ghost use Rattle.grid_box.specs.LookUps.{PutsPipes, PutsYCells};
ghost use Rattle.lasre_codec.specs.Entries.{drawing_in, is_one_at, is_one_of};
ghost use Rattle.lasre_codec.specs.Kept.{entries_kept};
ghost use Rattle.lasre_codec.specs.Puts.{PutsAlong, pipe_marked};

use crate::entries::{entries_of, is_one_at};
use crate::member::Member;
use grid_box::Diagram;
use json_shape::Entry;
use las_base::{Axis, End, Kind, Size};
use std::alloc::{AllocError, Global};

// The kind of the faces normal to the axis after the pipe's, by the colour at a place.
fn kind_at(colours: &[Entry], place: usize) -> Kind
    ensures { result ≡ kind_by (is_one_at colours.now place) }
{
    if is_one_at(colours, place) {
        Kind::Z
    } else {
        Kind::X
    }
}

// Puts a pipe along the axis at each cell where one exists, with the colours at its low and at its high end.
fn put_pipes(
    diagram: &mut Diagram,
    size: Size,
    axis: Axis,
    exist: &[Entry],
    low: &[Entry],
    high: &[Entry],
)
    requires drawn { IsDrawing diagram.old }
    requires same { diagram.old.size ≡ size }
    requires wall { axis ≢ Axis.K → low.now ≡ high.now }
    ensures pipes { PutsPipes size axis (is_one_of size exist.now) (pipe_marked size axis low.now high.now) diagram.old diagram.new }
    ensures y_cells { diagram.new.y_cells ≡ diagram.old.y_cells }
    ensures size { diagram.new.size ≡ size }
    ensures drawn { IsDrawing diagram.new }
{
    for number in 0..size.volume() as usize {
        if is_one_at(exist, number) {
            let (low_kind, high_kind) = (kind_at(low, number), kind_at(high, number));
            diagram.put_pipe(axis, size.cell(number), low_kind, high_kind);
        }
    }
}

// Puts a Y cube at each cell whose entry is 1.
fn put_y_cells(diagram: &mut Diagram, size: Size, entries: &[Entry])
    requires drawn { IsDrawing diagram.old }
    requires same { diagram.old.size ≡ size }
    ensures y_cells { PutsYCells size (is_one_of size entries.now) diagram.old diagram.new }
    ensures pipes { diagram.new.pipes ≡ diagram.old.pipes }
    ensures size { diagram.new.size ≡ size }
    ensures drawn { IsDrawing diagram.new }
{
    for number in 0..size.volume() as usize {
        if is_one_at(entries, number) {
            diagram.put_y(size.cell(number));
        }
    }
}

// Puts the pipes along an axis.
fn put_along(diagram: &mut Diagram, size: Size, axis: Axis, grids: &[Vec<Entry>])
    requires drawn { IsDrawing diagram.old }
    requires same { diagram.old.size ≡ size }
    ensures pipes { PutsAlong (entries_kept grids.now) size axis diagram.old diagram.new }
    ensures y_cells { diagram.new.y_cells ≡ diagram.old.y_cells }
    ensures size { diagram.new.size ≡ size }
    ensures drawn { IsDrawing diagram.new }
{
    let exist = entries_of(grids, Member::pipes_along(axis));
    let low = entries_of(grids, Member::colours_of(axis, End::Low));
    let high = entries_of(grids, Member::colours_of(axis, End::High));
    put_pipes(diagram, size, axis, exist, low, high);
}

/// The diagram that the entries show.
pub(crate) fn build_diagram(
    alloc: Global,
    size: Size,
    grids: &[Vec<Entry>],
) -> Result<Diagram, AllocError>
    requires { IsTrue (within_limits size) }
    ensures shown { IfOk result (λ d. d ≡ drawing_in (entries_kept grids.now) size) }
    ensures drawn { IfOk result (λ d. IsDrawing d) }
{
    let mut diagram = Diagram::new(alloc, size)?;
    put_y_cells(&mut diagram, size, entries_of(grids, Member::NodeY));
    put_along(&mut diagram, size, Axis::I, grids);
    put_along(&mut diagram, size, Axis::J, grids);
    put_along(&mut diagram, size, Axis::K, grids);
    Ok(diagram)
}
