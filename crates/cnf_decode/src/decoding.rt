// The diagram and the sheets that values show.
ghost use Rattle.std.specs.Prelude.{◌≡◌, ◌≢◌, ◌<◌, ◌≤◌, length, true, IfOk};
ghost use Rattle.std.specs.List.{AllZip};
ghost use Rattle.las_base.specs.Axes.{kind_by};
ghost use Rattle.las_base.specs.Cells.{holds, volume};
ghost use Rattle.las_base.specs.Jobs.{within_limits};
ghost use Rattle.grid_box.specs.Drawings.{IsDrawing};
ghost use Rattle.grid_box.specs.LookUps.{PutsPipe, PutsPipes, PutsYCells};
ghost use Rattle.grid_box.specs.PipeRules.{IsValid};
ghost use Rattle.grid_box.specs.Sheets.{Serves};
ghost use Rattle.grid_box.specs.Surfaces.{IsSurfaces, PutsFlow, PutsSheets};
ghost use Rattle.cnf_base.specs.Literals.{all_true, values_of};
ghost use Rattle.cnf_table.specs.Clauses.{clause_table};
ghost use Rattle.cnf_table.specs.Layouts.{plan_of, plan_vars};
ghost use Rattle.cnf_decode.specs.Building.{AreDecoded, IsDecoded, exists_by, pipe_by, sheet_by, shows_sheet, y_by};
ghost use Rattle.cnf_table.specs.Shown.{AreShown};
ghost use Rattle.cnf_table.specs.Values.{AreValuesOf};
ghost use Rattle.cnf_table.specs.Variables.{diagram_var, sheet_var};

use cnf_table::{Layout, colour_member, exist_member};
use grid_box::{Diagram, Sheets, sheet_number};
use las_base::{Axis, Cell, Kind, Size, Way};
use las_spec::Job;
use std::alloc::{AllocError, Global};

// The value of a member of a diagram at a cell.
fn value(values: &[bool], layout: &Layout, member: usize, cell: Cell) -> bool
    requires count { plan_vars layout.now ≤ length values.now }
    requires member { member < 8 }
    requires held { holds layout.now.size cell ≡ true }
    ensures { result ≡ values_of values.now (diagram_var layout.now.size member cell) }
{
    values[layout.diagram_var(member, cell).0 as usize]
}

// The kind that a colour shows.
fn kind(values: &[bool], layout: &Layout, member: usize, cell: Cell) -> Kind
    requires count { plan_vars layout.now ≤ length values.now }
    requires member { member < 8 }
    requires held { holds layout.now.size cell ≡ true }
    ensures { result ≡ kind_by (values_of values.now (diagram_var layout.now.size member cell)) }
{
    if value(values, layout, member, cell) {
        Kind::Z
    } else {
        Kind::X
    }
}

// Draws a Y cube at each cell where the values have one.
fn draw_y_cells(diagram: &mut Diagram, layout: &Layout, values: &[bool])
    requires count { plan_vars layout.now ≤ length values.now }
    requires drawn { IsDrawing diagram.old }
    requires same { diagram.old.size ≡ layout.now.size }
    ensures y_cells { PutsYCells layout.now.size (y_by (values_of values.now) layout.now.size) diagram.old diagram.new }
    ensures pipes { diagram.new.pipes ≡ diagram.old.pipes }
    ensures size { diagram.new.size ≡ layout.now.size }
    ensures drawn { IsDrawing diagram.new }
{
    let size = layout.size();
    for number in 0..size.volume() as usize {
        let cell = size.cell(number);
        if value(values, layout, 0, cell) {
            diagram.put_y(cell);
        }
    }
}

// Draws the pipe that the values show, where they have one.
fn draw_pipe_at(diagram: &mut Diagram, layout: &Layout, values: &[bool], axis: Axis, cell: Cell)
    requires count { plan_vars layout.now ≤ length values.now }
    requires held { holds layout.now.size cell ≡ true }
    requires same { diagram.old.size ≡ layout.now.size }
    ensures pipe { PutsPipe diagram.old diagram.new (pipe_by (values_of values.now) layout.now.size axis cell) }
    ensures y_cells { diagram.new.y_cells ≡ diagram.old.y_cells }
    ensures size { diagram.new.size ≡ layout.now.size }
    ensures drawn { IsDrawing diagram.new }
{
    let low = kind(values, layout, colour_member((axis, Way::Plus)), cell);
    let high = kind(values, layout, colour_member((axis, Way::Minus)), cell);
    diagram.put_pipe(axis, cell, low, high);
}

// Draws a pipe along the axis at each cell where the values have one.
fn draw_pipes_along(diagram: &mut Diagram, layout: &Layout, values: &[bool], axis: Axis)
    requires count { plan_vars layout.now ≤ length values.now }
    requires drawn { IsDrawing diagram.old }
    requires same { diagram.old.size ≡ layout.now.size }
    ensures pipes { PutsPipes layout.now.size axis (exists_by (values_of values.now) layout.now.size axis) (pipe_by (values_of values.now) layout.now.size axis) diagram.old diagram.new }
    ensures y_cells { diagram.new.y_cells ≡ diagram.old.y_cells }
    ensures size { diagram.new.size ≡ layout.now.size }
    ensures drawn { IsDrawing diagram.new }
{
    let size = layout.size();
    for number in 0..size.volume() as usize {
        let cell = size.cell(number);
        if value(values, layout, exist_member(axis), cell) {
            draw_pipe_at(diagram, layout, values, axis, cell);
        }
    }
}

// The value of a member of a flow's sheets at a cell.
fn sheet_value(
    values: &[bool],
    layout: &Layout,
    flow: usize,
    axes: (Axis, Axis),
    cell: Cell,
) -> bool
    requires count { plan_vars layout.now ≤ length values.now }
    requires flow { flow < layout.now.flow_count }
    requires held { holds layout.now.size cell ≡ true }
    ensures { result ≡ sheet_by (values_of values.now) layout.now.size flow axes.0 axes.1 cell }
{
    values[layout.sheet_var(flow, sheet_number(axes.0, axes.1), cell).0 as usize]
}

// Lays the sheets of a flow, of pipes along the first axis, that span the second, where the values have one.
fn lay_sheets_along(
    sheets: &mut Sheets,
    layout: &Layout,
    values: &[bool],
    flow: usize,
    axes: (Axis, Axis),
)
    requires count { plan_vars layout.now ≤ length values.now }
    requires kept { IsSurfaces sheets.old }
    requires same { sheets.old.size ≡ layout.now.size }
    requires flow { flow < length sheets.old.flows }
    requires flow_known { flow < layout.now.flow_count }
    requires span { axes.1 ≢ axes.0 }
    ensures sheets { PutsSheets layout.now.size flow axes.0 axes.1 (sheet_by (values_of values.now) layout.now.size flow axes.0 axes.1) sheets.old sheets.new }
    ensures size { sheets.new.size ≡ layout.now.size }
    ensures count { length sheets.new.flows ≡ length sheets.old.flows }
    ensures kept { IsSurfaces sheets.new }
{
    let size = layout.size();
    for number in 0..size.volume() as usize {
        let cell = size.cell(number);
        if sheet_value(values, layout, flow, axes, cell) {
            sheets.put(flow, axes.0, cell, axes.1, true);
        }
    }
}

// Lays the sheets of a flow.
fn lay_flow_sheets(sheets: &mut Sheets, layout: &Layout, values: &[bool], flow: usize)
    requires count { plan_vars layout.now ≤ length values.now }
    requires kept { IsSurfaces sheets.old }
    requires same { sheets.old.size ≡ layout.now.size }
    requires flow { flow < length sheets.old.flows }
    requires flow_known { flow < layout.now.flow_count }
    ensures sheets { PutsFlow flow (shows_sheet (values_of values.now) layout.now.size flow) sheets.old sheets.new }
    ensures size { sheets.new.size ≡ layout.now.size }
    ensures count { length sheets.new.flows ≡ length sheets.old.flows }
    ensures kept { IsSurfaces sheets.new }
{
    lay_sheets_along(sheets, layout, values, flow, (Axis::I, Axis::J));
    lay_sheets_along(sheets, layout, values, flow, (Axis::I, Axis::K));
    lay_sheets_along(sheets, layout, values, flow, (Axis::J, Axis::I));
    lay_sheets_along(sheets, layout, values, flow, (Axis::J, Axis::K));
    lay_sheets_along(sheets, layout, values, flow, (Axis::K, Axis::I));
    lay_sheets_along(sheets, layout, values, flow, (Axis::K, Axis::J));
}

// The diagram that the values show.
fn build_diagram(
    alloc: Global,
    size: Size,
    layout: &Layout,
    values: &[bool],
) -> Result<Diagram, AllocError>
    requires count { plan_vars layout.now ≤ length values.now }
    requires limits { within_limits size ≡ true }
    requires same { size ≡ layout.now.size }
    ensures { IfOk result (λ d. IsDecoded (values_of values.now) layout.now.size d) }
{
    let mut diagram = Diagram::new(alloc, size)?;
    draw_y_cells(&mut diagram, layout, values);
    draw_pipes_along(&mut diagram, layout, values, Axis::I);
    draw_pipes_along(&mut diagram, layout, values, Axis::J);
    draw_pipes_along(&mut diagram, layout, values, Axis::K);
    Ok(diagram)
}

// The sheets that the values show, of so many flows.
fn build_sheets(
    alloc: Global,
    size: Size,
    flows: usize,
    layout: &Layout,
    values: &[bool],
) -> Result<Sheets, AllocError>
    requires count { plan_vars layout.now ≤ length values.now }
    requires limits { within_limits size ≡ true }
    requires few { flows ≤ 32 }
    requires same { size ≡ layout.now.size }
    requires flows { flows ≡ layout.now.flow_count }
    ensures { IfOk result (λ s. AreDecoded (values_of values.now) layout.now.size flows flows s) }
{
    let mut sheets = Sheets::new(alloc, size, flows)?;
    for flow in 0..flows {
        lay_flow_sheets(&mut sheets, layout, values, flow);
    }
    Ok(sheets)
}

/// The diagram and the sheets that values of a job's variables show. Values that make every clause of the
/// job true show a valid diagram, with sheets that serve each flow.
pub fn decode(
    alloc: Global,
    job: &Job,
    layout: &Layout,
    values: &[bool],
) -> Result<(Diagram, Sheets), AllocError>
    requires plan { layout.now ≡ plan_of job.now }
    requires count { length values.now ≡ plan_vars layout.now }
    requires satisfied { all_true (values_of values.now) (clause_table job.now).clauses ≡ true }
    ensures shown { IfOk result (λ r. AreShown job.now.size r.0 r.1.flows (values_of values.now)) }
    ensures same { IfOk result (λ r. AreValuesOf r.0 r.1.flows values.now) }
    ensures valid { IfOk result (λ r. IsValid job.now r.0) }
    ensures serve { IfOk result (λ r. AllZip (Serves job.now r.0) r.1.flows job.now.flows) }
    ensures drawn { IfOk result (λ r. IsDrawing r.0) }
    ensures kept { IfOk result (λ r. IsSurfaces r.1) }
    ensures size { IfOk result (λ r. r.1.size ≡ job.now.size) }
{
    let size = job.size();
    let flows = job.flows().len();
    let diagram = build_diagram(alloc, size, layout, values)?;
    let sheets = build_sheets(alloc, size, flows, layout, values)?;
    Ok((diagram, sheets))
}
