// Single clauses of the table, given to a taker.
ghost use Rattle.std.specs.Prelude.{◌≡◌, ◌≤◌, ◌<◌, [], ◌∷◌, true, false, not};
ghost use Rattle.las_base.specs.Cells.{holds};
ghost use Rattle.cnf_base.specs.Literals.{are_below};
ghost use Rattle.cnf_table.specs.Clauses.{colour_clauses_of, kinds_agree, not_all_three, shared_normal, y_sheet_clauses_of};
ghost use Rattle.cnf_encode.specs.Emits.{Emits};
ghost use Rattle.cnf_table.specs.Layouts.{plan_vars};
ghost use Rattle.cnf_table.specs.Positions.{exists_in};
ghost use Rattle.cnf_table.specs.Variables.{pipe_literal, y_literal};

use cnf_base::{ClauseTake, Lit};
use cnf_table::{Layout, Position};
use las_base::{Axis, Cell};
use std::alloc::AllocError;

/// Gives the taker a clause.
pub(crate) fn put<C: ClauseTake>(
    to: &mut C,
    layout: &Layout,
    clause: &[Lit],
) -> Result<(), AllocError>
    requires room { plan_vars layout.now ≤ C.var_count to.old }
    requires below { are_below (plan_vars layout.now) clause.now ≡ true }
    ensures { Emits C.var_count C.taken to.old to.new result (clause.now ∷ []) }
{
    to.take(clause)
}

/// No pipe stands at the position.
pub(crate) fn put_no_pipe<C: ClauseTake>(
    to: &mut C,
    layout: &Layout,
    cell: Cell,
    at: Position,
) -> Result<(), AllocError>
    requires room { plan_vars layout.now ≤ C.var_count to.old }
    requires exist { exists_in layout.now.size cell at ≡ true }
    ensures { Emits C.var_count C.taken to.old to.new result ((pipe_literal layout.now.size cell at false ∷ []) ∷ []) }
{
    put(to, layout, &[layout.pipe_literal(cell, at, false)])
}

/// The cell is no Y cell.
pub(crate) fn put_no_y<C: ClauseTake>(
    to: &mut C,
    layout: &Layout,
    cell: Cell,
) -> Result<(), AllocError>
    requires room { plan_vars layout.now ≤ C.var_count to.old }
    requires held { holds layout.now.size cell ≡ true }
    ensures { Emits C.var_count C.taken to.old to.new result ((y_literal layout.now.size cell false ∷ []) ∷ []) }
{
    put(to, layout, &[layout.y_literal(cell, false)])
}

/// At a Y cell no pipe stands at the position.
pub(crate) fn put_no_pipe_at_y<C: ClauseTake>(
    to: &mut C,
    layout: &Layout,
    cell: Cell,
    at: Position,
) -> Result<(), AllocError>
    requires room { plan_vars layout.now ≤ C.var_count to.old }
    requires held { holds layout.now.size cell ≡ true }
    requires exist { exists_in layout.now.size cell at ≡ true }
    ensures { Emits C.var_count C.taken to.old to.new result ((y_literal layout.now.size cell false ∷ pipe_literal layout.now.size cell at false ∷ []) ∷ []) }
{
    let (is_y, stands) = (
        layout.y_literal(cell, false),
        layout.pipe_literal(cell, at, false),
    );
    put(to, layout, &[is_y, stands])
}

/// At a Y cell a pipe does not stand at both of two positions.
pub(crate) fn put_not_both<C: ClauseTake>(
    to: &mut C,
    layout: &Layout,
    cell: Cell,
    first: Position,
    second: Position,
) -> Result<(), AllocError>
    requires room { plan_vars layout.now ≤ C.var_count to.old }
    requires held { holds layout.now.size cell ≡ true }
    requires first { exists_in layout.now.size cell first ≡ true }
    requires second { exists_in layout.now.size cell second ≡ true }
    ensures { Emits C.var_count C.taken to.old to.new result ((y_literal layout.now.size cell false ∷ pipe_literal layout.now.size cell first false ∷ pipe_literal layout.now.size cell second false ∷ []) ∷ []) }
{
    let is_y = layout.y_literal(cell, false);
    let one = layout.pipe_literal(cell, first, false);
    let other = layout.pipe_literal(cell, second, false);
    put(to, layout, &[is_y, one, other])
}

/// A pipe does not stand at all of three positions.
pub(crate) fn put_not_all_three<C: ClauseTake>(
    to: &mut C,
    layout: &Layout,
    cell: Cell,
    first: Position,
    second: Position,
    third: Position,
) -> Result<(), AllocError>
    requires room { plan_vars layout.now ≤ C.var_count to.old }
    requires first { exists_in layout.now.size cell first ≡ true }
    requires second { exists_in layout.now.size cell second ≡ true }
    requires third { exists_in layout.now.size cell third ≡ true }
    ensures { Emits C.var_count C.taken to.old to.new result (not_all_three layout.now.size cell first second third ∷ []) }
{
    let one = layout.pipe_literal(cell, first, false);
    let two = layout.pipe_literal(cell, second, false);
    let three = layout.pipe_literal(cell, third, false);
    put(to, layout, &[one, two, three])
}

// An axis that is normal to both positions.
fn shared_normal(first: Position, second: Position) -> Axis
    ensures { result ≡ shared_normal first second }
{
    if first.0 == second.0 {
        first.0.next()
    } else {
        first.0.third(second.0)
    }
}

// Where pipes stand at two positions, one does not show Z on an axis while the other does.
fn put_kind_agrees<C: ClauseTake>(
    to: &mut C,
    layout: &Layout,
    cell: Cell,
    pair: (Position, Position),
    axis: Axis,
    sign: bool,
) -> Result<(), AllocError>
    requires room { plan_vars layout.now ≤ C.var_count to.old }
    requires first { exists_in layout.now.size cell pair.0 ≡ true }
    requires second { exists_in layout.now.size cell pair.1 ≡ true }
    ensures { Emits C.var_count C.taken to.old to.new result (kinds_agree layout.now.size cell pair.0 pair.1 axis sign ∷ []) }
{
    let one = layout.pipe_literal(cell, pair.0, false);
    let other = layout.pipe_literal(cell, pair.1, false);
    let one_shows = layout.kind_literal(cell, pair.0, axis, !sign);
    let other_shows = layout.kind_literal(cell, pair.1, axis, sign);
    put(to, layout, &[one, other, one_shows, other_shows])
}

/// Pipes at two positions show the same kind on an axis that is normal to both.
pub(crate) fn put_kinds_agree<C: ClauseTake>(
    to: &mut C,
    layout: &Layout,
    cell: Cell,
    pair: (Position, Position),
) -> Result<(), AllocError>
    requires room { plan_vars layout.now ≤ C.var_count to.old }
    requires first { exists_in layout.now.size cell pair.0 ≡ true }
    requires second { exists_in layout.now.size cell pair.1 ≡ true }
    ensures { Emits C.var_count C.taken to.old to.new result (colour_clauses_of layout.now.size cell pair) }
{
    let axis = shared_normal(pair.0, pair.1);
    put_kind_agrees(to, layout, cell, pair, axis, true)?;
    put_kind_agrees(to, layout, cell, pair, axis, false)
}

/// At a Y cell the pipe at a position has both sheets or none.
pub(crate) fn put_y_sheets<C: ClauseTake>(
    to: &mut C,
    layout: &Layout,
    flow: usize,
    cell: Cell,
    at: Position,
) -> Result<(), AllocError>
    requires room { plan_vars layout.now ≤ C.var_count to.old }
    requires flow { flow < layout.now.flow_count }
    requires held { holds layout.now.size cell ≡ true }
    requires exist { exists_in layout.now.size cell at ≡ true }
    ensures { Emits C.var_count C.taken to.old to.new result (y_sheet_clauses_of layout.now.size flow cell at) }
{
    let is_y = layout.y_literal(cell, false);
    let i_off = layout.sheet_literal(flow, cell, at, Axis::I, false);
    let j_on = layout.sheet_literal(flow, cell, at, Axis::J, true);
    put(to, layout, &[is_y, i_off, j_on])?;
    let i_on = layout.sheet_literal(flow, cell, at, Axis::I, true);
    let j_off = layout.sheet_literal(flow, cell, at, Axis::J, false);
    put(to, layout, &[is_y, i_on, j_off])
}
