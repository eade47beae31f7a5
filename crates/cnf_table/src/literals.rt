// The literals of the table by their meaning.
ghost use Rattle.std.specs.Prelude.{◌≡◌, ◌<◌, ◌^◌, IsTrue, true};
ghost use Rattle.las_base.specs.Cells.{holds};
ghost use Rattle.cnf_table.specs.Layouts.{plan_vars, is_below};
ghost use Rattle.cnf_table.specs.Positions.{exists_in, low_of};
ghost use Rattle.cnf_table.specs.Variables.{diagram_var, literal, y_literal, pipe_literal, kind_literal, sheet_literal, exist_member, colour_member};

use crate::Layout;
use cnf_base::{Lit, Var};
use grid_box::sheet_number;
use las_base::{Axis, Cell, Way};

/// Where a pipe stands at a cell: along an axis, up it or down it.
pub type Position = (Axis, Way);

/// The low cell of the pipe at a position that exists.
pub fn low_of(cell: Cell, at: Position) -> Cell
    ensures { result ≡ low_of cell at }
{
    match at {
        (_, Way::Plus) => cell,
        (Axis::I, Way::Minus) => Cell {
            i: cell.i.saturating_sub(1),
            ..cell
        },
        (Axis::J, Way::Minus) => Cell {
            j: cell.j.saturating_sub(1),
            ..cell
        },
        (Axis::K, Way::Minus) => Cell {
            k: cell.k.saturating_sub(1),
            ..cell
        },
    }
}

// The literal of a variable by its sign.
fn literal(var: Var, sign: bool) -> Lit
    requires { var.0 < 2 ^ 31 }
    ensures { result ≡ literal sign var.0 }
{
    if sign { var.plain() } else { var.negated() }
}

/// The member of a diagram that says that a pipe exists.
pub fn exist_member(axis: Axis) -> usize
    ensures value { result ≡ exist_member axis }
    ensures below { result < 8 }
{
    match axis {
        Axis::I => 1,
        Axis::J => 2,
        Axis::K => 3,
    }
}

/// The member of a diagram that says which colour a pipe has at a position.
pub fn colour_member(at: Position) -> usize
    ensures value { result ≡ colour_member at }
    ensures below { result < 8 }
{
    match at {
        (Axis::I, _) => 4,
        (Axis::J, _) => 5,
        (Axis::K, Way::Plus) => 6,
        (Axis::K, Way::Minus) => 7,
    }
}

impl Layout {
    /// Says whether the cell is a Y cell.
    pub fn y_literal(&self, cell: Cell, sign: bool) -> Lit
        requires { IsTrue (holds self.now.size cell) }
        ensures value { result ≡ y_literal self.now.size cell sign }
        ensures below { is_below (plan_vars self.now) result ≡ true }
    {
        literal(self.diagram_var(0, cell), sign)
    }

    /// Says whether a pipe stands at a position.
    pub fn pipe_literal(&self, cell: Cell, at: Position, sign: bool) -> Lit
        requires { exists_in self.now.size cell at ≡ true }
        ensures value { result ≡ pipe_literal self.now.size cell at sign }
        ensures below { is_below (plan_vars self.now) result ≡ true }
    {
        literal(self.diagram_var(exist_member(at.0), low_of(cell, at)), sign)
    }

    /// Says whether the pipe with this low cell has its colour at a position.
    pub fn colour_literal(&self, cell: Cell, at: Position, sign: bool) -> Lit
        requires { IsTrue (holds self.now.size cell) }
        ensures value { result ≡ literal sign (diagram_var self.now.size (colour_member at) cell) }
        ensures below { is_below (plan_vars self.now) result ≡ true }
    {
        literal(self.diagram_var(colour_member(at), cell), sign)
    }

    /// Says whether the faces normal to an axis are of kind Z at a position.
    pub fn kind_literal(&self, cell: Cell, at: Position, axis: Axis, sign: bool) -> Lit
        requires { exists_in self.now.size cell at ≡ true }
        ensures value { result ≡ kind_literal self.now.size cell at axis sign }
        ensures below { is_below (plan_vars self.now) result ≡ true }
    {
        let is_next = axis == at.0.next();
        self.colour_literal(low_of(cell, at), at, is_next == sign)
    }

    /// Says whether the pipe at a position has the sheet that spans an axis.
    pub fn sheet_literal(
        &self,
        flow: usize,
        cell: Cell,
        at: Position,
        span: Axis,
        sign: bool,
    ) -> Lit
        requires flow { flow < self.now.flow_count }
        requires exists { exists_in self.now.size cell at ≡ true }
        ensures value { result ≡ sheet_literal self.now.size flow cell at span sign }
        ensures below { is_below (plan_vars self.now) result ≡ true }
    {
        literal(
            self.sheet_var(flow, sheet_number(at.0, span), low_of(cell, at)),
            sign,
        )
    }
}
