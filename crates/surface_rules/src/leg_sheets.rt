// The sheets of a flow in the legs of a cell.
ghost use Rattle.std.specs.Prelude.{◌≡◌, not, count_by};
ghost use Rattle.std.specs.List.{list_all, zip};
ghost use Rattle.las_base.specs.Axes.{axes, third_axis};
ghost use Rattle.las_base.specs.Cells.{IsOnGrid, same_cell};
ghost use Rattle.las_base.specs.declared.Kind.{Kind};
ghost use Rattle.grid_box.specs.PipeRules.{◌==>◌};
ghost use Rattle.grid_box.specs.Sheets.{agree, is_odd, all_or_none};
ghost use Rattle.grid_box.specs.Surfaces.{sheets_of};
ghost use Rattle.surface_rules.specs.LegSheets.{leg_low_cell, leg_spans, leg_spells, leg_matches, legs_spanning, legs_beside, legs_join};

use grid_box::{Leg, Sheets, has_leg_along};
use las_base::{Axis, Cell, End, Kind, Pauli, Port, Way};

/// The sheets of a flow, seen from a cell.
#[derive(Clone, Copy)]
pub(crate) struct LegSheets<'a> {
    pub(crate) sheets: &'a Sheets,
    pub(crate) flow: usize,
    pub(crate) cell: Cell,
}

impl<'a> LegSheets<'a> {
    // Whether the leg has the sheet that spans the axis.
    fn spans(self, leg: Leg, span: Axis) -> bool
        requires { IsOnGrid self.cell }
        ensures { result ≡ leg_spans (sheets_of self.entry.sheets.now self.entry.flow) self.entry.cell leg span }
    {
        match low_cell(leg, self.cell) {
            Some(low) => self.sheets.has(self.flow, leg.axis, low, span),
            None => false,
        }
    }

    // Whether the leg's sheets spell the letter.
    fn spells(self, leg: Leg, z_axis: Axis, letter: Pauli) -> bool
        requires { IsOnGrid self.cell }
        ensures { result ≡ leg_spells (sheets_of self.entry.sheets.now self.entry.flow) self.entry.cell z_axis letter leg }
    {
        self.spans(leg, z_axis) == letter.has_part(Kind::Z)
            && self.spans(leg, leg.axis.third(z_axis)) == letter.has_part(Kind::X)
    }

    // Whether the sheets of each leg spell the letter.
    fn spell(self, legs: &[Leg], z_axis: Axis, letter: Pauli) -> bool
        requires { IsOnGrid self.cell }
        ensures { result ≡ list_all (leg_spells (sheets_of self.entry.sheets.now self.entry.flow) self.entry.cell z_axis letter) legs.now }
    {
        legs.iter().all(|leg| self.spells(*leg, z_axis, letter))
    }

    // Whether a port is at another cell, or the sheets of each leg spell its letter.
    fn spell_at(self, legs: &[Leg], port: Port, letter: Pauli) -> bool
        requires { IsOnGrid self.cell }
        ensures { result ≡ (same_cell port.place self.entry.cell ==> list_all (leg_spells (sheets_of self.entry.sheets.now self.entry.flow) self.entry.cell port.z_axis letter) legs.now) }
    {
        port.place != self.cell || self.spell(legs, port.z_axis, letter)
    }

    /// Whether the sheets of each leg spell the letter of each port at the cell.
    pub(crate) fn spell_word(self, legs: &[Leg], ports: &[Port], word: &[Pauli]) -> bool
        requires { IsOnGrid self.cell }
        ensures { result ≡ list_all (λ x. same_cell x.0.place self.entry.cell ==> list_all (leg_spells (sheets_of self.entry.sheets.now self.entry.flow) self.entry.cell x.0.z_axis x.1) legs.now) (zip ports.now word.now) }
    {
        ports
            .iter()
            .zip(word)
            .all(|(port, letter)| self.spell_at(legs, *port, *letter))
    }

    /// Whether each leg has both the sheets that a leg along K may have, or none.
    pub(crate) fn match_on_y(self, legs: &[Leg]) -> bool
        requires { IsOnGrid self.cell }
        ensures { result ≡ list_all (leg_matches (sheets_of self.entry.sheets.now self.entry.flow) self.entry.cell) legs.now }
    {
        legs.iter().all(|leg| self.spans(*leg, Axis::I) == self.spans(*leg, Axis::J))
    }

    // How many legs have the sheet that spans the axis.
    fn count_spanning(self, legs: &[Leg], axis: Axis) -> usize
        requires { IsOnGrid self.cell }
        ensures { result ≡ count_by (λ l. leg_spans (sheets_of self.entry.sheets.now self.entry.flow) self.entry.cell l axis) legs.now }
    {
        legs.iter().filter(|leg| self.spans(**leg, axis)).count()
    }

    // Whether the sheets that span the axis are even in number.
    #[tactic(auto, using(crate::proofs::JoinLemmas::even_count))]
    fn are_even(self, legs: &[Leg], axis: Axis) -> bool
        requires { IsOnGrid self.cell }
        ensures { result ≡ not (is_odd (legs_spanning (sheets_of self.entry.sheets.now self.entry.flow) self.entry.cell axis legs.now)) }
    {
        self.count_spanning(legs, axis) % 2 == 0
    }

    // Whether the leg has the sheet that does not span the axis.
    fn has_other(self, leg: Leg, axis: Axis) -> bool
        requires { IsOnGrid self.cell }
        ensures { result ≡ leg_spans (sheets_of self.entry.sheets.now self.entry.flow) self.entry.cell leg (third_axis leg.axis axis) }
    {
        self.spans(leg, leg.axis.third(axis))
    }

    // Whether the sheet that does not span the axis is there in each leg, or in none, as is asked.
    fn all_agree(self, legs: &[Leg], axis: Axis, there: bool) -> bool
        requires { IsOnGrid self.cell }
        ensures { result ≡ list_all (λ l. agree there (leg_spans (sheets_of self.entry.sheets.now self.entry.flow) self.entry.cell l (third_axis l.axis axis))) legs.now }
    {
        legs.iter().all(|leg| self.has_other(*leg, axis) == there)
    }

    // Whether all legs have the sheet that does not span the axis, or none has.
    #[tactic(auto, using(crate::proofs::JoinLemmas::all_or_no))]
    fn go_through(self, legs: &[Leg], axis: Axis) -> bool
        requires { IsOnGrid self.cell }
        ensures { result ≡ all_or_none (legs_beside (sheets_of self.entry.sheets.now self.entry.flow) self.entry.cell axis legs.now) }
    {
        self.all_agree(legs, axis, true) || self.all_agree(legs, axis, false)
    }

    // Whether a leg is along the axis, or the sheets join on it.
    fn join_on(self, legs: &[Leg], axis: Axis) -> bool
        requires { IsOnGrid self.cell }
        ensures { result ≡ legs_join (sheets_of self.entry.sheets.now self.entry.flow) self.entry.cell legs.now axis }
    {
        has_leg_along(legs, axis) || (self.are_even(legs, axis) && self.go_through(legs, axis))
    }

    /// Whether the sheets join on each axis with no leg.
    pub(crate) fn join(self, legs: &[Leg]) -> bool
        requires { IsOnGrid self.cell }
        ensures { result ≡ list_all (legs_join (sheets_of self.entry.sheets.now self.entry.flow) self.entry.cell legs.now) axes }
    {
        self.join_on(legs, Axis::I) && self.join_on(legs, Axis::J) && self.join_on(legs, Axis::K)
    }
}

// The low cell of the pipe of a leg that stands at a cell.
fn low_cell(leg: Leg, cell: Cell) -> Option<Cell>
    requires { IsOnGrid cell }
    ensures { result ≡ leg_low_cell cell leg }
{
    match leg.which {
        End::Low => Some(cell),
        End::High => cell.step(leg.axis, Way::Minus),
    }
}
