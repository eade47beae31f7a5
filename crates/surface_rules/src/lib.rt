//! The rules of sheets, S1 to S3: whether the sheets of a flow keep them in a diagram, or the first breach.
//! Each rule is a small test of one cell that answers exactly its definition; one scan of the cells finds
//! where it first fails. Nothing takes memory.
#![tactic(auto)]

ghost use Rattle.std.specs.Prelude.{◌≡◌, ◌<◌, [], length, slice_index_or};
ghost use Rattle.las_base.specs.Cells.{IsOnGrid};
ghost use Rattle.grid_box.specs.Sheets.{sheet_breach};
ghost use Rattle.grid_box.specs.Surfaces.{sheets_of};
ghost use Rattle.surface_rules.specs.Rules.{keeps};

pub mod laws;
mod leg_sheets;
mod rules;

use grid_box::{Broken, Diagram, Sheets, first_breach};
use las_base::Cell;
use las_spec::Job;
use rules::{ports_spell, sheets_join, y_sheets_match};

/// A rule of sheets.
#[derive(Clone, Copy, PartialEq, Eq, Debug)]
enum Rule {
    PortsSpell,
    YSheetsMatch,
    SheetsJoin,
}

// The rules by their numbers.
const RULES: [(u8, Rule); 3] = [
    (1, Rule::PortsSpell),
    (2, Rule::YSheetsMatch),
    (3, Rule::SheetsJoin),
];

// Whether a rule holds at a cell.
fn keeps(rule: Rule, job: &Job, diagram: &Diagram, sheets: &Sheets, flow: usize, cell: Cell) -> bool
    requires flow { flow < length job.now.flows }
    requires near { IsOnGrid cell }
    ensures { result ≡ keeps rule job.now diagram.now (sheets_of sheets.now flow) (slice_index_or job.now.flows flow []) cell }
{
    match rule {
        Rule::PortsSpell => ports_spell(job, diagram, sheets, flow, cell),
        Rule::YSheetsMatch => y_sheets_match(job, diagram, sheets, flow, cell),
        Rule::SheetsJoin => sheets_join(job, diagram, sheets, flow, cell),
    }
}

/// The first breach of the rules of sheets for one flow: of the least rule, and among these at the least
/// cell.
pub fn first_bad_sheet(job: &Job, diagram: &Diagram, sheets: &Sheets, flow: usize) -> Option<Broken>
    requires size { diagram.now.size ≡ job.now.size }
    requires flow { flow < length job.now.flows }
    ensures { result ≡ sheet_breach job.now diagram.now (sheets_of sheets.now flow) (slice_index_or job.now.flows flow []) }
{
    first_breach(&RULES, diagram.size(), |rule, cell| {
        keeps(rule, job, diagram, sheets, flow, cell)
    })
}

#[cfg(test)]
mod tests;
