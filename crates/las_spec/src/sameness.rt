// Whether two jobs are one.
ghost use Rattle.std.specs.Prelude.{◌≡◌};
ghost use Rattle.std.specs.List.{list_all, list_any};
ghost use Rattle.las_base.specs.Axes.{same_pauli};
ghost use Rattle.las_base.specs.Cells.{same_cell};
ghost use Rattle.las_base.specs.Jobs.{same_cells, same_job, same_list, same_port};

use crate::{FlowWord, Job};
use las_base::{Cell, Pauli, Port};

fn same_port(port: Port, other: Port) -> bool
    ensures { result ≡ same_port port other }
{
    port == other
}

fn same_pauli(letter: Pauli, other: Pauli) -> bool
    ensures { result ≡ same_pauli letter other }
{
    letter == other
}

fn same_ports(ports: &[Port], others: &[Port]) -> bool
    ensures { result ≡ same_list same_port ports.now others.now }
{
    match (ports, others) {
        ([], []) => true,
        ([port, ports @ ..], [other, others @ ..]) => {
            same_port(*port, *other) && same_ports(ports, others)
        }
        _ => false,
    }
}

fn same_letters(letters: &[Pauli], others: &[Pauli]) -> bool
    ensures { result ≡ same_list same_pauli letters.now others.now }
{
    match (letters, others) {
        ([], []) => true,
        ([letter, letters @ ..], [other, others @ ..]) => {
            same_pauli(*letter, *other) && same_letters(letters, others)
        }
        _ => false,
    }
}

fn same_flows(flows: &[FlowWord], others: &[FlowWord]) -> bool
    ensures { result ≡ same_list (same_list same_pauli) flows.now others.now }
{
    match (flows, others) {
        ([], []) => true,
        ([flow, flows @ ..], [other, others @ ..]) => {
            same_letters(flow.letters(), other.letters()) && same_flows(flows, others)
        }
        _ => false,
    }
}

fn has_cell(cells: &[Cell], cell: Cell) -> bool
    ensures { result ≡ list_any (same_cell cell) cells.now }
{
    cells.iter().any(|other| cell == *other)
}

// Whether the second list has each cell of the first.
fn has_all(cells: &[Cell], others: &[Cell]) -> bool
    ensures { result ≡ list_all (λ c. list_any (same_cell c) others.now) cells.now }
{
    cells.iter().all(|cell| has_cell(others, *cell))
}

fn same_cells(cells: &[Cell], others: &[Cell]) -> bool
    ensures { result ≡ same_cells cells.now others.now }
{
    has_all(cells, others) && has_all(others, cells)
}

/// Whether the jobs are one, where their forbidden cells are taken as sets.
pub fn same_job(job: &Job, other: &Job) -> bool
    ensures { result ≡ same_job job.now other.now }
{
    job.size() == other.size()
        && same_ports(job.ports(), other.ports())
        && same_flows(job.flows(), other.flows())
        && same_cells(job.forbidden(), other.forbidden())
}
