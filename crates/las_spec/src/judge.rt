// The table of refusals over what is written, row by row.
ghost use Rattle.std.specs.Prelude.{◌≡◌, ◌<◌, not, nat_eq, ◌&&◌, map, length, option_map, position, is_none, []};
ghost use Rattle.std.specs.List.{list_any};
ghost use Rattle.las_base.specs.Cells.{holds, same_cell};
ghost use Rattle.las_base.specs.Jobs.{within_limits};
ghost use Rattle.las_spec.specs.Written.{written_as};
ghost use Rattle.las_spec.specs.Refusals.{first_of, is_count, has_bad_basis, fits_at, first_repeat, first_bad_letter, carried_coordinate, carried, first_bad_port, first_bad_box, port_refusals, flow_refusals, job_refusal, refusal};
ghost use Rattle.las_spec.specs.declared.refusal.SpecRefused.TheVariants.{SizeOut, PortCount, PortWay, PortBasis, PortPlace, PortTwice, FlowCount, FlowLength, FlowLetter, ForbiddenPlace, BoxCount, BoxSize, BoxPort};

use crate::SpecRefused;
use crate::draft::{Draft, WrittenPort};
use las_base::{Axis, Cell, MOST_BOXES, MOST_FLOWS, MOST_PORTS, Pauli, Port, Size};

fn is_count(most: usize, n: usize) -> bool
    ensures { result ≡ is_count most n }
{
    (1..=most).contains(&n)
}

fn first_without_way(ports: &[WrittenPort]) -> Option<usize>
    ensures { result ≡ position (λ p. is_none p.direction) ports.now }
{
    ports.iter().position(|port| port.direction.is_none())
}

// Whether the z axis is none, or is the port's own axis.
fn has_bad_basis(port: WrittenPort) -> bool
    ensures { result ≡ has_bad_basis port }
{
    match (port.z_axis, port.direction) {
        (Some(z_axis), Some((_, axis))) => axis == z_axis,
        (Some(_), None) => false,
        (None, _) => true,
    }
}

fn first_bad_basis(ports: &[WrittenPort]) -> Option<usize>
    ensures { result ≡ position has_bad_basis ports.now }
{
    ports.iter().position(|port| has_bad_basis(*port))
}

// Whether the port's pipe would have its low cell in the box, if the port stood at this place. The z axis has
// no part in it.
fn fits_at(size: Size, port: WrittenPort, place: Cell) -> bool
    ensures { result ≡ fits_at size port place }
{
    match port.direction {
        Some((way, axis)) => {
            let z_axis = axis;
            let moved = Port {
                place,
                axis,
                way,
                z_axis,
            };
            moved.fits(size)
        }
        None => false,
    }
}

fn first_misplaced(size: Size, ports: &[WrittenPort]) -> Option<usize>
    ensures { result ≡ position (λ p. not (fits_at size p p.place)) ports.now }
{
    ports
        .iter()
        .position(|port| !fits_at(size, *port, port.place))
}

fn first_at(ports: &[WrittenPort], place: Cell) -> Option<usize>
    ensures { result ≡ position (λ p. same_cell place p.place) ports.now }
{
    ports.iter().position(|port| place == port.place)
}

// The first port whose place is that of a port before it, with the first such port.
fn first_repeat(ports: &[WrittenPort]) -> Option<(usize, usize)>
    ensures { result ≡ first_repeat [] 0 (map (λ p. p.place) ports.now) }
{
    for m in 0..ports.len() {
        if let Some(n) = first_at(&ports[..m], ports[m].place) {
            return Some((m, n));
        }
    }
    None
}

fn first_wrong_length(ports: usize, words: &[Vec<Option<Pauli>>]) -> Option<usize>
    ensures { result ≡ position (λ v. not (nat_eq (length v.items) ports)) words.now }
{
    words.iter().position(|word| word.len() != ports)
}

fn first_none(word: &[Option<Pauli>]) -> Option<usize>
    ensures { result ≡ position is_none word.now }
{
    word.iter().position(|letter| letter.is_none())
}

fn first_bad_letter(words: &[Vec<Option<Pauli>>]) -> Option<(usize, usize)>
    ensures { result ≡ first_bad_letter 0 (map (λ v. v.items) words.now) }
{
    for n in 0..words.len() {
        if let Some(p) = first_none(&words[n]) {
            return Some((n, p));
        }
    }
    None
}

fn first_outside(size: Size, cells: &[Cell]) -> Option<usize>
    ensures { result ≡ position (λ c. not (holds size c)) cells.now }
{
    cells.iter().position(|cell| !size.holds(*cell))
}

fn first_out_of_limits(boxes: &[Size]) -> Option<usize>
    ensures { result ≡ position (λ box. not (within_limits box)) boxes.now }
{
    boxes.iter().position(|size| !size.is_within_limits())
}

fn carried_coordinate(own: u32, side: u32, n: u32) -> u32
    ensures { result ≡ carried_coordinate own side n }
{
    if n == own { side } else { n }
}

// A place of a specification of one size, carried to a box of another.
pub(crate) fn carried(own: Size, size: Size, place: Cell) -> Cell
    ensures { result ≡ carried own size place }
{
    Cell {
        i: carried_coordinate(own.i, size.i, place.i),
        j: carried_coordinate(own.j, size.j, place.j),
        k: carried_coordinate(own.k, size.k, place.k),
    }
}

fn is_carried_to(own: Size, size: Size, ports: &[WrittenPort], place: Cell) -> bool
    ensures { result ≡ list_any (λ p. same_cell place (carried own size p.place)) ports.now }
{
    ports
        .iter()
        .any(|port| place == carried(own, size, port.place))
}

// Whether a port, carried to a box, is in order there and apart from those before it.
fn keeps_order(own: Size, size: Size, before: &[WrittenPort], port: WrittenPort) -> bool
    ensures { result ≡ (fits_at size port (carried own size port.place) && not (list_any (λ p. same_cell (carried own size port.place) (carried own size p.place)) before.now)) }
{
    let place = carried(own, size, port.place);
    fits_at(size, port, place) && !is_carried_to(own, size, before, place)
}

fn first_bad_port(own: Size, size: Size, ports: &[WrittenPort]) -> Option<usize>
    ensures { result ≡ first_bad_port own size [] 0 ports.now }
{
    for n in 0..ports.len() {
        if !keeps_order(own, size, &ports[..n], ports[n]) {
            return Some(n);
        }
    }
    None
}

fn first_bad_box(own: Size, ports: &[WrittenPort], boxes: &[Size]) -> Option<(usize, usize)>
    ensures { result ≡ first_bad_box own ports.now 0 boxes.now }
{
    for n in 0..boxes.len() {
        if let Some(p) = first_bad_port(own, boxes[n], ports) {
            return Some((n, p));
        }
    }
    None
}

fn port_refusal(size: Size, ports: &[WrittenPort]) -> Option<SpecRefused>
    ensures { result ≡ first_of (port_refusals size ports.now) }
{
    if !is_count(MOST_PORTS, ports.len()) {
        return Some(SpecRefused::PortCount);
    }
    if let Some(n) = first_without_way(ports) {
        return Some(SpecRefused::PortWay(n));
    }
    if let Some(n) = first_bad_basis(ports) {
        return Some(SpecRefused::PortBasis(n));
    }
    if let Some(n) = first_misplaced(size, ports) {
        return Some(SpecRefused::PortPlace(n));
    }
    if let Some((later, earlier)) = first_repeat(ports) {
        return Some(SpecRefused::PortTwice(earlier, later));
    }
    None
}

fn flow_refusal(ports: &[WrittenPort], words: &[Vec<Option<Pauli>>]) -> Option<SpecRefused>
    ensures { result ≡ first_of (flow_refusals (length ports.now) (map (λ v. v.items) words.now)) }
{
    if !is_count(MOST_FLOWS, words.len()) {
        return Some(SpecRefused::FlowCount);
    }
    if let Some(n) = first_wrong_length(ports.len(), words) {
        return Some(SpecRefused::FlowLength(n));
    }
    if let Some((n, p)) = first_bad_letter(words) {
        return Some(SpecRefused::FlowLetter(n, p));
    }
    None
}

/// The first refusal of a job that is written.
#[tactic(auto, unfolding(crate::specs::Refusals::job_refusal))]
pub(crate) fn job_refusal(draft: &Draft) -> Option<SpecRefused>
    ensures { result ≡ job_refusal (written_as draft.now) }
{
    if !draft.size.is_within_limits() {
        return Some(SpecRefused::SizeOut);
    }
    if let Some(refusal) = port_refusal(draft.size, &draft.ports) {
        return Some(refusal);
    }
    if let Some(refusal) = flow_refusal(&draft.ports, &draft.words) {
        return Some(refusal);
    }
    if let Some(n) = first_outside(draft.size, &draft.forbidden) {
        return Some(SpecRefused::ForbiddenPlace(n));
    }
    None
}

/// The first refusal of a specification that is written. Those of a job come first.
#[tactic(auto, unfolding(crate::specs::Refusals::refusal))]
pub(crate) fn refusal(draft: &Draft) -> Option<SpecRefused>
    ensures { result ≡ refusal (written_as draft.now) }
{
    if let Some(refusal) = job_refusal(draft) {
        return Some(refusal);
    }
    if !is_count(MOST_BOXES, draft.boxes.len()) {
        return Some(SpecRefused::BoxCount);
    }
    if let Some(n) = first_out_of_limits(&draft.boxes) {
        return Some(SpecRefused::BoxSize(n));
    }
    if let Some((n, p)) = first_bad_box(draft.size, &draft.ports, &draft.boxes) {
        return Some(SpecRefused::BoxPort(n, p));
    }
    None
}
