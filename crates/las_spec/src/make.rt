// Specifications and jobs, made of their parts or refused.
ghost use Rattle.std.specs.Prelude.{◌≡◌, ◌≢◌, map, None, Some, IfOk, IfErr, Ok, Err, []};
ghost use Rattle.std.specs.List.{filter_map};
ghost use Rattle.las_base.specs.Cells.{same_cell, same_size};
ghost use Rattle.las_spec.specs.Written.{port_written, written_as, written_by};
ghost use Rattle.las_spec.specs.Refusals.{job_refusal, refusal};
ghost use Rattle.las_spec.specs.Briefs.{once, port_of, letters_of, task_written, brief_written, spec_given, job_given};
ghost use Rattle.las_spec.specs.declared.refusal.SpecRefused.TheVariants.{Memory};

use crate::draft::{Draft, WrittenPort};
use crate::judge::{job_refusal, refusal};
use crate::{FlowWord, Job, Spec, SpecRefused};
use indexmap::IndexSet;
use las_base::{Cell, Pauli, Port, Size};
use std::alloc::{AllocError, Global};

fn port_of(port: WrittenPort) -> Option<Port>
    ensures { result ≡ port_of port }
{
    let (way, axis) = port.direction?;
    let z_axis = port.z_axis?;
    Some(Port {
        place: port.place,
        axis,
        way,
        z_axis,
    })
}

fn ports_of(alloc: Global, ports: &[WrittenPort]) -> Result<Vec<Port>, AllocError>
    ensures { IfOk result (λ v. v.items ≡ filter_map port_of ports.now) }
{
    ports
        .iter()
        .filter_map(|port| port_of(*port))
        .collect(alloc)
}

fn letters_of(alloc: Global, word: &[Option<Pauli>]) -> Result<Vec<Pauli>, AllocError>
    ensures { IfOk result (λ v. v.items ≡ letters_of word.now) }
{
    word.iter().filter_map(|letter| *letter).collect(alloc)
}

fn flows_of(alloc: Global, words: &[Vec<Option<Pauli>>]) -> Result<Vec<FlowWord>, AllocError>
    ensures { IfOk result (λ v. v.items ≡ map letters_of (map (λ w. w.items) words.now)) }
{
    let mut flows = Vec::new(alloc);
    for word in words {
        flows.push(FlowWord::new(letters_of(alloc, word)?))?;
    }
    Ok(flows)
}

fn cells_once(alloc: Global, cells: &[Cell]) -> Result<Vec<Cell>, AllocError>
    ensures { IfOk result (λ v. v.items ≡ once same_cell [] cells.now) }
{
    let mut seen = IndexSet::new(alloc);
    for cell in cells {
        seen.insert(*cell)?;
    }
    Vec::from_slice(alloc, seen.as_slice())
}

fn sizes_once(alloc: Global, sizes: &[Size]) -> Result<IndexSet<Size>, AllocError>
    ensures { IfOk result (λ s. s.keys ≡ once same_size [] sizes.now) }
{
    let mut seen = IndexSet::new(alloc);
    for size in sizes {
        seen.insert(*size)?;
    }
    Ok(seen)
}

fn job_of_draft(alloc: Global, draft: &Draft) -> Result<Job, AllocError>
    requires { job_refusal (written_as draft.now) ≡ None }
    ensures { IfOk result (λ j. j ≡ task_written (written_as draft.now)) }
{
    let ports = ports_of(alloc, &draft.ports)?;
    let flows = flows_of(alloc, &draft.words)?;
    let forbidden = cells_once(alloc, &draft.forbidden)?;
    Ok(Job::new(draft.size, ports, flows, forbidden))
}

fn spec_of_draft(alloc: Global, draft: &Draft) -> Result<Spec, AllocError>
    requires { refusal (written_as draft.now) ≡ None }
    ensures { IfOk result (λ s. s ≡ brief_written (written_as draft.now)) }
{
    let job = job_of_draft(alloc, draft)?;
    let boxes = sizes_once(alloc, &draft.boxes)?;
    Ok(Spec::new(job, boxes))
}

/// The job that a draft writes, or its first refusal. Its boxes play no part.
pub fn job_from(alloc: Global, draft: &Draft) -> Result<Job, SpecRefused>
    ensures ok { IfOk result (λ j. job_given (written_as draft.now) ≡ Ok j) }
    ensures err { IfErr result (λ e. e ≢ Memory → job_given (written_as draft.now) ≡ Err e) }
{
    match job_refusal(draft) {
        Some(refused) => Err(refused),
        None => match job_of_draft(alloc, draft) {
            Ok(job) => Ok(job),
            Err(AllocError) => Err(SpecRefused::Memory),
        },
    }
}

/// The specification that a draft writes, or its first refusal.
pub fn spec_from(alloc: Global, draft: Draft) -> Result<Spec, SpecRefused>
    ensures ok { IfOk result (λ s. spec_given (written_as draft) ≡ Ok s) }
    ensures err { IfErr result (λ e. e ≢ Memory → spec_given (written_as draft) ≡ Err e) }
{
    match refusal(&draft) {
        Some(refused) => Err(refused),
        None => match spec_of_draft(alloc, &draft) {
            Ok(spec) => Ok(spec),
            Err(AllocError) => Err(SpecRefused::Memory),
        },
    }
}

fn port_written(port: Port) -> WrittenPort
    ensures { result ≡ port_written port }
{
    WrittenPort {
        place: port.place,
        direction: Some((port.way, port.axis)),
        z_axis: Some(port.z_axis),
    }
}

fn ports_written(alloc: Global, ports: &[Port]) -> Result<Vec<WrittenPort>, AllocError>
    ensures { IfOk result (λ v. v.items ≡ map port_written ports.now) }
{
    ports.iter().map(|port| port_written(*port)).collect(alloc)
}

fn letters_written(alloc: Global, letters: &[Pauli]) -> Result<Vec<Option<Pauli>>, AllocError>
    ensures { IfOk result (λ v. v.items ≡ map Some letters.now) }
{
    letters.iter().map(|letter| Some(*letter)).collect(alloc)
}

fn words_written(alloc: Global, flows: &[FlowWord]) -> Result<Vec<Vec<Option<Pauli>>>, AllocError>
    ensures { IfOk result (λ v. map (λ w. w.items) v.items ≡ map (map Some) flows.now) }
{
    let mut words = Vec::new(alloc);
    for flow in flows {
        words.push(letters_written(alloc, flow.letters())?)?;
    }
    Ok(words)
}

fn draft_by(
    alloc: Global,
    size: Size,
    ports: &[Port],
    flows: &[FlowWord],
    forbidden: &[Cell],
    boxes: &[Size],
) -> Result<Draft, AllocError>
    ensures { IfOk result (λ d. written_as d ≡ written_by size ports.now flows.now forbidden.now boxes.now) }
{
    Ok(Draft {
        size,
        ports: ports_written(alloc, ports)?,
        words: words_written(alloc, flows)?,
        forbidden: Vec::from_slice(alloc, forbidden)?,
        boxes: Vec::from_slice(alloc, boxes)?,
    })
}

/// The specification of these parts, or the first refusal of the table that holds. The types of the parts
/// hold no wrong direction and no wrong letter.
pub fn make_spec(
    alloc: Global,
    size: Size,
    ports: &[Port],
    flows: &[FlowWord],
    forbidden: &[Cell],
    boxes: &[Size],
) -> Result<Spec, SpecRefused>
    ensures ok { IfOk result (λ s. spec_given (written_by size ports.now flows.now forbidden.now boxes.now) ≡ Ok s) }
    ensures err { IfErr result (λ e. e ≢ Memory → spec_given (written_by size ports.now flows.now forbidden.now boxes.now) ≡ Err e) }
{
    match draft_by(alloc, size, ports, flows, forbidden, boxes) {
        Ok(draft) => spec_from(alloc, draft),
        Err(AllocError) => Err(SpecRefused::Memory),
    }
}

/// The job of these parts, by the same table without its rows on boxes.
pub fn make_job(
    alloc: Global,
    size: Size,
    ports: &[Port],
    flows: &[FlowWord],
    forbidden: &[Cell],
) -> Result<Job, SpecRefused>
    ensures ok { IfOk result (λ j. job_given (written_by size ports.now flows.now forbidden.now []) ≡ Ok j) }
    ensures err { IfErr result (λ e. e ≢ Memory → job_given (written_by size ports.now flows.now forbidden.now []) ≡ Err e) }
{
    match draft_by(alloc, size, ports, flows, forbidden, &[]) {
        Ok(draft) => job_from(alloc, &draft),
        Err(AllocError) => Err(SpecRefused::Memory),
    }
}
