// A job, a diagram and sheets from the bytes of their document.
ghost use Rattle.std.specs.Prelude.{◌≡◌, ◌≢◌, ◌&&◌, IfOk, IfErr, Ok, Err, is_none};
ghost use Rattle.serde_json.specs.View.{view};
ghost use Rattle.serde_json.specs.Find.{get};
ghost use Rattle.lasre_codec.specs.declared.refusal.LasreRefused.TheVariants.{Memory};
ghost use Rattle.lasre_codec.specs.Members.{is_needed, member_name};
ghost use Rattle.lasre_codec.specs.Kept.{AreKept};
ghost use Rattle.lasre_codec.specs.Documents.{IsLasre, is_full, given_for, lasre_as, lasre_in, lasre_of, missing_in, of_job, wrong_length_in};

use crate::bits::first_bad;
use crate::build::build_diagram;
use crate::entries::read_grids;
use crate::member::{GRIDS, MEMBERS, Member};
use crate::refusal::LasreRefused;
use crate::sheets::build_sheets;
use grid_box::{Diagram, Sheets};
use json_shape::{Entry, has_lengths, read_json};
use las_spec::{Job, SpecRefused};
use serde_json::Value;
use spec_codec::read_job;
use std::alloc::Global;

/// A job, a diagram in a box of its size, and the sheets of each of its flows.
#[derive(Drop)]
pub struct Lasre {
    pub job: Job,
    pub diagram: Diagram,
    pub sheets: Sheets,
}

// Whether the member is needed, and absent.
fn is_missing(value: &Value, member: Member) -> bool
    ensures { result ≡ (is_needed member && is_none (get (member_name member) (view value.now))) }
{
    member != Member::Optional && value.get(member.name()).is_none()
}

fn missing(value: &Value) -> Option<Member>
    ensures { result ≡ missing_in (view value.now) }
{
    MEMBERS
        .iter()
        .copied()
        .find(|member| is_missing(value, *member))
}

// Whether a grid has the lengths that its job asks for.
fn is_full(job: &Job, value: &Value, member: Member) -> bool
    ensures { result ≡ is_full job.now (view value.now) member }
{
    let size = job.size();
    let flows = job.flows().len() as u32;
    match value.get(member.name()) {
        Some(grid) if member.is_stack() => has_lengths(grid, &[flows, size.i, size.j, size.k]),
        Some(grid) => has_lengths(grid, &[size.i, size.j, size.k]),
        None => false,
    }
}

fn wrong_length(job: &Job, value: &Value) -> Option<Member>
    ensures { result ≡ wrong_length_in job.now (view value.now) }
{
    GRIDS
        .iter()
        .copied()
        .find(|member| !is_full(job, value, *member))
}

// The refusal of a job, in a document of a diagram.
fn of_job(refusal: SpecRefused) -> LasreRefused
    ensures { result ≡ of_job refusal }
{
    match refusal {
        SpecRefused::Shape(field) => LasreRefused::Shape(Member::of(field)),
        SpecRefused::Memory => LasreRefused::Memory,
        other => LasreRefused::OfJob(other),
    }
}

// What the grids give, for a job: a refusal of a length, then of an entry that is neither 0 nor 1.
fn build(
    alloc: Global,
    job: Job,
    value: &Value,
    grids: &[Vec<Entry>],
) -> Result<Lasre, LasreRefused>
    requires { AreKept (view value.now) grids.now }
    ensures ok { IfOk result (λ l. given_for job (view value.now) ≡ Ok (lasre_as l.job l.diagram l.sheets)) }
    ensures fits { IfOk result (λ l. IsLasre (lasre_as l.job l.diagram l.sheets)) }
    ensures err { IfErr result (λ e. e ≢ Memory → given_for job (view value.now) ≡ Err e) }
{
    if let Some(member) = wrong_length(&job, value) {
        return Err(LasreRefused::Length(member));
    }
    let size = job.size();
    if let Some(refusal) = first_bad(grids, size.volume() as usize) {
        return Err(refusal);
    }
    let diagram = build_diagram(alloc, size, grids)?;
    let sheets = build_sheets(alloc, size, job.flows().len(), grids)?;
    Ok(Lasre {
        job,
        diagram,
        sheets,
    })
}

#[tactic(auto, unfolding(crate::specs::Documents::lasre_in))]
fn read_value(alloc: Global, value: &Value) -> Result<Lasre, LasreRefused>
    ensures ok { IfOk result (λ l. lasre_in (view value.now) ≡ Ok (lasre_as l.job l.diagram l.sheets)) }
    ensures fits { IfOk result (λ l. IsLasre (lasre_as l.job l.diagram l.sheets)) }
    ensures err { IfErr result (λ e. e ≢ Memory → lasre_in (view value.now) ≡ Err e) }
{
    if !value.is_object() {
        return Err(LasreRefused::NotObject);
    }
    if let Some(member) = missing(value) {
        return Err(LasreRefused::Missing(member));
    }
    let grids = read_grids(alloc, value)?;
    match read_job(alloc, value) {
        Ok(job) => build(alloc, job, value, &grids),
        Err(refusal) => Err(of_job(refusal)),
    }
}

/// The job, the diagram and the sheets that a document gives, or its first refusal. No sheet is of a pipe that
/// does not exist.
#[tactic(auto, unfolding(crate::specs::Documents::lasre_of))]
pub fn read_lasre(alloc: Global, bytes: &[u8]) -> Result<Lasre, LasreRefused>
    ensures ok { IfOk result (λ l. lasre_of bytes.now ≡ Ok (lasre_as l.job l.diagram l.sheets)) }
    ensures fits { IfOk result (λ l. IsLasre (lasre_as l.job l.diagram l.sheets)) }
    ensures err { IfErr result (λ e. e ≢ Memory → lasre_of bytes.now ≡ Err e) }
{
    match read_json(alloc, bytes)? {
        Some(value) => read_value(alloc, &value),
        None => Err(LasreRefused::NotJson),
    }
}
