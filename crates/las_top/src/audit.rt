// The command `audit`: whether a document solves one of the listed boxes.
ghost use Rattle.std.specs.Prelude.{◌≡◌, ◌↔◌, ◌<◌, None, true, IfOk, IsOkAnd, IsErrOf, IsTrue};
ghost use Rattle.las_io.specs.Counts.{Rose};
ghost use Rattle.las_io.specs.Names.{is_lawful_name};
ghost use Rattle.las_io.specs.Shelves.{FilesStay};
ghost use Rattle.spec_codec.specs.Readings.{spec_of};
ghost use Rattle.lasre_codec.specs.Documents.{IsLasre, lasre_as};
ghost use Rattle.las_top.specs.Audit.{AnswersFile, AnswersSpec, first_unserved, audit_of, audit_answer};
ghost use Rattle.las_top.specs.Findings.{answer_by};
ghost use Rattle.las_top.specs.Headline.{HasSolution};
ghost use Rattle.las_top.specs.Shown.{ShowsListed, is_listed};
ghost use Rattle.las_top.specs.declared.run.Status.TheVariants.{Good};
ghost use Rattle.las_top.specs.Runs.{is_any};

use crate::check::first_breach;
use crate::finding::{FindRefused, Finding, Refusal};
use crate::run::MOST_BYTES;
use grid_box::Broken;
use las_io::{FetchRefused, Shelf, fetch_all};
use las_spec::{Job, Spec, SpecRefused, job, same_job};
use lasre_codec::{Lasre, LasreRefused, read_lasre};
use spec_codec::read_spec;
use std::alloc::{AllocError, Global};
use surface_rules::first_bad_sheet;

// Whether the job is that of a listed box.
fn is_listed(alloc: Global, spec: &Spec, other: &Job) -> Result<bool, AllocError>
    ensures { IfOk result (λ listed. listed ≡ is_listed spec.now other.now) }
{
    for number in 0..spec.box_count() {
        if same_job(&job(alloc, spec, number)?, other) {
            return Ok(true);
        }
    }
    Ok(false)
}

/// The first flow that its sheets do not serve, with the first breach of a rule of sheets.
pub(crate) fn first_unserved(lasre: &Lasre) -> Option<(usize, Broken)>
    requires { IsLasre (lasre_as lasre.now.job lasre.now.diagram lasre.now.sheets) }
    ensures { result ≡ first_unserved lasre.now.job lasre.now.diagram lasre.now.sheets 0 lasre.now.job.flows }
{
    for flow in 0..lasre.job.flows().len() {
        if let Some(broken) = first_bad_sheet(&lasre.job, &lasre.diagram, &lasre.sheets, flow) {
            return Some((flow, broken));
        }
    }
    None
}

// What is found of a job, a diagram and sheets.
fn audit_of(alloc: Global, spec: &Spec, lasre: &Lasre) -> Result<Finding, AllocError>
    requires { IsLasre (lasre_as lasre.now.job lasre.now.diagram lasre.now.sheets) }
    ensures { IfOk result (λ f. answer_by f ≡ audit_of spec.now (lasre_as lasre.now.job lasre.now.diagram lasre.now.sheets)) }
{
    if !is_listed(alloc, spec, &lasre.job)? {
        return Ok(Finding::OtherJob);
    }
    if let Some(broken) = first_breach(&lasre.job, &lasre.diagram) {
        return Ok(Finding::Breach(broken));
    }
    match first_unserved(lasre) {
        Some((flow, broken)) => Ok(Finding::Unserved(flow, broken)),
        None => Ok(Finding::Solves),
    }
}

// What is found of the bytes of a document, for a specification.
fn audit_bytes(alloc: Global, spec: &Spec, bytes: &[u8]) -> Result<Finding, AllocError>
    ensures answer { IfOk result (λ f. answer_by f ≡ audit_answer spec.now bytes.now) }
    ensures exact { IfOk result (λ f. ((answer_by f).status ≡ Good) ↔ ShowsListed spec.now bytes.now) }
    ensures solves { IfOk result (λ f. (answer_by f).status ≡ Good → HasSolution bytes.now) }
{
    match read_lasre(alloc, bytes) {
        Ok(lasre) => audit_of(alloc, spec, &lasre),
        Err(LasreRefused::Memory) => Err(AllocError),
        Err(refusal) => Ok(Finding::Refused(Refusal::Lasre(refusal))),
    }
}

// What is found of a file of the shelf, for a specification.
fn audit_file<H: Shelf>(
    alloc: Global,
    spec: &Spec,
    name: &str,
    shelf: &mut H,
) -> Result<Finding, FindRefused>
    requires lawful { IsTrue (is_lawful_name name.now) }
    requires none_begun { H.begun_name shelf.old ≡ None }
    ensures found { IfOk result (λ f. AnswersFile H.Shelf spec.now name.now shelf.old shelf.new (answer_by f)) }
    ensures shelf_fault { IsErrOf result FindRefused.ShelfFault → Rose (H.faults shelf.old) (H.faults shelf.new) }
    ensures rises { H.faults shelf.old < H.faults shelf.new → IsErrOf result FindRefused.ShelfFault }
    ensures no_read_fault { IsErrOf result FindRefused.ReadFault → ⊥ }
    ensures files { FilesStay (H.files shelf.old) (H.files shelf.new) }
    ensures begun { H.begun_name shelf.new ≡ None }
{
    match fetch_all(alloc, shelf, name, MOST_BYTES) {
        Ok(Some(bytes)) => Ok(audit_bytes(alloc, spec, &bytes)?),
        Ok(None) => Ok(Finding::Refused(Refusal::NoFile(String::from_str(alloc, name)?))),
        Err(FetchRefused::TooLong) => Ok(Finding::Refused(Refusal::LasreTooLong)),
        Err(FetchRefused::ShelfFault) => Err(FindRefused::ShelfFault),
        Err(FetchRefused::Memory) => Err(FindRefused::Memory),
    }
}

/// What `audit` finds of the document of a specification and of a file of the shelf.
pub(crate) fn audit<H: Shelf>(
    alloc: Global,
    bytes: &[u8],
    name: &str,
    shelf: &mut H,
) -> Result<Finding, FindRefused>
    requires lawful { IsTrue (is_lawful_name name.now) }
    requires none_begun { H.begun_name shelf.old ≡ None }
    ensures found { IfOk result (λ f. AnswersSpec H.Shelf name.now (spec_of bytes.now) shelf.old shelf.new (answer_by f)) }
    ensures shelf_fault { IsErrOf result FindRefused.ShelfFault → Rose (H.faults shelf.old) (H.faults shelf.new) }
    ensures rises { H.faults shelf.old < H.faults shelf.new → IsErrOf result FindRefused.ShelfFault }
    ensures asked { IsErrOf result FindRefused.ShelfFault → IsOkAnd (spec_of bytes.now) (λ b. is_any b ≡ true) }
    ensures no_read_fault { IsErrOf result FindRefused.ReadFault → ⊥ }
    ensures files { FilesStay (H.files shelf.old) (H.files shelf.new) }
    ensures begun { H.begun_name shelf.new ≡ None }
{
    match read_spec(alloc, bytes) {
        Ok(spec) => audit_file(alloc, &spec, name, shelf),
        Err(SpecRefused::Memory) => Err(FindRefused::Memory),
        Err(refusal) => Ok(Finding::Refused(Refusal::Spec(refusal))),
    }
}
