// The command `verify`: whether the log of a listed box refutes the box's clauses.
ghost use Rattle.std.specs.Prelude.{◌≡◌, ◌<◌, None, Some, false, true, IfOk, IsOkAnd, IsErrOf, IsTrue, MatchOption, slice_get};
ghost use Rattle.las_io.specs.Counts.{Rose};
ghost use Rattle.las_io.specs.Names.{is_lawful_name};
ghost use Rattle.las_io.specs.Shelves.{FilesStay};
ghost use Rattle.las_base.specs.Cells.{same_size};
ghost use Rattle.las_spec.specs.Briefs.{job_of};
ghost use Rattle.spec_codec.specs.Readings.{spec_of};
ghost use Rattle.cnf_base.specs.Literals.{IsRefuted};
ghost use Rattle.clause_log.specs.Pieces.{log_told};
ghost use Rattle.las_top.specs.Findings.{answer_by};
ghost use Rattle.las_top.specs.Verify.{AnswersBoxLog, AnswersListed, AnswersLogFile, AnswersSteps, AnswersVerify, lists_box};

use crate::finding::{FindRefused, Finding, Refusal};
use box_sweep::{clauses_of, log_name};
use clause_log::{FoundLog, StepReader, StepRefused, Steps, find_log};
use cnf_base::Formula;
use las_base::Size;
use las_io::Shelf;
use las_spec::{Job, Spec, SpecRefused, job};
use log_check::{Check, CheckRefused, check};
use spec_codec::read_spec;
use std::alloc::Global;

// What is found of the steps of a log, for a formula.
fn judge<T: Steps>(alloc: Global, formula: &Formula, steps: &mut T) -> Result<Finding, FindRefused>
    requires { T.failed steps.old ≡ false }
    ensures found { IfOk result (λ f. AnswersSteps formula.now (T.ahead steps.old) (answer_by f)) }
    ensures shelf_fault { IsErrOf result FindRefused.ShelfFault → Rose (T.faults steps.old) (T.faults steps.new) }
    ensures rises { T.faults steps.old < T.faults steps.new → IsErrOf result FindRefused.ShelfFault }
    ensures no_read_fault { IsErrOf result FindRefused.ReadFault → ⊥ }
    ensures goes_on { T.goes_on_from steps.new steps.old }
{
    match check(alloc, formula, steps) {
        Ok(Check::Accepted) => Ok(Finding::Accepted),
        Ok(Check::Rejected { line, why }) => Ok(Finding::Rejected(line, why)),
        Err(CheckRefused::TooLong) => Ok(Finding::Refused(Refusal::LogTooLong)),
        Err(CheckRefused::ShelfFault) => Err(FindRefused::ShelfFault),
        Err(CheckRefused::Memory) => Err(FindRefused::Memory),
    }
}

// What is found of a log that stands on the shelf, for a formula.
fn judge_log<H: Shelf>(
    alloc: Global,
    formula: &Formula,
    log: FoundLog,
    shelf: &mut H,
) -> Result<Finding, FindRefused>
    requires none_begun { H.begun_name shelf.old ≡ None }
    ensures found { IfOk result (λ f. AnswersSteps formula.now (log_told log (H.files shelf.old)) (answer_by f)) }
    ensures shelf_fault { IsErrOf result FindRefused.ShelfFault → Rose (H.faults shelf.old) (H.faults shelf.new) }
    ensures rises { H.faults shelf.old < H.faults shelf.new → IsErrOf result FindRefused.ShelfFault }
    ensures no_read_fault { IsErrOf result FindRefused.ReadFault → ⊥ }
    ensures files { FilesStay (H.files shelf.old) (H.files shelf.new) }
    ensures begun { H.begun_name shelf.new ≡ None }
{
    let mut steps = StepReader::new(shelf, log);
    let found = judge(alloc, formula, &mut steps);
    let _ = steps.into_shelf();
    found
}

// What is found of the log of this name, for a formula.
fn judge_file<H: Shelf>(
    alloc: Global,
    formula: &Formula,
    name: &str,
    shelf: &mut H,
) -> Result<Finding, FindRefused>
    requires lawful { IsTrue (is_lawful_name name.now) }
    requires none_begun { H.begun_name shelf.old ≡ None }
    ensures found { IfOk result (λ f. AnswersLogFile H.Shelf (IsRefuted formula.now.clauses) formula.now name.now shelf.old (answer_by f)) }
    ensures shelf_fault { IsErrOf result FindRefused.ShelfFault → Rose (H.faults shelf.old) (H.faults shelf.new) }
    ensures rises { H.faults shelf.old < H.faults shelf.new → IsErrOf result FindRefused.ShelfFault }
    ensures no_read_fault { IsErrOf result FindRefused.ReadFault → ⊥ }
    ensures files { FilesStay (H.files shelf.old) (H.files shelf.new) }
    ensures begun { H.begun_name shelf.new ≡ None }
{
    match find_log(alloc, shelf, name) {
        Ok(Some(log)) => judge_log(alloc, formula, log, shelf),
        Ok(None) => Ok(Finding::Refused(Refusal::NoFile(String::from_str(alloc, name)?))),
        Err(StepRefused::ShelfFault) => Err(FindRefused::ShelfFault),
        Err(StepRefused::Memory) => Err(FindRefused::Memory),
        Err(StepRefused::Malformed(_) | StepRefused::TooLong) => unreachable!(),
    }
}

// What is found of the log of a job's box.
fn judge_job<H: Shelf>(alloc: Global, job: &Job, shelf: &mut H) -> Result<Finding, FindRefused>
    requires none_begun { H.begun_name shelf.old ≡ None }
    ensures found { IfOk result (λ f. AnswersBoxLog H.Shelf job.now shelf.old (answer_by f)) }
    ensures shelf_fault { IsErrOf result FindRefused.ShelfFault → Rose (H.faults shelf.old) (H.faults shelf.new) }
    ensures rises { H.faults shelf.old < H.faults shelf.new → IsErrOf result FindRefused.ShelfFault }
    ensures no_read_fault { IsErrOf result FindRefused.ReadFault → ⊥ }
    ensures files { FilesStay (H.files shelf.old) (H.files shelf.new) }
    ensures begun { H.begun_name shelf.new ≡ None }
{
    let name = log_name(alloc, job.size())?;
    let (formula, _) = clauses_of(alloc, job)?;
    judge_file(alloc, &formula, &name, shelf)
}

fn same_size(size: Size, other: Size) -> bool
    ensures { result ≡ same_size size other }
{
    size == other
}

// The number of the box of this size, where it is listed.
fn number_of(spec: &Spec, size: Size) -> Option<usize>
    ensures { MatchOption result (lists_box size spec.now ≡ false) (λ n. slice_get spec.now.boxes n ≡ Some size) }
{
    for number in 0..spec.box_count() {
        if same_size(size, spec.box_at(number)) {
            return Some(number);
        }
    }
    None
}

// What is found for a specification.
fn verify_spec<H: Shelf>(
    alloc: Global,
    spec: &Spec,
    size: Size,
    shelf: &mut H,
) -> Result<Finding, FindRefused>
    requires none_begun { H.begun_name shelf.old ≡ None }
    ensures found { IfOk result (λ f. AnswersListed H.Shelf (lists_box size spec.now) (job_of spec.now size) shelf.old shelf.new (answer_by f)) }
    ensures shelf_fault { IsErrOf result FindRefused.ShelfFault → Rose (H.faults shelf.old) (H.faults shelf.new) }
    ensures rises { H.faults shelf.old < H.faults shelf.new → IsErrOf result FindRefused.ShelfFault }
    ensures asked { IsErrOf result FindRefused.ShelfFault → lists_box size spec.now ≡ true }
    ensures no_read_fault { IsErrOf result FindRefused.ReadFault → ⊥ }
    ensures files { FilesStay (H.files shelf.old) (H.files shelf.new) }
    ensures begun { H.begun_name shelf.new ≡ None }
{
    match number_of(spec, size) {
        Some(number) => judge_job(alloc, &job(alloc, spec, number)?, shelf),
        None => Ok(Finding::Refused(Refusal::BoxNotListed)),
    }
}

/// What `verify` finds of the document of a specification and of the log of a box of this size.
pub(crate) fn verify<H: Shelf>(
    alloc: Global,
    bytes: &[u8],
    size: Size,
    shelf: &mut H,
) -> Result<Finding, FindRefused>
    requires none_begun { H.begun_name shelf.old ≡ None }

    // The log is accepted exactly where its steps refute the clauses of the listed box. Then no diagram solves the box's job.
    ensures found { IfOk result (λ f. AnswersVerify H.Shelf size (spec_of bytes.now) shelf.old shelf.new (answer_by f)) }
    ensures shelf_fault { IsErrOf result FindRefused.ShelfFault → Rose (H.faults shelf.old) (H.faults shelf.new) }
    ensures rises { H.faults shelf.old < H.faults shelf.new → IsErrOf result FindRefused.ShelfFault }
    ensures asked { IsErrOf result FindRefused.ShelfFault → IsOkAnd (spec_of bytes.now) (λ b. lists_box size b ≡ true) }
    ensures no_read_fault { IsErrOf result FindRefused.ReadFault → ⊥ }
    ensures files { FilesStay (H.files shelf.old) (H.files shelf.new) }
    ensures begun { H.begun_name shelf.new ≡ None }
{
    match read_spec(alloc, bytes) {
        Ok(spec) => verify_spec(alloc, &spec, size, shelf),
        Err(SpecRefused::Memory) => Err(FindRefused::Memory),
        Err(refusal) => Ok(Finding::Refused(Refusal::Spec(refusal))),
    }
}
