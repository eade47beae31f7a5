// The writer of a log.
ghost use Rattle.std.specs.Prelude.{◌≡◌, ◌^◌, ◌<◌, ◌+◌, ◌∷◌, ◌++◌, [], IsTrue, None, Some, IfOk, IfSome, IsErrOf, IsSome, false, is_ok, if◌then◌else◌, option_and_then};
ghost use Rattle.las_io.specs.Names.{is_lawful_name};
ghost use Rattle.las_io.specs.Shelves.{BeginsFile, FilesStay, HasNames, Told, begun_after, file_of};
ghost use Rattle.cnf_base.specs.Literals.{are_below};
ghost use Rattle.cnf_base.specs.Logs.{Add, Remove};
ghost use Rattle.cnf_base.specs.Takes.{HasLogCause, Takes, are_ids, is_fault};
ghost use Rattle.clause_log.specs.LogFiles.{OthersAreLeft, Writes, as_io, begun_file, is_broken, steps_told};
ghost use Rattle.clause_log.specs.Growing.{BegunGoesOn};
ghost use Rattle.clause_log.specs.Breaking.{BreaksByFault};
ghost use Rattle.clause_log.specs.LogText.{step_text};

use crate::lines::{addition_line, removal_line};
use cnf_base::{Lit, LogBad, LogTake};
use las_io::{IoBad, Shelf};
use std::alloc::Global;

/// Writes a log to the file that is begun on a shelf, a line for each step.
#[derive(Drop)]
pub struct LogWriter<'a, H: Shelf> {
    shelf: &'a mut H,
    alloc: Global,
    count: u64,
    broken: bool,
}

impl<'a, H: Shelf> LogWriter<'a, H> {
    /// A writer of the file that is begun on the shelf. Where that file is told to be empty, the writer tells
    /// that it has taken no steps. The shelf is lent to it: once the writer has ended, it holds what the
    /// writer's last call left.
    pub fn new(alloc: Global, shelf: &'a mut H) -> LogWriter<'a, H>
        requires begun { IsSome (H.begun_name shelf.old) }
        ensures same_shelf { result.shelf.ghost_name ≡ shelf.entry.ghost_name }
        ensures shelf { result.shelf.now ≡ shelf.old }
        ensures unbroken { ⟦<LogWriter<'a, H> as LogTake>⟧.broken result ≡ false }
        ensures whole { result.broken ≡ false }
        ensures no_steps { IfSome (⟦<LogWriter<'a, H> as LogTake>⟧.steps result) (λ steps. steps ≡ []) }
        ensures empty { IfSome (H.files shelf.old) (λ fs. begun_file (H.begun_name shelf.old) fs ≡ Some []
            → ⟦<LogWriter<'a, H> as LogTake>⟧.steps result ≡ Some []) }
    {
        LogWriter {
            shelf,
            alloc,
            count: 0,
            broken: false,
        }
    }

    /// Ends the file.
    pub fn finish(self) -> Result<(), LogBad>
        requires { IsSome (H.begun_name self.shelf.now) }
        ensures files { FilesStay (H.files self.entry.shelf.now) (H.files self.exit.0.now) }
        ensures ended { H.begun_name self.exit.0.now ≡ None }
        ensures cause { HasLogCause (H.faults self.entry.shelf.now) (H.faults self.exit.0.now) result }
        ensures rises { H.faults self.entry.shelf.now < H.faults self.exit.0.now → IsErrOf result LogBad.Fault }
    {
        let LogWriter {
            shelf,
            alloc: _,
            count: _,
            broken: _,
        } = self;
        finish_log(shelf)
    }

    // Puts a line to the end of the file, by one call of the shelf.
    fn put(&mut self, line: &[u8]) -> Result<(), LogBad>
        requires { is_broken self.old.broken (H.begun_name self.old.shelf.now) ≡ false }
        ensures same_shelf { self.new.shelf.ghost_name ≡ self.old.shelf.ghost_name }
        ensures begun { H.begun_name self.new.shelf.now ≡ H.begun_name self.old.shelf.now }
        ensures line { Writes result line.now (H.begun_name self.old.shelf.now) (H.files self.old.shelf.now) (H.files self.new.shelf.now) }
        ensures count { self.new.count ≡ (if is_ok result then self.old.count + 1 else self.old.count) }
        ensures broken { self.new.broken ≡ is_fault result }
        ensures cause { HasLogCause (H.faults self.old.shelf.now) (H.faults self.new.shelf.now) result }
        ensures rises { H.faults self.old.shelf.now < H.faults self.new.shelf.now → IsErrOf result LogBad.Fault }
    {
        let Some(count) = self.count.checked_add(1) else {
            return Err(LogBad::Memory);
        };
        match self.shelf.append(line) {
            Ok(()) => {
                self.count = count;
                Ok(())
            }
            Err(IoBad::Failed) => {
                self.broken = true;
                Err(LogBad::Fault)
            }
            Err(IoBad::Memory) => Err(LogBad::Memory),
        }
    }
}

impl<H: Shelf> LogTake for LogWriter<'_, H> {
    ghost steps = { λ w. steps_told w.count w.broken (H.begun_name w.shelf.now) (H.files w.shelf.now) };

    ghost faults = { λ w. H.faults w.shelf.now };

    ghost broken = { λ w. is_broken w.broken (H.begun_name w.shelf.now) };

    ghost goes_on_from = { λ w v. (w.shelf.ghost_name ≡ v.shelf.ghost_name)
        × (H.begun_name w.shelf.now ≡ H.begun_name v.shelf.now)
        × OthersAreLeft (H.begun_name v.shelf.now) (H.files v.shelf.now) (H.files w.shelf.now)
        × BegunGoesOn v.broken w.broken (H.begun_name v.shelf.now) (H.files v.shelf.now) (H.files w.shelf.now)
        × BreaksByFault v.broken w.broken (H.faults v.shelf.now) (H.faults w.shelf.now) };

    ghost use Rattle.clause_log.specs.Leaving.{left_from_itself, left_through};
    ghost use Rattle.clause_log.specs.Growing.{begun_goes_on_itself, begun_goes_on_through};
    ghost use Rattle.clause_log.specs.Breaking.{breaks_from_itself, breaks_through};
    ghost use Rattle.std.proofs.Common.{refl, ◌∙◌};

    ghost goes_on_from_itself = { λ w. (refl, refl, left_from_itself (H.begun_name w.shelf.now) (H.files w.shelf.now), begun_goes_on_itself w.broken (H.begun_name w.shelf.now) (H.files w.shelf.now), breaks_from_itself w.broken (H.faults w.shelf.now)) };

    ghost goes_on_through = { λ last mid first p q. (p.0 ∙ q.0, p.1 ∙ q.1, left_through (H.begun_name first.shelf.now) (H.begun_name mid.shelf.now) (H.files first.shelf.now) (H.files mid.shelf.now) (H.files last.shelf.now) q.1 q.2 p.2, begun_goes_on_through first.broken mid.broken last.broken (H.begun_name first.shelf.now) (H.begun_name mid.shelf.now) (H.files first.shelf.now) (H.files mid.shelf.now) (H.files last.shelf.now) q.1 q.3 p.3, breaks_through first.broken mid.broken last.broken (H.faults first.shelf.now) (H.faults mid.shelf.now) (H.faults last.shelf.now) q.4 p.4) };

    fn add(&mut self, id: u64, lits: &[Lit], hints: &[u64]) -> Result<(), LogBad>
        requires unbroken { is_broken self.old.broken (H.begun_name self.old.shelf.now) ≡ false }
        requires id { 0 < id }
        requires lits { IsTrue (are_below (2 ^ 30) lits.now) }
        requires hints { IsTrue (are_ids hints.now) }
        ensures steps { Takes (Add id lits.now hints.now) result (steps_told self.old.count self.old.broken (H.begun_name self.old.shelf.now) (H.files self.old.shelf.now)) (steps_told self.new.count self.new.broken (H.begun_name self.new.shelf.now) (H.files self.new.shelf.now)) }
        ensures line { Writes result (step_text 0 (Add id lits.now hints.now)) (H.begun_name self.old.shelf.now) (H.files self.old.shelf.now) (H.files self.new.shelf.now) }
        ensures broken { is_broken self.new.broken (H.begun_name self.new.shelf.now) ≡ is_fault result }
        ensures cause { HasLogCause (H.faults self.old.shelf.now) (H.faults self.new.shelf.now) result }
        ensures goes_on { (self.new.shelf.ghost_name ≡ self.old.shelf.ghost_name)
            × (H.begun_name self.new.shelf.now ≡ H.begun_name self.old.shelf.now)
            × OthersAreLeft (H.begun_name self.old.shelf.now) (H.files self.old.shelf.now) (H.files self.new.shelf.now)
            × BegunGoesOn self.old.broken self.new.broken (H.begun_name self.old.shelf.now) (H.files self.old.shelf.now) (H.files self.new.shelf.now)
            × BreaksByFault self.old.broken self.new.broken (H.faults self.old.shelf.now) (H.faults self.new.shelf.now) }
    {
        let line = addition_line(self.alloc, id, lits, hints)?;
        self.put(&line)
    }

    fn remove(&mut self, after: u64, ids: &[u64]) -> Result<(), LogBad>
        requires unbroken { is_broken self.old.broken (H.begun_name self.old.shelf.now) ≡ false }
        requires ids { IsTrue (are_ids ids.now) }
        ensures steps { Takes (Remove ids.now) result (steps_told self.old.count self.old.broken (H.begun_name self.old.shelf.now) (H.files self.old.shelf.now)) (steps_told self.new.count self.new.broken (H.begun_name self.new.shelf.now) (H.files self.new.shelf.now)) }
        ensures line { Writes result (step_text after (Remove ids.now)) (H.begun_name self.old.shelf.now) (H.files self.old.shelf.now) (H.files self.new.shelf.now) }
        ensures broken { is_broken self.new.broken (H.begun_name self.new.shelf.now) ≡ is_fault result }
        ensures cause { HasLogCause (H.faults self.old.shelf.now) (H.faults self.new.shelf.now) result }
        ensures goes_on { (self.new.shelf.ghost_name ≡ self.old.shelf.ghost_name)
            × (H.begun_name self.new.shelf.now ≡ H.begun_name self.old.shelf.now)
            × OthersAreLeft (H.begun_name self.old.shelf.now) (H.files self.old.shelf.now) (H.files self.new.shelf.now)
            × BegunGoesOn self.old.broken self.new.broken (H.begun_name self.old.shelf.now) (H.files self.old.shelf.now) (H.files self.new.shelf.now)
            × BreaksByFault self.old.broken self.new.broken (H.faults self.old.shelf.now) (H.faults self.new.shelf.now) }
    {
        let line = removal_line(self.alloc, after, ids)?;
        self.put(&line)
    }
}

/// Begins the file of a log, empty.
pub fn begin_log<H: Shelf>(shelf: &mut H, name: &str) -> Result<(), LogBad>
    requires lawful { IsTrue (is_lawful_name name.now) }
    requires none_begun { H.begun_name shelf.old ≡ None }
    ensures files { Told (BeginsFile name.now (as_io result)) (H.files shelf.old) (H.files shelf.new) }
    ensures names { IfSome (H.files shelf.new) HasNames }
    ensures begun { H.begun_name shelf.new ≡ begun_after name.now result }
    ensures count { H.given shelf.new ≡ H.given shelf.old }
    ensures cause { HasLogCause (H.faults shelf.old) (H.faults shelf.new) result }
    ensures rises { H.faults shelf.old < H.faults shelf.new → IsErrOf result LogBad.Fault }
{
    match shelf.begin(name) {
        Ok(()) => Ok(()),
        Err(IoBad::Failed) => Err(LogBad::Fault),
        Err(IoBad::Memory) => Err(LogBad::Memory),
    }
}

// Ends the file that is begun.
fn finish_log<H: Shelf>(shelf: &mut H) -> Result<(), LogBad>
    requires { IsSome (H.begun_name shelf.old) }
    ensures files { FilesStay (H.files shelf.old) (H.files shelf.new) }
    ensures ended { H.begun_name shelf.new ≡ None }
    ensures cause { HasLogCause (H.faults shelf.old) (H.faults shelf.new) result }
    ensures rises { H.faults shelf.old < H.faults shelf.new → IsErrOf result LogBad.Fault }
{
    match shelf.finish() {
        Ok(()) => Ok(()),
        Err(IoBad::Failed) => Err(LogBad::Fault),
        Err(IoBad::Memory) => Err(LogBad::Memory),
    }
}
