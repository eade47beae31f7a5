// A shelf in memory, whose calls fail where it is told to.
ghost use Rattle.std.specs.Prelude.{◌≡◌, ◌-◌, ◌<◌, ◌≤◌, ◌↔◌, [], true, length, min, is_some, IsSome, IsTrue, None, Some, IfOk, IfSome, IsErr, IsErrOf, MatchOption, MatchResult, Decides, option_map, option_copied, position, unwrap_or, if◌then◌else◌};
ghost use Rattle.las_io.specs.Counts.{HasFaultCause};
ghost use Rattle.las_io.specs.Names.{is_lawful_name};
ghost use Rattle.las_io.specs.Scripts.{IsKept, IsToFail, grow_file, put_file, shelf_after_call, shelf_after_fault, shelf_after_append, shelf_after_begin, shelf_after_fetch, shelf_after_refusal, shelf_ended};
ghost use Rattle.las_io.specs.Shelves.{AppendsPiece, BeginsFile, Copies, FetchCounts, FilesStay, HasNames, IsFetched, Told, begun_after, file_of, is_named};

use crate::{IoBad, NamedFile, Shelf};
use std::alloc::{AllocError, Global};
use std::marker::Model;

/// A list of files, as a shelf.
#[derive(Drop)]
pub struct MemShelf {
    alloc: Global,
    files: Vec<NamedFile>,
    begun: Option<usize>,
    given: u64,
    fails: Vec<u64>,
    calls: u64,
    faults: u64,
}

impl Model for MemShelf {
    ghost use Rattle.std.specs.Prelude.{◌≤◌};
    ghost use Rattle.las_io.specs.Scripts.{IsPlace, ScriptedShelf, name_at};
    ghost use Rattle.las_io.specs.Shelves.{HasNames};

    ghost Value = { ScriptedShelf };

    ghost view = { λ s. record {
      files = s.files.items;
      begun = name_at s.files.items s.begun;
      given = s.given;
      fails = s.fails.items;
      calls = s.calls;
      faults = s.faults;
    } };

    ghost invariant = { λ s. HasNames s.files.items × IsPlace s.files.items s.begun × (s.faults ≤ s.calls) };
}

impl MemShelf {
    /// `fails` lists the calls that fail, by their numbers from 0.
    pub fn new(alloc: Global, files: Vec<NamedFile>, fails: Vec<u64>) -> MemShelf
        requires { HasNames files.items }
        ensures { result ≡ record {
          files = files.items;
          begun = None;
          given = 0;
          fails = fails.items;
          calls = 0;
          faults = 0;
        } }
    {
        MemShelf {
            alloc,
            files,
            begun: None,
            given: 0,
            fails,
            calls: 0,
            faults: 0,
        }
    }

    /// The bytes of the file of this name, where there is one.
    pub fn file(&self, name: &str) -> Option<&[u8]>
        ensures { option_copied result ≡ file_of self.now.files name.now }
    {
        let file = self.files.iter().find(|file| file.name() == name)?;
        Some(file.bytes())
    }

    // Where the file of this name stands.
    fn place_of(&self, name: &str) -> Option<usize>
        ensures { result ≡ position (is_named name.now) self.now.files }
    {
        self.files.iter().position(|file| file.name() == name)
    }

    // Counts a call, and says whether it fails; then it counts a fault too.
    #[tactic(auto, using(crate::proofs::Places::kept_by_place))]
    fn count_call(&mut self) -> bool
        ensures kept { IsKept self.new.files self.new.begun }
        ensures fails { Decides result (IsToFail self.old.fails self.old.calls) }
        ensures after { self.new ≡ (if result then shelf_after_fault self.old else shelf_after_call self.old) }
    {
        let number = self.calls;
        self.calls = number.saturating_add(1);
        let fails = number < u64::MAX && self.fails.contains(&number);
        if fails {
            self.faults += 1;
        }
        fails
    }

    // Begins the file of this name, empty. Where memory is refused, all is as before.
    fn put_empty(&mut self, name: &str) -> Result<(), AllocError>
        requires { IsTrue (is_lawful_name name.now) }
        ensures { MatchResult result
            (λ _. self.new ≡ record self.old { files = put_file name.now [] self.old.files; begun = Some name.now })
            (λ _. self.new ≡ self.old) }
    {
        match self.place_of(name) {
            Some(place) => {
                self.files[place].clear();
                self.begun = Some(place);
            }
            None => {
                let place = self.files.len();
                let name = String::from_str(self.alloc, name)?;
                self.files.push(NamedFile::new(name, Vec::new(self.alloc)))?;
                self.begun = Some(place);
            }
        }
        Ok(())
    }

    // Puts the piece to the end of the begun file. Where memory is refused, all is as before.
    fn grow_begun(&mut self, piece: &[u8]) -> Result<(), AllocError>
        requires { IsSome self.old.begun }
        ensures { IfSome self.old.begun (λ name. MatchResult result
            (λ _. self.new ≡ record self.old { files = grow_file name piece.now self.old.files })
            (λ _. self.new ≡ self.old)) }
    {
        if let Some(place) = self.begun {
            self.files[place].grow(piece)?;
        }
        Ok(())
    }

    /// How many calls there were, up to the last value of `u64`.
    pub fn calls(&self) -> u64
        ensures { result ≡ self.now.calls }
    {
        self.calls
    }
}

impl Shelf for MemShelf {
    ghost files = { λ s. Some s.files };

    ghost begun_name = { λ s. s.begun };

    ghost finds = { λ s name there. there ≡ is_some (file_of s.files name) };

    ghost given = { λ s. s.given };

    ghost faults = { λ s. s.faults };

    fn begun(&self) -> bool
        ensures is { result ≡ is_some self.now.begun }
        ensures names { HasNames self.now.files }
    {
        self.begun.is_some()
    }

    fn begin(&mut self, name: &str) -> Result<(), IoBad>
        requires lawful { IsTrue (is_lawful_name name.now) }
        requires none_begun { self.old.begun ≡ None }
        ensures files { Told (BeginsFile name.now result) (Some self.old.files) (Some self.new.files) }
        ensures names { HasNames self.new.files }
        ensures begun { self.new.begun ≡ begun_after name.now result }
        ensures count { self.new.given ≡ self.old.given }
        ensures cause { HasFaultCause self.old.faults self.new.faults result }

        ensures fails { IsErrOf result IoBad.Failed ↔ IsToFail self.old.fails self.old.calls }
        ensures after { MatchResult result
            (λ _. self.new ≡ shelf_after_begin self.old name.now)
            (λ e. self.new ≡ shelf_after_refusal self.old e) }
    {
        if self.count_call() {
            return Err(IoBad::Failed);
        }
        match self.put_empty(name) {
            Ok(()) => Ok(()),
            Err(_) => Err(IoBad::Memory),
        }
    }

    fn append(&mut self, piece: &[u8]) -> Result<(), IoBad>
        requires { IsSome self.old.begun }
        ensures files { IfSome self.old.begun (λ name.
            Told (AppendsPiece name piece.now result) (Some self.old.files) (Some self.new.files)) }
        ensures names { HasNames self.new.files }
        ensures begun { self.new.begun ≡ self.old.begun }
        ensures count { self.new.given ≡ self.old.given }
        ensures cause { HasFaultCause self.old.faults self.new.faults result }

        ensures fails { IsErrOf result IoBad.Failed ↔ IsToFail self.old.fails self.old.calls }
        ensures after { IfSome self.old.begun (λ name. MatchResult result
            (λ _. self.new ≡ shelf_after_append self.old name piece.now)
            (λ e. self.new ≡ shelf_after_refusal self.old e)) }
    {
        if self.count_call() {
            return Err(IoBad::Failed);
        }
        match self.grow_begun(piece) {
            Ok(()) => Ok(()),
            Err(_) => Err(IoBad::Memory),
        }
    }

    fn finish(&mut self) -> Result<(), IoBad>
        requires { IsSome self.old.begun }
        ensures files { FilesStay (Some self.old.files) (Some self.new.files) }
        ensures names { HasNames self.new.files }
        ensures begun { self.new.begun ≡ None }
        ensures count { self.new.given ≡ self.old.given }
        ensures cause { HasFaultCause self.old.faults self.new.faults result }

        ensures fails { IsErr result ↔ IsToFail self.old.fails self.old.calls }
        ensures after { MatchResult result
            (λ _. self.new ≡ shelf_ended (shelf_after_call self.old))
            (λ e. self.new ≡ shelf_ended (shelf_after_refusal self.old e)) }
        ensures no_memory { IsErrOf result IoBad.Memory → ⊥ }
    {
        let fails = self.count_call();
        self.begun = None;
        if fails {
            return Err(IoBad::Failed);
        }
        Ok(())
    }

    fn fetch(&mut self, name: &str, at: u64, buf: &mut [u8]) -> Result<Option<usize>, IoBad>
        requires lawful { IsTrue (is_lawful_name name.now) }
        requires none_begun { self.old.begun ≡ None }
        ensures bound { IfOk result (λ answer. IfSome answer (λ n. n ≤ length buf.new)) }
        ensures bytes { IfOk result (λ answer.
            IsFetched (file_of self.old.files name.now) at buf.new answer) }
        ensures found { IfOk result (λ answer. is_some answer ≡ is_some (file_of self.old.files name.now)) }
        ensures files { FilesStay (Some self.old.files) (Some self.new.files) }
        ensures names { HasNames self.new.files }
        ensures begun { self.new.begun ≡ None }
        ensures count { FetchCounts self.old.given self.new.given result }
        ensures cause { HasFaultCause self.old.faults self.new.faults result }

        ensures fails { IsErr result ↔ IsToFail self.old.fails self.old.calls }
        ensures gives { IfOk result (λ answer.
            answer ≡ option_map (λ bytes. min (length buf.new) (length bytes - at)) (file_of self.old.files name.now)) }
        ensures after { MatchResult result
            (λ answer. self.new ≡ shelf_after_fetch self.old (unwrap_or answer 0))
            (λ e. self.new ≡ shelf_after_refusal self.old e) }
        ensures no_memory { IsErrOf result IoBad.Memory → ⊥ }
    {
        if self.count_call() {
            return Err(IoBad::Failed);
        }
        let Some(bytes) = self.file(name) else {
            return Ok(None);
        };
        let count = copy_from(bytes, at, buf);
        self.given = self.given.saturating_add(count as u64);
        Ok(Some(count))
    }
}

// Copies the bytes from place `at` on to the front of the buffer, and says how many.
fn copy_from(bytes: &[u8], at: u64, buf: &mut [u8]) -> usize
    ensures copied { Copies bytes.now at buf.new result }
    ensures gives { result ≡ min (length buf.new) (length bytes.now - at) }
{
    let start = usize::try_from(at).unwrap_or(usize::MAX).min(bytes.len());
    let rest = &bytes[start..];
    let count = buf.len().min(rest.len());
    buf[..count].copy_from_slice(&rest[..count]);
    count
}
