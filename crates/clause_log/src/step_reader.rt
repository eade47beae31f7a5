// The steps of a log on a shelf, read in pieces.
ghost use Rattle.std.specs.Prelude.{◌≡◌, ◌^◌, ◌-◌, ◌+◌, ◌<◌, ◌≤◌, ◌++◌, List, Option, IsTrue, None, Some, IfOk, IfSome, IsErrOf, MatchOption, OnSome, length, take, is_err, is_some, option_map, false, true, string_bytes, vec_len};
ghost use Rattle.las_io.specs.Counts.{Rose};
ghost use Rattle.las_io.specs.Names.{is_lawful_name};
ghost use Rattle.las_io.specs.Shelves.{File, FilesStay, file_of};
ghost use Rattle.clause_log.specs.LogText.{step_of};
ghost use Rattle.clause_log.specs.Pieces.{HasFeedAt, HasPieceCause, PieceComes, bytes_from, has_failed, hand_in, is_one_line, log_told, reader_ahead};
ghost use Rattle.clause_log.specs.Steps.{Gives, HasStepCause, step_is};

use crate::line_reader::parse_line;
use crate::{Step, StepRefused, Steps};
use las_io::{IoBad, Shelf};
use memchr::memchr;
use std::alloc::{AllocError, Global};
use std::marker::Model;

// As many bytes of a log are taken at once.
const PIECE: usize = 65536;

// As many bytes of a log are taken at most: 2^40.
const LIMIT: u64 = 1_099_511_627_776;

/// A log that stands on a shelf, with the memory to read it, seen as its name.
#[derive(Drop)]
pub struct FoundLog {
    alloc: Global,
    name: String,
    piece: Vec<u8>,
}

impl Model for FoundLog {
    ghost use Rattle.std.specs.Prelude.{ℕ, ◌<◌, List, IsTrue, string_bytes, vec_len};
    ghost use Rattle.las_io.specs.Names.{is_lawful_name};

    ghost Value = { List ℕ };

    ghost view = { λ l. string_bytes l.name };

    ghost invariant = { λ l. IsTrue (is_lawful_name (string_bytes l.name)) × (0 < vec_len l.piece) };
}

impl FoundLog {
    // The log of this name, with memory for a piece of it.
    fn new(alloc: Global, name: &str) -> Result<FoundLog, AllocError>
        requires { IsTrue (is_lawful_name name.now) }
        ensures { IfOk result (λ log. log ≡ name.now) }
    {
        let piece = vec![in alloc; 0u8; PIECE]?;
        let name = String::from_str(alloc, name)?;
        Ok(FoundLog { alloc, name, piece })
    }
}

/// Finds the log of this name, where there is one. No bytes of it are taken yet.
pub fn find_log<H: Shelf>(
    alloc: Global,
    shelf: &mut H,
    name: &str,
) -> Result<Option<FoundLog>, StepRefused>
    requires lawful { IsTrue (is_lawful_name name.now) }
    requires none_begun { H.begun_name shelf.old ≡ None }

    // None exactly where the shelf's answer was none, and so where a shelf that tells its files has no such file.
    ensures found { IfOk result (λ log. H.finds shelf.old name.now (is_some log)) }
    ensures told { IfOk result (λ log. IfSome (H.files shelf.old) (λ fs. is_some log ≡ is_some (file_of fs name.now))) }
    ensures name { IfOk result (λ log. IfSome log (λ l. l ≡ name.now)) }
    ensures files { FilesStay (H.files shelf.old) (H.files shelf.new) }
    ensures begun { H.begun_name shelf.new ≡ None }
    ensures cause { HasPieceCause (H.faults shelf.old) (H.faults shelf.new) result }
{
    let log = FoundLog::new(alloc, name)?;
    match is_there(shelf, name) {
        Ok(true) => Ok(Some(log)),
        Ok(false) => Ok(None),
        Err(refused) => Err(refused),
    }
}

// Whether there is a file of this name, by a fetch of no bytes.
fn is_there<H: Shelf>(shelf: &mut H, name: &str) -> Result<bool, StepRefused>
    requires lawful { IsTrue (is_lawful_name name.now) }
    requires none_begun { H.begun_name shelf.old ≡ None }
    ensures found { IfOk result (λ there. H.finds shelf.old name.now there) }
    ensures told { IfOk result (λ there. IfSome (H.files shelf.old) (λ fs. there ≡ is_some (file_of fs name.now))) }
    ensures files { FilesStay (H.files shelf.old) (H.files shelf.new) }
    ensures begun { H.begun_name shelf.new ≡ None }
    ensures cause { HasPieceCause (H.faults shelf.old) (H.faults shelf.new) result }
{
    let mut nothing: [u8; 0] = [];
    match shelf.fetch(name, 0, &mut nothing) {
        Ok(answer) => Ok(answer.is_some()),
        Err(IoBad::Failed) => Err(StepRefused::ShelfFault),
        Err(IoBad::Memory) => Err(StepRefused::Memory),
    }
}

/// The steps of a log on a shelf. At most 64 KiB of it are in memory, and the line that stands across pieces.
#[derive(Drop)]
pub struct StepReader<'a, H: Shelf> {
    shelf: &'a mut H,
    alloc: Global,
    name: String,
    piece: Vec<u8>,
    at: usize,
    filled: usize,
    taken: u64,
    line: u64,
    failed: bool,
    ghost lawful: { IsTrue (is_lawful_name (string_bytes name)) },
    ghost some: { 0 < vec_len piece },
    ghost left: { at ≤ filled },
    ghost within: { filled ≤ vec_len piece },
    ghost came: { filled ≤ taken },
    ghost few: { taken ≤ 2 ^ 40 },
    ghost lines: { line + (filled - at) ≤ taken + 1 },
}

impl<'a, H: Shelf> StepReader<'a, H> {
    /// The steps of a log that was found. The shelf is lent to the reader: once the reader has ended, it holds
    /// what the reader's last call left.
    pub fn new(shelf: &'a mut H, log: FoundLog) -> StepReader<'a, H>
        requires none_begun { H.begun_name shelf.old ≡ None }
        ensures same_shelf { result.shelf.ghost_name ≡ shelf.entry.ghost_name }
        ensures shelf { result.shelf.now ≡ shelf.old }
        ensures whole { ⟦<StepReader<'a, H> as Steps>⟧.failed result ≡ false }
        ensures ahead { ⟦<StepReader<'a, H> as Steps>⟧.ahead result ≡ log_told log (H.files shelf.old) }
    {
        let FoundLog { alloc, name, piece } = log;
        StepReader {
            shelf,
            alloc,
            name,
            piece,
            at: 0,
            filled: 0,
            taken: 0,
            line: 1,
            failed: false,
        }
    }

    /// Ends the reader and gives the shelf back.
    pub fn into_shelf(self) -> &'a mut H
        ensures same_shelf { result.ghost_name ≡ self.entry.shelf.ghost_name }
        ensures shelf { result.now ≡ self.entry.shelf.now }
    {
        let StepReader { shelf, .. } = self;
        shelf
    }

    // The bytes at hand.
    fn hand(&self) -> &[u8]
        ensures { result.now ≡ hand_in self.now.piece.items self.now.at self.now.filled }
    {
        &self.piece[self.at..self.filled]
    }

    // Takes the next piece of the log, where all bytes at hand were given; false at the end.
    fn take_piece(&mut self) -> Result<bool, StepRefused>
        requires none_begun { H.begun_name self.old.shelf.now ≡ None }
        requires given { self.old.at ≡ self.old.filled }
        requires room { self.old.taken < 2 ^ 40 }
        ensures same_shelf { self.new.shelf.ghost_name ≡ self.old.shelf.ghost_name }
        ensures name { string_bytes self.new.name ≡ string_bytes self.old.name }
        ensures line { self.new.line ≡ self.old.line }
        ensures begins { IfOk result (λ _. self.new.at ≡ 0) }
        ensures taken { IfOk result (λ _. self.new.taken ≡ self.old.taken + self.new.filled) }
        ensures some { IfOk result (λ more. more ≡ true → self.old.taken < self.new.taken) }
        ensures end { IfOk result (λ more. more ≡ false → self.new.filled ≡ 0) }
        ensures comes { IfOk result (λ _. IfSome (H.files self.old.shelf.now) (λ fs.
            PieceComes (bytes_from (string_bytes self.old.name) self.old.taken fs) self.new.piece.items self.new.filled)) }
        ensures files { FilesStay (H.files self.old.shelf.now) (H.files self.new.shelf.now) }
        ensures begun { H.begun_name self.new.shelf.now ≡ None }
        ensures cause { HasPieceCause (H.faults self.old.shelf.now) (H.faults self.new.shelf.now) result }
    {
        let room = (LIMIT - self.taken).min(self.piece.len() as u64) as usize;
        let count = fill_piece(
            self.shelf,
            self.name.as_str(),
            self.taken,
            room,
            &mut self.piece,
        )?;
        self.at = 0;
        self.filled = count;
        self.taken += count as u64;
        Ok(count > 0)
    }

    // Gives the line that ends behind so many of the bytes at hand, and whose front was torn off.
    fn give_line(&mut self, torn: Vec<u8>, count: usize) -> Result<Option<Step>, StepRefused>
        requires feed { HasFeedAt (hand_in self.old.piece.items self.old.at self.old.filled) count }
        requires line { is_one_line torn.items ≡ true }
        requires begun { vec_len torn + self.old.filled ≤ self.old.taken + self.old.at }
        requires lines { self.old.line + vec_len torn + (self.old.filled - self.old.at) ≤ self.old.taken + 1 }
        ensures same_shelf { self.new.shelf.ghost_name ≡ self.old.shelf.ghost_name }
        ensures shelf { self.new.shelf.now ≡ self.old.shelf.now }
        ensures name { string_bytes self.new.name ≡ string_bytes self.old.name }
        ensures taken { self.new.taken ≡ self.old.taken }
        ensures gives { (files : Option (List File)) → IfSome (reader_ahead (string_bytes self.old.name) (torn.items ++ hand_in self.old.piece.items self.old.at self.old.filled) self.old.taken self.old.line files)
            (Gives result (reader_ahead (string_bytes self.old.name) (hand_in self.new.piece.items self.new.at self.new.filled) self.new.taken self.new.line files)) }
        ensures given { IfOk result (λ step. OnSome step (self.old.taken - (self.old.filled - self.old.at) < self.new.taken - (self.new.filled - self.new.at))) }
        ensures some { IfOk result (λ step. is_some step ≡ true) }
        ensures cause { IsErrOf result StepRefused.ShelfFault → ⊥ }
    {
        let end = self.at + count;
        match parse_torn(self.alloc, torn, &self.piece[self.at..end])? {
            Some(step) => {
                self.at = end + 1;
                self.line += 1;
                Ok(Some(step))
            }
            None => Err(StepRefused::Malformed(self.line)),
        }
    }

    // Takes the first step left.
    fn next_step(&mut self) -> Result<Option<Step>, StepRefused>
        requires none_begun { H.begun_name self.old.shelf.now ≡ None }
        ensures same_shelf { self.new.shelf.ghost_name ≡ self.old.shelf.ghost_name }
        ensures name { string_bytes self.new.name ≡ string_bytes self.old.name }
        ensures gives { IfSome (reader_ahead (string_bytes self.old.name) (hand_in self.old.piece.items self.old.at self.old.filled) self.old.taken self.old.line (H.files self.old.shelf.now))
            (Gives result (reader_ahead (string_bytes self.new.name) (hand_in self.new.piece.items self.new.at self.new.filled) self.new.taken self.new.line (H.files self.new.shelf.now))) }
        ensures given { IfOk result (λ step. OnSome step (self.old.taken - (self.old.filled - self.old.at) < self.new.taken - (self.new.filled - self.new.at))) }
        ensures files { FilesStay (H.files self.old.shelf.now) (H.files self.new.shelf.now) }
        ensures begun { H.begun_name self.new.shelf.now ≡ None }
        ensures cause { HasStepCause (H.faults self.old.shelf.now) (H.faults self.new.shelf.now) result }
    {
        let mut torn: Vec<u8> = Vec::new(self.alloc);
        loop {
            if let Some(count) = feed_in(self.hand()) {
                return self.give_line(torn, count);
            }
            torn.extend_from_slice(self.hand())?;
            self.at = self.filled;
            if self.taken == LIMIT {
                return Err(StepRefused::TooLong);
            }
            if !self.take_piece()? {
                if torn.is_empty() {
                    return Ok(None);
                }
                return Err(StepRefused::Malformed(self.line));
            }
        }
    }
}

impl<H: Shelf> Steps for StepReader<'_, H> {
    ghost use Rattle.std.specs.Prelude.{◌≡◌, ◌^◌, ◌-◌, ◌≤◌, None, string_bytes};
    ghost use Rattle.std.proofs.Common.{refl, ◌∙◌};
    ghost use Rattle.las_io.specs.Shelves.{FilesStay};
    ghost use Rattle.clause_log.specs.Pieces.{hand_in, has_failed, reader_ahead};
    ghost use Rattle.clause_log.specs.Rooms.{room_is_small};
    ghost use Rattle.las_io.proofs.Fetched.{files_stay, stay_twice};

    ghost ahead = { λ r. reader_ahead (string_bytes r.name) (hand_in r.piece.items r.at r.filled) r.taken r.line (H.files r.shelf.now) };

    ghost room = { λ r. 2 ^ 40 - (r.taken - (r.filled - r.at)) };

    ghost faults = { λ r. H.faults r.shelf.now };

    ghost failed = { λ r. has_failed r.failed (H.begun_name r.shelf.now) };

    ghost goes_on_from = { λ r q. (r.shelf.ghost_name ≡ q.shelf.ghost_name)
        × (string_bytes r.name ≡ string_bytes q.name)
        × FilesStay (H.files q.shelf.now) (H.files r.shelf.now)
        × (H.begun_name q.shelf.now ≡ None → H.begun_name r.shelf.now ≡ None) };

    ghost room_within = { λ r. room_is_small (2 ^ 40) (r.taken - (r.filled - r.at)) };

    ghost goes_on_from_itself = { λ r. (refl, refl, files_stay (H.files r.shelf.now), λ none. none) };

    ghost goes_on_through = { λ last mid first p q. (p.0 ∙ q.0, p.1 ∙ q.1, stay_twice (H.files first.shelf.now) (H.files mid.shelf.now) (H.files last.shelf.now) q.2 p.2, λ none. p.3 (q.3 none)) };

    fn next(&mut self) -> Result<Option<Step>, StepRefused> {
        let answer = self.next_step();
        self.failed = answer.is_err();
        answer
    }
}

// Fetches bytes from this place on to the front of a piece, as many as there is room for at most.
fn fill_piece<H: Shelf>(
    shelf: &mut H,
    name: &str,
    at: u64,
    room: usize,
    piece: &mut Vec<u8>,
) -> Result<usize, StepRefused>
    requires lawful { IsTrue (is_lawful_name name.now) }
    requires none_begun { H.begun_name shelf.old ≡ None }
    requires some { 0 < room }
    requires within { room ≤ vec_len piece.old }
    ensures bound { IfOk result (λ n. n ≤ room) }
    ensures len { vec_len piece.new ≡ vec_len piece.old }
    ensures comes { IfOk result (λ n. IfSome (H.files shelf.old) (λ fs. PieceComes (bytes_from name.now at fs) piece.new.items n)) }
    ensures files { FilesStay (H.files shelf.old) (H.files shelf.new) }
    ensures begun { H.begun_name shelf.new ≡ None }
    ensures cause { HasPieceCause (H.faults shelf.old) (H.faults shelf.new) result }
{
    fill_front(shelf, name, at, room, piece.as_mut_slice())
}

// The same over the bytes of the piece.
fn fill_front<H: Shelf>(
    shelf: &mut H,
    name: &str,
    at: u64,
    room: usize,
    piece: &mut [u8],
) -> Result<usize, StepRefused>
    requires lawful { IsTrue (is_lawful_name name.now) }
    requires none_begun { H.begun_name shelf.old ≡ None }
    requires some { 0 < room }
    requires within { room ≤ length piece.old }
    ensures bound { IfOk result (λ n. n ≤ room) }
    ensures len { length piece.new ≡ length piece.old }
    ensures comes { IfOk result (λ n. IfSome (H.files shelf.old) (λ fs. PieceComes (bytes_from name.now at fs) piece.new n)) }
    ensures files { FilesStay (H.files shelf.old) (H.files shelf.new) }
    ensures begun { H.begun_name shelf.new ≡ None }
    ensures cause { HasPieceCause (H.faults shelf.old) (H.faults shelf.new) result }
{
    fetch_into(shelf, name, at, &mut piece[..room])
}

// Fetches bytes from this place on to the front of a buffer.
fn fetch_into<H: Shelf>(
    shelf: &mut H,
    name: &str,
    at: u64,
    buf: &mut [u8],
) -> Result<usize, StepRefused>
    requires lawful { IsTrue (is_lawful_name name.now) }
    requires none_begun { H.begun_name shelf.old ≡ None }
    requires some { 0 < length buf.old }
    ensures bound { IfOk result (λ n. n ≤ length buf.new) }
    ensures comes { IfOk result (λ n. IfSome (H.files shelf.old) (λ fs. PieceComes (bytes_from name.now at fs) buf.new n)) }
    ensures files { FilesStay (H.files shelf.old) (H.files shelf.new) }
    ensures begun { H.begun_name shelf.new ≡ None }
    ensures cause { HasPieceCause (H.faults shelf.old) (H.faults shelf.new) result }
{
    match shelf.fetch(name, at, buf) {
        Ok(Some(count)) => Ok(count),
        Ok(None) => Ok(0),
        Err(IoBad::Failed) => Err(StepRefused::ShelfFault),
        Err(IoBad::Memory) => Err(StepRefused::Memory),
    }
}

// The step of a line whose front was torn off.
fn parse_torn(alloc: Global, torn: Vec<u8>, end: &[u8]) -> Result<Option<Step>, AllocError>
    ensures { IfOk result (λ o. option_map step_is o ≡ step_of (torn.items ++ end.now)) }
{
    if torn.is_empty() {
        return parse_line(alloc, end);
    }
    let mut line = torn;
    line.extend_from_slice(end)?;
    parse_line(alloc, &line)
}

// Where the first line feed stands.
#[tactic(auto, using(crate::proofs::FeedLemmas::first_feed, crate::proofs::FeedLemmas::no_feed))]
fn feed_in(bytes: &[u8]) -> Option<usize>
    ensures { MatchOption result (is_one_line bytes.now ≡ true) (HasFeedAt bytes.now) }
{
    memchr(b'\n', bytes)
}
