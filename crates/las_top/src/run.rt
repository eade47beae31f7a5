// The top call: words, then the source, then the command, then what it says.
ghost use Rattle.std.specs.Prelude.{◌≡◌, ◌⊎◌, ◌<◌, None, Some, false, true, IfOk, IsOkAnd, IsErrOf};
ghost use Rattle.las_io.specs.Counts.{Rose};
ghost use Rattle.las_io.specs.Shelves.{FilesStay};
ghost use Rattle.spec_codec.specs.Readings.{spec_of};
ghost use Rattle.las_top.specs.Answers.{EndsLogs, IsAnswer, number_of};
ghost use Rattle.las_top.specs.Commands.{IsInBounds, IsLawful, command_as};
ghost use Rattle.las_top.specs.Faults.{AreTold, IsNoFault, NoneRose, faults_of};
ghost use Rattle.las_top.specs.Findings.{answer_by};
ghost use Rattle.las_top.specs.Moments.{moment};
ghost use Rattle.las_top.specs.Answered.{AnswersInput, AnswersTo, AsksNoShelf, HasAnswered, IsSentToShelf, ReadsNothing, SendsToShelf, WritesNoLogs, asks_shelf, reads_source, texts_of, writes_logs};
ghost use Rattle.las_top.specs.Partial.{HasLeft, LeavesAtShelf, LeavesAtSink, LeavesInput};
ghost use Rattle.las_top.specs.Runs.{AnswersAsked, AnswersCommand, GivesSpec, asks_file, sends};

use crate::audit::audit;
use crate::check::check;
use crate::finding::{FindRefused, Finding, Refusal, tell};
use crate::spec::spec;
use crate::sweep::{bench, sweep_source};
use crate::verify::verify;
use crate::zx::zx;
use las_base::Size;
use las_io::{ReadRefused, Shelf, Sink, Source, read_all};
use las_words::{Command, WordsRefused, read_words};
use std::alloc::Global;

/// How a run ends.
#[derive(Clone, Copy, PartialEq, Eq, Debug)]
pub enum Status {
    /// The answer is yes, and stands on standard output.
    Good,
    /// The answer is no, and stands on standard error with its reason.
    No,
    /// The words or the document are refused, with one line on standard error.
    Refused,
    /// A diagram is printed, and a box before its own is undecided.
    FoundLater,
    /// No diagram is printed, and some box is undecided.
    StillOpen,
    /// The source failed.
    ReadFault,
    /// One of the sinks failed.
    WriteFault,
    /// The shelf failed.
    ShelfFault,
    /// There was not enough memory.
    Memory,
}

impl Status {
    /// The number with which the program ends.
    pub fn number(self) -> u8
        ensures { result ≡ number_of self }
    {
        match self {
            Status::Good => 0,
            Status::No => 1,
            Status::Refused => 2,
            Status::FoundLater => 3,
            Status::StillOpen => 4,
            Status::ReadFault => 5,
            Status::WriteFault => 6,
            Status::ShelfFault => 7,
            Status::Memory => 9,
        }
    }
}

/// A command whose answer the input determines.
#[derive(Clone, Copy, PartialEq, Eq, Debug)]
enum Asking<'a> {
    Check,
    Spec,
    Zx,
    /// Of the file of this name.
    Audit(&'a str),
    /// Of the log of the box of this size.
    Verify(Size),
}

/// The most bytes of a document.
pub(crate) const MOST_BYTES: usize = 4_194_304;

// What a command finds in the bytes of the source.
fn answer<H: Shelf>(
    alloc: Global,
    command: Asking,
    bytes: &[u8],
    shelf: &mut H,
) -> Result<Finding, FindRefused>
    requires none_begun { H.begun_name shelf.old ≡ None }
    requires lawful { IsLawful (command_as command) }
    ensures found { IfOk result (λ f. AnswersAsked H.Shelf (command_as command.entry) shelf.old shelf.new bytes.now (answer_by f)) }
    ensures shelf_fault { IsErrOf result FindRefused.ShelfFault → Rose (H.faults shelf.old) (H.faults shelf.new) }
    ensures rises { H.faults shelf.old < H.faults shelf.new → IsErrOf result FindRefused.ShelfFault }
    ensures asked { IsErrOf result FindRefused.ShelfFault → IsOkAnd (spec_of bytes.now) (λ b. sends (command_as command.entry) b ≡ true) }
    ensures unasked { asks_file (command_as command.entry) ≡ false → (shelf.new ≡ shelf.old) × (IsErrOf result FindRefused.ShelfFault → ⊥) }
    ensures no_read_fault { IsErrOf result FindRefused.ReadFault → ⊥ }
    ensures files { FilesStay (H.files shelf.old) (H.files shelf.new) }
    ensures begun { H.begun_name shelf.new ≡ None }
{
    match command {
        Asking::Check => Ok(check(alloc, bytes)?),
        Asking::Spec => Ok(spec(alloc, bytes)?),
        Asking::Zx => Ok(zx(alloc, bytes)?),
        Asking::Audit(name) => audit(alloc, bytes, name, shelf),
        Asking::Verify(size) => verify(alloc, bytes, size, shelf),
    }
}

// What a command finds in what the source gives.
fn find<S: Source, H: Shelf>(
    alloc: Global,
    command: Asking,
    src: &mut S,
    shelf: &mut H,
) -> Result<Finding, FindRefused>
    requires none_begun { H.begun_name shelf.old ≡ None }
    requires lawful { IsLawful (command_as command) }
    ensures found { IfOk result (λ f. AnswersCommand S.Source H.Shelf (command_as command.entry) src.old src.new shelf.old shelf.new (answer_by f)) }
    ensures read_fault { IsErrOf result FindRefused.ReadFault → Rose (S.faults src.old) (S.faults src.new) × (shelf.new ≡ shelf.old) }
    ensures shelf_fault { IsErrOf result FindRefused.ShelfFault → Rose (H.faults shelf.old) (H.faults shelf.new) }
    ensures source_told { S.faults src.old < S.faults src.new → IsErrOf result FindRefused.ReadFault }
    ensures shelf_told { H.faults shelf.old < H.faults shelf.new → IsErrOf result FindRefused.ShelfFault }
    ensures asked { IsErrOf result FindRefused.ShelfFault → GivesSpec S.Source (sends (command_as command.entry)) src.old src.new }
    ensures unasked { asks_file (command_as command.entry) ≡ false → (shelf.new ≡ shelf.old) × (IsErrOf result FindRefused.ShelfFault → ⊥) }
    ensures files { FilesStay (H.files shelf.old) (H.files shelf.new) }
    ensures begun { H.begun_name shelf.new ≡ None }
{
    match read_all(alloc, src, MOST_BYTES) {
        Ok(bytes) => answer(alloc, command, &bytes, shelf),
        Err(ReadRefused::TooLong) => Ok(Finding::Refused(Refusal::TooLong)),
        Err(ReadRefused::ReadFault) => Err(FindRefused::ReadFault),
        Err(ReadRefused::Memory) => Err(FindRefused::Memory),
    }
}

// Finds the answer of a command that the input determines, and says it.
fn find_and_tell<S: Source, K: Sink, E: Sink, H: Shelf>(
    alloc: Global,
    command: Asking,
    src: &mut S,
    out: &mut K,
    err: &mut E,
    shelf: &mut H,
) -> Status
    requires none_begun { H.begun_name shelf.old ≡ None }
    requires lawful { IsLawful (command_as command) }
    ensures answer { let before = moment src.old shelf.old (K.held out.old) (E.held err.old) in
        let after = moment src.new shelf.new (K.held out.new) (E.held err.new) in
        IsAnswer result → AnswersInput S.Source H.Shelf (command_as command.entry) before after result }
    ensures at_sink { let before = moment src.old shelf.old (K.held out.old) (E.held err.old) in
        let after = moment src.new shelf.new (K.held out.new) (E.held err.new) in
        result ≡ Status.WriteFault → LeavesInput S.Source H.Shelf (command_as command.entry) before after }
    ensures at_memory { let before = moment src.old shelf.old (K.held out.old) (E.held err.old) in
        let after = moment src.new shelf.new (K.held out.new) (E.held err.new) in
        result ≡ Status.Memory → (FilesStay (H.files shelf.old) (H.files shelf.new) × (out.new ≡ out.old) × (err.new ≡ err.old))
        ⊎ LeavesInput S.Source H.Shelf (command_as command.entry) before after }
    ensures files { FilesStay (H.files shelf.old) (H.files shelf.new) }
    ensures begun { H.begun_name shelf.new ≡ None }
    ensures read_fault { result ≡ Status.ReadFault → Rose (S.faults src.old) (S.faults src.new) × (shelf.new ≡ shelf.old) }
    ensures shelf_fault { result ≡ Status.ShelfFault → Rose (H.faults shelf.old) (H.faults shelf.new) }
    ensures asked { result ≡ Status.ShelfFault → GivesSpec S.Source (sends (command_as command.entry)) src.old src.new }
    ensures unasked { asks_file (command_as command.entry) ≡ false → (shelf.new ≡ shelf.old) × (result ≡ Status.ShelfFault → ⊥) }
    ensures before_fault { (result ≡ Status.ReadFault) ⊎ (result ≡ Status.ShelfFault) → (out.new ≡ out.old) × (err.new ≡ err.old) }
    ensures write_fault { result ≡ Status.WriteFault → Rose (K.faults out.old) (K.faults out.new) ⊎ Rose (E.faults err.old) (E.faults err.new) }
    ensures source_told { S.faults src.old < S.faults src.new → result ≡ Status.ReadFault }
    ensures out_told { K.faults out.old < K.faults out.new → result ≡ Status.WriteFault }
    ensures err_told { E.faults err.old < E.faults err.new → result ≡ Status.WriteFault }
    ensures one_sink { K.faults out.old < K.faults out.new → E.faults err.old < E.faults err.new → ⊥ }
    ensures shelf_told { H.faults shelf.old < H.faults shelf.new → result ≡ Status.ShelfFault }
{
    match find(alloc, command, src, shelf) {
        Ok(finding) => tell(alloc, finding, out, err),
        Err(FindRefused::ReadFault) => Status::ReadFault,
        Err(FindRefused::ShelfFault) => Status::ShelfFault,
        Err(FindRefused::Memory) => Status::Memory,
    }
}

// Does a command.
fn obey<S: Source, K: Sink, E: Sink, H: Shelf>(
    alloc: Global,
    command: Command,
    src: &mut S,
    out: &mut K,
    err: &mut E,
    shelf: &mut H,
) -> Status
    requires none_begun { H.begun_name shelf.old ≡ None }
    requires bounds { IsInBounds command }
    ensures answer { let before = moment src.old shelf.old (K.held out.old) (E.held err.old) in
        let after = moment src.new shelf.new (K.held out.new) (E.held err.new) in
        IsAnswer result → AnswersTo S.Source H.Shelf (Some command) before after result }
    ensures at_sink { let before = moment src.old shelf.old (K.held out.old) (E.held err.old) in
        let after = moment src.new shelf.new (K.held out.new) (E.held err.new) in
        result ≡ Status.WriteFault → LeavesAtSink S.Source H.Shelf before after (Some command) }
    ensures at_shelf { let before = moment src.old shelf.old (K.held out.old) (E.held err.old) in
        let after = moment src.new shelf.new (K.held out.new) (E.held err.new) in
        result ≡ Status.ShelfFault → LeavesAtShelf S.Source H.Shelf before after (Some command) }
    ensures at_memory { let before = moment src.old shelf.old (K.held out.old) (E.held err.old) in
        let after = moment src.new shelf.new (K.held out.new) (E.held err.new) in
        result ≡ Status.Memory → (FilesStay (H.files shelf.old) (H.files shelf.new) × (out.new ≡ out.old) × (err.new ≡ err.old))
        ⊎ LeavesAtSink S.Source H.Shelf before after (Some command) }
    ensures nothing_read { reads_source command ≡ false → src.new ≡ src.old }
    ensures nothing_begun { EndsLogs result → H.begun_name shelf.new ≡ None }
    ensures unasked { asks_shelf command ≡ false → shelf.new ≡ shelf.old }
    ensures shelf_files { writes_logs command ≡ false → FilesStay (H.files shelf.old) (H.files shelf.new) × (H.begun_name shelf.new ≡ None) }
    ensures read_fault { result ≡ Status.ReadFault → Rose (S.faults src.old) (S.faults src.new) × (out.new ≡ out.old) × (err.new ≡ err.old) × (shelf.new ≡ shelf.old) }
    ensures shelf_fault { result ≡ Status.ShelfFault → Rose (H.faults shelf.old) (H.faults shelf.new) }
    ensures sent { result ≡ Status.ShelfFault → SendsToShelf S.Source command src.old src.new }
    ensures before_shelf_fault { result ≡ Status.ShelfFault → writes_logs command ≡ false → (out.new ≡ out.old) × (err.new ≡ err.old) }
    ensures write_fault { result ≡ Status.WriteFault → Rose (K.faults out.old) (K.faults out.new) ⊎ Rose (E.faults err.old) (E.faults err.new) }
    ensures source_told { S.faults src.old < S.faults src.new → result ≡ Status.ReadFault }
    ensures out_told { K.faults out.old < K.faults out.new → result ≡ Status.WriteFault }
    ensures err_told { E.faults err.old < E.faults err.new → result ≡ Status.WriteFault }
    ensures one_sink { K.faults out.old < K.faults out.new → E.faults err.old < E.faults err.new → ⊥ }
    ensures shelf_told { H.faults shelf.old < H.faults shelf.new → result ≡ Status.ShelfFault }
{
    match command {
        Command::Sweep { budget } => sweep_source(alloc, budget, src, out, err, shelf),
        Command::Bench { n } => bench(alloc, n, out, err, shelf),
        Command::Check => find_and_tell(alloc, Asking::Check, src, out, err, shelf),
        Command::Spec => find_and_tell(alloc, Asking::Spec, src, out, err, shelf),
        Command::Audit { name } => {
            find_and_tell(alloc, Asking::Audit(name.text()), src, out, err, shelf)
        }
        Command::Verify { size } => {
            find_and_tell(alloc, Asking::Verify(size), src, out, err, shelf)
        }
        Command::Zx => find_and_tell(alloc, Asking::Zx, src, out, err, shelf),
    }
}

/// Does what the words say. `words` are those after the program's own name.
pub fn run_las<S: Source, K: Sink, E: Sink, H: Shelf>(
    alloc: Global,
    words: &[String],
    src: &mut S,
    out: &mut K,
    err: &mut E,
    shelf: &mut H,
) -> Status
    requires none_begun { H.begun_name shelf.old ≡ None }

    // The words ask for a command or for nothing, and what is printed is its answer, all of it and nothing else.
    ensures answer { let before = moment src.old shelf.old (K.held out.old) (E.held err.old) in
        let after = moment src.new shelf.new (K.held out.new) (E.held err.new) in
        IsAnswer result → HasAnswered S.Source H.Shelf (texts_of words.now) before after result }

    // At every status the source is as before for a command that does not read it, and for words that are refused, the
    // shelf is as before for a command that does not ask it, and a command that writes no logs leaves the shelf's files as
    // they are, and nothing begun. One that writes logs leaves one begun only where the shelf failed or memory was refused.
    ensures nothing_read { ReadsNothing (texts_of words.now) → src.new ≡ src.old }
    ensures nothing_begun { EndsLogs result → H.begun_name shelf.new ≡ None }
    ensures unasked { AsksNoShelf (texts_of words.now) → shelf.new ≡ shelf.old }
    ensures shelf_files { WritesNoLogs (texts_of words.now) → FilesStay (H.files shelf.old) (H.files shelf.new) × (H.begun_name shelf.new ≡ None) }

    // Where a sink failed, what the words ask for is left in part: fronts of its texts were said, and of a sweep each whole
    // line is true. So it is where the shelf failed in a sweep, and where memory was refused once something was said.
    ensures at_sink { let before = moment src.old shelf.old (K.held out.old) (E.held err.old) in
        let after = moment src.new shelf.new (K.held out.new) (E.held err.new) in
        result ≡ Status.WriteFault → HasLeft (LeavesAtSink S.Source H.Shelf before after) (texts_of words.now) }
    ensures at_shelf { let before = moment src.old shelf.old (K.held out.old) (E.held err.old) in
        let after = moment src.new shelf.new (K.held out.new) (E.held err.new) in
        result ≡ Status.ShelfFault → HasLeft (LeavesAtShelf S.Source H.Shelf before after) (texts_of words.now) }
    ensures at_memory { let before = moment src.old shelf.old (K.held out.old) (E.held err.old) in
        let after = moment src.new shelf.new (K.held out.new) (E.held err.new) in
        result ≡ Status.Memory → (FilesStay (H.files shelf.old) (H.files shelf.new) × (out.new ≡ out.old) × (err.new ≡ err.old))
        ⊎ HasLeft (LeavesAtSink S.Source H.Shelf before after) (texts_of words.now) }

    // A fault is answered only where the count of its object rose in this call, and a fault of the shelf only where the
    // command was sent to it.
    ensures read_fault { result ≡ Status.ReadFault → Rose (S.faults src.old) (S.faults src.new) × (out.new ≡ out.old) × (err.new ≡ err.old) × (shelf.new ≡ shelf.old) }
    ensures shelf_fault { result ≡ Status.ShelfFault → Rose (H.faults shelf.old) (H.faults shelf.new) }
    ensures sent { result ≡ Status.ShelfFault → IsSentToShelf S.Source (texts_of words.now) src.old src.new }
    ensures before_shelf_fault { result ≡ Status.ShelfFault → WritesNoLogs (texts_of words.now) → (out.new ≡ out.old) × (err.new ≡ err.old) }
    ensures write_fault { result ≡ Status.WriteFault
        → Rose (K.faults out.old) (K.faults out.new) ⊎ Rose (E.faults err.old) (E.faults err.new) }

    // A count of faults that rose is told by the status of its object, and one rises at most. So an answer, and want of
    // memory, come only where none rose.
    ensures told { let before = faults_of (S.faults src.old) (K.faults out.old) (E.faults err.old) (H.faults shelf.old) in
        let after = faults_of (S.faults src.new) (K.faults out.new) (E.faults err.new) (H.faults shelf.new) in
        AreTold before after result }
    ensures no_fault { let before = faults_of (S.faults src.old) (K.faults out.old) (E.faults err.old) (H.faults shelf.old) in
        let after = faults_of (S.faults src.new) (K.faults out.new) (E.faults err.new) (H.faults shelf.new) in
        IsNoFault result → NoneRose before after }
{
    match read_words(alloc, words) {
        Ok(command) => obey(alloc, command, src, out, err, shelf),
        Err(WordsRefused::Words) => tell(alloc, Finding::Refused(Refusal::Words), out, err),
        Err(WordsRefused::Memory) => Status::Memory,
    }
}
