// What is found, and how it is told.
ghost use Rattle.std.specs.Prelude.{◌≡◌, ◌≢◌, ◌⊎◌, ◌<◌, ◌≤◌, ◌++◌, codes, IfOk, string_bytes};
ghost use Rattle.std.specs.Io.KnownBytes.{Appends};
ghost use Rattle.las_io.specs.Counts.{Rose};
ghost use Rattle.las_io.specs.Moves.{AppendsFront};
ghost use Rattle.las_spec.specs.Texts.{refusal_text};
ghost use Rattle.lasre_codec.specs.Texts as lasre_text;
ghost use Rattle.las_top.specs.Answers.{IsAnswer, Says, refused_line};
ghost use Rattle.las_top.specs.Audit.{flow_line};
ghost use Rattle.las_top.specs.Check.{broken_line};
ghost use Rattle.las_top.specs.Findings.{answer_by, reason_by};
ghost use Rattle.las_top.specs.Moments.{sinks};
ghost use Rattle.las_top.specs.Partial.{SaysFront};
ghost use Rattle.las_top.specs.Verify.{rejected_line};

use crate::run::Status;
use grid_box::Broken;
use las_io::{Sink, WriteRefused, write_all};
use las_spec::SpecRefused;
use lasre_codec::LasreRefused;
use std::alloc::{AllocError, Global};

/// What is found of the words, the document and the shelf.
#[derive(Drop)]
pub(crate) enum Finding {
    Refused(Refusal),
    Breach(Broken),
    Valid,
    OtherJob,
    /// A flow by its number, with the first rule of sheets that is broken for it.
    Unserved(usize, Broken),
    Solves,
    Accepted,
    /// The first line of a log that fails, with the number of its reason.
    Rejected(u64, u8),
    Text(Vec<u8>),
}

/// Why a run is refused, in the order in which it is looked for.
#[derive(Drop)]
pub(crate) enum Refusal {
    Words,
    TooLong,
    Spec(SpecRefused),
    NoFile(String),
    LasreTooLong,
    Lasre(LasreRefused),
    BoxNotListed,
    LogTooLong,
}

/// Why nothing is found.
#[derive(Clone, Copy, PartialEq, Eq, Debug)]
pub(crate) enum FindRefused {
    ReadFault,
    ShelfFault,
    Memory,
}

impl From<AllocError> for FindRefused {
    ghost use Rattle.std.specs.Prelude.{◌≡◌};
    ghost use Rattle.las_top.specs.declared.finding.FindRefused.TheVariants.{Memory};

    ghost from_gives = { λ _ e. e ≡ Memory };

    fn from(_: AllocError) -> Self {
        FindRefused::Memory
    }
}

fn broken_text(alloc: Global, broken: Broken) -> Result<String, AllocError>
    ensures { IfOk result (λ text. string_bytes text ≡ broken_line broken) }
{
    let Broken { rule, cell } = broken;
    let (i, j, k) = (cell.i, cell.j, cell.k);
    format!(in alloc; "broken V{rule} {i} {j} {k}\n")
}

fn flow_text(alloc: Global, flow: usize, broken: Broken) -> Result<String, AllocError>
    ensures { IfOk result (λ text. string_bytes text ≡ flow_line flow broken) }
{
    let Broken { rule, cell } = broken;
    let (i, j, k) = (cell.i, cell.j, cell.k);
    format!(in alloc; "flow {flow} broken S{rule} {i} {j} {k}\n")
}

fn rejected_text(alloc: Global, line: u64, why: u8) -> Result<String, AllocError>
    ensures { IfOk result (λ text. string_bytes text ≡ rejected_line line why) }
{
    format!(in alloc; "rejected {line} why {why}\n")
}

fn refused_text(alloc: Global, refusal: SpecRefused) -> Result<String, AllocError>
    ensures { IfOk result (λ text. string_bytes text ≡ refused_line (refusal_text refusal)) }
{
    format!(in alloc; "refused: {refusal}\n")
}

fn no_file_text(alloc: Global, name: &str) -> Result<String, AllocError>
    ensures { IfOk result (λ text. string_bytes text ≡ refused_line (codes "no file " ++ name.now)) }
{
    format!(in alloc; "refused: no file {name}\n")
}

fn lasre_refused_text(alloc: Global, refusal: LasreRefused) -> Result<String, AllocError>
    ensures { IfOk result (λ text. string_bytes text ≡ refused_line (codes "lasre " ++ lasre_text.refusal_text refusal)) }
{
    format!(in alloc; "refused: lasre {refusal}\n")
}

// Writes a text, and answers the status where all of it stands.
fn say<K: Sink>(sink: &mut K, text: &[u8], status: Status) -> Status
    requires { IsAnswer status }
    ensures told { IsAnswer result → (result ≡ status) × Appends (K.held sink.old) (K.held sink.new) text.now }
    ensures front { AppendsFront (K.held sink.old) (K.held sink.new) text.now }
    ensures write_fault { result ≡ Status.WriteFault → Rose (K.faults sink.old) (K.faults sink.new) }
    ensures rises { K.faults sink.old < K.faults sink.new → result ≡ Status.WriteFault }
    ensures no_read_fault { result ≢ Status.ReadFault }
    ensures no_shelf_fault { result ≢ Status.ShelfFault }
    ensures faults { K.faults sink.old ≤ K.faults sink.new }
{
    match write_all(sink, text) {
        Ok(()) => status,
        Err(WriteRefused::WriteFault) => Status::WriteFault,
        Err(WriteRefused::Memory) => Status::Memory,
    }
}

// Says a refusal.
fn say_refused<E: Sink>(alloc: Global, refusal: Refusal, err: &mut E) -> Status
    ensures told { IsAnswer result → (result ≡ Status.Refused) × Appends (E.held err.old) (E.held err.new) (refused_line (reason_by refusal)) }
    ensures front { AppendsFront (E.held err.old) (E.held err.new) (refused_line (reason_by refusal)) }
    ensures write_fault { result ≡ Status.WriteFault → Rose (E.faults err.old) (E.faults err.new) }
    ensures rises { E.faults err.old < E.faults err.new → result ≡ Status.WriteFault }
    ensures no_read_fault { result ≢ Status.ReadFault }
    ensures no_shelf_fault { result ≢ Status.ShelfFault }
{
    let text = match refusal {
        Refusal::Words => return say(err, b"refused: words\n", Status::Refused),
        Refusal::TooLong => return say(err, b"refused: too long\n", Status::Refused),
        Refusal::LasreTooLong => return say(err, b"refused: lasre too long\n", Status::Refused),
        Refusal::BoxNotListed => return say(err, b"refused: box not listed\n", Status::Refused),
        Refusal::LogTooLong => return say(err, b"refused: log too long\n", Status::Refused),
        Refusal::Spec(refusal) => refused_text(alloc, refusal),
        Refusal::NoFile(name) => no_file_text(alloc, &name),
        Refusal::Lasre(refusal) => lasre_refused_text(alloc, refusal),
    };
    match text {
        Ok(text) => say(err, text.as_bytes(), Status::Refused),
        Err(AllocError) => Status::Memory,
    }
}

/// Says the answer that a finding gives.
pub(crate) fn tell<K: Sink, E: Sink>(
    alloc: Global,
    finding: Finding,
    out: &mut K,
    err: &mut E,
) -> Status
    ensures said { IsAnswer result → Says (answer_by finding) result (sinks (K.held out.old) (E.held err.old)) (sinks (K.held out.new) (E.held err.new)) }
    ensures front { SaysFront (answer_by finding) (sinks (K.held out.old) (E.held err.old)) (sinks (K.held out.new) (E.held err.new)) }
    ensures write_fault { result ≡ Status.WriteFault → Rose (K.faults out.old) (K.faults out.new) ⊎ Rose (E.faults err.old) (E.faults err.new) }
    ensures out_told { K.faults out.old < K.faults out.new → result ≡ Status.WriteFault }
    ensures err_told { E.faults err.old < E.faults err.new → result ≡ Status.WriteFault }
    ensures one_sink { K.faults out.old < K.faults out.new → E.faults err.old < E.faults err.new → ⊥ }
    ensures no_read_fault { result ≢ Status.ReadFault }
    ensures no_shelf_fault { result ≢ Status.ShelfFault }
{
    match finding {
        Finding::Refused(refusal) => say_refused(alloc, refusal, err),
        Finding::Breach(broken) => match broken_text(alloc, broken) {
            Ok(text) => say(err, text.as_bytes(), Status::No),
            Err(AllocError) => Status::Memory,
        },
        Finding::Valid => say(out, b"valid\n", Status::Good),
        Finding::OtherJob => say(err, b"other job\n", Status::No),
        Finding::Unserved(flow, broken) => match flow_text(alloc, flow, broken) {
            Ok(text) => say(err, text.as_bytes(), Status::No),
            Err(AllocError) => Status::Memory,
        },
        Finding::Solves => say(out, b"solves\n", Status::Good),
        Finding::Accepted => say(out, b"accepted\n", Status::Good),
        Finding::Rejected(line, why) => match rejected_text(alloc, line, why) {
            Ok(text) => say(err, text.as_bytes(), Status::No),
            Err(AllocError) => Status::Memory,
        },
        Finding::Text(text) => say(out, &text, Status::Good),
    }
}
