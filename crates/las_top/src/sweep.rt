// The commands `sweep` and `bench`: the boxes of a specification by volume, up to the first that a diagram fits.
ghost use Rattle.std.specs.Prelude.{◌≡◌, ◌⊎◌, ◌≢◌, ◌<◌, ◌≤◌, None, true, IsOkAnd};
ghost use Rattle.las_base.specs.declared.Axis.TheVariants.{J};
ghost use Rattle.las_io.specs.Counts.{Rose};
ghost use Rattle.las_io.specs.Shelves.{FilesStay};
ghost use Rattle.spec_codec.specs.Readings.{spec_of};
ghost use Rattle.las_top.specs.Headline.{Solves};
ghost use Rattle.las_gen.specs.Ghz.{ghz_of};
ghost use Rattle.las_top.specs.Answers.{EndsLogs, IsAnswer};
ghost use Rattle.box_sweep.specs.Partial.{IsBrokenOff};
ghost use Rattle.las_top.specs.Moments.{moment, sinks};
ghost use Rattle.las_top.specs.Partial.{IsCutOff, LeavesSweep, LeavesSwept};
ghost use Rattle.las_top.specs.Runs.{GivesSpec, is_any};
ghost use Rattle.las_top.specs.Sweep.{AnswersSweep, IsSwept, IsSweptBy, status_by};

use crate::finding::{Finding, Refusal, tell};
use crate::run::{MOST_BYTES, Status};
use box_sweep::{Ending, SweepRefused, sweep};
use las_base::Axis;
use las_gen::ghz_spec;
use las_io::{ReadRefused, Shelf, Sink, Source, read_all};
use las_spec::{Spec, SpecRefused};
use spec_codec::read_spec;
use std::alloc::{AllocError, Global};

// How many lessons `bench` learns for a box at most.
const BENCH_BUDGET: u64 = 100_000;

fn status_by(ending: Ending) -> Status
    ensures { result ≡ status_by ending }
{
    match ending {
        Ending::Least => Status::Good,
        Ending::Found => Status::FoundLater,
        Ending::NoneFits => Status::No,
        Ending::StillOpen => Status::StillOpen,
    }
}

// Sweeps a specification.
fn sweep_spec<K: Sink, E: Sink, H: Shelf>(
    alloc: Global,
    spec: &Spec,
    budget: u64,
    out: &mut K,
    err: &mut E,
    shelf: &mut H,
) -> Status
    requires low { 1 ≤ budget }
    requires high { budget ≤ 10000000 }
    requires none_begun { H.begun_name shelf.old ≡ None }
    ensures swept { IsAnswer result → IsSwept spec.now budget (H.files shelf.old) (H.files shelf.new) (sinks (K.held out.old) (E.held err.old)) (sinks (K.held out.new) (E.held err.new)) result }
    ensures broken_off { IsCutOff result → IsBrokenOff Solves spec.now budget (H.files shelf.old) (H.files shelf.new) (K.held out.old) (K.held out.new) (E.held err.old) (E.held err.new) }
    ensures ended { EndsLogs result → H.begun_name shelf.new ≡ None }
    ensures no_refusal { result ≢ Status.Refused }
    ensures no_read_fault { result ≢ Status.ReadFault }
    ensures shelf_fault { result ≡ Status.ShelfFault → Rose (H.faults shelf.old) (H.faults shelf.new) }
    ensures write_fault { result ≡ Status.WriteFault → Rose (K.faults out.old) (K.faults out.new) ⊎ Rose (E.faults err.old) (E.faults err.new) }
    ensures out_told { K.faults out.old < K.faults out.new → result ≡ Status.WriteFault }
    ensures err_told { E.faults err.old < E.faults err.new → result ≡ Status.WriteFault }
    ensures one_sink { K.faults out.old < K.faults out.new → E.faults err.old < E.faults err.new → ⊥ }
    ensures shelf_told { H.faults shelf.old < H.faults shelf.new → result ≡ Status.ShelfFault }
{
    let _ = spec.size();
    match sweep(alloc, spec, budget, out, err, shelf) {
        Ok(ending) => status_by(ending),
        Err(SweepRefused::WriteFault) => Status::WriteFault,
        Err(SweepRefused::ShelfFault) => Status::ShelfFault,
        Err(SweepRefused::Memory) => Status::Memory,
    }
}

// Sweeps what the bytes of a document give.
fn sweep_bytes<K: Sink, E: Sink, H: Shelf>(
    alloc: Global,
    bytes: &[u8],
    budget: u64,
    out: &mut K,
    err: &mut E,
    shelf: &mut H,
) -> Status
    requires low { 1 ≤ budget }
    requires high { budget ≤ 10000000 }
    requires none_begun { H.begun_name shelf.old ≡ None }
    ensures swept { IsAnswer result → IsSweptBy H.Shelf budget (spec_of bytes.now) shelf.old shelf.new (sinks (K.held out.old) (E.held err.old)) (sinks (K.held out.new) (E.held err.new)) result }
    ensures at_sink { result ≡ Status.WriteFault → LeavesSwept H.Shelf budget (spec_of bytes.now) shelf.old shelf.new (sinks (K.held out.old) (E.held err.old)) (sinks (K.held out.new) (E.held err.new)) }
    ensures at_shelf { result ≡ Status.ShelfFault → LeavesSwept H.Shelf budget (spec_of bytes.now) shelf.old shelf.new (sinks (K.held out.old) (E.held err.old)) (sinks (K.held out.new) (E.held err.new)) }
    ensures at_memory { result ≡ Status.Memory → (FilesStay (H.files shelf.old) (H.files shelf.new) × (out.new ≡ out.old) × (err.new ≡ err.old)) ⊎ LeavesSwept H.Shelf budget (spec_of bytes.now) shelf.old shelf.new (sinks (K.held out.old) (E.held err.old)) (sinks (K.held out.new) (E.held err.new)) }
    ensures ended { EndsLogs result → H.begun_name shelf.new ≡ None }
    ensures no_read_fault { result ≢ Status.ReadFault }
    ensures shelf_fault { result ≡ Status.ShelfFault → Rose (H.faults shelf.old) (H.faults shelf.new) }
    ensures asked { result ≡ Status.ShelfFault → IsOkAnd (spec_of bytes.now) (λ b. is_any b ≡ true) }
    ensures write_fault { result ≡ Status.WriteFault → Rose (K.faults out.old) (K.faults out.new) ⊎ Rose (E.faults err.old) (E.faults err.new) }
    ensures out_told { K.faults out.old < K.faults out.new → result ≡ Status.WriteFault }
    ensures err_told { E.faults err.old < E.faults err.new → result ≡ Status.WriteFault }
    ensures one_sink { K.faults out.old < K.faults out.new → E.faults err.old < E.faults err.new → ⊥ }
    ensures shelf_told { H.faults shelf.old < H.faults shelf.new → result ≡ Status.ShelfFault }
{
    match read_spec(alloc, bytes) {
        Ok(spec) => sweep_spec(alloc, &spec, budget, out, err, shelf),
        Err(SpecRefused::Memory) => Status::Memory,
        Err(refusal) => tell(alloc, Finding::Refused(Refusal::Spec(refusal)), out, err),
    }
}

/// What `sweep` does: it sweeps the specification that the source gives.
pub(crate) fn sweep_source<S: Source, K: Sink, E: Sink, H: Shelf>(
    alloc: Global,
    budget: u64,
    src: &mut S,
    out: &mut K,
    err: &mut E,
    shelf: &mut H,
) -> Status
    requires low { 1 ≤ budget }
    requires high { budget ≤ 10000000 }
    requires none_begun { H.begun_name shelf.old ≡ None }

    // What is printed is true of what came, at every status but those of faults and of want of memory.
    ensures swept { let before = moment src.old shelf.old (K.held out.old) (E.held err.old) in
        let after = moment src.new shelf.new (K.held out.new) (E.held err.new) in
        IsAnswer result → AnswersSweep S.Source H.Shelf budget before after result }

    // After a fault, or without memory, what was said is a front of what is true.
    ensures at_sink { let before = moment src.old shelf.old (K.held out.old) (E.held err.old) in
        let after = moment src.new shelf.new (K.held out.new) (E.held err.new) in
        result ≡ Status.WriteFault → LeavesSweep S.Source H.Shelf budget before after }
    ensures at_shelf { let before = moment src.old shelf.old (K.held out.old) (E.held err.old) in
        let after = moment src.new shelf.new (K.held out.new) (E.held err.new) in
        result ≡ Status.ShelfFault → LeavesSweep S.Source H.Shelf budget before after }
    ensures at_memory { let before = moment src.old shelf.old (K.held out.old) (E.held err.old) in
        let after = moment src.new shelf.new (K.held out.new) (E.held err.new) in
        result ≡ Status.Memory → (FilesStay (H.files shelf.old) (H.files shelf.new) × (out.new ≡ out.old) × (err.new ≡ err.old))
        ⊎ LeavesSweep S.Source H.Shelf budget before after }
    ensures ended { EndsLogs result → H.begun_name shelf.new ≡ None }

    // A fault is answered only where the count of its object rose in this call.
    ensures read_fault { result ≡ Status.ReadFault → Rose (S.faults src.old) (S.faults src.new) × (out.new ≡ out.old) × (err.new ≡ err.old) × (shelf.new ≡ shelf.old) }
    ensures shelf_fault { result ≡ Status.ShelfFault → Rose (H.faults shelf.old) (H.faults shelf.new) }
    ensures asked { result ≡ Status.ShelfFault → GivesSpec S.Source is_any src.old src.new }
    ensures write_fault { result ≡ Status.WriteFault → Rose (K.faults out.old) (K.faults out.new) ⊎ Rose (E.faults err.old) (E.faults err.new) }
    ensures source_told { S.faults src.old < S.faults src.new → result ≡ Status.ReadFault }
    ensures out_told { K.faults out.old < K.faults out.new → result ≡ Status.WriteFault }
    ensures err_told { E.faults err.old < E.faults err.new → result ≡ Status.WriteFault }
    ensures one_sink { K.faults out.old < K.faults out.new → E.faults err.old < E.faults err.new → ⊥ }
    ensures shelf_told { H.faults shelf.old < H.faults shelf.new → result ≡ Status.ShelfFault }
{
    match read_all(alloc, src, MOST_BYTES) {
        Ok(bytes) => sweep_bytes(alloc, &bytes, budget, out, err, shelf),
        Err(ReadRefused::TooLong) => tell(alloc, Finding::Refused(Refusal::TooLong), out, err),
        Err(ReadRefused::ReadFault) => Status::ReadFault,
        Err(ReadRefused::Memory) => Status::Memory,
    }
}

/// What `bench` does: it sweeps a specification that is made from a number, and reads nothing.
pub(crate) fn bench<K: Sink, E: Sink, H: Shelf>(
    alloc: Global,
    n: u32,
    out: &mut K,
    err: &mut E,
    shelf: &mut H,
) -> Status
    requires low { 2 ≤ n }
    requires high { n ≤ 24 }
    requires none_begun { H.begun_name shelf.old ≡ None }
    ensures swept { IsAnswer result → IsSwept (ghz_of n J) 100000 (H.files shelf.old) (H.files shelf.new) (sinks (K.held out.old) (E.held err.old)) (sinks (K.held out.new) (E.held err.new)) result }
    ensures at_sink { result ≡ Status.WriteFault → IsBrokenOff Solves (ghz_of n J) 100000 (H.files shelf.old) (H.files shelf.new) (K.held out.old) (K.held out.new) (E.held err.old) (E.held err.new) }
    ensures at_shelf { result ≡ Status.ShelfFault → IsBrokenOff Solves (ghz_of n J) 100000 (H.files shelf.old) (H.files shelf.new) (K.held out.old) (K.held out.new) (E.held err.old) (E.held err.new) }
    ensures at_memory { result ≡ Status.Memory → (FilesStay (H.files shelf.old) (H.files shelf.new) × (out.new ≡ out.old) × (err.new ≡ err.old)) ⊎ IsBrokenOff Solves (ghz_of n J) 100000 (H.files shelf.old) (H.files shelf.new) (K.held out.old) (K.held out.new) (E.held err.old) (E.held err.new) }
    ensures ended { EndsLogs result → H.begun_name shelf.new ≡ None }
    ensures no_refusal { result ≢ Status.Refused }
    ensures no_read_fault { result ≢ Status.ReadFault }
    ensures shelf_fault { result ≡ Status.ShelfFault → Rose (H.faults shelf.old) (H.faults shelf.new) }
    ensures write_fault { result ≡ Status.WriteFault → Rose (K.faults out.old) (K.faults out.new) ⊎ Rose (E.faults err.old) (E.faults err.new) }
    ensures out_told { K.faults out.old < K.faults out.new → result ≡ Status.WriteFault }
    ensures err_told { E.faults err.old < E.faults err.new → result ≡ Status.WriteFault }
    ensures one_sink { K.faults out.old < K.faults out.new → E.faults err.old < E.faults err.new → ⊥ }
    ensures shelf_told { H.faults shelf.old < H.faults shelf.new → result ≡ Status.ShelfFault }
{
    match ghz_spec(alloc, n, Axis::J) {
        Ok(spec) => sweep_spec(alloc, &spec, BENCH_BUDGET, out, err, shelf),
        Err(AllocError) => Status::Memory,
    }
}
