// Whole inputs and whole outputs, over any source and any sink.
ghost use Rattle.std.specs.Prelude.{◌≡◌, ◌+◌, ◌^◌, ◌<◌, ◌≤◌, vec_len, IfOk, OnOk, IsErrOf};
ghost use Rattle.std.specs.Io.KnownBytes.{Appends};
ghost use Rattle.las_io.specs.Counts.{Rose};
ghost use Rattle.las_io.specs.Moves.{AppendsFront, GivesAll, GivesCount, GivesUpTo, IsAllLeft};
ghost use Rattle.las_io.specs.declared.whole.ReadRefused.TheVariants.{Memory};

use crate::{Failed, IoBad, Sink, Source};
use std::alloc::{AllocError, Global};

/// Why an input was not read.
#[derive(Clone, Copy, PartialEq, Eq, Debug)]
pub enum ReadRefused {
    ReadFault,
    TooLong,
    Memory,
}

impl From<AllocError> for ReadRefused {
    ghost from_gives = { λ _ e. e ≡ Memory };

    fn from(_: AllocError) -> Self {
        ReadRefused::Memory
    }
}

/// Why an output was not written whole.
#[derive(Clone, Copy, PartialEq, Eq, Debug)]
pub enum WriteRefused {
    WriteFault,
    Memory,
}

// Long enough that the calls of a system cost nothing beside the bytes that they move.
const PIECE: usize = 65536;

/// All bytes up to the end, `limit` of them at most. One byte more is read to tell that there are more.
pub fn read_all<S: Source>(alloc: Global, src: &mut S, limit: usize) -> Result<Vec<u8>, ReadRefused>
    requires { limit < 2 ^ 32 }

    // Ok: these bytes came, to the end; of a source that tells its bytes they are all that was left.
    ensures all { IfOk result (λ v. GivesAll S.left S.given src.old src.new v.items) }
    ensures told { IfOk result (λ v. IsAllLeft (S.left src.old) v.items) }
    ensures within { IfOk result (λ v. vec_len v ≤ limit) }

    ensures too_long { IsErrOf result ReadRefused.TooLong
        → GivesCount S.left S.given src.old src.new (limit + 1) }

    ensures read_fault { IsErrOf result ReadRefused.ReadFault
        → Rose (S.faults src.old) (S.faults src.new) }
    ensures before_fault { IsErrOf result ReadRefused.ReadFault
        → GivesUpTo S.left S.given src.old src.new limit }

    // At every answer.
    ensures most { GivesUpTo S.left S.given src.old src.new (limit + 1) }
    ensures faults { S.faults src.old ≤ S.faults src.new }
    ensures rises { S.faults src.old < S.faults src.new → IsErrOf result ReadRefused.ReadFault }
{
    let mut all: Vec<u8> = Vec::new(alloc);
    let mut piece = vec![in alloc; 0u8; PIECE]?;
    while all.len() <= limit {
        let room = (limit + 1 - all.len()).min(piece.len());
        let part = &mut piece[..room];
        let count = match src.read(part) {
            Ok(count) => count,
            Err(Failed) => return Err(ReadRefused::ReadFault),
        };
        if count == 0 {
            return Ok(all);
        }
        all.extend_from_slice(&part[..count])?;
    }
    Err(ReadRefused::TooLong)
}

/// Writes all of the bytes.
pub fn write_all<K: Sink>(sink: &mut K, bytes: &[u8]) -> Result<(), WriteRefused>
    ensures whole { OnOk result (Appends (K.held sink.old) (K.held sink.new) bytes.now) }
    ensures write_fault { IsErrOf result WriteRefused.WriteFault
        → Rose (K.faults sink.old) (K.faults sink.new) }

    // At every answer.
    ensures front { AppendsFront (K.held sink.old) (K.held sink.new) bytes.now }
    ensures faults { K.faults sink.old ≤ K.faults sink.new }
    ensures rises { K.faults sink.old < K.faults sink.new → IsErrOf result WriteRefused.WriteFault }
{
    let mut done = 0;
    while done < bytes.len() {
        match sink.write(&bytes[done..]) {
            Ok(count) => done += count,
            Err(IoBad::Failed) => return Err(WriteRefused::WriteFault),
            Err(IoBad::Memory) => return Err(WriteRefused::Memory),
        }
    }
    Ok(())
}
