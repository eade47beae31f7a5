// Standard output and standard error, as sinks that tell no contents.
ghost use Rattle.std.specs.Prelude.{◌≡◌, ◌<◌, None, length, IfOk, MatchResult};
ghost use Rattle.std.specs.Io.{WritesAtMost};
ghost use Rattle.std.specs.Io.KnownBytes.{WriteAppends};
ghost use Rattle.las_io.specs.Counts.{HasFaultCause};
ghost use Rattle.las_io.specs.Streams.{output_after_fault};

use crate::stream_fault::StreamFault;
use crate::{IoBad, Sink};
use std::io::{ErrorKind, Stderr, Stdout, Write};
use std::marker::Model;

/// Which stream a sink serves.
#[derive(Clone, Copy, PartialEq, Eq, Debug)]
pub enum Stream {
    Out,
    Err,
}

/// Standard output or standard error. Its count of faults stops at the last value of `u64`.
#[derive(Drop)]
pub struct StdSink {
    out: Stdout,
    err: Stderr,
    stream: Stream,
    faults: u64,
}

impl Model for StdSink {
    ghost use Rattle.las_io.specs.Streams.{StreamSink};

    ghost Value = { StreamSink };

    ghost view = { λ s. record { stream = s.stream; faults = s.faults } };
}

impl StdSink {
    pub fn new(out: Stdout, err: Stderr, stream: Stream) -> StdSink
        ensures { result ≡ record { stream = stream; faults = 0 } }
    {
        StdSink {
            out,
            err,
            stream,
            faults: 0,
        }
    }

    // A write that a signal cut off is tried again.
    fn try_write(&self, piece: &[u8]) -> Result<usize, StreamFault>
        ensures bound { WritesAtMost result piece.now }
        ensures progress { IfOk result (λ n. 0 < length piece.now → 0 < n) }
    {
        let mut out = self.out;
        let mut err = self.err;
        for _ in 0..u64::MAX {
            let written = match self.stream {
                Stream::Out => out.write(piece),
                Stream::Err => err.write(piece),
            };
            match written {
                Ok(0) if !piece.is_empty() => return Err(StreamFault::NothingTaken),
                Ok(count) => return Ok(count),
                Err(error) if error.kind() == ErrorKind::Interrupted => {}
                Err(error) => return Err(StreamFault::Stream(error)),
            }
        }
        Err(StreamFault::Interrupted)
    }
}

impl Sink for StdSink {
    ghost held = { λ _. None };

    ghost faults = { λ s. s.faults };

    fn write(&mut self, piece: &[u8]) -> Result<usize, IoBad>
        ensures bound { WritesAtMost result piece.now }
        ensures progress { IfOk result (λ n. 0 < length piece.now → 0 < n) }
        ensures bytes { WriteAppends None None result piece.now }
        ensures cause { HasFaultCause self.old.faults self.new.faults result }

        ensures after { MatchResult result
            (λ _. self.new ≡ self.old)
            (λ _. self.new ≡ output_after_fault self.old) }
    {
        if let Ok(count) = self.try_write(piece) {
            Ok(count)
        } else {
            self.faults = self.faults.saturating_add(1);
            Err(IoBad::Failed)
        }
    }
}
