// Standard input, as a source that tells no contents.
ghost use Rattle.std.specs.Prelude.{◌≡◌, None, MatchResult};
ghost use Rattle.std.specs.Io.{ReadsAtMost};
ghost use Rattle.std.specs.Io.KnownBytes.{ReadConsumes};
ghost use Rattle.las_io.specs.Counts.{HasCause, ReadCounts};
ghost use Rattle.las_io.specs.Streams.{input_after_fault, input_after_read};

use crate::stream_fault::StreamFault;
use crate::{Failed, Source};
use std::io::{ErrorKind, Read, Stdin};
use std::marker::Model;

/// Standard input. Its two counts stop at the last value of `u64`.
#[derive(Drop)]
pub struct StdSource {
    input: Stdin,
    given: u64,
    faults: u64,
}

impl Model for StdSource {
    ghost use Rattle.las_io.specs.Streams.{StreamSource};

    ghost Value = { StreamSource };

    ghost view = { λ s. record { given = s.given; faults = s.faults } };
}

impl StdSource {
    pub fn new(input: Stdin) -> StdSource
        ensures { result ≡ record { given = 0; faults = 0 } }
    {
        StdSource {
            input,
            given: 0,
            faults: 0,
        }
    }

    // A read that a signal cut off is tried again.
    fn try_read(&self, buf: &mut [u8]) -> Result<usize, StreamFault>
        ensures { ReadsAtMost result buf.new }
    {
        let mut input = self.input;
        for _ in 0..u64::MAX {
            match input.read(buf) {
                Ok(count) => return Ok(count),
                Err(error) if error.kind() == ErrorKind::Interrupted => {}
                Err(error) => return Err(StreamFault::Stream(error)),
            }
        }
        Err(StreamFault::Interrupted)
    }
}

impl Source for StdSource {
    ghost left = { λ _. None };

    ghost given = { λ s. s.given };

    ghost faults = { λ s. s.faults };

    fn read(&mut self, buf: &mut [u8]) -> Result<usize, Failed>
        ensures bound { ReadsAtMost result buf.new }
        ensures bytes { ReadConsumes None None result buf.new }
        ensures count { ReadCounts self.old.given self.new.given result }
        ensures cause { HasCause self.old.faults self.new.faults result }

        ensures after { MatchResult result
            (λ n. self.new ≡ input_after_read self.old n)
            (λ _. self.new ≡ input_after_fault self.old) }
    {
        if let Ok(count) = self.try_read(buf) {
            self.given = self.given.saturating_add(count as u64);
            Ok(count)
        } else {
            self.faults = self.faults.saturating_add(1);
            Err(Failed)
        }
    }
}
