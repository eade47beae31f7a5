// A sink in memory, which takes its bytes in pieces and fails where it is told to.
ghost use Rattle.std.specs.Prelude.{◌≡◌, ◌<◌, ◌≤◌, ◌↔◌, [], length, take, min, Some, IfOk, IsErrOf, MatchResult};
ghost use Rattle.std.specs.Io.{WritesAtMost};
ghost use Rattle.std.specs.Io.KnownBytes.{WriteAppends};
ghost use Rattle.las_io.specs.Counts.{HasFaultCause};
ghost use Rattle.las_io.specs.Scripts.{IsToFail, sink_after_refusal, sink_after_write};

use crate::{IoBad, Sink};
use std::alloc::Global;
use std::marker::Model;

/// A vector that takes bytes, as a sink. Each write takes `most` bytes at most.
#[derive(Drop)]
pub struct MemSink {
    bytes: Vec<u8>,
    most: usize,
    fails: Vec<u64>,
    calls: u64,
    faults: u64,
}

impl Model for MemSink {
    ghost use Rattle.std.specs.Prelude.{◌≤◌};
    ghost use Rattle.las_io.specs.Scripts.{ScriptedSink};

    ghost Value = { ScriptedSink };

    ghost view = { λ s. record {
      bytes = s.bytes.items;
      most = s.most;
      fails = s.fails.items;
      calls = s.calls;
      faults = s.faults;
    } };

    ghost invariant = { λ s. (1 ≤ s.most) × (s.faults ≤ s.calls) };
}

impl MemSink {
    /// `fails` lists the calls that fail, by their numbers from 0.
    pub fn new(alloc: Global, most: usize, fails: Vec<u64>) -> MemSink
        requires { 1 ≤ most }
        ensures { result ≡ record {
          bytes = [];
          most = most;
          fails = fails.items;
          calls = 0;
          faults = 0;
        } }
    {
        MemSink {
            bytes: Vec::new(alloc),
            most,
            fails,
            calls: 0,
            faults: 0,
        }
    }

    /// The bytes that it holds.
    pub fn bytes(&self) -> &[u8]
        ensures { result.now ≡ self.now.bytes }
    {
        &self.bytes
    }

    /// How many calls there were, up to the last value of `u64`.
    pub fn calls(&self) -> u64
        ensures { result ≡ self.now.calls }
    {
        self.calls
    }
}

impl Sink for MemSink {
    ghost held = { λ s. Some s.bytes };

    ghost faults = { λ s. s.faults };

    fn write(&mut self, piece: &[u8]) -> Result<usize, IoBad>
        ensures bound { WritesAtMost result piece.now }
        ensures progress { IfOk result (λ n. 0 < length piece.now → 0 < n) }
        ensures bytes { WriteAppends (Some self.old.bytes) (Some self.new.bytes) result piece.now }
        ensures cause { HasFaultCause self.old.faults self.new.faults result }

        ensures fails { IsErrOf result IoBad.Failed ↔ IsToFail self.old.fails self.old.calls }
        ensures takes { IfOk result (λ n. n ≡ min self.old.most (length piece.now)) }
        ensures after { MatchResult result
            (λ n. self.new ≡ sink_after_write self.old (take n piece.now))
            (λ e. self.new ≡ sink_after_refusal self.old e) }
    {
        let number = self.calls;
        self.calls = number.saturating_add(1);
        if number < u64::MAX && self.fails.contains(&number) {
            self.faults += 1;
            return Err(IoBad::Failed);
        }
        let count = self.most.min(piece.len());
        if self.bytes.extend_from_slice(&piece[..count]).is_err() {
            return Err(IoBad::Memory);
        }
        Ok(count)
    }
}
