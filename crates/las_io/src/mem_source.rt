// A source in memory, which gives its bytes in pieces and fails where it is told to.
ghost use Rattle.std.specs.Prelude.{◌≡◌, ◌≤◌, ◌↔◌, length, min, Some, IfOk, IsErr, MatchResult};
ghost use Rattle.std.specs.Io.{ReadsAtMost};
ghost use Rattle.std.specs.Io.KnownBytes.{ReadConsumes};
ghost use Rattle.las_io.specs.Counts.{HasCause, ReadCounts};
ghost use Rattle.las_io.specs.Scripts.{IsToFail, source_after_fault, source_after_read};

use crate::{Failed, Source};
use std::marker::Model;

/// The bytes of a vector, as a source. Each read gives `most` bytes at most.
#[derive(Drop)]
pub struct MemSource {
    bytes: Vec<u8>,
    at: usize,
    most: usize,
    fails: Vec<u64>,
    calls: u64,
    faults: u64,
}

impl Model for MemSource {
    ghost use Rattle.std.specs.Prelude.{◌≤◌, vec_len, drop};
    ghost use Rattle.las_io.specs.Scripts.{ScriptedSource};

    ghost Value = { ScriptedSource };

    ghost view = { λ s. record {
      bytes = drop s.at s.bytes.items;
      given = s.at;
      most = s.most;
      fails = s.fails.items;
      calls = s.calls;
      faults = s.faults;
    } };

    ghost invariant = { λ s. (s.at ≤ vec_len s.bytes) × (1 ≤ s.most) × (s.faults ≤ s.calls) };
}

impl MemSource {
    /// `fails` lists the calls that fail, by their numbers from 0.
    pub fn new(bytes: Vec<u8>, most: usize, fails: Vec<u64>) -> MemSource
        requires { 1 ≤ most }
        ensures { result ≡ record {
          bytes = bytes.items;
          given = 0;
          most = most;
          fails = fails.items;
          calls = 0;
          faults = 0;
        } }
    {
        MemSource {
            bytes,
            at: 0,
            most,
            fails,
            calls: 0,
            faults: 0,
        }
    }

    /// How many calls there were, up to the last value of `u64`.
    pub fn calls(&self) -> u64
        ensures { result ≡ self.now.calls }
    {
        self.calls
    }
}

impl Source for MemSource {
    ghost left = { λ s. Some s.bytes };

    ghost given = { λ s. s.given };

    ghost faults = { λ s. s.faults };

    fn read(&mut self, buf: &mut [u8]) -> Result<usize, Failed>
        ensures bound { ReadsAtMost result buf.new }
        ensures bytes { ReadConsumes (Some self.old.bytes) (Some self.new.bytes) result buf.new }
        ensures count { ReadCounts self.old.given self.new.given result }
        ensures cause { HasCause self.old.faults self.new.faults result }

        ensures fails { IsErr result ↔ IsToFail self.old.fails self.old.calls }
        ensures gives { IfOk result (λ n.
            n ≡ min self.old.most (min (length buf.new) (length self.old.bytes))) }
        ensures after { MatchResult result
            (λ n. self.new ≡ source_after_read self.old n)
            (λ _. self.new ≡ source_after_fault self.old) }
    {
        let number = self.calls;
        self.calls = number.saturating_add(1);
        if number < u64::MAX && self.fails.contains(&number) {
            self.faults += 1;
            return Err(Failed);
        }
        let rest = &self.bytes[self.at..];
        let count = self.most.min(buf.len()).min(rest.len());
        buf[..count].copy_from_slice(&rest[..count]);
        self.at += count;
        Ok(count)
    }
}
