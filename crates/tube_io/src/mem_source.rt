//! A source in memory, of which chosen reads fail.

ghost use Rattle.std.specs.Prelude.{◌≡◌, ◌+◌, ◌<◌, ◌≤◌, ◌↔◌, Some, length, min};
ghost use Rattle.tube_io.specs.InMemory.{GivesExactly, IsListed, source_after};
ghost use Rattle.tube_io.specs.Moves.{Reads, ReadCause};

use crate::listed::count_listed;
use crate::source::{Got, Source};
use std::marker::Model;

/// Bytes in memory, of which a read gives at most so many. Exactly the reads whose numbers, from 0, are listed fail. The first
/// 2^64 - 1 reads have a number.
#[derive(Drop)]
pub struct MemSource {
    bytes: Vec<u8>,
    at: usize,
    most: usize,
    fails: Vec<u64>,
    calls: u64,
    faults: u64,
}

impl Model for MemSource {
    ghost use Rattle.std.specs.Prelude.{◌<◌, ◌≤◌, drop, vec_len};
    ghost use Rattle.tube_io.specs.InMemory.{ListedSource};

    ghost Value = { ListedSource };

    ghost view = { λ s. record {
      rest = drop s.at s.bytes.items;
      most = s.most;
      fails = s.fails.items;
      calls = s.calls;
      faults = s.faults;
    } };

    ghost invariant = { λ s. (s.at ≤ vec_len s.bytes) × (0 < s.most) };
}

impl MemSource {
    /// A source with these bytes, that gives at most `most` of them in a read, and whose reads with these numbers fail.
    pub fn new(bytes: Vec<u8>, most: usize, fails: Vec<u64>) -> MemSource
        requires { 0 < most }
        ensures { result ≡ record { rest = bytes.items; most = most; fails = fails.items; calls = 0; faults = 0 } }
    {
        MemSource {
            bytes,
            at: 0,
            most,
            fails,
            calls: 0,
            faults: 0,
        }
    }

    /// The bytes still to come.
    pub fn rest(&self) -> &[u8]
        ensures { result.now ≡ self.now.rest }
    {
        let (_, rest) = self.bytes.split_at(self.at);
        rest
    }
}

impl Source for MemSource {
    ghost left = { λ s. Some s.rest };

    ghost faults = { λ s. s.faults };

    ghost reads = { λ s. s.calls };

    fn read(&mut self, into: &mut [u8]) -> Got
        requires { 0 < length into.old }
        ensures bytes { Reads (Some self.old.rest) (Some self.new.rest) result into.new }
        ensures cause { ReadCause self.old.faults self.new.faults result }
        ensures turn { self.new.calls ≤ self.old.calls + 1 }

        // Exactly the listed reads fail, and one that gives bytes gives as many as it may.
        ensures exact { (result ≡ Got.Failed) ↔ IsListed self.old.fails self.old.calls }
        ensures most { GivesExactly (min (min (length self.old.rest) self.old.most) (length into.old)) result }
        ensures after { self.new ≡ source_after self.old result }
    {
        if count_listed(&mut self.calls, &self.fails) {
            self.faults = self.faults.saturating_add(1);
            return Got::Failed;
        }
        let (_, rest) = self.bytes.split_at(self.at);
        if rest.is_empty() {
            return Got::End;
        }
        let n = rest.len().min(self.most).min(into.len());
        let (front, _) = rest.split_at(n);
        into[..n].copy_from_slice(front);
        self.at += n;
        Got::Bytes(n)
    }
}
