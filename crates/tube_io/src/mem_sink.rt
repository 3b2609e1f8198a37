//! A sink in memory, of which chosen calls fail.

ghost use Rattle.std.specs.Prelude.{◌≡◌, ℕ, ◌-◌, ◌<◌, ◌≤◌, ◌↔◌, ◌⊎◌, List, [], Option, Some, length, min};
ghost use Rattle.tube_io.specs.InMemory.{IsListed, TakesExactly, sink_after_flush, sink_after_write};
ghost use Rattle.tube_io.specs.Moves.{FlushCause, Flushes, WriteCause, Writes};

use crate::listed::count_listed;
use crate::sink::{Flushed, Put, Sink};
use std::marker::Model;

/// A sink of `N` bytes in memory, of which a write takes at most so many. A call fails exactly where its number, from 0 and over
/// writes and flushes together, is listed, or where it is a write while all `N` bytes are taken. The first 2^64 - 1 calls have a
/// number.
#[derive(Drop)]
pub struct MemSink<const N: usize> {
    bytes: [u8; N],
    taken: usize,
    flushed: usize,
    most: usize,
    fails: Vec<u64>,
    calls: u64,
    faults: u64,
}

impl<const N: usize> Model for MemSink<N> {
    ghost use Rattle.std.specs.Prelude.{◌<◌, ◌≤◌, take};
    ghost use Rattle.tube_io.specs.InMemory.{ListedSink};

    ghost Value = { ListedSink };

    ghost view = { λ s. record {
      bytes = take s.taken s.bytes;
      flushed = s.flushed;
      most = s.most;
      fails = s.fails.items;
      calls = s.calls;
      faults = s.faults;
    } };

    ghost invariant = { λ s. (s.taken ≤ N) × (0 < s.most) };
}

impl<const N: usize> MemSink<N> {
    /// An empty sink that takes at most `most` bytes in a write, and whose calls with these numbers fail.
    pub fn new(most: usize, fails: Vec<u64>) -> MemSink<N>
        requires { 0 < most }
        ensures { result ≡ record { bytes = []; flushed = 0; most = most; fails = fails.items; calls = 0; faults = 0 } }
    {
        MemSink {
            bytes: [0; N],
            taken: 0,
            flushed: 0,
            most,
            fails,
            calls: 0,
            faults: 0,
        }
    }

    /// All bytes taken, at most `N`.
    pub fn bytes(&self) -> &[u8]
        ensures value { result.now ≡ self.now.bytes }
        ensures room { length self.now.bytes ≤ N }
    {
        let (front, _) = self.bytes.split_at(self.taken);
        front
    }

    /// How many bytes were taken when it was last flushed, 0 before that.
    pub fn flushed_len(&self) -> usize
        ensures { result ≡ self.now.flushed }
    {
        self.flushed
    }
}

impl<const N: usize> Sink for MemSink<N> {
    ghost written = { λ s. Some s.bytes };

    ghost flushed = { λ s. Some s.flushed };

    ghost faults = { λ s. s.faults };

    fn write(&mut self, piece: &[u8]) -> Put
        requires { 0 < length piece.now }
        ensures bytes { Writes (Some self.old.bytes) (Some self.new.bytes) result piece.now }
        ensures flushed { ◌≡◌ {A = Option ℕ} (Some self.new.flushed) (Some self.old.flushed) }
        ensures cause { WriteCause self.old.faults self.new.faults result }

        // Exactly the listed calls fail, and a write while all bytes are taken. One that takes bytes takes as many as it may.
        ensures exact { (result ≡ Put.Failed) ↔ (IsListed self.old.fails self.old.calls ⊎ (length self.old.bytes ≡ N)) }
        ensures most { TakesExactly (min (min (length piece.now) self.old.most) (N - length self.old.bytes)) result }
        ensures after { self.new ≡ sink_after_write self.old piece.now result }
    {
        if count_listed(&mut self.calls, &self.fails) {
            self.faults = self.faults.saturating_add(1);
            return Put::Failed;
        }
        if self.taken == N {
            self.faults = self.faults.saturating_add(1);
            return Put::Failed;
        }
        let n = piece.len().min(self.most).min(N - self.taken);
        let (front, _) = piece.split_at(n);
        let start = self.taken;
        let all = &mut self.bytes[..];
        all[start..start + n].copy_from_slice(front);
        self.taken = start + n;
        Put::Took(n)
    }

    fn flush(&mut self) -> Flushed
        ensures bytes { ◌≡◌ {A = Option (List ℕ)} (Some self.new.bytes) (Some self.old.bytes) }
        ensures flushed { Flushes (Some self.old.flushed) (Some self.new.flushed) (Some self.new.bytes) result }
        ensures cause { FlushCause self.old.faults self.new.faults result }

        // Exactly the listed calls fail.
        ensures exact { (result ≡ Flushed.Failed) ↔ IsListed self.old.fails self.old.calls }
        ensures after { self.new ≡ sink_after_flush self.old result }
    {
        if count_listed(&mut self.calls, &self.fails) {
            self.faults = self.faults.saturating_add(1);
            return Flushed::Failed;
        }
        self.flushed = self.taken;
        Flushed::Done
    }
}
