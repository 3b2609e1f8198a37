//! A source that never fails, and a sink that fails only where it is full.

ghost use Rattle.std.specs.Prelude.{◌≡◌, ◌≢◌, ℕ, ◌+◌, ◌-◌, ◌<◌, ◌≤◌, ◌↔◌, List, [], Option, Some, length, min};
ghost use Rattle.tube_io.specs.InMemory.{GivesExactly, TakesExactly, plain_sink_after_write, plain_source_after};
ghost use Rattle.tube_io.specs.Moves.{FlushCause, Flushes, ReadCause, Reads, WriteCause, Writes};

use crate::sink::{Flushed, Put, Sink};
use crate::source::{Got, Source};
use std::marker::Model;

/// Bytes in memory, of which a read gives at most so many. It never fails: its count of faults is the constant 0.
#[derive(Drop)]
pub struct SureSource {
    bytes: Vec<u8>,
    at: usize,
    most: usize,
}

impl Model for SureSource {
    ghost use Rattle.std.specs.Prelude.{◌<◌, ◌≤◌, drop, vec_len};
    ghost use Rattle.tube_io.specs.InMemory.{PlainSource};

    ghost Value = { PlainSource };

    ghost view = { λ s. record { rest = drop s.at s.bytes.items; most = s.most } };

    ghost invariant = { λ s. (s.at ≤ vec_len s.bytes) × (0 < s.most) };
}

impl SureSource {
    /// A source with these bytes, that gives at most `most` of them in a read.
    pub fn new(bytes: Vec<u8>, most: usize) -> SureSource
        requires { 0 < most }
        ensures { result ≡ record { rest = bytes.items; most = most } }
    {
        SureSource { bytes, at: 0, most }
    }

    /// The bytes still to come.
    pub fn rest(&self) -> &[u8]
        ensures { result.now ≡ self.now.rest }
    {
        let (_, rest) = self.bytes.split_at(self.at);
        rest
    }
}

impl Source for SureSource {
    ghost left = { λ s. Some s.rest };

    ghost faults = { λ _. 0 };

    fn read(&mut self, into: &mut [u8]) -> Got
        requires { 0 < length into.old }
        ensures bytes { Reads (Some self.old.rest) (Some self.new.rest) result into.new }
        ensures cause { ReadCause 0 0 result }
        ensures turn { 0 ≤ 0 + 1 }

        // It never fails, and a read that gives bytes gives as many as it may.
        ensures sure { result ≢ Got.Failed }
        ensures most { GivesExactly (min (min (length self.old.rest) self.old.most) (length into.old)) result }
        ensures after { self.new ≡ plain_source_after self.old result }
    {
        let (_, rest) = self.bytes.split_at(self.at);
        if rest.is_empty() {
            return Got::End;
        }
        let n = rest.len().min(self.most).min(into.len());
        let (front, _) = rest.split_at(n);
        into[..n].copy_from_slice(front);
        self.at += n;
        Got::Bytes(n)
    }
}

/// A sink of `N` bytes in memory. A write takes as many as fit, and fails exactly where all `N` are taken. So a writer of fewer than
/// `N` bytes never meets a fault over a new one.
#[derive(Drop)]
pub struct SureSink<const N: usize> {
    bytes: [u8; N],
    taken: usize,
    flushed: usize,
    faults: u64,
}

impl<const N: usize> Model for SureSink<N> {
    ghost use Rattle.std.specs.Prelude.{◌≡◌, ◌<◌, ◌≤◌, take};
    ghost use Rattle.tube_io.specs.InMemory.{PlainSink};

    ghost Value = { PlainSink };

    ghost view = { λ s. record { bytes = take s.taken s.bytes; flushed = s.flushed; faults = s.faults } };

    ghost invariant = { λ s. (s.taken ≤ N) × (0 < s.faults → s.taken ≡ N) };
}

impl<const N: usize> SureSink<N> {
    /// An empty sink.
    pub fn new() -> SureSink<N>
        ensures { result ≡ record { bytes = []; flushed = 0; faults = 0 } }
    {
        SureSink {
            bytes: [0; N],
            taken: 0,
            flushed: 0,
            faults: 0,
        }
    }

    /// All bytes taken, at most `N`. It has failed only where they are `N`.
    pub fn bytes(&self) -> &[u8]
        ensures value { result.now ≡ self.now.bytes }
        ensures room { length self.now.bytes ≤ N }
        ensures sure { 0 < self.now.faults → length self.now.bytes ≡ N }
    {
        let (front, _) = self.bytes.split_at(self.taken);
        front
    }

    /// How many bytes were taken when it was last flushed, 0 before that.
    pub fn flushed_len(&self) -> usize
        ensures { result ≡ self.now.flushed }
    {
        self.flushed
    }
}

impl<const N: usize> Sink for SureSink<N> {
    ghost written = { λ s. Some s.bytes };

    ghost flushed = { λ s. Some s.flushed };

    ghost faults = { λ s. s.faults };

    fn write(&mut self, piece: &[u8]) -> Put
        requires { 0 < length piece.now }
        ensures bytes { Writes (Some self.old.bytes) (Some self.new.bytes) result piece.now }
        ensures flushed { ◌≡◌ {A = Option ℕ} (Some self.new.flushed) (Some self.old.flushed) }
        ensures cause { WriteCause self.old.faults self.new.faults result }

        // A write fails exactly where all bytes are taken, and another one takes as many as fit.
        ensures exact { (result ≡ Put.Failed) ↔ (length self.old.bytes ≡ N) }
        ensures most { TakesExactly (min (length piece.now) (N - length self.old.bytes)) result }
        ensures after { self.new ≡ plain_sink_after_write self.old piece.now result }
    {
        if self.taken == N {
            self.faults = self.faults.saturating_add(1);
            return Put::Failed;
        }
        let n = piece.len().min(N - self.taken);
        let (front, _) = piece.split_at(n);
        let start = self.taken;
        let all = &mut self.bytes[..];
        all[start..start + n].copy_from_slice(front);
        self.taken = start + n;
        Put::Took(n)
    }

    fn flush(&mut self) -> Flushed
        ensures bytes { ◌≡◌ {A = Option (List ℕ)} (Some self.new.bytes) (Some self.old.bytes) }
        ensures flushed { Flushes (Some self.old.flushed) (Some self.new.flushed) (Some self.new.bytes) result }
        ensures cause { FlushCause self.old.faults self.new.faults result }

        // It is never refused.
        ensures sure { result ≡ Flushed.Done }
        ensures after { self.new ≡ record self.old { flushed = length self.old.bytes } }
    {
        self.flushed = self.taken;
        Flushed::Done
    }
}
