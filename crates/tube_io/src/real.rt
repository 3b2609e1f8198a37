//! The real source and sink, over standard input and standard output, or any reader and writer. They tell none of their bytes: what
//! a system call gives and takes no contract can say. So they are the trusted edge.

ghost use Rattle.std.specs.Prelude.{◌≡◌, None};

use crate::sink::{Flushed, Put, Sink};
use crate::source::{Got, Source};
use std::io::{Read, Write};
use std::marker::Model;

/// A source over a reader, as standard input, seen as its count of faults. A read of no bytes is its end.
#[derive(Drop)]
pub struct RealSource<R> {
    reader: R,
    faults: u64,
}

impl<R> Model for RealSource<R> {
    ghost use Rattle.std.specs.Prelude.{ℕ};

    ghost Value = { ℕ };

    ghost view = { λ s. s.faults };
}

impl<R: Read> RealSource<R> {
    /// A source that has not failed.
    pub fn new(reader: R) -> RealSource<R>
        ensures { result ≡ 0 }
    {
        RealSource { reader, faults: 0 }
    }
}

impl<R: Read> Source for RealSource<R> {
    ghost left = { λ _. None };

    ghost faults = { λ count. count };

    fn read(&mut self, into: &mut [u8]) -> Got {
        match self.reader.read(into) {
            Ok(0) => Got::End,
            Ok(n) => Got::Bytes(n),
            Err(_) => {
                self.faults = self.faults.saturating_add(1);
                Got::Failed
            }
        }
    }
}

/// A sink over a writer, as standard output, seen as its count of faults. A write that takes no bytes is a fault.
#[derive(Drop)]
pub struct RealSink<W> {
    writer: W,
    faults: u64,
}

impl<W> Model for RealSink<W> {
    ghost use Rattle.std.specs.Prelude.{ℕ};

    ghost Value = { ℕ };

    ghost view = { λ s. s.faults };
}

impl<W: Write> RealSink<W> {
    /// A sink that has not failed.
    pub fn new(writer: W) -> RealSink<W>
        ensures { result ≡ 0 }
    {
        RealSink { writer, faults: 0 }
    }
}

impl<W: Write> Sink for RealSink<W> {
    ghost written = { λ _. None };

    ghost flushed = { λ _. None };

    ghost faults = { λ count. count };

    fn write(&mut self, piece: &[u8]) -> Put {
        match self.writer.write(piece) {
            Ok(0) | Err(_) => {
                self.faults = self.faults.saturating_add(1);
                Put::Failed
            }
            Ok(n) => Put::Took(n),
        }
    }

    fn flush(&mut self) -> Flushed {
        match self.writer.flush() {
            Ok(()) => Flushed::Done,
            Err(_) => {
                self.faults = self.faults.saturating_add(1);
                Flushed::Failed
            }
        }
    }
}
