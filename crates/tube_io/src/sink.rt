//! Where bytes go.

ghost use Rattle.std.specs.Prelude.{◌≡◌, ℕ, ◌<◌, List, Option, length};
ghost use Rattle.tube_io.specs.Moves.{Writes, WriteCause, Flushes, FlushCause};

/// What a write took.
#[derive(Clone, Copy, Debug, PartialEq, Eq)]
pub enum Put {
    /// So many bytes, at least one.
    Took(usize),
    /// The sink failed.
    Failed,
}

/// How a flush went.
#[derive(Clone, Copy, Debug, PartialEq, Eq)]
pub enum Flushed {
    /// All that was taken is flushed.
    Done,
    /// The sink failed.
    Failed,
}

/// A sink of bytes that counts its faults.
pub trait Sink {
    /// All bytes that were taken, where the sink tells them.
    ghost written: { Self → Option (List ℕ) };

    /// How many of them were flushed, where the sink tells it.
    ghost flushed: { Self → Option ℕ };

    /// How often it has failed, as far as its counter goes. It never falls.
    ghost faults: { Self → ℕ };

    /// Takes bytes from the front of `piece`, at least one.
    fn write(&mut self, piece: &[u8]) -> Put
        requires { 0 < length piece.now }
        ensures bytes { Writes (written self.old) (written self.new) result piece.now }
        ensures flushed { flushed self.new ≡ flushed self.old }
        ensures cause { WriteCause (faults self.old) (faults self.new) result };

    /// Flushes what was taken.
    fn flush(&mut self) -> Flushed
        ensures bytes { written self.new ≡ written self.old }
        ensures flushed { Flushes (flushed self.old) (flushed self.new) (written self.new) result }
        ensures cause { FlushCause (faults self.old) (faults self.new) result };
}
