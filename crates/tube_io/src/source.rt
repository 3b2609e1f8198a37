//! Where bytes come from.

ghost use Rattle.std.specs.Prelude.{ℕ, ◌+◌, ◌<◌, ◌≤◌, List, Option, length};
ghost use Rattle.tube_io.specs.Moves.{Reads, ReadCause};

/// What a read gave.
#[derive(Clone, Copy, Debug, PartialEq, Eq)]
pub enum Got {
    /// So many bytes, at least one.
    Bytes(usize),
    /// Nothing is left.
    End,
    /// The source failed.
    Failed,
}

/// A source of bytes that counts its faults.
pub trait Source {
    /// The bytes that are still to come, where the source tells them.
    ghost left: { Self → Option (List ℕ) };

    /// How often it has failed, as far as its counter goes. It never falls.
    ghost faults: { Self → ℕ };

    /// How many reads were made of it, where it counts them, and otherwise 0.
    ghost reads: { Self → ℕ } = { λ _. 0 };

    /// Reads at least one byte into the front of `into`, if there is one.
    fn read(&mut self, into: &mut [u8]) -> Got
        requires { 0 < length into.old }
        ensures bytes { Reads (left self.old) (left self.new) result into.new }
        ensures cause { ReadCause (faults self.old) (faults self.new) result }
        ensures turn { reads self.new ≤ reads self.old + 1 };
}
