//! Why a record is refused.

ghost use Rattle.std.specs.Prelude.{◌≡◌};
ghost use Rattle.log_fields.specs.declared.fault.Stop.TheVariants.{Memory};

use std::alloc::{AllocError, AllocFailed};
use tube_io::NoMemory;

/// What is wrong with a record. Of a record's causes the lowest number is told.
#[derive(Clone, Copy, Debug, PartialEq, Eq)]
pub enum Cause {
    /// There is no record but notes, or the first one that is no note is no `mission`.
    NoMission = 1,
    /// The second field of a `mission` record is another version.
    Version = 2,
    /// The first field is no kind.
    Kind = 3,
    /// The number of fields is not that of the kind.
    Fields = 4,
    /// A field that has to be a name is not spelled as one.
    Name = 5,
    /// A field that has to be a number is not spelled as one.
    Number = 6,
    /// A number is outside its limits, or two bounds are not in order.
    Range = 7,
    /// The declared name is declared before, or this is a second `mission`.
    Twice = 8,
    /// A name is not declared before.
    Unknown = 9,
    /// A name is declared as something else than its place wants.
    WrongKind = 10,
    /// A tick is outside the clock, or two ticks are not in order.
    Tick = 11,
    /// A time or a delay has a range of too many ticks.
    Wide = 12,
    /// A text is no relation.
    Text = 13,
    /// A text is a relation past a limit.
    Deep = 14,
    /// A value of a relation over the declared ranges is too large.
    Big = 15,
    /// There are too many signals, variables or cells.
    Cells = 16,
    /// There are too many read entries.
    Foot = 17,
    /// There are too many records.
    Records = 18,
    /// There is no beacon before.
    NoBeacon = 19,
    /// Two signals or variables that a record uses are the same.
    Same = 20,
    /// There are too many questions about loops.
    Queries = 21,
    /// The clock is too long for a question about loops.
    Plane = 22,
    /// The log has too many bytes.
    LogTooLong = 23,
    /// A cut stands after a record that it would change.
    LateCut = 24,
}

/// Why a record was not taken.
#[derive(Clone, Copy, Debug, PartialEq, Eq)]
pub enum Stop {
    /// Memory was refused.
    Memory,
    /// The record has this cause.
    Because(Cause),
}

impl From<NoMemory> for Stop {
    ghost from_gives = { λ _ e. e ≡ Memory };

    fn from(_e: NoMemory) -> Stop {
        Stop::Memory
    }
}

impl From<AllocError> for Stop {
    ghost from_gives = { λ _ e. e ≡ Memory };

    fn from(_e: AllocError) -> Stop {
        Stop::Memory
    }
}

impl<T: Drop> From<AllocFailed<T>> for Stop {
    ghost from_gives = { λ _ e. e ≡ Memory };

    fn from(_e: AllocFailed<T>) -> Stop {
        Stop::Memory
    }
}
