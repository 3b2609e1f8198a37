//! The causes.

ghost use Rattle.std.specs.Prelude.{◌≡◌};
ghost use Rattle.pair_causes.specs.Causes.{cause_name, cause_number};
ghost use Rattle.pair_causes.specs.declared.cause.PairFault.TheVariants.{NoMemory};

use std::alloc::AllocError;

/// Why two logs and the ranges between their robots are not joined. Of all causes the one with the lowest number is told.
#[derive(Clone, Copy, Debug, PartialEq, Eq)]
pub enum PairCause {
    /// The bytes have not the form of two logs and links.
    Form = 31,
    /// The first log is refused.
    FirstLog = 32,
    /// The second log is refused.
    SecondLog = 33,
    /// The logs have not one version and one clock with the same slices.
    Heads = 34,
    /// A log has a `settle` record.
    Sections = 35,
    /// The second log has a record that speaks of all beacons before it.
    SecondMap = 36,
    /// The bounds of the offset are out of order, too far apart, or too large.
    Offset = 37,
    /// A link says nothing of two positions on the clock.
    Link = 38,
    /// A name is too long to be given a prefix.
    LongName = 39,
    /// The joined log is refused.
    Joined = 40,
}

impl PairCause {
    /// The number that is printed.
    pub fn number(self) -> u32
        ensures { result ≡ cause_number self }
    {
        self as u32
    }

    /// The word that is printed.
    pub fn name(self) -> &'static [u8]
        ensures { result.now ≡ cause_name self }
    {
        match self {
            PairCause::Form => b"Form",
            PairCause::FirstLog => b"FirstLog",
            PairCause::SecondLog => b"SecondLog",
            PairCause::Heads => b"Heads",
            PairCause::Sections => b"Sections",
            PairCause::SecondMap => b"SecondMap",
            PairCause::Offset => b"Offset",
            PairCause::Link => b"Link",
            PairCause::LongName => b"LongName",
            PairCause::Joined => b"Joined",
        }
    }
}

/// Why two logs are not joined.
#[derive(Clone, Copy, Debug, PartialEq, Eq)]
pub enum PairFault {
    /// This cause holds, at the record or link with this number, from 1 on. The number 0 stands for the whole.
    Bad { at: u32, cause: PairCause },
    /// Memory was refused.
    NoMemory,
}

impl From<AllocError> for PairFault {
    ghost from_gives = { λ _ e. e ≡ NoMemory };

    fn from(_error: AllocError) -> PairFault {
        PairFault::NoMemory
    }
}
