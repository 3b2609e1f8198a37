//! What may be doubted of a bundle: sentences over its bytes, one definition each, and which of those that hold is told.
//!
//! The first is told: that of the form; that of the log; then section by section, its firings before its text; then query by query and set
//! by set, the set before its degree.
#![tactic(auto)]

ghost use Rattle.std.specs.Prelude.{◌≡◌};
ghost use Rattle.bundle_doubts.specs.Doubts.{doubt_name, doubt_number};

/// What is doubted of a bundle.
#[derive(Clone, Copy, Debug, PartialEq, Eq)]
pub enum Doubt {
    /// The bytes are no bundle's text.
    Form = 1,
    /// The log is refused.
    Log = 2,
    /// A firing is listed of a contractor that the section doesn't have.
    Fire = 3,
    /// A section isn't due, or one is missing, or its text isn't of its records, or its bounds don't hold those of its records.
    Cover = 4,
    /// A query or a set isn't what the printed box has of it.
    Set = 5,
    /// The cells and corners of a set don't prove a revisit.
    Degree = 6,
}

impl Doubt {
    /// Its number, from 1 to 6.
    pub fn number(self) -> u32
        ensures { result ≡ doubt_number self }
    {
        match self {
            Doubt::Form => 1,
            Doubt::Log => 2,
            Doubt::Fire => 3,
            Doubt::Cover => 4,
            Doubt::Set => 5,
            Doubt::Degree => 6,
        }
    }

    /// Its name.
    pub fn name(self) -> &'static [u8]
        ensures { result.now ≡ doubt_name self }
    {
        match self {
            Doubt::Form => b"Form",
            Doubt::Log => b"Log",
            Doubt::Fire => b"Fire",
            Doubt::Cover => b"Cover",
            Doubt::Set => b"Set",
            Doubt::Degree => b"Degree",
        }
    }
}

/// What is told of a bundle.
#[derive(Clone, Copy, Debug, PartialEq, Eq)]
pub enum Checked {
    /// Nothing is doubted of it. It has so many sections, and what was found of so many queries.
    Yes { sections: u32, queries: u32 },
    /// The first doubt, and where it is: at the record of the log, at the section or at the query with this number, from 1, or at 0, which
    /// stands for the whole.
    No { at: u32, doubt: Doubt },
}
