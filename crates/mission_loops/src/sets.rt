//! Sets that were found, in memory of their own.

ghost use Rattle.std.specs.Prelude.{◌≡◌};

use loop_report::Found;
use std::marker::Model;

/// The sets of a query in the order of their least pairs, each with what is found of it. A contract sees the list of them.
#[derive(Drop)]
pub struct FoundSets {
    sets: Vec<Found>,
}

impl Model for FoundSets {
    ghost use Rattle.std.specs.Prelude.{List};
    ghost use Rattle.loop_report.specs.declared.found.Found.{Found};

    ghost Value = { List Found };

    ghost view = { λ s. s.sets.items };
}

impl FoundSets {
    /// These sets.
    pub(crate) fn new(sets: Vec<Found>) -> FoundSets
        ensures { result ≡ sets.items }
    {
        FoundSets { sets }
    }

    /// The sets as a slice.
    pub fn as_slice(&self) -> &[Found]
        ensures { result.now ≡ self.now }
    {
        self.sets.as_slice()
    }
}
