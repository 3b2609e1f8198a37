//! The records that declare names, listed once for all sections: so a section is written without a look at the other records.

ghost use Rattle.std.specs.Prelude.{◌≡◌, ◌+◌, ◌++◌, ◌≤◌, [], OnOk, length, take};
ghost use Rattle.tube_spec.specs.Limits.{most_signals, most_variables};
ghost use Rattle.mission_items.specs.Made.{signals_in, signals_made, variables_in, variables_made};
ghost use Rattle.tube_report.specs.Places.{is_naming, listed, place_behind};

use mission_items::{Item, Mission};
use std::alloc::Global;
use std::marker::Model;
use tube_io::NoMemory;

/// Where a record that declares a name stands.
#[derive(Clone, Copy, Debug, PartialEq, Eq)]
pub struct Place {
    /// How many records stand before it.
    pub index: usize,
    /// How many signals these make.
    pub signals: u32,
    /// How many variables these make, those without a name included.
    pub variables: u32,
}

/// The places of the records so far that declare names, in order. It is carried from section to section.
#[derive(Drop)]
pub struct Places {
    places: Vec<Place>,
    signals: u32,
    variables: u32,
}

impl Model for Places {
    ghost use Rattle.tube_report.specs.Places.{Listed};

    ghost Value = { Listed };

    ghost view = { λ p. record { places = p.places.items; signals = p.signals; variables = p.variables } };
}

// Whether a record declares a name.
fn is_naming(item: &Item) -> bool
    ensures { result ≡ is_naming item.now }
{
    matches!(
        item,
        Item::Signal { .. } | Item::Variable { .. } | Item::Beacon { .. }
    )
}

impl Places {
    /// The list of no records. It takes no memory.
    pub fn new(alloc: Global) -> Places
        ensures { result ≡ listed [] }
    {
        Places {
            places: Vec::new(alloc),
            signals: 0,
            variables: 0,
        }
    }

    /// The places.
    pub(crate) fn places(&self) -> &[Place]
        ensures { result.now ≡ self.now.places }
    {
        self.places.as_slice()
    }

    // Takes the record behind the first so many.
    fn add(&mut self, index: usize, item: &Item) -> Result<(), NoMemory>
        requires signals { self.old.signals + signals_made item.now ≤ most_signals }
        requires variables { self.old.variables + variables_made item.now ≤ most_variables }
        ensures { OnOk result (self.new ≡ record {
          places = self.old.places ++ place_behind index self.old.signals self.old.variables item.now;
          signals = self.old.signals + signals_made item.now;
          variables = self.old.variables + variables_made item.now;
        }) }
    {
        if is_naming(item) {
            self.places.push(Place {
                index,
                signals: self.signals,
                variables: self.variables,
            })?;
        }
        self.signals += item.signals_made();
        self.variables += item.variables_made();
        Ok(())
    }

    /// Takes the records of a mission from record `first` on and below record `upto`, where those before them were taken. After want of
    /// memory the list is not built on.
    pub fn extend(&mut self, mission: &Mission, first: usize, upto: usize) -> Result<(), NoMemory>
        requires order { first ≤ upto }
        requires within { upto ≤ length mission.now.items }
        requires signals { signals_in mission.now.items ≤ most_signals }
        requires variables { variables_in mission.now.items ≤ most_variables }
        requires before { self.old ≡ listed (take first mission.now.items) }
        ensures { OnOk result (self.new ≡ listed (take upto mission.now.items)) }
    {
        let items = mission.items.as_slice();
        for i in first..upto {
            self.add(i, &items[i])?;
        }
        Ok(())
    }
}
