//! The names of signals, variables and beacons, by their numbers.

ghost use Rattle.std.specs.Prelude.{◌≡◌, ◌∷◌, ◌++◌, [], map, replicate, slice_index_or, IfOk, OnOk};
ghost use Rattle.log_spelling.specs.References.{reference_text};
ghost use Rattle.log_text.specs.NameTexts.{beacon_name, signal_name, texts_of, texts_with, variable_name};
ghost use Rattle.log_text.specs.Written.{field_text};

use crate::field::Field;
use log_spelling::Part;
use mission_items::Item;
use std::alloc::Global;
use std::marker::Model;
use tube_io::NoMemory;
use tube_store::{SignalId, VarId};

/// The names that records declare. A contract sees their texts, in order of declaration.
#[derive(Drop)]
pub(crate) struct Names<'a> {
    signals: Vec<Field<'a>>,
    variables: Vec<Field<'a>>,
    beacons: Vec<Field<'a>>,
}

impl<'a> Model for Names<'a> {
    ghost use Rattle.std.specs.Prelude.{map};
    ghost use Rattle.log_text.specs.NameTexts.{NameTexts};
    ghost use Rattle.log_text.specs.Written.{field_text};

    ghost Value = { NameTexts };

    ghost view = { λ n. record { signals = map field_text n.signals.items; variables = map field_text n.variables.items; beacons = map field_text n.beacons.items } };
}

// The field at a place, or one of no bytes past the last.
fn at<'a>(fields: &[Field<'a>], place: u32) -> Field<'a>
    ensures { field_text result ≡ slice_index_or (map field_text fields.now) place [] }
{
    match fields.get(place as usize) {
        Some(field) => *field,
        None => Field::Text(b""),
    }
}

impl<'a> Names<'a> {
    /// The names that these records declare.
    #[tactic(auto, using(crate::proofs::Taking::texts_last))]
    pub(crate) fn of(alloc: Global, items: &'a [Item]) -> Result<Names<'a>, NoMemory>
        ensures { IfOk result (λ names. names ≡ texts_of items.entry.now) }
    {
        let mut names = Names {
            signals: Vec::new(alloc),
            variables: Vec::new(alloc),
            beacons: Vec::new(alloc),
        };
        for item in items {
            names.declare(item)?;
        }
        Ok(names)
    }

    /// The name of a signal, or no bytes where there is none with this number.
    pub(crate) fn signal(&self, x: SignalId) -> Field<'a>
        ensures { field_text result ≡ signal_name self.now x }
    {
        at(self.signals.as_slice(), x.0)
    }

    /// The name of a variable, or no bytes where it has none.
    pub(crate) fn variable(&self, v: VarId) -> Field<'a>
        ensures { field_text result ≡ variable_name self.now v }
    {
        at(self.variables.as_slice(), v.0)
    }

    /// The name of a beacon, or `?` where it is not known.
    pub(crate) fn beacon(&self, beacon: Option<u32>) -> Field<'a>
        ensures { field_text result ≡ beacon_name self.now beacon }
    {
        match beacon {
            Some(place) => at(self.beacons.as_slice(), place),
            None => Field::Text(b"?"),
        }
    }

    // Takes what a record declares.
    #[tactic(auto, using(crate::proofs::Taking::texts_rest))]
    fn declare(&mut self, item: &'a Item) -> Result<(), NoMemory>
        ensures { OnOk result (self.new ≡ texts_with self.old item.entry.now) }
    {
        match item {
            Item::Signal { name, .. } => self.add_signal(name.bytes()),
            Item::Variable { name, .. } => self.add_variable(name.bytes(), Part::Whole),
            Item::Beacon { name, .. } => {
                self.add_variable(name.bytes(), Part::X)?;
                self.add_variable(name.bytes(), Part::Y)?;
                self.add_beacon(name.bytes())
            }
            _ => self.add_unnamed(item.variables_made()),
        }
    }

    fn add_signal(&mut self, name: &'a [u8]) -> Result<(), NoMemory>
        ensures { OnOk result (self.new ≡ record self.old { signals = self.old.signals ++ name.entry.now ∷ [] }) }
    {
        Ok(self.signals.push(Field::Text(name))?)
    }

    fn add_variable(&mut self, name: &'a [u8], part: Part) -> Result<(), NoMemory>
        ensures { OnOk result (self.new ≡ record self.old { variables = self.old.variables ++ reference_text name.entry.now part ∷ [] }) }
    {
        Ok(self.variables.push(Field::Reference(name, part))?)
    }

    fn add_beacon(&mut self, name: &'a [u8]) -> Result<(), NoMemory>
        ensures { OnOk result (self.new ≡ record self.old { beacons = self.old.beacons ++ name.entry.now ∷ [] }) }
    {
        Ok(self.beacons.push(Field::Text(name))?)
    }

    // Variables that have no name.
    fn add_unnamed(&mut self, count: u32) -> Result<(), NoMemory>
        ensures { OnOk result (self.new ≡ record self.old { variables = self.old.variables ++ replicate count [] }) }
    {
        for _ in 0..count {
            self.variables.push(Field::Text(b""))?;
        }
        Ok(())
    }
}
