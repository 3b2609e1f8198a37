//! A log with the names of its signals.

ghost use Rattle.std.specs.Prelude.{◌≡◌, ◌<◌, ◌^◌, IfOk, IfSome, bytes_eq, length, map, option_map, option_to_list};
ghost use Rattle.std.specs.List.{position};
ghost use Rattle.log_text.specs.NameTexts.{signal_text};
ghost use Rattle.pair_causes.specs.Links.{signal_called, signal_names, signals_called};

use mission_items::{Item, Mission};
use pair_form::Place;
use std::alloc::{AllocError, Global};
use std::marker::Model;
use tube_store::SignalId;

/// A mission with the names of its signals, in order of declaration. A contract sees the mission.
#[derive(Drop)]
pub(crate) struct Log<'a> {
    pub(crate) mission: &'a Mission,
    names: Vec<&'a [u8]>,
}

impl<'a> Model for Log<'a> {
    ghost use Rattle.std.specs.Prelude.{◌≡◌, ◌<◌, ◌^◌, length, map};
    ghost use Rattle.std.specs.Coded.{codes};
    ghost use Rattle.formula_text.specs.Stored.{relation_code};
    ghost use Rattle.mission_items.specs.declared.mission.Mission.{Mission};
    ghost use Rattle.pair_causes.specs.Links.{signal_names};

    ghost Value = { Mission };

    ghost coded = { Prim.hlevel (codes, relation_code (Prim.hlevel codes)) };

    ghost view = { λ l. l.mission.now };

    ghost invariant = { λ l. (map (λ n. n.now) l.names.items ≡ signal_names l.mission.now.items) × (length l.names.items < 2 ^ 32) };
}

// The name of the signal that a record declares.
fn name_of(item: &Item) -> Option<&[u8]>
    ensures { option_to_list (option_map (λ n. n.now) result) ≡ signal_text item.now }
{
    match item {
        Item::Signal { name, .. } => Some(name.bytes()),
        _ => None,
    }
}

// The names of the signals that records declare.
fn names_of(alloc: Global, items: &[Item]) -> Result<Vec<&[u8]>, AllocError>
    requires { length items.now < 2 ^ 32 }
    ensures names { IfOk result (λ v. map (λ n. n.now) v.items ≡ signal_names items.now) }
    ensures few { IfOk result (λ v. length v.items < 2 ^ 32) }
{
    let mut names = Vec::new(alloc);
    for item in items {
        if let Some(name) = name_of(item) {
            names.push(name)?;
        }
    }
    Ok(names)
}

// The place of a word among names.
fn place_of(names: &[&[u8]], word: &[u8]) -> Option<usize>
    ensures value { result ≡ position (λ n. bytes_eq n.now word.now) names.now }
    ensures within { IfSome result (λ n. n < length names.now) }
{
    names.iter().position(|name| *name == word)
}

impl<'a> Log<'a> {
    /// This mission with its names.
    pub(crate) fn of(alloc: Global, mission: &'a Mission) -> Result<Log<'a>, AllocError>
        requires { length mission.now.items < 2 ^ 32 }
        ensures { IfOk result (λ log. log ≡ mission.entry.now) }
    {
        let names = names_of(alloc, mission.items.as_slice())?;
        Ok(Log { mission, names })
    }

    // The signal whose name is a word.
    fn find(&self, word: &[u8]) -> Option<SignalId>
        ensures { result ≡ signal_called (signal_names self.now.items) word.now }
    {
        match place_of(self.names.as_slice(), word) {
            Some(place) => Some(SignalId(place as u32)),
            None => None,
        }
    }

    /// The two different signals whose names are the words of a place.
    pub(crate) fn find_both(&self, place: &Place) -> Option<(SignalId, SignalId)>
        ensures { result ≡ signals_called (signal_names self.now.items) place.now }
    {
        let x = self.find(place.x)?;
        let y = self.find(place.y)?;
        if x == y {
            return None;
        }
        Some((x, y))
    }
}
