//! The list of a cell, walked from entry to entry.

ghost use Rattle.std.specs.Iterator.{YieldsFirst, item_count};

use std::marker::Model;

/// A contractor that reads a cell, and the place of the entry before it in the cell's list. Places count from 1, and 0 is the end.
#[derive(Clone, Copy)]
pub struct Entry {
    pub number: u32,
    pub before: u32,
}

/// The contractors that read a cell, the last added first.
#[derive(Drop)]
pub struct Chain<'a> {
    entries: &'a [Entry],
    place: u32,
}

impl<'a> Model for Chain<'a> {
    ghost use Rattle.std.specs.Prelude.{List, ℕ};
    ghost use Rattle.cell_readers.specs.Entries.{IsPlace, chain};

    ghost Value = { List ℕ };

    ghost view = { λ c. chain c.entries.now c.place };

    ghost invariant = { λ c. IsPlace c.entries.now c.place };
}

impl<'a> Chain<'a> {
    ghost use Rattle.std.specs.Prelude.{◌≡◌};
    ghost use Rattle.cell_readers.specs.Entries.{IsPlace, chain};

    /// The numbers from a place on.
    pub fn from_place(entries: &'a [Entry], place: u32) -> Chain<'a>
        requires { IsPlace entries.now place }
        ensures { result ≡ chain entries.now place }
    {
        Chain { entries, place }
    }
}

impl<'a> Iterator for Chain<'a> {
    type Item = u32;

    ghost next_gives = { YieldsFirst (λ left. left) };

    ghost remaining = { item_count (λ left. left) };

    fn next(&mut self) -> Option<u32> {
        if self.place == 0 {
            return None;
        }
        let entry = self.entries[self.place as usize - 1];
        self.place = entry.before;
        Some(entry.number)
    }
}
