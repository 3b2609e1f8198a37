//! A mission: its clock and its records.

ghost use Rattle.std.specs.Prelude.{◌≡◌};

use crate::item::Item;
use slice_gates::Grid;
use std::marker::Model;

/// The records of a mission, in order. A contract sees the list of them.
#[derive(Drop)]
pub struct Items {
    items: Vec<Item>,
}

impl Model for Items {
    ghost use Rattle.std.specs.Prelude.{List};
    ghost use Rattle.std.specs.Coded.{codes};
    ghost use Rattle.formula_text.specs.Stored.{relation_code};
    ghost use Rattle.mission_items.specs.declared.item.Item.{Item};

    ghost Value = { List Item };

    ghost coded = { Prim.hlevel (codes, relation_code (Prim.hlevel codes)) };

    ghost view = { λ a. a.items.items };
}

impl Items {
    /// These records.
    pub fn new(items: Vec<Item>) -> Items
        ensures { result ≡ items.items }
    {
        Items { items }
    }

    /// The records as a slice.
    pub fn as_slice(&self) -> &[Item]
        ensures { result.now ≡ self.now }
    {
        self.items.as_slice()
    }
}

/// A mission: its clock, and what each record says.
#[derive(Drop)]
pub struct Mission {
    /// The version of the log.
    pub version: u32,
    /// The last tick of the clock.
    pub ticks: u32,
    /// The width of a slice in ticks; the last slice may be shorter, and cuts part slices.
    pub width: u32,
    /// The boundaries of the slices, from 0 to `ticks`, those of the cuts included.
    pub cuts: Grid,
    /// Item `i` is record `i + 1`, notes included.
    pub items: Items,
}
