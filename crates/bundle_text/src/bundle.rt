//! What a bundle says.

ghost use Rattle.std.specs.Prelude.{◌≡◌};

use loop_degree::Label;
use loop_sets::Finding;
use report_reader::Section;
use std::marker::Model;
use tplane_paver::Run;

/// Items in order. A contract sees the list of them.
#[derive(Drop)]
pub struct Listed<T> {
    items: Vec<T>,
}

impl<T> Model for Listed<T> {
    ghost use Rattle.std.specs.Prelude.{List};

    ghost Value = { List T };

    ghost view = { λ l. l.items.items };
}

impl<T> Listed<T> {
    /// These items.
    pub fn new(items: Vec<T>) -> Listed<T>
        ensures { result ≡ items.items }
    {
        Listed { items }
    }

    /// The items as a slice.
    pub fn as_slice(&self) -> &[T]
        ensures { result.now ≡ self.now }
    {
        self.items.as_slice()
    }
}

/// A section, and the firings that are listed of it.
#[derive(Drop)]
pub struct TracedSection {
    /// The numbers of the contractors that were fired, in order.
    pub fired: Listed<u32>,
    /// What its text says.
    pub section: Section,
}

/// What is said of a set of pairs. Cells and corners are told of a set that is proved by its degree alone.
#[derive(Drop)]
pub struct TracedSet {
    /// How many pairs its line tells of.
    pub pairs: u64,
    /// The two ticks behind `a` in its line.
    pub a: (u32, u32),
    /// The two ticks behind `b` in its line.
    pub b: (u32, u32),
    /// What is found of it.
    pub finding: Finding,
    /// Its runs.
    pub runs: Listed<Run>,
    /// Its unit cells, each named by its corner.
    pub cells: Listed<(u32, u32)>,
    /// The corners of its boundary with their labels.
    pub corners: Listed<(u32, u32, Label)>,
}

/// What is said of a query.
#[derive(Drop)]
pub struct TracedQuery {
    /// Its number.
    pub number: u32,
    /// Its sets, or nothing where it is crowded.
    pub sets: Option<Listed<TracedSet>>,
}

/// What the text of a bundle says.
#[derive(Drop)]
pub struct Bundle {
    /// The bytes of the log, which may be any bytes.
    pub log: Listed<u8>,
    /// The sections.
    pub sections: Listed<TracedSection>,
    /// What was found of the queries over the box of the last section.
    pub queries: Listed<TracedQuery>,
}
