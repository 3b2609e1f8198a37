//! The table of the contractors that read each cell.

ghost use Rattle.std.specs.Prelude.{◌≡◌, ◌+◌, ◌<◌, ◌≤◌, ◌++◌, [], ◌∷◌, ℕ, List, All, Contains, OnOk, OnErr, length, slice_index, slice_set, cond, false, true, nat_eq, vec_len, vec_capacity, map};
ghost use Rattle.cell_readers.specs.Entries.{AreChained, AreReaders, AddsReader, Drops, IsPlace, begins, chain, noted, number_at, readers_at, reads_cell, times, without};

use crate::chain::{Chain, Entry};
use ctc_core::Contractor;
use std::alloc::{AllocError, Global};
use std::marker::Model;
use tube_store::{CellId, Store};

// The most entries that the table may have.
const MOST_ENTRIES: usize = 4_000_000_000;

/// For each cell the contractors that read it. A contractor stands once in a cell's list, however often it reads the cell.
///
/// A contractor is added in two steps: [`Readers::cover`] takes all memory, and [`Readers::add`] takes none. One that is removed leaves its
/// entries unused.
#[derive(Drop)]
pub struct Readers {
    // For each cell the place of its list's first entry.
    heads: Vec<u32>,
    entries: Vec<Entry>,
    // How many contractors were added.
    contractors: u32,
}

impl Model for Readers {
    ghost use Rattle.std.specs.Prelude.{length, map, vec_capacity};
    ghost use Rattle.cell_readers.specs.Entries.{AreChained, Table, chain};

    ghost Value = { Table };

    ghost view = { λ r. record {
      readers = map (chain r.entries.items) r.heads.items;
      entries = length r.entries.items;
      contractors = r.contractors;
      room = vec_capacity r.entries;
    } };

    ghost invariant = { λ r. AreChained r.entries.items r.heads.items r.contractors };
}

impl Readers {
    /// No cell. It takes no memory.
    pub fn new(alloc: Global) -> Readers
        ensures readers { result.readers ≡ [] }
        ensures entries { result.entries ≡ 0 }
        ensures contractors { result.contractors ≡ 0 }
    {
        Readers {
            heads: Vec::new(alloc),
            entries: Vec::new(alloc),
            contractors: 0,
        }
    }

    /// Those that read a cell, the last added first. Nobody reads a cell that is not there.
    pub fn of(&self, cell: CellId) -> Chain<'_>
        ensures list { result ≡ readers_at self.now.readers cell.0 }
        ensures numbers { All (λ n. n < self.now.contractors) result }
        ensures few { length result ≤ 4000000000 }
    {
        Chain::from_place(&self.entries, head(&self.heads, cell.0))
    }

    /// How many read a cell.
    pub fn count(&self, cell: CellId) -> u32
        ensures { result ≡ length (readers_at self.now.readers cell.0) }
    {
        let mut count = 0;
        for _number in self.of(cell) {
            count += 1;
        }
        count
    }

    /// Takes memory for so many cells, and for so many entries more. The readers of each cell stay, also where there is no memory. For more
    /// than 4,000,000,000 entries in all, unused ones included, there is none.
    pub fn cover(&mut self, cells: usize, entries: usize) -> Result<(), AllocError>
        ensures long { OnOk result (cells ≤ length self.new.readers) }
        ensures room { OnOk result (self.new.entries + entries ≤ self.new.room) }
        ensures few { OnOk result (self.new.entries + entries ≤ 4000000000) }
        ensures same { (cell : ℕ) → readers_at self.new.readers cell ≡ readers_at self.old.readers cell }
        ensures entries { self.new.entries ≡ self.old.entries }
        ensures contractors { self.new.contractors ≡ self.old.contractors }
    {
        lengthen(&mut self.heads, cells)?;
        if entries > MOST_ENTRIES - self.entries.len() {
            return Err(AllocError);
        }
        self.entries.reserve(entries)?;
        Ok(())
    }

    /// Adds the next contractor. It takes no memory.
    pub fn add<C: Contractor>(&mut self, c: &C, store: &Store)
        requires fits { C.fits c.now store.now.shape store.now.box }
        requires cells { store.now.shape.cells ≤ length self.old.readers }
        requires contractors { self.old.contractors < 4000000000 }
        requires few { self.old.entries + length (C.scope c.now store.now.shape) ≤ 4000000000 }
        requires room { self.old.entries + length (C.scope c.now store.now.shape) ≤ self.old.room }

        // The number goes to the front of the list of each cell that it reads. So where the lists had exactly those that read, they have
        // them again.
        ensures adds { AddsReader self.old.readers self.old.contractors (C.scope c.now store.now.shape) self.new.readers }
        ensures exact { (scopes : List (List ℕ)) → self.old.contractors ≡ length scopes → AreReaders scopes self.old.readers → AreReaders (scopes ++ C.scope c.now store.now.shape ∷ []) self.new.readers }
        ensures contractors { self.new.contractors ≡ self.old.contractors + 1 }
        ensures entries { self.new.entries ≤ self.old.entries + length (C.scope c.now store.now.shape) }
    {
        store.known();
        let number = self.contractors;
        let reads = c.reads(store);
        for i in 0..reads {
            let cell = c.read(store, i).0;
            note(&mut self.heads, &mut self.entries, number, cell);
        }
        self.contractors = number + 1;
    }

    /// Takes a contractor out of the lists of the cells that it reads, and so out of all. Its number stays given. It takes no memory.
    pub fn remove<C: Contractor>(&mut self, c: &C, number: u32, store: &Store)
        requires fits { C.fits c.now store.now.shape store.now.box }
        requires listed { (cell : ℕ) → Contains (readers_at self.old.readers cell) number → reads_cell (C.scope c.now store.now.shape) cell ≡ true }

        // So where the lists had exactly those that read, they have them again, of whom this one reads nothing.
        ensures lists { (cell : ℕ) → readers_at self.new.readers cell ≡ without number (readers_at self.old.readers cell) }
        ensures exact { (scopes : List (List ℕ)) → number < length scopes → AreReaders scopes self.old.readers → AreReaders (slice_set scopes number []) self.new.readers }
        ensures contractors { self.new.contractors ≡ self.old.contractors }
        ensures entries { self.new.entries ≡ self.old.entries }
        ensures room { self.new.room ≡ self.old.room }
    {
        store.known();
        let reads = c.reads(store);
        for i in 0..reads {
            let cell = c.read(store, i).0;
            unlist(&mut self.heads, &mut self.entries, number, cell);
        }
    }
}

/// Puts a number at the front of a cell's list, unless it stands there.
fn note(heads: &mut Vec<u32>, entries: &mut Vec<Entry>, number: u32, cell: u32)
    requires chained { AreChained entries.old.items heads.old.items (number + 1) }
    requires named { cell < length heads.old.items }
    requires few { length entries.old.items < 4000000000 }
    requires room { vec_len entries.old < vec_capacity entries.old }
    ensures chained { AreChained entries.new.items heads.new.items (number + 1) }
    ensures noted { (k : ℕ) → chain entries.new.items (slice_index heads.new.items k) ≡ cond (nat_eq k cell) (noted number (chain entries.old.items (slice_index heads.old.items k))) (chain entries.old.items (slice_index heads.old.items k)) }
    ensures cells { length heads.new.items ≡ length heads.old.items }
    ensures capacity { vec_capacity entries.new ≡ vec_capacity entries.old }
    ensures more { vec_len entries.new ≤ vec_len entries.old + 1 }
{
    let place = heads[cell as usize];
    if is_first(entries, place, number) {
        return;
    }
    entries.push_reserved(Entry {
        number,
        before: place,
    });
    heads[cell as usize] = entries.len() as u32;
}

/// Takes a number out of a cell's list.
fn unlist(heads: &mut Vec<u32>, entries: &mut Vec<Entry>, number: u32, cell: u32)
    requires { IsPlace entries.old.items (slice_index heads.old.items cell) }
    ensures chained { (contractors : ℕ) → AreChained entries.old.items heads.old.items contractors → AreChained entries.new.items heads.new.items contractors }
    ensures gone { times number (chain entries.new.items (slice_index heads.new.items cell)) ≡ 0 }
    ensures drops { (k : ℕ) → Drops number (chain entries.old.items (slice_index heads.old.items k)) (chain entries.new.items (slice_index heads.new.items k)) }
    ensures cells { length heads.new.items ≡ length heads.old.items }
    ensures len { length entries.new.items ≡ length entries.old.items }
    ensures capacity { vec_capacity entries.new ≡ vec_capacity entries.old }
{
    let place = past(entries, head(heads, cell), number);
    drop_behind(entries, place, number);
    if (cell as usize) < heads.len() {
        heads[cell as usize] = place;
    }
}

/// The place of the first entry in the list at a place that has another number, or the end.
fn past(entries: &[Entry], place: u32, number: u32) -> u32
    requires { IsPlace entries.now place }
    ensures place { IsPlace entries.now result }
    ensures before { result ≤ place }
    ensures other { begins number (chain entries.now result) ≡ false }
    ensures drops { Drops number (chain entries.now place) (chain entries.now result) }
{
    let mut at = place;
    while is_first(entries, at, number) {
        at = entries[at as usize - 1].before;
    }
    at
}

/// Takes a number out of the list at a place, which begins with another one.
fn drop_behind(entries: &mut Vec<Entry>, place: u32, number: u32)
    requires place { IsPlace entries.old.items place }
    requires other { begins number (chain entries.old.items place) ≡ false }
    ensures place { IsPlace entries.new.items place }
    ensures gone { times number (chain entries.new.items place) ≡ 0 }
    ensures drops { (k : ℕ) → Drops number (chain entries.old.items k) (chain entries.new.items k) }
    ensures numbers { (k : ℕ) → number_at entries.new.items k ≡ number_at entries.old.items k }
    ensures len { length entries.new.items ≡ length entries.old.items }
    ensures capacity { vec_capacity entries.new ≡ vec_capacity entries.old }
{
    let mut at = place;
    while at > 0 {
        let next = past(entries, entries[at as usize - 1].before, number);
        entries[at as usize - 1].before = next;
        at = next;
    }
}

/// Whether the list at a place begins with a number.
fn is_first(entries: &[Entry], place: u32, number: u32) -> bool
    requires { IsPlace entries.now place }
    ensures { result ≡ begins number (chain entries.now place) }
{
    if place == 0 {
        return false;
    }
    entries[place as usize - 1].number == number
}

/// The place where a cell's list begins, and 0 past the last cell.
fn head(heads: &[u32], cell: u32) -> u32
    ensures { result ≡ slice_index heads.now cell }
{
    match heads.get(cell as usize) {
        Some(head) => *head,
        None => 0,
    }
}

/// Fills a list up with zeros to a length.
fn lengthen(list: &mut Vec<u32>, len: usize) -> Result<(), AllocError>
    ensures long { OnOk result (len ≤ length list.new.items) }
    ensures same { (k : ℕ) → slice_index list.new.items k ≡ slice_index list.old.items k }
{
    if list.len() < len {
        list.resize(len, 0)?;
    }
    Ok(())
}
