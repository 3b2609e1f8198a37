//! Waking the contractors that read a cell that became narrower, and marking the parts of them that read it.

ghost use Rattle.std.specs.Prelude.{◌≡◌, ◌<◌, ◌≤◌, [], ℕ, Contains, length};
ghost use Rattle.cell_readers.specs.Entries.{AreAwake, WakesReaders, readers_at};
ghost use Rattle.part_marks.specs.Nets.{Each, AreBeside, KeepsMarks, IsReached};

use crate::marks::PartMarks;
use cell_readers::Readers;
use ctc_parts::Parted;
use once_queue::Waiting;
use tube_store::{CellId, Store};

/// Marks the parts of the contractor with a number that read a cell, where there is one. One of a single part is not looked at.
fn mark_reader<C: Parted>(
    contractors: &[Option<C>],
    store: &Store,
    cell: CellId,
    number: u32,
    marks: &mut [PartMarks],
)
    requires fits { Each contractors.now (λ k c. C.fits c store.now.shape store.now.box) }
    requires beside { AreBeside C.parts store.now.shape contractors.now marks.old }
    requires among { number < length contractors.now }
    requires marks { number < length marks.old }
    ensures kept { KeepsMarks marks.old marks.new }
    ensures reached { IsReached C.parts C.part_scope store.now.shape contractors.now marks.new cell.0 number }
{
    if marks[number as usize].mark_only_one() {
        return;
    }
    match &contractors[number as usize] {
        Some(c) => marks[number as usize].mark_readers(c, store, cell),
        None => {}
    }
}

/// Wakes exactly those that read a cell, and marks the parts of them that read it.
fn wake_readers<C: Parted>(
    readers: &Readers,
    contractors: &[Option<C>],
    store: &Store,
    cell: CellId,
    waiting: &mut Waiting,
    marks: &mut [PartMarks],
)
    requires waiting { readers.now.contractors ≤ length waiting.old }
    requires among { readers.now.contractors ≤ length contractors.now }
    requires marks { readers.now.contractors ≤ length marks.old }
    requires fits { Each contractors.now (λ k c. C.fits c store.now.shape store.now.box) }
    requires beside { AreBeside C.parts store.now.shape contractors.now marks.old }
    ensures woken { AreAwake (readers_at readers.now.readers cell.0) waiting.old waiting.new }
    ensures kept { KeepsMarks marks.old marks.new }
    ensures reached { (k : ℕ) → Contains (readers_at readers.now.readers cell.0) k → IsReached C.parts C.part_scope store.now.shape contractors.now marks.new cell.0 k }
{
    for number in readers.of(cell) {
        waiting.wake(number);
        mark_reader(contractors, store, cell, number, marks);
    }
}

/// Takes the touched cells of a store, wakes exactly those that read one of them, and marks the parts of them that read it.
pub fn wake_touched<C: Parted>(
    readers: &Readers,
    contractors: &[Option<C>],
    store: &mut Store,
    waiting: &mut Waiting,
    marks: &mut [PartMarks],
)
    requires waiting { readers.now.contractors ≤ length waiting.old }
    requires among { readers.now.contractors ≤ length contractors.now }
    requires marks { readers.now.contractors ≤ length marks.old }
    requires fits { Each contractors.now (λ k c. C.fits c store.old.shape store.old.box) }
    requires beside { AreBeside C.parts store.old.shape contractors.now marks.old }
    ensures store { store.new ≡ record store.old { touched = [] } }
    ensures woken { WakesReaders readers.now.readers store.old.touched waiting.old waiting.new }
    ensures kept { KeepsMarks marks.old marks.new }
    ensures reached { (cell k : ℕ) → Contains store.old.touched cell → Contains (readers_at readers.now.readers cell) k → IsReached C.parts C.part_scope store.old.shape contractors.now marks.new cell k }
{
    while let Some(cell) = store.next_touched() {
        wake_readers(readers, contractors, store, cell, waiting, marks);
    }
}
