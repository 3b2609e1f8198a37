//! Waking the readers of a cell, and of all touched cells.

ghost use Rattle.std.specs.Prelude.{◌≡◌, ◌≤◌, [], length};
ghost use Rattle.cell_readers.specs.Entries.{AreAwake, WakesReaders, readers_at};

use crate::readers::Readers;
use once_queue::Waiting;
use tube_store::{CellId, Store};

/// Wakes exactly those that read a cell.
pub fn wake_readers(readers: &Readers, cell: CellId, waiting: &mut Waiting)
    requires { readers.now.contractors ≤ length waiting.old }
    ensures { AreAwake (readers_at readers.now.readers cell.0) waiting.old waiting.new }
{
    for number in readers.of(cell) {
        waiting.wake(number);
    }
}

/// Takes the touched cells of a store, and wakes exactly those that read one of them.
pub fn wake_touched(readers: &Readers, store: &mut Store, waiting: &mut Waiting)
    requires { readers.now.contractors ≤ length waiting.old }
    ensures store { store.new ≡ record store.old { touched = [] } }
    ensures woken { WakesReaders readers.now.readers store.old.touched waiting.old waiting.new }
{
    while let Some(cell) = store.next_touched() {
        wake_readers(readers, cell, waiting);
    }
}
