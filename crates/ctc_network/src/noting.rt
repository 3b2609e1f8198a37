//! Who waits after a firing, and which parts are marked.

ghost use Rattle.std.specs.Prelude.{◌≡◌, ◌<◌, ◌≤◌, ℕ, Contains, length};
ghost use Rattle.ctc_core.specs.declared.Revised.TheVariants as Revised;
ghost use Rattle.cell_readers.specs.Entries.{readers_at};
ghost use Rattle.part_marks.specs.Nets.{Each, AreBeside, KeepsMarks, IsReached};
ghost use Rattle.ctc_network.specs.Noting.{Notes};

use cell_readers::Readers;
use ctc_core::Revised;
use ctc_parts::Parted;
use once_queue::Waiting;
use part_marks::{PartMarks, wake_touched};
use tube_store::Store;

/// Who waits after a firing, and which parts are marked. A contractor that left the box rests. One that narrowed cells waits, and so do the
/// readers of the touched cells, which are taken; of each of these the parts are marked that read such a cell.
pub fn note<C: Parted>(
    answer: Revised,
    number: u32,
    readers: &Readers,
    contractors: &[Option<C>],
    store: &mut Store,
    waiting: &mut Waiting,
    marks: &mut [PartMarks],
)
    requires number { number < length waiting.old }
    requires waiting { readers.now.contractors ≤ length waiting.old }
    requires among { readers.now.contractors ≤ length contractors.now }
    requires marks { readers.now.contractors ≤ length marks.old }
    requires fits { Each contractors.now (λ k c. C.fits c store.old.shape store.old.box) }
    requires beside { AreBeside C.parts store.old.shape contractors.now marks.old }
    ensures notes { Notes answer number readers.now.readers store.old store.new waiting.old waiting.new }
    ensures kept { KeepsMarks marks.old marks.new }
    ensures reached { answer ≡ Revised.Narrowed → (cell k : ℕ) → Contains store.old.touched cell → Contains (readers_at readers.now.readers cell) k → IsReached C.parts C.part_scope store.old.shape contractors.now marks.new cell k }
{
    match answer {
        Revised::Same => waiting.rest(number),
        Revised::Narrowed => {
            wake_touched(readers, contractors, store, waiting, marks);
            waiting.wake(number);
        }
        Revised::Empty => {}
    }
}
