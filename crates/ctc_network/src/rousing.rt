//! Who waits after a reset, and which parts are marked.

ghost use Rattle.std.specs.Prelude.{◌≡◌, ◌≢◌, ◌⊎◌, ◌↔◌, ◌<◌, ◌≤◌, ℕ, Some, true, IfSome, length, map, slice_get};
ghost use Rattle.std.specs.List.Sorted.{IsStrictlyIncreasing};
ghost use Rattle.tube_store.specs.Resets.{cell_in};
ghost use Rattle.part_marks.specs.Nets.{Each, AreBeside, KeepsMarks, marks_at};
ghost use Rattle.part_marks.specs.Marks.{marked_at};
ghost use Rattle.ctc_network.specs.Nets.{of_place};
ghost use Rattle.ctc_network.specs.Resetting.{IsRoused, Uses};

use crate::places::{mark_all, uses_at};
use ctc_parts::Parted;
use int_interval::Interval;
use once_queue::Waiting;
use part_marks::PartMarks;
use tube_store::{CellId, Store};

/// Wakes the contractors that read or write one of some cells, which rise, and marks all their parts.
pub fn rouse<C: Parted>(
    cells: &[(CellId, Interval)],
    contractors: &[Option<C>],
    store: &Store,
    waiting: &mut Waiting,
    marks: &mut [PartMarks],
)
    requires rising { IsStrictlyIncreasing (map cell_in cells.now) }
    requires waiting { length waiting.old ≡ length contractors.now }
    requires marks { length marks.old ≡ length contractors.now }
    requires fits { Each contractors.now (λ k c. C.fits c store.now.shape store.now.box) }
    requires beside { AreBeside C.parts store.now.shape contractors.now marks.old }
    ensures roused { IsRoused (of_place C.projections) (of_place C.scope) store.now.shape contractors.now cells.now waiting.old waiting.new }
    ensures kept { KeepsMarks marks.old marks.new }
    ensures marked { Each contractors.now (λ k c. Uses cells.now (C.scope c store.now.shape) (C.projections c store.now.shape) → (i : ℕ) → i < C.parts c store.now.shape → marked_at (marks_at marks.new k) i ≡ true) }
{
    for number in 0..waiting.len() {
        rouse_at(cells, contractors, store, number, waiting, marks);
    }
}

// Wakes the contractor with a number, where it reads or writes one of some cells, and marks all its parts.
fn rouse_at<C: Parted>(
    cells: &[(CellId, Interval)],
    contractors: &[Option<C>],
    store: &Store,
    number: u32,
    waiting: &mut Waiting,
    marks: &mut [PartMarks],
)
    requires rising { IsStrictlyIncreasing (map cell_in cells.now) }
    requires among { number < length contractors.now }
    requires waiting { number < length waiting.old }
    requires marks { number < length marks.old }
    requires fits { Each contractors.now (λ k c. C.fits c store.now.shape store.now.box) }
    requires beside { AreBeside C.parts store.now.shape contractors.now marks.old }
    ensures len { length waiting.new ≡ length waiting.old }
    ensures others { (k : ℕ) → k ≢ number → slice_get waiting.new k ≡ slice_get waiting.old k }
    ensures roused { IfSome (slice_get contractors.now number) (λ c. (slice_get waiting.new number ≡ Some true) ↔ ((slice_get waiting.old number ≡ Some true) ⊎ Uses cells.now (of_place C.scope c store.now.shape) (of_place C.projections c store.now.shape))) }
    ensures kept { KeepsMarks marks.old marks.new }
    ensures marked { IfSome (slice_get contractors.now number) (λ o. IfSome o (λ c. Uses cells.now (C.scope c store.now.shape) (C.projections c store.now.shape) → (i : ℕ) → i < C.parts c store.now.shape → marked_at (marks_at marks.new number) i ≡ true)) }
{
    let place = number as usize;
    if uses_at(&contractors[place], store, cells) {
        waiting.wake(number);
        mark_all(&contractors[place], store, &mut marks[place]);
    }
}
