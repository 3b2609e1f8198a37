//! What stands under a number: a contractor, or none.

ghost use Rattle.std.specs.Prelude.{◌≡◌, ◌+◌, ◌<◌, ◌≤◌, ◌↔◌, ℕ, IsSome, IsTrue, IsFalse, IfSome, IsSomeAnd, Some, true, false, length, map};
ghost use Rattle.std.specs.List.Sorted.{IsStrictlyIncreasing};
ghost use Rattle.tube_spec.specs.Fixpoint.{IsFixpoint};
ghost use Rattle.ctc_core.specs.Answers.{Revises};
ghost use Rattle.ctc_parts.specs.Parts.{AreClean};
ghost use Rattle.part_marks.specs.Marks.{marked_at};
ghost use Rattle.tube_store.specs.Resets.{cell_in};
ghost use Rattle.ctc_network.specs.Nets.{of_place, fits_place};
ghost use Rattle.ctc_network.specs.Resetting.{Uses};

use crate::using::uses;
use ctc_core::{Contractor, Revised};
use ctc_parts::Parted;
use int_interval::Interval;
use part_marks::PartMarks;
use std::sync::ledger::Ledger;
use step_count::Steps;
use tube_store::{CellId, Store};

/// The contractor at a place that is not empty.
pub(crate) fn there<C: Contractor>(place: &Option<C>) -> &C
    requires { IsSome place.now }
    ensures { place.now ≡ Some result.now }
{
    match place {
        Some(contractor) => contractor,
        None => unreachable!(),
    }
}

/// Fires the marked parts at least of the contractor at a place that is not empty. All its marks are cleared.
pub(crate) fn revise<C: Parted, L: Ledger>(
    place: &Option<C>,
    marks: &mut PartMarks,
    store: &mut Store,
    steps: &mut Steps<L>,
) -> Revised
    requires there { IsSome place.now }
    requires fits { fits_place C.fits place.now store.old.shape store.old.box }
    requires clean { IfSome place.now (λ c. AreClean (C.parts c store.old.shape) (C.part c store.old.shape) (marked_at marks.old) store.old.box) }
    ensures revised { Revises (of_place C.projections place.now store.old.shape) store.old store.new result }
    ensures step { steps.new ≡ steps.old + 1 }
    ensures len { length marks.new.flags ≡ length marks.old.flags }
{
    marks.revise(there(place), store, steps)
}

/// Whether firing the contractor at a place that is not empty would change the store.
pub(crate) fn still<C: Parted, L: Ledger>(
    place: &Option<C>,
    marks: &PartMarks,
    store: &Store,
    steps: &mut Steps<L>,
) -> bool
    requires there { IsSome place.now }
    requires fits { fits_place C.fits place.now store.now.shape store.now.box }
    requires clean { IfSome place.now (λ c. AreClean (C.parts c store.now.shape) (C.part c store.now.shape) (marked_at marks.now) store.now.box) }
    ensures step { steps.new ≡ steps.old + 1 }
    ensures yes { IsTrue result → IsSomeAnd store.now.box (λ xs. IsFixpoint (of_place C.projections place.now store.now.shape) xs → ⊥) }
    ensures no { IsFalse result → IfSome store.now.box (IsFixpoint (of_place C.projections place.now store.now.shape)) }
{
    marks.still(there(place), store, steps)
}

/// Whether the contractor at a place reads or writes one of some cells, which rise. Where there is none, it does not.
pub(crate) fn uses_at<C: Contractor>(
    place: &Option<C>,
    store: &Store,
    cells: &[(CellId, Interval)],
) -> bool
    requires fits { fits_place C.fits place.now store.now.shape store.now.box }
    requires rising { IsStrictlyIncreasing (map cell_in cells.now) }
    ensures { IsTrue result ↔ Uses cells.now (of_place C.scope place.now store.now.shape) (of_place C.projections place.now store.now.shape) }
{
    match place {
        Some(c) => uses(c, store, cells),
        None => false,
    }
}

/// Marks all parts of the contractor at a place. No mark is cleared.
pub(crate) fn mark_all<C: Parted>(place: &Option<C>, store: &Store, marks: &mut PartMarks)
    requires fits { fits_place C.fits place.now store.now.shape store.now.box }
    requires len { IfSome place.now (λ c. C.parts c store.now.shape ≤ length marks.old.flags) }
    ensures len { length marks.new.flags ≡ length marks.old.flags }
    ensures kept { (i : ℕ) → marked_at marks.old i ≡ true → marked_at marks.new i ≡ true }
    ensures marked { IfSome place.now (λ c. (i : ℕ) → i < C.parts c store.now.shape → marked_at marks.new i ≡ true) }
{
    match place {
        Some(c) => marks.mark(0..c.parts(store)),
        None => {}
    }
}
