//! Any contractor as one of a single part.

ghost use Rattle.std.specs.Prelude.{◌≡◌, ◌+◌, ℕ, IsTrue, IsFalse, IfSome, IsSomeAnd};
ghost use Rattle.tube_spec.specs.Fixpoint.{IsFixpoint};
ghost use Rattle.ctc_core.specs.Answers.{Revises};
ghost use Rattle.ctc_parts.specs.Parts.{marked_in, AreClean};

use crate::marks::is_marked;
use ctc_core::{Contractor, Revised, start};
use std::ops::Range;
use std::sync::ledger::Ledger;
use step_count::Steps;
use tube_store::Store;

/// Fires a contractor that is taken as a single part, where this part is marked: the firing by marks of [`Parted`](crate::Parted).
pub fn revise_whole<C: Contractor, L: Ledger>(
    c: &C,
    store: &mut Store,
    marks: &[bool],
    within: Range<u32>,
    steps: &mut Steps<L>,
) -> Revised
    requires fits { C.fits c.now store.old.shape store.old.box }
    requires clean { AreClean 1 (λ i. C.projections c.now store.old.shape) (marked_in marks.now within.start within.end) store.old.box }
    ensures revised { Revises (C.projections c.now store.old.shape) store.old store.new result }
    ensures step { steps.new ≡ steps.old + 1 }
{
    if is_marked(marks, &within, 0) {
        return c.revise(store, steps);
    }
    steps.tick();
    start(store)
}

/// Whether a firing of a contractor that is taken as a single part would change the store: the test by marks of [`Parted`](crate::Parted).
pub fn still_whole<C: Contractor, L: Ledger>(
    c: &C,
    store: &Store,
    marks: &[bool],
    within: Range<u32>,
    steps: &mut Steps<L>,
) -> bool
    requires fits { C.fits c.now store.now.shape store.now.box }
    requires clean { AreClean 1 (λ i. C.projections c.now store.now.shape) (marked_in marks.now within.start within.end) store.now.box }
    ensures step { steps.new ≡ steps.old + 1 }
    ensures yes { IsTrue result → IsSomeAnd store.now.box (λ xs. IsFixpoint (C.projections c.now store.now.shape) xs → ⊥) }
    ensures no { IsFalse result → IfSome store.now.box (IsFixpoint (C.projections c.now store.now.shape)) }
{
    if is_marked(marks, &within, 0) {
        return c.still(store, steps);
    }
    store.known();
    steps.tick();
    false
}
