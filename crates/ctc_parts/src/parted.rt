//! The trait of a contractor made of parts.

ghost use Rattle.std.specs.Prelude.{◌≡◌, ◌+◌, ◌<◌, ℕ, List, Option, IsTrue, IsFalse, IfSome, IsSomeAnd, Some, All, Contains};
ghost use Rattle.tube_spec.specs.Span.{Span};
ghost use Rattle.tube_spec.specs.Shape.{Shape, Extends};
ghost use Rattle.tube_spec.specs.Projection.{Projection, ReadsOnly};
ghost use Rattle.tube_spec.specs.Fixpoint.{IsFixpoint};
ghost use Rattle.ctc_core.specs.Answers.{Revises};
ghost use Rattle.ctc_parts.specs.Parts.{each_below, marked_in, AreClean, IsReach};

use ctc_core::{Contractor, Revised};
use std::ops::Range;
use std::sync::ledger::Ledger;
use step_count::Steps;
use tube_store::{CellId, Store};

/// A contractor whose projections come in parts, each with cells of its own that it reads.
///
/// Every call has the condition that the contractor fits the store. A firing and a test by marks have the condition that the box is stable
/// under each part that is not marked; then they say of all projections what [`Contractor::revise`] and [`Contractor::still`] say, and they
/// too tick one step. A part is marked where its number lies in the range `within` and its flag is set.
pub trait Parted: Contractor {
    /// How many parts there are.
    ghost parts: { Self → Shape → ℕ };

    /// The projections of a part.
    ghost part: { Self → Shape → ℕ → List Projection };

    /// The cells that the formulas of a part read.
    ghost part_scope: { Self → Shape → ℕ → List ℕ };

    /// How many parts there are.
    fn parts(&self, store: &Store) -> u32
        requires { Self.fits self.now store.now.shape store.now.box }
        ensures { result ≡ parts self.now store.now.shape };

    /// The parts that may read a cell: each that does has its number in this range.
    fn reach(&self, store: &Store, cell: CellId) -> Range<u32>
        requires { Self.fits self.now store.now.shape store.now.box }
        ensures { IsReach (parts self.now store.now.shape) (part_scope self.now store.now.shape) cell.0 result.start result.end };

    /// Fires the marked parts at least. The flags are the firing's own to change: it clears those of parts that it visits, and sets some of
    /// parts that it leaves to be visited. What they are afterwards has no meaning, and no part has to be looked for among them.
    fn revise_marked<L: Ledger>(
        &self,
        store: &mut Store,
        marks: &mut [bool],
        within: Range<u32>,
        steps: &mut Steps<L>,
    ) -> Revised
        requires fits { Self.fits self.now store.old.shape store.old.box }
        requires clean { AreClean (parts self.now store.old.shape) (part self.now store.old.shape) (marked_in marks.old within.start within.end) store.old.box }
        ensures revised { Revises (Self.projections self.now store.old.shape) store.old store.new result }
        ensures step { steps.new ≡ steps.old + 1 };

    /// Whether a firing would change the store: the box is neither empty nor a fixpoint. It looks at the marked parts alone.
    fn still_marked<L: Ledger>(
        &self,
        store: &Store,
        marks: &[bool],
        within: Range<u32>,
        steps: &mut Steps<L>,
    ) -> bool
        requires fits { Self.fits self.now store.now.shape store.now.box }
        requires clean { AreClean (parts self.now store.now.shape) (part self.now store.now.shape) (marked_in marks.now within.start within.end) store.now.box }
        ensures step { steps.new ≡ steps.old + 1 }
        ensures yes { IsTrue result → IsSomeAnd store.now.box (λ xs. IsFixpoint (Self.projections self.now store.now.shape) xs → ⊥) }
        ensures no { IsFalse result → IfSome store.now.box (IsFixpoint (Self.projections self.now store.now.shape)) };

    /// The parts together are the projections.
    ghost whole: { (c : Self) (s : Shape) → Self.projections c s ≡ each_below (part c s) (parts c s) };

    /// The formulas of a part read the cells of its scope alone, among the boxes that fit.
    ghost part_reads: { (c : Self) (s : Shape) (i : ℕ) → i < parts c s → All (ReadsOnly (λ xs. Self.fits c s (Some xs)) (part_scope c s i)) (part c s i) };

    /// The scope of a part lies in the scope of the whole.
    ghost part_in_scope: { (c : Self) (s : Shape) (i k : ℕ) → i < parts c s → Contains (part_scope c s i) k → Contains (Self.scope c s) k };

    /// Additions leave the number of parts as it was.
    ghost same_parts: { (c : Self) (s t : Shape) (b : Option (List Span)) → Extends s t → Self.fits c s b → parts c t ≡ parts c s };

    /// Additions leave each part as it was.
    ghost same_part: { (c : Self) (s t : Shape) (b : Option (List Span)) (i : ℕ) → Extends s t → Self.fits c s b → i < parts c s → part c t i ≡ part c s i };
}
