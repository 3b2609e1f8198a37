//! Contractors over a store of cells: the trait, its laws, and what its authors need to obey them.
//!
//! A contractor narrows the cells of a box and removes no fixpoint of its projections. A projection is a target cell and a formula, which
//! gives for each box that is not empty the whole line, nothing, or an interval. A box is stable under a projection where its target lies
//! within what the formula gives, and it is a fixpoint where it is stable under each. Boxes of narrower intervals lie below it, and the
//! empty box below all.
//!
//! To write a contractor, give its projections as a definition over its own names and numbers, and fire them one after another:
//!
//! - [`hold`] fires one projection, from what its formula gives of the store's box, and [`is_held`] tests one;
//! - [`start`] is the answer of no firing, and [`Revised::then`] that of one firing and then another;
//! - or implement [`Formulas`], which computes each formula by itself, and take `revise` from [`revise_by_formulas`] and `still` from
//!   [`still_by_formulas`].
//!
//! The idea of a contractor is that of Jaulin, Kieffer, Didrit and Walter, Applied Interval Analysis (2001), and of Chabert and Jaulin,
//! Contractor Programming (2009); contractors over the cells of tubes are those of Codac (Rohou, Jaulin and others).
#![tactic(auto)]

ghost use Rattle.std.specs.Prelude.{◌≡◌, ◌+◌, ◌<◌, [], ◌∷◌, ℕ, List, Option, IsTrue, IsSome, IfSome, Some, All, length, slice_index, IsFalse, IsSomeAnd, Contains};
ghost use Rattle.tube_spec.specs.Span.{Span};
ghost use Rattle.tube_spec.specs.Narrowing.{Whole};
ghost use Rattle.tube_spec.specs.Shape.{Shape, IsShape, Extends};
ghost use Rattle.tube_spec.specs.Box.{IsBelowBox, box_more, cell_at};
ghost use Rattle.tube_spec.specs.Projection.{Projection, IsMonotone, ReadsOnly};
ghost use Rattle.tube_spec.specs.Fixpoint.{IsFixpoint};
ghost use Rattle.ctc_core.specs.Answers.{Revises, then_of, revised_of};
ghost use Rattle.ctc_core.specs.Given.{projection_at};

mod holding;
mod laws;
mod one_by_one;

pub use holding::{hold, is_held};
pub use laws::firing_law;
pub use one_by_one::{Formulas, Given, revise_by_formulas, still_by_formulas};
use std::sync::ledger::Ledger;
use step_count::Steps;
use tube_store::{CellId, Cut, Store};

/// What a firing did.
#[derive(Clone, Copy, Debug, PartialEq, Eq)]
pub enum Revised {
    /// Nothing: the box is a fixpoint.
    Same,
    /// Some cell is narrower, and the box is not empty.
    Narrowed,
    /// The box is empty, and no fixpoint lay below it.
    Empty,
}

impl Revised {
    /// The answer of this firing and then another.
    pub fn then(self, later: Revised) -> Revised
        ensures { result ≡ then_of self later }
    {
        match (self, later) {
            (Revised::Empty, _) | (_, Revised::Empty) => Revised::Empty,
            (Revised::Same, Revised::Same) => Revised::Same,
            _ => Revised::Narrowed,
        }
    }

    // The answer of a firing that made one cut.
    fn of_cut(cut: Cut) -> Revised
        ensures { result ≡ revised_of cut }
    {
        match cut {
            Cut::Same => Revised::Same,
            Cut::Narrowed => Revised::Narrowed,
            Cut::Empty => Revised::Empty,
        }
    }
}

/// The answer of no firing, and of firing a projection whose formula gives the whole line.
pub fn start(store: &Store) -> Revised
    ensures none { Revises [] store.now store.now result }
    ensures whole { (p : Projection) → IfSome store.now.box (λ xs. p.formula xs ≡ Whole) → Revises (p ∷ []) store.now store.now result }
{
    store.known();
    if store.is_empty() {
        Revised::Empty
    } else {
        Revised::Same
    }
}

/// A contractor: its projections, the cells that it reads, and its firing.
///
/// Every call has the condition that the contractor fits the store. It is seen as plain data, its own names and numbers, and three
/// definitions over that data and the store's shape say all that contracts know of it. No call takes memory.
///
/// - `revise` leaves a box below the old one, and every fixpoint below the old box lies below the new one. It changes the box and the
///   touched cells alone: where the store is not empty afterwards, the touched cells are those from before and those that are narrower.
/// - Where the store is not empty afterwards, each target lies within what its formula gave of the old box.
/// - `Same` comes only where the box is a fixpoint, and changes nothing. `Narrowed` comes only where some cell is narrower. `Empty`
///   comes only where no fixpoint lies below the old box, and the store is empty then; an empty store stays as it was.
/// - `still` is true exactly where the box is neither empty nor a fixpoint.
/// - Both tick one step.
///
/// [`firing_law`] says what follows from these.
pub trait Contractor {
    /// What each cell that it writes is held by.
    ghost projections: { Self → Shape → List Projection };

    /// The cells that its formulas read.
    ghost scope: { Self → Shape → List ℕ };

    /// The names are of the store, and the intervals are as the type asks.
    ghost fits: { Self → Shape → Option (List Span) → Type 0 };

    /// How many cells it reads.
    fn reads(&self, store: &Store) -> u32
        requires { fits self.now store.now.shape store.now.box }
        ensures { result ≡ length (scope self.now store.now.shape) };

    /// The cell with a number of those that it reads.
    fn read(&self, store: &Store, i: u32) -> CellId
        requires fits { fits self.now store.now.shape store.now.box }
        requires below { i < length (scope self.now store.now.shape) }
        ensures { result.0 ≡ slice_index (scope self.now store.now.shape) i };

    /// How many projections it has.
    fn writes(&self, store: &Store) -> u32
        requires { fits self.now store.now.shape store.now.box }
        ensures { result ≡ length (projections self.now store.now.shape) };

    /// The target of the projection with a number.
    fn written(&self, store: &Store, i: u32) -> CellId
        requires fits { fits self.now store.now.shape store.now.box }
        requires below { i < length (projections self.now store.now.shape) }
        ensures { result.0 ≡ (projection_at (projections self.now store.now.shape) i).target };

    /// Fires it: narrows the cells by what the formulas give.
    fn revise<L: Ledger>(&self, store: &mut Store, steps: &mut Steps<L>) -> Revised
        requires { fits self.now store.old.shape store.old.box }
        ensures revised { Revises (projections self.now store.old.shape) store.old store.new result }
        ensures step { steps.new ≡ steps.old + 1 };

    /// Whether a firing would change the store: the box is neither empty nor a fixpoint.
    fn still<L: Ledger>(&self, store: &Store, steps: &mut Steps<L>) -> bool
        requires { fits self.now store.now.shape store.now.box }
        ensures step { steps.new ≡ steps.old + 1 }
        ensures yes { IsTrue result → IsSomeAnd store.now.box (λ xs. IsFixpoint (projections self.now store.now.shape) xs → ⊥) }
        ensures no { IsFalse result → IfSome store.now.box (IsFixpoint (projections self.now store.now.shape)) };

    /// Formulas give less in a lesser box, among the boxes that fit.
    ghost monotone: { (c : Self) (s : Shape) → All (IsMonotone (λ xs. fits c s (Some xs))) (projections c s) };

    /// Formulas read the cells of the scope alone, among the boxes that fit.
    ghost reads_only: { (c : Self) (s : Shape) → All (ReadsOnly (λ xs. fits c s (Some xs)) (scope c s)) (projections c s) };

    /// What a type asks of intervals, it asks of cells of the scope.
    ghost fits_local: { (c : Self) (s : Shape) (xs ys : List Span) → ((k : ℕ) → Contains (scope c s) k → cell_at xs k ≡ cell_at ys k) → fits c s (Some xs) → fits c s (Some ys) };

    /// What fits with a box fits with every box below.
    ghost fits_below: { (c : Self) (s : Shape) (a b : Option (List Span)) → IsBelowBox a b → fits c s b → fits c s a };

    /// The cells that it names are of the store.
    ghost in_store: { (c : Self) (s : Shape) (b : Option (List Span)) → IsShape s → fits c s b → All (λ k. k < s.cells) (scope c s) × All (λ p. p.target < s.cells) (projections c s) };

    /// What fits a store fits it after every addition.
    ghost fits_more: { (c : Self) (s t : Shape) (b : Option (List Span)) (more : List Span) → Extends s t → fits c s b → fits c t (box_more b more) };

    /// Additions leave the projections as they were.
    ghost same_projections: { (c : Self) (s t : Shape) (b : Option (List Span)) → Extends s t → fits c s b → projections c t ≡ projections c s };

    /// Additions leave the scope as it was.
    ghost same_scope: { (c : Self) (s t : Shape) (b : Option (List Span)) → Extends s t → fits c s b → scope c t ≡ scope c s };
}
