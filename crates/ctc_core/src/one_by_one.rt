//! A firing made of projections held one by one, and the check that none would narrow.

ghost use Rattle.std.specs.Prelude.{◌≡◌, ◌<◌, ℕ, List, Option, [], ◌∷◌, IsTrue, IsFalse, IsSome, IfSome, IsSomeAnd, Some, All, length};
ghost use Rattle.tube_spec.specs.Span.{Span};
ghost use Rattle.tube_spec.specs.Shape.{Shape, IsShape};
ghost use Rattle.tube_spec.specs.Box.{IsBelowBox};
ghost use Rattle.tube_spec.specs.Projection.{Projection, IsMonotone};
ghost use Rattle.tube_spec.specs.Fixpoint.{IsFixpoint};
ghost use Rattle.ctc_core.specs.Answers.{Revises};
ghost use Rattle.ctc_core.specs.Checking.{Checks};
ghost use Rattle.ctc_core.specs.Given.{projection_at, narrowing_given};

use super::{Revised, hold, is_held, start};
use int_interval::Interval;
use tube_store::{CellId, Store};

/// What a formula gives in a box.
#[derive(Clone, Copy, Debug, PartialEq, Eq)]
pub enum Given {
    /// The whole line: the target is not held.
    Whole,
    /// No number: there is no fixpoint.
    Nothing,
    /// An interval.
    Within(Interval),
}

/// Projections whose formulas are computed one by one, each from the box of that moment.
///
/// A contractor of this kind has its `revise` and `still` from [`revise_by_formulas`] and [`still_by_formulas`].
pub trait Formulas {
    /// The projections, in order.
    ghost projections: { Self → Shape → List Projection };

    /// The names are of the store, and the intervals are as the type asks.
    ghost fits: { Self → Shape → Option (List Span) → Type 0 };

    /// How many projections there are.
    fn count(&self, store: &Store) -> u32
        requires { fits self.now store.now.shape store.now.box }
        ensures { result ≡ length (projections self.now store.now.shape) };

    /// The target of the projection with a number.
    fn target(&self, store: &Store, i: u32) -> CellId
        requires fits { fits self.now store.now.shape store.now.box }
        requires below { i < length (projections self.now store.now.shape) }
        ensures { result.0 ≡ (projection_at (projections self.now store.now.shape) i).target };

    /// What the formula of the projection with a number gives.
    fn given(&self, store: &Store, i: u32) -> Given
        requires fits { fits self.now store.now.shape store.now.box }
        requires below { i < length (projections self.now store.now.shape) }
        requires filled { IsSome store.now.box }
        ensures { IfSome store.now.box (λ xs. narrowing_given result ≡ (projection_at (projections self.now store.now.shape) i).formula xs) };

    ghost monotone: { (c : Self) (s : Shape) → All (IsMonotone (λ xs. fits c s (Some xs))) (projections c s) };

    ghost fits_below: { (c : Self) (s : Shape) (a b : Option (List Span)) → IsBelowBox a b → fits c s b → fits c s a };

    ghost in_store: { (c : Self) (s : Shape) (b : Option (List Span)) → IsShape s → fits c s b → All (λ p. p.target < s.cells) (projections c s) };
}

/// Fires the projection with a number.
fn revise_at<F: Formulas>(formulas: &F, store: &mut Store, i: u32) -> Revised
    requires fits { F.fits formulas.now store.old.shape store.old.box }
    requires below { i < length (F.projections formulas.now store.old.shape) }
    ensures { Revises (projection_at (F.projections formulas.now store.old.shape) i ∷ []) store.old store.new result }
{
    store.known();
    if store.is_empty() {
        return Revised::Empty;
    }
    let cell = formulas.target(store, i);
    match formulas.given(store, i) {
        Given::Whole => start(store),
        Given::Nothing => hold(store, cell, None),
        Given::Within(to) => hold(store, cell, Some(to)),
    }
}

/// Fires each projection once, in order.
pub fn revise_by_formulas<F: Formulas>(formulas: &F, store: &mut Store) -> Revised
    requires { F.fits formulas.now store.old.shape store.old.box }
    ensures { Revises (F.projections formulas.now store.old.shape) store.old store.new result }
{
    let mut answer = start(store);
    for i in 0..formulas.count(store) {
        let next = revise_at(formulas, store, i);
        answer = answer.then(next);
    }
    answer
}

/// Tests the projection with a number.
fn is_held_at<F: Formulas>(formulas: &F, store: &Store, i: u32) -> bool
    requires fits { F.fits formulas.now store.now.shape store.now.box }
    requires below { i < length (F.projections formulas.now store.now.shape) }
    requires filled { IsSome store.now.box }
    ensures { Checks (projection_at (F.projections formulas.now store.now.shape) i ∷ []) store.now.box result }
{
    store.known();
    let cell = formulas.target(store, i);
    match formulas.given(store, i) {
        Given::Whole => true,
        Given::Nothing => false,
        Given::Within(to) => is_held(store, cell, Some(to)),
    }
}

/// Whether the box is stable under each projection.
fn is_each_held<F: Formulas>(formulas: &F, store: &Store) -> bool
    requires fits { F.fits formulas.now store.now.shape store.now.box }
    requires filled { IsSome store.now.box }
    ensures { Checks (F.projections formulas.now store.now.shape) store.now.box result }
{
    for i in 0..formulas.count(store) {
        if !is_held_at(formulas, store, i) {
            return false;
        }
    }
    true
}

/// Whether the box is neither empty nor a fixpoint of the projections.
pub fn still_by_formulas<F: Formulas>(formulas: &F, store: &Store) -> bool
    requires { F.fits formulas.now store.now.shape store.now.box }
    ensures yes { IsTrue result → IsSomeAnd store.now.box (λ xs. IsFixpoint (F.projections formulas.now store.now.shape) xs → ⊥) }
    ensures no { IsFalse result → IfSome store.now.box (IsFixpoint (F.projections formulas.now store.now.shape)) }
{
    store.known();
    if store.is_empty() {
        return false;
    }
    !is_each_held(formulas, store)
}
