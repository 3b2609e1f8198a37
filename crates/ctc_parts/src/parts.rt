//! Parts in a row, as the author of a contractor gives them.

ghost use Rattle.std.specs.Prelude.{◌≡◌, ◌<◌, ℕ, List, Option, IsSome, Some, All, length};
ghost use Rattle.tube_spec.specs.Span.{Span};
ghost use Rattle.tube_spec.specs.Shape.{Shape, IsShape};
ghost use Rattle.tube_spec.specs.Box.{IsBelowBox};
ghost use Rattle.tube_spec.specs.Projection.{Projection, IsMonotone};
ghost use Rattle.ctc_core.specs.Answers.{Revises};
ghost use Rattle.ctc_core.specs.Checking.{Checks};
ghost use Rattle.ctc_core.specs.Given.{projection_at};
ghost use Rattle.ctc_parts.specs.Parts.{each_below};

use ctc_core::Revised;
use tube_store::{CellId, Store};

/// What a visit of a part did, and which parts it concerns. Only the answer is bound by a contract: the rest says where a sweep looks next.
#[derive(Clone, Copy, Debug, PartialEq, Eq)]
pub struct Visit {
    /// What the firing of the part did.
    pub answer: Revised,
    /// A cell that the part before reads is narrower.
    pub before: bool,
    /// A cell that the part after reads is narrower.
    pub after: bool,
    /// A cell is narrower of which the part itself may make more.
    pub again: bool,
}

/// Parts in a row, each of which may share cells with its neighbours.
pub trait Parts {
    /// The names are of the store, and the intervals are as the type asks.
    ghost fits: { Self → Shape → Option (List Span) → Type 0 };

    /// How many parts there are.
    ghost parts: { Self → Shape → ℕ };

    /// The projections of a part.
    ghost part: { Self → Shape → ℕ → List Projection };

    /// How many parts there are.
    fn count(&self, store: &Store) -> u32
        requires { fits self.now store.now.shape store.now.box }
        ensures { result ≡ parts self.now store.now.shape };

    /// How many projections a part has.
    fn part_count(&self, store: &Store, i: u32) -> u32
        requires fits { fits self.now store.now.shape store.now.box }
        requires below { i < parts self.now store.now.shape }
        ensures { result ≡ length (part self.now store.now.shape i) };

    /// The target of the projection of a part with a number.
    fn part_target(&self, store: &Store, i: u32, k: u32) -> CellId
        requires fits { fits self.now store.now.shape store.now.box }
        requires below { i < parts self.now store.now.shape }
        requires among { k < length (part self.now store.now.shape i) }
        ensures { result.0 ≡ (projection_at (part self.now store.now.shape i) k).target };

    /// Fires one part.
    fn visit(&self, store: &mut Store, i: u32) -> Visit
        requires fits { fits self.now store.old.shape store.old.box }
        requires below { i < parts self.now store.old.shape }
        ensures { Revises (part self.now store.old.shape i) store.old store.new result.answer };

    /// Whether the box is stable under one part.
    fn is_part_held(&self, store: &Store, i: u32) -> bool
        requires fits { fits self.now store.now.shape store.now.box }
        requires below { i < parts self.now store.now.shape }
        requires filled { IsSome store.now.box }
        ensures { Checks (part self.now store.now.shape i) store.now.box result };

    /// Formulas give less in a lesser box, among the boxes that fit.
    ghost monotone: { (c : Self) (s : Shape) (i : ℕ) → i < parts c s → All (IsMonotone (λ xs. fits c s (Some xs))) (part c s i) };

    /// What fits with a box fits with every box below.
    ghost fits_below: { (c : Self) (s : Shape) (a b : Option (List Span)) → IsBelowBox a b → fits c s b → fits c s a };

    /// The projections of all parts can be counted.
    ghost few: { (c : Self) (s : Shape) (b : Option (List Span)) → IsShape s → fits c s b → length (each_below (part c s) (parts c s)) < 4000000000 };
}

/// The width of a cell, and 0 in the empty box: a cell is narrower after a visit where this is less.
pub fn width_at(store: &Store, cell: CellId) -> u64
    requires { cell.0 < store.now.shape.cells }
{
    if store.is_empty() {
        0
    } else {
        store.get(cell).width()
    }
}
