//! What settling may cost, on lists and boxes: laws that a network's loop cites.
//!
//! A network fires those of its contractors that wait, one at a time, and wakes the readers of the cells that became narrower. The potential
//! is how many wait, and the width of each cell times one more than the contractors that read it. Each firing lowers it by one at least:
//! one that left the box rests, and one that narrowed cells lowers their widths. So it bounds the steps of a run, and shows that it ends.

ghost use Rattle.std.specs.Prelude.{◌≡◌, ◌≢◌, ◌+◌, ◌≤◌, ◌<◌, ℕ, List, [], ◌∷◌, Option, Some, Bool, true, false, All, Contains, IsSome, length, sum_by, count_by, nat_eq, slice_get, slice_set};
ghost use Rattle.std.specs.List.{IsDistinct};
ghost use Rattle.tube_spec.specs.Span.{Span};
ghost use Rattle.tube_spec.specs.Shape.{Shape};
ghost use Rattle.tube_spec.specs.Box.{IsBox, IsBelow, IsBelowBox};
ghost use Rattle.tube_spec.specs.Projection.{Projection};
ghost use Rattle.tube_spec.specs.Fixpoint.{IsFixpoint};
ghost use Rattle.tube_store.specs.State.{State};
ghost use Rattle.ctc_core.specs.Revising.{IsNarrower};
ghost use Rattle.ctc_core.specs.Answers.{Revises, MatchRevised};
ghost use Rattle.ctc_core.specs.declared.Revised.{Revised};
ghost use Rattle.cell_readers.specs.Costs.{weighted, weighted_box, lost_cost, potential};
ghost use Rattle.cell_readers.specs.Waking.{readers, AreWoken, AreAtRest, IsDraining};

use ctc_core::Contractor;

/// What was lost from one box to another below it, and what is left, are the whole. Where steps and potential together never rose, the
/// steps are within those that waited and what was lost.
pub fn cost_law()
    ensures whole { (r : ℕ → ℕ) (new old : Option (List Span)) → IsBelowBox new old → weighted_box r new + lost_cost r old new ≡ weighted_box r old }
    ensures bound { (r : ℕ → ℕ) (start now : ℕ) (before after : List Bool) (old new : Option (List Span)) → IsBelowBox new old
        → now + potential r after new ≤ start + potential r before old → now ≤ start + count_by (λ w. w) before + lost_cost r old new }
{}

/// Where the cells of a list are narrower, each named once, the weighted widths fall by at least one more than the readers of each.
pub fn fall_law()
    ensures { (r : ℕ → ℕ) (xs ys : List Span) (cells : List ℕ) → IsBelow ys xs → IsDistinct nat_eq cells → ((k : ℕ) → Contains cells k → IsNarrower xs ys k)
        → weighted r ys + sum_by (λ k. 1 + r k) cells ≤ weighted r xs }
{}

/// Waking the readers of some cells, and one more, raises the count of those that wait by at most one more than the readers of each cell.
pub fn wake_law<C>()
    ensures { (reads : C → ℕ → Bool) (cs : List C) (cells : List ℕ) (k : ℕ) (before after : List Bool) → length before ≡ length cs
        → AreWoken reads cs cells k before after → count_by (λ w. w) after ≤ count_by (λ w. w) before + 1 + sum_by (readers reads cs) cells }
{}

/// One that waits is taken and fired, with no cell touched before, and the readers of what became narrower are woken. Whatever the firing
/// answers, the potential has fallen by one at least.
pub fn step_law<C>()
    ensures { (reads : C → ℕ → Bool) (cs : List C) (ps : List Projection) (k : ℕ) (before after : List Bool) (old new : State) (x : Revised)
        → Revises ps old new x → IsSome old.box → old.touched ≡ [] → slice_get before k ≡ Some true → length before ≡ length cs
        → MatchRevised x (after ≡ slice_set before k false) (AreWoken reads cs new.touched k (slice_set before k false) after) (after ≡ slice_set before k false)
        → potential (readers reads cs) after new.box + 1 ≤ potential (readers reads cs) before old.box }
{}

/// What was a fixpoint of a contractor stays one in a lesser box where no cell that it reads became narrower. So, once the readers of all
/// narrower cells were woken, one cell after another, each contractor that does not wait leaves the present box.
pub fn kept_law<C: Contractor>()
    ensures kept { (c : C) (s : Shape) (xs ys : List Span) → C.fits c s (Some xs) → IsBox ys → IsBelow ys xs → ((k : ℕ) → Contains (C.scope c s) k → IsNarrower xs ys k → ⊥)
        → IsFixpoint (C.projections c s) xs → IsFixpoint (C.projections c s) ys }
    ensures start { (s : Shape) (reads : C → ℕ → Bool) (cs : List C) (xs ys : List Span) (waiting : List Bool) (cells : List ℕ)
        → AreAtRest (λ c. C.projections c s) cs waiting (Some xs) → ((k : ℕ) → IsNarrower xs ys k → Contains cells k) → IsDraining (λ c. C.projections c s) reads cs xs ys waiting cells }
    ensures step { (s : Shape) (reads : C → ℕ → Bool) (cs : List C) (xs ys : List Span) (before after : List Bool) (cell : ℕ) (cells : List ℕ)
        → IsDraining (λ c. C.projections c s) reads cs xs ys before (cell ∷ cells)
        → ((j : ℕ) (c : C) → slice_get cs j ≡ Some c → slice_get after j ≡ Some false → (slice_get before j ≡ Some false) × (reads c cell ≡ false))
        → IsDraining (λ c. C.projections c s) reads cs xs ys after cells }
    ensures end { (s : Shape) (reads : C → ℕ → Bool) (cs : List C) (xs ys : List Span) (waiting : List Bool)
        → IsDraining (λ c. C.projections c s) reads cs xs ys waiting [] → ((c : C) (k : ℕ) → Contains (C.scope c s) k → reads c k ≡ true)
        → All (λ c. C.fits c s (Some xs)) cs → IsBox ys → IsBelow ys xs → AreAtRest (λ c. C.projections c s) cs waiting (Some ys) }
{}
