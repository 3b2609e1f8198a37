//! What firings and additions leave of marks, for who keeps them: laws, with no code that runs.

ghost use Rattle.std.specs.Prelude.{◌≡◌, ◌<◌, ◌++◌, ℕ, List, Some, Bool, true, false, Contains, length};
ghost use Rattle.tube_spec.specs.Span.{Span};
ghost use Rattle.tube_spec.specs.Shape.{Shape, IsShape, Extends};
ghost use Rattle.tube_spec.specs.Box.{IsBox, IsBelow};
ghost use Rattle.tube_store.specs.State.{State};
ghost use Rattle.ctc_core.specs.Revising.{IsNarrower};
ghost use Rattle.ctc_core.specs.Answers.{Revises};
ghost use Rattle.ctc_core.specs.declared.Revised.{Revised};
ghost use Rattle.ctc_parts.specs.Parts.{AreClean};

use crate::parted::Parted;

/// Where the box was stable under each part that is not marked, it is so again: of the contractor that was fired, once the parts are marked
/// that read a touched cell, whatever its marks were; of any other, once the parts are marked that read a narrower cell, and no mark is taken
/// away; and with further cells in the store.
pub fn clean_law<C: Parted>()
    ensures fired { (c : C) (old new : State) (x : Revised) (marked : ℕ → Bool) → C.fits c old.shape old.box → Revises (C.projections c old.shape) old new x
        → ((cell i : ℕ) → Contains new.touched cell → i < C.parts c old.shape → Contains (C.part_scope c old.shape i) cell → marked i ≡ true)
        → AreClean (C.parts c old.shape) (C.part c old.shape) marked new.box }
    ensures beside { (c : C) (s : Shape) (xs ys : List Span) (before after : ℕ → Bool) → C.fits c s (Some xs) → IsBox ys → IsBelow ys xs → AreClean (C.parts c s) (C.part c s) before (Some xs)
        → ((i : ℕ) → i < C.parts c s → after i ≡ false → before i ≡ false)
        → ((k i : ℕ) → IsNarrower xs ys k → i < C.parts c s → Contains (C.part_scope c s i) k → after i ≡ true)
        → AreClean (C.parts c s) (C.part c s) after (Some ys) }
    ensures more { (c : C) (s t : Shape) (xs more : List Span) (marked : ℕ → Bool) → IsShape s → length xs ≡ s.cells → Extends s t → C.fits c s (Some xs)
        → AreClean (C.parts c s) (C.part c s) marked (Some xs) → AreClean (C.parts c t) (C.part c t) marked (Some (xs ++ more)) }
{}
