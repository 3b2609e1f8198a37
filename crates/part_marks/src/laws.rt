//! What additions and firings leave of the marks of a network's contractors: laws, with no code that runs.

ghost use Rattle.std.specs.Prelude.{◌≡◌, ◌<◌, ◌≤◌, ◌++◌, [], ◌∷◌, ℕ, List, Option, Some, Bool, true, Contains, length, slice_get};
ghost use Rattle.tube_spec.specs.Span.{Span};
ghost use Rattle.tube_spec.specs.Shape.{Shape};
ghost use Rattle.tube_spec.specs.Box.{box_more};
ghost use Rattle.tube_spec.specs.Owner.{Owner, with_owner, declared_cells};
ghost use Rattle.tube_store.specs.State.{State, IsStore};
ghost use Rattle.ctc_core.specs.Answers.{Revises};
ghost use Rattle.ctc_core.specs.declared.Revised.{Revised};
ghost use Rattle.cell_readers.specs.Entries.{readers_at};
ghost use Rattle.part_marks.specs.Marks.{Marked, marked_at};
ghost use Rattle.part_marks.specs.Nets.{marks_at, Each, AreBeside, AreMarked, KeepsMarks, IsReached};

use ctc_parts::Parted;

/// Where the box was stable under each part that is not marked, of each contractor, it is so again: with a contractor more, all of whose
/// parts are marked; with the cells of a signal or a variable more; and after a firing of one of them, whatever its own marks are then, once
/// the parts are marked that read a touched cell, of all those that the lists of readers name.
pub fn marks_law<C: Parted>()
    ensures added { (s : Shape) (box : Option (List Span)) (cs : List (Option C)) (c : C) (marks : List Marked) (m : Marked) → length marks ≡ length cs → ((i : ℕ) → i < C.parts c s → marked_at m i ≡ true)
        → AreMarked C.parts C.part s box cs marks → AreMarked C.parts C.part s box (cs ++ Some c ∷ []) (marks ++ m ∷ []) }
    ensures beside { (s : Shape) (cs : List (Option C)) (c : C) (marks : List Marked) (m : Marked) → length marks ≡ length cs → C.parts c s ≤ length m.flags
        → AreBeside C.parts s cs marks → AreBeside C.parts s (cs ++ Some c ∷ []) (marks ++ m ∷ []) }
    ensures grown { (old : State) (o : Owner) (cs : List (Option C)) (marks : List Marked) → IsStore old → Each cs (λ k c. C.fits c old.shape old.box)
        → AreMarked C.parts C.part old.shape old.box cs marks → AreMarked C.parts C.part (with_owner old.shape o) (box_more old.box (declared_cells old.shape.grid o)) cs marks }
    ensures still_beside { (old : State) (o : Owner) (cs : List (Option C)) (marks : List Marked) → Each cs (λ k c. C.fits c old.shape old.box)
        → AreBeside C.parts old.shape cs marks → AreBeside C.parts (with_owner old.shape o) cs marks }
    ensures fired { (old new : State) (x : Revised) (cs : List (Option C)) (lists : List (List ℕ)) (k : ℕ) (c : C) (before now after : List Marked)
        → Each cs (λ j d. C.fits d old.shape old.box) → AreMarked C.parts C.part old.shape old.box cs before → slice_get cs k ≡ Some (Some c) → Revises (C.projections c old.shape) old new x
        → ((j : ℕ) → (j ≡ k → ⊥) → marks_at now j ≡ marks_at before j) → KeepsMarks now after
        → Each cs (λ j d. (cell : ℕ) → Contains (C.scope d old.shape) cell → Contains (readers_at lists cell) j)
        → ((cell j : ℕ) → Contains new.touched cell → Contains (readers_at lists cell) j → IsReached C.parts C.part_scope old.shape cs after cell j)
        → AreMarked C.parts C.part old.shape new.box cs after }
{}
