//! The laws of joins, of linked cells, of resets, and of what is left when contractors are withdrawn.

ghost use Rattle.std.specs.Prelude.{◌≡◌, ◌↔◌, ℕ, Bool, IsTrue, IsFalse, Option, Some, None, List, All, length};
ghost use Rattle.tube_spec.specs.Span.{Span, IsWithin};
ghost use Rattle.tube_spec.specs.Shape.{Shape};
ghost use Rattle.tube_spec.specs.Box.{cell_at, IsBox, IsBelow, IsBelowBox};
ghost use Rattle.tube_spec.specs.Fixpoint.{IsFixpoint, IsGreatest, KeepsFixpoints};
ghost use Rattle.constraint_retraction.specs.Joining.{join_box};
ghost use Rattle.constraint_retraction.specs.Linked.{cells_of, IsClosed, IsLinked, IsResetIn, HasLinked};
ghost use Rattle.constraint_retraction.specs.Resetting.{reset_box};
ghost use Rattle.constraint_retraction.specs.Withdrawal.{all_of, IsWithdrawal};

use ctc_core::Contractor;

/// The join of two common fixpoints is a common fixpoint, for contractors that fit a box above both; and it is the least box above both.
pub fn join_law<C: Contractor>()
    ensures fixpoint { (s : Shape) (cs : List C) (start xs ys : List Span) → All (λ c. C.fits c s (Some start)) cs → IsBelow xs start → IsBelow ys start
        → IsFixpoint (all_of C.projections s cs) xs → IsFixpoint (all_of C.projections s cs) ys → IsFixpoint (all_of C.projections s cs) (join_box xs ys) }
    ensures above { (xs ys : List Span) → length xs ≡ length ys → IsBelow xs (join_box xs ys) × IsBelow ys (join_box xs ys) }
    ensures least { (xs ys zs : List Span) → IsBelow xs zs → IsBelow ys zs → IsBelow (join_box xs ys) zs }
{}

/// The linked cells are the least set that holds all cells of the contractors withdrawn, and all cells of each contractor left of which it
/// holds one; so the marks of the cells that are reset are those of such a set, whether the box is empty or not.
pub fn linked_law<C: Contractor>()
    ensures closed { (s : Shape) (left withdrawn : List C) → IsClosed (cells_of C.projections C.scope s) left withdrawn (IsLinked (cells_of C.projections C.scope s) left withdrawn) }
    ensures least { (s : Shape) (left withdrawn : List C) (marks : ℕ → Bool) → IsClosed (cells_of C.projections C.scope s) left withdrawn (λ k. IsTrue (marks k))
        → (k : ℕ) → IsLinked (cells_of C.projections C.scope s) left withdrawn k → IsTrue (marks k) }
    ensures marks { (s : Shape) (left withdrawn : List C) (box : Option (List Span)) (marks : ℕ → Bool)
        → ((k : ℕ) → IsTrue (marks k) ↔ IsResetIn (cells_of C.projections C.scope s) left withdrawn box k)
        → IsClosed (cells_of C.projections C.scope s) left withdrawn (λ k. IsTrue (marks k)) }
{}

/// The box after a reset has each linked cell at its starting interval and each other cell as before, and all cells at their starting
/// intervals where it was empty. It lies between the box before and the start.
pub fn reset_law()
    ensures linked { (linked : ℕ → Bool) (start : List Span) (old : Option (List Span)) → IsBelowBox old (Some start)
        → (k : ℕ) → IsTrue (linked k) → cell_at (reset_box linked start old) k ≡ cell_at start k }
    ensures others { (linked : ℕ → Bool) (start xs : List Span) → IsBelow xs start
        → (k : ℕ) → IsFalse (linked k) → cell_at (reset_box linked start (Some xs)) k ≡ cell_at xs k }
    ensures empty { (linked : ℕ → Bool) (start : List Span) → reset_box linked start None ≡ start }
    ensures between { (linked : ℕ → Bool) (start : List Span) (old : Option (List Span)) → IsBelowBox old (Some start)
        → IsBelowBox old (Some (reset_box linked start old)) × IsBelow (reset_box linked start old) start }
{}

/// Let a box be the greatest common fixpoint of contractors below a start, and some of them be withdrawn. Then every common fixpoint of those
/// left below the start lies, cell by cell, within the box off the linked cells, and so below the box after the reset. Hence a box is
/// the greatest common fixpoint of those left below the start exactly where it is that below the box after the reset; and then each cell
/// that is not linked is as it was.
///
/// It holds of each set of cells that is closed in the sense of [`linked_law`], of which the linked cells are the least.
pub fn withdrawal_law<C: Contractor>()
    ensures cells { (s : Shape) (cs left withdrawn : List C) (start : List Span) (linked : ℕ → Bool) (old fixpoint : List Span)
        → IsWithdrawal C.projections C.scope C.fits s cs left withdrawn start linked → IsGreatest (all_of C.projections s cs) (Some start) (Some old)
        → IsFixpoint (all_of C.projections s left) fixpoint → IsBelow fixpoint start
        → (k : ℕ) → IsFalse (linked k) → IsWithin (cell_at fixpoint k) (cell_at old k) }
    ensures keeps { (s : Shape) (cs left withdrawn : List C) (start : List Span) (linked : ℕ → Bool) (old : Option (List Span))
        → IsWithdrawal C.projections C.scope C.fits s cs left withdrawn start linked → IsGreatest (all_of C.projections s cs) (Some start) old
        → KeepsFixpoints (all_of C.projections s left) (Some start) (Some (reset_box linked start old)) }
    ensures greatest { (s : Shape) (cs left withdrawn : List C) (start : List Span) (linked : ℕ → Bool) (old new : Option (List Span))
        → IsWithdrawal C.projections C.scope C.fits s cs left withdrawn start linked → IsGreatest (all_of C.projections s cs) (Some start) old
        → IsGreatest (all_of C.projections s left) (Some start) new ↔ IsGreatest (all_of C.projections s left) (Some (reset_box linked start old)) new }
    ensures stays { (s : Shape) (cs left withdrawn : List C) (start : List Span) (linked : ℕ → Bool) (old new : List Span)
        → IsWithdrawal C.projections C.scope C.fits s cs left withdrawn start linked → IsGreatest (all_of C.projections s cs) (Some start) (Some old)
        → IsGreatest (all_of C.projections s left) (Some start) (Some new) → (k : ℕ) → IsFalse (linked k) → cell_at new k ≡ cell_at old k }
{}

/// Where the box before is a fixpoint of a contractor that is not linked, so is the box after the reset: who rested may rest on. A contractor
/// that fits the start fits that box.
pub fn resting_law<C: Contractor>()
    ensures rests { (s : Shape) (c : C) (start xs : List Span) (linked : ℕ → Bool) → C.fits c s (Some start) → IsBox start → IsBelow xs start
        → (HasLinked (cells_of C.projections C.scope s) (λ k. IsTrue (linked k)) c → ⊥)
        → IsFixpoint (C.projections c s) xs → IsFixpoint (C.projections c s) (reset_box linked start (Some xs)) }
    ensures fits { (s : Shape) (c : C) (start : List Span) (old : Option (List Span)) (linked : ℕ → Bool) → C.fits c s (Some start) → IsBelowBox old (Some start)
        → C.fits c s (Some (reset_box linked start old)) }
{}
