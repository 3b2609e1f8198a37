//! What a constellation leaves whole: the hull of every assignment that satisfies it.

ghost use Rattle.std.specs.Prelude.{ℕ, List, All};
ghost use Rattle.tube_spec.specs.Span.{Span};
ghost use Rattle.tube_spec.specs.Shape.{Shape};
ghost use Rattle.tube_spec.specs.Projection.{IsStable};
ghost use Rattle.tube_spec.specs.Assignment.{Assignment, IsHull};
ghost use Rattle.ctc_constell.specs.Constellations.{constell_projections, ConstellFits, IsOneOf};

/// The hull of an assignment is stable under the projections of a constellation, where the point is where one of the marks is.
pub fn constell_law()
    ensures { (s : Shape) (a : Assignment) (hull : List Span) → IsHull s a hull → (p : List ℕ) (marks : List (List ℕ)) → ConstellFits s p marks
        → IsOneOf a p marks → All (IsStable hull) (constell_projections s p marks) }
{}
