//! What a distance leaves whole: the hull of every assignment that satisfies it.

ghost use Rattle.std.specs.Prelude.{ℕ, ℤ, List, All};
ghost use Rattle.tube_spec.specs.Span.{Span};
ghost use Rattle.tube_spec.specs.Shape.{Shape};
ghost use Rattle.tube_spec.specs.Projection.{IsStable};
ghost use Rattle.tube_spec.specs.Assignment.{Assignment, IsHull};
ghost use Rattle.ctc_dist.specs.Distances.{dist_projections, DistFits, IsAtDistance};

/// The hull of an assignment is stable under the projections of a distance between two points, where the sum of the squares of their
/// differences lies in `near * near..far * far`.
pub fn dist_law()
    ensures { (s : Shape) (a : Assignment) (hull : List Span) → IsHull s a hull → (p b : List ℕ) (near far : ℤ) → DistFits s p b near far
        → IsAtDistance a p b near far → All (IsStable hull) (dist_projections s p b near far) }
{}
