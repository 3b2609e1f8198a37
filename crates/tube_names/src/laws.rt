//! Where the cells of a point lie.

ghost use Rattle.std.specs.Prelude.{◌≡◌, ℕ, ◌<◌, List, All, length};
ghost use Rattle.tube_spec.specs.Shape.{Shape, IsShape, Extends};
ghost use Rattle.tube_names.specs.Points.{cells_of};

/// The cells of a point whose variables are of a shape are of it too, and additions leave them where they are.
pub fn cells_law()
    ensures in_store { (s : Shape) → IsShape s → (vars : List ℕ) → All (λ v. v < length s.vars) vars → All (λ k. k < s.cells) (cells_of s vars) }
    ensures same { (s t : Shape) → Extends s t → (vars : List ℕ) → All (λ v. v < length s.vars) vars → cells_of t vars ≡ cells_of s vars }
{}
