//! What a delay leaves whole: the hull of every assignment that satisfies it.

ghost use Rattle.std.specs.Prelude.{ℕ, List, All};
ghost use Rattle.tube_spec.specs.Span.{Span};
ghost use Rattle.tube_spec.specs.Grid.{IsGrid};
ghost use Rattle.tube_spec.specs.Shape.{Shape};
ghost use Rattle.tube_spec.specs.Projection.{IsStable};
ghost use Rattle.tube_spec.specs.Assignment.{Assignment, IsHull};
ghost use Rattle.ctc_delay.specs.Delays.{delay_to_projections, delay_from_projections, delay_shift_projections, DelayFits, IsDelay};

/// The hull of an assignment is stable under the forward projections of a delay, where the one signal is what the other was `tau` ticks
/// before.
pub fn delay_to_law()
    ensures { (s : Shape) (a : Assignment) (hull : List Span) → IsGrid s.grid → IsHull s a hull → (x y tau : ℕ) → DelayFits s x y tau
        → IsDelay s a x y tau → All (IsStable hull) (delay_to_projections s x y tau) }
{}

/// The same for the backward projections.
pub fn delay_from_law()
    ensures { (s : Shape) (a : Assignment) (hull : List Span) → IsGrid s.grid → IsHull s a hull → (x y tau : ℕ) → DelayFits s x y tau
        → IsDelay s a x y tau → All (IsStable hull) (delay_from_projections s x y tau) }
{}

/// The same for the projection on the variable.
pub fn delay_shift_law()
    ensures { (s : Shape) (a : Assignment) (hull : List Span) → IsGrid s.grid → IsHull s a hull → (x y tau : ℕ) → DelayFits s x y tau
        → IsDelay s a x y tau → All (IsStable hull) (delay_shift_projections s x y tau) }
{}
