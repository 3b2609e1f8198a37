//! What sweeps leave whole: the hull of every assignment that satisfies each of their slices.

ghost use Rattle.std.specs.Prelude.{ℕ, ◌<◌, List, All};
ghost use Rattle.tube_spec.specs.Span.{Span};
ghost use Rattle.tube_spec.specs.Grid.{IsGrid};
ghost use Rattle.tube_spec.specs.Shape.{Shape};
ghost use Rattle.tube_spec.specs.Projection.{IsStable};
ghost use Rattle.tube_spec.specs.Assignment.{Assignment, IsHull};
ghost use Rattle.ctc_deriv.specs.Derivs.{IsRateOver};
ghost use Rattle.ctc_sweeps.specs.SliceSweeps.{slices_of, slice_sweep_projections, SliceSweepFits};
ghost use Rattle.ctc_sweeps.specs.DerivSweeps.{deriv_sweep_projections, DerivSweepFits};

/// The hull of every assignment is stable under all slices of each signal.
pub fn slice_sweep_law()
    ensures { (s : Shape) (a : Assignment) (hull : List Span) → IsGrid s.grid → IsHull s a hull → (x : ℕ) → SliceSweepFits s x → All (IsStable hull) (slice_sweep_projections s x) }
{}

/// The hull of an assignment is stable under a derivative over all slices, where the one signal is the rate of the other over each slice.
pub fn deriv_sweep_law()
    ensures { (s : Shape) (a : Assignment) (hull : List Span) → IsGrid s.grid → IsHull s a hull → (x rate : ℕ) → DerivSweepFits s x rate
        → ((i : ℕ) → i < slices_of s → IsRateOver s a x rate i) → All (IsStable hull) (deriv_sweep_projections s x rate) }
{}
