//! The boxes of points, and what marks leave of them.

ghost use Rattle.std.specs.Prelude.{◌≡◌, ◌<◌, ◌≤◌, ℕ, [], ◌∷◌, None, IsSome, IfSome, All, length, slice_index, slice_index_or};
ghost use Rattle.tube_spec.specs.Box.{cell_at};
ghost use Rattle.tube_spec.specs.Hull.{join_option};
ghost use Rattle.ctc_constell.specs.Points.{box_of};
ghost use Rattle.ctc_core.specs.Answers.{Revises};
ghost use Rattle.tube_names.specs.Points.{numbers, cells_of};
ghost use Rattle.ctc_constell.specs.Fixed.{fixed};
ghost use Rattle.ctc_constell.specs.Constellations.{left_by};

use ctc_core::{Revised, hold};
use int_interval::Interval;
use interval_box::IntervalBox;
use tube_store::{Store, VarId};

// The interval of a variable.
fn value(store: &Store, var: VarId) -> Interval
    requires named { var.0 < length store.now.shape.vars }
    requires filled { IsSome store.now.box }
    ensures { IfSome store.now.box (λ xs. result ≡ cell_at xs (slice_index store.now.shape.vars var.0)) }
{
    store.get(store.var(var))
}

/// The box of a point.
pub fn box_of<const N: usize>(store: &Store, point: &[VarId; N]) -> IntervalBox<N>
    requires some { 1 ≤ N }
    requires few { N ≤ 8 }
    requires named { All (λ v. v < length store.now.shape.vars) (numbers point.now) }
    requires filled { IsSome store.now.box }
    ensures value { IfSome store.now.box (λ xs. result ≡ box_of xs (cells_of store.now.shape (numbers point.now))) }
    ensures size { length result ≡ N }
{
    let mut parts = [value(store, point[0]); N];
    for i in 0..N {
        parts[i] = value(store, point[i]);
    }
    IntervalBox::new(parts)
}

/// What a mark leaves of coordinate `i` of a point: their meeting in that coordinate, where their boxes meet.
pub fn left_by<const N: usize>(
    point: &IntervalBox<N>,
    mark: &IntervalBox<N>,
    i: usize,
) -> Option<Interval>
    requires some { 1 ≤ N }
    requires few { N ≤ 8 }
    requires point { length point.now ≡ N }
    requires mark { length mark.now ≡ N }
    requires coordinate { i < N }
    ensures { result ≡ left_by point.now mark.now i }
{
    match point.meet(mark) {
        Some(shared) => Some(shared.part(i)),
        None => None,
    }
}

/// The hull of two intervals, of which each may be nothing.
pub fn join(one: Option<Interval>, other: Option<Interval>) -> Option<Interval>
    ensures { result ≡ join_option one other }
{
    match (one, other) {
        (None, _) => other,
        (Some(a), None) => Some(a),
        (Some(a), Some(b)) => Some(a.hull(b)),
    }
}

/// The hulls of all coordinates of a point, each with what one more mark leaves of it.
pub fn joined<const N: usize>(
    point: &IntervalBox<N>,
    mark: &IntervalBox<N>,
    hulls: &[Option<Interval>; N],
) -> [Option<Interval>; N]
    requires some { 1 ≤ N }
    requires few { N ≤ 8 }
    requires point { length point.now ≡ N }
    requires mark { length mark.now ≡ N }
    ensures size { length result ≡ N }
    ensures each { (k : ℕ) → k < N → slice_index_or result k None ≡ join_option (slice_index_or hulls.now k None) (left_by point.now mark.now k) }
{
    let mut more = [None; N];
    for i in 0..N {
        more[i] = join(hulls[i], left_by(point, mark, i));
    }
    more
}

/// Holds a variable by an interval, or by nothing, where the box is not empty.
pub fn hold_by(store: &mut Store, var: VarId, to: Option<Interval>) -> Revised
    requires { var.0 < length store.old.shape.vars }
    ensures { Revises (fixed (slice_index store.old.shape.vars var.0) to ∷ []) store.old store.new result }
{
    store.known();
    if store.is_empty() {
        return Revised::Empty;
    }
    let cell = store.var(var);
    hold(store, cell, to)
}
