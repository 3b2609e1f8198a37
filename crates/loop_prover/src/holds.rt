//! Whether a label holds of a corner in a store.

ghost use Rattle.std.specs.Prelude.{◌≡◌, ◌<◌, ◌≤◌, ◌≤ℤ◌, ◌↔◌, pos, neg_ℤ, IsSome, IfSome, IsTrue, length};
ghost use Rattle.tube_spec.specs.Limits.{greatest_radius};
ghost use Rattle.tube_spec.specs.Span.{Span};
ghost use Rattle.tube_spec.specs.Grid.{last_tick};
ghost use Rattle.tube_spec.specs.Tick.{at_tick};
ghost use Rattle.hull_tree.specs.Asked.{HasSignals};
ghost use Rattle.loop_degree.specs.Degree.{change_in};
ghost use Rattle.loop_degree.specs.Labels.{LabelHolds};

use crate::labels::change;
use hull_tree::Query;
use int_interval::Interval;
use loop_degree::Label;
use tube_store::{SignalId, Store};

/// Whether an upper end lies at a bound below zero or beyond.
fn is_below(high: i64, d: i64) -> bool
    requires least { pos 1 ≤ℤ d }
    requires most { d ≤ℤ pos greatest_radius }
    ensures { IsTrue result ↔ (high ≤ℤ neg_ℤ d) }
{
    high <= -d
}

/// Whether a label holds of two changes under bounds.
fn holds(label: Label, dx: Interval, dy: Interval, d1: i64, d2: i64) -> bool
    requires d1_least { pos 1 ≤ℤ d1 }
    requires d1_most { d1 ≤ℤ pos greatest_radius }
    requires d2_least { pos 1 ≤ℤ d2 }
    requires d2_most { d2 ≤ℤ pos greatest_radius }
    ensures { IsTrue result ↔ LabelHolds d1 d2 label dx dy }
{
    match label {
        Label::East => d1 <= dx.lo(),
        Label::West => is_below(dx.hi(), d1),
        Label::North => d2 <= dy.lo(),
        Label::South => is_below(dy.hi(), d2),
    }
}

/// Whether a label holds of the corner `(a, b)` under the step bounds `d1` of the query's first signal and `d2` of the second. Any label that
/// holds does, and not the first alone, which [`label`](crate::label) gives. It takes no memory.
///
/// The store is not to be empty and to have both signals, and `a` and `b` are to be at most its last tick.
pub fn label_holds(store: &Store, q: &Query, a: u32, b: u32, d1: i64, d2: i64, label: Label) -> bool
    requires filled { IsSome store.now.box }
    requires signals { HasSignals (length store.now.shape.signals) q.now }
    requires a { a ≤ last_tick store.now.shape.grid }
    requires b { b ≤ last_tick store.now.shape.grid }
    requires d1_least { pos 1 ≤ℤ d1 }
    requires d1_most { d1 ≤ℤ pos greatest_radius }
    requires d2_least { pos 1 ≤ℤ d2 }
    requires d2_most { d2 ≤ℤ pos greatest_radius }
    ensures { IfSome store.now.box (λ xs. IsTrue result ↔ LabelHolds d1 d2 label (change_in (at_tick store.now.shape xs) q.now.x.0 (a, b)) (change_in (at_tick store.now.shape xs) q.now.y.0 (a, b))) }
{
    let dx = change(store, q.x, a, b);
    let dy = change(store, q.y, a, b);
    holds(label, dx, dy, d1, d2)
}
