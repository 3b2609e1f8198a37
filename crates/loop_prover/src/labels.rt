//! The labels of corners in a store.

ghost use Rattle.std.specs.Prelude.{◌≡◌, ◌<◌, ◌≤◌, ◌≤ℤ◌, pos, All, IsSome, IfSome, IfOk, MatchOption, length};
ghost use Rattle.tube_spec.specs.Limits.{greatest_radius};
ghost use Rattle.tube_spec.specs.Span.{IsBounded, sub_of};
ghost use Rattle.tube_spec.specs.Grid.{last_tick};
ghost use Rattle.tube_spec.specs.Tick.{at_tick};
ghost use Rattle.hull_tree.specs.Asked.{HasSignals};
ghost use Rattle.loop_degree.specs.Pairs.{IsRising};
ghost use Rattle.loop_prover.specs.First.{first_label, label_of, LacksLabel, AreLabels};

use hull_tree::Query;
use int_interval::Interval;
use loop_degree::{Label, boundary_corners};
use std::alloc::Global;
use tube_io::NoMemory;
use tube_store::{SignalId, Store};

/// What a signal may change by from tick `a` to tick `b`.
pub(crate) fn change(store: &Store, x: SignalId, a: u32, b: u32) -> Interval
    requires filled { IsSome store.now.box }
    requires x { x.0 < length store.now.shape.signals }
    requires a { a ≤ last_tick store.now.shape.grid }
    requires b { b ≤ last_tick store.now.shape.grid }
    ensures value { IfSome store.now.box (λ xs. result ≡ sub_of (at_tick store.now.shape xs x.0 b) (at_tick store.now.shape xs x.0 a)) }
    ensures bounded { IsBounded 1000000000 result }
{
    let before = store.at_tick(x, a);
    let after = store.at_tick(x, b);
    after.sub(before)
}

/// The first label that holds of two changes under bounds.
fn first_label(dx: Interval, dy: Interval, d1: i64, d2: i64) -> Option<Label>
    requires d1_least { pos 1 ≤ℤ d1 }
    requires d1_most { d1 ≤ℤ pos greatest_radius }
    requires d2_least { pos 1 ≤ℤ d2 }
    requires d2_most { d2 ≤ℤ pos greatest_radius }
    ensures { result ≡ first_label d1 d2 dx dy }
{
    if d1 <= dx.lo() {
        Some(Label::East)
    } else if dx.hi() <= -d1 {
        Some(Label::West)
    } else if d2 <= dy.lo() {
        Some(Label::North)
    } else if dy.hi() <= -d2 {
        Some(Label::South)
    } else {
        None
    }
}

/// The label of the corner `(a, b)` under the step bounds `d1` of the query's first signal and `d2` of the second: the first that holds, in
/// the order East, West, North, South. None exactly where none holds. It takes no memory.
///
/// The store is not to be empty and to have both signals, and `a` and `b` are to be at most its last tick.
pub fn label(store: &Store, q: &Query, a: u32, b: u32, d1: i64, d2: i64) -> Option<Label>
    requires filled { IsSome store.now.box }
    requires signals { HasSignals (length store.now.shape.signals) q.now }
    requires a { a ≤ last_tick store.now.shape.grid }
    requires b { b ≤ last_tick store.now.shape.grid }
    requires d1_least { pos 1 ≤ℤ d1 }
    requires d1_most { d1 ≤ℤ pos greatest_radius }
    requires d2_least { pos 1 ≤ℤ d2 }
    requires d2_most { d2 ≤ℤ pos greatest_radius }
    ensures { IfSome store.now.box (λ xs. result ≡ label_of (at_tick store.now.shape xs) q.now d1 d2 (a, b)) }
{
    let dx = change(store, q.x, a, b);
    let dy = change(store, q.y, a, b);
    first_label(dx, dy, d1, d2)
}

/// The corners of all boundary edges in rising order, with their labels. None exactly where one of them has no label.
///
/// The cells are to rise strictly, and every corner to be at most the store's last tick; else as for [`label`].
pub fn labels_of(
    alloc: Global,
    cells: &[(u32, u32)],
    store: &Store,
    q: &Query,
    d1: i64,
    d2: i64,
) -> Result<Option<Vec<(u32, u32, Label)>>, NoMemory>
    requires rising { IsRising cells.now }
    requires corners { All (λ c. (c.0 < last_tick store.now.shape.grid) × (c.1 < last_tick store.now.shape.grid)) cells.now }
    requires filled { IsSome store.now.box }
    requires signals { HasSignals (length store.now.shape.signals) q.now }
    requires d1_least { pos 1 ≤ℤ d1 }
    requires d1_most { d1 ≤ℤ pos greatest_radius }
    requires d2_least { pos 1 ≤ℤ d2 }
    requires d2_most { d2 ≤ℤ pos greatest_radius }
    ensures { IfOk result (λ found. IfSome store.now.box (λ xs. let label = label_of (at_tick store.now.shape xs) q.now d1 d2 in
        MatchOption found (LacksLabel label cells.now) (λ labels. AreLabels label cells.now labels.items))) }
{
    store.known();
    let corners = boundary_corners(alloc, cells)?;
    let mut labels = Vec::new(alloc);
    for corner in &corners {
        match label(store, q, corner.0, corner.1, d1, d2) {
            Some(label) => labels.push((corner.0, corner.1, label))?,
            None => return Ok(None),
        }
    }
    Ok(Some(labels))
}
