//! What is said of one pair of ticks.

ghost use Rattle.std.specs.Prelude.{◌≡◌, ◌<◌, ◌≤◌, length, IsSome, IfSome};
ghost use Rattle.tube_spec.specs.Span.{IsBounded, natural, sub_of};
ghost use Rattle.tube_spec.specs.Grid.{last_tick};
ghost use Rattle.tube_spec.specs.Tick.{at_tick};
ghost use Rattle.tube_names.specs.Nearness.{is_near};
ghost use Rattle.hull_tree.specs.Asked.{IsAsked, IsRadius};
ghost use Rattle.hull_tree.specs.Plane.{plane_of, is_possible, is_sure, least_abs, greatest_abs};

use int_interval::Interval;
use tube_names::{Query, is_near};
use tube_store::{SignalId, Store};

/// What is said of a pair of ticks by what its two places may be.
#[derive(Clone, Copy, Debug, PartialEq, Eq)]
pub struct PairSays {
    /// Whether the places may be near.
    pub possible: bool,
    /// Whether they are near whatever they are.
    pub sure: bool,
}

/// What a signal may change by from tick `a` to tick `b`.
fn change(store: &Store, x: SignalId, a: u32, b: u32) -> Interval
    requires filled { IsSome store.now.box }
    requires x { x.0 < length store.now.shape.signals }
    requires a { a ≤ last_tick store.now.shape.grid }
    requires b { b ≤ last_tick store.now.shape.grid }
    ensures value { IfSome store.now.box (λ xs. result ≡ sub_of (at_tick store.now.shape xs x.0 b) (at_tick store.now.shape xs x.0 a)) }
    ensures bounded { IsBounded 1000000000 result }
{
    let before = store.at_tick(x, a);
    let after = store.at_tick(x, b);
    after.sub(before)
}

/// The least absolute value of an interval's numbers.
fn least_abs(d: Interval) -> u64
    requires { IsBounded 1000000000 d }
    ensures value { result ≡ least_abs d }
    ensures small { result ≤ 1000000000 }
{
    let low = d.lo();
    let high = -d.hi();
    let greater = if low >= high { low } else { high };
    if greater < 0 { 0 } else { greater as u64 }
}

/// The greatest absolute value of an interval's numbers.
fn greatest_abs(d: Interval) -> u64
    requires { IsBounded 1000000000 d }
    ensures value { result ≡ greatest_abs d }
    ensures small { result ≤ 1000000000 }
{
    let high = d.hi();
    let low = -d.lo();
    let greater = if high >= low { high } else { low };
    if greater < 0 { 0 } else { greater as u64 }
}

/// Whether two places are near by a query.
fn is_close(q: &Query, dx: u64, dy: u64) -> bool
    requires radius { IsRadius q.now.radius }
    requires dx { dx ≤ 1000000000 }
    requires dy { dy ≤ 1000000000 }
    ensures { result ≡ is_near q.now.norm (natural q.now.radius) dx dy }
{
    is_near(q.norm, q.radius as u32, dx, dy)
}

/// What is said of the pair `(a, b)` of ticks by a query over the box of a store: whether it is possible, and whether it is sure. A pair
/// that isn't valid is neither: `b` above the last tick, or before `a` and the query's gap. It takes no memory.
///
/// The store is not to be empty, the signals are to be its own, and the radius 0 to 2,000,000,000.
pub fn pair_of(store: &Store, q: &Query, a: u32, b: u32) -> PairSays
    requires filled { IsSome store.now.box }
    requires asked { IsAsked (length store.now.shape.signals) q.now }
    ensures possible { IfSome store.now.box (λ xs. result.possible ≡ is_possible (plane_of store.now.shape xs q.now) a b) }
    ensures sure { IfSome store.now.box (λ xs. result.sure ≡ is_sure (plane_of store.now.shape xs q.now) a b) }
{
    store.grid().known();
    if b > store.grid().ticks() || u64::from(b) < u64::from(a) + u64::from(q.gap) {
        return PairSays {
            possible: false,
            sure: false,
        };
    }
    let dx = change(store, q.x, a, b);
    let dy = change(store, q.y, a, b);
    let possible = is_close(q, least_abs(dx), least_abs(dy));
    let sure = is_close(q, greatest_abs(dx), greatest_abs(dy));
    PairSays { possible, sure }
}
