//! Which delays two signals allow.

ghost use Rattle.std.specs.Prelude.{◌≡◌, ◌<◌, ◌≤◌, ℕ, true, false, length, slice_index, MatchOption, IsSome, IfSome};
ghost use Rattle.tube_spec.specs.Grid.{last_tick};
ghost use Rattle.ctc_delay.specs.Delays.{is_possible, possible_hull};
ghost use Rattle.ctc_delay.specs.Ranges.{IsLeastOf, IsGreatestOf};

use super::delays::{Delays, delays_in};
use super::places::{interval_at, place_end, place_on};
use int_interval::Interval;
use tube_store::{SignalId, Store};

/// Whether a delay is possible: `X(k - delay)` meets `Y(k)` at each tick `k` from `delay` to the last. It goes from place to place of both
/// signals, and stops where they do not meet.
fn is_possible(store: &Store, x: SignalId, y: SignalId, delay: u32) -> bool
    requires x { x.0 < length store.now.shape.signals }
    requires y { y.0 < length store.now.shape.signals }
    requires delay { delay ≤ last_tick store.now.shape.grid }
    requires filled { IsSome store.now.box }
    ensures { let s = store.now.shape in
        IfSome store.now.box (λ xs. result ≡ is_possible s.grid xs (slice_index s.signals x.0) (slice_index s.signals y.0) delay) }
{
    store.known();
    let last = store.grid().ticks();
    let mut before = store.grid().place_of(0);
    let mut now = store.grid().place_of(delay);
    let mut tick = delay;
    while tick <= last {
        let earlier = interval_at(store, x, before);
        let later = interval_at(store, y, now);
        if earlier.meet(later).is_none() {
            return false;
        }
        let left = place_end(store, before) + delay;
        let right = place_end(store, now);
        tick = left.min(right);
        before = place_on(store, before, tick - delay);
        now = place_on(store, now, tick);
    }
    true
}

/// The least possible delay, if there is one.
fn least_possible(store: &Store, x: SignalId, y: SignalId, delays: Delays) -> Option<u32>
    requires x { x.0 < length store.now.shape.signals }
    requires y { y.0 < length store.now.shape.signals }
    requires within { delays.greatest ≤ last_tick store.now.shape.grid }
    requires filled { IsSome store.now.box }
    ensures { let s = store.now.shape in
        IfSome store.now.box (λ xs. IsLeastOf (is_possible s.grid xs (slice_index s.signals x.0) (slice_index s.signals y.0)) delays.least delays.greatest result) }
{
    store.known();
    for delay in delays.least..delays.greatest + 1 {
        if is_possible(store, x, y, delay) {
            return Some(delay);
        }
    }
    None
}

/// The greatest possible delay, if there is one.
fn greatest_possible(store: &Store, x: SignalId, y: SignalId, delays: Delays) -> Option<u32>
    requires x { x.0 < length store.now.shape.signals }
    requires y { y.0 < length store.now.shape.signals }
    requires within { delays.greatest ≤ last_tick store.now.shape.grid }
    requires filled { IsSome store.now.box }
    ensures { let s = store.now.shape in
        IfSome store.now.box (λ xs. IsGreatestOf (is_possible s.grid xs (slice_index s.signals x.0) (slice_index s.signals y.0)) delays.least delays.greatest result) }
{
    store.known();
    for delay in (delays.least..delays.greatest + 1).rev() {
        if is_possible(store, x, y, delay) {
            return Some(delay);
        }
    }
    None
}

/// The hull of the delays in `tau` that are possible. None where no delay is.
pub fn possible_hull(store: &Store, x: SignalId, y: SignalId, tau: Interval) -> Option<Interval>
    requires x { x.0 < length store.now.shape.signals }
    requires y { y.0 < length store.now.shape.signals }
    requires filled { IsSome store.now.box }
    ensures { let s = store.now.shape in
        IfSome store.now.box (λ xs. result ≡ possible_hull s.grid xs (slice_index s.signals x.0) (slice_index s.signals y.0) tau) }
{
    store.known();
    let delays = delays_in(tau, store.grid().ticks())?;
    let least = least_possible(store, x, y, delays)?;
    let greatest = greatest_possible(store, x, y, delays)?;
    Interval::new(least as i64, greatest as i64)
}
