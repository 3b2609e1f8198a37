//! The delays that a variable allows, in ticks.

ghost use Rattle.std.specs.Prelude.{◌≡◌, ◌+◌, ◌-◌, ◌<◌, ◌≤◌, ◌≤ℤ◌, ◌+ℤ◌, pos, length, slice_index, MatchOption, IsSome, IfSome};
ghost use Rattle.tube_spec.specs.Limits.{most_ticks};
ghost use Rattle.tube_spec.specs.Narrowing.{narrowing_of};
ghost use Rattle.tube_spec.specs.Grid.{last_tick};
ghost use Rattle.ctc_core.specs.Given.{narrowing_given};
ghost use Rattle.ctc_delay.specs.Delays.{at_tick_from, delayed_hull};
ghost use Rattle.ctc_delay.specs.Ranges.{AreDelays, AreNoDelays};

use super::places::Ticks;
use ctc_core::Given;
use int_interval::Interval;
use tube_store::{SignalId, Store};

/// The numbers of ticks from the least to the greatest.
#[derive(Clone, Copy)]
pub struct Delays {
    pub least: u32,
    pub greatest: u32,
}

/// The delays: the whole numbers that lie both in `tau` and in `0..last`.
pub fn delays_in(tau: Interval, last: u32) -> Option<Delays>
    requires { last ≤ most_ticks }
    ensures { MatchOption result (AreNoDelays tau last) (λ r. AreDelays tau last r.least r.greatest) }
{
    let least = tau.lo().max(0);
    let greatest = tau.hi().min(last as i64);
    if least <= greatest {
        Some(Delays {
            least: least as u32,
            greatest: greatest as u32,
        })
    } else {
        None
    }
}

/// The hull of `X(k - d)` over the ticks `k` and the delays `d` in `tau`, of which none is above the first tick. None where there is no
/// delay.
pub fn earlier(store: &Store, x: SignalId, tau: Interval, ticks: Ticks) -> Option<Interval>
    requires named { x.0 < length store.now.shape.signals }
    requires order { ticks.first ≤ ticks.last }
    requires within { ticks.last ≤ last_tick store.now.shape.grid }
    requires reached { tau.hi ≤ℤ pos ticks.first }
    requires filled { IsSome store.now.box }
    ensures { let s = store.now.shape in
        IfSome store.now.box (λ xs. result ≡ delayed_hull (λ k d. at_tick_from s.grid xs (slice_index s.signals x.0) (k - d)) tau (last_tick s.grid) ticks.first ticks.last) }
{
    store.known();
    match delays_in(tau, store.grid().ticks()) {
        None => None,
        Some(delays) => {
            let first = ticks.first - delays.greatest;
            let last = ticks.last - delays.least;
            Some(store.over_ticks(x, first, last))
        }
    }
}

/// The hull of `Y(j + d)` over the ticks `j` and the delays `d` in `tau`, of which none leads from the last tick past the clock's end.
/// None where there is no delay.
pub fn later(store: &Store, y: SignalId, tau: Interval, ticks: Ticks) -> Option<Interval>
    requires named { y.0 < length store.now.shape.signals }
    requires order { ticks.first ≤ ticks.last }
    requires reached { (pos ticks.last +ℤ tau.hi) ≤ℤ pos (last_tick store.now.shape.grid) }
    requires filled { IsSome store.now.box }
    ensures { let s = store.now.shape in
        IfSome store.now.box (λ xs. result ≡ delayed_hull (λ j d. at_tick_from s.grid xs (slice_index s.signals y.0) (j + d)) tau (last_tick s.grid) ticks.first ticks.last) }
{
    store.known();
    match delays_in(tau, store.grid().ticks()) {
        None => None,
        Some(delays) => {
            let first = ticks.first + delays.least;
            let last = ticks.last + delays.greatest;
            Some(store.over_ticks(y, first, last))
        }
    }
}

/// What a formula gives that gives a hull, or nothing where there is none.
pub fn given_of(hull: Option<Interval>) -> Given
    ensures { narrowing_given result ≡ narrowing_of hull }
{
    match hull {
        Some(hull) => Given::Within(hull),
        None => Given::Nothing,
    }
}
