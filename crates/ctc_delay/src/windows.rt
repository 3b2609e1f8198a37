//! The ticks of one signal that hold the cell at each place of another, and the hulls over them.

ghost use Rattle.std.specs.Prelude.{◌≡◌, ◌+◌, ◌-◌, ◌<◌, ◌≤◌, ℕ, IsTrue, IsSome, length, pos, slice_index, slice_index_or};
ghost use Rattle.tube_spec.specs.Span.{point};
ghost use Rattle.tube_spec.specs.Grid.{last_tick};
ghost use Rattle.tube_spec.specs.Tick.{tick_place};
ghost use Rattle.ctc_delay.specs.Places.{place_count, place_first, place_last};
ghost use Rattle.ctc_delay.specs.Windows.{window_first, window_last, WindowFits, signal_at, IsOver, IsOverWindow};

use super::places::{interval_at, place_count, place_end, place_on, ticks_at};
use int_interval::Interval;
use tube_store::{SignalId, Store};

/// For each place of a signal the ticks of another: those of the place, some ticks ahead or behind, and some more after them. Windows of
/// places one after another begin and end ever later.
#[derive(Clone, Copy)]
pub struct Window {
    /// The other signal.
    pub signal: SignalId,
    /// How many ticks ahead.
    pub ahead: u32,
    /// How many ticks behind.
    pub behind: u32,
    /// How many ticks more.
    pub width: u32,
}

/// A hull over ticks up to `at`, carried on up to a later tick, and the place of that one. It goes from place to place, from that of `at` on.
pub fn carried_on(
    store: &Store,
    signal: SignalId,
    spot: u32,
    at: u32,
    last: u32,
    hull: Interval,
) -> (Interval, u32)
    requires signal { signal.0 < length store.now.shape.signals }
    requires order { at ≤ last }
    requires within { last ≤ last_tick store.now.shape.grid }
    requires there { spot ≡ tick_place store.now.shape.grid at }
    requires among { spot < place_count store.now.shape.grid }
    requires filled { IsSome store.now.box }
    ensures hull { (first : ℕ) → first ≤ at → IsOver (signal_at store.now.shape store.now.box signal.0) first at hull → IsOver (signal_at store.now.shape store.now.box signal.0) first last result.0 }
    ensures there { result.1 ≡ tick_place store.now.shape.grid last }
    ensures among { result.1 < place_count store.now.shape.grid }
{
    store.known();
    let mut whole = hull;
    let mut place = spot;
    let mut tick = place_end(store, place);
    while tick <= last {
        place = place_on(store, place, tick);
        let here = interval_at(store, signal, place);
        whole = whole.hull(here);
        tick = place_end(store, place);
    }
    (whole, place)
}

impl Window {
    /// The first tick that it has for a place.
    pub fn begin(&self, store: &Store, from: u32, place: u32) -> u32
        requires fits { WindowFits store.now.shape self.now from }
        requires after { from ≤ place }
        requires place { place < place_count store.now.shape.grid }
        ensures first { result ≡ window_first store.now.shape.grid self.now place }
        ensures order { result ≤ window_last store.now.shape.grid self.now place }
        ensures rises { window_first store.now.shape.grid self.now from ≤ result }
    {
        store.known();
        ticks_at(store, place).first + self.ahead - self.behind
    }

    /// The last tick that it has for a place.
    pub fn end(&self, store: &Store, from: u32, place: u32) -> u32
        requires fits { WindowFits store.now.shape self.now from }
        requires after { from ≤ place }
        requires place { place < place_count store.now.shape.grid }
        ensures last { result ≡ window_last store.now.shape.grid self.now place }
        ensures rises { window_last store.now.shape.grid self.now from ≤ result }
    {
        store.known();
        ticks_at(store, place).last + self.width + self.ahead - self.behind
    }

    /// Whether for a place it has a tick up to `end`, and none past the clock's end.
    pub fn shares(&self, store: &Store, from: u32, place: u32, end: u32) -> bool
        requires fits { WindowFits store.now.shape self.now from }
        requires after { from ≤ place }
        ensures { IsTrue result → (place < place_count store.now.shape.grid) × (window_first store.now.shape.grid self.now place ≤ end) × (window_last store.now.shape.grid self.now place ≤ last_tick store.now.shape.grid) }
    {
        if place >= place_count(store) {
            return false;
        }
        self.begin(store, from, place) <= end
            && self.end(store, from, place) <= store.grid().ticks()
    }
}
