//! The ticks of the cells of a signal.

ghost use Rattle.std.specs.Prelude.{◌≡◌, ◌+◌, ◌<◌, ◌≤◌, ℕ, length, slice_index, IsSome, IfSome};
ghost use Rattle.tube_spec.specs.Grid.{last_tick};
ghost use Rattle.tube_spec.specs.Box.{cell_at};
ghost use Rattle.tube_spec.specs.Tick.{tick_place};
ghost use Rattle.ctc_delay.specs.Places.{place_count, place_first, place_last, place_end};

use int_interval::Interval;
use tube_store::{CellId, SignalId, Store};

/// The ticks of a cell, the first and the last of them.
#[derive(Clone, Copy)]
pub struct Ticks {
    pub first: u32,
    pub last: u32,
}

/// How many cells a signal has: two for each slice, and one more.
pub fn place_count(store: &Store) -> u32
    ensures count { result ≡ place_count store.now.shape.grid }
    ensures few { result ≤ 200001 }
{
    store.known();
    2 * store.slices() + 1
}

/// The cell of a signal at a place, from 0 in the order gate, envelope, gate and so on.
pub fn cell_at_place(store: &Store, signal: SignalId, place: u32) -> CellId
    requires signal { signal.0 < length store.now.shape.signals }
    requires place { place < place_count store.now.shape.grid }
    ensures cell { result.0 ≡ slice_index store.now.shape.signals signal.0 + place }
    ensures named { result.0 < store.now.shape.cells }
{
    store.known();
    let first = store.gate(signal, 0);
    CellId(first.0 + place)
}

/// The ticks of the cell at a place.
pub fn ticks_at(store: &Store, place: u32) -> Ticks
    requires { place < place_count store.now.shape.grid }
    ensures first { result.first ≡ place_first store.now.shape.grid place }
    ensures last { result.last ≡ place_last store.now.shape.grid place }
    ensures order { result.first ≤ result.last }
    ensures within { result.last ≤ last_tick store.now.shape.grid }
{
    store.known();
    let grid = store.grid();
    Ticks {
        first: grid.boundary(place / 2),
        last: grid.boundary((place + 1) / 2),
    }
}

/// The interval of the cell of a signal at a place.
pub fn interval_at(store: &Store, signal: SignalId, place: u32) -> Interval
    requires signal { signal.0 < length store.now.shape.signals }
    requires place { place < place_count store.now.shape.grid }
    requires filled { IsSome store.now.box }
    ensures { IfSome store.now.box (λ xs. result ≡ cell_at xs (slice_index store.now.shape.signals signal.0 + place)) }
{
    store.get(cell_at_place(store, signal, place))
}

/// The first tick after those that stand at a place.
pub fn place_end(store: &Store, place: u32) -> u32
    requires { place < place_count store.now.shape.grid }
    ensures end { result ≡ place_end store.now.shape.grid place }
    ensures few { result ≤ 100001 }
{
    store.known();
    let ticks = ticks_at(store, place);
    ticks.last + (1 - place % 2)
}

/// The place of a tick, from that of a tick before it, without a search: that one still, or where the tick is the first after those that stand
/// there, the next one that a tick stands at.
pub fn place_on(store: &Store, place: u32, tick: u32) -> u32
    requires { place < place_count store.now.shape.grid }
    ensures among { result < place_count store.now.shape.grid }
    ensures there { let grid = store.now.shape.grid in
        (from : ℕ) → place ≡ tick_place grid from → from ≤ tick → tick ≤ place_end grid place → tick ≤ last_tick grid → result ≡ tick_place grid tick }
{
    store.known();
    if tick < place_end(store, place) {
        return place;
    }
    if place % 2 == 1 {
        return place + 1;
    }
    let slice = place / 2;
    if slice >= store.slices() {
        return place;
    }
    if store.grid().boundary(slice + 1) == tick {
        place + 2
    } else {
        place + 1
    }
}
