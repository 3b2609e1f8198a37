//! Places of a signal one after another, and the hulls over a window by which their cells are held, all found at once.

ghost use Rattle.std.specs.Prelude.{◌≡◌, ◌+◌, ◌-◌, ◌<◌, ◌≤◌, ℕ, [], ◌∷◌, IsSome, IfSome, length, pos, slice_index_or};
ghost use Rattle.tube_spec.specs.Span.{point};
ghost use Rattle.tube_spec.specs.Grid.{last_tick};
ghost use Rattle.tube_spec.specs.Tick.{tick_place};
ghost use Rattle.tube_spec.specs.Projection.{Projection};
ghost use Rattle.ctc_core.specs.Answers.{Revises, IsMonotoneBelow};
ghost use Rattle.ctc_core.specs.Checking.{Checks};
ghost use Rattle.ctc_core.specs.Given.{narrowing_given};
ghost use Rattle.ctc_delay.specs.Places.{place_count};
ghost use Rattle.ctc_delay.specs.Windows.{window_first, window_last, WindowFits, signal_at, IsOver, IsOverWindow, HeldFits, held_projections};

use super::places::{cell_at_place, interval_at};
use super::windows::{Window, carried_on};
use ctc_core::{Formulas, Given, Revised, hold, is_held, start, still_by_formulas};
use int_interval::Interval;
use tube_store::{CellId, SignalId, Store};

/// Places of a signal one after another, at most 256, and what is kept of each: the interval by which its cell is held.
#[derive(Clone, Copy)]
pub struct Held {
    /// The signal.
    pub signal: SignalId,
    /// The first place.
    pub first: u32,
    /// How many places there are.
    pub count: u32,
    /// What is kept of each.
    pub hulls: [Interval; 256],
}

impl Formulas for Held {
    ghost use Rattle.ctc_delay.specs.Windows.{held_projections, HeldFits};
    ghost use Rattle.ctc_delay.specs.WindowLaws.{held-monotone, held-in_store};

    ghost projections = { λ h s. held_projections s h };

    ghost fits = { λ h s b. HeldFits s h };

    ghost monotone = { λ h s. held-monotone (λ xs. HeldFits s h) s h };

    ghost fits_below = { λ h s a b low fits. fits };

    ghost in_store = { λ h s b shape fits. held-in_store s h shape fits };

    fn count(&self, _store: &Store) -> u32 {
        self.count
    }

    fn target(&self, store: &Store, i: u32) -> CellId {
        store.known();
        cell_at_place(store, self.signal, self.first + i)
    }

    fn given(&self, _store: &Store, i: u32) -> Given {
        Given::Within(self.hulls[i as usize])
    }
}

// How many places from the first on have ticks in common, up to the end of the first window, and none past the clock's end; at most 256.
fn shared(window: Window, store: &Store, first: u32, end: u32) -> u32
    requires fits { WindowFits store.now.shape window first }
    requires first { first < place_count store.now.shape.grid }
    requires end { end ≡ window_last store.now.shape.grid window first }
    requires within { end ≤ last_tick store.now.shape.grid }
    ensures some { 0 < result }
    ensures few { result ≤ 256 }
    ensures places { first + result ≤ place_count store.now.shape.grid }
    ensures share { (k : ℕ) → k < result → (window_first store.now.shape.grid window (first + k) ≤ end) × (window_last store.now.shape.grid window (first + k) ≤ last_tick store.now.shape.grid) }
{
    store.known();
    let mut count = 1;
    while count < 256 && window.shares(store, first, first + count, end) {
        count += 1;
    }
    count
}

// Of each place the hull from the begin of its window to the begin of the next one, of the last place to `end`; and the place of `end`.
fn hulls_between(
    window: Window,
    store: &Store,
    first: u32,
    count: u32,
    end: u32,
) -> ([Interval; 256], u32)
    requires fits { WindowFits store.now.shape window first }
    requires some { 0 < count }
    requires few { count ≤ 256 }
    requires places { first + count ≤ place_count store.now.shape.grid }
    requires within { end ≤ last_tick store.now.shape.grid }
    requires share { (k : ℕ) → k < count → window_first store.now.shape.grid window (first + k) ≤ end }
    requires filled { IsSome store.now.box }
    ensures room { length result.0 ≡ 256 }
    ensures between { (k : ℕ) → k + 1 < count → IsOver (signal_at store.now.shape store.now.box window.signal.0) (window_first store.now.shape.grid window (first + k)) (window_first store.now.shape.grid window (first + (k + 1))) (slice_index_or result.0 k (point (pos 0))) }
    ensures last { IsOver (signal_at store.now.shape store.now.box window.signal.0) (window_first store.now.shape.grid window (first + (count - 1))) end (slice_index_or result.0 (count - 1) (point (pos 0))) }
    ensures there { result.1 ≡ tick_place store.now.shape.grid end }
    ensures among { result.1 < place_count store.now.shape.grid }
{
    store.known();
    let mut at = window.begin(store, first, first);
    let mut place = store.grid().place_of(at);
    let start = interval_at(store, window.signal, place);
    let mut hulls = [start; 256];
    for j in 0..count - 1 {
        let begin = window.begin(store, first, first + (j + 1));
        let here = interval_at(store, window.signal, place);
        let (hull, next) = carried_on(store, window.signal, place, at, begin, here);
        hulls[j as usize] = hull;
        place = next;
        at = begin;
    }
    let there = interval_at(store, window.signal, place);
    let (whole, last) = carried_on(store, window.signal, place, at, end, there);
    hulls[count as usize - 1] = whole;
    (hulls, last)
}

// Of each place the hull from the begin of its window to the end of the first one, from the last place back; and the place of that end.
fn hulls_to_end(
    window: Window,
    store: &Store,
    first: u32,
    count: u32,
    end: u32,
) -> ([Interval; 256], u32)
    requires fits { WindowFits store.now.shape window first }
    requires some { 0 < count }
    requires few { count ≤ 256 }
    requires places { first + count ≤ place_count store.now.shape.grid }
    requires within { end ≤ last_tick store.now.shape.grid }
    requires share { (k : ℕ) → k < count → window_first store.now.shape.grid window (first + k) ≤ end }
    requires filled { IsSome store.now.box }
    ensures room { length result.0 ≡ 256 }
    ensures hulls { (k : ℕ) → k < count → IsOver (signal_at store.now.shape store.now.box window.signal.0) (window_first store.now.shape.grid window (first + k)) end (slice_index_or result.0 k (point (pos 0))) }
    ensures there { result.1 ≡ tick_place store.now.shape.grid end }
    ensures among { result.1 < place_count store.now.shape.grid }
{
    store.known();
    let (between, place) = hulls_between(window, store, first, count, end);
    let mut hulls = between;
    for j in (0..count - 1).rev() {
        hulls[j as usize] = hulls[j as usize].hull(hulls[j as usize + 1]);
    }
    (hulls, place)
}

// The hulls of the windows of places one after another, of which each holds the end of the first one.
fn hulls_over(window: Window, store: &Store, first: u32, count: u32, end: u32) -> [Interval; 256]
    requires fits { WindowFits store.now.shape window first }
    requires some { 0 < count }
    requires few { count ≤ 256 }
    requires places { first + count ≤ place_count store.now.shape.grid }
    requires end { end ≡ window_last store.now.shape.grid window first }
    requires within { end ≤ last_tick store.now.shape.grid }
    requires share { (k : ℕ) → k < count → (window_first store.now.shape.grid window (first + k) ≤ end) × (window_last store.now.shape.grid window (first + k) ≤ last_tick store.now.shape.grid) }
    requires filled { IsSome store.now.box }
    ensures room { length result ≡ 256 }
    ensures hulls { (k : ℕ) → k < count → IsOverWindow store.now.shape store.now.box window (first + k) (slice_index_or result k (point (pos 0))) }
{
    store.known();
    let (to_end, spot) = hulls_to_end(window, store, first, count, end);
    let mut hulls = to_end;
    let mut place = spot;
    let mut at = end;
    let mut hull = interval_at(store, window.signal, spot);
    for j in 0..count {
        let last = window.end(store, first, first + j);
        let (grown, next) = carried_on(store, window.signal, place, at, last, hull);
        hulls[j as usize] = hulls[j as usize].hull(grown);
        hull = grown;
        place = next;
        at = last;
    }
    hulls
}

/// What holds the cells of `signal` from the place `first` on, as many as share ticks: the hulls of the windows of their places.
pub fn held_from(window: Window, store: &Store, signal: SignalId, first: u32) -> Held
    requires fits { WindowFits store.now.shape window first }
    requires signal { signal.0 < length store.now.shape.signals }
    requires first { first < place_count store.now.shape.grid }
    requires within { window_last store.now.shape.grid window first ≤ last_tick store.now.shape.grid }
    requires filled { IsSome store.now.box }
    ensures fits { HeldFits store.now.shape result }
    ensures signal { result.signal.0 ≡ signal.0 }
    ensures first { result.first ≡ first }
    ensures some { 0 < result.count }
    ensures within { (k : ℕ) → k < result.count → window_last store.now.shape.grid window (first + k) ≤ last_tick store.now.shape.grid }
    ensures hulls { (k : ℕ) → k < result.count → IsOverWindow store.now.shape store.now.box window (first + k) (slice_index_or result.hulls k (point (pos 0))) }
{
    let end = window.end(store, first, first);
    let count = shared(window, store, first, end);
    let hulls = hulls_over(window, store, first, count, end);
    Held {
        signal,
        first,
        count,
        hulls,
    }
}

/// Fires one projection, by what its formula gives of the store's box.
pub fn hold_given(store: &mut Store, cell: CellId, given: Given) -> Revised
    requires named { cell.0 < store.old.shape.cells }
    requires filled { IsSome store.old.box }
    ensures { (p : Projection) → p.target ≡ cell.0 → IsMonotoneBelow store.old.box p → IfSome store.old.box (λ xs. p.formula xs ≡ narrowing_given given) → Revises (p ∷ []) store.old store.new result }
{
    match given {
        Given::Whole => start(store),
        Given::Nothing => hold(store, cell, None),
        Given::Within(to) => hold(store, cell, Some(to)),
    }
}

/// Whether the box is stable under the projections of held places.
pub fn is_each_held(held: &Held, store: &Store) -> bool
    requires fits { HeldFits store.now.shape held.now }
    requires filled { IsSome store.now.box }
    ensures { Checks (held_projections store.now.shape held.now) store.now.box result }
{
    store.known();
    !still_by_formulas(held, store)
}

/// Whether the box is stable under one projection, by what its formula gives of the box.
pub fn is_held_given(store: &Store, cell: CellId, given: Given) -> bool
    requires named { cell.0 < store.now.shape.cells }
    requires filled { IsSome store.now.box }
    ensures { (p : Projection) → p.target ≡ cell.0 → IfSome store.now.box (λ xs. p.formula xs ≡ narrowing_given given) → Checks (p ∷ []) store.now.box result }
{
    match given {
        Given::Whole => true,
        Given::Nothing => false,
        Given::Within(to) => is_held(store, cell, Some(to)),
    }
}
