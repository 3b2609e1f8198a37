//! What a signal and a value share, place by place, and what a gate may come to from there.

ghost use Rattle.std.specs.Prelude.{◌≡◌, ℕ, ◌+◌, ◌*◌, ◌<◌, ◌≤◌, IsSome, IfSome, length, slice_index};
ghost use Rattle.tube_spec.specs.Limits.{greatest_bound, most_ticks};
ghost use Rattle.tube_spec.specs.Span.{IsBounded};
ghost use Rattle.tube_spec.specs.Grid.{last_tick};
ghost use Rattle.ctc_eval.specs.Clock.{IsHullOver, only_in, cells_of};
ghost use Rattle.ctc_eval.specs.Evals.{shared_at, reached_from};
ghost use Rattle.ctc_eval.specs.Asking.{asked_at, part_of};
ghost use Rattle.ctc_eval.specs.Walks.{shared_by, Covers, IsFromBefore, IsFromOn};

use super::clock::{Stretch, gained, join, later, shared, times};
use super::readings::{inside, signal, tick_of, ticks_inside, variable};
use int_interval::Interval;
use slice_gates::Ticks;
use tube_store::{SignalId, Store, VarId};

/// A signal, and a variable that is its value at some tick.
#[derive(Clone, Copy, Debug, PartialEq, Eq)]
pub struct Sweep {
    /// The signal.
    pub x: SignalId,
    /// The value.
    pub z: VarId,
}

/// What is asked of ticks: what the signal may be at them, or which of them it meets the value at.
#[derive(Clone, Copy)]
pub enum Asked {
    /// What the signal may be.
    Value,
    /// The ticks at which it meets the value.
    Time,
}

impl Sweep {
    // What the signal and the value share at a place among the cells of the signal.
    fn shared_at(&self, store: &Store, place: u32) -> Option<Interval>
        requires signal { self.now.x.0 < length store.now.shape.signals }
        requires value { self.now.z.0 < length store.now.shape.vars }
        requires place { place + 1 < 2 * length store.now.shape.grid }
        requires filled { IsSome store.now.box }
        ensures value { result ≡ shared_by store.now.shape self.now.x.0 self.now.z.0 (cells_of store.now.box) place }
        ensures bounded { IfSome result (IsBounded greatest_bound) }
    {
        shared(variable(store, self.z), signal(store, self.x, place))
    }

    /// What they share at a gate, if its tick is one of the ticks.
    pub fn shared_in(&self, store: &Store, ticks: Ticks, gate: u32) -> Option<Interval>
        requires signal { self.now.x.0 < length store.now.shape.signals }
        requires value { self.now.z.0 < length store.now.shape.vars }
        requires gate { gate < length store.now.shape.grid }
        requires filled { IsSome store.now.box }
        ensures { result ≡ only_in ticks (shared_at store.now.shape self.now.x.0 self.now.z.0 (cells_of store.now.box)) (slice_index store.now.shape.grid gate) }
    {
        store.known();
        let tick = tick_of(store, gate);
        if tick < ticks.first || ticks.last < tick {
            return None;
        }
        self.shared_at(store, 2 * gate)
    }

    // What ticks give that stand at one place: what the signal may be there, or where it meets the value the ticks themselves.
    fn part(&self, store: &Store, asked: Asked, ticks: Ticks, place: u32) -> Option<Interval>
        requires signal { self.now.x.0 < length store.now.shape.signals }
        requires value { self.now.z.0 < length store.now.shape.vars }
        requires order { ticks.first ≤ ticks.last }
        requires few { ticks.last ≤ most_ticks }
        requires place { place + 1 < 2 * length store.now.shape.grid }
        requires filled { IsSome store.now.box }
        ensures { result ≡ part_of store.now.shape self.now.x.0 self.now.z.0 (cells_of store.now.box) asked ticks place }
    {
        match asked {
            Asked::Value => Some(signal(store, self.x, place)),
            Asked::Time => {
                let _both = self.shared_at(store, place)?;
                Interval::new(ticks.first as i64, ticks.last as i64)
            }
        }
    }

    // What a gate gives, if its tick is one of the ticks.
    fn asked_at(&self, store: &Store, asked: Asked, ticks: Ticks, gate: u32) -> Option<Interval>
        requires signal { self.now.x.0 < length store.now.shape.signals }
        requires value { self.now.z.0 < length store.now.shape.vars }
        requires gate { gate < length store.now.shape.grid }
        requires filled { IsSome store.now.box }
        ensures { result ≡ only_in ticks (asked_at store.now.shape self.now.x.0 self.now.z.0 (cells_of store.now.box) asked) (slice_index store.now.shape.grid gate) }
    {
        store.known();
        let tick = tick_of(store, gate);
        if tick < ticks.first || ticks.last < tick {
            return None;
        }
        let here = Ticks {
            first: tick,
            last: tick,
        };
        self.part(store, asked, here, 2 * gate)
    }

    // The hull of what those of the ticks give that lie inside a slice.
    fn asked_inside(
        &self,
        store: &Store,
        asked: Asked,
        ticks: Ticks,
        slice: u32,
    ) -> Option<Interval>
        requires signal { self.now.x.0 < length store.now.shape.signals }
        requires value { self.now.z.0 < length store.now.shape.vars }
        requires slice { slice + 1 < length store.now.shape.grid }
        requires filled { IsSome store.now.box }
        ensures { IsHullOver (only_in ticks (asked_at store.now.shape self.now.x.0 self.now.z.0 (cells_of store.now.box) asked)) (slice_index store.now.shape.grid slice + 1) (slice_index store.now.shape.grid (slice + 1)) result }
    {
        store.known();
        let inner = inside(store, ticks, slice)?;
        self.part(store, asked, inner, 2 * slice + 1)
    }

    /// The hull of what some ticks of the clock give of what is asked. It looks at each gate and each envelope once.
    pub fn over(&self, store: &Store, asked: Asked, stretch: Stretch) -> Option<Interval>
        requires signal { self.now.x.0 < length store.now.shape.signals }
        requires value { self.now.z.0 < length store.now.shape.vars }
        requires covers { Covers store.now.shape.grid stretch.ticks stretch.near }
        requires filled { IsSome store.now.box }
        ensures { IsHullOver (only_in stretch.ticks (asked_at store.now.shape self.now.x.0 self.now.z.0 (cells_of store.now.box) asked)) stretch.ticks.first (stretch.ticks.last + 1) result }
    {
        store.known();
        let last = stretch.near.last + 1;
        let mut hull = None;
        for slice in stretch.near.first..last {
            let gate = self.asked_at(store, asked, stretch.ticks, slice);
            let until = join(hull, gate);
            let inner = self.asked_inside(store, asked, stretch.ticks, slice);
            hull = join(until, inner);
        }
        let end = self.asked_at(store, asked, stretch.ticks, last);
        join(hull, end)
    }

    // What the signal may come to at the end of a slice from the ticks inside it. They share one interval with the value and have one rate, so what
    // each gives lies between what the first and the last of them give.
    fn inside_on(&self, store: &Store, rate: SignalId, ticks: Ticks, slice: u32) -> Option<Interval>
        requires signal { self.now.x.0 < length store.now.shape.signals }
        requires rate { rate.0 < length store.now.shape.signals }
        requires value { self.now.z.0 < length store.now.shape.vars }
        requires slice { slice + 1 < length store.now.shape.grid }
        requires filled { IsSome store.now.box }
        ensures { IsHullOver (only_in ticks (reached_from store.now.shape self.now.x.0 rate.0 self.now.z.0 (slice_index store.now.shape.grid (slice + 1)) (cells_of store.now.box))) (slice_index store.now.shape.grid slice + 1) (slice_index store.now.shape.grid (slice + 1)) result }
    {
        store.known();
        let inner = inside(store, ticks, slice)?;
        let both = self.shared_at(store, 2 * slice + 1)?;
        let gain = signal(store, rate, 2 * slice + 1);
        let end = tick_of(store, slice + 1);
        Some(gained(both, gain, end - inner.first, end - inner.last))
    }

    // What the signal may come to at the tick after the start of a slice from the ticks inside it.
    fn inside_back(
        &self,
        store: &Store,
        rate: SignalId,
        ticks: Ticks,
        slice: u32,
    ) -> Option<Interval>
        requires signal { self.now.x.0 < length store.now.shape.signals }
        requires rate { rate.0 < length store.now.shape.signals }
        requires value { self.now.z.0 < length store.now.shape.vars }
        requires slice { slice + 1 < length store.now.shape.grid }
        requires filled { IsSome store.now.box }
        ensures { IsHullOver (only_in ticks (reached_from store.now.shape self.now.x.0 rate.0 self.now.z.0 (slice_index store.now.shape.grid slice + 1) (cells_of store.now.box))) (slice_index store.now.shape.grid slice + 1) (slice_index store.now.shape.grid (slice + 1)) result }
    {
        store.known();
        let inner = inside(store, ticks, slice)?;
        let both = self.shared_at(store, 2 * slice + 1)?;
        let gain = signal(store, rate, 2 * slice + 1).neg();
        let first = tick_of(store, slice) + 1;
        Some(gained(both, gain, inner.first - first, inner.last - first))
    }

    // What the ticks before the end of a slice give there, from what those before its start give at its start.
    fn slice_on(
        &self,
        store: &Store,
        rate: SignalId,
        ticks: Ticks,
        slice: u32,
        before: Option<Interval>,
    ) -> Option<Interval>
        requires signal { self.now.x.0 < length store.now.shape.signals }
        requires rate { rate.0 < length store.now.shape.signals }
        requires value { self.now.z.0 < length store.now.shape.vars }
        requires slice { slice + 1 < length store.now.shape.grid }
        requires filled { IsSome store.now.box }
        requires before { IsFromBefore store.now.shape self.now.x.0 rate.0 self.now.z.0 (cells_of store.now.box) ticks (slice_index store.now.shape.grid slice) before }
        ensures { IsFromBefore store.now.shape self.now.x.0 rate.0 self.now.z.0 (cells_of store.now.box) ticks (slice_index store.now.shape.grid (slice + 1)) result }
    {
        store.known();
        let here = self.shared_in(store, ticks, slice);
        let whole = join(before, here);
        let next = later(whole, signal(store, rate, 2 * slice));
        let gain = times(
            signal(store, rate, 2 * slice + 1),
            ticks_inside(store, slice),
        );
        let moved = later(next, gain);
        let more = self.inside_on(store, rate, ticks, slice);
        join(moved, more)
    }

    // What the ticks from the start of a slice on give there, from what those from its end on give at its end.
    fn slice_back(
        &self,
        store: &Store,
        rate: SignalId,
        ticks: Ticks,
        slice: u32,
        after: Option<Interval>,
    ) -> Option<Interval>
        requires signal { self.now.x.0 < length store.now.shape.signals }
        requires rate { rate.0 < length store.now.shape.signals }
        requires value { self.now.z.0 < length store.now.shape.vars }
        requires slice { slice + 1 < length store.now.shape.grid }
        requires filled { IsSome store.now.box }
        requires after { IsFromOn store.now.shape self.now.x.0 rate.0 self.now.z.0 (cells_of store.now.box) ticks (slice_index store.now.shape.grid (slice + 1)) after }
        ensures { IsFromOn store.now.shape self.now.x.0 rate.0 self.now.z.0 (cells_of store.now.box) ticks (slice_index store.now.shape.grid slice) result }
    {
        store.known();
        let opposite = signal(store, rate, 2 * slice + 1).neg();
        let gain = times(opposite, ticks_inside(store, slice));
        let moved = later(after, gain);
        let more = self.inside_back(store, rate, ticks, slice);
        let whole = join(more, moved);
        let first = later(whole, signal(store, rate, 2 * slice).neg());
        let here = self.shared_in(store, ticks, slice);
        join(first, here)
    }

    /// What the ticks before the gate `to` give there, from what those before the gate `from` give at that one.
    pub fn carried_on(
        &self,
        store: &Store,
        rate: SignalId,
        ticks: Ticks,
        from: u32,
        to: u32,
        before: Option<Interval>,
    ) -> Option<Interval>
        requires signal { self.now.x.0 < length store.now.shape.signals }
        requires rate { rate.0 < length store.now.shape.signals }
        requires value { self.now.z.0 < length store.now.shape.vars }
        requires order { from ≤ to }
        requires gate { to < length store.now.shape.grid }
        requires filled { IsSome store.now.box }
        requires before { IsFromBefore store.now.shape self.now.x.0 rate.0 self.now.z.0 (cells_of store.now.box) ticks (slice_index store.now.shape.grid from) before }
        ensures { IsFromBefore store.now.shape self.now.x.0 rate.0 self.now.z.0 (cells_of store.now.box) ticks (slice_index store.now.shape.grid to) result }
    {
        let mut hull = before;
        for slice in from..to {
            hull = self.slice_on(store, rate, ticks, slice, hull);
        }
        hull
    }

    /// What the ticks from the gate `to` on give there, from what those from the gate `from` on give at that one.
    pub fn carried_back(
        &self,
        store: &Store,
        rate: SignalId,
        ticks: Ticks,
        from: u32,
        to: u32,
        after: Option<Interval>,
    ) -> Option<Interval>
        requires signal { self.now.x.0 < length store.now.shape.signals }
        requires rate { rate.0 < length store.now.shape.signals }
        requires value { self.now.z.0 < length store.now.shape.vars }
        requires order { to ≤ from }
        requires gate { from < length store.now.shape.grid }
        requires filled { IsSome store.now.box }
        requires after { IsFromOn store.now.shape self.now.x.0 rate.0 self.now.z.0 (cells_of store.now.box) ticks (slice_index store.now.shape.grid from) after }
        ensures { IsFromOn store.now.shape self.now.x.0 rate.0 self.now.z.0 (cells_of store.now.box) ticks (slice_index store.now.shape.grid to) result }
    {
        let mut hull = after;
        for slice in (to..from).rev() {
            hull = self.slice_back(store, rate, ticks, slice, hull);
        }
        hull
    }
}
