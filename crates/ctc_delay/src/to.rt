//! The contractor of the later signal, from the earlier one.

ghost use Rattle.std.specs.Prelude.{◌≡◌, ◌+◌, ◌<◌, ◌≤◌, IsSome, IfSome, map, slice_index};
ghost use Rattle.std.specs.List.{range_with_len};
ghost use Rattle.ctc_core.specs.Answers.{Revises};
ghost use Rattle.ctc_core.specs.Checking.{Checks};
ghost use Rattle.ctc_delay.specs.Delays.{delay_to_at, delay_to_projections, DelayFits};
ghost use Rattle.ctc_delay.specs.Places.{place_count};
ghost use Rattle.ctc_delay.specs.Windows.{IsWindowOf};

use super::delays::{delays_in, earlier, given_of};
use super::held::{held_from, hold_given, is_each_held, is_held_given};
use super::places::{cell_at_place, place_count, ticks_at};
use super::windows::Window;
use ctc_core::{Contractor, Formulas, Given, Revised, revise_by_formulas, start};
use std::sync::ledger::Ledger;
use step_count::Steps;
use tube_store::{CellId, SignalId, Store, VarId};

/// Forward: where no delay in `tau` is above the first tick of a cell of `y`, the cell lies in the hull of what `x` was before, over the
/// ticks of the cell and the delays.
#[derive(Clone, Copy, Debug, PartialEq, Eq)]
pub struct DelayTo {
    /// The signal that comes first.
    pub x: SignalId,
    /// The signal that is delayed.
    pub y: SignalId,
    /// The variable that says by how many ticks.
    pub tau: VarId,
}

impl DelayTo {
    /// The contractor of the signal `y` that is the signal `x` of `tau` ticks before.
    pub fn new(x: SignalId, y: SignalId, tau: VarId) -> DelayTo
        ensures { result ≡ record { x = x; y = y; tau = tau } }
    {
        DelayTo { x, y, tau }
    }

    // The window of the places from one on, where no delay is above the first tick of that one and there is a delay.
    fn window(&self, store: &Store, place: u32) -> Option<Window>
        requires fits { DelayFits store.now.shape self.now.x.0 self.now.y.0 self.now.tau.0 }
        requires place { place < place_count store.now.shape.grid }
        requires filled { IsSome store.now.box }
        ensures { let s = store.now.shape in
            IfSome result (λ w. IsWindowOf s store.now.box (delay_to_at s.grid (slice_index s.signals self.now.x.0) (slice_index s.signals self.now.y.0) (slice_index s.vars self.now.tau.0)) w place) }
    {
        store.known();
        let tau = store.get(store.var(self.tau));
        let ticks = ticks_at(store, place);
        if (ticks.first as i64) < tau.hi() {
            return None;
        }
        let delays = delays_in(tau, store.grid().ticks())?;
        Some(Window {
            signal: self.x,
            ahead: 0,
            behind: delays.greatest,
            width: delays.greatest - delays.least,
        })
    }

    // Fires the projections of places from one on, as many as are found at once, and says of how many.
    fn fire_some(&self, store: &mut Store, first: u32) -> (Revised, u32)
        requires fits { DelayFits store.old.shape self.now.x.0 self.now.y.0 self.now.tau.0 }
        requires first { first < place_count store.old.shape.grid }
        ensures fired { let s = store.old.shape in
            Revises (map (delay_to_at s.grid (slice_index s.signals self.now.x.0) (slice_index s.signals self.now.y.0) (slice_index s.vars self.now.tau.0)) (range_with_len first result.1)) store.old store.new result.0 }
        ensures some { 0 < result.1 }
        ensures among { first + result.1 ≤ place_count store.old.shape.grid }
    {
        store.known();
        if store.is_empty() {
            return (Revised::Empty, 1);
        }
        match self.window(store, first) {
            Some(window) => {
                let held = held_from(window, store, self.y, first);
                let answer = revise_by_formulas(&held, store);
                (answer, held.count)
            }
            None => {
                let cell = cell_at_place(store, self.y, first);
                let given = self.given(store, first);
                let answer = hold_given(store, cell, given);
                (answer, 1)
            }
        }
    }

    // Fires each projection once, in order.
    fn fire(&self, store: &mut Store) -> Revised
        requires { DelayFits store.old.shape self.now.x.0 self.now.y.0 self.now.tau.0 }
        ensures { Revises (delay_to_projections store.old.shape self.now.x.0 self.now.y.0 self.now.tau.0) store.old store.new result }
    {
        let count = place_count(store);
        let mut answer = start(store);
        let mut done = 0;
        while done < count {
            let (next, here) = self.fire_some(store, done);
            answer = answer.then(next);
            done += here;
        }
        answer
    }

    // Whether the box is stable under the projections of places from one on, as many as are found at once, and says of how many.
    fn holds_some(&self, store: &Store, first: u32) -> (bool, u32)
        requires fits { DelayFits store.now.shape self.now.x.0 self.now.y.0 self.now.tau.0 }
        requires first { first < place_count store.now.shape.grid }
        requires filled { IsSome store.now.box }
        ensures checks { let s = store.now.shape in
            Checks (map (delay_to_at s.grid (slice_index s.signals self.now.x.0) (slice_index s.signals self.now.y.0) (slice_index s.vars self.now.tau.0)) (range_with_len first result.1)) store.now.box result.0 }
        ensures some { 0 < result.1 }
        ensures among { first + result.1 ≤ place_count store.now.shape.grid }
    {
        match self.window(store, first) {
            Some(window) => {
                let held = held_from(window, store, self.y, first);
                (is_each_held(&held, store), held.count)
            }
            None => {
                let cell = cell_at_place(store, self.y, first);
                let given = self.given(store, first);
                (is_held_given(store, cell, given), 1)
            }
        }
    }

    // Whether the box is stable under each projection.
    fn holds(&self, store: &Store) -> bool
        requires fits { DelayFits store.now.shape self.now.x.0 self.now.y.0 self.now.tau.0 }
        requires filled { IsSome store.now.box }
        ensures { Checks (delay_to_projections store.now.shape self.now.x.0 self.now.y.0 self.now.tau.0) store.now.box result }
    {
        let count = place_count(store);
        let mut done = 0;
        while done < count {
            let (holds, here) = self.holds_some(store, done);
            if !holds {
                return false;
            }
            done += here;
        }
        true
    }
}

impl Formulas for DelayTo {
    ghost use Rattle.ctc_delay.specs.Delays.{delay_to_projections, DelayFits};
    ghost use Rattle.ctc_delay.specs.DelayLaws.{delay_to-monotone, delay_to-in_store};

    ghost projections = { λ c s. delay_to_projections s c.x.0 c.y.0 c.tau.0 };

    ghost fits = { λ c s b. DelayFits s c.x.0 c.y.0 c.tau.0 };

    ghost monotone = { λ c s. delay_to-monotone (λ xs. DelayFits s c.x.0 c.y.0 c.tau.0) s c.x.0 c.y.0 c.tau.0 };

    ghost fits_below = { λ c s a b low fits. fits };

    ghost in_store = { λ c s b shape fits. (delay_to-in_store s c.x.0 c.y.0 c.tau.0 shape fits).1 };

    fn count(&self, store: &Store) -> u32 {
        place_count(store)
    }

    fn target(&self, store: &Store, i: u32) -> CellId {
        cell_at_place(store, self.y, i)
    }

    fn given(&self, store: &Store, i: u32) -> Given {
        let tau = store.get(store.var(self.tau));
        let ticks = ticks_at(store, i);
        if tau.hi() > ticks.first as i64 {
            return Given::Whole;
        }
        given_of(earlier(store, self.x, tau, ticks))
    }
}

impl Contractor for DelayTo {
    ghost use Rattle.ctc_delay.specs.Delays.{delay_to_projections, delay_to_scope, DelayFits};
    ghost use Rattle.ctc_delay.specs.DelayLaws.{delay_to-monotone, delay_to-reads_only, delay_to-in_store, delay-fits_more, delay_to-same_projections, delay_to-same_scope};

    ghost projections = { λ c s. delay_to_projections s c.x.0 c.y.0 c.tau.0 };

    ghost scope = { λ c s. delay_to_scope s c.x.0 c.tau.0 };

    ghost fits = { λ c s b. DelayFits s c.x.0 c.y.0 c.tau.0 };

    ghost monotone = { λ c s. delay_to-monotone (λ xs. DelayFits s c.x.0 c.y.0 c.tau.0) s c.x.0 c.y.0 c.tau.0 };

    ghost reads_only = { λ c s. delay_to-reads_only (λ xs. DelayFits s c.x.0 c.y.0 c.tau.0) s c.x.0 c.y.0 c.tau.0 };

    ghost fits_local = { λ c s xs ys same fits. fits };

    ghost fits_below = { λ c s a b low fits. fits };

    ghost in_store = { λ c s b shape fits. delay_to-in_store s c.x.0 c.y.0 c.tau.0 shape fits };

    ghost fits_more = { λ c s t b more grows fits. delay-fits_more s t c.x.0 c.y.0 c.tau.0 grows fits };

    ghost same_projections = { λ c s t b grows fits. delay_to-same_projections s t c.x.0 c.y.0 c.tau.0 grows fits };

    ghost same_scope = { λ c s t b grows fits. delay_to-same_scope s t c.x.0 c.y.0 c.tau.0 grows fits };

    fn reads(&self, store: &Store) -> u32 {
        place_count(store) + 1
    }

    fn read(&self, store: &Store, i: u32) -> CellId {
        if i < place_count(store) {
            cell_at_place(store, self.x, i)
        } else {
            store.var(self.tau)
        }
    }

    fn writes(&self, store: &Store) -> u32 {
        self.count(store)
    }

    fn written(&self, store: &Store, i: u32) -> CellId {
        self.target(store, i)
    }

    fn revise<L: Ledger>(&self, store: &mut Store, steps: &mut Steps<L>) -> Revised {
        steps.tick();
        self.fire(store)
    }

    fn still<L: Ledger>(&self, store: &Store, steps: &mut Steps<L>) -> bool {
        steps.tick();
        store.known();
        if store.is_empty() {
            return false;
        }
        !self.holds(store)
    }
}
