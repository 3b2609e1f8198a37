//! The contractor of the delay itself.

ghost use Rattle.std.specs.Prelude.{◌≡◌};

use super::delays::given_of;
use super::places::{cell_at_place, place_count};
use super::possible::possible_hull;
use ctc_core::{Contractor, Formulas, Given, Revised, revise_by_formulas, still_by_formulas};
use std::sync::ledger::Ledger;
use step_count::Steps;
use tube_store::{CellId, SignalId, Store, VarId};

/// The variable: `tau` lies in the hull of its delays that are possible, those by which what `x` was before meets what `y` is at each
/// tick.
#[derive(Clone, Copy, Debug, PartialEq, Eq)]
pub struct DelayShift {
    /// The signal that comes first.
    pub x: SignalId,
    /// The signal that is delayed.
    pub y: SignalId,
    /// The variable that says by how many ticks.
    pub tau: VarId,
}

impl DelayShift {
    /// The contractor of the signal `y` that is the signal `x` of `tau` ticks before.
    pub fn new(x: SignalId, y: SignalId, tau: VarId) -> DelayShift
        ensures { result ≡ record { x = x; y = y; tau = tau } }
    {
        DelayShift { x, y, tau }
    }
}

impl Formulas for DelayShift {
    ghost use Rattle.ctc_delay.specs.Delays.{delay_shift_projections, DelayFits};
    ghost use Rattle.ctc_delay.specs.DelayLaws.{delay_shift-monotone, delay_shift-in_store};

    ghost projections = { λ c s. delay_shift_projections s c.x.0 c.y.0 c.tau.0 };

    ghost fits = { λ c s b. DelayFits s c.x.0 c.y.0 c.tau.0 };

    ghost monotone = { λ c s. delay_shift-monotone (λ xs. DelayFits s c.x.0 c.y.0 c.tau.0) s c.x.0 c.y.0 c.tau.0 };

    ghost fits_below = { λ c s a b low fits. fits };

    ghost in_store = { λ c s b shape fits. (delay_shift-in_store s c.x.0 c.y.0 c.tau.0 shape fits).1 };

    fn count(&self, _store: &Store) -> u32 {
        1
    }

    fn target(&self, store: &Store, _i: u32) -> CellId {
        store.var(self.tau)
    }

    fn given(&self, store: &Store, _i: u32) -> Given {
        let tau = store.get(store.var(self.tau));
        given_of(possible_hull(store, self.x, self.y, tau))
    }
}

impl Contractor for DelayShift {
    ghost use Rattle.ctc_delay.specs.Delays.{delay_shift_projections, delay_shift_scope, DelayFits};
    ghost use Rattle.ctc_delay.specs.DelayLaws.{delay_shift-monotone, delay_shift-reads_only, delay_shift-in_store, delay-fits_more, delay_shift-same_projections, delay_shift-same_scope};

    ghost projections = { λ c s. delay_shift_projections s c.x.0 c.y.0 c.tau.0 };

    ghost scope = { λ c s. delay_shift_scope s c.x.0 c.y.0 c.tau.0 };

    ghost fits = { λ c s b. DelayFits s c.x.0 c.y.0 c.tau.0 };

    ghost monotone = { λ c s. delay_shift-monotone (λ xs. DelayFits s c.x.0 c.y.0 c.tau.0) s c.x.0 c.y.0 c.tau.0 };

    ghost reads_only = { λ c s. delay_shift-reads_only (λ xs. DelayFits s c.x.0 c.y.0 c.tau.0) s c.x.0 c.y.0 c.tau.0 };

    ghost fits_local = { λ c s xs ys same fits. fits };

    ghost fits_below = { λ c s a b low fits. fits };

    ghost in_store = { λ c s b shape fits. delay_shift-in_store s c.x.0 c.y.0 c.tau.0 shape fits };

    ghost fits_more = { λ c s t b more grows fits. delay-fits_more s t c.x.0 c.y.0 c.tau.0 grows fits };

    ghost same_projections = { λ c s t b grows fits. delay_shift-same_projections s t c.x.0 c.y.0 c.tau.0 grows fits };

    ghost same_scope = { λ c s t b grows fits. delay_shift-same_scope s t c.x.0 c.y.0 c.tau.0 grows fits };

    fn reads(&self, store: &Store) -> u32 {
        2 * place_count(store) + 1
    }

    fn read(&self, store: &Store, i: u32) -> CellId {
        let count = place_count(store);
        if i < count {
            cell_at_place(store, self.x, i)
        } else if i < 2 * count {
            cell_at_place(store, self.y, i - count)
        } else {
            store.var(self.tau)
        }
    }

    fn writes(&self, store: &Store) -> u32 {
        self.count(store)
    }

    fn written(&self, store: &Store, i: u32) -> CellId {
        self.target(store, i)
    }

    fn revise<L: Ledger>(&self, store: &mut Store, steps: &mut Steps<L>) -> Revised {
        steps.tick();
        revise_by_formulas(self, store)
    }

    fn still<L: Ledger>(&self, store: &Store, steps: &mut Steps<L>) -> bool {
        steps.tick();
        still_by_formulas(self, store)
    }
}
