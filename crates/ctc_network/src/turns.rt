//! Settling in turns: again after a budget was spent, with the same budget.

ghost use Rattle.std.specs.Prelude.{◌≡◌, ◌+◌, ◌*◌, ◌<◌, ◌≤◌, ℕ, IsFalse, IsNone, All, length};
ghost use Rattle.cell_readers.specs.Costs.{lost_cost};
ghost use Rattle.ctc_network.specs.Nets.{of_place, readers_of};
ghost use Rattle.ctc_network.specs.Settling.{SettlesAs};

use crate::answers::{Order, Settled};
use crate::net::Net;
use ctc_parts::Parted;
use std::sync::ledger::Ledger;
use step_count::Steps;

impl<C: Parted + Drop> Net<C> {
    /// Settles the net, and again after `Spent`, at most so many times in all and each time with the whole budget.
    ///
    /// So `Spent` comes only where the measure fell by the budget in each turn, and never where the budget times the turns is above the
    /// measure at the start. Between two turns nothing is lost. The steps are at most one for each contractor in each turn, and for each
    /// cell the width that it lost times one more than its readers. It takes no memory.
    pub fn settle_turns<L: Ledger>(
        &mut self,
        order: Order,
        budget: u64,
        turns: u32,
        steps: &mut Steps<L>,
    ) -> Settled
        requires { 0 < turns }
        ensures contractors { self.new.contractors ≡ self.old.contractors }
        ensures shape { self.new.store.shape ≡ self.old.store.shape }
        ensures settled { SettlesAs (λ c. of_place C.projections c self.old.store.shape) self.old.contractors (turns * budget) self.old.store self.new.store result }
        ensures resting { result ≡ Settled.Fixpoint → All IsFalse self.new.waiting }
        ensures emptied { IsNone self.old.store.box → (result ≡ Settled.Empty) × (self.new ≡ self.old) × (steps.new ≡ steps.old) }
        ensures bound { steps.new ≤ steps.old + turns * length self.old.contractors + lost_cost (readers_of (of_place C.scope) self.old.store.shape self.old.contractors) self.old.store.box self.new.store.box }
    {
        self.known();
        let mut answer = self.settle(order, budget, steps);
        for _turn in 1..turns {
            match answer {
                Settled::Fixpoint => return Settled::Fixpoint,
                Settled::Empty => return Settled::Empty,
                Settled::Spent(_) => {
                    self.known();
                    answer = self.settle(order, budget, steps);
                }
            }
        }
        answer
    }
}
