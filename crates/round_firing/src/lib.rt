//! A round of firings: each contractor that waits is fired, in the order of their numbers.
#![tactic(auto)]

ghost use Rattle.std.specs.Prelude.{◌≡◌, ◌<◌, ℕ, Some, false, IsSome, IsNone, length, slice_get, flat_map};
ghost use Rattle.tube_spec.specs.Box.{measure_of};
ghost use Rattle.ctc_core.specs.Answers.{MatchRevised};
ghost use Rattle.ctc_network.specs.Nets.{IsThere, of_place};
ghost use Rattle.ctc_network.specs.Settling.{IsNarrowedBy, SettlesAs};

use ctc_core::Revised;
use ctc_network::{CtcId, Net, Settled};
use ctc_parts::Parted;
use std::sync::ledger::Ledger;
use step_count::Steps;

/// Fires each contractor that waits, in the order of their numbers, until all were asked or the box is empty. `Same` comes where none
/// narrowed the box, which is then the greatest common fixpoint below the box before; after `Narrowed` its measure is less; and after
/// `Empty` it is empty. It takes no memory.
pub fn fire_round<C: Parted + Drop, L: Ledger>(net: &mut Net<C>, steps: &mut Steps<L>) -> Revised
    requires { IsSome net.old.store.box }
    ensures contractors { net.new.contractors ≡ net.old.contractors }
    ensures narrowed { IsNarrowedBy (flat_map (λ c. of_place C.projections c net.old.store.shape) net.old.contractors) net.old.store net.new.store }
    ensures says { MatchRevised result
        ((net.new.store.box ≡ net.old.store.box) × SettlesAs (λ c. of_place C.projections c net.old.store.shape) net.old.contractors 0 net.old.store net.new.store Settled.Fixpoint)
        (IsSome net.new.store.box × (measure_of net.new.store.box < measure_of net.old.store.box))
        (IsNone net.new.store.box) }
{
    let mut answer = Revised::Same;
    for number in 0..net.numbers() {
        match fire_waiting(net, CtcId(number), steps) {
            Revised::Same => {}
            Revised::Narrowed => answer = Revised::Narrowed,
            Revised::Empty => return Revised::Empty,
        }
    }
    net.known();
    answer
}

/// Fires a contractor if it waits. `Same` comes too where it doesn't wait.
fn fire_waiting<C: Parted + Drop, L: Ledger>(
    net: &mut Net<C>,
    id: CtcId,
    steps: &mut Steps<L>,
) -> Revised
    requires number { id.0 < length net.old.contractors }
    requires filled { IsSome net.old.store.box }
    ensures contractors { net.new.contractors ≡ net.old.contractors }
    ensures narrowed { IsNarrowedBy (flat_map (λ c. of_place C.projections c net.old.store.shape) net.old.contractors) net.old.store net.new.store }
    ensures says { MatchRevised result
        ((net.new.store.box ≡ net.old.store.box) × (slice_get net.new.waiting id.0 ≡ Some false) × ((k : ℕ) → slice_get net.old.waiting k ≡ Some false → slice_get net.new.waiting k ≡ Some false))
        (IsSome net.new.store.box × (measure_of net.new.store.box < measure_of net.old.store.box))
        (IsNone net.new.store.box) }
{
    net.known();
    if !net.waits(id) {
        return Revised::Same;
    }
    net.fire(id, steps)
}
