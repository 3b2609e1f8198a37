//! Settling by rounds of firings, with the list of those that narrowed the box.
//!
//! Whoever receives the list can fire the same contractors in the same order: every fixpoint that they have in common below the box at the
//! start lies below the box at the end.
#![tactic(auto)]

ghost use Rattle.std.specs.Prelude.{◌≡◌, ◌≢◌, ◌+◌, ◌-◌, ◌*◌, ◌<◌, ◌≤◌, ℕ, [], Option, Some, None, true, false, IsSome, IsNone, IsTrue, IsFalse, IfSome, IfOk, OnErr, All, length, count_by, slice_get, flat_map};
ghost use Rattle.tube_spec.specs.Fixpoint.{IsFixpoint};
ghost use Rattle.tube_spec.specs.Box.{measure_of};
ghost use Rattle.ctc_network.specs.Nets.{IsThere, of_place};
ghost use Rattle.ctc_network.specs.Settling.{SettlesAs, IsNarrowedBy, StillNarrows, contractors_at};

use ctc_core::Revised;
use ctc_network::{CtcId, Net, Settled};
use ctc_parts::Parted;
use std::alloc::{AllocError, Global};
use std::sync::ledger::Ledger;
use step_count::Steps;

/// How settling ended, and the numbers of the contractors whose firings narrowed cells or emptied the box, in the order of the firings.
#[derive(Drop)]
pub struct Traced {
    pub settled: Settled,
    pub fired: Vec<CtcId>,
}

/// Fires the contractors that wait, in rounds of rising numbers, until none waits, the box is empty, or so many firings as `most` have
/// narrowed it.
///
/// Then a contractor is sought that still narrows the box: where there is one, the answer is `Spent` with it, and else `Fixpoint`. Each
/// listed firing took one from the measure at least, the sum of the widths of all cells, so `Spent` never comes where `most` is above the
/// measure at the start. After `Empty` every later call answers `Empty`, with no step, and lists nothing.
///
/// The steps are at most as many as waited, and what the measure fell times one more than the numbers of the net. It takes memory for the
/// list alone. Where that is refused, the box lost no common fixpoint, and the net may be settled again.
pub fn settle_traced<C: Parted + Drop, L: Ledger>(
    alloc: Global,
    net: &mut Net<C>,
    most: u32,
    steps: &mut Steps<L>,
) -> Result<Traced, AllocError>
    ensures contractors { net.new.contractors ≡ net.old.contractors }
    ensures narrowed { IsNarrowedBy (flat_map (λ c. of_place C.projections c net.old.store.shape) net.old.contractors) net.old.store net.new.store }
    ensures settled { IfOk result (λ t. SettlesAs (λ c. of_place C.projections c net.old.store.shape) net.old.contractors most net.old.store net.new.store t.settled) }
    ensures there { IfOk result (λ t. All (λ id. IsThere net.old.contractors id.0) t.fired.items) }
    ensures few { IfOk result (λ t. length t.fired.items ≤ most) }
    ensures spent { IfOk result (λ t. (id : CtcId) → t.settled ≡ Settled.Spent id → length t.fired.items ≡ most) }
    ensures measured { IfOk result (λ t. IsSome net.new.store.box → measure_of net.new.store.box + length t.fired.items ≤ measure_of net.old.store.box) }
    ensures emptied { IsNone net.old.store.box → IfOk result (λ t. (t.settled ≡ Settled.Empty) × (t.fired.items ≡ [])) × (net.new ≡ net.old) × (steps.new ≡ steps.old) }
    ensures bound { steps.new ≤ steps.old + count_by (λ w. w) net.old.waiting + (measure_of net.old.store.box - measure_of net.new.store.box) * (length net.old.contractors + 1) }
    ensures enough { IfOk result (λ t. IsNarrowedBy (flat_map (λ c. of_place C.projections c net.old.store.shape) (contractors_at net.old.contractors t.fired.items)) net.old.store net.new.store) }
{
    let mut fired = Vec::new(alloc);
    if net.store().is_empty() {
        return Ok(Traced {
            settled: Settled::Empty,
            fired,
        });
    }
    net.known();
    let mut from = 0;
    while let Some(id) = next_waiting(net, from) {
        net.known();
        if fired.len() == most as usize {
            let settled = sought(net, steps);
            return Ok(Traced { settled, fired });
        }
        match net.fire(id, steps) {
            Revised::Same => {}
            Revised::Narrowed => fired.push(id)?,
            Revised::Empty => {
                fired.push(id)?;
                return Ok(Traced {
                    settled: Settled::Empty,
                    fired,
                });
            }
        }
        from = id.0 + 1;
    }
    net.known();
    Ok(Traced {
        settled: Settled::Fixpoint,
        fired,
    })
}

/// The first contractor that waits, from a number on and then from the first number.
fn next_waiting<C: Parted + Drop>(net: &Net<C>, from: u32) -> Option<CtcId>
    requires { from ≤ length net.now.contractors }
    ensures some { IfSome result (λ id. slice_get net.now.waiting id.0 ≡ Some true) }
    ensures none { IsNone result → All IsFalse net.now.waiting }
{
    net.known();
    match waiting_among(net, from, net.numbers()) {
        Some(id) => Some(id),
        None => waiting_among(net, 0, from),
    }
}

/// The first contractor that waits among those with the numbers from `first` to before `last`.
fn waiting_among<C: Parted + Drop>(net: &Net<C>, first: u32, last: u32) -> Option<CtcId>
    requires { last ≤ length net.now.contractors }
    ensures some { IfSome result (λ id. slice_get net.now.waiting id.0 ≡ Some true) }
    ensures none { IsNone result → (k : ℕ) → first ≤ k → k < last → slice_get net.now.waiting k ≡ Some false }
{
    for number in first..last {
        if net.waits(CtcId(number)) {
            return Some(CtcId(number));
        }
    }
    None
}

/// `Spent` with a contractor that still narrows the box, or `Fixpoint` where there is none.
fn sought<C: Parted + Drop, L: Ledger>(net: &Net<C>, steps: &mut Steps<L>) -> Settled
    requires { IsSome net.now.store.box }
    ensures spent { (id : CtcId) → result ≡ Settled.Spent id → StillNarrows (λ c. of_place C.projections c net.now.store.shape) net.now.contractors net.now.store.box id.0 }
    ensures rests { result ≡ Settled.Fixpoint → (k : ℕ) (c : Option C) → slice_get net.now.contractors k ≡ Some c → IfSome net.now.store.box (IsFixpoint (of_place C.projections c net.now.store.shape)) }
    ensures never { result ≢ Settled.Empty }
    ensures bound { steps.new ≤ steps.old + count_by (λ w. w) net.now.waiting }
{
    net.known();
    for number in 0..net.numbers() {
        if narrows(net, CtcId(number), steps) {
            return Settled::Spent(CtcId(number));
        }
    }
    Settled::Fixpoint
}

/// Whether a contractor waits and still narrows the box.
fn narrows<C: Parted + Drop, L: Ledger>(net: &Net<C>, id: CtcId, steps: &mut Steps<L>) -> bool
    requires filled { IsSome net.now.store.box }
    requires number { id.0 < length net.now.contractors }
    ensures yes { IsTrue result → StillNarrows (λ c. of_place C.projections c net.now.store.shape) net.now.contractors net.now.store.box id.0 }
    ensures no { IsFalse result → (c : Option C) → slice_get net.now.contractors id.0 ≡ Some c → IfSome net.now.store.box (IsFixpoint (of_place C.projections c net.now.store.shape)) }
    ensures step { steps.new ≤ steps.old + 1 }
    ensures quiet { slice_get net.now.waiting id.0 ≡ Some false → steps.new ≡ steps.old }
{
    net.known();
    net.waits(id) && net.contractor(id).still(net.store(), steps)
}
