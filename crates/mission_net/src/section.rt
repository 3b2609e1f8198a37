ghost use Rattle.std.specs.Prelude.{◌≡◌, ◌+◌, ◌≤◌, ℕ, List, IfOk, IfSome, OnErr, OnOk, IsFalse, IsNone, IsSome, All, length, take, drop};
ghost use Rattle.tube_spec.specs.Box.{AreBounded, IsBox, box_more, measure_of};
ghost use Rattle.tube_spec.specs.Owner.{start_of};
ghost use Rattle.mission_items.specs.Valid.{IsMission};
ghost use Rattle.mission_net.specs.Records.{owners_from, IsEnclosure, Encloses};
ghost use Rattle.mission_net.specs.Tables.{IsTableOf};
ghost use Rattle.mission_net.specs.Building.{IsNetOf, IsSectionAs, IsSpentAs};
ghost use Rattle.mission_net.specs.Costs.{section_cost};

use crate::AnyCtc;
use crate::laws::settled_section_law;
use crate::made::Made;
use crate::missions::build_on;
use ctc_network::{Net, Order, Settled};
use mission_items::Mission;
use std::sync::ledger::Ledger;
use step_count::Steps;
use tube_io::NoMemory;

/// How the settling of a section ended.
#[derive(Clone, Copy, Debug, PartialEq, Eq)]
pub struct SectionEnd {
    /// The answer of settling.
    pub answer: Settled,
    /// The measure of the box before it was settled: the sum of the widths of its cells.
    pub began: u128,
}

/// Builds the records of a section, those from item `first` on and below item `last`, onto the net, and settles it from the box that
/// it has, with the new cells at their declared ranges.
///
/// Going on so equals starting afresh: where the box before lost no common fixpoint of the records before, the box is that of the
/// section of all records so far, whatever the order. The table is that of the records before, and is carried on. After want of memory
/// neither is built on.
pub fn next_section<L: Ledger>(
    mission: &Mission,
    first: usize,
    last: usize,
    table: &mut Made,
    net: &mut Net<AnyCtc>,
    order: Order,
    budget: u64,
    steps: &mut Steps<L>,
) -> Result<SectionEnd, NoMemory>
    requires order { first ≤ last }
    requires within { last ≤ length mission.now.items }
    requires mission { IsMission mission.now }
    requires table { IsTableOf table.old (take first mission.now.items) }
    requires holds { IsNetOf mission.now.cuts (take first mission.now.items) net.old }
    requires before { IsEnclosure mission.now.cuts (take first mission.now.items) net.old.store.box }

    // The net and the table are those of the records so far.
    ensures table { OnOk result (IsTableOf table.new (take last mission.now.items)) }
    ensures holds { OnOk result (IsNetOf mission.now.cuts (take last mission.now.items) net.new) }

    // Its box is the greatest common fixpoint of their projections below the declared ranges, or empty exactly where there is none, or
    // it was spent and lost no common fixpoint. It encloses every assignment that satisfies them.
    ensures section { IfOk result (λ end. IsSectionAs mission.now.cuts (take last mission.now.items) net.new.store.box end.answer) }
    ensures encloses { OnOk result (Encloses mission.now.cuts (take last mission.now.items) net.new.store.box) }

    // Where it is not empty, each cell has a number, and all are within the bound.
    ensures proper { OnOk result (IfSome net.new.store.box (λ xs. IsBox xs × AreBounded xs)) }

    // Nobody waits at a fixpoint, and the budget is spent only with its cause.
    ensures resting { IfOk result (λ end. end.answer ≡ Settled.Fixpoint → All IsFalse net.new.waiting) }
    ensures began { IfOk result (λ end. end.began ≡ measure_of (box_more net.old.store.box (start_of mission.now.cuts (owners_from (take first mission.now.items) (drop first (take last mission.now.items)))))) }
    ensures spent { IfOk result (λ end. IsSpentAs mission.now.cuts (take last mission.now.items) net.new.store.box end.began budget end.answer) }

    // No measure is above the greatest widths of 2,000,000 cells.
    ensures small { IfOk result (λ end. end.began ≤ 2000000000000000) }

    // After an empty section it is empty, and no contractor is fired for it.
    ensures emptied { IfOk result (λ end. IsNone net.old.store.box → end.answer ≡ Settled.Empty) }
    ensures unfired { IsNone net.old.store.box → steps.new ≡ steps.old }

    // Where nobody waited before, it takes a step for each contractor that is added, at most, and for each cell the width that it loses
    // times one more than its readers. Nothing is settled where memory runs out.
    ensures cost { IfOk result (λ end. (IsSome net.old.store.box → All IsFalse net.old.waiting) → steps.new ≤ steps.old + section_cost mission.now.cuts mission.now.items first last (box_more net.old.store.box (start_of mission.now.cuts (owners_from (take first mission.now.items) (drop first (take last mission.now.items))))) net.new.store.box) }
    ensures unsettled { OnErr result (steps.new ≡ steps.old) }
{
    build_on(mission, first, last, table, net)?;
    let store = net.store();
    store.known();
    let began = store.measure();
    let answer = net.settle(order, budget, steps);
    settled_section_law();
    let settled = net.store();
    settled.known();
    Ok(SectionEnd { answer, began })
}
