//! The sets of one query.

ghost use Rattle.std.specs.Prelude.{◌≡◌, ◌<◌, ◌≤◌, ◌∷◌, [], ℕ, All, IsSome, IfSome, IfOk, length, map, take};
ghost use Rattle.std.specs.List.{Contains};
ghost use Rattle.hull_tree.specs.Asked.{IsAsked};
ghost use Rattle.hull_tree.specs.Plane.{plane_of};
ghost use Rattle.loop_sets.specs.Sets.{IsComponent};
ghost use Rattle.mission_items.specs.Valid.{IsMission};
ghost use Rattle.mission_net.specs.Records.{shape_by, Encloses};
ghost use Rattle.mission_loops.specs.Queries.{queries, rates_of};
ghost use Rattle.mission_loops.specs.Cost.{TakesAtMost};
ghost use Rattle.mission_loops.specs.Findings.{sets_in, ArePaved, AreFound, IsToldOver, IsTold};

use crate::records::{first_items, rates_of};
use crate::sets::FoundSets;
use hull_tree::{HullTree, Query};
use loop_report::Found;
use loop_sets::Prover;
use mission_items::{Item, Mission};
use std::alloc::Global;
use std::sync::ledger::Ledger;
use step_count::Steps;
use tplane_paver::{Component, PaveFault, Runs, components, pave};
use tube_io::NoMemory;
use tube_store::{SignalId, Store};

/// The possible pairs of a query over the box of a store as maximal runs, or none where there are too many of these.
fn paved<L: Ledger>(
    alloc: Global,
    q: &Query,
    store: &Store,
    steps: &mut Steps<L>,
) -> Result<Option<Runs>, NoMemory>
    requires filled { IsSome store.now.box }
    requires asked { IsAsked (length store.now.shape.signals) q.now }
    ensures paved { IfOk result (λ paved. IfSome store.now.box (λ xs. ArePaved (plane_of store.now.shape xs q.now) paved)) }
    ensures steps { TakesAtMost store.now.shape store.now.box (q.now ∷ []) steps.old steps.new }
{
    let tree = HullTree::new(alloc, store, q)?;
    match pave(alloc, &tree, steps) {
        Ok(runs) => Ok(Some(runs)),
        Err(PaveFault::Crowded) => Ok(None),
        Err(PaveFault::NoMemory) => Err(NoMemory),
    }
}

/// The sets with what is found of each.
fn proved(
    alloc: Global,
    sets: Vec<Component>,
    q: &Query,
    rates_x: &[SignalId],
    rates_y: &[SignalId],
    store: &Store,
) -> Result<Vec<Found>, NoMemory>
    requires filled { IsSome store.now.box }
    requires asked { IsAsked (length store.now.shape.signals) q.now }
    requires rates_x { All (λ r. r.0 < length store.now.shape.signals) rates_x.now }
    requires rates_y { All (λ r. r.0 < length store.now.shape.signals) rates_y.now }
    requires components { IfSome store.now.box (λ xs. All (IsComponent (plane_of store.now.shape xs q.now)) sets.items) }
    ensures sets { IfOk result (λ found. sets_in found.items ≡ sets.items) }
    ensures found { IfOk result (λ found. IfSome store.now.box (λ xs. AreFound store.now.shape xs q.now (map (λ r. r.0) rates_x.now) (map (λ r. r.0) rates_y.now) found.items)) }
{
    let prover = Prover::new(alloc, store, q, rates_x, rates_y)?;
    let mut found = Vec::new(alloc);
    for set in sets {
        let finding = prover.finding(alloc, &set)?;
        found.push(Found { set, finding })?;
    }
    Ok(found)
}

/// The sets of a query over a box that is not empty, or none where it is crowded.
fn sets_over<L: Ledger>(
    alloc: Global,
    items: &[Item],
    q: &Query,
    store: &Store,
    steps: &mut Steps<L>,
) -> Result<Option<FoundSets>, NoMemory>
    requires filled { IsSome store.now.box }
    requires asked { IsAsked (length store.now.shape.signals) q.now }
    requires rates { (x : ℕ) → All (λ rate. rate < length store.now.shape.signals) (rates_of items.now x) }
    ensures told { IfOk result (λ told. IsToldOver items.now store.now.shape store.now.box q.now told) }
    ensures steps { TakesAtMost store.now.shape store.now.box (q.now ∷ []) steps.old steps.new }
{
    let Some(runs) = paved(alloc, q, store, steps)? else {
        return Ok(None);
    };
    let sets = components(alloc, &runs)?;
    let rates_x = rates_of(alloc, items, q.x)?;
    let rates_y = rates_of(alloc, items, q.y)?;
    let found = proved(alloc, sets, q, &rates_x, &rates_y, store)?;
    Ok(Some(FoundSets::new(found)))
}

/// What is told of a query of the first records of a mission over the box of a store, which holds their section: its sets with what is
/// found of each, or none where its possible pairs form more than 2,000,000 maximal runs. Over the empty box it has no set.
///
/// Each revisit of each trajectory that is consistent with these records is in one of the sets, and where something is found of a set,
/// each such trajectory has a revisit in it. It takes at most one step, and four for each square that the paver judges Mixed.
pub fn find_loops<L: Ledger>(
    alloc: Global,
    mission: &Mission,
    upto: usize,
    q: &Query,
    store: &Store,
    steps: &mut Steps<L>,
) -> Result<Option<FoundSets>, NoMemory>
    requires within { upto ≤ length mission.now.items }
    requires mission { IsMission mission.now }
    requires asked { Contains (queries (take upto mission.now.items)) q.now }
    requires shape { store.now.shape ≡ shape_by mission.now.cuts (take upto mission.now.items) }
    requires encloses { Encloses mission.now.cuts (take upto mission.now.items) store.now.box }
    ensures told { IfOk result (λ told. IsTold mission.now.cuts (take upto mission.now.items) store.now.box q.now told) }
    ensures steps { TakesAtMost store.now.shape store.now.box (q.now ∷ []) steps.old steps.new }
{
    if store.is_empty() {
        return Ok(Some(FoundSets::new(Vec::new(alloc))));
    }
    sets_over(alloc, first_items(mission, upto), q, store, steps)
}
