//! The area of one query.

ghost use Rattle.std.specs.Prelude.{◌≡◌, ◌≤◌, ◌≤ℤ◌, pos, IfOk, IsSome, length, take};
ghost use Rattle.std.specs.List.{Contains};
ghost use Rattle.area_paver.specs.Lattice.{greatest_step};
ghost use Rattle.hull_tree.specs.Asked.{IsAsked};
ghost use Rattle.mission_items.specs.Valid.{IsMission};
ghost use Rattle.mission_loops.specs.Queries.{queries};
ghost use Rattle.mission_net.specs.Records.{shape_by, Encloses};
ghost use Rattle.mission_area.specs.Coverages.{IsCoverage, IsCoveredOver};

use area_paver::{AreaFault, area};
use area_report::Coverage;
use mission_items::Mission;
use std::alloc::Global;
use tube_io::NoMemory;
use tube_names::Query;
use tube_store::Store;

/// The chart of a query over a box that is not empty, or that it is crowded.
fn charted(alloc: Global, q: &Query, store: &Store, step: i64) -> Result<Coverage, NoMemory>
    requires filled { IsSome store.now.box }
    requires asked { IsAsked (length store.now.shape.signals) q.now }
    requires step { pos 1 ≤ℤ step }
    requires wide { step ≤ℤ pos greatest_step }
    ensures { IfOk result (λ told. IsCoveredOver store.now.shape store.now.box q.now step told) }
{
    match area(alloc, store, q, step) {
        Ok(chart) => Ok(Coverage::Charted(chart)),
        Err(AreaFault::Crowded) => Ok(Coverage::Crowded),
        Err(AreaFault::NoMemory) => Err(NoMemory),
    }
}

/// What is told of the area of a query of the first records of a mission over the box of a store, which holds their section: its chart on
/// the lattice with this step, in millimetres, or that the lattice has more than 4,000,000 points, or that the box is empty.
///
/// Each trajectory that is consistent with these records sees every point that is marked as seen, none that is marked as never seen, and no
/// place outside the window.
pub fn find_area(
    alloc: Global,
    mission: &Mission,
    upto: usize,
    q: &Query,
    store: &Store,
    step: i64,
) -> Result<Coverage, NoMemory>
    requires within { upto ≤ length mission.now.items }
    requires mission { IsMission mission.now }
    requires asked { Contains (queries (take upto mission.now.items)) q.now }
    requires shape { store.now.shape ≡ shape_by mission.now.cuts (take upto mission.now.items) }
    requires encloses { Encloses mission.now.cuts (take upto mission.now.items) store.now.box }
    requires step { pos 1 ≤ℤ step }
    requires wide { step ≤ℤ pos greatest_step }
    ensures { IfOk result (λ told. IsCoverage mission.now.cuts (take upto mission.now.items) store.now.box step q.now told) }
{
    if store.is_empty() {
        return Ok(Coverage::Empty);
    }
    charted(alloc, q, store, step)
}
