//! The chart of what a sensor along a trajectory has seen.

ghost use Rattle.std.specs.Prelude.{◌≡◌, ◌↔◌, ◌*◌, ◌^◌, ◌<◌, ◌≤◌, pos, ◌≤ℤ◌, length, IfOk, IfSome, IsSome, IsErrOf};
ghost use Rattle.tube_spec.specs.Limits.{greatest_radius};
ghost use Rattle.hull_tree.specs.Asked.{IsAsked};
ghost use Rattle.area_paver.specs.Lattice.{greatest_step, most_points, axis_of, signal_hull, widened, IsAxis};
ghost use Rattle.area_paver.specs.Survey.{survey_of};
ghost use Rattle.area_paver.specs.Charts.{IsChart, IsChartOver, points_of};

use crate::axis::Axis;
use crate::chart::{Area, AreaFault};
use crate::line::lines_by;
use crate::sensor::Sensor;
use crate::tube::{hull_of, ticks_of};
use std::alloc::{AllocError, Global};
use tube_names::Query;
use tube_store::{SignalId, Store};

/// How many points a lattice may have.
pub const MOST_POINTS: u128 = 4_000_000;

/// The chart of what a sensor of the query's radius sees, which stands at the query's two signals at each tick, as a store has them. The
/// lattice has the points of the window whose coordinates are multiples of the step, in millimetres. The work is at most the ticks times
/// the points of the shorter side, and the points. The query's gap is not used.
pub fn area(alloc: Global, store: &Store, q: &Query, step: i64) -> Result<Area, AreaFault>
    requires filled { IsSome store.now.box }
    requires asked { IsAsked (length store.now.shape.signals) q.now }
    requires step { pos 1 ≤ℤ step }
    requires wide { step ≤ℤ pos greatest_step }
    ensures chart { IfOk result (λ chart. IfSome store.now.box (λ xs. IsChart store.now.shape xs q.now step chart)) }
    ensures crowded { IfSome store.now.box (λ xs. IsErrOf result AreaFault.Crowded ↔ (most_points < points_of store.now.shape xs q.now step)) }
{
    let columns = axis_of(store, q.x, q.radius, step);
    let rows = axis_of(store, q.y, q.radius, step);
    if columns.count as u128 * rows.count as u128 > MOST_POINTS {
        return Err(AreaFault::Crowded);
    }
    match chart(alloc, store, q, columns, rows) {
        Ok(chart) => Ok(chart),
        Err(_) => Err(AreaFault::NoMemory),
    }
}

/// The multiples of a step in a signal's window: the hull of all its cells, wider by the radius at both ends.
fn axis_of(store: &Store, signal: SignalId, radius: i64, step: i64) -> Axis
    requires filled { IsSome store.now.box }
    requires signal { signal.0 < length store.now.shape.signals }
    requires radius { pos 0 ≤ℤ radius }
    requires small { radius ≤ℤ pos greatest_radius }
    requires step { pos 1 ≤ℤ step }
    requires wide { step ≤ℤ pos greatest_step }
    ensures axis { IfSome store.now.box (λ xs. result ≡ axis_of step (widened radius (signal_hull store.now.shape xs signal.0))) }
    ensures small { IsAxis result }
    ensures step { result.step ≡ step }
    ensures dense { step ≡ pos 1 → 1 ≤ result.count }
{
    let hull = hull_of(store, signal);
    Axis::new(hull.lo() - radius, hull.hi() + radius, step)
}

/// The chart over the columns and the rows of a window.
fn chart(
    alloc: Global,
    store: &Store,
    q: &Query,
    columns: Axis,
    rows: Axis,
) -> Result<Area, AllocError>
    requires filled { IsSome store.now.box }
    requires asked { IsAsked (length store.now.shape.signals) q.now }
    requires columns { IsAxis columns }
    requires rows { IsAxis rows }
    requires few { columns.count * rows.count ≤ most_points }
    requires narrow { columns.count < 2 ^ 32 }
    requires low { rows.count < 2 ^ 32 }
    ensures { IfOk result (λ chart. IfSome store.now.box (λ xs. IsChartOver (survey_of store.now.shape xs q.now) columns rows chart)) }
{
    let xs = ticks_of(alloc, store, q.x)?;
    let ys = ticks_of(alloc, store, q.y)?;
    let sensor = Sensor {
        norm: q.norm,
        radius: q.radius as u32,
    };
    let turned = columns.count < rows.count;
    let lines = lines_by(alloc, sensor, columns, rows, turned, &xs, &ys)?;
    Ok(Area {
        columns,
        rows,
        turned,
        lines,
    })
}
