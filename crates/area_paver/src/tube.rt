//! What a store gives a signal: at each tick, and in all.

ghost use Rattle.std.specs.Prelude.{◌≡◌, ◌+◌, ◌<◌, ◌≤◌, length, IfOk, IfSome, IsSome};
ghost use Rattle.tube_spec.specs.Limits.{greatest_bound, most_ticks};
ghost use Rattle.tube_spec.specs.Span.{IsBounded, IsProper};
ghost use Rattle.tube_spec.specs.Grid.{last_tick};
ghost use Rattle.tube_spec.specs.Box.{AreBounded};
ghost use Rattle.hull_tree.specs.Plane.{tube_of};
ghost use Rattle.area_paver.specs.Lattice.{signal_hull};

use int_interval::Interval;
use std::alloc::{AllocError, Global};
use tube_store::{SignalId, Store};

/// What a store gives a signal at each tick, from tick 0 to the last.
pub(crate) fn ticks_of(
    alloc: Global,
    store: &Store,
    signal: SignalId,
) -> Result<Vec<Interval>, AllocError>
    requires filled { IsSome store.now.box }
    requires signal { signal.0 < length store.now.shape.signals }
    ensures tube { IfOk result (λ ticks. IfSome store.now.box (λ xs. ticks.items ≡ tube_of store.now.shape xs signal.0)) }
    ensures len { IfOk result (λ ticks. length ticks.items ≡ last_tick store.now.shape.grid + 1) }
    ensures bounded { IfOk result (λ ticks. AreBounded ticks.items) }
    ensures short { last_tick store.now.shape.grid ≤ most_ticks }
{
    store.grid().known();
    let mut ticks: Vec<Interval> = Vec::new(alloc);
    for tick in 0..store.grid().ticks() + 1 {
        ticks.push(store.at_tick(signal, tick))?;
    }
    Ok(ticks)
}

/// The hull of all cells of a signal.
pub(crate) fn hull_of(store: &Store, signal: SignalId) -> Interval
    requires filled { IsSome store.now.box }
    requires signal { signal.0 < length store.now.shape.signals }
    ensures hull { IfSome store.now.box (λ xs. result ≡ signal_hull store.now.shape xs signal.0) }
    ensures bounded { IsBounded greatest_bound result }
    ensures proper { IsProper result }
{
    store.grid().known();
    let mut hull = store.get(store.gate(signal, 0));
    for i in 0..store.slices() {
        let envelope = store.get(store.envelope(signal, i));
        let gate = store.get(store.gate(signal, i + 1));
        hull = hull.hull(envelope).hull(gate);
    }
    hull.known();
    hull
}
