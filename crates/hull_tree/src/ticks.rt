//! What a store gives a signal at each tick, slice by slice.

ghost use Rattle.std.specs.Prelude.{◌≡◌, ◌+◌, ◌<◌, ◌≤◌, ◌++◌, length, replicate, slice_index, IsSome, IfSome, IfOk, OnOk};
ghost use Rattle.tube_spec.specs.Limits.{most_ticks};
ghost use Rattle.tube_spec.specs.Grid.{last_tick};
ghost use Rattle.tube_spec.specs.Box.{AreBounded, IsBox};
ghost use Rattle.hull_tree.specs.Plane.{tube_of};
ghost use Rattle.hull_tree.specs.Tubes.{IsTubeTo};

use int_interval::Interval;
use std::alloc::{AllocError, Global};
use tube_store::{SignalId, Store};

/// What a store gives a signal at each tick, from tick 0 to the last. Each cell of the signal is read once.
///
/// The store is not to be empty, and the signal to be its own.
pub fn ticks_of(alloc: Global, store: &Store, signal: SignalId) -> Result<Vec<Interval>, AllocError>
    requires filled { IsSome store.now.box }
    requires signal { signal.0 < length store.now.shape.signals }
    ensures tube { IfOk result (λ ticks. IfSome store.now.box (λ xs. ticks.items ≡ tube_of store.now.shape xs signal.0)) }
    ensures len { IfOk result (λ ticks. length ticks.items ≡ last_tick store.now.shape.grid + 1) }
    ensures proper { IfOk result (λ ticks. IsBox ticks.items) }
    ensures bounded { IfOk result (λ ticks. AreBounded ticks.items) }
    ensures short { last_tick store.now.shape.grid ≤ most_ticks }
{
    store.known();
    let count = store.grid().ticks() as usize + 1;
    let end = store.slices();
    let mut ticks: Vec<Interval> = Vec::with_capacity(alloc, count)?;
    for slice in 0..end {
        push_slice(&mut ticks, store, signal, slice)?;
    }
    let cell = store.gate(signal, end);
    let last = store.get(cell);
    ticks.push(last)?;
    Ok(ticks)
}

/// Puts the ticks of a slice at the end, but its last one, which begins the next slice.
fn push_slice(
    ticks: &mut Vec<Interval>,
    store: &Store,
    signal: SignalId,
    slice: u32,
) -> Result<(), AllocError>
    requires filled { IsSome store.now.box }
    requires signal { signal.0 < length store.now.shape.signals }
    requires slice { slice + 1 < length store.now.shape.grid }
    requires begun { IsTubeTo store.now.shape store.now.box signal.0 (slice_index store.now.shape.grid slice) ticks.old.items }
    ensures { OnOk result (IsTubeTo store.now.shape store.now.box signal.0 (slice_index store.now.shape.grid (slice + 1)) ticks.new.items) }
{
    store.known();
    let cell = store.gate(signal, slice);
    let first = store.get(cell);
    ticks.push(first)?;
    let inner = store.envelope(signal, slice);
    let envelope = store.get(inner);
    let count = store.slice_width(slice) - 1;
    fill(ticks, envelope, count)?;
    Ok(())
}

/// Puts an interval at the end, so many times.
fn fill(ticks: &mut Vec<Interval>, interval: Interval, count: u32) -> Result<(), AllocError>
    ensures { OnOk result (ticks.new.items ≡ ticks.old.items ++ replicate count interval) }
{
    for _tick in 0..count {
        ticks.push(interval)?;
    }
    Ok(())
}
