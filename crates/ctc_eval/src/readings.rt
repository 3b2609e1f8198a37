//! What a store gives a variable, and a signal at a place; and the ticks of its slices.

ghost use Rattle.std.specs.Prelude.{◌≡◌, ◌+◌, ◌*◌, ◌<◌, ◌≤◌, IsSome, IfSome, length, slice_index};
ghost use Rattle.tube_spec.specs.Limits.{greatest_bound, most_ticks};
ghost use Rattle.tube_spec.specs.Span.{IsBounded};
ghost use Rattle.ctc_eval.specs.Evals.{variable_at};
ghost use Rattle.ctc_eval.specs.Clock.{cells_of};
ghost use Rattle.ctc_eval.specs.Walks.{at_place, AreInside};

use super::clock::between;
use int_interval::Interval;
use slice_gates::Ticks;
use tube_store::{CellId, SignalId, Store, VarId};

/// The interval of a variable in a box that is not empty.
pub fn variable(store: &Store, var: VarId) -> Interval
    requires named { var.0 < length store.now.shape.vars }
    requires filled { IsSome store.now.box }
    ensures value { result ≡ variable_at store.now.shape (cells_of store.now.box) var.0 }
    ensures bounded { IsBounded greatest_bound result }
{
    store.get(store.var(var))
}

/// What a signal may be at a place among its cells, in a box that is not empty.
pub fn signal(store: &Store, signal: SignalId, place: u32) -> Interval
    requires named { signal.0 < length store.now.shape.signals }
    requires place { place + 1 < 2 * length store.now.shape.grid }
    requires filled { IsSome store.now.box }
    ensures value { result ≡ at_place store.now.shape (cells_of store.now.box) signal.0 place }
    ensures bounded { IsBounded greatest_bound result }
{
    store.known();
    let first = store.gate(signal, 0);
    store.get(CellId(first.0 + place))
}

/// The tick of a gate.
pub fn tick_of(store: &Store, gate: u32) -> u32
    requires { gate < length store.now.shape.grid }
    ensures value { result ≡ slice_index store.now.shape.grid gate }
    ensures few { result ≤ most_ticks }
{
    store.known();
    store.grid().boundary(gate)
}

/// How many ticks a slice has between its gates.
pub fn ticks_inside(store: &Store, slice: u32) -> u32
    requires { slice + 1 < length store.now.shape.grid }
    ensures value { slice_index store.now.shape.grid slice + 1 + result ≡ slice_index store.now.shape.grid (slice + 1) }
    ensures few { result ≤ most_ticks }
{
    store.known();
    tick_of(store, slice + 1) - tick_of(store, slice) - 1
}

/// Those of some ticks that a slice has between its gates. None where there is none.
pub fn inside(store: &Store, ticks: Ticks, slice: u32) -> Option<Ticks>
    requires { slice + 1 < length store.now.shape.grid }
    ensures { AreInside ticks (slice_index store.now.shape.grid slice) (slice_index store.now.shape.grid (slice + 1)) result }
{
    store.known();
    between(ticks, tick_of(store, slice), tick_of(store, slice + 1))
}
