//! The bound of a step of a signal.

ghost use Rattle.std.specs.Prelude.{◌≡◌, ◌<◌, ◌≤ℤ◌, pos, All, IsSome, IfSome, length, map};
ghost use Rattle.tube_spec.specs.Limits.{greatest_radius};
ghost use Rattle.tube_spec.specs.Span.{IsBounded};
ghost use Rattle.tube_spec.specs.Grid.{last_tick};
ghost use Rattle.tube_spec.specs.Tick.{at_tick};
ghost use Rattle.loop_degree.specs.Steps.{step_of, greatest_in, step_bound_of};
ghost use Rattle.loop_prover.specs.Steps.{meet_option, greatest_option, left_of};

use int_interval::Interval;
use tube_store::{SignalId, Store};

/// What is left of a step that may be nothing already.
fn narrowed(step: Option<Interval>, rate: Interval) -> Option<Interval>
    requires { IfSome step (IsBounded 1000000000) }
    ensures value { result ≡ meet_option step rate }
    ensures bounded { IfSome result (IsBounded 1000000000) }
{
    step?.meet(rate)
}

/// The greatest absolute value of a step, 0 where there is none.
fn greatest(step: Option<Interval>) -> i64
    requires { IfSome step (IsBounded 1000000000) }
    ensures value { result ≡ greatest_option step }
    ensures least { pos 0 ≤ℤ result }
    ensures most { result ≤ℤ pos 1000000000 }
{
    match step {
        None => 0,
        Some(step) => {
            step.known();
            (-step.lo()).max(step.hi())
        }
    }
}

/// The greatest absolute value of what the rates of a signal leave of a change from a tick to the next, in millimetres; 0 where they share
/// nothing with it. It takes no memory.
///
/// The store is not to be empty, the rates are to be its own, and the tick before its last one.
pub fn greatest_left(store: &Store, change: Interval, rates: &[SignalId], tick: u32) -> i64
    requires filled { IsSome store.now.box }
    requires change { IsBounded 1000000000 change }
    requires rates { All (λ r. r.0 < length store.now.shape.signals) rates.now }
    requires tick { tick < last_tick store.now.shape.grid }
    ensures value { IfSome store.now.box (λ xs. result ≡ greatest_in (left_of (at_tick store.now.shape xs) change (map (λ r. r.0) rates.now) tick)) }
    ensures least { pos 0 ≤ℤ result }
    ensures most { result ≤ℤ pos 1000000000 }
{
    store.known();
    change.known();
    let mut step = Some(change);
    for rate in rates {
        let speed = store.at_tick(*rate, tick);
        step = narrowed(step, speed);
    }
    greatest(step)
}

/// The greatest absolute step of a signal from a tick to the next, in millimetres, by what the store gives it and its rates; 0 where these
/// share nothing. It takes no memory.
///
/// The store is not to be empty, the signals are to be its own, and the tick before its last one.
pub fn greatest_step(store: &Store, x: SignalId, rates: &[SignalId], tick: u32) -> i64
    requires filled { IsSome store.now.box }
    requires x { x.0 < length store.now.shape.signals }
    requires rates { All (λ r. r.0 < length store.now.shape.signals) rates.now }
    requires tick { tick < last_tick store.now.shape.grid }
    ensures value { IfSome store.now.box (λ xs. result ≡ greatest_in (step_of (at_tick store.now.shape xs) x.0 (map (λ r. r.0) rates.now) tick)) }
    ensures least { pos 0 ≤ℤ result }
    ensures most { result ≤ℤ pos 1000000000 }
{
    store.known();
    let later = store.at_tick(x, tick + 1);
    let now = store.at_tick(x, tick);
    greatest_left(store, later.sub(now), rates, tick)
}

/// The step bound of a signal over cells, in millimetres: the greatest, over the cells `(a, b)`, of the sum of the greatest absolute steps
/// at `a` and at `b`, and at least 1. Between two corners of one cell the signal's difference changes by no more than that. It takes no
/// memory.
///
/// The store is not to be empty, the signals are to be its own, and every corner of a cell at most its last tick.
pub fn step_bound(cells: &[(u32, u32)], store: &Store, x: SignalId, rates: &[SignalId]) -> i64
    requires filled { IsSome store.now.box }
    requires x { x.0 < length store.now.shape.signals }
    requires rates { All (λ r. r.0 < length store.now.shape.signals) rates.now }
    requires corners { All (λ c. (c.0 < last_tick store.now.shape.grid) × (c.1 < last_tick store.now.shape.grid)) cells.now }
    ensures value { IfSome store.now.box (λ xs. result ≡ step_bound_of (at_tick store.now.shape xs) x.0 (map (λ r. r.0) rates.now) cells.now) }
    ensures least { pos 1 ≤ℤ result }
    ensures most { result ≤ℤ pos greatest_radius }
{
    let mut top = 1i64;
    for cell in cells {
        let at_a = greatest_step(store, x, rates, cell.0);
        let at_b = greatest_step(store, x, rates, cell.1);
        let sum = at_a + at_b;
        top = top.max(sum);
    }
    top
}
