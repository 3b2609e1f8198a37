//! The step bounds over a set of pairs.

ghost use Rattle.std.specs.Prelude.{◌≡◌, ◌+◌, ◌-◌, ◌<◌, ◌≤◌, ◌≤ℤ◌, ℕ, pos, All, IsSome, IfSome, IfOk, length, map};
ghost use Rattle.std.specs.Bool.{OnTrue};
ghost use Rattle.std.specs.List.{range_with_len, fold};
ghost use Rattle.tube_spec.specs.Limits.{greatest_radius, most_ticks};
ghost use Rattle.tube_spec.specs.Grid.{last_tick};
ghost use Rattle.tube_spec.specs.Tick.{at_tick};
ghost use Rattle.hull_tree.specs.Plane.{tube_of};
ghost use Rattle.tplane_paver.specs.Runs.{AreInOrder};
ghost use Rattle.loop_degree.specs.Steps.{step_of, greatest_in, greatest_sum};
ghost use Rattle.loop_sets.specs.Cells.{column, pairs_in};
ghost use Rattle.loop_sets.specs.Bounds.{AreSteps, AreTopped, EndBefore, greater_sum, step_at};

use crate::blocks::Table;
use crate::tube::Tube;
use loop_prover::greatest_left;
use std::alloc::{AllocError, Global};
use tplane_paver::Run;
use tube_store::{SignalId, Store};

/// The greatest absolute steps of a signal, whose tube is given, from each tick to the next, from tick 0 on, with a table of the greatest ones.
pub(crate) fn steps_of(
    alloc: Global,
    store: &Store,
    tube: &Tube,
    x: SignalId,
    rates: &[SignalId],
) -> Result<Table, AllocError>
    requires filled { IsSome store.now.box }
    requires x { x.0 < length store.now.shape.signals }
    requires tube { IfSome store.now.box (λ xs. tube.now ≡ tube_of store.now.shape xs x.0) }
    requires ticks { length tube.now ≡ last_tick store.now.shape.grid + 1 }
    requires rates { All (λ r. r.0 < length store.now.shape.signals) rates.now }
    ensures made { IfOk result (λ v. IfSome store.now.box (λ xs. v ≡ map (λ k. greatest_in (step_of (at_tick store.now.shape xs) x.0 (map (λ r. r.0) rates.now) k)) (range_with_len 0 (last_tick store.now.shape.grid)))) }
    ensures len { IfOk result (λ v. length v ≡ last_tick store.now.shape.grid) }
    ensures small { IfOk result (λ v. AreSteps v) }
{
    store.grid().known();
    let steps = all_steps(alloc, store, tube, x, rates)?;
    Table::new(alloc, steps)
}

/// The greatest absolute steps of a signal, whose tube is given, from each tick to the next.
fn all_steps(
    alloc: Global,
    store: &Store,
    tube: &Tube,
    x: SignalId,
    rates: &[SignalId],
) -> Result<Vec<i64>, AllocError>
    requires filled { IsSome store.now.box }
    requires x { x.0 < length store.now.shape.signals }
    requires tube { IfSome store.now.box (λ xs. tube.now ≡ tube_of store.now.shape xs x.0) }
    requires ticks { length tube.now ≡ last_tick store.now.shape.grid + 1 }
    requires rates { All (λ r. r.0 < length store.now.shape.signals) rates.now }
    ensures made { IfOk result (λ v. IfSome store.now.box (λ xs. v.items ≡ map (λ k. greatest_in (step_of (at_tick store.now.shape xs) x.0 (map (λ r. r.0) rates.now) k)) (range_with_len 0 (last_tick store.now.shape.grid)))) }
    ensures len { IfOk result (λ v. length v.items ≡ last_tick store.now.shape.grid) }
    ensures small { IfOk result (λ v. AreSteps v.items) }
{
    let ticks = store.grid().ticks();
    let mut steps = Vec::with_capacity(alloc, ticks as usize)?;
    for tick in 0..ticks {
        let change = tube.change_between(tick, tick + 1);
        steps.push(greatest_left(store, change, rates, tick))?;
    }
    Ok(steps)
}

/// Whether no sum of a tick's step and one of a range is above a number, by what is known of the whole range.
fn are_topped(steps: &Table, a: u32, top: i64, first: u32, last: u32) -> bool
    requires steps { AreSteps steps.now }
    requires a { a < length steps.now }
    requires order { first ≤ last }
    requires within { last < length steps.now }
    requires short { length steps.now ≤ most_ticks }
    ensures { OnTrue result (AreTopped (step_at steps.now) a top first last) }
{
    match steps.over(first as usize, last as usize) {
        Some(greatest) => steps.at(a as usize) + greatest <= top,
        None => false,
    }
}

/// The greatest of a number and of the sums of both steps of each cell of a range. A range of which no sum is above the number is passed
/// over, and any other is halved.
fn raised(steps: &Table, a: u32, top: i64, first: u32, last: u32) -> i64
    requires steps { AreSteps steps.now }
    requires a { a < length steps.now }
    requires order { first ≤ last }
    requires within { last < length steps.now }
    requires short { length steps.now ≤ most_ticks }
    requires least { pos 1 ≤ℤ top }
    requires most { top ≤ℤ pos greatest_radius }
    ensures value { result ≡ fold (greater_sum (step_at steps.now)) top (column a first (last + 1 - first)) }
    ensures least { pos 1 ≤ℤ result }
    ensures most { result ≤ℤ pos greatest_radius }
{
    if are_topped(steps, a, top, first, last) {
        return top;
    }
    if first == last {
        let sum = steps.at(a as usize) + steps.at(first as usize);
        return top.max(sum);
    }
    let middle = first + (last - first) / 2;
    let higher = raised(steps, a, top, first, middle);
    raised(steps, a, higher, middle + 1, last)
}

/// The step bound over cells that are given as runs.
pub(crate) fn bound_over(steps: &Table, cells: &[Run]) -> i64
    requires steps { AreSteps steps.now }
    requires order { AreInOrder cells.now }
    requires within { EndBefore cells.now (length steps.now) }
    requires short { length steps.now ≤ most_ticks }
    ensures value { result ≡ greatest_sum (step_at steps.now) (pairs_in cells.now) }
    ensures least { pos 1 ≤ℤ result }
    ensures most { result ≤ℤ pos greatest_radius }
{
    let mut top = 1i64;
    for run in cells {
        top = raised(steps, run.a, top, run.first, run.last);
    }
    top
}
