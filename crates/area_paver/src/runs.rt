//! Runs of points along a line, each kept as its end at the point where it begins.

ghost use Rattle.std.specs.Prelude.{◌≡◌, ◌↔◌, ◌⊎◌, ℕ, ◌<◌, ◌≤◌, pos, neg_ℤ, ◌≤ℤ◌, true, length, max, IfOk, slice_index_or};
ghost use Rattle.tube_spec.specs.Limits.{greatest_bound, greatest_radius};
ghost use Rattle.tube_spec.specs.Span.{Holds, IsBounded, point, sub_of};
ghost use Rattle.tube_names.specs.Nearness.{is_near};
ghost use Rattle.hull_tree.specs.Plane.{least_abs, greatest_abs};
ghost use Rattle.area_paver.specs.Lattice.{most_points, coordinate, IsAxis};
ghost use Rattle.area_paver.specs.Runs.{IsCovered, IsMarkBy, mark_at};
ghost use Rattle.area_paver.specs.declared.chart.Mark.TheVariants.{Open};

use crate::axis::{Axis, count_to};
use crate::chart::Mark;
use crate::sensor::{Sensor, greatest_offset, least_offset};
use int_interval::Interval;
use std::alloc::{AllocError, Global};

/// Adds the run of the points from `start` on, before `end`. The work is the same however long the run is.
fn extend(ends: &mut [u32], start: u64, end: u64)
    requires end { end ≤ length ends.old }
    requires few { length ends.old ≤ most_points }
    ensures { (c : ℕ) → IsCovered ends.new c ↔ (IsCovered ends.old c ⊎ ((start ≤ c) × (c < end))) }
{
    if start < end {
        let place = start as usize;
        ends[place] = furthest(ends[place], end as u32);
    }
}

/// Adds the points whose coordinates lie between two numbers.
fn add_run(ends: &mut [u32], axis: Axis, low: i64, high: i64)
    requires axis { IsAxis axis }
    requires len { length ends.old ≡ axis.count }
    requires few { axis.count ≤ most_points }
    requires low { IsBounded 3000000000 (point low) }
    requires high { IsBounded 3000000000 (point high) }
    ensures { (c : ℕ) → c < axis.count → IsCovered ends.new c ↔ (IsCovered ends.old c ⊎ Holds (record { lo = low; hi = high }) (coordinate axis c)) }
{
    let start = count_to(axis.first, axis.step, low - 1);
    let stop = count_to(axis.first, axis.step, high);
    extend(ends, start, stop.min(axis.count));
}

/// Adds the points of a line at `q` that some position of two tubes at a tick sees.
pub(crate) fn add_possible(
    ends: &mut [u32],
    axis: Axis,
    sensor: Sensor,
    x: Interval,
    y: Interval,
    q: i64,
)
    requires axis { IsAxis axis }
    requires len { length ends.old ≡ axis.count }
    requires few { axis.count ≤ most_points }
    requires radius { sensor.radius ≤ greatest_radius }
    requires x { IsBounded greatest_bound x }
    requires y { IsBounded greatest_bound y }
    requires q { IsBounded 2500000000 (point q) }
    ensures { (c : ℕ) → c < axis.count → IsCovered ends.new c ↔ (IsCovered ends.old c ⊎ (is_near sensor.norm sensor.radius (least_abs (sub_of x (point (coordinate axis c)))) (least_abs (sub_of y (point q))) ≡ true)) }
{
    if let Some(reach) = sensor.reach(least_offset(y, q)) {
        add_run(ends, axis, x.lo() - reach, x.hi() + reach);
    }
}

/// Adds the points of a line at `q` that every position of two tubes at a tick sees.
pub(crate) fn add_sure(
    ends: &mut [u32],
    axis: Axis,
    sensor: Sensor,
    x: Interval,
    y: Interval,
    q: i64,
)
    requires axis { IsAxis axis }
    requires len { length ends.old ≡ axis.count }
    requires few { axis.count ≤ most_points }
    requires radius { sensor.radius ≤ greatest_radius }
    requires x { IsBounded greatest_bound x }
    requires y { IsBounded greatest_bound y }
    requires q { IsBounded 2500000000 (point q) }
    ensures { (c : ℕ) → c < axis.count → IsCovered ends.new c ↔ (IsCovered ends.old c ⊎ (is_near sensor.norm sensor.radius (greatest_abs (sub_of x (point (coordinate axis c)))) (greatest_abs (sub_of y (point q))) ≡ true)) }
{
    if let Some(reach) = sensor.reach(greatest_offset(y, q)) {
        add_run(ends, axis, x.hi() - reach, x.lo() + reach);
    }
}

/// The mark of each point of a line, by the runs of those that are surely seen and of those that may be.
pub(crate) fn marks_of(
    alloc: Global,
    sure: &[u32],
    possible: &[u32],
) -> Result<Vec<Mark>, AllocError>
    requires len { length possible.now ≡ length sure.now }
    ensures len { IfOk result (λ marks. length marks.items ≡ length sure.now) }
    ensures marks { IfOk result (λ marks. (c : ℕ) → c < length sure.now → IsMarkBy sure.now possible.now c (slice_index_or marks.items c Open)) }
{
    let mut marks = Vec::with_capacity(alloc, sure.len())?;
    let mut sure_end = 0;
    let mut possible_end = 0;
    for c in 0..sure.len() {
        sure_end = furthest(sure_end, sure[c]);
        possible_end = furthest(possible_end, possible[c]);
        let found = mark(c, sure_end, possible_end);
        marks.push(found)?;
    }
    Ok(marks)
}

/// The greater of two ends.
fn furthest(a: u32, b: u32) -> u32
    ensures { result ≡ max a b }
{
    a.max(b)
}

/// The mark of a point, by where the runs that have begun end.
fn mark(c: usize, sure_end: u32, possible_end: u32) -> Mark
    ensures { result ≡ mark_at c sure_end possible_end }
{
    if c < sure_end as usize {
        Mark::Seen
    } else if c < possible_end as usize {
        Mark::Open
    } else {
        Mark::Never
    }
}
