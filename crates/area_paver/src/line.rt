//! The marks of a lattice, line by line.

ghost use Rattle.std.specs.Prelude.{◌≡◌, ℕ, ◌*◌, ◌<◌, ◌≤◌, cond, length, IfOk, slice_index_or};
ghost use Rattle.tube_spec.specs.Limits.{greatest_bound, greatest_radius};
ghost use Rattle.tube_spec.specs.Span.{IsBounded, point};
ghost use Rattle.tube_spec.specs.Box.{AreBounded, cell_at};
ghost use Rattle.area_paver.specs.Lattice.{most_points, coordinate, IsAxis};
ghost use Rattle.area_paver.specs.Survey.{IsMark, may_see, must_see};
ghost use Rattle.area_paver.specs.Runs.{Covers};
ghost use Rattle.area_paver.specs.Charts.{AreLines, mark_by, mark_in, marks_of};
ghost use Rattle.area_paver.specs.declared.chart.Mark.TheVariants.{Open};

use crate::axis::Axis;
use crate::chart::Mark;
use crate::runs::{add_possible, add_sure, marks_of};
use crate::sensor::Sensor;
use int_interval::Interval;
use std::alloc::{AllocError, Global};

/// What a signal may be at a tick.
fn tick(ticks: &[Interval], k: usize) -> Interval
    requires k { k < length ticks.now }
    requires bounded { AreBounded ticks.now }
    ensures value { result ≡ cell_at ticks.now k }
    ensures bounded { IsBounded greatest_bound result }
{
    ticks[k]
}

/// The runs of the points of a line at `q` that may be seen at some tick.
fn possible_runs(
    alloc: Global,
    sensor: Sensor,
    axis: Axis,
    xs: &[Interval],
    ys: &[Interval],
    q: i64,
) -> Result<Vec<u32>, AllocError>
    requires axis { IsAxis axis }
    requires few { axis.count ≤ most_points }
    requires radius { sensor.radius ≤ greatest_radius }
    requires xs { AreBounded xs.now }
    requires ys { AreBounded ys.now }
    requires ticks { length ys.now ≡ length xs.now }
    requires q { IsBounded 2500000000 (point q) }
    ensures len { IfOk result (λ ends. length ends.items ≡ axis.count) }
    ensures runs { IfOk result (λ ends. Covers ends.items axis.count (length xs.now) (λ k c. may_see (record { xs = xs.now; ys = ys.now; radius = sensor.radius; norm = sensor.norm }) k (coordinate axis c) q)) }
{
    let mut ends: Vec<u32> = Vec::new(alloc);
    ends.resize(axis.count as usize, 0)?;
    for k in 0..xs.len() {
        let x = tick(xs, k);
        let y = tick(ys, k);
        add_possible(&mut ends, axis, sensor, x, y, q);
    }
    Ok(ends)
}

/// The runs of the points of a line at `q` that are surely seen at some tick.
fn sure_runs(
    alloc: Global,
    sensor: Sensor,
    axis: Axis,
    xs: &[Interval],
    ys: &[Interval],
    q: i64,
) -> Result<Vec<u32>, AllocError>
    requires axis { IsAxis axis }
    requires few { axis.count ≤ most_points }
    requires radius { sensor.radius ≤ greatest_radius }
    requires xs { AreBounded xs.now }
    requires ys { AreBounded ys.now }
    requires ticks { length ys.now ≡ length xs.now }
    requires q { IsBounded 2500000000 (point q) }
    ensures len { IfOk result (λ ends. length ends.items ≡ axis.count) }
    ensures runs { IfOk result (λ ends. Covers ends.items axis.count (length xs.now) (λ k c. must_see (record { xs = xs.now; ys = ys.now; radius = sensor.radius; norm = sensor.norm }) k (coordinate axis c) q)) }
{
    let mut ends: Vec<u32> = Vec::new(alloc);
    ends.resize(axis.count as usize, 0)?;
    for k in 0..xs.len() {
        let x = tick(xs, k);
        let y = tick(ys, k);
        add_sure(&mut ends, axis, sensor, x, y, q);
    }
    Ok(ends)
}

/// The marks of the points of a line at `q`.
fn line(
    alloc: Global,
    sensor: Sensor,
    axis: Axis,
    xs: &[Interval],
    ys: &[Interval],
    q: i64,
) -> Result<Vec<Mark>, AllocError>
    requires axis { IsAxis axis }
    requires few { axis.count ≤ most_points }
    requires radius { sensor.radius ≤ greatest_radius }
    requires xs { AreBounded xs.now }
    requires ys { AreBounded ys.now }
    requires ticks { length ys.now ≡ length xs.now }
    requires q { IsBounded 2500000000 (point q) }
    ensures marks { IfOk result (λ marks. (c : ℕ) → c < axis.count → IsMark (record { xs = xs.now; ys = ys.now; radius = sensor.radius; norm = sensor.norm }) (coordinate axis c) q (slice_index_or marks.items c Open)) }
    ensures len { IfOk result (λ marks. length marks.items ≡ axis.count) }
{
    let sure = sure_runs(alloc, sensor, axis, xs, ys, q)?;
    let possible = possible_runs(alloc, sensor, axis, xs, ys, q)?;
    let marks = marks_of(alloc, &sure, &possible)?;
    Ok(marks)
}

/// The marks of a lattice: a line of them along the one axis for each multiple of the other.
fn lines(
    alloc: Global,
    sensor: Sensor,
    axis: Axis,
    other: Axis,
    xs: &[Interval],
    ys: &[Interval],
) -> Result<Vec<Vec<Mark>>, AllocError>
    requires axis { IsAxis axis }
    requires other { IsAxis other }
    requires few { axis.count * other.count ≤ most_points }
    requires radius { sensor.radius ≤ greatest_radius }
    requires xs { AreBounded xs.now }
    requires ys { AreBounded ys.now }
    requires ticks { length ys.now ≡ length xs.now }
    ensures marks { IfOk result (λ lines. (i c : ℕ) → i < other.count → c < axis.count → IsMark (record { xs = xs.now; ys = ys.now; radius = sensor.radius; norm = sensor.norm }) (coordinate axis c) (coordinate other i) (mark_in (marks_of lines.items) i c)) }
    ensures len { IfOk result (λ lines. AreLines (marks_of lines.items) other.count axis.count) }
{
    let mut lines = Vec::new(alloc);
    for i in 0..other.count {
        let made = line(alloc, sensor, axis, xs, ys, other.at(i))?;
        lines.push(made)?;
    }
    Ok(lines)
}

/// The marks of a lattice of columns and rows: rows of them or, turned, columns.
pub(crate) fn lines_by(
    alloc: Global,
    sensor: Sensor,
    columns: Axis,
    rows: Axis,
    turned: bool,
    xs: &[Interval],
    ys: &[Interval],
) -> Result<Vec<Vec<Mark>>, AllocError>
    requires columns { IsAxis columns }
    requires rows { IsAxis rows }
    requires few { columns.count * rows.count ≤ most_points }
    requires radius { sensor.radius ≤ greatest_radius }
    requires xs { AreBounded xs.now }
    requires ys { AreBounded ys.now }
    requires ticks { length ys.now ≡ length xs.now }
    ensures marks { IfOk result (λ lines. (i j : ℕ) → i < columns.count → j < rows.count → IsMark (record { xs = xs.now; ys = ys.now; radius = sensor.radius; norm = sensor.norm }) (coordinate columns i) (coordinate rows j) (mark_by turned (marks_of lines.items) i j)) }
    ensures len { IfOk result (λ lines. AreLines (marks_of lines.items) (cond turned columns.count rows.count) (cond turned rows.count columns.count)) }
{
    if turned {
        let made = lines(alloc, sensor, rows, columns, ys, xs)?;
        return Ok(made);
    }
    let made = lines(alloc, sensor, columns, rows, xs, ys)?;
    Ok(made)
}
