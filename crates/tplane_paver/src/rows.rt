//! The rows of a paving while it grows.

ghost use Rattle.std.specs.Prelude.{◌≡◌, ◌+◌, ◌++◌, ◌<◌, ◌≤◌, ℕ, List, [], IsTrue, IfOk, OnOk, length, reverse, replicate};
ghost use Rattle.tplane_paver.specs.Rows.{row_at, row_runs, runs_below};
ghost use Rattle.tplane_paver.specs.Paving.{grown, joins, rows_of};
ghost use Rattle.tplane_paver.specs.declared.rows.Stretch.{Stretch};

use crate::runs::Run;
use std::alloc::{AllocError, Global};

/// The ticks from the first to the last, both included.
#[derive(Clone, Copy, Debug, PartialEq, Eq)]
pub struct Stretch {
    pub first: u32,
    pub last: u32,
}

/// A number of empty rows.
pub fn empty_rows(alloc: Global, count: u32) -> Result<Vec<Vec<Stretch>>, AllocError>
    ensures { IfOk result (λ v. rows_of v.items ≡ replicate count []) }
{
    let mut rows: Vec<Vec<Stretch>> = Vec::with_capacity(alloc, count as usize)?;
    for _row in 0..count {
        rows.push(Vec::new(alloc))?;
    }
    Ok(rows)
}

/// Puts the ticks from the first to the last at the end of a row, and says how many runs they begin: none where the row's last run ends
/// right before, and else one.
pub fn extend(row: &mut Vec<Stretch>, first: u32, last: u32) -> Result<usize, AllocError>
    ensures row { OnOk result ((l : List Stretch) → row.old.items ≡ reverse l → row.new.items ≡ reverse (grown l first last)) }
    ensures count { IfOk result (λ begun. length row.new.items ≡ length row.old.items + begun) }
    ensures one { IfOk result (λ begun. begun ≤ 1) }
{
    let n = row.len();
    let joined = ends_before(row, first);
    if joined {
        row[n - 1].last = last;
        return Ok(0);
    }
    row.push(Stretch { first, last })?;
    Ok(1)
}

/// Whether the last run of a row ends right before a tick.
fn ends_before(row: &[Stretch], tick: u32) -> bool
    ensures joins { (l : List Stretch) → row.now ≡ reverse l → result ≡ joins l tick }
    ensures some { IsTrue result → 0 < length row.now }
{
    match row.last() {
        Some(run) => tick > 0 && run.last == tick - 1,
        None => false,
    }
}

/// The runs of all rows, one row after the other, in memory for so many.
pub fn all_runs(alloc: Global, rows: &[Vec<Stretch>], count: usize) -> Result<Vec<Run>, AllocError>
    requires { length rows.now ≤ 1000000 }
    ensures { IfOk result (λ v. v.items ≡ runs_below (rows_of rows.now) (length rows.now)) }
{
    let mut runs = Vec::with_capacity(alloc, count)?;
    for a in 0..rows.len() {
        append_row(&mut runs, a as u32, &rows[a])?;
    }
    Ok(runs)
}

/// Puts the runs of a row at the end.
fn append_row(runs: &mut Vec<Run>, a: u32, row: &[Stretch]) -> Result<(), AllocError>
    ensures { OnOk result (runs.new.items ≡ runs.old.items ++ row_runs a row.now) }
{
    for ticks in row {
        runs.push(Run {
            a,
            first: ticks.first,
            last: ticks.last,
        })?;
    }
    Ok(())
}
