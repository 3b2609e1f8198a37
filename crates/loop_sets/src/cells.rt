//! The cells of a set of possible pairs.

ghost use Rattle.std.specs.Prelude.{◌≡◌, ℕ, ◌+◌, ◌*◌, ◌++◌, ◌<◌, ◌≤◌, ◌⊎◌, ◌↔◌, IfOk, IfSome, IsTrue, OnOk, length};
ghost use Rattle.tplane_paver.specs.Runs.{InRun, InRuns, AreInOrder};
ghost use Rattle.loop_sets.specs.Cells.{AreCellsOf, column, ticks_in};
ghost use Rattle.loop_sets.specs.CellRuns.{InOption, IsOver, IsOverSome, HavePairs, AllBeginUpTo, BeginInOrder, JoinsLast};

use std::alloc::{AllocError, Global};
use tplane_paver::{Component, Run};
use tube_io::NoMemory;

/// The cells of a row that have a corner in a run of their own row or of the next, and valid corners only.
fn cells_over(run: Run, a: u32, ticks: u32, gap: u32) -> Option<Run>
    ensures some { IfSome result (λ r. (r.a ≡ a) × (r.first ≤ r.last)) }
    ensures cells { (b : ℕ) → InOption result a b ↔ IsOver run gap ticks a b }
{
    let low = u64::from(a) + 1 + u64::from(gap);
    let first = u64::from(run.first.saturating_sub(1)).max(low);
    let last = run.last.min(ticks.saturating_sub(1));
    if first > u64::from(last) {
        return None;
    }
    Some(Run {
        a,
        first: first as u32,
        last,
    })
}

/// Puts the cells of a row that are over a run at the end.
fn push_over(over: &mut Vec<Run>, run: Run, a: u32, ticks: u32, gap: u32) -> Result<(), AllocError>
    requires { HavePairs over.old.items }
    ensures some { OnOk result (HavePairs over.new.items) }
    ensures few { OnOk result (length over.new.items ≤ length over.old.items + 1) }
    ensures pairs { OnOk result ((c b : ℕ) → InRuns over.new.items c b ↔ (InRuns over.old.items c b ⊎ ((c ≡ a) × IsOver run gap ticks c b))) }
{
    if let Some(cells) = cells_over(run, a, ticks, gap) {
        over.push(cells)?;
    }
    Ok(())
}

/// Puts the cells over a run at the end, those of its row and those of the row before.
fn push_both(over: &mut Vec<Run>, run: Run, ticks: u32, gap: u32) -> Result<(), AllocError>
    requires { HavePairs over.old.items }
    ensures some { OnOk result (HavePairs over.new.items) }
    ensures few { OnOk result (length over.new.items ≤ length over.old.items + 2) }
    ensures pairs { OnOk result ((c b : ℕ) → InRuns over.new.items c b ↔ (InRuns over.old.items c b ⊎ (((run.a ≡ c) ⊎ (run.a ≡ c + 1)) × IsOver run gap ticks c b))) }
{
    if run.a == 0 {
        return push_over(over, run, 0, ticks, gap);
    }
    push_over(over, run, run.a - 1, ticks, gap)?;
    push_over(over, run, run.a, ticks, gap)
}

/// The cells over all runs of a set, of which some may overlap.
fn all_over(alloc: Global, set: &[Run], ticks: u32, gap: u32) -> Result<Vec<Run>, AllocError>
    ensures some { IfOk result (λ v. HavePairs v.items) }
    ensures few { IfOk result (λ v. length v.items ≤ 2 * length set.now) }
    ensures cells { IfOk result (λ v. (a b : ℕ) → InRuns v.items a b ↔ IsOverSome set.now gap ticks a b) }
{
    let mut over = Vec::new(alloc);
    for run in set {
        push_both(&mut over, *run, ticks, gap)?;
    }
    Ok(over)
}

/// Puts a run at the end, or lengthens the last one where they overlap or touch.
fn append(runs: &mut Vec<Run>, run: Run) -> Result<(), AllocError>
    requires some { run.first ≤ run.last }
    requires order { AreInOrder runs.old.items }
    requires later { AllBeginUpTo runs.old.items run }
    ensures order { OnOk result (AreInOrder runs.new.items) }
    ensures later { OnOk result (AllBeginUpTo runs.new.items run) }
    ensures few { OnOk result (length runs.new.items ≤ length runs.old.items + 1) }
    ensures pairs { OnOk result ((a b : ℕ) → InRuns runs.new.items a b ↔ (InRuns runs.old.items a b ⊎ InRun run a b)) }
{
    let n = runs.len();
    let joined = joins_last(runs, run);
    if joined {
        let last = runs[n - 1].last.max(run.last);
        runs[n - 1].last = last;
        return Ok(());
    }
    runs.push(run)?;
    Ok(())
}

/// Whether a run that begins no earlier than all others overlaps or touches the last of them.
fn joins_last(runs: &[Run], run: Run) -> bool
    ensures { IsTrue result ↔ JoinsLast runs.now run }
{
    match runs.last() {
        Some(last) => last.a == run.a && run.first.saturating_sub(last.last) <= 1,
        None => false,
    }
}

/// The same pairs as runs of which none touches the next.
fn merged(alloc: Global, over: &[Run]) -> Result<Vec<Run>, AllocError>
    requires some { HavePairs over.now }
    requires order { BeginInOrder over.now }
    ensures order { IfOk result (λ v. AreInOrder v.items) }
    ensures few { IfOk result (λ v. length v.items ≤ length over.now) }
    ensures pairs { IfOk result (λ v. (a b : ℕ) → InRuns v.items a b ↔ InRuns over.now a b) }
{
    let mut runs = Vec::new(alloc);
    for run in over {
        append(&mut runs, *run)?;
    }
    Ok(runs)
}

/// The cells of a set as runs, in rising order, of which none touches the next. Memory grows with the runs of the set.
pub(crate) fn cell_runs(
    alloc: Global,
    set: &[Run],
    ticks: u32,
    gap: u32,
) -> Result<Vec<Run>, AllocError>
    ensures order { IfOk result (λ v. AreInOrder v.items) }
    ensures few { IfOk result (λ v. length v.items ≤ 2 * length set.now) }
    ensures cells { IfOk result (λ v. (a b : ℕ) → InRuns v.items a b ↔ IsOverSome set.now gap ticks a b) }
{
    let mut over = all_over(alloc, set, ticks, gap)?;
    over.sort_unstable_by_key(|run| (run.a, run.first));
    merged(alloc, &over)
}

/// Puts the cells of a run at the end, one by one.
fn push_cells(cells: &mut Vec<(u32, u32)>, run: Run) -> Result<(), AllocError>
    requires { run.first ≤ run.last }
    ensures { OnOk result (cells.new.items ≡ cells.old.items ++ column run.a run.first (ticks_in run)) }
{
    for b in u64::from(run.first)..u64::from(run.last) + 1 {
        cells.push((run.a, b as u32))?;
    }
    Ok(())
}

/// The cells of a set in rising order, one by one: those of which all corners are valid, at least `gap` ticks apart and at most at the
/// tick `ticks`, and one at least is in the set. Memory grows with the cells.
pub fn set_cells(
    alloc: Global,
    set: &Component,
    ticks: u32,
    gap: u32,
) -> Result<Vec<(u32, u32)>, NoMemory>
    ensures { IfOk result (λ v. AreCellsOf set.now gap ticks v.items) }
{
    let runs = cell_runs(alloc, set.runs(), ticks, gap)?;
    let mut cells = Vec::new(alloc);
    for run in &runs {
        push_cells(&mut cells, *run)?;
    }
    Ok(cells)
}
