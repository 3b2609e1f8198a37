//! Which runs hang together, row by row.

ghost use Rattle.std.specs.Prelude.{◌≡◌, ℕ, ◌+◌, ◌<◌, ◌≤◌, ◌↔◌, IsTrue, IfOk, length};
ghost use Rattle.tplane_paver.specs.Runs.{AreInOrder, run_at};
ghost use Rattle.tplane_paver.specs.Forests.{Touch, IsClearOf, IsSwept};
ghost use Rattle.tube_spec.specs.Limits.{most_runs};

use crate::runs::Run;
use disjoint_sets::{alone, join};
use std::alloc::{AllocError, Global};

/// A forest of the runs, in which two are in one tree exactly where they hang together. Neighbouring rows are gone through side by side,
/// so that only runs that touch are looked at, and one more each time.
pub fn linked(alloc: Global, runs: &[Run]) -> Result<Vec<u32>, AllocError>
    requires few { length runs.now ≤ most_runs }
    requires order { AreInOrder runs.now }
    ensures { IfOk result (λ v. IsSwept runs.now v.items (length runs.now)) }
{
    let mut parents = alone(alloc, runs.len() as u32)?;
    let mut low = 0;
    for j in 0..runs.len() {
        low = first_near(runs, low, j);
        link_back(&mut parents, runs, low, j);
    }
    Ok(parents)
}

/// The first run that is not clear of a later one.
fn first_near(runs: &[Run], from: usize, j: usize) -> usize
    requires j { j < length runs.now }
    requires from { from ≤ j }
    requires clear { (k : ℕ) → k < from → IsClearOf (run_at runs.now k) (run_at runs.now j) }
    ensures range { result ≤ j }
    ensures clear { (k : ℕ) → k < result → IsClearOf (run_at runs.now k) (run_at runs.now j) }
    ensures near { result < j → ¬ (IsClearOf (run_at runs.now result) (run_at runs.now j)) }
{
    for low in from..j {
        if !is_clear_of(runs[low], runs[j]) {
            return low;
        }
    }
    j
}

/// Joins a run with the earlier ones that touch it, which are neighbours in the list.
fn link_back(parents: &mut [u32], runs: &[Run], low: usize, j: usize)
    requires few { length runs.now ≤ most_runs }
    requires order { AreInOrder runs.now }
    requires j { j < length runs.now }
    requires low { low ≤ j }
    requires clear { (k : ℕ) → k < low → IsClearOf (run_at runs.now k) (run_at runs.now j) }
    requires near { low < j → ¬ (IsClearOf (run_at runs.now low) (run_at runs.now j)) }
    requires swept { IsSwept runs.now parents.old j }
    ensures { IsSwept runs.now parents.new (j + 1) }
{
    for i in low..j {
        if !touches(runs[i], runs[j]) {
            return;
        }
        join(parents, i as u32, j as u32);
    }
}

/// Whether two runs have pairs that are one, or neighbours.
fn touches(r: Run, s: Run) -> bool
    ensures { IsTrue result ↔ Touch r s }
{
    reaches(r.a, s.a) && reaches(s.a, r.a) && reaches(r.first, s.last) && reaches(s.first, r.last)
}

/// Whether a run comes before another and before all that touch it.
fn is_clear_of(r: Run, s: Run) -> bool
    ensures { IsTrue result ↔ IsClearOf r s }
{
    r.a < s.a && (s.a - r.a > 1 || !reaches(s.first, r.last))
}

/// Whether a tick is at most one beyond another.
fn reaches(a: u32, b: u32) -> bool
    ensures { IsTrue result ↔ (a ≤ b + 1) }
{
    a <= b || a - b == 1
}
