//! The possible pairs of a plane, by quartering.

ghost use Rattle.std.specs.Prelude.{◌≡◌, ◌+◌, ◌-◌, ◌*◌, ◌^◌, ◌<◌, ◌≤◌, ℕ, IfOk, OnOk, length, min, sum_by};
ghost use Rattle.hull_tree.specs.Plane.{IsPlane, is_possible};
ghost use Rattle.hull_tree.specs.Judging.{judged, Says};
ghost use Rattle.hull_tree.specs.declared.tree.Judged.TheVariants.{Within};
ghost use Rattle.tplane_paver.specs.Runs.{AreMaximalRuns};
ghost use Rattle.tplane_paver.specs.Quartering.{mixed_below, IsRoot};
ghost use Rattle.tplane_paver.specs.Rows.{runs_count};
ghost use Rattle.tplane_paver.specs.Paving.{IfCrowded, Puts, IsWork, Advances, StandAt, rows_of};
ghost use Rattle.tplane_paver.specs.declared.paving.PaveFault.TheVariants.{NoMemory};
ghost use Rattle.tube_spec.specs.Limits.{most_runs, most_ticks};

use crate::rows::{Stretch, all_runs, empty_rows, extend};
use crate::runs::{MOST_RUNS, Runs};
use hull_tree::{HullTree, Judged};
use std::alloc::{AllocError, Global};
use std::sync::ledger::Ledger;
use step_count::Steps;

/// Why there is no paving.
#[derive(Clone, Copy, Debug, PartialEq, Eq)]
pub enum PaveFault {
    /// The possible pairs form more than 2,000,000 maximal runs.
    Crowded,
    /// Memory ran out.
    NoMemory,
}

impl From<AllocError> for PaveFault {
    ghost from_gives = { λ _ fault. fault ≡ NoMemory };

    fn from(_error: AllocError) -> PaveFault {
        PaveFault::NoMemory
    }
}

/// Exactly the possible pairs of a tree's query, as maximal runs. Memory grows with the ticks and the runs, and not with the pairs. It
/// takes at most one step, and four for each square of the quartering that is judged Mixed.
pub fn pave<L: Ledger>(
    alloc: Global,
    tree: &HullTree,
    steps: &mut Steps<L>,
) -> Result<Runs, PaveFault>
    ensures runs { IfOk result (λ runs. AreMaximalRuns (is_possible tree.now) runs) }
    ensures count { IfOk result (λ runs. length runs ≡ runs_count (is_possible tree.now) (length tree.now.xs)) }
    ensures few { OnOk result (runs_count (is_possible tree.now) (length tree.now.xs) ≤ most_runs) }
    ensures crowded { IfCrowded result (most_runs < runs_count (is_possible tree.now) (length tree.now.xs)) }
    ensures steps { (d : ℕ) → IsRoot (length tree.now.xs) d → steps.new ≤ steps.old + (1 + 4 * mixed_below (judged tree.now) (length tree.now.xs) d 0 0) }
{
    let ticks = tick_count(tree);
    let (side, depth) = root(ticks);
    let mut work = Work {
        rows: empty_rows(alloc, ticks)?,
        count: 0,
    };
    quarter(tree, &mut work, 0, 0, side, depth, steps)?;
    let runs = all_runs(alloc, &work.rows, work.count)?;
    Ok(Runs { runs })
}

/// How many ticks there are.
fn tick_count(tree: &HullTree) -> u32
    ensures ticks { result ≡ length tree.now.xs }
    ensures plane { IsPlane tree.now }
{
    tree.ticks() + 1
}

/// The least power of two that is not below a number of ticks, and its exponent.
fn root(ticks: u32) -> (u32, u32)
    requires { ticks ≤ most_ticks + 1 }
    ensures side { result.0 ≡ 2 ^ result.1 }
    ensures root { IsRoot ticks result.1 }
    ensures small { result.0 ≤ 200002 }
{
    let mut side = 1;
    let mut depth = 0;
    while side < ticks {
        side *= 2;
        depth += 1;
    }
    (side, depth)
}

/// Runs of pairs, row by row, and how many there are.
#[derive(Drop)]
struct Work {
    rows: Vec<Vec<Stretch>>,
    count: usize,
}

/// Puts the ticks from first to last at the end of a row.
fn put(work: &mut Work, a: u32, first: u32, last: u32) -> Result<(), AllocError>
    requires row { a < length work.old.rows.items }
    requires room { work.old.count ≤ most_runs }
    requires counted { work.old.count ≡ sum_by length (rows_of work.old.rows.items) }
    ensures put { OnOk result (Puts (rows_of work.old.rows.items) (rows_of work.new.rows.items) a first last) }
    ensures counted { OnOk result (work.new.count ≡ sum_by length (rows_of work.new.rows.items)) }
{
    let begun = extend(&mut work.rows[a as usize], first, last)?;
    work.count += begun;
    Ok(())
}

/// The last tick of a range that begins at a tick.
fn last_of(start: u32, side: u32, ticks: u32) -> u32
    requires start { start < ticks }
    requires side { 0 < side }
    requires fits { start + side ≤ 1000000 }
    ensures { result ≡ min (start + side) ticks - 1 }
{
    (start + side).min(ticks) - 1
}

/// Fills the rows from a to a_last with the ticks from b to b_last, where all these pairs are possible.
fn fill(
    tree: &HullTree,
    work: &mut Work,
    a: u32,
    a_last: u32,
    b: u32,
    b_last: u32,
) -> Result<(), PaveFault>
    requires a { a ≤ a_last }
    requires a_end { a_last < length tree.now.xs }
    requires short { a_last < 1000000 }
    requires b { b ≤ b_last }
    requires b_end { b_last < length tree.now.xs }
    requires work { IsWork (is_possible tree.now) (length tree.now.xs) (rows_of work.old.rows.items) work.old.count }
    requires stand { StandAt (is_possible tree.now) (length tree.now.xs) (rows_of work.old.rows.items) a (a_last + 1) b }
    requires possible { Says (is_possible tree.now) (record { first_a = a; last_a = a_last; first_b = b; last_b = b_last }) Within }
    ensures rows { OnOk result (Advances (is_possible tree.now) (length tree.now.xs) (rows_of work.old.rows.items) (rows_of work.new.rows.items) a (a_last + 1) (b_last + 1)) }
    ensures work { OnOk result (IsWork (is_possible tree.now) (length tree.now.xs) (rows_of work.new.rows.items) work.new.count) }
    ensures crowded { IfCrowded result (most_runs < runs_count (is_possible tree.now) (length tree.now.xs)) }
{
    for i in a..a_last + 1 {
        put(work, i, b, b_last)?;
        if work.count > MOST_RUNS {
            return Err(PaveFault::Crowded);
        }
    }
    Ok(())
}

/// Paves a square of side 2 ^ depth, quarter by quarter: of each half of the rows the left quarter before the right one.
fn quarter<L: Ledger>(
    tree: &HullTree,
    work: &mut Work,
    a: u32,
    b: u32,
    side: u32,
    depth: u32,
    steps: &mut Steps<L>,
) -> Result<(), PaveFault>
    requires side { side ≡ 2 ^ depth }
    requires a { a + side ≤ 1000000 }
    requires b { b + side ≤ 1000000 }
    requires work { IsWork (is_possible tree.now) (length tree.now.xs) (rows_of work.old.rows.items) work.old.count }
    requires stand { StandAt (is_possible tree.now) (length tree.now.xs) (rows_of work.old.rows.items) a (a + side) b }
    ensures rows { OnOk result (Advances (is_possible tree.now) (length tree.now.xs) (rows_of work.old.rows.items) (rows_of work.new.rows.items) a (a + side) (b + side)) }
    ensures work { OnOk result (IsWork (is_possible tree.now) (length tree.now.xs) (rows_of work.new.rows.items) work.new.count) }
    ensures crowded { IfCrowded result (most_runs < runs_count (is_possible tree.now) (length tree.now.xs)) }
    ensures steps { steps.new ≤ steps.old + (1 + 4 * mixed_below (judged tree.now) (length tree.now.xs) depth a b) }
{
    let ticks = tick_count(tree);
    if a >= ticks || b >= ticks {
        return Ok(());
    }
    let a_last = last_of(a, side, ticks);
    let b_last = last_of(b, side, ticks);
    match tree.judge((a, a_last), (b, b_last), steps) {
        Judged::Out => Ok(()),
        Judged::Within => fill(tree, work, a, a_last, b, b_last),
        Judged::Mixed => {
            if depth == 0 {
                return Ok(());
            }
            let less = depth - 1;
            let half = side / 2;
            quarter(tree, work, a, b, half, less, steps)?;
            quarter(tree, work, a, b + half, half, less, steps)?;
            quarter(tree, work, a + half, b, half, less, steps)?;
            quarter(tree, work, a + half, b + half, half, less, steps)
        }
    }
}
