//! The bounds of one signal over ranges of ticks, in a tree.

ghost use Rattle.std.specs.Prelude.{◌≡◌, ℕ, ◌+◌, ◌-◌, ◌*◌, ◌^◌, ◌<◌, ◌≤◌, IfOk, map, length, slice_index_or};
ghost use Rattle.tube_spec.specs.Limits.{most_ticks};
ghost use Rattle.tube_spec.specs.Box.{AreBounded, IsBox};
ghost use Rattle.hull_tree.specs.Judging.{bounds_of, both, bounds_over, IsSmall};
ghost use Rattle.hull_tree.specs.Levels.{IsLevel, AreLevels, IsHalved, levels_of};
ghost use Rattle.hull_tree.specs.declared.hulls.Bounds.{Bounds};

use crate::hulls::{Bounds, hull_of, join};
use int_interval::Interval;
use std::alloc::{AllocError, Global};
use std::marker::Model;

/// A tree over the ticks of one signal. Level `k` has a hull for each block of `2 ^ k` ticks, and the last level one for all ticks; the two
/// lowest levels are empty, since the hulls of so few ticks are made when they are asked for. A contract sees the intervals of the ticks.
#[derive(Drop)]
pub struct RangeTree {
    ticks: Vec<Interval>,
    levels: Vec<Vec<Bounds>>,
}

impl Model for RangeTree {
    ghost use Rattle.std.specs.Prelude.{List};
    ghost use Rattle.tube_spec.specs.Span.{Span};
    ghost use Rattle.hull_tree.specs.Levels.{IsTree, levels_of};

    ghost Value = { List Span };

    ghost view = { λ t. t.ticks.items };

    ghost invariant = { λ t. IsTree t.ticks.items (levels_of t.levels.items) };
}

impl RangeTree {
    /// The tree over the intervals of ticks, of which there is one at least.
    pub fn new(alloc: Global, ticks: Vec<Interval>) -> Result<RangeTree, AllocError>
        requires some { 1 ≤ length ticks.items }
        requires short { length ticks.items ≤ most_ticks + 1 }
        requires proper { IsBox ticks.items }
        requires bounded { AreBounded ticks.items }
        ensures { IfOk result (λ tree. tree ≡ ticks.items) }
    {
        let mut levels = Vec::new(alloc);
        levels.push(Vec::new(alloc))?;
        levels.push(Vec::new(alloc))?;
        levels.push(fours(alloc, &ticks)?)?;
        let mut side = 4;
        while side < ticks.len() {
            let above = halved(alloc, &levels[levels.len() - 1])?;
            levels.push(above)?;
            side *= 2;
        }
        Ok(RangeTree { ticks, levels })
    }

    /// How many ticks there are.
    pub fn len(&self) -> usize
        ensures len { result ≡ length self.now }
        ensures some { 1 ≤ result }
        ensures short { result ≤ most_ticks + 1 }
    {
        self.ticks.len()
    }

    /// The bounds over the ticks from the first to the last.
    pub fn over(&self, first: u32, last: u32) -> Bounds
        requires order { first ≤ last }
        requires within { last < length self.now }
        ensures bounds { result ≡ bounds_over self.now first (last - first) }
        ensures small { IsSmall result }
    {
        let (level, block, side) = lowest_block(first, last);
        over(
            &self.ticks,
            &self.levels,
            level,
            block,
            side,
            first as usize,
            last as usize,
        )
    }
}

/// The lowest block that holds two ticks: its level, its number in the level, and its side.
fn lowest_block(first: u32, last: u32) -> (usize, usize, usize)
    requires order { first ≤ last }
    ensures side { result.2 ≡ 2 ^ result.0 }
    ensures begins { result.1 * result.2 ≤ first }
    ensures ends { last < result.1 * result.2 + result.2 }
    ensures low { result.2 ≤ 2 * last + 1 }
{
    let mut level = 0;
    let mut side = 1;
    let mut low = first as usize;
    let mut high = last as usize;
    while low != high {
        level += 1;
        side *= 2;
        low /= 2;
        high /= 2;
    }
    (level, low, side)
}

/// The bounds over a range within a block: the block's own where the range is all of it, and else those of its two halves, or of the ticks
/// where the block has no more than two.
fn over(
    ticks: &[Interval],
    levels: &[Vec<Bounds>],
    level: usize,
    block: usize,
    side: usize,
    first: usize,
    last: usize,
) -> Bounds
    requires levels { AreLevels ticks.now (levels_of levels.now) }
    requires level { level < length levels.now }
    requires side { side ≡ 2 ^ level }
    requires low { side ≤ 200002 }
    requires short { length ticks.now ≤ most_ticks + 1 }
    requires begins { block * side ≤ first }
    requires order { first ≤ last }
    requires ends { last < block * side + side }
    requires within { last < length ticks.now }
    ensures { result ≡ bounds_over ticks.now first (last - first) }
{
    if side < 4 {
        return ticks_over(ticks, first, last);
    }
    let start = block * side;
    let end = (start + side).min(ticks.len());
    if first == start && last + 1 == end {
        return levels[level][block];
    }
    let half = side / 2;
    let middle = start + half;
    if last < middle {
        return over(ticks, levels, level - 1, 2 * block, half, first, last);
    }
    if first >= middle {
        return over(ticks, levels, level - 1, 2 * block + 1, half, first, last);
    }
    let lower = over(ticks, levels, level - 1, 2 * block, half, first, middle - 1);
    let upper = over(ticks, levels, level - 1, 2 * block + 1, half, middle, last);
    join(lower, upper)
}

/// The bounds over the ticks from the first to the last, tick by tick.
fn ticks_over(ticks: &[Interval], first: usize, last: usize) -> Bounds
    requires order { first ≤ last }
    requires within { last < length ticks.now }
    requires short { length ticks.now ≤ most_ticks + 1 }
    ensures { result ≡ bounds_over ticks.now first (last - first) }
{
    let mut bounds = hull_of(ticks[first]);
    for tick in first + 1..last + 1 {
        bounds = join(bounds, hull_of(ticks[tick]));
    }
    bounds
}

/// The lowest level that is kept: a hull for each four ticks.
fn fours(alloc: Global, ticks: &[Interval]) -> Result<Vec<Bounds>, AllocError>
    requires short { length ticks.now ≤ most_ticks + 1 }
    ensures { IfOk result (λ v. IsLevel ticks.now 4 v.items) }
{
    let blocks = ticks.len().div_ceil(4);
    let mut row = Vec::with_capacity(alloc, blocks)?;
    for i in 0..blocks {
        let end = (4 * i + 4).min(ticks.len());
        row.push(ticks_over(ticks, 4 * i, end - 1))?;
    }
    Ok(row)
}

/// A level from the one below.
fn halved(alloc: Global, row: &[Bounds]) -> Result<Vec<Bounds>, AllocError>
    ensures { IfOk result (λ v. IsHalved row.now v.items) }
{
    let blocks = row.len().div_ceil(2);
    let mut above = Vec::with_capacity(alloc, blocks)?;
    for i in 0..blocks {
        above.push(pair_at(row, i))?;
    }
    Ok(above)
}

/// The hulls at `2 * i` and at `2 * i + 1` joined, or the first of them where it is the last of all.
fn pair_at(row: &[Bounds], i: usize) -> Bounds
    requires { 2 * i < length row.now }
    ensures joined { (d : Bounds) → 2 * i + 1 < length row.now → result ≡ both (slice_index_or row.now (2 * i) d) (slice_index_or row.now (2 * i + 1) d) }
    ensures alone { (d : Bounds) → 2 * i + 1 ≡ length row.now → result ≡ slice_index_or row.now (2 * i) d }
{
    let left = row[2 * i];
    if 2 * i + 1 == row.len() {
        return left;
    }
    join(left, row[2 * i + 1])
}
