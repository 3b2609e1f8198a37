//! The greatest of neighbouring numbers, by blocks.

ghost use Rattle.std.specs.Prelude.{◌≡◌, ◌+◌, ◌<◌, ◌≤◌, IfOk, IfSome, length};
ghost use Rattle.loop_sets.specs.Tables.{number_at, AreSmall, AreBlockTops, IsTop};

use crate::table::Sparse;
use std::alloc::{AllocError, Global};
use std::marker::Model;

/// How many numbers a block has, but the last one.
const BLOCK: usize = 32;

/// Numbers, with the greatest of each block of neighbours in a sparse table: the ends of a range are gone through number by number, and the
/// blocks between by the table, so that the memory is little more than that of the numbers. A contract sees the numbers.
#[derive(Drop)]
pub(crate) struct Table {
    values: Vec<i64>,
    tops: Sparse,
}

impl Model for Table {
    ghost use Rattle.std.specs.Prelude.{List, ℤ};
    ghost use Rattle.loop_sets.specs.Tables.{AreSmall, AreBlockTops};

    ghost Value = { List ℤ };

    ghost view = { λ t. t.values.items };

    ghost invariant = { λ t. AreSmall t.values.items × AreBlockTops t.values.items t.tops };
}

impl Table {
    /// The table of numbers.
    pub(crate) fn new(alloc: Global, values: Vec<i64>) -> Result<Table, AllocError>
        requires short { length values.items ≤ 200000 }
        requires small { AreSmall values.items }
        ensures { IfOk result (λ table. table ≡ values.items) }
    {
        let tops = block_tops(alloc, &values)?;
        let tops = Sparse::new(alloc, tops)?;
        Ok(Table { values, tops })
    }

    /// The number at a place.
    pub(crate) fn at(&self, place: usize) -> i64
        requires { place < length self.now }
        ensures { result ≡ number_at self.now place }
    {
        self.values[place]
    }

    /// No number from a place to another is above it. None where the table does not tell.
    pub(crate) fn over(&self, first: usize, last: usize) -> Option<i64>
        requires order { first ≤ last }
        requires short { last < 1000000 }
        ensures { IfSome result (IsTop self.now first last) }
    {
        if last >= self.values.len() {
            return None;
        }
        top_over(&self.values, &self.tops, first, last)
    }
}

/// No number from a place to another is above it: the greatest of the ends, and of the blocks between.
fn top_over(values: &[i64], tops: &Sparse, first: usize, last: usize) -> Option<i64>
    requires small { AreSmall values.now }
    requires blocks { AreBlockTops values.now tops.now }
    requires order { first ≤ last }
    requires within { last < length values.now }
    requires short { last < 1000000 }
    ensures { IfSome result (IsTop values.now first last) }
{
    let low = first / BLOCK;
    let high = last / BLOCK;
    if high < low + 2 {
        return Some(greatest(values, first, last));
    }
    let before = greatest(values, first, BLOCK * low + BLOCK - 1);
    let after = greatest(values, BLOCK * high, last);
    let between = tops.over(low + 1, high - 1)?;
    Some(before.max(after).max(between))
}

/// The greatest number from a place to another.
fn greatest(values: &[i64], first: usize, last: usize) -> i64
    requires small { AreSmall values.now }
    requires order { first ≤ last }
    requires within { last < length values.now }
    ensures { IsTop values.now first last result }
{
    let mut top = values[first];
    for place in first + 1..last + 1 {
        top = top.max(values[place]);
    }
    top
}

/// The greatest number of each block.
fn block_tops(alloc: Global, values: &[i64]) -> Result<Vec<i64>, AllocError>
    requires short { length values.now ≤ 200000 }
    requires small { AreSmall values.now }
    ensures tops { IfOk result (λ v. AreBlockTops values.now v.items) }
    ensures few { IfOk result (λ v. length v.items ≤ 200000) }
{
    let blocks = values.len().div_ceil(BLOCK);
    let mut tops = Vec::with_capacity(alloc, blocks)?;
    for i in 0..blocks {
        let end = (BLOCK * i + BLOCK).min(values.len());
        tops.push(greatest(values, BLOCK * i, end - 1))?;
    }
    Ok(tops)
}
