//! The greatest of neighbouring numbers, in a table.

ghost use Rattle.std.specs.Prelude.{◌≡◌, ℕ, ◌+◌, ◌*◌, ◌<◌, ◌≤◌, ℤ, List, All, IfOk, IfSome, length};
ghost use Rattle.std.specs.Int.{int_max};
ghost use Rattle.loop_sets.specs.Tables.{number_at, AreSmall, IsLevel, IsTop};

use std::alloc::{AllocError, Global};
use std::marker::Model;

/// The greatest of each `side` neighbours of a list of numbers.
#[derive(Drop)]
pub(crate) struct Level {
    side: usize,
    tops: Vec<i64>,
}

impl Level {
    /// No number from a place to another is above it. None where two blocks of the level do not reach from one end to the other.
    fn over(&self, first: usize, last: usize) -> Option<i64>
        requires order { first ≤ last }
        requires short { last < 1000000 }
        ensures { IfSome result (λ top. (values : List ℤ) → IsLevel values self.now → IsTop values first last top) }
    {
        let width = last - first + 1;
        if self.side > width || width - self.side > self.side {
            return None;
        }
        let place = last + 1 - self.side;
        if first >= self.tops.len() || place >= self.tops.len() {
            return None;
        }
        Some(self.tops[first].max(self.tops[place]))
    }

    /// The level of twice the side.
    fn doubled(&self, alloc: Global) -> Result<Level, AllocError>
        requires some { 1 ≤ self.now.side }
        requires shorter { self.now.side < length self.now.tops.items }
        requires short { length self.now.tops.items ≤ 200000 }
        ensures side { IfOk result (λ level. level.side ≡ 2 * self.now.side) }
        ensures len { IfOk result (λ level. length level.tops.items + self.now.side ≡ length self.now.tops.items) }
        ensures tops { IfOk result (λ level. (values : List ℤ) → IsLevel values self.now → IsLevel values level) }
    {
        let mut tops = Vec::new(alloc);
        for i in 0..self.tops.len() - self.side {
            let top = self.tops[i].max(self.tops[i + self.side]);
            tops.push(top)?;
        }
        Ok(Level {
            side: 2 * self.side,
            tops,
        })
    }
}

/// Numbers, with a table of the greatest of any neighbours: level by level the sides double, so that its memory is that of the numbers times
/// the logarithm of how many there are. A contract sees the numbers.
#[derive(Drop)]
pub(crate) struct Sparse {
    values: Vec<i64>,
    levels: Vec<Level>,
}

impl Model for Sparse {
    ghost use Rattle.std.specs.Prelude.{List, ℤ, All};
    ghost use Rattle.loop_sets.specs.Tables.{IsLevel};

    ghost Value = { List ℤ };

    ghost view = { λ t. t.values.items };

    ghost invariant = { λ t. All (IsLevel t.values.items) t.levels.items };
}

impl Sparse {
    /// The table of numbers.
    pub(crate) fn new(alloc: Global, values: Vec<i64>) -> Result<Sparse, AllocError>
        requires short { length values.items ≤ 200000 }
        requires small { AreSmall values.items }
        ensures { IfOk result (λ table. table ≡ values.items) }
    {
        let mut level = first_level(alloc, &values)?;
        let mut levels = Vec::new(alloc);
        while level.side < level.tops.len() {
            let next = level.doubled(alloc)?;
            levels.push(level)?;
            level = next;
        }
        levels.push(level)?;
        Ok(Sparse { values, levels })
    }

    /// No number from a place to another is above it. None where the table does not tell.
    pub(crate) fn over(&self, first: usize, last: usize) -> Option<i64>
        requires order { first ≤ last }
        requires short { last < 1000000 }
        ensures { IfSome result (IsTop self.now first last) }
    {
        top_over(&self.levels, first, last)
    }
}

/// No number from a place to another is above it, by the first level that tells.
fn top_over(levels: &[Level], first: usize, last: usize) -> Option<i64>
    requires order { first ≤ last }
    requires short { last < 1000000 }
    ensures { IfSome result (λ top. (values : List ℤ) → All (IsLevel values) levels.now → IsTop values first last top) }
{
    for level in levels {
        let top = level.over(first, last);
        if top.is_some() {
            return top;
        }
    }
    None
}

/// The numbers themselves.
fn first_level(alloc: Global, values: &[i64]) -> Result<Level, AllocError>
    requires { AreSmall values.now }
    ensures side { IfOk result (λ level. level.side ≡ 1) }
    ensures len { IfOk result (λ level. length level.tops.items ≡ length values.now) }
    ensures level { IfOk result (IsLevel values.now) }
{
    let tops = Vec::from_slice(alloc, values)?;
    Ok(Level { side: 1, tops })
}
