//! The ticks of the clock that lie in a range.

ghost use Rattle.std.specs.Prelude.{◌≡◌, ◌≤◌, IfSome};
ghost use Rattle.tube_spec.specs.Grid.{last_tick};
ghost use Rattle.slice_gates.specs.Clock.{ticks_of};

use crate::Grid;
use int_interval::Interval;

/// Ticks one after another, both ends included.
#[derive(Clone, Copy, Debug, PartialEq, Eq)]
pub struct Ticks {
    /// The first of them.
    pub first: u32,
    /// The last of them.
    pub last: u32,
}

/// The ticks of the clock that lie in a range. None where there is none.
pub fn ticks_in(grid: &Grid, range: Interval) -> Option<Ticks>
    ensures value { result ≡ ticks_of grid.now range }
    ensures order { IfSome result (λ ticks. ticks.first ≤ ticks.last) }
    ensures clock { IfSome result (λ ticks. ticks.last ≤ last_tick grid.now) }
{
    let first = range.lo().max(0);
    let last = range.hi().min(grid.ticks() as i64);
    if last < first {
        return None;
    }
    Some(Ticks {
        first: first as u32,
        last: last as u32,
    })
}
