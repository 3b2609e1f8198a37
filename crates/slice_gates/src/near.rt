//! The slices that share a tick with a range.

ghost use Rattle.std.specs.Prelude.{◌≡◌, ◌+◌, ◌<◌, ◌≤◌, IfSome, length};
ghost use Rattle.slice_gates.specs.Near.{near_of};

use crate::Grid;
use crate::clock::ticks_in;
use int_interval::Interval;

/// Slices one after another, both ends included.
#[derive(Clone, Copy, Debug, PartialEq, Eq)]
pub struct Near {
    /// The number of the first slice.
    pub first: u32,
    /// The number of the last slice.
    pub last: u32,
}

/// The slices that share a tick with a range. None where the range has no tick of the clock.
pub fn near_in(grid: &Grid, range: Interval) -> Option<Near>
    ensures value { result ≡ near_of grid.now range }
    ensures order { IfSome result (λ near. near.first ≤ near.last) }
    ensures among { IfSome result (λ near. near.last + 1 < length grid.now) }
{
    grid.known();
    let ticks = ticks_in(grid, range)?;
    let first = grid.place_of(ticks.first);
    let last = grid.place_of(ticks.last);
    Some(Near {
        first: first.saturating_sub(1) / 2,
        last: (last / 2).min(grid.slices() - 1),
    })
}
