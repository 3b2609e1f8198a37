//! The grid of slices: the boundary ticks of a tube's slices, where a tick stands among them, and which slices share a tick with a range.
#![tactic(auto)]

mod clock;
mod laws;
mod near;

ghost use Rattle.std.specs.Prelude.{◌≡◌, ◌+◌, ◌*◌, ◌<◌, ◌≤◌, ◌↔◌, IsTrue, IsErrOf, IfOk, IsOkUnless, IsFalse, length, slice_index};
ghost use Rattle.std.specs.List.Sorted.{IsStrictlyIncreasing};
ghost use Rattle.tube_spec.specs.Limits.{most_ticks};
ghost use Rattle.tube_spec.specs.Grid.{IsGrid, last_tick};
ghost use Rattle.tube_spec.specs.Tick.{tick_place};
ghost use Rattle.slice_gates.specs.Cuts.{HasEnds, HasBadEnds, HasFall, uniform_cuts, multiples};
ghost use Rattle.slice_gates.specs.Ticks.{IsSliceOf, IsGateOf};
ghost use Rattle.slice_gates.specs.declared.GridFault.TheVariants.{NoMemory};

pub use clock::{Ticks, ticks_in};
pub use laws::{near_law, place_law};
pub use near::{Near, near_in};
use std::alloc::{AllocError, Global};
use std::marker::Model;

/// The greatest tick that a grid may end at.
pub const MOST_TICKS: u32 = 100_000;

/// Why a grid could not be made.
#[derive(Clone, Copy, Debug, PartialEq, Eq)]
pub enum GridFault {
    /// Some cut is not above the one before.
    NotRising,
    /// There are fewer than two cuts, or the first is not 0, or the last is above `MOST_TICKS`.
    BadEnds,
    /// Memory ran out.
    NoMemory,
}

impl From<AllocError> for GridFault {
    ghost from_gives = { λ _ fault. fault ≡ NoMemory };

    fn from(_error: AllocError) -> GridFault {
        GridFault::NoMemory
    }
}

/// The boundary ticks of the slices, as Codac's tubes have them (Rohou, Jaulin et al.): they rise
/// from 0 to the last tick of the clock, and slice `i` reaches from boundary `i` to boundary `i + 1`.
/// A contract sees the list of boundaries.
#[derive(Debug, Drop)]
pub struct Grid {
    bounds: Vec<u32>,
}

impl Model for Grid {
    ghost use Rattle.std.specs.Prelude.{List, ℕ};
    ghost use Rattle.tube_spec.specs.Grid.{IsGrid};

    ghost Value = { List ℕ };

    ghost view = { λ g. g.bounds.items };

    ghost invariant = { λ g. IsGrid g.bounds.items };
}

impl Grid {
    /// Slices of `width` ticks from tick 0 on, of which the last ends at `ticks` and may be shorter.
    pub fn uniform(alloc: Global, ticks: u32, width: u32) -> Result<Grid, GridFault>
        requires some_tick { 1 ≤ ticks }
        requires few_ticks { ticks ≤ most_ticks }
        requires some_width { 1 ≤ width }
        requires small_width { width ≤ most_ticks }
        ensures value { IfOk result (λ grid. grid ≡ uniform_cuts ticks width) }
        ensures refusal { IsOkUnless result NoMemory }
    {
        let count = ticks.div_ceil(width);
        let mut bounds = Vec::with_capacity(alloc, count as usize + 1)?;
        for i in 0..count {
            bounds.push_reserved(i * width);
        }
        bounds.push_reserved(ticks);
        Ok(Grid { bounds })
    }

    /// The slices between given boundaries. `BadEnds` comes before `NotRising`.
    pub fn from_cuts(alloc: Global, cuts: &[u32]) -> Result<Grid, GridFault>
        ensures value { IfOk result (λ grid. grid ≡ cuts.now) }
        ensures bad_ends { IsErrOf result GridFault.BadEnds ↔ HasBadEnds cuts.now }
        ensures not_rising { IsErrOf result GridFault.NotRising ↔ (HasEnds cuts.now × HasFall cuts.now) }
    {
        if cuts.len() < 2 || cuts[0] != 0 || cuts[cuts.len() - 1] > MOST_TICKS {
            return Err(GridFault::BadEnds);
        }
        if !is_rising(cuts) {
            return Err(GridFault::NotRising);
        }
        let bounds = cuts.to_vec(alloc)?;
        Ok(Grid { bounds })
    }

    /// A grid with the same boundaries, in memory of its own.
    pub fn copy(&self, alloc: Global) -> Result<Grid, AllocError>
        ensures { IfOk result (λ grid. grid ≡ self.now) }
    {
        let bounds = self.bounds.as_slice().to_vec(alloc)?;
        Ok(Grid { bounds })
    }

    /// The boundaries rise from 0 to at most `MOST_TICKS`.
    pub fn known(&self)
        ensures { IsGrid self.now }
    {
        let _bounds = &self.bounds;
    }

    /// The last tick of the clock.
    pub fn ticks(&self) -> u32
        ensures { result ≡ last_tick self.now }
    {
        self.bounds[self.bounds.len() - 1]
    }

    /// The number of slices.
    pub fn slices(&self) -> u32
        ensures { result + 1 ≡ length self.now }
    {
        (self.bounds.len() - 1) as u32
    }

    /// The tick of a boundary, where boundary `i` begins slice `i` and ends slice `i - 1`.
    pub fn boundary(&self, i: u32) -> u32
        requires { i < length self.now }
        ensures { result ≡ slice_index self.now i }
    {
        self.bounds[i as usize]
    }

    /// The slice that a tick stands in. A boundary stands in the slice that it begins, and the last
    /// tick in the last slice.
    pub fn slice_of(&self, tick: u32) -> u32
        requires { tick ≤ last_tick self.now }
        ensures { IsSliceOf self.now tick result }
    {
        let starts = &self.bounds[..self.bounds.len() - 1];
        let begun = starts.partition_point(|&start| start <= tick);
        (begun - 1) as u32
    }

    /// The boundary that a tick is, if it is one.
    pub fn is_gate(&self, tick: u32) -> Option<u32>
        ensures { IsGateOf self.now tick result }
    {
        match self.bounds.binary_search(&tick) {
            Ok(i) => Some(i as u32),
            Err(_) => None,
        }
    }

    /// The place of a tick's cell among the cells of a signal, which go gate, envelope, gate and so
    /// on: the gate where the tick is a boundary, and the envelope of its slice otherwise.
    pub fn place_of(&self, tick: u32) -> u32
        requires { tick ≤ last_tick self.now }
        ensures place { result ≡ tick_place self.now tick }
        ensures among { result + 1 < 2 * length self.now }
    {
        self.known();
        match self.is_gate(tick) {
            Some(i) => 2 * i,
            None => 2 * self.slice_of(tick) + 1,
        }
    }
}

/// Whether each cut is above the one before.
fn is_rising(cuts: &[u32]) -> bool
    ensures yes { IsTrue result → IsStrictlyIncreasing cuts.now }
    ensures no { IsFalse result → HasFall cuts.now }
{
    cuts.is_sorted_by(|a, b| a < b)
}

#[cfg(test)]
mod tests {
    use super::*;
    use std::test::Fail;

    fn boundaries(alloc: Global, grid: &Grid) -> Result<Vec<u32>, AllocError> {
        let mut ticks = Vec::new(alloc);
        for i in 0..=grid.slices() {
            ticks.push(grid.boundary(i))?;
        }
        Ok(ticks)
    }

    #[test]
    fn slices_of_one_width(rt: HostRuntime) -> Result<(), Fail> {
        let two = Grid::uniform(rt.alloc(), 10, 5)?;
        assert_eq!(rt;
            boundaries(rt.alloc(), &two)?.as_slice(),
            [0, 5, 10].as_slice()
        );
        let short = Grid::uniform(rt.alloc(), 8, 5)?;
        let cut = Grid::from_cuts(rt.alloc(), &[0, 5, 8])?;
        assert_eq!(rt;
            boundaries(rt.alloc(), &short)?,
            boundaries(rt.alloc(), &cut)?
        );
        assert_eq!(rt; cut.ticks(), 8);
        Ok(())
    }

    #[test]
    fn cuts_are_refused(rt: HostRuntime) {
        assert_eq!(rt;
            Grid::from_cuts(rt.alloc(), &[0, 5, 5]).err(),
            Some(GridFault::NotRising)
        );
        assert_eq!(rt;
            Grid::from_cuts(rt.alloc(), &[1, 5]).err(),
            Some(GridFault::BadEnds)
        );
    }

    #[test]
    fn ticks_stand_in_slices(rt: HostRuntime) -> Result<(), Fail> {
        let grid = Grid::from_cuts(rt.alloc(), &[0, 5, 8])?;
        assert_eq!(rt; grid.ticks(), 8);
        for (tick, slice, gate, place) in [
            (0, 0, Some(0), 0),
            (4, 0, None, 1),
            (5, 1, Some(1), 2),
            (8, 1, Some(2), 4),
        ] {
            assert!(rt; tick <= grid.ticks());
            assert_eq!(rt; grid.slice_of(tick), slice, "slice of {tick}");
            assert_eq!(rt; grid.is_gate(tick), gate, "gate at {tick}");
            assert_eq!(rt; grid.place_of(tick), place, "place of {tick}");
        }
        Ok(())
    }
}
