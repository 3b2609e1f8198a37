//! The clock of a mission that is being read: the boundaries of its slices, to which cuts are added one at a time.
//!
//! A contract sees the list of the boundaries, which is empty before the clock is started. A cut takes the same time however many there
//! are, and the grid of slices is made when it is first asked for.
#![tactic(auto)]

ghost use Rattle.std.specs.Prelude.{◌≡◌, ◌≤◌, [], IfOk};
ghost use Rattle.slice_gates.specs.Cuts.{uniform_cuts};
ghost use Rattle.tube_spec.specs.Grid.{IsGrid, last_tick};
ghost use Rattle.mission_items.specs.Cuts.{with_tick};
ghost use Rattle.mission_items.specs.Room.{slices_in, touching};

use int_interval::Interval;
use slice_gates::{Grid, near_in};
use std::alloc::Global;
use std::marker::Model;
use tube_io::NoMemory;

mod marks;
#[cfg(test)]
mod tests;

/// The boundaries of a clock. A contract sees the list of them, in rising order.
#[derive(Drop)]
pub struct Clock {
    marks: Vec<bool>,
    slices: u32,
    grid: Option<Grid>,
}

impl Model for Clock {
    ghost use Rattle.std.specs.Prelude.{ℕ, List};
    ghost use Rattle.log_clock.specs.Marks.{IsRunning, marked};

    ghost Value = { List ℕ };

    ghost view = { λ c. marked 0 c.marks.items };

    ghost invariant = { λ c. IsRunning c.marks.items c.slices c.grid };
}

impl Clock {
    /// A clock that is not started: it has no boundaries.
    pub fn new(alloc: Global) -> Clock
        ensures { result ≡ [] }
    {
        Clock {
            marks: Vec::new(alloc),
            slices: 0,
            grid: None,
        }
    }

    /// A clock of the ticks from 0 to `ticks`, in slices of `width` ticks, of which the last may be shorter.
    pub fn start(alloc: Global, ticks: u32, width: u32) -> Result<Clock, NoMemory>
        requires some_tick { 1 ≤ ticks }
        requires few_ticks { ticks ≤ 100000 }
        requires some_width { 1 ≤ width }
        requires small_width { width ≤ 100000 }
        ensures value { IfOk result (λ clock. clock ≡ uniform_cuts ticks width) }
        ensures grid { IfOk result (λ clock. IsGrid clock) }
        ensures ends { IfOk result (λ clock. last_tick clock ≡ ticks) }
    {
        let grid = match Grid::uniform(alloc, ticks, width) {
            Ok(grid) => grid,
            Err(_) => return Err(NoMemory),
        };
        grid.known();
        let marks = marks::of_grid(alloc, &grid)?;
        let slices = grid.slices();
        Ok(Clock {
            marks,
            slices,
            grid: Some(grid),
        })
    }

    /// How many slices there are, and 0 before the start.
    pub fn slices(&self) -> u32
        ensures value { result ≡ slices_in self.now }
        ensures few { result ≤ 100000 }
    {
        self.slices
    }

    /// Adds a boundary, if it is none yet.
    pub fn cut(&mut self, tick: u32)
        requires started { IsGrid self.old }
        requires within { tick ≤ last_tick self.old }
        ensures value { self.new ≡ with_tick self.old tick }
        ensures grid { IsGrid self.new }
        ensures ends { last_tick self.new ≡ last_tick self.old }
    {
        let place = tick as usize;
        if self.marks[place] {
            return;
        }
        self.marks[place] = true;
        self.slices += 1;
        self.grid = None;
    }

    /// How many slices share a tick with a range. The boundaries stay as they are.
    pub fn touching(&mut self, alloc: Global, range: Interval) -> Result<u32, NoMemory>
        ensures kept { self.new ≡ self.old }
        ensures value { IfOk result (λ slices. slices ≡ touching self.old range) }
        ensures few { IfOk result (λ slices. slices ≤ 100000) }
    {
        if self.grid.is_none() {
            let grid = marks::grid_of(alloc, &self.marks)?;
            self.grid = Some(grid);
        }
        match &self.grid {
            None => Err(NoMemory),
            Some(grid) => Ok(slices_near(grid, range)),
        }
    }

    /// The grid of the slices.
    pub fn finish(self, alloc: Global) -> Result<Grid, NoMemory>
        ensures { IfOk result (λ grid. grid ≡ self) }
    {
        let Clock { marks, grid, .. } = self;
        match grid {
            Some(grid) => Ok(grid),
            None => marks::grid_of(alloc, &marks),
        }
    }
}

fn slices_near(grid: &Grid, range: Interval) -> u32
    ensures value { result ≡ touching grid.now range }
    ensures few { result ≤ 100000 }
{
    grid.known();
    match near_in(grid, range) {
        None => 0,
        Some(near) => near.last + 1 - near.first,
    }
}
