//! Boundaries as marks on the ticks.

ghost use Rattle.std.specs.Prelude.{◌≡◌, ◌≤◌, IfOk, length};
ghost use Rattle.log_clock.specs.Marks.{AreEnds, marked};

use slice_gates::Grid;
use std::alloc::Global;
use tube_io::NoMemory;

/// The ticks from 0 to the last one of a grid, marked where there is a boundary.
pub(crate) fn of_grid(alloc: Global, grid: &Grid) -> Result<Vec<bool>, NoMemory>
    ensures value { IfOk result (λ marks. marked 0 marks.items ≡ grid.now) }
    ensures ends { IfOk result (λ marks. AreEnds marks.items) }
{
    grid.known();
    let mut marks = vec![in alloc; false; grid.ticks() as usize + 1]?;
    for i in 0..grid.slices() + 1 {
        let tick = grid.boundary(i) as usize;
        marks[tick] = true;
    }
    Ok(marks)
}

/// The grid of the marked ticks.
pub(crate) fn grid_of(alloc: Global, marks: &[bool]) -> Result<Grid, NoMemory>
    requires { length marks.now ≤ 100001 }
    ensures { IfOk result (λ grid. grid ≡ marked 0 marks.now) }
{
    let mut cuts = Vec::new(alloc);
    for (i, is_marked) in marks.iter().enumerate() {
        if *is_marked {
            cuts.push(i as u32)?;
        }
    }
    match Grid::from_cuts(alloc, &cuts) {
        Ok(grid) => Ok(grid),
        Err(_) => Err(NoMemory),
    }
}
