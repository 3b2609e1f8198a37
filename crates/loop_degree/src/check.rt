//! The degree of the boundary of some cells.

ghost use Rattle.std.specs.Prelude.{◌≡◌, ◌<◌, ◌↔◌, All, IsSome, IfSome, map};
ghost use Rattle.loop_degree.specs.Pairs.{IsRising};
ghost use Rattle.loop_degree.specs.Cells.{side_unless, outer_sides};
ghost use Rattle.loop_degree.specs.Labels.{label_at, degree_of};
ghost use Rattle.loop_degree.specs.Boundary.{corner_of, IsLabelledBoundary, turns_of, add_option, IsSmall};
ghost use Rattle.tube_spec.specs.Limits.{most_ticks};

use super::cells::{Side, is_rising, sides_of};
use super::labels::{Label, corners_rise, label_at, turn};

/// What a side adds to the degree, where both ends have a label. A shared side adds nothing.
fn side_turn(side: Side, labels: &[(u32, u32, Label)]) -> Option<i64>
    requires { IsRising (map corner_of labels.now) }
    ensures value { result ≡ turns_of labels.now (side_unless side.shared side.from side.to) }
    ensures small { IfSome result (IsSmall 1) }
{
    if side.shared {
        return Some(0);
    }
    let from = label_at(labels, side.from)?;
    let to = label_at(labels, side.to)?;
    Some(turn(from, to))
}

/// The sum of two, where both are there.
fn add_turns(x: Option<i64>, y: Option<i64>) -> Option<i64>
    requires x_small { IfSome x (IsSmall 100000000000) }
    requires y_small { IfSome y (IsSmall 100000000000) }
    ensures { result ≡ add_option x y }
{
    Some(x? + y?)
}

/// What the sides of a cell add to the degree.
fn cell_turns(cells: &[(u32, u32)], labels: &[(u32, u32, Label)], cell: (u32, u32)) -> Option<i64>
    requires rising { IsRising cells.now }
    requires corners { IsRising (map corner_of labels.now) }
    requires small { (cell.0 < most_ticks) × (cell.1 < most_ticks) }
    ensures value { result ≡ turns_of labels.now (outer_sides cells.now cell) }
    ensures small { IfSome result (IsSmall 4) }
{
    let sides = sides_of(cells, cell);
    let lower = side_turn(sides.lower, labels);
    let right = side_turn(sides.right, labels);
    let upper = side_turn(sides.upper, labels);
    let left = side_turn(sides.left, labels);
    let two = add_turns(upper, left);
    let three = add_turns(right, two);
    add_turns(lower, three)
}

/// The degree of the labelled boundary of a list of cells: the number of boundary edges from North to West less the number of those from
/// West to North. A boundary edge is a side of a cell whose other cell is not in the list.
///
/// None where the cells do not rise strictly, where the labelled corners do not rise strictly, or where some corner of a boundary edge has
/// no label, and in no other case. Both numbers of a cell are to be below 100,000. It takes no memory; a cell and a label are found by
/// binary searches.
pub fn check_cells(cells: &[(u32, u32)], labels: &[(u32, u32, Label)]) -> Option<i64>
    requires { All (λ c. (c.0 < most_ticks) × (c.1 < most_ticks)) cells.now }
    ensures labelled { IsSome result ↔ IsLabelledBoundary cells.now labels.now }
    ensures degree { IfSome result (λ d. d ≡ degree_of cells.now (label_at labels.now)) }
{
    let cells_rise = is_rising(cells);
    let labels_rise = corners_rise(labels);
    if !cells_rise || !labels_rise {
        return None;
    }
    let mut degree = Some(0);
    for cell in cells {
        let turns = cell_turns(cells, labels, *cell);
        degree = add_turns(degree, turns);
    }
    degree
}
