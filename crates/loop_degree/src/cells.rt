//! The cells of a set, and the sides of their boundary.

ghost use Rattle.std.specs.Prelude.{◌≡◌, ◌<◌, ◌↔◌, ◌++◌, ℕ, All, IfOk, IsTrue};
ghost use Rattle.loop_degree.specs.Pairs.{IsRising, has};
ghost use Rattle.loop_degree.specs.Cells.{next_a, next_b, next_both, has_before_a, has_before_b, side_unless, outer_sides, boundary, ends_of};
ghost use Rattle.tube_spec.specs.Limits.{most_ticks};

use std::alloc::{AllocError, Global};

/// A side of a cell, from corner to corner.
#[derive(Clone, Copy)]
pub struct Side {
    /// Whether the cell on the other side is in the list too.
    pub shared: bool,
    pub from: (u32, u32),
    pub to: (u32, u32),
}

/// The four sides of a cell, in the order in which they run round it: where `a` points to the right and `b` up, the lower, the right, the
/// upper and the left one.
#[derive(Clone, Copy)]
pub struct Sides {
    pub lower: Side,
    pub right: Side,
    pub upper: Side,
    pub left: Side,
}

/// Whether the pairs rise strictly.
pub fn is_rising(pairs: &[(u32, u32)]) -> bool
    ensures { IsTrue result ↔ IsRising pairs.now }
{
    pairs.is_sorted_by(|p, q| p < q)
}

/// Whether a cell is in the list, by a binary search.
fn has_cell(cells: &[(u32, u32)], cell: (u32, u32)) -> bool
    requires { IsRising cells.now }
    ensures { result ≡ has cells.now cell }
{
    cells.binary_search(&cell).is_ok()
}

/// Whether the cell before this one in `a` is in the list.
#[tactic(auto, using(crate::proofs::Before::before_a))]
fn has_before_a(cells: &[(u32, u32)], cell: (u32, u32)) -> bool
    requires { IsRising cells.now }
    ensures { result ≡ has_before_a cells.now cell.0 cell.1 }
{
    cell.0 > 0 && has_cell(cells, (cell.0 - 1, cell.1))
}

/// Whether the cell before this one in `b` is in the list.
#[tactic(auto, using(crate::proofs::Before::before_b))]
fn has_before_b(cells: &[(u32, u32)], cell: (u32, u32)) -> bool
    requires { IsRising cells.now }
    ensures { result ≡ has_before_b cells.now cell.0 cell.1 }
{
    cell.1 > 0 && has_cell(cells, (cell.0, cell.1 - 1))
}

/// The sides of a cell.
pub fn sides_of(cells: &[(u32, u32)], cell: (u32, u32)) -> Sides
    requires rising { IsRising cells.now }
    requires small { (cell.0 < most_ticks) × (cell.1 < most_ticks) }
    ensures { result ≡ record {
      lower = record { shared = has_before_b cells.now cell.0 cell.1; from = cell; to = next_a cell };
      right = record { shared = has cells.now (next_a cell); from = next_a cell; to = next_both cell };
      upper = record { shared = has cells.now (next_b cell); from = next_both cell; to = next_b cell };
      left = record { shared = has_before_a cells.now cell.0 cell.1; from = next_b cell; to = cell };
    } }
{
    let next_a = (cell.0 + 1, cell.1);
    let next_b = (cell.0, cell.1 + 1);
    let next_both = (cell.0 + 1, cell.1 + 1);
    let side = |shared: bool, from: (u32, u32), to: (u32, u32)| Side { shared, from, to };
    Sides {
        lower: side(has_before_b(cells, cell), cell, next_a),
        right: side(has_cell(cells, next_a), next_a, next_both),
        upper: side(has_cell(cells, next_b), next_both, next_b),
        left: side(has_before_a(cells, cell), next_b, cell),
    }
}

/// Appends both ends of a side that is not shared.
fn push_ends(ends: &mut Vec<(u32, u32)>, side: Side) -> Result<(), AllocError>
    ensures { IfOk result (λ _. ends.new.items ≡ ends.old.items ++ ends_of (side_unless side.shared side.from side.to)) }
{
    if !side.shared {
        ends.push(side.from)?;
        ends.push(side.to)?;
    }
    Ok(())
}

/// Appends both ends of each side of a cell that is not shared.
fn push_all_ends(
    ends: &mut Vec<(u32, u32)>,
    cells: &[(u32, u32)],
    cell: (u32, u32),
) -> Result<(), AllocError>
    requires rising { IsRising cells.now }
    requires small { (cell.0 < most_ticks) × (cell.1 < most_ticks) }
    ensures { IfOk result (λ _. ends.new.items ≡ ends.old.items ++ ends_of (outer_sides cells.now cell)) }
{
    let sides = sides_of(cells, cell);
    push_ends(ends, sides.lower)?;
    push_ends(ends, sides.right)?;
    push_ends(ends, sides.upper)?;
    push_ends(ends, sides.left)
}

/// The corners of the boundary edges, in rising order.
///
/// The cells are to rise strictly, and their numbers to be below 100,000.
pub fn boundary_corners(alloc: Global, cells: &[(u32, u32)]) -> Result<Vec<(u32, u32)>, AllocError>
    requires rising { IsRising cells.now }
    requires small { All (λ c. (c.0 < most_ticks) × (c.1 < most_ticks)) cells.now }
    ensures rising { IfOk result (λ v. IsRising v.items) }
    ensures corners { IfOk result (λ v. (p : ℕ × ℕ) → has v.items p ≡ has (ends_of (boundary cells.now)) p) }
{
    let mut ends = Vec::new(alloc);
    for cell in cells {
        push_all_ends(&mut ends, cells, *cell)?;
    }
    ends.sort_unstable();
    ends.dedup();
    Ok(ends)
}
