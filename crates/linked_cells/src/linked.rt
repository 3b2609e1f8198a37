//! The linked cells, in rising order.

ghost use Rattle.std.specs.Prelude.{◌<◌, ℕ, IfOk, length};
ghost use Rattle.disjoint_sets.specs.Ways.{Joined};
ghost use Rattle.disjoint_sets.specs.Trees.{IsParent, GoDown};
ghost use Rattle.linked_cells.specs.Chosen.{AreExactly, IsLinkedIn};

use crate::classes::classes;
use ctc_network::{CtcId, Net};
use ctc_parts::Parted;
use disjoint_sets::are_joined;
use std::alloc::{AllocError, Global};
use tube_store::CellId;

/// The cells that are linked to the contractors under some numbers, in rising order, and all cells where the box is empty. A number under
/// which none stands adds nothing.
///
/// It is one pass over the contractors, of which each joins the cells that it reads or writes with one another, and one over the cells. Each
/// joining and each look at a cell goes up two trees whose ways grow shorter. The memory is two numbers a cell.
pub fn linked_cells<C: Parted + Drop>(
    alloc: Global,
    net: &Net<C>,
    withdrawn: &[CtcId],
) -> Result<Vec<CellId>, AllocError>
    ensures { IfOk result (λ cells. AreExactly (IsLinkedIn C.projections C.scope net.now withdrawn.now) net.now.store.shape.cells cells.items) }
{
    let count = net.store().cells();
    if net.store().is_empty() {
        return all_cells(alloc, count);
    }
    let mut parents = classes(alloc, net, withdrawn)?;
    joined_with(alloc, &mut parents, count)
}

// All cells below a count.
fn all_cells(alloc: Global, count: u32) -> Result<Vec<CellId>, AllocError>
    ensures { IfOk result (λ cells. AreExactly (λ k. Unit {0}) count cells.items) }
{
    let mut cells = Vec::new(alloc);
    for k in 0..count {
        cells.push(CellId(k))?;
    }
    Ok(cells)
}

// The cells below a number that hang together with it.
fn joined_with(alloc: Global, parents: &mut [u32], top: u32) -> Result<Vec<CellId>, AllocError>
    requires top { top < length parents.old }
    requires down { GoDown parents.old }
    ensures { IfOk result (λ cells. AreExactly (λ k. Joined (IsParent parents.old) k top) top cells.items) }
{
    let mut cells = Vec::new(alloc);
    for k in 0..top {
        if are_joined(parents, k, top) {
            cells.push(CellId(k))?;
        }
    }
    Ok(cells)
}
