//! All contractors: which cells hang together, and which with those withdrawn.

ghost use Rattle.std.specs.Prelude.{◌≡◌, ◌+◌, ◌<◌, ◌≤◌, ℕ, List, IfOk, length, slice_index};
ghost use Rattle.disjoint_sets.specs.Trees.{GoDown};
ghost use Rattle.constraint_retraction.specs.Linked.{IsLinked};
ghost use Rattle.ctc_network.specs.Settling.{contractors_at};
ghost use Rattle.linked_cells.specs.Places.{without, cells_under};
ghost use Rattle.linked_cells.specs.Classes.{IsFrom, AreBoth, ShareOne, IsFromOne, JoinsBy, AreClasses};
ghost use Rattle.linked_cells.specs.Chosen.{place_cells};

use crate::joining::{join_cells, join_contractor};
use ctc_network::{CtcId, Net};
use ctc_parts::Parted;
use disjoint_sets::alone;
use std::alloc::{AllocError, Global};

/// Trees of all cells, and of one number above them, in whose tree are exactly the cells that are linked to the contractors withdrawn.
pub(crate) fn classes<C: Parted + Drop>(
    alloc: Global,
    net: &Net<C>,
    withdrawn: &[CtcId],
) -> Result<Vec<u32>, AllocError>
    ensures { IfOk result (λ v. AreClasses (IsLinked (place_cells C.projections C.scope net.now.store.shape) (without net.now.contractors withdrawn.now) (contractors_at net.now.contractors withdrawn.now)) net.now.store.shape.cells v.items) }
{
    net.known();
    let top = net.store().cells();
    let mut parents = alone(alloc, top + 1)?;
    join_all(&mut parents, net, withdrawn, top);
    Ok(parents)
}

// Joins the cells of each contractor, and those of the ones withdrawn with one number more.
fn join_all<C: Parted + Drop>(parents: &mut [u32], net: &Net<C>, withdrawn: &[CtcId], top: u32)
    requires top { net.now.store.shape.cells ≡ top }
    requires room { top < length parents.old }
    requires alone { (k : ℕ) → k < length parents.old → slice_index parents.old k ≡ k }
    ensures len { length parents.new ≡ length parents.old }
    ensures classes { length parents.old ≡ top + 1 → AreClasses (IsLinked (place_cells C.projections C.scope net.now.store.shape) (without net.now.contractors withdrawn.now) (contractors_at net.now.contractors withdrawn.now)) top parents.new }
{
    net.known();
    join_each(parents, net);
    join_withdrawn(parents, net, withdrawn, top);
}

// Makes one tree of those of all cells of each contractor.
fn join_each<C: Parted + Drop>(parents: &mut [u32], net: &Net<C>)
    requires room { net.now.store.shape.cells ≤ length parents.old }
    requires down { GoDown parents.old }
    ensures { JoinsBy (ShareOne (place_cells C.projections C.scope net.now.store.shape) net.now.contractors (length net.now.contractors)) parents.old parents.new }
{
    for number in 0..net.numbers() {
        join_under(parents, net, CtcId(number));
    }
}

// Makes one tree of those of all cells of the contractor under a number, if there is one.
fn join_under<C: Parted + Drop>(parents: &mut [u32], net: &Net<C>, id: CtcId)
    requires room { net.now.store.shape.cells ≤ length parents.old }
    requires down { GoDown parents.old }
    ensures { JoinsBy (AreBoth (cells_under (place_cells C.projections C.scope net.now.store.shape) net.now.contractors id.0)) parents.old parents.new }
{
    net.known();
    if net.has(id) {
        join_contractor(parents, net.contractor(id), net.store());
    }
}

// Makes one tree of those of a number and of all cells of the contractors withdrawn.
fn join_withdrawn<C: Parted + Drop>(parents: &mut [u32], net: &Net<C>, withdrawn: &[CtcId], to: u32)
    requires to { to < length parents.old }
    requires room { net.now.store.shape.cells ≤ length parents.old }
    requires down { GoDown parents.old }
    ensures { JoinsBy (IsFromOne to (place_cells C.projections C.scope net.now.store.shape) net.now.contractors withdrawn.now (length withdrawn.now)) parents.old parents.new }
{
    for i in 0..withdrawn.len() {
        join_to(parents, net, withdrawn[i], to);
    }
}

// Makes one tree of those of a number and of all cells of the contractor under a number, if there is one.
fn join_to<C: Parted + Drop>(parents: &mut [u32], net: &Net<C>, id: CtcId, to: u32)
    requires to { to < length parents.old }
    requires room { net.now.store.shape.cells ≤ length parents.old }
    requires down { GoDown parents.old }
    ensures { JoinsBy (IsFrom to (cells_under (place_cells C.projections C.scope net.now.store.shape) net.now.contractors id.0)) parents.old parents.new }
{
    net.known();
    if net.has(id) {
        join_cells(parents, net.contractor(id), net.store(), to);
    }
}
