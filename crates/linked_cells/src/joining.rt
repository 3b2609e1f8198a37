//! One contractor: its cells become one tree.

ghost use Rattle.std.specs.Prelude.{◌≡◌, ◌<◌, ◌≤◌, ℕ, IsNone, IfSome, List, Contains, length, map};
ghost use Rattle.disjoint_sets.specs.Trees.{GoDown};
ghost use Rattle.constraint_retraction.specs.Linked.{cells_of};
ghost use Rattle.linked_cells.specs.Classes.{IsFrom, AreBoth, JoinsBy};

use ctc_core::Contractor;
use disjoint_sets::join;
use tube_store::{CellId, Store};

/// Makes one tree of those of all cells that a contractor reads or writes.
pub(crate) fn join_contractor<C: Contractor>(parents: &mut [u32], c: &C, store: &Store)
    requires fits { C.fits c.now store.now.shape store.now.box }
    requires room { store.now.shape.cells ≤ length parents.old }
    requires down { GoDown parents.old }
    ensures { JoinsBy (AreBoth (cells_of C.projections C.scope store.now.shape c.now)) parents.old parents.new }
{
    match first_cell(c, store) {
        Some(first) => join_cells(parents, c, store, first.0),
        None => {}
    }
}

/// Makes one tree of those of a number and of all cells that a contractor reads or writes.
pub(crate) fn join_cells<C: Contractor>(parents: &mut [u32], c: &C, store: &Store, to: u32)
    requires fits { C.fits c.now store.now.shape store.now.box }
    requires to { to < length parents.old }
    requires room { store.now.shape.cells ≤ length parents.old }
    requires down { GoDown parents.old }
    ensures { JoinsBy (IsFrom to (cells_of C.projections C.scope store.now.shape c.now)) parents.old parents.new }
{
    join_reads(parents, c, store, to);
    join_writes(parents, c, store, to);
}

// A cell that a contractor reads or writes, if there is one.
fn first_cell<C: Contractor>(c: &C, store: &Store) -> Option<CellId>
    requires fits { C.fits c.now store.now.shape store.now.box }
    ensures some { IfSome result (λ cell. Contains (cells_of C.projections C.scope store.now.shape c.now) cell.0) }
    ensures none { IsNone result → (k : ℕ) → Contains (cells_of C.projections C.scope store.now.shape c.now) k → ⊥ }
    ensures named { IfSome result (λ cell. cell.0 < store.now.shape.cells) }
{
    store.known();
    if c.reads(store) > 0 {
        return Some(c.read(store, 0));
    }
    if c.writes(store) > 0 {
        return Some(c.written(store, 0));
    }
    None
}

// Makes one tree of those of a number and of all cells that a contractor reads.
fn join_reads<C: Contractor>(parents: &mut [u32], c: &C, store: &Store, to: u32)
    requires fits { C.fits c.now store.now.shape store.now.box }
    requires to { to < length parents.old }
    requires room { store.now.shape.cells ≤ length parents.old }
    requires down { GoDown parents.old }
    ensures { JoinsBy (IsFrom to (C.scope c.now store.now.shape)) parents.old parents.new }
{
    store.known();
    for i in 0..c.reads(store) {
        join(parents, to, c.read(store, i).0);
    }
}

// Makes one tree of those of a number and of all cells that a contractor writes.
fn join_writes<C: Contractor>(parents: &mut [u32], c: &C, store: &Store, to: u32)
    requires fits { C.fits c.now store.now.shape store.now.box }
    requires to { to < length parents.old }
    requires room { store.now.shape.cells ≤ length parents.old }
    requires down { GoDown parents.old }
    ensures { JoinsBy (IsFrom to (map (λ p. p.target) (C.projections c.now store.now.shape))) parents.old parents.new }
{
    store.known();
    for i in 0..c.writes(store) {
        join(parents, to, c.written(store, i).0);
    }
}
