//! Whether a contractor reads or writes one of some cells.

ghost use Rattle.std.specs.Prelude.{◌↔◌, IsTrue, Any, Contains, map};
ghost use Rattle.std.specs.List.Sorted.{IsStrictlyIncreasing};
ghost use Rattle.tube_store.specs.Resets.{cell_in};
ghost use Rattle.ctc_network.specs.Resetting.{Uses};

use ctc_core::Contractor;
use int_interval::Interval;
use tube_store::{CellId, Store};

/// Whether a contractor reads or writes one of some cells, which rise.
pub fn uses<C: Contractor>(c: &C, store: &Store, cells: &[(CellId, Interval)]) -> bool
    requires fits { C.fits c.now store.now.shape store.now.box }
    requires rising { IsStrictlyIncreasing (map cell_in cells.now) }
    ensures { IsTrue result ↔ Uses cells.now (C.scope c.now store.now.shape) (C.projections c.now store.now.shape) }
{
    reads_one(c, store, cells) || writes_one(c, store, cells)
}

// Whether a contractor reads one of some cells.
fn reads_one<C: Contractor>(c: &C, store: &Store, cells: &[(CellId, Interval)]) -> bool
    requires fits { C.fits c.now store.now.shape store.now.box }
    requires rising { IsStrictlyIncreasing (map cell_in cells.now) }
    ensures { IsTrue result ↔ Any (Contains (map cell_in cells.now)) (C.scope c.now store.now.shape) }
{
    for i in 0..c.reads(store) {
        if is_among(cells, c.read(store, i)) {
            return true;
        }
    }
    false
}

// Whether a contractor writes one of some cells.
fn writes_one<C: Contractor>(c: &C, store: &Store, cells: &[(CellId, Interval)]) -> bool
    requires fits { C.fits c.now store.now.shape store.now.box }
    requires rising { IsStrictlyIncreasing (map cell_in cells.now) }
    ensures { IsTrue result ↔ Any (Contains (map cell_in cells.now)) (map (λ p. p.target) (C.projections c.now store.now.shape)) }
{
    for i in 0..c.writes(store) {
        if is_among(cells, c.written(store, i)) {
            return true;
        }
    }
    false
}

// Whether a cell is among some cells, which rise.
fn is_among(cells: &[(CellId, Interval)], cell: CellId) -> bool
    requires rising { IsStrictlyIncreasing (map cell_in cells.now) }
    ensures { IsTrue result ↔ Contains (map cell_in cells.now) cell.0 }
{
    let mut first = 0;
    let mut end = cells.len();
    while first < end {
        let middle = first + (end - first) / 2;
        let at = cells[middle].0.0;
        if at == cell.0 {
            return true;
        }
        if at < cell.0 {
            first = middle + 1;
        } else {
            end = middle;
        }
    }
    false
}
