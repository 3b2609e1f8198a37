//! A projection fired: its target held by what its formula gives.

ghost use Rattle.std.specs.Prelude.{◌≡◌, ◌+◌, ◌<◌, IsSome, pos};
ghost use Rattle.tube_spec.specs.Limits.{greatest_bound};
ghost use Rattle.tube_spec.specs.Span.{point};
ghost use Rattle.ctc_core.specs.Answers.{HoldsBy};
ghost use Rattle.ctc_core.specs.Checking.{ChecksBy};

use super::Revised;
use int_interval::Interval;
use tube_store::{CellId, GREATEST_BOUND, Store};

// One above every number that a cell of a store may have.
const NOWHERE: i64 = GREATEST_BOUND + 1;

// A number that no cell of a store has.
fn nowhere() -> Interval
    ensures { result ≡ point (pos (greatest_bound + 1)) }
{
    Interval::new(NOWHERE, NOWHERE).unwrap()
}

/// Fires one projection: holds its target `cell` by what its formula gives of the store's box, `to`, an interval or nothing.
///
/// The clause ranges over projections: each is fired that has this target, gives this of the old box, and gives no more in a lesser box.
/// Where a formula gives the whole line there is nothing to hold: [`super::start`] is the answer.
pub fn hold(store: &mut Store, cell: CellId, to: Option<Interval>) -> Revised
    requires named { cell.0 < store.old.shape.cells }
    requires filled { IsSome store.old.box }
    ensures { HoldsBy cell.0 to store.old store.new result }
{
    store.known();
    match to {
        Some(to) => {
            let cut = store.narrow(cell, to);
            store.known();
            Revised::of_cut(cut)
        }
        None => {
            let _cut = store.narrow(cell, nowhere());
            store.known();
            Revised::Empty
        }
    }
}

/// Tests one projection: whether its target `cell` lies within what its formula gives of the store's box, `to`, an interval or nothing.
///
/// The clause ranges over projections: each is tested that has this target and gives this of the box.
pub fn is_held(store: &Store, cell: CellId, to: Option<Interval>) -> bool
    requires named { cell.0 < store.now.shape.cells }
    requires filled { IsSome store.now.box }
    ensures { ChecksBy cell.0 to store.now.box result }
{
    match to {
        Some(to) => store.get(cell).within(to),
        None => false,
    }
}
