//! Where a relation holds, and the cells of its leaves there.

ghost use Rattle.std.specs.Prelude.{◌≡◌, ◌<◌};
ghost use Rattle.expr_hc4.specs.Places.{leaf_cell, LeafFits};

use tube_names::Leaf;
use tube_store::{CellId, Store};

/// Where a relation holds.
#[derive(Clone, Copy, Debug, PartialEq, Eq)]
pub enum Place {
    /// At the tick of the boundary with this number.
    Gate(u32),
    /// At each tick of the slice with this number.
    Envelope(u32),
    /// Once, of variables alone.
    Once,
}

/// The cell of a leaf at a place.
pub(crate) fn cell_of(store: &Store, place: Place, leaf: Leaf) -> CellId
    requires { LeafFits store.now.shape place leaf }
    ensures cell { result.0 ≡ leaf_cell store.now.shape place leaf }
    ensures named { result.0 < store.now.shape.cells }
{
    store.known();
    match leaf {
        Leaf::Var(v) => store.var(v),
        Leaf::Sig(x) => match place {
            Place::Gate(i) => store.gate(x, i),
            Place::Envelope(i) => store.envelope(x, i),
            Place::Once => unreachable!(),
        },
    }
}
