//! What a name is declared as.

use int_interval::Interval;
use tube_store::{SignalId, VarId};

/// What a name is declared as, with the declared ranges. Signals, variables and beacons share one space of names.
#[derive(Clone, Copy, Debug, PartialEq, Eq)]
pub enum Decl {
    /// A signal, and the range of its values at every tick.
    Signal {
        id: SignalId,
        range: Interval,
    },
    /// A variable, and the range of its value.
    Variable {
        id: VarId,
        range: Interval,
    },
    /// A beacon: its place among the beacons, from 0, the variable of its x, after which that of its y comes, and the ranges of both.
    Beacon {
        place: u32,
        first: VarId,
        x: Interval,
        y: Interval,
    },
}
