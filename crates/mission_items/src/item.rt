//! What records say.

ghost use Rattle.std.specs.Prelude.{◌≡◌};
ghost use Rattle.mission_items.specs.Made.{beacons_made, is_head, signals_made, variables_made};

use formula_text::Formula;
use int_interval::Interval;
use std::marker::Model;
use tube_io::Text;
use tube_names::{Leaf, Query};
use tube_store::{SignalId, VarId};

/// What the names of a formula stand for, from the left. A contract sees the list of them.
#[derive(Debug, Drop)]
pub struct Leaves {
    leaves: Vec<Leaf>,
}

impl Model for Leaves {
    ghost use Rattle.std.specs.Prelude.{List};
    ghost use Rattle.tube_names.specs.declared.leaves.Leaf.{Leaf};

    ghost Value = { List Leaf };

    ghost view = { λ l. l.leaves.items };
}

impl Leaves {
    /// These leaves.
    pub fn new(leaves: Vec<Leaf>) -> Leaves
        ensures { result ≡ leaves.items }
    {
        Leaves { leaves }
    }

    /// The leaves as a slice.
    pub fn as_slice(&self) -> &[Leaf]
        ensures { result.now ≡ self.now }
    {
        self.leaves.as_slice()
    }
}

/// A record that was read. Signals and variables go by their numbers, in order of declaration.
#[derive(Drop)]
pub enum Item {
    /// The mission record.
    Head,
    /// A note.
    Note,
    /// A boundary of the clock between two slices.
    Cut {
        tick: u32,
    },
    /// A signal, with the declared range of its values in millimetres.
    Signal {
        name: Text,
        range: Interval,
    },
    /// A variable, with the declared range of its value.
    Variable {
        name: Text,
        range: Interval,
    },
    /// A beacon at an unknown place, with the declared ranges of its coordinates in millimetres. It makes two variables.
    Beacon {
        name: Text,
        x: Interval,
        y: Interval,
    },
    /// The rate of a signal: the signal changes by it from a tick to the next.
    Deriv {
        x: SignalId,
        rate: SignalId,
    },
    /// A measured range of a signal at the ticks from `first` to `last`.
    Bound {
        x: SignalId,
        first: u32,
        last: u32,
        range: Interval,
    },
    /// A measured range of a signal at one tick. It makes two variables, a time and a value.
    At {
        x: SignalId,
        tick: u32,
        range: Interval,
    },
    /// The variable `z` is the value of the signal at the tick `t`, which is a variable.
    Eval {
        x: SignalId,
        t: VarId,
        z: VarId,
    },
    /// The signal `y` is at each tick what `x` was `tau` ticks before.
    Delay {
        x: SignalId,
        y: SignalId,
        tau: VarId,
    },
    /// The distance of two points of the plane lies from `near` to `far` millimetres.
    Dist2 {
        near: i64,
        far: i64,
        p: [VarId; 2],
        b: [VarId; 2],
    },
    /// The distance of two points of space lies from `near` to `far` millimetres.
    Dist3 {
        near: i64,
        far: i64,
        p: [VarId; 3],
        b: [VarId; 3],
    },
    /// A point is where one of the beacons before is.
    Constell {
        p: [VarId; 2],
    },
    /// At a tick from `first` to `last` the place of two signals was from `near` to `far` millimetres away from a beacon: from that with
    /// a place among the beacons, from 0, or from one of the beacons before. It makes a time and a point, and without a beacon a mark.
    Ping {
        x: SignalId,
        y: SignalId,
        first: u32,
        last: u32,
        beacon: Option<u32>,
        near: i64,
        far: i64,
    },
    /// A formula that holds at every tick, variables having their one value.
    Each {
        formula: Formula,
        leaves: Leaves,
    },
    /// A formula of variables that holds.
    Single {
        formula: Formula,
        leaves: Leaves,
    },
    /// A question for the pairs of ticks at which the place of two signals is nearly the same.
    Revisit {
        q: Query,
    },
    /// The end of a section.
    Settle,
}

impl Item {
    /// Whether it is the mission record.
    pub fn is_head(&self) -> bool
        ensures { result ≡ is_head self.now }
    {
        matches!(self, Item::Head)
    }

    /// How many signals it makes.
    pub fn signals_made(&self) -> u32
        ensures { result ≡ signals_made self.now }
    {
        match self {
            Item::Signal { .. } => 1,
            _ => 0,
        }
    }

    /// How many variables it makes, those without a name included.
    pub fn variables_made(&self) -> u32
        ensures { result ≡ variables_made self.now }
    {
        match self {
            Item::Variable { .. } => 1,
            Item::Beacon { .. } | Item::At { .. } => 2,
            Item::Ping { beacon, .. } => match beacon {
                Some(_) => 3,
                None => 5,
            },
            _ => 0,
        }
    }

    /// How many beacons it makes.
    pub fn beacons_made(&self) -> u32
        ensures { result ≡ beacons_made self.now }
    {
        match self {
            Item::Beacon { .. } => 1,
            _ => 0,
        }
    }
}
