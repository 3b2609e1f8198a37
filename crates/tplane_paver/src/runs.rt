//! Runs of possible pairs.

ghost use Rattle.std.specs.Prelude.{◌≡◌, ◌<◌, ◌≤◌, length};
ghost use Rattle.tplane_paver.specs.Runs.{AreInOrder, run_at};
ghost use Rattle.tube_spec.specs.Limits.{most_runs};

use std::marker::Model;

/// The most runs of a query.
pub const MOST_RUNS: usize = 2_000_000;

/// The pairs `(a, b)` with `b` from the first tick to the last, both included.
#[derive(Clone, Copy, Debug, PartialEq, Eq)]
pub struct Run {
    pub a: u32,
    pub first: u32,
    pub last: u32,
}

/// The possible pairs of a query as maximal runs. A contract sees the list of them: they rise by `a`, then by `b`, and none touches the
/// next of its row.
#[derive(Drop)]
pub struct Runs {
    pub(crate) runs: Vec<Run>,
}

impl Model for Runs {
    ghost use Rattle.std.specs.Prelude.{List, ◌≤◌, length};
    ghost use Rattle.tube_spec.specs.Limits.{most_runs};
    ghost use Rattle.tplane_paver.specs.Runs.{AreInOrder};
    ghost use Rattle.tplane_paver.specs.declared.runs.Run.{Run};

    ghost Value = { List Run };

    ghost view = { λ r. r.runs.items };

    ghost invariant = { λ r. AreInOrder r.runs.items × (length r.runs.items ≤ most_runs) };
}

impl Runs {
    /// The runs.
    pub fn runs(&self) -> &[Run]
        ensures all { result.now ≡ self.now }
        ensures order { AreInOrder self.now }
        ensures few { length self.now ≤ most_runs }
    {
        &self.runs
    }
}
