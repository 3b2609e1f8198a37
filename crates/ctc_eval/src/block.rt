//! What the signal may come to at each gate of a block, and a block as projections.

ghost use Rattle.std.specs.Prelude.{◌≡◌, ◌+◌, ◌<◌, ◌≤◌, ℕ, IsSome, None, length, slice_index, slice_index_or};
ghost use Rattle.tube_spec.specs.Narrowing.{narrowing_of};
ghost use Rattle.ctc_core.specs.Given.{narrowing_given};
ghost use Rattle.ctc_eval.specs.Clock.{cells_of};
ghost use Rattle.ctc_eval.specs.Blocks.{IsFromAll};
ghost use Rattle.ctc_eval.specs.Walks.{Covers, IsFromOn};

use super::clock::{Stretch, join};
use super::sweep::Sweep;
use ctc_core::{Formulas, Given};
use int_interval::Interval;
use tube_store::{CellId, SignalId, Store};

/// A hull as what a formula gives.
pub fn given_of(hull: Option<Interval>) -> Given
    ensures { narrowing_given result ≡ narrowing_of hull }
{
    match hull {
        Some(hull) => Given::Within(hull),
        None => Given::Nothing,
    }
}

/// Gates of a signal one after another, at most sixty-four, and what is kept of each: what its formula gives in one box.
#[derive(Clone, Copy)]
pub struct Block {
    /// The signal.
    pub x: SignalId,
    /// The number of the first gate.
    pub first: u32,
    /// How many gates there are.
    pub count: u32,
    /// What is kept of each.
    pub hulls: [Option<Interval>; 65],
}

impl Formulas for Block {
    ghost use Rattle.ctc_eval.specs.Blocks.{block_projections, BlockFits};
    ghost use Rattle.ctc_eval.specs.BlockLaws.{block-monotone, block-in_store};

    ghost projections = { λ b s. block_projections s b };

    ghost fits = { λ b s box. BlockFits s b };

    ghost monotone = { λ b s. block-monotone (λ xs. BlockFits s b) s b };

    ghost fits_below = { λ b s lesser greater low fits. fits };

    ghost in_store = { λ b s box shape fits. block-in_store s b shape fits };

    fn count(&self, _store: &Store) -> u32 {
        self.count
    }

    fn target(&self, store: &Store, i: u32) -> CellId {
        store.known();
        store.gate(self.x, self.first + i)
    }

    fn given(&self, _store: &Store, i: u32) -> Given {
        given_of(self.hulls[i as usize])
    }
}

// What the ticks from each gate of a block on give at it, from the end of the stretch back.
fn hulls_back(
    sweep: &Sweep,
    store: &Store,
    rate: SignalId,
    stretch: Stretch,
    first: u32,
    count: u32,
    hulls: &mut [Option<Interval>],
)
    requires signal { sweep.now.x.0 < length store.now.shape.signals }
    requires rate { rate.0 < length store.now.shape.signals }
    requires value { sweep.now.z.0 < length store.now.shape.vars }
    requires covers { Covers store.now.shape.grid stretch.ticks stretch.near }
    requires some { 0 < count }
    requires few { count ≤ 64 }
    requires gates { first + count ≤ stretch.near.last + 2 }
    requires filled { IsSome store.now.box }
    requires room { length hulls.old ≡ 65 }
    ensures room { length hulls.new ≡ 65 }
    ensures back { (k : ℕ) → k < count → IsFromOn store.now.shape sweep.now.x.0 rate.0 sweep.now.z.0 (cells_of store.now.box) stretch.ticks (slice_index store.now.shape.grid (first + k)) (slice_index_or hulls.new k None) }
{
    store.known();
    let mut at = stretch.near.last + 1;
    hulls[count as usize] = sweep.shared_in(store, stretch.ticks, at);
    for j in (0..count).rev() {
        hulls[j as usize] = sweep.carried_back(
            store,
            rate,
            stretch.ticks,
            at,
            first + j,
            hulls[j as usize + 1],
        );
        at = first + j;
    }
}

/// What the signal may come to at each gate of a block, by its rate: back through the block, and then on. The last entry has what the ticks
/// before the gate at hand give at it.
pub fn hulls_whole(
    sweep: &Sweep,
    store: &Store,
    rate: SignalId,
    stretch: Stretch,
    first: u32,
    count: u32,
    hulls: &mut [Option<Interval>],
)
    requires signal { sweep.now.x.0 < length store.now.shape.signals }
    requires rate { rate.0 < length store.now.shape.signals }
    requires value { sweep.now.z.0 < length store.now.shape.vars }
    requires covers { Covers store.now.shape.grid stretch.ticks stretch.near }
    requires some { 0 < count }
    requires few { count ≤ 64 }
    requires start { stretch.near.first ≤ first }
    requires gates { first + count ≤ stretch.near.last + 2 }
    requires filled { IsSome store.now.box }
    requires room { length hulls.old ≡ 65 }
    ensures room { length hulls.new ≡ 65 }
    ensures whole { (k : ℕ) → k < count → IsFromAll store.now.shape sweep.now.x.0 rate.0 sweep.now.z.0 (cells_of store.now.box) stretch.ticks (first + k) (slice_index_or hulls.new k None) }
{
    store.known();
    hulls_back(sweep, store, rate, stretch, first, count, hulls);
    let mut at = stretch.near.first;
    hulls[64] = None;
    for j in 0..count {
        hulls[64] = sweep.carried_on(store, rate, stretch.ticks, at, first + j, hulls[64]);
        hulls[j as usize] = join(hulls[64], hulls[j as usize]);
        at = first + j;
    }
}
