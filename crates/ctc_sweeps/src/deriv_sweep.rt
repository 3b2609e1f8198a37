//! A signal and its rate over all slices as one contractor.

ghost use Rattle.std.specs.Prelude.{◌≡◌, ◌+◌, ◌*◌, ◌<◌, ◌≤◌, ℕ, length, slice_index};
ghost use Rattle.ctc_deriv.specs.Derivs.{DerivFits};
ghost use Rattle.ctc_sweeps.specs.SliceSweeps.{slices_of};

use ctc_core::{Contractor, Formulas, Revised, revise_by_formulas, still_by_formulas};
use ctc_deriv::DerivCtc;
use ctc_parts::{
    Parted, Parts, Visit, revise_all, still_all, still_by_parts, sweep_by_parts, width_at,
    writes_by_parts, written_by_parts,
};
use std::ops::Range;
use std::sync::ledger::Ledger;
use step_count::Steps;
use tube_store::{CellId, SignalId, Store};

/// A signal and its rate over all slices, each of which is a part.
#[derive(Clone, Copy, Debug, PartialEq, Eq)]
pub struct DerivSweep {
    /// The signal.
    pub x: SignalId,
    /// What it gains from each tick to the next.
    pub rate: SignalId,
}

impl DerivSweep {
    /// The contractor of the signal `x`, of which `rate` is the rate, over all slices.
    pub fn new(x: SignalId, rate: SignalId) -> DerivSweep
        ensures { result ≡ record { x = x; rate = rate } }
    {
        DerivSweep { x, rate }
    }

    // The widths of the cells of slice `i` that its neighbours read or it reads again.
    fn widths(&self, store: &Store, i: u32) -> Widths
        requires { DerivFits store.now.shape self.now.x.0 self.now.rate.0 i }
    {
        store.known();
        Widths {
            left: width_at(store, store.gate(self.x, i)),
            right: width_at(store, store.gate(self.x, i + 1)),
            rate_left: width_at(store, store.gate(self.rate, i)),
            rate: width_at(store, store.envelope(self.rate, i)),
        }
    }
}

// Both gates of the signal over a slice, the left gate of its rate, and the envelope of its rate.
#[derive(Clone, Copy)]
struct Widths {
    left: u64,
    right: u64,
    rate_left: u64,
    rate: u64,
}

// The slices of which a cell is a gate of a signal, and none where it is no gate of it.
fn slices_at_gate(store: &Store, signal: SignalId, cell: CellId) -> Range<u32>
    requires { signal.0 < length store.now.shape.signals }
    ensures left { (i : ℕ) → i < slices_of store.now.shape → slice_index store.now.shape.signals signal.0 + 2 * i ≡ cell.0 → (result.start ≤ i) × (i < result.end) }
    ensures right { (i : ℕ) → i < slices_of store.now.shape → slice_index store.now.shape.signals signal.0 + 2 * (i + 1) ≡ cell.0 → (result.start ≤ i) × (i < result.end) }
{
    store.known();
    let slices = store.slices();
    let first = store.gate(signal, 0).0;
    if cell.0 < first || cell.0 > first + 2 * slices {
        return slices..0;
    }
    let place = cell.0 - first;
    if place % 2 == 1 {
        return slices..0;
    }
    (place / 2).saturating_sub(1)..place / 2 + 1
}

// The slice of which a cell is the envelope or the right gate of a signal, and none where it is neither.
fn slice_of_rate(store: &Store, signal: SignalId, cell: CellId) -> Range<u32>
    requires { signal.0 < length store.now.shape.signals }
    ensures envelope { (i : ℕ) → i < slices_of store.now.shape → slice_index store.now.shape.signals signal.0 + 1 + 2 * i ≡ cell.0 → (result.start ≤ i) × (i < result.end) }
    ensures gate { (i : ℕ) → i < slices_of store.now.shape → slice_index store.now.shape.signals signal.0 + 1 + (2 * i + 1) ≡ cell.0 → (result.start ≤ i) × (i < result.end) }
{
    store.known();
    let slices = store.slices();
    let first = store.gate(signal, 0).0;
    if cell.0 <= first || cell.0 > first + 2 * slices {
        return slices..0;
    }
    let slice = (cell.0 - first - 1) / 2;
    slice..slice + 1
}

impl Parts for DerivSweep {
    ghost use Rattle.ctc_deriv.specs.Derivs.{deriv_projections};
    ghost use Rattle.ctc_deriv.specs.DerivLaws.{deriv-monotone};
    ghost use Rattle.ctc_sweeps.specs.SliceSweeps.{slices_of};
    ghost use Rattle.ctc_sweeps.specs.DerivSweeps.{DerivSweepFits};
    ghost use Rattle.ctc_sweeps.specs.DerivSweepLaws.{deriv-sweep-few};

    ghost fits = { λ c s b. DerivSweepFits s c.x.0 c.rate.0 };

    ghost parts = { λ c s. slices_of s };

    ghost part = { λ c s i. deriv_projections s c.x.0 c.rate.0 i };

    ghost monotone = { λ c s i below. deriv-monotone (λ xs. DerivSweepFits s c.x.0 c.rate.0) s c.x.0 c.rate.0 i };

    ghost fits_below = { λ c s a b low fits. fits };

    ghost few = { λ c s b shape fits. deriv-sweep-few s c.x.0 c.rate.0 shape };

    fn count(&self, store: &Store) -> u32 {
        store.slices()
    }

    fn part_count(&self, store: &Store, i: u32) -> u32 {
        DerivCtc::new(self.x, self.rate, i).count(store)
    }

    fn part_target(&self, store: &Store, i: u32, k: u32) -> CellId {
        DerivCtc::new(self.x, self.rate, i).target(store, k)
    }

    fn visit(&self, store: &mut Store, i: u32) -> Visit {
        store.known();
        let widths = self.widths(store, i);
        let slice = DerivCtc::new(self.x, self.rate, i);
        let answer = revise_by_formulas(&slice, store);
        let now = self.widths(store, i);
        Visit {
            answer,
            before: now.left < widths.left || now.rate_left < widths.rate_left,
            after: now.right < widths.right,
            again: now.rate < widths.rate,
        }
    }

    fn is_part_held(&self, store: &Store, i: u32) -> bool {
        store.known();
        let slice = DerivCtc::new(self.x, self.rate, i);
        !still_by_formulas(&slice, store)
    }
}

impl Contractor for DerivSweep {
    ghost use Rattle.ctc_sweeps.specs.DerivSweeps.{deriv_sweep_projections, deriv_sweep_scope, DerivSweepFits};
    ghost use Rattle.ctc_sweeps.specs.DerivSweepLaws.{deriv-sweep-monotone, deriv-sweep-reads_only, deriv-sweep-in_store, deriv-sweep-more, deriv-sweep-same_projections, deriv-sweep-same_scope};

    ghost projections = { λ c s. deriv_sweep_projections s c.x.0 c.rate.0 };

    ghost scope = { λ c s. deriv_sweep_scope s c.x.0 c.rate.0 };

    ghost fits = { λ c s b. DerivSweepFits s c.x.0 c.rate.0 };

    ghost monotone = { λ c s. deriv-sweep-monotone (λ xs. DerivSweepFits s c.x.0 c.rate.0) s c.x.0 c.rate.0 };

    ghost reads_only = { λ c s. deriv-sweep-reads_only (λ xs. DerivSweepFits s c.x.0 c.rate.0) s c.x.0 c.rate.0 };

    ghost fits_local = { λ c s xs ys same fits. fits };

    ghost fits_below = { λ c s a b low fits. fits };

    ghost in_store = { λ c s b shape fits. deriv-sweep-in_store s c.x.0 c.rate.0 shape fits };

    ghost fits_more = { λ c s t b more grows fits. deriv-sweep-more s t c.x.0 c.rate.0 grows fits };

    ghost same_projections = { λ c s t b grows fits. deriv-sweep-same_projections s t c.x.0 c.rate.0 grows fits };

    ghost same_scope = { λ c s t b grows fits. deriv-sweep-same_scope s t c.x.0 c.rate.0 grows fits };

    fn reads(&self, store: &Store) -> u32 {
        store.known();
        3 * store.slices() + 1
    }

    fn read(&self, store: &Store, i: u32) -> CellId {
        store.known();
        let slices = store.slices();
        if i <= slices {
            return store.gate(self.x, i);
        }
        let first = store.gate(self.rate, 0);
        CellId(first.0 + (i - slices))
    }

    fn writes(&self, store: &Store) -> u32 {
        writes_by_parts(self, store)
    }

    fn written(&self, store: &Store, i: u32) -> CellId {
        written_by_parts(self, store, i)
    }

    fn revise<L: Ledger>(&self, store: &mut Store, steps: &mut Steps<L>) -> Revised {
        steps.tick();
        revise_all(self, store)
    }

    fn still<L: Ledger>(&self, store: &Store, steps: &mut Steps<L>) -> bool {
        steps.tick();
        still_all(self, store)
    }
}

impl Parted for DerivSweep {
    ghost use Rattle.std.specs.Prelude.{refl};
    ghost use Rattle.ctc_deriv.specs.Derivs.{deriv_projections, deriv_scope};
    ghost use Rattle.ctc_deriv.specs.DerivLaws.{deriv-reads_only, deriv-same_projections};
    ghost use Rattle.ctc_sweeps.specs.SliceSweeps.{slices_of};
    ghost use Rattle.ctc_sweeps.specs.SliceSweepLaws.{same-slices};
    ghost use Rattle.ctc_sweeps.specs.DerivSweeps.{DerivSweepFits};
    ghost use Rattle.ctc_sweeps.specs.DerivSweepLaws.{deriv-in_scope, deriv-slice-fits};

    ghost parts = { λ c s. slices_of s };

    ghost part = { λ c s i. deriv_projections s c.x.0 c.rate.0 i };

    ghost part_scope = { λ c s i. deriv_scope s c.x.0 c.rate.0 i };

    ghost whole = { λ c s. refl };

    ghost part_reads = { λ c s i below. deriv-reads_only (λ xs. DerivSweepFits s c.x.0 c.rate.0) s c.x.0 c.rate.0 i };

    ghost part_in_scope = { λ c s i k below among. deriv-in_scope s c.x.0 c.rate.0 i k below among };

    ghost same_parts = { λ c s t b grows fits. same-slices s t grows };

    ghost same_part = { λ c s t b i grows fits below. deriv-same_projections s t c.x.0 c.rate.0 i grows (deriv-slice-fits s c.x.0 c.rate.0 i fits below) };

    fn parts(&self, store: &Store) -> u32 {
        store.slices()
    }

    fn reach(&self, store: &Store, cell: CellId) -> Range<u32> {
        let own = slices_at_gate(store, self.x, cell);
        let rates = slice_of_rate(store, self.rate, cell);
        own.start.min(rates.start)..own.end.max(rates.end)
    }

    fn revise_marked<L: Ledger>(
        &self,
        store: &mut Store,
        marks: &mut [bool],
        within: Range<u32>,
        steps: &mut Steps<L>,
    ) -> Revised {
        steps.tick();
        sweep_by_parts(self, store, marks, within)
    }

    fn still_marked<L: Ledger>(
        &self,
        store: &Store,
        marks: &[bool],
        within: Range<u32>,
        steps: &mut Steps<L>,
    ) -> bool {
        steps.tick();
        still_by_parts(self, store, marks, within)
    }
}
