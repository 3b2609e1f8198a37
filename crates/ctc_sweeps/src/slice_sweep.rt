//! All slices of a signal as one contractor.

ghost use Rattle.std.specs.Prelude.{◌≡◌};

use ctc_core::{Contractor, Formulas, Revised, revise_by_formulas, still_by_formulas};
use ctc_deriv::SliceCtc;
use ctc_parts::{
    Parted, Parts, Visit, revise_all, still_all, still_by_parts, sweep_by_parts, width_at,
    writes_by_parts, written_by_parts,
};
use std::ops::Range;
use std::sync::ledger::Ledger;
use step_count::Steps;
use tube_store::{CellId, SignalId, Store};

/// All slices of a signal, each of which is a part.
#[derive(Clone, Copy, Debug, PartialEq, Eq)]
pub struct SliceSweep {
    /// The signal.
    pub signal: SignalId,
}

impl SliceSweep {
    /// The contractor of all slices of the signal `s`.
    pub fn new(s: SignalId) -> SliceSweep
        ensures { result ≡ record { signal = s } }
    {
        SliceSweep { signal: s }
    }
}

impl Parts for SliceSweep {
    ghost use Rattle.ctc_deriv.specs.Slices.{slice_projections};
    ghost use Rattle.ctc_deriv.specs.SliceLaws.{slice-monotone};
    ghost use Rattle.ctc_sweeps.specs.SliceSweeps.{slices_of, SliceSweepFits};
    ghost use Rattle.ctc_sweeps.specs.SliceSweepLaws.{slice-sweep-few};

    ghost fits = { λ c s b. SliceSweepFits s c.signal.0 };

    ghost parts = { λ c s. slices_of s };

    ghost part = { λ c s i. slice_projections s c.signal.0 i };

    ghost monotone = { λ c s i below. slice-monotone (λ xs. SliceSweepFits s c.signal.0) s c.signal.0 i };

    ghost fits_below = { λ c s a b low fits. fits };

    ghost few = { λ c s b shape fits. slice-sweep-few s c.signal.0 shape };

    fn count(&self, store: &Store) -> u32 {
        store.slices()
    }

    fn part_count(&self, store: &Store, i: u32) -> u32 {
        SliceCtc::new(self.signal, i).count(store)
    }

    fn part_target(&self, store: &Store, i: u32, k: u32) -> CellId {
        SliceCtc::new(self.signal, i).target(store, k)
    }

    fn visit(&self, store: &mut Store, i: u32) -> Visit {
        store.known();
        let left = store.gate(self.signal, i);
        let right = store.gate(self.signal, i + 1);
        let left_width = width_at(store, left);
        let right_width = width_at(store, right);
        let slice = SliceCtc::new(self.signal, i);
        let answer = revise_by_formulas(&slice, store);
        Visit {
            answer,
            before: width_at(store, left) < left_width,
            after: width_at(store, right) < right_width,
            again: false,
        }
    }

    fn is_part_held(&self, store: &Store, i: u32) -> bool {
        store.known();
        let slice = SliceCtc::new(self.signal, i);
        !still_by_formulas(&slice, store)
    }
}

impl Contractor for SliceSweep {
    ghost use Rattle.ctc_sweeps.specs.SliceSweeps.{slice_sweep_projections, slice_sweep_scope, SliceSweepFits};
    ghost use Rattle.ctc_sweeps.specs.SliceSweepLaws.{slice-sweep-monotone, slice-sweep-reads_only, slice-sweep-in_store, slice-sweep-same_projections, slice-sweep-same_scope};
    ghost use Rattle.ctc_deriv.specs.Layout.{signals-more};

    ghost projections = { λ c s. slice_sweep_projections s c.signal.0 };

    ghost scope = { λ c s. slice_sweep_scope s c.signal.0 };

    ghost fits = { λ c s b. SliceSweepFits s c.signal.0 };

    ghost monotone = { λ c s. slice-sweep-monotone (λ xs. SliceSweepFits s c.signal.0) s c.signal.0 };

    ghost reads_only = { λ c s. slice-sweep-reads_only (λ xs. SliceSweepFits s c.signal.0) s c.signal.0 };

    ghost fits_local = { λ c s xs ys same fits. fits };

    ghost fits_below = { λ c s a b low fits. fits };

    ghost in_store = { λ c s b shape fits. slice-sweep-in_store s c.signal.0 shape fits };

    ghost fits_more = { λ c s t b more grows fits. signals-more s t grows c.signal.0 fits };

    ghost same_projections = { λ c s t b grows fits. slice-sweep-same_projections s t c.signal.0 grows fits };

    ghost same_scope = { λ c s t b grows fits. slice-sweep-same_scope s t c.signal.0 grows fits };

    fn reads(&self, store: &Store) -> u32 {
        store.known();
        2 * store.slices() + 1
    }

    fn read(&self, store: &Store, i: u32) -> CellId {
        store.known();
        let first = store.gate(self.signal, 0);
        CellId(first.0 + i)
    }

    fn writes(&self, store: &Store) -> u32 {
        writes_by_parts(self, store)
    }

    fn written(&self, store: &Store, i: u32) -> CellId {
        written_by_parts(self, store, i)
    }

    fn revise<L: Ledger>(&self, store: &mut Store, steps: &mut Steps<L>) -> Revised {
        steps.tick();
        revise_all(self, store)
    }

    fn still<L: Ledger>(&self, store: &Store, steps: &mut Steps<L>) -> bool {
        steps.tick();
        still_all(self, store)
    }
}

impl Parted for SliceSweep {
    ghost use Rattle.std.specs.Prelude.{refl};
    ghost use Rattle.ctc_deriv.specs.Slices.{slice_projections, slice_scope};
    ghost use Rattle.ctc_deriv.specs.SliceLaws.{slice-reads_only, slice-same_projections};
    ghost use Rattle.ctc_sweeps.specs.SliceSweeps.{slices_of, SliceSweepFits};
    ghost use Rattle.ctc_sweeps.specs.SliceSweepLaws.{slice-sweep-in_scope, same-slices, slice-fits};

    ghost parts = { λ c s. slices_of s };

    ghost part = { λ c s i. slice_projections s c.signal.0 i };

    ghost part_scope = { λ c s i. slice_scope s c.signal.0 i };

    ghost whole = { λ c s. refl };

    ghost part_reads = { λ c s i below. slice-reads_only (λ xs. SliceSweepFits s c.signal.0) s c.signal.0 i };

    ghost part_in_scope = { λ c s i k below among. slice-sweep-in_scope s c.signal.0 i k below among };

    ghost same_parts = { λ c s t b grows fits. same-slices s t grows };

    ghost same_part = { λ c s t b i grows fits below. slice-same_projections s t c.signal.0 i grows (slice-fits s c.signal.0 i fits below) };

    fn parts(&self, store: &Store) -> u32 {
        store.slices()
    }

    fn reach(&self, store: &Store, cell: CellId) -> Range<u32> {
        store.known();
        let first = store.gate(self.signal, 0);
        let place = cell.0.saturating_sub(first.0);
        place.saturating_sub(1) / 2..place / 2 + 1
    }

    fn revise_marked<L: Ledger>(
        &self,
        store: &mut Store,
        marks: &mut [bool],
        within: Range<u32>,
        steps: &mut Steps<L>,
    ) -> Revised {
        steps.tick();
        sweep_by_parts(self, store, marks, within)
    }

    fn still_marked<L: Ledger>(
        &self,
        store: &Store,
        marks: &[bool],
        within: Range<u32>,
        steps: &mut Steps<L>,
    ) -> bool {
        steps.tick();
        still_by_parts(self, store, marks, within)
    }
}
