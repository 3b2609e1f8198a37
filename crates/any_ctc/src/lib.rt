//! The contractors of all kinds as one type, and the constraints that they stand for: a table of what the crates of the kinds define and prove.
#![tactic(auto)]

use ctc_constell::ConstellCtc;
use ctc_core::{Contractor, Revised};
use ctc_delay::{DelayFrom, DelayShift, DelayTo};
use ctc_deriv::BoundCtc;
use ctc_dist::DistCtc;
use ctc_eval::EvalCtc;
use ctc_parts::{Parted, revise_whole, still_whole};
use ctc_sweeps::{DerivSweep, SliceSweep};
use expr_hc4::ExprCtc;
use std::ops::Range;
use std::sync::ledger::Ledger;
use step_count::Steps;
use tube_store::{CellId, Store};

/// A contractor of one of the kinds that records make. Each call is passed on to the contractor within.
#[derive(Drop)]
pub enum AnyCtc {
    /// All slices of a signal.
    Slices(SliceSweep),
    /// A signal and its rate over all slices.
    Derivs(DerivSweep),
    /// A measured range of a signal over ticks.
    Bound(BoundCtc),
    /// The value of a signal at a time.
    Eval(EvalCtc),
    /// A signal and a later one, forward.
    DelayTo(DelayTo),
    /// A signal and a later one, backward.
    DelayFrom(DelayFrom),
    /// A signal and a later one, by the delay.
    DelayShift(DelayShift),
    /// Two points of the plane at a distance.
    Dist2(DistCtc<2>),
    /// Two points of space at a distance.
    Dist3(DistCtc<3>),
    /// A point of the plane that is one of several marks.
    Constell(ConstellCtc<2>),
    /// A formula at a gate, at an envelope, or once.
    Expr(ExprCtc),
}

impl Contractor for AnyCtc {
    ghost use Rattle.any_ctc.specs.Constraints.{IsOf};
    ghost use Rattle.any_ctc.specs.Contractors.{constraint_of, any_projections, any_scope};
    ghost use Rattle.any_ctc.specs.ConstraintLaws.{constraint-monotone, constraint-reads_only, constraint-in_store, constraint-more, constraint-same_projections, constraint-same_scope};

    ghost projections = { any_projections };

    ghost scope = { any_scope };

    ghost fits = { λ c s b. IsOf s (constraint_of c) };

    ghost monotone = { λ c s. constraint-monotone (λ xs. IsOf s (constraint_of c)) (constraint_of c) s };

    ghost reads_only = { λ c s. constraint-reads_only (constraint_of c) s };

    ghost fits_local = { λ c s xs ys same fits. fits };

    ghost fits_below = { λ c s a b low fits. fits };

    ghost in_store = { λ c s b shape fits. constraint-in_store (constraint_of c) s shape fits };

    ghost fits_more = { λ c s t b more grows fits. constraint-more (constraint_of c) s t grows fits };

    ghost same_projections = { λ c s t b grows fits. constraint-same_projections (constraint_of c) s t grows fits };

    ghost same_scope = { λ c s t b grows fits. constraint-same_scope (constraint_of c) s t grows fits };

    fn reads(&self, store: &Store) -> u32 {
        match self {
            AnyCtc::Slices(c) => c.reads(store),
            AnyCtc::Derivs(c) => c.reads(store),
            AnyCtc::Bound(c) => c.reads(store),
            AnyCtc::Eval(c) => c.reads(store),
            AnyCtc::DelayTo(c) => c.reads(store),
            AnyCtc::DelayFrom(c) => c.reads(store),
            AnyCtc::DelayShift(c) => c.reads(store),
            AnyCtc::Dist2(c) => c.reads(store),
            AnyCtc::Dist3(c) => c.reads(store),
            AnyCtc::Constell(c) => c.reads(store),
            AnyCtc::Expr(c) => c.reads(store),
        }
    }

    fn read(&self, store: &Store, i: u32) -> CellId {
        match self {
            AnyCtc::Slices(c) => c.read(store, i),
            AnyCtc::Derivs(c) => c.read(store, i),
            AnyCtc::Bound(c) => c.read(store, i),
            AnyCtc::Eval(c) => c.read(store, i),
            AnyCtc::DelayTo(c) => c.read(store, i),
            AnyCtc::DelayFrom(c) => c.read(store, i),
            AnyCtc::DelayShift(c) => c.read(store, i),
            AnyCtc::Dist2(c) => c.read(store, i),
            AnyCtc::Dist3(c) => c.read(store, i),
            AnyCtc::Constell(c) => c.read(store, i),
            AnyCtc::Expr(c) => c.read(store, i),
        }
    }

    fn writes(&self, store: &Store) -> u32 {
        match self {
            AnyCtc::Slices(c) => c.writes(store),
            AnyCtc::Derivs(c) => c.writes(store),
            AnyCtc::Bound(c) => c.writes(store),
            AnyCtc::Eval(c) => c.writes(store),
            AnyCtc::DelayTo(c) => c.writes(store),
            AnyCtc::DelayFrom(c) => c.writes(store),
            AnyCtc::DelayShift(c) => c.writes(store),
            AnyCtc::Dist2(c) => c.writes(store),
            AnyCtc::Dist3(c) => c.writes(store),
            AnyCtc::Constell(c) => c.writes(store),
            AnyCtc::Expr(c) => c.writes(store),
        }
    }

    fn written(&self, store: &Store, i: u32) -> CellId {
        match self {
            AnyCtc::Slices(c) => c.written(store, i),
            AnyCtc::Derivs(c) => c.written(store, i),
            AnyCtc::Bound(c) => c.written(store, i),
            AnyCtc::Eval(c) => c.written(store, i),
            AnyCtc::DelayTo(c) => c.written(store, i),
            AnyCtc::DelayFrom(c) => c.written(store, i),
            AnyCtc::DelayShift(c) => c.written(store, i),
            AnyCtc::Dist2(c) => c.written(store, i),
            AnyCtc::Dist3(c) => c.written(store, i),
            AnyCtc::Constell(c) => c.written(store, i),
            AnyCtc::Expr(c) => c.written(store, i),
        }
    }

    fn revise<L: Ledger>(&self, store: &mut Store, steps: &mut Steps<L>) -> Revised {
        match self {
            AnyCtc::Slices(c) => c.revise(store, steps),
            AnyCtc::Derivs(c) => c.revise(store, steps),
            AnyCtc::Bound(c) => c.revise(store, steps),
            AnyCtc::Eval(c) => c.revise(store, steps),
            AnyCtc::DelayTo(c) => c.revise(store, steps),
            AnyCtc::DelayFrom(c) => c.revise(store, steps),
            AnyCtc::DelayShift(c) => c.revise(store, steps),
            AnyCtc::Dist2(c) => c.revise(store, steps),
            AnyCtc::Dist3(c) => c.revise(store, steps),
            AnyCtc::Constell(c) => c.revise(store, steps),
            AnyCtc::Expr(c) => c.revise(store, steps),
        }
    }

    fn still<L: Ledger>(&self, store: &Store, steps: &mut Steps<L>) -> bool {
        match self {
            AnyCtc::Slices(c) => c.still(store, steps),
            AnyCtc::Derivs(c) => c.still(store, steps),
            AnyCtc::Bound(c) => c.still(store, steps),
            AnyCtc::Eval(c) => c.still(store, steps),
            AnyCtc::DelayTo(c) => c.still(store, steps),
            AnyCtc::DelayFrom(c) => c.still(store, steps),
            AnyCtc::DelayShift(c) => c.still(store, steps),
            AnyCtc::Dist2(c) => c.still(store, steps),
            AnyCtc::Dist3(c) => c.still(store, steps),
            AnyCtc::Constell(c) => c.still(store, steps),
            AnyCtc::Expr(c) => c.still(store, steps),
        }
    }
}

impl Parted for AnyCtc {
    ghost use Rattle.any_ctc.specs.Contractors.{constraint_of};
    ghost use Rattle.any_ctc.specs.Parts.{constraint_parts, constraint_part, constraint_part_scope};
    ghost use Rattle.any_ctc.specs.PartLaws.{constraint-whole, constraint-part_reads, constraint-part_in_scope, constraint-same_parts, constraint-same_part};

    ghost parts = { λ c s. constraint_parts s (constraint_of c) };

    ghost part = { λ c s. constraint_part s (constraint_of c) };

    ghost part_scope = { λ c s. constraint_part_scope s (constraint_of c) };

    ghost whole = { λ c s. constraint-whole (constraint_of c) s };

    ghost part_reads = { λ c s i below. constraint-part_reads (constraint_of c) s i below };

    ghost part_in_scope = { λ c s i k below among. constraint-part_in_scope (constraint_of c) s i k below among };

    ghost same_parts = { λ c s t b grows fits. constraint-same_parts (constraint_of c) s t grows };

    ghost same_part = { λ c s t b i grows fits below. constraint-same_part (constraint_of c) s t i grows fits below };

    fn parts(&self, store: &Store) -> u32 {
        match self {
            AnyCtc::Slices(c) => c.parts(store),
            AnyCtc::Derivs(c) => c.parts(store),
            AnyCtc::Bound(_) => 1,
            AnyCtc::Eval(_) => 1,
            AnyCtc::DelayTo(_) => 1,
            AnyCtc::DelayFrom(_) => 1,
            AnyCtc::DelayShift(_) => 1,
            AnyCtc::Dist2(_) => 1,
            AnyCtc::Dist3(_) => 1,
            AnyCtc::Constell(_) => 1,
            AnyCtc::Expr(_) => 1,
        }
    }

    fn reach(&self, store: &Store, cell: CellId) -> Range<u32> {
        match self {
            AnyCtc::Slices(c) => c.reach(store, cell),
            AnyCtc::Derivs(c) => c.reach(store, cell),
            AnyCtc::Bound(_) => 0..1,
            AnyCtc::Eval(_) => 0..1,
            AnyCtc::DelayTo(_) => 0..1,
            AnyCtc::DelayFrom(_) => 0..1,
            AnyCtc::DelayShift(_) => 0..1,
            AnyCtc::Dist2(_) => 0..1,
            AnyCtc::Dist3(_) => 0..1,
            AnyCtc::Constell(_) => 0..1,
            AnyCtc::Expr(_) => 0..1,
        }
    }

    fn revise_marked<L: Ledger>(
        &self,
        store: &mut Store,
        marks: &mut [bool],
        within: Range<u32>,
        steps: &mut Steps<L>,
    ) -> Revised {
        match self {
            AnyCtc::Slices(c) => c.revise_marked(store, marks, within, steps),
            AnyCtc::Derivs(c) => c.revise_marked(store, marks, within, steps),
            AnyCtc::Bound(c) => revise_whole(c, store, marks, within, steps),
            AnyCtc::Eval(c) => revise_whole(c, store, marks, within, steps),
            AnyCtc::DelayTo(c) => revise_whole(c, store, marks, within, steps),
            AnyCtc::DelayFrom(c) => revise_whole(c, store, marks, within, steps),
            AnyCtc::DelayShift(c) => revise_whole(c, store, marks, within, steps),
            AnyCtc::Dist2(c) => revise_whole(c, store, marks, within, steps),
            AnyCtc::Dist3(c) => revise_whole(c, store, marks, within, steps),
            AnyCtc::Constell(c) => revise_whole(c, store, marks, within, steps),
            AnyCtc::Expr(c) => revise_whole(c, store, marks, within, steps),
        }
    }

    fn still_marked<L: Ledger>(
        &self,
        store: &Store,
        marks: &[bool],
        within: Range<u32>,
        steps: &mut Steps<L>,
    ) -> bool {
        match self {
            AnyCtc::Slices(c) => c.still_marked(store, marks, within, steps),
            AnyCtc::Derivs(c) => c.still_marked(store, marks, within, steps),
            AnyCtc::Bound(c) => still_whole(c, store, marks, within, steps),
            AnyCtc::Eval(c) => still_whole(c, store, marks, within, steps),
            AnyCtc::DelayTo(c) => still_whole(c, store, marks, within, steps),
            AnyCtc::DelayFrom(c) => still_whole(c, store, marks, within, steps),
            AnyCtc::DelayShift(c) => still_whole(c, store, marks, within, steps),
            AnyCtc::Dist2(c) => still_whole(c, store, marks, within, steps),
            AnyCtc::Dist3(c) => still_whole(c, store, marks, within, steps),
            AnyCtc::Constell(c) => still_whole(c, store, marks, within, steps),
            AnyCtc::Expr(c) => still_whole(c, store, marks, within, steps),
        }
    }
}
