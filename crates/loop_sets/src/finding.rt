//! What is found of a set: by a sure pair, by the degree, or nothing.

ghost use Rattle.std.specs.Prelude.{◌≡◌, ◌<◌, ◌≤◌, ◌≤ℤ◌, ◌-ℤ◌, pos, All, IsSome, IfSome, IfOk, length, map};
ghost use Rattle.tube_spec.specs.Limits.{greatest_radius, most_runs};
ghost use Rattle.tube_spec.specs.Span.{natural};
ghost use Rattle.hull_tree.specs.Asked.{IsRadius, IsAsked};
ghost use Rattle.hull_tree.specs.Plane.{plane_of};
ghost use Rattle.tube_names.specs.Nearness.{is_near};
ghost use Rattle.tplane_paver.specs.Runs.{AreInOrder};
ghost use Rattle.loop_sets.specs.Sets.{IsComponent};
ghost use Rattle.loop_degree.specs.Boundary.{IsSmall};
ghost use Rattle.loop_sets.specs.Views.{tested};
ghost use Rattle.loop_sets.specs.Finding.{IsFinding, IsTested};

use crate::blocks::Table;
use crate::bounds::{bound_over, steps_of};
use crate::cells::cell_runs;
use crate::sure::least_sure;
use crate::tube::Tube;
use crate::turns::{View, set_turns};
use hull_tree::{Query, is_near};
use std::alloc::{AllocError, Global};
use std::marker::Model;
use tplane_paver::{Component, Run};
use tube_io::NoMemory;
use tube_store::{SignalId, Store};

/// What is found of a set of possible pairs.
#[derive(Clone, Copy, Debug, PartialEq, Eq)]
pub enum Finding {
    /// Its least pair that is surely near.
    Sure(u32, u32),
    /// No pair is surely near, but the labels turn round the boundary of its cells: their degree, which is not 0.
    Degree(i64),
    /// Neither.
    Unproved,
}

/// What is found of the components of a query's possible pairs, in a store. A contract sees the store, the query, and the rates of its signals.
///
/// The tubes of both signals and their greatest steps are kept, with tables: their memory and their time are those of a query, and a set costs
/// what its runs and sides do.
#[derive(Drop)]
pub struct Prover<'a> {
    store: &'a Store,
    query: &'a Query,
    // The rates by which the steps are bounded.
    rates_x: &'a [SignalId],
    rates_y: &'a [SignalId],
    x: Tube,
    y: Tube,
    steps_x: Table,
    steps_y: Table,
}

impl<'a> Model for Prover<'a> {
    ghost use Rattle.std.specs.Prelude.{map};
    ghost use Rattle.loop_sets.specs.Provers.{Asking, IsReady};

    ghost Value = { Asking };

    ghost view = { λ p. record { store = p.store.now; query = p.query.now; rates_x = map (λ r. r.0) p.rates_x.now; rates_y = map (λ r. r.0) p.rates_y.now } };

    ghost invariant = { λ p. IsReady (record { store = p.store.now; query = p.query.now; rates_x = map (λ r. r.0) p.rates_x.now; rates_y = map (λ r. r.0) p.rates_y.now }) p.x p.y p.steps_x p.steps_y };
}

impl<'a> Prover<'a> {
    /// For a query in a store, which is not to be empty: the signals are to be its own, and the radius 0 to 2,000,000,000.
    pub fn new(
        alloc: Global,
        store: &'a Store,
        query: &'a Query,
        rates_x: &'a [SignalId],
        rates_y: &'a [SignalId],
    ) -> Result<Prover<'a>, NoMemory>
        requires filled { IsSome store.now.box }
        requires asked { IsAsked (length store.now.shape.signals) query.now }
        requires rates_x { All (λ r. r.0 < length store.now.shape.signals) rates_x.now }
        requires rates_y { All (λ r. r.0 < length store.now.shape.signals) rates_y.now }
        ensures { IfOk result (λ p. p ≡ record { store = store.now; query = query.now; rates_x = map (λ r. r.0) rates_x.now; rates_y = map (λ r. r.0) rates_y.now }) }
    {
        let x = Tube::new(alloc, store, query.x)?;
        let y = Tube::new(alloc, store, query.y)?;
        let steps_x = steps_of(alloc, store, &x, query.x, rates_x)?;
        let steps_y = steps_of(alloc, store, &y, query.y, rates_y)?;
        Ok(Prover {
            store,
            query,
            rates_x,
            rates_y,
            x,
            y,
            steps_x,
            steps_y,
        })
    }

    /// What is found of a component: its least sure pair; else its degree, where the degree test is met; else nothing. Where it is not
    /// [`Finding::Unproved`], each trajectory in the store that has these rates has a revisit in the set.
    ///
    /// Memory grows with the runs of the set, and labels are asked for at the boundary of its cells alone.
    pub fn finding(&self, alloc: Global, set: &Component) -> Result<Finding, NoMemory>
        requires { IfSome self.now.store.box (λ xs. IsComponent (plane_of self.now.store.shape xs self.now.query) set.now) }
        ensures { IfOk result (λ found. IfSome self.now.store.box (λ xs. IsFinding self.now.store.shape xs self.now.query self.now.rates_x self.now.rates_y set.now found)) }
    {
        let runs = set.runs();
        if let Some((a, b)) = least_sure(&self.x, &self.y, self.query, runs) {
            return Ok(Finding::Sure(a, b));
        }
        match self.degree_of(alloc, runs)? {
            Some(degree) => Ok(Finding::Degree(degree)),
            None => Ok(Finding::Unproved),
        }
    }

    // The degree of the cells of a set, where they meet the degree test.
    fn degree_of(&self, alloc: Global, set: &[Run]) -> Result<Option<i64>, AllocError>
        requires order { AreInOrder set.now }
        requires few { length set.now ≤ most_runs }
        ensures { IfOk result (λ degree. IfSome self.now.store.box (λ xs. IsTested self.now.store.shape xs self.now.query self.now.rates_x self.now.rates_y set.now degree)) }
    {
        self.store.grid().known();
        let ticks = self.store.grid().ticks();
        let cells = cell_runs(alloc, set, ticks, self.query.gap)?;
        let d1 = bound_over(&self.steps_x, &cells);
        let d2 = bound_over(&self.steps_y, &cells);
        let view = View {
            store: self.store,
            query: self.query,
            d1,
            d2,
        };
        let turns = set_turns(&view, &cells);
        Ok(tested(self.query, d1, d2, turns))
    }
}

/// The degree where it is not 0 and the step bounds are near enough.
fn tested(q: &Query, d1: i64, d2: i64, turns: Option<i64>) -> Option<i64>
    requires radius { IsRadius q.now.radius }
    requires d1_least { pos 1 ≤ℤ d1 }
    requires d1_most { d1 ≤ℤ pos greatest_radius }
    requires d2_least { pos 1 ≤ℤ d2 }
    requires d2_most { d2 ≤ℤ pos greatest_radius }
    requires turns { IfSome turns (IsSmall 10000000000000) }
    ensures { result ≡ tested q.now d1 d2 turns }
{
    let degree = turns?;
    if degree == 0 {
        return None;
    }
    if is_reached(q, d1, d2) {
        Some(degree)
    } else {
        None
    }
}

/// Whether both step bounds less one are near.
fn is_reached(q: &Query, d1: i64, d2: i64) -> bool
    requires radius { IsRadius q.now.radius }
    requires d1_least { pos 1 ≤ℤ d1 }
    requires d1_most { d1 ≤ℤ pos greatest_radius }
    requires d2_least { pos 1 ≤ℤ d2 }
    requires d2_most { d2 ≤ℤ pos greatest_radius }
    ensures { result ≡ is_near q.now.norm (natural q.now.radius) (natural (d1 -ℤ pos 1)) (natural (d2 -ℤ pos 1)) }
{
    is_near(q.norm, q.radius as u32, one_less(d1), one_less(d2))
}

/// One less than a step bound.
fn one_less(d: i64) -> u64
    requires least { pos 1 ≤ℤ d }
    requires most { d ≤ℤ pos greatest_radius }
    ensures value { result ≡ natural (d -ℤ pos 1) }
    ensures small { result ≤ greatest_radius }
{
    (d - 1) as u64
}
