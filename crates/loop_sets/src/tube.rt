//! What a signal may be at each tick, and what it may change by.

ghost use Rattle.std.specs.Prelude.{◌≡◌, ◌≤◌, ◌<◌, ◌+◌, ℕ, pos, ◌≤ℤ◌, ◌-ℤ◌, IfOk, IfSome, IsSome, length, map, neg_ℤ};
ghost use Rattle.std.specs.Int.{int_max};
ghost use Rattle.tube_spec.specs.Limits.{greatest_bound, greatest_radius, most_ticks};
ghost use Rattle.tube_spec.specs.Span.{IsBounded, sub_of, natural};
ghost use Rattle.tube_spec.specs.Grid.{last_tick};
ghost use Rattle.tube_spec.specs.Box.{AreBounded, cell_at};
ghost use Rattle.hull_tree.specs.Plane.{greatest_abs, change, tube_of};
ghost use Rattle.loop_sets.specs.Tables.{IsSmallNumber, AreSmall, reach_of};

use crate::blocks::Table;
use hull_tree::ticks_of;
use int_interval::Interval;
use std::alloc::{AllocError, Global};
use std::marker::Model;
use tube_store::{SignalId, Store};

/// What a store gives a signal at each tick, from tick 0 to the last, with tables of the lower bounds and of the opposites of the upper ones.
/// A contract sees the intervals.
#[derive(Drop)]
pub(crate) struct Tube {
    ticks: Vec<Interval>,
    lower: Table,
    upper: Table,
}

impl Model for Tube {
    ghost use Rattle.std.specs.Prelude.{◌≡◌, List, map, neg_ℤ};
    ghost use Rattle.tube_spec.specs.Span.{Span};
    ghost use Rattle.tube_spec.specs.Box.{AreBounded};

    ghost Value = { List Span };

    ghost view = { λ t. t.ticks.items };

    ghost invariant = { λ t. AreBounded t.ticks.items × (t.lower ≡ map (λ s. s.lo) t.ticks.items) × (t.upper ≡ map (λ s. neg_ℤ s.hi) t.ticks.items) };
}

impl Tube {
    /// The tube of a signal.
    pub(crate) fn new(alloc: Global, store: &Store, signal: SignalId) -> Result<Tube, AllocError>
        requires filled { IsSome store.now.box }
        requires signal { signal.0 < length store.now.shape.signals }
        ensures tube { IfOk result (λ tube. IfSome store.now.box (λ xs. tube ≡ tube_of store.now.shape xs signal.0)) }
        ensures len { IfOk result (λ tube. length tube ≡ last_tick store.now.shape.grid + 1) }
        ensures short { last_tick store.now.shape.grid ≤ most_ticks }
    {
        let ticks = ticks_of(alloc, store, signal)?;
        let lower = Table::new(alloc, lower_bounds(alloc, &ticks)?)?;
        let upper = Table::new(alloc, upper_bounds(alloc, &ticks)?)?;
        Ok(Tube {
            ticks,
            lower,
            upper,
        })
    }

    /// What it may change by from a tick to another.
    pub(crate) fn change_between(&self, a: u32, b: u32) -> Interval
        requires a { a < length self.now }
        requires b { b < length self.now }
        ensures value { result ≡ change self.now a b }
        ensures bounded { IsBounded 1000000000 result }
    {
        change_between(self.ticks[a as usize], self.ticks[b as usize])
    }

    /// The greatest absolute change from a tick to another.
    pub(crate) fn greatest_change(&self, a: u32, b: u32) -> u64
        requires a { a < length self.now }
        requires b { b < length self.now }
        ensures value { result ≡ greatest_abs (change self.now a b) }
        ensures small { result ≤ greatest_radius }
    {
        greatest_change(self.ticks[a as usize], self.ticks[b as usize])
    }

    /// A distance that the greatest absolute change from a tick to no tick of a range is below.
    pub(crate) fn least_reach(&self, a: u32, first: u32, last: u32) -> u64
        requires a { a < length self.now }
        requires order { first ≤ last }
        requires within { last < length self.now }
        requires short { length self.now ≤ most_ticks + 1 }
        ensures reach { (b : ℕ) → first ≤ b → b ≤ last → result ≤ greatest_abs (change self.now a b) }
        ensures small { result ≤ greatest_radius }
    {
        let at = self.ticks[a as usize];
        let lower = self.lower.over(first as usize, last as usize);
        let upper = self.upper.over(first as usize, last as usize);
        reach(at, lower, upper)
    }
}

/// The lower bounds of intervals.
fn lower_bounds(alloc: Global, ticks: &[Interval]) -> Result<Vec<i64>, AllocError>
    requires { AreBounded ticks.now }
    ensures items { IfOk result (λ v. v.items ≡ map (λ s. s.lo) ticks.now) }
    ensures small { IfOk result (λ v. AreSmall v.items) }
{
    let mut bounds = Vec::with_capacity(alloc, ticks.len())?;
    for tick in ticks {
        tick.known();
        bounds.push(tick.lo())?;
    }
    Ok(bounds)
}

/// The opposites of the upper bounds of intervals.
fn upper_bounds(alloc: Global, ticks: &[Interval]) -> Result<Vec<i64>, AllocError>
    requires { AreBounded ticks.now }
    ensures items { IfOk result (λ v. v.items ≡ map (λ s. neg_ℤ s.hi) ticks.now) }
    ensures small { IfOk result (λ v. AreSmall v.items) }
{
    let mut bounds = Vec::with_capacity(alloc, ticks.len())?;
    for tick in ticks {
        tick.known();
        let opposite = opposite(tick.hi());
        bounds.push(opposite)?;
    }
    Ok(bounds)
}

/// The opposite number.
fn opposite(x: i64) -> i64
    requires { IsSmallNumber x }
    ensures value { result ≡ neg_ℤ x }
    ensures small { IsSmallNumber result }
{
    -x
}

/// The difference of two small numbers.
fn difference(x: i64, y: i64) -> i64
    requires x { IsSmallNumber x }
    requires y { IsSmallNumber y }
    ensures value { result ≡ x -ℤ y }
    ensures most { result ≤ℤ pos greatest_radius }
{
    x - y
}

/// What there may be between a number of one interval and a number of another.
fn change_between(before: Interval, after: Interval) -> Interval
    requires before { IsBounded greatest_bound before }
    requires after { IsBounded greatest_bound after }
    ensures value { result ≡ sub_of after before }
    ensures bounded { IsBounded 1000000000 result }
{
    after.sub(before)
}

/// The greatest distance between a number of one interval and a number of another.
fn greatest_change(before: Interval, after: Interval) -> u64
    requires before { IsBounded greatest_bound before }
    requires after { IsBounded greatest_bound after }
    ensures value { result ≡ greatest_abs (sub_of after before) }
    ensures small { result ≤ greatest_radius }
{
    let change = after.sub(before);
    distance(change.hi(), -change.lo())
}

/// The least of the greatest distances between an interval and others, of which no lower bound is above the one number and no opposite of
/// an upper bound above the other.
fn reach(at: Interval, lower: Option<i64>, upper: Option<i64>) -> u64
    requires at { IsBounded greatest_bound at }
    requires lower { IfSome lower IsSmallNumber }
    requires upper { IfSome upper IsSmallNumber }
    ensures value { result ≡ reach_of at lower upper }
    ensures small { result ≤ greatest_radius }
{
    match (lower, upper) {
        (Some(lower), Some(upper)) => {
            let under = difference(opposite(upper), at.lo());
            let above = difference(at.hi(), lower);
            distance(under, above)
        }
        _ => 0,
    }
}

/// The greater of both, or 0 where both are below.
fn distance(a: i64, b: i64) -> u64
    requires a { a ≤ℤ pos greatest_radius }
    requires b { b ≤ℤ pos greatest_radius }
    ensures value { result ≡ natural (int_max a b) }
    ensures small { result ≤ greatest_radius }
{
    let greater = if a >= b { a } else { b };
    if greater < 0 { 0 } else { greater as u64 }
}
