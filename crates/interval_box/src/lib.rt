//! Boxes of `N` intervals, as interval analysis takes them (Moore, "Interval Analysis",
//! 1966; Jaulin, Kieffer, Didrit and Walter, "Applied Interval Analysis", 2001): each
//! operation goes coordinate by coordinate, and is exact. `N` is from 1 to 8.
//!
//! A box is seen in contracts as the list of its `N` spans. No call takes memory.
#![tactic(auto)]

ghost use Rattle.std.specs.Prelude.{◌≡◌, ◌<◌, ◌≤◌, ◌↔◌, IsTrue, IsSome, IfSome, slice_get, slice_set, sum_by};
ghost use Rattle.std.specs.Prelude.{Some};
ghost use Rattle.tube_spec.specs.Span.{meet_of, join_of, width_of};
ghost use Rattle.interval_box.specs.Parts.{each_of, EachShares, HoldsPoint};

#[cfg(test)]
mod tests;

use int_interval::Interval;
use std::marker::Model;

/// One interval for each coordinate: the points whose coordinates are members.
#[derive(Debug, Drop)]
pub struct IntervalBox<const N: usize> {
    parts: [Interval; N],
}

impl<const N: usize> Model for IntervalBox<N> {
    ghost use Rattle.std.specs.Prelude.{List};
    ghost use Rattle.tube_spec.specs.Span.{Span};

    ghost Value = { List Span };

    ghost view = { λ b. b.parts };
}

impl<const N: usize> IntervalBox<N> {
    /// The box of these intervals.
    pub fn new(parts: [Interval; N]) -> IntervalBox<N>
        requires some { 1 ≤ N }
        requires few { N ≤ 8 }
        ensures { result ≡ parts.entry }
    {
        IntervalBox { parts }
    }

    /// The interval of coordinate `i`.
    pub fn part(&self, i: usize) -> Interval
        requires some { 1 ≤ N }
        requires few { N ≤ 8 }
        requires coordinate { i < N }
        ensures { slice_get self.now i ≡ Some result }
    {
        self.parts[i]
    }

    /// The points that both share, if there is one.
    pub fn meet(&self, other: &IntervalBox<N>) -> Option<IntervalBox<N>>
        requires some { 1 ≤ N }
        requires few { N ≤ 8 }
        ensures value { IfSome result (λ r. r ≡ each_of meet_of self.now other.now) }
        ensures exists { IsSome result ↔ EachShares self.now other.now }
    {
        let mut parts = self.parts;
        for i in 0..N {
            parts[i] = self.parts[i].meet(other.parts[i])?;
        }
        Some(IntervalBox { parts })
    }

    /// The least box that holds both.
    pub fn hull(&self, other: &IntervalBox<N>) -> IntervalBox<N>
        requires some { 1 ≤ N }
        requires few { N ≤ 8 }
        ensures { result ≡ each_of join_of self.now other.now }
    {
        let mut parts = self.parts;
        for i in 0..N {
            parts[i] = self.parts[i].hull(other.parts[i]);
        }
        IntervalBox { parts }
    }

    /// Whether `point` lies in the box.
    pub fn contains(&self, point: &[i64; N]) -> bool
        requires some { 1 ≤ N }
        requires few { N ≤ 8 }
        ensures { IsTrue result ↔ HoldsPoint self.now point.now }
    {
        for i in 0..N {
            if !self.parts[i].contains(point[i]) {
                return false;
            }
        }
        true
    }

    /// The sum of the widths of all intervals.
    pub fn width_sum(&self) -> u128
        requires some { 1 ≤ N }
        requires few { N ≤ 8 }
        ensures { result ≡ sum_by width_of self.now }
    {
        let mut sum: u128 = 0;
        for i in 0..N {
            sum += self.parts[i].width() as u128;
        }
        sum
    }

    /// Makes `interval` the interval of coordinate `i`, and keeps all others.
    pub fn set(&mut self, i: usize, interval: Interval)
        requires some { 1 ≤ N }
        requires few { N ≤ 8 }
        requires coordinate { i < N }
        ensures { self.new ≡ slice_set self.old i interval }
    {
        self.parts[i] = interval;
    }
}
