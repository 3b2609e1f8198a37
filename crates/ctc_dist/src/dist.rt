//! The contractor of a distance between two points.

ghost use Rattle.std.specs.Prelude.{◌≡◌, ◌+◌, [], ◌∷◌, ◌++◌, ◌<◌, ◌≤◌, ◌≤ℤ◌, IsSome, IfSome, length, option_map, slice_index, pos};
ghost use Rattle.tube_spec.specs.Limits.{greatest_bound, greatest_radius};
ghost use Rattle.tube_spec.specs.Span.{IsBounded, IsWithin, add_of, sub_of};
ghost use Rattle.tube_spec.specs.Narrowing.{narrowing_of};
ghost use Rattle.tube_spec.specs.Box.{cell_at};
ghost use Rattle.ctc_core.specs.Answers.{Revises};
ghost use Rattle.ctc_core.specs.Given.{narrowing_given};
ghost use Rattle.tube_names.specs.Points.{numbers, cells_of};
ghost use Rattle.ctc_dist.specs.Fixed.{fixed};
ghost use Rattle.ctc_dist.specs.Distances.{DistFits, dist_projections, difference, square_but, other_squares, offset_of, squares_from, forth, back};

use super::squares::{square, squares, zero};
use ctc_core::{Contractor, Formulas, Given, Revised, hold, start, still_by_formulas};
use int_interval::Interval;
use std::sync::ledger::Ledger;
use step_count::Steps;
use tube_store::{CellId, Store, VarId};

/// Two points of `N` coordinates, 2 or 3, of which the distance lies from `near` to `far`.
#[derive(Clone, Copy, Debug, PartialEq, Eq)]
pub struct DistCtc<const N: usize> {
    /// The variables of one point, one a coordinate.
    pub p: [VarId; N],
    /// The variables of the other point.
    pub b: [VarId; N],
    /// The least distance, in the unit of the variables.
    pub near: i64,
    /// The greatest distance.
    pub far: i64,
}

// The interval of a variable.
fn value(store: &Store, var: VarId) -> Interval
    requires named { var.0 < length store.now.shape.vars }
    requires filled { IsSome store.now.box }
    ensures value { IfSome store.now.box (λ xs. result ≡ cell_at xs (slice_index store.now.shape.vars var.0)) }
    ensures bounded { IsBounded greatest_bound result }
{
    store.get(store.var(var))
}

// A value and what is left of the difference to another one, where anything is left.
fn more_by(value: Interval, offset: Option<Interval>) -> Option<Interval>
    requires value { IsBounded greatest_bound value }
    requires offset { IfSome offset (IsBounded 1000000000) }
    ensures { result ≡ option_map (add_of value) offset }
{
    match offset {
        Some(offset) => Some(value.add(offset)),
        None => None,
    }
}

// A value less that.
fn less_by(value: Interval, offset: Option<Interval>) -> Option<Interval>
    requires value { IsBounded greatest_bound value }
    requires offset { IfSome offset (IsBounded 1000000000) }
    ensures { result ≡ option_map (sub_of value) offset }
{
    match offset {
        Some(offset) => Some(value.sub(offset)),
        None => None,
    }
}

// The other value and that, and the one value less that.
fn both_by(
    one: Interval,
    other: Interval,
    offset: Option<Interval>,
) -> (Option<Interval>, Option<Interval>)
    requires one { IsBounded greatest_bound one }
    requires other { IsBounded greatest_bound other }
    requires offset { IfSome offset (IsBounded 1000000000) }
    ensures forth { result.0 ≡ option_map (add_of other) offset }
    ensures back { result.1 ≡ option_map (sub_of one) offset }
{
    match offset {
        Some(offset) => (Some(other.add(offset)), Some(one.sub(offset))),
        None => (None, None),
    }
}

// An interval, or nothing, as what a formula gives.
fn given_of(hull: Option<Interval>) -> Given
    ensures { narrowing_given result ≡ narrowing_of hull }
{
    match hull {
        Some(hull) => Given::Within(hull),
        None => Given::Nothing,
    }
}

// Holds a variable by an interval, or by nothing, where the box is not empty.
fn hold_by(store: &mut Store, var: VarId, to: Option<Interval>) -> Revised
    requires { var.0 < length store.old.shape.vars }
    ensures { Revises (fixed (slice_index store.old.shape.vars var.0) to ∷ []) store.old store.new result }
{
    store.known();
    if store.is_empty() {
        return Revised::Empty;
    }
    let cell = store.var(var);
    hold(store, cell, to)
}

impl<const N: usize> DistCtc<N> {
    /// The contractor of the points `p` and `b`, of which the distance lies from `near` to `far`.
    pub fn new(p: [VarId; N], b: [VarId; N], near: i64, far: i64) -> DistCtc<N>
        requires some { 2 ≤ N }
        requires few { N ≤ 3 }
        requires from_zero { pos 0 ≤ℤ near }
        requires in_order { near ≤ℤ far }
        requires bounded { far ≤ℤ pos greatest_radius }
        ensures { result ≡ record { p = p.entry; b = b.entry; near = near; far = far } }
    {
        DistCtc { p, b, near, far }
    }

    // What the points differ by in coordinate `i`.
    fn difference(&self, store: &Store, i: usize) -> Interval
        requires fits { DistFits store.now.shape (numbers self.now.p) (numbers self.now.b) self.now.near self.now.far }
        requires filled { IsSome store.now.box }
        requires coordinate { i < N }
        ensures value { let s = store.now.shape in IfSome store.now.box (λ xs. result ≡ difference (cells_of s (numbers self.now.p)) (cells_of s (numbers self.now.b)) xs i) }
        ensures bounded { IsBounded 1000000000 result }
    {
        value(store, self.p[i]).sub(value(store, self.b[i]))
    }

    // The square of the difference in coordinate `j`, and 0 where that is `i`.
    fn square_but(&self, store: &Store, i: usize, j: usize) -> Interval
        requires fits { DistFits store.now.shape (numbers self.now.p) (numbers self.now.b) self.now.near self.now.far }
        requires filled { IsSome store.now.box }
        requires coordinate { j < N }
        ensures value { let s = store.now.shape in IfSome store.now.box (λ xs. result ≡ square_but (cells_of s (numbers self.now.p)) (cells_of s (numbers self.now.b)) xs i j) }
        ensures bounded { IsWithin result (record { lo = pos 0; hi = pos 1000000000000000000 }) }
    {
        if j == i {
            zero()
        } else {
            square(self.difference(store, j))
        }
    }

    // The sum of the squares of the differences in the coordinates other than `i`. With at most three coordinates it cannot overflow.
    fn other_squares(&self, store: &Store, i: usize) -> Interval
        requires fits { DistFits store.now.shape (numbers self.now.p) (numbers self.now.b) self.now.near self.now.far }
        requires filled { IsSome store.now.box }
        ensures value { let s = store.now.shape in IfSome store.now.box (λ xs. result ≡ other_squares (cells_of s (numbers self.now.p)) (cells_of s (numbers self.now.b)) xs i) }
        ensures bounded { IsWithin result (record { lo = pos 0; hi = pos 3000000000000000000 }) }
    {
        let mut sum = zero();
        for j in 0..N {
            sum = sum.add(self.square_but(store, i, j));
        }
        sum
    }

    // What is left of the difference in coordinate `i`, if anything is.
    fn offset(&self, store: &Store, i: usize) -> Option<Interval>
        requires fits { DistFits store.now.shape (numbers self.now.p) (numbers self.now.b) self.now.near self.now.far }
        requires filled { IsSome store.now.box }
        requires coordinate { i < N }
        ensures value { let s = store.now.shape in let c = self.now in IfSome store.now.box (λ xs. result ≡ offset_of (cells_of s (numbers c.p)) (cells_of s (numbers c.b)) (squares_from c.near c.far) xs i) }
        ensures bounded { IfSome result (IsBounded 1000000000) }
    {
        let difference = self.difference(store, i);
        let left = squares(self.near, self.far).sub(self.other_squares(store, i));
        difference.back_sqr(left)
    }

    // What coordinate `i` of `p` lies in.
    fn forth(&self, store: &Store, i: usize) -> Given
        requires fits { DistFits store.now.shape (numbers self.now.p) (numbers self.now.b) self.now.near self.now.far }
        requires filled { IsSome store.now.box }
        requires coordinate { i < N }
        ensures { let s = store.now.shape in let c = self.now in IfSome store.now.box (λ xs. narrowing_given result ≡ (forth (cells_of s (numbers c.p)) (cells_of s (numbers c.b)) (squares_from c.near c.far) i).formula xs) }
    {
        given_of(more_by(value(store, self.b[i]), self.offset(store, i)))
    }

    // What coordinate `i` of `b` lies in.
    fn back(&self, store: &Store, i: usize) -> Given
        requires fits { DistFits store.now.shape (numbers self.now.p) (numbers self.now.b) self.now.near self.now.far }
        requires filled { IsSome store.now.box }
        requires coordinate { i < N }
        ensures { let s = store.now.shape in let c = self.now in IfSome store.now.box (λ xs. narrowing_given result ≡ (back (cells_of s (numbers c.p)) (cells_of s (numbers c.b)) (squares_from c.near c.far) i).formula xs) }
    {
        given_of(less_by(value(store, self.p[i]), self.offset(store, i)))
    }

    // Fires the projections of coordinate `i`, on `p` and on `b`. What is left of their difference is found once.
    fn fire_both(&self, store: &mut Store, i: usize) -> Revised
        requires fits { DistFits store.old.shape (numbers self.now.p) (numbers self.now.b) self.now.near self.now.far }
        requires coordinate { i < N }
        ensures { let s = store.old.shape in let c = self.now in
            let p = cells_of s (numbers c.p) in let b = cells_of s (numbers c.b) in let q = squares_from c.near c.far in
            Revises (forth p b q i ∷ back p b q i ∷ []) store.old store.new result }
    {
        store.known();
        if store.is_empty() {
            return Revised::Empty;
        }
        let one = value(store, self.p[i]);
        let other = value(store, self.b[i]);
        let offset = self.offset(store, i);
        let (forth, back) = both_by(one, other, offset);
        let first = hold_by(store, self.p[i], forth);
        let second = hold_by(store, self.b[i], back);
        first.then(second)
    }

    // Fires each projection once, coordinate by coordinate.
    fn fire(&self, store: &mut Store) -> Revised
        requires { DistFits store.old.shape (numbers self.now.p) (numbers self.now.b) self.now.near self.now.far }
        ensures { Revises (dist_projections store.old.shape (numbers self.now.p) (numbers self.now.b) self.now.near self.now.far) store.old store.new result }
    {
        let mut answer = start(store);
        for i in 0..N {
            let next = self.fire_both(store, i);
            answer = answer.then(next);
        }
        answer
    }

    // The variable with a number of those of both points.
    fn var(&self, i: u32) -> VarId
        requires some { 2 ≤ N }
        requires few { N ≤ 3 }
        requires below { i < N + N }
        ensures { result.0 ≡ slice_index (numbers self.now.p ++ numbers self.now.b) i }
    {
        let i = i as usize;
        if i < N { self.p[i] } else { self.b[i - N] }
    }
}

impl<const N: usize> Formulas for DistCtc<N> {
    ghost use Rattle.tube_names.specs.Points.{numbers};
    ghost use Rattle.ctc_dist.specs.Distances.{dist_projections, DistFits};
    ghost use Rattle.ctc_dist.specs.DistLaws.{dist-monotone, dist-in_store};

    ghost projections = { λ c s. dist_projections s (numbers c.p) (numbers c.b) c.near c.far };

    ghost fits = { λ c s b. DistFits s (numbers c.p) (numbers c.b) c.near c.far };

    ghost monotone = { λ c s. dist-monotone (λ xs. DistFits s (numbers c.p) (numbers c.b) c.near c.far) s (numbers c.p) (numbers c.b) c.near c.far };

    ghost fits_below = { λ c s a b low fits. fits };

    ghost in_store = { λ c s b shape fits. (dist-in_store s (numbers c.p) (numbers c.b) c.near c.far shape fits).1 };

    fn count(&self, _store: &Store) -> u32 {
        2 * self.p.len() as u32
    }

    fn target(&self, store: &Store, i: u32) -> CellId {
        store.var(self.var(i))
    }

    fn given(&self, store: &Store, i: u32) -> Given {
        let i = i as usize;
        if i < N {
            self.forth(store, i)
        } else {
            self.back(store, i - N)
        }
    }
}

impl<const N: usize> Contractor for DistCtc<N> {
    ghost use Rattle.tube_names.specs.Points.{numbers};
    ghost use Rattle.ctc_dist.specs.Distances.{dist_projections, dist_scope, DistFits};
    ghost use Rattle.ctc_dist.specs.DistLaws.{dist-monotone, dist-reads_only, dist-in_store, dist-fits_more, dist-same_projections, dist-same_scope};

    ghost projections = { λ c s. dist_projections s (numbers c.p) (numbers c.b) c.near c.far };

    ghost scope = { λ c s. dist_scope s (numbers c.p) (numbers c.b) };

    ghost fits = { λ c s b. DistFits s (numbers c.p) (numbers c.b) c.near c.far };

    ghost monotone = { λ c s. dist-monotone (λ xs. DistFits s (numbers c.p) (numbers c.b) c.near c.far) s (numbers c.p) (numbers c.b) c.near c.far };

    ghost reads_only = { λ c s. dist-reads_only (λ xs. DistFits s (numbers c.p) (numbers c.b) c.near c.far) s (numbers c.p) (numbers c.b) c.near c.far };

    ghost fits_local = { λ c s xs ys same fits. fits };

    ghost fits_below = { λ c s a b low fits. fits };

    ghost in_store = { λ c s b shape fits. dist-in_store s (numbers c.p) (numbers c.b) c.near c.far shape fits };

    ghost fits_more = { λ c s t b more grows fits. dist-fits_more s t (numbers c.p) (numbers c.b) c.near c.far grows fits };

    ghost same_projections = { λ c s t b grows fits. dist-same_projections s t (numbers c.p) (numbers c.b) c.near c.far grows fits };

    ghost same_scope = { λ c s t b grows fits. dist-same_scope s t (numbers c.p) (numbers c.b) c.near c.far grows fits };

    fn reads(&self, store: &Store) -> u32 {
        self.count(store)
    }

    fn read(&self, store: &Store, i: u32) -> CellId {
        store.var(self.var(i))
    }

    fn writes(&self, store: &Store) -> u32 {
        self.count(store)
    }

    fn written(&self, store: &Store, i: u32) -> CellId {
        self.target(store, i)
    }

    fn revise<L: Ledger>(&self, store: &mut Store, steps: &mut Steps<L>) -> Revised {
        steps.tick();
        self.fire(store)
    }

    fn still<L: Ledger>(&self, store: &Store, steps: &mut Steps<L>) -> bool {
        steps.tick();
        still_by_formulas(self, store)
    }
}
