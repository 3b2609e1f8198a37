//! Intervals of whole numbers, after the interval arithmetic of R. E. Moore
//! ("Interval Analysis", 1966): each call is the exact hull of its definition.
//!
//! An interval is seen in contracts as the span of its two bounds. Bounds are plain
//! whole numbers without a unit: callers use millimetres, ticks, or products of
//! millimetres. No call takes memory.
#![tactic(auto)]

ghost use Rattle.std.specs.Prelude.{◌≡◌, ◌↔◌, ◌≤ℤ◌, ◌+ℤ◌, ◌-ℤ◌, ◌*ℤ◌, neg_ℤ, IsTrue, IsSome, IfSome, pos};
ghost use Rattle.std.specs.Int.{int_min, int_max};
ghost use Rattle.tube_spec.specs.Limits.{interval_bound};
ghost use Rattle.tube_spec.specs.Span.{Span, IsProper, IsBounded, IsWithin, Holds, meet_of, join_of, add_of, sub_of, scale_of, width_of};
ghost use Rattle.int_interval.specs.Image.{IsImage, IsImageOfTwo, IsMeeting, IsUnion, int_abs, neg_of, abs_of, min_of, max_of, mul_of, sqr_of};

mod backward;
#[cfg(test)]
mod tests;

use std::marker::Model;

/// The greatest absolute value of a bound.
pub const BOUND: i64 = 4_000_000_000_000_000_000;

/// The whole numbers from `lo` to `hi`, at least one.
#[derive(Clone, Copy, Debug, PartialEq, Eq)]
pub struct Interval {
    lo: i64,
    hi: i64,
}

impl Model for Interval {
    ghost use Rattle.tube_spec.specs.Limits.{interval_bound};
    ghost use Rattle.tube_spec.specs.Span.{Span, IsProper, IsBounded};

    ghost Value = { Span };

    ghost view = { λ a. record { lo = a.lo; hi = a.hi } };

    ghost invariant = { λ a. IsProper (record { lo = a.lo; hi = a.hi }) × IsBounded interval_bound (record { lo = a.lo; hi = a.hi }) };

    ghost inverse = { λ s. record { lo = s.lo; hi = s.hi } };
}

impl Interval {
    /// The interval from `lo` to `hi`. There is none where they are out of order or one
    /// of them is above [`BOUND`] in absolute value.
    pub fn new(lo: i64, hi: i64) -> Option<Interval>
        ensures value { IfSome result (λ r. r ≡ record { lo = lo; hi = hi }) }
        ensures exists { IsSome result ↔ (IsProper (record { lo = lo; hi = hi }) × IsBounded interval_bound (record { lo = lo; hi = hi })) }
    {
        if lo <= hi && -BOUND <= lo && hi <= BOUND {
            Some(Interval { lo, hi })
        } else {
            None
        }
    }

    /// The lower bound, which is a member.
    pub fn lo(self) -> i64
        ensures { result ≡ self.lo }
    {
        self.lo
    }

    /// The upper bound, which is a member.
    pub fn hi(self) -> i64
        ensures { result ≡ self.hi }
    {
        self.hi
    }

    /// The upper bound less the lower one: one less than the number of members.
    pub fn width(self) -> u64
        ensures { result ≡ width_of self }
    {
        (self.hi - self.lo) as u64
    }

    /// Does nothing. Its contract says what holds of every interval: the bounds are in
    /// order, and at most [`BOUND`] in absolute value.
    pub fn known(self)
        ensures proper { IsProper self }
        ensures bounded { IsBounded interval_bound self }
    {
        let _lo = self.lo;
    }

    /// Whether `p` is a member.
    pub fn contains(self, p: i64) -> bool
        ensures { IsTrue result ↔ Holds self p }
    {
        self.lo <= p && p <= self.hi
    }

    /// Whether each member of this interval is a member of `other`.
    pub fn within(self, other: Interval) -> bool
        ensures { IsTrue result ↔ IsWithin self other }
    {
        other.lo <= self.lo && self.hi <= other.hi
    }

    /// The members that both share, if there is one.
    pub fn meet(self, other: Interval) -> Option<Interval>
        ensures value { IfSome result (λ r. r ≡ meet_of self other) }
        ensures exists { IsSome result ↔ IsProper (meet_of self other) }
        ensures shared { IsMeeting self other result }
    {
        let lo = self.lo.max(other.lo);
        let hi = self.hi.min(other.hi);
        if lo <= hi {
            Some(Interval { lo, hi })
        } else {
            None
        }
    }

    /// The least interval that holds both.
    pub fn hull(self, other: Interval) -> Interval
        ensures value { result ≡ join_of self other }
        ensures least { IsUnion self other result }
    {
        Interval {
            lo: self.lo.min(other.lo),
            hi: self.hi.max(other.hi),
        }
    }

    /// The sums of a member of each. They are to stay within [`BOUND`].
    pub fn add(self, other: Interval) -> Interval
        requires { IsBounded interval_bound (add_of self other) }
        ensures value { result ≡ add_of self other }
        ensures image { IsImageOfTwo (λ p q. p +ℤ q) self other result }
    {
        Interval {
            lo: self.lo + other.lo,
            hi: self.hi + other.hi,
        }
    }

    /// The differences of a member of each. They are to stay within [`BOUND`].
    pub fn sub(self, other: Interval) -> Interval
        requires { IsBounded interval_bound (sub_of self other) }
        ensures value { result ≡ sub_of self other }
        ensures image { IsImageOfTwo (λ p q. p -ℤ q) self other result }
    {
        Interval {
            lo: self.lo - other.hi,
            hi: self.hi - other.lo,
        }
    }

    /// The hull of the products of `factor` with a member. It is to stay within [`BOUND`].
    pub fn scale(self, factor: i64) -> Interval
        requires { IsBounded interval_bound (scale_of factor self) }
        ensures value { result ≡ scale_of factor self }
        ensures image { IsImage (λ p. factor *ℤ p) self result }
    {
        Interval::between(factor * self.lo, factor * self.hi)
    }

    /// The opposites of the members.
    pub fn neg(self) -> Interval
        ensures value { result ≡ neg_of self }
        ensures image { IsImage neg_ℤ self result }
    {
        Interval {
            lo: -self.hi,
            hi: -self.lo,
        }
    }

    /// The absolute values of the members.
    pub fn abs(self) -> Interval
        ensures value { result ≡ abs_of self }
        ensures image { IsImage int_abs self result }
    {
        if 0 <= self.lo {
            self
        } else if self.hi <= 0 {
            self.neg()
        } else {
            Interval {
                lo: 0,
                hi: self.hi.max(-self.lo),
            }
        }
    }

    /// The lesser of a member of each.
    pub fn min(self, other: Interval) -> Interval
        ensures value { result ≡ min_of self other }
        ensures image { IsImageOfTwo int_min self other result }
    {
        Interval {
            lo: self.lo.min(other.lo),
            hi: self.hi.min(other.hi),
        }
    }

    /// The greater of a member of each.
    pub fn max(self, other: Interval) -> Interval
        ensures value { result ≡ max_of self other }
        ensures image { IsImageOfTwo int_max self other result }
    {
        Interval {
            lo: self.lo.max(other.lo),
            hi: self.hi.max(other.hi),
        }
    }

    /// The hull of the products of a member of each. There is none where it leaves [`BOUND`].
    pub fn mul(self, other: Interval) -> Option<Interval>
        ensures value { IfSome result (λ r. r ≡ mul_of self other) }
        ensures exists { IsSome result ↔ IsBounded interval_bound (mul_of self other) }
        ensures image { IfSome result (IsImageOfTwo (λ p q. p *ℤ q) self other) }
    {
        let least = other.try_scale(self.lo)?;
        let greatest = other.try_scale(self.hi)?;
        Some(least.hull(greatest))
    }

    /// The hull of the squares of the members. There is none where it leaves [`BOUND`].
    pub fn sqr(self) -> Option<Interval>
        ensures value { IfSome result (λ r. r ≡ sqr_of self) }
        ensures exists { IsSome result ↔ IsBounded interval_bound (sqr_of self) }
        ensures image { IfSome result (IsImage (λ p. p *ℤ p) self) }
    {
        let size = self.abs();
        let lo = size.lo.checked_mul(size.lo)?;
        let hi = size.hi.checked_mul(size.hi)?;
        Interval::new(lo, hi)
    }

    /// The hull of the products of `factor` with a member. There is none where it leaves
    /// [`BOUND`].
    fn try_scale(self, factor: i64) -> Option<Interval>
        ensures value { IfSome result (λ r. r ≡ scale_of factor self) }
        ensures exists { IsSome result ↔ IsBounded interval_bound (scale_of factor self) }
        ensures image { IfSome result (IsImage (λ p. factor *ℤ p) self) }
    {
        let low = factor.checked_mul(self.lo)?;
        let high = factor.checked_mul(self.hi)?;
        Interval::new(low.min(high), low.max(high))
    }

    /// The hull of two numbers, which are at most [`BOUND`] in absolute value.
    fn between(a: i64, b: i64) -> Interval
        requires { IsBounded interval_bound (record { lo = int_min a b; hi = int_max a b }) }
        ensures { result ≡ record { lo = int_min a b; hi = int_max a b } }
    {
        if a <= b {
            Interval { lo: a, hi: b }
        } else {
            Interval { lo: b, hi: a }
        }
    }
}
