//! Inverse images, by which a constraint narrows an operand from the value: the backward
//! half of the contractor HC4-revise (Benhamou, Goualard, Granvilliers and Puget,
//! "Revising hull and box consistency", 1999), here exact over the whole numbers.

ghost use Rattle.std.specs.Prelude.{◌≡◌, ◌↔◌, ◌≤ℤ◌, ◌+ℤ◌, ◌*ℤ◌, ℤ, pos};
ghost use Rattle.std.specs.Int.{int_min, int_max};
ghost use Rattle.tube_spec.specs.Limits.{interval_bound};
ghost use Rattle.tube_spec.specs.Span.{IsBounded, Holds, point, scale_of};
ghost use Rattle.tube_spec.specs.Hull.{IsHullOf, join_option};
ghost use Rattle.int_interval.specs.Image.{int_abs};
ghost use Rattle.int_interval.specs.Inverse.{Meets, TakesInto, IsSetOf, back_mul_of, back_sqr_of, back_abs_of, back_min_of, back_max_of, back_add_of};

use crate::Interval;

impl Interval {
    /// The hull of the members `p` for which the products of `p` with the numbers from the
    /// lower to the upper bound of `other` reach `product`: where the interval from the
    /// lesser to the greater of the products of `p` with both bounds meets `product`.
    /// There is none where there is no such member.
    pub fn back_mul(self, other: Interval, product: Interval) -> Option<Interval>
        ensures value { result ≡ back_mul_of self other product }
        ensures hull { IsHullOf (λ p. Holds self p × Meets (scale_of p other) product) result }
    {
        join(
            self.factors_from_zero(other, product),
            self.factors_to_zero(other, product),
        )
    }

    /// The hull of the members whose square is in `square`, if there is one.
    pub fn back_sqr(self, square: Interval) -> Option<Interval>
        ensures value { result ≡ back_sqr_of self square }
        ensures hull { IsHullOf (λ p. Holds self p × Holds square (p *ℤ p)) result }
    {
        if square.hi < 0 {
            None
        } else {
            self.on_both_sides(least_root(square.lo), greatest_root(square.hi))
        }
    }

    /// The hull of the members whose absolute value is in `size`, if there is one.
    pub fn back_abs(self, size: Interval) -> Option<Interval>
        ensures value { result ≡ back_abs_of self size }
        ensures hull { IsHullOf (λ p. Holds self p × Holds size (int_abs p)) result }
    {
        self.on_both_sides(size.lo.max(0), size.hi)
    }

    /// The hull of the members `p` for which some `q` of `other` has the lesser of `p` and
    /// `q` in `lesser`, if there is one.
    pub fn back_min(self, other: Interval, lesser: Interval) -> Option<Interval>
        ensures value { result ≡ back_min_of self other lesser }
        ensures hull { IsHullOf (λ p. Holds self p × TakesInto int_min other lesser p) result }
    {
        if other.hi < lesser.lo {
            None
        } else if other.lo <= lesser.hi {
            self.members_from(lesser.lo)
        } else {
            self.members_between(lesser.lo, lesser.hi)
        }
    }

    /// The hull of the members `p` for which some `q` of `other` has the greater of `p` and
    /// `q` in `greater`, if there is one.
    pub fn back_max(self, other: Interval, greater: Interval) -> Option<Interval>
        ensures value { result ≡ back_max_of self other greater }
        ensures hull { IsHullOf (λ p. Holds self p × TakesInto int_max other greater p) result }
    {
        if greater.hi < other.lo {
            None
        } else if greater.lo <= other.hi {
            self.members_up_to(greater.hi)
        } else {
            self.members_between(greater.lo, greater.hi)
        }
    }

    /// The hull of the members `p` for which some `q` of `other` has `p + q` in `sum`, if
    /// there is one.
    pub fn back_add(self, other: Interval, sum: Interval) -> Option<Interval>
        ensures value { result ≡ back_add_of self other sum }
        ensures hull { IsHullOf (λ p. Holds self p × TakesInto (λ p q. p +ℤ q) other sum p) result }
    {
        self.members_between(sum.lo - other.hi, sum.hi - other.lo)
    }

    /// The members from `least` on, if there is one.
    fn members_from(self, least: i64) -> Option<Interval>
        ensures { IsSetOf (λ p. Holds self p × (least ≤ℤ p)) result }
    {
        if self.hi < least {
            None
        } else {
            Some(Interval {
                lo: self.lo.max(least),
                hi: self.hi,
            })
        }
    }

    /// The members up to `greatest`, if there is one.
    fn members_up_to(self, greatest: i64) -> Option<Interval>
        ensures { IsSetOf (λ p. Holds self p × (p ≤ℤ greatest)) result }
    {
        if greatest < self.lo {
            None
        } else {
            Some(Interval {
                lo: self.lo,
                hi: self.hi.min(greatest),
            })
        }
    }

    /// The members from `least` to `greatest`, if there is one.
    fn members_between(self, least: i64, greatest: i64) -> Option<Interval>
        ensures { IsSetOf (λ p. Holds self p × Holds (record { lo = least; hi = greatest }) p) result }
    {
        self.members_from(least)?.members_up_to(greatest)
    }

    /// The hull of the members whose absolute value is from `least`, which is not negative,
    /// to `greatest`.
    fn on_both_sides(self, least: i64, greatest: i64) -> Option<Interval>
        requires from_zero { pos 0 ≤ℤ least }
        requires bounded { IsBounded interval_bound (point greatest) }
        ensures { IsHullOf (λ p. Holds self p × Holds (record { lo = least; hi = greatest }) (int_abs p)) result }
    {
        join(
            self.members_between(-greatest, -least),
            self.members_between(least, greatest),
        )
    }

    /// The members `p` from 0 on with products that reach `product`. They run from `p`
    /// times the lower to `p` times the upper bound of `other`.
    fn factors_from_zero(self, other: Interval, product: Interval) -> Option<Interval>
        ensures { IsSetOf (λ p. (Holds self p × (pos 0 ≤ℤ p)) × Meets (scale_of p other) product) result }
    {
        self.members_from(0)?
            .times_at_most(other.lo, product.hi)?
            .times_at_least(other.hi, product.lo)
    }

    /// The members `p` up to 0 with products that reach `product`. They run from `p` times
    /// the upper to `p` times the lower bound of `other`.
    fn factors_to_zero(self, other: Interval, product: Interval) -> Option<Interval>
        ensures { IsSetOf (λ p. (Holds self p × (p ≤ℤ pos 0)) × Meets (scale_of p other) product) result }
    {
        self.members_up_to(0)?
            .times_at_most(other.hi, product.hi)?
            .times_at_least(other.lo, product.lo)
    }

    /// The members whose product with `factor` is at most `most`.
    fn times_at_most(self, factor: i64, most: i64) -> Option<Interval>
        requires { IsBounded interval_bound (point most) }
        ensures { IsSetOf (λ p. Holds self p × ((p *ℤ factor) ≤ℤ most)) result }
    {
        if 0 < factor {
            self.members_up_to(most.div_euclid(factor))
        } else if factor < 0 {
            self.members_from(most.div_euclid(factor))
        } else if 0 <= most {
            self.known();
            Some(self)
        } else {
            None
        }
    }

    /// The members whose product with `factor` is at least `least`.
    fn times_at_least(self, factor: i64, least: i64) -> Option<Interval>
        requires factor { IsBounded interval_bound (point factor) }
        requires least { IsBounded interval_bound (point least) }
        ensures { IsSetOf (λ p. Holds self p × (least ≤ℤ (p *ℤ factor))) result }
    {
        self.times_at_most(-factor, -least)
    }
}

/// The hull of both, of which each may be nothing.
fn join(one: Option<Interval>, other: Option<Interval>) -> Option<Interval>
    ensures { result ≡ join_option one other }
{
    match (one, other) {
        (Some(a), Some(b)) => Some(a.hull(b)),
        (Some(a), None) => Some(a),
        (None, b) => b,
    }
}

/// The greatest number whose square is at most `n`, which is not negative.
fn greatest_root(n: i64) -> i64
    requires { pos 0 ≤ℤ n }
    ensures bounds { Holds (record { lo = pos 0; hi = pos 4294967295 }) result }
    ensures root { (p : ℤ) → pos 0 ≤ℤ p → ((p *ℤ p) ≤ℤ n) ↔ (p ≤ℤ result) }
{
    (n as u64).isqrt() as i64
}

/// The least number from 0 on whose square is at least `n`.
fn least_root(n: i64) -> i64
    ensures bounds { Holds (record { lo = pos 0; hi = pos 4294967296 }) result }
    ensures root { (p : ℤ) → pos 0 ≤ℤ p → (n ≤ℤ (p *ℤ p)) ↔ (result ≤ℤ p) }
{
    if n <= 0 { 0 } else { greatest_root(n - 1) + 1 }
}
