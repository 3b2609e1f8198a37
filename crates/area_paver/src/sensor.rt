//! How far a sensor sees along a line.

ghost use Rattle.std.specs.Prelude.{◌≡◌, ◌↔◌, ℕ, ◌+◌, ◌*◌, ◌≤◌, pos, ◌≤ℤ◌, true, false, IfSome, MatchOption};
ghost use Rattle.std.specs.Int.{int_max};
ghost use Rattle.tube_spec.specs.Limits.{greatest_bound, greatest_radius};
ghost use Rattle.tube_spec.specs.Span.{IsBounded, point, sub_of};
ghost use Rattle.tube_names.specs.Nearness.{is_near};
ghost use Rattle.hull_tree.specs.Plane.{least_abs, greatest_abs};

use int_interval::Interval;
use tube_names::Norm;

/// How far a sensor sees, in millimetres, and by which norm.
#[derive(Clone, Copy)]
pub(crate) struct Sensor {
    pub(crate) norm: Norm,
    pub(crate) radius: u32,
}

impl Sensor {
    /// The greatest distance along a line at which it sees, where the line runs past it at a distance. There is none where the line is too
    /// far off.
    pub(crate) fn reach(self, across: u64) -> Option<i64>
        requires radius { self.radius ≤ greatest_radius }
        ensures reach { MatchOption result ((d : ℕ) → is_near self.norm self.radius d across ≡ false) (λ w. (d : ℕ) → (is_near self.norm self.radius d across ≡ true) ↔ (pos d ≤ℤ w)) }
        ensures low { IfSome result (λ w. pos 0 ≤ℤ w) }
        ensures high { IfSome result (λ w. w ≤ℤ pos greatest_radius) }
    {
        let radius = u64::from(self.radius);
        if across > radius {
            return None;
        }
        Some(match self.norm {
            Norm::Maximum => radius as i64,
            Norm::Disc => root(radius, across) as i64,
        })
    }
}

/// The greatest number whose square and that of `across` are at most that of the radius together.
fn root(radius: u64, across: u64) -> u64
    requires radius { radius ≤ greatest_radius }
    requires across { across ≤ radius }
    ensures root { (d : ℕ) → (d * d + across * across ≤ radius * radius) ↔ (d ≤ result) }
    ensures small { result ≤ radius }
{
    (radius * radius - across * across).isqrt()
}

/// The least absolute difference of what an interval holds from a number.
pub(crate) fn least_offset(x: Interval, p: i64) -> u64
    requires x { IsBounded greatest_bound x }
    requires p { IsBounded 2500000000 (point p) }
    ensures { result ≡ least_abs (sub_of x (point p)) }
{
    natural((x.lo() - p).max(p - x.hi()))
}

/// The greatest absolute difference of what an interval holds from a number.
pub(crate) fn greatest_offset(x: Interval, p: i64) -> u64
    requires x { IsBounded greatest_bound x }
    requires p { IsBounded 2500000000 (point p) }
    ensures { result ≡ greatest_abs (sub_of x (point p)) }
{
    natural((x.hi() - p).max(p - x.lo()))
}

/// The number itself from 0 on, and else 0.
fn natural(n: i64) -> u64
    ensures { pos result ≡ int_max n (pos 0) }
{
    if n < 0 { 0 } else { n as u64 }
}
