//! Squares of differences and of distances, forward and backward.

ghost use Rattle.std.specs.Prelude.{◌≡◌, ◌≤ℤ◌, pos};
ghost use Rattle.tube_spec.specs.Limits.{greatest_radius, interval_bound};
ghost use Rattle.tube_spec.specs.Span.{IsBounded, IsWithin, point};
ghost use Rattle.int_interval.specs.Image.{sqr_of};
ghost use Rattle.ctc_dist.specs.Distances.{squares_from};

use int_interval::Interval;

/// The number 0 alone.
pub fn zero() -> Interval
    ensures { result ≡ point (pos 0) }
{
    Interval::new(0, 0).unwrap()
}

/// The hull of the squares of a difference of two coordinates. It cannot overflow: coordinates are at most 5 * 10^8 in size, so the
/// difference is at most 10^9 and its square at most 10^18.
pub fn square(difference: Interval) -> Interval
    requires { IsBounded 1000000000 difference }
    ensures value { result ≡ sqr_of difference }
    ensures bounded { IsWithin result (record { lo = pos 0; hi = pos 1000000000000000000 }) }
{
    difference.known();
    difference.sqr().unwrap()
}

/// The squares from that of the least distance to that of the greatest. They cannot overflow: a distance is at most 2 * 10^9 and its
/// square at most 4 * 10^18.
pub fn squares(near: i64, far: i64) -> Interval
    requires from_zero { pos 0 ≤ℤ near }
    requires in_order { near ≤ℤ far }
    requires bounded { far ≤ℤ pos greatest_radius }
    ensures value { result ≡ squares_from near far }
    ensures bounded { IsWithin result (record { lo = pos 0; hi = pos interval_bound }) }
{
    let distances = Interval::new(near, far).unwrap();
    distances.sqr().unwrap()
}
