//! Bounds over a range of ticks, and the least and the greatest distance of two ranges.

ghost use Rattle.std.specs.Prelude.{◌≡◌, ◌≤◌, pos, ◌≤ℤ◌};
ghost use Rattle.std.specs.Int.{int_max};
ghost use Rattle.tube_spec.specs.Span.{natural};
ghost use Rattle.hull_tree.specs.Judging.{bounds_of, both, least_gap, greatest_gap, IsSmall};

use int_interval::Interval;

/// The least and the greatest of the lower bounds and of the upper ones, over a range of ticks.
#[derive(Clone, Copy, Debug, PartialEq, Eq)]
pub struct Bounds {
    pub least_lower: i64,
    pub greatest_lower: i64,
    pub least_upper: i64,
    pub greatest_upper: i64,
}

/// The bounds of one tick.
pub fn hull_of(x: Interval) -> Bounds
    ensures { result ≡ bounds_of x }
{
    Bounds {
        least_lower: x.lo(),
        greatest_lower: x.lo(),
        least_upper: x.hi(),
        greatest_upper: x.hi(),
    }
}

/// The bounds over two ranges.
pub fn join(p: Bounds, q: Bounds) -> Bounds
    ensures { result ≡ both p q }
{
    Bounds {
        least_lower: p.least_lower.min(q.least_lower),
        greatest_lower: p.greatest_lower.max(q.greatest_lower),
        least_upper: p.least_upper.min(q.least_upper),
        greatest_upper: p.greatest_upper.max(q.greatest_upper),
    }
}

/// A distance that no two ticks of the ranges are surely nearer than.
pub fn least_gap(p: Bounds, q: Bounds) -> u64
    requires p { IsSmall p }
    requires q { IsSmall q }
    ensures gap { result ≡ least_gap p q }
    ensures small { result ≤ 1000000000 }
{
    distance(
        p.least_lower - q.greatest_upper,
        q.least_lower - p.greatest_upper,
    )
}

/// A distance within which any two ticks of the ranges may come.
pub fn greatest_gap(p: Bounds, q: Bounds) -> u64
    requires p { IsSmall p }
    requires q { IsSmall q }
    ensures gap { result ≡ greatest_gap p q }
    ensures small { result ≤ 1000000000 }
{
    distance(
        p.greatest_lower - q.least_upper,
        q.greatest_lower - p.least_upper,
    )
}

/// The greater of both, or 0 where both are below.
fn distance(a: i64, b: i64) -> u64
    requires a { a ≤ℤ pos 1000000000 }
    requires b { b ≤ℤ pos 1000000000 }
    ensures value { result ≡ natural (int_max a b) }
    ensures small { result ≤ 1000000000 }
{
    let greater = if a >= b { a } else { b };
    if greater < 0 { 0 } else { greater as u64 }
}
