//! The multiples of a step along one coordinate of a window.

ghost use Rattle.std.specs.Prelude.{◌≡◌, ◌↔◌, ℕ, ◌<◌, ◌≤◌, pos, neg_ℤ, ◌≤ℤ◌, ◌+ℤ◌, ◌*ℤ◌};
ghost use Rattle.tube_spec.specs.Span.{IsBounded, point};
ghost use Rattle.area_paver.specs.Lattice.{greatest_step, axis_of, coordinate, count_to, multiple_from, IsAxis};

/// The multiples of a step in a window: the least of them, the step, and how many they are.
#[derive(Clone, Copy)]
pub struct Axis {
    pub first: i64,
    pub step: i64,
    pub count: u64,
}

impl Axis {
    /// The multiples of the step from `low` to `high`.
    pub(crate) fn new(low: i64, high: i64, step: i64) -> Axis
        requires low { IsBounded 2500000000 (point low) }
        requires high { IsBounded 2500000000 (point high) }
        requires step { pos 1 ≤ℤ step }
        requires wide { step ≤ℤ pos greatest_step }
        ensures { result ≡ axis_of step (record { lo = low; hi = high }) }
    {
        let first = multiple_from(step, low);
        Axis {
            first,
            step,
            count: count_to(first, step, high),
        }
    }

    /// The multiple of a number.
    pub(crate) fn at(self, k: u64) -> i64
        requires axis { IsAxis self }
        requires k { k < self.count }
        ensures value { result ≡ coordinate self k }
        ensures small { IsBounded 2500000000 (point result) }
    {
        self.first + times(k, self.step)
    }
}

/// So many steps.
fn times(k: u64, step: i64) -> i64
    requires k { k ≤ 8000000001 }
    requires product { IsBounded 8000000000 (point (pos k *ℤ step)) }
    ensures { result ≡ pos k *ℤ step }
{
    k as i64 * step
}

/// The least multiple of a step that is not below a number.
fn multiple_from(step: i64, low: i64) -> i64
    requires step { pos 1 ≤ℤ step }
    requires wide { step ≤ℤ pos greatest_step }
    requires low { IsBounded 2500000000 (point low) }
    ensures value { result ≡ multiple_from step low }
    ensures small { IsBounded 3500000000 (point result) }
{
    low + (-low).rem_euclid(step)
}

/// How many of `first`, `first + step` and so on are not above `high`.
pub(crate) fn count_to(first: i64, step: i64, high: i64) -> u64
    requires step { pos 1 ≤ℤ step }
    requires first { IsBounded 4000000000 (point first) }
    requires high { IsBounded 4000000000 (point high) }
    ensures count { result ≡ count_to first step high }
    ensures points { (k : ℕ) → (k < result) ↔ ((first +ℤ (pos k *ℤ step)) ≤ℤ high) }
    ensures small { result ≤ 8000000001 }
{
    count_by(first, step, high)
}

/// The same by its formula.
fn count_by(first: i64, step: i64, high: i64) -> u64
    requires step { pos 1 ≤ℤ step }
    requires first { IsBounded 4000000000 (point first) }
    requires high { IsBounded 4000000000 (point high) }
    ensures count { result ≡ count_to first step high }
    ensures small { result ≤ 8000000001 }
{
    let last = (high - first).div_euclid(step);
    if last < 0 { 0 } else { last as u64 + 1 }
}
