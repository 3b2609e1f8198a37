//! What a signal may be between two gates of a slice.

ghost use Rattle.std.specs.Prelude.{◌≡◌, ◌≤◌};
ghost use Rattle.tube_spec.specs.Limits.{greatest_bound, most_ticks};
ghost use Rattle.tube_spec.specs.Span.{IsBounded, point, times_of, width_of};
ghost use Rattle.ctc_deriv.specs.Derivs.{between_gates, between_hull, rate_left};
ghost use Rattle.ctc_deriv.specs.Highest.{upper_of, IsGreatest, IsTurn};

use int_interval::Interval;

/// The products of a rate with a number of ticks. They cannot overflow: at most 100,000 times at most 500,000,000 is 5 * 10^13.
pub fn times(rate: Interval, ticks: u32) -> Interval
    requires rate { IsBounded greatest_bound rate }
    requires ticks { ticks ≤ most_ticks }
    ensures value { result ≡ times_of ticks rate }
    ensures bounded { IsBounded 50000000000000 result }
{
    rate.known();
    rate.scale(ticks as i64)
}

/// Where a signal may be some ticks into a slice, by both gates and the rate.
fn between_gates(
    a: Interval,
    b: Interval,
    rate: Interval,
    width: u32,
    ticks: u32,
) -> Option<Interval>
    requires a { IsBounded greatest_bound a }
    requires b { IsBounded greatest_bound b }
    requires rate { IsBounded greatest_bound rate }
    requires width { width ≤ most_ticks }
    requires ticks { ticks ≤ width }
    ensures { result ≡ between_gates a b rate width ticks }
{
    let from_left = a.add(times(rate, ticks));
    let from_right = b.sub(times(rate, width - ticks));
    from_left.meet(from_right)
}

// The greatest number that a signal may be some ticks into a slice, by both gates and the rate.
fn upper_at(a: Interval, b: Interval, rate: Interval, width: u32, ticks: u32) -> i64
    requires a { IsBounded greatest_bound a }
    requires b { IsBounded greatest_bound b }
    requires rate { IsBounded greatest_bound rate }
    requires width { width ≤ most_ticks }
    requires ticks { ticks ≤ width }
    ensures value { result ≡ upper_of a b rate width ticks }
    ensures bounded { IsBounded 60000000000000 (point result) }
{
    let from_left = times(rate, ticks);
    let from_right = times(rate, width - ticks);
    let left = a.hi() + from_left.hi();
    let right = b.hi() - from_right.lo();
    left.min(right)
}

// How many steps fit into a room, at most `width`.
fn turn_at(room: i64, step: u64, width: u32) -> u32
    ensures { IsTurn room step width result }
{
    if room < 0 {
        return 0;
    }
    if step == 0 {
        return width;
    }
    let fitting = room as u64 / step;
    fitting.min(width as u64) as u32
}

// The greatest number that a signal may be over a slice, where some tick leaves it one. From the left gate it rises by the greatest rate, and to the
// right gate it comes by the least: of these two lines, the first is the lesser one up to some tick, and the second from the next one on. Each is
// greatest at an end of its stretch.
fn highest(a: Interval, b: Interval, rate: Interval, width: u32) -> i64
    requires a { IsBounded greatest_bound a }
    requires b { IsBounded greatest_bound b }
    requires rate { IsBounded greatest_bound rate }
    requires width { width ≤ most_ticks }
    ensures greatest { IsGreatest (upper_of a b rate width) width result }
    ensures bounded { IsBounded 60000000000000 (point result) }
{
    a.known();
    b.known();
    rate.known();
    let least = times(rate, width);
    let room = b.hi() - a.hi() - least.lo();
    let turn = turn_at(room, rate.width(), width);
    let start = upper_at(a, b, rate, width, 0);
    let end = upper_at(a, b, rate, width, width);
    let before = upper_at(a, b, rate, width, turn);
    let after = upper_at(a, b, rate, width, (turn + 1).min(width));
    let ends = start.max(end);
    let turns = before.max(after);
    ends.max(turns)
}

/// Where a signal may be over a slice of `width` ticks: the hull, over each number of ticks `k` from 0 to `width`, of the meeting of
/// `a + k * rate` and `b - (width - k) * rate`, with the gates `a` and `b` at its ends. None where no tick leaves a number. The work does not
/// grow with the ticks: they meet at each tick or at none, and four ticks give each bound.
pub fn between_hull(a: Interval, b: Interval, rate: Interval, width: u32) -> Option<Interval>
    requires a { IsBounded greatest_bound a }
    requires b { IsBounded greatest_bound b }
    requires rate { IsBounded greatest_bound rate }
    requires width { width ≤ most_ticks }
    ensures { result ≡ between_hull a b rate width }
{
    a.known();
    b.known();
    rate.known();
    let _first = between_gates(a, b, rate, width, 0)?;
    let above = highest(a, b, rate, width);
    let below = highest(a.neg(), b.neg(), rate.neg(), width);
    Interval::new(-below, above)
}

/// What the gates `a` and `b` of a slice of `width` ticks leave of the rate at one of its ticks: `(b - a) - (width - 1) * rate`.
pub fn rate_left(a: Interval, b: Interval, rate: Interval, width: u32) -> Interval
    requires a { IsBounded greatest_bound a }
    requires b { IsBounded greatest_bound b }
    requires rate { IsBounded greatest_bound rate }
    requires width { width ≤ most_ticks }
    ensures { result ≡ rate_left a b rate width }
{
    let gain = b.sub(a);
    gain.sub(times(rate, width.saturating_sub(1)))
}
