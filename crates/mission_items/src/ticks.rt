//! The ranges of times from one tick to another.

ghost use Rattle.std.specs.Prelude.{◌≡◌, ◌≤◌};
ghost use Rattle.mission_items.specs.Made.{ticks_from};

use int_interval::Interval;

/// The range of a time from a tick to another.
pub fn ticks_from(first: u32, last: u32) -> Interval
    requires { first ≤ last }
    ensures { result ≡ ticks_from first last }
{
    match Interval::new(i64::from(first), i64::from(last)) {
        Some(ticks) => ticks,
        None => unreachable!(),
    }
}
