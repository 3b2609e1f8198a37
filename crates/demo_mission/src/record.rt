//! The records, one at a time.

ghost use Rattle.std.specs.Prelude.{◌≡◌, ◌<◌, ◌≤◌, ◌≤ℤ◌, ◌+ℤ◌, ◌-ℤ◌, IfOk, pos};
ghost use Rattle.tube_spec.specs.Span.{Holds};
ghost use Rattle.mission_items.specs.declared.item.Item.TheVariants as item;
ghost use Rattle.demo_course.specs.Course.{positions};
ghost use Rattle.demo_course.specs.Laws.{within};
ghost use Rattle.demo_spec.specs.Mission.{around, beacon_name, beacon_of, bound_of, last_of, ping_of, position_signal, question, rate_signal, start_of};

use demo_course::{Axis, BEACONS, Course, LAST_TICK, STRETCHES};
use int_interval::Interval;
use mission_items::Item;
use std::alloc::Global;
use tube_io::{NoMemory, Text};
use tube_names::{Norm, Query};
use tube_store::SignalId;

// The signal of a position along an axis.
fn position_signal(axis: Axis) -> SignalId
    ensures { result ≡ position_signal axis }
{
    match axis {
        Axis::X => SignalId(0),
        Axis::Y => SignalId(1),
    }
}

// The signal of a rate along an axis.
fn rate_signal(axis: Axis) -> SignalId
    ensures { result ≡ rate_signal axis }
{
    match axis {
        Axis::X => SignalId(2),
        Axis::Y => SignalId(3),
    }
}

// The numbers at most `reach` from another.
fn around(reach: i64, middle: i64) -> Interval
    requires reach { Holds (within 50000) reach }
    requires some_reach { pos 0 ≤ℤ reach }
    requires middle { Holds (within 50000) middle }
    ensures { result ≡ record { lo = middle -ℤ reach; hi = middle +ℤ reach } }
{
    Interval::new(middle - reach, middle + reach).unwrap()
}

/// A signal, whose values are at most `reach` from 0.
pub fn signal(alloc: Global, name: &[u8], reach: u32) -> Result<Item, NoMemory>
    requires { reach ≤ 50000 }
    ensures { IfOk result (λ made. made ≡ item.Signal name.now (within reach)) }
{
    Ok(Item::Signal {
        name: Text::new(alloc, name)?,
        range: around(i64::from(reach), 0),
    })
}

/// A position changes by its rate.
pub fn motion(axis: Axis) -> Item
    ensures { result ≡ item.Deriv (position_signal axis) (rate_signal axis) }
{
    Item::Deriv {
        x: position_signal(axis),
        rate: rate_signal(axis),
    }
}

/// The course begins at 0.
pub fn start(axis: Axis) -> Item
    ensures { result ≡ start_of axis }
{
    Item::At {
        x: position_signal(axis),
        tick: 0,
        range: around(0, 0),
    }
}

// The last tick of a stretch.
fn last_of(stretch: u32) -> u32
    requires { stretch < 20 }
    ensures { result ≡ last_of stretch }
{
    if stretch == STRETCHES - 1 {
        LAST_TICK
    } else {
        100 * stretch + 99
    }
}

/// The rate along an axis, as it was measured over a stretch.
pub fn bound(course: &Course, stretch: u32, axis: Axis) -> Item
    requires { stretch < 20 }
    ensures { result ≡ bound_of course.now stretch axis }
{
    Item::Bound {
        x: rate_signal(axis),
        first: 100 * stretch,
        last: last_of(stretch),
        range: around(1, course.rate(axis, stretch)),
    }
}

/// A beacon, as its place was measured.
pub fn beacon(alloc: Global, course: &Course, number: u32) -> Result<Item, NoMemory>
    requires { number < 5 }
    ensures { IfOk result (λ made. made ≡ beacon_of course.now number) }
{
    Ok(Item::Beacon {
        name: Text::new(alloc, &[b'b', b'0' + number as u8])?,
        x: around(2, course.place(Axis::X, number)),
        y: around(2, course.place(Axis::Y, number)),
    })
}

/// A ping, as its distance was measured, where `x` and `y` are the positions.
pub fn ping(course: &Course, x: &[i64], y: &[i64], number: u32) -> Item
    requires x { x.now ≡ positions course.now Axis.X }
    requires y { y.now ≡ positions course.now Axis.Y }
    requires number { number < 40 }
    ensures { result ≡ ping_of course.now number }
{
    let tick = 50 * number + 25;
    let beacon = number % BEACONS;
    let distance = course.distance(x, y, tick, beacon);
    Item::Ping {
        x: position_signal(Axis::X),
        y: position_signal(Axis::Y),
        first: tick - 2,
        last: tick + 2,
        beacon: Some(beacon),
        near: distance.saturating_sub(3) as i64,
        far: (distance + 4) as i64,
    }
}

/// Where may the robot have come back to a place that it left 200 ticks before or more?
pub fn question() -> Item
    ensures { result ≡ question }
{
    Item::Revisit {
        q: Query {
            x: position_signal(Axis::X),
            y: position_signal(Axis::Y),
            radius: 200,
            gap: 200,
            norm: Norm::Maximum,
        },
    }
}
