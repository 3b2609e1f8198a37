//! The records in their order.

ghost use Rattle.std.specs.Prelude.{◌≡◌, ◌++◌, ◌∷◌, [], IfOk, OnOk};
ghost use Rattle.demo_course.specs.Course.{positions};
ghost use Rattle.demo_spec.specs.Mission.{beacon_of, bounds_of, demo_items, each_until, motions, opening, ping_of, signals};

use crate::record::{beacon, bound, motion, ping, question, signal, start};
use demo_course::{Axis, BEACONS, Course, STRETCHES};
use mission_items::Item;
use std::alloc::Global;
use tube_io::NoMemory;

// How many pings there are.
const PINGS: u32 = 40;

/// All records of a course, where `x` and `y` are its positions.
pub fn records(alloc: Global, course: &Course, x: &[i64], y: &[i64]) -> Result<Vec<Item>, NoMemory>
    requires x { x.now ≡ positions course.now Axis.X }
    requires y { y.now ≡ positions course.now Axis.Y }
    ensures { IfOk result (λ items. items.items ≡ demo_items course.now) }
{
    let mut items = opening(alloc)?;
    push_bounds(&mut items, course)?;
    push_beacons(alloc, &mut items, course)?;
    push_pings(&mut items, course, x, y)?;
    items.push(question())?;
    Ok(items)
}

// The records before the measurements.
fn opening(alloc: Global) -> Result<Vec<Item>, NoMemory>
    ensures { IfOk result (λ items. items.items ≡ opening) }
{
    let mut items = Vec::new(alloc);
    items.push(Item::Head)?;
    push_signals(alloc, &mut items)?;
    push_motions(&mut items)?;
    Ok(items)
}

fn push_signals(alloc: Global, items: &mut Vec<Item>) -> Result<(), NoMemory>
    ensures { OnOk result (items.new.items ≡ items.old.items ++ signals) }
{
    items.push(signal(alloc, b"x", 50_000)?)?;
    items.push(signal(alloc, b"y", 50_000)?)?;
    items.push(signal(alloc, b"u", 25)?)?;
    items.push(signal(alloc, b"v", 25)?)?;
    Ok(())
}

fn push_motions(items: &mut Vec<Item>) -> Result<(), NoMemory>
    ensures { OnOk result (items.new.items ≡ items.old.items ++ motions) }
{
    items.push(motion(Axis::X))?;
    items.push(motion(Axis::Y))?;
    items.push(start(Axis::X))?;
    items.push(start(Axis::Y))?;
    Ok(())
}

fn push_bounds(items: &mut Vec<Item>, course: &Course) -> Result<(), NoMemory>
    ensures { OnOk result (items.new.items ≡ items.old.items ++ each_until (bounds_of course.now) 20) }
{
    for stretch in 0..STRETCHES {
        items.push(bound(course, stretch, Axis::X))?;
        items.push(bound(course, stretch, Axis::Y))?;
    }
    Ok(())
}

fn push_beacons(alloc: Global, items: &mut Vec<Item>, course: &Course) -> Result<(), NoMemory>
    ensures { OnOk result (items.new.items ≡ items.old.items ++ each_until (λ i. beacon_of course.now i ∷ []) 5) }
{
    for number in 0..BEACONS {
        items.push(beacon(alloc, course, number)?)?;
    }
    Ok(())
}

fn push_pings(items: &mut Vec<Item>, course: &Course, x: &[i64], y: &[i64]) -> Result<(), NoMemory>
    requires x { x.now ≡ positions course.now Axis.X }
    requires y { y.now ≡ positions course.now Axis.Y }
    ensures { OnOk result (items.new.items ≡ items.old.items ++ each_until (λ i. ping_of course.now i ∷ []) 40) }
{
    for number in 0..PINGS {
        items.push(ping(course, x, y, number))?;
    }
    Ok(())
}
