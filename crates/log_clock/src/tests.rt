//! Clocks that are cut.

use crate::Clock;
use int_interval::Interval;
use std::test::Fail;
use tube_io::NoMemory;

#[test]
fn counts_slices_of_a_clock_without_cuts(rt: HostRuntime) -> Result<(), Fail> {
    let alloc = rt.alloc();
    let mut clock = Clock::start(alloc, 10, 4)?;
    assert_eq!(rt; clock.slices(), 3);
    let ranges = [(0, 0, 1), (4, 4, 2), (5, 7, 1), (-9, 99, 3), (11, 20, 0)];
    for (lo, hi, slices) in ranges {
        let range = Interval::new(lo, hi).ok_or("no interval")?;
        assert_eq!(rt; clock.touching(alloc, range)?, slices);
    }
    Ok(())
}

#[test]
fn starts_without_slices(rt: HostRuntime) -> Result<(), NoMemory> {
    assert_eq!(rt; Clock::new(rt.alloc()).slices(), 0);
    Ok(())
}

#[test]
fn cuts_slices_once(rt: HostRuntime) -> Result<(), Fail> {
    let alloc = rt.alloc();
    let mut clock = Clock::start(alloc, 10, 4)?;
    clock.cut(5);
    clock.cut(4);
    clock.cut(5);
    clock.cut(10);
    assert_eq!(rt; clock.slices(), 4);
    let range = Interval::new(5, 6).ok_or("no interval")?;
    assert_eq!(rt; clock.touching(alloc, range)?, 2);
    let grid = clock.finish(alloc)?;
    assert_eq!(rt; grid.slices(), 4);
    assert_eq!(rt; grid.ticks(), 10);
    Ok(())
}
