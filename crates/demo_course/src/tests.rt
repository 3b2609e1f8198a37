//! Courses of some seeds, and what they keep.

use crate::{Axis, BEACONS, Course, LAST_TICK, STRETCHES, whole_root};
use std::process::Abort;
use std::test::Fail;

// The numbers of seed 7, worked by another program from the definition.
const FIRST_RATES: [i64; 20] = [
    15, -15, -4, -5, -8, -5, 12, -20, -19, 10, -20, -13, -7, 8, 9, -2, -1, -12, 8, -6,
];

const SECOND_RATES: [i64; 20] = [
    -11, 15, -6, 14, 2, -20, -12, -12, 11, 13, 8, 0, 6, 8, -8, -8, -8, 7, 20, 15,
];

const FIRST_PLACES: [i64; 5] = [-17483, -509, 1396, -17665, 2783];

const SECOND_PLACES: [i64; 5] = [-14018, -15754, 1617, -8869, 9825];

fn check_rates(rt: &impl Abort, course: &Course, axis: Axis, wanted: &[i64; 20]) {
    for stretch in 0..STRETCHES {
        assert_eq!(rt; course.rate(axis, stretch), wanted[stretch as usize]);
    }
}

fn check_places(rt: &impl Abort, course: &Course, axis: Axis, wanted: &[i64; 5]) {
    for beacon in 0..BEACONS {
        assert_eq!(rt; course.place(axis, beacon), wanted[beacon as usize]);
    }
}

#[test]
fn draws_rates_and_places(rt: HostRuntime) -> Result<(), Fail> {
    let course = Course::new(rt.alloc(), 7)?;
    check_rates(&rt, &course, Axis::X, &FIRST_RATES);
    check_rates(&rt, &course, Axis::Y, &SECOND_RATES);
    check_places(&rt, &course, Axis::X, &FIRST_PLACES);
    check_places(&rt, &course, Axis::Y, &SECOND_PLACES);
    Ok(())
}

#[test]
fn follows_the_rates(rt: HostRuntime) -> Result<(), Fail> {
    let course = Course::new(rt.alloc(), 7)?;
    let x = course.positions(rt.alloc(), Axis::X)?;
    let y = course.positions(rt.alloc(), Axis::Y)?;
    assert_eq!(rt; x.len(), LAST_TICK as usize + 1);
    assert_eq!(rt; y.len(), LAST_TICK as usize + 1);
    let rows = [
        (0, 0, 0),
        (100, 1500, -1100),
        (1025, -4400, -400),
        (1999, -7494, 3385),
        (2000, -7500, 3400),
    ];
    for (tick, first, second) in rows {
        assert_eq!(rt; x.get(tick).copied(), Some(first));
        assert_eq!(rt; y.get(tick).copied(), Some(second));
    }
    Ok(())
}

#[test]
fn takes_whole_distances(rt: HostRuntime) -> Result<(), Fail> {
    let course = Course::new(rt.alloc(), 7)?;
    let x = course.positions(rt.alloc(), Axis::X)?;
    let y = course.positions(rt.alloc(), Axis::Y)?;
    let rows = [
        (25, 0, 22533),
        (75, 1, 15018),
        (125, 2, 2357),
        (1975, 4, 12203),
    ];
    for (tick, beacon, wanted) in rows {
        assert_eq!(rt; course.distance(&x, &y, tick, beacon), wanted);
    }
    Ok(())
}

#[test]
fn rounds_roots_down(rt: HostRuntime) {
    let rows = [
        (0, 0),
        (1, 1),
        (3, 1),
        (4, 2),
        (8, 2),
        (9, 3),
        (18446744065119617024, 4294967294),
        (18446744065119617025, 4294967295),
        (18446744073709551615, 4294967295),
    ];
    for (n, wanted) in rows {
        assert_eq!(rt; whole_root(n), wanted);
    }
}
