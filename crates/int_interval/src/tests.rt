//! Worked values, computed from the definitions by trying every member.

use crate::{BOUND, Interval};
use std::process::Abort;

type Pair = (i64, i64);

fn make(rt: &impl Abort, (lo, hi): Pair) -> Interval {
    Interval::new(lo, hi).expect(rt, "bounds in order and within the bound")
}

fn bounds(interval: Option<Interval>) -> Option<Pair> {
    interval.map(|found| (found.lo(), found.hi()))
}

#[test]
fn makes_and_compares(rt: HostRuntime) {
    assert_eq!(rt; bounds(Interval::new(-BOUND, BOUND)), Some((-BOUND, BOUND)));
    assert_eq!(rt; Interval::new(3, 2), None);
    assert_eq!(rt; Interval::new(-BOUND - 1, 0), None);
    assert_eq!(rt; Interval::new(0, BOUND + 1), None);
    assert_eq!(rt;
        make(&rt, (-BOUND, BOUND)).width(),
        8_000_000_000_000_000_000
    );
    let a = make(&rt, (-3, 8));
    let b = make(&rt, (1, 5));
    assert!(rt; b.within(a) && !a.within(b));
    assert!(rt; a.contains(-3) && a.contains(8) && !a.contains(9) && !a.contains(-4));
    assert_eq!(rt; bounds(a.meet(make(&rt, (8, 9)))), Some((8, 8)));
    assert_eq!(rt; a.meet(make(&rt, (9, 9))), None);
    assert_eq!(rt; b.hull(make(&rt, (-7, -7))), make(&rt, (-7, 5)));
}

#[test]
fn adds(rt: HostRuntime) {
    let Some(a) = Interval::new(-3, 8) else {
        panic!(rt; "the bounds are in order")
    };
    let Some(b) = Interval::new(1, 5) else {
        panic!(rt; "the bounds are in order")
    };
    assert_eq!(rt; a.add(b), make(&rt, (-2, 13)));
    assert_eq!(rt; a.sub(b), make(&rt, (-8, 7)));
    assert_eq!(rt; a.scale(-4), make(&rt, (-32, 12)));
}

#[test]
fn maps(rt: HostRuntime) {
    for (a, size, opposite, square) in [
        ((-3, 2), (0, 3), (-2, 3), Some((0, 9))),
        ((-5, -2), (2, 5), (2, 5), Some((4, 25))),
        ((2, 3), (2, 3), (-3, -2), Some((4, 9))),
        (
            (-2_000_000_000, 1),
            (0, 2_000_000_000),
            (-1, 2_000_000_000),
            Some((0, BOUND)),
        ),
        (
            (0, 2_000_000_001),
            (0, 2_000_000_001),
            (-2_000_000_001, 0),
            None,
        ),
        ((-BOUND, BOUND), (0, BOUND), (-BOUND, BOUND), None),
    ] {
        let a = make(&rt, a);
        assert_eq!(rt; a.abs(), make(&rt, size));
        assert_eq!(rt; a.neg(), make(&rt, opposite));
        assert_eq!(rt; bounds(a.sqr()), square);
    }
}

#[test]
fn combines(rt: HostRuntime) {
    for (a, b, lesser, greater, product) in [
        ((-2, 3), (-5, 4), (-5, 3), (-2, 4), Some((-15, 12))),
        ((-3, -2), (4, 5), (-3, -2), (4, 5), Some((-15, -8))),
        ((-3, 0), (-2, 7), (-3, 0), (-2, 7), Some((-21, 6))),
        ((2, 3), (-7, -5), (-7, -5), (2, 3), Some((-21, -10))),
        (
            (-BOUND, BOUND),
            (-1, 1),
            (-BOUND, 1),
            (-1, BOUND),
            Some((-BOUND, BOUND)),
        ),
        ((-BOUND, BOUND), (1, 2), (-BOUND, 2), (1, BOUND), None),
        (
            (-BOUND, BOUND),
            (-BOUND, BOUND),
            (-BOUND, BOUND),
            (-BOUND, BOUND),
            None,
        ),
    ] {
        let a = make(&rt, a);
        let b = make(&rt, b);
        assert_eq!(rt; a.min(b), make(&rt, lesser));
        assert_eq!(rt; a.max(b), make(&rt, greater));
        assert_eq!(rt; bounds(a.mul(b)), product);
    }
}

#[test]
fn divides(rt: HostRuntime) {
    for (a, other, product, want) in [
        ((-10, 10), (3, 5), (6, 14), Some((2, 4))),
        ((-10, 10), (-2, 3), (7, 9), Some((-10, 10))),
        ((-7, 7), (0, 0), (1, 5), None),
        ((-7, 7), (0, 0), (-1, 5), Some((-7, 7))),
        ((-7, 7), (4, 4), (5, 7), None),
        ((-100, 100), (7, 7), (-20, -8), Some((-2, -2))),
        ((-100, 100), (-7, -7), (-20, -8), Some((2, 2))),
        ((-100, 100), (-7, -7), (8, 20), Some((-2, -2))),
        ((-9, -3), (-4, 2), (10, 10), Some((-9, -3))),
        (
            (-BOUND, BOUND),
            (-BOUND, BOUND),
            (BOUND, BOUND),
            Some((-BOUND, BOUND)),
        ),
        (
            (-BOUND, BOUND),
            (BOUND, BOUND),
            (-BOUND, -BOUND),
            Some((-1, -1)),
        ),
        (
            (-BOUND, BOUND),
            (-BOUND, -BOUND),
            (-BOUND, -1),
            Some((1, 1)),
        ),
        (
            (-BOUND, BOUND),
            (1, 1),
            (BOUND - 1, BOUND),
            Some((BOUND - 1, BOUND)),
        ),
        ((2, BOUND), (BOUND, BOUND), (-BOUND, BOUND), None),
    ] {
        assert_eq!(rt;
            bounds(make(&rt, a).back_mul(make(&rt, other), make(&rt, product))),
            want
        );
    }
}

#[test]
fn takes_roots(rt: HostRuntime) {
    for (a, value, of_square, of_size) in [
        ((-10, 10), (4, 9), Some((-3, 3)), Some((-9, 9))),
        ((0, 10), (4, 10), Some((2, 3)), Some((4, 10))),
        ((-10, 1), (4, 9), Some((-3, -2)), Some((-9, -4))),
        ((-4, 2), (5, 8), None, None),
        ((-10, 10), (-5, -1), None, None),
        ((-10, 10), (-5, 0), Some((0, 0)), Some((0, 0))),
        (
            (-BOUND, BOUND),
            (BOUND, BOUND),
            Some((-2_000_000_000, 2_000_000_000)),
            Some((-BOUND, BOUND)),
        ),
        (
            (0, BOUND),
            (BOUND - 1, BOUND - 1),
            None,
            Some((BOUND - 1, BOUND - 1)),
        ),
        (
            (-BOUND, -2),
            (-BOUND, BOUND),
            Some((-2_000_000_000, -2)),
            Some((-BOUND, -2)),
        ),
    ] {
        assert_eq!(rt; bounds(make(&rt, a).back_sqr(make(&rt, value))), of_square);
        assert_eq!(rt; bounds(make(&rt, a).back_abs(make(&rt, value))), of_size);
    }
}

#[test]
fn undoes(rt: HostRuntime) {
    for (a, other, value, of_min, of_max, of_sum) in [
        (
            (-10, 10),
            (2, 20),
            (4, 6),
            Some((4, 10)),
            Some((-10, 6)),
            Some((-10, 4)),
        ),
        (
            (-10, 10),
            (7, 20),
            (4, 6),
            Some((4, 6)),
            None,
            Some((-10, -1)),
        ),
        ((-10, 10), (0, 3), (4, 6), None, Some((4, 6)), Some((1, 6))),
        ((7, 10), (0, 9), (4, 6), Some((7, 10)), None, None),
        ((-2, 2), (-3, 2), (4, 4), None, None, Some((2, 2))),
        (
            (-BOUND, BOUND),
            (-BOUND, BOUND),
            (BOUND, BOUND),
            Some((BOUND, BOUND)),
            Some((-BOUND, BOUND)),
            Some((0, BOUND)),
        ),
        (
            (-BOUND, BOUND),
            (-BOUND, -BOUND),
            (BOUND, BOUND),
            None,
            Some((BOUND, BOUND)),
            None,
        ),
    ] {
        let a = make(&rt, a);
        let other = make(&rt, other);
        let value = make(&rt, value);
        assert_eq!(rt; bounds(a.back_min(other, value)), of_min);
        assert_eq!(rt; bounds(a.back_max(other, value)), of_max);
        assert_eq!(rt; bounds(a.back_add(other, value)), of_sum);
    }
}
