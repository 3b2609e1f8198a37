//! Worked values.

use crate::IntervalBox;
use int_interval::{BOUND, Interval};
use std::process::Abort;

fn make(rt: &impl Abort, lo: i64, hi: i64) -> Interval {
    Interval::new(lo, hi).expect(rt, "bounds in order and within the bound")
}

#[test]
fn goes_by_coordinates(rt: HostRuntime) {
    let a = IntervalBox::new([make(&rt, -3, 8), make(&rt, 0, 5)]);
    let b = IntervalBox::new([make(&rt, 8, 9), make(&rt, -2, 0)]);
    let apart = IntervalBox::new([make(&rt, 0, 9), make(&rt, 6, 6)]);
    assert_eq!(rt; a.part(1), make(&rt, 0, 5));
    assert!(rt; a.meet(&apart).is_none());
    let mut shared = a.meet(&b).expect(&rt, "both hold the point (8, 0)");
    assert_eq!(rt; shared.part(0), make(&rt, 8, 8));
    assert_eq!(rt; shared.part(1), make(&rt, 0, 0));
    shared.set(1, make(&rt, 1, 4));
    assert_eq!(rt; shared.part(0), make(&rt, 8, 8));
    assert_eq!(rt; shared.part(1), make(&rt, 1, 4));
    let both = a.hull(&b);
    assert_eq!(rt; both.part(0), make(&rt, -3, 9));
    assert_eq!(rt; both.part(1), make(&rt, -2, 5));
    assert!(rt; a.contains(&[8, 0]) && !a.contains(&[8, -1]) && !a.contains(&[9, 0]));
    assert_eq!(rt; a.width_sum(), 16);
    let whole = IntervalBox::new([make(&rt, -BOUND, BOUND); 8]);
    assert_eq!(rt; whole.width_sum(), 64_000_000_000_000_000_000);
}
