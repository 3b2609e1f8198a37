//! Settling in turns: two variables that narrow one another by one at a time, until nothing is left.

ghost use Rattle.std.specs.Prelude.{◌≡◌, ◌<◌};

use crate::orders::{add, variables};
use crate::relations::ORDERS;
use ctc_network::{Order, Settled};
use std::alloc::Global;
use std::cell::Cell;
use std::marker::Brand;
use std::rc::Rc;
use std::sync::ledger::{Blank, Ledger};
use std::test::Fail;
use step_count::Steps;

// Settles two variables of 0..1000, each as great as the other and one greater, with a budget of 100 in each turn: the answer, and the measure
// that is left.
fn turned<L: Ledger>(
    blank: Blank,
    alloc: Global,
    order: Order,
    turns: u32,
) -> Result<(Settled, u128), Fail>
    requires turns { 0 < turns }
    requires name { blank.name ≡ L.name }
    requires parts { blank.parts ≡ L.parts }
    requires some { 0 < L.parts }
{
    let bounds = [(0, 1000), (0, 1000)];
    let mut net = variables(alloc, bounds.as_slice())?;
    let list = Rc::new(alloc, Cell::new(0))?;
    add(alloc, &mut net, b"a=b+1", 1, &list)?;
    add(alloc, &mut net, b"b=a", 2, &list)?;
    let mut steps = Steps::<L>::new(blank);
    let answer = net.settle_turns(order, 100, turns, &mut steps);
    Ok((answer, net.store().measure()))
}

// The measure is 2,000 at the start: five turns leave 1,500 at most, and twenty-one cannot all be spent.
#[test]
fn settles_in_turns(rt: HostRuntime) -> Result<(), Fail> {
    for order in ORDERS {
        let (answer, left) = turned::<Brand>(Blank::new(1), rt.alloc(), order, 5)?;
        assert!(rt; matches!(answer, Settled::Spent(_)), "{order:?}");
        assert!(rt; left <= 1500, "{order:?}");
        let (answer, left) = turned::<Brand>(Blank::new(1), rt.alloc(), order, 21)?;
        assert_eq!(rt; answer, Settled::Empty, "{order:?}");
        assert_eq!(rt; left, 0, "{order:?}");
    }
    Ok(())
}
