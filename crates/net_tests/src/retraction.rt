//! A contractor is taken out, and what hung on it is settled again.

ghost use Rattle.std.specs.Prelude.{◌≡◌, ◌<◌};

use crate::orders::{Listed, add, variables};
use crate::relations::{ORDERS, range_from};
use ctc_network::{CtcId, Net, Order, Settled};
use std::alloc::Global;
use std::cell::Cell;
use std::marker::Brand;
use std::rc::Rc;
use std::sync::ledger::{Blank, Ledger};
use std::test::Fail;
use step_count::Steps;
use tube_store::CellId;

// A net of three variables of 0..10 and three relations, whose names are 1, 2 and 3.
fn net_of(alloc: Global, texts: [&[u8]; 3], list: &Rc<Cell<u64>>) -> Result<Net<Listed>, Fail> {
    let bounds = [(0, 10), (0, 10), (0, 10)];
    let mut net = variables(alloc, bounds.as_slice())?;
    let mut name: u64 = 1;
    for text in texts {
        add(alloc, &mut net, text, name, list)?;
        name = name.saturating_add(1);
    }
    Ok(net)
}

// Takes the first contractor out.
fn remove_first(net: &mut Net<Listed>) -> Result<(), Fail> {
    let _taken = net.remove(CtcId(0)).ok_or("no such contractor")?;
    Ok(())
}

// Gives the first two variables back what they were declared with.
fn reset_two(net: &mut Net<Listed>) -> Result<(), Fail> {
    let ten = range_from((0, 10))?;
    if net.store().cells() < 2 || net.store().is_empty() {
        return Err(Fail::from("no such cells"));
    }
    net.known();
    net.reset(&[(CellId(0), ten), (CellId(1), ten)]);
    Ok(())
}

// Gives all three variables back what they were declared with.
fn reset_three(net: &mut Net<Listed>) -> Result<(), Fail> {
    let ten = range_from((0, 10))?;
    if net.store().cells() != 3 {
        return Err(Fail::from("no such cells"));
    }
    net.known();
    net.reset(&[(CellId(0), ten), (CellId(1), ten), (CellId(2), ten)]);
    Ok(())
}

// The bounds of a variable, of those of a box that is not empty.
fn bounds(net: &Net<Listed>, cell: u32) -> Result<(i64, i64), Fail> {
    if cell >= net.store().cells() || net.store().is_empty() {
        return Err(Fail::from("no such cell"));
    }
    let held = net.store().get(CellId(cell));
    Ok((held.lo(), held.hi()))
}

// Of a relation on a, one between a and b and one on c the first is taken out: a and b are reset, the second waits again and is fired alone.
fn linked<L: Ledger>(
    blank: Blank,
    alloc: Global,
    order: Order,
) -> Result<(u64, [(i64, i64); 3]), Fail>
    requires name { blank.name ≡ L.name }
    requires parts { blank.parts ≡ L.parts }
    requires some { 0 < L.parts }
{
    let list = Rc::new(alloc, Cell::new(0))?;
    let mut net = net_of(alloc, [b"a>=5", b"b>=a", b"c>=1"], &list)?;
    let mut steps = Steps::<L>::new(blank);
    let _settled = net.settle(order, 1_000_000, &mut steps);
    remove_first(&mut net)?;
    reset_two(&mut net)?;
    list.set(0);
    let _settled_again = net.settle(order, 1_000_000, &mut steps);
    let left = [bounds(&net, 0)?, bounds(&net, 1)?, bounds(&net, 2)?];
    Ok((list.get(), left))
}

// What is left are the second and the third relation, and the third one is not fired again.
#[test]
fn what_is_linked_is_settled_again(rt: HostRuntime) -> Result<(), Fail> {
    for order in ORDERS {
        let (fired, left) = linked::<Brand>(Blank::new(1), rt.alloc(), order)?;
        assert_eq!(rt; fired, 2, "{order:?}");
        assert_eq!(rt; left, [(0, 10), (0, 10), (1, 10)], "{order:?}");
    }
    Ok(())
}

// Two relations that nothing meets make the box empty; without the first it comes back as a whole.
fn emptied<L: Ledger>(
    blank: Blank,
    alloc: Global,
    order: Order,
) -> Result<(Settled, Settled, [(i64, i64); 3]), Fail>
    requires name { blank.name ≡ L.name }
    requires parts { blank.parts ≡ L.parts }
    requires some { 0 < L.parts }
{
    let list = Rc::new(alloc, Cell::new(0))?;
    let mut net = net_of(alloc, [b"a>=5", b"a<=3", b"b>=a+2"], &list)?;
    let mut steps = Steps::<L>::new(blank);
    let first = net.settle(order, 1_000_000, &mut steps);
    remove_first(&mut net)?;
    reset_three(&mut net)?;
    let second = net.settle(order, 1_000_000, &mut steps);
    let left = [bounds(&net, 0)?, bounds(&net, 1)?, bounds(&net, 2)?];
    Ok((first, second, left))
}

#[test]
fn an_empty_box_comes_back(rt: HostRuntime) -> Result<(), Fail> {
    for order in ORDERS {
        let (first, second, left) = emptied::<Brand>(Blank::new(1), rt.alloc(), order)?;
        assert_eq!(rt; first, Settled::Empty, "{order:?}");
        assert_eq!(rt; second, Settled::Fixpoint, "{order:?}");
        assert_eq!(rt; left, [(0, 3), (2, 10), (0, 10)], "{order:?}");
    }
    Ok(())
}
