//! Who is fired, in which order, and how often: a contractor of the test writes it down.

ghost use Rattle.std.specs.Prelude.{◌≡◌, ◌<◌, ℕ};

use crate::relations::{ORDERS, have_cells, program, range_from};
use any_ctc::AnyCtc;
use ctc_core::{Contractor, Revised};
use ctc_network::{CtcId, Net, Order, Settled};
use ctc_parts::Parted;
use expr_hc4::{ExprCtc, Place};
use slice_gates::Grid;
use std::alloc::Global;
use std::cell::Cell;
use std::marker::Brand;
use std::ops::Range;
use std::rc::Rc;
use std::sync::ledger::{Blank, Ledger};
use std::test::Fail;
use step_count::Steps;
use tube_store::{CellId, Store};

/// A contractor that passes each call on to another one, counts its firings, and writes its name behind the list of who was fired.
#[derive(Drop)]
pub(crate) struct Listed {
    inner: AnyCtc,
    // A digit, which stands for it in the list.
    name: u64,
    times: Cell<u32>,
    // The names of all that were fired, as the digits of a number; it is cut off at the left.
    list: Rc<Cell<u64>>,
}

impl Listed {
    // Counts a firing, and writes the name behind the list.
    fn note(&self) {
        self.times.set(self.times.get().saturating_add(1));
        let names = self.list.get();
        self.list
            .set(names.wrapping_mul(10).wrapping_add(self.name));
    }
}

impl Contractor for Listed {
    ghost use Rattle.any_ctc.specs.Constraints.{IsOf};
    ghost use Rattle.any_ctc.specs.Contractors.{constraint_of, any_projections, any_scope};
    ghost use Rattle.any_ctc.specs.ConstraintLaws.{constraint-monotone, constraint-reads_only, constraint-in_store, constraint-more, constraint-same_projections, constraint-same_scope};

    ghost projections = { λ c s. any_projections c.inner s };

    ghost scope = { λ c s. any_scope c.inner s };

    ghost fits = { λ c s b. IsOf s (constraint_of c.inner) };

    ghost monotone = { λ c s. constraint-monotone (λ xs. IsOf s (constraint_of c.inner)) (constraint_of c.inner) s };

    ghost reads_only = { λ c s. constraint-reads_only (constraint_of c.inner) s };

    ghost fits_local = { λ c s xs ys same fits. fits };

    ghost fits_below = { λ c s a b low fits. fits };

    ghost in_store = { λ c s b shape fits. constraint-in_store (constraint_of c.inner) s shape fits };

    ghost fits_more = { λ c s t b more grows fits. constraint-more (constraint_of c.inner) s t grows fits };

    ghost same_projections = { λ c s t b grows fits. constraint-same_projections (constraint_of c.inner) s t grows fits };

    ghost same_scope = { λ c s t b grows fits. constraint-same_scope (constraint_of c.inner) s t grows fits };

    fn reads(&self, store: &Store) -> u32 {
        self.inner.reads(store)
    }

    fn read(&self, store: &Store, i: u32) -> CellId {
        self.inner.read(store, i)
    }

    fn writes(&self, store: &Store) -> u32 {
        self.inner.writes(store)
    }

    fn written(&self, store: &Store, i: u32) -> CellId {
        self.inner.written(store, i)
    }

    fn revise<L: Ledger>(&self, store: &mut Store, steps: &mut Steps<L>) -> Revised {
        self.note();
        self.inner.revise(store, steps)
    }

    fn still<L: Ledger>(&self, store: &Store, steps: &mut Steps<L>) -> bool {
        self.inner.still(store, steps)
    }
}

impl Parted for Listed {
    ghost use Rattle.any_ctc.specs.Contractors.{constraint_of};
    ghost use Rattle.any_ctc.specs.Parts.{constraint_parts, constraint_part, constraint_part_scope};
    ghost use Rattle.any_ctc.specs.PartLaws.{constraint-whole, constraint-part_reads, constraint-part_in_scope, constraint-same_parts, constraint-same_part};

    ghost parts = { λ c s. constraint_parts s (constraint_of c.inner) };

    ghost part = { λ c s. constraint_part s (constraint_of c.inner) };

    ghost part_scope = { λ c s. constraint_part_scope s (constraint_of c.inner) };

    ghost whole = { λ c s. constraint-whole (constraint_of c.inner) s };

    ghost part_reads = { λ c s i below. constraint-part_reads (constraint_of c.inner) s i below };

    ghost part_in_scope = { λ c s i k below among. constraint-part_in_scope (constraint_of c.inner) s i k below among };

    ghost same_parts = { λ c s t b grows fits. constraint-same_parts (constraint_of c.inner) s t grows };

    ghost same_part = { λ c s t b i grows fits below. constraint-same_part (constraint_of c.inner) s t i grows fits below };

    fn parts(&self, store: &Store) -> u32 {
        self.inner.parts(store)
    }

    fn reach(&self, store: &Store, cell: CellId) -> Range<u32> {
        self.inner.reach(store, cell)
    }

    fn revise_marked<L: Ledger>(
        &self,
        store: &mut Store,
        marks: &mut [bool],
        within: Range<u32>,
        steps: &mut Steps<L>,
    ) -> Revised {
        self.note();
        self.inner.revise_marked(store, marks, within, steps)
    }

    fn still_marked<L: Ledger>(
        &self,
        store: &Store,
        marks: &[bool],
        within: Range<u32>,
        steps: &mut Steps<L>,
    ) -> bool {
        self.inner.still_marked(store, marks, within, steps)
    }
}

/// Adds the relation of a text over the variables, under a name.
pub(crate) fn add(
    alloc: Global,
    net: &mut Net<Listed>,
    text: &[u8],
    name: u64,
    list: &Rc<Cell<u64>>,
) -> Result<(), Fail> {
    let flat = Rc::new(alloc, program(alloc, text)?)?;
    if net.numbers() >= 4_000_000_000 || !have_cells(net.store(), flat.leaves()) {
        return Err(Fail::from("no such cell"));
    }
    net.add(Listed {
        inner: AnyCtc::Expr(ExprCtc::new(flat, Place::Once)),
        name,
        times: Cell::new(0),
        list: list.clone()?,
    })?;
    Ok(())
}

/// A net of variables, with no contractor.
pub(crate) fn variables(alloc: Global, bounds: &[(i64, i64)]) -> Result<Net<Listed>, Fail> {
    let mut net: Net<Listed> = Net::new(alloc, Grid::uniform(alloc, 1, 1)?);
    for range in bounds {
        net.add_var(range_from(*range)?)?;
    }
    Ok(net)
}

// Settles three variables of 0..10 with three relations, whose names are 1, 2 and 3, and gives the list of who was fired.
fn fired<L: Ledger>(
    blank: Blank,
    alloc: Global,
    texts: [&[u8]; 3],
    order: Order,
) -> Result<u64, Fail>
    requires name { blank.name ≡ L.name }
    requires parts { blank.parts ≡ L.parts }
    requires some { 0 < L.parts }
{
    let bounds = [(0, 10), (0, 10), (0, 10)];
    let mut net = variables(alloc, bounds.as_slice())?;
    let list = Rc::new(alloc, Cell::new(0))?;
    let mut name: u64 = 1;
    for text in texts {
        add(alloc, &mut net, text, name, &list)?;
        name = name.saturating_add(1);
    }
    let mut steps = Steps::<L>::new(blank);
    let _answer = net.settle(order, 1_000_000, &mut steps);
    Ok(list.get())
}

// Each of three relations narrows a variable of its own, and then leaves it. At the start all three wait, the first for the longest time;
// whoever is fired first narrows, so that it alone begins to wait. So the first in time goes round; the last in time is at once the one
// that was just fired; and so is the least, from the other side.
#[test]
fn apart(rt: HostRuntime) -> Result<(), Fail> {
    let texts: [&[u8]; 3] = [b"a>=1", b"b>=1", b"c>=1"];
    for (order, list) in [
        (Order::Fifo, 123_123),
        (Order::Lifo, 332_211),
        (Order::Rank, 112_233),
    ] {
        let fired = fired::<Brand>(Blank::new(1), rt.alloc(), texts, order)?;
        assert_eq!(rt; fired, list, "{order:?}");
    }
    Ok(())
}

// The first relation narrows a, from which the second narrows b, from which the third narrows c. First in time: at the first turn each
// narrows, since the one before it did, and at the second none does. Last in time: the third and the second have nothing to narrow yet and
// rest; the first narrows, so that the second and it wait, and of those that a firing wakes the fired one is the last. Least: each is fired
// until it leaves the box.
#[test]
fn in_a_chain(rt: HostRuntime) -> Result<(), Fail> {
    let texts: [&[u8]; 3] = [b"a>=5", b"b>=a", b"c>=b"];
    for (order, list) in [
        (Order::Fifo, 123_123),
        (Order::Lifo, 32_112_233),
        (Order::Rank, 112_233),
    ] {
        let fired = fired::<Brand>(Blank::new(1), rt.alloc(), texts, order)?;
        assert_eq!(rt; fired, list, "{order:?}");
    }
    Ok(())
}

// How many contractors read a variable alone that no other narrows.
const OTHERS: u32 = 1000;

// Two variables that narrow one another down to nothing, one at a time, beside a third one that many contractors read.
fn crowded(alloc: Global) -> Result<Net<Listed>, Fail> {
    let bounds = [(0, 1000), (0, 1000), (0, 10_000)];
    let mut net = variables(alloc, bounds.as_slice())?;
    let list = Rc::new(alloc, Cell::new(0))?;
    add(alloc, &mut net, b"a=b+1", 1, &list)?;
    add(alloc, &mut net, b"b=a", 2, &list)?;
    for _ in 0..OTHERS {
        add(alloc, &mut net, b"c>=0", 3, &list)?;
    }
    Ok(net)
}

// Settles the crowded net: the answer, and how often the one of the others was fired that was fired most.
fn most_fired<L: Ledger>(blank: Blank, alloc: Global, order: Order) -> Result<(Settled, u32), Fail>
    requires name { blank.name ≡ L.name }
    requires parts { blank.parts ≡ L.parts }
    requires some { 0 < L.parts }
{
    let mut net = crowded(alloc)?;
    let mut steps = Steps::<L>::new(blank);
    let answer = net.settle(order, 2001, &mut steps);
    let mut most: u32 = 0;
    for number in 2..OTHERS + 2 {
        if !net.has(CtcId(number)) {
            return Err(Fail::from("no such contractor"));
        }
        let times = net.contractor(CtcId(number)).times.get();
        if times > most {
            most = times;
        }
    }
    Ok((answer, most))
}

// Nobody is fired for a cell that he does not read: a thousand narrowings of other cells, and each of the others was fired once at most.
#[test]
fn nobody_for_what_he_does_not_read(rt: HostRuntime) -> Result<(), Fail> {
    for order in ORDERS {
        let (answer, most) = most_fired::<Brand>(Blank::new(1), rt.alloc(), order)?;
        assert_eq!(rt; answer, Settled::Empty, "{order:?}");
        assert!(rt; most <= 1, "{order:?}");
    }
    Ok(())
}
