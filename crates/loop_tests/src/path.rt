//! A path that goes east, south, west and north, and so crosses itself at the ticks 4 and 20.

ghost use Rattle.std.specs.Prelude.{◌≡◌, ◌<◌, ◌≤ℤ◌, ◌↔◌, pos, All, IsSome, IsTrue, length};

use hull_tree::{HullTree, Norm, Query};
use int_interval::Interval;
use loop_degree::is_rising;
use loop_prover::{check_cells, labels_of, step_bound};
use loop_sets::set_cells;
use slice_gates::Grid;
use std::alloc::Global;
use std::marker::Brand;
use std::sync::ledger::{Blank, Ledger};
use std::test::Fail;
use step_count::Steps;
use tplane_paver::{components, pave};
use tube_io::NoMemory;
use tube_store::{SignalId, Store};

// x, y, and what they gain to the next tick.
const PATH: [(i64, i64, i64, i64); 25] = [
    (-40, 0, 10, 0),
    (-30, 0, 10, 0),
    (-20, 0, 10, 0),
    (-10, 0, 10, 0),
    (0, 0, 10, 0),
    (10, 0, 10, 0),
    (20, 0, 10, 0),
    (30, 0, 10, 0),
    (40, 0, 0, -10),
    (40, -10, 0, -10),
    (40, -20, 0, -10),
    (40, -30, 0, -10),
    (40, -40, -10, 0),
    (30, -40, -10, 0),
    (20, -40, -10, 0),
    (10, -40, -10, 0),
    (0, -40, 0, 10),
    (0, -30, 0, 10),
    (0, -20, 0, 10),
    (0, -10, 0, 10),
    (0, 0, 0, 10),
    (0, 10, 0, 10),
    (0, 20, 0, 10),
    (0, 30, 0, 10),
    (0, 40, 0, 10),
];

// Holds a signal's gate near a number, where there is such a gate.
fn hold(store: &mut Store, x: SignalId, gate: usize, at: i64, near: i64) {
    if store.is_empty() || x.0 >= store.signals() || gate > store.slices() as usize {
        return;
    }
    if let Some(to) = Interval::new(at.saturating_sub(near), at.saturating_add(near)) {
        let cell = store.gate(x, gate as u32);
        store.narrow(cell, to);
    }
}

// A store of x, y and their rates u and v, in which both places are known to 6 either way and both rates exactly.
fn store_of_the_path(alloc: Global) -> Result<Store, Fail> {
    let mut store = Store::new(alloc, Grid::uniform(alloc, 24, 1)?);
    for _ in 0..4 {
        store.add_signal(Interval::new(-100, 100).ok_or("range")?)?;
    }
    for (tick, at) in PATH.iter().enumerate() {
        hold(&mut store, SignalId(0), tick, at.0, 6);
        hold(&mut store, SignalId(1), tick, at.1, 6);
        hold(&mut store, SignalId(2), tick, at.2, 0);
        hold(&mut store, SignalId(3), tick, at.3, 0);
    }
    Ok(store)
}

// The cells of the one set of a query.
fn cells_of<L: Ledger>(
    blank: Blank,
    alloc: Global,
    store: &Store,
    q: &Query,
) -> Result<Vec<(u32, u32)>, Fail>
    requires name { blank.name ≡ L.name }
    requires parts { blank.parts ≡ L.parts }
    requires some { 0 < L.parts }
    requires filled { IsSome store.now.box }
    requires x { q.now.x.0 < length store.now.shape.signals }
    requires y { q.now.y.0 < length store.now.shape.signals }
    requires radius { pos 0 ≤ℤ q.now.radius }
    requires small { q.now.radius ≤ℤ pos 2000000000 }
{
    let mut steps = Steps::<L>::new(blank);
    let tree = HullTree::new(alloc, store, q)?;
    let runs = pave(alloc, &tree, &mut steps)?;
    let sets = components(alloc, &runs)?;
    if sets.len() != 1 {
        return Err("sets".into());
    }
    Ok(set_cells(alloc, &sets[0], store.grid().ticks(), q.gap)?)
}

// Whether all numbers of the cells are below a tick.
fn are_within(cells: &[(u32, u32)], last: u32) -> bool
    ensures { IsTrue result ↔ All (λ c. (c.0 < last) × (c.1 < last)) cells.now }
{
    cells.iter().all(|c| c.0 < last && c.1 < last)
}

// How many corners the boundary of cells has in a store, and the degree of their labels; none where a corner has no label, the store is
// empty or lacks a signal, or the cells don't rise or end at its last tick.
fn labelled(
    alloc: Global,
    cells: &[(u32, u32)],
    store: &Store,
    q: &Query,
    rates: (SignalId, SignalId),
) -> Result<Option<(usize, Option<i64>)>, NoMemory> {
    let count = store.signals();
    let named = q.x.0 < count && q.y.0 < count && rates.0.0 < count && rates.1.0 < count;
    if store.is_empty() || !named || !is_rising(cells) {
        return Ok(None);
    }
    if !are_within(cells, store.grid().ticks()) || !are_within(cells, 100_000) {
        return Ok(None);
    }
    let d1 = step_bound(cells, store, q.x, &[rates.0]);
    let d2 = step_bound(cells, store, q.y, &[rates.1]);
    match labels_of(alloc, cells, store, q, d1, d2)? {
        Some(labels) => Ok(Some((labels.len(), check_cells(cells, &labels)))),
        None => Ok(None),
    }
}

// Both step bounds are 10, by the rates; 36 cells have 24 corners on their boundary, whose labels turn once, against the order of the sides.
#[test]
fn a_path_that_crosses_itself(rt: HostRuntime) -> Result<(), Fail> {
    let store = store_of_the_path(rt.alloc())?;
    let query = Query {
        x: SignalId(0),
        y: SignalId(1),
        radius: 10,
        gap: 8,
        norm: Norm::Maximum,
    };
    assert!(rt; !store.is_empty() && store.signals() == 4);
    let cells = cells_of::<Brand>(Blank::new(1), rt.alloc(), &store, &query)?;
    assert_eq!(rt; cells.len(), 36);
    let rates = (SignalId(2), SignalId(3));
    let found = labelled(rt.alloc(), &cells, &store, &query, rates)?;
    assert_eq!(rt; found, Some((24, Some(-1))));
    Ok(())
}
