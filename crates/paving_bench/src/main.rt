//! Paves the plane of tick pairs of a path, so that `bench/paving` can time it. The words are the path and its last tick:
//!
//! - `still`: two signals that stay at 0, in slices of ten ticks;
//! - `alternating`: a signal at 0 and 10 in turn, so that each possible pair is a run of its own;
//! - `crossing`: a path of four straight legs, ten millimetres a tick and known to 60 either way, that crosses itself once and
//!   ends where its last leg began;
//! - `returning`: a path out and back the same way, known as well, so that it is near itself all along.
//!
//! It prints how many runs, sets and pairs are possible.
#![tactic(auto)]

ghost use Rattle.std.specs.Prelude.{◌≡◌, ◌<◌};

use hull_tree::{HullTree, Norm, Query};
use int_interval::Interval;
use slice_gates::Grid;
use std::alloc::Global;
use std::env;
use std::marker::Brand;
use std::process::ExitCode;
use std::rt::Env;
use std::sync::ledger::{Blank, Ledger};
use step_count::Steps;
use tplane_paver::{Component, PaveFault, Runs, components, pave};
use tube_store::{SignalId, Store};

/// A path of two signals.
#[derive(Clone, Copy)]
enum Path {
    Still,
    Alternating,
    Crossing,
    Returning,
}

/// The components of the possible pairs, or that there are too many runs.
enum Paved {
    Sets(Vec<Component>),
    Crowded,
}

// Where a path is at a tick: x, y, and how well both are known.
fn place(path: Path, tick: u32, last: u32) -> (i64, i64, i64) {
    let leg = (last / 4).max(1);
    let along = i64::from(tick % leg).saturating_mul(10);
    let whole = i64::from(leg).saturating_mul(10);
    let half = whole.saturating_div(2);
    match (path, tick / leg) {
        (Path::Still, _) => (0, 0, 0),
        (Path::Alternating, _) => (i64::from(tick % 2).saturating_mul(10), 0, 0),
        (Path::Crossing, 0) => (along.saturating_sub(half), 0, 60),
        (Path::Crossing, 1) => (half, along.saturating_neg(), 60),
        (Path::Crossing, 2) => (
            half.saturating_sub(along.saturating_div(2)),
            whole.saturating_neg(),
            60,
        ),
        (Path::Crossing, _) => (0, along.saturating_mul(2).saturating_sub(whole), 60),
        (Path::Returning, _) => {
            let back = last.saturating_sub(tick);
            (i64::from(tick.min(back)).saturating_mul(10), 0, 60)
        }
    }
}

// The ranges around a place.
fn known(at: i64, margin: i64) -> Option<Interval> {
    Interval::new(at.saturating_sub(margin), at.saturating_add(margin))
}

// Narrows both signals at a tick to where the path is.
fn put(store: &mut Store, path: Path, tick: u32, last: u32) -> Option<()> {
    let (x, y, margin) = place(path, tick, last);
    for (signal, at) in [(SignalId(0), x), (SignalId(1), y)] {
        if store.is_empty() || signal.0 >= store.signals() || tick > store.slices() {
            return None;
        }
        store.narrow(store.gate(signal, tick), known(at, margin)?);
    }
    Some(())
}

// Two signals over the clock: those of a path that stays are known as they are declared.
fn store_of(alloc: Global, path: Path, last: u32) -> Option<Store> {
    let (width, declared) = match path {
        Path::Still => (10, Interval::new(0, 0)?),
        _ => (1, Interval::new(-500_000, 500_000)?),
    };
    if last == 0 || last > 20_000 {
        return None;
    }
    let mut store = Store::new(alloc, Grid::uniform(alloc, last, width).ok()?);
    store.add_signal(declared).ok()?;
    store.add_signal(declared).ok()?;
    if width == 1 {
        for tick in 0..last + 1 {
            put(&mut store, path, tick, last)?;
        }
    }
    Some(store)
}

// The possible pairs of the store: those that may be near, within 100 millimetres where the path moves on, and else at the same place.
fn pave_path<L: Ledger>(alloc: Global, store: &Store, path: Path, blank: Blank) -> Option<Paved>
    requires name { blank.name ≡ L.name }
    requires parts { blank.parts ≡ L.parts }
    requires some { 0 < L.parts }
{
    if store.is_empty() || store.signals() < 2 {
        return None;
    }
    let (radius, gap) = match path {
        Path::Crossing | Path::Returning => (100, 1000),
        _ => (0, 1),
    };
    let query = Query {
        x: SignalId(0),
        y: SignalId(1),
        radius,
        gap,
        norm: Norm::Maximum,
    };
    let tree = HullTree::new(alloc, store, &query).ok()?;
    let mut steps = Steps::<L>::new(blank);
    let runs: Runs = match pave(alloc, &tree, &mut steps) {
        Ok(runs) => runs,
        Err(PaveFault::Crowded) => return Some(Paved::Crowded),
        Err(PaveFault::NoMemory) => return None,
    };
    Some(Paved::Sets(components(alloc, &runs).ok()?))
}

// What the words ask for: the path and its last tick.
fn asked(rt: &(impl Env + AllocGlobal)) -> Option<(Path, u32)> {
    let mut words = env::args(rt).ok()?.skip(1);
    let path = match words.next()?.as_str() {
        "still" => Path::Still,
        "alternating" => Path::Alternating,
        "crossing" => Path::Crossing,
        "returning" => Path::Returning,
        _ => return None,
    };
    let last = words.next()?.as_str().parse().ok()?;
    Some((path, last))
}

// The path of the words, paved.
fn answered(alloc: Global, path: Path, last: u32) -> Option<Paved> {
    let store = store_of(alloc, path, last)?;
    pave_path::<Brand>(alloc, &store, path, Blank::new(1))
}

// The runs and pairs of all sets.
fn totals(sets: &[Component]) -> (u64, u64) {
    let mut runs: u64 = 0;
    let mut pairs: u64 = 0;
    for set in sets {
        runs = runs.saturating_add(set.len() as u64);
        pairs = pairs.saturating_add(set.pairs());
    }
    (runs, pairs)
}

fn main(rt: HostRuntime) -> ExitCode {
    let Some((path, last)) = asked(&rt) else {
        return ExitCode::FAILURE;
    };
    let written = match answered(rt.alloc(), path, last) {
        Some(Paved::Sets(sets)) => {
            let (runs, pairs) = totals(sets.as_slice());
            let count = sets.len();
            println!(rt; "sets {count} runs {runs} pairs {pairs}")
        }
        Some(Paved::Crowded) => println!(rt; "crowded"),
        None => return ExitCode::FAILURE,
    };
    match written {
        Ok(()) => ExitCode::SUCCESS,
        Err(_) => ExitCode::FAILURE,
    }
}
