//! What a contractor of parts is without marks: its firing and its test by all parts, and the cells that it writes.

ghost use Rattle.std.specs.Prelude.{◌≡◌, ◌<◌, ℕ, true, false, IsTrue, IsFalse, IsSome, IfSome, IsSomeAnd, length};
ghost use Rattle.tube_spec.specs.Fixpoint.{IsFixpoint};
ghost use Rattle.ctc_core.specs.Answers.{Revises};
ghost use Rattle.ctc_core.specs.Checking.{Checks};
ghost use Rattle.ctc_core.specs.Given.{projection_at};
ghost use Rattle.ctc_parts.specs.Parts.{each_below};
ghost use Rattle.ctc_parts.specs.Sweeping.{Sweeps};

use crate::parts::Parts;
use ctc_core::{Revised, start};
use tube_store::{CellId, Store};

// Visits each part once, upwards.
fn visit_up<P: Parts>(parts: &P, store: &mut Store) -> Revised
    requires { P.fits parts.now store.old.shape store.old.box }
    ensures { Sweeps (P.parts parts.now store.old.shape) (P.part parts.now store.old.shape) (λ i. true) (P.parts parts.now store.old.shape) store.old store.new result }
{
    let mut answer = start(store);
    for i in 0..parts.count(store) {
        let visit = parts.visit(store, i);
        answer = answer.then(visit.answer);
    }
    answer
}

// Visits each part once, downwards.
fn visit_down<P: Parts>(parts: &P, store: &mut Store) -> Revised
    requires { P.fits parts.now store.old.shape store.old.box }
    ensures { Sweeps (P.parts parts.now store.old.shape) (P.part parts.now store.old.shape) (λ i. false) 0 store.old store.new result }
{
    let mut answer = start(store);
    for i in (0..parts.count(store)).rev() {
        let visit = parts.visit(store, i);
        answer = answer.then(visit.answer);
    }
    answer
}

/// Fires every part, upwards and then downwards.
pub fn revise_all<P: Parts>(parts: &P, store: &mut Store) -> Revised
    requires { P.fits parts.now store.old.shape store.old.box }
    ensures { Revises (each_below (P.part parts.now store.old.shape) (P.parts parts.now store.old.shape)) store.old store.new result }
{
    let up = visit_up(parts, store);
    let down = visit_down(parts, store);
    up.then(down)
}

// Whether the box is stable under each part.
fn is_each_part_held<P: Parts>(parts: &P, store: &Store) -> bool
    requires fits { P.fits parts.now store.now.shape store.now.box }
    requires filled { IsSome store.now.box }
    ensures { Checks (each_below (P.part parts.now store.now.shape) (P.parts parts.now store.now.shape)) store.now.box result }
{
    for i in 0..parts.count(store) {
        if !parts.is_part_held(store, i) {
            return false;
        }
    }
    true
}

/// Whether the box is neither empty nor a fixpoint of the parts.
pub fn still_all<P: Parts>(parts: &P, store: &Store) -> bool
    requires { P.fits parts.now store.now.shape store.now.box }
    ensures yes { IsTrue result → IsSomeAnd store.now.box (λ xs. IsFixpoint (each_below (P.part parts.now store.now.shape) (P.parts parts.now store.now.shape)) xs → ⊥) }
    ensures no { IsFalse result → IfSome store.now.box (IsFixpoint (each_below (P.part parts.now store.now.shape) (P.parts parts.now store.now.shape))) }
{
    store.known();
    if store.is_empty() {
        return false;
    }
    !is_each_part_held(parts, store)
}

/// How many projections all parts have.
pub fn writes_by_parts<P: Parts>(parts: &P, store: &Store) -> u32
    requires { P.fits parts.now store.now.shape store.now.box }
    ensures { result ≡ length (each_below (P.part parts.now store.now.shape) (P.parts parts.now store.now.shape)) }
{
    store.known();
    let mut total = 0;
    for i in 0..parts.count(store) {
        total += parts.part_count(store, i);
    }
    total
}

/// The target of the projection with a number among those of all parts.
pub fn written_by_parts<P: Parts>(parts: &P, store: &Store, i: u32) -> CellId
    requires fits { P.fits parts.now store.now.shape store.now.box }
    requires below { i < length (each_below (P.part parts.now store.now.shape) (P.parts parts.now store.now.shape)) }
    ensures { result.0 ≡ (projection_at (each_below (P.part parts.now store.now.shape) (P.parts parts.now store.now.shape)) i).target }
{
    let mut left = i;
    for k in 0..parts.count(store) {
        let here = parts.part_count(store, k);
        if left < here {
            return parts.part_target(store, k, left);
        }
        left -= here;
    }
    // Not reached.
    CellId(0)
}
