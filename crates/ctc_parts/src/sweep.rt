//! A firing and a test by marks.

ghost use Rattle.std.specs.Prelude.{◌≡◌, ◌<◌, ◌≤◌, ℕ, false, true, IsTrue, IsFalse, IsSome, IfSome, IsSomeAnd, slice_index_or};
ghost use Rattle.tube_spec.specs.Fixpoint.{IsFixpoint};
ghost use Rattle.ctc_core.specs.Answers.{Revises, then_of};
ghost use Rattle.ctc_parts.specs.Parts.{each_below, marked_in, AreClean, ChecksFlagged, ChecksMarked};
ghost use Rattle.ctc_parts.specs.Sweeping.{Sweeps, IsTurn};

use crate::marks::{has_flag, set_flags, take_flag};
use crate::parts::{Parts, Visit};
use ctc_core::{Revised, start};
use std::ops::Range;
use tube_store::Store;

// A sweep so far: its answer, and the range outside which no flag is set any more.
#[derive(Clone, Copy)]
struct Sweep {
    answer: Revised,
    first: u32,
    end: u32,
}

impl Sweep {
    // The sweep with one visit more, of part `i`.
    fn and(self, i: u32, visit: Visit) -> Sweep
        ensures answer { result.answer ≡ then_of self.answer visit.answer }
        ensures end { self.end ≤ result.end }
    {
        let mut first = self.first;
        let mut end = self.end;
        if visit.before {
            first = first.min(i.saturating_sub(1));
        }
        if visit.after {
            end = end.max(i.saturating_add(2));
        }
        Sweep {
            answer: self.answer.then(visit.answer),
            first,
            end,
        }
    }
}

// Visits a part where its flag is set, clears the flag, and sets those of the parts that this concerns.
fn visit_flagged<P: Parts>(
    parts: &P,
    store: &mut Store,
    marks: &mut [bool],
    i: u32,
    sweep: Sweep,
) -> Sweep
    requires fits { P.fits parts.now store.old.shape store.old.box }
    requires below { i < P.parts parts.now store.old.shape }
    ensures turn { IsTurn (P.part parts.now store.old.shape i) (slice_index_or marks.old i false) store.old store.new sweep.answer result.answer }
    ensures later { (j : ℕ) → i < j → slice_index_or marks.old j false ≡ true → slice_index_or marks.new j false ≡ true }
    ensures end { sweep.end ≤ result.end }
{
    if !take_flag(marks, i) {
        return sweep;
    }
    let visit = parts.visit(store, i);
    set_flags(marks, i, visit);
    sweep.and(i, visit)
}

// From the first marked part upwards: the marked parts, and those that a visit concerns.
fn sweep_up<P: Parts>(parts: &P, store: &mut Store, marks: &mut [bool], within: Range<u32>) -> Sweep
    requires { P.fits parts.now store.old.shape store.old.box }
    ensures { Sweeps (P.parts parts.now store.old.shape) (P.part parts.now store.old.shape) (marked_in marks.old within.start within.end) (P.parts parts.now store.old.shape) store.old store.new result.answer }
{
    let mut sweep = Sweep {
        answer: start(store),
        first: within.start,
        end: within.end,
    };
    for i in within.start..parts.count(store) {
        if i >= sweep.end {
            return sweep;
        }
        sweep = visit_flagged(parts, store, marks, i, sweep);
        if let Revised::Empty = sweep.answer {
            return sweep;
        }
    }
    sweep
}

// From the last part that the sweep upwards came to back down: those that it left to be visited, and those that a visit concerns.
fn sweep_down<P: Parts>(parts: &P, store: &mut Store, marks: &mut [bool], up: Sweep) -> Revised
    requires { P.fits parts.now store.old.shape store.old.box }
    ensures { Sweeps (P.parts parts.now store.old.shape) (P.part parts.now store.old.shape) (λ i. false) 0 store.old store.new result }
{
    let mut sweep = Sweep {
        answer: start(store),
        first: up.first,
        end: up.end,
    };
    for i in (0..up.end.min(parts.count(store))).rev() {
        if i < sweep.first {
            return sweep.answer;
        }
        sweep = visit_flagged(parts, store, marks, i, sweep);
        if let Revised::Empty = sweep.answer {
            return sweep.answer;
        }
    }
    sweep.answer
}

/// Fires the marked parts up and then down, and with them each part that such a visit concerns. The flags of the parts that it visited last
/// are cleared.
pub fn sweep_by_parts<P: Parts>(
    parts: &P,
    store: &mut Store,
    marks: &mut [bool],
    within: Range<u32>,
) -> Revised
    requires fits { P.fits parts.now store.old.shape store.old.box }
    requires clean { AreClean (P.parts parts.now store.old.shape) (P.part parts.now store.old.shape) (marked_in marks.old within.start within.end) store.old.box }
    ensures { Revises (each_below (P.part parts.now store.old.shape) (P.parts parts.now store.old.shape)) store.old store.new result }
{
    let up = sweep_up(parts, store, marks, within);
    let down = sweep_down(parts, store, marks, up);
    up.answer.then(down)
}

// Whether a part's flag is clear, or the box is stable under the part.
fn is_held_if_flagged<P: Parts>(parts: &P, store: &Store, marks: &[bool], i: u32) -> bool
    requires fits { P.fits parts.now store.now.shape store.now.box }
    requires below { i < P.parts parts.now store.now.shape }
    requires filled { IsSome store.now.box }
    ensures { ChecksFlagged (P.part parts.now store.now.shape i) (slice_index_or marks.now i false) store.now.box result }
{
    if !has_flag(marks, i) {
        return true;
    }
    parts.is_part_held(store, i)
}

// Whether the box is stable under each marked part.
fn is_each_marked_held<P: Parts>(
    parts: &P,
    store: &Store,
    marks: &[bool],
    within: Range<u32>,
) -> bool
    requires fits { P.fits parts.now store.now.shape store.now.box }
    requires filled { IsSome store.now.box }
    ensures { ChecksMarked (P.parts parts.now store.now.shape) (P.part parts.now store.now.shape) (marked_in marks.now within.start within.end) store.now.box result }
{
    for i in within.start..within.end.min(parts.count(store)) {
        if !is_held_if_flagged(parts, store, marks, i) {
            return false;
        }
    }
    true
}

/// Whether the box is neither empty nor a fixpoint of the parts, by a look at the marked ones.
pub fn still_by_parts<P: Parts>(
    parts: &P,
    store: &Store,
    marks: &[bool],
    within: Range<u32>,
) -> bool
    requires fits { P.fits parts.now store.now.shape store.now.box }
    requires clean { AreClean (P.parts parts.now store.now.shape) (P.part parts.now store.now.shape) (marked_in marks.now within.start within.end) store.now.box }
    ensures yes { IsTrue result → IsSomeAnd store.now.box (λ xs. IsFixpoint (each_below (P.part parts.now store.now.shape) (P.parts parts.now store.now.shape)) xs → ⊥) }
    ensures no { IsFalse result → IfSome store.now.box (IsFixpoint (each_below (P.part parts.now store.now.shape) (P.parts parts.now store.now.shape))) }
{
    store.known();
    if store.is_empty() {
        return false;
    }
    !is_each_marked_held(parts, store, marks, within)
}
