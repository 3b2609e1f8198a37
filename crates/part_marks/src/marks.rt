//! The marks of one contractor.

ghost use Rattle.std.specs.Prelude.{◌≡◌, ◌+◌, ◌<◌, ◌≤◌, ℕ, true, false, IsTrue, IsFalse, IfOk, IfSome, IsSomeAnd, Contains, length, slice_index_or};
ghost use Rattle.tube_spec.specs.Fixpoint.{IsFixpoint};
ghost use Rattle.ctc_core.specs.Answers.{Revises};
ghost use Rattle.ctc_parts.specs.Parts.{AreClean};
ghost use Rattle.part_marks.specs.Marks.{marked_at};

use ctc_core::Revised;
use ctc_parts::{Parted, is_marked};
use std::alloc::{AllocError, Global};
use std::marker::Model;
use std::ops::Range;
use std::sync::ledger::Ledger;
use step_count::Steps;
use tube_store::{CellId, Store};

/// The marks of a contractor's parts.
///
/// A part is marked where its number lies in the range and its flag is set. So all marks are cleared at once, by an empty range. For a
/// contractor of one part there is no flag, and the range alone says whether it is marked.
#[derive(Drop)]
pub struct PartMarks {
    flags: Vec<bool>,
    within: Range<u32>,
}

impl Model for PartMarks {
    ghost use Rattle.part_marks.specs.Marks.{Marked, lent};

    ghost Value = { Marked };

    ghost view = { λ m. record { flags = lent m.flags.items; first = m.within.start; end = m.within.end } };
}

impl PartMarks {
    /// The marks of so many parts, all of which are set. For one part it takes no memory.
    pub fn all(alloc: Global, parts: u32) -> Result<PartMarks, AllocError>
        ensures { IfOk result (λ marks. (parts ≤ length marks.flags) × ((i : ℕ) → i < parts → marked_at marks i ≡ true)) }
    {
        let mut flags = Vec::new(alloc);
        if parts > 1 {
            flags.resize(parts as usize, true)?;
        }
        Ok(PartMarks {
            flags,
            within: 0..parts,
        })
    }

    /// Whether a part is marked.
    pub fn is_marked(&self, i: u32) -> bool
        ensures { result ≡ marked_at self.now i }
    {
        if self.flags.is_empty() {
            return is_marked(&[true], &self.within, i);
        }
        is_marked(&self.flags, &self.within, i)
    }

    /// Marks the parts whose numbers lie in a range. No mark is cleared.
    pub fn mark(&mut self, parts: Range<u32>)
        ensures len { length self.new.flags ≡ length self.old.flags }
        ensures kept { (i : ℕ) → marked_at self.old i ≡ true → marked_at self.new i ≡ true }
        ensures marked { (i : ℕ) → parts.start ≤ i → i < parts.end → i < length self.old.flags → marked_at self.new i ≡ true }
    {
        self.within = hull(&self.within, &parts);
        set_flags(&mut self.flags, parts);
    }

    /// Marks the part of a contractor that has one, and says that it did; where there are flags nothing is done. No mark is cleared.
    pub(crate) fn mark_only_one(&mut self) -> bool
        ensures len { length self.new.flags ≡ length self.old.flags }
        ensures kept { (i : ℕ) → marked_at self.old i ≡ true → marked_at self.new i ≡ true }
        ensures marked { IsTrue result → (i : ℕ) → i < length self.old.flags → marked_at self.new i ≡ true }
    {
        if !self.flags.is_empty() {
            return false;
        }
        self.within = 0..1;
        true
    }

    /// Marks the parts of a contractor that read a cell. No mark is cleared.
    pub fn mark_readers<C: Parted>(&mut self, c: &C, store: &Store, cell: CellId)
        requires fits { C.fits c.now store.now.shape store.now.box }
        requires len { C.parts c.now store.now.shape ≤ length self.old.flags }
        ensures len { length self.new.flags ≡ length self.old.flags }
        ensures kept { (i : ℕ) → marked_at self.old i ≡ true → marked_at self.new i ≡ true }
        ensures marked { (i : ℕ) → i < C.parts c.now store.now.shape → Contains (C.part_scope c.now store.now.shape i) cell.0 → marked_at self.new i ≡ true }
    {
        self.mark(c.reach(store, cell));
    }

    /// Fires the marked parts of a contractor at least. All marks are cleared.
    pub fn revise<C: Parted, L: Ledger>(
        &mut self,
        c: &C,
        store: &mut Store,
        steps: &mut Steps<L>,
    ) -> Revised
        requires fits { C.fits c.now store.old.shape store.old.box }
        requires clean { AreClean (C.parts c.now store.old.shape) (C.part c.now store.old.shape) (marked_at self.old) store.old.box }
        ensures revised { Revises (C.projections c.now store.old.shape) store.old store.new result }
        ensures step { steps.new ≡ steps.old + 1 }
        ensures len { length self.new.flags ≡ length self.old.flags }
        ensures cleared { (i : ℕ) → marked_at self.new i ≡ false }
    {
        let within = self.within.start..self.within.end;
        self.within = 0..0;
        if self.flags.is_empty() {
            return c.revise_marked(store, &mut [true], within, steps);
        }
        c.revise_marked(store, &mut self.flags, within, steps)
    }

    /// Whether a firing of a contractor would change the store: the box is neither empty nor a fixpoint. It looks at the marked parts alone.
    pub fn still<C: Parted, L: Ledger>(&self, c: &C, store: &Store, steps: &mut Steps<L>) -> bool
        requires fits { C.fits c.now store.now.shape store.now.box }
        requires clean { AreClean (C.parts c.now store.now.shape) (C.part c.now store.now.shape) (marked_at self.now) store.now.box }
        ensures step { steps.new ≡ steps.old + 1 }
        ensures yes { IsTrue result → IsSomeAnd store.now.box (λ xs. IsFixpoint (C.projections c.now store.now.shape) xs → ⊥) }
        ensures no { IsFalse result → IfSome store.now.box (IsFixpoint (C.projections c.now store.now.shape)) }
    {
        let within = self.within.start..self.within.end;
        if self.flags.is_empty() {
            return c.still_marked(store, &[true], within, steps);
        }
        c.still_marked(store, &self.flags, within, steps)
    }
}

// A range that holds both, with what lies between.
fn hull(a: &Range<u32>, b: &Range<u32>) -> Range<u32>
    ensures first { (i : ℕ) → a.now.start ≤ i → i < a.now.end → (result.start ≤ i) × (i < result.end) }
    ensures second { (i : ℕ) → b.now.start ≤ i → i < b.now.end → (result.start ≤ i) × (i < result.end) }
{
    if a.start >= a.end {
        return b.start..b.end;
    }
    if b.start >= b.end {
        return a.start..a.end;
    }
    a.start.min(b.start)..a.end.max(b.end)
}

// Sets the flags of a range, as far as there are flags.
fn set_flags(flags: &mut [bool], parts: Range<u32>)
    ensures len { length flags.new ≡ length flags.old }
    ensures kept { (i : ℕ) → slice_index_or flags.old i false ≡ true → slice_index_or flags.new i false ≡ true }
    ensures marked { (i : ℕ) → parts.start ≤ i → i < parts.end → i < length flags.old → slice_index_or flags.new i false ≡ true }
{
    for i in parts.start..parts.end {
        if (i as usize) < flags.len() {
            flags[i as usize] = true;
        }
    }
}
