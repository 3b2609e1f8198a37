//! The net: its calls, and the loop of settling.

ghost use Rattle.std.specs.Prelude.{◌≡◌, ◌+◌, ◌-◌, ◌*◌, ◌<◌, ◌≤◌, ◌↔◌, [], ◌∷◌, ◌++◌, ℕ, Some, None, true, false, IsTrue, IsFalse, IsSome, IsSomeAnd, IsNone, IfSome, OnOk, OnErr, IfOk, IsErrOf, List, length, map, All, count_by, slice_get, slice_set, flat_map};
ghost use Rattle.std.specs.List.Sorted.{IsStrictlyIncreasing};
ghost use Rattle.tube_spec.specs.Limits.{greatest_bound, most_cells, most_reads};
ghost use Rattle.tube_spec.specs.Span.{Span, IsBounded};
ghost use Rattle.tube_spec.specs.Box.{measure_of};
ghost use Rattle.tube_spec.specs.Owner.{SignalIn, VariableIn};
ghost use Rattle.tube_spec.specs.Fixpoint.{IsFixpoint};
ghost use Rattle.tube_store.specs.State.{State, state_with};
ghost use Rattle.tube_store.specs.Resets.{cell_in};
ghost use Rattle.ctc_core.specs.Answers.{MatchRevised};
ghost use Rattle.cell_readers.specs.Costs.{lost_cost, potential};
ghost use Rattle.ctc_network.specs.Nets.{NetState, ArePlaces, IsNet, IsSettlable, IsThere, of_place, fits_place, count_there, no_net, entries_of, readers_of};
ghost use Rattle.ctc_network.specs.Resetting.{IsResetTo, IsRoused};
ghost use Rattle.ctc_network.specs.Settling.{Fires, IsWoken, IsNarrowedBy, SettlesAs, StillNarrows, contractors_at};

use crate::answers::{AddFault, CtcId, Order, Settled};
use crate::noting::note;
use crate::places::{revise, still, there};
use crate::rousing::rouse;
use cell_readers::Readers;
use ctc_core::{Revised, start};
use ctc_parts::Parted;
use int_interval::Interval;
use once_queue::Waiting;
use part_marks::PartMarks;
use slice_gates::Grid;
use std::alloc::Global;
use std::marker::Model;
use std::sync::ledger::Ledger;
use step_count::Steps;
use tube_limits::MOST_READS;
use tube_store::{CellId, SignalId, Store, StoreFault, VarId};

/// A store and its contractors, each of which waits to be fired or leaves the box as it is.
///
/// A contractor stands under the number that it was given. A number is of the net where a contractor stands under it: it is given once,
/// and a place may be empty.
#[derive(Drop)]
pub struct Net<C: Parted + Drop> {
    store: Store,
    // What stands under each number that was given.
    contractors: Vec<Option<C>>,
    waiting: Waiting,
    // Beside each contractor which of its parts may narrow the box.
    marks: Vec<PartMarks>,
    readers: Readers,
    // How many cells the contractors read, those of each added up.
    entries: u32,
    // How many contractors there are.
    count: u32,
}

impl<C: Parted + Drop> Model for Net<C> {
    ghost use Rattle.ctc_network.specs.Nets.{NetState, IsNetMarked};

    ghost Value = { NetState C };

    ghost view = { λ n. record { store = n.store; contractors = n.contractors.items; waiting = n.waiting } };

    ghost invariant = { λ n. IsNetMarked C.projections C.scope C.fits C.parts C.part (record { store = n.store; contractors = n.contractors.items; waiting = n.waiting }) n.readers n.entries n.count n.marks.items };
}

impl<C: Parted + Drop> Net<C> {
    /// A net over a grid, with no cell and no contractor. It takes no memory.
    pub fn new(alloc: Global, grid: Grid) -> Net<C>
        ensures { result ≡ no_net grid }
    {
        let store = Store::new(alloc, grid);
        store.known();
        Net {
            store,
            contractors: Vec::new(alloc),
            waiting: Waiting::new(alloc),
            marks: Vec::new(alloc),
            readers: Readers::new(alloc),
            entries: 0,
            count: 0,
        }
    }

    /// What holds of every net: above all, each contractor that does not wait leaves the box.
    pub fn known(&self)
        ensures { IsNet C.projections C.scope C.fits self.now }
    {
        let _store = &self.store;
    }

    // The same, and that the readers of every narrower cell were woken.
    fn settlable(&self)
        ensures { IsSettlable (of_place C.projections) (of_place C.scope) (fits_place C.fits) self.now }
    {
        let _store = &self.store;
    }

    /// The store.
    pub fn store(&self) -> &Store
        ensures { result.now ≡ self.now.store }
    {
        &self.store
    }

    /// The store alone.
    pub fn into_store(self) -> Store
        ensures { result ≡ self.store }
    {
        self.store
    }

    /// How many contractors there are.
    pub fn len(&self) -> u32
        ensures { result ≡ count_there self.now.contractors }
    {
        self.count
    }

    /// How many numbers were given: the next contractor is added under this one.
    pub fn numbers(&self) -> u32
        ensures { result ≡ length self.now.contractors }
    {
        self.waiting.len()
    }

    /// Whether a number is of this net: a contractor stands under it.
    pub fn has(&self, id: CtcId) -> bool
        ensures { IsTrue result ↔ IsThere self.now.contractors id.0 }
    {
        match self.contractors.get(id.0 as usize) {
            Some(place) => place.is_some(),
            None => false,
        }
    }

    /// How many contractors read a cell. A contractor that names it several times counts once.
    pub fn readers(&self, c: CellId) -> u32
        ensures { result ≡ readers_of (of_place C.scope) self.now.store.shape self.now.contractors c.0 }
    {
        self.readers.count(c)
    }

    /// How many contractors wait.
    pub fn waiting(&self) -> u32
        ensures { result ≡ count_by (λ waits. waits) self.now.waiting }
    {
        self.waiting.count()
    }

    /// Whether the contractor with a number waits. A number of no contractor does not.
    pub fn waits(&self, id: CtcId) -> bool
        requires { id.0 < length self.now.contractors }
        ensures { slice_get self.now.waiting id.0 ≡ Some result }
    {
        self.waiting.waits(id.0)
    }

    /// The contractor with a number.
    pub fn contractor(&self, id: CtcId) -> &C
        requires { IsThere self.now.contractors id.0 }
        ensures { slice_get self.now.contractors id.0 ≡ Some (Some result.now) }
    {
        there(&self.contractors[id.0 as usize])
    }

    // How many cells the contractors read, those of each added up.
    fn entries(&self) -> u32
        ensures sum { result ≡ entries_of (of_place C.scope) self.now.store.shape self.now.contractors }
        ensures few { result ≤ most_reads }
    {
        self.entries
    }

    /// Adds a signal to the store, whose cells hold its declared range. The contractors stay, and who of them waits.
    pub fn add_signal(&mut self, range: Interval) -> Result<SignalId, StoreFault>
        requires range { IsBounded greatest_bound range }
        ensures id { IfOk result (λ signal. signal.0 ≡ length self.old.store.shape.signals) }
        ensures ok { OnOk result (self.new ≡ record self.old { store = state_with self.old.store (SignalIn range) }) }
        ensures full { IsErrOf result StoreFault.CellsFull ↔ (most_cells < self.old.store.shape.cells + (2 * length self.old.store.shape.grid - 1)) }
        ensures err { OnErr result (self.new ≡ self.old) }
    {
        let id = self.store.add_signal(range)?;
        self.store.known();
        Ok(id)
    }

    /// Adds a variable to the store, whose cell holds its declared range. The contractors stay, and who of them waits.
    pub fn add_var(&mut self, range: Interval) -> Result<VarId, StoreFault>
        requires range { IsBounded greatest_bound range }
        ensures id { IfOk result (λ var. var.0 ≡ length self.old.store.shape.vars) }
        ensures ok { OnOk result (self.new ≡ record self.old { store = state_with self.old.store (VariableIn range) }) }
        ensures full { IsErrOf result StoreFault.CellsFull ↔ (most_cells < self.old.store.shape.cells + 1) }
        ensures err { OnErr result (self.new ≡ self.old) }
    {
        let id = self.store.add_var(range)?;
        self.store.known();
        Ok(id)
    }

    /// Adds a contractor that fits the store, under the next number. It waits. A number is never given again.
    pub fn add(&mut self, c: C) -> Result<CtcId, AddFault>
        requires fits { C.fits c self.old.store.shape self.old.store.box }
        requires few { length self.old.contractors < 4000000000 }
        ensures id { IfOk result (λ id. id.0 ≡ length self.old.contractors) }
        ensures ok { OnOk result (self.new ≡ record self.old { contractors = self.old.contractors ++ Some c ∷ []; waiting = self.old.waiting ++ true ∷ [] }) }
        ensures full { IsErrOf result AddFault.FootFull ↔ (most_reads < entries_of (of_place C.scope) self.old.store.shape self.old.contractors + length (C.scope c self.old.store.shape)) }
        ensures err { OnErr result (self.new ≡ self.old) }
    {
        let reads = c.reads(&self.store);
        let entries = self.entries();
        if reads > MOST_READS - entries {
            return Err(AddFault::FootFull);
        }
        let number = self.waiting.len();
        let marks = PartMarks::all(*self.marks.allocator(), c.parts(&self.store))?;
        self.contractors.reserve(1)?;
        self.marks.reserve(1)?;
        self.readers
            .cover(self.store.cells() as usize, reads as usize)?;
        self.waiting.push_number()?;
        self.readers.add(&c, &self.store);
        self.contractors.push_reserved(Some(c));
        self.marks.push_reserved(marks);
        self.entries += reads;
        self.count += 1;
        Ok(CtcId(number))
    }

    /// Takes a contractor out, or says that none stands under the number, which is not given again. The box stays, and so do all other
    /// contractors, and who of them waits. It takes no memory.
    pub fn remove(&mut self, id: CtcId) -> Option<C>
        ensures none { IsNone result → (IsThere self.old.contractors id.0 → ⊥) × (self.new ≡ self.old) }
        ensures out { IfSome result (λ c. slice_get self.old.contractors id.0 ≡ Some (Some c)) }
        ensures left { IsSome result → self.new ≡ record self.old { contractors = slice_set self.old.contractors id.0 None; waiting = slice_set self.old.waiting id.0 false } }
    {
        if !self.has(id) {
            return None;
        }
        let c = self.contractors[id.0 as usize].take()?;
        self.readers.remove(&c, id.0, &self.store);
        self.entries -= c.reads(&self.store);
        self.count -= 1;
        self.waiting.rest(id.0);
        Some(c)
    }

    /// Gives each cell of a list an interval of its own, and so takes back what was narrowed. All other cells stay. Each contractor that reads
    /// or writes one of these cells waits then, and so does who waited before. The empty box comes back only as a whole. It takes no
    /// memory.
    pub fn reset(&mut self, cells: &[(CellId, Interval)])
        requires named { All (λ r. cell_in r < self.old.store.shape.cells) cells.now }
        requires rising { IsStrictlyIncreasing (map cell_in cells.now) }
        requires bounded { All (λ r. IsBounded greatest_bound r.1) cells.now }
        requires whole { IsNone self.old.store.box → length cells.now ≡ self.old.store.shape.cells }
        requires fits { (ys : List Span) → length ys ≡ self.old.store.shape.cells → IsResetTo cells.now self.old.store.box ys → All (λ c. fits_place C.fits c self.old.store.shape (Some ys)) self.old.contractors }
        ensures contractors { self.new.contractors ≡ self.old.contractors }
        ensures shape { self.new.store.shape ≡ self.old.store.shape }
        ensures filled { IsSomeAnd self.new.store.box (IsResetTo cells.now self.old.store.box) }
        ensures untouched { self.new.store.touched ≡ [] }
        ensures waiting { IsRoused (of_place C.projections) (of_place C.scope) self.old.store.shape self.old.contractors cells.now self.old.waiting self.new.waiting }
    {
        self.store.reset(cells);
        self.store.known();
        rouse(
            cells,
            &self.contractors,
            &self.store,
            &mut self.waiting,
            &mut self.marks,
        );
    }

    /// Fires a contractor once, whether it waits or not. Where the box stayed, it does not wait afterwards. Where cells were narrowed,
    /// it waits and so do exactly the contractors that read one of these cells, and those that waited before.
    pub fn fire<L: Ledger>(&mut self, id: CtcId, steps: &mut Steps<L>) -> Revised
        requires { IsThere self.old.contractors id.0 }
        ensures fired { IfSome (slice_get self.old.contractors id.0) (λ c. Fires (of_place C.projections c self.old.store.shape) self.old.store self.new.store result) }
        ensures narrowed { IsNarrowedBy (flat_map (λ c. of_place C.projections c self.old.store.shape) self.old.contractors) self.old.store self.new.store }
        ensures contractors { self.new.contractors ≡ self.old.contractors }
        ensures waiting { MatchRevised result (self.new.waiting ≡ slice_set self.old.waiting id.0 false) (IsWoken (of_place C.scope) self.old.store.shape self.old.contractors self.old.store.box self.new.store.box id.0 self.old.waiting self.new.waiting) (self.new.waiting ≡ self.old.waiting) }
        ensures step { steps.new ≡ steps.old + 1 }
    {
        let place = id.0 as usize;
        let answer = revise(
            &self.contractors[place],
            &mut self.marks[place],
            &mut self.store,
            steps,
        );
        note(
            answer,
            id.0,
            &self.readers,
            &self.contractors,
            &mut self.store,
            &mut self.waiting,
            &mut self.marks,
        );
        answer
    }

    /// Fires contractors one after another, whether they wait or not. `Empty` comes exactly where the box is empty at the end, and
    /// `Same` exactly where it is not and no cell was narrowed.
    pub fn replay<L: Ledger>(&mut self, ids: &[CtcId], steps: &mut Steps<L>) -> Revised
        requires { All (λ id. IsThere self.old.contractors id.0) ids.now }
        ensures fired { Fires (flat_map (λ c. of_place C.projections c self.old.store.shape) (contractors_at self.old.contractors ids.now)) self.old.store self.new.store result }
        ensures narrowed { IsNarrowedBy (flat_map (λ c. of_place C.projections c self.old.store.shape) self.old.contractors) self.old.store self.new.store }
        ensures contractors { self.new.contractors ≡ self.old.contractors }
        ensures steps { steps.new ≡ steps.old + length ids.now }
    {
        let mut answer = start(&self.store);
        for id in ids {
            self.settlable();
            let next = self.fire(*id, steps);
            answer = answer.then(next);
        }
        answer
    }

    /// Fires the contractors that wait, one at a time in the given order, until none waits, the box is empty, or its measure, the sum
    /// of the widths of all cells, has fallen by the budget or more.
    ///
    /// Then a contractor is sought that still narrows the box: where there is one, the answer is `Spent` with it, and else `Fixpoint`.
    /// So `Spent` never comes where the budget is above the measure at the start. The net may be settled again after `Spent`; after
    /// `Empty` every later call answers `Empty` with no step. Only the store's box and its touched cells change, and who waits.
    ///
    /// The steps are at most as many as waited, and for each cell the width that it lost times one more than its readers. It takes no
    /// memory.
    pub fn settle<L: Ledger>(&mut self, order: Order, budget: u64, steps: &mut Steps<L>) -> Settled
        ensures contractors { self.new.contractors ≡ self.old.contractors }
        ensures shape { self.new.store.shape ≡ self.old.store.shape }
        ensures settled { SettlesAs (λ c. of_place C.projections c self.old.store.shape) self.old.contractors budget self.old.store self.new.store result }
        ensures resting { result ≡ Settled.Fixpoint → All IsFalse self.new.waiting }
        ensures emptied { IsNone self.old.store.box → (result ≡ Settled.Empty) × (self.new ≡ self.old) × (steps.new ≡ steps.old) }
        ensures bound { steps.new ≤ steps.old + count_by (λ w. w) self.old.waiting + lost_cost (readers_of (of_place C.scope) self.old.store.shape self.old.contractors) self.old.store.box self.new.store.box }
    {
        if self.store.is_empty() {
            return Settled::Empty;
        }
        self.settle_some(order, budget, steps)
    }

    // Settles a net whose box is not empty.
    fn settle_some<L: Ledger>(&mut self, order: Order, budget: u64, steps: &mut Steps<L>) -> Settled
        requires { IsSome self.old.store.box }
        ensures contractors { self.new.contractors ≡ self.old.contractors }
        ensures shape { self.new.store.shape ≡ self.old.store.shape }
        ensures settled { SettlesAs (λ c. of_place C.projections c self.old.store.shape) self.old.contractors budget self.old.store self.new.store result }
        ensures resting { result ≡ Settled.Fixpoint → All IsFalse self.new.waiting }
        ensures bound { steps.new ≤ steps.old + count_by (λ w. w) self.old.waiting + lost_cost (readers_of (of_place C.scope) self.old.store.shape self.old.contractors) self.old.store.box self.new.store.box }
    {
        let start = self.store.measure();
        loop {
            if self.is_spent(start, budget) {
                return match self.seek(order, steps) {
                    Some(id) => Settled::Spent(id),
                    None => Settled::Fixpoint,
                };
            }
            match self.fire_next(order, steps) {
                None => return Settled::Fixpoint,
                Some(Revised::Empty) => return Settled::Empty,
                Some(Revised::Same) => {}
                Some(Revised::Narrowed) => {}
            }
        }
    }

    // Whether the measure has fallen by the budget.
    fn is_spent(&self, start: u128, budget: u64) -> bool
        requires { measure_of self.now.store.box ≤ start }
        ensures { IsTrue result ↔ (measure_of self.now.store.box + budget ≤ start) }
    {
        start - self.store.measure() >= budget as u128
    }

    // Takes the contractor that comes next and fires it.
    fn fire_next<L: Ledger>(&mut self, order: Order, steps: &mut Steps<L>) -> Option<Revised>
        requires { IsSome self.old.store.box }
        ensures contractors { self.new.contractors ≡ self.old.contractors }
        ensures narrowed { IsNarrowedBy (flat_map (λ c. of_place C.projections c self.old.store.shape) self.old.contractors) self.old.store self.new.store }
        ensures net { ArePlaces (of_place C.projections) (of_place C.scope) (fits_place C.fits) self.new }
        ensures none { IsNone result → All IsFalse self.old.waiting × (self.new ≡ self.old) × (steps.new ≡ steps.old) }
        ensures says { IfSome result (λ x. MatchRevised x (IsSome self.new.store.box) (IsSome self.new.store.box) (IsNone self.new.store.box)) }
        ensures step { IfSome result (λ x. steps.new ≡ steps.old + 1) }
        ensures falls { IfSome result (λ x. potential (readers_of (of_place C.scope) self.old.store.shape self.old.contractors) self.new.waiting self.new.store.box + 1 ≤ potential (readers_of (of_place C.scope) self.old.store.shape self.old.contractors) self.old.waiting self.old.store.box) }
    {
        let number = order.take(&mut self.waiting)?;
        let place = number as usize;
        let answer = revise(
            &self.contractors[place],
            &mut self.marks[place],
            &mut self.store,
            steps,
        );
        note(
            answer,
            number,
            &self.readers,
            &self.contractors,
            &mut self.store,
            &mut self.waiting,
            &mut self.marks,
        );
        Some(answer)
    }

    // A contractor that still narrows the box, which waits. Where there is none, nobody waits afterwards.
    fn seek<L: Ledger>(&mut self, order: Order, steps: &mut Steps<L>) -> Option<CtcId>
        requires { IsSome self.old.store.box }
        ensures store { self.new.store ≡ self.old.store }
        ensures contractors { self.new.contractors ≡ self.old.contractors }
        ensures net { ArePlaces (of_place C.projections) (of_place C.scope) (fits_place C.fits) self.new }
        ensures found { IfSome result (λ id. StillNarrows (λ c. of_place C.projections c self.new.store.shape) self.new.contractors self.new.store.box id.0) }
        ensures none { IsNone result → All IsFalse self.new.waiting }
        ensures steps { steps.new ≤ steps.old + count_by (λ w. w) self.old.waiting }
    {
        loop {
            match self.try_next(order, steps) {
                None => return None,
                Some(Some(id)) => return Some(id),
                Some(None) => {}
            }
        }
    }

    // Takes the contractor that comes next, and tries whether it still narrows the box: then it waits on, and else it rests.
    fn try_next<L: Ledger>(&mut self, order: Order, steps: &mut Steps<L>) -> Option<Option<CtcId>>
        ensures store { self.new.store ≡ self.old.store }
        ensures contractors { self.new.contractors ≡ self.old.contractors }
        ensures net { ArePlaces (of_place C.projections) (of_place C.scope) (fits_place C.fits) self.new }
        ensures found { IfSome result (λ still. IfSome still (λ id. StillNarrows (λ c. of_place C.projections c self.new.store.shape) self.new.contractors self.new.store.box id.0)) }
        ensures none { IsNone result → All IsFalse self.new.waiting × (steps.new ≡ steps.old) }
        ensures some { IfSome result (λ still. (0 < count_by (λ w. w) self.old.waiting) × (steps.new ≡ steps.old + 1)) }
        ensures rests { IfSome result (λ still. IsNone still → count_by (λ w. w) self.new.waiting + 1 ≡ count_by (λ w. w) self.old.waiting) }
    {
        let number = order.take(&mut self.waiting)?;
        let place = number as usize;
        if still(
            &self.contractors[place],
            &self.marks[place],
            &self.store,
            steps,
        ) {
            self.waiting.wake(number);
            return Some(Some(CtcId(number)));
        }
        Some(None)
    }
}
