//! The shared cells of tubes and variables over a grid of slices.
//!
//! A tube is kept as Codac keeps it (Rohou, Jaulin et al., "Reliable Robot Localization"): one
//! interval at each boundary of its slices, a gate, and one over each slice, an envelope.
//! Intervals are in millimetres, or in whatever unit the signal or variable has.
#![tactic(auto)]

ghost use Rattle.std.specs.Prelude.{◌≡◌, ◌≢◌, ℕ, ◌+◌, ◌*◌, ◌<◌, ◌≤◌, ◌^◌, ◌++◌, [], ◌∷◌, ◌↔◌, IsTrue, IsFalse, MatchOption, IsSome, IfSome, IsNone, OnOk, OnErr, IfOk, IsErrOf, None, Some, length, set, slice_index, sum_by, replicate, false, ◌-◌, map, All};
ghost use Rattle.std.specs.Vec.{vec_capacity};
ghost use Rattle.std.specs.List.Sorted.{IsStrictlyIncreasing};
ghost use Rattle.std.specs.VecDeque.{deque_capacity};
ghost use Rattle.tube_spec.specs.Limits.{greatest_bound, most_cells};
ghost use Rattle.tube_spec.specs.Span.{IsProper, IsWithin, IsBounded, meet_of, width_of};
ghost use Rattle.tube_spec.specs.Grid.{last_tick};
ghost use Rattle.tube_spec.specs.Shape.{gate_cell, envelope_cell, slice_width};
ghost use Rattle.tube_spec.specs.Box.{cell_at, IsBox, measure_of};
ghost use Rattle.tube_spec.specs.Tick.{at_tick, over_ticks, join_over, tick_place};
ghost use Rattle.tube_spec.specs.Owner.{SignalIn, VariableIn};
ghost use Rattle.slice_gates.specs.Ticks.{IsSliceOf, IsGateOf};
ghost use Rattle.tube_store.specs.State.{State, IsStore, no_cells, state_with, touch};
ghost use Rattle.tube_store.specs.Cuts.{MatchCut, Cuts};
ghost use Rattle.tube_store.specs.Places.{MeetsTick};
ghost use Rattle.tube_store.specs.Touched.{AreTouched};
ghost use Rattle.tube_store.specs.Resets.{cell_in, box_with};
ghost use Rattle.tube_store.specs.declared.StoreFault.TheVariants.{NoMemory};

use int_interval::Interval;
use slice_gates::Grid;
use std::alloc::{AllocError, Global};
use std::collections::VecDeque;
use std::marker::Model;

/// The greatest absolute value of a bound of a declared range, and so of every cell.
pub const GREATEST_BOUND: i64 = 500_000_000;

/// The most cells that a store may have.
pub const MOST_CELLS: usize = 2_000_000;

/// The number of a cell, from 0 in order of addition.
#[derive(Clone, Copy, Debug, PartialEq, Eq)]
pub struct CellId(pub u32);

/// The number of a signal, from 0 in order of addition.
#[derive(Clone, Copy, Debug, PartialEq, Eq)]
pub struct SignalId(pub u32);

/// The number of a variable, from 0 in order of addition.
#[derive(Clone, Copy, Debug, PartialEq, Eq)]
pub struct VarId(pub u32);

/// What a narrowing did to a cell: nothing, or it left the meeting, or there was no meeting and the
/// store is empty.
#[derive(Clone, Copy, Debug, PartialEq, Eq)]
pub enum Cut {
    Same,
    Narrowed,
    Empty,
}

/// Why cells could not be added.
#[derive(Clone, Copy, Debug, PartialEq, Eq)]
pub enum StoreFault {
    /// There would be more than `MOST_CELLS` cells.
    CellsFull,
    /// Memory ran out.
    NoMemory,
}

impl From<AllocError> for StoreFault {
    ghost from_gives = { λ _ fault. fault ≡ NoMemory };

    fn from(_error: AllocError) -> StoreFault {
        StoreFault::NoMemory
    }
}

/// Cells over a grid. A contract sees the shape, which has the grid and the cells of each signal and
/// variable; the box, which is one interval a cell or the one empty box; and the list of touched
/// cells, those that were narrowed and not taken since.
#[derive(Drop)]
pub struct Store {
    grid: Grid,
    firsts: Vec<u32>,
    places: Vec<u32>,
    cells: Vec<Interval>,
    marks: Vec<bool>,
    ring: VecDeque<u32>,
    total: u64,
    emptied: bool,
}

impl Model for Store {
    ghost use Rattle.std.specs.Prelude.{length, cond, None, Some};
    ghost use Rattle.std.specs.VecDeque.{deque_capacity};
    ghost use Rattle.tube_spec.specs.Shape.{Shape};
    ghost use Rattle.tube_store.specs.State.{State};
    ghost use Rattle.tube_store.specs.Kept.{IsKept};

    ghost Value = { State };

    ghost view = { λ s. record {
      shape = record { grid = s.grid; signals = s.firsts.items; vars = s.places.items; cells = length s.cells.items };
      box = cond s.emptied None (Some s.cells.items);
      touched = s.ring.items;
    } };

    ghost invariant = { λ s. IsKept (record { grid = s.grid; signals = s.firsts.items; vars = s.places.items; cells = length s.cells.items }) s.cells.items s.marks.items s.ring.items (deque_capacity s.ring) s.total };
}

impl Store {
    /// A store over a grid, with no cells. It takes no memory.
    pub fn new(alloc: Global, grid: Grid) -> Store
        ensures { result ≡ no_cells grid }
    {
        grid.known();
        Store {
            grid,
            firsts: Vec::new(alloc),
            places: Vec::new(alloc),
            cells: Vec::new(alloc),
            marks: Vec::new(alloc),
            ring: VecDeque::new(alloc),
            total: 0,
            emptied: false,
        }
    }

    /// What holds of every store.
    pub fn known(&self)
        ensures { IsStore self.now }
    {
        let _cells = &self.cells;
    }

    /// Adds a signal: for a grid of `m` slices `2 * m + 1` cells, which hold the declared range, in
    /// the order gate 0, envelope 0, gate 1, up to gate `m`.
    pub fn add_signal(&mut self, range: Interval) -> Result<SignalId, StoreFault>
        requires range { IsBounded greatest_bound range }
        ensures id { IfOk result (λ signal. signal.0 ≡ length self.old.shape.signals) }
        ensures ok { OnOk result (self.new ≡ state_with self.old (SignalIn range)) }
        ensures full { IsErrOf result StoreFault.CellsFull ↔ (most_cells < self.old.shape.cells + (2 * length self.old.shape.grid - 1)) }
        ensures err { OnErr result (self.new ≡ self.old) }
    {
        let _proper = range.known();
        let first = self.cells.len();
        let id = self.firsts.len();
        let last = first + (2 * self.grid.slices() as usize + 1);
        if last > MOST_CELLS {
            return Err(StoreFault::CellsFull);
        }
        self.ring.reserve(last)?;
        self.firsts.reserve(1)?;
        add_cells(&mut self.cells, &mut self.marks, last, range)?;
        self.firsts.push_reserved(first as u32);
        self.total += (last - first) as u64 * range.width();
        Ok(SignalId(id as u32))
    }

    /// Adds a variable: one cell, which holds the declared range.
    pub fn add_var(&mut self, range: Interval) -> Result<VarId, StoreFault>
        requires range { IsBounded greatest_bound range }
        ensures id { IfOk result (λ var. var.0 ≡ length self.old.shape.vars) }
        ensures ok { OnOk result (self.new ≡ state_with self.old (VariableIn range)) }
        ensures full { IsErrOf result StoreFault.CellsFull ↔ (most_cells < self.old.shape.cells + 1) }
        ensures err { OnErr result (self.new ≡ self.old) }
    {
        let _proper = range.known();
        let place = self.cells.len();
        let id = self.places.len();
        if place >= MOST_CELLS {
            return Err(StoreFault::CellsFull);
        }
        self.ring.reserve(place + 1)?;
        self.places.reserve(1)?;
        add_cells(&mut self.cells, &mut self.marks, place + 1, range)?;
        self.places.push_reserved(place as u32);
        self.total += range.width();
        Ok(VarId(id as u32))
    }

    /// The grid of all signals.
    pub fn grid(&self) -> &Grid
        ensures { result.now ≡ self.now.shape.grid }
    {
        &self.grid
    }

    /// The number of cells.
    pub fn cells(&self) -> u32
        ensures { result ≡ self.now.shape.cells }
    {
        self.cells.len() as u32
    }

    /// The number of signals.
    pub fn signals(&self) -> u32
        ensures { result ≡ length self.now.shape.signals }
    {
        self.firsts.len() as u32
    }

    /// The number of variables.
    pub fn vars(&self) -> u32
        ensures { result ≡ length self.now.shape.vars }
    {
        self.places.len() as u32
    }

    /// Whether the box is the empty one.
    pub fn is_empty(&self) -> bool
        ensures { IsTrue result ↔ IsNone self.now.box }
    {
        self.emptied
    }

    /// The cell of a signal's gate at a boundary.
    pub fn gate(&self, signal: SignalId, i: u32) -> CellId
        requires signal { signal.0 < length self.now.shape.signals }
        requires boundary { i < length self.now.shape.grid }
        ensures cell { result.0 ≡ gate_cell self.now.shape signal.0 i }
        ensures named { result.0 < self.now.shape.cells }
    {
        CellId(self.firsts[signal.0 as usize] + 2 * i)
    }

    /// The cell of a signal's envelope over a slice.
    pub fn envelope(&self, signal: SignalId, i: u32) -> CellId
        requires signal { signal.0 < length self.now.shape.signals }
        requires slice { i + 1 < length self.now.shape.grid }
        ensures cell { result.0 ≡ envelope_cell self.now.shape signal.0 i }
        ensures named { result.0 < self.now.shape.cells }
    {
        CellId(self.firsts[signal.0 as usize] + 2 * i + 1)
    }

    /// The cell of a variable.
    pub fn var(&self, var: VarId) -> CellId
        requires { var.0 < length self.now.shape.vars }
        ensures cell { result.0 ≡ slice_index self.now.shape.vars var.0 }
        ensures named { result.0 < self.now.shape.cells }
    {
        CellId(self.places[var.0 as usize])
    }

    /// The interval of a cell.
    pub fn get(&self, c: CellId) -> Interval
        requires named { c.0 < self.now.shape.cells }
        requires filled { IsSome self.now.box }
        ensures value { IfSome self.now.box (λ xs. result ≡ cell_at xs c.0) }
        ensures proper { IsProper result }
        ensures bounded { IsBounded greatest_bound result }
    {
        self.cells[c.0 as usize]
    }

    /// Narrows a cell to what it shares with an interval: the one step of every contractor
    /// (Jaulin, Kieffer, Didrit, Walter, "Applied Interval Analysis"). A cell that becomes less is
    /// touched. Where they share nothing, the store is empty. It takes no memory.
    pub fn narrow(&mut self, c: CellId, to: Interval) -> Cut
        requires named { c.0 < self.old.shape.cells }
        requires filled { IsSome self.old.box }
        ensures cut { IfSome self.old.box (λ xs. Cuts (cell_at xs c.0) to result) }
        ensures new { IfSome self.old.box (λ xs. MatchCut result (self.new ≡ self.old) (self.new ≡ record self.old { box = Some (set xs c.0 (meet_of (cell_at xs c.0) to)); touched = touch self.old.touched c.0 }) (self.new ≡ record self.old { box = None })) }
    {
        let place = c.0 as usize;
        let held = self.cells[place];
        if held.within(to) {
            return Cut::Same;
        }
        match held.meet(to) {
            None => {
                self.emptied = true;
                Cut::Empty
            }
            Some(less) => {
                self.total -= held.width() - less.width();
                self.cells[place] = less;
                touch(&mut self.marks, &mut self.ring, c.0);
                Cut::Narrowed
            }
        }
    }

    /// Gives each cell of a list an interval of its own, and so takes back what was narrowed. All other cells stay, and no cell is
    /// touched then. The empty box comes back only as a whole. It takes no memory.
    pub fn reset(&mut self, cells: &[(CellId, Interval)])
        requires named { All (λ r. cell_in r < self.old.shape.cells) cells.now }
        requires rising { IsStrictlyIncreasing (map cell_in cells.now) }
        requires bounded { All (λ r. IsBounded greatest_bound r.1) cells.now }
        requires whole { IsNone self.old.box → length cells.now ≡ self.old.shape.cells }
        ensures shape { self.new.shape ≡ self.old.shape }
        ensures filled { IsSome self.new.box }
        ensures given { IfSome self.new.box (λ ys. All (λ r. cell_at ys (cell_in r) ≡ r.1) cells.now) }
        ensures others { IfSome self.old.box (λ xs. IfSome self.new.box (λ ys. (k : ℕ) → All (λ r. cell_in r ≢ k) cells.now → cell_at ys k ≡ cell_at xs k)) }
        ensures untouched { self.new.touched ≡ [] }
    {
        self.emptied = false;
        self.untouch();
        for &(cell, to) in cells {
            self.put(cell, to);
        }
    }

    /// Takes all cells out of the list of touched ones.
    fn untouch(&mut self)
        ensures { self.new ≡ record self.old { touched = [] } }
    {
        while let Some(_cell) = self.next_touched() {}
    }

    /// Puts an interval in the place of a cell's.
    fn put(&mut self, c: CellId, to: Interval)
        requires named { c.0 < self.old.shape.cells }
        requires bounded { IsBounded greatest_bound to }
        ensures { self.new ≡ record self.old { box = box_with self.old.box c.0 to } }
    {
        to.known();
        let place = c.0 as usize;
        self.total = self.total - self.cells[place].width() + to.width();
        self.cells[place] = to;
    }

    /// What a signal may be at a tick: its gate where the tick is a boundary, and the envelope of the
    /// tick's slice otherwise.
    pub fn at_tick(&self, signal: SignalId, tick: u32) -> Interval
        requires signal { signal.0 < length self.now.shape.signals }
        requires tick { tick ≤ last_tick self.now.shape.grid }
        requires filled { IsSome self.now.box }
        ensures value { IfSome self.now.box (λ xs. result ≡ at_tick self.now.shape xs signal.0 tick) }
        ensures proper { IsProper result }
        ensures bounded { IsBounded greatest_bound result }
    {
        let first = self.firsts[signal.0 as usize];
        self.get(CellId(first + self.grid.place_of(tick)))
    }

    /// The hull of what a signal may be at the ticks from `first` to `last`, both included.
    pub fn over_ticks(&self, signal: SignalId, first: u32, last: u32) -> Interval
        requires signal { signal.0 < length self.now.shape.signals }
        requires order { first ≤ last }
        requires tick { last ≤ last_tick self.now.shape.grid }
        requires filled { IsSome self.now.box }
        ensures value { IfSome self.now.box (λ xs. result ≡ over_ticks self.now.shape xs signal.0 first last) }
        ensures proper { IsProper result }
        ensures bounded { IsBounded greatest_bound result }
    {
        let base = self.firsts[signal.0 as usize];
        let hull = hull_between(&self.cells, &self.grid, base, first, last);
        hull.known();
        hull
    }

    /// Takes the cell that was touched first out of the list of touched cells. It takes no memory.
    pub fn next_touched(&mut self) -> Option<CellId>
        ensures taken { MatchOption result ((self.old.touched ≡ []) × (self.new ≡ self.old)) (λ c. (self.old.touched ≡ c.0 ∷ self.new.touched) × (self.new ≡ record self.old { touched = self.new.touched })) }
        ensures named { IfSome result (λ c. c.0 < self.old.shape.cells) }
    {
        let cell = self.ring.pop_front()?;
        self.marks[cell as usize] = false;
        Some(CellId(cell))
    }

    /// The widths of all cells, added up, and 0 for the empty box. It is one look: the sum is kept as
    /// cells are added and narrowed.
    pub fn measure(&self) -> u128
        ensures { result ≡ measure_of self.now.box }
    {
        if self.emptied { 0 } else { self.total as u128 }
    }

    /// The number of slices.
    pub fn slices(&self) -> u32
        ensures { result + 1 ≡ length self.now.shape.grid }
    {
        self.grid.slices()
    }

    /// The ticks from one boundary to the next.
    pub fn slice_width(&self, i: u32) -> u32
        requires { i + 1 < length self.now.shape.grid }
        ensures { result ≡ slice_width self.now.shape i }
    {
        self.grid.boundary(i + 1) - self.grid.boundary(i)
    }

    /// The slice that a tick stands in. A boundary stands in the slice that it begins, and the last
    /// tick in the last slice.
    pub fn slice_of(&self, tick: u32) -> u32
        requires { tick ≤ last_tick self.now.shape.grid }
        ensures { IsSliceOf self.now.shape.grid tick result }
    {
        self.grid.slice_of(tick)
    }

    /// The boundary that a tick is, if it is one.
    pub fn is_gate(&self, tick: u32) -> Option<u32>
        ensures { IsGateOf self.now.shape.grid tick result }
    {
        self.grid.is_gate(tick)
    }
}

/// Fills up the cells to a number of them, and the marks beside them.
fn add_cells(
    cells: &mut Vec<Interval>,
    marks: &mut Vec<bool>,
    count: usize,
    range: Interval,
) -> Result<(), AllocError>
    requires more { length cells.old.items ≤ count }
    requires beside { length marks.old.items ≡ length cells.old.items }
    ensures ok { OnOk result ((cells.new.items ≡ cells.old.items ++ replicate (count - length cells.old.items) range) × (marks.new.items ≡ marks.old.items ++ replicate (count - length cells.old.items) false)) }
    ensures err { OnErr result ((cells.new.items ≡ cells.old.items) × (marks.new.items ≡ marks.old.items)) }
{
    cells.reserve(count - cells.len())?;
    marks.resize(count, false)?;
    cells.resize(count, range)?;
    Ok(())
}

/// Puts a cell at the end of the touched ones, unless it stands there.
fn touch(marks: &mut Vec<bool>, ring: &mut VecDeque<u32>, c: u32)
    requires touched { AreTouched marks.old.items ring.old.items (deque_capacity ring.old) }
    requires named { c < length marks.old.items }
    ensures touched { AreTouched marks.new.items ring.new.items (deque_capacity ring.new) }
    ensures ring { ring.new.items ≡ touch ring.old.items c }
    ensures marks { length marks.new.items ≡ length marks.old.items }
{
    if !marks[c as usize] {
        marks[c as usize] = true;
        ring.push_back_reserved(c);
    }
}

/// Whether some tick is at a place: at each gate one is, and at the envelope of a slice of two ticks
/// or more.
fn meets_tick(grid: &Grid, place: u32) -> bool
    requires { place + 1 < 2 * length grid.now }
    ensures yes { IsTrue result → MeetsTick grid.now place }
    ensures no { IsFalse result → (k : ℕ) → k ≤ last_tick grid.now → tick_place grid.now k ≢ place }
{
    grid.known();
    let slice = place / 2;
    place % 2 == 0 || grid.boundary(slice + 1) - grid.boundary(slice) > 1
}

/// The hull of a signal's cells at the ticks from `first` to `last`, where its first cell is `base`.
/// It goes from cell to cell, past the envelopes that no tick is at.
fn hull_between(cells: &[Interval], grid: &Grid, base: u32, first: u32, last: u32) -> Interval
    requires few { length cells.now ≤ most_cells }
    requires among { base + 2 * length grid.now ≤ length cells.now + 1 }
    requires order { first ≤ last }
    requires tick { last ≤ last_tick grid.now }
    ensures { result ≡ join_over (λ k. cell_at cells.now (base + tick_place grid.now k)) first (last - first) }
{
    grid.known();
    let start = grid.place_of(first);
    let end = grid.place_of(last);
    let mut hull = cells[(base + start) as usize];
    for place in start + 1..end + 1 {
        if meets_tick(grid, place) {
            hull = hull.hull(cells[(base + place) as usize]);
        }
    }
    hull
}

#[cfg(test)]
mod tests {
    use super::*;
    use std::process::Abort;
    use std::test::Fail;

    fn interval(rt: &impl Abort, lo: i64, hi: i64) -> Interval {
        Interval::new(lo, hi).expect(rt, "an interval")
    }

    /// A store of one signal in -100..100 and one variable in 0..9.
    fn store_over(rt: &impl Abort, alloc: Global, cuts: &[u32]) -> Result<Store, Fail> {
        let mut store = Store::new(alloc, Grid::from_cuts(alloc, cuts)?);
        let signal = interval(rt, -100, 100);
        assert!(rt; signal.lo() == -100 && signal.hi() == 100);
        assert_eq!(rt; store.add_signal(signal)?, SignalId(0));
        let var = interval(rt, 0, 9);
        assert!(rt; var.lo() == 0 && var.hi() == 9);
        assert_eq!(rt; store.add_var(var)?, VarId(0));
        Ok(store)
    }

    fn narrow(rt: &impl Abort, store: &mut Store, cell: u32, lo: i64, hi: i64) -> Cut {
        assert!(rt; cell < store.cells() && !store.is_empty());
        store.narrow(CellId(cell), interval(rt, lo, hi))
    }

    fn get(rt: &impl Abort, store: &Store, cell: u32) -> (i64, i64) {
        assert!(rt; cell < store.cells() && !store.is_empty());
        let held = store.get(CellId(cell));
        (held.lo(), held.hi())
    }

    fn over(rt: &impl Abort, store: &Store, first: u32, last: u32) -> (i64, i64) {
        assert!(rt; store.signals() > 0 && first <= last && last <= store.grid().ticks());
        assert!(rt; !store.is_empty());
        let hull = store.over_ticks(SignalId(0), first, last);
        if first == last {
            assert_eq!(rt; store.at_tick(SignalId(0), first), hull);
        }
        (hull.lo(), hull.hi())
    }

    #[test]
    fn cells_narrow_and_are_touched_once(rt: HostRuntime) -> Result<(), Fail> {
        let mut store = store_over(&rt, rt.alloc(), &[0, 5, 8])?;
        assert_eq!(rt;
            (store.cells(), store.signals(), store.vars(), store.slices()),
            (6, 1, 1, 2)
        );
        assert_eq!(rt; store.measure(), 5 * 200 + 9);
        assert_eq!(rt; narrow(&rt, &mut store, 5, 3, 20), Cut::Narrowed);
        assert_eq!(rt; get(&rt, &store, 5), (3, 9));
        assert_eq!(rt; narrow(&rt, &mut store, 2, -7, 7), Cut::Narrowed);
        assert_eq!(rt; narrow(&rt, &mut store, 5, 4, 5), Cut::Narrowed);
        assert_eq!(rt; narrow(&rt, &mut store, 5, 4, 5), Cut::Same);
        assert_eq!(rt; store.measure(), 4 * 200 + 14 + 1);
        assert_eq!(rt; store.next_touched(), Some(CellId(5)));
        assert_eq!(rt; store.next_touched(), Some(CellId(2)));
        assert_eq!(rt; store.next_touched(), None);
        assert_eq!(rt; narrow(&rt, &mut store, 5, 6, 7), Cut::Empty);
        assert_eq!(rt; (store.is_empty(), store.measure()), (true, 0));
        Ok(())
    }

    /// Gives a cell an interval of its own.
    fn reset(rt: &impl Abort, store: &mut Store, cell: u32, lo: i64, hi: i64) {
        let to = interval(rt, lo, hi);
        assert!(rt; to.lo() >= -100 && to.hi() <= 100);
        assert!(rt; cell < store.cells() && !store.is_empty());
        store.reset(&[(CellId(cell), to)]);
    }

    #[test]
    fn cells_are_reset(rt: HostRuntime) -> Result<(), Fail> {
        let mut store = store_over(&rt, rt.alloc(), &[0, 5, 8])?;
        assert_eq!(rt; narrow(&rt, &mut store, 0, 3, 4), Cut::Narrowed);
        assert_eq!(rt; narrow(&rt, &mut store, 2, -7, 7), Cut::Narrowed);
        assert_eq!(rt; narrow(&rt, &mut store, 5, 3, 20), Cut::Narrowed);
        reset(&rt, &mut store, 0, -50, 60);
        reset(&rt, &mut store, 5, 2, 9);
        assert_eq!(rt; store.next_touched(), None);
        assert_eq!(rt;
            (
                get(&rt, &store, 0),
                get(&rt, &store, 2),
                get(&rt, &store, 5)
            ),
            ((-50, 60), (-7, 7), (2, 9))
        );
        assert_eq!(rt; store.measure(), 3 * 200 + 110 + 14 + 7);
        Ok(())
    }

    #[test]
    fn ticks_read_gates_and_envelopes(rt: HostRuntime) -> Result<(), Fail> {
        let mut store = store_over(&rt, rt.alloc(), &[0, 5, 6, 8])?;
        for (cell, lo, hi) in [
            (0, 1, 2),
            (1, -4, 9),
            (2, 5, 5),
            (3, -50, 50),
            (4, 6, 6),
            (5, 3, 8),
            (6, 7, 12),
        ] {
            assert_eq!(rt; narrow(&rt, &mut store, cell, lo, hi), Cut::Narrowed);
        }
        for (first, last, hull) in [
            (0, 0, (1, 2)),
            (4, 4, (-4, 9)),
            (5, 5, (5, 5)),
            (6, 6, (6, 6)),
            (5, 6, (5, 6)),
            (5, 7, (3, 8)),
            (4, 6, (-4, 9)),
            (6, 8, (3, 12)),
        ] {
            assert_eq!(rt;
                over(&rt, &store, first, last),
                hull,
                "from {first} to {last}"
            );
        }
        Ok(())
    }
}
