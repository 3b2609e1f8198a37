//! The contractor of a point that is one of several marks.

ghost use Rattle.std.specs.Prelude.{◌≡◌, ◌+◌, ◌*◌, ◌++◌, ◌<◌, ◌≤◌, ℕ, None, IsSome, IfSome, All, length, map, slice_index, slice_index_or};
ghost use Rattle.std.specs.List.{concat};
ghost use Rattle.tube_names.specs.Points.{numbers, cells_of};
ghost use Rattle.ctc_core.specs.Answers.{Revises};
ghost use Rattle.ctc_constell.specs.Constellations.{ConstellFits, constell_projections, left_by_marks};
ghost use Rattle.tube_spec.specs.Limits.{most_variables};

use super::boxes::{box_of, hold_by, join, joined, left_by};
use ctc_core::{Contractor, Formulas, Given, Revised, start, still_by_formulas};
use int_interval::Interval;
use std::sync::ledger::Ledger;
use step_count::Steps;
use tube_store::{CellId, Store, VarId};

/// A point of `N` coordinates, 2 or 3, that is one of 1 to 200,000 marks, of which it is not known which.
#[derive(Debug, Drop)]
pub struct ConstellCtc<const N: usize> {
    /// The variables of the point, one a coordinate.
    pub p: [VarId; N],
    /// The variables of each mark.
    pub marks: Vec<[VarId; N]>,
}

impl<const N: usize> ConstellCtc<N> {
    /// The contractor of the point `p` that is one of the `marks`. It takes no memory.
    pub fn new(p: [VarId; N], marks: Vec<[VarId; N]>) -> ConstellCtc<N>
        requires some { 2 ≤ N }
        requires few { N ≤ 3 }
        requires some_marks { 1 ≤ length marks.items }
        requires few_marks { length marks.items ≤ most_variables }
        ensures { result ≡ record { p = p.entry; marks = marks.entry } }
    {
        ConstellCtc { p, marks }
    }

    // What the marks leave of coordinate `i` of the point, if anything.
    fn left(&self, store: &Store, i: usize) -> Option<Interval>
        requires fits { ConstellFits store.now.shape (numbers self.now.p) (map numbers self.now.marks.items) }
        requires filled { IsSome store.now.box }
        requires coordinate { i < N }
        ensures { let s = store.now.shape in IfSome store.now.box (λ xs. result ≡ left_by_marks (cells_of s (numbers self.now.p)) (map (cells_of s) (map numbers self.now.marks.items)) xs i) }
    {
        let point = box_of(store, &self.p);
        let mut hull = None;
        for mark in &self.marks {
            let here = box_of(store, mark);
            hull = join(hull, left_by(&point, &here, i));
        }
        hull
    }

    // What the marks leave of each coordinate of the point. Each mark is looked at once.
    fn lefts(&self, store: &Store) -> [Option<Interval>; N]
        requires fits { ConstellFits store.now.shape (numbers self.now.p) (map numbers self.now.marks.items) }
        requires filled { IsSome store.now.box }
        ensures size { length result ≡ N }
        ensures each { let s = store.now.shape in (k : ℕ) → k < N → IfSome store.now.box (λ xs. slice_index_or result k None ≡ left_by_marks (cells_of s (numbers self.now.p)) (map (cells_of s) (map numbers self.now.marks.items)) xs k) }
    {
        let point = box_of(store, &self.p);
        let mut hulls = [None; N];
        for mark in &self.marks {
            let here = box_of(store, mark);
            hulls = joined(&point, &here, &hulls);
        }
        hulls
    }

    // Fires each projection once, by what the marks leave before the first of them is narrowed.
    fn fire(&self, store: &mut Store) -> Revised
        requires { ConstellFits store.old.shape (numbers self.now.p) (map numbers self.now.marks.items) }
        ensures { Revises (constell_projections store.old.shape (numbers self.now.p) (map numbers self.now.marks.items)) store.old store.new result }
    {
        store.known();
        if store.is_empty() {
            return Revised::Empty;
        }
        let lefts = self.lefts(store);
        let mut answer = start(store);
        for i in 0..N {
            let var = self.p[i];
            let next = hold_by(store, var, lefts[i]);
            answer = answer.then(next);
        }
        answer
    }

    // The variable with a number of those of the point and of all marks.
    fn var(&self, i: u32) -> VarId
        requires some { 2 ≤ N }
        requires few { N ≤ 3 }
        requires alike { All (λ mark. length mark ≡ N) (map numbers self.now.marks.items) }
        requires below { i < N + N * length self.now.marks.items }
        ensures { result.0 ≡ slice_index (numbers self.now.p ++ concat (map numbers self.now.marks.items)) i }
    {
        let i = i as usize;
        if i < N {
            return self.p[i];
        }
        self.marks[(i - N) / N][(i - N) % N]
    }
}

impl<const N: usize> Formulas for ConstellCtc<N> {
    ghost use Rattle.tube_names.specs.Points.{numbers};
    ghost use Rattle.ctc_constell.specs.Constellations.{constell_projections, ConstellFits};
    ghost use Rattle.ctc_constell.specs.ConstellLaws.{constell-monotone, constell-in_store};

    ghost projections = { λ c s. constell_projections s (numbers c.p) (map numbers c.marks.items) };

    ghost fits = { λ c s b. ConstellFits s (numbers c.p) (map numbers c.marks.items) };

    ghost monotone = { λ c s. constell-monotone (λ xs. ConstellFits s (numbers c.p) (map numbers c.marks.items)) s (numbers c.p) (map numbers c.marks.items) };

    ghost fits_below = { λ c s a b low fits. fits };

    ghost in_store = { λ c s b shape fits. (constell-in_store s (numbers c.p) (map numbers c.marks.items) shape fits).1 };

    fn count(&self, _store: &Store) -> u32 {
        self.p.len() as u32
    }

    fn target(&self, store: &Store, i: u32) -> CellId {
        store.var(self.p[i as usize])
    }

    fn given(&self, store: &Store, i: u32) -> Given {
        match self.left(store, i as usize) {
            Some(left) => Given::Within(left),
            None => Given::Nothing,
        }
    }
}

impl<const N: usize> Contractor for ConstellCtc<N> {
    ghost use Rattle.tube_names.specs.Points.{numbers};
    ghost use Rattle.ctc_constell.specs.Constellations.{constell_projections, constell_scope, ConstellFits};
    ghost use Rattle.ctc_constell.specs.ConstellLaws.{constell-monotone, constell-reads_only, constell-in_store, constell-fits_more, constell-same_projections, constell-same_scope};

    ghost projections = { λ c s. constell_projections s (numbers c.p) (map numbers c.marks.items) };

    ghost scope = { λ c s. constell_scope s (numbers c.p) (map numbers c.marks.items) };

    ghost fits = { λ c s b. ConstellFits s (numbers c.p) (map numbers c.marks.items) };

    ghost monotone = { λ c s. constell-monotone (λ xs. ConstellFits s (numbers c.p) (map numbers c.marks.items)) s (numbers c.p) (map numbers c.marks.items) };

    ghost reads_only = { λ c s. constell-reads_only (λ xs. ConstellFits s (numbers c.p) (map numbers c.marks.items)) s (numbers c.p) (map numbers c.marks.items) };

    ghost fits_local = { λ c s xs ys same fits. fits };

    ghost fits_below = { λ c s a b low fits. fits };

    ghost in_store = { λ c s b shape fits. constell-in_store s (numbers c.p) (map numbers c.marks.items) shape fits };

    ghost fits_more = { λ c s t b more grows fits. constell-fits_more s t (numbers c.p) (map numbers c.marks.items) grows fits };

    ghost same_projections = { λ c s t b grows fits. constell-same_projections s t (numbers c.p) (map numbers c.marks.items) grows fits };

    ghost same_scope = { λ c s t b grows fits. constell-same_scope s t (numbers c.p) (map numbers c.marks.items) grows fits };

    fn reads(&self, _store: &Store) -> u32 {
        (self.p.len() + self.p.len() * self.marks.len()) as u32
    }

    fn read(&self, store: &Store, i: u32) -> CellId {
        store.var(self.var(i))
    }

    fn writes(&self, store: &Store) -> u32 {
        self.count(store)
    }

    fn written(&self, store: &Store, i: u32) -> CellId {
        self.target(store, i)
    }

    fn revise<L: Ledger>(&self, store: &mut Store, steps: &mut Steps<L>) -> Revised {
        steps.tick();
        self.fire(store)
    }

    fn still<L: Ledger>(&self, store: &Store, steps: &mut Steps<L>) -> bool {
        steps.tick();
        still_by_formulas(self, store)
    }
}
