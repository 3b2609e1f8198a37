//! A relation as a contractor.

ghost use Rattle.std.specs.Prelude.{◌≡◌, ◌<◌, ◌≤◌, ℕ, length, slice_index_or, take, IsSome, IfSome, IsSomeAnd, IsTrue, IsFalse};
ghost use Rattle.tube_spec.specs.Fixpoint.{IsFixpoint};
ghost use Rattle.ctc_core.specs.Answers.{Revises};
ghost use Rattle.tube_spec.specs.Box.{cell_at};
ghost use Rattle.expr_values.specs.Targets.{entry_narrowing};
ghost use Rattle.expr_hc4.specs.Places.{leaf_cell, leaf_cells, ExprFits};
ghost use Rattle.expr_hc4.specs.Projections.{entries_at, expr_projections};
ghost use Rattle.expr_hc4.specs.Programs.{bound_comparison};
ghost use Rattle.expr_hc4.specs.Outcomes.{outcome_at};

use super::flat::Flat;
use super::passes::Ending;
use super::places::{Place, cell_of};
use ctc_core::{Contractor, Formulas, Given, Revised, revise_by_formulas, still_by_formulas};
use int_interval::Interval;
use std::rc::Rc;
use std::sync::ledger::Ledger;
use step_count::Steps;
use tube_names::Leaf;
use tube_store::{CellId, Store};

/// A relation at a gate, at an envelope, or once.
///
/// Each name leaf has one projection, on its cell: what the relation leaves of it in the intervals of the cells of all leaves. It fits a
/// store that has the signals and variables of the leaves and the place; no relation with a signal fits where it is to hold once.
#[derive(Drop)]
pub struct ExprCtc {
    /// The relation.
    pub flat: Rc<Flat>,
    /// Where it holds.
    pub place: Place,
}

impl ExprCtc {
    /// The contractor of a relation at a place.
    pub fn new(flat: Rc<Flat>, place: Place) -> ExprCtc
        ensures { result ≡ record { flat = flat; place = place } }
    {
        ExprCtc { flat, place }
    }

    // What the relation leaves of its leaves in the store's box: how the passes end, with the targets of the leaves where there are such.
    fn outcome<const N: usize>(&self, store: &Store, targets: &mut [Interval]) -> Ending
        requires fits { ExprFits store.now.shape self.now.place self.now.flat.value.leaves }
        requires filled { IsSome store.now.box }
        requires nodes { length self.now.flat.value.nodes ≤ N }
        requires leaves { length self.now.flat.value.leaves ≤ N }
        requires targets { length self.now.flat.value.leaves ≤ length targets.old }
        requires room { N ≤ 256 }
        ensures len { length targets.new ≡ length targets.old }
        ensures found { IfSome store.now.box (λ xs. (j : ℕ) → j < length self.now.flat.value.leaves
            → outcome_at result targets.new j ≡ entry_narrowing (entries_at (leaf_cells store.now.shape self.now.place self.now.flat.value.leaves) xs) (bound_comparison self.now.flat.value) j) }
    {
        store.known();
        let leaves = self.flat.leaves();
        let unset = Interval::new(0, 0).unwrap();
        let mut entries = [unset; N];
        read_leaves(leaves, self.place, store, &mut entries);
        self.flat.outcome::<N>(&entries[..leaves.len()], targets)
    }

    // Fires it, with room for `N` nodes.
    fn fire<const N: usize>(&self, store: &mut Store) -> Revised
        requires fits { ExprFits store.old.shape self.now.place self.now.flat.value.leaves }
        requires nodes { length self.now.flat.value.nodes ≤ N }
        requires leaves { length self.now.flat.value.leaves ≤ N }
        requires room { N ≤ 256 }
        ensures { Revises (expr_projections store.old.shape self.now.place self.now.flat.value.leaves (bound_comparison self.now.flat.value)) store.old store.new result }
    {
        store.known();
        if store.is_empty() {
            return Revised::Empty;
        }
        let unset = Interval::new(0, 0).unwrap();
        let mut targets = [unset; N];
        let ending = self.outcome::<N>(store, &mut targets);
        let found = Found {
            leaves: self.flat.leaves(),
            place: self.place,
            ending,
            targets: &targets,
        };
        revise_by_formulas(&found, store)
    }

    // Whether a firing would change the store, with room for `N` nodes.
    fn test<const N: usize>(&self, store: &Store) -> bool
        requires fits { ExprFits store.now.shape self.now.place self.now.flat.value.leaves }
        requires nodes { length self.now.flat.value.nodes ≤ N }
        requires leaves { length self.now.flat.value.leaves ≤ N }
        requires room { N ≤ 256 }
        ensures yes { IsTrue result → IsSomeAnd store.now.box (λ xs. IsFixpoint (expr_projections store.now.shape self.now.place self.now.flat.value.leaves (bound_comparison self.now.flat.value)) xs → ⊥) }
        ensures no { IsFalse result → IfSome store.now.box (IsFixpoint (expr_projections store.now.shape self.now.place self.now.flat.value.leaves (bound_comparison self.now.flat.value))) }
    {
        if store.is_empty() {
            return false;
        }
        let unset = Interval::new(0, 0).unwrap();
        let mut targets = [unset; N];
        let ending = self.outcome::<N>(store, &mut targets);
        let found = Found {
            leaves: self.flat.leaves(),
            place: self.place,
            ending,
            targets: &targets,
        };
        still_by_formulas(&found, store)
    }
}

/// Reads the intervals of the cells of leaves, from the left, into the first entries.
fn read_leaves(leaves: &[Leaf], place: Place, store: &Store, entries: &mut [Interval])
    requires fits { ExprFits store.now.shape place leaves.now }
    requires few { length leaves.now ≤ length entries.old }
    requires filled { IsSome store.now.box }
    ensures len { length entries.new ≡ length entries.old }
    ensures read { IfSome store.now.box (λ xs. take (length leaves.now) entries.new ≡ entries_at (leaf_cells store.now.shape place leaves.now) xs) }
{
    for j in 0..leaves.len() {
        entries[j] = store.get(cell_of(store, place, leaves[j]));
    }
}

// What was found in a box, as projections on the cells of the leaves whose formulas give just that.
#[derive(Drop)]
struct Found<'a> {
    leaves: &'a [Leaf],
    place: Place,
    ending: Ending,
    // the targets of the leaves, where there are such
    targets: &'a [Interval],
}

impl Formulas for Found<'_> {
    ghost use Rattle.std.specs.Prelude.{◌≤◌, length};
    ghost use Rattle.expr_hc4.specs.Places.{leaf_cells, ExprFits};
    ghost use Rattle.expr_hc4.specs.Projections.{cell_projections};
    ghost use Rattle.expr_hc4.specs.Outcomes.{outcome_at};
    ghost use Rattle.expr_hc4.specs.ExprLaws.{found-monotone, found-in_store};

    ghost projections = { λ c s. cell_projections (leaf_cells s c.place c.leaves.now) (λ j xs. outcome_at c.ending c.targets.now j) };

    ghost fits = { λ c s b. ExprFits s c.place c.leaves.now × (length c.leaves.now ≤ length c.targets.now) × (length c.leaves.now ≤ 256) };

    ghost monotone = { λ c s. found-monotone (λ xs. ExprFits s c.place c.leaves.now × (length c.leaves.now ≤ length c.targets.now) × (length c.leaves.now ≤ 256)) (leaf_cells s c.place c.leaves.now) (outcome_at c.ending c.targets.now) };

    ghost fits_below = { λ c s a b low fits. fits };

    ghost in_store = { λ c s b shape fits. found-in_store s c.place c.leaves.now (outcome_at c.ending c.targets.now) shape fits.0 };

    fn count(&self, _store: &Store) -> u32 {
        self.leaves.len() as u32
    }

    fn target(&self, store: &Store, i: u32) -> CellId {
        cell_of(store, self.place, self.leaves[i as usize])
    }

    fn given(&self, _store: &Store, i: u32) -> Given {
        self.ending.given(self.targets, i as usize)
    }
}

impl Contractor for ExprCtc {
    ghost use Rattle.expr_hc4.specs.Places.{ExprFits, expr_scope};
    ghost use Rattle.expr_hc4.specs.Projections.{expr_projections};
    ghost use Rattle.expr_hc4.specs.Programs.{bound_comparison};
    ghost use Rattle.expr_hc4.specs.ExprLaws.{expr-monotone, expr-reads_only, expr-in_store, expr-fits_more, expr-same_projections, expr-same_scope};

    ghost projections = { λ c s. expr_projections s c.place c.flat.value.leaves (bound_comparison c.flat.value) };

    ghost scope = { λ c s. expr_scope s c.place c.flat.value.leaves };

    ghost fits = { λ c s b. ExprFits s c.place c.flat.value.leaves };

    ghost monotone = { λ c s. expr-monotone (λ xs. ExprFits s c.place c.flat.value.leaves) s c.place c.flat.value.leaves (bound_comparison c.flat.value) };

    ghost reads_only = { λ c s. expr-reads_only (λ xs. ExprFits s c.place c.flat.value.leaves) s c.place c.flat.value.leaves (bound_comparison c.flat.value) };

    ghost fits_local = { λ c s xs ys same fits. fits };

    ghost fits_below = { λ c s a b low fits. fits };

    ghost in_store = { λ c s b shape fits. expr-in_store s c.place c.flat.value.leaves (bound_comparison c.flat.value) shape fits };

    ghost fits_more = { λ c s t b more grows fits. expr-fits_more s t c.place c.flat.value.leaves grows fits };

    ghost same_projections = { λ c s t b grows fits. expr-same_projections s t c.place c.flat.value.leaves (bound_comparison c.flat.value) grows fits };

    ghost same_scope = { λ c s t b grows fits. expr-same_scope s t c.place c.flat.value.leaves grows fits };

    fn reads(&self, _store: &Store) -> u32 {
        self.flat.names().len() as u32
    }

    fn read(&self, store: &Store, i: u32) -> CellId {
        cell_of(store, self.place, self.flat.names()[i as usize])
    }

    fn writes(&self, _store: &Store) -> u32 {
        self.flat.leaves().len() as u32
    }

    fn written(&self, store: &Store, i: u32) -> CellId {
        cell_of(store, self.place, self.flat.leaves()[i as usize])
    }

    fn revise<L: Ledger>(&self, store: &mut Store, steps: &mut Steps<L>) -> Revised {
        steps.tick();
        if self.flat.is_within(16) {
            self.fire::<16>(store)
        } else if self.flat.is_within(64) {
            self.fire::<64>(store)
        } else {
            self.fire::<256>(store)
        }
    }

    fn still<L: Ledger>(&self, store: &Store, steps: &mut Steps<L>) -> bool {
        steps.tick();
        if self.flat.is_within(16) {
            self.test::<16>(store)
        } else if self.flat.is_within(64) {
            self.test::<64>(store)
        } else {
            self.test::<256>(store)
        }
    }
}
