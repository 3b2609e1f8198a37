//! The components of a paving.

ghost use Rattle.std.specs.Prelude.{◌≡◌, ◌≢◌, ℕ, ◌+◌, ◌-◌, ◌++◌, [], ◌∷◌, ◌<◌, ◌≤◌, IfOk, OnOk, length, slice_index};
ghost use Rattle.tplane_paver.specs.Runs.{AreInOrder, IsBefore, run_at, pair_count};
ghost use Rattle.tplane_paver.specs.Components.{AreComponents, SpansA, SpansB, set_at};
ghost use Rattle.disjoint_sets.specs.Trees.{GoDown};
ghost use Rattle.tplane_paver.specs.Forests.{IsSwept, AddsRun};
ghost use Rattle.tplane_paver.specs.declared.runs.Run.{Run};
ghost use Rattle.tube_spec.specs.Limits.{most_runs};

use crate::runs::{Run, Runs};
use crate::sweep::linked;
use std::alloc::{AllocError, Global};
use std::marker::Model;
use tube_io::NoMemory;

/// Possible pairs that hang together, as runs. A contract sees the list of them, in rising order, which is not empty.
#[derive(Drop)]
pub struct Component {
    runs: Vec<Run>,
}

impl Model for Component {
    ghost use Rattle.std.specs.Prelude.{List, ◌≤◌, length};
    ghost use Rattle.tube_spec.specs.Limits.{most_runs};
    ghost use Rattle.tplane_paver.specs.Runs.{AreInOrder};
    ghost use Rattle.tplane_paver.specs.declared.runs.Run.{Run};

    ghost Value = { List Run };

    ghost view = { λ c. c.runs.items };

    ghost invariant = { λ c. AreInOrder c.runs.items × (1 ≤ length c.runs.items) × (length c.runs.items ≤ most_runs) };
}

impl Component {
    /// One run.
    fn of(alloc: Global, run: Run) -> Result<Component, AllocError>
        requires { run.first ≤ run.last }
        ensures { IfOk result (λ set. set ≡ run ∷ []) }
    {
        let mut runs = Vec::new(alloc);
        runs.push(run)?;
        Ok(Component { runs })
    }

    /// Puts a later run at the end.
    fn push(&mut self, run: Run) -> Result<(), AllocError>
        requires some { run.first ≤ run.last }
        requires later { (m : ℕ) → m < length self.old → IsBefore (run_at self.old m) run }
        requires room { length self.old < most_runs }
        ensures { OnOk result (self.new ≡ self.old ++ run ∷ []) }
    {
        self.runs.push(run)?;
        Ok(())
    }

    /// The runs.
    pub fn runs(&self) -> &[Run]
        ensures all { result.now ≡ self.now }
        ensures some { 1 ≤ length self.now }
        ensures few { length self.now ≤ most_runs }
        ensures order { AreInOrder self.now }
    {
        &self.runs
    }

    /// How many runs there are, one at least.
    pub fn len(&self) -> usize
        ensures { result ≡ length self.now }
    {
        self.runs.len()
    }

    /// A run by its place, from 0 on.
    pub fn run(&self, i: usize) -> Run
        requires { i < length self.now }
        ensures { result ≡ run_at self.now i }
    {
        self.runs[i]
    }

    /// How many pairs there are.
    pub fn pairs(&self) -> u64
        ensures { result ≡ pair_count self.now }
    {
        pairs_in(&self.runs)
    }

    /// The least and the greatest `a` of the pairs.
    pub fn span_a(&self) -> (u32, u32)
        ensures { SpansA self.now result.0 result.1 }
    {
        (self.runs[0].a, self.runs[self.runs.len() - 1].a)
    }

    /// The least and the greatest `b` of the pairs.
    pub fn span_b(&self) -> (u32, u32)
        ensures { SpansB self.now result.0 result.1 }
    {
        (least_first(&self.runs), greatest_last(&self.runs))
    }
}

/// How many pairs are in the runs.
fn pairs_in(runs: &[Run]) -> u64
    requires few { length runs.now ≤ most_runs }
    requires order { AreInOrder runs.now }
    ensures { result ≡ pair_count runs.now }
{
    let mut pairs = 0;
    for run in runs {
        pairs += u64::from(run.last) + 1 - u64::from(run.first);
    }
    pairs
}

/// The least of the first ticks.
fn least_first(runs: &[Run]) -> u32
    requires { 1 ≤ length runs.now }
    ensures low { (i : ℕ) → i < length runs.now → result ≤ (run_at runs.now i).first }
    ensures there { (i : ℕ) × (i < length runs.now) × (result ≡ (run_at runs.now i).first) }
{
    let mut least = runs[0].first;
    for run in runs {
        least = least.min(run.first);
    }
    least
}

/// The greatest of the last ticks.
fn greatest_last(runs: &[Run]) -> u32
    requires { 1 ≤ length runs.now }
    ensures high { (i : ℕ) → i < length runs.now → (run_at runs.now i).last ≤ result }
    ensures there { (i : ℕ) × (i < length runs.now) × (result ≡ (run_at runs.now i).last) }
{
    let mut greatest = runs[0].last;
    for run in runs {
        greatest = greatest.max(run.last);
    }
    greatest
}

/// The components of the pairs in the runs under steps to the eight neighbours, in rising order of their least pair. Each run stands in
/// one. Memory grows with the runs.
pub fn components(alloc: Global, runs: &Runs) -> Result<Vec<Component>, NoMemory>
    ensures { IfOk result (λ sets. AreComponents runs.now sets.items) }
{
    let runs = runs.runs();
    let parents = linked(alloc, runs)?;
    Ok(gather(alloc, runs, &parents)?)
}

/// The runs of each tree, in rising order of the roots.
fn gather(alloc: Global, runs: &[Run], parents: &[u32]) -> Result<Vec<Component>, AllocError>
    requires few { length runs.now ≤ most_runs }
    requires order { AreInOrder runs.now }
    requires swept { IsSwept runs.now parents.now (length runs.now) }
    ensures { IfOk result (λ sets. AreComponents runs.now sets.items) }
{
    let mut labels: Vec<u32> = Vec::with_capacity(alloc, runs.len())?;
    let mut sets = Vec::new(alloc);
    for i in 0..runs.len() {
        let label = label_of(parents, &labels, i as u32, sets.len() as u32);
        add(alloc, &mut sets, label, runs[i])?;
        labels.push(label)?;
    }
    Ok(sets)
}

/// The label of a root is a new one, and that of another number the one of its parent.
fn label_of(parents: &[u32], labels: &[u32], i: u32, fresh: u32) -> u32
    requires within { i < length parents.now }
    requires down { GoDown parents.now }
    requires labels { length labels.now ≡ i }
    ensures root { slice_index parents.now i ≡ i → result ≡ fresh }
    ensures child { slice_index parents.now i ≢ i → result ≡ slice_index labels.now (slice_index parents.now i) }
{
    let parent = parents[i as usize];
    if parent == i {
        return fresh;
    }
    labels[parent as usize]
}

/// Puts a run at the end of a set, or into a new set after all others.
fn add(alloc: Global, sets: &mut Vec<Component>, label: u32, run: Run) -> Result<(), AllocError>
    requires label { label ≤ length sets.old.items }
    requires some { run.first ≤ run.last }
    requires later { (m : ℕ) → m < length (set_at sets.old.items label) → IsBefore (run_at (set_at sets.old.items label) m) run }
    requires room { length (set_at sets.old.items label) < most_runs }
    ensures { OnOk result (AddsRun sets.old.items sets.new.items label run) }
{
    if label as usize == sets.len() {
        sets.push(Component::of(alloc, run)?)?;
        return Ok(());
    }
    sets[label as usize].push(run)
}
