//! The two passes over a flat program: up for the values, down for the targets.

ghost use Rattle.std.specs.Prelude.{◌≡◌, ◌<◌, ◌≤◌, ◌++◌, ◌∷◌, ℕ, List, true, false, length, slice_index, map, MatchBool, IsTrue, All, Some, None};
ghost use Rattle.tube_spec.specs.Span.{Span};
ghost use Rattle.tube_spec.specs.Box.{cell_at, IsBox};
ghost use Rattle.expr_values.specs.Expressions.{Comparison};
ghost use Rattle.expr_values.specs.Operators.{is_bounded};
ghost use Rattle.expr_values.specs.Targets.{both, targets_of, entry_narrowing};
ghost use Rattle.expr_hc4.specs.Programs.{AreOrdered, AreValues, IsNarrowedTo, IsProgram, program_comparison, set_two, values_below, comparison_code, comparison_places};
ghost use Rattle.ctc_core.specs.Given.{narrowing_given};
ghost use Rattle.expr_hc4.specs.Outcomes.{outcome_at};
ghost use Rattle.expr_values.specs.Comparisons.{left_of, right_of};

use super::nodes::{Node, set_two};
use ctc_core::Given;
use expr_tree::RelOp;
use expr_values::{left_of, right_of};
use int_interval::Interval;

/// How the passes of a relation end.
#[derive(Clone, Copy, Debug, PartialEq, Eq)]
pub enum Ending {
    /// With the whole line: the value of some node leaves the bound.
    Whole,
    /// With no number: the target of some node is nothing.
    Nothing,
    /// With a target for each name leaf.
    Within,
}

impl Ending {
    /// What is left of the name leaf with a number, where `targets` are those of the name leaves, from the left.
    pub(crate) fn given(self, targets: &[Interval], i: usize) -> Given
        requires { i < length targets.now }
        ensures { narrowing_given result ≡ outcome_at self targets.now i }
    {
        match self {
            Ending::Whole => Given::Whole,
            Ending::Nothing => Given::Nothing,
            Ending::Within => Given::Within(targets[i]),
        }
    }
}

/// Upward: gives each node its value. False exactly where the value of some node leaves the bound.
pub(crate) fn evaluate(nodes: &[Node], entries: &[Interval], values: &mut [Interval]) -> bool
    requires ordered { AreOrdered (length entries.now) nodes.now }
    requires room { length nodes.now ≤ length values.old }
    ensures yes { (vs : List Span) → AreValues entries.now nodes.now vs → result ≡ true → (k : ℕ) → k < length nodes.now → (cell_at values.new k ≡ cell_at vs k) × (is_bounded (cell_at vs k) ≡ true) }
    ensures no { (vs : List Span) → AreValues entries.now nodes.now vs → result ≡ false → (k : ℕ) × (k < length nodes.now) × (is_bounded (cell_at vs k) ≡ false) }
{
    for i in 0..nodes.len() {
        match nodes[i].value(i, entries, values) {
            Some(value) => values[i] = value,
            None => return false,
        }
    }
    true
}

/// Downward: replaces each node's value by its target, from the last to the first. False exactly where the target of some node is nothing.
pub(crate) fn narrow(nodes: &[Node], values: &mut [Interval]) -> bool
    requires ordered { AreOrdered (length values.old) nodes.now }
    requires room { length nodes.now ≤ length values.old }
    ensures { (xs : List Span) (c : Comparison) (x y : Span) (more : List Span) → nodes.now ≡ comparison_code c
        → values.old ≡ values_below xs c.left ++ (x ∷ (values_below xs c.right ++ (y ∷ more)))
        → IsNarrowedTo result values.new (comparison_places c) (both (targets_of xs c.left x) (targets_of xs c.right y)) }
{
    for i in (0..nodes.len()).rev() {
        if !nodes[i].narrow_operands(i, values) {
            return false;
        }
    }
    true
}

/// Narrows the values of the two sides of a relation, whose roots have the indices `left` and `right`, by each other. False exactly where
/// nothing is left of one of them.
fn compare_sides(op: RelOp, left: usize, right: usize, values: &mut [Interval]) -> bool
    requires left { left < length values.old }
    requires right { right < length values.old }
    ensures { let a = cell_at values.old left in let b = cell_at values.old right in
        MatchBool result (set_two values.old left right (left_of op a b) (right_of op a b) ≡ Some values.new) (set_two values.old left right (left_of op a b) (right_of op a b) ≡ None) }
{
    let a = values[left];
    let b = values[right];
    let left_target = left_of(op, a, b);
    let right_target = right_of(op, a, b);
    set_two(values, left, right, left_target, right_target)
}

/// Whether two intervals have the same bounds.
fn is_same(a: Interval, b: Interval) -> bool
    ensures { IsTrue result → a ≡ b }
{
    a.lo() == b.lo() && a.hi() == b.hi()
}

/// Gathers the values in some places into the first targets.
fn gather(places: &[usize], values: &[Interval], targets: &mut [Interval])
    requires few { length places.now ≤ length targets.old }
    requires among { All (λ p. p < length values.now) places.now }
    ensures { (j : ℕ) → j < length places.now → cell_at targets.new j ≡ cell_at values.now (slice_index places.now j) }
{
    for j in 0..places.len() {
        targets[j] = values[places[j]];
    }
}

/// What a relation of at most `N` nodes leaves of its name leaves, of which `entries` are the intervals: how the passes end, with the targets
/// of the name leaves, from the left, where there are such. Its nodes are those of a program, with the root of its left side at the index
/// `left` and its name leaves at the indices `places`.
///
/// Where the comparison narrows neither side, each node's value is its target, and there is no pass down.
pub(crate) fn outcome_of<const N: usize>(
    op: RelOp,
    nodes: &[Node],
    left: usize,
    places: &[usize],
    entries: &[Interval],
    targets: &mut [Interval],
) -> Ending
    requires program { IsProgram nodes.now left places.now (program_comparison op nodes.now left) }
    requires ordered { AreOrdered (length entries.now) nodes.now }
    requires nodes { length nodes.now ≤ N }
    requires few { length places.now ≤ N }
    requires targets { length places.now ≤ length targets.old }
    requires room { N ≤ 256 }
    requires each { length entries.now ≡ length places.now }
    requires proper { IsBox entries.now }
    ensures { (j : ℕ) → j < length places.now → outcome_at result targets.new j ≡ entry_narrowing entries.now (program_comparison op nodes.now left) j }
{
    let unset = Interval::new(0, 0).unwrap();
    let mut values = [unset; N];
    if !evaluate(nodes, entries, &mut values) {
        return Ending::Whole;
    }
    let right = nodes.len() - 1;
    let left_value = values[left];
    let right_value = values[right];
    if !compare_sides(op, left, right, &mut values) {
        return Ending::Nothing;
    }
    if is_same(values[left], left_value) && is_same(values[right], right_value) {
        gather(places, &values, targets);
        return Ending::Within;
    }
    if !narrow(nodes, &mut values) {
        return Ending::Nothing;
    }
    gather(places, &values, targets);
    Ending::Within
}
