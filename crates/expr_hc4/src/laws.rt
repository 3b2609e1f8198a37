//! What holds of relations as constraints.

ghost use Rattle.std.specs.Prelude.{◌≡◌, ℕ, List, [], All, IsSome, length};
ghost use Rattle.std.specs.List.{IsDistinct};
ghost use Rattle.tube_spec.specs.Span.{Span};
ghost use Rattle.tube_spec.specs.Grid.{IsGrid};
ghost use Rattle.tube_spec.specs.Shape.{Shape};
ghost use Rattle.tube_spec.specs.Box.{IsBox, IsBelow};
ghost use Rattle.tube_spec.specs.Projection.{IsStable};
ghost use Rattle.tube_spec.specs.Assignment.{Assignment, IsHull};
ghost use Rattle.tube_store.specs.State.{State};
ghost use Rattle.ctc_core.specs.Answers.{Revises};
ghost use Rattle.ctc_core.specs.declared.Revised.{Revised};
ghost use Rattle.expr_tree.specs.Trees.{Relation};
ghost use Rattle.expr_values.specs.Expressions.{Comparison, comparison_of, relation_leaves};
ghost use Rattle.expr_values.specs.Values.{range_value};
ghost use Rattle.expr_values.specs.Targets.{comparison_targets, narrowing_at, entry_narrowing};
ghost use Rattle.expr_hc4.specs.declared.places.Place.{Place};
ghost use Rattle.tube_names.specs.declared.leaves.Leaf.{Leaf};
ghost use Rattle.expr_hc4.specs.Places.{ExprFits};
ghost use Rattle.tube_names.specs.Leaves.{same_leaf, first_uses};
ghost use Rattle.expr_hc4.specs.Projections.{SatisfiesAt, expr_projections};

/// What holds of relations as constraints.
///
/// The hull of an assignment is stable under the projections of a relation at a place, where the relation holds of it: at gates and
/// envelopes at every tick, with variables having their one value. Within ranges over which both sides have values, no value leaves the
/// bound, so that each projection is the target of its name. The names of a relation that stand once are distinct. A relation of numbers
/// alone has no projection, and a firing of no projections leaves the store as it was.
pub fn expr_law()
    ensures stable { (s : Shape) (a : Assignment) (hull : List Span) → IsGrid s.grid → IsHull s a hull → (place : Place) (leaves : List Leaf) (r : Relation) → length leaves ≡ relation_leaves r
        → ExprFits s place leaves → SatisfiesAt s place a leaves (comparison_of r) → All (IsStable hull) (expr_projections s place leaves (comparison_of r)) }
    ensures within { (xs ranges : List Span) (c : Comparison) → IsBox xs → IsBelow xs ranges → IsSome (range_value ranges c.left) → IsSome (range_value ranges c.right)
        → (j : ℕ) → entry_narrowing xs c j ≡ narrowing_at (comparison_targets xs c) j }
    ensures distinct { (leaves : List Leaf) → IsDistinct same_leaf (first_uses leaves) }
    ensures nameless { (s : Shape) (place : Place) (leaves : List Leaf) (r : Relation) → length leaves ≡ relation_leaves r → relation_leaves r ≡ 0 → expr_projections s place leaves (comparison_of r) ≡ [] }
    ensures untouched { (old new : State) (answer : Revised) → Revises [] old new answer → new ≡ old }
{}
