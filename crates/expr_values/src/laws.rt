//! What holds of every expression and every comparison.

ghost use Rattle.std.specs.Prelude.{◌≡◌, ℕ, ℤ, List};
ghost use Rattle.tube_spec.specs.Span.{Span, Holds, IsWithin};
ghost use Rattle.tube_spec.specs.Narrowing.{IsWithinNarrowing};
ghost use Rattle.tube_spec.specs.Box.{cell_at, IsBox};
ghost use Rattle.expr_tree.specs.Trees.{Relation};
ghost use Rattle.expr_values.specs.Expressions.{Expression, Comparison, relation_leaves, comparison_of};
ghost use Rattle.expr_values.specs.Values.{value_of, number_value, HoldEach, IsTrueOf};
ghost use Rattle.expr_values.specs.Targets.{AreHeld, comparison_targets, entry_narrowing};

/// What holds of every expression and every comparison.
///
/// Where each number is a member of the interval of its entry, the value of the expression over the numbers is a member of its interval
/// value; and where the relation holds of the numbers, each is a member of its target. Lesser intervals give lesser values, and leave
/// less of each entry.
pub fn expression_law()
    ensures member { (xs : List Span) (ns : List ℤ) → HoldEach xs ns → (e : Expression) → Holds (value_of xs e) (number_value ns e) }
    ensures solution { (xs : List Span) (ns : List ℤ) → HoldEach xs ns → (r : Relation) → IsTrueOf ns (comparison_of r) → AreHeld ns 0 (relation_leaves r) (comparison_targets xs (comparison_of r)) }
    ensures value { (xs ys : List Span) → IsBox xs → ((k : ℕ) → IsWithin (cell_at xs k) (cell_at ys k)) → (e : Expression) → IsWithin (value_of xs e) (value_of ys e) }
    ensures narrowing { (xs ys : List Span) → IsBox xs → ((k : ℕ) → IsWithin (cell_at xs k) (cell_at ys k)) → (c : Comparison) (j : ℕ) → IsWithinNarrowing (entry_narrowing xs c j) (entry_narrowing ys c j) }
{}
