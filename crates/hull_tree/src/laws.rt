//! What possible and sure pairs say of trajectories.

ghost use Rattle.std.specs.Prelude.{ℕ, ◌<◌, ◌≤◌, ◌≡◌, true, List, length};
ghost use Rattle.tube_spec.specs.Span.{Span};
ghost use Rattle.tube_spec.specs.Grid.{IsGrid, last_tick};
ghost use Rattle.tube_spec.specs.Shape.{Shape};
ghost use Rattle.tube_spec.specs.Box.{IsBelow};
ghost use Rattle.tube_spec.specs.Assignment.{Assignment, value_at, IsHull};
ghost use Rattle.hull_tree.specs.Plane.{plane_of, is_possible, is_sure};
ghost use Rattle.hull_tree.specs.Revisits.{IsRevisit};
ghost use Rattle.tube_names.specs.declared.queries.Query.{Query};

/// Each revisit of a trajectory in a box is a possible pair of the box.
pub fn possible_law()
    ensures { (s : Shape) (w : Assignment) (hull xs : List Span) (q : Query) → IsGrid s.grid → IsHull s w hull → IsBelow hull xs → q.x.0 < length s.signals → q.y.0 < length s.signals
        → (a b : ℕ) → IsRevisit q (last_tick s.grid) (value_at w q.x.0) (value_at w q.y.0) a b → is_possible (plane_of s xs q) a b ≡ true }
{}

/// A sure pair of a box is a revisit of each trajectory in the box.
pub fn sure_law()
    ensures { (s : Shape) (w : Assignment) (hull xs : List Span) (q : Query) → IsGrid s.grid → IsHull s w hull → IsBelow hull xs → q.x.0 < length s.signals → q.y.0 < length s.signals
        → (a b : ℕ) → is_sure (plane_of s xs q) a b ≡ true → IsRevisit q (last_tick s.grid) (value_at w q.x.0) (value_at w q.y.0) a b }
{}
