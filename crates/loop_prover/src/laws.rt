//! What the labels are good for.

ghost use Rattle.std.specs.Prelude.{ℕ, ℤ, List, All};
ghost use Rattle.tube_names.specs.declared.queries.Query.{Query};
ghost use Rattle.loop_degree.specs.declared.labels.Label.{Label};
ghost use Rattle.loop_degree.specs.Pairs.{IsRising};
ghost use Rattle.loop_degree.specs.Cells.{boundary};
ghost use Rattle.loop_degree.specs.Labels.{label_at};
ghost use Rattle.loop_degree.specs.Boundary.{IsLabelledBoundary};
ghost use Rattle.loop_degree.specs.Steps.{Tubes};
ghost use Rattle.loop_degree.specs.Degree.{HasLabel};
ghost use Rattle.loop_prover.specs.First.{label_of, AreLabels};

/// Does nothing. Its contract says what the labels that [`labels_of`](crate::labels_of) gives are good for: they hold at both ends of each
/// boundary edge, as the law of the degree asks, and `check_cells` gives them a degree.
pub fn labels_law()
    ensures hold { (tubes : Tubes) (q : Query) (d e : ℤ) (cells : List (ℕ × ℕ)) (labels : List (ℕ × ℕ × Label)) → AreLabels (label_of tubes q d e) cells labels
        → All (λ edge. HasLabel tubes q d e (label_at labels) edge.from × HasLabel tubes q d e (label_at labels) edge.to) (boundary cells) }
    ensures counted { (tubes : Tubes) (q : Query) (d e : ℤ) (cells : List (ℕ × ℕ)) (labels : List (ℕ × ℕ × Label)) → AreLabels (label_of tubes q d e) cells labels
        → IsRising cells → IsLabelledBoundary cells labels }
{}
