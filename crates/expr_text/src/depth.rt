//! How deep a relation is.

ghost use Rattle.std.specs.Prelude.{◌≡◌, ◌<◌, ◌≤◌, true, false};
ghost use Rattle.expr_tree.specs.Measures.{depth, relation_depth};
ghost use Rattle.expr_tree.specs.Trees.{relation_of, tree_of};

use expr_tree::{Rel, Term};

// Whether each leaf of a term stands on one of so many levels, the first of which is the root's.
#[tactic(auto, using(crate::proofs::Depths::some_depth))]
fn is_within_levels(term: &Term, levels: u32) -> bool
    ensures within { result ≡ true → depth (tree_of term.now) ≤ levels }
    ensures past { result ≡ false → levels < depth (tree_of term.now) }
{
    if levels == 0 {
        return false;
    }
    match term {
        Term::Num(_) | Term::Name(_) => true,
        Term::Neg(a) | Term::Sqr(a) | Term::Abs(a) => is_within_levels(a, levels - 1),
        Term::Add(a, b) | Term::Sub(a, b) | Term::Mul(a, b) | Term::Min(a, b) | Term::Max(a, b) =>
            is_within_levels(a, levels - 1) && is_within_levels(b, levels - 1),
    }
}

// The greatest depth of a relation: nodes on the longest way from it to a leaf, both ends included.
const MAX_DEPTH: u32 = 32;

/// Whether a relation is within the greatest depth.
pub fn is_within_depth(rel: &Rel) -> bool
    ensures within { result ≡ true → relation_depth (relation_of rel.now) ≤ 32 }
    ensures past { result ≡ false → 32 < relation_depth (relation_of rel.now) }
{
    is_within_levels(&rel.left, MAX_DEPTH - 1) && is_within_levels(&rel.right, MAX_DEPTH - 1)
}
