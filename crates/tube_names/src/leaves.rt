//! What the names of a formula stand for.

ghost use Rattle.std.specs.Prelude.{◌≡◌, ◌≤◌, IfOk, length};
ghost use Rattle.std.specs.List.{list_any};
ghost use Rattle.tube_names.specs.Leaves.{same_leaf, first_uses};

use std::alloc::Global;
use tube_io::NoMemory;
use tube_store::{SignalId, VarId};

/// What a name of a relation stands for.
#[derive(Clone, Copy, Debug, PartialEq, Eq)]
pub enum Leaf {
    /// A signal, at the place of the relation.
    Sig(SignalId),
    /// A variable, which has one value.
    Var(VarId),
}

/// Whether two leaves name the same.
pub fn same_leaf(a: Leaf, b: Leaf) -> bool
    ensures { result ≡ same_leaf a b }
{
    match (a, b) {
        (Leaf::Sig(x), Leaf::Sig(y)) => x.0 == y.0,
        (Leaf::Var(v), Leaf::Var(w)) => v.0 == w.0,
        _ => false,
    }
}

/// Whether a leaf stands in a list.
pub fn stands_in(names: &[Leaf], leaf: Leaf) -> bool
    ensures { result ≡ list_any (same_leaf leaf) names.now }
{
    names.iter().any(|name| same_leaf(leaf, *name))
}

/// Each of the leaves once, in the order in which they first stand.
pub fn first_uses(alloc: Global, leaves: &[Leaf]) -> Result<Vec<Leaf>, NoMemory>
    ensures uses { IfOk result (λ names. names.items ≡ first_uses leaves.now) }
    ensures few { IfOk result (λ names. length names.items ≤ length leaves.now) }
{
    let mut names = Vec::new(alloc);
    for leaf in leaves {
        if !stands_in(&names, *leaf) {
            names.push(*leaf)?;
        }
    }
    Ok(names)
}
