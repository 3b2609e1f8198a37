//! Trees of numbers that hang together.

ghost use Rattle.std.specs.Prelude.{◌≡◌, ◌≢◌, ◌↔◌, ℕ, ◌<◌, IsTrue, IfOk, length, slice_index};
ghost use Rattle.disjoint_sets.specs.Ways.{Joined};
ghost use Rattle.disjoint_sets.specs.Trees.{AreInOne, IsParent, GoDown, KeepsTrees, JoinsTrees};

use std::alloc::{AllocError, Global};

/// Each number below a count by itself, in a tree of its own.
pub fn alone(alloc: Global, count: u32) -> Result<Vec<u32>, AllocError>
    ensures len { IfOk result (λ v. length v.items ≡ count) }
    ensures own { IfOk result (λ v. (k : ℕ) → k < count → slice_index v.items k ≡ k) }
{
    let mut parents = Vec::with_capacity(alloc, count as usize)?;
    for k in 0..count {
        parents.push(k)?;
    }
    Ok(parents)
}

/// Makes one tree of those of two numbers: the greater root gets the lesser one as its parent. No other numbers hang together by it.
pub fn join(parents: &mut [u32], i: u32, j: u32)
    requires i { i < length parents.old }
    requires j { j < length parents.old }
    requires down { GoDown parents.old }
    ensures { JoinsTrees parents.old parents.new i j }
{
    let a = find(parents, i);
    let b = find(parents, j);
    parents[a.max(b) as usize] = a.min(b);
}

/// Whether two numbers hang together. The trees stay, and their roots.
pub fn are_joined(parents: &mut [u32], i: u32, j: u32) -> bool
    requires i { i < length parents.old }
    requires j { j < length parents.old }
    requires down { GoDown parents.old }
    ensures keeps { KeepsTrees parents.old parents.new }
    ensures joined { IsTrue result ↔ AreInOne parents.new i j }
{
    let a = find(parents, i);
    let b = find(parents, j);
    a == b
}

/// The root of a number, which is the same for all that hang together with it. The trees stay, and their roots; on the way each second number
/// gets its parent's parent, so that later ways are shorter (Tarjan, van Leeuwen, "Worst-case analysis of set union algorithms", 1984).
pub fn find(parents: &mut [u32], from: u32) -> u32
    requires within { from < length parents.old }
    requires down { GoDown parents.old }
    ensures keeps { KeepsTrees parents.old parents.new }
    ensures within { result < length parents.new }
    ensures root { slice_index parents.new result ≡ result }
    ensures joined { Joined (IsParent parents.new) from result }
{
    let mut at = from;
    while parents[at as usize] != at {
        at = halve(parents, at);
    }
    at
}

// Gives a number that is no root its parent's parent.
fn halve(parents: &mut [u32], at: u32) -> u32
    requires within { at < length parents.old }
    requires down { GoDown parents.old }
    requires inner { slice_index parents.old at ≢ at }
    ensures keeps { KeepsTrees parents.old parents.new }
    ensures less { result < at }
    ensures up { slice_index parents.new at ≡ result }
{
    let parent = parents[at as usize];
    let up = parents[parent as usize];
    parents[at as usize] = up;
    up
}
