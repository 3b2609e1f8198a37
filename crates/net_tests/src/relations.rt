//! Relations over the variables of a net, read from their texts.

ghost use Rattle.std.specs.Prelude.{◌≡◌, ◌+◌, ◌≤◌, IsTrue, IfOk, OnOk, vec_len};
ghost use Rattle.tube_spec.specs.Span.{IsBounded};
ghost use Rattle.expr_tree.specs.Trees.{relation_of, tree_of};
ghost use Rattle.expr_tree.specs.Measures.{relation_nodes};
ghost use Rattle.expr_values.specs.Expressions.{leaves, relation_leaves};
ghost use Rattle.expr_hc4.specs.Places.{LeafFits, ExprFits};

use ctc_network::Order;
use expr_hc4::{Flat, Leaf, Place};
use expr_text::parse;
use expr_tree::{Rel, Term};
use int_interval::Interval;
use std::alloc::Global;
use std::test::Fail;
use tube_store::{Store, VarId};

pub(crate) const ORDERS: [Order; 3] = [Order::Fifo, Order::Lifo, Order::Rank];

// The relation that a text is.
fn relation(alloc: Global, text: &[u8]) -> Result<Rel, Fail>
    ensures { IfOk result (λ rel. relation_nodes (relation_of rel) ≤ 256) }
{
    if text.len() > 1_000_000 {
        return Err(Fail::from("a text too long"));
    }
    match parse(alloc, text) {
        Ok(rel) => Ok(rel),
        Err(_) => Err(Fail::from("no relation")),
    }
}

// What a name stands for: `a`, `b` and `c` for the first variables.
fn leaf_of(name: &[u8]) -> Result<Leaf, Fail> {
    match name {
        [b'a'] => Ok(Leaf::Var(VarId(0))),
        [b'b'] => Ok(Leaf::Var(VarId(1))),
        [b'c'] => Ok(Leaf::Var(VarId(2))),
        _ => Err(Fail::from("no such name")),
    }
}

// Adds what the names of a term stand for, from the left.
fn bind(term: &Term, bound: &mut Vec<Leaf>) -> Result<(), Fail>
    ensures { OnOk result (vec_len bound.new ≡ vec_len bound.old + leaves (tree_of term.now)) }
{
    match term {
        Term::Num(_) => Ok(()),
        Term::Name(name) => {
            bound.push(leaf_of(name.bytes())?)?;
            Ok(())
        }
        Term::Neg(a) | Term::Sqr(a) | Term::Abs(a) => bind(a, bound),
        Term::Add(a, b) | Term::Sub(a, b) | Term::Mul(a, b) | Term::Min(a, b) | Term::Max(a, b) => {
            bind(a, bound)?;
            bind(b, bound)
        }
    }
}

/// The relation of a text, as a program over the first variables.
pub(crate) fn program(alloc: Global, text: &[u8]) -> Result<Flat, Fail> {
    let rel = relation(alloc, text)?;
    let mut leaves = Vec::new(alloc);
    bind(&rel.left, &mut leaves)?;
    bind(&rel.right, &mut leaves)?;
    Ok(Flat::new(alloc, &rel, &leaves)?)
}

// Whether a leaf is a variable of the store.
fn has_cell(store: &Store, leaf: Leaf) -> bool
    ensures { IsTrue result → LeafFits store.now.shape Place.Once leaf }
{
    match leaf {
        Leaf::Var(v) => v.0 < store.vars(),
        Leaf::Sig(_) => false,
    }
}

/// Whether all leaves are variables of the store.
pub(crate) fn have_cells(store: &Store, leaves: &[Leaf]) -> bool
    ensures { IsTrue result → ExprFits store.now.shape Place.Once leaves.now }
{
    leaves.iter().all(|leaf| has_cell(store, *leaf))
}

/// A declared range.
pub(crate) fn range_from(bounds: (i64, i64)) -> Result<Interval, Fail>
    ensures { IfOk result (IsBounded 500000000) }
{
    let (lo, hi) = bounds;
    if lo < -500_000_000 || hi > 500_000_000 {
        return Err(Fail::from("a range too wide"));
    }
    Ok(Interval::new(lo, hi).ok_or("no interval")?)
}
