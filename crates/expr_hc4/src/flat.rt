//! A relation as a flat program, operands before operators.

ghost use Rattle.std.specs.Prelude.{◌≡◌, ℕ, ◌+◌, ◌<◌, ◌≤◌, ◌++◌, ◌∷◌, [], length, IfOk, IsTrue};
ghost use Rattle.expr_tree.specs.Trees.{tree_of, relation_of};
ghost use Rattle.expr_tree.specs.Measures.{relation_nodes};
ghost use Rattle.expr_values.specs.Expressions.{Unary, Binary, leaves, numbered, comparison_of, relation_leaves};
ghost use Rattle.expr_values.specs.Targets.{entry_narrowing};
ghost use Rattle.tube_names.specs.Leaves.{first_uses};
ghost use Rattle.tube_spec.specs.Box.{IsBox};
ghost use Rattle.expr_hc4.specs.Programs.{below, code_of, places_of, bound_comparison};
ghost use Rattle.expr_hc4.specs.Outcomes.{outcome_at};

use super::nodes::Node;
use super::passes::{Ending, outcome_of};
use expr_tree::{Rel, RelOp, Term};
use expr_values::{BinaryOp, UnaryOp};
use int_interval::Interval;
use std::alloc::Global;
use std::marker::Model;
use tube_io::NoMemory;
use tube_names::{Leaf, first_uses};

/// A relation whose names are bound to signals and variables, as a flat program: the list of its nodes, operands before operators.
///
/// Contracts see the program, which is a comparison of its two sides with the names numbered from the left, and what they stand for.
#[derive(Drop)]
pub struct Flat {
    op: RelOp,
    nodes: Vec<Node>,
    // the index of the root of the left side; that of the right one is the last
    left: usize,
    // the indices of the name leaves, from the left
    places: Vec<usize>,
    leaves: Vec<Leaf>,
    // the leaves, each once
    names: Vec<Leaf>,
}

impl Model for Flat {
    ghost use Rattle.expr_hc4.specs.Programs.{Program, IsFlat};

    ghost Value = { Program };

    ghost view = { λ a. record { op = a.op; nodes = a.nodes.items; left = a.left; leaves = a.leaves.items } };

    ghost invariant = { λ a. IsFlat a.op a.nodes.items a.left a.places.items a.leaves.items a.names.items };
}

/// The lists of a program while it grows.
#[derive(Drop)]
struct Draft {
    nodes: Vec<Node>,
    places: Vec<usize>,
}

impl Draft {
    /// Adds the nodes of a term, whose names have the next numbers, and answers the index of its root.
    #[cycle(add)]
    fn add(&mut self, term: &Term) -> Result<usize, NoMemory>
        ensures nodes { let e = numbered (tree_of term.now) (length self.old.places.items) in IfOk result (λ root. self.new.nodes.items ≡ self.old.nodes.items ++ code_of e (length self.old.nodes.items)) }
        ensures places { let e = numbered (tree_of term.now) (length self.old.places.items) in IfOk result (λ root. self.new.places.items ≡ self.old.places.items ++ places_of e (length self.old.nodes.items)) }
        ensures root { let e = numbered (tree_of term.now) (length self.old.places.items) in IfOk result (λ root. root ≡ length self.old.nodes.items + below e) }
    {
        match term {
            Term::Num(n) => self.add_node(Node::Constant(*n)),
            Term::Name(_) => {
                let place = self.nodes.len();
                let entry = self.places.len();
                self.places.push(place)?;
                self.add_node(Node::Entry(entry))
            }
            Term::Neg(a) => self.add_one(UnaryOp::Neg, a),
            Term::Sqr(a) => self.add_one(UnaryOp::Sqr, a),
            Term::Abs(a) => self.add_one(UnaryOp::Abs, a),
            Term::Add(a, b) => self.add_two(BinaryOp::Add, a, b),
            Term::Sub(a, b) => self.add_two(BinaryOp::Sub, a, b),
            Term::Mul(a, b) => self.add_two(BinaryOp::Mul, a, b),
            Term::Min(a, b) => self.add_two(BinaryOp::Min, a, b),
            Term::Max(a, b) => self.add_two(BinaryOp::Max, a, b),
        }
    }

    /// Adds the nodes of an operator on a term, in the same way.
    #[cycle(add)]
    fn add_one(&mut self, op: UnaryOp, a: &Term) -> Result<usize, NoMemory>
        ensures nodes { let e = Unary op (numbered (tree_of a.now) (length self.old.places.items)) in IfOk result (λ root. self.new.nodes.items ≡ self.old.nodes.items ++ code_of e (length self.old.nodes.items)) }
        ensures places { let e = Unary op (numbered (tree_of a.now) (length self.old.places.items)) in IfOk result (λ root. self.new.places.items ≡ self.old.places.items ++ places_of e (length self.old.nodes.items)) }
        ensures root { let e = Unary op (numbered (tree_of a.now) (length self.old.places.items)) in IfOk result (λ root. root ≡ length self.old.nodes.items + below e) }
    {
        let a = self.add(a)?;
        self.add_node(Node::Unary(op, a))
    }

    /// Adds the nodes of an operator on two terms, in the same way.
    #[cycle(add)]
    fn add_two(&mut self, op: BinaryOp, a: &Term, b: &Term) -> Result<usize, NoMemory>
        ensures nodes { let k = length self.old.places.items in let e = Binary op (numbered (tree_of a.now) k) (numbered (tree_of b.now) (k + leaves (tree_of a.now))) in
            IfOk result (λ root. self.new.nodes.items ≡ self.old.nodes.items ++ code_of e (length self.old.nodes.items)) }
        ensures places { let k = length self.old.places.items in let e = Binary op (numbered (tree_of a.now) k) (numbered (tree_of b.now) (k + leaves (tree_of a.now))) in
            IfOk result (λ root. self.new.places.items ≡ self.old.places.items ++ places_of e (length self.old.nodes.items)) }
        ensures root { let k = length self.old.places.items in let e = Binary op (numbered (tree_of a.now) k) (numbered (tree_of b.now) (k + leaves (tree_of a.now))) in
            IfOk result (λ root. root ≡ length self.old.nodes.items + below e) }
    {
        let a = self.add(a)?;
        let b = self.add(b)?;
        self.add_node(Node::Binary(op, a, b))
    }

    /// Adds one node, and answers its index.
    fn add_node(&mut self, node: Node) -> Result<usize, NoMemory>
        ensures nodes { IfOk result (λ root. self.new.nodes.items ≡ self.old.nodes.items ++ node ∷ []) }
        ensures places { self.new.places.items ≡ self.old.places.items }
        ensures root { IfOk result (λ root. root ≡ length self.old.nodes.items) }
    {
        let root = self.nodes.len();
        self.nodes.push(node)?;
        Ok(root)
    }
}

impl Flat {
    /// The program of a relation whose names stand for `leaves`, from the left.
    pub fn new(alloc: Global, rel: &Rel, leaves: &[Leaf]) -> Result<Flat, NoMemory>
        requires few { relation_nodes (relation_of rel.now) ≤ 256 }
        requires leaves { length leaves.now ≡ relation_leaves (relation_of rel.now) }
        ensures comparison { IfOk result (λ flat. bound_comparison flat ≡ comparison_of (relation_of rel.now)) }
        ensures bound { IfOk result (λ flat. flat.leaves ≡ leaves.now) }
    {
        let mut draft = Draft {
            nodes: Vec::new(alloc),
            places: Vec::new(alloc),
        };
        let left = draft.add(&rel.left)?;
        draft.add(&rel.right)?;
        let Draft { nodes, places } = draft;
        let names = first_uses(alloc, leaves)?;
        Ok(Flat {
            op: rel.op,
            nodes,
            left,
            places,
            leaves: Vec::from_slice(alloc, leaves)?,
            names,
        })
    }

    /// What its names stand for, from the left.
    pub fn leaves(&self) -> &[Leaf]
        ensures value { result.now ≡ self.now.leaves }
        ensures few { length result.now ≤ 256 }
    {
        self.leaves.as_slice()
    }

    /// What its names stand for, each once.
    pub(crate) fn names(&self) -> &[Leaf]
        ensures value { result.now ≡ first_uses self.now.leaves }
        ensures few { length result.now ≤ 256 }
    {
        self.names.as_slice()
    }

    /// Whether it has at most so many nodes and name leaves.
    pub(crate) fn is_within(&self, room: usize) -> bool
        ensures yes { IsTrue result → (length self.now.nodes ≤ room) × (length self.now.leaves ≤ room) }
        ensures few { (length self.now.nodes ≤ 256) × (length self.now.leaves ≤ 256) }
    {
        self.nodes.len() <= room && self.leaves.len() <= room
    }

    /// What the relation leaves of its names, where `entries` are their intervals, from the left: how the passes end, with the targets of the
    /// names, from the left, where there are such. There is room for `N` nodes.
    pub(crate) fn outcome<const N: usize>(
        &self,
        entries: &[Interval],
        targets: &mut [Interval],
    ) -> Ending
        requires entries { length entries.now ≡ length self.now.leaves }
        requires nodes { length self.now.nodes ≤ N }
        requires leaves { length self.now.leaves ≤ N }
        requires targets { length self.now.leaves ≤ length targets.old }
        requires room { N ≤ 256 }
        requires proper { IsBox entries.now }
        ensures { (j : ℕ) → j < length self.now.leaves → outcome_at result targets.new j ≡ entry_narrowing entries.now (bound_comparison self.now) j }
    {
        outcome_of::<N>(
            self.op,
            &self.nodes,
            self.left,
            &self.places,
            entries,
            targets,
        )
    }
}
