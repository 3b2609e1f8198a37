//! The nodes of a flat program: their values upward, and their targets downward.

ghost use Rattle.std.specs.Prelude.{◌≡◌, ◌<◌, ◌≤◌, Some, None, length, MatchBool};
ghost use Rattle.expr_values.specs.Operators.{bounded};
ghost use Rattle.expr_hc4.specs.Programs.{IsOrdered, node_value, narrowed, set_one, set_two};

use expr_values::{BinaryOp, UnaryOp};
use int_interval::Interval;

/// A node of a flat program. Operands are named by their indices.
#[derive(Clone, Copy, Debug, PartialEq, Eq)]
pub enum Node {
    /// A number.
    Constant(i64),
    /// The name leaf with this number, from the left.
    Entry(usize),
    /// An operator on one operand.
    Unary(UnaryOp, usize),
    /// An operator on two operands.
    Binary(BinaryOp, usize, usize),
}

impl Node {
    /// The value of the node with the index `i`, from the intervals of the name leaves and the values of the nodes before it. None exactly
    /// where it leaves the bound.
    pub(crate) fn value(
        self,
        i: usize,
        entries: &[Interval],
        values: &[Interval],
    ) -> Option<Interval>
        requires ordered { IsOrdered (length entries.now) i self }
        requires room { i ≤ length values.now }
        ensures { result ≡ bounded (node_value entries.now values.now self) }
    {
        match self {
            Node::Constant(n) => Interval::new(n, n),
            Node::Entry(k) => {
                entries[k].known();
                Some(entries[k])
            }
            Node::Unary(op, a) => op.value(values[a]),
            Node::Binary(op, a, b) => op.value(values[a], values[b]),
        }
    }

    /// Replaces the values of the operands of the node with the index `i` by what its target, which stands there, leaves of them. False
    /// exactly where it leaves nothing of one of them.
    pub(crate) fn narrow_operands(self, i: usize, values: &mut [Interval]) -> bool
        requires ordered { IsOrdered (length values.old) i self }
        requires room { i < length values.old }
        ensures { MatchBool result (narrowed self i values.old ≡ Some values.new) (narrowed self i values.old ≡ None) }
    {
        match self {
            Node::Constant(_) | Node::Entry(_) => true,
            Node::Unary(op, a) => {
                let operand = values[a];
                let target = values[i];
                set_one(values, a, op.target(operand, target))
            }
            Node::Binary(op, a, b) => {
                let left = values[a];
                let right = values[b];
                let target = values[i];
                let left_target = op.left_target(left, right, target);
                let right_target = op.right_target(left, right, target);
                set_two(values, a, b, left_target, right_target)
            }
        }
    }
}

/// Writes a target, if there is one, into its place.
fn set_one(values: &mut [Interval], a: usize, target: Option<Interval>) -> bool
    requires { a < length values.old }
    ensures { MatchBool result (set_one values.old a target ≡ Some values.new) (set_one values.old a target ≡ None) }
{
    match target {
        Some(target) => {
            values[a] = target;
            true
        }
        None => false,
    }
}

/// Writes two targets, if there are both, into their places.
pub(crate) fn set_two(
    values: &mut [Interval],
    a: usize,
    b: usize,
    left: Option<Interval>,
    right: Option<Interval>,
) -> bool
    requires a { a < length values.old }
    requires b { b < length values.old }
    ensures { MatchBool result (set_two values.old a b left right ≡ Some values.new) (set_two values.old a b left right ≡ None) }
{
    match (left, right) {
        (Some(left), Some(right)) => {
            values[a] = left;
            values[b] = right;
            true
        }
        _ => false,
    }
}
