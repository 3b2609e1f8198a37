//! The values of terms.

ghost use Rattle.std.specs.Prelude.{◌≡◌, ◌+◌, ◌≤◌, length, IsSome};
ghost use Rattle.expr_tree.specs.Trees.{tree_of};
ghost use Rattle.expr_values.specs.Expressions.{Unary, Binary, leaves, numbered};
ghost use Rattle.expr_values.specs.Values.{range_value};

use super::operators::{BinaryOp, UnaryOp};
use expr_tree::Term;
use int_interval::Interval;

/// The interval value of a term, of which the names have the intervals `ranges`, from the left. None exactly where the value of some node
/// leaves [`int_interval::BOUND`].
pub fn range_of(term: &Term, ranges: &[Interval]) -> Option<Interval>
    requires { length ranges.now ≡ leaves (tree_of term.now) }
    ensures { result ≡ range_value ranges.now (numbered (tree_of term.now) 0) }
{
    let mut next = 0;
    range_from(term, ranges, &mut next)
}

/// The interval value of a term whose first name has the interval with the number `next`, which becomes that of the first name after it.
#[cycle(range)]
fn range_from(term: &Term, ranges: &[Interval], next: &mut usize) -> Option<Interval>
    requires { next.old + leaves (tree_of term.now) ≤ length ranges.now }
    ensures value { result ≡ range_value ranges.now (numbered (tree_of term.now) next.old) }
    ensures next { IsSome result → next.new ≡ next.old + leaves (tree_of term.now) }
{
    match term {
        Term::Num(n) => Interval::new(*n, *n),
        Term::Name(_) => {
            let range = ranges[*next];
            *next += 1;
            range.known();
            Some(range)
        }
        Term::Neg(a) => range_of_one(UnaryOp::Neg, a, ranges, next),
        Term::Sqr(a) => range_of_one(UnaryOp::Sqr, a, ranges, next),
        Term::Abs(a) => range_of_one(UnaryOp::Abs, a, ranges, next),
        Term::Add(a, b) => range_of_two(BinaryOp::Add, a, b, ranges, next),
        Term::Sub(a, b) => range_of_two(BinaryOp::Sub, a, b, ranges, next),
        Term::Mul(a, b) => range_of_two(BinaryOp::Mul, a, b, ranges, next),
        Term::Min(a, b) => range_of_two(BinaryOp::Min, a, b, ranges, next),
        Term::Max(a, b) => range_of_two(BinaryOp::Max, a, b, ranges, next),
    }
}

/// The interval value of an operator on a term, in the same way.
#[cycle(range)]
fn range_of_one(op: UnaryOp, a: &Term, ranges: &[Interval], next: &mut usize) -> Option<Interval>
    requires { next.old + leaves (tree_of a.now) ≤ length ranges.now }
    ensures value { result ≡ range_value ranges.now (Unary op (numbered (tree_of a.now) next.old)) }
    ensures next { IsSome result → next.new ≡ next.old + leaves (tree_of a.now) }
{
    let a = range_from(a, ranges, next)?;
    op.value(a)
}

/// The interval value of an operator on two terms, in the same way.
#[cycle(range)]
fn range_of_two(
    op: BinaryOp,
    a: &Term,
    b: &Term,
    ranges: &[Interval],
    next: &mut usize,
) -> Option<Interval>
    requires { next.old + (leaves (tree_of a.now) + leaves (tree_of b.now)) ≤ length ranges.now }
    ensures value { result ≡ range_value ranges.now (Binary op (numbered (tree_of a.now) next.old) (numbered (tree_of b.now) (next.old + leaves (tree_of a.now)))) }
    ensures next { IsSome result → next.new ≡ next.old + (leaves (tree_of a.now) + leaves (tree_of b.now)) }
{
    let a = range_from(a, ranges, next)?;
    let b = range_from(b, ranges, next)?;
    op.value(a, b)
}
