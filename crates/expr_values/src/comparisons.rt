//! What a comparison leaves of its two sides.

ghost use Rattle.std.specs.Prelude.{◌≡◌};
ghost use Rattle.expr_values.specs.Comparisons.{up_to, from, left_of, right_of};

use expr_tree::RelOp;
use int_interval::Interval;

/// The members of `a` up to `most`, if there is one.
fn up_to(a: Interval, most: i64) -> Option<Interval>
    ensures { result ≡ up_to a most }
{
    a.known();
    Interval::new(a.lo(), a.hi().min(most))
}

/// The members of `a` from `least` on, if there is one.
fn from(a: Interval, least: i64) -> Option<Interval>
    ensures { result ≡ from a least }
{
    a.known();
    Interval::new(a.lo().max(least), a.hi())
}

// The table of comparisons. A row has what a comparison leaves of the left value `a`, and what it leaves of the right value `b`.
macro_rules! comparisons {
    ($column:ident, $op:expr, $a:ident, $b:ident) => {
        match $op {
            RelOp::Eq => side!($column, $a.meet($b), $b.meet($a)),
            RelOp::Lt => side!($column, up_to($a, $b.hi() - 1), from($b, $a.lo() + 1)),
            RelOp::Le => side!($column, up_to($a, $b.hi()), from($b, $a.lo())),
            RelOp::Gt => side!($column, from($a, $b.lo() + 1), up_to($b, $a.hi() - 1)),
            RelOp::Ge => side!($column, from($a, $b.lo()), up_to($b, $a.hi())),
        }
    };
}

// Picks a column of the table of comparisons.
macro_rules! side {
    (left, $left:expr, $right:expr) => {
        $left
    };
    (right, $left:expr, $right:expr) => {
        $right
    };
}

/// What a comparison leaves of its left value `a`, where the right one is `b`. None exactly where it leaves nothing.
pub fn left_of(op: RelOp, a: Interval, b: Interval) -> Option<Interval>
    ensures { result ≡ left_of op a b }
{
    b.known();
    comparisons!(left, op, a, b)
}

/// What a comparison leaves of its right value `b`, where the left one is `a`. None exactly where it leaves nothing.
pub fn right_of(op: RelOp, a: Interval, b: Interval) -> Option<Interval>
    ensures { result ≡ right_of op a b }
{
    a.known();
    comparisons!(right, op, a, b)
}
