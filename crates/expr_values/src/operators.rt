//! The operators, each with its value and what it leaves of its operands.

ghost use Rattle.std.specs.Prelude.{◌≡◌};
ghost use Rattle.expr_values.specs.Operators.{bounded, unary_value, unary_target, binary_value, left_target, right_target};
ghost use Rattle.tube_spec.specs.Span.{add_of, sub_of};

use int_interval::Interval;

/// The operators of one operand.
#[derive(Clone, Copy, Debug, PartialEq, Eq)]
pub enum UnaryOp {
    /// The number with the other sign.
    Neg,
    /// The square.
    Sqr,
    /// The absolute value.
    Abs,
}

/// The operators of two operands.
#[derive(Clone, Copy, Debug, PartialEq, Eq)]
pub enum BinaryOp {
    /// The sum.
    Add,
    /// The first less the second.
    Sub,
    /// The product.
    Mul,
    /// The lesser of both.
    Min,
    /// The greater of both.
    Max,
}

// Picks a column of the table of operators.
macro_rules! column {
    (value, $value:expr, $left:expr) => {
        $value
    };
    (left, $value:expr, $left:expr) => {
        $left
    };
    (value, $value:expr, $left:expr, $right:expr) => {
        $value
    };
    (left, $value:expr, $left:expr, $right:expr) => {
        $left
    };
    (right, $value:expr, $left:expr, $right:expr) => {
        $right
    };
}

// The table of operators. A row has the value of an operator over `a`, or over `a` and `b`, and then what a target `c` of that value leaves
// of each operand. The column of values looks at no target.
macro_rules! operators {
    ($column:ident, $op:expr, $a:ident, $c:ident) => {
        match $op {
            UnaryOp::Neg => column!($column, Some($a.neg()), $a.meet($c.neg())),
            UnaryOp::Sqr => column!($column, $a.sqr(), $a.back_sqr($c)),
            UnaryOp::Abs => column!($column, Some($a.abs()), $a.back_abs($c)),
        }
    };
    ($column:ident, $op:expr, $a:ident, $b:ident, $c:ident) => {
        match $op {
            BinaryOp::Add => column!(
                $column,
                try_add($a, $b),
                $a.back_add($b, $c),
                $b.back_add($a, $c)
            ),
            BinaryOp::Sub => column!(
                $column,
                try_sub($a, $b),
                $a.back_add($b.neg(), $c),
                $b.back_add($a.neg(), $c.neg())
            ),
            BinaryOp::Mul => column!(
                $column,
                $a.mul($b),
                $a.back_mul($b, $c),
                $b.back_mul($a, $c)
            ),
            BinaryOp::Min => column!(
                $column,
                Some($a.min($b)),
                $a.back_min($b, $c),
                $b.back_min($a, $c)
            ),
            BinaryOp::Max => column!(
                $column,
                Some($a.max($b)),
                $a.back_max($b, $c),
                $b.back_max($a, $c)
            ),
        }
    };
}

impl UnaryOp {
    /// The values of the members of the operand `a`. None exactly where their hull leaves [`int_interval::BOUND`].
    pub fn value(self, a: Interval) -> Option<Interval>
        ensures { result ≡ bounded (unary_value self a) }
    {
        a.known();
        operators!(value, self, a, a)
    }

    /// What a target `c` of the value leaves of the operand `a`. None exactly where it leaves nothing.
    pub fn target(self, a: Interval, c: Interval) -> Option<Interval>
        ensures { result ≡ unary_target self a c }
    {
        operators!(left, self, a, c)
    }
}

impl BinaryOp {
    /// The hull of the values of members of the operands `a` and `b`. None exactly where it leaves [`int_interval::BOUND`].
    pub fn value(self, a: Interval, b: Interval) -> Option<Interval>
        ensures { result ≡ bounded (binary_value self a b) }
    {
        a.known();
        b.known();
        operators!(value, self, a, b, b)
    }

    /// What a target `c` of the value leaves of the left operand `a`, where the right one is `b`. None exactly where it leaves nothing.
    pub fn left_target(self, a: Interval, b: Interval, c: Interval) -> Option<Interval>
        ensures { result ≡ left_target self a b c }
    {
        a.known();
        b.known();
        c.known();
        operators!(left, self, a, b, c)
    }

    /// What a target `c` of the value leaves of the right operand `b`, where the left one is `a`. None exactly where it leaves nothing.
    pub fn right_target(self, a: Interval, b: Interval, c: Interval) -> Option<Interval>
        ensures { result ≡ right_target self a b c }
    {
        a.known();
        b.known();
        c.known();
        operators!(right, self, a, b, c)
    }
}

/// The sums of a member of each, where they stay within the bound.
fn try_add(a: Interval, b: Interval) -> Option<Interval>
    ensures { result ≡ bounded (add_of a b) }
{
    a.known();
    b.known();
    Interval::new(a.lo() + b.lo(), a.hi() + b.hi())
}

/// The differences of a member of each, where they stay within the bound.
fn try_sub(a: Interval, b: Interval) -> Option<Interval>
    ensures { result ≡ bounded (sub_of a b) }
{
    a.known();
    b.known();
    Interval::new(a.lo() - b.hi(), a.hi() - b.lo())
}
