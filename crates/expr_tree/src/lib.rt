//! The trees of expressions: terms over whole numbers and names, and the relations between two of them.
#![tactic(auto)]

ghost use Rattle.std.specs.Prelude.{◌≡◌, IfOk};
ghost use Rattle.expr_tree.specs.Trees.{tree_of, relation_of};

use std::alloc::Global;
use tube_io::{NoMemory, Text};

/// A term. A name stands for the value of a signal or a variable, a number for itself. Values are whole numbers.
#[derive(Debug, Drop, PartialEq)]
pub enum Term {
    /// A number. A text spells those of one to eighteen digits, without a sign.
    Num(i64),
    /// A name, of a signal, of a variable, or of a beacon with `.x` or `.y` after it.
    Name(Text),
    /// The number with the other sign.
    Neg(Box<Term>),
    /// The square.
    Sqr(Box<Term>),
    /// The absolute value.
    Abs(Box<Term>),
    /// The sum.
    Add(Box<Term>, Box<Term>),
    /// The first less the second.
    Sub(Box<Term>, Box<Term>),
    /// The product.
    Mul(Box<Term>, Box<Term>),
    /// The lesser of both.
    Min(Box<Term>, Box<Term>),
    /// The greater of both.
    Max(Box<Term>, Box<Term>),
}

#[cycle(duplicate)]
fn again(alloc: Global, term: &Term) -> Result<Box<Term>, NoMemory>
    ensures { IfOk result (λ copy. tree_of copy.value ≡ tree_of term.now) }
{
    let copy = term.duplicate(alloc)?;
    Ok(Box::new(alloc, copy)?)
}

impl Term {
    /// The same term in memory of its own.
    #[cycle(duplicate)]
    pub fn duplicate(&self, alloc: Global) -> Result<Term, NoMemory>
        ensures { IfOk result (λ copy. tree_of copy ≡ tree_of self.now) }
    {
        match self {
            Term::Num(n) => Ok(Term::Num(*n)),
            Term::Name(text) => Ok(Term::Name(Text::new(alloc, text.bytes())?)),
            Term::Neg(a) => Ok(Term::Neg(again(alloc, a)?)),
            Term::Sqr(a) => Ok(Term::Sqr(again(alloc, a)?)),
            Term::Abs(a) => Ok(Term::Abs(again(alloc, a)?)),
            Term::Add(a, b) => Ok(Term::Add(again(alloc, a)?, again(alloc, b)?)),
            Term::Sub(a, b) => Ok(Term::Sub(again(alloc, a)?, again(alloc, b)?)),
            Term::Mul(a, b) => Ok(Term::Mul(again(alloc, a)?, again(alloc, b)?)),
            Term::Min(a, b) => Ok(Term::Min(again(alloc, a)?, again(alloc, b)?)),
            Term::Max(a, b) => Ok(Term::Max(again(alloc, a)?, again(alloc, b)?)),
        }
    }
}

/// How two terms are compared.
#[derive(Clone, Copy, Debug, PartialEq, Eq)]
pub enum RelOp {
    /// Equal.
    Eq,
    /// Less.
    Lt,
    /// Less or equal.
    Le,
    /// Greater.
    Gt,
    /// Greater or equal.
    Ge,
}

/// A relation between two terms.
#[derive(Debug, Drop, PartialEq)]
pub struct Rel {
    /// How the left term compares to the right one.
    pub op: RelOp,
    /// The left term.
    pub left: Term,
    /// The right term.
    pub right: Term,
}

impl Rel {
    /// The same relation in memory of its own.
    pub fn duplicate(&self, alloc: Global) -> Result<Rel, NoMemory>
        ensures { IfOk result (λ copy. relation_of copy ≡ relation_of self.now) }
    {
        Ok(Rel {
            op: self.op,
            left: self.left.duplicate(alloc)?,
            right: self.right.duplicate(alloc)?,
        })
    }
}

#[cfg(test)]
mod tests {
    use super::*;

    fn leaf(alloc: Global, n: i64) -> Result<Box<Term>, NoMemory> {
        Ok(Box::new(alloc, Term::Num(n))?)
    }

    #[test]
    fn duplicates_terms(rt: HostRuntime) -> Result<(), NoMemory> {
        let alloc = rt.alloc();
        let terms = [
            Term::Num(-7),
            Term::Name(Text::new(alloc, b"depth")?),
            Term::Neg(leaf(alloc, 1)?),
            Term::Sqr(leaf(alloc, 1)?),
            Term::Abs(leaf(alloc, 1)?),
            Term::Add(leaf(alloc, 1)?, leaf(alloc, 2)?),
            Term::Sub(leaf(alloc, 1)?, leaf(alloc, 2)?),
            Term::Mul(leaf(alloc, 1)?, leaf(alloc, 2)?),
            Term::Min(leaf(alloc, 1)?, leaf(alloc, 2)?),
            Term::Max(leaf(alloc, 1)?, leaf(alloc, 2)?),
        ];
        for (i, term) in terms.iter().enumerate() {
            let copy = term.duplicate(alloc)?;
            for (j, other) in terms.iter().enumerate() {
                assert_eq!(rt; copy == *other, i == j, "at {i} and {j}");
            }
        }
        Ok(())
    }

    #[test]
    fn duplicates_a_relation(rt: HostRuntime) -> Result<(), NoMemory> {
        let alloc = rt.alloc();
        let rel = Rel {
            op: RelOp::Le,
            left: Term::Num(1),
            right: Term::Num(2),
        };
        let copy = rel.duplicate(alloc)?;
        assert!(rt; copy == rel);
        Ok(())
    }
}
