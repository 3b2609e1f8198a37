//! The canonical text of a relation.

ghost use Rattle.std.specs.Prelude.{◌≡◌, ◌++◌, IfOk, OnOk};
ghost use Rattle.std.specs.Fmt.{signed_decimal};
ghost use Rattle.expr_tree.specs.Trees.{relation_of, tree_of};
ghost use Rattle.expr_text.specs.Canonical.{comparison_text, relation_text, tree_between, tree_front, tree_text};

use expr_tree::{Rel, RelOp, Term};
use itoa::Buffer;
use std::alloc::Global;
use tube_io::NoMemory;

// What stands before the first term of an operator.
fn front(term: &Term) -> &'static [u8]
    ensures { result.now ≡ tree_front (tree_of term.now) }
{
    match term {
        Term::Num(_) | Term::Name(_) => b"",
        Term::Neg(_) => b"(-",
        Term::Sqr(_) => b"sqr(",
        Term::Abs(_) => b"abs(",
        Term::Add(_, _) | Term::Sub(_, _) | Term::Mul(_, _) => b"(",
        Term::Min(_, _) => b"min(",
        Term::Max(_, _) => b"max(",
    }
}

// What stands between two terms.
fn between(term: &Term) -> &'static [u8]
    ensures { result.now ≡ tree_between (tree_of term.now) }
{
    match term {
        Term::Num(_) | Term::Name(_) | Term::Neg(_) | Term::Sqr(_) | Term::Abs(_) => b"",
        Term::Add(_, _) => b"+",
        Term::Sub(_, _) => b"-",
        Term::Mul(_, _) => b"*",
        Term::Min(_, _) | Term::Max(_, _) => b",",
    }
}

fn comparison(op: RelOp) -> &'static [u8]
    ensures { result.now ≡ comparison_text op }
{
    match op {
        RelOp::Eq => b"=",
        RelOp::Lt => b"<",
        RelOp::Le => b"<=",
        RelOp::Gt => b">",
        RelOp::Ge => b">=",
    }
}

fn append(out: &mut Vec<u8>, text: &[u8]) -> Result<(), NoMemory>
    ensures { OnOk result (out.new.items ≡ out.old.items ++ text.now) }
{
    out.extend_from_slice(text)?;
    Ok(())
}

fn append_number(out: &mut Vec<u8>, n: i64) -> Result<(), NoMemory>
    ensures { OnOk result (out.new.items ≡ out.old.items ++ signed_decimal n) }
{
    let mut digits = Buffer::new();
    append(out, digits.format(n).as_bytes())
}

fn append_term(out: &mut Vec<u8>, term: &Term) -> Result<(), NoMemory>
    ensures { OnOk result (out.new.items ≡ out.old.items ++ tree_text (tree_of term.now)) }
{
    match term {
        Term::Num(n) => append_number(out, *n),
        Term::Name(name) => append(out, name.bytes()),
        Term::Neg(a) | Term::Sqr(a) | Term::Abs(a) => {
            append(out, front(term))?;
            append_term(out, a)?;
            append(out, b")")
        }
        Term::Add(a, b) | Term::Sub(a, b) | Term::Mul(a, b) | Term::Min(a, b) | Term::Max(a, b) => {
            append(out, front(term))?;
            append_term(out, a)?;
            append(out, between(term))?;
            append_term(out, b)?;
            append(out, b")")
        }
    }
}

/// The canonical text of a relation: numbers and names as they are, each operator with its terms in
/// brackets, no spaces.
pub fn print(alloc: Global, rel: &Rel) -> Result<Vec<u8>, NoMemory>
    ensures { IfOk result (λ text. text.items ≡ relation_text (relation_of rel.now)) }
{
    let mut text = Vec::new(alloc);
    append_term(&mut text, &rel.left)?;
    append(&mut text, comparison(rel.op))?;
    append_term(&mut text, &rel.right)?;
    Ok(text)
}
