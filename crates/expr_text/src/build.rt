//! The tree of tokens that are a relation, by descent from its left end.

ghost use Rattle.std.specs.Prelude.{◌≡◌, IfOk, option_map};
ghost use Rattle.expr_text.specs.Builds.{seen, seen_two};
ghost use Rattle.expr_tree.specs.Trees.{relation_of, tree_of, Square, Absolute, Least, Greatest};
ghost use Rattle.expr_text.specs.Descent.{addends_at, bracket_at, closes, closes_two, ends, factors_at, pair_at, product_at, relation_at, right_at, second_at, sum_at, unary_at, with_binary, with_unary};

use crate::token::Token;
use expr_tree::{Rel, RelOp, Term};
use std::alloc::Global;
use tube_io::{NoMemory, Text};

fn boxed(alloc: Global, term: Term) -> Result<Box<Term>, NoMemory>
    ensures { IfOk result (λ b. b.value ≡ term) }
{
    Ok(Box::new(alloc, term)?)
}

#[cycle(build)]
#[tactic(auto, unfolding(crate::specs::Descent::sum_at))]
pub fn sum(
    alloc: Global,
    calls: usize,
    tokens: &[Token],
) -> Result<Option<(Term, &[Token])>, NoMemory>
    ensures { IfOk result (λ found. seen found ≡ sum_at calls tokens.now) }
{
    if calls == 0 {
        return Ok(None);
    }
    match product(alloc, calls - 1, tokens) {
        Ok(Some((left, rest))) => addends(alloc, calls - 1, left, rest),
        Ok(None) => Ok(None),
        Err(error) => Err(error),
    }
}

#[cycle(build)]
#[tactic(auto, unfolding(crate::specs::Descent::addends_at))]
fn addends(
    alloc: Global,
    calls: usize,
    left: Term,
    tokens: &[Token],
) -> Result<Option<(Term, &[Token])>, NoMemory>
    ensures { IfOk result (λ found. seen found ≡ addends_at calls (tree_of left) tokens.now) }
{
    if calls == 0 {
        return Ok(None);
    }
    match tokens {
        [Token::Plus, others @ ..] => match product(alloc, calls - 1, others) {
            Ok(Some((right, rest))) => {
                let sum = Term::Add(boxed(alloc, left)?, boxed(alloc, right)?);
                addends(alloc, calls - 1, sum, rest)
            }
            Ok(None) => Ok(None),
            Err(error) => Err(error),
        },
        [Token::Minus, others @ ..] => match product(alloc, calls - 1, others) {
            Ok(Some((right, rest))) => {
                let difference = Term::Sub(boxed(alloc, left)?, boxed(alloc, right)?);
                addends(alloc, calls - 1, difference, rest)
            }
            Ok(None) => Ok(None),
            Err(error) => Err(error),
        },
        _ => Ok(Some((left, tokens))),
    }
}

#[cycle(build)]
#[tactic(auto, unfolding(crate::specs::Descent::product_at))]
fn product(
    alloc: Global,
    calls: usize,
    tokens: &[Token],
) -> Result<Option<(Term, &[Token])>, NoMemory>
    ensures { IfOk result (λ found. seen found ≡ product_at calls tokens.now) }
{
    if calls == 0 {
        return Ok(None);
    }
    match unary(alloc, calls - 1, tokens) {
        Ok(Some((left, rest))) => factors(alloc, calls - 1, left, rest),
        Ok(None) => Ok(None),
        Err(error) => Err(error),
    }
}

#[cycle(build)]
#[tactic(auto, unfolding(crate::specs::Descent::factors_at))]
fn factors(
    alloc: Global,
    calls: usize,
    left: Term,
    tokens: &[Token],
) -> Result<Option<(Term, &[Token])>, NoMemory>
    ensures { IfOk result (λ found. seen found ≡ factors_at calls (tree_of left) tokens.now) }
{
    if calls == 0 {
        return Ok(None);
    }
    match tokens {
        [Token::Times, others @ ..] => match unary(alloc, calls - 1, others) {
            Ok(Some((right, rest))) => {
                let product = Term::Mul(boxed(alloc, left)?, boxed(alloc, right)?);
                factors(alloc, calls - 1, product, rest)
            }
            Ok(None) => Ok(None),
            Err(error) => Err(error),
        },
        _ => Ok(Some((left, tokens))),
    }
}

// What a bracket holds, where it closes behind it.
fn closed(term: Term, tokens: &[Token]) -> Option<(Term, &[Token])>
    ensures { seen result ≡ closes (tree_of term) tokens.now }
{
    match tokens {
        [Token::Close, rest @ ..] => Some((term, rest)),
        _ => None,
    }
}

// The two terms of a call, where its bracket closes behind them.
fn closed_two(first: Term, second: Term, tokens: &[Token]) -> Option<(Term, Term, &[Token])>
    ensures { seen_two result ≡ closes_two (tree_of first) (tree_of second) tokens.now }
{
    match tokens {
        [Token::Close, rest @ ..] => Some((first, second, rest)),
        _ => None,
    }
}

#[cycle(build)]
#[tactic(auto, unfolding(crate::specs::Descent::bracket_at))]
fn bracket(
    alloc: Global,
    calls: usize,
    tokens: &[Token],
) -> Result<Option<(Term, &[Token])>, NoMemory>
    ensures { IfOk result (λ found. seen found ≡ bracket_at calls tokens.now) }
{
    if calls == 0 {
        return Ok(None);
    }
    match tokens {
        [Token::Open, inner @ ..] => match sum(alloc, calls - 1, inner) {
            Ok(Some((a, rest))) => Ok(closed(a, rest)),
            Ok(None) => Ok(None),
            Err(error) => Err(error),
        },
        _ => Ok(None),
    }
}

#[cycle(build)]
#[tactic(auto, unfolding(crate::specs::Descent::pair_at))]
fn pair(
    alloc: Global,
    calls: usize,
    tokens: &[Token],
) -> Result<Option<(Term, Term, &[Token])>, NoMemory>
    ensures { IfOk result (λ found. seen_two found ≡ pair_at calls tokens.now) }
{
    if calls == 0 {
        return Ok(None);
    }
    match tokens {
        [Token::Open, inner @ ..] => match sum(alloc, calls - 1, inner) {
            Ok(Some((a, rest))) => second(alloc, calls - 1, a, rest),
            Ok(None) => Ok(None),
            Err(error) => Err(error),
        },
        _ => Ok(None),
    }
}

#[cycle(build)]
#[tactic(auto, unfolding(crate::specs::Descent::second_at))]
fn second(
    alloc: Global,
    calls: usize,
    first: Term,
    tokens: &[Token],
) -> Result<Option<(Term, Term, &[Token])>, NoMemory>
    ensures { IfOk result (λ found. seen_two found ≡ second_at calls (tree_of first) tokens.now) }
{
    if calls == 0 {
        return Ok(None);
    }
    match tokens {
        [Token::Comma, others @ ..] => match sum(alloc, calls - 1, others) {
            Ok(Some((b, rest))) => Ok(closed_two(first, b, rest)),
            Ok(None) => Ok(None),
            Err(error) => Err(error),
        },
        _ => Ok(None),
    }
}

// The square of what a bracket holds.
fn squared<'a>(
    alloc: Global,
    found: Option<(Term, &'a [Token])>,
) -> Result<Option<(Term, &'a [Token])>, NoMemory>
    ensures { IfOk result (λ all. seen all ≡ with_unary Square (seen found.entry)) }
{
    match found {
        Some((a, rest)) => Ok(Some((Term::Sqr(boxed(alloc, a)?), rest))),
        None => Ok(None),
    }
}

// The absolute value of what a bracket holds.
fn absolute<'a>(
    alloc: Global,
    found: Option<(Term, &'a [Token])>,
) -> Result<Option<(Term, &'a [Token])>, NoMemory>
    ensures { IfOk result (λ all. seen all ≡ with_unary Absolute (seen found.entry)) }
{
    match found {
        Some((a, rest)) => Ok(Some((Term::Abs(boxed(alloc, a)?), rest))),
        None => Ok(None),
    }
}

// The lesser of two terms.
fn least<'a>(
    alloc: Global,
    found: Option<(Term, Term, &'a [Token])>,
) -> Result<Option<(Term, &'a [Token])>, NoMemory>
    ensures { IfOk result (λ all. seen all ≡ with_binary Least (seen_two found.entry)) }
{
    match found {
        Some((a, b, rest)) => Ok(Some((Term::Min(boxed(alloc, a)?, boxed(alloc, b)?), rest))),
        None => Ok(None),
    }
}

// The greater of two terms.
fn greatest<'a>(
    alloc: Global,
    found: Option<(Term, Term, &'a [Token])>,
) -> Result<Option<(Term, &'a [Token])>, NoMemory>
    ensures { IfOk result (λ all. seen all ≡ with_binary Greatest (seen_two found.entry)) }
{
    match found {
        Some((a, b, rest)) => Ok(Some((Term::Max(boxed(alloc, a)?, boxed(alloc, b)?), rest))),
        None => Ok(None),
    }
}

#[cycle(build)]
#[tactic(auto, unfolding(crate::specs::Descent::unary_at))]
fn unary(
    alloc: Global,
    calls: usize,
    tokens: &[Token],
) -> Result<Option<(Term, &[Token])>, NoMemory>
    ensures { IfOk result (λ found. seen found ≡ unary_at calls tokens.now) }
{
    if calls == 0 {
        return Ok(None);
    }
    match tokens {
        [Token::Number(n), rest @ ..] => Ok(Some((Term::Num(*n), rest))),
        [Token::Name(name), rest @ ..] => {
            Ok(Some((Term::Name(Text::new(alloc, name.bytes())?), rest)))
        }
        [Token::Minus, rest @ ..] => match unary(alloc, calls - 1, rest) {
            Ok(Some((a, rest))) => Ok(Some((Term::Neg(boxed(alloc, a)?), rest))),
            Ok(None) => Ok(None),
            Err(error) => Err(error),
        },
        [Token::Open, inner @ ..] => match sum(alloc, calls - 1, inner) {
            Ok(Some((a, rest))) => Ok(closed(a, rest)),
            Ok(None) => Ok(None),
            Err(error) => Err(error),
        },
        [Token::Sqr, rest @ ..] => squared(alloc, bracket(alloc, calls - 1, rest)?),
        [Token::Abs, rest @ ..] => absolute(alloc, bracket(alloc, calls - 1, rest)?),
        [Token::Min, rest @ ..] => least(alloc, pair(alloc, calls - 1, rest)?),
        [Token::Max, rest @ ..] => greatest(alloc, pair(alloc, calls - 1, rest)?),
        _ => Ok(None),
    }
}

fn ended(op: RelOp, left: Term, right: Term, tokens: &[Token]) -> Option<Rel>
    ensures { option_map relation_of result ≡ ends op (tree_of left) (tree_of right) tokens.now }
{
    if !tokens.is_empty() {
        return None;
    }
    Some(Rel { op, left, right })
}

fn right(alloc: Global, calls: usize, left: Term, tokens: &[Token]) -> Result<Option<Rel>, NoMemory>
    ensures { IfOk result (λ found. option_map relation_of found ≡ right_at (sum_at calls) (tree_of left) tokens.now) }
{
    match tokens {
        [Token::Compare(op), others @ ..] => match sum(alloc, calls, others) {
            Ok(Some((right, rest))) => Ok(ended(*op, left, right, rest)),
            Ok(None) => Ok(None),
            Err(error) => Err(error),
        },
        _ => Ok(None),
    }
}

/// The relation that all the tokens are. None where they are none, or the calls would go too deep.
#[tactic(auto, unfolding(crate::specs::Descent::relation_at))]
pub fn relation(alloc: Global, calls: usize, tokens: &[Token]) -> Result<Option<Rel>, NoMemory>
    ensures { IfOk result (λ found. option_map relation_of found ≡ relation_at calls tokens.now) }
{
    match sum(alloc, calls, tokens) {
        Ok(Some((left, rest))) => right(alloc, calls, left, rest),
        Ok(None) => Ok(None),
        Err(error) => Err(error),
    }
}
