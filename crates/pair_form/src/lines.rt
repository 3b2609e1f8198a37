//! The lines of a source by their words.

ghost use Rattle.std.specs.Prelude.{◌≡◌, ◌↔◌, ◌<◌, ◌^◌, ◌∷◌, [], IfOk, IsTrue, codes, map, unsigned_abs};
ghost use Rattle.std.specs.List.{AllByRecursion};
ghost use Rattle.log_spelling.specs.Numbers.{number_of};
ghost use Rattle.pair_form.specs.Forms.{IsLink, HasNumbers};
ghost use Rattle.pair_form.specs.Reads.{Reads};
ghost use Rattle.pair_form.specs.Words.{IsWord};

use crate::form::{Link, PairFormFault, Place};
use crate::words::same;
use log_spelling::number_of;

// The number that a word spells.
fn number(word: &[u8]) -> Result<i64, PairFormFault>
    ensures value { Reads (λ z. z) (λ z. number_of word.now ≡ Some z) result }
    ensures small { IfOk result (λ z. unsigned_abs z < 10 ^ 18) }
{
    match number_of(word) {
        Some(z) => Ok(z),
        None => Err(PairFormFault::Form),
    }
}

/// The two numbers of a line that begins with this word.
pub(crate) fn numbers_of(words: &[&[u8]], kind: &[u8]) -> Result<(i64, i64), PairFormFault>
    ensures value { Reads (λ z. z) (HasNumbers kind.now (map (λ w. w.now) words.now)) result }
    ensures small { IfOk result (λ z. (unsigned_abs z.0 < 10 ^ 18) × (unsigned_abs z.1 < 10 ^ 18)) }
{
    let [word, low, high] = words else {
        return Err(PairFormFault::Form);
    };
    if !same(word, kind) {
        return Err(PairFormFault::Form);
    }
    let low = number(low)?;
    let high = number(high)?;
    Ok((low, high))
}

/// The link that a line is of.
pub(crate) fn link_of<'a>(words: &[&'a [u8]]) -> Result<Link<'a>, PairFormFault>
    requires { AllByRecursion IsWord (map (λ w. w.now) words.now) }
    ensures { Reads (λ l. l) (IsLink (map (λ w. w.now) words.now)) result }
{
    let [word, tick, near, far, x1, y1, x2, y2] = words else {
        return Err(PairFormFault::Form);
    };
    if !same(word, b"link") {
        return Err(PairFormFault::Form);
    }
    let tick = number(tick)?;
    let near = number(near)?;
    let far = number(far)?;
    Ok(Link {
        tick,
        radii: (near, far),
        first: Place { x: x1, y: y1 },
        second: Place { x: x2, y: y2 },
    })
}

/// Whether it is the last line.
pub(crate) fn is_end(words: &[&[u8]]) -> bool
    ensures { IsTrue result ↔ (map (λ w. w.now) words.now ≡ codes "end" ∷ []) }
{
    match words {
        [word] => same(word, b"end"),
        _ => false,
    }
}
