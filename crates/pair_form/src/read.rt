//! A whole source read.

ghost use Rattle.std.specs.Prelude.{◌≡◌, ◌<◌, ◌^◌, IfOk, MatchResult, unsigned_abs};
ghost use Rattle.pair_form.specs.Forms.{IsPairText, SourceForm};
ghost use Rattle.pair_form.specs.Lines.{BeginsWithLog};
ghost use Rattle.pair_form.specs.Parts.{AreLinksAndEnd, BeginsWithNumbers};
ghost use Rattle.pair_form.specs.Reads.{Reads, ReadsFront};
ghost use Rattle.pair_form.specs.Words.{IsWord};

use crate::form::{Link, PairForm, PairFormFault};
use crate::lines::{is_end, link_of, numbers_of};
use crate::words::line_of;
use std::alloc::Global;

// The two numbers of the first line, which begins with this word, and what follows that line.
fn numbers_line<'a>(
    alloc: Global,
    bytes: &'a [u8],
    kind: &[u8],
) -> Result<((i64, i64), &'a [u8]), PairFormFault>
    requires { IsWord kind.now }
    ensures value { ReadsFront (λ z. z) (BeginsWithNumbers kind.now bytes.entry.now) result }
    ensures small { IfOk result (λ p. (unsigned_abs p.0.0 < 10 ^ 18) × (unsigned_abs p.0.1 < 10 ^ 18)) }
{
    let (words, rest) = line_of(alloc, bytes)?;
    let numbers = numbers_of(words.as_slice(), kind)?;
    Ok((numbers, rest))
}

// A log of so many bytes, and what follows the byte 10 behind it.
fn log_of(bytes: &[u8], length: i64) -> Result<(&[u8], &[u8]), PairFormFault>
    ensures { ReadsFront (λ log. log.now) (BeginsWithLog bytes.now length) result }
{
    let Ok(length) = usize::try_from(length) else {
        return Err(PairFormFault::Form);
    };
    let Some((log, rest)) = bytes.split_at_checked(length) else {
        return Err(PairFormFault::Form);
    };
    match rest {
        [b'\n', rest @ ..] => Ok((log, rest)),
        _ => Err(PairFormFault::Form),
    }
}

// The links of all lines but the last one.
fn links_of<'a>(alloc: Global, bytes: &'a [u8]) -> Result<Vec<Link<'a>>, PairFormFault>
    ensures { Reads (λ v. v.items) (AreLinksAndEnd bytes.entry.now) result }
{
    let mut links = Vec::new(alloc);
    let mut rest = bytes;
    loop {
        let (words, others) = line_of(alloc, rest)?;
        if is_end(words.as_slice()) {
            if others.is_empty() {
                return Ok(links);
            }
            return Err(PairFormFault::Form);
        }
        let link = link_of(words.as_slice())?;
        if links.push(link).is_err() {
            return Err(PairFormFault::NoMemory);
        }
        rest = others;
    }
}

/// What a source of this form says. Its logs are not read, and its numbers and names are not judged: they may be out of all bounds. It may
/// have any length.
pub fn read_pair<'a>(alloc: Global, bytes: &'a [u8]) -> Result<PairForm<'a>, PairFormFault>
    // What is read is what these bytes say.
    ensures ok { IfOk result (λ form. IsPairText bytes.entry.now form) }
    // Bytes that say something are read as that, unless memory is refused. So `Form` comes exactly where they have not this form.
    ensures only { (form : SourceForm) → IsPairText bytes.entry.now form → MatchResult result (λ f. f ≡ form) (λ e. e ≡ PairFormFault.NoMemory) }
{
    let (lengths, rest) = numbers_line(alloc, bytes, b"pair")?;
    let (first, rest) = log_of(rest, lengths.0)?;
    let (second, rest) = log_of(rest, lengths.1)?;
    let (offset, rest) = numbers_line(alloc, rest, b"offset")?;
    let links = links_of(alloc, rest)?;
    Ok(PairForm {
        first,
        second,
        offset,
        links,
    })
}
