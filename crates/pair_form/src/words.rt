//! Words, and the lines that they make.

ghost use Rattle.std.specs.Prelude.{◌≡◌, ◌↔◌, ◌==◌, ◌&&◌, IfOk, IsTrue, MatchOption, length, map, nat_le, take};
ghost use Rattle.std.specs.List.{list_all, position, slice_split};
ghost use Rattle.pair_form.specs.Lines.{BeginsWithLine, IsCut};
ghost use Rattle.pair_form.specs.Reads.{ReadsFront};
ghost use Rattle.pair_form.specs.Words.{Lacks, is_some};

use crate::form::PairFormFault;
use std::alloc::{AllocError, Global};

// As many as the line of a link has. Of a line with more no further memory is taken.
const MOST_WORDS: usize = 8;

/// Whether two words are one.
pub(crate) fn same(word: &[u8], other: &[u8]) -> bool
    ensures { IsTrue result ↔ (word.now ≡ other.now) }
{
    word == other
}

// The first place of byte 10.
fn end_of_line(bytes: &[u8]) -> Option<usize>
    ensures { result ≡ position (λ b. b == 10) bytes.now }
{
    bytes.iter().position(|b| *b == b'\n')
}

// What stands before the first byte 10, and what stands behind it.
fn cut(bytes: &[u8]) -> Option<(&[u8], &[u8])>
    ensures { MatchOption result (Lacks 10 bytes.now) (λ p. IsCut 10 bytes.now p.0.now p.1.now) }
{
    let Some(at) = end_of_line(bytes) else {
        return None;
    };
    Some((&bytes[..at], &bytes[at + 1..]))
}

// What stands between the spaces of a text, as far as the ninth. Two spaces in a row have nothing between them.
fn pieces(alloc: Global, text: &[u8]) -> Result<Vec<&[u8]>, AllocError>
    ensures { IfOk result (λ v. map (λ w. w.now) v.items ≡ take 9 (slice_split (λ b. b == 32) text.now)) }
{
    text.split(|b| *b == b' ')
        .take(MOST_WORDS + 1)
        .collect(alloc)
}

// Whether each piece has a byte.
fn are_some(pieces: &[&[u8]]) -> bool
    ensures { result ≡ list_all (λ w. is_some w.now) pieces.now }
{
    pieces.iter().all(|piece| !piece.is_empty())
}

// Whether they are not too many, and each has a byte.
fn are_words(pieces: &[&[u8]]) -> bool
    ensures { result ≡ (nat_le (length pieces.now) 8 && list_all (λ w. is_some w.now) pieces.now) }
{
    pieces.len() <= MOST_WORDS && are_some(pieces)
}

/// The words of the first line, at most eight, and what follows that line.
pub(crate) fn line_of(alloc: Global, bytes: &[u8]) -> Result<(Vec<&[u8]>, &[u8]), PairFormFault>
    ensures { ReadsFront (λ v. map (λ w. w.now) v.items) (BeginsWithLine bytes.now) result }
{
    let Some((line, rest)) = cut(bytes) else {
        return Err(PairFormFault::Form);
    };
    let words = pieces(alloc, line)?;
    if !are_words(words.as_slice()) {
        return Err(PairFormFault::Form);
    }
    Ok((words, rest))
}
