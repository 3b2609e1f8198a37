//! Words and numbers in front of some bytes.

ghost use Rattle.std.specs.Prelude.{◌≡◌, ◌≢◌, ℕ, ◌<◌, ◌^◌, ◌++◌, List, MatchOption, decimal};
ghost use Rattle.std.specs.Fmt.{signed_decimal};
ghost use Rattle.report_reader.specs.Words.{Reads};
ghost use Rattle.bundle_text.specs.Bundles.{IsNumber, IsPair};
ghost use Rattle.bundle_reader.specs.Fronts.{Anything, ReadsFront};
ghost use Rattle.bundle_reader.specs.Parts.{IsDegree, IsFramed, NoneFramed, count_text, degree_text, ticks_text};

use itoa::Buffer;
use report_reader::cut;
use std::str::from_utf8;

/// What follows a word that the bytes begin with.
pub(crate) fn after<'a>(bytes: &'a [u8], word: &[u8]) -> Option<&'a [u8]>
    ensures { MatchOption result ((rest : List ℕ) → bytes.entry.now ≢ word.now ++ rest) (λ rest. bytes.entry.now ≡ word.now ++ rest.now) }
{
    bytes.strip_prefix(word)
}

// What stands between a word that the bytes begin with and a byte, and what follows that byte.
fn framed<'a>(bytes: &'a [u8], word: &[u8], end: u8) -> Option<(&'a [u8], &'a [u8])>
    ensures { MatchOption result (NoneFramed word.now end bytes.entry.now) (λ p. IsFramed word.now end bytes.entry.now p.0.now p.1.now) }
{
    let rest = after(bytes, word)?;
    cut(rest, end)
}

// The number that is printed so.
fn count_of(word: &[u8]) -> Option<u64>
    ensures { Reads decimal (λ n. n < 2 ^ 64) word.now result }
{
    let Ok(text) = from_utf8(word) else {
        return None;
    };
    let Ok(n) = text.parse::<u64>() else {
        return None;
    };
    let mut digits = Buffer::new();
    if digits.format(n).as_bytes() != word {
        return None;
    }
    Some(n)
}

// The same of a number that may be negative.
fn degree_of(word: &[u8]) -> Option<i64>
    ensures { Reads signed_decimal IsDegree word.now result }
{
    let Ok(text) = from_utf8(word) else {
        return None;
    };
    let Ok(z) = text.parse::<i64>() else {
        return None;
    };
    let mut digits = Buffer::new();
    if digits.format(z).as_bytes() != word {
        return None;
    }
    Some(z)
}

/// The number between a word and a byte.
pub(crate) fn count_after<'a>(bytes: &'a [u8], word: &[u8], end: u8) -> Option<(u64, &'a [u8])>
    requires { end < 45 }
    ensures { ReadsFront (count_text word.now end) (λ n. n < 2 ^ 64) Anything bytes.entry.now result }
{
    let (digits, rest) = framed(bytes, word, end)?;
    let n = count_of(digits)?;
    Some((n, rest))
}

/// The same of a number that may be negative.
pub(crate) fn degree_after<'a>(bytes: &'a [u8], word: &[u8], end: u8) -> Option<(i64, &'a [u8])>
    requires { end < 45 }
    ensures { ReadsFront (degree_text word.now end) IsDegree Anything bytes.entry.now result }
{
    let (digits, rest) = framed(bytes, word, end)?;
    let z = degree_of(digits)?;
    Some((z, rest))
}

/// The same of a number below 2^32.
pub(crate) fn number_after<'a>(bytes: &'a [u8], word: &[u8], end: u8) -> Option<(u32, &'a [u8])>
    requires { end < 45 }
    ensures { ReadsFront (count_text word.now end) IsNumber Anything bytes.entry.now result }
{
    let (n, rest) = count_after(bytes, word, end)?;
    let n = u32::try_from(n).ok()?;
    Some((n, rest))
}

/// Two such numbers with a space between.
pub(crate) fn ticks_after<'a>(
    bytes: &'a [u8],
    word: &[u8],
    end: u8,
) -> Option<((u32, u32), &'a [u8])>
    requires { end < 45 }
    ensures { ReadsFront (ticks_text word.now end) IsPair Anything bytes.entry.now result }
{
    let (a, rest) = number_after(bytes, word, b' ')?;
    let (b, rest) = number_after(rest, b"", end)?;
    Some(((a, b), rest))
}
