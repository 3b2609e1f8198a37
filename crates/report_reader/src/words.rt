//! Words of a line.

ghost use Rattle.std.specs.Prelude.{◌≡◌, ◌≢◌, ◌+◌, ◌*◌, ◌≤◌, ◌<◌, ◌^◌, ◌↔◌, ◌∷◌, true, false, IfSome, IsTrue, MatchOption, decimal, length, slice_index, unsigned_abs};
ghost use Rattle.std.specs.Fmt.{signed_decimal};
ghost use Rattle.std.specs.List.{list_all};
ghost use Rattle.tube_spec.specs.Limits.{interval_bound};
ghost use Rattle.log_spelling.specs.Numbers.{digits_value, is_digit};
ghost use Rattle.report_reader.specs.Words.{IsAxis, IsCut, IsInterval, IsReference, Lacks, Reads, range_text};

use int_interval::{BOUND, Interval};
use log_spelling::is_name;
use log_spelling::number::is_digit;

/// A text before and after the first place of a byte, if it is there.
pub fn cut(text: &[u8], at: u8) -> Option<(&[u8], &[u8])>
    ensures { MatchOption result (Lacks at text.now) (λ parts. IsCut at text.now parts.0.now parts.1.now) }
{
    for (i, b) in text.iter().enumerate() {
        if *b == at {
            let (front, rest) = text.split_at(i);
            let (_, rest) = rest.split_at(1);
            return Some((front, rest));
        }
    }
    None
}

// The value of at most nineteen digits, of which leading ones may be zero.
fn digits_value(digits: &[u8]) -> Option<u64>
    requires { length digits.now ≤ 19 }
    ensures value { MatchOption result (list_all is_digit digits.now ≡ false) (λ n. (list_all is_digit digits.now ≡ true) × (n ≡ digits_value 0 digits.now)) }
    ensures small { IfSome result (λ n. n < 10 ^ 19) }
{
    let mut n = 0u64;
    for d in digits {
        if !is_digit(*d) {
            return None;
        }
        n = 10 * n + (*d - b'0') as u64;
    }
    Some(n)
}

/// The number below 10^19 that is printed so: one to nineteen digits with no leading zero.
pub(crate) fn count_of(word: &[u8]) -> Option<u64>
    ensures { Reads decimal (λ n. n < 10 ^ 19) word.now result }
{
    if word.is_empty() || word.len() > 19 {
        return None;
    }
    if word[0] == b'0' && word.len() > 1 {
        return None;
    }
    digits_value(word)
}

/// The number up to a limit that is printed so.
pub(crate) fn count_up_to(word: &[u8], most: u64) -> Option<u64>
    requires { most < 10 ^ 19 }
    ensures { Reads decimal (λ n. n ≤ most) word.now result }
{
    let Some(n) = count_of(word) else {
        return None;
    };
    if n > most {
        return None;
    }
    Some(n)
}

/// The number, at most [`BOUND`] in absolute value, that is printed so: digits with no leading zero, behind a `-` where it is negative.
pub(crate) fn bound_of(word: &[u8]) -> Option<i64>
    ensures { Reads signed_decimal (λ z. unsigned_abs z ≤ interval_bound) word.now result }
{
    match word {
        [b'-', digits @ ..] => negative_of(digits),
        _ => positive_of(word),
    }
}

fn negative_of(digits: &[u8]) -> Option<i64>
    ensures { Reads signed_decimal (λ z. unsigned_abs z ≤ interval_bound) (45 ∷ digits.now) result }
{
    let Some(n) = count_up_to(digits, BOUND as u64) else {
        return None;
    };
    if n == 0 {
        return None;
    }
    Some(-(n as i64))
}

fn positive_of(word: &[u8]) -> Option<i64>
    requires { slice_index word.now 0 ≢ 45 }
    ensures { Reads signed_decimal (λ z. unsigned_abs z ≤ interval_bound) word.now result }
{
    let Some(n) = count_up_to(word, BOUND as u64) else {
        return None;
    };
    Some(n as i64)
}

/// The interval whose bounds are printed so, with a space between.
pub(crate) fn range_of(text: &[u8]) -> Option<Interval>
    ensures { Reads range_text IsInterval text.now result }
{
    let Some((lo, hi)) = cut(text, b' ') else {
        return None;
    };
    let Some(lo) = bound_of(lo) else {
        return None;
    };
    let Some(hi) = bound_of(hi) else {
        return None;
    };
    Interval::new(lo, hi)
}

fn is_axis(word: &[u8]) -> bool
    ensures { IsTrue result ↔ IsAxis word.now }
{
    if word == b".x".as_slice() {
        return true;
    }
    word == b".y".as_slice()
}

/// Whether a word is a name, or a name with `.x` or `.y` behind it.
pub(crate) fn is_reference(word: &[u8]) -> bool
    ensures { IsTrue result ↔ IsReference word.now }
{
    if is_name(word) {
        return true;
    }
    if word.len() < 2 {
        return false;
    }
    let (beacon, axis) = word.split_at(word.len() - 2);
    if !is_axis(axis) {
        return false;
    }
    is_name(beacon)
}
