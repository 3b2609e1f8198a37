//! Numbers: decimal digits, and a sign where there is one.

ghost use Rattle.std.specs.Prelude.{◌≡◌, ◌<◌, ◌≤◌, ◌^◌, true, false, IfSome, MatchOption, length, unsigned_abs};
ghost use Rattle.std.specs.List.{list_all};
ghost use Rattle.log_spelling.specs.Numbers.{digits_value, is_digit, magnitude_of, number_of};

/// Whether a byte is a decimal digit.
pub fn is_digit(c: u8) -> bool
    ensures { result ≡ is_digit c }
{
    b'0' <= c && c <= b'9'
}

/// The value of at most nineteen decimal digits, of which leading ones may be zero. None where a byte is
/// no digit.
pub fn digits_value(digits: &[u8]) -> Option<u64>
    requires { length digits.now ≤ 19 }
    ensures value { MatchOption result (list_all is_digit digits.now ≡ false)
        (λ n. (list_all is_digit digits.now ≡ true) × (n ≡ digits_value 0 digits.now)) }
    ensures small { IfSome result (λ n. n < 10 ^ length digits.now) }
{
    let mut n = 0u64;
    for d in digits {
        if !is_digit(*d) {
            return None;
        }
        n = 10 * n + (*d - b'0') as u64;
    }
    Some(n)
}

/// The value of one to eighteen decimal digits, of which leading ones may be zero.
pub fn magnitude_of(digits: &[u8]) -> Option<u64>
    ensures value { result ≡ magnitude_of digits.now }
    ensures small { IfSome result (λ n. n < 10 ^ 18) }
{
    if digits.is_empty() || digits.len() > 18 {
        return None;
    }
    digits_value(digits)
}

/// The number that a trimmed field spells: `-`, `+` or no sign, and then one to eighteen digits.
pub fn number_of(text: &[u8]) -> Option<i64>
    ensures value { result ≡ number_of text.now }
    ensures small { IfSome result (λ z. unsigned_abs z < 10 ^ 18) }
{
    match text {
        [] => None,
        [b'-', digits @ ..] => match magnitude_of(digits) {
            Some(n) => Some(-(n as i64)),
            None => None,
        },
        [b'+', digits @ ..] => match magnitude_of(digits) {
            Some(n) => Some(n as i64),
            None => None,
        },
        digits => match magnitude_of(digits) {
            Some(n) => Some(n as i64),
            None => None,
        },
    }
}
