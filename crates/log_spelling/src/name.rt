//! Names: a letter, then letters, digits and underscores.

ghost use Rattle.std.specs.Prelude.{◌≡◌};
ghost use Rattle.std.specs.List.{list_all};
ghost use Rattle.log_spelling.specs.Names.{is_letter, is_name, is_name_byte, is_reserved};

use crate::number::is_digit;

/// Whether a byte is one of the letters that names begin with, `A` to `Z` and `a` to `z`.
pub fn is_letter(c: u8) -> bool
    ensures { result ≡ is_letter c }
{
    b'A' <= c && c <= b'Z' || b'a' <= c && c <= b'z'
}

/// Whether a byte may stand in a name: a letter, a digit or `_`.
pub fn is_name_byte(c: u8) -> bool
    ensures { result ≡ is_name_byte c }
{
    is_letter(c) || is_digit(c) || c == b'_'
}

fn is_reserved(text: &[u8]) -> bool
    ensures { result ≡ is_reserved text.now }
{
    text == b"sqr".as_slice()
        || text == b"abs".as_slice()
        || text == b"min".as_slice()
        || text == b"max".as_slice()
}

fn are_name_bytes(text: &[u8]) -> bool
    ensures { result ≡ list_all is_name_byte text.now }
{
    text.iter().all(|c| is_name_byte(*c))
}

/// Whether a trimmed field is spelled as a name: a letter, then letters, digits and underscores, at
/// most 32 bytes, and none of `sqr`, `abs`, `min` and `max`. Case counts.
pub fn is_name(text: &[u8]) -> bool
    ensures { result ≡ is_name text.now }
{
    if text.is_empty() {
        return false;
    }
    is_letter(text[0]) && are_name_bytes(text) && text.len() <= 32 && !is_reserved(text)
}
