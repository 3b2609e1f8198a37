//! Tokens, and which one stands at the front of a text.

ghost use Rattle.std.specs.Prelude.{◌≡◌, IfOk, slice_index};
ghost use Rattle.std.specs.List.{prefix_len};
ghost use Rattle.log_spelling.specs.Names.{is_name_byte};
ghost use Rattle.log_spelling.specs.Numbers.{is_digit};
ghost use Rattle.expr_text.specs.Spelling.{function_of, is_coordinate, number_at, symbol_at, token_at, without_spaces, word_at};

use expr_tree::RelOp;
use log_spelling::is_name;
use log_spelling::name::{is_letter, is_name_byte};
use log_spelling::number::{is_digit, magnitude_of};
use std::alloc::Global;
use tube_io::{NoMemory, Text};

/// A token of an expression.
#[derive(Debug, Drop, PartialEq)]
pub enum Token {
    /// A number of one to eighteen digits.
    Number(i64),
    /// A name, or a name with `.x` or `.y` after it.
    Name(Text),
    /// `sqr`.
    Sqr,
    /// `abs`.
    Abs,
    /// `min`.
    Min,
    /// `max`.
    Max,
    /// `+`.
    Plus,
    /// `-`.
    Minus,
    /// `*`.
    Times,
    /// `(`.
    Open,
    /// `)`.
    Close,
    /// `,`.
    Comma,
    /// `=`, `<`, `<=`, `>` or `>=`.
    Compare(RelOp),
}

// The byte at an index, and 0 behind the end.
fn byte_at(text: &[u8], i: usize) -> u8
    ensures { result ≡ slice_index text.now i }
{
    if i < text.len() { text[i] } else { 0 }
}

fn digits_len(text: &[u8]) -> usize
    ensures { result ≡ prefix_len is_digit text.now }
{
    text.iter().take_while(|c| is_digit(**c)).count()
}

fn name_len(text: &[u8]) -> usize
    ensures { result ≡ prefix_len is_name_byte text.now }
{
    text.iter().take_while(|c| is_name_byte(**c)).count()
}

/// The text with no spaces at its front.
pub fn without_spaces(text: &[u8]) -> &[u8]
    ensures { result.now ≡ without_spaces text.now }
{
    let mut rest = text;
    while let [b' ', others @ ..] = rest {
        rest = others;
    }
    rest
}

#[tactic(auto, unfolding(crate::specs::Spelling::number_at))]
fn number_at(text: &[u8]) -> Option<(Token, usize)>
    ensures { result ≡ number_at text.now }
{
    let n = digits_len(text);
    match magnitude_of(&text[..n]) {
        Some(value) => Some((Token::Number(value as i64), n)),
        None => None,
    }
}

#[tactic(auto, unfolding(crate::specs::Spelling::function_of))]
fn function_of(word: &[u8]) -> Option<Token>
    ensures { result ≡ function_of word.now }
{
    if word == b"sqr".as_slice() {
        return Some(Token::Sqr);
    }
    if word == b"abs".as_slice() {
        return Some(Token::Abs);
    }
    if word == b"min".as_slice() {
        return Some(Token::Min);
    }
    if word == b"max".as_slice() {
        return Some(Token::Max);
    }
    None
}

// Whether `.x` or `.y` stands at the front.
fn is_coordinate(text: &[u8]) -> bool
    ensures { result ≡ is_coordinate text.now }
{
    byte_at(text, 0) == b'.' && (byte_at(text, 1) == b'x' || byte_at(text, 1) == b'y')
}

#[tactic(auto, unfolding(crate::specs::Spelling::word_at))]
fn word_at(alloc: Global, text: &[u8]) -> Result<Option<(Token, usize)>, NoMemory>
    ensures { IfOk result (λ found. found ≡ word_at text.now) }
{
    let n = name_len(text);
    let word = &text[..n];
    if !is_name(word) {
        return match function_of(word) {
            Some(function) => Ok(Some((function, n))),
            None => Ok(None),
        };
    }
    if is_coordinate(&text[n..]) {
        let name = Text::new(alloc, &text[..n + 2])?;
        return Ok(Some((Token::Name(name), n + 2)));
    }
    let name = Text::new(alloc, word)?;
    Ok(Some((Token::Name(name), n)))
}

#[tactic(auto, unfolding(crate::specs::Spelling::symbol_at))]
fn symbol_at(c: u8, next: u8) -> Option<(Token, usize)>
    ensures { result ≡ symbol_at c next }
{
    match c {
        b'+' => Some((Token::Plus, 1)),
        b'-' => Some((Token::Minus, 1)),
        b'*' => Some((Token::Times, 1)),
        b'(' => Some((Token::Open, 1)),
        b')' => Some((Token::Close, 1)),
        b',' => Some((Token::Comma, 1)),
        b'=' => Some((Token::Compare(RelOp::Eq), 1)),
        b'<' if next == b'=' => Some((Token::Compare(RelOp::Le), 2)),
        b'<' => Some((Token::Compare(RelOp::Lt), 1)),
        b'>' if next == b'=' => Some((Token::Compare(RelOp::Ge), 2)),
        b'>' => Some((Token::Compare(RelOp::Gt), 1)),
        _ => None,
    }
}

/// The token at the front of a text, and how many bytes it takes: the longest one that stands there.
/// None where the first byte begins no token, or a number or name that is too long.
#[tactic(auto, unfolding(crate::specs::Spelling::token_at))]
pub fn token_at(alloc: Global, text: &[u8]) -> Result<Option<(Token, usize)>, NoMemory>
    ensures { IfOk result (λ found. found ≡ token_at text.now) }
{
    let first = byte_at(text, 0);
    if is_digit(first) {
        return Ok(number_at(text));
    }
    if is_letter(first) {
        return word_at(alloc, text);
    }
    Ok(symbol_at(first, byte_at(text, 1)))
}
