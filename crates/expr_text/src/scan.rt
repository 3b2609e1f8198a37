//! Whether a text is a relation, decided token by token before any tree is built.

ghost use Rattle.std.specs.Prelude.{◌≡◌, ◌+◌, ◌<◌, ◌≤◌, ◌^◌, ◌⊎◌, true, false, [], IfOk, drop, length};
ghost use Rattle.expr_text.specs.Spelling.{without_spaces};
ghost use Rattle.expr_text.specs.Reading.{token_nodes};
ghost use Rattle.expr_text.specs.Scans.{Follows, Goes, Scanned};

use crate::acceptor::Acceptor;
use crate::fault::ExprFault;
use crate::token::{Token, token_at, without_spaces};
use std::alloc::Global;
use tube_io::NoMemory;

/// The greatest number of nodes of a relation: itself, its operators, numbers and names.
pub const MAX_NODES: usize = 256;

/// The greatest number of brackets that are open at one time.
pub const MAX_OPEN: usize = 32;

/// The tokens of a text so far, and how much they hold.
#[derive(Drop)]
pub struct Scan {
    /// What can follow.
    pub acceptor: Acceptor,
    /// The tokens, up to the first that passes a limit.
    pub tokens: Vec<Token>,
    /// How many nodes they make.
    pub nodes: usize,
    /// The greatest number of brackets that were open at one time.
    pub most_open: usize,
}

fn token_nodes(token: &Token) -> usize
    ensures value { result ≡ token_nodes token.now }
    ensures small { result ≤ 1 }
{
    match token {
        Token::Open | Token::Close | Token::Comma => 0,
        Token::Number(_)
        | Token::Name(_)
        | Token::Sqr
        | Token::Abs
        | Token::Min
        | Token::Max
        | Token::Plus
        | Token::Minus
        | Token::Times
        | Token::Compare(_) => 1,
    }
}

impl Scan {
    fn new(alloc: Global) -> Scan
        ensures follows { Follows [] result }
        ensures empty { result.nodes ≡ 0 }
    {
        Scan {
            acceptor: Acceptor::new(alloc),
            tokens: Vec::new(alloc),
            nodes: 0,
            most_open: 0,
        }
    }

    fn take(&mut self, token: Token) -> Result<bool, NoMemory>
        requires { self.old.nodes < 2 ^ 32 }
        ensures goes { IfOk result (λ taken. Goes taken token self.old self.new) }
        ensures counted { self.new.nodes ≤ self.old.nodes + 1 }
    {
        if !self.acceptor.take(&token)? {
            return Ok(false);
        }
        self.nodes += token_nodes(&token);
        self.most_open = self.most_open.max(self.acceptor.open_count());
        if self.nodes <= MAX_NODES && self.most_open <= MAX_OPEN {
            self.tokens.push(token)?;
        }
        Ok(true)
    }

    /// Whether the nodes and the open brackets are within their limits.
    pub fn is_within_limits(&self) -> bool
        ensures within { result ≡ true → (self.now.nodes ≤ 256) × (self.now.most_open ≤ 32) }
        ensures past { result ≡ false → (256 < self.now.nodes) ⊎ (32 < self.now.most_open) }
    {
        self.nodes <= MAX_NODES && self.most_open <= MAX_OPEN
    }
}

// The text behind so many bytes, and the spaces after them.
fn behind(text: &[u8], size: usize) -> &[u8]
    requires { size ≤ length text.now }
    ensures { result.now ≡ without_spaces (drop size text.now) }
{
    without_spaces(&text[size..])
}

/// Takes the tokens of a text one after the other, up to its first fault.
pub fn scan_text(alloc: Global, text: &[u8]) -> Result<Scan, ExprFault>
    requires { length text.now < 2 ^ 32 }
    ensures { Scanned text.now result }
{
    let mut scan = Scan::new(alloc);
    let mut rest = without_spaces(text);
    while !rest.is_empty() {
        let place = (text.len() - rest.len()) as u32;
        let Some((token, size)) = token_at(alloc, rest)? else {
            return Err(ExprFault::Text(place));
        };
        if !scan.take(token)? {
            return Err(ExprFault::Text(place));
        }
        rest = behind(rest, size);
    }
    if !scan.acceptor.is_whole() {
        return Err(ExprFault::Text(text.len() as u32));
    }
    Ok(scan)
}
