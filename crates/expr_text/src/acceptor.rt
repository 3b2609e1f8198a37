//! Which tokens can follow one another in a relation.

ghost use Rattle.std.specs.Prelude.{◌≡◌, length, IfOk};
ghost use Rattle.expr_text.specs.Acceptor.{at_close, at_comma, at_compare, at_opening, at_operand, at_operator, is_whole, start, step};
ghost use Rattle.expr_text.specs.Accepts.{Takes, brackets, state_of};

use crate::token::Token;
use std::alloc::Global;
use tube_io::NoMemory;

/// What closes an open bracket.
#[derive(Clone, Copy, Debug, PartialEq, Eq)]
pub enum Bracket {
    /// The bracket of a call that wants a comma and a second term before it closes.
    First,
    /// A bracket that closes after the term that stands in it.
    Last,
}

/// What can come next.
#[derive(Clone, Copy, Debug, PartialEq, Eq)]
pub enum Wanted {
    /// An operand, or a minus before it.
    Operand,
    /// The bracket of a call.
    Opening(Bracket),
    /// An operator, or the end of what is open.
    Operator,
}

/// Says of each token in turn whether some relation begins with the tokens so far. It keeps the kinds
/// of the brackets that are open.
#[derive(Drop)]
pub struct Acceptor {
    wants: Wanted,
    open: Vec<Bracket>,
    is_right: bool,
}

impl Acceptor {
    /// Before the first token.
    pub fn new(alloc: Global) -> Acceptor
        ensures { state_of result ≡ start }
    {
        Acceptor {
            wants: Wanted::Operand,
            open: Vec::new(alloc),
            is_right: false,
        }
    }

    #[tactic(auto, using(crate::proofs::Stack::last_first))]
    fn operand(&mut self, token: &Token) -> Result<bool, NoMemory>
        ensures { IfOk result (λ taken. Takes taken (at_operand token.now (brackets self.old) self.old.is_right) (state_of self.new)) }
    {
        match token {
            Token::Number(_) | Token::Name(_) => self.wants = Wanted::Operator,
            Token::Sqr | Token::Abs => self.wants = Wanted::Opening(Bracket::Last),
            Token::Min | Token::Max => self.wants = Wanted::Opening(Bracket::First),
            Token::Minus => self.wants = Wanted::Operand,
            Token::Open => return self.opening(Bracket::Last, token),
            Token::Plus | Token::Times | Token::Close | Token::Comma | Token::Compare(_) => {
                return Ok(false);
            }
        }
        Ok(true)
    }

    #[tactic(auto, using(crate::proofs::Stack::last_first))]
    fn opening(&mut self, bracket: Bracket, token: &Token) -> Result<bool, NoMemory>
        ensures { IfOk result (λ taken. Takes taken (at_opening bracket token.now (brackets self.old) self.old.is_right) (state_of self.new)) }
    {
        if !matches!(token, Token::Open) {
            return Ok(false);
        }
        self.open.push(bracket)?;
        self.wants = Wanted::Operand;
        Ok(true)
    }

    #[tactic(auto, using(crate::proofs::Stack::last_first))]
    fn close(&mut self) -> bool
        ensures { Takes result (at_close (brackets self.old) self.old.is_right) (state_of self.new) }
    {
        match self.open.pop() {
            Some(Bracket::Last) => {
                self.wants = Wanted::Operator;
                true
            }
            Some(Bracket::First) | None => false,
        }
    }

    #[tactic(auto, using(crate::proofs::Stack::last_first))]
    fn comma(&mut self) -> Result<bool, NoMemory>
        ensures { IfOk result (λ taken. Takes taken (at_comma (brackets self.old) self.old.is_right) (state_of self.new)) }
    {
        match self.open.pop() {
            Some(Bracket::First) => {
                self.open.push(Bracket::Last)?;
                self.wants = Wanted::Operand;
                Ok(true)
            }
            Some(Bracket::Last) | None => Ok(false),
        }
    }

    #[tactic(auto, using(crate::proofs::Stack::last_first))]
    fn compare(&mut self) -> bool
        ensures { Takes result (at_compare (brackets self.old) self.old.is_right) (state_of self.new) }
    {
        if !self.open.is_empty() || self.is_right {
            return false;
        }
        self.wants = Wanted::Operand;
        self.is_right = true;
        true
    }

    fn operator(&mut self, token: &Token) -> Result<bool, NoMemory>
        ensures { IfOk result (λ taken. Takes taken (at_operator token.now (brackets self.old) self.old.is_right) (state_of self.new)) }
    {
        match token {
            Token::Plus | Token::Minus | Token::Times => {
                self.wants = Wanted::Operand;
                Ok(true)
            }
            Token::Close => Ok(self.close()),
            Token::Comma => self.comma(),
            Token::Compare(_) => Ok(self.compare()),
            Token::Number(_)
            | Token::Name(_)
            | Token::Sqr
            | Token::Abs
            | Token::Min
            | Token::Max
            | Token::Open => Ok(false),
        }
    }

    /// Whether the next token can follow those that were taken, and is taken. After a token that was
    /// not taken, or want of memory, ask no more.
    #[tactic(auto, unfolding(crate::specs::Acceptor::step))]
    pub fn take(&mut self, token: &Token) -> Result<bool, NoMemory>
        ensures { IfOk result (λ taken. Takes taken (step (state_of self.old) token.now) (state_of self.new)) }
    {
        match self.wants {
            Wanted::Operand => self.operand(token),
            Wanted::Opening(bracket) => self.opening(bracket, token),
            Wanted::Operator => self.operator(token),
        }
    }

    /// Whether the tokens that were taken are a whole relation.
    pub fn is_whole(&self) -> bool
        ensures { result ≡ is_whole (state_of self.now) }
    {
        match self.wants {
            Wanted::Operator => self.open.is_empty() && self.is_right,
            Wanted::Operand | Wanted::Opening(_) => false,
        }
    }

    /// How many brackets are open.
    pub fn open_count(&self) -> usize
        ensures { result ≡ length (brackets self.now) }
    {
        self.open.len()
    }
}
