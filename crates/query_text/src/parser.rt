ghost use Rattle.std.specs.Prelude.{◌≡◌, [], ◌∷◌, length, map, MatchOption};
ghost use Rattle.query_tokens.specs.Token.{Token, is_keyword, is_sign};
ghost use Rattle.query_text.specs.Reading.{starts, rest_of, expect};
ghost use Rattle.query_text.specs.Answers.{Passes};

use crate::stop::Stop;
use query_tokens::{Keyword, Placed, Sign};
use std::marker::Model;

/// Reads the tokens of one line from the left. Contracts see those that are left. After a stop it stands
/// at the token that doesn't go on.
#[derive(Drop)]
pub(crate) struct Parser<'a> {
    tokens: &'a [Placed<'a>],
    next: usize,
}

impl<'a> Model for Parser<'a> {
    ghost use Rattle.std.specs.Prelude.{List, ℕ, ◌≤◌, drop, length, map};
    ghost use Rattle.query_tokens.specs.Token.{Token};

    ghost Value = { List Token };

    ghost view = { λ p. map (λ (t : Token × ℕ). t.0) (drop p.next p.tokens.now) };

    ghost invariant = { λ p. p.next ≤ length p.tokens.now };
}

impl<'a> Parser<'a> {
    /// At the first token of a line.
    pub(crate) fn new(tokens: &'a [Placed<'a>]) -> Parser<'a>
        ensures { result ≡ map (λ t. t.0) tokens.now }
    {
        Parser { tokens, next: 0 }
    }

    /// How many tokens are left.
    pub(crate) fn left(&self) -> usize
        ensures { result ≡ length self.now }
    {
        self.tokens.len() - self.next
    }

    /// The next token.
    pub(crate) fn peek(&self) -> Option<&'a Placed<'a>>
        ensures { MatchOption result (self.now ≡ []) (λ p. self.now ≡ p.now.0 ∷ rest_of self.now) }
    {
        if self.next < self.tokens.len() {
            Some(&self.tokens[self.next])
        } else {
            None
        }
    }

    /// Goes over the next token, where there is one.
    pub(crate) fn skip(&mut self)
        ensures { self.new ≡ rest_of self.old }
    {
        if self.next < self.tokens.len() {
            self.next += 1;
        }
    }

    /// Whether this keyword comes next.
    pub(crate) fn at_keyword(&self, keyword: Keyword) -> bool
        ensures { result ≡ starts (is_keyword keyword) self.now }
    {
        match self.peek() {
            Some(token) => token.is_keyword(keyword),
            None => false,
        }
    }

    /// Whether this sign comes next.
    pub(crate) fn at_sign(&self, sign: Sign) -> bool
        ensures { result ≡ starts (is_sign sign) self.now }
    {
        match self.peek() {
            Some(token) => token.is_sign(sign),
            None => false,
        }
    }

    /// Goes over this keyword.
    pub(crate) fn keyword(&mut self, keyword: Keyword) -> Result<(), Stop>
        ensures { Passes result self.new (expect (is_keyword keyword) self.old) }
    {
        if !self.at_keyword(keyword) {
            return Err(Stop::Text);
        }
        self.skip();
        Ok(())
    }

    /// Goes over this sign.
    pub(crate) fn sign(&mut self, sign: Sign) -> Result<(), Stop>
        ensures { Passes result self.new (expect (is_sign sign) self.old) }
    {
        if !self.at_sign(sign) {
            return Err(Stop::Text);
        }
        self.skip();
        Ok(())
    }
}
