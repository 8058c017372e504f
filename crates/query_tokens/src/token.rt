ghost use Rattle.std.specs.Prelude.{◌≡◌};
ghost use Rattle.std.specs.Option.{option_copied};

use crate::keyword::Keyword;
use crate::sign::Sign;
use std::marker::Model;

/// What stands at a place of a line. A name or a quoted text borrows the line, the latter without its
/// quotes.
#[derive(Clone, Copy, Debug)]
pub enum Lexeme<'a> {
    Name(&'a [u8]),
    Number(u64),
    Quoted(&'a [u8]),
    Keyword(Keyword),
    Sign(Sign),
    /// Bytes that are no token, to the end of the line.
    Bad,
}

impl<'a> Lexeme<'a> {
    ghost use Rattle.query_tokens.specs.Token.{is_bad, is_sign};
    ghost use Rattle.query_tokens.specs.Lexemes.{token_of};

    /// Whether the bytes are no token.
    pub fn is_bad(&self) -> bool
        ensures { result ≡ is_bad (token_of self.now) }
    {
        match *self {
            Lexeme::Bad => true,
            _ => false,
        }
    }

    /// Whether it is this sign.
    pub fn is_sign(&self, sign: Sign) -> bool
        ensures { result ≡ is_sign sign (token_of self.now) }
    {
        match *self {
            Lexeme::Sign(found) => found.is(sign),
            _ => false,
        }
    }
}

/// A token of a line and its column in bytes, from 1. Contracts see the pair.
#[derive(Debug, Drop)]
pub struct Placed<'a> {
    lexeme: Lexeme<'a>,
    column: u32,
}

impl<'a> Model for Placed<'a> {
    ghost use Rattle.std.specs.Prelude.{ℕ};
    ghost use Rattle.query_tokens.specs.Token.{Token};

    ghost Value = { Token × ℕ };

    ghost use Rattle.query_tokens.specs.Lexemes.{token_of};

    ghost view = { λ p. (token_of p.lexeme, p.column) };
}

impl<'a> Placed<'a> {
    ghost use Rattle.query_tokens.specs.Token.{is_keyword, is_sign, name_of, number_of, quoted_of};
    ghost use Rattle.query_tokens.specs.Lexemes.{token_of};

    /// A token at a column.
    pub(crate) fn new(lexeme: Lexeme<'a>, column: u32) -> Placed<'a>
        ensures { result ≡ (token_of lexeme.entry, column) }
    {
        Placed { lexeme, column }
    }

    /// What stands there.
    pub fn lexeme(&self) -> Lexeme<'a>
        ensures { token_of result ≡ self.now.0 }
    {
        self.lexeme
    }

    /// The column of its first byte, from 1.
    pub fn column(&self) -> u32
        ensures { result ≡ self.now.1 }
    {
        self.column
    }

    /// Whether it is this keyword.
    pub fn is_keyword(&self, keyword: Keyword) -> bool
        ensures { result ≡ is_keyword keyword self.now.0 }
    {
        match self.lexeme {
            Lexeme::Keyword(found) => found.is(keyword),
            _ => false,
        }
    }

    /// Whether it is this sign.
    pub fn is_sign(&self, sign: Sign) -> bool
        ensures { result ≡ is_sign sign self.now.0 }
    {
        self.lexeme.is_sign(sign)
    }

    /// A name's bytes.
    pub fn name(&self) -> Option<&'a [u8]>
        ensures { option_copied result ≡ name_of self.now.0 }
    {
        match self.lexeme {
            Lexeme::Name(bytes) => Some(bytes),
            _ => None,
        }
    }

    /// A number's value.
    pub fn number(&self) -> Option<u64>
        ensures { result ≡ number_of self.now.0 }
    {
        match self.lexeme {
            Lexeme::Number(value) => Some(value),
            _ => None,
        }
    }

    /// A quoted text's bytes, without the quotes.
    pub fn quoted(&self) -> Option<&'a [u8]>
        ensures { option_copied result ≡ quoted_of self.now.0 }
    {
        match self.lexeme {
            Lexeme::Quoted(bytes) => Some(bytes),
            _ => None,
        }
    }
}
