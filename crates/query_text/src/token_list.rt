ghost use Rattle.std.specs.Prelude.{◌≡◌, [], ◌++◌, map, OnOk};
ghost use Rattle.std.specs.List.{flat_map};
ghost use Rattle.query_tokens.specs.Lexemes.{token_of};
ghost use Rattle.query_tokens.specs.Print.{printed};
ghost use Rattle.query_text.specs.Separators.{separator_token};
ghost use Rattle.query_text.specs.Spelling.{led, separated, listed, one_name, keys, optional, parties, parties_after, at_most, parts_at_most, clear_at, via};

use crate::bytes::Bytes;
use crate::lists::Separator;
use query_tokens::{Keyword, Lexeme, Sign, print_tokens};
use std::alloc::{AllocError, Global};
use std::marker::Model;

/// Collects the tokens of a statement, which borrow it. Contracts see their list. Without memory,
/// some of what was to be added may have been.
#[derive(Drop)]
pub(crate) struct TokenList<'a> {
    tokens: Vec<Lexeme<'a>>,
}

impl<'a> Model for TokenList<'a> {
    ghost use Rattle.std.specs.Prelude.{List, map};
    ghost use Rattle.query_tokens.specs.Token.{Token};

    ghost Value = { List Token };

    ghost use Rattle.query_tokens.specs.Lexemes.{token_of};

    ghost view = { λ l. map token_of l.tokens.items };
}

/// A part of a statement, or a statement, that is spelled by tokens.
pub(crate) trait Spelled {
    ghost use Rattle.std.specs.Prelude.{List};
    ghost use Rattle.query_tokens.specs.Token.{Token};

    ghost spelled: { Self → List Token };

    fn spell<'a>(&'a self, tokens: &mut TokenList<'a>) -> Result<(), AllocError>
        ensures { OnOk result (tokens.new ≡ tokens.old ++ spelled self.now) };
}

fn separator_token<'a>(separator: Separator) -> Lexeme<'a>
    ensures { token_of result ≡ separator_token separator }
{
    match separator {
        Separator::Comma => Lexeme::Sign(Sign::Comma),
        Separator::And => Lexeme::Keyword(Keyword::And),
    }
}

impl<'a> TokenList<'a> {
    /// No tokens.
    pub(crate) fn new(alloc: Global) -> TokenList<'a>
        ensures { result ≡ [] }
    {
        TokenList {
            tokens: Vec::new(alloc),
        }
    }

    /// Writes the tokens at the end of the text.
    pub(crate) fn print(&self, text: &mut Vec<u8>) -> Result<(), AllocError>
        ensures { OnOk result (text.new.items ≡ text.old.items ++ printed self.now) }
    {
        print_tokens(self.tokens.as_slice(), text)
    }

    /// Adds tokens at the end.
    pub(crate) fn put(&mut self, tokens: &[Lexeme<'a>]) -> Result<(), AllocError>
        ensures { OnOk result (self.new ≡ self.old ++ map token_of tokens.now) }
    {
        self.tokens.extend_from_slice(tokens)
    }

    // Each part behind a separator.
    fn led<P: Spelled>(&mut self, separator: Separator, parts: &'a [P]) -> Result<(), AllocError>
        ensures { OnOk result (self.new
            ≡ self.old ++ led (separator_token separator) P.spelled parts.now) }
    {
        for part in parts {
            self.put(&[separator_token(separator)])?;
            part.spell(self)?;
        }
        Ok(())
    }

    /// Parts with a separator between them.
    pub(crate) fn separated<P: Spelled>(
        &mut self,
        separator: Separator,
        parts: &'a [P],
    ) -> Result<(), AllocError>
        ensures { OnOk result (self.new
            ≡ self.old ++ separated (separator_token separator) P.spelled parts.now) }
    {
        let Some((first, rest)) = parts.split_first() else {
            return Ok(());
        };
        first.spell(self)?;
        self.led(separator, rest)
    }

    /// `( X {, X} )`
    pub(crate) fn listed<P: Spelled>(&mut self, parts: &'a [P]) -> Result<(), AllocError>
        ensures { OnOk result (self.new ≡ self.old ++ listed P.spelled parts.now) }
    {
        self.put(&[Lexeme::Sign(Sign::LeftParen)])?;
        self.separated(Separator::Comma, parts)?;
        self.put(&[Lexeme::Sign(Sign::RightParen)])
    }

    /// `S {S}`
    pub(crate) fn sources(&mut self, names: &'a [Bytes]) -> Result<(), AllocError>
        ensures { OnOk result (self.new ≡ self.old ++ flat_map one_name names.now) }
    {
        for name in names {
            self.put(&[Lexeme::Name(name.bytes())])?;
        }
        Ok(())
    }

    /// `[by C {, C}]`
    pub(crate) fn keys(&mut self, names: &'a [Bytes]) -> Result<(), AllocError>
        ensures { OnOk result (self.new ≡ self.old ++ keys names.now) }
    {
        if names.is_empty() {
            return Ok(());
        }
        self.put(&[Lexeme::Keyword(Keyword::By)])?;
        self.separated(Separator::Comma, names)
    }

    /// The numbers of parties.
    pub(crate) fn parties(&mut self, numbers: &[u8]) -> Result<(), AllocError>
        ensures { OnOk result (self.new ≡ self.old ++ parties numbers.now) }
    {
        for number in numbers {
            self.put(&[Lexeme::Number(u64::from(*number))])?;
        }
        Ok(())
    }

    /// The parties behind this keyword, or nothing where there are none.
    pub(crate) fn parties_after(
        &mut self,
        keyword: Keyword,
        numbers: &[u8],
    ) -> Result<(), AllocError>
        ensures { OnOk result (self.new ≡ self.old ++ parties_after keyword numbers.now) }
    {
        if numbers.is_empty() {
            return Ok(());
        }
        self.put(&[Lexeme::Keyword(keyword)])?;
        self.parties(numbers)
    }

    /// `[at most K]`
    pub(crate) fn at_most(&mut self, bound: Option<u64>) -> Result<(), AllocError>
        ensures { OnOk result (self.new ≡ self.old ++ optional at_most bound) }
    {
        match bound {
            Some(bound) => self.put(&[
                Lexeme::Keyword(Keyword::At),
                Lexeme::Keyword(Keyword::Most),
                Lexeme::Number(bound),
            ]),
            None => Ok(()),
        }
    }

    /// `[parts at most K]`
    pub(crate) fn parts_at_most(&mut self, bound: Option<u64>) -> Result<(), AllocError>
        ensures { OnOk result (self.new ≡ self.old ++ optional parts_at_most bound) }
    {
        if bound.is_none() {
            return Ok(());
        }
        self.put(&[Lexeme::Keyword(Keyword::Parts)])?;
        self.at_most(bound)
    }

    /// `[clear at P]`
    pub(crate) fn clear_at(&mut self, party: Option<u8>) -> Result<(), AllocError>
        ensures { OnOk result (self.new ≡ self.old ++ optional clear_at party) }
    {
        match party {
            Some(party) => self.put(&[
                Lexeme::Keyword(Keyword::Clear),
                Lexeme::Keyword(Keyword::At),
                Lexeme::Number(u64::from(party)),
            ]),
            None => Ok(()),
        }
    }

    /// `[via P]`
    pub(crate) fn via(&mut self, party: Option<u8>) -> Result<(), AllocError>
        ensures { OnOk result (self.new ≡ self.old ++ optional via party) }
    {
        match party {
            Some(party) => self.put(&[
                Lexeme::Keyword(Keyword::Via),
                Lexeme::Number(u64::from(party)),
            ]),
            None => Ok(()),
        }
    }
}
