ghost use Rattle.std.specs.Prelude.{◌≡◌};
ghost use Rattle.query_text.specs.Reading.{starts, several};
ghost use Rattle.query_text.specs.Forms.{parties_at, parties_behind, concat_at};
ghost use Rattle.query_text.specs.Separators.{separates};
ghost use Rattle.query_text.specs.Answers.{Gives};

use crate::bytes::Bytes;
use crate::parser::Parser;
use crate::stop::Stop;
use listed::Listed;
use query_tokens::{Keyword, Sign};
use std::alloc::Global;

/// What stands between the parts of a list.
#[derive(Clone, Copy, Debug)]
pub(crate) enum Separator {
    Comma,
    And,
}

/// A part of a statement that stands in lists.
pub(crate) trait Part: Sized {
    ghost use Rattle.std.specs.Prelude.{List, Result};
    ghost use Rattle.query_tokens.specs.Token.{Token};
    ghost use Rattle.query_text.specs.Reading.{Read};

    ghost read: { List Token → Read Token Self };

    fn read(alloc: Global, parser: &mut Parser) -> Result<Self, Stop>
        ensures { Gives (λ x. x) result parser.new (read parser.old) };
}

impl<'a> Parser<'a> {
    fn at_separator(&self, separator: Separator) -> bool
        ensures { result ≡ starts (separates separator) self.now }
    {
        match separator {
            Separator::Comma => self.at_sign(Sign::Comma),
            Separator::And => self.at_keyword(Keyword::And),
        }
    }

    /// One part or more, with a separator between them.
    pub(crate) fn several<P: Part + Drop>(
        &mut self,
        alloc: Global,
        separator: Separator,
    ) -> Result<Listed<P>, Stop>
        ensures { Gives (λ xs. xs) result self.new (several (separates separator) P.read self.old) }
    {
        let mut parts = Vec::new(alloc);
        parts.push(P::read(alloc, self)?)?;
        // A list has no more parts than there are tokens.
        for _part in 0..self.left() {
            if !self.at_separator(separator) {
                return Ok(Listed::from_vec(parts));
            }
            self.skip();
            parts.push(P::read(alloc, self)?)?;
        }
        Ok(Listed::from_vec(parts))
    }

    /// One to three parties in rising order.
    pub(crate) fn parties(&mut self, alloc: Global) -> Result<Bytes, Stop>
        ensures { Gives (λ ps. ps) result self.new (parties_at self.old) }
    {
        let mut parties = Vec::new(alloc);
        let mut last = self.party()?;
        parties.push(last)?;
        while let Some(party) = self.party_above(last) {
            self.skip();
            parties.push(party)?;
            last = party;
        }
        Ok(Bytes::from_vec(parties))
    }

    /// The parties behind this keyword, or none where it doesn't come next.
    pub(crate) fn parties_behind(&mut self, alloc: Global, keyword: Keyword) -> Result<Bytes, Stop>
        ensures { Gives (λ ps. ps) result self.new (parties_behind keyword self.old) }
    {
        if !self.at_keyword(keyword) {
            return Ok(Bytes::from_vec(Vec::new(alloc)));
        }
        self.skip();
        self.parties(alloc)
    }

    /// Two to eight names.
    pub(crate) fn sources(&mut self, alloc: Global) -> Result<Listed<Bytes>, Stop>
        ensures { Gives (λ ns. ns) result self.new (concat_at self.old) }
    {
        let mut sources = Vec::new(alloc);
        sources.push(self.name(alloc)?)?;
        sources.push(self.name(alloc)?)?;
        for _source in 0..6usize {
            if !self.at_name() {
                return Ok(Listed::from_vec(sources));
            }
            sources.push(self.name(alloc)?)?;
        }
        Ok(Listed::from_vec(sources))
    }
}
