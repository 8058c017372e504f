ghost use Rattle.std.specs.Prelude.{◌≡◌};
ghost use Rattle.query_text.specs.Forms.{column_at, test_at, item_at, aggregate_at, at_most_at, parts_at_most_at, clear_at_at, place_at, most_at};
ghost use Rattle.query_text.specs.Answers.{Gives};

use crate::bytes::Bytes;
use crate::lists::Part;
use crate::parser::Parser;
use crate::parts::{AggregateText, ColumnText, ItemText, TestText};
use crate::stop::Stop;
use query_tokens::{Keyword, Sign};
use std::alloc::Global;

impl Part for Bytes {
    ghost use Rattle.query_text.specs.Forms.{name_at};

    ghost read = { name_at };

    fn read(alloc: Global, parser: &mut Parser) -> Result<Bytes, Stop> {
        parser.name(alloc)
    }
}

impl Part for ColumnText {
    ghost use Rattle.query_text.specs.Forms.{column_at};

    ghost read = { column_at };

    fn read(alloc: Global, parser: &mut Parser) -> Result<ColumnText, Stop> {
        let name = parser.name(alloc)?;
        let kind = parser.kind()?;
        let trusted = parser.parties_behind(alloc, Keyword::Trust)?;
        Ok(ColumnText {
            name,
            kind,
            trusted,
        })
    }
}

impl Part for TestText {
    ghost use Rattle.query_text.specs.Forms.{test_at};

    ghost read = { test_at };

    fn read(alloc: Global, parser: &mut Parser) -> Result<TestText, Stop> {
        let left = parser.operand(alloc)?;
        let cmp = parser.comparison()?;
        let right = parser.operand(alloc)?;
        Ok(TestText { left, cmp, right })
    }
}

impl Part for ItemText {
    ghost use Rattle.query_text.specs.Forms.{item_at};

    ghost read = { item_at };

    fn read(alloc: Global, parser: &mut Parser) -> Result<ItemText, Stop> {
        let name = parser.name(alloc)?;
        if !parser.at_sign(Sign::Assign) {
            return Ok(ItemText::Same(name));
        }
        parser.skip();
        let left = parser.operand(alloc)?;
        if !parser.at_operator() {
            return Ok(ItemText::Copied(name, left));
        }
        let op = parser.operator()?;
        let right = parser.operand(alloc)?;
        Ok(ItemText::Computed(name, left, op, right))
    }
}

impl Part for AggregateText {
    ghost use Rattle.query_text.specs.Forms.{aggregate_at};

    ghost read = { aggregate_at };

    fn read(alloc: Global, parser: &mut Parser) -> Result<AggregateText, Stop> {
        let name = parser.name(alloc)?;
        parser.sign(Sign::Assign)?;
        if parser.at_keyword(Keyword::Sum) {
            parser.skip();
            return Ok(AggregateText::Sum(name, parser.name(alloc)?));
        }
        if parser.at_keyword(Keyword::Count) {
            parser.skip();
            return Ok(AggregateText::Count(name));
        }
        if parser.at_keyword(Keyword::Least) {
            parser.skip();
            return Ok(AggregateText::Least(name, parser.name(alloc)?));
        }
        parser.keyword(Keyword::Greatest)?;
        Ok(AggregateText::Greatest(name, parser.name(alloc)?))
    }
}

impl<'a> Parser<'a> {
    // most K
    fn most(&mut self) -> Result<u64, Stop>
        ensures { Gives (λ n. n) result self.new (most_at self.old) }
    {
        self.keyword(Keyword::Most)?;
        self.number()
    }

    /// `[at most K]`
    pub(crate) fn at_most(&mut self) -> Result<Option<u64>, Stop>
        ensures { Gives (λ m. m) result self.new (at_most_at self.old) }
    {
        if !self.at_keyword(Keyword::At) {
            return Ok(None);
        }
        self.skip();
        Ok(Some(self.most()?))
    }

    /// `[parts at most K]`
    pub(crate) fn parts_at_most(&mut self) -> Result<Option<u64>, Stop>
        ensures { Gives (λ m. m) result self.new (parts_at_most_at self.old) }
    {
        if !self.at_keyword(Keyword::Parts) {
            return Ok(None);
        }
        self.skip();
        self.keyword(Keyword::At)?;
        Ok(Some(self.most()?))
    }

    /// `[clear at P]`
    pub(crate) fn clear_at(&mut self) -> Result<Option<u8>, Stop>
        ensures { Gives (λ p. p) result self.new (clear_at_at self.old) }
    {
        if !self.at_keyword(Keyword::Clear) {
            return Ok(None);
        }
        self.skip();
        self.keyword(Keyword::At)?;
        Ok(Some(self.party()?))
    }

    /// `[via P | clear at P]`: the party behind `via`, and the one behind `clear at`.
    pub(crate) fn place(&mut self) -> Result<(Option<u8>, Option<u8>), Stop>
        ensures { Gives (λ p. (p.0, p.1)) result self.new (place_at self.old) }
    {
        if !self.at_keyword(Keyword::Via) {
            return Ok((None, self.clear_at()?));
        }
        self.skip();
        Ok((Some(self.party()?), None))
    }
}
