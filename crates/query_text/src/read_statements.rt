ghost use Rattle.std.specs.Prelude.{◌≡◌};
ghost use Rattle.query_text.specs.Reading.{mapped, pair, after};
ghost use Rattle.query_text.specs.Forms.{relation_at, filter_at, select_at, concat_at, join_at, group_at, distinct_at, output_at, keys_at, in_parens, column_at, item_at, aggregate_at, relation_of, filter_of, select_of, concat_of, join_of, group_of, distinct_of, output_of, node_at, node_of, body_at, statement_at};
ghost use Rattle.query_text.specs.Answers.{Gives, GivesWhole};

use crate::bytes::Bytes;
use crate::lists::{Part, Separator};
use crate::parser::Parser;
use crate::statement::{
    Body, ConcatText, DistinctText, FilterText, GroupText, JoinText, OutputText, RelationText,
    SelectText,
};
use crate::stop::Stop;
use listed::Listed;
use query_tokens::{Keyword, Sign};
use std::alloc::Global;

impl<'a> Parser<'a> {
    // ( X {, X} )
    fn in_parens<P: Part + Drop>(&mut self, alloc: Global) -> Result<Listed<P>, Stop>
        ensures { Gives (λ xs. xs) result self.new (in_parens P.read self.old) }
    {
        self.sign(Sign::LeftParen)?;
        let parts = self.several(alloc, Separator::Comma)?;
        self.sign(Sign::RightParen)?;
        Ok(parts)
    }

    // [by C {, C}]
    fn keys(&mut self, alloc: Global) -> Result<Listed<Bytes>, Stop>
        ensures { Gives (λ ks. ks) result self.new (keys_at self.old) }
    {
        if !self.at_keyword(Keyword::By) {
            return Ok(Listed::new(alloc));
        }
        self.skip();
        self.several(alloc, Separator::Comma)
    }

    // N of P rows K ( COLUMN {, COLUMN} ) [release PS]
    fn relation(&mut self, alloc: Global) -> Result<Body, Stop>
        ensures { Gives (λ b. b) result self.new (mapped relation_of relation_at self.old) }
    {
        let name = self.name(alloc)?;
        self.keyword(Keyword::Of)?;
        let owner = self.party()?;
        self.keyword(Keyword::Rows)?;
        let rows = self.number()?;
        let columns = self.in_parens(alloc)?;
        let release = self.parties_behind(alloc, Keyword::Release)?;
        Ok(Body::Relation(RelationText {
            name,
            owner,
            rows,
            columns,
            release,
        }))
    }

    // S where TEST {and TEST} [at most K] [clear at P]
    fn filter(&mut self, alloc: Global, name: Bytes) -> Result<Body, Stop>
        ensures { Gives (λ b. b) result self.new (mapped (filter_of name) filter_at self.old) }
    {
        let source = self.name(alloc)?;
        self.keyword(Keyword::Where)?;
        let tests = self.several(alloc, Separator::And)?;
        let at_most = self.at_most()?;
        let clear_at = self.clear_at()?;
        Ok(Body::Filter(FilterText {
            name,
            source,
            tests,
            at_most,
            clear_at,
        }))
    }

    // S ( ITEM {, ITEM} ) [clear at P]
    fn select(&mut self, alloc: Global, name: Bytes) -> Result<Body, Stop>
        ensures { Gives (λ b. b) result self.new (mapped (select_of name) select_at self.old) }
    {
        let source = self.name(alloc)?;
        let items = self.in_parens(alloc)?;
        let clear_at = self.clear_at()?;
        Ok(Body::Select(SelectText {
            name,
            source,
            items,
            clear_at,
        }))
    }

    // S S {S}
    fn concat(&mut self, alloc: Global, name: Bytes) -> Result<Body, Stop>
        ensures { Gives (λ b. b) result self.new (mapped (concat_of name) concat_at self.old) }
    {
        let sources = self.sources(alloc)?;
        Ok(Body::Concat(ConcatText { name, sources }))
    }

    // S S on C {, C} [at most K] [via P | clear at P]
    fn join(&mut self, alloc: Global, name: Bytes) -> Result<Body, Stop>
        ensures { Gives (λ b. b) result self.new (mapped (join_of name) join_at self.old) }
    {
        let left = self.name(alloc)?;
        let right = self.name(alloc)?;
        self.keyword(Keyword::On)?;
        let keys = self.several(alloc, Separator::Comma)?;
        let at_most = self.at_most()?;
        let (via, clear_at) = self.place()?;
        Ok(Body::Join(JoinText {
            name,
            left,
            right,
            keys,
            at_most,
            via,
            clear_at,
        }))
    }

    // S [by C {, C}] ( AGG {, AGG} ) [parts at most K] [at most K] [via P | clear at P]
    fn group(&mut self, alloc: Global, name: Bytes) -> Result<Body, Stop>
        ensures { Gives (λ b. b) result self.new (mapped (group_of name) group_at self.old) }
    {
        let source = self.name(alloc)?;
        let keys = self.keys(alloc)?;
        let aggregates = self.in_parens(alloc)?;
        let parts_at_most = self.parts_at_most()?;
        let at_most = self.at_most()?;
        let (via, clear_at) = self.place()?;
        Ok(Body::Group(GroupText {
            name,
            source,
            keys,
            aggregates,
            parts_at_most,
            at_most,
            via,
            clear_at,
        }))
    }

    // S [at most K] [clear at P]
    fn distinct(&mut self, alloc: Global, name: Bytes) -> Result<Body, Stop>
        ensures { Gives (λ b. b) result self.new (mapped (distinct_of name) distinct_at self.old) }
    {
        let source = self.name(alloc)?;
        let at_most = self.at_most()?;
        let clear_at = self.clear_at()?;
        Ok(Body::Distinct(DistinctText {
            name,
            source,
            at_most,
            clear_at,
        }))
    }

    // N to PS
    fn output(&mut self, alloc: Global) -> Result<Body, Stop>
        ensures { Gives (λ b. b) result self.new (mapped output_of output_at self.old) }
    {
        let node = self.name(alloc)?;
        self.keyword(Keyword::To)?;
        let recipients = self.parties(alloc)?;
        Ok(Body::Output(OutputText { node, recipients }))
    }

    // What stands behind N =
    fn node(&mut self, alloc: Global, name: Bytes) -> Result<Body, Stop>
        ensures { Gives (λ b. b) result self.new (mapped (node_of name) node_at self.old) }
    {
        if self.at_keyword(Keyword::Filter) {
            self.skip();
            return self.filter(alloc, name);
        }
        if self.at_keyword(Keyword::Select) {
            self.skip();
            return self.select(alloc, name);
        }
        if self.at_keyword(Keyword::Concat) {
            self.skip();
            return self.concat(alloc, name);
        }
        if self.at_keyword(Keyword::Join) {
            self.skip();
            return self.join(alloc, name);
        }
        if self.at_keyword(Keyword::Group) {
            self.skip();
            return self.group(alloc, name);
        }
        self.keyword(Keyword::Distinct)?;
        self.distinct(alloc, name)
    }

    fn body(&mut self, alloc: Global) -> Result<Body, Stop>
        ensures { Gives (λ b. b) result self.new (body_at self.old) }
    {
        if self.at_keyword(Keyword::Relation) {
            self.skip();
            return self.relation(alloc);
        }
        if self.at_keyword(Keyword::Output) {
            self.skip();
            return self.output(alloc);
        }
        let name = self.name(alloc)?;
        self.sign(Sign::Assign)?;
        self.node(alloc, name)
    }

    /// The statement that the line's tokens are.
    pub(crate) fn statement(&mut self, alloc: Global) -> Result<Body, Stop>
        ensures { GivesWhole result self.new (statement_at self.old) }
    {
        let body = self.body(alloc)?;
        if self.left() > 0 {
            return Err(Stop::Text);
        }
        Ok(body)
    }
}
