use crate::lists::Separator;
use crate::statement::{
    Body, ConcatText, DistinctText, FilterText, GroupText, JoinText, OutputText, RelationText,
    SelectText,
};
use crate::token_list::{Spelled, TokenList};
use query_tokens::{Keyword, Lexeme, Sign};
use std::alloc::AllocError;

impl Spelled for RelationText {
    ghost use Rattle.query_text.specs.Spelling.{relation};

    ghost spelled = { relation };

    fn spell<'a>(&'a self, tokens: &mut TokenList<'a>) -> Result<(), AllocError> {
        tokens.put(&[
            Lexeme::Keyword(Keyword::Relation),
            Lexeme::Name(self.name.bytes()),
            Lexeme::Keyword(Keyword::Of),
            Lexeme::Number(u64::from(self.owner)),
            Lexeme::Keyword(Keyword::Rows),
            Lexeme::Number(self.rows),
        ])?;
        tokens.listed(self.columns.as_slice())?;
        tokens.parties_after(Keyword::Release, self.release.bytes())
    }
}

impl Spelled for FilterText {
    ghost use Rattle.query_text.specs.Spelling.{filter};

    ghost spelled = { filter };

    fn spell<'a>(&'a self, tokens: &mut TokenList<'a>) -> Result<(), AllocError> {
        tokens.put(&[
            Lexeme::Name(self.name.bytes()),
            Lexeme::Sign(Sign::Assign),
            Lexeme::Keyword(Keyword::Filter),
            Lexeme::Name(self.source.bytes()),
            Lexeme::Keyword(Keyword::Where),
        ])?;
        tokens.separated(Separator::And, self.tests.as_slice())?;
        tokens.at_most(self.at_most)?;
        tokens.clear_at(self.clear_at)
    }
}

impl Spelled for SelectText {
    ghost use Rattle.query_text.specs.Spelling.{select};

    ghost spelled = { select };

    fn spell<'a>(&'a self, tokens: &mut TokenList<'a>) -> Result<(), AllocError> {
        tokens.put(&[
            Lexeme::Name(self.name.bytes()),
            Lexeme::Sign(Sign::Assign),
            Lexeme::Keyword(Keyword::Select),
            Lexeme::Name(self.source.bytes()),
        ])?;
        tokens.listed(self.items.as_slice())?;
        tokens.clear_at(self.clear_at)
    }
}

impl Spelled for ConcatText {
    ghost use Rattle.query_text.specs.Spelling.{concat};

    ghost spelled = { concat };

    fn spell<'a>(&'a self, tokens: &mut TokenList<'a>) -> Result<(), AllocError> {
        tokens.put(&[
            Lexeme::Name(self.name.bytes()),
            Lexeme::Sign(Sign::Assign),
            Lexeme::Keyword(Keyword::Concat),
        ])?;
        tokens.sources(self.sources.as_slice())
    }
}

impl Spelled for JoinText {
    ghost use Rattle.query_text.specs.Spelling.{join};

    ghost spelled = { join };

    fn spell<'a>(&'a self, tokens: &mut TokenList<'a>) -> Result<(), AllocError> {
        tokens.put(&[
            Lexeme::Name(self.name.bytes()),
            Lexeme::Sign(Sign::Assign),
            Lexeme::Keyword(Keyword::Join),
            Lexeme::Name(self.left.bytes()),
            Lexeme::Name(self.right.bytes()),
            Lexeme::Keyword(Keyword::On),
        ])?;
        tokens.separated(Separator::Comma, self.keys.as_slice())?;
        tokens.at_most(self.at_most)?;
        tokens.via(self.via)?;
        tokens.clear_at(self.clear_at)
    }
}

impl Spelled for GroupText {
    ghost use Rattle.query_text.specs.Spelling.{group};

    ghost spelled = { group };

    fn spell<'a>(&'a self, tokens: &mut TokenList<'a>) -> Result<(), AllocError> {
        tokens.put(&[
            Lexeme::Name(self.name.bytes()),
            Lexeme::Sign(Sign::Assign),
            Lexeme::Keyword(Keyword::Group),
            Lexeme::Name(self.source.bytes()),
        ])?;
        tokens.keys(self.keys.as_slice())?;
        tokens.listed(self.aggregates.as_slice())?;
        tokens.parts_at_most(self.parts_at_most)?;
        tokens.at_most(self.at_most)?;
        tokens.via(self.via)?;
        tokens.clear_at(self.clear_at)
    }
}

impl Spelled for DistinctText {
    ghost use Rattle.query_text.specs.Spelling.{distinct};

    ghost spelled = { distinct };

    fn spell<'a>(&'a self, tokens: &mut TokenList<'a>) -> Result<(), AllocError> {
        tokens.put(&[
            Lexeme::Name(self.name.bytes()),
            Lexeme::Sign(Sign::Assign),
            Lexeme::Keyword(Keyword::Distinct),
            Lexeme::Name(self.source.bytes()),
        ])?;
        tokens.at_most(self.at_most)?;
        tokens.clear_at(self.clear_at)
    }
}

impl Spelled for OutputText {
    ghost use Rattle.query_text.specs.Spelling.{output};

    ghost spelled = { output };

    fn spell<'a>(&'a self, tokens: &mut TokenList<'a>) -> Result<(), AllocError> {
        tokens.put(&[
            Lexeme::Keyword(Keyword::Output),
            Lexeme::Name(self.node.bytes()),
            Lexeme::Keyword(Keyword::To),
        ])?;
        tokens.parties(self.recipients.bytes())
    }
}

impl Spelled for Body {
    ghost use Rattle.query_text.specs.Spelling.{spelling};

    ghost spelled = { spelling };

    fn spell<'a>(&'a self, tokens: &mut TokenList<'a>) -> Result<(), AllocError> {
        match self {
            Body::Relation(relation) => relation.spell(tokens),
            Body::Filter(filter) => filter.spell(tokens),
            Body::Select(select) => select.spell(tokens),
            Body::Concat(concat) => concat.spell(tokens),
            Body::Join(join) => join.spell(tokens),
            Body::Group(group) => group.spell(tokens),
            Body::Distinct(distinct) => distinct.spell(tokens),
            Body::Output(output) => output.spell(tokens),
        }
    }
}
