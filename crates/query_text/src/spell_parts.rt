ghost use Rattle.std.specs.Prelude.{◌≡◌};
ghost use Rattle.query_tokens.specs.Lexemes.{token_of};
ghost use Rattle.query_text.specs.Spelling.{kind_token, comparison, operator, operand};

use crate::bytes::Bytes;
use crate::operand::{Cmp, KindText, Op, OperandText};
use crate::parts::{AggregateText, ColumnText, ItemText, TestText};
use crate::token_list::{Spelled, TokenList};
use query_tokens::{Keyword, Lexeme, Sign};
use std::alloc::AllocError;

fn kind_token<'a>(kind: KindText) -> Lexeme<'a>
    ensures { token_of result ≡ kind_token kind }
{
    match kind {
        KindText::Num => Lexeme::Keyword(Keyword::Num),
        KindText::Text => Lexeme::Keyword(Keyword::Text),
    }
}

fn comparison_token<'a>(cmp: Cmp) -> Lexeme<'a>
    ensures { token_of result ≡ comparison cmp }
{
    match cmp {
        Cmp::Eq => Lexeme::Sign(Sign::Equal),
        Cmp::Ne => Lexeme::Sign(Sign::NotEqual),
        Cmp::Lt => Lexeme::Sign(Sign::Less),
        Cmp::Le => Lexeme::Sign(Sign::LessEqual),
        Cmp::Gt => Lexeme::Sign(Sign::Greater),
        Cmp::Ge => Lexeme::Sign(Sign::GreaterEqual),
    }
}

fn operator_token<'a>(op: Op) -> Lexeme<'a>
    ensures { token_of result ≡ operator op }
{
    match op {
        Op::Compare(cmp) => comparison_token(cmp),
        Op::Add => Lexeme::Sign(Sign::Plus),
        Op::Sub => Lexeme::Sign(Sign::Minus),
        Op::Mul => Lexeme::Sign(Sign::Star),
        Op::And => Lexeme::Sign(Sign::Ampersand),
        Op::Or => Lexeme::Sign(Sign::Bar),
    }
}

fn operand_token(value: &OperandText) -> Lexeme<'_>
    ensures { token_of result ≡ operand value.now }
{
    match value {
        OperandText::Name(name) => Lexeme::Name(name.bytes()),
        OperandText::Number(number) => Lexeme::Number(*number),
        OperandText::Quoted(text) => Lexeme::Quoted(text.bytes()),
        OperandText::True => Lexeme::Keyword(Keyword::True),
        OperandText::False => Lexeme::Keyword(Keyword::False),
    }
}

impl Spelled for Bytes {
    ghost use Rattle.query_text.specs.Spelling.{one_name};

    ghost spelled = { one_name };

    fn spell<'a>(&'a self, tokens: &mut TokenList<'a>) -> Result<(), AllocError> {
        tokens.put(&[Lexeme::Name(self.bytes())])
    }
}

impl Spelled for ColumnText {
    ghost use Rattle.query_text.specs.Spelling.{column};

    ghost spelled = { column };

    fn spell<'a>(&'a self, tokens: &mut TokenList<'a>) -> Result<(), AllocError> {
        tokens.put(&[Lexeme::Name(self.name.bytes()), kind_token(self.kind)])?;
        tokens.parties_after(Keyword::Trust, self.trusted.bytes())
    }
}

impl Spelled for TestText {
    ghost use Rattle.query_text.specs.Spelling.{test};

    ghost spelled = { test };

    fn spell<'a>(&'a self, tokens: &mut TokenList<'a>) -> Result<(), AllocError> {
        tokens.put(&[
            operand_token(&self.left),
            comparison_token(self.cmp),
            operand_token(&self.right),
        ])
    }
}

impl Spelled for ItemText {
    ghost use Rattle.query_text.specs.Spelling.{item};

    ghost spelled = { item };

    fn spell<'a>(&'a self, tokens: &mut TokenList<'a>) -> Result<(), AllocError> {
        match self {
            ItemText::Same(name) => tokens.put(&[Lexeme::Name(name.bytes())]),
            ItemText::Copied(name, operand) => tokens.put(&[
                Lexeme::Name(name.bytes()),
                Lexeme::Sign(Sign::Assign),
                operand_token(operand),
            ]),
            ItemText::Computed(name, left, op, right) => tokens.put(&[
                Lexeme::Name(name.bytes()),
                Lexeme::Sign(Sign::Assign),
                operand_token(left),
                operator_token(*op),
                operand_token(right),
            ]),
        }
    }
}

impl Spelled for AggregateText {
    ghost use Rattle.query_text.specs.Spelling.{aggregate};

    ghost spelled = { aggregate };

    fn spell<'a>(&'a self, tokens: &mut TokenList<'a>) -> Result<(), AllocError> {
        match self {
            AggregateText::Sum(name, column) => tokens.put(&[
                Lexeme::Name(name.bytes()),
                Lexeme::Sign(Sign::Assign),
                Lexeme::Keyword(Keyword::Sum),
                Lexeme::Name(column.bytes()),
            ]),
            AggregateText::Count(name) => tokens.put(&[
                Lexeme::Name(name.bytes()),
                Lexeme::Sign(Sign::Assign),
                Lexeme::Keyword(Keyword::Count),
            ]),
            AggregateText::Least(name, column) => tokens.put(&[
                Lexeme::Name(name.bytes()),
                Lexeme::Sign(Sign::Assign),
                Lexeme::Keyword(Keyword::Least),
                Lexeme::Name(column.bytes()),
            ]),
            AggregateText::Greatest(name, column) => tokens.put(&[
                Lexeme::Name(name.bytes()),
                Lexeme::Sign(Sign::Assign),
                Lexeme::Keyword(Keyword::Greatest),
                Lexeme::Name(column.bytes()),
            ]),
        }
    }
}
