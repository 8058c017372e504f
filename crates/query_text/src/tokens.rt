ghost use Rattle.std.specs.Prelude.{◌≡◌, IfOk};
ghost use Rattle.std.specs.Option.{option_copied};
ghost use Rattle.query_tokens.specs.Token.{name_of, number_of};
ghost use Rattle.query_text.specs.Reading.{first_value, starts};
ghost use Rattle.query_text.specs.Forms.{name_at, number_at, party_at, kind_at, comparison_at, operator_at, operand_at, is_operator, is_name, party_above, party_of, kind_of, comparison_of, operator_of, operand_of};
ghost use Rattle.query_text.specs.Answers.{Gives};

use crate::bytes::Bytes;
use crate::operand::{Cmp, KindText, Op, OperandText};
use crate::parser::Parser;
use crate::stop::Stop;
use query_tokens::{Keyword, Lexeme, Placed, Sign};
use std::alloc::{AllocError, Global};

// The number of a party.
fn party_of(token: &Placed) -> Option<u8>
    ensures { result ≡ party_of token.now.0 }
{
    match token.number() {
        Some(1) => Some(1),
        Some(2) => Some(2),
        Some(3) => Some(3),
        _ => None,
    }
}

fn kind_of(token: &Placed) -> Option<KindText>
    ensures { result ≡ kind_of token.now.0 }
{
    if token.is_keyword(Keyword::Num) {
        Some(KindText::Num)
    } else if token.is_keyword(Keyword::Text) {
        Some(KindText::Text)
    } else {
        None
    }
}

fn comparison_of(token: &Placed) -> Option<Cmp>
    ensures { result ≡ comparison_of token.now.0 }
{
    match token.lexeme() {
        Lexeme::Sign(Sign::Equal) => Some(Cmp::Eq),
        Lexeme::Sign(Sign::NotEqual) => Some(Cmp::Ne),
        Lexeme::Sign(Sign::Less) => Some(Cmp::Lt),
        Lexeme::Sign(Sign::LessEqual) => Some(Cmp::Le),
        Lexeme::Sign(Sign::Greater) => Some(Cmp::Gt),
        Lexeme::Sign(Sign::GreaterEqual) => Some(Cmp::Ge),
        _ => None,
    }
}

fn operator_of(token: &Placed) -> Option<Op>
    ensures { result ≡ operator_of token.now.0 }
{
    match token.lexeme() {
        Lexeme::Sign(Sign::Plus) => Some(Op::Add),
        Lexeme::Sign(Sign::Minus) => Some(Op::Sub),
        Lexeme::Sign(Sign::Star) => Some(Op::Mul),
        Lexeme::Sign(Sign::Ampersand) => Some(Op::And),
        Lexeme::Sign(Sign::Bar) => Some(Op::Or),
        _ => match comparison_of(token) {
            Some(cmp) => Some(Op::Compare(cmp)),
            None => None,
        },
    }
}

fn operand_of(alloc: Global, token: &Placed) -> Result<Option<OperandText>, AllocError>
    ensures { IfOk result (λ x. x ≡ operand_of token.now.0) }
{
    let operand = match token.lexeme() {
        Lexeme::Name(bytes) => OperandText::Name(Bytes::from_slice(alloc, bytes)?),
        Lexeme::Number(value) => OperandText::Number(value),
        Lexeme::Quoted(bytes) => OperandText::Quoted(Bytes::from_slice(alloc, bytes)?),
        Lexeme::Keyword(Keyword::True) => OperandText::True,
        Lexeme::Keyword(Keyword::False) => OperandText::False,
        _ => return Ok(None),
    };
    Ok(Some(operand))
}

impl<'a> Parser<'a> {
    fn next_name(&self) -> Option<&'a [u8]>
        ensures { option_copied result ≡ first_value name_of self.now }
    {
        match self.peek() {
            Some(token) => token.name(),
            None => None,
        }
    }

    fn next_number(&self) -> Option<u64>
        ensures { result ≡ first_value number_of self.now }
    {
        match self.peek() {
            Some(token) => token.number(),
            None => None,
        }
    }

    fn next_party(&self) -> Option<u8>
        ensures { result ≡ first_value party_of self.now }
    {
        match self.peek() {
            Some(token) => party_of(token),
            None => None,
        }
    }

    fn next_kind(&self) -> Option<KindText>
        ensures { result ≡ first_value kind_of self.now }
    {
        match self.peek() {
            Some(token) => kind_of(token),
            None => None,
        }
    }

    fn next_comparison(&self) -> Option<Cmp>
        ensures { result ≡ first_value comparison_of self.now }
    {
        match self.peek() {
            Some(token) => comparison_of(token),
            None => None,
        }
    }

    fn next_operator(&self) -> Option<Op>
        ensures { result ≡ first_value operator_of self.now }
    {
        match self.peek() {
            Some(token) => operator_of(token),
            None => None,
        }
    }

    fn next_operand(&self, alloc: Global) -> Result<Option<OperandText>, AllocError>
        ensures { IfOk result (λ x. x ≡ first_value operand_of self.now) }
    {
        match self.peek() {
            Some(token) => operand_of(alloc, token),
            None => Ok(None),
        }
    }

    pub(crate) fn name(&mut self, alloc: Global) -> Result<Bytes, Stop>
        ensures { Gives (λ n. n) result self.new (name_at self.old) }
    {
        match self.next_name() {
            Some(bytes) => {
                let name = Bytes::from_slice(alloc, bytes)?;
                self.skip();
                Ok(name)
            }
            None => Err(Stop::Text),
        }
    }

    pub(crate) fn number(&mut self) -> Result<u64, Stop>
        ensures { Gives (λ n. n) result self.new (number_at self.old) }
    {
        match self.next_number() {
            Some(value) => {
                self.skip();
                Ok(value)
            }
            None => Err(Stop::Text),
        }
    }

    pub(crate) fn party(&mut self) -> Result<u8, Stop>
        ensures { Gives (λ p. p) result self.new (party_at self.old) }
    {
        match self.next_party() {
            Some(party) => {
                self.skip();
                Ok(party)
            }
            None => Err(Stop::Text),
        }
    }

    pub(crate) fn kind(&mut self) -> Result<KindText, Stop>
        ensures { Gives (λ k. k) result self.new (kind_at self.old) }
    {
        match self.next_kind() {
            Some(kind) => {
                self.skip();
                Ok(kind)
            }
            None => Err(Stop::Text),
        }
    }

    pub(crate) fn comparison(&mut self) -> Result<Cmp, Stop>
        ensures { Gives (λ c. c) result self.new (comparison_at self.old) }
    {
        match self.next_comparison() {
            Some(cmp) => {
                self.skip();
                Ok(cmp)
            }
            None => Err(Stop::Text),
        }
    }

    /// Whether an operator comes next.
    pub(crate) fn at_operator(&self) -> bool
        ensures { result ≡ starts is_operator self.now }
    {
        match self.peek() {
            Some(token) => operator_of(token).is_some(),
            None => false,
        }
    }

    pub(crate) fn operator(&mut self) -> Result<Op, Stop>
        ensures { Gives (λ o. o) result self.new (operator_at self.old) }
    {
        match self.next_operator() {
            Some(op) => {
                self.skip();
                Ok(op)
            }
            None => Err(Stop::Text),
        }
    }

    /// Whether a name comes next.
    pub(crate) fn at_name(&self) -> bool
        ensures { result ≡ starts is_name self.now }
    {
        match self.peek() {
            Some(token) => token.name().is_some(),
            None => false,
        }
    }

    /// The next token's number, where it is a party above this one.
    pub(crate) fn party_above(&self, party: u8) -> Option<u8>
        ensures { result ≡ first_value (party_above party) self.now }
    {
        match self.next_number() {
            Some(number) if number > u64::from(party) && number <= 3 => Some(number as u8),
            _ => None,
        }
    }

    pub(crate) fn operand(&mut self, alloc: Global) -> Result<OperandText, Stop>
        ensures { Gives (λ x. x) result self.new (operand_at self.old) }
    {
        match self.next_operand(alloc)? {
            Some(operand) => {
                self.skip();
                Ok(operand)
            }
            None => Err(Stop::Text),
        }
    }
}
