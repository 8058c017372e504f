ghost use Rattle.std.specs.Prelude.{ℕ, List, IfOk, IfErr, ◌≡◌, ◌+◌, ◌-◌, ◌<◌, ◌≤◌, ◌++◌, length, drop, OnOk};
ghost use Rattle.std.specs.Option.{option_to_list};
ghost use Rattle.query_tokens.specs.Lines.{lines_of};
ghost use Rattle.query_text.specs.Text.{column_by, IsQuery, IsFaultAt};
ghost use Rattle.query_text.specs.ReadText.{line_on, read_lines, read_text, GivesText, GivesQuery, GivesPlace, IsReason};
ghost use Rattle.query_text.specs.declared.statement.Statement.{Statement};
ghost use Rattle.query_text.specs.declared.query.ReadFault.{ReadFault};

use crate::parser::Parser;
use crate::query::{Query, ReadFault};
use crate::statement::Statement;
use crate::stop::Stop;
use listed::Listed;
use query_tokens::{Placed, scan_line, split_line, tokens_are_real};
use std::alloc::{AllocError, Global};

/// The most bytes of a text.
const TEXT_LIMIT: usize = 65536;

/// The most statements of a text.
const STATEMENT_LIMIT: usize = 64;

// The column at which the last of a line's tokens begin, or the one behind the line's last byte.
fn column_of(line: &[u8], tokens: &[Placed], left: usize) -> u32
    requires { length line.now ≤ 65536 }
    ensures { result ≡ column_by line.now (drop (length tokens.now - left) tokens.now) }
{
    match tokens.get(tokens.len().saturating_sub(left)) {
        Some(token) => token.column(),
        None => line.len() as u32 + 1,
    }
}

// The statement of a line, or none where it has no token. The tokens are room for those of this line.
fn read_line<'a>(
    alloc: Global,
    number: u32,
    count: usize,
    line: &'a [u8],
    tokens: &mut Vec<Placed<'a>>,
) -> Result<Option<Statement>, ReadFault>
    requires { length line.now ≤ 65536 }
    ensures { GivesText (λ s. s) result (line_on number count line.now) }
{
    tokens.clear();
    scan_line(line, tokens)?;
    if tokens.is_empty() {
        return Ok(None);
    }
    if count >= STATEMENT_LIMIT {
        return Err(ReadFault::Text {
            line: number,
            column: column_of(line, tokens, tokens.len()),
        });
    }
    let mut parser = Parser::new(tokens);
    match parser.statement(alloc) {
        Ok(body) => Ok(Some(Statement { line: number, body })),
        Err(Stop::Memory) => Err(ReadFault::Memory),
        Err(Stop::Text) => Err(ReadFault::Text {
            line: number,
            column: column_of(line, tokens, parser.left()),
        }),
    }
}

// Adds a statement at the end, where there is one.
fn add(statements: &mut Vec<Statement>, statement: Option<Statement>) -> Result<(), AllocError>
    ensures { OnOk result (statements.new.items ≡ statements.old.items ++ option_to_list statement) }
{
    if let Some(statement) = statement {
        statements.push(statement)?;
    }
    Ok(())
}

// The statements of a text's lines.
fn read_lines(alloc: Global, text: &[u8]) -> Result<Listed<Statement>, ReadFault>
    requires { length text.now ≤ 65536 }
    ensures { GivesText (λ s. s) result (read_lines 1 0 (lines_of text.now)) }
{
    let mut statements = Vec::new(alloc);
    let mut tokens = Vec::new(alloc);
    let mut rest = text;
    let mut number: u32 = 1;
    'lines: loop {
        let (line, behind) = split_line(rest);
        let statement = read_line(alloc, number, statements.len(), line, &mut tokens)?;
        add(&mut statements, statement)?;
        match behind {
            Some(more) => rest = more,
            None => return Ok(Listed::from_vec(statements)),
        }
        number += 1;
    }
}

// What the text gives.
fn read(alloc: Global, text: &[u8]) -> Result<Query, ReadFault>
    ensures exact { GivesText (λ q. q) result (read_text text.now) }
{
    if text.len() > TEXT_LIMIT {
        return Err(ReadFault::Text { line: 0, column: 0 });
    }
    tokens_are_real();
    let statements = read_lines(alloc, text)?;
    Ok(Query { statements })
}

/// The statements of a text, each with its line. A text that is no query gives the place where it stops
/// being one: the first token such that the tokens of its line, up to and with it, begin no statement;
/// the column behind a line that ends too early; the first token of the 65th statement; line 0 and column
/// 0 for more than 65,536 bytes. Own grammar.
pub fn read_query(alloc: Global, bytes: &[u8]) -> Result<Query, ReadFault>
    // What is read is a query with these statements.
    ensures found { IfOk result (λ q. IsQuery bytes.now q) }

    // A text that is a query with these statements is read so, unless memory runs out.
    ensures only { (q : List Statement) → IsQuery bytes.now q → GivesQuery result q }

    // A fault is the place where the text stops being a query, or want of memory.
    ensures fault { IfErr result (IsReason bytes.now) }

    // Where a text stops being a query, that place is the answer, unless memory runs out.
    ensures place { (line column : ℕ) → IsFaultAt bytes.now line column → GivesPlace result line column }
{
    tokens_are_real();
    read(alloc, bytes)
}
