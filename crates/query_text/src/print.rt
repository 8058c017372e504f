ghost use Rattle.std.specs.Prelude.{◌≡◌, ◌≤◌, ◌++◌, length, IfOk, OnOk};
ghost use Rattle.query_text.specs.Text.{IsQuery};
ghost use Rattle.query_text.specs.Printing.{printed_line, printed_query, on_lines_from};

use crate::query::Query;
use crate::statement::Body;
use crate::token_list::{Spelled, TokenList};
use query_tokens::reads_back;
use std::alloc::{AllocError, Global};

// Writes a statement's line at the end of the text.
fn print_statement(alloc: Global, body: &Body, text: &mut Vec<u8>) -> Result<(), AllocError>
    ensures { OnOk result (text.new.items ≡ text.old.items ++ printed_line body.now) }
{
    let mut tokens = TokenList::new(alloc);
    body.spell(&mut tokens)?;
    tokens.print(text)?;
    text.push(b'\n')?;
    Ok(())
}

/// The text of a query: one statement a line, one space between two tokens, none behind `(` and none
/// before `)` and `,`; numbers in shortest decimal; LF behind each line. Own.
pub fn print_query(alloc: Global, query: &Query) -> Result<Vec<u8>, AllocError>
    // It is written in the one spelling.
    ensures written { IfOk result (λ text. text.items ≡ printed_query query.now) }

    // It is a query with the same statements, on the lines 1, 2, 3 and on, unless it is too long.
    ensures again { IfOk result (λ text.
        length text.items ≤ 65536 → IsQuery text.items (on_lines_from 1 query.now)) }
{
    reads_back();
    let mut text = Vec::new(alloc);
    for statement in query.statements.as_slice() {
        print_statement(alloc, &statement.body, &mut text)?;
    }
    Ok(text)
}
