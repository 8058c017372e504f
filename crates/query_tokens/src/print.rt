ghost use Rattle.std.specs.Prelude.{◌≡◌, [], ◌∷◌, ◌++◌, map, decimal, OnOk};
ghost use Rattle.query_tokens.specs.Lexemes.{token_of};
ghost use Rattle.query_tokens.specs.Print.{text_of, has_space, space_between, printed};

use crate::sign::Sign;
use crate::token::Lexeme;
use itoa::Buffer;
use std::alloc::AllocError;

fn has_space(left: &Lexeme, right: &Lexeme) -> bool
    ensures { result ≡ has_space (token_of left.now) (token_of right.now) }
{
    !(left.is_sign(Sign::LeftParen)
        || right.is_sign(Sign::RightParen)
        || right.is_sign(Sign::Comma))
}

fn print_number(number: u64, text: &mut Vec<u8>) -> Result<(), AllocError>
    ensures { OnOk result (text.new.items ≡ text.old.items ++ decimal number) }
{
    let mut digits = Buffer::new();
    text.extend_from_slice(digits.format(number).as_bytes())
}

fn print_quoted(bytes: &[u8], text: &mut Vec<u8>) -> Result<(), AllocError>
    ensures { OnOk result (text.new.items ≡ text.old.items ++ 34 ∷ (bytes.now ++ 34 ∷ [])) }
{
    text.push(b'"')?;
    text.extend_from_slice(bytes)?;
    text.push(b'"')?;
    Ok(())
}

fn print_token(token: &Lexeme, text: &mut Vec<u8>) -> Result<(), AllocError>
    ensures { OnOk result (text.new.items ≡ text.old.items ++ text_of (token_of token.now)) }
{
    match *token {
        Lexeme::Name(bytes) => text.extend_from_slice(bytes),
        Lexeme::Number(number) => print_number(number, text),
        Lexeme::Quoted(bytes) => print_quoted(bytes, text),
        Lexeme::Keyword(keyword) => text.extend_from_slice(keyword.word()),
        Lexeme::Sign(sign) => text.extend_from_slice(sign.text()),
        Lexeme::Bad => Ok(()),
    }
}

// A token behind another one.
fn print_behind(last: &Lexeme, token: &Lexeme, text: &mut Vec<u8>) -> Result<(), AllocError>
    ensures { OnOk result (text.new.items ≡ text.old.items
        ++ (space_between (token_of last.now) (token_of token.now) ++ text_of (token_of token.now))) }
{
    if has_space(last, token) {
        text.push(b' ')?;
    }
    print_token(token, text)
}

/// Writes the tokens of a line at the end of the text: one space between two of them, none behind `(`
/// and none before `)` and `,`; numbers in shortest decimal. Without memory, some of them may have
/// been written. Own.
pub fn print_tokens(tokens: &[Lexeme], text: &mut Vec<u8>) -> Result<(), AllocError>
    ensures { OnOk result (text.new.items ≡ text.old.items ++ printed (map token_of tokens.now)) }
{
    let Some((first, rest)) = tokens.split_first() else {
        return Ok(());
    };
    print_token(first, text)?;
    let mut last = first;
    for token in rest {
        print_behind(last, token, text)?;
        last = token;
    }
    Ok(())
}
