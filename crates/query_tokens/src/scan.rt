ghost use Rattle.std.specs.Prelude.{◌≡◌, ◌<◌, ◌+◌, ◌-◌, ◌*◌, ◌^◌, ◌++◌, ◌==◌, length, find, IsTrue, OnOk};
ghost use Rattle.std.specs.Option.{SomeIff};
ghost use Rattle.std.specs.List.{prefix_len, starts_with, list_all};
ghost use Rattle.std.specs.Cmp.Lexicographic.{pointwise};
ghost use Rattle.std.specs.Char.{is_ascii_digit};
ghost use Rattle.query_tokens.specs.Words.{word_of, sign_text};
ghost use Rattle.query_tokens.specs.Token.{starts_word, is_word_byte, is_quotable};
ghost use Rattle.query_tokens.specs.Lexemes.{token_of};
ghost use Rattle.query_tokens.specs.Scan.{keyword_of, sign_at, value_after, named, word_token, number_token, quoted_front, signed, front, is_blank, places_of};

use crate::keyword::{KEYWORDS, Keyword};
use crate::sign::{SIGNS, Sign};
use crate::token::{Lexeme, Placed};
use std::alloc::AllocError;

/// The longest name.
const NAME_LIMIT: usize = 32;

fn starts_word(byte: u8) -> bool
    ensures { result ≡ starts_word byte }
{
    byte.is_ascii_alphabetic() || byte == b'_'
}

fn is_word_byte(byte: u8) -> bool
    ensures { result ≡ is_word_byte byte }
{
    starts_word(byte) || byte.is_ascii_digit()
}

fn is_quotable(byte: u8) -> bool
    ensures { result ≡ is_quotable byte }
{
    byte >= 0x20 && byte <= 0x7E && byte != b'"'
}

fn is_blank(byte: u8) -> bool
    ensures { result ≡ is_blank byte }
{
    byte == b' ' || byte == b'\t'
}

fn word_run(bytes: &[u8]) -> usize
    ensures { result ≡ prefix_len is_word_byte bytes.now }
{
    bytes.iter().take_while(|b| is_word_byte(**b)).count()
}

fn digit_run(bytes: &[u8]) -> usize
    ensures { result ≡ prefix_len is_ascii_digit bytes.now }
{
    bytes.iter().take_while(|b| b.is_ascii_digit()).count()
}

fn quotable_run(bytes: &[u8]) -> usize
    ensures { result ≡ prefix_len is_quotable bytes.now }
{
    bytes.iter().take_while(|b| is_quotable(**b)).count()
}

fn keyword_in(keywords: &[Keyword], word: &[u8]) -> Option<Keyword>
    ensures { result ≡ find (λ k. pointwise ◌==◌ (word_of k) word.now) keywords.now }
{
    keywords.iter().copied().find(|k| k.word() == word)
}

fn keyword_of(word: &[u8]) -> Option<Keyword>
    ensures { result ≡ keyword_of word.now }
{
    keyword_in(&KEYWORDS, word)
}

fn sign_in(signs: &[Sign], bytes: &[u8]) -> Option<Sign>
    ensures { result ≡ find (λ s. starts_with ◌==◌ bytes.now (sign_text s)) signs.now }
{
    signs.iter().copied().find(|s| bytes.starts_with(s.text()))
}

fn sign_at(bytes: &[u8]) -> Option<Sign>
    ensures { result ≡ sign_at bytes.now }
{
    sign_in(&SIGNS, bytes)
}

// A keyword, or a name that isn't too long.
fn word_token(word: &[u8]) -> Lexeme<'_>
    ensures { token_of result ≡ word_token word.now }
{
    match keyword_of(word) {
        Some(keyword) => Lexeme::Keyword(keyword),
        None => name_token(word),
    }
}

fn name_token(word: &[u8]) -> Lexeme<'_>
    ensures { token_of result ≡ named word.now None }
{
    if word.len() <= NAME_LIMIT {
        Lexeme::Name(word)
    } else {
        Lexeme::Bad
    }
}

// The value of decimal digits, where it is below 2^64.
fn value_of(digits: &[u8]) -> Option<u64>
    requires { IsTrue (list_all is_ascii_digit digits.now) }
    ensures { SomeIff result (value_after 0 digits.now < 2 ^ 64) (value_after 0 digits.now) }
{
    let mut value: u64 = 0;
    for digit in digits {
        value = with_digit(value, *digit)?;
    }
    Some(value)
}

fn with_digit(value: u64, digit: u8) -> Option<u64>
    requires { IsTrue (is_ascii_digit digit) }
    ensures { SomeIff result (value * 10 + (digit - 48) < 2 ^ 64) (value * 10 + (digit - 48)) }
{
    let tens = value.checked_mul(10)?;
    tens.checked_add(u64::from(digit - b'0'))
}

fn number_token(digits: &[u8]) -> Lexeme<'_>
    requires { IsTrue (list_all is_ascii_digit digits.now) }
    ensures { token_of result ≡ number_token digits.now }
{
    match value_of(digits) {
        Some(value) => Lexeme::Number(value),
        None => Lexeme::Bad,
    }
}

// What stands behind a quote, up to the next one, and how many bytes it has with both quotes.
fn quoted_front(bytes: &[u8]) -> (Lexeme<'_>, usize)
    requires { length bytes.now + 1 < 2 ^ 64 }
    ensures { (token_of result.0, result.1) ≡ quoted_front bytes.now }
{
    let len = quotable_run(bytes);
    if len < bytes.len() && bytes[len] == b'"' {
        (Lexeme::Quoted(&bytes[..len]), len + 2)
    } else {
        (Lexeme::Bad, 0)
    }
}

fn signed<'a>(sign: Option<Sign>) -> (Lexeme<'a>, usize)
    ensures { (token_of result.0, result.1) ≡ signed sign }
{
    match sign {
        Some(sign) => (Lexeme::Sign(sign), sign.text().len()),
        None => (Lexeme::Bad, 0),
    }
}

// The token at the front, and how many bytes it has.
fn front(bytes: &[u8]) -> (Lexeme<'_>, usize)
    requires { 0 < length bytes.now }
    ensures { (token_of result.0, result.1) ≡ front bytes.now }
{
    let first = bytes[0];
    if starts_word(first) {
        let len = word_run(bytes);
        (word_token(&bytes[..len]), len)
    } else if first.is_ascii_digit() {
        let len = digit_run(bytes);
        (number_token(&bytes[..len]), len)
    } else if first == b'"' {
        quoted_front(&bytes[1..])
    } else {
        signed(sign_at(bytes))
    }
}

/// Adds the tokens of a line at the end. Without memory, some of them may have been added.
pub fn scan_line<'a>(line: &'a [u8], tokens: &mut Vec<Placed<'a>>) -> Result<(), AllocError>
    requires { length line.now + 1 < 2 ^ 32 }
    ensures { OnOk result (tokens.new.items ≡ tokens.old.items ++ places_of line.now) }
{
    let mut at = 0;
    while at < line.len() {
        if line[at] == b'#' {
            return Ok(());
        }
        if is_blank(line[at]) {
            at += 1;
        } else {
            let (lexeme, len) = front(&line[at..]);
            let bad = lexeme.is_bad();
            tokens.push(Placed::new(lexeme, at as u32 + 1))?;
            if bad {
                return Ok(());
            }
            at += len;
        }
    }
    Ok(())
}
