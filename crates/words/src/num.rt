//! Numbers as fields write them.
#![tactic(auto)]

ghost use Rattle.std.specs.Prelude.{◌≡◌, ◌+◌, ◌*◌, ◌^◌, ◌<◌, true};
ghost use Rattle.std.specs.Char.{digit_value, is_ascii_digit};
ghost use Rattle.std.specs.Int.{IsInRange};
ghost use Rattle.std.specs.List.{list_all};
ghost use Rattle.std.specs.Option.{SomeIff};
ghost use Rattle.std.specs.Str.Parse.{digits_value};
ghost use Rattle.words.specs.Numbers.{is_decimal, number_of};

use thiserror::Error;

/// Why a field's bytes are no value of its column's kind.
#[derive(Clone, Copy, Debug, PartialEq, Eq, Error)]
pub enum ValueFault {
    /// The field is empty or holds a byte that is no ASCII digit.
    #[error("not a number")]
    NotNumber,
    /// The number is above 2^64 - 1.
    #[error("too large")]
    TooLarge,
    /// The text has more than 8 bytes.
    #[error("text too long")]
    TextLong,
    /// A byte of the text isn't from space to tilde.
    #[error("text byte")]
    TextByte,
}

/// The number that a field writes: one or more ASCII digits, leading zeros allowed.
///
/// `NotNumber` where the bytes are empty or one of them is no digit, and otherwise `TooLarge` where the
/// decimal value is above 2^64 - 1. Own.
pub fn read_num(bytes: &[u8]) -> Result<u64, ValueFault>
    ensures { result ≡ number_of bytes.now }
{
    if is_decimal(bytes) {
        decimal_value(bytes).ok_or(ValueFault::TooLarge)
    } else {
        Err(ValueFault::NotNumber)
    }
}

// Whether the bytes are one digit or more, and nothing else.
fn is_decimal(bytes: &[u8]) -> bool
    ensures { result ≡ is_decimal bytes.now }
{
    !bytes.is_empty() && are_digits(bytes)
}

// Whether each byte is a digit.
fn are_digits(bytes: &[u8]) -> bool
    ensures { result ≡ list_all is_ascii_digit bytes.now }
{
    bytes.iter().all(|byte| byte.is_ascii_digit())
}

// The decimal value of digits, where it fits a word.
fn decimal_value(digits: &[u8]) -> Option<u64>
    requires { is_decimal digits.now ≡ true }
    ensures { SomeIff result (digits_value 10 digits.now < 2 ^ 64) (digits_value 10 digits.now) }
{
    let mut value = 0;
    for digit in digits {
        value = with_digit(value, *digit)?;
    }
    Some(value)
}

// The value with one more digit behind it, where that fits a word.
fn with_digit(value: u64, digit: u8) -> Option<u64>
    requires { IsInRange 48 57 digit }
    ensures { SomeIff result (value * 10 + digit_value digit < 2 ^ 64) (value * 10 + digit_value digit) }
{
    value.checked_mul(10)?.checked_add(u64::from(digit - b'0'))
}
