//! Texts as words.
#![tactic(auto)]

ghost use Rattle.std.specs.Prelude.{◌≡◌, ◌++◌, ◌-◌, ◌≤◌, IfOk, length, replicate};
ghost use Rattle.std.specs.List.{list_all};
ghost use Rattle.words.specs.Texts.{PackingKeepsOrder, TextsAreWords, TextsComeBack, WordsComeBack, is_text_byte, packed, spread_of, text_of, unpacked, without_end_zeros};

use crate::num::ValueFault;
use std::alloc::{AllocError, Global};

/// The most bytes of a text.
const TEXT_LIMIT: usize = 8;

/// The word of a text: its bytes from the high byte of the word on, then zeros.
///
/// `TextLong` for more than 8 bytes, and otherwise `TextByte` where a byte isn't from 0x20 to 0x7E. Own.
pub fn pack_text(bytes: &[u8]) -> Result<u64, ValueFault>
    ensures { result ≡ text_of bytes.now }
{
    if bytes.len() > TEXT_LIMIT {
        return Err(ValueFault::TextLong);
    }
    if !are_text_bytes(bytes) {
        return Err(ValueFault::TextByte);
    }
    Ok(packed(bytes))
}

/// The bytes of a word from the high one on, without the zeros at their end: of the word of a text, that text.
pub fn unpack_text(alloc: Global, word: u64) -> Result<Vec<u8>, AllocError>
    ensures { IfOk result (λ text. text.items ≡ unpacked word) }
{
    let bytes = word.to_be_bytes();
    Vec::from_slice(alloc, without_end_zeros(&bytes))
}

/// A law: the word of a text unpacks to that text.
pub fn texts_come_back()
    ensures { TextsComeBack }
{}

/// A law: what a word unpacks to has that word.
pub fn words_come_back()
    ensures { WordsComeBack }
{}

/// A law: the word of a text is below 2^64.
pub fn texts_are_words()
    ensures { TextsAreWords }
{}

/// A law: texts are ordered as their words, byte by byte from the first on.
pub fn packing_keeps_order()
    ensures { PackingKeepsOrder }
{}

// The word whose bytes from the high one on are these, and then zeros.
fn packed(bytes: &[u8]) -> u64
    requires { length bytes.now ≤ 8 }
    ensures { result ≡ packed bytes.now }
{
    u64::from_be_bytes(padded(bytes))
}

// Whether each byte may stand in a text.
fn are_text_bytes(bytes: &[u8]) -> bool
    ensures { result ≡ list_all is_text_byte bytes.now }
{
    bytes.iter().all(|byte| is_text_byte(*byte))
}

fn is_text_byte(byte: u8) -> bool
    ensures { result ≡ is_text_byte byte }
{
    byte >= 0x20 && byte <= 0x7E
}

// The bytes, and zeros up to 8.
fn padded(bytes: &[u8]) -> [u8; 8]
    requires { length bytes.now ≤ 8 }
    ensures { result ≡ bytes.now ++ replicate (8 - length bytes.now) 0 }
{
    let mut padded = [0; 8];
    for (index, byte) in bytes.iter().enumerate() {
        padded[index] = *byte;
    }
    padded
}

// The bytes up to the last that isn't 0.
fn without_end_zeros(bytes: &[u8]) -> &[u8]
    ensures { result.now ≡ without_end_zeros bytes.now }
{
    let mut length = 0;
    for (index, byte) in bytes.iter().enumerate() {
        if *byte != 0 {
            length = index + 1;
        }
    }
    &bytes[..length]
}

/// All ones where bit 0 of the word is 1, and 0 otherwise.
pub fn spread(word: u64) -> u64
    ensures { result ≡ spread_of word }
{
    if word % 2 == 1 { u64::MAX } else { 0 }
}
