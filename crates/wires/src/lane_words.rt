//! Operations on lists of words, lane by lane.
#![tactic(auto)]

ghost use Rattle.std.specs.Prelude.{◌≡◌, ◌≤◌, length, IfOk, bit_and, bit_xor};
ghost use Rattle.lanes.specs.Lanes.{lanewise, lanewise1};
ghost use Rattle.lanes.specs.Word.{word_not};
ghost use Rattle.lanes.specs.Shifts.{shifted_left, shifted_right, spread_word};

use std::alloc::{AllocError, Global};

// The xor of the words in each lane.
pub(crate) fn xor_lanes(alloc: Global, left: &[u64], right: &[u64]) -> Result<Vec<u64>, AllocError>
    requires { length left.now ≡ length right.now }
    ensures words { IfOk result (λ words. words.items ≡ lanewise bit_xor left.now right.now) }
    ensures len { IfOk result (λ words. length words.items ≡ length left.now) }
{
    let mut words = Vec::with_capacity(alloc, left.len())?;
    for lane in 0..left.len() {
        words.push(left[lane] ^ right[lane])?;
    }
    Ok(words)
}

// The and of the words in each lane.
pub(crate) fn and_lanes(alloc: Global, left: &[u64], right: &[u64]) -> Result<Vec<u64>, AllocError>
    requires { length left.now ≡ length right.now }
    ensures words { IfOk result (λ words. words.items ≡ lanewise bit_and left.now right.now) }
    ensures len { IfOk result (λ words. length words.items ≡ length left.now) }
{
    let mut words = Vec::with_capacity(alloc, left.len())?;
    for lane in 0..left.len() {
        words.push(left[lane] & right[lane])?;
    }
    Ok(words)
}

// Each word with its bits turned.
pub(crate) fn not_lanes(alloc: Global, words: &[u64]) -> Result<Vec<u64>, AllocError>
    ensures { IfOk result (λ new. new.items ≡ lanewise1 word_not words.now) }
{
    words.iter().map(|word| *word ^ u64::MAX).collect(alloc)
}

// Each word shifted towards the high bits.
pub(crate) fn left_lanes(alloc: Global, words: &[u64], by: u32) -> Result<Vec<u64>, AllocError>
    requires { by ≤ 63 }
    ensures { IfOk result (λ new. new.items ≡ lanewise1 (shifted_left by) words.now) }
{
    words.iter().map(|word| *word << by).collect(alloc)
}

// Each word shifted towards the low bits.
pub(crate) fn right_lanes(alloc: Global, words: &[u64], by: u32) -> Result<Vec<u64>, AllocError>
    requires { by ≤ 63 }
    ensures { IfOk result (λ new. new.items ≡ lanewise1 (shifted_right by) words.now) }
{
    words.iter().map(|word| *word >> by).collect(alloc)
}

// The and of each word with one.
pub(crate) fn mask_lanes(alloc: Global, words: &[u64], mask: u64) -> Result<Vec<u64>, AllocError>
    ensures { IfOk result (λ new. new.items ≡ lanewise1 (λ x. bit_and x mask) words.now) }
{
    words.iter().map(|word| *word & mask).collect(alloc)
}

// Each word filled with its bit 0.
pub(crate) fn spread_lanes(alloc: Global, words: &[u64]) -> Result<Vec<u64>, AllocError>
    ensures { IfOk result (λ new. new.items ≡ lanewise1 spread_word words.now) }
{
    words
        .iter()
        .map(|word| (*word % 2) * u64::MAX)
        .collect(alloc)
}
