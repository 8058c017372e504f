//! Lists of words, whatever their lengths.
#![tactic(auto)]

ghost use Rattle.std.specs.Prelude.{◌≡◌, ◌*◌, IfOk, drop, slice_index, take};
ghost use Rattle.lanes.specs.Lanes.{picked, xors};

use std::alloc::{AllocError, Global};

/// The xor of two lists, the shorter one padded with zeros.
pub(crate) fn xored(alloc: Global, left: &[u64], right: &[u64]) -> Result<Vec<u64>, AllocError>
    ensures { IfOk result (λ made. made.items ≡ xors left.now right.now) }
{
    let both = left.len().min(right.len());
    let mut made = Vec::with_capacity(alloc, left.len().max(right.len()))?;
    for i in 0..both {
        made.push(left[i] ^ right[i])?;
    }
    made.extend_from_slice(&left[both..])?;
    made.extend_from_slice(&right[both..])?;
    Ok(made)
}

/// The word of a place, 0 where there is none.
pub(crate) fn word_at(words: &[u64], place: u64) -> u64
    ensures { result ≡ slice_index words.now place }
{
    match words.get(place as usize) {
        Some(word) => *word,
        None => 0,
    }
}

/// The words at these places, 0 where there is none.
pub(crate) fn pick(alloc: Global, places: &[u64], words: &[u64]) -> Result<Vec<u64>, AllocError>
    ensures { IfOk result (λ made. made.items ≡ picked places.now words.now) }
{
    let mut made = Vec::with_capacity(alloc, places.len())?;
    for place in places {
        made.push(word_at(words, *place))?;
    }
    Ok(made)
}

/// The first words, and those behind them.
pub(crate) fn cut(words: &[u64], count: usize) -> (&[u64], &[u64])
    ensures first { result.0.now ≡ take count words.now }
    ensures behind { result.1.now ≡ drop count words.now }
{
    words.split_at(count.min(words.len()))
}

/// The words behind those of so many registers.
pub(crate) fn behind(words: &[u64], registers: usize, rows: usize) -> &[u64]
    ensures { result.now ≡ drop (registers * rows) words.now }
{
    let (_, left) = cut(words, registers.saturating_mul(rows));
    left
}
