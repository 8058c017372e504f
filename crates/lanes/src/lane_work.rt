ghost use Rattle.std.specs.Prelude.{◌≡◌, ℕ, ◌<◌, length, slice_index, IfOk, bit_xor, bit_and};
ghost use Rattle.lanes.specs.Word.{cross};
ghost use Rattle.lanes.specs.Lanes.{xors, crosses, picked};

use listed::{Listed, Words};
use std::alloc::{AllocError, Global};

/// Xors a list of words into another one of the same length.
pub fn xor_into(target: &mut [u64], other: &[u64])
    requires { length other.now ≡ length target.old }
    ensures { target.new ≡ xors target.old other.now }
{
    for i in 0..target.len() {
        target[i] ^= other[i];
    }
}

/// The xor of two lists of words of one length.
pub fn xor_words(alloc: Global, left: &[u64], right: &[u64]) -> Result<Words, AllocError>
    requires { length left.now ≡ length right.now }
    ensures { IfOk result (λ words. words ≡ xors left.now right.now) }
{
    let mut words = Vec::from_slice(alloc, left)?;
    xor_into(&mut words, right);
    Ok(Listed::from_vec(words))
}

/// What a party adds to the and of two shared words, of which it holds `own` and the `next` share.
pub fn shared_and(own: u64, next: u64, other_own: u64, other_next: u64) -> u64
    ensures { result ≡ cross own next other_own other_next }
{
    (own & other_own) ^ (own & other_next) ^ (next & other_own)
}

/// `shared_and` in each lane of four lists of one length.
pub fn shared_ands(
    alloc: Global,
    own: &[u64],
    next: &[u64],
    other_own: &[u64],
    other_next: &[u64],
) -> Result<Words, AllocError>
    requires next { length next.now ≡ length own.now }
    requires other_own { length other_own.now ≡ length own.now }
    requires other_next { length other_next.now ≡ length own.now }
    ensures { IfOk result (λ words. words ≡ crosses own.now next.now other_own.now other_next.now) }
{
    let mut words = Vec::with_capacity(alloc, own.len())?;
    for i in 0..own.len() {
        words.push(shared_and(own[i], next[i], other_own[i], other_next[i]))?;
    }
    Ok(Listed::from_vec(words))
}

/// The words of `source` at these places.
pub fn pick_words(alloc: Global, source: &[u64], places: &[u32]) -> Result<Words, AllocError>
    requires { (k : ℕ) → k < length places.now → slice_index places.now k < length source.now }
    ensures { IfOk result (λ words. words ≡ picked places.now source.now) }
{
    let mut words = Vec::with_capacity(alloc, places.len())?;
    for place in places {
        words.push(source[*place as usize])?;
    }
    Ok(Listed::from_vec(words))
}
