ghost use Rattle.std.specs.Prelude.{◌≡◌, ◌*◌, ◌<◌, ◌^◌, length};

use crate::each_circuit::{folded, neutral};
use circuits::{Fold, fold_blocks};
use rand::rngs::StdRng;
use rand::{RngExt, SeedableRng};
use std::alloc::{AllocError, Global};
use std::test::Fail;
use wires::{Clear, Tally, Wires};

// Numbers of blocks, and lanes of each.
const SIZES: &[(usize, usize)] = &[
    (1, 1),
    (2, 1),
    (3, 1),
    (5, 1),
    (1, 3),
    (2, 3),
    (3, 3),
    (5, 3),
];

// The words of the fold of blocks.
fn value_of(
    alloc: Global,
    fold: Fold,
    words: &[u64],
    count: usize,
    width: usize,
) -> Result<Vec<u64>, AllocError>
    requires few { length words.now < 2 ^ 32 }
    requires some { 0 < count }
    requires lanes { length words.now ≡ count * width }
{
    let mut wires = Clear::new(alloc);
    let blocks = wires.constant(words)?;
    let new = fold_blocks(&mut wires, alloc, fold, blocks, count, width)?;
    wires.value(new).clone()
}

// What Rust's own arithmetic gives in one lane.
fn expected(fold: Fold, words: &[u64], width: usize, lane: usize) -> u64
    requires { 0 < width }
{
    let mut all = neutral(fold);
    for block in words.chunks(width) {
        all = block.get(lane).map_or(all, |word| folded(fold, all, *word));
    }
    all
}

// Whether the words are those that Rust computes in each lane.
fn are_expected(fold: Fold, words: &[u64], width: usize, found: &[u64]) -> bool
    requires { 0 < width }
{
    for (lane, word) in found.iter().enumerate() {
        if *word != expected(fold, words, width, lane) {
            return false;
        }
    }
    found.len() == width
}

fn random_words(alloc: Global, seed: u64, count: usize) -> Result<Vec<u64>, AllocError> {
    let mut random = StdRng::seed_from_u64(seed);
    let mut words = Vec::new(alloc);
    for _ in 0..count {
        words.push(random.random())?;
    }
    Ok(words)
}

// Whether the fold of so many random blocks is what Rust computes; no more than 16 lanes are folded.
fn folds_blocks(alloc: Global, fold: Fold, count: usize, width: usize) -> Result<bool, AllocError> {
    if count == 0 || width == 0 || count > 5 || width > 3 {
        return Ok(false);
    }
    let lanes = count * width;
    let words = random_words(alloc, 13 + lanes as u64, lanes)?;
    if words.len() != lanes || lanes > 16 {
        return Ok(false);
    }
    let value = value_of(alloc, fold, words.as_slice(), count, width)?;
    Ok(are_expected(fold, words.as_slice(), width, value.as_slice()))
}

// The first of the sizes at which a fold isn't what Rust computes.
fn first_wrong(
    alloc: Global,
    fold: Fold,
    sizes: &[(usize, usize)],
) -> Result<Option<(usize, usize)>, AllocError> {
    for (count, width) in sizes {
        if !folds_blocks(alloc, fold, *count, *width)? {
            return Ok(Some((*count, *width)));
        }
    }
    Ok(None)
}

#[test]
fn blocks_are_folded_lane_by_lane(rt: HostRuntime) -> Result<(), Fail> {
    for fold in [Fold::Sum, Fold::Least, Fold::Greatest, Fold::Any] {
        assert_eq!(rt; first_wrong(rt.alloc(), fold, SIZES)?, None, "{fold:?}");
    }
    Ok(())
}

// The AND words of the fold of blocks of zeros.
fn cost_of(
    alloc: Global,
    fold: Fold,
    zeros: &[u64],
    count: usize,
    width: usize,
) -> Result<u64, AllocError>
    requires few { length zeros.now < 2 ^ 32 }
    requires some { 0 < count }
    requires lanes { length zeros.now ≡ count * width }
{
    let mut wires = Tally::new(alloc);
    let blocks = wires.constant(zeros)?;
    let _new = fold_blocks(&mut wires, alloc, fold, blocks, count, width)?;
    Ok(wires.and_words())
}

// So many AND words for each block behind the first, and for a sum of some an addition more.
fn cost_in_a_lane(fold: Fold, words: u64, count: u64) -> u64 {
    let addition = if fold == Fold::Sum && count > 1 { 6 } else { 0 };
    words
        .wrapping_mul(count.saturating_sub(1))
        .wrapping_add(addition)
}

// Whether a fold of blocks takes as many AND words as it should.
fn costs(
    alloc: Global,
    fold: Fold,
    words: u64,
    count: usize,
    width: usize,
) -> Result<bool, AllocError> {
    if count == 0 || width == 0 || count > 5 || width > 3 {
        return Ok(false);
    }
    let zeros = vec![in alloc; 0; count * width]?;
    let cost = cost_of(alloc, fold, zeros.as_slice(), count, width)?;
    Ok(cost == cost_in_a_lane(fold, words, count as u64).wrapping_mul(width as u64))
}

// The first of the sizes at which a fold takes other AND words.
fn first_other_cost(
    alloc: Global,
    fold: Fold,
    words: u64,
    sizes: &[(usize, usize)],
) -> Result<Option<(usize, usize)>, AllocError> {
    for (count, width) in sizes {
        if !costs(alloc, fold, words, *count, *width)? {
            return Ok(Some((*count, *width)));
        }
    }
    Ok(None)
}

#[test]
fn folds_of_blocks_cost_what_is_promised(rt: HostRuntime) -> Result<(), Fail> {
    for (fold, words) in [(Fold::Sum, 1), (Fold::Least, 8), (Fold::Greatest, 8)] {
        let other = first_other_cost(rt.alloc(), fold, words, SIZES)?;
        assert!(rt; other.is_none(), "{fold:?} of {other:?}");
    }
    Ok(())
}
