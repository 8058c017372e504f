//! Folds of blocks of lanes.
#![tactic(auto)]

ghost use Rattle.std.specs.Prelude.{◌≡◌, ℕ, ◌+◌, ◌-◌, ◌*◌, ◌^◌, ◌<◌, ◌≤◌, length, slice_range, IfOk};
ghost use Rattle.lanes.specs.Logarithm.{ceil_log2};
ghost use Rattle.lanes.specs.Sums.{sum_word};
ghost use Rattle.wires.specs.Environment.{words};
ghost use Rattle.wires.specs.Growth.{Carries, Grows, IsMade, lanes_of};
ghost use Rattle.circuits.specs.Blocks.{blocks_folded, halves_folded, thirds_saved};
ghost use Rattle.circuits.specs.BlockCosts.{blocks_calls, blocks_cost, blocks_wires, sum_cost};
ghost use Rattle.circuits.specs.Folds.{combine_calls, combine_cost, combine_wires, combined_word};
ghost use Rattle.circuits.specs.Values.{saved_carries, saved_sums};

use crate::block_lanes::{followed_by, lanes_between, one_after_other};
use crate::carry_save::{Saved, save};
use crate::folds::{Fold, combine};
use lanes::{log_laws, word_laws};
use std::alloc::{AllocError, Global};
use wires::{Wire, Wires};

/// The fold of each lane over `count` blocks of `width` lanes, which lie one after the other: lane i of block j is
/// lane j * width + i.
///
/// For a sum three blocks become two with the same sum until two are left (after Wallace, 1964): one AND word a lane
/// for each block but two, and one addition. Otherwise halves of the blocks are folded with each other until one
/// block is left: the AND words of `combine` a lane for each block but one. The AND calls go by the levels of the
/// blocks and not by their number: two for each level and an addition for a sum, else those of `combine`. Own.
pub fn fold_blocks<W: Wires>(
    wires: &mut W,
    alloc: Global,
    fold: Fold,
    blocks: Wire,
    count: usize,
    width: usize,
) -> Result<Wire, AllocError>
    requires blocks { IsMade (W.shape wires.old) blocks }
    requires some { 0 < count }
    requires lanes { lanes_of (W.shape wires.old) blocks ≡ count * width }
    ensures grows { Grows W.grown W.possible W.shape wires.old wires.new }
    ensures ok { IfOk result (λ new. Carries (W.possible wires.new) (W.shape wires.new) new width
        (λ v. blocks_folded (combined_word fold) count width (words v blocks))) }
    ensures cost { W.ands wires.new ≤ W.ands wires.old + blocks_cost fold width count }
    ensures calls { W.and_calls wires.new ≤ W.and_calls wires.old + blocks_calls fold (ceil_log2 count) }
    ensures wires { length (W.shape wires.new) ≤ length (W.shape wires.old) + blocks_wires fold (ceil_log2 count) }
{
    log_laws();
    match fold {
        Fold::Sum => {
            let new = sum_blocks(wires, alloc, blocks, count, width)?;
            Ok(new)
        }
        Fold::Least => {
            let new = fold_in_halves(wires, alloc, Fold::Least, blocks, count, width)?;
            Ok(new)
        }
        Fold::Greatest => {
            let new = fold_in_halves(wires, alloc, Fold::Greatest, blocks, count, width)?;
            Ok(new)
        }
        Fold::Any => {
            let new = fold_in_halves(wires, alloc, Fold::Any, blocks, count, width)?;
            Ok(new)
        }
    }
}

// The sum of each lane over all blocks: three blocks as two until two are left, and their sum.
fn sum_blocks<W: Wires>(
    wires: &mut W,
    alloc: Global,
    blocks: Wire,
    count: usize,
    width: usize,
) -> Result<Wire, AllocError>
    requires blocks { IsMade (W.shape wires.old) blocks }
    requires some { 0 < count }
    requires lanes { lanes_of (W.shape wires.old) blocks ≡ count * width }
    ensures grows { Grows W.grown W.possible W.shape wires.old wires.new }
    ensures ok { IfOk result (λ new. Carries (W.possible wires.new) (W.shape wires.new) new width
        (λ v. blocks_folded sum_word count width (words v blocks))) }
    ensures cost { W.ands wires.new ≤ W.ands wires.old + sum_cost width count }
    ensures calls { (levels : ℕ) → count ≤ 2 ^ levels → W.and_calls wires.new ≤ W.and_calls wires.old + (2 * levels + 7) }
    ensures wires { (levels : ℕ) → count ≤ 2 ^ levels → length (W.shape wires.new) ≤ length (W.shape wires.old) + (24 * levels + 120) }
{
    word_laws();
    let mut folded = blocks;
    let mut left = count;
    while left > 2 {
        let third = left / 3;
        folded = save_thirds(wires, alloc, folded, third, width)?;
        left -= third;
    }
    let new = fold_in_halves(wires, alloc, Fold::Sum, folded, left, width)?;
    Ok(new)
}

// The first three thirds of the blocks as two thirds with the same sums, and behind them the blocks that are left.
#[tactic(auto, unfolding(crate::specs::Blocks::thirds_saved))]
fn save_thirds<W: Wires>(
    wires: &mut W,
    alloc: Global,
    blocks: Wire,
    third: usize,
    width: usize,
) -> Result<Wire, AllocError>
    requires blocks { IsMade (W.shape wires.old) blocks }
    requires lanes { 3 * (third * width) ≤ lanes_of (W.shape wires.old) blocks }
    ensures grows { Grows W.grown W.possible W.shape wires.old wires.new }
    ensures ok { IfOk result (λ new. Carries (W.possible wires.new) (W.shape wires.new) new (lanes_of (W.shape wires.old) blocks - third * width)
        (λ v. thirds_saved (third * width) (words v blocks))) }
    ensures cost { W.ands wires.new ≤ W.ands wires.old + third * width }
    ensures calls { W.and_calls wires.new ≤ W.and_calls wires.old + 1 }
    ensures wires { length (W.shape wires.new) ≤ length (W.shape wires.old) + 12 }
{
    let lanes = wires.lanes(blocks);
    let places = third * width;
    let saved = three_saved(wires, alloc, blocks, places)?;
    let both = one_after_other(wires, alloc, saved.sum, saved.carry)?;
    let new = followed_by(wires, alloc, both, blocks, 3 * places, lanes)?;
    Ok(new)
}

// Three lots of so many lanes, which lie one after the other, as two with the same sums.
fn three_saved<W: Wires>(
    wires: &mut W,
    alloc: Global,
    blocks: Wire,
    places: usize,
) -> Result<Saved, AllocError>
    requires blocks { IsMade (W.shape wires.old) blocks }
    requires lanes { 3 * places ≤ lanes_of (W.shape wires.old) blocks }
    requires few { 3 * places < 2 ^ 32 }
    ensures grows { Grows W.grown W.possible W.shape wires.old wires.new }
    ensures sum { IfOk result (λ new. Carries (W.possible wires.new) (W.shape wires.new) new.sum places
        (λ v. saved_sums (slice_range (words v blocks) 0 places) (slice_range (words v blocks) places (2 * places)) (slice_range (words v blocks) (2 * places) (3 * places)))) }
    ensures carry { IfOk result (λ new. Carries (W.possible wires.new) (W.shape wires.new) new.carry places
        (λ v. saved_carries (slice_range (words v blocks) 0 places) (slice_range (words v blocks) places (2 * places)) (slice_range (words v blocks) (2 * places) (3 * places)))) }
    ensures cost { W.ands wires.new ≤ W.ands wires.old + places }
    ensures calls { W.and_calls wires.new ≤ W.and_calls wires.old + 1 }
    ensures wires { length (W.shape wires.new) ≤ length (W.shape wires.old) + 9 }
{
    let first = lanes_between(wires, alloc, blocks, 0, places)?;
    let second = lanes_between(wires, alloc, blocks, places, 2 * places)?;
    let third = lanes_between(wires, alloc, blocks, 2 * places, 3 * places)?;
    let new = save(wires, first, second, third)?;
    Ok(new)
}

// The fold of each lane over all blocks: halves folded with each other until one block is left.
fn fold_in_halves<W: Wires>(
    wires: &mut W,
    alloc: Global,
    fold: Fold,
    blocks: Wire,
    count: usize,
    width: usize,
) -> Result<Wire, AllocError>
    requires blocks { IsMade (W.shape wires.old) blocks }
    requires some { 0 < count }
    requires lanes { lanes_of (W.shape wires.old) blocks ≡ count * width }
    ensures grows { Grows W.grown W.possible W.shape wires.old wires.new }
    ensures ok { IfOk result (λ new. Carries (W.possible wires.new) (W.shape wires.new) new width
        (λ v. blocks_folded (combined_word fold) count width (words v blocks))) }
    ensures cost { W.ands wires.new ≤ W.ands wires.old + combine_cost fold * width * (count - 1) }
    ensures calls { (levels : ℕ) → count ≤ 2 ^ levels → W.and_calls wires.new ≤ W.and_calls wires.old + combine_calls fold * levels }
    ensures wires { (levels : ℕ) → count ≤ 2 ^ levels → length (W.shape wires.new) ≤ length (W.shape wires.old) + (combine_wires fold + 4) * levels }
{
    let mut folded = blocks;
    let mut left = count;
    while left > 1 {
        let half = left / 2;
        folded = fold_halves(wires, alloc, fold, folded, half, width)?;
        left -= half;
    }
    Ok(folded)
}

// The first `half` blocks folded with as many behind them; a block that is left stays as it is.
#[tactic(auto, unfolding(crate::specs::Blocks::halves_folded))]
fn fold_halves<W: Wires>(
    wires: &mut W,
    alloc: Global,
    fold: Fold,
    blocks: Wire,
    half: usize,
    width: usize,
) -> Result<Wire, AllocError>
    requires blocks { IsMade (W.shape wires.old) blocks }
    requires lanes { half * width + half * width ≤ lanes_of (W.shape wires.old) blocks }
    ensures grows { Grows W.grown W.possible W.shape wires.old wires.new }
    ensures ok { IfOk result (λ new. Carries (W.possible wires.new) (W.shape wires.new) new (lanes_of (W.shape wires.old) blocks - half * width)
        (λ v. halves_folded (combined_word fold) (half * width) (words v blocks))) }
    ensures cost { W.ands wires.new ≤ W.ands wires.old + combine_cost fold * (half * width) }
    ensures calls { W.and_calls wires.new ≤ W.and_calls wires.old + combine_calls fold }
    ensures wires { length (W.shape wires.new) ≤ length (W.shape wires.old) + (combine_wires fold + 4) }
{
    let lanes = wires.lanes(blocks);
    let middle = half * width;
    let first = lanes_between(wires, alloc, blocks, 0, middle)?;
    let second = lanes_between(wires, alloc, blocks, middle, middle + middle)?;
    let folded = combine(wires, fold, first, second)?;
    let new = followed_by(wires, alloc, folded, blocks, middle + middle, lanes)?;
    Ok(new)
}
