//! One register in a phase: what a party sends of it, and its new pair.
#![tactic(auto)]

ghost use Rattle.std.specs.Prelude.{◌≡◌, IfOk};
ghost use Rattle.lanes.specs.Lanes.{xors};
ghost use Rattle.step_lists.specs.Part.{all_before_j, all_by_j, pairs_before_j, pairs_of_j, pairs_of_masks, sent_before_j, sent_by_j};

use crate::lists::{cut, pick, xored};
use crate::pairs::Pair;
use std::alloc::{AllocError, Global};

// What party j sends of a register.
fn sent_by_j(
    alloc: Global,
    order: &[u64],
    pair: &Pair,
    mask: &[u64],
) -> Result<Vec<u64>, AllocError>
    ensures { IfOk result (λ words. words.items ≡ sent_by_j order.now pair.now mask.now) }
{
    let moved = pick(alloc, order, pair.following())?;
    xored(alloc, &moved, mask)
}

// What party j - 1 sends of a register.
fn sent_before_j(
    alloc: Global,
    order: &[u64],
    pair: &Pair,
    mask: &[u64],
) -> Result<Vec<u64>, AllocError>
    ensures { IfOk result (λ words. words.items ≡ sent_before_j order.now pair.now mask.now) }
{
    let both = xored(alloc, pair.own(), pair.following())?;
    let moved = pick(alloc, order, &both)?;
    xored(alloc, &moved, mask)
}

// Party j's new pair of a register.
fn pair_of_j(
    alloc: Global,
    order: &[u64],
    pair: &Pair,
    mask: &[u64],
    got: &[u64],
) -> Result<Pair, AllocError>
    ensures { IfOk result (λ made. made ≡ record { own = xors got.now (sent_by_j order.now pair.now mask.now); following = mask.now }) }
{
    let sent = sent_by_j(alloc, order, pair, mask)?;
    let own = xored(alloc, got, &sent)?;
    Ok(Pair::new(own, Vec::from_slice(alloc, mask)?))
}

// Party j - 1's new pair of a register.
fn pair_before_j(
    alloc: Global,
    order: &[u64],
    pair: &Pair,
    mask: &[u64],
    got: &[u64],
) -> Result<Pair, AllocError>
    ensures { IfOk result (λ made. made ≡ record { own = mask.now; following = xors (sent_before_j order.now pair.now mask.now) got.now }) }
{
    let sent = sent_before_j(alloc, order, pair, mask)?;
    let following = xored(alloc, &sent, got)?;
    Ok(Pair::new(Vec::from_slice(alloc, mask)?, following))
}

/// What party j sends of some registers.
pub(crate) fn all_by_j(
    alloc: Global,
    order: &[u64],
    rows: usize,
    pairs: &[Pair],
    masks: &[u64],
) -> Result<Vec<u64>, AllocError>
    ensures { IfOk result (λ words. words.items ≡ all_by_j order.now rows pairs.now masks.now) }
{
    let mut words = Vec::with_capacity(alloc, masks.len())?;
    let mut masks = masks;
    for pair in pairs {
        let (mask, masks_left) = cut(masks, rows);
        words.extend_from_slice(&sent_by_j(alloc, order, pair, mask)?)?;
        masks = masks_left;
    }
    Ok(words)
}

/// What party j - 1 sends of some registers.
pub(crate) fn all_before_j(
    alloc: Global,
    order: &[u64],
    rows: usize,
    pairs: &[Pair],
    masks: &[u64],
) -> Result<Vec<u64>, AllocError>
    ensures { IfOk result (λ words. words.items ≡ all_before_j order.now rows pairs.now masks.now) }
{
    let mut words = Vec::with_capacity(alloc, masks.len())?;
    let mut masks = masks;
    for pair in pairs {
        let (mask, masks_left) = cut(masks, rows);
        words.extend_from_slice(&sent_before_j(alloc, order, pair, mask)?)?;
        masks = masks_left;
    }
    Ok(words)
}

/// Party j's new pairs of some registers.
pub(crate) fn pairs_of_j(
    alloc: Global,
    order: &[u64],
    rows: usize,
    pairs: &[Pair],
    masks: &[u64],
    got: &[u64],
) -> Result<Vec<Pair>, AllocError>
    ensures { IfOk result (λ made. made.items ≡ pairs_of_j order.now rows pairs.now masks.now got.now) }
{
    let mut made = Vec::with_capacity(alloc, pairs.len())?;
    let mut masks = masks;
    let mut got = got;
    for pair in pairs {
        let (mask, masks_left) = cut(masks, rows);
        let (words, got_left) = cut(got, rows);
        made.push(pair_of_j(alloc, order, pair, mask, words)?)?;
        masks = masks_left;
        got = got_left;
    }
    Ok(made)
}

/// Party j - 1's new pairs of some registers.
pub(crate) fn pairs_before_j(
    alloc: Global,
    order: &[u64],
    rows: usize,
    pairs: &[Pair],
    masks: &[u64],
    got: &[u64],
) -> Result<Vec<Pair>, AllocError>
    ensures { IfOk result (λ made. made.items ≡ pairs_before_j order.now rows pairs.now masks.now got.now) }
{
    let mut made = Vec::with_capacity(alloc, pairs.len())?;
    let mut masks = masks;
    let mut got = got;
    for pair in pairs {
        let (mask, masks_left) = cut(masks, rows);
        let (words, got_left) = cut(got, rows);
        made.push(pair_before_j(alloc, order, pair, mask, words)?)?;
        masks = masks_left;
        got = got_left;
    }
    Ok(made)
}

/// The third party's new pairs: both masks of each register.
pub(crate) fn pairs_of_masks(
    alloc: Global,
    rows: usize,
    pairs: &[Pair],
    own: &[u64],
    following: &[u64],
) -> Result<Vec<Pair>, AllocError>
    ensures { IfOk result (λ made. made.items ≡ pairs_of_masks rows pairs.now own.now following.now) }
{
    let mut made = Vec::with_capacity(alloc, pairs.len())?;
    let mut own = own;
    let mut following = following;
    for _ in pairs {
        let (mine, own_left) = cut(own, rows);
        let (other, following_left) = cut(following, rows);
        made.push(Pair::new(
            Vec::from_slice(alloc, mine)?,
            Vec::from_slice(alloc, other)?,
        ))?;
        own = own_left;
        following = following_left;
    }
    Ok(made)
}
