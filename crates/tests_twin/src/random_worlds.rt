//! Random first slots of two worlds that a viewer can't tell apart.

use rand::rngs::StdRng;
use rand::seq::SliceRandom;
use rand::{Rng, RngExt};
use std::alloc::{AllocError, Global};
use step_lists::Slots;

/// A number below a count, 0 where there is none.
pub(crate) fn below(random: &mut StdRng, count: u32) -> u32 {
    random.random_range(0..count.max(1))
}

/// So many random words.
pub(crate) fn random_words(
    alloc: Global,
    random: &mut StdRng,
    count: u32,
) -> Result<Vec<u64>, AllocError> {
    let mut words = Vec::new(alloc);
    for _word in 0..count {
        words.push(random.random())?;
    }
    Ok(words)
}

// Few different words, so that some are equal.
fn small_words(alloc: Global, random: &mut StdRng, count: u32) -> Result<Vec<u64>, AllocError> {
    let mut words = Vec::new(alloc);
    for _word in 0..count {
        words.push(random.random_range(0u64..3))?;
    }
    Ok(words)
}

/// The numbers below a count in a random order.
pub(crate) fn shuffled(
    alloc: Global,
    random: &mut StdRng,
    count: u32,
) -> Result<Vec<u32>, AllocError> {
    let mut numbers = Vec::new(alloc);
    for number in 0..count {
        numbers.push(number)?;
    }
    numbers.as_mut_slice().shuffle(random);
    Ok(numbers)
}

/// The lengths of a party's first slots: words that no world changes, a flag, words that differ, and columns.
pub(crate) fn first_lengths(
    alloc: Global,
    rows: u32,
    columns: u32,
) -> Result<Vec<u32>, AllocError> {
    let mut lengths = Vec::from_slice(alloc, &[rows, 1, rows])?;
    for _column in 0..columns {
        lengths.push(rows)?;
    }
    Ok(lengths)
}

// First slots of a party; one flag of four stops a run.
fn first_slots(
    alloc: Global,
    random: &mut StdRng,
    rows: u32,
    columns: u32,
) -> Result<Vec<Vec<u64>>, AllocError> {
    let flag = below(random, 4).saturating_sub(2);
    let mut slots = Vec::new(alloc);
    slots.push(random_words(alloc, random, rows)?)?;
    slots.push(Vec::from_slice(alloc, &[flag as u64])?)?;
    slots.push(random_words(alloc, random, rows)?)?;
    for _column in 0..columns {
        slots.push(small_words(alloc, random, rows)?)?;
    }
    Ok(slots)
}

// Words in another order.
fn reordered(alloc: Global, words: &[u64], order: &[u32]) -> Result<Vec<u64>, AllocError> {
    let mut made = Vec::new(alloc);
    for place in order {
        made.push(words.get(*place as usize).copied().unwrap_or(0))?;
    }
    Ok(made)
}

fn copied(alloc: Global, slots: &Vec<Vec<u64>>) -> Result<Vec<Vec<u64>>, AllocError> {
    let mut made = Vec::new(alloc);
    for words in slots {
        made.push(Vec::from_slice(alloc, words)?)?;
    }
    Ok(made)
}

// The same slots in the second world: the third one has other words, and the columns behind it another order of rows.
fn other_slots(
    alloc: Global,
    random: &mut StdRng,
    slots: &Vec<Vec<u64>>,
    order: &[u32],
    rows: u32,
) -> Result<Vec<Vec<u64>>, AllocError> {
    let mut made = Vec::new(alloc);
    for number in 0..slots.len() {
        let words = match number {
            0 | 1 => Vec::from_slice(alloc, &slots[number])?,
            2 => random_words(alloc, random, rows)?,
            _ => reordered(alloc, &slots[number], order)?,
        };
        made.push(words)?;
    }
    Ok(made)
}

// Those of the viewer are the same.
fn second_slots(
    alloc: Global,
    random: &mut StdRng,
    slots: &Vec<Vec<u64>>,
    order: &[u32],
    rows: u32,
    seen: bool,
) -> Result<Vec<Vec<u64>>, AllocError> {
    if seen {
        copied(alloc, slots)
    } else {
        other_slots(alloc, random, slots, order, rows)
    }
}

/// First slots in two worlds, of these rows and columns. The rows over columns of others than the viewer have one
/// order in the first world and another one in the second.
pub(crate) fn random_worlds(
    alloc: Global,
    random: &mut StdRng,
    viewer: u8,
    rows: u32,
    columns: u32,
) -> Result<(Slots, Slots), AllocError> {
    let first = first_slots(alloc, random, rows, columns)?;
    let second = first_slots(alloc, random, rows, columns)?;
    let third = first_slots(alloc, random, rows, columns)?;
    let order = shuffled(alloc, random, rows)?;
    let other = Slots::new(
        second_slots(alloc, random, &first, &order, rows, viewer == 1)?,
        second_slots(alloc, random, &second, &order, rows, viewer == 2)?,
        second_slots(alloc, random, &third, &order, rows, viewer == 3)?,
    );
    Ok((Slots::new(first, second, third), other))
}
