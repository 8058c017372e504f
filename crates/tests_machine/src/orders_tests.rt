ghost use Rattle.std.specs.Prelude.{◌≡◌, ◌<◌, length};

use rand::rngs::StdRng;
use rand::seq::SliceRandom;
use rand::{RngExt, SeedableRng};
use std::alloc::{AllocError, Global};
use std::test::Fail;
use tapes::{AlignFault, Order, align};

fn shuffled(rt: &HostRuntime, random: &mut StdRng, count: u32) -> Result<Order, Fail> {
    let mut numbers = Vec::new(rt.alloc());
    for i in 0..count {
        numbers.push(i)?;
    }
    numbers.as_mut_slice().shuffle(random);
    match Order::new(numbers) {
        Ok(order) => Ok(order),
        Err(_) => Err("no order")?,
    }
}

fn is_identity(order: &Order) -> bool {
    order
        .places()
        .iter()
        .enumerate()
        .all(|(index, place)| *place as usize == index)
}

// Whether an order and its inverse undo each other.
fn is_undone(alloc: Global, order: &Order) -> Result<bool, AllocError> {
    let back = order.inverse(alloc)?;
    if back.len() != order.len() {
        return Ok(false);
    }
    Ok(is_identity(&order.then(alloc, &back)?) && is_identity(&back.then(alloc, order)?))
}

// The words that two orders give one after the other.
fn applied_in_turn(
    alloc: Global,
    first: &Order,
    second: &Order,
    words: &[u64],
) -> Result<Vec<u64>, AllocError>
    requires of_first { length words.now ≡ length first.now }
    requires of_second { length words.now ≡ length second.now }
{
    let mut once = vec![in alloc; 0u64; words.len()]?;
    first.apply(words, &mut once);
    let mut twice = vec![in alloc; 0u64; words.len()]?;
    second.apply(&once, &mut twice);
    Ok(twice)
}

// The words that both give as one order.
fn applied_as_one(
    alloc: Global,
    first: &Order,
    second: &Order,
    words: &[u64],
) -> Result<Vec<u64>, AllocError>
    requires of_first { length words.now ≡ length first.now }
    requires of_second { length words.now ≡ length second.now }
{
    let both = first.then(alloc, second)?;
    let mut once = vec![in alloc; 0u64; words.len()]?;
    both.apply(words, &mut once);
    Ok(once)
}

fn random_words(
    alloc: Global,
    random: &mut StdRng,
    count: u32,
    below: u64,
) -> Result<Vec<u64>, AllocError>
    requires { 0 < below }
{
    let mut words = Vec::new(alloc);
    for _ in 0..count {
        words.push(random.random_range(0..below))?;
    }
    Ok(words)
}

// Whether the identity of so many items moves none, and whether an order is undone and copied.
fn is_in_group(alloc: Global, order: &Order, count: u32) -> Result<bool, AllocError> {
    Ok(
        is_identity(&Order::identity(alloc, count)?)
            && is_undone(alloc, order)?
            && order.copy(alloc)?.places() == order.places(),
    )
}

// Whether two orders in turn give what both give as one.
fn are_composed(
    alloc: Global,
    first: &Order,
    second: &Order,
    words: &[u64],
) -> Result<bool, AllocError> {
    if words.len() != first.len() || words.len() != second.len() {
        return Ok(false);
    }
    let twice = applied_in_turn(alloc, first, second, words)?;
    let once = applied_as_one(alloc, first, second, words)?;
    Ok(twice.as_slice() == once.as_slice())
}

#[test]
fn random_orders_are_a_group(rt: HostRuntime) -> Result<(), Fail> {
    let mut random = StdRng::seed_from_u64(8);
    for count in [0, 1, 2, 7, 64, 200] {
        let first = shuffled(&rt, &mut random, count)?;
        let second = shuffled(&rt, &mut random, count)?;
        assert!(rt; is_in_group(rt.alloc(), &first, count)?, "{count} items");
        let words = random_words(rt.alloc(), &mut random, count, 1000)?;
        assert!(rt;
            are_composed(rt.alloc(), &first, &second, &words)?,
            "{count} items"
        );
    }
    Ok(())
}

// Rows of one word each.
fn rows_of(alloc: Global, words: &[u64]) -> Result<Vec<Vec<u64>>, AllocError> {
    let mut rows = Vec::new(alloc);
    for word in words {
        rows.push(vec![in alloc; *word]?)?;
    }
    Ok(rows)
}

// Whether the order leads from each row to an equal one, and keeps equal rows in their order.
fn keeps_occurrences(
    alloc: Global,
    order: &Order,
    source: &Vec<Vec<u64>>,
    target: &Vec<Vec<u64>>,
) -> Result<bool, AllocError> {
    let mut seen: Vec<(u64, u32)> = Vec::new(alloc);
    for (place, row) in order.places().iter().zip(target) {
        let word = row.first().copied().unwrap_or(0);
        let is_equal = source
            .get(*place as usize)
            .map_or(false, |from| from.as_slice() == row.as_slice());
        if !is_equal
            || seen
                .iter()
                .any(|(other, earlier)| *other == word && earlier >= place)
        {
            return Ok(false);
        }
        seen.push((word, *place))?;
    }
    Ok(true)
}

// The fault of aligning two lists of rows, if there is one.
fn fault_of_alignment(
    alloc: Global,
    source: &Vec<Vec<u64>>,
    target: &Vec<Vec<u64>>,
) -> Option<AlignFault> {
    if source.len() >= 1000 || target.len() >= 1000 {
        return None;
    }
    align(alloc, source, target).err()
}

// Whether the order that aligns rows keeps occurrences, and is undone by the one that aligns them back.
fn are_aligned(
    alloc: Global,
    source: &Vec<Vec<u64>>,
    target: &Vec<Vec<u64>>,
) -> Result<bool, Fail> {
    if source.len() >= 1000 || target.len() >= 1000 {
        return Ok(false);
    }
    let order = align(alloc, source, target)?;
    let back = align(alloc, target, source)?;
    Ok(
        back.places() == order.inverse(alloc)?.places()
            && keeps_occurrences(alloc, &order, source, target)?,
    )
}

// Whether rows are aligned with the same ones in another order.
fn shuffled_rows_are_aligned(
    alloc: Global,
    random: &mut StdRng,
    source: &Vec<Vec<u64>>,
    words: &mut Vec<u64>,
) -> Result<bool, Fail> {
    words.as_mut_slice().shuffle(random);
    let target = rows_of(alloc, words)?;
    are_aligned(alloc, source, &target)
}

// Whether rows with one more aren't the same bag.
fn one_more_is_refused(
    alloc: Global,
    source: &Vec<Vec<u64>>,
    words: &mut Vec<u64>,
) -> Result<bool, AllocError> {
    words.push(5)?;
    let more = rows_of(alloc, words)?;
    Ok(fault_of_alignment(alloc, source, &more) == Some(AlignFault::NotSameBag))
}

// Rows of one word below 5, so that many are equal.
fn align_as_they_should(alloc: Global, random: &mut StdRng, count: u32) -> Result<bool, Fail> {
    let mut words = random_words(alloc, random, count, 5)?;
    let source = rows_of(alloc, &words)?;
    Ok(
        shuffled_rows_are_aligned(alloc, random, &source, &mut words)?
            && one_more_is_refused(alloc, &source, &mut words)?,
    )
}

#[test]
fn rows_with_repeats_are_aligned(rt: HostRuntime) -> Result<(), Fail> {
    let mut random = StdRng::seed_from_u64(9);
    for count in [0, 1, 3, 50, 200] {
        let is_right = align_as_they_should(rt.alloc(), &mut random, count)?;
        assert!(rt; is_right, "{count} rows");
    }
    Ok(())
}
