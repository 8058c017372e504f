ghost use Rattle.std.specs.Prelude.{◌≡◌, ◌<◌, ◌^◌, length};

use crate::each_circuit::folded;
use circuits::{Fold, run_copies, run_folds, run_sums};
use rand::rngs::StdRng;
use rand::{RngExt, SeedableRng};
use std::alloc::{AllocError, Global};
use std::test::Fail;
use wires::{Clear, Tally, Wires};

// The words of the folds of runs; a fold of none is the sums.
fn folds_of(
    alloc: Global,
    fold: Option<Fold>,
    joined: &[u64],
    column: &[u64],
) -> Result<Vec<u64>, AllocError>
    requires few { length joined.now < 2 ^ 32 }
    requires lanes { length joined.now ≡ length column.now }
{
    let mut wires = Clear::new(alloc);
    let flags = wires.constant(joined)?;
    let words = wires.constant(column)?;
    let new = match fold {
        Some(fold) => run_folds(&mut wires, alloc, fold, flags, words)?,
        None => run_sums(&mut wires, alloc, flags, words)?,
    };
    wires.value(new).clone()
}

// Whether the folds of these runs are these words.
fn folds(
    alloc: Global,
    fold: Option<Fold>,
    joined: &[u64],
    column: &[u64],
    want: &[u64],
) -> Result<bool, AllocError> {
    if joined.len() != column.len() || joined.len() > 64 {
        return Ok(false);
    }
    Ok(folds_of(alloc, fold, joined, column)?.as_slice() == want)
}

const JOINED: &[u64] = &[0, 1, 1, 0, 1];

const COLUMN: &[u64] = &[3, 1, 4, 5, 9];

// Folds, which lanes are joined, a column, and its folds.
const RUNS: &[(Option<Fold>, &[u64], &[u64], &[u64])] = &[
    (None, JOINED, COLUMN, &[3, 4, 8, 5, 14]),
    (Some(Fold::Sum), JOINED, COLUMN, &[3, 4, 8, 5, 14]),
    (Some(Fold::Least), JOINED, COLUMN, &[3, 1, 1, 5, 5]),
    (Some(Fold::Greatest), JOINED, COLUMN, &[3, 3, 4, 5, 9]),
    (None, JOINED, &[1, 2, 3, 4, 5], &[1, 3, 6, 4, 9]),
    (None, &[1, 7, 2], &[1, 2, 3], &[1, 3, 3]),
    (None, &[], &[], &[]),
];

// The first of the cases whose folds are other words.
fn first_other_run(
    alloc: Global,
    cases: &[(Option<Fold>, &[u64], &[u64], &[u64])],
) -> Result<Option<usize>, AllocError> {
    for (index, (fold, joined, column, want)) in cases.iter().enumerate() {
        if !folds(alloc, *fold, joined, column, want)? {
            return Ok(Some(index));
        }
    }
    Ok(None)
}

#[test]
fn runs_are_folded_lane_by_lane(rt: HostRuntime) -> Result<(), Fail> {
    assert_eq!(rt; first_other_run(rt.alloc(), RUNS)?, None);
    Ok(())
}

// Which of a thousand lanes are joined to the one before, and random words.
fn random_lanes(alloc: Global) -> Result<(Vec<u64>, Vec<u64>), AllocError> {
    let mut random = StdRng::seed_from_u64(11);
    let mut joined = Vec::new(alloc);
    let mut column = Vec::new(alloc);
    for _ in 0..1000 {
        joined.push(random.random_range(0..40u64).min(1))?;
        column.push(random.random())?;
    }
    Ok((joined, column))
}

// The first lane whose word isn't the fold of its run so far; without a fold, the first of its run.
fn first_other(fold: Option<Fold>, joined: &[u64], column: &[u64], found: &[u64]) -> Option<usize> {
    let mut so_far = None;
    for (lane, (flag, word)) in joined.iter().zip(column).enumerate() {
        let new = match so_far {
            Some(before) if *flag == 1 => fold.map_or(before, |fold| folded(fold, before, *word)),
            _ => *word,
        };
        if found.get(lane) != Some(&new) {
            return Some(lane);
        }
        so_far = Some(new);
    }
    None
}

// The first lane whose word isn't the fold of its run so far, where the folds are worked out.
fn first_other_fold(
    alloc: Global,
    fold: Option<Fold>,
    joined: &[u64],
    column: &[u64],
) -> Result<Option<usize>, AllocError>
    requires few { length joined.now < 2 ^ 32 }
    requires lanes { length joined.now ≡ length column.now }
{
    let found = folds_of(alloc, fold, joined, column)?;
    let fold = Some(fold.unwrap_or(Fold::Sum));
    Ok(first_other(fold, joined, column, found.as_slice()))
}

const FOLDS: &[Option<Fold>] = &[
    None,
    Some(Fold::Sum),
    Some(Fold::Least),
    Some(Fold::Greatest),
];

// The first of the folds that has another word in some lane, and the lane.
fn first_wrong_fold(
    alloc: Global,
    folds: &[Option<Fold>],
    joined: &[u64],
    column: &[u64],
) -> Result<Option<(Option<Fold>, usize)>, AllocError>
    requires few { length joined.now < 2 ^ 32 }
    requires lanes { length joined.now ≡ length column.now }
{
    for fold in folds {
        if let Some(lane) = first_other_fold(alloc, *fold, joined, column)? {
            return Ok(Some((*fold, lane)));
        }
    }
    Ok(None)
}

// Whether the copies of runs are the first words of each.
fn are_copied(alloc: Global, joined: &[u64], column: &[u64]) -> Result<bool, AllocError>
    requires few { length joined.now < 2 ^ 32 }
    requires lanes { length joined.now ≡ length column.now }
{
    let copies = copies_of(alloc, joined, column)?;
    Ok(first_other(None, joined, column, &copies).is_none())
}

// Whether random lanes are folded and copied.
fn are_folded_and_copied(alloc: Global) -> Result<bool, AllocError> {
    let (joined, column) = random_lanes(alloc)?;
    if joined.len() != 1000 || column.len() != 1000 {
        return Ok(false);
    }
    let wrong = first_wrong_fold(alloc, FOLDS, &joined, &column)?;
    Ok(wrong.is_none() && are_copied(alloc, &joined, &column)?)
}

#[test]
fn a_thousand_random_lanes_are_folded_and_copied(rt: HostRuntime) -> Result<(), Fail> {
    assert!(rt; are_folded_and_copied(rt.alloc())?);
    Ok(())
}

// The AND words of the folds of runs over lanes of zeros.
fn cost_of(alloc: Global, fold: Option<Fold>, zeros: &[u64]) -> Result<u64, AllocError>
    requires { length zeros.now < 2 ^ 32 }
{
    let mut wires = Tally::new(alloc);
    let x = wires.constant(zeros)?;
    let _new = match fold {
        Some(fold) => run_folds(&mut wires, alloc, fold, x, x)?,
        None => run_sums(&mut wires, alloc, x, x)?,
    };
    Ok(wires.and_words())
}

// Whether the folds of one, two and five lanes take so many AND words a lane and level.
fn costs(alloc: Global, fold: Option<Fold>, words: u64) -> Result<bool, AllocError> {
    Ok(
        cost_of(alloc, fold, &[0])? == 0
            && cost_of(alloc, fold, &[0, 0])? == words.wrapping_mul(2)
            && cost_of(alloc, fold, &[0, 0, 0, 0, 0])? == words.wrapping_mul(15),
    )
}

#[test]
fn runs_cost_what_is_promised(rt: HostRuntime) -> Result<(), Fail> {
    for (fold, words) in [
        (None, 9),
        (Some(Fold::Sum), 9),
        (Some(Fold::Least), 10),
        (Some(Fold::Greatest), 10),
    ] {
        assert!(rt; costs(rt.alloc(), fold, words)?, "{fold:?}");
    }
    Ok(())
}

// The words of the copies of one column.
fn copies_of(alloc: Global, joined: &[u64], column: &[u64]) -> Result<Vec<u64>, AllocError>
    requires few { length joined.now < 2 ^ 32 }
    requires lanes { length joined.now ≡ length column.now }
{
    let mut wires = Clear::new(alloc);
    let flags = wires.constant(joined)?;
    let words = wires.constant(column)?;
    let copies = run_copies(&mut wires, alloc, flags, &[words])?;
    wires.value(copies[0]).clone()
}

// Whether the copies of two columns of five lanes are these words.
fn copies_two(
    alloc: Global,
    joined: &[u64; 5],
    columns: &[[u64; 5]; 2],
    want: &[[u64; 5]; 2],
) -> Result<bool, AllocError> {
    let mut wires = Clear::new(alloc);
    let flags = wires.constant(joined)?;
    let one = wires.constant(&columns[0])?;
    let other = wires.constant(&columns[1])?;
    let copies = run_copies(&mut wires, alloc, flags, &[one, other])?;
    Ok(
        wires.value(copies[0]).as_slice() == want[0].as_slice()
            && wires.value(copies[1]).as_slice() == want[1].as_slice(),
    )
}

#[test]
fn runs_are_copied_lane_by_lane(rt: HostRuntime) -> Result<(), Fail> {
    let columns = [[1, 2, 3, 4, 5], [9, 8, 7, 6, 0]];
    let copies = [[1, 1, 1, 4, 4], [9, 9, 9, 6, 6]];
    assert!(rt; copies_two(rt.alloc(), &[0, 1, 1, 0, 1], &columns, &copies)?);
    Ok(())
}

// The AND words of copying no column.
fn cost_of_no_copy(alloc: Global, zeros: &[u64]) -> Result<u64, AllocError>
    requires { length zeros.now < 2 ^ 32 }
{
    let mut wires = Tally::new(alloc);
    let joined = wires.constant(zeros)?;
    let _none = run_copies(&mut wires, alloc, joined, &[])?;
    Ok(wires.and_words())
}

// The AND words of copying two columns.
fn cost_of_two_copies(alloc: Global, zeros: &[u64]) -> Result<u64, AllocError>
    requires { length zeros.now < 2 ^ 32 }
{
    let mut wires = Tally::new(alloc);
    let x = wires.constant(zeros)?;
    let _two = run_copies(&mut wires, alloc, x, &[x, x])?;
    Ok(wires.and_words())
}

// Whether copying no column, and two columns, takes so many AND words.
fn copies_cost(alloc: Global, zeros: &[u64], none: u64, two: u64) -> Result<bool, AllocError>
    requires { length zeros.now < 2 ^ 32 }
{
    Ok(cost_of_no_copy(alloc, zeros)? == none && cost_of_two_copies(alloc, zeros)? == two)
}

#[test]
fn copies_cost_what_is_promised(rt: HostRuntime) -> Result<(), Fail> {
    assert!(rt; copies_cost(rt.alloc(), &[0], 0, 0)?);
    assert!(rt; copies_cost(rt.alloc(), &[0, 0], 2, 6)?);
    assert!(rt; copies_cost(rt.alloc(), &[0, 0, 0, 0, 0], 15, 45)?);
    Ok(())
}
