ghost use Rattle.std.specs.Prelude.{◌≡◌, ◌*◌, ◌<◌, ◌^◌, length};

use crate::each_circuit::{ALL, Circuit, counts_of, first_wrong, first_wrong_of_random};
use circuits::{Fold, fold_blocks, run_folds};
use std::alloc::{AllocError, Global};
use std::test::Fail;
use wires::{Clear, Tally, Wires};

// Each circuit, its AND words a lane, its AND calls, and its wires.
const CIRCUITS: [(Circuit, u64, u64, u32); 8] = [
    (Circuit::Eq, 6, 6, 15),
    (Circuit::Lt, 7, 7, 115),
    (Circuit::Add, 7, 7, 116),
    (Circuit::Sub, 7, 7, 118),
    (Circuit::Mul, 133, 133, 744),
    (Circuit::Or, 1, 1, 3),
    (Circuit::Least, 8, 8, 119),
    (Circuit::Greatest, 8, 8, 119),
];

// The words at the edges, and their neighbours.
const EDGES: [u64; 11] = [
    0,
    1,
    2,
    0xffff_fffe,
    0xffff_ffff,
    0x1_0000_0000,
    0x7fff_ffff_ffff_ffff,
    0x8000_0000_0000_0000,
    0x8000_0000_0000_0001,
    0xffff_ffff_ffff_fffe,
    0xffff_ffff_ffff_ffff,
];

// All pairs of words, as two lists.
fn pairs_of(alloc: Global, words: &[u64]) -> Result<(Vec<u64>, Vec<u64>), AllocError> {
    let mut left = Vec::new(alloc);
    let mut right = Vec::new(alloc);
    for one in words {
        for other in words {
            left.push(*one)?;
            right.push(*other)?;
        }
    }
    Ok((left, right))
}

#[test]
fn all_pairs_at_the_edges(rt: HostRuntime) -> Result<(), Fail> {
    let (left, right) = pairs_of(rt.alloc(), &EDGES)?;
    assert!(rt; left.len() == 121 && right.len() == 121);
    let wrong = first_wrong(rt.alloc(), &ALL, &left, &right)?;
    assert!(rt; wrong.is_none(), "{wrong:?}");
    Ok(())
}

#[test]
fn a_thousand_random_lanes(rt: HostRuntime) -> Result<(), Fail> {
    let wrong = first_wrong_of_random(rt.alloc(), 17, 18)?;
    assert!(rt; wrong.is_none(), "{wrong:?}");
    Ok(())
}

// The first of the circuits that takes other AND words, AND calls or wires than it has, over zeros.
fn first_other_counts(
    alloc: Global,
    circuits: &[(Circuit, u64, u64, u32)],
    zeros: &[u64],
) -> Result<Option<Circuit>, AllocError>
    requires { length zeros.now < 2 ^ 32 }
{
    for (circuit, words, calls, made) in circuits {
        let want = (words.wrapping_mul(zeros.len() as u64), *calls, *made);
        if counts_of(alloc, *circuit, zeros)? != want {
            return Ok(Some(*circuit));
        }
    }
    Ok(None)
}

#[test]
fn circuits_take_what_is_promised(rt: HostRuntime) -> Result<(), Fail> {
    for lanes in [1usize, 2, 5, 64] {
        let zeros = vec![in rt.alloc(); 0; lanes]?;
        assert!(rt; zeros.len() == lanes && lanes <= 64);
        let other = first_other_counts(rt.alloc(), &CIRCUITS, zeros.as_slice())?;
        assert!(rt; other.is_none(), "{other:?} on {lanes} lanes");
    }
    Ok(())
}

// The AND words and AND calls of a fold of blocks of zeros.
fn block_counts(
    alloc: Global,
    fold: Fold,
    zeros: &[u64],
    count: usize,
    width: usize,
) -> Result<(u64, u64), AllocError>
    requires few { length zeros.now < 2 ^ 32 }
    requires some { 0 < count }
    requires lanes { length zeros.now ≡ count * width }
{
    let mut wires = Tally::new(alloc);
    let blocks = wires.constant(zeros)?;
    let _new = fold_blocks(&mut wires, alloc, fold, blocks, count, width)?;
    Ok((wires.and_words(), wires.and_calls()))
}

// The same of so many blocks of three lanes; none where there are none or more than 16.
fn counts_of_three(
    alloc: Global,
    fold: Fold,
    count: usize,
) -> Result<Option<(u64, u64)>, AllocError> {
    if count == 0 || count > 16 {
        return Ok(None);
    }
    let zeros = vec![in alloc; 0; 3 * count]?;
    Ok(Some(block_counts(alloc, fold, zeros.as_slice(), count, 3)?))
}

// The first of the folds of so many blocks that takes other AND words or AND calls.
fn first_other_fold(
    alloc: Global,
    folds: &[(Fold, usize, u64, u64)],
) -> Result<Option<(Fold, usize)>, AllocError> {
    for (fold, count, words, calls) in folds {
        if counts_of_three(alloc, *fold, *count)? != Some((*words, *calls)) {
            return Ok(Some((*fold, *count)));
        }
    }
    Ok(None)
}

#[test]
fn folds_of_blocks_take_what_is_promised(rt: HostRuntime) -> Result<(), Fail> {
    let folds: [(Fold, usize, u64, u64); 12] = [
        (Fold::Sum, 1, 0, 0),
        (Fold::Sum, 2, 21, 7),
        (Fold::Sum, 3, 24, 8),
        (Fold::Sum, 4, 27, 9),
        (Fold::Sum, 5, 30, 10),
        (Fold::Sum, 16, 63, 13),
        (Fold::Least, 5, 96, 24),
        (Fold::Greatest, 4, 72, 16),
        (Fold::Any, 1, 0, 0),
        (Fold::Any, 2, 3, 1),
        (Fold::Any, 5, 12, 3),
        (Fold::Any, 16, 45, 4),
    ];
    let other = first_other_fold(rt.alloc(), &folds)?;
    assert!(rt; other.is_none(), "{other:?}");
    Ok(())
}

// Whether a flag was seen in a lane of two runs up to each lane.
fn is_seen_in_runs(alloc: Global, want: &[u64]) -> Result<bool, AllocError> {
    let mut wires = Clear::new(alloc);
    let joined = wires.constant(&[0, 1, 1, 0, 1, 1])?;
    let flags = wires.constant(&[0, 1, 0, 0, 0, 1])?;
    let seen = run_folds(&mut wires, alloc, Fold::Any, joined, flags)?;
    Ok(wires.value(seen).as_slice() == want)
}

// Whether one was seen in each lane of three blocks of two.
fn is_seen_in_blocks(alloc: Global, want: &[u64]) -> Result<bool, AllocError> {
    let mut wires = Clear::new(alloc);
    let flags = wires.constant(&[0, 1, 0, 0, 0, 1])?;
    let seen = fold_blocks(&mut wires, alloc, Fold::Any, flags, 3, 2)?;
    Ok(wires.value(seen).as_slice() == want)
}

#[test]
fn any_tells_whether_a_flag_was_seen(rt: HostRuntime) -> Result<(), Fail> {
    assert!(rt; is_seen_in_runs(rt.alloc(), &[0, 1, 1, 0, 0, 1])?);
    assert!(rt; is_seen_in_blocks(rt.alloc(), &[0, 1])?);
    Ok(())
}

// The AND words and AND calls of the folds of runs over lanes of zeros.
fn run_counts(alloc: Global, fold: Fold, zeros: &[u64]) -> Result<(u64, u64), AllocError>
    requires { length zeros.now < 2 ^ 32 }
{
    let mut wires = Tally::new(alloc);
    let x = wires.constant(zeros)?;
    let _new = run_folds(&mut wires, alloc, fold, x, x)?;
    Ok((wires.and_words(), wires.and_calls()))
}

// Whether the folds of runs take so many AND calls a level, of a word a lane each.
fn takes_calls(
    alloc: Global,
    fold: Fold,
    zeros: &[u64],
    levels: u64,
    calls: u64,
) -> Result<bool, AllocError>
    requires { length zeros.now < 2 ^ 32 }
{
    let all = calls.wrapping_mul(levels);
    let want = (all.wrapping_mul(zeros.len() as u64), all);
    Ok(run_counts(alloc, fold, zeros)? == want)
}

// Whether each fold takes what it should at so many levels.
fn folds_take_calls(alloc: Global, zeros: &[u64], levels: u64) -> Result<bool, AllocError>
    requires { length zeros.now < 2 ^ 32 }
{
    Ok(
        takes_calls(alloc, Fold::Sum, zeros, levels, 9)?
            && takes_calls(alloc, Fold::Least, zeros, levels, 10)?
            && takes_calls(alloc, Fold::Greatest, zeros, levels, 10)?
            && takes_calls(alloc, Fold::Any, zeros, levels, 3)?,
    )
}

#[test]
fn folds_of_runs_take_what_is_promised(rt: HostRuntime) -> Result<(), Fail> {
    for (lanes, levels) in [(1usize, 0), (2, 1), (5, 3), (64, 6)] {
        let zeros = vec![in rt.alloc(); 0; lanes]?;
        assert!(rt; zeros.len() == lanes && lanes <= 64);
        assert!(rt;
            folds_take_calls(rt.alloc(), zeros.as_slice(), levels)?,
            "{lanes} lanes"
        );
    }
    Ok(())
}
