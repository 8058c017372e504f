ghost use Rattle.std.specs.Prelude.{◌<◌, ◌^◌, length};

use crate::each_circuit::{Circuit, counts_of, first_wrong_of_random, values_of};
use circuits::Fold;
use std::alloc::{AllocError, Global};
use std::test::Fail;

// Each circuit, and its AND words a lane.
const CIRCUITS: &[(Circuit, u64)] = &[
    (Circuit::Eq, 6),
    (Circuit::Lt, 7),
    (Circuit::Add, 7),
    (Circuit::Sub, 7),
    (Circuit::Mul, 133),
    (Circuit::Mux, 1),
    (Circuit::Least, 8),
    (Circuit::Greatest, 8),
    (Circuit::Combine(Fold::Sum), 7),
    (Circuit::Combine(Fold::Least), 8),
    (Circuit::Combine(Fold::Greatest), 8),
    (Circuit::Masked(Fold::Sum), 1),
    (Circuit::Masked(Fold::Least), 1),
    (Circuit::Masked(Fold::Greatest), 1),
];

// The first of the cases whose circuit gives another word of two words.
fn first_wrong_at(
    alloc: Global,
    cases: &[(Circuit, u64, u64, u64)],
) -> Result<Option<Circuit>, AllocError> {
    for (circuit, left, right, want) in cases {
        let value = values_of(alloc, *circuit, &[*left], &[*right])?;
        if value.as_slice() != [*want].as_slice() {
            return Ok(Some(*circuit));
        }
    }
    Ok(None)
}

const MAX: u64 = u64::MAX;

// Circuits of two words, each with the word that it gives.
const EDGES: &[(Circuit, u64, u64, u64)] = &[
    (Circuit::Eq, MAX, MAX, 1),
    (Circuit::Eq, 0, 1 << 63, 0),
    (Circuit::Lt, MAX, 0, 0),
    (Circuit::Lt, 41, 41, 0),
    (Circuit::Lt, 0, 1, 1),
    (Circuit::Add, MAX, 2, 1),
    (Circuit::Sub, 0, 1, MAX),
    (Circuit::Mul, 4294967296, 4294967297, 4294967296),
    (Circuit::Mul, MAX, MAX, 1),
    (Circuit::Mul, 1, 1 << 63, 1 << 63),
    (Circuit::Masked(Fold::Least), 6, 5, MAX),
    (Circuit::Masked(Fold::Greatest), 6, 5, 0),
];

#[test]
fn circuits_compute_words_at_the_edges(rt: HostRuntime) -> Result<(), Fail> {
    let wrong = first_wrong_at(rt.alloc(), EDGES)?;
    assert!(rt; wrong.is_none(), "{wrong:?}");
    Ok(())
}

#[test]
fn circuits_compute_what_rust_computes(rt: HostRuntime) -> Result<(), Fail> {
    let wrong = first_wrong_of_random(rt.alloc(), 7, 8)?;
    assert!(rt; wrong.is_none(), "{wrong:?}");
    Ok(())
}

const ZEROS: [u64; 5] = [0; 5];

// The first of the circuits that takes other AND words than it has a lane, over zeros.
fn first_other_cost(
    alloc: Global,
    circuits: &[(Circuit, u64)],
    zeros: &[u64],
) -> Result<Option<Circuit>, AllocError>
    requires { length zeros.now < 2 ^ 32 }
{
    for (circuit, words) in circuits {
        let (cost, _, _) = counts_of(alloc, *circuit, zeros)?;
        if cost != words.wrapping_mul(zeros.len() as u64) {
            return Ok(Some(*circuit));
        }
    }
    Ok(None)
}

#[test]
fn circuits_cost_what_is_promised(rt: HostRuntime) -> Result<(), Fail> {
    for lanes in [1usize, 2, 5] {
        let other = first_other_cost(rt.alloc(), CIRCUITS, &ZEROS[..lanes])?;
        assert!(rt; other.is_none(), "{other:?} on {lanes} lanes");
    }
    Ok(())
}
