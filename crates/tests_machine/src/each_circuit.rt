//! Each circuit over two wires by its name, and what Rust computes in its place.
ghost use Rattle.std.specs.Prelude.{◌≡◌, ◌<◌, ◌^◌, IfOk, length};
ghost use Rattle.wires.specs.Growth.{IsMade, lanes_of};

use circuits::{Fold, add, combine, eq, greatest, least, lt, masked, mul, mux, or, sub};
use rand::rngs::StdRng;
use rand::{RngExt, SeedableRng};
use std::alloc::{AllocError, Global};
use wires::{Clear, Tally, Wire, Wires};

#[derive(Clone, Copy, Debug)]
pub(crate) enum Circuit {
    Eq,
    Lt,
    Add,
    Sub,
    Mul,
    Mux,
    Or,
    Least,
    Greatest,
    Combine(Fold),
    Masked(Fold),
}

pub(crate) const ALL: [Circuit; 17] = [
    Circuit::Eq,
    Circuit::Lt,
    Circuit::Add,
    Circuit::Sub,
    Circuit::Mul,
    Circuit::Mux,
    Circuit::Or,
    Circuit::Least,
    Circuit::Greatest,
    Circuit::Combine(Fold::Sum),
    Circuit::Combine(Fold::Least),
    Circuit::Combine(Fold::Greatest),
    Circuit::Combine(Fold::Any),
    Circuit::Masked(Fold::Sum),
    Circuit::Masked(Fold::Least),
    Circuit::Masked(Fold::Greatest),
    Circuit::Masked(Fold::Any),
];

// The wire of a circuit over two wires; a choice takes the first as its flag too.
fn apply<W: Wires>(wires: &mut W, circuit: Circuit, x: Wire, y: Wire) -> Result<Wire, AllocError>
    requires x { IsMade (W.shape wires.old) x }
    requires y { IsMade (W.shape wires.old) y }
    requires lanes { lanes_of (W.shape wires.old) x ≡ lanes_of (W.shape wires.old) y }
    ensures { IfOk result (λ new. IsMade (W.shape wires.new) new) }
{
    match circuit {
        Circuit::Eq => eq(wires, x, y),
        Circuit::Lt => lt(wires, x, y),
        Circuit::Add => add(wires, x, y),
        Circuit::Sub => sub(wires, x, y),
        Circuit::Mul => mul(wires, x, y),
        Circuit::Mux => mux(wires, x, x, y),
        Circuit::Or => or(wires, x, y),
        Circuit::Least => least(wires, x, y),
        Circuit::Greatest => greatest(wires, x, y),
        Circuit::Combine(fold) => combine(wires, fold, x, y),
        Circuit::Masked(fold) => masked(wires, fold, x, y),
    }
}

// The words of a circuit over two lists of words.
pub(crate) fn values_of(
    alloc: Global,
    circuit: Circuit,
    left: &[u64],
    right: &[u64],
) -> Result<Vec<u64>, AllocError>
    requires few { length left.now < 2 ^ 32 }
    requires lanes { length left.now ≡ length right.now }
{
    let mut wires = Clear::new(alloc);
    let x = wires.constant(left)?;
    let y = wires.constant(right)?;
    let new = apply(&mut wires, circuit, x, y)?;
    wires.value(new).clone()
}

// The AND words and AND calls of a circuit over lanes of zeros, and its number of wires.
pub(crate) fn counts_of(
    alloc: Global,
    circuit: Circuit,
    zeros: &[u64],
) -> Result<(u64, u64, u32), AllocError>
    requires { length zeros.now < 2 ^ 32 }
{
    let mut wires = Tally::new(alloc);
    let x = wires.constant(zeros)?;
    let new = apply(&mut wires, circuit, x, x)?;
    Ok((wires.and_words(), wires.and_calls(), new.0))
}

// What Rust's own arithmetic gives.
fn expected(circuit: Circuit, left: u64, right: u64) -> u64 {
    match circuit {
        Circuit::Eq => u64::from(left == right),
        Circuit::Lt => u64::from(left < right),
        Circuit::Add => left.wrapping_add(right),
        Circuit::Sub => left.wrapping_sub(right),
        Circuit::Mul => left.wrapping_mul(right),
        Circuit::Mux => if left % 2 == 1 { left } else { right },
        Circuit::Or => left | right,
        Circuit::Least => left.min(right),
        Circuit::Greatest => left.max(right),
        Circuit::Combine(fold) => folded(fold, left, right),
        Circuit::Masked(fold) => if left % 2 == 1 { right } else { neutral(fold) },
    }
}

pub(crate) fn folded(fold: Fold, left: u64, right: u64) -> u64 {
    match fold {
        Fold::Sum => left.wrapping_add(right),
        Fold::Least => left.min(right),
        Fold::Greatest => left.max(right),
        Fold::Any => left | right,
    }
}

pub(crate) fn neutral(fold: Fold) -> u64 {
    match fold {
        Fold::Least => u64::MAX,
        Fold::Sum | Fold::Greatest | Fold::Any => 0,
    }
}

// Whether a circuit's words are those that Rust computes.
fn are_expected(circuit: Circuit, left: &[u64], right: &[u64], found: &[u64]) -> bool {
    let mut words = found.iter();
    for (one, other) in left.iter().zip(right) {
        if words.next() != Some(&expected(circuit, *one, *other)) {
            return false;
        }
    }
    words.next().is_none()
}

// The first of the circuits that gives another word than Rust in some lane.
pub(crate) fn first_wrong(
    alloc: Global,
    circuits: &[Circuit],
    left: &[u64],
    right: &[u64],
) -> Result<Option<Circuit>, AllocError>
    requires few { length left.now < 2 ^ 32 }
    requires lanes { length left.now ≡ length right.now }
{
    for circuit in circuits {
        let found = values_of(alloc, *circuit, left, right)?;
        if !are_expected(*circuit, left, right, &found) {
            return Ok(Some(*circuit));
        }
    }
    Ok(None)
}

// The same in a thousand lanes of random words of two seeds.
pub(crate) fn first_wrong_of_random(
    alloc: Global,
    seed: u64,
    other: u64,
) -> Result<Option<Circuit>, AllocError> {
    let left = random_words(alloc, seed)?;
    let right = random_words(alloc, other)?;
    if left.len() != 1000 || right.len() != 1000 {
        return Ok(Some(Circuit::Eq));
    }
    first_wrong(alloc, &ALL, &left, &right)
}

// A thousand random words.
fn random_words(alloc: Global, seed: u64) -> Result<Vec<u64>, AllocError> {
    let mut random = StdRng::seed_from_u64(seed);
    let mut words = Vec::new(alloc);
    for _ in 0..1000 {
        words.push(random.random())?;
    }
    Ok(words)
}
