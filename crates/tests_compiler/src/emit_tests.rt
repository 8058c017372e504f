//! Circuits over lists, run by three parties, and the same over `Clear` and `Tally`.

ghost use Rattle.std.specs.Prelude.{◌≡◌, ◌<◌, ◌^◌, IfOk, length};
ghost use Rattle.wires.specs.Growth.{IsMade, lanes_of};

use crate::lists::{List, and_words, list_of, numbers, push, run_of, slots_of};
use circuits::{
    Fold, add, combine, eq, fold_blocks, greatest, least, lt, masked, mul, mux, or, run_copies,
    run_folds, run_sums, sub,
};
use emit::Emit;
use std::alloc::{AllocError, Global};
use std::test::Fail;
use step_lists::Step;
use wires::{Clear, Tally, Wire, Wires};

#[derive(Clone, Copy, Debug)]
enum Circuit {
    Eq,
    Lt,
    Add,
    Sub,
    Mul,
    Or,
    Mux,
    Least,
    Greatest,
    Combine(Fold),
    Masked(Fold),
    RunFolds(Fold),
    RunSums,
    RunCopies,
    FoldBlocks(Fold),
}

const CIRCUITS: [Circuit; 16] = [
    Circuit::Eq,
    Circuit::Lt,
    Circuit::Add,
    Circuit::Sub,
    Circuit::Mul,
    Circuit::Or,
    Circuit::Mux,
    Circuit::Least,
    Circuit::Greatest,
    Circuit::Combine(Fold::Any),
    Circuit::Masked(Fold::Least),
    Circuit::RunFolds(Fold::Greatest),
    Circuit::RunSums,
    Circuit::RunCopies,
    Circuit::FoldBlocks(Fold::Sum),
    Circuit::FoldBlocks(Fold::Least),
];

// The wire of a circuit over two wires of four lanes; a choice takes the first as its flag too.
fn apply<W: Wires>(
    wires: &mut W,
    alloc: Global,
    circuit: Circuit,
    x: Wire,
    y: Wire,
) -> Result<Wire, AllocError>
    requires x { IsMade (W.shape wires.old) x }
    requires y { IsMade (W.shape wires.old) y }
    requires x_lanes { lanes_of (W.shape wires.old) x ≡ 4 }
    requires y_lanes { lanes_of (W.shape wires.old) y ≡ 4 }
    ensures { IfOk result (λ new. IsMade (W.shape wires.new) new) }
{
    match circuit {
        Circuit::RunFolds(fold) => Ok(run_folds(wires, alloc, fold, x, y)?),
        Circuit::RunSums => Ok(run_sums(wires, alloc, x, y)?),
        Circuit::RunCopies => copied(wires, alloc, x, y),
        Circuit::FoldBlocks(fold) => Ok(fold_blocks(wires, alloc, fold, y, 2, 2)?),
        _ => by_lanes(wires, circuit, x, y),
    }
}

// The same of the circuits that go lane by lane.
fn by_lanes<W: Wires>(wires: &mut W, circuit: Circuit, x: Wire, y: Wire) -> Result<Wire, AllocError>
    requires x { IsMade (W.shape wires.old) x }
    requires y { IsMade (W.shape wires.old) y }
    requires lanes { lanes_of (W.shape wires.old) x ≡ lanes_of (W.shape wires.old) y }
    ensures { IfOk result (λ new. IsMade (W.shape wires.new) new) }
{
    match circuit {
        Circuit::Eq => Ok(eq(wires, x, y)?),
        Circuit::Lt => Ok(lt(wires, x, y)?),
        Circuit::Add => Ok(add(wires, x, y)?),
        Circuit::Sub => Ok(sub(wires, x, y)?),
        Circuit::Mul => Ok(mul(wires, x, y)?),
        Circuit::Or => Ok(or(wires, x, y)?),
        Circuit::Mux => Ok(mux(wires, x, x, y)?),
        Circuit::Least => Ok(least(wires, x, y)?),
        Circuit::Combine(fold) => Ok(combine(wires, fold, x, y)?),
        Circuit::Masked(fold) => Ok(masked(wires, fold, x, y)?),
        _ => Ok(greatest(wires, x, y)?),
    }
}

// The copies of one column.
fn copied<W: Wires>(wires: &mut W, alloc: Global, x: Wire, y: Wire) -> Result<Wire, AllocError>
    requires x { IsMade (W.shape wires.old) x }
    requires y { IsMade (W.shape wires.old) y }
    requires x_lanes { lanes_of (W.shape wires.old) x ≡ 4 }
    requires y_lanes { lanes_of (W.shape wires.old) y ≡ 4 }
    ensures { IfOk result (λ new. IsMade (W.shape wires.new) new) }
{
    let copies = run_copies(wires, alloc, x, &[y])?;
    Ok(copies[0])
}

const LEFT: [u64; 4] = [7, u64::MAX, 4, 0x8000_0000_0000_0001];

const RIGHT: [u64; 4] = [9, 3, 4, 0x7000_0000_0000_0000];

// The words of a circuit over `Clear`.
fn clear_words(alloc: Global, circuit: Circuit) -> Result<Vec<u64>, AllocError> {
    let mut wires = Clear::new(alloc);
    let x = wires.constant(&LEFT)?;
    let y = wires.constant(&RIGHT)?;
    let new = apply(&mut wires, alloc, circuit, x, y)?;
    wires.value(new).clone()
}

// Its AND words by `Tally`.
fn tally_words(alloc: Global, circuit: Circuit) -> Result<u64, AllocError> {
    let mut wires = Tally::new(alloc);
    let x = wires.constant(&LEFT)?;
    let y = wires.constant(&RIGHT)?;
    let _new = apply(&mut wires, alloc, circuit, x, y)?;
    Ok(wires.and_words())
}

// A list that shares a word of two parties, with a circuit over both, whose register it gives.
fn list_with(rt: &HostRuntime, circuit: Circuit) -> Result<(List, u32), Fail> {
    let mut list = list_of(rt, &[4], &[4])?;
    push(&mut list, Step::Share { party: 1, slot: 0 })?;
    push(&mut list, Step::Share { party: 2, slot: 0 })?;
    let register = emitted(&mut list, rt.alloc(), circuit)?;
    Ok((list, register))
}

// The register of a circuit over the first two.
fn emitted(list: &mut List, alloc: Global, circuit: Circuit) -> Result<u32, Fail> {
    if list.registers() < 2 || list.length(0) != 4 || list.length(1) != 4 {
        Err("not two words of four lanes")?;
    }
    let mut wires = Emit::new(list);
    let new = apply(&mut wires, alloc, circuit, Wire(0), Wire(1))?;
    Ok(new.0)
}

// The words that are opened of a circuit's register, in some order.
fn opened_words(rt: &HostRuntime, circuit: Circuit, seed: u64) -> Result<Vec<u64>, Fail> {
    let (mut list, register) = list_with(rt, circuit)?;
    let reveal = Step::Reveal {
        to: 3,
        moved: numbers(rt, &[register])?,
        shown: numbers(rt, &[0])?,
    };
    push(&mut list, reveal)?;
    let slots = slots_of(rt, &[&LEFT], &[&RIGHT])?;
    let run = run_of(rt, &list, &slots, seed)?;
    let words = run.slot(3, 0).ok_or("no slot")?;
    Ok(words.clone()?)
}

// Whether three parties open what one computes, in some order.
fn is_opened(rt: &HostRuntime, circuit: Circuit, seed: u64) -> Result<bool, Fail> {
    let mut opened = opened_words(rt, circuit, seed)?;
    let mut want = clear_words(rt.alloc(), circuit)?;
    opened.sort_unstable();
    want.sort_unstable();
    Ok(opened.as_slice() == want.as_slice())
}

// The first of these circuits that three parties compute otherwise than one.
fn first_wrong(rt: &HostRuntime, circuits: &[Circuit], seed: u64) -> Result<Option<Circuit>, Fail> {
    for circuit in circuits {
        if !is_opened(rt, *circuit, seed)? {
            return Ok(Some(*circuit));
        }
    }
    Ok(None)
}

// Whether a circuit's list has the AND words that a tally counts.
fn is_counted(rt: &HostRuntime, circuit: Circuit) -> Result<bool, Fail> {
    let (list, _register) = list_with(rt, circuit)?;
    let want = tally_words(rt.alloc(), circuit)?;
    Ok(and_words(&list) == want)
}

// The first of these circuits whose list has other AND words.
fn first_other_count(rt: &HostRuntime, circuits: &[Circuit]) -> Result<Option<Circuit>, Fail> {
    for circuit in circuits {
        if !is_counted(rt, *circuit)? {
            return Ok(Some(*circuit));
        }
    }
    Ok(None)
}

#[test]
fn three_parties_compute_what_one_does(rt: HostRuntime) -> Result<(), Fail> {
    let wrong = first_wrong(&rt, &CIRCUITS, 19)?;
    assert!(rt; wrong.is_none(), "{wrong:?}");
    Ok(())
}

#[test]
fn lists_have_the_and_words_of_a_tally(rt: HostRuntime) -> Result<(), Fail> {
    let wrong = first_other_count(&rt, &CIRCUITS)?;
    assert!(rt; wrong.is_none(), "{wrong:?}");
    Ok(())
}
