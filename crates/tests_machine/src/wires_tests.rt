ghost use Rattle.std.specs.Prelude.{◌≡◌, IfOk};
ghost use Rattle.wires.specs.Growth.{IsMade, lanes_of};
ghost use Rattle.wires.specs.Held.{held_shape};

use std::alloc::{AllocError, Global};
use std::test::Fail;
use wires::{Clear, Tally, Wire, Wires};

#[derive(Clone, Copy)]
enum Gate {
    First,
    Xor,
    And,
    Not,
    Left,
    Right,
    Mask,
    Spread,
    Gather,
}

// The wire of a gate over two wires of four lanes.
fn apply(wires: &mut Clear, gate: Gate, x: Wire, y: Wire) -> Result<Wire, AllocError>
    requires x { IsMade (held_shape wires.old) x }
    requires y { IsMade (held_shape wires.old) y }
    requires x_lanes { lanes_of (held_shape wires.old) x ≡ 4 }
    requires y_lanes { lanes_of (held_shape wires.old) y ≡ 4 }
    ensures { IfOk result (λ new. IsMade (held_shape wires.new) new) }
{
    match gate {
        Gate::First => Ok(x),
        Gate::Xor => Ok(wires.xor(x, y)?),
        Gate::And => Ok(wires.and(x, y)?),
        Gate::Not => Ok(wires.not(x)?),
        Gate::Left => Ok(wires.left(x, 63)?),
        Gate::Right => Ok(wires.right(x, 1)?),
        Gate::Mask => Ok(wires.mask(x, 5)?),
        Gate::Spread => Ok(wires.spread(x)?),
        Gate::Gather => Ok(wires.gather(&[x], &[3, 3, 2, 0])?),
    }
}

// What a gate gives of the words 0, 1, 6 and all ones, beside four threes.
fn value_of(alloc: Global, gate: Gate) -> Result<Vec<u64>, AllocError> {
    let mut wires = Clear::new(alloc);
    let x = wires.constant(&[0, 1, 6, u64::MAX])?;
    let y = wires.constant(&[3, 3, 3, 3])?;
    let new = apply(&mut wires, gate, x, y)?;
    wires.value(new).clone()
}

const MAX: u64 = u64::MAX;

const GATES: &[(Gate, &[u64])] = &[
    (Gate::First, &[0, 1, 6, MAX]),
    (Gate::Xor, &[3, 2, 5, MAX - 3]),
    (Gate::And, &[0, 1, 2, 3]),
    (Gate::Not, &[MAX, MAX - 1, MAX - 6, 0]),
    (Gate::Left, &[0, 1 << 63, 0, 1 << 63]),
    (Gate::Right, &[0, 0, 3, MAX / 2]),
    (Gate::Mask, &[0, 1, 4, 5]),
    (Gate::Spread, &[0, MAX, 0, MAX]),
    (Gate::Gather, &[MAX, MAX, 6, 0]),
];

// The first of the gates that gives other words.
fn first_other(alloc: Global, gates: &[(Gate, &[u64])]) -> Result<Option<usize>, AllocError> {
    for (index, (gate, want)) in gates.iter().enumerate() {
        if value_of(alloc, *gate)?.as_slice() != *want {
            return Ok(Some(index));
        }
    }
    Ok(None)
}

#[test]
fn clear_computes_each_gate(rt: HostRuntime) -> Result<(), Fail> {
    assert_eq!(rt; first_other(rt.alloc(), GATES)?, None);
    Ok(())
}

// The AND words after an and of three lanes and one of four lanes more.
fn counted(wires: &mut Tally) -> Result<Wire, AllocError> {
    let x = wires.constant(&[0, 1, 6])?;
    let _three = wires.and(x, x)?;
    let y = wires.gather(&[x], &[2, 1, 0, 2])?;
    let four = wires.and(y, y)?;
    Ok(four)
}

#[test]
fn tally_counts_wires_and_and_words(rt: HostRuntime) -> Result<(), Fail> {
    let mut wires = Tally::new(rt.alloc());
    assert_eq!(rt; counted(&mut wires)?, Wire(3));
    assert_eq!(rt; wires.and_words(), 7);
    Ok(())
}
