//! Rows that come again: those that match a row before them.

ghost use Rattle.std.specs.Prelude.{◌≡◌, ◌+◌, ◌*◌, ◌^◌, ◌<◌, ◌≤◌, IfOk};
ghost use Rattle.lanes.specs.Logarithm.{ceil_log2};
ghost use Rattle.wires.specs.Environment.{words};
ghost use Rattle.wires.specs.Growth.{Carries, Grows};
ghost use Rattle.shared_ops.specs.Groups.{earlier_place, earlier_places, seen_lanes, unseen_valid};
ghost use Rattle.shared_ops.specs.Joint.{IsWide};

use circuits::{Fold, fold_blocks};
use std::alloc::{AllocError, Global};
use wires::{Wire, Wires};

// The place itself where the first row of its pair stands before the second, and else the place behind all pairs.
fn earlier_place(rows: u32, place: u32) -> u32
    requires some { 0 < rows }
    requires few { rows * rows < 2 ^ 32 }
    ensures { result ≡ earlier_place rows place }
{
    if place / rows < place % rows {
        place
    } else {
        rows * rows
    }
}

// That of each pair.
fn earlier_places(alloc: Global, rows: u32) -> Result<Vec<u32>, AllocError>
    requires some { 0 < rows }
    requires few { rows * rows < 2 ^ 32 }
    ensures { IfOk result (λ places. places.items ≡ earlier_places rows) }
{
    let mut places = Vec::with_capacity(alloc, (rows * rows) as usize)?;
    for place in 0..rows * rows {
        places.push(earlier_place(rows, place))?;
    }
    Ok(places)
}

// In each lane the or of the flags of the rows before its row: a flag at a pair that isn't so is taken from a zero.
fn seen<W: Wires>(wires: &mut W, alloc: Global, flags: Wire, rows: u32) -> Result<Wire, AllocError>
    requires flags { IsWide (W.shape wires.old) (rows * rows) flags }
    requires some { 0 < rows }
    requires few { rows * rows < 2 ^ 32 }
    ensures grows { Grows W.grown W.possible W.shape wires.old wires.new }
    ensures ok { IfOk result (λ new. Carries (W.possible wires.new) (W.shape wires.new) new rows (λ v. seen_lanes rows (words v flags))) }
    ensures cost { W.ands wires.new ≤ W.ands wires.old + rows * rows }
    ensures calls { W.and_calls wires.new ≤ W.and_calls wires.old + ceil_log2 rows }
{
    // Law: the row and the column of a place of a table.
    lanes::table_laws();
    let places = earlier_places(alloc, rows)?;
    let zero = wires.constant(&[0])?;
    let earlier = wires.gather(&[flags, zero], places.as_slice())?;
    let new = fold_blocks(
        wires,
        alloc,
        Fold::Any,
        earlier,
        rows as usize,
        rows as usize,
    )?;
    Ok(new)
}

// Valid words that leave in the rows that match none before them.
pub(crate) fn unseen<W: Wires>(
    wires: &mut W,
    alloc: Global,
    valid: Wire,
    flags: Wire,
    rows: u32,
) -> Result<Wire, AllocError>
    requires valid { IsWide (W.shape wires.old) rows valid }
    requires flags { IsWide (W.shape wires.old) (rows * rows) flags }
    requires some { 0 < rows }
    requires few { rows * rows < 2 ^ 32 }
    ensures grows { Grows W.grown W.possible W.shape wires.old wires.new }
    ensures ok { IfOk result (λ new. Carries (W.possible wires.new) (W.shape wires.new) new rows (λ v. unseen_valid rows (words v valid) (words v flags))) }
    ensures cost { W.ands wires.new ≤ W.ands wires.old + (rows * rows + rows) }
    ensures calls { W.and_calls wires.new ≤ W.and_calls wires.old + (ceil_log2 rows + 1) }
{
    let seen = seen(wires, alloc, flags, rows)?;
    let turned = wires.not(seen)?;
    let new = wires.and(valid, turned)?;
    Ok(new)
}
