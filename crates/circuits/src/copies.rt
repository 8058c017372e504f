//! Copies of the first words of runs.
#![tactic(auto)]

ghost use Rattle.std.specs.Prelude.{◌≡◌, ℕ, ◌+◌, ◌*◌, ◌^◌, ◌≤◌, All, length, IfOk};
ghost use Rattle.lanes.specs.Logarithm.{ceil_log2};
ghost use Rattle.wires.specs.Growth.{AreMade, Grows, IsMade, lanes_of};
ghost use Rattle.circuits.specs.Copies.{AreCopies};
ghost use Rattle.circuits.specs.RunLoops.{LevelFlags};

use crate::run_flags::level_flags;
use crate::runs::scan;
use lanes::log_laws;
use std::alloc::{AllocError, Global};
use wires::{Wire, Wires};

/// For each column the words of its runs' first lanes; a level costs one AND word a lane, and one AND call,
/// for each column and one more, by the runs and levels of `run_folds`. There may be no columns.
pub fn run_copies<W: Wires>(
    wires: &mut W,
    alloc: Global,
    joined: Wire,
    columns: &[Wire],
) -> Result<Vec<Wire>, AllocError>
    requires joined { IsMade (W.shape wires.old) joined }
    requires columns { AreMade (W.shape wires.old) columns.now }
    requires lanes { All (λ column. lanes_of (W.shape wires.old) joined ≡ lanes_of (W.shape wires.old) column) columns.now }
    ensures grows { Grows W.grown W.possible W.shape wires.old wires.new }
    ensures count { IfOk result (λ copies. length copies.items ≡ length columns.now) }
    ensures made { IfOk result (λ copies. AreMade (W.shape wires.new) copies.items) }
    ensures ok { IfOk result (λ copies. AreCopies (W.possible wires.new) (W.shape wires.new) joined columns.now copies.items (lanes_of (W.shape wires.old) joined)) }
    ensures cost { W.ands wires.new ≤ W.ands wires.old
        + (length columns.now + 1) * ceil_log2 (lanes_of (W.shape wires.old) joined) * lanes_of (W.shape wires.old) joined }
    ensures calls { W.and_calls wires.new ≤ W.and_calls wires.old + (length columns.now + 1) * ceil_log2 (lanes_of (W.shape wires.old) joined) }
    ensures wires { length (W.shape wires.new) ≤ length (W.shape wires.old)
        + (3 + (5 * length columns.now + 2) * ceil_log2 (lanes_of (W.shape wires.old) joined)) }
{
    log_laws();
    let flags = level_flags(wires, alloc, joined)?;
    let copies = copy_all(wires, alloc, joined, flags.as_slice(), columns)?;
    Ok(copies)
}

// The copies of each column.
fn copy_all<W: Wires>(
    wires: &mut W,
    alloc: Global,
    joined: Wire,
    flags: &[Wire],
    columns: &[Wire],
) -> Result<Vec<Wire>, AllocError>
    requires joined { IsMade (W.shape wires.old) joined }
    requires columns { AreMade (W.shape wires.old) columns.now }
    requires lanes { All (λ column. lanes_of (W.shape wires.old) joined ≡ lanes_of (W.shape wires.old) column) columns.now }
    requires flags { LevelFlags (W.possible wires.old) (W.shape wires.old) flags.now joined (lanes_of (W.shape wires.old) joined) }
    requires enough { lanes_of (W.shape wires.old) joined ≤ 2 ^ length flags.now }
    requires few { length flags.now ≤ 32 }
    ensures grows { Grows W.grown W.possible W.shape wires.old wires.new }
    ensures count { IfOk result (λ copies. length copies.items ≡ length columns.now) }
    ensures ok { IfOk result (λ copies. AreCopies (W.possible wires.new) (W.shape wires.new) joined columns.now copies.items (lanes_of (W.shape wires.old) joined)) }
    ensures cost { W.ands wires.new ≤ W.ands wires.old + length columns.now * (length flags.now * lanes_of (W.shape wires.old) joined) }
    ensures calls { W.and_calls wires.new ≤ W.and_calls wires.old + length columns.now * length flags.now }
    ensures wires { length (W.shape wires.new) ≤ length (W.shape wires.old) + length columns.now * (5 * length flags.now) }
{
    let mut copies = Vec::new(alloc);
    for at in 0..columns.len() {
        let copy = scan(wires, alloc, None, joined, flags, columns[at])?;
        copies.push(copy)?;
    }
    Ok(copies)
}
