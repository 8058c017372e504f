//! The rows of a table that are first with their keys.

ghost use Rattle.std.specs.Prelude.{◌≡◌, ◌+◌, ◌*◌, ◌^◌, ◌<◌, ◌≤◌, length, IfOk};
ghost use Rattle.wires.specs.Growth.{Grows};
ghost use Rattle.plain_operators.specs.Within.{HasColumns};
ghost use Rattle.shared_ops.specs.Firsts.{AreFirsts};
ghost use Rattle.shared_ops.specs.Groups.{with_themselves};
ghost use Rattle.shared_ops.specs.Joint.{IsJoint};
ghost use Rattle.shared_ops.specs.Rounds.{firsts_calls};

use crate::joint::Joint;
use crate::matched::matched;
use crate::seen::unseen;
use std::alloc::{AllocError, Global};
use wires::{Wire, Wires};

// The flags of all pairs of rows with equal keys, and valid words of the rows that are first with theirs.
#[derive(Debug, Clone, Copy, Drop)]
pub(crate) struct FirstRows {
    pub(crate) flags: Wire,
    pub(crate) valid: Wire,
}

// Each key with itself.
fn with_themselves(alloc: Global, keys: &[u32]) -> Result<Vec<(u32, u32)>, AllocError>
    ensures { IfOk result (λ pairs. pairs.items ≡ with_themselves keys.now) }
{
    let mut pairs = Vec::with_capacity(alloc, keys.len())?;
    for key in keys {
        pairs.push((*key, *key))?;
    }
    Ok(pairs)
}

// The rows that are first with these keys.
pub(crate) fn firsts<W: Wires>(
    wires: &mut W,
    table: &Joint,
    keys: &[u32],
) -> Result<FirstRows, AllocError>
    requires joint { IsJoint (W.shape wires.old) table.now }
    requires keys { HasColumns keys.now (length table.now.columns.items) }
    requires some { 0 < table.now.rows }
    requires few { table.now.rows * table.now.rows < 2 ^ 32 }
    ensures grows { Grows W.grown W.possible W.shape wires.old wires.new }
    ensures ok { IfOk result (λ new. AreFirsts (W.possible wires.new) (W.shape wires.new) keys.now table.now new) }
    ensures cost { W.ands wires.new ≤ W.ands wires.old + table.now.rows * table.now.rows * (7 * length keys.now + 3) }
    ensures calls { W.and_calls wires.new ≤ W.and_calls wires.old + firsts_calls (length keys.now) table.now.rows }
{
    // Laws: the word in a lane, and the row and the column of a place of a table.
    lanes::item_laws();
    lanes::table_laws();
    let alloc = *table.columns.allocator();
    let pairs = with_themselves(alloc, keys)?;
    let flags = matched(wires, table, table, pairs.as_slice())?;
    let valid = unseen(wires, alloc, table.valid, flags, table.rows)?;
    Ok(FirstRows { flags, valid })
}
