//! Zeros in place of rows that aren't valid.

ghost use Rattle.std.specs.Prelude.{◌≡◌, ◌+◌, ◌*◌, ◌≤◌, All, length, map, IfOk};
ghost use Rattle.lanes.specs.Lanes.{lanewise};
ghost use Rattle.wires.specs.Environment.{words};
ghost use Rattle.wires.specs.Growth.{Grows, IsMade, lanes_of};
ghost use Rattle.circuits.specs.Folds.{masked_word};
ghost use Rattle.circuits.specs.declared.folds.Fold.TheVariants.{Sum};
ghost use Rattle.padded.specs.Table.{AreBits, column_at};
ghost use Rattle.shared_ops.specs.Joint.{IsJoint, IsWide, IsZeroed, Makes, joint_rows, valid_words};
ghost use Rattle.shared_ops.specs.Wired.{AreWired};

use crate::joint::Joint;
use circuits::{Fold, masked};
use std::alloc::{AllocError, Global};
use wires::{Wire, Wires};

/// The table with each word of a row that isn't valid made 0. Valid words are the same wire, and each valid row stays at
/// its place; one AND word for each word of a column.
pub fn zeroed<W: Wires>(wires: &mut W, table: &Joint) -> Result<Joint, AllocError>
    requires { IsJoint (W.shape wires.old) table.now }
    ensures grows { Grows W.grown W.possible W.shape wires.old wires.new }
    ensures makes { IfOk result (λ new. Makes (W.possible wires.new) (W.shape wires.new) new table.now.rows (length table.now.columns.items)
        (λ v. AreBits (valid_words v table.now)) (λ v. joint_rows v table.now)) }
    ensures zeros { IfOk result (λ new. IsZeroed (W.possible wires.new) table.now new) }
    ensures cost { W.ands wires.new ≤ W.ands wires.old + table.now.rows * length table.now.columns.items }
    ensures calls { W.and_calls wires.new ≤ W.and_calls wires.old + length table.now.columns.items }
{
    // Laws: zeroed columns have the same rows, which are the same bag as themselves.
    padded::laws::rows_of_zeroed();
    bags::laws::bags_are_equivalence();
    let alloc = *table.columns.allocator();
    let columns = masked_columns(wires, alloc, table.valid, table.columns.as_slice())?;
    Ok(Joint {
        columns,
        valid: table.valid,
        rows: table.rows,
    })
}

// Each column with 0 where bit 0 of the valid word is 0.
fn masked_columns<W: Wires>(
    wires: &mut W,
    alloc: Global,
    valid: Wire,
    columns: &[Wire],
) -> Result<Vec<Wire>, AllocError>
    requires valid { IsMade (W.shape wires.old) valid }
    requires columns { All (IsWide (W.shape wires.old) (lanes_of (W.shape wires.old) valid)) columns.now }
    ensures grows { Grows W.grown W.possible W.shape wires.old wires.new }
    ensures count { IfOk result (λ made. length made.items ≡ length columns.now) }
    ensures ok { IfOk result (λ made. AreWired (W.possible wires.new) (W.shape wires.new) made.items (lanes_of (W.shape wires.old) valid)
        (λ k v. lanewise (masked_word Sum) (words v valid) (column_at (map (words v) columns.now) k))) }
    ensures cost { W.ands wires.new ≤ W.ands wires.old + length columns.now * lanes_of (W.shape wires.old) valid }
    ensures calls { W.and_calls wires.new ≤ W.and_calls wires.old + length columns.now }
{
    let mut made = Vec::new(alloc);
    for at in 0..columns.len() {
        let column = masked(wires, Fold::Sum, valid, columns[at])?;
        made.push(column)?;
    }
    Ok(made)
}
