//! The wires of operands.

ghost use Rattle.std.specs.Prelude.{◌≤◌, length, IfOk};
ghost use Rattle.wires.specs.Growth.{Carries, Grows};
ghost use Rattle.plain_operators.specs.Within.{IsOperandOf};
ghost use Rattle.shared_ops.specs.Joint.{IsJoint, column_words};
ghost use Rattle.shared_ops.specs.Lanes.{operand_lanes};

use crate::joint::Joint;
use plain_operators::Operand;
use std::alloc::AllocError;
use wires::{Wire, Wires};

// The wire of an operand: a column, or one of a word in each lane.
pub(crate) fn operand_wire<W: Wires>(
    wires: &mut W,
    table: &Joint,
    operand: Operand,
) -> Result<Wire, AllocError>
    requires joint { IsJoint (W.shape wires.old) table.now }
    requires fits { IsOperandOf (length table.now.columns.items) operand }
    ensures grows { Grows W.grown W.possible W.shape wires.old wires.new }
    ensures ok { IfOk result (λ new. Carries (W.possible wires.new) (W.shape wires.new) new table.now.rows
        (λ v. operand_lanes operand table.now.rows (column_words v table.now))) }
    ensures cost { W.ands wires.new ≤ W.ands wires.old }
    ensures calls { W.and_calls wires.new ≤ W.and_calls wires.old }
{
    match operand {
        Operand::Column(column) => Ok(table.columns[column as usize]),
        Operand::Constant(word) => {
            let alloc = *table.columns.allocator();
            let words = vec![in alloc; word; table.rows as usize]?;
            let new = wires.constant(words.as_slice())?;
            Ok(new)
        }
    }
}
