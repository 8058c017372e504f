//! A piece of a list by a circuit, with what its caller knows of the list.

ghost use Rattle.std.specs.Prelude.{◌≡◌, ◌<◌, ◌*◌, length, IfOk};
ghost use Rattle.emit.specs.Adds.{Adds, is_circuit, wants_nothing};
ghost use Rattle.lanes.specs.Lanes.{lanewise};
ghost use Rattle.lanes.specs.Sums.{equal_word};
ghost use Rattle.step_lists.specs.Layout.{layout_of, length_of};
ghost use Rattle.tests_compiler.specs.Pieces.{OpensAs, over_slots};

use circuits::eq;
use emit::Emit;
use emit::laws::wires_leave;
use std::alloc::AllocError;
use step_lists::{StepList, Task};
use wires::Wire;

/// Where the words of two registers are equal: a register of 1 in each such row, and else 0.
pub fn push_equal<T: Task>(list: &mut StepList<T>, left: u32, right: u32) -> Result<u32, AllocError>
    requires left { left < length (layout_of list.old).registers }
    requires right { right < length (layout_of list.old).registers }
    requires rows { length_of (layout_of list.old) left ≡ length_of (layout_of list.old) right }
    ensures adds { Adds T.answer over_slots list.old list.new is_circuit (6 * length_of (layout_of list.old) left) wants_nothing }
    ensures made { IfOk result (λ new. new < length (layout_of list.new).registers) }
    ensures value { IfOk result (λ new. OpensAs T.answer list.new new (λ v. lanewise equal_word (v left) (v right))) }
{
    wires_leave::<T>();
    let mut wires = Emit::new(list);
    let new = eq(&mut wires, Wire(left), Wire(right))?;
    // Their contracts say that the list is well-formed, and its registers short.
    let _ = list.steps();
    let _ = list.registers();
    Ok(new.0)
}
