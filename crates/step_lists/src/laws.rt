//! Laws of step lists and of what they mean: a call does nothing, and its contract states the law for all lists over a
//! task.
#![tactic(auto)]

ghost use Rattle.step_lists.specs.Laws.{PrefixKeepsLayout, PrefixIsPossible, PrefixKeepsRegisters, PrefixKeepsSlots, SeenAppends, StepValues, RevealIsOneOrder, ValuesHaveShapes, FlagsDecide, AndsAddUp, AndsAreFew};

use crate::task::Task;
use lanes::{item_laws, lane_laws};
use tapes::order_laws;

/// A list that stands in a longer one keeps its registers' lengths and its slots' shapes.
pub fn prefix_keeps_layout<T: Task>()
    ensures { PrefixKeepsLayout T.answer }
{}

/// An environment of a longer list is one of the list, and in it registers and slots keep their open values.
pub fn prefix_keeps_values<T: Task>()
    ensures possible { PrefixIsPossible T.answer }
    ensures registers { PrefixKeepsRegisters T.answer }
    ensures slots { PrefixKeepsSlots T.answer }
{}

/// What a longer list shows is what the list shows, and then what the further steps show.
pub fn seen_appends<T: Task>()
    ensures { SeenAppends T.answer }
{}

/// The open values behind a step are those of its kind on the values before it.
pub fn step_values<T: Task>()
    ensures { StepValues T.answer }
{}

/// A Reveal has one order for each environment, which is applied to every moved register and every shown slot.
pub fn reveals_have_one_order<T: Task>()
    ensures { RevealIsOneOrder T.answer }
{
    item_laws();
    lane_laws();
    order_laws();
}

/// In each environment of a well-formed list registers have their lengths, slots their shapes, and words are below 2^64.
pub fn values_have_shapes<T: Task>()
    ensures { ValuesHaveShapes T.accepts T.answer }
{
    item_laws();
    lane_laws();
    order_laws();
}

/// A flag whose word is 0 stops nothing; another one stops the run of this and of every longer list.
pub fn flags_decide<T: Task>()
    ensures { FlagsDecide T.answer }
{}

/// The AND words of a list and of the steps behind it add up, and And alone has any.
pub fn ands_add_up<T: Task>()
    ensures { AndsAddUp T.answer }
{}

/// A list has fewer than 2^64 AND words: each And makes a register, of which there are fewer than 2^32, each of fewer
/// than 2^32 words.
pub fn ands_are_few<T: Task>()
    ensures { AndsAreFew T.accepts }
{}
