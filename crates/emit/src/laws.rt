//! Laws of wires over step lists: a call does nothing, and its contract states the law for all lists over a task.
#![tactic(auto)]

ghost use Rattle.emit.specs.Laws.{EnvironmentsExist, CarriedIsOpened, CircuitsAdd, QuietStepsAdd, WiresAdd, WiresOpen, WiresStay};
ghost use Rattle.emit.specs.PiecesAddUp.{PiecesAddUp};

use step_lists::Task;
use step_lists::laws::values_have_shapes;

/// The open values of a list are an environment of its wires, so what a wire carries is its register's open value.
pub fn environments_are_open_values<T: Task>()
    ensures exist { EnvironmentsExist T.accepts T.answer }
    ensures carried { CarriedIsOpened T.accepts T.answer }
{
    values_have_shapes::<T>();
}

/// Where a list begins a longer one, its wires stay, and have the same words in each environment of the longer list.
pub fn wires_stay<T: Task>()
    ensures { WiresStay T.answer }
{}

/// What steps that open nothing add to a list: they show nothing to anyone.
pub fn quiet_steps_add<T: Task>()
    ensures { QuietStepsAdd T.answer }
{}

/// What circuits add to a list: steps of three kinds, which show nothing to anyone.
pub fn circuits_add<T: Task>()
    ensures { CircuitsAdd T.answer }
{}

/// What wires leave of the list that they were made over, whatever calls were made, and after want of memory too: steps of
/// circuits behind it, of at most as many AND words as the count rose by; and in its environments each wire has its
/// register's open value.
pub fn wires_leave<T: Task>()
    ensures adds { WiresAdd T.answer }
    ensures opened { WiresOpen T.accepts T.answer }
{
    environments_are_open_values::<T>();
}

/// What pieces of a list add, one behind the other.
pub fn pieces_add_up<T: Task>()
    ensures { PiecesAddUp T.answer }
{}
