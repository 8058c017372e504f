//! A step more.

ghost use Rattle.std.specs.Prelude.{◌≡◌, [], ◌∷◌, IsTrue, OnOk};
ghost use Rattle.clear_tasks.specs.ClearTask.{accepts};
ghost use Rattle.step_lists.specs.Layout.{layout_of};
ghost use Rattle.step_lists.specs.Possible.{behind};
ghost use Rattle.step_lists.specs.Rules.{is_fine};

use clear_tasks::ClearTask;
use std::alloc::AllocError;
use step_lists::{Step, StepList};

/// Adds a step. A list that has no number left for what it makes finds no memory.
pub(crate) fn push_step(
    list: &mut StepList<ClearTask>,
    step: Step<ClearTask>,
) -> Result<(), AllocError>
    ensures fine { OnOk result (IsTrue (is_fine accepts (layout_of list.old) step)) }
    ensures added { OnOk result (list.new ≡ behind list.old (step ∷ [])) }
{
    match list.push(step) {
        Ok(()) => Ok(()),
        Err(_) => Err(AllocError),
    }
}
