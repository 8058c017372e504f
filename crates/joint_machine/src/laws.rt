//! The laws of the joint machine. Each function does nothing, and its contract is the law.
ghost use Rattle.joint_machine.specs.Below.{LinksHaveWords, OwnLinksAreEmpty};
ghost use Rattle.joint_machine.specs.Fitting.{StepsFit};
ghost use Rattle.joint_machine.specs.Opens.{SharesAreLong, SharesAreOpened};

use lanes::{item_laws, lane_laws, shared_and_laws, xor_laws};
use step_lists::Task;
use tapes::order_laws;

/// The three shares of each register xor to its open value, and slots, flags and stop are those of the open values:
/// for every well-formed list, and all slots and tapes that fit it. Where the run doesn't stop, each share has as many
/// words as its register.
pub fn opened_laws<T: Task>()
    ensures opened { SharesAreOpened T.accepts T.answer }
    ensures long { SharesAreLong T.accepts T.answer }
{
    lane_laws();
    item_laws();
    xor_laws();
    shared_and_laws();
    order_laws();
}

/// For a caller that goes step by step: a machine fits the layout before the first step; where it fits, it is ready for
/// each step that may come next and has its draws, and behind the step it fits the layout that the step has grown.
pub fn steps_fit<T: Task>()
    ensures { StepsFit T.accepts T.answer }
{
    lane_laws();
    item_laws();
    xor_laws();
    shared_and_laws();
    order_laws();
}

/// What goes between the parties are words below 2^64, for every well-formed list and all slots and tapes that fit it,
/// also where a flag stops it; and no party sends itself anything.
pub fn link_laws<T: Task>()
    ensures words { LinksHaveWords T.accepts T.answer }
    ensures apart { OwnLinksAreEmpty T.accepts T.answer }
{
    lane_laws();
    item_laws();
    xor_laws();
    shared_and_laws();
    order_laws();
}
