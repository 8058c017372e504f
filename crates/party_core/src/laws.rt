//! The laws of cores. Each function does nothing, and its contract is the law.
ghost use Rattle.party_core.specs.Laws.{CoresAreParts};
ghost use Rattle.party_core.specs.MoveLaws.{MovesKeep};
ghost use Rattle.party_core.specs.Doing.{CoresAreReady};

use lanes::{item_laws, lane_laws};
use step_lists::Task;

/// A core is the part of its party: where it wants words, the part on the words that came ends for want of them and has
/// sent and taken the same; where it is done or stopped, so is the part; and at every moment what it sent begins what the
/// part sends.
pub fn core_laws<T: Task>()
    ensures { CoresAreParts T.accepts T.answer }
{}

/// Each move keeps what is told of a core: one that was made is reached, and so it is behind a turn and behind words that
/// came; and what it has sent grows by what its turns send.
pub fn move_laws<T: Task>()
    ensures { MovesKeep T.accepts T.answer }
{}

/// What the moves of a core rest on: each move keeps what is told of it, and what it has fits its layout, so that it is
/// ready for its next step.
pub(crate) fn core_facts<T: Task>()
    ensures moves { MovesKeep T.accepts T.answer }
    ensures ready { CoresAreReady T.accepts T.answer }
{
    lane_laws();
    item_laws();
}
