//! The laws of a run of three parties. Each function does nothing, and its contract is the law.
ghost use Rattle.trio.specs.FewMoves.{MovesAreFew};
ghost use Rattle.trio.specs.RunOf.{EveryOrderEnds, RunsGoOn, RunsKeep};

use joint_machine::link_laws;
use lanes::item_laws;
use party_core::move_laws;
use party_laws::{fronts_fit, fronts_grow, parts_are_in_machine, parts_have_words, stages_hold};
use step_lists::Task;

/// Whatever the order of turns, some party can move until all have ended; and when they have, links, slots and stops are
/// those of the joint run.
pub fn runs_go_on<T: Task>()
    ensures { RunsGoOn T.accepts T.answer }
{
    parts_are_in_machine::<T>();
    parts_have_words::<T>();
    stages_hold::<T>();
    fronts_fit::<T>();
    fronts_grow::<T>();
}

/// A run of three fresh cores is one of its list, and each step keeps it such: what was taken on a link begins what was
/// sent, and that begins the joint run's words; a step that moves leaves one move less; and no bad private order waits.
pub fn runs_keep<T: Task>()
    ensures { RunsKeep T.accepts T.answer }
{
    item_laws();
    link_laws::<T>();
    parts_are_in_machine::<T>();
    parts_have_words::<T>();
    stages_hold::<T>();
    fronts_fit::<T>();
    fronts_grow::<T>();
    move_laws::<T>();
}

/// For every list of turns, all have ended behind these and enough rounds of the three parties, and the run is then still
/// one of its list.
pub fn every_order_ends<T: Task>()
    ensures { EveryOrderEnds T.accepts T.answer }
{
    item_laws();
    link_laws::<T>();
    parts_are_in_machine::<T>();
    parts_have_words::<T>();
    stages_hold::<T>();
    fronts_fit::<T>();
    fronts_grow::<T>();
    move_laws::<T>();
}

/// A party makes few moves in a step.
pub fn moves_are_few<T: Task>()
    ensures { MovesAreFew T }
{}
