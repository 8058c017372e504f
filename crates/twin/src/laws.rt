//! The laws of the twin. Each function does nothing, and its contract is the law.
ghost use Rattle.twin.specs.Alike.{TwinOfAlike, TwinsDiffer};
ghost use Rattle.twin.specs.Facts.{Facts};
ghost use Rattle.twin.specs.Fits.{TwinFits};
ghost use Rattle.twin.specs.Pairs.{TwinPairs};

use joint_machine::opened_laws;
use lanes::{item_laws, lane_laws, shared_and_laws, xor_laws};
use step_lists::Task;
use tapes::{align_laws, need_laws, order_laws, row_laws};

/// The laws of the crates below, in one record.
pub(crate) fn facts()
    ensures { Facts }
{
    lane_laws();
    item_laws();
    xor_laws();
    shared_and_laws();
    order_laws();
    row_laws();
    align_laws();
    need_laws();
    bags::laws::bags_are_equivalence();
    bags::laws::bags_keep_rows();
}

// what both of the first two laws come from
fn worlds_step_by_step<T: Task>()
    ensures fits { TwinFits T.accepts T.answer }
    ensures pairs { TwinPairs T.accepts T.answer }
{
    facts();
    opened_laws::<T>();
}

/// The twin of tapes that fit a well-formed list fits it too, whatever the slots of the two worlds are.
pub fn twin_fits<T: Task>()
    ensures { TwinFits T.accepts T.answer }
{
    worlds_step_by_step::<T>();
}

/// Where what the viewer is shown, told and flagged in the first world under the tapes and in the second one under
/// their twin is alike, and its slots are the same, it holds the same tapes, receives the same words and stops at the
/// same place; and the twin back is the old tapes.
pub fn twin_pairs<T: Task>()
    ensures { TwinPairs T.accepts T.answer }
{
    worlds_step_by_step::<T>();
}

/// Where what the viewer is shown, told and flagged is alike in both worlds whatever the tapes are, and its slots are
/// the same, all tapes that fit have a twin under which the second world looks to the viewer like the first.
pub fn twin_of_alike<T: Task>()
    ensures { TwinOfAlike T.accepts T.answer }
{
    twin_fits::<T>();
    twin_pairs::<T>();
}

/// Then the pairing is one to one: different tapes have different twins, and all tapes that fit are a twin.
pub fn twins_differ<T: Task>()
    ensures { TwinsDiffer T.accepts T.answer }
{
    bags::laws::bags_are_equivalence();
    twin_of_alike::<T>();
}
