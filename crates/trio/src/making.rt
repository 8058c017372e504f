//! Three cores of first slots and tapes that were checked.
#![tactic(auto)]

ghost use Rattle.std.specs.Prelude.{◌≡◌, IsTrue, IfOk, IfErr, OnOk, length, map};
ghost use Rattle.std.specs.List.{AllByRecursion};
ghost use Rattle.lanes.specs.declared.party.Party.{Party};
ghost use Rattle.lanes.specs.Party.{next};
ghost use Rattle.lanes.specs.Three.{at};
ghost use Rattle.lanes.specs.Word.{AreWords};
ghost use Rattle.tapes.specs.Needs.{FitsNeeds};
ghost use Rattle.step_lists.specs.Draws.{needs};
ghost use Rattle.step_lists.specs.Layout.{party_of, starting};
ghost use Rattle.step_lists.specs.Possible.{TapesFit};
ghost use Rattle.step_lists.specs.Rules.{is_party, IsWellFormed};
ghost use Rattle.step_lists.specs.Shapes.{word_lists};
ghost use Rattle.joint_machine.specs.declared.joint.JointFault.TheVariants.{Memory};
ghost use Rattle.joint_machine.specs.Faults.{HaveFirst};
ghost use Rattle.joint_machine.specs.Left.{draws_of};
ghost use Rattle.party_core.specs.CoreView.{fresh_core};
ghost use Rattle.trio.specs.RunOf.{fresh_run};

use joint_machine::JointFault;
use lanes::Three;
use party_core::{Core, CoreFault};
use std::alloc::Global;
use step_lists::{Slots, StepList, Task};
use tapes::{Tape, Tapes, need_laws};

// The core of a party, of slots and tapes that fit the list.
fn make_core<'a, T: Task>(
    list: &'a StepList<T>,
    party: u8,
    slots: Vec<Vec<u64>>,
    own: Tape,
    following: Tape,
) -> Result<Core<'a, T>, JointFault>
    requires party { IsTrue (is_party party) }
    requires slots { map length (word_lists slots) ≡ at (party_of party) list.now.first }
    requires own { FitsNeeds (needs (party_of party) (starting list.now.first) list.now.steps) own }
    requires following { FitsNeeds (needs (next (party_of party)) (starting list.now.first) list.now.steps) following }
    ensures core { IfOk result (λ core. core ≡ fresh_core list.now (party_of party) (word_lists slots) own following) }
    ensures below { OnOk result (AllByRecursion AreWords (word_lists slots)) }
    ensures memory { IfErr result (λ fault. fault ≡ Memory) }
{
    need_laws();
    match Core::new(list, party, slots, own, following) {
        Ok(core) => Ok(core),
        Err(CoreFault::Memory) => Err(JointFault::Memory),
        Err(_) => unreachable!(),
    }
}

/// The cores of the three parties. Each tape is held by two of them.
pub(crate) fn make_cores<'a, T: Task>(
    alloc: Global,
    list: &'a StepList<T>,
    slots: Slots,
    tapes: Tapes,
) -> Result<Three<Core<'a, T>>, JointFault>
    requires slots { HaveFirst list.now slots }
    requires tapes { TapesFit list.now (draws_of tapes) }
    ensures cores { IfOk result (λ cores. cores ≡ (fresh_run list.now slots (draws_of tapes)).cores) }
    ensures well_formed { IsWellFormed T.accepts list.now }
    ensures below { OnOk result ((p : Party) → AllByRecursion AreWords (at p slots)) }
    ensures memory { IfErr result (λ fault. fault ≡ Memory) }
{
    // Its contract says that the list is well-formed.
    let _ = list.steps();
    let Tapes {
        first: one,
        second: two,
        third: three,
    } = tapes;
    let own = one.copy(alloc)?;
    let (first, second, third) = slots.apart();
    let first = make_core(list, 1, first, own, two.copy(alloc)?)?;
    let second = make_core(list, 2, second, two, three.copy(alloc)?)?;
    let third = make_core(list, 3, third, three, one)?;
    Ok(Three {
        first,
        second,
        third,
    })
}
