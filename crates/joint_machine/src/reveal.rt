//! The step Reveal: three phases, and what is shown behind them.
#![tactic(auto)]

ghost use Rattle.std.specs.Prelude.{◌≡◌, ℕ, ◌<◌, ◌*◌, OnOk, length, map, slice_index};
ghost use Rattle.step_lists.specs.Draws.{ThreeTapes};
ghost use Rattle.step_lists.specs.Machine.{shares};
ghost use Rattle.joint_machine.specs.Ready.{HaveRows, IsMade};
ghost use Rattle.joint_machine.specs.Steps.{IsDrawnFor, HoldPhases, IsReveal, drawn};

use crate::machine::Machine;
use crate::phases::Drawn;
use lanes::{Party, item_laws};
use std::alloc::AllocError;

impl Machine {
    /// Registers of the moved ones in an order that no party knows; the shown ones become slots of a party.
    pub(crate) fn push_reveal(
        &mut self,
        to: Party,
        moved: &[u32],
        shown: &[u32],
        one: &Drawn<'_>,
        two: &Drawn<'_>,
        three: &Drawn<'_>,
    ) -> Result<(), AllocError>
        requires made { (k : ℕ) → k < length moved.now → IsMade self.old (slice_index moved.now k) }
        requires rows { HaveRows (length one.now.order.now) (map (shares self.old) moved.now) }
        requires shown { (k : ℕ) → k < length shown.now → slice_index shown.now k < length moved.now }
        requires one { IsDrawnFor (length one.now.order.now) (length moved.now * length one.now.order.now) (drawn one.now.order.now one.now.mask.now one.now.other.now) }
        requires two { IsDrawnFor (length one.now.order.now) (length moved.now * length one.now.order.now) (drawn two.now.order.now two.now.mask.now two.now.other.now) }
        requires three { IsDrawnFor (length one.now.order.now) (length moved.now * length one.now.order.now) (drawn three.now.order.now three.now.mask.now three.now.other.now) }
        ensures { OnOk result ((ds : ThreeTapes)
            → HoldPhases ds (drawn one.now.order.now one.now.mask.now one.now.other.now) (drawn two.now.order.now two.now.mask.now two.now.other.now) (drawn three.now.order.now three.now.mask.now three.now.other.now)
            → IsReveal self.old (length one.now.order.now) to moved.now shown.now ds self.new) }
    {
        item_laws();
        let start = self.moved_shares(moved)?;
        let first = self.run_phase(Party::First, one.order, &start, one.mask, one.other)?;
        let second = self.run_phase(Party::Second, two.order, &first, two.mask, two.other)?;
        let third = self.run_phase(Party::Third, three.order, &second, three.mask, three.other)?;
        self.show(to, &third, shown, one.order.len())?;
        self.push_registers(third)?;
        Ok(())
    }
}
