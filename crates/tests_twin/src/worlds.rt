//! A list in two worlds, and what the viewer receives in both.

use crate::made::List;
use joint_machine::{JointRun, joint_run};
use std::test::Fail;
use step_lists::Slots;
use tapes::{LentDraw, Order, Tape, Tapes};
use twin::{TwinFault, twin};

/// The twin, of slots and tapes that fit.
pub(crate) fn twin_of(
    rt: &HostRuntime,
    list: &List,
    viewer: u8,
    slots: &Slots,
    other: &Slots,
    tapes: &Tapes,
) -> Result<Result<Tape, TwinFault>, Fail> {
    if viewer < 1 || 3 < viewer {
        Err("no party")?;
    }
    // That they are Ok tells that slots and tapes fit.
    let _ = joint_run(rt.alloc(), list, slots, tapes)?;
    let _ = joint_run(rt.alloc(), list, other, tapes)?;
    Ok(twin(rt.alloc(), list, viewer, slots, other, tapes))
}

/// The twin, where there is one.
pub(crate) fn made_twin(
    rt: &HostRuntime,
    list: &List,
    viewer: u8,
    slots: &Slots,
    other: &Slots,
    tapes: &Tapes,
) -> Result<Tape, Fail> {
    match twin_of(rt, list, viewer, slots, other, tapes)? {
        Ok(tape) => Ok(tape),
        Err(TwinFault::NotAligned { .. }) => Err("not aligned")?,
        Err(TwinFault::Memory) => Err("memory")?,
    }
}

// The tape that the viewer doesn't hold.
fn unseen(tapes: &Tapes, viewer: u8) -> &Tape {
    match viewer {
        1 => &tapes.third,
        2 => &tapes.first,
        _ => &tapes.second,
    }
}

/// The tapes with another one in the place of that which the viewer doesn't hold.
pub(crate) fn with_twin(
    rt: &HostRuntime,
    tapes: &Tapes,
    viewer: u8,
    twin: &Tape,
) -> Result<Tapes, Fail> {
    let (first, second, third) = match viewer {
        1 => (&tapes.first, &tapes.second, twin),
        2 => (twin, &tapes.second, &tapes.third),
        _ => (&tapes.first, twin, &tapes.third),
    };
    Ok(Tapes {
        first: first.copy(rt.alloc())?,
        second: second.copy(rt.alloc())?,
        third: third.copy(rt.alloc())?,
    })
}

fn same_order(order: &Order, other: &Order) -> bool {
    order.places() == other.places()
}

/// Whether two tapes have the same draws.
pub(crate) fn same_tape(tape: &Tape, other: &Tape) -> bool {
    if tape.len() != other.len() {
        return false;
    }
    for place in 0..tape.len() {
        let same = match (tape.draw(place), other.draw(place)) {
            (Some(LentDraw::Word(word)), Some(LentDraw::Word(other))) => word == other,
            (Some(LentDraw::Order(order)), Some(LentDraw::Order(other))) => same_order(
                order, other,
            ),
            _ => false,
        };
        if !same {
            return false;
        }
    }
    true
}

/// Whether the links to a party carry the same words in two runs.
pub(crate) fn same_view(run: &JointRun, other: &JointRun, viewer: u8) -> bool {
    match viewer {
        1 => {
            run.link(2, 1).as_slice() == other.link(2, 1).as_slice()
                && run.link(3, 1).as_slice() == other.link(3, 1).as_slice()
        }
        2 => {
            run.link(3, 2).as_slice() == other.link(3, 2).as_slice()
                && run.link(1, 2).as_slice() == other.link(1, 2).as_slice()
        }
        _ => {
            run.link(1, 3).as_slice() == other.link(1, 3).as_slice()
                && run.link(2, 3).as_slice() == other.link(2, 3).as_slice()
        }
    }
}

/// Whether the words that the viewer receives in the two worlds differ under the same tapes.
pub(crate) fn differ(
    rt: &HostRuntime,
    list: &List,
    viewer: u8,
    slots: &Slots,
    other: &Slots,
    tapes: &Tapes,
) -> Result<bool, Fail> {
    let run = joint_run(rt.alloc(), list, slots, tapes)?;
    let plain = joint_run(rt.alloc(), list, other, tapes)?;
    Ok(!same_view(&run, &plain, viewer))
}

/// Whether the second world under the twin looks to the viewer like the first, and the twin back is the old tape.
pub(crate) fn are_paired(
    rt: &HostRuntime,
    list: &List,
    viewer: u8,
    slots: &Slots,
    other: &Slots,
    tapes: &Tapes,
) -> Result<bool, Fail> {
    let run = joint_run(rt.alloc(), list, slots, tapes)?;
    let twin = made_twin(rt, list, viewer, slots, other, tapes)?;
    let paired = with_twin(rt, tapes, viewer, &twin)?;
    let looks = joint_run(rt.alloc(), list, other, &paired)?;
    let back = made_twin(rt, list, viewer, other, slots, &paired)?;
    let same = same_view(&run, &looks, viewer) && run.stopped() == looks.stopped();
    Ok(same && same_tape(&back, unseen(tapes, viewer)))
}

/// Whether two worlds that differ under the tapes are paired by the twin.
pub(crate) fn explains(
    rt: &HostRuntime,
    list: &List,
    viewer: u8,
    slots: &Slots,
    other: &Slots,
    tapes: &Tapes,
) -> Result<bool, Fail> {
    Ok(
        differ(rt, list, viewer, slots, other, tapes)?
            && are_paired(rt, list, viewer, slots, other, tapes)?,
    )
}
