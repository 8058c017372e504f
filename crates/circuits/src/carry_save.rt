//! Three words as two with the same sum.
#![tactic(auto)]

ghost use Rattle.std.specs.Prelude.{◌≡◌, ◌+◌, ◌*◌, ◌≤◌, length, IfOk};
ghost use Rattle.wires.specs.Environment.{words};
ghost use Rattle.wires.specs.Growth.{Carries, Grows, IsMade, lanes_of};
ghost use Rattle.circuits.specs.Values.{moved_carries, saved_carries, saved_sums};

use std::alloc::AllocError;
use wires::{Wire, Wires};

// Two words that stand for their sum.
#[derive(Clone, Copy)]
pub(crate) struct Saved {
    pub sum: Wire,
    pub carry: Wire,
}

// Three words as two with the same sum: the sums of places without carries, and the carries, moved up by one place;
// one AND word a lane (after Wallace, 1964).
#[tactic(auto, unfolding(crate::specs::Values::saved_sums, crate::specs::Values::saved_carries))]
pub(crate) fn save<W: Wires>(
    wires: &mut W,
    first: Wire,
    second: Wire,
    third: Wire,
) -> Result<Saved, AllocError>
    requires first { IsMade (W.shape wires.old) first }
    requires second { IsMade (W.shape wires.old) second }
    requires third { IsMade (W.shape wires.old) third }
    requires second_lanes { lanes_of (W.shape wires.old) first ≡ lanes_of (W.shape wires.old) second }
    requires third_lanes { lanes_of (W.shape wires.old) first ≡ lanes_of (W.shape wires.old) third }
    ensures grows { Grows W.grown W.possible W.shape wires.old wires.new }
    ensures sum { IfOk result (λ new. Carries (W.possible wires.new) (W.shape wires.new) new.sum (lanes_of (W.shape wires.old) first)
        (λ v. saved_sums (words v first) (words v second) (words v third))) }
    ensures carry { IfOk result (λ new. Carries (W.possible wires.new) (W.shape wires.new) new.carry (lanes_of (W.shape wires.old) first)
        (λ v. saved_carries (words v first) (words v second) (words v third))) }
    ensures cost { W.ands wires.new ≤ W.ands wires.old + lanes_of (W.shape wires.old) first }
    ensures calls { W.and_calls wires.new ≤ W.and_calls wires.old + 1 }
    ensures wires { length (W.shape wires.new) ≤ length (W.shape wires.old) + 6 }
{
    let differing = wires.xor(first, second)?;
    let sum = wires.xor(differing, third)?;
    let carry = carries_of_three(wires, differing, first, third)?;
    Ok(Saved { sum, carry })
}

// The carries of three words, of which the first differs there from the second, moved up by one place.
#[tactic(auto, unfolding(crate::specs::Values::moved_carries))]
fn carries_of_three<W: Wires>(
    wires: &mut W,
    differing: Wire,
    first: Wire,
    third: Wire,
) -> Result<Wire, AllocError>
    requires differing { IsMade (W.shape wires.old) differing }
    requires first { IsMade (W.shape wires.old) first }
    requires third { IsMade (W.shape wires.old) third }
    requires differing_lanes { lanes_of (W.shape wires.old) first ≡ lanes_of (W.shape wires.old) differing }
    requires third_lanes { lanes_of (W.shape wires.old) first ≡ lanes_of (W.shape wires.old) third }
    ensures grows { Grows W.grown W.possible W.shape wires.old wires.new }
    ensures ok { IfOk result (λ new. Carries (W.possible wires.new) (W.shape wires.new) new (lanes_of (W.shape wires.old) first)
        (λ v. moved_carries (words v differing) (words v first) (words v third))) }
    ensures cost { W.ands wires.new ≤ W.ands wires.old + lanes_of (W.shape wires.old) first }
    ensures calls { W.and_calls wires.new ≤ W.and_calls wires.old + 1 }
    ensures wires { length (W.shape wires.new) ≤ length (W.shape wires.old) + 4 }
{
    let others = wires.xor(first, third)?;
    let both = wires.and(differing, others)?;
    let carries = wires.xor(both, first)?;
    let new = wires.left(carries, 1)?;
    Ok(new)
}
