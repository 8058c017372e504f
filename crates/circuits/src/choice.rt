//! A choice between two words.
#![tactic(auto)]

ghost use Rattle.std.specs.Prelude.{◌≡◌, ◌+◌, ◌*◌, ◌≤◌, max, min, length, IfOk};
ghost use Rattle.lanes.specs.Lanes.{lanewise};
ghost use Rattle.wires.specs.Environment.{words};
ghost use Rattle.wires.specs.Growth.{Carries, Grows, IsMade, lanes_of};
ghost use Rattle.circuits.specs.Values.{chosen_lanes, masked_choice};

use crate::sums::lt;
use lanes::word_laws;
use std::alloc::AllocError;
use wires::{Wire, Wires};

/// In each lane the word of `one` where bit 0 of the flag is 1, and else that of `zero`; one AND word a lane.
pub fn mux<W: Wires>(wires: &mut W, flag: Wire, one: Wire, zero: Wire) -> Result<Wire, AllocError>
    requires flag { IsMade (W.shape wires.old) flag }
    requires one { IsMade (W.shape wires.old) one }
    requires zero { IsMade (W.shape wires.old) zero }
    requires one_lanes { lanes_of (W.shape wires.old) flag ≡ lanes_of (W.shape wires.old) one }
    requires zero_lanes { lanes_of (W.shape wires.old) flag ≡ lanes_of (W.shape wires.old) zero }
    ensures grows { Grows W.grown W.possible W.shape wires.old wires.new }
    ensures ok { IfOk result (λ new. Carries (W.possible wires.new) (W.shape wires.new) new (lanes_of (W.shape wires.old) flag)
        (λ v. chosen_lanes (words v flag) (words v one) (words v zero))) }
    ensures cost { W.ands wires.new ≤ W.ands wires.old + lanes_of (W.shape wires.old) flag }
    ensures calls { W.and_calls wires.new ≤ W.and_calls wires.old + 1 }
    ensures wires { length (W.shape wires.new) ≤ length (W.shape wires.old) + 4 }
{
    word_laws();
    let new = choose(wires, flag, one, zero)?;
    Ok(new)
}

// The choice as the second word, changed where the spread flag lets the difference through.
#[tactic(auto, unfolding(crate::specs::Values::masked_choice))]
fn choose<W: Wires>(wires: &mut W, flag: Wire, one: Wire, zero: Wire) -> Result<Wire, AllocError>
    requires flag { IsMade (W.shape wires.old) flag }
    requires one { IsMade (W.shape wires.old) one }
    requires zero { IsMade (W.shape wires.old) zero }
    requires one_lanes { lanes_of (W.shape wires.old) flag ≡ lanes_of (W.shape wires.old) one }
    requires zero_lanes { lanes_of (W.shape wires.old) flag ≡ lanes_of (W.shape wires.old) zero }
    ensures grows { Grows W.grown W.possible W.shape wires.old wires.new }
    ensures ok { IfOk result (λ new. Carries (W.possible wires.new) (W.shape wires.new) new (lanes_of (W.shape wires.old) flag)
        (λ v. masked_choice (words v flag) (words v one) (words v zero))) }
    ensures cost { W.ands wires.new ≤ W.ands wires.old + lanes_of (W.shape wires.old) flag }
    ensures calls { W.and_calls wires.new ≤ W.and_calls wires.old + 1 }
    ensures wires { length (W.shape wires.new) ≤ length (W.shape wires.old) + 4 }
{
    let differing = wires.xor(one, zero)?;
    let mask = wires.spread(flag)?;
    let change = wires.and(mask, differing)?;
    let new = wires.xor(zero, change)?;
    Ok(new)
}

/// The lesser of two words, in each lane; 8 AND words a lane.
pub fn least<W: Wires>(wires: &mut W, left: Wire, right: Wire) -> Result<Wire, AllocError>
    requires left { IsMade (W.shape wires.old) left }
    requires right { IsMade (W.shape wires.old) right }
    requires lanes { lanes_of (W.shape wires.old) left ≡ lanes_of (W.shape wires.old) right }
    ensures grows { Grows W.grown W.possible W.shape wires.old wires.new }
    ensures ok { IfOk result (λ new. Carries (W.possible wires.new) (W.shape wires.new) new (lanes_of (W.shape wires.old) left)
        (λ v. lanewise min (words v left) (words v right))) }
    ensures cost { W.ands wires.new ≤ W.ands wires.old + 8 * lanes_of (W.shape wires.old) left }
    ensures calls { W.and_calls wires.new ≤ W.and_calls wires.old + 8 }
    ensures wires { length (W.shape wires.new) ≤ length (W.shape wires.old) + 119 }
{
    let less = lt(wires, left, right)?;
    let new = mux(wires, less, left, right)?;
    Ok(new)
}

/// The greater of two words, in each lane; 8 AND words a lane.
pub fn greatest<W: Wires>(wires: &mut W, left: Wire, right: Wire) -> Result<Wire, AllocError>
    requires left { IsMade (W.shape wires.old) left }
    requires right { IsMade (W.shape wires.old) right }
    requires lanes { lanes_of (W.shape wires.old) left ≡ lanes_of (W.shape wires.old) right }
    ensures grows { Grows W.grown W.possible W.shape wires.old wires.new }
    ensures ok { IfOk result (λ new. Carries (W.possible wires.new) (W.shape wires.new) new (lanes_of (W.shape wires.old) left)
        (λ v. lanewise max (words v left) (words v right))) }
    ensures cost { W.ands wires.new ≤ W.ands wires.old + 8 * lanes_of (W.shape wires.old) left }
    ensures calls { W.and_calls wires.new ≤ W.and_calls wires.old + 8 }
    ensures wires { length (W.shape wires.new) ≤ length (W.shape wires.old) + 119 }
{
    let less = lt(wires, left, right)?;
    let new = mux(wires, less, right, left)?;
    Ok(new)
}
