//! Equality of words.
#![tactic(auto)]

ghost use Rattle.std.specs.Prelude.{◌≡◌, ◌+◌, ◌*◌, ◌≤◌, length, IfOk};
ghost use Rattle.lanes.specs.Fold.{folded_word};
ghost use Rattle.lanes.specs.Lanes.{lanewise, lanewise1};
ghost use Rattle.lanes.specs.Sums.{equal_word};
ghost use Rattle.wires.specs.Environment.{words};
ghost use Rattle.wires.specs.Growth.{Carries, Grows, IsMade, lanes_of};
ghost use Rattle.circuits.specs.Values.{fold_lanes, shared_fold};

use lanes::word_laws;
use std::alloc::AllocError;
use wires::{Wire, Wires};

/// In each lane 1 where the words are equal, and else 0; six AND words a lane.
///
/// The bits that both words share are folded to one by six ands. Own.
pub fn eq<W: Wires>(wires: &mut W, left: Wire, right: Wire) -> Result<Wire, AllocError>
    requires left { IsMade (W.shape wires.old) left }
    requires right { IsMade (W.shape wires.old) right }
    requires lanes { lanes_of (W.shape wires.old) left ≡ lanes_of (W.shape wires.old) right }
    ensures grows { Grows W.grown W.possible W.shape wires.old wires.new }
    ensures ok { IfOk result (λ new. Carries (W.possible wires.new) (W.shape wires.new) new (lanes_of (W.shape wires.old) left)
        (λ v. lanewise equal_word (words v left) (words v right))) }
    ensures cost { W.ands wires.new ≤ W.ands wires.old + 6 * lanes_of (W.shape wires.old) left }
    ensures calls { W.and_calls wires.new ≤ W.and_calls wires.old + 6 }
    ensures wires { length (W.shape wires.new) ≤ length (W.shape wires.old) + 15 }
{
    word_laws();
    let folded = fold_shared(wires, left, right)?;
    let new = wires.mask(folded, 1)?;
    Ok(new)
}

// The fold of the bits that two wires share.
#[tactic(auto, unfolding(crate::specs::Values::shared_fold))]
fn fold_shared<W: Wires>(wires: &mut W, left: Wire, right: Wire) -> Result<Wire, AllocError>
    requires left { IsMade (W.shape wires.old) left }
    requires right { IsMade (W.shape wires.old) right }
    requires lanes { lanes_of (W.shape wires.old) left ≡ lanes_of (W.shape wires.old) right }
    ensures grows { Grows W.grown W.possible W.shape wires.old wires.new }
    ensures ok { IfOk result (λ new. Carries (W.possible wires.new) (W.shape wires.new) new (lanes_of (W.shape wires.old) left)
        (λ v. shared_fold (words v left) (words v right))) }
    ensures cost { W.ands wires.new ≤ W.ands wires.old + 6 * lanes_of (W.shape wires.old) left }
    ensures calls { W.and_calls wires.new ≤ W.and_calls wires.old + 6 }
    ensures wires { length (W.shape wires.new) ≤ length (W.shape wires.old) + 14 }
{
    let differing = wires.xor(left, right)?;
    let shared = wires.not(differing)?;
    let new = fold_all(wires, shared)?;
    Ok(new)
}

// Bit 0 of each word becomes the and of all its bits.
fn fold_all<W: Wires>(wires: &mut W, wire: Wire) -> Result<Wire, AllocError>
    requires { IsMade (W.shape wires.old) wire }
    ensures grows { Grows W.grown W.possible W.shape wires.old wires.new }
    ensures ok { IfOk result (λ new. Carries (W.possible wires.new) (W.shape wires.new) new (lanes_of (W.shape wires.old) wire)
        (λ v. lanewise1 (folded_word 6) (words v wire))) }
    ensures cost { W.ands wires.new ≤ W.ands wires.old + 6 * lanes_of (W.shape wires.old) wire }
    ensures calls { W.and_calls wires.new ≤ W.and_calls wires.old + 6 }
    ensures wires { length (W.shape wires.new) ≤ length (W.shape wires.old) + 12 }
{
    let mut folded = wire;
    for level in 0..6u32 {
        folded = fold(wires, folded, 1 << level)?;
    }
    Ok(folded)
}

// Each bit with the bit that stands so many places above it; one AND word a lane.
#[tactic(auto, unfolding(crate::specs::Values::fold_lanes))]
fn fold<W: Wires>(wires: &mut W, wire: Wire, places: u32) -> Result<Wire, AllocError>
    requires made { IsMade (W.shape wires.old) wire }
    requires places { places ≤ 63 }
    ensures grows { Grows W.grown W.possible W.shape wires.old wires.new }
    ensures ok { IfOk result (λ new. Carries (W.possible wires.new) (W.shape wires.new) new (lanes_of (W.shape wires.old) wire)
        (λ v. fold_lanes places (words v wire))) }
    ensures cost { W.ands wires.new ≤ W.ands wires.old + lanes_of (W.shape wires.old) wire }
    ensures calls { W.and_calls wires.new ≤ W.and_calls wires.old + 1 }
    ensures wires { length (W.shape wires.new) ≤ length (W.shape wires.old) + 2 }
{
    let moved = wires.right(wire, places)?;
    let new = wires.and(wire, moved)?;
    Ok(new)
}
