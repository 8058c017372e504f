//! Sums, differences and comparisons of words.
#![tactic(auto)]

ghost use Rattle.std.specs.Prelude.{◌≡◌, ◌+◌, ◌*◌, ◌≤◌, length, IfOk};
ghost use Rattle.lanes.specs.Lanes.{lanewise};
ghost use Rattle.lanes.specs.Sums.{difference_word, less_word, sum_word};
ghost use Rattle.wires.specs.Environment.{words};
ghost use Rattle.wires.specs.Growth.{Carries, Grows, IsMade, lanes_of};
ghost use Rattle.circuits.specs.Values.{difference_lanes, less_lanes, sum_lanes};

use crate::prefix::carries;
use lanes::word_laws;
use std::alloc::AllocError;
use wires::{Wire, Wires};

/// The sum of two words modulo 2^64, in each lane; 7 AND words a lane.
///
/// A parallel prefix finds the carries: a level joins the upper half of each block of places with the top of its
/// lower half (after Sklansky, 1960), so its products are two for each of 32 places, and fit one word.
pub fn add<W: Wires>(wires: &mut W, left: Wire, right: Wire) -> Result<Wire, AllocError>
    requires left { IsMade (W.shape wires.old) left }
    requires right { IsMade (W.shape wires.old) right }
    requires lanes { lanes_of (W.shape wires.old) left ≡ lanes_of (W.shape wires.old) right }
    ensures grows { Grows W.grown W.possible W.shape wires.old wires.new }
    ensures ok { IfOk result (λ new. Carries (W.possible wires.new) (W.shape wires.new) new (lanes_of (W.shape wires.old) left)
        (λ v. lanewise sum_word (words v left) (words v right))) }
    ensures cost { W.ands wires.new ≤ W.ands wires.old + 7 * lanes_of (W.shape wires.old) left }
    ensures calls { W.and_calls wires.new ≤ W.and_calls wires.old + 7 }
    ensures wires { length (W.shape wires.new) ≤ length (W.shape wires.old) + 116 }
{
    word_laws();
    let new = add_by_carries(wires, left, right)?;
    Ok(new)
}

/// In each lane 1 where the first word is less, and else 0; 7 AND words a lane.
///
/// It is the carry out of the sum of the turned first word and the second. Own.
pub fn lt<W: Wires>(wires: &mut W, left: Wire, right: Wire) -> Result<Wire, AllocError>
    requires left { IsMade (W.shape wires.old) left }
    requires right { IsMade (W.shape wires.old) right }
    requires lanes { lanes_of (W.shape wires.old) left ≡ lanes_of (W.shape wires.old) right }
    ensures grows { Grows W.grown W.possible W.shape wires.old wires.new }
    ensures ok { IfOk result (λ new. Carries (W.possible wires.new) (W.shape wires.new) new (lanes_of (W.shape wires.old) left)
        (λ v. lanewise less_word (words v left) (words v right))) }
    ensures cost { W.ands wires.new ≤ W.ands wires.old + 7 * lanes_of (W.shape wires.old) left }
    ensures calls { W.and_calls wires.new ≤ W.and_calls wires.old + 7 }
    ensures wires { length (W.shape wires.new) ≤ length (W.shape wires.old) + 115 }
{
    word_laws();
    let new = last_carry(wires, left, right)?;
    Ok(new)
}

/// The difference of two words modulo 2^64, in each lane; 7 AND words a lane.
///
/// It is the turned sum of the turned first word and the second. Own.
pub fn sub<W: Wires>(wires: &mut W, left: Wire, right: Wire) -> Result<Wire, AllocError>
    requires left { IsMade (W.shape wires.old) left }
    requires right { IsMade (W.shape wires.old) right }
    requires lanes { lanes_of (W.shape wires.old) left ≡ lanes_of (W.shape wires.old) right }
    ensures grows { Grows W.grown W.possible W.shape wires.old wires.new }
    ensures ok { IfOk result (λ new. Carries (W.possible wires.new) (W.shape wires.new) new (lanes_of (W.shape wires.old) left)
        (λ v. lanewise difference_word (words v left) (words v right))) }
    ensures cost { W.ands wires.new ≤ W.ands wires.old + 7 * lanes_of (W.shape wires.old) left }
    ensures calls { W.and_calls wires.new ≤ W.and_calls wires.old + 7 }
    ensures wires { length (W.shape wires.new) ≤ length (W.shape wires.old) + 118 }
{
    word_laws();
    let new = turned_sum(wires, left, right)?;
    Ok(new)
}

#[tactic(auto, unfolding(crate::specs::Values::sum_lanes))]
fn add_by_carries<W: Wires>(wires: &mut W, left: Wire, right: Wire) -> Result<Wire, AllocError>
    requires left { IsMade (W.shape wires.old) left }
    requires right { IsMade (W.shape wires.old) right }
    requires lanes { lanes_of (W.shape wires.old) left ≡ lanes_of (W.shape wires.old) right }
    ensures grows { Grows W.grown W.possible W.shape wires.old wires.new }
    ensures ok { IfOk result (λ new. Carries (W.possible wires.new) (W.shape wires.new) new (lanes_of (W.shape wires.old) left)
        (λ v. sum_lanes (words v left) (words v right))) }
    ensures cost { W.ands wires.new ≤ W.ands wires.old + 7 * lanes_of (W.shape wires.old) left }
    ensures calls { W.and_calls wires.new ≤ W.and_calls wires.old + 7 }
    ensures wires { length (W.shape wires.new) ≤ length (W.shape wires.old) + 116 }
{
    let differing = wires.xor(left, right)?;
    let carried = carries(wires, left, right)?;
    let moved = wires.left(carried, 1)?;
    let new = wires.xor(differing, moved)?;
    Ok(new)
}

#[tactic(auto, unfolding(crate::specs::Values::less_lanes))]
fn last_carry<W: Wires>(wires: &mut W, left: Wire, right: Wire) -> Result<Wire, AllocError>
    requires left { IsMade (W.shape wires.old) left }
    requires right { IsMade (W.shape wires.old) right }
    requires lanes { lanes_of (W.shape wires.old) left ≡ lanes_of (W.shape wires.old) right }
    ensures grows { Grows W.grown W.possible W.shape wires.old wires.new }
    ensures ok { IfOk result (λ new. Carries (W.possible wires.new) (W.shape wires.new) new (lanes_of (W.shape wires.old) left)
        (λ v. less_lanes (words v left) (words v right))) }
    ensures cost { W.ands wires.new ≤ W.ands wires.old + 7 * lanes_of (W.shape wires.old) left }
    ensures calls { W.and_calls wires.new ≤ W.and_calls wires.old + 7 }
    ensures wires { length (W.shape wires.new) ≤ length (W.shape wires.old) + 115 }
{
    let turned = wires.not(left)?;
    let carried = carries(wires, turned, right)?;
    let new = wires.right(carried, 63)?;
    Ok(new)
}

#[tactic(auto, unfolding(crate::specs::Values::difference_lanes))]
fn turned_sum<W: Wires>(wires: &mut W, left: Wire, right: Wire) -> Result<Wire, AllocError>
    requires left { IsMade (W.shape wires.old) left }
    requires right { IsMade (W.shape wires.old) right }
    requires lanes { lanes_of (W.shape wires.old) left ≡ lanes_of (W.shape wires.old) right }
    ensures grows { Grows W.grown W.possible W.shape wires.old wires.new }
    ensures ok { IfOk result (λ new. Carries (W.possible wires.new) (W.shape wires.new) new (lanes_of (W.shape wires.old) left)
        (λ v. difference_lanes (words v left) (words v right))) }
    ensures cost { W.ands wires.new ≤ W.ands wires.old + 7 * lanes_of (W.shape wires.old) left }
    ensures calls { W.and_calls wires.new ≤ W.and_calls wires.old + 7 }
    ensures wires { length (W.shape wires.new) ≤ length (W.shape wires.old) + 118 }
{
    let turned = wires.not(left)?;
    let sum = add(wires, turned, right)?;
    let new = wires.not(sum)?;
    Ok(new)
}
